// Modules, in the order in which their code runs.
ghost use Rattle.std.specs.Prelude.{◌≡◌, ◌<◌, None, Some, true, length, OnOk, IfErr, slice_get};
ghost use Rattle.arc_base.specs.declared.place.Stop.TheVariants as Stop;
ghost use Rattle.arc_base.specs.Refusal.{Answers};
ghost use Rattle.nim_tree.specs.Statements.{statement_of, statements_of, head_of, proclaims};
ghost use Rattle.decl_rules.specs.State.{in_module};
ghost use Rattle.decl_rules.specs.Stated.{all_stated};
ghost use Rattle.decl_rules.specs.Elaborated.{none_left_out, modules_stated, module_stated};
ghost use Rattle.decl_stmts.specs.ViewStated.{IsPlain};
ghost use Rattle.check_decls.specs.Modules.{body_at, in_order};
ghost use Rattle.check_decls.specs.View.{Sound, Reached, Carrying, Begins};
ghost use Rattle.check_decls.specs.ViewBodies.{noted_rule};

use crate::draft::{Draft, first_scope, note_code};
use crate::procedures::procedure;
use arc_base::{Place, Stop};
use check_forms::check_nothing_left_out;
use decl_parts::state::{Around, Inside};
use decl_stmts::blocks::statement;
use nim_tree::{Module, ProcHead, Stmt as Tree};
use std::alloc::Global;

/// The statements of the module of a number.
fn body_at(modules: &[Module], number: u32) -> &[Tree]
    ensures { statements_of result.now ≡ body_at (slice_get modules.now number) }
{
    match modules.get(number as usize) {
        Some(module) => module.body.as_slice(),
        None => &[],
    }
}

fn number_at(numbers: &[u32], i: usize) -> u32
    requires { i < length numbers.now }
    ensures { slice_get numbers.now i ≡ Some result }
{
    numbers[i]
}

/// Refuses the first form that has no rule yet.
pub fn check_all_forms(modules: &[Module], order: &[u32]) -> Result<(), Stop>
    ensures { Answers (λ _. tt) (none_left_out (in_order modules.now order.now)) result }
{
    for i in 0..order.len() {
        let number = number_at(order, i);
        match check_nothing_left_out(body_at(modules, number)) {
            Ok(()) => {}
            Err(stop) => return Err(stop),
        }
    }
    Ok(())
}

// ---- statements

// A statement that is no procedure.
fn plain_statement(alloc: Global, draft: &mut Draft, tree: &Tree) -> Result<(), Stop>
    requires sound { Sound draft.old }
    requires plain { IsPlain true (statement_of tree.now) }
    ensures { Carrying draft.old draft.new (λ st. noted_rule st (statement_of tree.now)) result }
{
    let around = Around {
        inside: Inside::ModuleCode,
        outermost: true,
        in_loop: false,
    };
    match statement(alloc, &mut draft.state, around, None, tree) {
        Ok(more) => note_code(draft, more),
        Err(stop) => Err(stop),
    }
}

// A procedure, which does nothing.
fn proclamation(
    alloc: Global,
    draft: &mut Draft,
    at: Place,
    head: &ProcHead,
    trees: &[Tree],
) -> Result<(), Stop>
    requires sound { Sound draft.old }
    requires reached { Reached draft.old }
    ensures { Carrying draft.old draft.new (λ st. noted_rule st (proclaims at
        (head_of head.now) (statements_of trees.now))) result }
{
    match procedure(alloc, draft, at, head, trees) {
        Ok(()) => note_code(draft, Vec::new(alloc)),
        Err(stop) => Err(stop),
    }
}

// A statement of module code.
fn outermost_statement(alloc: Global, draft: &mut Draft, tree: &Tree) -> Result<(), Stop>
    requires sound { Sound draft.old }
    requires reached { Reached draft.old }
    ensures { Carrying draft.old draft.new (λ st. noted_rule st (statement_of tree.now)) result }
{
    match tree {
        Tree::Proc { at, head, .. } => proclamation(alloc, draft, *at, head, tree.body()),
        Tree::Discard { .. }
        | Tree::Return { .. }
        | Tree::Raise { .. }
        | Tree::Break { .. }
        | Tree::Continue { .. }
        | Tree::Import { .. }
        | Tree::Eval { .. }
        | Tree::Assign { .. }
        | Tree::Command { .. }
        | Tree::Define { .. }
        | Tree::Types { .. }
        | Tree::If { .. }
        | Tree::Case { .. }
        | Tree::While { .. }
        | Tree::For { .. }
        | Tree::Try { .. }
        | Tree::Defer { .. } => plain_statement(alloc, draft, tree),
    }
}

fn outermost_statements(alloc: Global, draft: &mut Draft, trees: &[Tree]) -> Result<(), Stop>
    requires sound { Sound draft.old }
    requires reached { Reached draft.old }
    ensures carrying { Carrying draft.old draft.new (λ st. all_stated in_module None st
        (statements_of trees.now)) result }
    ensures reached { OnOk result (Reached draft.new) }
{
    for tree in trees {
        match outermost_statement(alloc, draft, tree) {
            Ok(()) => {}
            Err(stop) => return Err(stop),
        }
    }
    Ok(())
}

// ---- modules

fn begin_module(alloc: Global, draft: &mut Draft, number: u32) -> Result<(), Stop>
    requires { Sound draft.old }
    ensures begins { OnOk result (Begins draft.old draft.new number) }
    ensures types { draft.new.state.types ≡ draft.old.state.types }
    ensures memory { IfErr result (λ stop. stop ≡ Stop.Memory) }
{
    let scope = first_scope(alloc, draft.state.scope.kinds, number)?;
    draft.state.outside = scope.count();
    draft.state.scope = scope;
    Ok(())
}

fn module(alloc: Global, draft: &mut Draft, number: u32, trees: &[Tree]) -> Result<(), Stop>
    requires sound { Sound draft.old }
    requires reached { Reached draft.old }
    ensures carrying { Carrying draft.old draft.new (λ st. module_stated st (record {
      number = number;
      body = statements_of trees.now;
    })) result }
    ensures reached { OnOk result (Reached draft.new) }
{
    begin_module(alloc, draft, number)?;
    outermost_statements(alloc, draft, trees)
}

/// The modules, one after another.
pub fn all_modules(
    alloc: Global,
    draft: &mut Draft,
    modules: &[Module],
    order: &[u32],
) -> Result<(), Stop>
    requires sound { Sound draft.old }
    requires reached { Reached draft.old }
    ensures { Carrying draft.old draft.new (λ st. modules_stated st
        (in_order modules.now order.now)) result }
{
    for i in 0..order.len() {
        let number = number_at(order, i);
        match module(alloc, draft, number, body_at(modules, number)) {
            Ok(()) => {}
            Err(stop) => return Err(stop),
        }
    }
    Ok(())
}
