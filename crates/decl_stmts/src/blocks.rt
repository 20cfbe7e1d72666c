// Blocks, and statements with blocks.
ghost use Rattle.std.specs.Prelude.{◌≡◌, List, length, false, map, None, Ok};
ghost use Rattle.arc_base.specs.Refusal.{and_then};
ghost use Rattle.nim_tree.specs.Statements as tree;
ghost use Rattle.nim_tree.specs.Statements.{statement_of, statements_of, branches_of, course_of};
ghost use Rattle.nim_tree.specs.Statements.{definition_of};
ghost use Rattle.nim_tree.specs.Terms.{term_of, parts_of};
ghost use Rattle.nim_tree.specs.Types.{declaration_of};
ghost use Rattle.nim_types.specs.Types.{Ty};
ghost use Rattle.decl_rules.specs.Definitions.{constants_rule};
ghost use Rattle.decl_rules.specs.State.{Around as Near, ResultPlace as Gives};
ghost use Rattle.decl_rules.specs.Stated.{stated, all_stated, all_branches, passed};
ghost use Rattle.decl_parts.specs.View.{around_of, state_of, if_result};
ghost use Rattle.decl_written.specs.ViewWritten.{numbered_of};
ghost use Rattle.decl_parts.specs.View.{InsideWithin, Ready, Stating, AllStatedSo};
ghost use Rattle.decl_stmts.specs.ViewStated.{block_rule, branched_as, branch_as, BlockSo};
ghost use Rattle.decl_stmts.specs.ViewStated.{branch_rule, branch_behind, choice_behind};
ghost use Rattle.decl_stmts.specs.ViewStated.{repetition_behind, listed_stated, Fits};

mod cases;
mod loops;

use crate::assignments::assign;
use crate::constants::constants;
use crate::definitions::definitions;
use crate::sections::section;
use crate::statements::{break_loop, command, continue_loop, discard, evaluate, pass, return_by};
use arc_base::{Code, Place, Stop};
use cases::selection;
use decl_parts::nodes::{choice_of, repetition_of};
use decl_parts::state::{Around, ResultPlace, State, after, leave};
use decl_parts::stmts::{append, list_of};
use decl_parts::typing::{condition_at, value_as_first};
use decl_written::values::Numbered;
use expr_parts::nodes::one_operand;
use expr_parts::value::refusal;
use loops::{each_element, each_int};
use nim_program::{Branch, Kind, Node, Operand, Stmt};
use nim_tree::{
    Binding, Branch as TreeBranch, Def, Expr as Term, Name, Over, Stmt as Tree,
    TypeDef as Declaration,
};
use std::alloc::Global;

// A section of constants, which is a statement that does nothing.
fn constant_section(
    alloc: Global,
    state: &mut State,
    at: Place,
    defs: &[Def],
) -> Result<Vec<Stmt>, Stop>
    requires ready { Ready state.old }
    ensures { AllStatedSo state.old state.new (λ ts st. and_then (constants_rule st
        (map definition_of defs.now)) (λ behind. Ok (passed behind at))) result }
{
    match constants(alloc, state, defs) {
        Ok(()) => pass(alloc, state, at),
        Err(stop) => Err(stop),
    }
}

// A section of types, which is a statement that does nothing.
fn type_section(
    alloc: Global,
    state: &mut State,
    at: Place,
    all: &[Declaration],
) -> Result<Vec<Stmt>, Stop>
    requires ready { Ready state.old }
    ensures { (a : List Ty → Near) (ends : List Ty → Gives) → AllStatedSo state.old state.new
        (λ ts st. stated (a ts) (ends ts) st (tree.types at (map declaration_of all.now)))
        result }
{
    match section(alloc, state, all) {
        Ok(()) => pass(alloc, state, at),
        Err(stop) => Err(stop),
    }
}

// A section of definitions.
fn defined(
    alloc: Global,
    state: &mut State,
    around: Around,
    at: Place,
    binding: Binding,
    defs: &[Def],
) -> Result<Vec<Stmt>, Stop>
    requires ready { Ready state.old }
    ensures { (ends : List Ty → Gives) → AllStatedSo state.old state.new (λ ts st. stated
        (around_of ts around) (ends ts) st (tree.defines at binding (map definition_of defs.now)))
        result }
{
    match binding {
        Binding::Const => constant_section(alloc, state, at, defs),
        Binding::Let | Binding::Var => definitions(alloc, state, around, at, binding, defs),
    }
}

/// Statements of a block, one after another.
#[cycle(statements)]
fn all_stated(
    alloc: Global,
    state: &mut State,
    around: Around,
    trees: &[Tree],
) -> Result<Vec<Stmt>, Stop>
    requires ready { Ready state.old }
    requires around { InsideWithin (length state.old.types) around.inside }
    requires inner { around.outermost ≡ false }
    ensures { AllStatedSo state.old state.new (λ ts st. all_stated (around_of ts around) None st
        (statements_of trees.now)) result }
{
    let mut all = Vec::new(alloc);
    for tree in trees {
        match statement(alloc, state, around, None, tree) {
            Ok(more) => append(&mut all, more)?,
            Err(stop) => return Err(stop),
        }
    }
    Ok(all)
}

/// A block, which is a scope.
#[cycle(statements)]
pub(crate) fn block(
    alloc: Global,
    state: &mut State,
    around: Around,
    trees: &[Tree],
) -> Result<Vec<Stmt>, Stop>
    requires ready { Ready state.old }
    requires around { InsideWithin (length state.old.types) around.inside }
    ensures { BlockSo state.old state.new (λ ts st. block_rule (around_of ts around) st
        (statements_of trees.now)) result }
{
    let outside = state.outside;
    let count = state.scope.count();
    state.outside = count;
    match all_stated(alloc, state, around.deeper(), trees) {
        Ok(stmts) => {
            leave(state, count, outside);
            Ok(stmts)
        }
        Err(stop) => Err(stop),
    }
}

/// The branches of an `if`.
#[cycle(statements)]
fn all_branches(
    alloc: Global,
    state: &mut State,
    around: Around,
    trees: &[TreeBranch],
) -> Result<Vec<Branch>, Stop>
    requires ready { Ready state.old }
    requires around { InsideWithin (length state.old.types) around.inside }
    ensures { Stating state.old state.new (λ ts b all. branched_as ts b state.new all.items)
        (λ ts b. all_branches (around_of ts around) (state_of ts b state.old)
        (branches_of trees.now)) result }
{
    let mut all = Vec::new(alloc);
    for tree in trees {
        match one_branch(alloc, state, around, tree) {
            Ok(one) => all.push(one)?,
            Err(stop) => return Err(stop),
        }
    }
    Ok(all)
}

/// A branch of an `if`.
#[cycle(statements)]
fn one_branch(
    alloc: Global,
    state: &mut State,
    around: Around,
    tree: &TreeBranch,
) -> Result<Branch, Stop>
    requires ready { Ready state.old }
    requires around { InsideWithin (length state.old.types) around.inside }
    ensures { Stating state.old state.new (λ ts b one. branch_as ts b state.new one)
        (λ ts b. branch_rule (around_of ts around) (state_of ts b state.old) tree.now.at
        (parts_of tree.now.tests.items) (statements_of tree.now.body.items)) result }
{
    match condition_at(alloc, state, tree.at, &tree.tests) {
        Ok(given) => branch_with(alloc, state, around, given, &tree.body),
        Err(stop) => Err(stop),
    }
}

/// A branch of an `if`, behind its condition.
#[cycle(statements)]
fn branch_with(
    alloc: Global,
    state: &mut State,
    around: Around,
    given: Numbered,
    body: &[Tree],
) -> Result<Branch, Stop>
    requires ready { Ready state.old }
    requires around { InsideWithin (length state.old.types) around.inside }
    ensures { Stating state.old state.new (λ ts b one. branch_as ts b state.new one)
        (λ ts b. branch_behind (around_of ts around) (state_of ts b state.old)
        (statements_of body.now) (numbered_of ts given)) result }
{
    state.node = given.next;
    match block(alloc, state, around, body) {
        Ok(body) => Ok(Branch {
            condition: given.value.expr,
            body,
        }),
        Err(stop) => {
            drop(given);
            Err(stop)
        }
    }
}

/// An `if`.
#[cycle(statements)]
fn choice(
    alloc: Global,
    state: &mut State,
    around: Around,
    at: Place,
    branches: &[TreeBranch],
    otherwise: &[Tree],
) -> Result<Vec<Stmt>, Stop>
    requires ready { Ready state.old }
    requires around { InsideWithin (length state.old.types) around.inside }
    ensures { (ends : List Ty → Gives) → AllStatedSo state.old state.new (λ ts st. stated
        (around_of ts around) (ends ts) st (tree.branches at (branches_of branches.now)
        (statements_of otherwise.now))) result }
{
    let node = Node {
        number: state.node,
        at,
    };
    let next = after(state.node)?;
    state.node = next;
    match all_branches(alloc, state, around, branches) {
        Ok(all) => choice_with(alloc, state, around, node, all, otherwise),
        Err(stop) => Err(stop),
    }
}

/// An `if`, behind its branches.
#[cycle(statements)]
fn choice_with(
    alloc: Global,
    state: &mut State,
    around: Around,
    node: Node,
    all: Vec<Branch>,
    otherwise: &[Tree],
) -> Result<Vec<Stmt>, Stop>
    requires ready { Ready state.old }
    requires around { InsideWithin (length state.old.types) around.inside }
    ensures { Stating state.old state.new (λ ts b s. listed_stated ts b state.new s)
        (λ ts b. choice_behind (around_of ts around) node (statements_of otherwise.now)
        (branched_as ts b state.old all.items)) result }
{
    match block(alloc, state, around, otherwise) {
        Ok(stmts) => list_of(alloc, choice_of(node, all, stmts)),
        Err(stop) => Err(stop),
    }
}

/// A `while`.
#[cycle(statements)]
fn repetition(
    alloc: Global,
    state: &mut State,
    around: Around,
    at: Place,
    condition: &Term,
    body: &[Tree],
) -> Result<Vec<Stmt>, Stop>
    requires ready { Ready state.old }
    requires around { InsideWithin (length state.old.types) around.inside }
    ensures { (ends : List Ty → Gives) → AllStatedSo state.old state.new (λ ts st. stated
        (around_of ts around) (ends ts) st (tree.repeats at (term_of condition.now)
        (statements_of body.now))) result }
{
    let node = Node {
        number: state.node,
        at,
    };
    let bools = state.scope.kinds.bool;
    match value_as_first(alloc, state, bools, condition) {
        Ok(given) => repetition_with(alloc, state, around.looping(), node, given, body),
        Err(stop) => Err(stop),
    }
}

/// A `while`, behind its condition.
#[cycle(statements)]
fn repetition_with(
    alloc: Global,
    state: &mut State,
    around: Around,
    node: Node,
    given: Numbered,
    body: &[Tree],
) -> Result<Vec<Stmt>, Stop>
    requires ready { Ready state.old }
    requires around { InsideWithin (length state.old.types) around.inside }
    ensures { AllStatedSo state.old state.new (λ ts st. repetition_behind (around_of ts around) st
        node (statements_of body.now) (numbered_of ts given)) result }
{
    state.node = given.next;
    let head = one_operand(alloc, Operand::Value(given.value.expr))?;
    match block(alloc, state, around, body) {
        Ok(stmts) => list_of(alloc, repetition_of(node, Kind::While, head, stmts)),
        Err(stop) => {
            drop(head);
            Err(stop)
        }
    }
}

/// A `for`.
#[cycle(statements)]
fn each(
    alloc: Global,
    state: &mut State,
    around: Around,
    at: Place,
    name: &Name,
    over: &Over,
    body: &[Tree],
) -> Result<Vec<Stmt>, Stop>
    requires ready { Ready state.old }
    requires around { InsideWithin (length state.old.types) around.inside }
    ensures { (ends : List Ty → Gives) → AllStatedSo state.old state.new (λ ts st. stated
        (around_of ts around) (ends ts) st (tree.counts at name.now (course_of over.now)
        (statements_of body.now))) result }
{
    match over {
        Over::Each(value) => each_element(alloc, state, around, at, name, value, body),
        Over::UpTo(first, last) => {
            each_int(alloc, state, around, at, name, first, last, true, body)
        }
        Over::Below(first, last) => {
            each_int(alloc, state, around, at, name, first, last, false, body)
        }
    }
}

/// A statement.
#[cycle(statements)]
pub fn statement(
    alloc: Global,
    state: &mut State,
    around: Around,
    ends: Option<ResultPlace>,
    tree: &Tree,
) -> Result<Vec<Stmt>, Stop>
    requires { Fits state.old around ends (statement_of tree.now) }
    ensures { AllStatedSo state.old state.new (λ ts st. stated (around_of ts around)
        (if_result ts ends) st (statement_of tree.now)) result }
{
    match tree {
        Tree::Discard { at, value } => discard(alloc, state, *at, value),
        Tree::Return { at, value } => return_by(alloc, state, around, *at, value),
        Tree::Break { at } => break_loop(alloc, state, around, *at),
        Tree::Continue { at } => continue_loop(alloc, state, around, *at),
        Tree::Eval { at, value } => evaluate(alloc, state, ends, *at, value),
        Tree::Assign {
            at,
            op,
            target,
            value,
        } => assign(alloc, state, *at, *op, target, value),
        Tree::Command {
            at,
            callee,
            operands,
        } => command(alloc, state, ends, *at, callee, operands),
        Tree::Define { at, binding, defs } => defined(alloc, state, around, *at, *binding, defs),
        Tree::Types { at, defs } => type_section(alloc, state, *at, defs),
        Tree::If { at, .. } => choice(alloc, state, around, *at, tree.branches(), tree.closing()),
        Tree::While { at, condition, .. } => {
            repetition(alloc, state, around, *at, condition, tree.body())
        }
        Tree::Case { at, selector, .. } => {
            let all = tree.branches();
            selection(alloc, state, around, *at, selector, all, tree.closing())
        }
        Tree::For {
            at,
            variable,
            over,
            ..
        } => each(alloc, state, around, *at, variable, over, tree.body()),
        Tree::Raise { at, .. } => Err(refusal(Code::LeftOut, *at)),
        Tree::Import { at, .. } => Err(refusal(Code::LeftOut, *at)),
        Tree::Try { at, .. } => Err(refusal(Code::LeftOut, *at)),
        Tree::Defer { at, .. } => Err(refusal(Code::LeftOut, *at)),
        Tree::Proc { at, .. } => Err(refusal(Code::NotTyped, *at)),
    }
}
