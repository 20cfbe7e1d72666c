// `for`, whose variable stands in a scope of its own.
ghost use Rattle.std.specs.Prelude.{◌≡◌, ◌<◌, List, length, IfErr, OnOk};
ghost use Rattle.arc_base.specs.declared.place.Stop.TheVariants as Stop;
ghost use Rattle.nim_tree.specs.Statements as tree;
ghost use Rattle.nim_tree.specs.Statements.{statements_of};
ghost use Rattle.nim_tree.specs.Terms.{term_of};
ghost use Rattle.nim_types.specs.Types.{Ty};
ghost use Rattle.nim_types.specs.Table.{type_at};
ghost use Rattle.decl_rules.specs.State.{ResultPlace as Gives};
ghost use Rattle.decl_rules.specs.Stated.{stated};
ghost use Rattle.decl_parts.specs.View.{around_of};
ghost use Rattle.decl_written.specs.ViewWritten.{numbered_of};
ghost use Rattle.decl_parts.specs.View.{InsideWithin, Ready, AllStatedSo};
ghost use Rattle.decl_stmts.specs.ViewStated.{BlockSo};
ghost use Rattle.decl_stmts.specs.ViewLoops.{loop_rule, each_behind, each_within, ints_behind};
ghost use Rattle.decl_stmts.specs.ViewLoops.{ints_within, course_by, Begun};

use crate::blocks::block;
use arc_base::{Place, Stop};
use decl_parts::names::place_of;
use decl_parts::nodes::repetition_of;
use decl_parts::state::{Around, State, after, leave};
use decl_parts::stmts::list_of;
use decl_parts::typing::{value_as_at, value_as_first, value_first};
use decl_parts::values::element_rule;
use decl_written::values::Numbered;
use expr_parts::nodes::{one_operand, two_operands};
use expr_parts::paths::path_of;
use expr_parts::scope::{Decl, What};
use expr_parts::value::Want;
use indent_scanner::normal_form;
use nim_program::{Kind, Node, Operand, Stmt};
use nim_tree::{Expr as Term, Name, Stmt as Tree};
use nim_types::TypeId;
use std::alloc::Global;

// The scope of the variable begins.
fn begin_loop(alloc: Global, state: &mut State, name: &Name, ty: TypeId) -> Result<(), Stop>
    requires ready { Ready state.old }
    requires ty { ty < length state.old.types }
    ensures begun { OnOk result (Begun state.old state.new name.now ty) }
    ensures types { state.new.types ≡ state.old.types }
    ensures memory { IfErr result (λ stop. stop ≡ Stop.Memory) }
{
    let word = normal_form(alloc, name.text.as_slice())?;
    let number = state.place;
    let further = after(number)?;
    let outside = state.scope.count();
    state.scope.declare(Decl {
        name: word,
        what: What::Variable {
            place: number,
            ty,
            writable: false,
            global: false,
        },
    })?;
    state.outside = outside;
    state.place = further;
    Ok(())
}

/// The body of a `for`, with its variable.
#[cycle(statements)]
fn loop_body(
    alloc: Global,
    state: &mut State,
    around: Around,
    name: &Name,
    ty: TypeId,
    trees: &[Tree],
) -> Result<Vec<Stmt>, Stop>
    requires ready { Ready state.old }
    requires around { InsideWithin (length state.old.types) around.inside }
    requires ty { ty < length state.old.types }
    ensures { BlockSo state.old state.new (λ ts st. loop_rule (around_of ts around) st name.now
        (type_at ts ty) (statements_of trees.now)) result }
{
    let outside = state.outside;
    let count = state.scope.count();
    begin_loop(alloc, state, name, ty)?;
    match block(alloc, state, around, trees) {
        Ok(stmts) => {
            leave(state, count, outside);
            Ok(stmts)
        }
        Err(stop) => Err(stop),
    }
}

/// A `for` over the elements of a value.
#[cycle(statements)]
pub(crate) fn each_element(
    alloc: Global,
    state: &mut State,
    around: Around,
    at: Place,
    name: &Name,
    over: &Term,
    body: &[Tree],
) -> Result<Vec<Stmt>, Stop>
    requires ready { Ready state.old }
    requires around { InsideWithin (length state.old.types) around.inside }
    ensures { (ends : List Ty → Gives) → AllStatedSo state.old state.new (λ ts st. stated
        (around_of ts around) (ends ts) st (tree.counts at name.now (tree.each (term_of over.now))
        (statements_of body.now))) result }
{
    let node = Node {
        number: state.node,
        at,
    };
    match value_first(alloc, state, Want::Nothing, over) {
        Ok(given) => each_with(alloc, state, around.looping(), node, name, given, body),
        Err(stop) => Err(stop),
    }
}

// Behind the value.
#[cycle(statements)]
fn each_with(
    alloc: Global,
    state: &mut State,
    around: Around,
    node: Node,
    name: &Name,
    given: Numbered,
    body: &[Tree],
) -> Result<Vec<Stmt>, Stop>
    requires ready { Ready state.old }
    requires around { InsideWithin (length state.old.types) around.inside }
    requires given { given.value.ty < length state.old.types }
    ensures { AllStatedSo state.old state.new (λ ts st. each_behind (around_of ts around) st node
        name.now (statements_of body.now) (numbered_of ts given)) result }
{
    match element_rule(&state.types, state.scope.kinds, &given.value) {
        Ok(ty) => each_typed(alloc, state, around, node, name, given, ty, body),
        Err(stop) => {
            drop(given);
            Err(stop)
        }
    }
}

// With the type of the elements.
#[cycle(statements)]
fn each_typed(
    alloc: Global,
    state: &mut State,
    around: Around,
    node: Node,
    name: &Name,
    given: Numbered,
    ty: TypeId,
    body: &[Tree],
) -> Result<Vec<Stmt>, Stop>
    requires ready { Ready state.old }
    requires around { InsideWithin (length state.old.types) around.inside }
    requires ty { ty < length state.old.types }
    ensures { AllStatedSo state.old state.new (λ ts st. each_within (around_of ts around) st node
        name.now (statements_of body.now) (numbered_of ts given) (type_at ts ty)) result }
{
    state.node = given.next;
    let path = path_of(alloc, given.value.expr)?;
    let head = one_operand(alloc, Operand::At(path))?;
    let variable = place_of(alloc, state.place, name.text.as_slice(), name.at, ty)?;
    match loop_body(alloc, state, around, name, ty, body) {
        Ok(stmts) => list_of(
            alloc,
            repetition_of(node, Kind::Each { variable }, head, stmts),
        ),
        Err(stop) => {
            drop(head);
            Err(stop)
        }
    }
}

/// A `for` over ints.
#[cycle(statements)]
pub(crate) fn each_int(
    alloc: Global,
    state: &mut State,
    around: Around,
    at: Place,
    name: &Name,
    first: &Term,
    last: &Term,
    inclusive: bool,
    body: &[Tree],
) -> Result<Vec<Stmt>, Stop>
    requires ready { Ready state.old }
    requires around { InsideWithin (length state.old.types) around.inside }
    ensures { (ends : List Ty → Gives) → AllStatedSo state.old state.new (λ ts st. stated
        (around_of ts around) (ends ts) st (tree.counts at name.now (course_by inclusive
        (term_of first.now) (term_of last.now)) (statements_of body.now))) result }
{
    let node = Node {
        number: state.node,
        at,
    };
    let ints = state.scope.kinds.int;
    match value_as_first(alloc, state, ints, first) {
        Ok(from) => int_with(
            alloc,
            state,
            around.looping(),
            node,
            name,
            from,
            last,
            inclusive,
            body,
        ),
        Err(stop) => Err(stop),
    }
}

// Behind the first.
#[cycle(statements)]
fn int_with(
    alloc: Global,
    state: &mut State,
    around: Around,
    node: Node,
    name: &Name,
    from: Numbered,
    last: &Term,
    inclusive: bool,
    body: &[Tree],
) -> Result<Vec<Stmt>, Stop>
    requires ready { Ready state.old }
    requires around { InsideWithin (length state.old.types) around.inside }
    ensures { AllStatedSo state.old state.new (λ ts st. ints_behind (around_of ts around) st node
        name.now inclusive (term_of last.now) (statements_of body.now)
        (numbered_of ts from)) result }
{
    let ints = state.scope.kinds.int;
    match value_as_at(alloc, state, ints, from.next, last) {
        Ok(to) => ints_with(alloc, state, around, node, name, from, to, inclusive, body),
        Err(stop) => {
            drop(from);
            Err(stop)
        }
    }
}

// Behind both.
#[cycle(statements)]
fn ints_with(
    alloc: Global,
    state: &mut State,
    around: Around,
    node: Node,
    name: &Name,
    from: Numbered,
    to: Numbered,
    inclusive: bool,
    body: &[Tree],
) -> Result<Vec<Stmt>, Stop>
    requires ready { Ready state.old }
    requires around { InsideWithin (length state.old.types) around.inside }
    ensures { AllStatedSo state.old state.new (λ ts st. ints_within (around_of ts around) st node
        name.now inclusive (statements_of body.now) (numbered_of ts from)
        (numbered_of ts to)) result }
{
    state.node = to.next;
    let ints = state.scope.kinds.int;
    let head = two_operands(
        alloc,
        Operand::Value(from.value.expr),
        Operand::Value(to.value.expr),
    )?;
    let variable = place_of(alloc, state.place, name.text.as_slice(), name.at, ints)?;
    match loop_body(alloc, state, around, name, ints, body) {
        Ok(stmts) => {
            let kind = Kind::Count {
                variable,
                inclusive,
            };
            list_of(alloc, repetition_of(node, kind, head, stmts))
        }
        Err(stop) => {
            drop(head);
            Err(stop)
        }
    }
}
