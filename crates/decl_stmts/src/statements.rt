// Statements without blocks.
ghost use Rattle.std.specs.Prelude.{◌≡◌, suc, [], ◌∷◌, List, Option, option_map, length};
ghost use Rattle.std.specs.Prelude.{None, Some, Ok, IfOk, IfErr};
ghost use Rattle.arc_base.specs.declared.place.Stop.TheVariants as Stop;
ghost use Rattle.arc_base.specs.Refusal.{Answers, and_then};
ghost use Rattle.nim_tree.specs.Statements as tree;
ghost use Rattle.nim_tree.specs.Terms.{term_of, parts_of};
ghost use Rattle.nim_types.specs.Types.{Ty, Facts};
ghost use Rattle.nim_types.specs.Table.{IsBelow};
ghost use Rattle.nim_program.specs.View.{expr_of};
ghost use Rattle.expr_rules.specs.Answers.{node};
ghost use Rattle.expr_parts.specs.View.{Under, number_of};
ghost use Rattle.decl_rules.specs.State.{Around as Near, ResultPlace as Gives, did, does};
ghost use Rattle.decl_rules.specs.Stated.{stated, passed};
ghost use Rattle.decl_rules.specs.Values.{returned, gives_back, gives_last, evaluated, given_if};
ghost use Rattle.decl_parts.specs.View.{around_of, step_of, steps_of, if_result, ResultWithin};
ghost use Rattle.decl_parts.specs.View.{InsideWithin, Ready, AllStatedSo};
ghost use Rattle.decl_stmts.specs.ViewStated.{listed_steps, plain_of, return_behind};

use arc_base::{Code, Place, Stop};
use decl_parts::nodes::{does_one, gives, idle, idle_with, leaves, leaves_with};
use decl_parts::same::is_result;
use decl_parts::state::{Around, Inside, ResultPlace, State, after};
use decl_parts::stmts::list_of;
use decl_parts::typing::{type_command, type_first, value_first};
use decl_parts::values::{given_want, has_type, returned};
use expr_parts::nodes::type_number;
use expr_parts::value::{Typed, Want, refusal};
use nim_program::{Expr, Leaving, Node, Operand, Operation, Stmt};
use nim_tree::Expr as Tree;
use nim_types::TypeTable;
use std::alloc::Global;

/// A statement of one node.
#[derive(Clone, Copy)]
pub enum PlainStmt {
    /// It does nothing.
    Pass,
    /// Control leaves.
    Leaves(Leaving),
}

fn stmt_of(alloc: Global, kind: PlainStmt, node: Node) -> Stmt
    ensures { (ts : List Ty) → step_of ts result ≡ does (plain_of kind node) ∷ [] }
{
    match kind {
        PlainStmt::Pass => idle(node, Vec::new(alloc)),
        PlainStmt::Leaves(leaving) => leaves(node, leaving, Vec::new(alloc)),
    }
}

// A statement of one node, which is the next one.
fn plain(alloc: Global, state: &mut State, at: Place, kind: PlainStmt) -> Result<Vec<Stmt>, Stop>
    requires ready { Ready state.old }
    ensures { AllStatedSo state.old state.new (λ ts st. Ok (did st (plain_of kind
        (node state.old.node at)) (suc state.old.node))) result }
{
    let node = Node {
        number: state.node,
        at,
    };
    match after(state.node) {
        Ok(next) => {
            state.node = next;
            list_of(alloc, stmt_of(alloc, kind, node))
        }
        Err(stop) => Err(stop),
    }
}

/// A statement that does nothing.
pub fn pass(alloc: Global, state: &mut State, at: Place) -> Result<Vec<Stmt>, Stop>
    requires ready { Ready state.old }
    ensures { AllStatedSo state.old state.new (λ ts st. Ok (passed st at)) result }
{
    plain(alloc, state, at, PlainStmt::Pass)
}

// `discard` with a value.
fn discard_value(
    alloc: Global,
    state: &mut State,
    at: Place,
    value: &Tree,
) -> Result<Vec<Stmt>, Stop>
    requires ready { Ready state.old }
    ensures { (a : List Ty → Near) (ends : List Ty → Gives) → AllStatedSo state.old state.new
        (λ ts st. stated (a ts) (ends ts) st (tree.discards at (Some (term_of value.now))))
        result }
{
    let node = Node {
        number: state.node,
        at,
    };
    match value_first(alloc, state, Want::Nothing, value) {
        Ok(given) => {
            state.node = given.next;
            does_one(
                alloc,
                node,
                Operation::Discard,
                Operand::Value(given.value.expr),
            )
        }
        Err(stop) => Err(stop),
    }
}

/// `discard`
pub fn discard(
    alloc: Global,
    state: &mut State,
    at: Place,
    value: &Option<Tree>,
) -> Result<Vec<Stmt>, Stop>
    requires ready { Ready state.old }
    ensures { (a : List Ty → Near) (ends : List Ty → Gives) → AllStatedSo state.old state.new
        (λ ts st. stated (a ts) (ends ts) st (tree.discards at (option_map term_of value.now)))
        result }
{
    match value {
        Some(value) => discard_value(alloc, state, at, value),
        None => plain(alloc, state, at, PlainStmt::Pass),
    }
}

/// `break`
pub fn break_loop(
    alloc: Global,
    state: &mut State,
    around: Around,
    at: Place,
) -> Result<Vec<Stmt>, Stop>
    requires ready { Ready state.old }
    ensures { (ends : List Ty → Gives) → AllStatedSo state.old state.new
        (λ ts st. stated (around_of ts around) (ends ts) st (tree.breaks at)) result }
{
    let in_loop = around.in_loop;
    if !in_loop {
        return Err(refusal(Code::NotTyped, at));
    }
    plain(alloc, state, at, PlainStmt::Leaves(Leaving::Break))
}

/// `continue`
pub fn continue_loop(
    alloc: Global,
    state: &mut State,
    around: Around,
    at: Place,
) -> Result<Vec<Stmt>, Stop>
    requires ready { Ready state.old }
    ensures { (ends : List Ty → Gives) → AllStatedSo state.old state.new
        (λ ts st. stated (around_of ts around) (ends ts) st (tree.continues at)) result }
{
    let in_loop = around.in_loop;
    if !in_loop {
        return Err(refusal(Code::NotTyped, at));
    }
    plain(alloc, state, at, PlainStmt::Leaves(Leaving::Continue))
}

// `return` without a value.
fn return_nothing(
    alloc: Global,
    state: &mut State,
    around: Around,
    at: Place,
) -> Result<Vec<Stmt>, Stop>
    requires ready { Ready state.old }
    ensures { (ends : List Ty → Gives) → AllStatedSo state.old state.new
        (λ ts st. stated (around_of ts around) (ends ts) st (tree.returns at None)) result }
{
    match around.inside {
        Inside::ModuleCode => Err(refusal(Code::NotTyped, at)),
        Inside::Procedure(_) => plain(alloc, state, at, PlainStmt::Leaves(Leaving::Return)),
    }
}

// The result becomes the value, and control goes back; the result itself isn't evaluated.
fn given_back(
    alloc: Global,
    place: Option<ResultPlace>,
    node: Node,
    value: Expr,
) -> Result<Vec<Stmt>, Stop>
    ensures list { IfOk result (λ all. (ts : List Ty) → steps_of ts all.items
        ≡ does (gives_back (if_result ts place) node (expr_of ts value)) ∷ []) }
    ensures memory { IfErr result (λ stop. stop ≡ Stop.Memory) }
{
    if is_result(place, &value) {
        return leaves_with(alloc, node, Leaving::Return, value);
    }
    list_of(alloc, gives(node, true, value))
}

// What is returned, where it has been typed.
fn returned_value(
    alloc: Global,
    state: &mut State,
    gives: Option<ResultPlace>,
    node: Node,
    typed: Typed,
) -> Result<Vec<Stmt>, Stop>
    requires ready { Ready state.old }
    requires gives { ResultWithin (length state.old.types) gives }
    requires within { IsBelow (length state.old.types) (number_of typed.expr) }
    ensures { AllStatedSo state.old state.new (λ ts st. and_then
        (returned (if_result ts gives) (expr_of ts typed.expr))
        (λ v. Ok (did st (gives_back (if_result ts gives) node v.expr) typed.next))) result }
{
    let next = typed.next;
    match returned(&state.types, gives, typed.expr) {
        Ok(value) => {
            state.node = next;
            given_back(alloc, gives, node, value.expr)
        }
        Err(stop) => Err(stop),
    }
}

fn return_from(
    alloc: Global,
    state: &mut State,
    gives: Option<ResultPlace>,
    at: Place,
    value: &Tree,
) -> Result<Vec<Stmt>, Stop>
    requires ready { Ready state.old }
    requires gives { ResultWithin (length state.old.types) gives }
    ensures { AllStatedSo state.old state.new (λ ts st. return_behind st at (term_of value.now)
        (if_result ts gives)) result }
{
    let node = Node {
        number: state.node,
        at,
    };
    match type_first(alloc, state, given_want(gives), value) {
        Ok(typed) => returned_value(alloc, state, gives, node, typed),
        Err(stop) => Err(stop),
    }
}

// `return` with a value.
fn return_value(
    alloc: Global,
    state: &mut State,
    around: Around,
    at: Place,
    value: &Tree,
) -> Result<Vec<Stmt>, Stop>
    requires ready { Ready state.old }
    requires around { InsideWithin (length state.old.types) around.inside }
    ensures { (ends : List Ty → Gives) → AllStatedSo state.old state.new
        (λ ts st. stated (around_of ts around) (ends ts) st
        (tree.returns at (Some (term_of value.now)))) result }
{
    match around.inside {
        Inside::ModuleCode => Err(refusal(Code::NotTyped, at)),
        Inside::Procedure(gives) => return_from(alloc, state, gives, at, value),
    }
}

/// `return`
pub fn return_by(
    alloc: Global,
    state: &mut State,
    around: Around,
    at: Place,
    value: &Option<Tree>,
) -> Result<Vec<Stmt>, Stop>
    requires ready { Ready state.old }
    requires around { InsideWithin (length state.old.types) around.inside }
    ensures { (ends : List Ty → Gives) → AllStatedSo state.old state.new
        (λ ts st. stated (around_of ts around) (ends ts) st
        (tree.returns at (option_map term_of value.now))) result }
{
    match value {
        Some(value) => return_value(alloc, state, around, at, value),
        None => return_nothing(alloc, state, around, at),
    }
}

// The result becomes the value; nothing is done where it is the result itself.
fn given_last(
    alloc: Global,
    place: Option<ResultPlace>,
    node: Node,
    value: Expr,
) -> Result<Vec<Stmt>, Stop>
    ensures list { IfOk result (λ all. (ts : List Ty) → steps_of ts all.items
        ≡ does (gives_last (if_result ts place) node (expr_of ts value)) ∷ []) }
    ensures memory { IfErr result (λ stop. stop ≡ Stop.Memory) }
{
    if is_result(place, &value) {
        return idle_with(alloc, node, value);
    }
    list_of(alloc, gives(node, false, value))
}

// An expression that is a statement: it gives no value, or it ends a body.
fn evaluated_as(
    alloc: Global,
    accepts: bool,
    ends: Option<ResultPlace>,
    node: Node,
    value: Expr,
) -> Result<Vec<Stmt>, Stop>
    ensures { (ts : List Ty) → Answers (listed_steps ts) (and_then (given_if accepts
        (if_result ts ends) node (expr_of ts value)) (λ s. Ok (does s ∷ []))) result }
{
    if !accepts {
        let at = value.node().at;
        drop(value);
        return Err(refusal(Code::NotTyped, at));
    }
    given_last(alloc, ends, node, value)
}

fn evaluated(
    alloc: Global,
    types: &TypeTable,
    ends: Option<ResultPlace>,
    node: Node,
    value: Expr,
) -> Result<Vec<Stmt>, Stop>
    requires ends { ResultWithin (length types.now) ends }
    requires within { IsBelow (length types.now) (number_of value) }
    ensures { (ts : List Ty) (facts : Facts) → Under types.now ts facts
        → Answers (listed_steps ts) (and_then (evaluated (if_result ts ends) node
        (expr_of ts value)) (λ s. Ok (does s ∷ []))) result }
{
    match type_number(&value) {
        Some(ty) => evaluated_as(alloc, has_type(types, ends, ty), ends, node, value),
        None => does_one(alloc, node, Operation::Discard, Operand::Value(value)),
    }
}

fn evaluation(
    alloc: Global,
    state: &mut State,
    ends: Option<ResultPlace>,
    node: Node,
    typed: Typed,
) -> Result<Vec<Stmt>, Stop>
    requires ready { Ready state.old }
    requires ends { ResultWithin (length state.old.types) ends }
    requires within { IsBelow (length state.old.types) (number_of typed.expr) }
    ensures { AllStatedSo state.old state.new (λ ts st. and_then
        (evaluated (if_result ts ends) node (expr_of ts typed.expr))
        (λ s. Ok (did st s typed.next))) result }
{
    state.node = typed.next;
    evaluated(alloc, &state.types, ends, node, typed.expr)
}

/// An expression as a statement.
pub fn evaluate(
    alloc: Global,
    state: &mut State,
    ends: Option<ResultPlace>,
    at: Place,
    value: &Tree,
) -> Result<Vec<Stmt>, Stop>
    requires ready { Ready state.old }
    requires ends { ResultWithin (length state.old.types) ends }
    ensures { (a : List Ty → Near) → AllStatedSo state.old state.new (λ ts st. stated (a ts)
        (if_result ts ends) st (tree.evaluates at (term_of value.now))) result }
{
    let node = Node {
        number: state.node,
        at,
    };
    match type_first(alloc, state, given_want(ends), value) {
        Ok(typed) => evaluation(alloc, state, ends, node, typed),
        Err(stop) => Err(stop),
    }
}

/// A command.
pub fn command(
    alloc: Global,
    state: &mut State,
    ends: Option<ResultPlace>,
    at: Place,
    callee: &Tree,
    operands: &[Tree],
) -> Result<Vec<Stmt>, Stop>
    requires ready { Ready state.old }
    requires ends { ResultWithin (length state.old.types) ends }
    ensures { (a : List Ty → Near) → AllStatedSo state.old state.new (λ ts st. stated (a ts)
        (if_result ts ends) st (tree.commands at (term_of callee.now) (parts_of operands.now)))
        result }
{
    let node = Node {
        number: state.node,
        at,
    };
    match type_command(alloc, state, given_want(ends), at, callee, operands) {
        Ok(typed) => evaluation(alloc, state, ends, node, typed),
        Err(stop) => Err(stop),
    }
}
