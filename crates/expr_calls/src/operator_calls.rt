// Operators between operands.
ghost use Rattle.std.specs.Prelude.{◌≡◌, ◌<◌, List, length, Some, true, IfOk};
ghost use Rattle.arc_base.specs.Refusal.{Answers};
ghost use Rattle.nim_types.specs.Types.{Ty, Facts};
ghost use Rattle.nim_types.specs.Table.{IsBelow};
ghost use Rattle.nim_program.specs.View.{expr_of};
ghost use Rattle.expr_rules.specs.Answers.{value, open_sequence};
ghost use Rattle.expr_rules.specs.Operators.{binary_rule, borrowed_by, borrowed_name};
ghost use Rattle.expr_rules.specs.Operators.{is_comparison};
ghost use Rattle.expr_parts.specs.View.{Under, OperandWithin, operand_of, valued_of, number_of};
ghost use Rattle.expr_parts.specs.View.{env_of};
ghost use Rattle.expr_calls.specs.ViewCalls.{IfMeaning};
ghost use Rattle.expr_parts.specs.ViewReady.{IsReady};

use crate::calls_by_name::one_fitting;
use arc_base::{Code, Place, Stop};
use expr_parts::kinds::{entry, is_same};
use expr_parts::operand_lists::both_in;
use expr_parts::operations::operation;
use expr_parts::operators::{Meaning, is_comparison, meaning_on};
use expr_parts::scope::Scope;
use expr_parts::settle::settle;
use expr_parts::value::{Operand, Value, refusal};
use nim_program::Expr;
use nim_tree::BinaryOp;
use nim_types::TypeTable;
use std::alloc::Global;

// The name of a comparison.
fn comparison_name(op: BinaryOp) -> &'static [u8]
    ensures { is_comparison op ≡ true → borrowed_name op ≡ Some result.now }
{
    match op {
        BinaryOp::Equal => b"==",
        BinaryOp::Unequal => b"!=",
        BinaryOp::Less => b"<",
        BinaryOp::AtMost => b"<=",
        BinaryOp::Greater => b">",
        BinaryOp::AtLeast => b">=",
        _ => b"",
    }
}

// A comparison of values that may be borrowed.
fn borrowed_by(
    alloc: Global,
    types: &TypeTable,
    scope: &Scope,
    number: u32,
    at: Place,
    op: BinaryOp,
    left: Value,
    right: Value,
) -> Result<Expr, Stop>
    requires ready { IsReady types.now scope.now }
    requires left { left.ty < length types.now }
    requires right { right.ty < length types.now }
    ensures answers { (ts : List Ty) (facts : Facts) → Under types.now ts facts
        → Answers (expr_of ts) (borrowed_by (env_of ts facts scope.now) number at
        (borrowed_name op) (valued_of ts left) (valued_of ts right)) result }
    ensures within { IfOk result (λ e. IsBelow (length types.now) (number_of e)) }
{
    if !is_comparison(op) {
        drop(left);
        drop(right);
        return Err(refusal(Code::NotTyped, at));
    }
    let operands = both_in(alloc, Operand::Value(left), Operand::Value(right))?;
    one_fitting(
        alloc,
        types,
        scope,
        number,
        at,
        comparison_name(op),
        operands,
    )
}

fn has_meaning(meaning: Meaning) -> bool
    ensures { IfMeaning meaning result }
{
    match meaning {
        Meaning::Nothing => false,
        _ => true,
    }
}

// An operator between values.
fn binary_values(
    alloc: Global,
    types: &TypeTable,
    scope: &Scope,
    number: u32,
    at: Place,
    op: BinaryOp,
    left: Value,
    right: Value,
) -> Result<Expr, Stop>
    requires ready { IsReady types.now scope.now }
    requires left { left.ty < length types.now }
    requires right { right.ty < length types.now }
    ensures answers { (ts : List Ty) (facts : Facts) → Under types.now ts facts
        → Answers (expr_of ts) (binary_rule (env_of ts facts scope.now) number at op
        (value (valued_of ts left)) (value (valued_of ts right))) result }
    ensures within { IfOk result (λ e. IsBelow (length types.now) (number_of e)) }
{
    let are_same = is_same(types, left.ty, right.ty);
    let meaning = meaning_on(op, are_same, entry(types, left.ty), entry(types, right.ty));
    if !has_meaning(meaning) {
        return borrowed_by(alloc, types, scope, number, at, op, left, right);
    }
    operation(alloc, types, scope.kinds, number, at, meaning, left, right)
}

// With `@[]` behind it.
fn value_and_open(
    alloc: Global,
    types: &TypeTable,
    scope: &Scope,
    number: u32,
    at: Place,
    op: BinaryOp,
    left: Value,
    place: Place,
    opened: u32,
) -> Result<Expr, Stop>
    requires ready { IsReady types.now scope.now }
    requires left { left.ty < length types.now }
    ensures answers { (ts : List Ty) (facts : Facts) → Under types.now ts facts
        → Answers (expr_of ts) (binary_rule (env_of ts facts scope.now) number at op
        (value (valued_of ts left)) (open_sequence place opened)) result }
    ensures within { IfOk result (λ e. IsBelow (length types.now) (number_of e)) }
{
    let ty = left.ty;
    let operand = Operand::Open {
        at: place,
        number: opened,
    };
    match settle(alloc, types, ty, operand) {
        Some(right) => binary_values(alloc, types, scope, number, at, op, left, right),
        None => {
            drop(left);
            Err(refusal(Code::NotTyped, place))
        }
    }
}

// With `@[]` before it.
fn open_and_value(
    alloc: Global,
    types: &TypeTable,
    scope: &Scope,
    number: u32,
    at: Place,
    op: BinaryOp,
    place: Place,
    opened: u32,
    right: Value,
) -> Result<Expr, Stop>
    requires ready { IsReady types.now scope.now }
    requires right { right.ty < length types.now }
    ensures answers { (ts : List Ty) (facts : Facts) → Under types.now ts facts
        → Answers (expr_of ts) (binary_rule (env_of ts facts scope.now) number at op
        (open_sequence place opened) (value (valued_of ts right))) result }
    ensures within { IfOk result (λ e. IsBelow (length types.now) (number_of e)) }
{
    let ty = right.ty;
    let operand = Operand::Open {
        at: place,
        number: opened,
    };
    match settle(alloc, types, ty, operand) {
        Some(left) => binary_values(alloc, types, scope, number, at, op, left, right),
        None => {
            drop(right);
            Err(refusal(Code::NotTyped, place))
        }
    }
}

fn behind_value(
    alloc: Global,
    types: &TypeTable,
    scope: &Scope,
    number: u32,
    at: Place,
    op: BinaryOp,
    left: Value,
    right: Operand,
) -> Result<Expr, Stop>
    requires ready { IsReady types.now scope.now }
    requires left { left.ty < length types.now }
    requires right { OperandWithin (length types.now) right }
    ensures answers { (ts : List Ty) (facts : Facts) → Under types.now ts facts
        → Answers (expr_of ts) (binary_rule (env_of ts facts scope.now) number at op
        (value (valued_of ts left)) (operand_of ts right)) result }
    ensures within { IfOk result (λ e. IsBelow (length types.now) (number_of e)) }
{
    match right {
        Operand::Value(right) => { binary_values(alloc, types, scope, number, at, op, left, right) }
        Operand::Open {
            at: place,
            number: opened,
        } => value_and_open(alloc, types, scope, number, at, op, left, place, opened),
        _ => {
            drop(left);
            Err(refusal(Code::NotTyped, at))
        }
    }
}

fn behind_open(
    alloc: Global,
    types: &TypeTable,
    scope: &Scope,
    number: u32,
    at: Place,
    op: BinaryOp,
    place: Place,
    opened: u32,
    right: Operand,
) -> Result<Expr, Stop>
    requires ready { IsReady types.now scope.now }
    requires right { OperandWithin (length types.now) right }
    ensures answers { (ts : List Ty) (facts : Facts) → Under types.now ts facts
        → Answers (expr_of ts) (binary_rule (env_of ts facts scope.now) number at op
        (open_sequence place opened) (operand_of ts right)) result }
    ensures within { IfOk result (λ e. IsBelow (length types.now) (number_of e)) }
{
    match right {
        Operand::Value(right) => {
            open_and_value(alloc, types, scope, number, at, op, place, opened, right)
        }
        _ => Err(refusal(Code::NotTyped, place)),
    }
}

/// An operator between operands.
pub fn binary_rule(
    alloc: Global,
    types: &TypeTable,
    scope: &Scope,
    number: u32,
    at: Place,
    op: BinaryOp,
    left: Operand,
    right: Operand,
) -> Result<Expr, Stop>
    requires ready { IsReady types.now scope.now }
    requires left { OperandWithin (length types.now) left }
    requires right { OperandWithin (length types.now) right }
    ensures answers { (ts : List Ty) (facts : Facts) → Under types.now ts facts
        → Answers (expr_of ts) (binary_rule (env_of ts facts scope.now) number at op
        (operand_of ts left) (operand_of ts right)) result }
    ensures within { IfOk result (λ e. IsBelow (length types.now) (number_of e)) }
{
    match left {
        Operand::Value(left) => { behind_value(alloc, types, scope, number, at, op, left, right) }
        Operand::Open {
            at: place,
            number: opened,
        } => behind_open(alloc, types, scope, number, at, op, place, opened, right),
        _ => {
            drop(right);
            Err(refusal(Code::NotTyped, at))
        }
    }
}
