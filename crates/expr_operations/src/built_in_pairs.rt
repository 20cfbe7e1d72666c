// Operations that are built in on two operands.
ghost use Rattle.std.specs.Prelude.{◌≡◌, ◌<◌, ◌∷◌, [], ℕ, List, length, option_map, IfOk, Some};
ghost use Rattle.arc_base.specs.Refusal.{Answers};
ghost use Rattle.nim_types.specs.Types.{Ty, Facts, same, bool};
ghost use Rattle.nim_types.specs.Table.{type_at, IsBelow};
ghost use Rattle.nim_program.specs.View.{expr_of, path_of as path_in};
ghost use Rattle.expr_rules.specs.Answers.{node, value as a_value, the_input};
ghost use Rattle.expr_rules.specs.Builtins.{operation_by, first_row, settled_in, is_text};
ghost use Rattle.expr_parts.specs.View.{Under, KindsIn, OperandWithin};
ghost use Rattle.expr_parts.specs.View.{operand_of, valued_of, number_of, no_fit_at};
ghost use Rattle.expr_operations.specs.ViewOperations.{rows_of, second_rows, line_rows};
ghost use Rattle.expr_operations.specs.ViewOperations.{taken_types, TakenWithin, joined, swapped};
ghost use Rattle.expr_operations.specs.declared.built_in.Second.TheVariants as Second;

use crate::built_in::{BuiltIn, Hand, Join, Makes, Second, Taken, is_reading, second_of, taken_by};
use crate::built_in_nodes::make;
use arc_base::{Code, Place, Stop};
use expr_parts::kinds::{entry, is_same, is_text};
use expr_parts::nodes;
use expr_parts::paths::written;
use expr_parts::scope::Kinds;
use expr_parts::settle::{settle, settles};
use expr_parts::value::{Operand, Value, refusal};
use nim_program::{Expr, Operand as Argument, Operation, Path};
use nim_types::{TypeId, TypeTable};
use std::alloc::Global;

// The operand as a value of one of the types.
fn settle_in(alloc: Global, types: &TypeTable, taken: Taken, operand: Operand) -> Option<Value>
    requires taken { TakenWithin (length types.now) taken }
    requires operand { OperandWithin (length types.now) operand }
    ensures given { (ts : List Ty) (facts : Facts) → Under types.now ts facts
        → option_map (valued_of ts) result
        ≡ settled_in (taken_types ts taken) (operand_of ts operand) }
{
    match taken {
        Taken::Nothing => {
            drop(operand);
            None
        }
        Taken::One(ty) => settle(alloc, types, ty, operand),
        Taken::Either(first, second) => settle_or(alloc, types, first, second, operand),
    }
}

fn settle_or(
    alloc: Global,
    types: &TypeTable,
    first: TypeId,
    second: TypeId,
    operand: Operand,
) -> Option<Value>
    requires first { first < length types.now }
    requires second { second < length types.now }
    requires operand { OperandWithin (length types.now) operand }
    ensures given { (ts : List Ty) (facts : Facts) → Under types.now ts facts
        → option_map (valued_of ts) result
        ≡ settled_in (type_at ts first ∷ type_at ts second ∷ []) (operand_of ts operand) }
{
    if settles(types, first, &operand) {
        return settle(alloc, types, first, operand);
    }
    settle(alloc, types, second, operand)
}

// A path that is written, with a value.
fn write_with(
    alloc: Global,
    number: u32,
    at: Place,
    join: Join,
    left: Value,
    right: Expr,
) -> Result<Expr, Stop>
    ensures answers { (ts : List Ty) → Answers (expr_of ts) (joined (node number at) join
        (valued_of ts left) (expr_of ts right)) result }
    ensures within { (n : ℕ) → IfOk result (λ e. IsBelow n (number_of e)) }
{
    match written(alloc, left) {
        Ok(path) => nodes::on_two(
            alloc,
            number,
            at,
            None,
            join.operation,
            Argument::At(path),
            Argument::Value(right),
        ),
        Err(stop) => {
            drop(right);
            Err(stop)
        }
    }
}

// A path that is written, with a value of a type that goes with its type.
fn on_place_and_value(
    alloc: Global,
    types: &TypeTable,
    kinds: Kinds,
    number: u32,
    at: Place,
    place: Place,
    join: Join,
    left: Value,
    right: Operand,
) -> Result<Expr, Stop>
    requires kinds { KindsIn types.now kinds }
    requires left { left.ty < length types.now }
    requires right { OperandWithin (length types.now) right }
    ensures answers { (ts : List Ty) (facts : Facts) → Under types.now ts facts
        → no_fit_at at (right ∷ []) ≡ place
        → Answers (expr_of ts) (operation_by at
        (a_value (valued_of ts left) ∷ operand_of ts right ∷ [])
        (first_row (node number at) (second_rows (Second.Value join))
        (a_value (valued_of ts left) ∷ operand_of ts right ∷ []))) result }
    ensures within { (n : ℕ) → IfOk result (λ e. IsBelow n (number_of e)) }
{
    let taken = taken_by(kinds, join.goes, entry(types, left.ty));
    match settle_in(alloc, types, taken, right) {
        Some(with) => write_with(alloc, number, at, join, left, with.expr),
        None => {
            drop(left);
            Err(refusal(Code::NotTyped, place))
        }
    }
}

// Two paths that are written, of which the first can be.
fn swap_with(alloc: Global, number: u32, at: Place, left: Path, right: Value) -> Result<Expr, Stop>
    ensures answers { (ts : List Ty) → Answers (expr_of ts) (swapped (node number at)
        (path_in ts left) (valued_of ts right)) result }
    ensures within { (n : ℕ) → IfOk result (λ e. IsBelow n (number_of e)) }
{
    match written(alloc, right) {
        Ok(right) => nodes::on_two(
            alloc,
            number,
            at,
            None,
            Operation::Swap,
            Argument::At(left),
            Argument::At(right),
        ),
        Err(stop) => {
            drop(left);
            Err(stop)
        }
    }
}

fn swap(
    alloc: Global,
    are_same: bool,
    number: u32,
    at: Place,
    left: Value,
    right: Value,
) -> Result<Expr, Stop>
    ensures answers { (ts : List Ty) → same (type_at ts left.ty) (type_at ts right.ty) ≡ are_same
        → Answers (expr_of ts) (operation_by at
        (a_value (valued_of ts left) ∷ a_value (valued_of ts right) ∷ [])
        (first_row (node number at) (second_rows Second.Place)
        (a_value (valued_of ts left) ∷ a_value (valued_of ts right) ∷ []))) result }
    ensures within { (n : ℕ) → IfOk result (λ e. IsBelow n (number_of e)) }
{
    if !are_same {
        drop(left);
        drop(right);
        return Err(refusal(Code::NotTyped, at));
    }
    match written(alloc, left) {
        Ok(path) => swap_with(alloc, number, at, path, right),
        Err(stop) => {
            drop(right);
            Err(stop)
        }
    }
}

// A path, with another one.
fn on_places(
    alloc: Global,
    types: &TypeTable,
    number: u32,
    at: Place,
    place: Place,
    left: Value,
    right: Operand,
) -> Result<Expr, Stop>
    requires left { left.ty < length types.now }
    requires right { OperandWithin (length types.now) right }
    ensures answers { (ts : List Ty) (facts : Facts) → Under types.now ts facts
        → no_fit_at at (right ∷ []) ≡ place
        → Answers (expr_of ts) (operation_by at
        (a_value (valued_of ts left) ∷ operand_of ts right ∷ [])
        (first_row (node number at) (second_rows Second.Place)
        (a_value (valued_of ts left) ∷ operand_of ts right ∷ []))) result }
    ensures within { (n : ℕ) → IfOk result (λ e. IsBelow n (number_of e)) }
{
    match right {
        Operand::Value(other) => {
            let are_same = is_same(types, left.ty, other.ty);
            swap(alloc, are_same, number, at, left, other)
        }
        Operand::Open { .. } => {
            drop(left);
            Err(refusal(Code::NotTyped, place))
        }
        Operand::Type(_) => {
            drop(left);
            Err(refusal(Code::NotTyped, place))
        }
        Operand::Input => {
            drop(left);
            Err(refusal(Code::NotTyped, place))
        }
    }
}

// An operation on a value and another operand.
fn on_value_and(
    alloc: Global,
    types: &TypeTable,
    kinds: Kinds,
    number: u32,
    at: Place,
    place: Place,
    operation: BuiltIn,
    left: Value,
    right: Operand,
) -> Result<Expr, Stop>
    requires kinds { KindsIn types.now kinds }
    requires left { left.ty < length types.now }
    requires right { OperandWithin (length types.now) right }
    ensures answers { (ts : List Ty) (facts : Facts) → Under types.now ts facts
        → no_fit_at at (right ∷ []) ≡ place
        → Answers (expr_of ts) (operation_by at
        (a_value (valued_of ts left) ∷ operand_of ts right ∷ [])
        (first_row (node number at) (rows_of operation)
        (a_value (valued_of ts left) ∷ operand_of ts right ∷ []))) result }
    ensures within { (n : ℕ) → IfOk result (λ e. IsBelow n (number_of e)) }
{
    match second_of(operation, entry(types, left.ty)) {
        Second::Value(join) => {
            on_place_and_value(alloc, types, kinds, number, at, place, join, left, right)
        }
        Second::Place => on_places(alloc, types, number, at, place, left, right),
        Second::Nothing => {
            drop(left);
            drop(right);
            Err(refusal(Code::NotTyped, place))
        }
    }
}

// A line that is read into a path.
fn line_into(
    alloc: Global,
    is_line: bool,
    kinds: Kinds,
    number: u32,
    at: Place,
    value: Value,
) -> Result<Expr, Stop>
    ensures answers { (ts : List Ty) → is_text (type_at ts value.ty) ≡ is_line
        → type_at ts kinds.bool ≡ bool
        → Answers (expr_of ts) (operation_by at (the_input ∷ a_value (valued_of ts value) ∷ [])
        (first_row (node number at) line_rows (the_input ∷ a_value (valued_of ts value) ∷ [])))
        result }
    ensures number { IfOk result (λ e. number_of e ≡ Some kinds.bool) }
{
    if !is_line {
        drop(value);
        return Err(refusal(Code::NotTyped, at));
    }
    make(
        alloc,
        number,
        at,
        Makes {
            hand: Hand::ToWrite,
            ty: Some(kinds.bool),
            operation: Operation::ReadLineInto,
        },
        value,
    )
}

// An operation on standard input and another operand.
fn on_input_and(
    alloc: Global,
    types: &TypeTable,
    kinds: Kinds,
    number: u32,
    at: Place,
    place: Place,
    operation: BuiltIn,
    right: Operand,
) -> Result<Expr, Stop>
    requires kinds { KindsIn types.now kinds }
    requires right { OperandWithin (length types.now) right }
    ensures answers { (ts : List Ty) (facts : Facts) → Under types.now ts facts
        → no_fit_at at (right ∷ []) ≡ place
        → Answers (expr_of ts) (operation_by at (the_input ∷ operand_of ts right ∷ [])
        (first_row (node number at) (rows_of operation) (the_input ∷ operand_of ts right ∷ [])))
        result }
    ensures within { IfOk result (λ e. IsBelow (length types.now) (number_of e)) }
{
    if !is_reading(operation) {
        drop(right);
        return Err(refusal(Code::NotTyped, place));
    }
    match right {
        Operand::Value(value) => {
            let is_line = is_text(entry(types, value.ty));
            line_into(alloc, is_line, kinds, number, at, value)
        }
        Operand::Open { .. } => Err(refusal(Code::NotTyped, place)),
        Operand::Type(_) => Err(refusal(Code::NotTyped, place)),
        Operand::Input => Err(refusal(Code::NotTyped, place)),
    }
}

/// An operation on two operands.
pub fn on_two(
    alloc: Global,
    types: &TypeTable,
    kinds: Kinds,
    number: u32,
    at: Place,
    place: Place,
    operation: BuiltIn,
    left: Operand,
    right: Operand,
) -> Result<Expr, Stop>
    requires kinds { KindsIn types.now kinds }
    requires left { OperandWithin (length types.now) left }
    requires right { OperandWithin (length types.now) right }
    ensures answers { (ts : List Ty) (facts : Facts) → Under types.now ts facts
        → no_fit_at at (left ∷ right ∷ []) ≡ place
        → Answers (expr_of ts) (operation_by at (operand_of ts left ∷ operand_of ts right ∷ [])
        (first_row (node number at) (rows_of operation)
        (operand_of ts left ∷ operand_of ts right ∷ []))) result }
    ensures within { IfOk result (λ e. IsBelow (length types.now) (number_of e)) }
{
    match left {
        Operand::Value(value) => {
            on_value_and(
                alloc, types, kinds, number, at, place, operation, value, right,
            )
        }
        Operand::Input => on_input_and(alloc, types, kinds, number, at, place, operation, right),
        Operand::Open { .. } => {
            drop(right);
            Err(refusal(Code::NotTyped, place))
        }
        Operand::Type(_) => {
            drop(right);
            Err(refusal(Code::NotTyped, place))
        }
    }
}
