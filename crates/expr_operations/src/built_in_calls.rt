// Calls of operations that are built in, by their operands.
ghost use Rattle.std.specs.Prelude.{◌≡◌, ◌<◌, ◌∷◌, [], ℕ, List, length, map, IfOk, Some};
ghost use Rattle.arc_base.specs.Refusal.{Answers};
ghost use Rattle.nim_types.specs.Types.{Ty, Facts, text};
ghost use Rattle.nim_types.specs.Table.{type_at, IsBelow};
ghost use Rattle.nim_program.specs.View.{expr_of};
ghost use Rattle.expr_rules.specs.Answers.{node, value as a_value, a_type, the_input};
ghost use Rattle.expr_rules.specs.Builtins.{operation_by, first_row, operation_rule};
ghost use Rattle.expr_parts.specs.View.{Under, KindsIn, OperandWithin, OperandsWithin};
ghost use Rattle.expr_parts.specs.View.{operand_of, valued_of, number_of, no_fit_at};
ghost use Rattle.expr_operations.specs.ViewOperations.{rows_of, limit_rows, type_rows};

use crate::built_in::{
    BuiltIn, TypeNode, is_reading, makes_of_type, makes_of_value, operation_named, takes_nothing,
};
use crate::built_in_nodes::make;
use crate::built_in_pairs::on_two;
use arc_base::{Code, Place, Stop};
use expr_parts::kinds::{entry, is_int};
use expr_parts::nodes::{applied, constant};
use expr_parts::operand_lists::{Given, taken_apart};
use expr_parts::scope::Kinds;
use expr_parts::settle::place_of_no_fit;
use expr_parts::value::{Operand, Value, refusal};
use nim_program::{Expr, Literal, Operation};
use nim_types::{TypeId, TypeTable};
use std::alloc::Global;

// An operation without operands.
fn on_nothing(alloc: Global, number: u32, at: Place, operation: BuiltIn) -> Result<Expr, Stop>
    ensures answers { (ts : List Ty) → Answers (expr_of ts) (operation_by at []
        (first_row (node number at) (rows_of operation) [])) result }
    ensures within { (n : ℕ) → IfOk result (λ e. IsBelow n (number_of e)) }
{
    if !takes_nothing(operation) {
        return Err(refusal(Code::NotTyped, at));
    }
    Ok(applied(number, at, None, Operation::Quit, Vec::new(alloc)))
}

// An operation on a value.
fn on_value(
    alloc: Global,
    types: &TypeTable,
    kinds: Kinds,
    number: u32,
    at: Place,
    operation: BuiltIn,
    value: Value,
) -> Result<Expr, Stop>
    requires kinds { KindsIn types.now kinds }
    requires value { value.ty < length types.now }
    ensures answers { (ts : List Ty) (facts : Facts) → Under types.now ts facts
        → Answers (expr_of ts) (operation_by at (a_value (valued_of ts value) ∷ [])
        (first_row (node number at) (rows_of operation) (a_value (valued_of ts value) ∷ [])))
        result }
    ensures within { IfOk result (λ e. IsBelow (length types.now) (number_of e)) }
{
    match makes_of_value(kinds, operation, entry(types, value.ty), value.ty) {
        Some(makes) => make(alloc, number, at, makes, value),
        None => {
            drop(value);
            Err(refusal(Code::NotTyped, at))
        }
    }
}

// The least or the greatest int.
fn limit(
    types: &TypeTable,
    kinds: Kinds,
    number: u32,
    at: Place,
    value: i32,
    ty: TypeId,
) -> Result<Expr, Stop>
    requires kinds { KindsIn types.now kinds }
    requires ty { ty < length types.now }
    ensures answers { (ts : List Ty) (facts : Facts) → Under types.now ts facts
        → Answers (expr_of ts) (operation_by at (a_type (type_at ts ty) ∷ [])
        (first_row (node number at) (limit_rows value) (a_type (type_at ts ty) ∷ []))) result }
    ensures within { IfOk result (λ e. IsBelow (length types.now) (number_of e)) }
{
    if !is_int(entry(types, ty)) {
        return Err(refusal(Code::NotTyped, at));
    }
    Ok(constant(number, at, kinds.int, Literal::Ordinal(value)))
}

fn of_type(
    alloc: Global,
    types: &TypeTable,
    kinds: Kinds,
    number: u32,
    at: Place,
    makes: TypeNode,
    ty: TypeId,
) -> Result<Expr, Stop>
    requires kinds { KindsIn types.now kinds }
    requires ty { ty < length types.now }
    ensures answers { (ts : List Ty) (facts : Facts) → Under types.now ts facts
        → Answers (expr_of ts) (operation_by at (a_type (type_at ts ty) ∷ [])
        (first_row (node number at) (type_rows (Some makes)) (a_type (type_at ts ty) ∷ [])))
        result }
    ensures within { IfOk result (λ e. IsBelow (length types.now) (number_of e)) }
{
    match makes {
        TypeNode::Least => limit(types, kinds, number, at, -2_147_483_648, ty),
        TypeNode::Greatest => limit(types, kinds, number, at, 2_147_483_647, ty),
        TypeNode::Default => Ok(applied(number, at, Some(ty), Operation::Default, Vec::new(alloc))),
    }
}

// An operation on a type.
fn on_type(
    alloc: Global,
    types: &TypeTable,
    kinds: Kinds,
    number: u32,
    at: Place,
    operation: BuiltIn,
    ty: TypeId,
) -> Result<Expr, Stop>
    requires kinds { KindsIn types.now kinds }
    requires ty { ty < length types.now }
    ensures answers { (ts : List Ty) (facts : Facts) → Under types.now ts facts
        → Answers (expr_of ts) (operation_by at (a_type (type_at ts ty) ∷ [])
        (first_row (node number at) (rows_of operation) (a_type (type_at ts ty) ∷ []))) result }
    ensures within { IfOk result (λ e. IsBelow (length types.now) (number_of e)) }
{
    match makes_of_type(operation) {
        Some(makes) => of_type(alloc, types, kinds, number, at, makes, ty),
        None => Err(refusal(Code::NotTyped, at)),
    }
}

// An operation on standard input.
fn on_input(
    alloc: Global,
    kinds: Kinds,
    number: u32,
    at: Place,
    operation: BuiltIn,
) -> Result<Expr, Stop>
    ensures answers { (ts : List Ty) → type_at ts kinds.text ≡ text
        → Answers (expr_of ts) (operation_by at (the_input ∷ [])
        (first_row (node number at) (rows_of operation) (the_input ∷ []))) result }
    ensures within { (n : ℕ) → kinds.text < n → IfOk result (λ e. IsBelow n (number_of e)) }
{
    if !is_reading(operation) {
        return Err(refusal(Code::NotTyped, at));
    }
    Ok(applied(
        number,
        at,
        Some(kinds.text),
        Operation::ReadLine,
        Vec::new(alloc),
    ))
}

// An operation on one operand.
fn on_one(
    alloc: Global,
    types: &TypeTable,
    kinds: Kinds,
    number: u32,
    at: Place,
    operation: BuiltIn,
    operand: Operand,
) -> Result<Expr, Stop>
    requires kinds { KindsIn types.now kinds }
    requires operand { OperandWithin (length types.now) operand }
    ensures answers { (ts : List Ty) (facts : Facts) → Under types.now ts facts
        → Answers (expr_of ts) (operation_by at (operand_of ts operand ∷ [])
        (first_row (node number at) (rows_of operation) (operand_of ts operand ∷ []))) result }
    ensures within { IfOk result (λ e. IsBelow (length types.now) (number_of e)) }
{
    match operand {
        Operand::Value(value) => on_value(alloc, types, kinds, number, at, operation, value),
        Operand::Type(ty) => on_type(alloc, types, kinds, number, at, operation, ty),
        Operand::Input => on_input(alloc, kinds, number, at, operation),
        Operand::Open { at: place, .. } => Err(refusal(Code::NotTyped, place)),
    }
}

// An operation on operands, of which this is the place where it doesn't fit.
fn on_given(
    alloc: Global,
    types: &TypeTable,
    kinds: Kinds,
    number: u32,
    at: Place,
    place: Place,
    operation: BuiltIn,
    operands: Vec<Operand>,
) -> Result<Expr, Stop>
    requires kinds { KindsIn types.now kinds }
    requires operands { OperandsWithin (length types.now) operands.items }
    ensures answers { (ts : List Ty) (facts : Facts) → Under types.now ts facts
        → no_fit_at at operands.items ≡ place
        → Answers (expr_of ts) (operation_by at (map (operand_of ts) operands.items)
        (first_row (node number at) (rows_of operation) (map (operand_of ts) operands.items)))
        result }
    ensures within { IfOk result (λ e. IsBelow (length types.now) (number_of e)) }
{
    match taken_apart(operands) {
        Given::Nothing => on_nothing(alloc, number, at, operation),
        Given::One(operand) => on_one(alloc, types, kinds, number, at, operation, operand),
        Given::Two(left, right) => {
            on_two(
                alloc, types, kinds, number, at, place, operation, left, right,
            )
        }
        Given::More => Err(refusal(Code::NotTyped, place)),
    }
}

/// The operation of a name, in normal form, on operands.
pub fn operation_rule(
    alloc: Global,
    types: &TypeTable,
    kinds: Kinds,
    number: u32,
    at: Place,
    name: &[u8],
    operands: Vec<Operand>,
) -> Result<Expr, Stop>
    requires kinds { KindsIn types.now kinds }
    requires operands { OperandsWithin (length types.now) operands.items }
    ensures answers { (ts : List Ty) (facts : Facts) → Under types.now ts facts
        → Answers (expr_of ts) (operation_rule (node number at) name.now
        (map (operand_of ts) operands.items)) result }
    ensures within { IfOk result (λ e. IsBelow (length types.now) (number_of e)) }
{
    let place = place_of_no_fit(at, operands.as_slice());
    match operation_named(name) {
        Some(operation) => { on_given(alloc, types, kinds, number, at, place, operation, operands) }
        None => Err(refusal(Code::NotTyped, place)),
    }
}
