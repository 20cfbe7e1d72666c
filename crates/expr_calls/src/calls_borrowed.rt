// Calls of procedures that a distinct type borrows from its base.
ghost use Rattle.std.specs.Prelude.{◌≡◌, ◌∷◌, [], List, length, map, true, Some, IfOk};
ghost use Rattle.arc_base.specs.Refusal.{Answers};
ghost use Rattle.nim_types.specs.Types.{Ty, Facts};
ghost use Rattle.nim_types.specs.Table.{IsBelow};
ghost use Rattle.nim_program.specs.View.{expr_of};
ghost use Rattle.expr_rules.specs.Answers.{Valued};
ghost use Rattle.expr_rules.specs.Calls.{arguments_for, borrowed_call, called};
ghost use Rattle.expr_rules.specs.Env.{Parameter as Passed};
ghost use Rattle.expr_parts.specs.View.{Under, KindsIn, OperandWithin, OperandsWithin};
ghost use Rattle.expr_parts.specs.View.{ParametersWithin, operand_of, parameter_of};
ghost use Rattle.expr_parts.specs.View.{procedure_of, do_fit, fit, number_of, valued_of};

use arc_base::{Code, Place, Stop};
use expr_parts::borrowed::{borrowed_on_one, borrowed_on_two, comparison_named};
use expr_parts::operand_lists::{Given, taken_apart};
use expr_parts::scope::{Kinds, Parameter, Procedure};
use expr_parts::settle::settled;
use expr_parts::value::{Operand, Value, refusal};
use nim_program::{Comparison, Expr};
use nim_types::TypeTable;
use std::alloc::Global;

// A borrowed operation on one operand.
fn borrowed_one(
    alloc: Global,
    types: &TypeTable,
    kinds: Kinds,
    number: u32,
    at: Place,
    comparison: Option<Comparison>,
    params: &[Parameter],
    operand: Operand,
) -> Result<Expr, Stop>
    requires kinds { KindsIn types.now kinds }
    requires params { ParametersWithin (length types.now) params.now }
    requires operand { OperandWithin (length types.now) operand }
    requires fits { do_fit types.now params.now (operand ∷ []) ≡ true }
    ensures answers { (ts : List Ty) (facts : Facts) → Under types.now ts facts
        → (given : List (Passed × Valued))
        → arguments_for (map (parameter_of ts) params.now) (operand_of ts operand ∷ [])
        ≡ Some given
        → Answers (expr_of ts) (borrowed_call number at comparison given) result }
    ensures within { IfOk result (λ e. IsBelow (length types.now) (number_of e)) }
{
    let Some((param, _rest)) = params.split_first() else {
        unreachable!();
    };
    let value = settled(alloc, types, param.ty, operand);
    borrowed_on_one(alloc, types, kinds, number, at, comparison, value)
}

// With the first operand as a value already.
fn borrowed_behind(
    alloc: Global,
    types: &TypeTable,
    kinds: Kinds,
    number: u32,
    at: Place,
    comparison: Option<Comparison>,
    left: Value,
    params: &[Parameter],
    operand: Operand,
) -> Result<Expr, Stop>
    requires kinds { KindsIn types.now kinds }
    requires params { ParametersWithin (length types.now) params.now }
    requires operand { OperandWithin (length types.now) operand }
    requires fits { do_fit types.now params.now (operand ∷ []) ≡ true }
    ensures answers { (ts : List Ty) (facts : Facts) → Under types.now ts facts
        → (p : Passed) (given : List (Passed × Valued))
        → arguments_for (map (parameter_of ts) params.now) (operand_of ts operand ∷ [])
        ≡ Some given
        → Answers (expr_of ts) (borrowed_call number at comparison
        ((p, valued_of ts left) ∷ given)) result }
    ensures within { IfOk result (λ e. IsBelow (length types.now) (number_of e)) }
{
    let Some((param, _rest)) = params.split_first() else {
        unreachable!();
    };
    let right = settled(alloc, types, param.ty, operand);
    borrowed_on_two(alloc, types, kinds, number, at, comparison, left, right)
}

// A borrowed operation on two operands.
fn borrowed_two(
    alloc: Global,
    types: &TypeTable,
    kinds: Kinds,
    number: u32,
    at: Place,
    comparison: Option<Comparison>,
    params: &[Parameter],
    left: Operand,
    right: Operand,
) -> Result<Expr, Stop>
    requires kinds { KindsIn types.now kinds }
    requires params { ParametersWithin (length types.now) params.now }
    requires left { OperandWithin (length types.now) left }
    requires right { OperandWithin (length types.now) right }
    requires fits { do_fit types.now params.now (left ∷ right ∷ []) ≡ true }
    ensures answers { (ts : List Ty) (facts : Facts) → Under types.now ts facts
        → (given : List (Passed × Valued))
        → arguments_for (map (parameter_of ts) params.now)
        (operand_of ts left ∷ operand_of ts right ∷ []) ≡ Some given
        → Answers (expr_of ts) (borrowed_call number at comparison given) result }
    ensures within { IfOk result (λ e. IsBelow (length types.now) (number_of e)) }
{
    let Some((param, others)) = params.split_first() else {
        unreachable!();
    };
    let value = settled(alloc, types, param.ty, left);
    borrowed_behind(
        alloc, types, kinds, number, at, comparison, value, others, right,
    )
}

/// The borrowed operation that a call of a procedure means, where its operands fit.
pub fn call_borrowed(
    alloc: Global,
    types: &TypeTable,
    kinds: Kinds,
    number: u32,
    at: Place,
    name: &[u8],
    callee: &Procedure,
    operands: Vec<Operand>,
) -> Result<Expr, Stop>
    requires kinds { KindsIn types.now kinds }
    requires params { ParametersWithin (length types.now) callee.now.params }
    requires operands { OperandsWithin (length types.now) operands.items }
    requires fits { do_fit types.now callee.now.params operands.items ≡ true }
    ensures answers { (ts : List Ty) (facts : Facts) → Under types.now ts facts
        → (given : List (Passed × Valued))
        → arguments_for (procedure_of ts callee.now).params (map (operand_of ts) operands.items)
        ≡ Some given → Answers (expr_of ts) (called number at true name.now
        (fit (procedure_of ts callee.now) given)) result }
    ensures within { IfOk result (λ e. IsBelow (length types.now) (number_of e)) }
{
    let comparison = comparison_named(name);
    let params = callee.params.as_slice();
    match taken_apart(operands) {
        Given::One(operand) => {
            borrowed_one(alloc, types, kinds, number, at, comparison, params, operand)
        }
        Given::Two(left, right) => {
            borrowed_two(
                alloc, types, kinds, number, at, comparison, params, left, right,
            )
        }
        Given::Nothing => Err(refusal(Code::NotTyped, at)),
        Given::More => Err(refusal(Code::NotTyped, at)),
    }
}
