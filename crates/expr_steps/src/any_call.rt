// Calls by a name, `echo` among them: with operands, behind a dot, and of `$` before an operand.
ghost use Rattle.std.specs.Prelude.{◌≡◌, ◌<◌, ◌∷◌, [], List, length, map};
ghost use Rattle.std.specs.Prelude.{None, IfOk};
ghost use Rattle.arc_base.specs.Refusal.{Answers};
ghost use Rattle.nim_types.specs.Types.{Ty, Facts};
ghost use Rattle.nim_types.specs.Table.{IsBelow};
ghost use Rattle.nim_program.specs.View.{expr_of};
ghost use Rattle.expr_rules.specs.Answers.{only_if, value as a_value};
ghost use Rattle.expr_rules.specs.Names.{call_rule, field_rule, field_or_call, method_rule};
ghost use Rattle.expr_rules.specs.Names.{default_of_value};
ghost use Rattle.expr_rules.specs.Typed.{is_dollar, unary_call};
ghost use Rattle.expr_parts.specs.View.{Under, OperandWithin, OperandsWithin, operand_of};
ghost use Rattle.expr_parts.specs.View.{valued_of, number_of, env_of};
ghost use Rattle.expr_parts.specs.ViewReady.{IsReady};

use crate::named_calls::call_named;
use arc_base::{Code, Place, Stop};
use expr_calls::dollars::echo_rule;
use expr_parts::names::{check_callee, is_default, is_echo};
use expr_parts::operand_lists::alone;
use expr_parts::operators::unary;
use expr_parts::parts::{field_named, read_field};
use expr_parts::scope::Scope;
use expr_parts::value::{Operand, Value, refusal};
use nim_program::Expr;
use nim_tree::UnaryOp;
use nim_types::TypeTable;
use std::alloc::Global;

/// A call by a name, in normal form, whose operands have been typed.
pub fn call_rule(
    alloc: Global,
    types: &TypeTable,
    scope: &Scope,
    number: u32,
    at: Place,
    name: &[u8],
    operands: Vec<Operand>,
) -> Result<Expr, Stop>
    requires ready { IsReady types.now scope.now }
    requires operands { OperandsWithin (length types.now) operands.items }
    ensures answers { (ts : List Ty) (facts : Facts) → Under types.now ts facts
        → Answers (expr_of ts) (call_rule (env_of ts facts scope.now) number at name.now
        (map (operand_of ts) operands.items)) result }
    ensures within { IfOk result (λ e. IsBelow (length types.now) (number_of e)) }
{
    if is_echo(name) {
        return echo_rule(alloc, types, scope, number, at, operands);
    }
    call_named(alloc, types, scope, number, at, name, operands)
}

fn place_if(holds: bool, place: Place) -> Option<Place>
    ensures { result ≡ only_if holds place }
{
    if holds { Some(place) } else { None }
}

// The place of a value before `.default`.
fn default_of_value(name: &[u8], operand: &Operand) -> Option<Place>
    ensures { (ts : List Ty) → default_of_value name.now (operand_of ts operand.now) ≡ result }
{
    match operand {
        Operand::Value(value) => place_if(is_default(name), value.expr.node().at),
        _ => None,
    }
}

// A call with the operand before the dot alone.
fn call_alone(
    alloc: Global,
    types: &TypeTable,
    scope: &Scope,
    number: u32,
    at: Place,
    name: &[u8],
    operand: Operand,
) -> Result<Expr, Stop>
    requires ready { IsReady types.now scope.now }
    requires operand { OperandWithin (length types.now) operand }
    ensures answers { (ts : List Ty) (facts : Facts) → Under types.now ts facts
        → Answers (expr_of ts) (call_rule (env_of ts facts scope.now) number at name.now
        (operand_of ts operand ∷ [])) result }
    ensures within { IfOk result (λ e. IsBelow (length types.now) (number_of e)) }
{
    let operands = alone(alloc, operand)?;
    call_rule(alloc, types, scope, number, at, name, operands)
}

fn method_rule(
    alloc: Global,
    types: &TypeTable,
    scope: &Scope,
    number: u32,
    at: Place,
    name: &[u8],
    operand: Operand,
) -> Result<Expr, Stop>
    requires ready { IsReady types.now scope.now }
    requires operand { OperandWithin (length types.now) operand }
    ensures answers { (ts : List Ty) (facts : Facts) → Under types.now ts facts
        → Answers (expr_of ts) (method_rule (env_of ts facts scope.now) number at name.now
        (operand_of ts operand)) result }
    ensures within { IfOk result (λ e. IsBelow (length types.now) (number_of e)) }
{
    match default_of_value(name, &operand) {
        Some(place) => {
            drop(operand);
            Err(refusal(Code::NotTyped, place))
        }
        None => call_alone(alloc, types, scope, number, at, name, operand),
    }
}

// Where there is no such field.
fn dot_call(
    alloc: Global,
    types: &TypeTable,
    scope: &Scope,
    number: u32,
    at: Place,
    name: &[u8],
    operand: Operand,
) -> Result<Expr, Stop>
    requires ready { IsReady types.now scope.now }
    requires operand { OperandWithin (length types.now) operand }
    ensures answers { (ts : List Ty) (facts : Facts) → Under types.now ts facts
        → Answers (expr_of ts) (field_or_call (env_of ts facts scope.now) number at name.now
        (operand_of ts operand) None) result }
    ensures within { IfOk result (λ e. IsBelow (length types.now) (number_of e)) }
{
    match check_callee(scope, at, name) {
        Ok(_) => method_rule(alloc, types, scope, number, at, name, operand),
        Err(stop) => {
            drop(operand);
            Err(stop)
        }
    }
}

// The field of a value, else a call with it alone.
fn field_of_value(
    alloc: Global,
    types: &TypeTable,
    scope: &Scope,
    number: u32,
    at: Place,
    name: &[u8],
    base: Value,
) -> Result<Expr, Stop>
    requires ready { IsReady types.now scope.now }
    requires base { base.ty < length types.now }
    ensures answers { (ts : List Ty) (facts : Facts) → Under types.now ts facts
        → Answers (expr_of ts) (field_rule (env_of ts facts scope.now) number at name.now
        (a_value (valued_of ts base))) result }
    ensures within { IfOk result (λ e. IsBelow (length types.now) (number_of e)) }
{
    let found = match field_named(types, scope, name, base.ty) {
        Ok(found) => found,
        Err(stop) => {
            drop(base);
            return Err(stop);
        }
    };
    match found {
        Some(field) => read_field(alloc, number, at, base.expr, field.number, field.ty),
        None => dot_call(alloc, types, scope, number, at, name, Operand::Value(base)),
    }
}

/// A field of the name, which is in normal form, else a call with one operand.
pub fn field_rule(
    alloc: Global,
    types: &TypeTable,
    scope: &Scope,
    number: u32,
    at: Place,
    name: &[u8],
    operand: Operand,
) -> Result<Expr, Stop>
    requires ready { IsReady types.now scope.now }
    requires operand { OperandWithin (length types.now) operand }
    ensures answers { (ts : List Ty) (facts : Facts) → Under types.now ts facts
        → Answers (expr_of ts) (field_rule (env_of ts facts scope.now) number at name.now
        (operand_of ts operand)) result }
    ensures within { IfOk result (λ e. IsBelow (length types.now) (number_of e)) }
{
    match operand {
        Operand::Value(base) => field_of_value(alloc, types, scope, number, at, name, base),
        _ => dot_call(alloc, types, scope, number, at, name, operand),
    }
}

fn is_dollar(op: UnaryOp) -> bool
    ensures { is_dollar op ≡ result }
{
    matches!(op, UnaryOp::Dollar)
}

/// An operator before a value; `$` is called by its name.
pub fn unary_call(
    alloc: Global,
    types: &TypeTable,
    scope: &Scope,
    number: u32,
    at: Place,
    op: UnaryOp,
    value: Value,
) -> Result<Expr, Stop>
    requires ready { IsReady types.now scope.now }
    requires value { value.ty < length types.now }
    ensures answers { (ts : List Ty) (facts : Facts) → Under types.now ts facts
        → Answers (expr_of ts) (unary_call (env_of ts facts scope.now) number at op
        (valued_of ts value)) result }
    ensures within { IfOk result (λ e. IsBelow (length types.now) (number_of e)) }
{
    if is_dollar(op) {
        return call_alone(alloc, types, scope, number, at, b"$", Operand::Value(value));
    }
    unary(alloc, types, number, at, op, value)
}
