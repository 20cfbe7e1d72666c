// `echo`, and the `$` of one's own that it calls.
ghost use Rattle.std.specs.Prelude.{◌≡◌, ◌<◌, ◌∷◌, [], List, length, map, is_some, Some, None};
ghost use Rattle.std.specs.Prelude.{if◌then◌else◌, IfOk, IfErr};
ghost use Rattle.arc_base.specs.declared.place.Stop.TheVariants as Stop;
ghost use Rattle.arc_base.specs.Refusal.{Answers};
ghost use Rattle.nim_types.specs.Types.{Ty, Facts};
ghost use Rattle.nim_types.specs.Table.{type_at, IsBelow};
ghost use Rattle.nim_program.specs.View.{expr_of, operands_of};
ghost use Rattle.expr_rules.specs.Answers.{Valued, value, only_if};
ghost use Rattle.expr_rules.specs.Calls.{arguments_for, fitting};
ghost use Rattle.expr_rules.specs.Env.{callable, known_behind, unknown};
ghost use Rattle.expr_rules.specs.Names.{own_dollars, is_called, some_fits, dollar_call, can_show};
ghost use Rattle.expr_rules.specs.Names.{all_shown, echo_rule};
ghost use Rattle.expr_parts.specs.View.{Under, OperandWithin, OperandsWithin};
ghost use Rattle.expr_parts.specs.View.{operand_of, valued_of, number_of, env_of, entry_of};
ghost use Rattle.expr_parts.specs.View.{DeclsWithin, ParametersWithin, parameter_of};
ghost use Rattle.expr_calls.specs.ViewCalls.{first_borrowed, IsShown, shown_by};
ghost use Rattle.expr_parts.specs.ViewReady.{IsReady};

use crate::calls_by_name::one_fitting;
use arc_base::{Code, Place, Stop};
use expr_parts::decls::Decls;
use expr_parts::kinds::{entry, is_same, is_shown};
use expr_parts::nodes::applied;
use expr_parts::operand_lists::alone;
use expr_parts::scope::{Parameter, Scope};
use expr_parts::settle::place_of_no_fit;
use expr_parts::value::{Operand, Value, refusal};
use nim_program::{Expr, Operand as Argument, Operation};
use nim_types::{TypeId, TypeTable};
use std::alloc::Global;

// Whether a value of the type is the only operand of a parameter before others.
fn takes_before(types: &TypeTable, param: Parameter, others: &[Parameter], ty: TypeId) -> bool
    requires param { param.ty < length types.now }
    requires ty { ty < length types.now }
    ensures { (ts : List Ty) (facts : Facts) → Under types.now ts facts → (v : Valued)
        → v.of ≡ type_at ts ty → is_some (arguments_for
        (map (parameter_of ts) (param ∷ others.now)) (value v ∷ [])) ≡ result }
{
    let count = others.len();
    if count > 0 {
        return false;
    }
    is_same(types, param.ty, ty)
}

// Whether a value of the type is the only operand of these parameters.
fn takes_type(types: &TypeTable, params: &[Parameter], ty: TypeId) -> bool
    requires params { ParametersWithin (length types.now) params.now }
    requires ty { ty < length types.now }
    ensures { (ts : List Ty) (facts : Facts) → Under types.now ts facts → (v : Valued)
        → v.of ≡ type_at ts ty → is_some (arguments_for (map (parameter_of ts) params.now)
        (value v ∷ [])) ≡ result }
{
    match params.split_first() {
        Some((param, others)) => takes_before(types, *param, others, ty),
        None => false,
    }
}

// With one more procedure before the others.
fn first_before(first: Option<bool>, is_fitting: bool, borrowed: bool) -> Option<bool>
    ensures { result ≡ if is_fitting then Some borrowed else first }
{
    if is_fitting { Some(borrowed) } else { first }
}

// Whether the first procedure of the name that takes a value of the type is borrowed: of those
// that nothing else of the name hides, from the last one on.
fn first_fit(types: &TypeTable, decls: &Decls, name: &[u8], ty: TypeId) -> Option<bool>
    requires decls { DeclsWithin (length types.now) decls.now }
    requires ty { ty < length types.now }
    ensures { (ts : List Ty) (facts : Facts) → Under types.now ts facts → (v : Valued)
        → v.of ≡ type_at ts ty → first_borrowed (fitting (callable (known_behind unknown name.now
        (map (entry_of ts) decls.now))) (value v ∷ [])) ≡ result }
{
    let mut first = None;
    let mut next = decls.last(name);
    while let Some(number) = next {
        match decls.get(number).what.procedure() {
            Some(procedure) => {
                let is_fitting = takes_type(types, procedure.params.as_slice(), ty);
                first = first_before(first, is_fitting, procedure.borrowed);
                next = decls.before(number, name);
            }
            None => return first,
        }
    }
    first
}

// Whether the first `$` that takes a value of the type is borrowed.
fn own_dollar(types: &TypeTable, scope: &Scope, ty: TypeId) -> Option<bool>
    requires ready { IsReady types.now scope.now }
    requires ty { ty < length types.now }
    ensures { (ts : List Ty) (facts : Facts) → Under types.now ts facts → (v : Valued)
        → v.of ≡ type_at ts ty
        → first_borrowed (own_dollars (env_of ts facts scope.now) v) ≡ result }
{
    first_fit(types, &scope.decls, b"$", ty)
}

/// Whether a `$` of one's own is called for the value.
pub fn has_own_dollar(
    _alloc: Global,
    types: &TypeTable,
    scope: &Scope,
    value: &Value,
) -> Result<bool, Stop>
    requires ready { IsReady types.now scope.now }
    requires value { value.now.ty < length types.now }
    ensures is { IfOk result (λ own. (ts : List Ty) (facts : Facts) → Under types.now ts facts
        → is_called (own_dollars (env_of ts facts scope.now) (valued_of ts value.now)) ≡ own) }
    ensures memory { IfErr result (λ stop. stop ≡ Stop.Memory) }
{
    match own_dollar(types, scope, value.ty) {
        Some(borrowed) => Ok(!borrowed),
        None => Ok(false),
    }
}

/// The call of a `$` of one's own that shows the value.
pub fn dollar_call(
    alloc: Global,
    types: &TypeTable,
    scope: &Scope,
    number: u32,
    value: Value,
) -> Result<Expr, Stop>
    requires ready { IsReady types.now scope.now }
    requires value { value.ty < length types.now }
    ensures answers { (ts : List Ty) (facts : Facts) → Under types.now ts facts
        → Answers (expr_of ts) (dollar_call (env_of ts facts scope.now) number
        (valued_of ts value)) result }
    ensures within { IfOk result (λ e. IsBelow (length types.now) (number_of e)) }
{
    let at = value.expr.node().at;
    let operands = alone(alloc, Operand::Value(value))?;
    one_fitting(alloc, types, scope, number, at, b"$", operands)
}

// Whether a `$` of one's own or a borrowed one takes a value of the type.
fn has_dollar(types: &TypeTable, scope: &Scope, ty: TypeId) -> bool
    requires ready { IsReady types.now scope.now }
    requires ty { ty < length types.now }
    ensures { (ts : List Ty) (facts : Facts) → Under types.now ts facts → (v : Valued)
        → v.of ≡ type_at ts ty → some_fits (own_dollars (env_of ts facts scope.now) v) ≡ result }
{
    match own_dollar(types, scope, ty) {
        Some(_) => true,
        None => false,
    }
}

// Whether `echo` shows a value of the type as it is.
fn can_show(types: &TypeTable, scope: &Scope, ty: TypeId) -> bool
    requires ready { IsReady types.now scope.now }
    requires ty { ty < length types.now }
    ensures { (ts : List Ty) (facts : Facts) → Under types.now ts facts → (v : Valued)
        → v.of ≡ type_at ts ty → can_show (env_of ts facts scope.now) v ≡ result }
{
    is_shown(entry(types, ty)) || has_dollar(types, scope, ty)
}

fn shown_if(holds: bool, expr: Expr) -> Option<Expr>
    ensures { result ≡ only_if holds expr }
{
    if !holds {
        drop(expr);
        return None;
    }
    Some(expr)
}

// What `echo` shows of an operand.
fn shown_of(types: &TypeTable, scope: &Scope, operand: Operand) -> Option<Expr>
    requires ready { IsReady types.now scope.now }
    requires operand { OperandWithin (length types.now) operand }
    ensures { (ts : List Ty) (facts : Facts) → Under types.now ts facts
        → IsShown ts (env_of ts facts scope.now) (operand_of ts operand) result }
{
    match operand {
        Operand::Value(value) => shown_if(can_show(types, scope, value.ty), value.expr),
        Operand::Open { .. } => None,
        Operand::Type(_) => None,
        Operand::Input => None,
    }
}

// What `echo` shows of its operands, where it shows each.
fn all_shown(
    alloc: Global,
    types: &TypeTable,
    scope: &Scope,
    place: Place,
    operands: Vec<Operand>,
) -> Result<Vec<Argument>, Stop>
    requires ready { IsReady types.now scope.now }
    requires operands { OperandsWithin (length types.now) operands.items }
    ensures { (ts : List Ty) (facts : Facts) → Under types.now ts facts
        → Answers (λ os. operands_of ts os.items) (shown_by place
        (all_shown (env_of ts facts scope.now) (map (operand_of ts) operands.items))) result }
{
    let mut shown = Vec::new(alloc);
    for operand in operands {
        match shown_of(types, scope, operand) {
            Some(expr) => shown.push(Argument::Value(expr))?,
            None => return Err(refusal(Code::NotTyped, place)),
        }
    }
    Ok(shown)
}

/// `echo` of operands.
pub fn echo_rule(
    alloc: Global,
    types: &TypeTable,
    scope: &Scope,
    number: u32,
    at: Place,
    operands: Vec<Operand>,
) -> Result<Expr, Stop>
    requires ready { IsReady types.now scope.now }
    requires operands { OperandsWithin (length types.now) operands.items }
    ensures answers { (ts : List Ty) (facts : Facts) → Under types.now ts facts
        → Answers (expr_of ts) (echo_rule (env_of ts facts scope.now) number at
        (map (operand_of ts) operands.items)) result }
    ensures number { IfOk result (λ e. number_of e ≡ None) }
{
    let place = place_of_no_fit(at, operands.as_slice());
    match all_shown(alloc, types, scope, place, operands) {
        Ok(shown) => Ok(applied(number, at, None, Operation::Echo, shown)),
        Err(stop) => Err(stop),
    }
}
