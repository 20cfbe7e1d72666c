// Operands as values of a type.
ghost use Rattle.std.specs.Prelude.{◌≡◌, ◌<◌, true, false, List, length, is_some, option_map};
ghost use Rattle.std.specs.Prelude.{Some, IfSome};
ghost use Rattle.nim_types.specs.Types.{Ty, Facts};
ghost use Rattle.nim_types.specs.Table.{type_at, meant};
ghost use Rattle.nim_program.specs.Program.{NoArg};
ghost use Rattle.nim_program.specs.Nodes.{sequence};
ghost use Rattle.nim_program.specs.View.{expr_of};
ghost use Rattle.expr_rules.specs.Answers.{node, settled, open_as, only_if};
ghost use Rattle.expr_parts.specs.View.{Under, OperandWithin, operand_of, valued_of};
ghost use Rattle.expr_parts.specs.View.{is_of, is_sequence_in, no_fit_at};

use crate::kinds::{entry, is_sequence};
use crate::nodes::applied;
use crate::value::{Operand, Value};
use arc_base::Place;
use nim_program::Operation;
use nim_types::{TypeDef, TypeId, TypeTable};
use std::alloc::Global;

/// Whether an operand is a value of a type.
pub fn settles(types: &TypeTable, ty: TypeId, operand: &Operand) -> bool
    requires ty { ty < length types.now }
    requires operand { OperandWithin (length types.now) operand.now }
    ensures means { (ts : List Ty) (facts : Facts) → Under types.now ts facts
        → is_some (settled (type_at ts ty) (operand_of ts operand.now)) ≡ result }
    ensures number { is_of types.now ty operand.now ≡ result }
{
    match operand {
        Operand::Value(value) => ty == value.ty,
        Operand::Open { .. } => is_sequence(entry(types, ty)),
        _ => false,
    }
}

pub fn only_if(holds: bool, value: Value) -> Option<Value>
    ensures { result ≡ only_if holds value }
{
    if !holds {
        drop(value);
        return None;
    }
    Some(value)
}

// `@[]` of a type of sequences.
fn open_as(alloc: Global, def: &TypeDef, ty: TypeId, at: Place, number: u32) -> Option<Value>
    ensures given { (ts : List Ty) → type_at ts ty ≡ meant ts def.now
        → option_map (valued_of ts) result ≡ open_as (type_at ts ty) at number }
    ensures comes { is_some result ≡ is_sequence_in (Some def.now) }
    ensures ty { IfSome result (λ v. v.ty ≡ ty) }
{
    if is_sequence(def) {
        Some(no_elements(alloc, ty, at, number))
    } else {
        None
    }
}

fn no_elements(alloc: Global, ty: TypeId, at: Place, number: u32) -> Value
    ensures expr { (ts : List Ty) →
        expr_of ts result.expr ≡ sequence (node number at) (type_at ts ty) NoArg }
    ensures ty { result.ty ≡ ty }
    ensures writable { result.writable ≡ false }
{
    Value {
        expr: applied(number, at, Some(ty), Operation::Sequence, Vec::new(alloc)),
        ty,
        writable: false,
    }
}

/// The operand as a value of a type.
pub fn settle(alloc: Global, types: &TypeTable, ty: TypeId, operand: Operand) -> Option<Value>
    requires ty { ty < length types.now }
    requires operand { OperandWithin (length types.now) operand }
    ensures given { (ts : List Ty) (facts : Facts) → Under types.now ts facts
        → option_map (valued_of ts) result ≡ settled (type_at ts ty) (operand_of ts operand) }
    ensures comes { is_some result ≡ is_of types.now ty operand }
    ensures within { IfSome result (λ v. v.ty < length types.now) }
{
    match operand {
        Operand::Value(value) => only_if(ty == value.ty, value),
        Operand::Open { at, number } => open_as(alloc, entry(types, ty), ty, at, number),
        _ => None,
    }
}

/// An operand that is a value of a type, as one.
pub fn settled(alloc: Global, types: &TypeTable, ty: TypeId, operand: Operand) -> Value
    requires ty { ty < length types.now }
    requires operand { OperandWithin (length types.now) operand }
    requires fits { is_of types.now ty operand ≡ true }
    ensures given { (ts : List Ty) (facts : Facts) → Under types.now ts facts
        → settled (type_at ts ty) (operand_of ts operand) ≡ Some (valued_of ts result) }
    ensures within { result.ty < length types.now }
{
    match settle(alloc, types, ty, operand) {
        Some(value) => value,
        None => unreachable!(),
    }
}

/// The place of the first operand that has no type by itself, else of the operation.
pub fn place_of_no_fit(at: Place, operands: &[Operand]) -> Place
    ensures { no_fit_at at operands.now ≡ result }
{
    for operand in operands {
        if let Operand::Open { at, .. } = operand {
            return *at;
        }
    }
    at
}
