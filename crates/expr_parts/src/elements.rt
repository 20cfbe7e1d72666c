// Arrays and sequences of given elements.
ghost use Rattle.std.specs.Prelude.{◌≡◌, ◌<◌, ◌∷◌, List, length, map, IfOk, Ok, Some};
ghost use Rattle.arc_base.specs.Refusal.{Answers};
ghost use Rattle.nim_types.specs.Types.{Ty, Facts, sequence};
ghost use Rattle.nim_types.specs.Table.{type_at, meant, IsBelow};
ghost use Rattle.nim_program.specs.Nodes as nodes;
ghost use Rattle.nim_program.specs.View.{expr_of, operands_of, if_type};
ghost use Rattle.expr_rules.specs.Answers.{node, Want};
ghost use Rattle.expr_rules.specs.Constructions.{empty_rule, array_rule, sequence_rule};
ghost use Rattle.expr_rules.specs.Env.{Env};
ghost use Rattle.expr_parts.specs.declared.value.Value.{Value};
ghost use Rattle.expr_parts.specs.View.{valued_of};
ghost use Rattle.expr_parts.specs.View.{Under, AllFormed, Grown, number_of, array_by};

use crate::grow::add;
use crate::kinds::{entry, is_sequence};
use crate::nodes::applied;
use crate::sizes::is_sized;
use crate::value::{Value, operands_in, refusal};
use arc_base::{Code, Place, Stop};
use expr_rules::MOST_ELEMENTS;
use nim_program::{Expr, Operand as Argument, Operation};
use nim_types::{TypeDef, TypeId, TypeTable};
use std::alloc::Global;

/// A sequence of elements of a type.
pub fn sequence(
    types: &mut TypeTable,
    number: u32,
    at: Place,
    of: TypeId,
    parts: Vec<Argument>,
) -> Result<Expr, Stop>
    requires of { of < length types.old }
    ensures grown { Grown types.old types.new }
    ensures answers { (ts : List Ty) (facts : Facts) → Under types.new ts facts
        → Answers (expr_of ts) (Ok (nodes.sequence (node number at) (sequence (type_at ts of))
        (operands_of ts parts.items))) result }
    ensures within { IfOk result (λ e. IsBelow (length types.new) (number_of e)) }
{
    let ty = add(types, TypeDef::Seq(of))?;
    Ok(applied(number, at, Some(ty), Operation::Sequence, parts))
}

/// An array of elements of a type.
pub fn array(
    types: &mut TypeTable,
    number: u32,
    at: Place,
    of: TypeId,
    parts: Vec<Argument>,
) -> Result<Expr, Stop>
    requires of { of < length types.old }
    requires formed { AllFormed types.old }
    ensures grown { Grown types.old types.new }
    ensures answers { (ts : List Ty) (facts : Facts) → Under types.new ts facts
        → Answers (expr_of ts) (array_by facts number at (length parts.items) (type_at ts of)
        (operands_of ts parts.items)) result }
    ensures within { IfOk result (λ e. IsBelow (length types.new) (number_of e)) }
{
    let len = parts.len();
    if len > MOST_ELEMENTS as usize {
        return Err(refusal(Code::NotTyped, at));
    }
    let ty = add(
        types,
        TypeDef::Array {
            len: len as u32,
            of,
        },
    )?;
    if !is_sized(types, ty) {
        return Err(refusal(Code::NotTyped, at));
    }
    Ok(applied(number, at, Some(ty), Operation::Make, parts))
}

/// An array of values, which have the type of the first.
pub fn array_of(
    alloc: Global,
    types: &mut TypeTable,
    number: u32,
    at: Place,
    of: TypeId,
    values: Vec<Value>,
) -> Result<Expr, Stop>
    requires of { of < length types.old }
    requires formed { AllFormed types.old }
    ensures grown { Grown types.old types.new }
    ensures answers { (ts : List Ty) (env : Env) → Under types.new ts env.facts
        → (v : Value) (vs : List Value) → values.items ≡ v ∷ vs → v.ty ≡ of
        → Answers (expr_of ts) (array_rule env number at (map (valued_of ts) values.items)) result }
    ensures within { IfOk result (λ e. IsBelow (length types.new) (number_of e)) }
{
    let parts = operands_in(alloc, values)?;
    array(types, number, at, of, parts)
}

/// A sequence of values, which have the type of the first.
pub fn sequence_of(
    alloc: Global,
    types: &mut TypeTable,
    number: u32,
    at: Place,
    of: TypeId,
    values: Vec<Value>,
) -> Result<Expr, Stop>
    requires of { of < length types.old }
    ensures grown { Grown types.old types.new }
    ensures answers { (ts : List Ty) (facts : Facts) → Under types.new ts facts
        → (want : Want) (v : Value) (vs : List Value) → values.items ≡ v ∷ vs → v.ty ≡ of
        → Answers (expr_of ts) (sequence_rule want number at
        (map (valued_of ts) values.items)) result }
    ensures within { IfOk result (λ e. IsBelow (length types.new) (number_of e)) }
{
    let parts = operands_in(alloc, values)?;
    sequence(types, number, at, of, parts)
}

/// `@[]`, of the type that its place gives.
pub fn empty_sequence(
    alloc: Global,
    types: &TypeTable,
    number: u32,
    at: Place,
    wanted: Option<TypeId>,
) -> Result<Expr, Stop>
    requires wanted { IsBelow (length types.now) wanted }
    ensures answers { (ts : List Ty) (facts : Facts) → Under types.now ts facts
        → Answers (expr_of ts) (empty_rule number at (if_type ts wanted)) result }
    ensures within { IfOk result (λ e. IsBelow (length types.now) (number_of e)) }
{
    match wanted {
        Some(ty) => sequence_without(alloc, entry(types, ty), number, at, ty),
        None => Err(refusal(Code::NotTyped, at)),
    }
}

fn sequence_without(
    alloc: Global,
    def: &TypeDef,
    number: u32,
    at: Place,
    ty: TypeId,
) -> Result<Expr, Stop>
    ensures answers { (ts : List Ty) → type_at ts ty ≡ meant ts def.now
        → Answers (expr_of ts) (empty_rule number at (Some (type_at ts ty))) result }
    ensures number { IfOk result (λ e. number_of e ≡ Some ty) }
{
    if !is_sequence(def) {
        return Err(refusal(Code::NotTyped, at));
    }
    Ok(applied(number, at, Some(ty), Operation::Sequence, Vec::new(alloc)))
}
