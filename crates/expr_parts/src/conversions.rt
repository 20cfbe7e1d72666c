// Values of another type, and objects without given fields.
ghost use Rattle.std.specs.Prelude.{◌≡◌, ◌<◌, ℕ, Bool, List, [], ◌∷◌, ◌++◌, length, map, slice_get, Some};
ghost use Rattle.std.specs.Prelude.{option_map, IfOk, IfSome};
ghost use Rattle.arc_base.specs.Refusal.{Answers};
ghost use Rattle.nim_types.specs.Types.{Ty, Facts, fact_of, int};
ghost use Rattle.nim_types.specs.Table.{fields_fact, fields_with};
ghost use Rattle.nim_types.specs.Table.{type_at, meant, said_of, IsBelow, IsWithin};
ghost use Rattle.nim_program.specs.View.{expr_of, if_type};
ghost use Rattle.expr_rules.specs.Constructions.{base_of, source_of, empty_object, convert_by};
ghost use Rattle.expr_rules.specs.Constructions.{conversion_rule};
ghost use Rattle.expr_rules.specs.Env.{Env};
ghost use Rattle.expr_parts.specs.View.{OperandsWithin, no_fit_at};
ghost use Rattle.expr_rules.specs.Constructions.{or_from, from_distinct, is_some_type, settled_as};
ghost use Rattle.expr_parts.specs.View.{Under, KindsIn, OperandWithin, operand_of};
ghost use Rattle.expr_parts.specs.View.{number_of, valued_of, no_fit_by, converts, are_fields};
ghost use Rattle.expr_rules.specs.Answers.{settled};
ghost use Rattle.nim_types.specs.declared.types.TypeDef.TheVariants.{Int};

use crate::kinds::{base_of, entry, is_same};
use crate::nodes::{constructed, on_one};
use crate::settle::{only_if, place_of_no_fit, settle, settles};
use crate::value::{Operand, Value, refusal};
use arc_base::{Code, Items, Place, Stop};
use nim_program::{Expr, Operand as Argument, Operation};
use nim_types::{FieldName, TypeDef, TypeId, TypeTable};
use std::alloc::Global;

// What is converted to a type: ints to an enum, the base to a distinct type.
fn source_of(ints: TypeId, def: &TypeDef) -> Option<TypeId>
    ensures source { (ts : List Ty) (facts : Facts) → type_at ts ints ≡ int
        → fact_of facts (meant ts def.now) ≡ said_of ts def.now
        → source_of facts (meant ts def.now) ≡ if_type ts result }
    ensures within { (n : ℕ) → ints < n → IsWithin n def.now → IsBelow n result }
{
    match def {
        TypeDef::Enum { .. } => Some(ints),
        TypeDef::Distinct { base, .. } => Some(*base),
        _ => None,
    }
}

// Whether a type is the base of a distinct type.
fn is_base(types: &TypeTable, distinct: TypeId, ty: TypeId) -> bool
    requires distinct { distinct < length types.now }
    requires ty { ty < length types.now }
    ensures { (ts : List Ty) (facts : Facts) → Under types.now ts facts
        → is_some_type (base_of facts (type_at ts distinct)) (type_at ts ty) ≡ result }
{
    match base_of(entry(types, distinct)) {
        Some(base) => is_same(types, base, ty),
        None => false,
    }
}

// From a distinct type to its base.
fn from_distinct(types: &TypeTable, ty: TypeId, operand: Operand) -> Option<Value>
    requires ty { ty < length types.now }
    requires operand { OperandWithin (length types.now) operand }
    ensures given { (ts : List Ty) (facts : Facts) → Under types.now ts facts
        → option_map (valued_of ts) result
        ≡ from_distinct facts (type_at ts ty) (operand_of ts operand) }
    ensures within { IfSome result (λ v. v.ty < length types.now) }
{
    match operand {
        Operand::Value(value) => only_if(is_base(types, value.ty, ty), value),
        _ => None,
    }
}

fn same_length(fields: &[FieldName], parts: &[TypeId]) -> bool
    ensures { (ts : List Ty) (own_hooks : Bool) → are_fields (fields_fact (fields_with ts fields.now
        parts.now) own_hooks) ≡ result }
{
    fields.len() == parts.len()
}

/// Whether it is an object whose fields are known.
pub fn has_fields(def: &TypeDef) -> bool
    ensures { (ts : List Ty) → are_fields (said_of ts def.now) ≡ result }
{
    match def {
        TypeDef::Object { fields, parts, .. } => same_length(fields.as_slice(), parts.as_slice()),
        _ => false,
    }
}

/// An object without given fields.
pub fn empty_object(
    alloc: Global,
    types: &TypeTable,
    number: u32,
    at: Place,
    ty: TypeId,
) -> Result<Expr, Stop>
    requires { ty < length types.now }
    ensures answers { (ts : List Ty) (facts : Facts) → Under types.now ts facts
        → Answers (expr_of ts) (empty_object number at (type_at ts ty)
        (fact_of facts (type_at ts ty))) result }
    ensures number { IfOk result (λ e. number_of e ≡ Some ty) }
{
    if !has_fields(entry(types, ty)) {
        return Err(refusal(Code::NotTyped, at));
    }
    Ok(constructed(number, at, ty, Items::new(alloc), Vec::new(alloc)))
}

// The operand as a value that is converted to a type.
fn source_value(
    alloc: Global,
    types: &TypeTable,
    ints: TypeId,
    ty: TypeId,
    operand: Operand,
) -> Option<Value>
    requires ints { slice_get types.now ints ≡ Some Int }
    requires ty { ty < length types.now }
    requires operand { OperandWithin (length types.now) operand }
    ensures given { (ts : List Ty) (facts : Facts) → Under types.now ts facts
        → option_map (valued_of ts) result
        ≡ or_from (settled_as (source_of facts (type_at ts ty)) (operand_of ts operand))
        (from_distinct facts (type_at ts ty) (operand_of ts operand)) }
    ensures within { IfSome result (λ v. v.ty < length types.now) }
{
    match source_of(ints, entry(types, ty)) {
        Some(source) => settle_or_base(alloc, types, source, ty, operand),
        None => from_distinct(types, ty, operand),
    }
}

fn settle_or_base(
    alloc: Global,
    types: &TypeTable,
    source: TypeId,
    ty: TypeId,
    operand: Operand,
) -> Option<Value>
    requires source { source < length types.now }
    requires ty { ty < length types.now }
    requires operand { OperandWithin (length types.now) operand }
    ensures given { (ts : List Ty) (facts : Facts) → Under types.now ts facts
        → option_map (valued_of ts) result
        ≡ or_from (settled (type_at ts source) (operand_of ts operand))
        (from_distinct facts (type_at ts ty) (operand_of ts operand)) }
    ensures within { IfSome result (λ v. v.ty < length types.now) }
{
    if settles(types, source, &operand) {
        return settle(alloc, types, source, operand);
    }
    from_distinct(types, ty, operand)
}

// The operand where it has no type by itself, else the operation.
fn place_or_open(at: Place, operand: &Operand) -> Place
    ensures { (ts : List Ty) → no_fit_by at (operand_of ts operand.now) ≡ result }
{
    match operand {
        Operand::Open { at, .. } => *at,
        _ => at,
    }
}

/// An operand as a value of another type.
pub fn convert(
    alloc: Global,
    types: &TypeTable,
    ints: TypeId,
    number: u32,
    at: Place,
    ty: TypeId,
    operand: Operand,
) -> Result<Expr, Stop>
    requires ints { slice_get types.now ints ≡ Some Int }
    requires ty { ty < length types.now }
    requires operand { OperandWithin (length types.now) operand }
    ensures answers { (ts : List Ty) (facts : Facts) → Under types.now ts facts
        → Answers (expr_of ts) (converts facts number at (type_at ts ty) (operand_of ts operand))
        result }
    ensures number { IfOk result (λ e. number_of e ≡ Some ty) }
{
    let place = place_or_open(at, &operand);
    match source_value(alloc, types, ints, ty, operand) {
        Some(value) => on_one(
            alloc,
            number,
            at,
            Some(ty),
            Operation::Convert,
            Argument::Value(value.expr),
        ),
        None => Err(refusal(Code::NotTyped, place)),
    }
}

// The last operand as a value of another type, where it is the only one.
fn convert_last(
    alloc: Global,
    types: &TypeTable,
    ints: TypeId,
    number: u32,
    at: Place,
    ty: TypeId,
    place: Place,
    others: &[Operand],
    operand: Operand,
) -> Result<Expr, Stop>
    requires ints { slice_get types.now ints ≡ Some Int }
    requires ty { ty < length types.now }
    requires operand { OperandWithin (length types.now) operand }
    ensures answers { (ts : List Ty) (env : Env) → Under types.now ts env.facts
        → no_fit_at at (others.now ++ operand ∷ []) ≡ place
        → Answers (expr_of ts) (conversion_rule env number at (type_at ts ty)
        (map (operand_of ts) (others.now ++ operand ∷ []))) result }
    ensures number { IfOk result (λ e. number_of e ≡ Some ty) }
{
    let count = others.len();
    if count > 0 {
        drop(operand);
        return Err(refusal(Code::NotTyped, place));
    }
    convert(alloc, types, ints, number, at, ty, operand)
}

/// A type called like a procedure: an object without fields, or a value of another type.
pub fn conversion(
    alloc: Global,
    types: &TypeTable,
    ints: TypeId,
    number: u32,
    at: Place,
    ty: TypeId,
    operands: Vec<Operand>,
) -> Result<Expr, Stop>
    requires ints { slice_get types.now ints ≡ Some Int }
    requires ty { ty < length types.now }
    requires operands { OperandsWithin (length types.now) operands.items }
    ensures answers { (ts : List Ty) (env : Env) → Under types.now ts env.facts
        → Answers (expr_of ts) (conversion_rule env number at (type_at ts ty)
        (map (operand_of ts) operands.items)) result }
    ensures number { IfOk result (λ e. number_of e ≡ Some ty) }
{
    let mut others = operands;
    let place = place_of_no_fit(at, others.as_slice());
    match others.pop() {
        Some(operand) => convert_last(
            alloc,
            types,
            ints,
            number,
            at,
            ty,
            place,
            others.as_slice(),
            operand,
        ),
        None => empty_object(alloc, types, number, at, ty),
    }
}
