// What values of types start at, and objects with values of some fields.
ghost use Rattle.std.specs.Prelude.{◌≡◌, ◌<◌, List, length, IfOk, Some};
ghost use Rattle.nim_types.specs.Types.{Ty, Facts, fact_of};
ghost use Rattle.nim_types.specs.Table.{type_at, facts_in, meant, said_of, parts_of, AllBelow};
ghost use Rattle.nim_program.specs.Program.{Literal as Meant, PartsOf};
ghost use Rattle.nim_program.specs.View.{literal_of, literals_of};
ghost use Rattle.expr_rules.specs.Constants.{given_or, object_of, on_one, with_values};
ghost use Rattle.nim_program.specs.Defaults.{default_literal};
ghost use Rattle.expr_parts.specs.View.{Under};
ghost use Rattle.expr_constants.specs.ViewConstants.{evaluated_of, literal_or, values_of};
ghost use Rattle.expr_constants.specs.ViewConstants.{known_parts, field_values};
ghost use Rattle.expr_constants.specs.ViewFixed.{IsFixed};

use crate::evaluated::{Evaluated, limited};
use arc_base::Memory;
use expr_parts::constants::copied;
use expr_parts::kinds::entry;
use nim_program::Literal;
use nim_types::{TypeDef, TypeId, TypeTable, declared_types};
use plain_values::start_of;
use std::alloc::Global;

fn parts_with(all: Vec<Literal>) -> Literal
    ensures { literal_of result ≡ PartsOf (literals_of all.items) }
{
    Literal::Parts(all)
}

/// What a value of a type starts at, where so many declared types have something said of them.
pub fn default_literal(
    alloc: Global,
    types: &TypeTable,
    declared: u32,
    ty: TypeId,
) -> Result<Literal, Memory>
    requires ty { ty < length types.now }
    requires declared { declared ≡ length (facts_in types.now) }
    ensures { IfOk result (λ l. (ts : List Ty) (facts : Facts) → Under types.now ts facts
        → literal_of l ≡ default_literal facts (type_at ts ty)) }
{
    start_of(alloc, types, declared, ty)
}

// The value that is given of a field.
fn given_at<'a>(fields: &[u32], values: &'a [Literal], i: usize) -> Option<&'a Literal>
    ensures { (other : Meant) → given_or i (with_values fields.now (literals_of values.now)) other
        ≡ literal_or (λ l. literal_of l.now) other result }
{
    let (field, fields) = fields.split_first()?;
    let (value, values) = values.split_first()?;
    if *field as usize == i {
        return Some(value);
    }
    given_at(fields, values, i)
}

// The value of a field: what is given, else what it starts at.
fn field_literal(
    alloc: Global,
    types: &TypeTable,
    declared: u32,
    i: usize,
    ty: TypeId,
    fields: &[u32],
    values: &[Literal],
) -> Result<Literal, Memory>
    requires ty { ty < length types.now }
    requires declared { declared ≡ length (facts_in types.now) }
    ensures { IfOk result (λ l. (ts : List Ty) (facts : Facts) → Under types.now ts facts
        → literal_of l ≡ given_or i (with_values fields.now (literals_of values.now))
        (default_literal facts (type_at ts ty))) }
{
    match given_at(fields, values, i) {
        Some(literal) => copied(alloc, literal),
        None => default_literal(alloc, types, declared, ty),
    }
}

fn field_literals(
    alloc: Global,
    types: &TypeTable,
    parts: &[TypeId],
    fields: &[u32],
    values: &[Literal],
) -> Result<Vec<Literal>, Memory>
    requires { AllBelow (length types.now) parts.now }
    ensures { IfOk result (λ all. (ts : List Ty) (facts : Facts) → Under types.now ts facts
        → literals_of all.items ≡ field_values facts ts 0 parts.now
        (with_values fields.now (literals_of values.now))) }
{
    let declared = declared_types(types);
    let mut all = Vec::new(alloc);
    for i in 0..parts.len() {
        let literal = field_literal(alloc, types, declared, i, parts[i], fields, values)?;
        all.push(literal)?;
    }
    Ok(all)
}

// The types of an object's fields, where they are known.
fn known_parts(def: &TypeDef) -> &[TypeId]
    ensures { result.now ≡ known_parts def.now }
{
    match def {
        TypeDef::Object { fields, parts, .. } => {
            if fields.as_slice().len() == parts.as_slice().len() {
                parts.as_slice()
            } else {
                &[]
            }
        }
        _ => &[],
    }
}

// The entry of a type of the table.
fn known(types: &TypeTable, id: TypeId) -> &TypeDef
    requires { IsFixed types.now (λ ts. type_at ts id) }
    ensures means { (ts : List Ty) (facts : Facts) → Under types.now ts facts
        → type_at ts id ≡ meant ts result.now }
    ensures says { (ts : List Ty) (facts : Facts) → Under types.now ts facts
        → fact_of facts (meant ts result.now) ≡ said_of ts result.now }
    ensures parts { AllBelow (length types.now) (parts_of result.now) }
{
    if id >= types.count() {
        unreachable!();
    }
    entry(types, id)
}

// An object with these values of fields.
fn object_with(
    alloc: Global,
    types: &TypeTable,
    ty: TypeId,
    fields: &[u32],
    values: &[Literal],
) -> Result<Evaluated<Literal>, Memory>
    requires { IsFixed types.now (λ ts. type_at ts ty) }
    ensures { IfOk result (λ e. (ts : List Ty) (facts : Facts) → Under types.now ts facts
        → evaluated_of literal_of e ≡ object_of facts (Some (type_at ts ty))
        (with_values fields.now (literals_of values.now))) }
{
    let def = known(types, ty);
    let all = field_literals(alloc, types, known_parts(def), fields, values)?;
    Ok(limited(parts_with(all)))
}

/// An object with these values of fields.
pub fn construct(
    alloc: Global,
    types: &TypeTable,
    ty: TypeId,
    fields: &[u32],
    values: &Evaluated<Vec<Literal>>,
) -> Result<Evaluated<Literal>, Memory>
    requires { IsFixed types.now (λ ts. type_at ts ty) }
    ensures { IfOk result (λ e. (ts : List Ty) (facts : Facts) → Under types.now ts facts
        → evaluated_of literal_of e
        ≡ on_one (λ ls. object_of facts (Some (type_at ts ty)) (with_values fields.now ls))
        (evaluated_of values_of values.now)) }
{
    match values {
        Evaluated::Comes(values) => object_with(alloc, types, ty, fields, values.as_slice()),
        Evaluated::Traps => Ok(Evaluated::Traps),
        Evaluated::Varies => Ok(Evaluated::Varies),
    }
}
