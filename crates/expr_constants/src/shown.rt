// The texts of constants, and their values as ones of other types.
ghost use Rattle.std.specs.Prelude.{◌≡◌, List, IfOk, Some};
ghost use Rattle.nim_types.specs.Types.{Ty, Facts};
ghost use Rattle.nim_types.specs.Table.{type_at};
ghost use Rattle.nim_program.specs.Program.{Number};
ghost use Rattle.nim_program.specs.View.{literal_of, if_type};
ghost use Rattle.expr_rules.specs.Constants.{on_one, among, converted, shown};
ghost use Rattle.expr_parts.specs.View.{Under};
ghost use Rattle.expr_constants.specs.ViewConstants.{evaluated_of};
ghost use Rattle.expr_constants.specs.ViewFixed.{IsFixed};

use crate::evaluated::{Evaluated, limited, number_or_trap};
use arc_base::{Bytes, Memory};
use nim_program::Literal;
use nim_types::{TypeId, TypeTable};
use plain_values::{add_text, limit_of, one_of};
use std::alloc::Global;

// ---- conversions

// An ordinal, where it is one of so many.
fn among(values: usize, a: Literal) -> Evaluated<Literal>
    ensures { evaluated_of literal_of result ≡ among values (literal_of a) }
{
    match a {
        Literal::Ordinal(z) => number_or_trap(one_of(values, z)),
        _ => Evaluated::Varies,
    }
}

// As one of a type.
fn converted_to(types: &TypeTable, ty: TypeId, a: Literal) -> Evaluated<Literal>
    requires { IsFixed types.now (λ ts. type_at ts ty) }
    ensures { (ts : List Ty) (facts : Facts) → Under types.now ts facts
        → evaluated_of literal_of result ≡ converted facts (Some (type_at ts ty)) (literal_of a) }
{
    match limit_of(types, ty) {
        Some(values) => among(values, a),
        None => Evaluated::Comes(a),
    }
}

fn converted(types: &TypeTable, ty: Option<TypeId>, a: Literal) -> Evaluated<Literal>
    requires { IsFixed types.now (λ ts. if_type ts ty) }
    ensures { (ts : List Ty) (facts : Facts) → Under types.now ts facts
        → evaluated_of literal_of result ≡ converted facts (if_type ts ty) (literal_of a) }
{
    match ty {
        Some(ty) => converted_to(types, ty, a),
        None => Evaluated::Comes(a),
    }
}

/// A value as one of another type.
pub fn convert(types: &TypeTable, ty: Option<TypeId>, a: Evaluated<Literal>) -> Evaluated<Literal>
    requires { IsFixed types.now (λ ts. if_type ts ty) }
    ensures { (ts : List Ty) (facts : Facts) → Under types.now ts facts
        → evaluated_of literal_of result
        ≡ on_one (converted facts (if_type ts ty)) (evaluated_of literal_of a) }
{
    match a {
        Evaluated::Comes(a) => converted(types, ty, a),
        Evaluated::Traps => Evaluated::Traps,
        Evaluated::Varies => Evaluated::Varies,
    }
}

// ---- texts

// The text of a number of a type.
fn shown_number(
    alloc: Global,
    types: &TypeTable,
    ty: TypeId,
    z: i32,
) -> Result<Evaluated<Literal>, Memory>
    requires { IsFixed types.now (λ ts. type_at ts ty) }
    ensures { IfOk result (λ e. (ts : List Ty) (facts : Facts) → Under types.now ts facts
        → evaluated_of literal_of e ≡ shown facts (Some (type_at ts ty)) (Number z)) }
{
    let mut text = Bytes::new(alloc);
    add_text(types, Some(ty), z, &mut text)?;
    Ok(limited(Literal::Text(text)))
}

fn shown(
    alloc: Global,
    types: &TypeTable,
    ty: Option<TypeId>,
    a: Literal,
) -> Result<Evaluated<Literal>, Memory>
    requires { IsFixed types.now (λ ts. if_type ts ty) }
    ensures { IfOk result (λ e. (ts : List Ty) (facts : Facts) → Under types.now ts facts
        → evaluated_of literal_of e ≡ shown facts (if_type ts ty) (literal_of a)) }
{
    match a {
        Literal::Text(text) => Ok(Evaluated::Comes(Literal::Text(text))),
        Literal::Ordinal(z) => match ty {
            Some(ty) => shown_number(alloc, types, ty, z),
            None => Ok(Evaluated::Varies),
        },
        Literal::Nil => Ok(Evaluated::Varies),
        Literal::Parts(_) => Ok(Evaluated::Varies),
        Literal::Elements(_) => Ok(Evaluated::Varies),
    }
}

/// `$` of a value of a type.
pub fn show(
    alloc: Global,
    types: &TypeTable,
    ty: Option<TypeId>,
    a: Evaluated<Literal>,
) -> Result<Evaluated<Literal>, Memory>
    requires { IsFixed types.now (λ ts. if_type ts ty) }
    ensures { IfOk result (λ e. (ts : List Ty) (facts : Facts) → Under types.now ts facts
        → evaluated_of literal_of e
        ≡ on_one (shown facts (if_type ts ty)) (evaluated_of literal_of a)) }
{
    match a {
        Evaluated::Comes(a) => shown(alloc, types, ty, a),
        Evaluated::Traps => Ok(Evaluated::Traps),
        Evaluated::Varies => Ok(Evaluated::Varies),
    }
}
