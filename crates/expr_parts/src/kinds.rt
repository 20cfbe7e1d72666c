// Kinds of types, by their entries in the table.
ghost use Rattle.std.specs.Prelude.{◌≡◌, ◌<◌, ℕ, List, length, slice_get, Some};
ghost use Rattle.nim_types.specs.Types.{Ty, Facts, fact_of, same};
ghost use Rattle.nim_types.specs.Table.{type_at, meant, said_of, parts_of, AllBelow, IsBelow};
ghost use Rattle.nim_types.specs.Table.{IsWithin};
ghost use Rattle.expr_rules.specs.Builtins.{is_int, is_bool, is_text, is_ordinal, is_shown};
ghost use Rattle.expr_rules.specs.Builtins.{has_length};
ghost use Rattle.expr_rules.specs.Operators.{is_text_or_char};
ghost use Rattle.nim_program.specs.View.{if_type};
ghost use Rattle.expr_rules.specs.Constructions.{base_of};
ghost use Rattle.expr_parts.specs.View.{Under, is_sequence};

use nim_types::{TypeDef, TypeId, TypeTable};

/// The entry of a type.

pub fn entry(types: &TypeTable, id: TypeId) -> &TypeDef
    requires { id < length types.now }
    ensures entry { slice_get types.now id ≡ Some result.now }
    ensures means { (ts : List Ty) (facts : Facts) → Under types.now ts facts
        → type_at ts id ≡ meant ts result.now }
    ensures says { (ts : List Ty) (facts : Facts) → Under types.now ts facts
        → fact_of facts (meant ts result.now) ≡ said_of ts result.now }
    ensures within { IsWithin id result.now }
    ensures inside { IsWithin (length types.now) result.now }
    ensures parts { AllBelow (length types.now) (parts_of result.now) }
{
    types.get(id)
}

/// Whether two types are one.

pub fn is_same(types: &TypeTable, a: TypeId, b: TypeId) -> bool
    requires a { a < length types.now }
    requires b { b < length types.now }
    ensures { (ts : List Ty) (facts : Facts) → Under types.now ts facts
        → same (type_at ts a) (type_at ts b) ≡ result }
{
    a == b
}

pub fn is_int(def: &TypeDef) -> bool
    ensures { (ts : List Ty) → is_int (meant ts def.now) ≡ result }
{
    matches!(def, TypeDef::Int)
}

pub fn is_bool(def: &TypeDef) -> bool
    ensures { (ts : List Ty) → is_bool (meant ts def.now) ≡ result }
{
    matches!(def, TypeDef::Bool)
}

pub fn is_text(def: &TypeDef) -> bool
    ensures { (ts : List Ty) → is_text (meant ts def.now) ≡ result }
{
    matches!(def, TypeDef::Text)
}

/// Whether it is joined to a text by `&`.
pub fn is_text_or_char(def: &TypeDef) -> bool
    ensures { (ts : List Ty) → is_text_or_char (meant ts def.now) ≡ result }
{
    matches!(def, TypeDef::Text | TypeDef::Char)
}

/// Whether it is an int, a bool, a char or an enum.
pub fn is_ordinal(def: &TypeDef) -> bool
    ensures { (ts : List Ty) → is_ordinal (meant ts def.now) ≡ result }
{
    matches!(
        def,
        TypeDef::Int | TypeDef::Bool | TypeDef::Char | TypeDef::Enum { .. }
    )
}

/// Whether `$` shows it, `echo` writes it and comparisons take it.
pub fn is_shown(def: &TypeDef) -> bool
    ensures { (ts : List Ty) → is_shown (meant ts def.now) ≡ result }
{
    is_ordinal(def) || is_text(def)
}

/// Whether it has a length.
pub fn has_length(def: &TypeDef) -> bool
    ensures { (ts : List Ty) → has_length (meant ts def.now) ≡ result }
{
    matches!(def, TypeDef::Text | TypeDef::Seq(_) | TypeDef::Array { .. })
}

pub fn is_sequence(def: &TypeDef) -> bool
    ensures { (ts : List Ty) → is_sequence (meant ts def.now) ≡ result }
{
    matches!(def, TypeDef::Seq(_))
}

/// The base of a distinct type.
pub fn base_of(def: &TypeDef) -> Option<TypeId>
    ensures base { (ts : List Ty) (facts : Facts)
        → fact_of facts (meant ts def.now) ≡ said_of ts def.now
        → base_of facts (meant ts def.now) ≡ if_type ts result }
    ensures within { (n : ℕ) → IsWithin n def.now → IsBelow n result }
{
    match def {
        TypeDef::Distinct { base, .. } => Some(*base),
        _ => None,
    }
}
