// How many values types have, and the texts of these.
ghost use Rattle.std.specs.Prelude.{◌≡◌, ◌++◌, ◌∷◌, [], length, OnOk, Some, option_map, slice_get};
ghost use Rattle.std.specs.Prelude.{unsigned_abs};
ghost use Rattle.std.specs.Fmt.{signed_decimal};
ghost use Rattle.nim_types.specs.Table.{type_at, types_in, facts_in};
ghost use Rattle.nim_program.specs.Ints.{is_true, low_byte};
ghost use Rattle.nim_program.specs.Texts.{bool_text, name_in};
ghost use Rattle.nim_program.specs.Kinds.{below_distinct};
ghost use Rattle.nim_program.specs.View.{if_type};
ghost use Rattle.plain_values.specs.Values.{limit_of, text_of};
ghost use Rattle.plain_values.specs.Entries.{limit_at, text_for, base_at};

use crate::numbers::low_byte;
use arc_base::{Bytes, Memory};
use itoa::Buffer;
use nim_types::{TypeDef, TypeId, TypeTable, declared_types, entry};

// ---- conversions

fn limit_at(def: Option<&TypeDef>) -> Option<usize>
    ensures { result ≡ limit_at (option_map (λ d. d.now) def.entry) }
{
    match def {
        None => None,
        Some(def) => match def {
            TypeDef::Char => Some(256),
            TypeDef::Enum { members, .. } => Some(members.as_slice().len()),
            TypeDef::Int
            | TypeDef::Bool
            | TypeDef::Text
            | TypeDef::Seq(_)
            | TypeDef::Param(_)
            | TypeDef::Array { .. }
            | TypeDef::Tuple { .. }
            | TypeDef::Object { .. }
            | TypeDef::Distinct { .. }
            | TypeDef::Ref { .. }
            | TypeDef::Exception { .. } => None,
        },
    }
}

/// How many values a type has to which an int is converted with a check.
pub fn limit_of(types: &TypeTable, ty: TypeId) -> Option<usize>
    ensures { result ≡ limit_of (facts_in types.now) (type_at (types_in types.now) ty) }
{
    limit_at(entry(types, ty))
}

// ---- texts

fn add_bool(z: i32, text: &mut Bytes) -> Result<(), Memory>
    ensures { OnOk result (text.new ≡ text.old ++ bool_text (is_true z)) }
{
    if z == 0 {
        text.append(b"false")
    } else {
        text.append(b"true")
    }
}

fn add_number(z: i32, text: &mut Bytes) -> Result<(), Memory>
    ensures { OnOk result (text.new ≡ text.old ++ signed_decimal z) }
{
    let mut buffer = Buffer::new();
    text.append(buffer.format(z).as_bytes())
}

/// Adds a char, as a byte.
pub fn add_char(z: i32, text: &mut Bytes) -> Result<(), Memory>
    ensures { OnOk result (text.new ≡ text.old ++ low_byte z ∷ []) }
{
    text.push(low_byte(z))
}

fn add_member(members: &[Bytes], z: i32, text: &mut Bytes) -> Result<(), Memory>
    ensures { OnOk result (text.new
        ≡ text.old ++ name_in (slice_get members.now (unsigned_abs z))) }
{
    match members.get(z.unsigned_abs() as usize) {
        None => Ok(()),
        Some(member) => text.append(member.as_slice()),
    }
}

// Adds the text of a number of a type that is no distinct one.
fn add_plain(def: Option<&TypeDef>, z: i32, text: &mut Bytes) -> Result<(), Memory>
    ensures { OnOk result (text.new
        ≡ text.old ++ text_for (option_map (λ d. d.now) def.entry) z) }
{
    match def {
        None => add_number(z, text),
        Some(def) => match def {
            TypeDef::Int => add_number(z, text),
            TypeDef::Bool => add_bool(z, text),
            TypeDef::Char => add_char(z, text),
            TypeDef::Enum { members, .. } => add_member(members.as_slice(), z, text),
            TypeDef::Text
            | TypeDef::Seq(_)
            | TypeDef::Param(_)
            | TypeDef::Array { .. }
            | TypeDef::Tuple { .. }
            | TypeDef::Object { .. }
            | TypeDef::Distinct { .. }
            | TypeDef::Ref { .. }
            | TypeDef::Exception { .. } => Ok(()),
        },
    }
}

fn base_at(def: Option<&TypeDef>) -> Option<TypeId>
    ensures { result ≡ base_at (option_map (λ d. d.now) def.entry) }
{
    match def {
        None => None,
        Some(def) => match def {
            TypeDef::Distinct { base, .. } => Some(*base),
            TypeDef::Int
            | TypeDef::Bool
            | TypeDef::Char
            | TypeDef::Text
            | TypeDef::Seq(_)
            | TypeDef::Param(_)
            | TypeDef::Enum { .. }
            | TypeDef::Array { .. }
            | TypeDef::Tuple { .. }
            | TypeDef::Object { .. }
            | TypeDef::Ref { .. }
            | TypeDef::Exception { .. } => None,
        },
    }
}

// A distinct type is looked through, at most so often.
fn below(types: &TypeTable, often: u32, ty: TypeId) -> TypeId
    ensures { type_at (types_in types.now) result
        ≡ below_distinct often (facts_in types.now) (type_at (types_in types.now) ty) }
{
    if often == 0 {
        return ty;
    }
    match base_at(entry(types, ty)) {
        None => ty,
        Some(base) => below(types, often - 1, base),
    }
}

// A distinct type is looked through to the last. The declared types are counted for such alone.
fn last_below(types: &TypeTable, ty: TypeId) -> TypeId
    ensures { type_at (types_in types.now) result ≡ below_distinct (length (facts_in types.now))
        (facts_in types.now) (type_at (types_in types.now) ty) }
{
    match base_at(entry(types, ty)) {
        None => ty,
        Some(_) => below(types, declared_types(types), ty),
    }
}

// Adds the text of a number of a type.
fn add_of(types: &TypeTable, ty: TypeId, z: i32, text: &mut Bytes) -> Result<(), Memory>
    ensures { OnOk result (text.new ≡ text.old ++ text_of (facts_in types.now)
        (Some (type_at (types_in types.now) ty)) z) }
{
    let plain = last_below(types, ty);
    add_plain(entry(types, plain), z, text)
}

/// Adds the text of a number of a type. Where there is no type, nothing is added.
pub fn add_text(
    types: &TypeTable,
    ty: Option<TypeId>,
    number: i32,
    text: &mut Bytes,
) -> Result<(), Memory>
    ensures { OnOk result (text.new ≡ text.old ++ text_of (facts_in types.now)
        (if_type (types_in types.now) ty) number) }
{
    match ty {
        None => Ok(()),
        Some(ty) => add_of(types, ty, number, text),
    }
}
