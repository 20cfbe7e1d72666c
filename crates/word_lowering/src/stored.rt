// How many bytes values of the table's types have, and where their parts stand.
ghost use Rattle.std.specs.Prelude.{◌≡◌, IfOk, option_map, slice_get, take};
ghost use Rattle.word_lowering.specs.Stored.{bytes_at, bytes_all, base_within, base_at, entry_at};
ghost use Rattle.word_lowering.specs.Stored.{is_word, is_letter, part_at, count_in, element_bytes};
ghost use Rattle.word_lowering.specs.Stored.{limit_in, limit_at, is_hooked, HaveForms};

use crate::spots::sum;
use arc_base::Memory;
use nim_types::{TypeDef, TypeId, TypeTable, WORD_BYTES, entry, type_forms};

/// The bytes of a type. One beyond the table is int.
pub fn bytes_at(types: &TypeTable, ty: TypeId) -> Result<u32, Memory>
    requires { HaveForms types.now }
    ensures { IfOk result (λ bytes. bytes ≡ bytes_at types.now ty) }
{
    type_forms();
    if ty >= types.count() {
        return Ok(WORD_BYTES);
    }
    let bytes = types.size_of(ty);
    if bytes == u32::MAX {
        return Err(Memory);
    }
    Ok(bytes)
}

/// Whether it is a type of the table for whose values there is something to do when they are
/// copied, moved or destroyed.
pub fn is_hooked(types: &TypeTable, ty: TypeId) -> bool
    requires { HaveForms types.now }
    ensures { result ≡ is_hooked types.now ty }
{
    type_forms();
    if ty >= types.count() {
        return false;
    }
    types.is_hooked(ty)
}

// The bytes of types one behind the other.
fn bytes_all(types: &TypeTable, tys: &[TypeId]) -> Result<u32, Memory>
    requires { HaveForms types.now }
    ensures { IfOk result (λ bytes. bytes ≡ bytes_all types.now tys.now) }
{
    let mut bytes = 0;
    for ty in tys {
        bytes = sum(bytes, bytes_at(types, *ty)?)?;
    }
    Ok(bytes)
}

// At most so many distinct types are looked through.
fn base_within(types: &TypeTable, left: u32, ty: TypeId) -> TypeId
    ensures { result ≡ base_within left types.now ty }
{
    if left == 0 {
        return ty;
    }
    match entry(types, ty) {
        Some(TypeDef::Distinct { base, .. }) => base_within(types, left - 1, *base),
        _ => ty,
    }
}

/// The type below distinct types.
pub fn base_at(types: &TypeTable, ty: TypeId) -> TypeId
    ensures { result ≡ base_at types.now ty }
{
    base_within(types, types.count(), ty)
}

/// Its entry.
pub fn entry_at(types: &TypeTable, ty: TypeId) -> Option<&TypeDef>
    ensures { option_map (λ d. d.now) result ≡ entry_at types.now ty }
{
    entry(types, base_at(types, ty))
}

/// Whether a value of the type is one word.
pub fn is_word(types: &TypeTable, ty: TypeId) -> bool
    ensures { result ≡ is_word (entry_at types.now ty) }
{
    match entry_at(types, ty) {
        Some(
            TypeDef::Text
            | TypeDef::Seq(_)
            | TypeDef::Array { .. }
            | TypeDef::Tuple { .. }
            | TypeDef::Object { .. },
        ) => false,
        _ => true,
    }
}

/// Whether it is one of 256 values.
pub fn is_letter(types: &TypeTable, ty: TypeId) -> bool
    ensures { result ≡ is_letter (entry_at types.now ty) }
{
    match entry_at(types, ty) {
        Some(TypeDef::Char) => true,
        Some(TypeDef::Enum { members, .. }) => members.as_slice().len() == 256,
        _ => false,
    }
}

// The first of these types.
fn front(tys: &[TypeId], count: u32) -> &[TypeId]
    ensures { result.now ≡ take count tys.now }
{
    let count = count as usize;
    if count < tys.len() {
        &tys[..count]
    } else {
        tys
    }
}

/// How many bytes a part stands behind the whole.
pub fn part_at(types: &TypeTable, ty: TypeId, field: u32) -> Result<u32, Memory>
    requires { HaveForms types.now }
    ensures { IfOk result (λ at. at ≡ part_at types.now ty field) }
{
    match entry_at(types, ty) {
        Some(TypeDef::Tuple { parts, .. } | TypeDef::Object { parts, .. }) => {
            bytes_all(types, front(parts.as_slice(), field))
        }
        _ => Ok(0),
    }
}

/// How many elements an array has.
pub fn count_in(types: &TypeTable, ty: TypeId) -> u32
    ensures { result ≡ count_in (entry_at types.now ty) }
{
    match entry_at(types, ty) {
        Some(TypeDef::Array { len, .. }) => *len,
        _ => 0,
    }
}

/// How many bytes each of them has.
pub fn element_bytes(types: &TypeTable, ty: TypeId) -> Result<u32, Memory>
    requires { HaveForms types.now }
    ensures { IfOk result (λ bytes. bytes ≡ element_bytes types.now (entry_at types.now ty)) }
{
    match entry_at(types, ty) {
        Some(TypeDef::Array { of, .. }) => bytes_at(types, *of),
        _ => Ok(0),
    }
}

fn limit_in(types: &TypeTable, ty: TypeId) -> Option<usize>
    ensures { result ≡ limit_in (slice_get types.now ty) }
{
    match entry(types, ty) {
        Some(TypeDef::Char) => Some(256),
        Some(TypeDef::Enum { members, .. }) => Some(members.as_slice().len()),
        _ => None,
    }
}

/// How many values a type has to which an int is converted with a check.
pub fn limit_at(types: &TypeTable, ty: Option<TypeId>) -> Option<usize>
    ensures { result ≡ limit_at types.now ty }
{
    match ty {
        None => None,
        Some(ty) => limit_in(types, ty),
    }
}
