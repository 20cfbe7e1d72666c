// How many bytes values of the table's types have, and where their parts stand.
ghost use Rattle.std.specs.Prelude.{◌≡◌, IfOk, slice_get, take};
ghost use Rattle.nim_types.specs.Table.{IsWithin, AllBelow, parts_of};
ghost use Rattle.nim_program.specs.Sizes.{HaveForms};
ghost use Rattle.hook_code.specs.HookCode.{bytes_at, bytes_all, part_at, element_bytes};

use crate::emit::sum;
use arc_base::Memory;
use nim_types::{TypeDef, TypeId, TypeTable, WORD_BYTES, entry, type_forms};

/// The bytes of a type. One beyond the table is int.
pub fn bytes_at(types: &TypeTable, ty: TypeId) -> Result<u32, Memory>
    requires { HaveForms types.now }
    ensures { IfOk result (λ bytes. bytes ≡ bytes_at types.now ty) }
{
    type_forms();
    if ty >= types.count() {
        return Ok(WORD_BYTES);
    }
    let bytes = types.size_of(ty);
    if bytes == u32::MAX {
        return Err(Memory);
    }
    Ok(bytes)
}

// The bytes of types one behind the other.
fn bytes_all(types: &TypeTable, tys: &[TypeId]) -> Result<u32, Memory>
    requires { HaveForms types.now }
    ensures { IfOk result (λ bytes. bytes ≡ bytes_all types.now tys.now) }
{
    let mut bytes = 0;
    for ty in tys {
        bytes = sum(bytes, bytes_at(types, *ty)?)?;
    }
    Ok(bytes)
}

// The first of these types.
fn front(tys: &[TypeId], count: u32) -> &[TypeId]
    ensures { result.now ≡ take count tys.now }
{
    let count = count as usize;
    if count < tys.len() {
        &tys[..count]
    } else {
        tys
    }
}

/// How many bytes a part of a tuple or an object stands behind the whole.
pub fn part_at(types: &TypeTable, ty: TypeId, part: u32) -> Result<u32, Memory>
    requires { HaveForms types.now }
    ensures { IfOk result (λ at. at ≡ part_at types.now ty part) }
{
    match entry(types, ty) {
        Some(TypeDef::Tuple { parts, .. } | TypeDef::Object { parts, .. }) => {
            bytes_all(types, front(parts.as_slice(), part))
        }
        _ => Ok(0),
    }
}

/// The bytes of an element of an array or a sequence.
pub fn element_bytes(types: &TypeTable, ty: TypeId) -> Result<u32, Memory>
    requires { HaveForms types.now }
    ensures { IfOk result (λ bytes. bytes ≡ element_bytes types.now (slice_get types.now ty)) }
{
    match entry(types, ty) {
        Some(TypeDef::Array { of, .. } | TypeDef::Seq(of)) => bytes_at(types, *of),
        _ => Ok(0),
    }
}
