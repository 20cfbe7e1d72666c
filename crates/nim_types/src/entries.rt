// The entries of a table, and of how many types something is said.
ghost use Rattle.std.specs.Prelude.{◌≡◌, length, IfSome, option_map, slice_get};
ghost use Rattle.nim_types.specs.Entries.{says};
ghost use Rattle.nim_types.specs.Table.{IsTable, IsWithin, AllBelow, parts_of, facts_in};

use crate::table::TypeTable;
use crate::types::{TypeDef, TypeId};

/// The entry of a number, None beyond the table.
pub fn entry(types: &TypeTable, ty: TypeId) -> Option<&TypeDef>
    ensures is { option_map (λ d. d.now) result ≡ slice_get types.now ty }
    ensures within { IfSome result (λ d. IsWithin ty d.now) }
    ensures parts { IfSome result (λ d. AllBelow (length types.now) (parts_of d.now)) }
    ensures table { IsTable types.now }
{
    if ty < types.count() {
        Some(types.get(ty))
    } else {
        None
    }
}

/// Whether something is said of the type of an entry: it is an enum, an object whose parts are known, a distinct type or an exception.
pub fn says(def: &TypeDef) -> bool
    ensures { result ≡ says def.now }
{
    match def {
        TypeDef::Enum { .. } => true,
        TypeDef::Object { fields, parts, .. } => fields.as_slice().len() == parts.as_slice().len(),
        TypeDef::Distinct { .. } => true,
        TypeDef::Exception { .. } => true,
        TypeDef::Int
        | TypeDef::Bool
        | TypeDef::Char
        | TypeDef::Text
        | TypeDef::Seq(_)
        | TypeDef::Param(_)
        | TypeDef::Array { .. }
        | TypeDef::Tuple { .. }
        | TypeDef::Ref { .. } => false,
    }
}

/// Of how many types something is said.
pub fn declared_types(types: &TypeTable) -> u32
    ensures count { result ≡ length (facts_in types.now) }
    ensures table { IsTable types.now }
{
    let mut n = 0_u32;
    for id in 0..types.count() {
        if says(types.get(id)) {
            n += 1;
        }
    }
    n
}
