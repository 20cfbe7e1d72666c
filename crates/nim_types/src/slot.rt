// A number for each entry, the same for equal ones, by which the table finds them.
ghost use Rattle.std.specs.Prelude.{◌≡◌};
ghost use Rattle.nim_types.specs.Kept.{mixed, mixed_all, mixed_texts, mixed_place, slot};

use crate::types::{TypeDef, TypeId};
use arc_base::{Bytes, Place};

/// How many numbers there are.
pub const SLOTS: u32 = 4096;

fn mix(number: u32, next: u32) -> u32
    ensures { result ≡ mixed number next }
{
    ((u64::from(number) * 31 + u64::from(next)) % u64::from(SLOTS)) as u32
}

fn mix_ids(number: u32, ids: &[TypeId]) -> u32
    ensures { result ≡ mixed_all number ids.now }
{
    let mut sum = number;
    for id in ids {
        sum = mix(sum, *id);
    }
    sum
}

fn mix_text(number: u32, text: &[u8]) -> u32
    ensures { result ≡ mixed_all number text.now }
{
    let mut sum = number;
    for b in text {
        sum = mix(sum, u32::from(*b));
    }
    sum
}

fn mix_texts(number: u32, texts: &[Bytes]) -> u32
    ensures { result ≡ mixed_texts number texts.now }
{
    let mut sum = number;
    for text in texts {
        sum = mix_text(sum, text.as_slice());
    }
    sum
}

fn mix_place(number: u32, at: Place) -> u32
    ensures { result ≡ mixed_place number at }
{
    mix(mix(mix(number, at.module), at.line), at.column)
}

/// The number of an entry.
pub fn slot_of(def: &TypeDef) -> u32
    ensures { result ≡ slot def.now }
{
    match def {
        TypeDef::Int => 0,
        TypeDef::Bool => 1,
        TypeDef::Char => 2,
        TypeDef::Text => 3,
        TypeDef::Seq(of) => mix(4, *of),
        TypeDef::Param(number) => mix(5, *number),
        TypeDef::Enum { at, .. } => mix_place(6, *at),
        TypeDef::Array { len, of } => mix(mix(7, *len), *of),
        TypeDef::Tuple { names, parts } => {
            mix_ids(mix_texts(8, names.as_slice()), parts.as_slice())
        }
        TypeDef::Object { at, args, .. } => mix_ids(mix_place(9, *at), args.as_slice()),
        TypeDef::Distinct { at, .. } => mix_place(10, *at),
        TypeDef::Ref { to, .. } => mix(11, *to),
        TypeDef::Exception { at, .. } => mix_place(12, *at),
    }
}
