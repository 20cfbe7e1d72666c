// The storage of types, kept beside the entries once it follows from that of the parts.
ghost use Rattle.std.specs.Prelude.{◌≡◌, ◌<◌, slice_get, slice_set, length, Option, true, false};
ghost use Rattle.nim_types.specs.Forms.{or_word};
ghost use Rattle.nim_types.specs.Kept.{at_number, plus, times, closed, sum_in, parts_in};
ghost use Rattle.nim_types.specs.Kept.{storage_in, is_due, HalfSettled, Settled, Waits, Learns};
ghost use Rattle.nim_types.specs.Kept.{Stays, Stale, unknowns, stored_as};

use crate::types::{LIST_BYTES, TypeDef, TypeId, WORD_BYTES};

/// The bytes of a type, 4,294,967,295 where they are more, and whether it is hooked.
#[derive(Clone, Copy)]
pub struct Storage {
    pub bytes: u32,
    pub hooked: bool,
}

impl Storage {
    // Of a value and one behind it.
    fn plus(self, other: Storage) -> Storage
        ensures { result ≡ plus self other }
    {
        Storage {
            bytes: self.bytes.saturating_add(other.bytes),
            hooked: self.hooked || other.hooked,
        }
    }

    // Of so many of them.
    fn times(self, count: u32) -> Storage
        ensures { result ≡ times count self }
    {
        Storage {
            bytes: or_word_bytes(self.bytes.saturating_mul(count)),
            hooked: count > 0 && self.hooked,
        }
    }

    // Of an object or a tuple with these parts.
    fn closed(self, own_hooks: bool) -> Storage
        ensures { result ≡ closed own_hooks self }
    {
        Storage {
            bytes: or_word_bytes(self.bytes),
            hooked: own_hooks || self.hooked,
        }
    }
}

fn or_word_bytes(bytes: u32) -> u32
    ensures { result ≡ or_word bytes }
{
    if bytes == 0 { WORD_BYTES } else { bytes }
}

/// What stands at a number, None too where it is beyond the list.
pub fn item_at<T: Copy>(list: &[Option<T>], number: usize) -> Option<T>
    ensures { result ≡ at_number list.now number }
{
    list.get(number).copied().flatten()
}

// Of these types one behind the other, None where one isn't known.
fn sum_of(known: &[Option<Storage>], ids: &[TypeId]) -> Option<Storage>
    ensures { result ≡ sum_in known.now (stored_as 0 false) ids.now }
{
    let mut sum = Storage {
        bytes: 0,
        hooked: false,
    };
    for id in ids {
        sum = sum.plus(item_at(known, *id as usize)?);
    }
    Some(sum)
}

fn parts_of(known: &[Option<Storage>], own_hooks: bool, ids: &[TypeId]) -> Option<Storage>
    ensures { result ≡ parts_in known.now own_hooks ids.now }
{
    let sum = sum_of(known, ids)?;
    Some(sum.closed(own_hooks))
}

/// The storage of an entry, None where that of a part isn't known.
pub fn storage_of(known: &[Option<Storage>], def: &TypeDef) -> Option<Storage>
    ensures { result ≡ storage_in known.now def.now }
{
    match def {
        TypeDef::Text | TypeDef::Seq(_) => Some(Storage {
            bytes: LIST_BYTES,
            hooked: true,
        }),
        TypeDef::Ref { .. } => Some(Storage {
            bytes: WORD_BYTES,
            hooked: true,
        }),
        TypeDef::Array { len, of } => {
            let part = item_at(known, *of as usize)?;
            Some(part.times(*len))
        }
        TypeDef::Tuple { parts, .. } => parts_of(known, false, parts.as_slice()),
        TypeDef::Object {
            fields,
            resource,
            parts,
            ..
        } => {
            if fields.as_slice().len() == parts.as_slice().len() {
                parts_of(known, *resource, parts.as_slice())
            } else {
                None
            }
        }
        TypeDef::Distinct { base, .. } => item_at(known, *base as usize),
        _ => Some(Storage {
            bytes: WORD_BYTES,
            hooked: false,
        }),
    }
}

/// Whether it is an object without the types of its fields.
pub fn is_incomplete(def: &TypeDef) -> bool
    ensures { result ≡ is_due def.now }
{
    match def {
        TypeDef::Object { fields, parts, .. } => fields.as_slice().len() != parts.as_slice().len(),
        _ => false,
    }
}

// Takes up the storage of an entry where it wasn't known and now follows; whether it did.
fn learn(known: &mut [Option<Storage>], i: usize, def: &TypeDef) -> bool
    requires { i < length known.old }
    ensures learned { result ≡ true → Learns known.old i (storage_in known.old def.now) known.new }
    ensures kept { result ≡ false → Stays known.old i (storage_in known.old def.now) known.new }
{
    if item_at(known, i).is_some() {
        return false;
    }
    match storage_of(known, def) {
        Some(storage) => {
            known[i] = Some(storage);
            true
        }
        None => false,
    }
}

// Goes over the entries once, the last first, since most that wait do so for a later one; whether
// the storage of one became known.
fn sweep(defs: &[TypeDef], known: &mut [Option<Storage>]) -> bool
    requires { HalfSettled defs.now known.old }
    ensures half { HalfSettled defs.now known.new }
    ensures done { result ≡ false → Settled defs.now known.new }
    ensures falls { result ≡ true → unknowns known.new < unknowns known.old }
{
    let mut found = false;
    let mut i = defs.len();
    while i > 0 {
        i -= 1;
        if learn(known, i, &defs[i]) {
            found = true;
        }
    }
    found
}

/// Finds all storage that follows from what is known.
pub fn settle(defs: &[TypeDef], known: &mut [Option<Storage>])
    requires { HalfSettled defs.now known.old }
    ensures { Settled defs.now known.new }
{
    while sweep(defs, known) {}
}

/// Whether the storage of an entry isn't known, but for objects without the types of their fields.
pub fn is_waiting(defs: &[TypeDef], known: &[Option<Storage>]) -> bool
    ensures { Waits result defs.now known.now }
{
    for (i, def) in defs.iter().enumerate() {
        if item_at(known, i).is_none() && !is_incomplete(def) {
            return true;
        }
    }
    false
}

/// Takes up what an entry's storage follows from now, and what follows from it; whether some entry
/// may wait.
pub fn take_up(defs: &[TypeDef], known: &mut [Option<Storage>], i: usize, waiting: bool) -> bool
    requires within { i < length defs.now }
    requires stale { Stale defs.now i known.old waiting }
    ensures settled { Settled defs.now known.new }
    ensures waits { Waits result defs.now known.new }
{
    if !learn(known, i, &defs[i]) {
        return waiting || item_at(known, i).is_none();
    }
    if waiting {
        settle(defs, known);
        return is_waiting(defs, known);
    }
    false
}
