// The entries by their slots: the last one of each slot, and beside each entry the one before it
// there.
ghost use Rattle.std.specs.Prelude.{◌≡◌, ◌<◌, ◌≤◌, ◌^◌, ◌++◌, ◌∷◌, [], ℕ, true, false, Some};
ghost use Rattle.std.specs.Prelude.{length, slice_set, vec_len, vec_capacity, IfSome, IfNone, OnOk};
ghost use Rattle.nim_types.specs.Kept.{at_number, is_at, slot, Chained};
ghost use Rattle.nim_types.specs.declared.slot.TheConstants.{SLOTS};

use crate::equal::is_equal;
use crate::slot::{SLOTS, slot_of};
use crate::storage::item_at;
use crate::types::{TypeDef, TypeId};
use arc_base::Memory;
use std::alloc::Global;

/// The entries by their slots.
#[derive(Drop)]
pub struct Index {
    /// None at a slot without entries; all of them once there is an entry.
    pub heads: Vec<Option<TypeId>>,
    /// None at the first entry of a slot.
    pub nexts: Vec<Option<TypeId>>,
}

// Whether the entry at a number is of this type.
fn has_at(defs: &[TypeDef], number: u32, def: &TypeDef) -> bool
    ensures { result ≡ is_at defs.now number def.now }
{
    match defs.get(number as usize) {
        Some(entry) => is_equal(entry, def),
        None => false,
    }
}

// Makes all slots.
fn widen(heads: &mut Vec<Option<TypeId>>) -> Result<(), Memory>
    ensures same { (slot : ℕ) → at_number heads.new.items slot ≡ at_number heads.old.items slot }
    ensures ok { OnOk result (SLOTS ≤ length heads.new.items) }
{
    if heads.len() < SLOTS as usize {
        heads.resize(SLOTS as usize, None)?;
    }
    Ok(())
}

impl Index {
    pub fn new(alloc: Global) -> Index
        ensures heads { result.heads.items ≡ [] }
        ensures nexts { result.nexts.items ≡ [] }
    {
        Index {
            heads: Vec::new(alloc),
            nexts: Vec::new(alloc),
        }
    }

    /// The number of the entry that is of this type.
    pub fn find(&self, defs: &[TypeDef], def: &TypeDef) -> Option<TypeId>
        requires { Chained defs.now self.now.heads.items self.now.nexts.items }
        ensures some { IfSome result (λ id. is_at defs.now id def.now ≡ true) }
        ensures none { IfNone result ((id : ℕ) → is_at defs.now id def.now ≡ false) }
    {
        let mut next = item_at(&self.heads, slot_of(def) as usize);
        while let Some(id) = next {
            if has_at(defs, id, def) {
                return Some(id);
            }
            next = item_at(&self.nexts, id as usize);
        }
        None
    }

    /// Makes room for one more entry.
    pub fn make_room(&mut self) -> Result<(), Memory>
        ensures nexts { self.new.nexts.items ≡ self.old.nexts.items }
        ensures heads { (slot : ℕ) →
            at_number self.new.heads.items slot ≡ at_number self.old.heads.items slot }
        ensures room { OnOk result (vec_len self.new.nexts < vec_capacity self.new.nexts) }
        ensures slots { OnOk result (SLOTS ≤ length self.new.heads.items) }
    {
        widen(&mut self.heads)?;
        self.nexts.reserve(1)?;
        Ok(())
    }

    /// Takes up the next entry, which has this slot.
    pub fn push(&mut self, slot: u32)
        requires slots { slot < length self.old.heads.items }
        requires room { vec_len self.old.nexts < vec_capacity self.old.nexts }
        requires small { vec_len self.old.nexts < 2 ^ 32 }
        ensures heads { self.new.heads.items ≡
            slice_set self.old.heads.items slot (Some (length self.old.nexts.items)) }
        ensures nexts { self.new.nexts.items ≡
            self.old.nexts.items ++ at_number self.old.heads.items slot ∷ [] }
    {
        let id = self.nexts.len() as u32;
        self.nexts
            .push_reserved(item_at(&self.heads, slot as usize));
        self.heads[slot as usize] = Some(id);
    }
}
