// The table of types.
ghost use Rattle.std.specs.Prelude.{◌≡◌, ◌<◌, [], length, slice_get, Some, IfOk, OnErr};
ghost use Rattle.nim_types.specs.Table.{IsTable, IsWithin, AllBelow, parts_of, MayAdd, Adds};
ghost use Rattle.nim_types.specs.Table.{MayComplete, with_parts, completed, Grows, HasSize};
ghost use Rattle.nim_types.specs.Table.{HasHooks};
ghost use Rattle.nim_types.specs.Kept.{WaitsWith};

use crate::index::Index;
use crate::slot::slot_of;
use crate::storage::{Storage, is_incomplete, item_at, storage_of, take_up};
use crate::types::{TypeDef, TypeId};
use arc_base::{Items, Memory};
use std::alloc::Global;
use std::marker::Model;

/// Distinct types by number. Contracts see the entries in order.
#[derive(Drop)]
pub struct TypeTable {
    defs: Vec<TypeDef>,
    index: Index,
    known: Vec<Option<Storage>>,
    waiting: bool,
}

impl Model for TypeTable {
    ghost use Rattle.std.specs.Prelude.{List};
    ghost use Rattle.nim_types.specs.declared.types.TypeDef.{TypeDef};

    ghost Value = { List TypeDef };

    ghost view = { λ t. t.defs.items };

    ghost use Rattle.nim_types.specs.Kept.{IsKept};

    ghost invariant = { λ t.
        IsKept t.defs.items t.index.heads.items t.index.nexts.items t.known.items t.waiting };
}

// Whether some entry may wait for the storage of its parts, with one more entry.
fn waits_with(waiting: bool, storage: Option<Storage>, def: &TypeDef) -> bool
    ensures { WaitsWith waiting storage def.now result }
{
    waiting || (storage.is_none() && !is_incomplete(def))
}

fn set_parts(def: &mut TypeDef, given: Items<TypeId>)
    ensures { def.new ≡ with_parts given def.old }
{
    if let TypeDef::Object { parts, .. } = def {
        *parts = given;
    }
}

fn give(defs: &mut [TypeDef], i: usize, given: Items<TypeId>)
    requires { i < length defs.old }
    ensures { defs.new ≡ completed defs.old i given }
{
    set_parts(&mut defs[i], given);
}

impl TypeTable {
    /// A table without types.
    pub fn new(alloc: Global) -> TypeTable
        ensures { result ≡ [] }
    {
        TypeTable {
            defs: Vec::new(alloc),
            index: Index::new(alloc),
            known: Vec::new(alloc),
            waiting: false,
        }
    }

    /// How many types there are. Their numbers are those below it.
    pub fn count(&self) -> u32
        ensures count { result ≡ length self.now }
        ensures table { IsTable self.now }
    {
        self.defs.len() as u32
    }

    /// The entry of a number of the table.
    pub fn get(&self, id: TypeId) -> &TypeDef
        requires { id < length self.now }
        ensures entry { slice_get self.now id ≡ Some result.now }
        ensures within { IsWithin id result.now }
        ensures parts { AllBelow (length self.now) (parts_of result.now) }
    {
        &self.defs[id as usize]
    }

    /// The number of a type. An equal type keeps its number; a new one gets the next.
    ///
    /// After `Memory`, which comes too where there are 4,294,967,295 types, nothing has changed.
    pub fn add(&mut self, t: TypeDef) -> Result<TypeId, Memory>
        requires { MayAdd self.old t }
        ensures ok { IfOk result (λ id. Adds self.old t id self.new) }
        ensures grows { Grows self.old self.new }
        ensures err { OnErr result (self.new ≡ self.old) }
    {
        if let Some(id) = self.index.find(&self.defs, &t) {
            return Ok(id);
        }
        let count = self.defs.len();
        if count >= u32::MAX as usize {
            return Err(Memory);
        }
        self.index.make_room()?;
        self.known.reserve(1)?;
        self.defs.reserve(1)?;
        let storage = storage_of(&self.known, &t);
        self.waiting = waits_with(self.waiting, storage, &t);
        self.index.push(slot_of(&t));
        self.known.push_reserved(storage);
        self.defs.push_reserved(t);
        Ok(count as u32)
    }

    /// Gives an object the types of its fields, once.
    pub fn complete(&mut self, id: TypeId, parts: Items<TypeId>)
        requires due { MayComplete (slice_get self.old id) parts }
        requires below { AllBelow (length self.old) parts }
        ensures completed { self.new ≡ completed self.old id parts }
        ensures grows { Grows self.old self.new }
    {
        let i = id as usize;
        give(&mut self.defs, i, parts);
        self.waiting = take_up(&self.defs, &mut self.known, i, self.waiting);
    }

    /// The bytes of a value of a type; 4,294,967,295 where they are more.
    ///
    /// Nothing is said of a type without a form: it contains itself by value, or an object by
    /// value whose fields aren't known yet.
    pub fn size_of(&self, id: TypeId) -> u32
        requires { id < length self.now }
        ensures { HasSize self.now id result }
    {
        match item_at(&self.known, id as usize) {
            Some(storage) => storage.bytes,
            None => 0,
        }
    }

    /// Whether a value of a type has something to do when it is copied, moved or destroyed.
    ///
    /// Nothing is said of a type without a form.
    pub fn is_hooked(&self, id: TypeId) -> bool
        requires { id < length self.now }
        ensures { HasHooks self.now id result }
    {
        match item_at(&self.known, id as usize) {
            Some(storage) => storage.hooked,
            None => false,
        }
    }
}
