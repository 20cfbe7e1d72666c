// Declarations in order, found by their names.
ghost use Rattle.std.specs.Prelude.{◌≡◌, ◌<◌, [], ◌∷◌, ◌++◌, length, take, replicate, slice_get};
ghost use Rattle.std.specs.Prelude.{true, Some, None, IfOk, OnOk, OnErr};
ghost use Rattle.expr_parts.specs.declared.scope.Decl.{Decl};
ghost use Rattle.expr_parts.specs.ViewDecls.{is_named, last_of, mended};

use crate::scope::{Decl, What};
use crate::slots::{SLOTS, named_from, number_at, slot_of};
use arc_base::Memory;
use std::alloc::Global;
use std::marker::Model;

/// Declarations by number, the innermost last. Contracts see them as a list.
#[derive(Drop)]
pub struct Decls {
    decls: Vec<Decl>,
    /// The last declaration of each slot.
    lasts: Vec<Option<u32>>,
    /// Beside each declaration the one before it in its slot.
    befores: Vec<Option<u32>>,
}

impl Model for Decls {
    ghost use Rattle.std.specs.Prelude.{List};
    ghost use Rattle.std.specs.Coded.{coded_list};
    ghost use Rattle.expr_parts.specs.declared.scope.Decl.{Decl};
    ghost use Rattle.expr_parts.specs.contracts.scope.Decl as decl;

    ghost Value = { List Decl };

    ghost coded = { coded_list decl.the_row.coded };

    ghost view = { λ t. t.decls.items };

    ghost use Rattle.expr_parts.specs.ViewDecls.{IsIndexed};

    ghost invariant = { λ t. IsIndexed t.decls.items t.lasts.items t.befores.items };
}

fn set_what(decl: &mut Decl, what: What)
    ensures { decl.new ≡ record { name = decl.old.name; what = what } }
{
    decl.what = what;
}

fn give(decls: &mut [Decl], i: usize, what: What)
    requires { i < length decls.old }
    ensures { decls.new ≡ mended decls.old i what }
{
    set_what(&mut decls[i], what);
}

// No last declaration in any slot.
fn no_lasts(alloc: Global) -> Result<Vec<Option<u32>>, Memory>
    ensures { IfOk result (λ lasts. lasts.items ≡ replicate SLOTS None) }
{
    let mut lasts = Vec::new(alloc);
    lasts.resize(SLOTS as usize, None)?;
    Ok(lasts)
}

impl Decls {
    /// No declarations.
    pub fn new(alloc: Global) -> Result<Decls, Memory>
        ensures { IfOk result (λ decls. decls ≡ []) }
    {
        let lasts = no_lasts(alloc)?;
        Ok(Decls {
            decls: Vec::new(alloc),
            lasts,
            befores: Vec::new(alloc),
        })
    }

    /// How many there are. Their numbers are those below it.
    pub fn count(&self) -> u32
        ensures { result ≡ length self.now }
    {
        self.decls.len() as u32
    }

    /// The declarations.
    pub fn as_slice(&self) -> &[Decl]
        ensures { result.now ≡ self.now }
    {
        self.decls.as_slice()
    }

    /// The declaration of a number.
    pub fn get(&self, number: u32) -> &Decl
        requires { number < length self.now }
        ensures { slice_get self.now number ≡ Some result.now }
    {
        &self.decls[number as usize]
    }

    /// The number of the last declaration of a name, which is in normal form.
    pub fn last(&self, name: &[u8]) -> Option<u32>
        ensures { result ≡ last_of self.now name.now (length self.now) }
    {
        let first = number_at(&self.lasts, slot_of(name));
        named_from(&self.decls, &self.befores, name, first)
    }

    /// The number of the declaration before one of its name.
    pub fn before(&self, number: u32, name: &[u8]) -> Option<u32>
        requires { is_named self.now name.now number ≡ true }
        ensures { result ≡ last_of self.now name.now number }
    {
        let first = number_at(&self.befores, number);
        named_from(&self.decls, &self.befores, name, first)
    }

    /// Adds a declaration at the end.
    ///
    /// After `Memory`, which comes too where there are 4,294,967,295, nothing has changed.
    pub fn push(&mut self, decl: Decl) -> Result<(), Memory>
        ensures ok { OnOk result (self.new ≡ self.old ++ decl ∷ []) }
        ensures err { OnErr result (self.new ≡ self.old) }
    {
        let count = self.decls.len();
        if count >= u32::MAX as usize {
            return Err(Memory);
        }
        self.befores.reserve(1)?;
        self.decls.reserve(1)?;
        let slot = slot_of(decl.name.as_slice());
        self.befores.push_reserved(number_at(&self.lasts, slot));
        self.lasts[slot as usize] = Some(count as u32);
        self.decls.push_reserved(decl);
        Ok(())
    }

    // Drops the last declaration.
    fn drop_last(&mut self)
        requires { 0 < length self.old }
        ensures { (d : Decl) × (self.old ≡ self.new ++ d ∷ []) }
    {
        let decl = self.decls.take_last();
        let before = self.befores.take_last();
        self.lasts[slot_of(decl.name.as_slice()) as usize] = before;
    }

    /// Drops the declarations from a number on.
    pub fn leave(&mut self, count: u32)
        ensures { self.new ≡ take count self.old }
    {
        while self.count() > count {
            self.drop_last();
        }
    }

    /// Gives the declaration of a number another meaning.
    pub fn mend(&mut self, number: u32, what: What)
        requires { number < length self.old }
        ensures { self.new ≡ mended self.old number what }
    {
        give(&mut self.decls, number as usize, what);
    }
}
