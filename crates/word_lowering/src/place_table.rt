// The places and temporaries of a procedure, found by their numbers.
ghost use Rattle.std.specs.Prelude.{◌≡◌, drop, nat_eq, IfOk};
ghost use Rattle.std.specs.HashMap.{get};
ghost use Rattle.word_lowering.specs.Lookups.{is_sort, found, params_in};
ghost use Rattle.word_lowering.specs.PlaceTable.{from_there, FindsFrom};

use crate::homes::{Housed, Sort};
use crate::layouts::{is_param, is_sort, nowhere};
use arc_base::{Items, Memory};
use std::alloc::Global;
use std::collections::HashMap;
use std::marker::Model;

// Where the first place with a number stands.
type Index = HashMap<u32, usize>;

/// The places and temporaries of a procedure, in their order. Contracts see them as a list.
#[derive(Drop)]
pub struct PlaceTable {
    all: Items<Housed>,
    params: Items<Housed>,
    index: Index,
}

impl Model for PlaceTable {
    ghost use Rattle.std.specs.Prelude.{List};
    ghost use Rattle.word_lowering.specs.declared.homes.Housed.{Housed};

    ghost Value = { List Housed };

    ghost view = { λ p. p.all };

    ghost use Rattle.word_lowering.specs.PlaceTable.{AreIndexed};

    ghost invariant = { λ p. AreIndexed p.all p.params p.index };
}

// The first of several places with a number counts, so they are gone over from their end.
fn index_of(alloc: Global, all: &[Housed]) -> Result<Index, Memory>
    ensures { IfOk result (λ index. FindsFrom index all.now all.now) }
{
    let mut index = HashMap::new(alloc);
    let mut i = all.len();
    while i > 0 {
        i -= 1;
        index.insert(all[i].number, i)?;
    }
    Ok(index)
}

fn place_at(index: &Index, number: u32) -> Option<usize>
    ensures { result ≡ get nat_eq index.now number }
{
    match index.get(&number) {
        Some(at) => Some(*at),
        None => None,
    }
}

fn rest_from(all: &[Housed], at: usize) -> &[Housed]
    ensures { result.now ≡ drop at all.now }
{
    if at < all.len() { &all[at..] } else { &[] }
}

// The places from the first one with a number on.
fn start(all: &[Housed], at: Option<usize>) -> &[Housed]
    ensures { result.now ≡ from_there at all.now }
{
    match at {
        Some(at) => rest_from(all, at),
        None => &[],
    }
}

fn found(all: &[Housed], sort: Sort, number: u32) -> Housed
    ensures { result ≡ found (is_sort sort) number all.now }
{
    for h in all {
        if h.number == number && is_sort(sort, h.kind) {
            return *h;
        }
    }
    nowhere()
}

// The parameters among some places.
fn params_in(alloc: Global, all: &[Housed]) -> Result<Items<Housed>, Memory>
    ensures { IfOk result (λ params. params ≡ params_in all.now) }
{
    let mut params = Items::new(alloc);
    for h in all {
        if is_param(h.kind) {
            params.push(*h)?;
        }
    }
    Ok(params)
}

/// The same places, found by their numbers.
pub fn places_of(alloc: Global, all: Items<Housed>) -> Result<PlaceTable, Memory>
    ensures { IfOk result (λ places. places ≡ all) }
{
    let params = params_in(alloc, all.as_slice())?;
    let index = index_of(alloc, all.as_slice())?;
    Ok(PlaceTable { all, params, index })
}

impl PlaceTable {
    /// All of them.
    pub fn as_slice(&self) -> &[Housed]
        ensures { result.now ≡ self.now }
    {
        self.all.as_slice()
    }

    /// The first place of some kinds with a number. Lines that fit name no other.
    pub fn found(&self, sort: Sort, number: u32) -> Housed
        ensures { result ≡ found (is_sort sort) number self.now }
    {
        let at = place_at(&self.index, number);
        found(start(self.all.as_slice(), at), sort, number)
    }

    /// The parameters among them.
    pub fn params(&self) -> &[Housed]
        ensures { result.now ≡ params_in self.now }
    {
        self.params.as_slice()
    }
}
