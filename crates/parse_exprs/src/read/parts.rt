// Parts in brackets.
ghost use Rattle.std.specs.Prelude.{◌≡◌, ◌<◌, length, suc, true, Some};
ghost use Rattle.parse_exprs.specs.Run.{run_enclosed, run_list, run_part};
ghost use Rattle.parse_exprs.specs.Input.{origin_of, from_at};
ghost use Rattle.parse_exprs.specs.Gives.{Comes, ComesParts};

use crate::input::{Bracket, Input};
use crate::layout::Layout;
use crate::make::{Reading, Several, Stuck, and_part, make_named, no_parts};
use crate::read::operators::read_expr;
use std::alloc::Global;

/// Parts in brackets.
#[cycle(exprs)]
pub(crate) fn read_enclosed(
    alloc: Global,
    input: &Input,
    at: usize,
    bracket: Bracket,
    names: bool,
    left: u32,
) -> Result<Several, Stuck>
    requires within { at < length input.now.tokens.now }
    ensures { ComesParts (λ k. run_enclosed k (origin_of input.now) bracket names left (from_at input.now at)) input.now left (suc at) result }
{
    if input.closes_at(bracket, at + 1) {
        return Ok(no_parts(alloc, at + 2));
    }
    let some = read_list(alloc, input, at + 1, names, left)?;
    if !input.closes_at(bracket, some.next) {
        return Err(Stuck::Syntax(some.next));
    }
    Ok(Several {
        parts: some.parts,
        next: some.next + 1,
        depth: some.depth,
    })
}

// Parts with commas between them.
#[cycle(exprs)]
fn read_list(
    alloc: Global,
    input: &Input,
    at: usize,
    names: bool,
    left: u32,
) -> Result<Several, Stuck>
    ensures { ComesParts (λ k. run_list k (origin_of input.now) names left (from_at input.now at)) input.now left (suc at) result }
{
    let first = read_part(alloc, input, at, names, left)?;
    let mut some = and_part(no_parts(alloc, at), first)?;
    while input.punct_at(b',', some.next) {
        let last = read_part(alloc, input, some.next + 1, names, left)?;
        some = and_part(some, last)?;
    }
    Ok(some)
}

// One part, with a name or without.
#[cycle(exprs)]
fn read_part(
    alloc: Global,
    input: &Input,
    at: usize,
    names: bool,
    left: u32,
) -> Result<Reading, Stuck>
    ensures { Comes (λ k. run_part k (origin_of input.now) names left (from_at input.now at)) input.now left (suc at) result }
{
    if names {
        read_named(alloc, input, at, left)
    } else {
        read_expr(alloc, input, at, Layout::Brackets, left)
    }
}

// A part with a name.
#[cycle(exprs)]
fn read_named(alloc: Global, input: &Input, at: usize, left: u32) -> Result<Reading, Stuck>
    ensures { Comes (λ k. run_part k (origin_of input.now) true left (from_at input.now at)) input.now left (suc at) result }
{
    let Some(token) = input.head(at) else {
        return Err(Stuck::Syntax(at));
    };
    if !input.is_name_at(at) {
        return Err(Stuck::Syntax(at));
    }
    if !input.punct_at(b':', at + 1) {
        return Err(Stuck::Syntax(at + 1));
    }
    let a = read_expr(alloc, input, at + 2, Layout::Brackets, left)?;
    let tree = make_named(alloc, input.place_at(token), input.spelling(token), a.tree)?;
    Ok(Reading {
        tree,
        next: a.next,
        depth: a.depth,
    })
}
