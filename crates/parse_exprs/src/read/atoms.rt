// Atoms.
ghost use Rattle.std.specs.Prelude.{◌≡◌, ◌<◌, ◌-◌, ◌∷◌, length, suc, Some, None};
ghost use Rattle.parse_exprs.specs.declared.layout.Layout.{Layout};
ghost use Rattle.parse_exprs.specs.Look.{bracket_at};
ghost use Rattle.parse_exprs.specs.Run.{run_atom, run_group};
ghost use Rattle.parse_exprs.specs.Input.{origin_of, from_at};
ghost use Rattle.parse_exprs.specs.Gives.{Comes};

use crate::input::{Bracket, Input};
use crate::layout::Layout;
use crate::make::{Reading, Stuck, make_group, make_sequence, make_single};
use crate::read::parts::read_enclosed;
use indent_scanner::Token;
use std::alloc::Global;

/// What stands alone, or in brackets.
#[cycle(exprs)]
pub(crate) fn read_atom(
    alloc: Global,
    input: &Input,
    at: usize,
    layout: Layout,
    left: u32,
) -> Result<Reading, Stuck>
    requires some { 0 < left }
    ensures { Comes (λ k. run_atom k (origin_of input.now) layout left (from_at input.now at)) input.now left (suc at) result }
{
    let Some(token) = input.head(at) else {
        return Err(Stuck::Syntax(at));
    };
    let single = make_single(
        alloc,
        input.place_at(token),
        input.spelling(token),
        token.kind,
    )?;
    if let Some(tree) = single {
        return Ok(Reading {
            tree,
            next: at + 1,
            depth: 1,
        });
    }
    match input.bracket_at(at) {
        Some(bracket) => read_group(alloc, input, at, token, bracket, left),
        None => read_sequence(alloc, input, at, token, layout, left),
    }
}

// What stands in brackets.
#[cycle(exprs)]
fn read_group(
    alloc: Global,
    input: &Input,
    at: usize,
    token: Token,
    bracket: Bracket,
    left: u32,
) -> Result<Reading, Stuck>
    requires some { 0 < left }
    requires head { from_at input.now at ≡ token ∷ from_at input.now (suc at) }
    requires within { at < length input.now.tokens.now }
    requires bracket { bracket_at (from_at input.now at) ≡ Some bracket }
    ensures { (i : Layout)
        → Comes (λ k. run_group k None (Some bracket) (origin_of input.now) i left token
        (from_at input.now (suc at))) input.now left (suc at) result }
{
    let names = input.names_in(bracket, at + 1);
    let parts = read_enclosed(alloc, input, at, bracket, names, left - 1)?;
    let all = make_group(alloc, bracket, names, input.place_at(token), parts.parts)?;
    match all {
        Some(tree) => Ok(Reading {
            tree,
            next: parts.next,
            depth: parts.depth + 1,
        }),
        None => Err(Stuck::Syntax(at + 1)),
    }
}

// `@` and what stands in brackets.
#[cycle(exprs)]
fn read_sequence(
    alloc: Global,
    input: &Input,
    at: usize,
    token: Token,
    layout: Layout,
    left: u32,
) -> Result<Reading, Stuck>
    requires some { 0 < left }
    requires head { from_at input.now at ≡ token ∷ from_at input.now (suc at) }
    requires within { at < length input.now.tokens.now }
    ensures { Comes (λ k. run_group k None None (origin_of input.now) layout left token (from_at input.now (suc at))) input.now left (suc at) result }
{
    if !input.is_at_sign(token) {
        return Err(Stuck::Syntax(at));
    }
    let open = at + 1;
    if !input.stays(open, layout) {
        return Err(Stuck::Syntax(open));
    }
    if !input.square_at(open) {
        return Err(Stuck::Syntax(open));
    }
    let parts = read_enclosed(alloc, input, open, Bracket::Square, false, left - 1)?;
    Ok(Reading {
        tree: make_sequence(input.place_at(token), parts.parts),
        next: parts.next,
        depth: parts.depth + 1,
    })
}
