// Pragmas.
ghost use Rattle.std.specs.Prelude.{◌≡◌, ◌≤◌, suc, length};
ghost use Rattle.parse_exprs.specs.Input.{origin_of, from_at};
ghost use Rattle.parse_decls.specs.Run.{run_pragma, run_pragmas};
ghost use Rattle.parse_decls.specs.Gives.{Comes};

use crate::look::{pragma_named, pragmas_at, pragmas_end_at};
use crate::reading::{Reading, and_one, left_out, stuck};
use arc_base::Stop;
use nim_tree::Pragma;
use parse_exprs::{Input, Layout};
use std::alloc::Global;

// A pragma.
fn read_pragma(input: &Input, at: usize) -> Result<Reading<Pragma>, Stop>
    ensures { Comes (λ pragma. pragma) (λ k. run_pragma (origin_of input.now) (from_at input.now at)) input.now (suc at) result }
{
    let Some(token) = input.name_on(at, Layout::Brackets) else {
        return Err(stuck(input, at));
    };
    let Some(kind) = pragma_named(input.spelling(token)) else {
        return Err(left_out(input, at));
    };
    Ok(Reading {
        value: Pragma {
            at: input.place_at(token),
            kind,
        },
        next: at + 1,
    })
}

/// Pragmas, where there are any.
pub(crate) fn read_pragmas(
    alloc: Global,
    input: &Input,
    at: usize,
    layout: Layout,
) -> Result<Reading<Vec<Pragma>>, Stop>
    requires within { at ≤ length input.now.tokens.now }
    ensures { Comes (λ pragmas. pragmas.items) (λ k. run_pragmas k (origin_of input.now) layout (from_at input.now at)) input.now at result }
{
    if !pragmas_at(input, at, layout) {
        return Ok(Reading {
            value: Vec::new(alloc),
            next: at,
        });
    }
    let first = read_pragma(input, at + 1)?;
    let mut pragmas = and_one(Vec::new(alloc), first.value)?;
    let mut next = first.next;
    while input.comma_at(next, Layout::Brackets) {
        let one = read_pragma(input, next + 1)?;
        pragmas = and_one(pragmas, one.value)?;
        next = one.next;
    }
    if !pragmas_end_at(input, next) {
        return Err(stuck(input, next));
    }
    Ok(Reading {
        value: pragmas,
        next: next + 1,
    })
}
