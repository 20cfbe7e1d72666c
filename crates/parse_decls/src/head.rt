// Heads of procedures.
ghost use Rattle.std.specs.Prelude.{◌≡◌, ◌≤◌, ◌<◌, ◌^◌, [], ◌∷◌, suc, length, map};
ghost use Rattle.nim_tree.specs.Statements.{parameters_of, head_of};
ghost use Rattle.parse_exprs.specs.Input.{origin_of, from_at};
ghost use Rattle.parse_decls.specs.Run.{run_param, run_more_params, run_params, run_head};
ghost use Rattle.parse_decls.specs.Gives.{Comes};

use crate::look::{mode_at, opens_at, past_mode, separator_at};
use crate::name::{read_generics, read_names, read_proc_name};
use crate::pragmas::read_pragmas;
use crate::reading::{Reading, and_one, stuck};
use crate::written::{read_annotation, read_written};
use arc_base::Stop;
use nim_tree::{Param, ProcHead};
use parse_exprs::{Bracket, Input, Layout};
use std::alloc::Global;

// Parameters of one type.
fn read_param(alloc: Global, input: &Input, at: usize) -> Result<Reading<Param>, Stop>
    requires few { length input.now.tokens.now < 2 ^ 32 }
    ensures { Comes parameters_of (λ k. run_param k (origin_of input.now) (from_at input.now at)) input.now (suc at) result }
{
    let names = read_names(alloc, input, at, Layout::Brackets)?;
    if !input.colon_at(names.next, Layout::Brackets) {
        return Err(stuck(input, names.next));
    }
    let behind = names.next + 1;
    let mode = mode_at(input, behind);
    let begins = past_mode(input, behind);
    let of = read_written(alloc, input, begins, Layout::Brackets)?;
    Ok(Reading {
        value: Param {
            names: names.value,
            mode,
            of: of.value,
        },
        next: of.next,
    })
}

// The parameters behind the first, and the parenthesis behind them.
fn read_more_params(
    alloc: Global,
    input: &Input,
    first: Reading<Param>,
) -> Result<Reading<Vec<Param>>, Stop>
    requires within { first.next ≤ length input.now.tokens.now }
    requires few { length input.now.tokens.now < 2 ^ 32 }
    ensures { Comes (λ all. map parameters_of all.items)
        (λ k. run_more_params k (origin_of input.now) (parameters_of first.value ∷ [])
        (from_at input.now first.next)) input.now first.next result }
{
    let mut all = and_one(Vec::new(alloc), first.value)?;
    let mut next = first.next;
    while separator_at(input, next) {
        let one = read_param(alloc, input, next + 1)?;
        all = and_one(all, one.value)?;
        next = one.next;
    }
    if !input.closes_at(Bracket::Round, next) {
        return Err(stuck(input, next));
    }
    Ok(Reading {
        value: all,
        next: next + 1,
    })
}

// Parameters in parentheses, where there are any.
fn read_params(
    alloc: Global,
    input: &Input,
    at: usize,
    layout: Layout,
) -> Result<Reading<Vec<Param>>, Stop>
    requires within { at ≤ length input.now.tokens.now }
    requires few { length input.now.tokens.now < 2 ^ 32 }
    ensures { Comes (λ all. map parameters_of all.items) (λ k. run_params k (origin_of input.now) layout (from_at input.now at)) input.now at result }
{
    if !opens_at(input, at, layout, Bracket::Round) {
        return Ok(Reading {
            value: Vec::new(alloc),
            next: at,
        });
    }
    let behind = at + 1;
    if input.closes_at(Bracket::Round, behind) {
        return Ok(Reading {
            value: Vec::new(alloc),
            next: behind + 1,
        });
    }
    let first = read_param(alloc, input, behind)?;
    read_more_params(alloc, input, first)
}

/// What stands behind `proc`, up to its `=`.
pub(crate) fn read_head(
    alloc: Global,
    input: &Input,
    at: usize,
    layout: Layout,
) -> Result<Reading<ProcHead>, Stop>
    requires few { length input.now.tokens.now < 2 ^ 32 }
    ensures { Comes head_of (λ k. run_head k (origin_of input.now) layout (from_at input.now at)) input.now (suc at) result }
{
    let name = read_proc_name(alloc, input, at, layout)?;
    let generics = read_generics(alloc, input, name.next, layout)?;
    let params = read_params(alloc, input, generics.next, layout)?;
    let gives = read_annotation(alloc, input, params.next, layout)?;
    let pragmas = match read_pragmas(alloc, input, gives.next, layout) {
        Ok(pragmas) => pragmas,
        Err(stop) => {
            drop(gives);
            return Err(stop);
        }
    };
    Ok(Reading {
        value: ProcHead {
            name: name.value,
            generics: generics.value,
            params: params.value,
            gives: gives.value,
            pragmas: pragmas.value,
        },
        next: pragmas.next,
    })
}
