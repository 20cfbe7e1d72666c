// Definitions.
ghost use Rattle.std.specs.Prelude.{◌≡◌, ◌≤◌, ◌<◌, ◌^◌, [], suc, length, map};
ghost use Rattle.nim_tree.specs.Statements.{definition_of};
ghost use Rattle.parse_exprs.specs.Input.{origin_of, from_at};
ghost use Rattle.parse_decls.specs.Run.{run_def, run_defined, run_defs, run_def_block};
ghost use Rattle.parse_decls.specs.Gives.{Comes};

use crate::look::{deeper_at, level_at, stands_at};
use crate::name::read_declareds;
use crate::pragmas::read_pragmas;
use crate::reading::{Reading, and_one, stuck};
use crate::values::read_given;
use crate::written::read_annotation;
use arc_base::Stop;
use nim_tree::Def;
use parse_exprs::{Input, Layout};
use std::alloc::Global;

/// Names, their type and their value.
pub(crate) fn read_definition(
    alloc: Global,
    input: &Input,
    at: usize,
    layout: Layout,
) -> Result<Reading<Def>, Stop>
    requires few { length input.now.tokens.now < 2 ^ 32 }
    ensures { Comes definition_of (λ k. run_def k (origin_of input.now) layout (from_at input.now at)) input.now (suc at) result }
{
    read_defined(alloc, input, at, layout, layout)
}

// The first name goes on in one layout, and what follows it in another.
fn read_defined(
    alloc: Global,
    input: &Input,
    at: usize,
    before: Layout,
    layout: Layout,
) -> Result<Reading<Def>, Stop>
    requires few { length input.now.tokens.now < 2 ^ 32 }
    ensures { Comes definition_of (λ k. run_defined k (origin_of input.now) before layout (from_at input.now at)) input.now (suc at) result }
{
    let names = read_declareds(alloc, input, at, before, layout)?;
    let pragmas = read_pragmas(alloc, input, names.next, layout)?;
    let annotation = read_annotation(alloc, input, pragmas.next, layout)?;
    let value = match read_given(alloc, input, annotation.next, layout) {
        Ok(value) => value,
        Err(stop) => {
            drop(annotation);
            return Err(stop);
        }
    };
    Ok(Reading {
        value: Def {
            names: names.value,
            pragmas: pragmas.value,
            annotation: annotation.value,
            value: value.value,
        },
        next: value.next,
    })
}

// Definitions, each first on its line behind so many spaces.
fn read_definitions(
    alloc: Global,
    input: &Input,
    at: usize,
    spaces: u32,
) -> Result<Reading<Vec<Def>>, Stop>
    requires within { at ≤ length input.now.tokens.now }
    requires few { length input.now.tokens.now < 2 ^ 32 }
    ensures { Comes (λ all. map definition_of all.items) (λ k. run_defs k (origin_of input.now) spaces [] (from_at input.now at)) input.now at result }
{
    let mut all = Vec::new(alloc);
    let mut next = at;
    while stands_at(input, next, spaces) {
        let one = read_defined(alloc, input, next, Layout::Brackets, Layout::Lines(spaces))?;
        all = and_one(all, one.value)?;
        next = one.next;
    }
    Ok(Reading { value: all, next })
}

/// A block of definitions behind more spaces.
pub(crate) fn read_definition_block(
    alloc: Global,
    input: &Input,
    at: usize,
    spaces: u32,
) -> Result<Reading<Vec<Def>>, Stop>
    requires within { at ≤ length input.now.tokens.now }
    requires few { length input.now.tokens.now < 2 ^ 32 }
    ensures { Comes (λ all. map definition_of all.items) (λ k. run_def_block k (origin_of input.now) spaces (from_at input.now at)) input.now at result }
{
    if !deeper_at(input, at, spaces) {
        return Err(stuck(input, at));
    }
    let level = level_at(input, at);
    read_definitions(alloc, input, at, level)
}
