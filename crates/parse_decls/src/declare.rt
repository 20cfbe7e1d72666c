// Declarations of types.
ghost use Rattle.std.specs.Prelude.{◌≡◌, ◌≤◌, ◌<◌, ◌^◌, [], suc, length, map};
ghost use Rattle.nim_tree.specs.Types.{declaration_of};
ghost use Rattle.parse_exprs.specs.Input.{origin_of, from_at};
ghost use Rattle.parse_decls.specs.Run.{run_declaration, run_declarations, run_types};
ghost use Rattle.parse_decls.specs.Gives.{Comes};

use crate::body::read_body;
use crate::look::{deeper_at, equals_at, level_at, stands_at};
use crate::name::{read_declared, read_generics};
use crate::reading::{Reading, and_one, stuck};
use arc_base::Stop;
use nim_tree::TypeDef;
use parse_exprs::{Input, Layout};
use std::alloc::Global;

// The declaration of a type. Its name goes on in one layout, and what follows it on its line.
fn read_declaration(
    alloc: Global,
    input: &Input,
    at: usize,
    before: Layout,
    spaces: u32,
) -> Result<Reading<TypeDef>, Stop>
    requires few { length input.now.tokens.now < 2 ^ 32 }
    ensures { Comes declaration_of (λ k. run_declaration k (origin_of input.now) before spaces (from_at input.now at)) input.now (suc at) result }
{
    let layout = Layout::Lines(spaces);
    let name = read_declared(alloc, input, at, before, layout)?;
    let parameters = read_generics(alloc, input, name.next, layout)?;
    if !equals_at(input, parameters.next, layout) {
        return Err(stuck(input, parameters.next));
    }
    let behind = parameters.next + 1;
    if !input.stays(behind, layout) {
        return Err(stuck(input, behind));
    }
    let body = read_body(alloc, input, behind, spaces)?;
    Ok(Reading {
        value: TypeDef {
            name: name.value,
            parameters: parameters.value,
            body: body.value,
        },
        next: body.next,
    })
}

// Declarations, each first on its line behind so many spaces.
fn read_declarations(
    alloc: Global,
    input: &Input,
    at: usize,
    spaces: u32,
) -> Result<Reading<Vec<TypeDef>>, Stop>
    requires within { at ≤ length input.now.tokens.now }
    requires few { length input.now.tokens.now < 2 ^ 32 }
    ensures { Comes (λ all. map declaration_of all.items) (λ k. run_declarations k (origin_of input.now) spaces [] (from_at input.now at)) input.now at result }
{
    let mut all = Vec::new(alloc);
    let mut next = at;
    while stands_at(input, next, spaces) {
        let one = read_declaration(alloc, input, next, Layout::Brackets, spaces)?;
        all = and_one(all, one.value)?;
        next = one.next;
    }
    Ok(Reading { value: all, next })
}

/// A block of declarations behind more spaces, or one on its line.
pub(crate) fn read_types(
    alloc: Global,
    input: &Input,
    at: usize,
    spaces: u32,
) -> Result<Reading<Vec<TypeDef>>, Stop>
    requires within { at ≤ length input.now.tokens.now }
    requires few { length input.now.tokens.now < 2 ^ 32 }
    ensures { Comes (λ all. map declaration_of all.items) (λ k. run_types k (origin_of input.now) spaces (from_at input.now at)) input.now at result }
{
    if deeper_at(input, at, spaces) {
        let level = level_at(input, at);
        return read_declarations(alloc, input, at, level);
    }
    let one = read_declaration(alloc, input, at, Layout::Lines(spaces), spaces)?;
    Ok(Reading {
        value: and_one(Vec::new(alloc), one.value)?,
        next: one.next,
    })
}
