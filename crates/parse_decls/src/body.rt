// What declared types are.
ghost use Rattle.std.specs.Prelude.{◌≡◌, ◌≤◌, ◌<◌, ◌^◌, [], ◌∷◌, suc, length};
ghost use Rattle.nim_tree.specs.Types.{fields_of, body_of, no_fields};
ghost use Rattle.parse_exprs.specs.Input.{origin_of, from_at};
ghost use Rattle.parse_decls.specs.Run.{run_parent, run_field, run_fields, run_field_block, run_object};
ghost use Rattle.parse_decls.specs.Run.{run_more_members, run_members, run_enum, run_distinct, run_alias, run_body};
ghost use Rattle.parse_decls.specs.Gives.{Comes, typed_of};

use crate::look::{
    BodyLead, body_lead, deeper_at, level_at, more_members_at, of_at, past_comma, stands_at,
};
use crate::name::{read_declareds, read_name, read_names};
use crate::reading::{Reading, and_one, stuck};
use crate::written::{read_typed, read_written};
use arc_base::{Place, Stop};
use nim_tree::{Field, Name, TypeBody};
use parse_exprs::{Input, Layout};
use std::alloc::Global;

// `of` and a name, where it goes on.
fn read_parent(
    alloc: Global,
    input: &Input,
    at: usize,
    layout: Layout,
) -> Result<Reading<Option<Name>>, Stop>
    requires within { at ≤ length input.now.tokens.now }
    ensures { Comes (λ parent. parent) (λ k. run_parent (origin_of input.now) layout (from_at input.now at)) input.now at result }
{
    if !of_at(input, at, layout) {
        return Ok(Reading {
            value: None,
            next: at,
        });
    }
    let name = read_name(alloc, input, at + 1, layout)?;
    Ok(Reading {
        value: Some(name.value),
        next: name.next,
    })
}

// Names of fields and their type, on one line.
fn read_field(alloc: Global, input: &Input, at: usize, spaces: u32) -> Result<Reading<Field>, Stop>
    requires few { length input.now.tokens.now < 2 ^ 32 }
    ensures { Comes typed_of (λ k. run_field k (origin_of input.now) spaces (from_at input.now at)) input.now (suc at) result }
{
    let layout = Layout::Lines(spaces);
    let names = read_declareds(alloc, input, at, Layout::Brackets, layout)?;
    let of = read_typed(alloc, input, names.next, layout)?;
    Ok(Reading {
        value: Field {
            names: names.value,
            of: of.value,
        },
        next: of.next,
    })
}

// Fields, each first on its line behind so many spaces.
fn read_fields(
    alloc: Global,
    input: &Input,
    at: usize,
    spaces: u32,
) -> Result<Reading<Vec<Field>>, Stop>
    requires within { at ≤ length input.now.tokens.now }
    requires few { length input.now.tokens.now < 2 ^ 32 }
    ensures { Comes (λ all. fields_of all.items) (λ k. run_fields k (origin_of input.now) spaces no_fields (from_at input.now at)) input.now at result }
{
    let mut all = Vec::new(alloc);
    let mut next = at;
    while stands_at(input, next, spaces) {
        let one = read_field(alloc, input, next, spaces)?;
        all = and_one(all, one.value)?;
        next = one.next;
    }
    Ok(Reading { value: all, next })
}

// A block of fields behind more spaces, where there is one.
fn read_field_block(
    alloc: Global,
    input: &Input,
    at: usize,
    spaces: u32,
) -> Result<Reading<Vec<Field>>, Stop>
    requires within { at ≤ length input.now.tokens.now }
    requires few { length input.now.tokens.now < 2 ^ 32 }
    ensures { Comes (λ all. fields_of all.items) (λ k. run_field_block k (origin_of input.now) spaces (from_at input.now at)) input.now at result }
{
    if !deeper_at(input, at, spaces) {
        return Ok(Reading {
            value: Vec::new(alloc),
            next: at,
        });
    }
    let level = level_at(input, at);
    read_fields(alloc, input, at, level)
}

// What stands behind `object`, whose first token has that place.
fn read_object(
    alloc: Global,
    input: &Input,
    at: usize,
    spaces: u32,
    place: Place,
    is_ref: bool,
) -> Result<Reading<TypeBody>, Stop>
    requires within { at ≤ length input.now.tokens.now }
    requires few { length input.now.tokens.now < 2 ^ 32 }
    ensures { Comes body_of (λ k. run_object k (origin_of input.now) spaces place is_ref (from_at input.now at)) input.now at result }
{
    let parent = read_parent(alloc, input, at, Layout::Lines(spaces))?;
    let fields = read_field_block(alloc, input, parent.next, spaces)?;
    Ok(Reading {
        value: TypeBody::Object {
            at: place,
            is_ref,
            parent: parent.value,
            fields: fields.value,
        },
        next: fields.next,
    })
}

// The members behind the first in a block of members, whose lines stand behind so many spaces.
fn read_more_members(
    alloc: Global,
    input: &Input,
    first: Reading<Name>,
    spaces: u32,
) -> Result<Reading<Vec<Name>>, Stop>
    requires within { first.next ≤ length input.now.tokens.now }
    ensures { Comes (λ all. all.items)
        (λ k. run_more_members k (origin_of input.now) spaces (first.value ∷ [])
        (from_at input.now first.next)) input.now first.next result }
{
    let mut all = and_one(Vec::new(alloc), first.value)?;
    let mut next = first.next;
    while more_members_at(input, next, spaces) {
        let begins = past_comma(input, next, Layout::Lines(spaces));
        let one = read_name(alloc, input, begins, Layout::Brackets)?;
        all = and_one(all, one.value)?;
        next = one.next;
    }
    Ok(Reading { value: all, next })
}

// The members of an `enum`, on its line or in a block.
fn read_members(
    alloc: Global,
    input: &Input,
    at: usize,
    spaces: u32,
) -> Result<Reading<Vec<Name>>, Stop>
    ensures { Comes (λ all. all.items) (λ k. run_members k (origin_of input.now) spaces (from_at input.now at)) input.now (suc at) result }
{
    if !deeper_at(input, at, spaces) {
        return read_names(alloc, input, at, Layout::Lines(spaces));
    }
    let level = level_at(input, at);
    let first = read_name(alloc, input, at, Layout::Brackets)?;
    read_more_members(alloc, input, first, level)
}

// What stands behind `enum`.
fn read_enum(
    alloc: Global,
    input: &Input,
    at: usize,
    spaces: u32,
    place: Place,
) -> Result<Reading<TypeBody>, Stop>
    ensures { Comes body_of (λ k. run_enum k (origin_of input.now) spaces place (from_at input.now at)) input.now (suc at) result }
{
    let members = read_members(alloc, input, at, spaces)?;
    Ok(Reading {
        value: TypeBody::Enum {
            at: place,
            members: members.value,
        },
        next: members.next,
    })
}

// What stands behind `distinct`.
fn read_distinct(
    alloc: Global,
    input: &Input,
    at: usize,
    spaces: u32,
    place: Place,
) -> Result<Reading<TypeBody>, Stop>
    requires few { length input.now.tokens.now < 2 ^ 32 }
    ensures { Comes body_of (λ k. run_distinct k (origin_of input.now) spaces place (from_at input.now at)) input.now (suc at) result }
{
    let layout = Layout::Lines(spaces);
    if !input.stays(at, layout) {
        return Err(stuck(input, at));
    }
    let base = read_written(alloc, input, at, layout)?;
    Ok(Reading {
        value: TypeBody::Distinct {
            at: place,
            base: base.value,
        },
        next: base.next,
    })
}

// Another name for a type.
fn read_alias(
    alloc: Global,
    input: &Input,
    at: usize,
    spaces: u32,
) -> Result<Reading<TypeBody>, Stop>
    requires few { length input.now.tokens.now < 2 ^ 32 }
    ensures { Comes body_of (λ k. run_alias k (origin_of input.now) spaces (from_at input.now at)) input.now (suc at) result }
{
    let of = read_written(alloc, input, at, Layout::Lines(spaces))?;
    Ok(Reading {
        value: TypeBody::Alias(of.value),
        next: of.next,
    })
}

/// What a declared type is.
pub(crate) fn read_body(
    alloc: Global,
    input: &Input,
    at: usize,
    spaces: u32,
) -> Result<Reading<TypeBody>, Stop>
    requires few { length input.now.tokens.now < 2 ^ 32 }
    ensures { Comes body_of (λ k. run_body k (origin_of input.now) spaces (from_at input.now at)) input.now (suc at) result }
{
    let Some(token) = input.head(at) else {
        return Err(stuck(input, at));
    };
    let place = input.place_at(token);
    let behind = at + 1;
    match body_lead(input, at, Layout::Lines(spaces)) {
        BodyLead::Object => read_object(alloc, input, behind, spaces, place, false),
        BodyLead::RefObject => read_object(alloc, input, behind + 1, spaces, place, true),
        BodyLead::Enum => read_enum(alloc, input, behind, spaces, place),
        BodyLead::Distinct => read_distinct(alloc, input, behind, spaces, place),
        BodyLead::Alias => read_alias(alloc, input, at, spaces),
    }
}
