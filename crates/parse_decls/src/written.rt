// Written types.
//
// `whole` is the first token of the whole type, and `left` the number of levels that a part of it may have.
ghost use Rattle.std.specs.Prelude.{◌≡◌, ◌≤◌, ◌<◌, ◌+◌, ◌^◌, suc, length, if◌then◌else◌, Some, None, option_map};
ghost use Rattle.nim_tree.specs.Terms.{term_of};
ghost use Rattle.nim_tree.specs.Types.{written_of, arguments_of, fields_of, argument, no_arguments, fields, no_fields};
ghost use Rattle.parse_exprs.specs.Input.{origin_of, from_at};
ghost use Rattle.parse_decls.specs.declared.look.TypeLead.TheVariants as L;
ghost use Rattle.parse_decls.specs.Look.{type_at};
ghost use Rattle.parse_decls.specs.Outcome.{too_deep, stuck_at};
ghost use Rattle.parse_decls.specs.Run.{run_type, run_sort, run_inside, run_arguments, run_part, run_parts, run_written, run_typed, run_annotation};
ghost use Rattle.parse_decls.specs.Gives.{Comes, Told, typed_of};

use crate::array_form::read_length;
use crate::look::{TypeLead, opens_at, type_at, type_lead};
use crate::make::{make_array, make_named, make_ref, make_tuple};
use crate::name::read_declareds;
use crate::reading::{Reading, and_one, stuck, too_deep};
use crate::values::MOST_LEVELS;
use arc_base::{Bytes, Stop};
use indent_scanner::Token;
use nim_tree::{Expr, Field, TypeTree};
use parse_exprs::{Bracket, Input, Layout};
use std::alloc::Global;

// Why nothing is read where no level is left.
fn no_level(input: &Input, at: usize, whole: usize) -> Stop
    requires order { whole ≤ at }
    ensures { Told (origin_of input.now)
        (if type_at (from_at input.now at) then too_deep (from_at input.now whole)
        else stuck_at (from_at input.now at)) result }
{
    if type_at(input, at) {
        return too_deep(input, whole);
    }
    stuck(input, at)
}

#[cycle(types)]
fn read_type(
    alloc: Global,
    input: &Input,
    at: usize,
    layout: Layout,
    whole: usize,
    left: u32,
) -> Result<Reading<TypeTree>, Stop>
    requires order { whole ≤ at }
    requires few { length input.now.tokens.now < 2 ^ 32 }
    ensures { Comes written_of (λ k. run_type k (origin_of input.now) layout (from_at input.now whole) left (from_at input.now at)) input.now (suc at) result }
{
    if left == 0 {
        return Err(no_level(input, at, whole));
    }
    let Some(token) = input.head(at) else {
        return Err(stuck(input, at));
    };
    match type_lead(input, at, token, layout) {
        TypeLead::Name => read_named(alloc, input, at, token, layout, whole, left - 1),
        TypeLead::Array => read_array(alloc, input, at, token, layout, whole, left - 1),
        TypeLead::Ref => read_ref(alloc, input, at, token, layout, whole, left - 1),
        TypeLead::Tuple => read_tuple(alloc, input, at, token, layout, whole, left - 1),
        TypeLead::Other => Err(stuck(input, at)),
    }
}

// A name, and its arguments in brackets where it has any.
#[cycle(types)]
fn read_named(
    alloc: Global,
    input: &Input,
    at: usize,
    token: Token,
    layout: Layout,
    whole: usize,
    left: u32,
) -> Result<Reading<TypeTree>, Stop>
    requires order { whole ≤ at }
    requires within { at < length input.now.tokens.now }
    requires few { length input.now.tokens.now < 2 ^ 32 }
    ensures { Comes written_of
        (λ k. run_sort k L.Name (origin_of input.now) layout (from_at input.now whole) left token
        (from_at input.now (at + 1))) input.now (suc at) result }
{
    let behind = at + 1;
    if opens_at(input, behind, layout, Bracket::Square) {
        return read_inside(alloc, input, behind + 1, token, whole, left);
    }
    let text = Bytes::from_slice(alloc, input.spelling(token))?;
    Ok(Reading {
        value: make_named(input.place_at(token), text, Vec::new(alloc)),
        next: behind,
    })
}

// The types in the bracket behind a name.
#[cycle(types)]
fn read_inside(
    alloc: Global,
    input: &Input,
    at: usize,
    token: Token,
    whole: usize,
    left: u32,
) -> Result<Reading<TypeTree>, Stop>
    requires order { whole ≤ at }
    requires few { length input.now.tokens.now < 2 ^ 32 }
    ensures { Comes written_of
        (λ k. run_inside k None (origin_of input.now) (from_at input.now whole) left token
        (from_at input.now at)) input.now (suc at) result }
{
    let text = Bytes::from_slice(alloc, input.spelling(token))?;
    let first = read_type(alloc, input, at, Layout::Brackets, whole, left)?;
    let arguments = read_arguments(alloc, input, first, whole, left)?;
    if !input.closes_at(Bracket::Square, arguments.next) {
        return Err(stuck(input, arguments.next));
    }
    Ok(Reading {
        value: make_named(input.place_at(token), text, arguments.value),
        next: arguments.next + 1,
    })
}

// The arguments behind the first.
#[cycle(types)]
fn read_arguments(
    alloc: Global,
    input: &Input,
    first: Reading<TypeTree>,
    whole: usize,
    left: u32,
) -> Result<Reading<Vec<TypeTree>>, Stop>
    requires order { whole ≤ first.next }
    requires within { first.next ≤ length input.now.tokens.now }
    requires few { length input.now.tokens.now < 2 ^ 32 }
    ensures { Comes (λ all. arguments_of all.items)
        (λ k. run_arguments k (origin_of input.now) (from_at input.now whole) left
        (argument (written_of first.value) no_arguments) (from_at input.now first.next)) input.now
        first.next result }
{
    let mut arguments = and_one(Vec::new(alloc), first.value)?;
    let mut next = first.next;
    while input.comma_at(next, Layout::Brackets) {
        let one = read_type(alloc, input, next + 1, Layout::Brackets, whole, left)?;
        arguments = and_one(arguments, one.value)?;
        next = one.next;
    }
    Ok(Reading {
        value: arguments,
        next,
    })
}

// `array` and its bracket.
#[cycle(types)]
fn read_array(
    alloc: Global,
    input: &Input,
    at: usize,
    token: Token,
    layout: Layout,
    whole: usize,
    left: u32,
) -> Result<Reading<TypeTree>, Stop>
    requires order { whole ≤ at }
    requires within { at < length input.now.tokens.now }
    requires few { length input.now.tokens.now < 2 ^ 32 }
    ensures { Comes written_of
        (λ k. run_sort k L.Array (origin_of input.now) layout (from_at input.now whole) left token
        (from_at input.now (at + 1))) input.now (suc at) result }
{
    let inside = at + 2;
    let length = read_length(alloc, input, inside, whole, left)?;
    let next = length.next;
    match length.value {
        Some(count) => read_element(alloc, input, next, token, count, whole, left),
        None => read_inside(alloc, input, next, token, whole, left),
    }
}

// The element of an array, behind its length.
#[cycle(types)]
fn read_element(
    alloc: Global,
    input: &Input,
    at: usize,
    token: Token,
    count: Expr,
    whole: usize,
    left: u32,
) -> Result<Reading<TypeTree>, Stop>
    requires order { whole ≤ at }
    requires few { length input.now.tokens.now < 2 ^ 32 }
    ensures { Comes written_of
        (λ k. run_inside k (Some (term_of count)) (origin_of input.now) (from_at input.now whole) left token
        (from_at input.now at)) input.now (suc at) result }
{
    let element = match read_type(alloc, input, at, Layout::Brackets, whole, left) {
        Ok(element) => element,
        Err(stop) => {
            drop(count);
            return Err(stop);
        }
    };
    if !input.closes_at(Bracket::Square, element.next) {
        let next = element.next;
        drop(count);
        drop(element);
        return Err(stuck(input, next));
    }
    Ok(Reading {
        value: make_array(alloc, input.place_at(token), count, element.value)?,
        next: element.next + 1,
    })
}

// `ref` and a type.
#[cycle(types)]
fn read_ref(
    alloc: Global,
    input: &Input,
    at: usize,
    token: Token,
    layout: Layout,
    whole: usize,
    left: u32,
) -> Result<Reading<TypeTree>, Stop>
    requires order { whole ≤ at }
    requires within { at < length input.now.tokens.now }
    requires few { length input.now.tokens.now < 2 ^ 32 }
    ensures { Comes written_of
        (λ k. run_sort k L.Ref (origin_of input.now) layout (from_at input.now whole) left token
        (from_at input.now (at + 1))) input.now (suc at) result }
{
    let behind = at + 1;
    if !input.stays(behind, layout) {
        return Err(stuck(input, behind));
    }
    let target = read_type(alloc, input, behind, layout, whole, left)?;
    Ok(Reading {
        value: make_ref(alloc, input.place_at(token), target.value)?,
        next: target.next,
    })
}

// `tuple` and its fields in brackets.
#[cycle(types)]
fn read_tuple(
    alloc: Global,
    input: &Input,
    at: usize,
    token: Token,
    layout: Layout,
    whole: usize,
    left: u32,
) -> Result<Reading<TypeTree>, Stop>
    requires order { whole ≤ at }
    requires within { at < length input.now.tokens.now }
    requires few { length input.now.tokens.now < 2 ^ 32 }
    ensures { Comes written_of
        (λ k. run_sort k L.Tuple (origin_of input.now) layout (from_at input.now whole) left token
        (from_at input.now (at + 1))) input.now (suc at) result }
{
    let open = at + 1;
    if !opens_at(input, open, layout, Bracket::Square) {
        return Err(stuck(input, open));
    }
    let inside = open + 1;
    if input.closes_at(Bracket::Square, inside) {
        return Ok(Reading {
            value: make_tuple(input.place_at(token), Vec::new(alloc)),
            next: inside + 1,
        });
    }
    let first = read_part(alloc, input, inside, whole, left)?;
    let fields = read_parts(alloc, input, first, whole, left)?;
    if !input.closes_at(Bracket::Square, fields.next) {
        return Err(stuck(input, fields.next));
    }
    Ok(Reading {
        value: make_tuple(input.place_at(token), fields.value),
        next: fields.next + 1,
    })
}

// The fields of a tuple that have one type.
#[cycle(types)]
fn read_part(
    alloc: Global,
    input: &Input,
    at: usize,
    whole: usize,
    left: u32,
) -> Result<Reading<Field>, Stop>
    requires order { whole ≤ at }
    requires few { length input.now.tokens.now < 2 ^ 32 }
    ensures { Comes typed_of (λ k. run_part k (origin_of input.now) (from_at input.now whole) left (from_at input.now at)) input.now (suc at) result }
{
    let names = read_declareds(alloc, input, at, Layout::Brackets, Layout::Brackets)?;
    if !input.colon_at(names.next, Layout::Brackets) {
        return Err(stuck(input, names.next));
    }
    let of = read_type(alloc, input, names.next + 1, Layout::Brackets, whole, left)?;
    Ok(Reading {
        value: Field {
            names: names.value,
            of: of.value,
        },
        next: of.next,
    })
}

// The fields of a tuple behind the first.
#[cycle(types)]
fn read_parts(
    alloc: Global,
    input: &Input,
    first: Reading<Field>,
    whole: usize,
    left: u32,
) -> Result<Reading<Vec<Field>>, Stop>
    requires order { whole ≤ first.next }
    requires within { first.next ≤ length input.now.tokens.now }
    requires few { length input.now.tokens.now < 2 ^ 32 }
    ensures { Comes (λ all. fields_of all.items)
        (λ k. run_parts k (origin_of input.now) (from_at input.now whole) left
        (fields first.value.names.items (written_of first.value.of) no_fields)
        (from_at input.now first.next)) input.now first.next result }
{
    let mut fields = and_one(Vec::new(alloc), first.value)?;
    let mut next = first.next;
    while input.comma_at(next, Layout::Brackets) {
        let one = read_part(alloc, input, next + 1, whole, left)?;
        fields = and_one(fields, one.value)?;
        next = one.next;
    }
    Ok(Reading {
        value: fields,
        next,
    })
}

/// A written type.
pub(crate) fn read_written(
    alloc: Global,
    input: &Input,
    at: usize,
    layout: Layout,
) -> Result<Reading<TypeTree>, Stop>
    requires few { length input.now.tokens.now < 2 ^ 32 }
    ensures { Comes written_of (λ k. run_written k (origin_of input.now) layout (from_at input.now at)) input.now (suc at) result }
{
    read_type(alloc, input, at, layout, at, MOST_LEVELS)
}

/// A colon and a type.
pub(crate) fn read_typed(
    alloc: Global,
    input: &Input,
    at: usize,
    layout: Layout,
) -> Result<Reading<TypeTree>, Stop>
    requires few { length input.now.tokens.now < 2 ^ 32 }
    ensures { Comes written_of (λ k. run_typed k (origin_of input.now) layout (from_at input.now at)) input.now (suc at) result }
{
    if !input.colon_at(at, layout) {
        return Err(stuck(input, at));
    }
    if !input.stays(at + 1, layout) {
        return Err(stuck(input, at + 1));
    }
    read_written(alloc, input, at + 1, layout)
}

/// A colon and a type, where there is a colon.
pub(crate) fn read_annotation(
    alloc: Global,
    input: &Input,
    at: usize,
    layout: Layout,
) -> Result<Reading<Option<TypeTree>>, Stop>
    requires within { at ≤ length input.now.tokens.now }
    requires few { length input.now.tokens.now < 2 ^ 32 }
    ensures { Comes (λ of. option_map written_of of) (λ k. run_annotation k (origin_of input.now) layout (from_at input.now at)) input.now at result }
{
    if !input.colon_at(at, layout) {
        return Ok(Reading {
            value: None,
            next: at,
        });
    }
    let of = read_typed(alloc, input, at, layout)?;
    Ok(Reading {
        value: Some(of.value),
        next: of.next,
    })
}
