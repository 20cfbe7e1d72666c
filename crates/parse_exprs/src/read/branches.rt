// `if` and `case`.
ghost use Rattle.std.specs.Prelude.{◌≡◌, ◌≤◌, ◌<◌, ◌-◌, length, suc};
ghost use Rattle.nim_tree.specs.Terms.{Term, term_of, parts_of, choices_of, levels, most_levels, levels_in};
ghost use Rattle.parse_exprs.specs.Look.{past_colon};
ghost use Rattle.parse_exprs.specs.Run.{run_if, run_tail, run_value, run_own_line, run_elifs, run_else, run_case};
ghost use Rattle.parse_exprs.specs.Run.{run_branches, run_of, run_labels, run_label, run_ofs, run_otherwise};
ghost use Rattle.parse_exprs.specs.Input.{origin_of, from_at};
ghost use Rattle.parse_exprs.specs.Gives.{Comes, ComesParts, ComesTail, ComesChoices};

use crate::input::Input;
use crate::kinds::{branch_layout, past_start};
use crate::layout::Layout;
use crate::make::{
    Branches, Reading, Several, Stuck, Tail, and_branch, and_part, make_case, make_case_else,
    make_if, make_range, no_branches, no_parts, with_value,
};
use crate::read::operators::read_expr;
use arc_base::Place;
use nim_tree::Expr;
use std::alloc::Global;

/// `if`, its `elif` branches, and `else`.
#[cycle(exprs)]
pub(crate) fn read_if(
    alloc: Global,
    input: &Input,
    at: usize,
    layout: Layout,
    left: u32,
) -> Result<Reading, Stuck>
    ensures { Comes (λ k. run_if k (origin_of input.now) layout left (from_at input.now at)) input.now left (suc at) result }
{
    if left == 0 {
        return Err(Stuck::Deep);
    }
    let Some(token) = input.head(at) else {
        return Err(Stuck::Syntax(at));
    };
    let place = input.place_at(token);
    let tail = read_tail(alloc, input, at + 1, layout, left - 1)?;
    let first = and_branch(no_branches(alloc, at), place, tail)?;
    let all = read_elifs(alloc, input, first, layout, left - 1)?;
    let otherwise = read_else(alloc, input, all.next, layout, left - 1)?;
    let deeper = all.depth.max(otherwise.depth);
    let tree = make_if(alloc, place, all.branches, otherwise.tree)?;
    Ok(Reading {
        tree,
        next: otherwise.next,
        depth: deeper + 1,
    })
}

// A condition, a colon and a value.
#[cycle(exprs)]
fn read_tail(
    alloc: Global,
    input: &Input,
    at: usize,
    layout: Layout,
    left: u32,
) -> Result<Tail, Stuck>
    ensures { ComesTail (λ k. run_tail k (origin_of input.now) layout left (from_at input.now at)) input.now left (suc at) result }
{
    if !input.stays(at, layout) {
        return Err(Stuck::Syntax(at));
    }
    let condition = read_expr(alloc, input, at, past_start(layout), left)?;
    let tests = and_part(no_parts(alloc, at), condition)?;
    let value = read_value(alloc, input, tests.next, layout, left)?;
    Ok(with_value(tests, value))
}

// A colon and a value.
#[cycle(exprs)]
fn read_value(
    alloc: Global,
    input: &Input,
    at: usize,
    layout: Layout,
    left: u32,
) -> Result<Reading, Stuck>
    ensures { Comes (λ k. run_value k (origin_of input.now) layout left (from_at input.now at)) input.now left (suc at) result }
{
    if !input.colon_at(at, layout) {
        return Err(Stuck::Syntax(at));
    }
    if input.stays(at + 1, layout) {
        read_expr(alloc, input, at + 1, layout, left)
    } else {
        read_own_line(alloc, input, at + 1, layout, left)
    }
}

// A value on lines of its own.
#[cycle(exprs)]
fn read_own_line(
    alloc: Global,
    input: &Input,
    at: usize,
    layout: Layout,
    left: u32,
) -> Result<Reading, Stuck>
    ensures { Comes (λ k. run_own_line k (origin_of input.now) layout left (from_at input.now at)) input.now left (suc at) result }
{
    if !input.deeper_line_at(at, layout) {
        return Err(Stuck::Syntax(at));
    }
    let own = input.line_layout(at, layout);
    let value = read_expr(alloc, input, at, own, left)?;
    if input.closed_at(value.next, own) {
        Ok(value)
    } else {
        let next = value.next;
        drop(value);
        Err(Stuck::Syntax(next))
    }
}

// The `elif` branches behind the first branch of `if`.
#[cycle(exprs)]
fn read_elifs(
    alloc: Global,
    input: &Input,
    first: Branches,
    layout: Layout,
    left: u32,
) -> Result<Branches, Stuck>
    requires depth { first.depth ≡ levels_in (choices_of first.branches.items) }
    requires few { first.depth ≤ left }
    requires within { first.next ≤ length input.now.tokens.now }
    ensures { ComesChoices
        (λ k. run_elifs k (origin_of input.now) layout left (choices_of first.branches.items)
        (from_at input.now first.next)) input.now left first.next result }
{
    let mut some = first;
    while let Some(token) = input.elif_at(some.next, layout) {
        let last = read_tail(alloc, input, some.next + 1, layout, left)?;
        some = and_branch(some, input.place_at(token), last)?;
    }
    Ok(some)
}

// `else`, a colon and a value.
#[cycle(exprs)]
fn read_else(
    alloc: Global,
    input: &Input,
    at: usize,
    layout: Layout,
    left: u32,
) -> Result<Reading, Stuck>
    ensures { Comes (λ k. run_else k (origin_of input.now) layout left (from_at input.now at)) input.now left (suc at) result }
{
    if !input.else_at(at, layout) {
        return Err(Stuck::Syntax(at));
    }
    read_value(alloc, input, at + 1, layout, left)
}

/// `case`, its `of` branches, and `else` where it stands.
#[cycle(exprs)]
pub(crate) fn read_case(
    alloc: Global,
    input: &Input,
    at: usize,
    layout: Layout,
    left: u32,
) -> Result<Reading, Stuck>
    ensures { Comes (λ k. run_case k (origin_of input.now) layout left (from_at input.now at)) input.now left (suc at) result }
{
    if left == 0 {
        return Err(Stuck::Deep);
    }
    let Some(token) = input.head(at) else {
        return Err(Stuck::Syntax(at));
    };
    if !input.stays(at + 1, layout) {
        return Err(Stuck::Syntax(at + 1));
    }
    let selector = read_expr(alloc, input, at + 1, past_start(layout), left - 1)?;
    read_branches(alloc, input, input.place_at(token), selector, layout, left)
}

// The branches of `case` behind what it selects by.
#[cycle(exprs)]
fn read_branches(
    alloc: Global,
    input: &Input,
    place: Place,
    selector: Reading,
    layout: Layout,
    left: u32,
) -> Result<Reading, Stuck>
    requires depth { selector.depth ≡ levels (term_of selector.tree) }
    requires few { selector.depth < left }
    requires within { selector.next ≤ length input.now.tokens.now }
    ensures { Comes (λ k. run_branches k (origin_of input.now) layout (left - 1) place (term_of selector.tree)
        (past_colon layout (from_at input.now selector.next))) input.now left (suc selector.next) result }
{
    let at = input.past_colon(selector.next, layout);
    let Some(token) = input.first_of_at(at, layout) else {
        drop(selector);
        return Err(Stuck::Syntax(at));
    };
    let deep = selector.depth;
    let selected = Box::new(alloc, selector.tree)?;
    let inner = branch_layout(layout, token.indent);
    let tail = read_of(alloc, input, at + 1, inner, left - 1)?;
    let first = and_branch(no_branches(alloc, at), input.place_at(token), tail)?;
    let all = read_ofs(alloc, input, first, inner, left - 1)?;
    read_otherwise(alloc, input, place, selected, deep, all, inner, left)
}

// Labels, a colon and a value.
#[cycle(exprs)]
fn read_of(
    alloc: Global,
    input: &Input,
    at: usize,
    layout: Layout,
    left: u32,
) -> Result<Tail, Stuck>
    ensures { ComesTail (λ k. run_of k (origin_of input.now) layout left (from_at input.now at)) input.now left (suc at) result }
{
    if !input.stays(at, layout) {
        return Err(Stuck::Syntax(at));
    }
    let inner = past_start(layout);
    let first = read_label(alloc, input, at, inner, left)?;
    let one = and_part(no_parts(alloc, at), first)?;
    let labels = read_labels(alloc, input, one, inner, left)?;
    let value = read_value(alloc, input, labels.next, layout, left)?;
    Ok(with_value(labels, value))
}

// The labels behind the first.
#[cycle(exprs)]
fn read_labels(
    alloc: Global,
    input: &Input,
    first: Several,
    layout: Layout,
    left: u32,
) -> Result<Several, Stuck>
    requires depth { first.depth ≡ most_levels (parts_of first.parts.items) }
    requires few { first.depth ≤ left }
    requires within { first.next ≤ length input.now.tokens.now }
    ensures { ComesParts
        (λ k. run_labels k (origin_of input.now) layout left (parts_of first.parts.items)
        (from_at input.now first.next)) input.now left first.next result }
{
    let mut some = first;
    while input.comma_at(some.next, layout) {
        let last = read_label(alloc, input, some.next + 1, layout, left)?;
        some = and_part(some, last)?;
    }
    Ok(some)
}

// An expression, or two with `..` between them.
#[cycle(exprs)]
fn read_label(
    alloc: Global,
    input: &Input,
    at: usize,
    layout: Layout,
    left: u32,
) -> Result<Reading, Stuck>
    ensures { Comes (λ k. run_label k (origin_of input.now) layout left (from_at input.now at)) input.now left (suc at) result }
{
    let low = read_expr(alloc, input, at, layout, left)?;
    if !input.dots_at(low.next, layout) {
        return Ok(low);
    }
    let next = low.next + 1;
    if !input.stays(next, layout) {
        drop(low);
        return Err(Stuck::Syntax(next));
    }
    let first = Box::new(alloc, low.tree)?;
    let high = read_expr(alloc, input, next, layout, left)?;
    let deeper = low.depth.max(high.depth);
    let tree = make_range(alloc, first, high.tree)?;
    Ok(Reading {
        tree,
        next: high.next,
        depth: deeper,
    })
}

// The `of` branches behind the first.
#[cycle(exprs)]
fn read_ofs(
    alloc: Global,
    input: &Input,
    first: Branches,
    layout: Layout,
    left: u32,
) -> Result<Branches, Stuck>
    requires depth { first.depth ≡ levels_in (choices_of first.branches.items) }
    requires few { first.depth ≤ left }
    requires within { first.next ≤ length input.now.tokens.now }
    ensures { ComesChoices
        (λ k. run_ofs k (origin_of input.now) layout left (choices_of first.branches.items)
        (from_at input.now first.next)) input.now left first.next result }
{
    let mut some = first;
    while let Some(token) = input.of_at(some.next, layout) {
        let last = read_of(alloc, input, some.next + 1, layout, left)?;
        some = and_branch(some, input.place_at(token), last)?;
    }
    Ok(some)
}

// `else` and its value, where there is one.
#[cycle(exprs)]
fn read_otherwise(
    alloc: Global,
    input: &Input,
    place: Place,
    selector: Box<Expr>,
    deep: u32,
    all: Branches,
    layout: Layout,
    left: u32,
) -> Result<Reading, Stuck>
    requires selector_depth { deep ≡ levels (term_of selector.value) }
    requires selector_few { deep < left }
    requires depth { all.depth ≡ levels_in (choices_of all.branches.items) }
    requires few { all.depth < left }
    requires within { all.next ≤ length input.now.tokens.now }
    ensures { Comes (λ k. run_otherwise k (origin_of input.now) layout (left - 1) place
        (term_of selector.value) (choices_of all.branches.items) (from_at input.now all.next)) input.now
        left all.next result }
{
    let deeper = deep.max(all.depth);
    if !input.else_on(all.next, layout) {
        return Ok(Reading {
            tree: make_case(place, selector, all.branches),
            next: all.next,
            depth: deeper + 1,
        });
    }
    let value = read_value(alloc, input, all.next + 1, layout, left - 1)?;
    let deepest = deeper.max(value.depth);
    let tree = make_case_else(alloc, place, selector, all.branches, value.tree)?;
    Ok(Reading {
        tree,
        next: value.next,
        depth: deepest + 1,
    })
}
