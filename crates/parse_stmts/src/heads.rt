// What stands before the colon of a block.
ghost use Rattle.std.specs.Prelude.{◌≡◌, suc, ◌<◌, ◌≤◌, ◌^◌, ◌&&◌, length, IfOk, IfErr};
ghost use Rattle.arc_base.specs.declared.place.Stop.TheVariants.{Memory};
ghost use Rattle.nim_tree.specs.Terms.{term_of, parts_of, part, no_parts, place_of, range};
ghost use Rattle.nim_tree.specs.Statements.{course_of};
ghost use Rattle.parse_exprs.specs.Input.{from_at, origin_of};
ghost use Rattle.parse_decls.specs.Gives.{Comes};
ghost use Rattle.parse_stmts.specs.Look.{word_on, is_as};
ghost use Rattle.parse_stmts.specs.Marks.{IsPast};
ghost use Rattle.parse_stmts.specs.Run.{run_label, run_labels, run_course, run_types_of, run_binding};

use crate::marks::{Word, past_below, past_comma, past_dots, past_word};
use crate::values::read_here;
use arc_base::Stop;
use nim_tree::{Expr, Name, Over};
use parse_decls::{Reading, and_one, names, read_name, read_value};
use parse_exprs::{Input, Layout};
use std::alloc::Global;

// ---- labels

/// The labels behind the first.
pub(crate) fn read_labels(
    alloc: Global,
    input: &Input,
    first: Reading<Expr>,
    spaces: u32,
) -> Result<Reading<Vec<Expr>>, Stop>
    requires few { length input.now.tokens.now < 2 ^ 32 }
    requires within { first.next ≤ length input.now.tokens.now }
    ensures { Comes (λ labels. parts_of labels.items)
        (λ k. run_labels k (origin_of input.now) spaces (part (term_of first.value) no_parts)
        (from_at input.now first.next)) input.now first.next result }
{
    let mut labels = and_one(Vec::new(alloc), first.value)?;
    let mut next = first.next;
    while let Some(behind) = past_comma(input, next, spaces) {
        let one = read_label(alloc, input, behind, spaces)?;
        labels = and_one(labels, one.value)?;
        next = one.next;
    }
    Ok(Reading {
        value: labels,
        next,
    })
}

/// A label of an `of` branch: an expression, or two with `..` between them.
pub(crate) fn read_label(
    alloc: Global,
    input: &Input,
    at: usize,
    spaces: u32,
) -> Result<Reading<Expr>, Stop>
    requires few { length input.now.tokens.now < 2 ^ 32 }
    ensures { Comes term_of (λ k. run_label k (origin_of input.now) spaces (from_at input.now at)) input.now (suc at) result }
{
    let low = read_value(alloc, input, at, Layout::Lines(spaces))?;
    let Some(behind) = past_dots(input, low.next, spaces) else {
        return Ok(low);
    };
    let first = Box::new(alloc, low.value)?;
    let high = read_here(alloc, input, behind, spaces)?;
    Ok(Reading {
        value: make_range(alloc, first, high.value)?,
        next: high.next,
    })
}

// The values from low to high.
fn make_range(alloc: Global, low: Box<Expr>, high: Expr) -> Result<Expr, Stop>
    ensures ok { IfOk result (λ tree. term_of tree ≡ range (place_of (term_of low.value)) (term_of low.value) (term_of high)) }
    ensures err { IfErr result (λ stop. stop ≡ Memory) }
{
    let at = low.place();
    let high = Box::new(alloc, high)?;
    Ok(Expr::Range { at, low, high })
}

// ---- `for`

/// What a `for` goes over.
pub(crate) fn read_course(
    alloc: Global,
    input: &Input,
    at: usize,
    spaces: u32,
) -> Result<Reading<Over>, Stop>
    requires few { length input.now.tokens.now < 2 ^ 32 }
    ensures { Comes course_of (λ k. run_course k (origin_of input.now) spaces (from_at input.now at)) input.now (suc at) result }
{
    let first = read_here(alloc, input, at, spaces)?;
    if let Some(behind) = past_dots(input, first.next, spaces) {
        let last = match read_here(alloc, input, behind, spaces) {
            Ok(last) => last,
            Err(stop) => {
                drop(first);
                return Err(stop);
            }
        };
        return Ok(Reading {
            value: Over::UpTo(first.value, last.value),
            next: last.next,
        });
    }
    if let Some(behind) = past_below(input, first.next, spaces) {
        let end = match read_here(alloc, input, behind, spaces) {
            Ok(end) => end,
            Err(stop) => {
                drop(first);
                return Err(stop);
            }
        };
        return Ok(Reading {
            value: Over::Below(first.value, end.value),
            next: end.next,
        });
    }
    Ok(Reading {
        value: Over::Each(first.value),
        next: first.next,
    })
}

// ---- `except`

/// The exception types of a handler, of which there may be none.
pub(crate) fn read_types_of(
    alloc: Global,
    input: &Input,
    at: usize,
    spaces: u32,
) -> Result<Reading<Vec<Name>>, Stop>
    requires within { at ≤ length input.now.tokens.now }
    ensures { Comes (λ names. names.items) (λ k. run_types_of k (origin_of input.now) spaces (from_at input.now at)) input.now at result }
{
    let layout = Layout::Lines(spaces);
    if input.colon_at(at, layout) {
        Ok(Reading {
            value: Vec::new(alloc),
            next: at,
        })
    } else {
        names(alloc, input, at, layout)
    }
}

// The number of the token behind the `as` that goes on there, behind some exception types.
fn past_as(input: &Input, at: usize, some: bool, spaces: u32) -> Option<usize>
    ensures { IsPast input.now (λ ts. some && word_on spaces is_as ts) at result }
{
    if some {
        past_word(input, at, spaces, Word::As)
    } else {
        None
    }
}

/// The name behind `as`, where there is one, behind some exception types or none.
pub(crate) fn read_binding(
    alloc: Global,
    input: &Input,
    at: usize,
    some: bool,
    spaces: u32,
) -> Result<Reading<Option<Name>>, Stop>
    requires within { at ≤ length input.now.tokens.now }
    ensures { Comes (λ name. name) (λ k. run_binding some (origin_of input.now) spaces (from_at input.now at)) input.now at result }
{
    let Some(behind) = past_as(input, at, some, spaces) else {
        return Ok(Reading {
            value: None,
            next: at,
        });
    };
    let name = read_name(alloc, input, behind, Layout::Lines(spaces))?;
    Ok(Reading {
        value: Some(name.value),
        next: name.next,
    })
}
