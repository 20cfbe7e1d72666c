// The length of an array.
ghost use Rattle.std.specs.Prelude.{◌≡◌, ◌≤◌, ◌<◌, ◌^◌, length, option_map};
ghost use Rattle.nim_tree.specs.Terms.{term_of};
ghost use Rattle.parse_exprs.specs.declared.layout.Layout.TheVariants.{Brackets};
ghost use Rattle.parse_exprs.specs.Input.{origin_of, from_at};
ghost use Rattle.parse_exprs.specs.Run.{run_expr};
ghost use Rattle.parse_decls.specs.Run.{most_levels, length_of, run_length};
ghost use Rattle.parse_decls.specs.Gives.{Comes};

use crate::look::type_at;
use crate::reading::{Reading, stuck, too_deep};
use crate::values::{MOST_LEVELS, read_within};
use arc_base::{Code, Stop};
use nim_tree::Expr;
use parse_exprs::{Input, Layout, expr_within};
use std::alloc::Global;

// A length, where an expression and a comma stand; a type may begin there too.
fn try_length(
    alloc: Global,
    input: &Input,
    at: usize,
    whole: usize,
    left: u32,
) -> Result<Reading<Option<Expr>>, Stop>
    requires order { whole ≤ at }
    requires within { at < length input.now.tokens.now }
    requires few { length input.now.tokens.now < 2 ^ 32 }
    ensures { Comes (λ value. option_map term_of value)
        (λ k. length_of (from_at input.now whole) left (from_at input.now at)
        (run_expr k (origin_of input.now) Brackets most_levels (from_at input.now at))) input.now
        at result }
{
    match expr_within(
        alloc,
        input.source,
        input.tokens,
        at as u32,
        input.module,
        Layout::Brackets,
        MOST_LEVELS,
    ) {
        Ok(parsed) => {
            let next = parsed.next as usize;
            if !input.comma_at(next, Layout::Brackets) {
                drop(parsed);
                return Ok(Reading {
                    value: None,
                    next: at,
                });
            }
            if parsed.tree.levels() > left {
                drop(parsed);
                return Err(too_deep(input, whole));
            }
            Ok(Reading {
                value: Some(parsed.tree),
                next: next + 1,
            })
        }
        Err(Stop::Refused { code, .. }) => match code {
            Code::NestTooDeep => Err(too_deep(input, whole)),
            _ => Ok(Reading {
                value: None,
                next: at,
            }),
        },
        Err(Stop::Memory) => Err(Stop::Memory),
    }
}

/// The length and the comma behind the bracket of an array, in the type at `whole`; none where types stand there.
pub(crate) fn read_length(
    alloc: Global,
    input: &Input,
    at: usize,
    whole: usize,
    left: u32,
) -> Result<Reading<Option<Expr>>, Stop>
    requires order { whole ≤ at }
    requires few { length input.now.tokens.now < 2 ^ 32 }
    ensures { Comes (λ value. option_map term_of value)
        (λ k. run_length k (origin_of input.now) (from_at input.now whole) left (from_at input.now at))
        input.now at result }
{
    if type_at(input, at) {
        return try_length(alloc, input, at, whole, left);
    }
    let length = read_within(alloc, input, at, Layout::Brackets, whole, left)?;
    if !input.comma_at(length.next, Layout::Brackets) {
        let next = length.next;
        drop(length);
        return Err(stuck(input, next));
    }
    Ok(Reading {
        value: Some(length.value),
        next: length.next + 1,
    })
}
