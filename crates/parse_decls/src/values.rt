// Values.
ghost use Rattle.std.specs.Prelude.{◌≡◌, ◌≤◌, ◌<◌, ◌^◌, ℕ, suc, List, length, option_map, true};
ghost use Rattle.arc_base.specs.Stops.{OnRefusal};
ghost use Rattle.indent_scanner.specs.declared.token.Token.{Token as One};
ghost use Rattle.nim_tree.specs.Terms.{Term, term_of};
ghost use Rattle.parse_exprs.specs.Input.{origin_of, from_at};
ghost use Rattle.parse_exprs.specs.declared.layout.Layout.TheVariants.{Lines};
ghost use Rattle.parse_exprs.specs.Outcome.{Out};
ghost use Rattle.parse_exprs.specs.Parsed.{RunsInto};
ghost use Rattle.parse_exprs.specs.Run.{run_expr, run_primary};
ghost use Rattle.parse_decls.specs.Outcome.{of_expr};
ghost use Rattle.parse_decls.specs.Run.{most_levels, run_given};
ghost use Rattle.parse_decls.specs.Gives.{Comes, Fails};

use crate::look::equals_at;
use crate::reading::{Reading, stuck, too_deep};
use arc_base::{Code, Stop};
use nim_tree::Expr;
use parse_exprs::{Input, Layout, callee, expr_within};
use std::alloc::Global;

/// The most levels of an expression or a written type.
pub(crate) const MOST_LEVELS: u32 = 64;

// Why the part at `at` of what begins at `whole` isn't read: of a level too many the whole is told.
fn refused_within(input: &Input, at: usize, whole: usize, stop: Stop) -> Stop
    requires within { whole < length input.now.tokens.now }
    ensures { (run : List One → ℕ → Out Term)
        → OnRefusal stop (RunsInto run (origin_of input.now) (from_at input.now at))
        → Fails (λ k. of_expr (from_at input.now whole) (run (from_at input.now at) k))
        (origin_of input.now) result }
{
    match stop {
        Stop::Refused { code, at: place } => match code {
            Code::NestTooDeep => too_deep(input, whole),
            _ => Stop::Refused { code, at: place },
        },
        Stop::Memory => Stop::Memory,
    }
}

/// An expression of at most so many levels, in what begins at `whole`.
pub(crate) fn read_within(
    alloc: Global,
    input: &Input,
    at: usize,
    layout: Layout,
    whole: usize,
    left: u32,
) -> Result<Reading<Expr>, Stop>
    requires order { whole ≤ at }
    requires few { length input.now.tokens.now < 2 ^ 32 }
    ensures { Comes term_of
        (λ k. of_expr (from_at input.now whole)
        (run_expr k (origin_of input.now) layout left (from_at input.now at))) input.now (suc at) result }
{
    let tokens = input.tokens;
    if at >= tokens.len() {
        return Err(stuck(input, at));
    }
    let from = at as u32;
    match expr_within(
        alloc,
        input.source,
        tokens,
        from,
        input.module,
        layout,
        left,
    ) {
        Ok(parsed) => Ok(Reading {
            value: parsed.tree,
            next: parsed.next as usize,
        }),
        Err(stop) => Err(refused_within(input, at, whole, stop)),
    }
}

/// An expression.
pub fn read_value(
    alloc: Global,
    input: &Input,
    at: usize,
    layout: Layout,
) -> Result<Reading<Expr>, Stop>
    requires few { length input.now.tokens.now < 2 ^ 32 }
    ensures { Comes term_of
        (λ k. of_expr (from_at input.now at)
        (run_expr k (origin_of input.now) layout most_levels (from_at input.now at))) input.now
        (suc at) result }
{
    read_within(alloc, input, at, layout, at, MOST_LEVELS)
}

/// An atom with what stands behind it, where a command may begin.
pub fn read_callee(
    alloc: Global,
    input: &Input,
    at: usize,
    spaces: u32,
) -> Result<Reading<Expr>, Stop>
    requires few { length input.now.tokens.now < 2 ^ 32 }
    ensures { Comes term_of
        (λ k. of_expr (from_at input.now at)
        (run_primary k (origin_of input.now) (Lines spaces) true most_levels (from_at input.now at)))
        input.now (suc at) result }
{
    let tokens = input.tokens;
    if at >= tokens.len() {
        return Err(stuck(input, at));
    }
    let from = at as u32;
    let parsed = callee(alloc, input.source, tokens, from, input.module, spaces)?;
    Ok(Reading {
        value: parsed.tree,
        next: parsed.next as usize,
    })
}

/// `=` and a value, where there is one.
pub(crate) fn read_given(
    alloc: Global,
    input: &Input,
    at: usize,
    layout: Layout,
) -> Result<Reading<Option<Expr>>, Stop>
    requires within { at ≤ length input.now.tokens.now }
    requires few { length input.now.tokens.now < 2 ^ 32 }
    ensures { Comes (λ value. option_map term_of value) (λ k. run_given k (origin_of input.now) layout (from_at input.now at)) input.now at result }
{
    if !equals_at(input, at, layout) {
        return Ok(Reading {
            value: None,
            next: at,
        });
    }
    let behind = at + 1;
    if !input.stays(behind, layout) {
        return Err(stuck(input, behind));
    }
    let value = read_value(alloc, input, behind, layout)?;
    Ok(Reading {
        value: Some(value.value),
        next: value.next,
    })
}
