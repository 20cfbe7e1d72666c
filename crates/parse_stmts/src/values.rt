// Expressions on a line.
ghost use Rattle.std.specs.Prelude.{◌≡◌, suc, ◌<◌, ◌≤◌, ◌^◌, ◌&&◌, length, option_map};
ghost use Rattle.nim_tree.specs.Terms.{term_of};
ghost use Rattle.parse_exprs.specs.Input.{from_at, origin_of};
ghost use Rattle.parse_exprs.specs.Look.{expr_at, stays};
ghost use Rattle.parse_decls.specs.Gives.{Comes};
ghost use Rattle.parse_stmts.specs.Run.{run_here, run_optional};

use arc_base::Stop;
use nim_tree::Expr;
use parse_decls::{Reading, read_value, stuck};
use parse_exprs::{Input, Layout};
use std::alloc::Global;

/// An expression that begins on this line.
pub(crate) fn read_here(
    alloc: Global,
    input: &Input,
    at: usize,
    spaces: u32,
) -> Result<Reading<Expr>, Stop>
    requires few { length input.now.tokens.now < 2 ^ 32 }
    ensures { Comes term_of (λ k. run_here k (origin_of input.now) spaces (from_at input.now at)) input.now (suc at) result }
{
    let layout = Layout::Lines(spaces);
    if input.stays(at, layout) {
        read_value(alloc, input, at, layout)
    } else {
        Err(stuck(input, at))
    }
}

/// The expression on this line, where there is one.
pub(crate) fn read_optional(
    alloc: Global,
    input: &Input,
    at: usize,
    spaces: u32,
) -> Result<Reading<Option<Expr>>, Stop>
    requires few { length input.now.tokens.now < 2 ^ 32 }
    requires within { at ≤ length input.now.tokens.now }
    ensures { Comes (option_map term_of) (λ k. run_optional k (origin_of input.now) spaces (from_at input.now at)) input.now at result }
{
    let layout = Layout::Lines(spaces);
    if !begins_here(input, at, layout) {
        return Ok(Reading {
            value: None,
            next: at,
        });
    }
    let one = read_value(alloc, input, at, layout)?;
    Ok(Reading {
        value: Some(one.value),
        next: one.next,
    })
}

fn begins_here(input: &Input, at: usize, layout: Layout) -> bool
    ensures { result ≡ (stays layout (from_at input.now at) && expr_at (origin_of input.now) (from_at input.now at)) }
{
    input.stays(at, layout) && input.expr_at(at)
}
