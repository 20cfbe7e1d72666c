// Expressions that are alone on their line.
ghost use Rattle.std.specs.Prelude.{◌≡◌, ℕ, suc, not, nat_lt, ◌<◌, ◌≤◌, ◌^◌, length, option_map, IfOk, IfSome};
ghost use Rattle.nim_tree.specs.Terms.{Term, levels, term_of, place_of};
ghost use Rattle.nim_tree.specs.Statements.{evaluates, statement_of};
ghost use Rattle.parse_exprs.specs.Outcome as E;
ghost use Rattle.parse_exprs.specs.Input.{origin_of, from_at};
ghost use Rattle.parse_decls.specs.Run.{most_levels};
ghost use Rattle.parse_decls.specs.Gives.{Comes};
ghost use Rattle.parse_stmts.specs.Run.{alone_in, run_alone};

use crate::lines::line_over;
use arc_base::Stop;
use nim_tree::{Expr, Stmt};
use parse_decls::{Reading, too_deep};
use parse_exprs::{Input, Layout, Parsed, expr_within};
use std::alloc::Global;

// The most levels of an expression.
const MOST_LEVELS: u32 = 64;

/// The most levels of an expression at the start of a statement that is looked at: it may have 64, and with more it is too deep.
pub const MOST_ALONE: u32 = 200;

// Whether it has few enough levels.
fn fits(tree: &Expr) -> bool
    ensures { result ≡ not (nat_lt most_levels (levels (term_of tree.now))) }
{
    tree.levels() <= MOST_LEVELS
}

// What was read there as an expression, if it is alone on its line.
fn if_alone(
    input: &Input,
    at: usize,
    spaces: u32,
    parsed: Parsed,
) -> Result<Reading<Option<Expr>>, Stop>
    requires goes { at < parsed.next }
    requires within { parsed.next ≤ length input.now.tokens.now }
    ensures runs { (run : ℕ → E.Out Term)
        → E.Settles run (E.got (term_of parsed.tree) (from_at input.now parsed.next))
        → Comes (option_map term_of) (λ k. alone_in spaces (from_at input.now at) (run k)) input.now
        at result }
    ensures goes { IfOk result (λ p. IfSome p.value (λ tree. suc at ≤ p.next)) }
{
    let next = parsed.next as usize;
    if !line_over(input, next, spaces) {
        drop(parsed);
        return Ok(Reading {
            value: None,
            next: at,
        });
    }
    if !fits(&parsed.tree) {
        drop(parsed);
        return Err(too_deep(input, at));
    }
    Ok(Reading {
        value: Some(parsed.tree),
        next,
    })
}

/// The expression that begins there and is alone on its line, in a statement behind so many spaces, if there is one.
///
/// Refused with E5 at its first token where it has more than 64 levels, up to [`MOST_ALONE`].
pub(crate) fn read_alone(
    alloc: Global,
    input: &Input,
    at: usize,
    spaces: u32,
) -> Result<Reading<Option<Expr>>, Stop>
    requires few { length input.now.tokens.now < 2 ^ 32 }
    requires within { at < length input.now.tokens.now }
    ensures runs { Comes (option_map term_of) (λ k. run_alone k (origin_of input.now) spaces (from_at input.now at)) input.now at result }
    ensures goes { IfOk result (λ p. IfSome p.value (λ tree. suc at ≤ p.next)) }
{
    let from = at as u32;
    let read = expr_within(
        alloc,
        input.source,
        input.tokens,
        from,
        input.module,
        Layout::Start(spaces),
        MOST_ALONE,
    );
    match read {
        Ok(parsed) => if_alone(input, at, spaces, parsed),
        Err(Stop::Refused { .. }) => Ok(Reading {
            value: None,
            next: at,
        }),
        Err(Stop::Memory) => Err(Stop::Memory),
    }
}

/// The statement that an expression is.
pub(crate) fn as_statement(value: Expr) -> Stmt
    ensures { statement_of result ≡ evaluates (place_of (term_of value)) (term_of value) }
{
    Stmt::Eval {
        at: value.place(),
        value,
    }
}
