// The expression that begins at a token.
ghost use Rattle.std.specs.Prelude.{◌≡◌, ℕ, ◌<◌, ◌≤◌, ◌-◌, ◌^◌, IfOk, IfErr, length, drop, List, ◌↔◌};
ghost use Rattle.arc_base.specs.Stops.{OnRefusal};
ghost use Rattle.indent_scanner.specs.declared.token.Token.{Token as One};
ghost use Rattle.nim_tree.specs.Terms.{Term, levels, nodes, term_of};
ghost use Rattle.parse_exprs.specs.declared.layout.Layout.{Layout as Stands};
ghost use Rattle.parse_exprs.specs.declared.layout.Layout.TheVariants.{Lines};
ghost use Rattle.parse_exprs.specs.Look.{Origin, line_spaces};
ghost use Rattle.parse_exprs.specs.Outcome.{Out};
ghost use Rattle.parse_exprs.specs.Input.{origin_of, from_at};
ghost use Rattle.parse_exprs.specs.Gives.{Fails};
ghost use Rattle.parse_exprs.specs.Parsed.{origin, Reads, ReadsCallee, ExprFaults, CalleeFaults, ExprRun, CalleeRun};
ghost use Rattle.parse_exprs.specs.Parsed.{IsTooDeep, IsRead, IsOnly, HasNoEnd, IsRefused, RunsInto, Runs, Agree};

use crate::input::Input;
use crate::layout::Layout;
use crate::make::{Reading, Stuck};
use crate::read::{read_expr, read_primary};
use arc_base::{Code, Stop};
use indent_scanner::Token;
use nim_tree::Expr;
use std::alloc::Global;

/// The most levels of an expression.
const MOST_LEVELS: u32 = 64;

/// A tree, and the number of the first token behind it.
#[derive(Drop)]
pub struct Parsed {
    pub tree: Expr,
    pub next: u32,
}

/// The longest expression of at most `most` levels that begins at the token of number `from`, in a statement or in brackets
/// as `layout` says.
///
/// `tokens` are those of the bytes `source`; `module` is the number that places name. Refused with E4 at the token that can't
/// go on, with E23 at it where it is a keyword that the language leaves out, and with E5 at the first token where a level too
/// many is opened. Nothing else refuses it; there may be no memory.
pub fn expr_within(
    alloc: Global,
    source: &[u8],
    tokens: &[Token],
    from: u32,
    module: u32,
    layout: Layout,
    most: u32,
) -> Result<Parsed, Stop>
    requires begins { from < length tokens.now }
    requires few { length tokens.now < 2 ^ 32 }
    ensures reads { IfOk result (IsRead (Reads (origin source.now «module») layout) most tokens.now from) }
    ensures only { IfOk result (IsOnly (Reads (origin source.now «module») layout) tokens.now from) }
    ensures size { IfOk result (λ p. nodes (term_of p.tree) ≤ p.next - from) }
    ensures inside { IfOk result (λ p. HasNoEnd tokens.now from p.next) }
    ensures refused { IfErr result
        (λ stop. OnRefusal stop
        (IsRefused (Reads (origin source.now «module») layout)
        (ExprFaults (origin source.now «module») layout most) (origin source.now «module»)
        (drop from tokens.now))) }
    ensures runs { Runs (ExprRun (origin source.now «module») layout most) (origin source.now «module») tokens.now from result }
{
    let input = Input {
        source,
        tokens,
        module,
    };
    match read_expr(alloc, &input, from as usize, layout, most) {
        Ok(Reading { tree, next, .. }) => Ok(Parsed {
            tree,
            next: next as u32,
        }),
        Err(stuck) => Err(refusal(&input, from as usize, stuck)),
    }
}

/// The longest atom with what stands behind it, of at most 64 levels, that begins at the token of number `from`, in a
/// statement behind so many spaces, where a command may begin: a `(` with a space before it is left to the command.
///
/// Parameters and refusals are those of [`expr_within`].
pub fn callee(
    alloc: Global,
    source: &[u8],
    tokens: &[Token],
    from: u32,
    module: u32,
    spaces: u32,
) -> Result<Parsed, Stop>
    requires begins { from < length tokens.now }
    requires few { length tokens.now < 2 ^ 32 }
    ensures reads { IfOk result (IsRead (ReadsCallee (origin source.now «module») spaces) 64 tokens.now from) }
    ensures only { IfOk result (IsOnly (ReadsCallee (origin source.now «module») spaces) tokens.now from) }
    ensures size { IfOk result (λ p. nodes (term_of p.tree) ≤ p.next - from) }
    ensures inside { IfOk result (λ p. HasNoEnd tokens.now from p.next) }
    ensures refused { IfErr result
        (λ stop. OnRefusal stop
        (IsRefused (ReadsCallee (origin source.now «module») spaces)
        (CalleeFaults (origin source.now «module») spaces) (origin source.now «module»)
        (drop from tokens.now))) }
    ensures runs { Runs (CalleeRun (origin source.now «module») spaces) (origin source.now «module») tokens.now from result }
{
    let input = Input {
        source,
        tokens,
        module,
    };
    match read_primary(
        alloc,
        &input,
        from as usize,
        Layout::Lines(spaces),
        true,
        MOST_LEVELS,
    ) {
        Ok(Reading { tree, next, .. }) => Ok(Parsed {
            tree,
            next: next as u32,
        }),
        Err(stuck) => Err(refusal(&input, from as usize, stuck)),
    }
}

/// The longest expression of at most 64 levels that begins at the token of number `from`, in a statement on its line.
///
/// Parameters and refusals are those of [`expr_within`].
pub fn expr(
    alloc: Global,
    source: &[u8],
    tokens: &[Token],
    from: u32,
    module: u32,
) -> Result<Parsed, Stop>
    requires begins { from < length tokens.now }
    requires few { length tokens.now < 2 ^ 32 }
    ensures reads { IfOk result (IsRead (Reads (origin source.now «module») (Lines (line_spaces from tokens.now))) 64 tokens.now from) }
    ensures only { IfOk result (IsOnly (Reads (origin source.now «module») (Lines (line_spaces from tokens.now))) tokens.now from) }
    ensures size { IfOk result (λ p. nodes (term_of p.tree) ≤ p.next - from) }
    ensures inside { IfOk result (λ p. HasNoEnd tokens.now from p.next) }
    ensures refused { IfErr result
        (λ stop. OnRefusal stop
        (IsRefused (Reads (origin source.now «module») (Lines (line_spaces from tokens.now)))
        (ExprFaults (origin source.now «module») (Lines (line_spaces from tokens.now)) 64)
        (origin source.now «module») (drop from tokens.now))) }
    ensures runs { Runs (ExprRun (origin source.now «module») (Lines (line_spaces from tokens.now)) 64) (origin source.now «module») tokens.now from result }
{
    let input = Input {
        source,
        tokens,
        module,
    };
    let spaces = input.spaces_at(from as usize);
    expr_within(
        alloc,
        source,
        tokens,
        from,
        module,
        Layout::Lines(spaces),
        MOST_LEVELS,
    )
}

// The answer where nothing was read.
fn refusal(input: &Input, from: usize, stuck: Stuck) -> Stop
    requires { from < length input.now.tokens.now }
    ensures { (run : List One → ℕ → Out Term) → Fails (run (from_at input.now from)) input.now stuck
        → OnRefusal result (RunsInto run (origin_of input.now) (from_at input.now from)) }
{
    match stuck {
        Stuck::Syntax(at) if input.left_out_at(at) => Stop::Refused {
            code: Code::LeftOut,
            at: input.next_at(at),
        },
        Stuck::Syntax(at) => Stop::Refused {
            code: Code::Syntax,
            at: input.next_at(at),
        },
        Stuck::Deep => Stop::Refused {
            code: Code::NestTooDeep,
            at: input.place_at(input.tokens[from]),
        },
        Stuck::Memory => Stop::Memory,
    }
}

/// At most one expression begins at a token, and it ends at one place.
pub fn one_expr()
    ensures { (x : Origin) (layout : Stands) (t u : Term) (ts r s : List One) → Reads x layout t ts r → Reads x layout u ts s → (t ≡ u) × (r ≡ s) }
{}

/// The same of an atom with what stands behind it, where a command may begin.
pub fn one_callee()
    ensures { (x : Origin) (spaces : ℕ) (t u : Term) (ts r s : List One) → ReadsCallee x spaces t ts r → ReadsCallee x spaces u ts s → (t ≡ u) × (r ≡ s) }
{}

/// An expression has more levels than there may be exactly where it opens one too many.
pub fn deep_exprs()
    ensures { (x : Origin) (layout : Stands) (most : ℕ) (t : Term) (ts rest : List One)
        → Reads x layout t ts rest → IsTooDeep x layout most ts ↔ (most < levels t) }
{}

/// What an expression is, why there is none, and what a computation comes to agree.
pub fn exprs_run()
    ensures { (x : Origin) (layout : Stands) (most : ℕ) → Agree (Reads x layout) (ExprFaults x layout most) (ExprRun x layout most) most }
{}

/// The same of an atom with what stands behind it, where a command may begin.
pub fn callees_run()
    ensures { (x : Origin) (spaces : ℕ) → Agree (ReadsCallee x spaces) (CalleeFaults x spaces) (CalleeRun x spaces) 64 }
{}
