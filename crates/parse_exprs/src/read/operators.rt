// Operators, and what stands behind an atom.
ghost use Rattle.std.specs.Prelude.{◌≡◌, ◌≤◌, ◌<◌, ◌-◌, ◌∷◌, length, suc, true, Some, None};
ghost use Rattle.nim_tree.specs.Terms.{term_of, levels};
ghost use Rattle.parse_exprs.specs.declared.layout.Layout.{Layout};
ghost use Rattle.parse_exprs.specs.Look.{op_at, op_levels, past_start, suffix_at, bracket_at, operand_at, sign_of, spelling};
ghost use Rattle.parse_exprs.specs.Run.{run_expr, run_level, run_chain, run_unary, run_signed, run_primary, run_suffixes, run_applied};
ghost use Rattle.parse_exprs.specs.Input.{origin_of, from_at};
ghost use Rattle.parse_exprs.specs.Gives.{Comes, Goes, Fails};

use crate::input::{Bracket, Input, Lead};
use crate::kinds::{at_start, past_start};
use crate::layout::Layout;
use crate::make::{Reading, Stuck, make_applied, make_binary, make_field, make_unary};
use crate::read::atoms::read_atom;
use crate::read::branches::{read_case, read_if};
use crate::read::parts::read_enclosed;
use indent_scanner::Token;
use nim_tree::{BinaryOp, UnaryOp};
use std::alloc::Global;

// The levels of the binary operators.
const LEVELS: u32 = 6;

/// The longest expression.
#[cycle(exprs)]
pub(crate) fn read_expr(
    alloc: Global,
    input: &Input,
    at: usize,
    layout: Layout,
    left: u32,
) -> Result<Reading, Stuck>
    ensures { Comes (λ k. run_expr k (origin_of input.now) layout left (from_at input.now at)) input.now left (suc at) result }
{
    match input.lead_at(at) {
        Lead::If => read_if(alloc, input, at, layout, left),
        Lead::Case => read_case(alloc, input, at, layout, left),
        Lead::Operand => read_level(alloc, input, at, layout, LEVELS, left),
    }
}

// The longest tree whose loosest operators are those below a level.
#[cycle(exprs)]
fn read_level(
    alloc: Global,
    input: &Input,
    at: usize,
    layout: Layout,
    level: u32,
    left: u32,
) -> Result<Reading, Stuck>
    requires { level ≤ op_levels }
    ensures { Comes (λ k. run_level k (origin_of input.now) layout level left (from_at input.now at)) input.now left (suc at) result }
{
    if level == 0 {
        return read_unary(alloc, input, at, layout, left);
    }
    let tighter = level - 1;
    let mut a = read_level(alloc, input, at, layout, tighter, left)?;
    let rest = past_start(layout);
    while let Some(op) = input.op_at(a.next, rest, tighter) {
        a = read_more(alloc, input, a, op, rest, tighter, left)?;
    }
    Ok(a)
}

// One more operator and its operand.
#[cycle(exprs)]
fn read_more(
    alloc: Global,
    input: &Input,
    a: Reading,
    op: BinaryOp,
    layout: Layout,
    tighter: u32,
    left: u32,
) -> Result<Reading, Stuck>
    requires levels { tighter < op_levels }
    requires operator { op_at (origin_of input.now) layout tighter (from_at input.now a.next) ≡ Some op }
    requires depth { a.depth ≡ levels (term_of a.tree) }
    ensures { Goes (λ t ts k. run_chain k (origin_of input.now) layout tighter left t ts) input.now left (term_of a.tree) a.next result }
{
    let Reading { tree, next, depth } = a;
    if depth >= left {
        drop(tree);
        return Err(Stuck::Deep);
    }
    let first = Box::new(alloc, tree)?;
    let b = read_level(alloc, input, next + 1, layout, tighter, left - 1)?;
    let deeper = depth.max(b.depth);
    let all = make_binary(alloc, op, first, b.tree)?;
    Ok(Reading {
        tree: all,
        next: b.next,
        depth: deeper + 1,
    })
}

// Why nothing is read where no level is left.
fn no_level(input: &Input, at: usize) -> Stuck
    ensures { (i : Layout) → Fails (λ k. run_unary k (origin_of input.now) i 0 (from_at input.now at)) input.now result }
{
    if input.operand_at(at) {
        Stuck::Deep
    } else {
        Stuck::Syntax(at)
    }
}

#[cycle(exprs)]
fn read_unary(
    alloc: Global,
    input: &Input,
    at: usize,
    layout: Layout,
    left: u32,
) -> Result<Reading, Stuck>
    ensures { Comes (λ k. run_unary k (origin_of input.now) layout left (from_at input.now at)) input.now left (suc at) result }
{
    if left == 0 {
        return Err(no_level(input, at));
    }
    let Some(token) = input.head(at) else {
        return Err(Stuck::Syntax(at));
    };
    match input.sign_of(token) {
        Some(op) => read_signed(alloc, input, at, token, op, layout, left),
        None => read_unsigned(alloc, input, at, token, layout, left),
    }
}

// An atom and what stands behind it, where it begins no command.
#[cycle(exprs)]
fn read_unsigned(
    alloc: Global,
    input: &Input,
    at: usize,
    token: Token,
    layout: Layout,
    left: u32,
) -> Result<Reading, Stuck>
    requires some { 0 < left }
    requires head { from_at input.now at ≡ token ∷ from_at input.now (suc at) }
    ensures { Comes (λ k. run_signed k None (origin_of input.now) layout (left - 1) token (from_at input.now (suc at))) input.now left (suc at) result }
{
    let a = read_primary(alloc, input, at, layout, at_start(layout), left)?;
    if input.no_command_on(a.next, layout) {
        Ok(a)
    } else {
        let next = a.next;
        drop(a);
        Err(Stuck::Syntax(next))
    }
}

// An operator before its operand.
#[cycle(exprs)]
fn read_signed(
    alloc: Global,
    input: &Input,
    at: usize,
    token: Token,
    op: UnaryOp,
    layout: Layout,
    left: u32,
) -> Result<Reading, Stuck>
    requires some { 0 < left }
    requires within { at < length input.now.tokens.now }
    ensures { Comes (λ k. run_signed k (Some op) (origin_of input.now) layout (left - 1) token (from_at input.now (suc at))) input.now left (suc at) result }
{
    if !input.stays(at + 1, layout) {
        return Err(Stuck::Syntax(at + 1));
    }
    let a = read_unary(alloc, input, at + 1, past_start(layout), left - 1)?;
    let all = make_unary(alloc, input.place_at(token), op, a.tree)?;
    Ok(Reading {
        tree: all,
        next: a.next,
        depth: a.depth + 1,
    })
}

/// An atom and what stands behind it, where a command may begin or not.
#[cycle(exprs)]
pub(crate) fn read_primary(
    alloc: Global,
    input: &Input,
    at: usize,
    layout: Layout,
    command: bool,
    left: u32,
) -> Result<Reading, Stuck>
    requires some { 0 < left }
    ensures { Comes (λ k. run_primary k (origin_of input.now) layout command left (from_at input.now at)) input.now left (suc at) result }
{
    let mut a = read_atom(alloc, input, at, layout, left)?;
    while input.suffix_at(a.next, layout, command) {
        a = read_suffix(alloc, input, a, layout, command, left)?;
    }
    Ok(a)
}

// One more bracket or field.
#[cycle(exprs)]
fn read_suffix(
    alloc: Global,
    input: &Input,
    a: Reading,
    layout: Layout,
    command: bool,
    left: u32,
) -> Result<Reading, Stuck>
    requires suffix { suffix_at layout command (from_at input.now a.next) ≡ true }
    requires within { a.next < length input.now.tokens.now }
    requires depth { a.depth ≡ levels (term_of a.tree) }
    ensures { Goes (λ t ts k. run_suffixes k (origin_of input.now) layout command left t ts) input.now left (term_of a.tree) a.next result }
{
    if a.depth >= left {
        drop(a);
        return Err(Stuck::Deep);
    }
    match input.bracket_at(a.next) {
        Some(bracket) => read_applied(alloc, input, a, bracket, layout, left),
        None => read_field(alloc, input, a, layout, left),
    }
}

// `.` and a name.
fn read_field(
    alloc: Global,
    input: &Input,
    a: Reading,
    layout: Layout,
    left: u32,
) -> Result<Reading, Stuck>
    requires within { a.next < length input.now.tokens.now }
    requires depth { a.depth ≡ levels (term_of a.tree) }
    requires few { a.depth < left }
    ensures { Comes (λ k. run_applied k None (origin_of input.now) layout (left - 1) (term_of a.tree)
        (from_at input.now a.next)) input.now left (suc a.next) result }
{
    let next = a.next + 1;
    let Some(token) = input.name_on(next, layout) else {
        drop(a);
        return Err(Stuck::Syntax(next));
    };
    let tree = make_field(alloc, a.tree, input.spelling(token))?;
    Ok(Reading {
        tree,
        next: a.next + 2,
        depth: a.depth + 1,
    })
}

// Brackets behind an expression.
#[cycle(exprs)]
fn read_applied(
    alloc: Global,
    input: &Input,
    a: Reading,
    bracket: Bracket,
    layout: Layout,
    left: u32,
) -> Result<Reading, Stuck>
    requires within { a.next < length input.now.tokens.now }
    requires bracket { bracket_at (from_at input.now a.next) ≡ Some bracket }
    requires depth { a.depth ≡ levels (term_of a.tree) }
    requires few { a.depth < left }
    ensures { Comes (λ k. run_applied k (Some bracket) (origin_of input.now) layout (left - 1)
        (term_of a.tree) (from_at input.now a.next)) input.now left (suc a.next) result }
{
    let Reading { tree, next, depth } = a;
    let names = input.names_behind(&tree, bracket, next + 1);
    let base = Box::new(alloc, tree)?;
    let parts = read_enclosed(alloc, input, next, bracket, names, left - 1)?;
    let deeper = depth.max(parts.depth);
    match make_applied(bracket, names, base, parts.parts) {
        Some(tree) => Ok(Reading {
            tree,
            next: parts.next,
            depth: deeper + 1,
        }),
        None => Err(Stuck::Syntax(next + 1)),
    }
}
