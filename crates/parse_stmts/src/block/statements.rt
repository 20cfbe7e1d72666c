// Statements, one after another.
ghost use Rattle.std.specs.Prelude.{◌≡◌, ◌∷◌, suc, ◌<◌, ◌≤◌, ◌^◌, length};
ghost use Rattle.nim_tree.specs.Statements.{empty, statement_of, statements_of};
ghost use Rattle.parse_exprs.specs.Input.{from_at, origin_of};
ghost use Rattle.parse_decls.specs.Gives.{Comes, Fails};
ghost use Rattle.parse_stmts.specs.Look.{opens_block};
ghost use Rattle.parse_stmts.specs.Run.{run_statements, run_statement, choice_run, run_compound, run_body, run_block};
ghost use Rattle.parse_stmts.specs.Blocks.{block_of};

use crate::alone::{as_statement, read_alone};
use crate::block::branches::{read_case, read_if};
use crate::block::compound::{
    read_defer, read_for, read_proc, read_section, read_try, read_types_section, read_while,
};
use crate::line::read_line;
use crate::lines::{ends_at, on_line_at};
use crate::look::{Lead, lead_at, line_at, statement_at};
use crate::marks::past_colon;
use arc_base::Stop;
use indent_scanner::Token;
use nim_tree::Stmt;
use parse_decls::{Reading, and_one, deeper_at, level_at, stands_at, stuck, too_deep};
use parse_exprs::Input;
use std::alloc::Global;

/// Statements, each first on its line behind so many spaces.
#[cycle(statements)]
pub(crate) fn read_statements(
    alloc: Global,
    input: &Input,
    at: usize,
    spaces: u32,
    left: u32,
) -> Result<Reading<Vec<Stmt>>, Stop>
    requires few { length input.now.tokens.now < 2 ^ 32 }
    requires within { at ≤ length input.now.tokens.now }
    ensures { Comes (λ all. statements_of all.items)
        (λ k. run_statements k (origin_of input.now) spaces left empty (from_at input.now at)) input.now
        at result }
{
    let mut all = Vec::new(alloc);
    let mut next = at;
    while stands_at(input, next, spaces) {
        let more = read_statement(alloc, input, all, next, spaces, left)?;
        all = more.value;
        next = more.next;
    }
    if ends_at(input, next, spaces) {
        Ok(Reading { value: all, next })
    } else {
        Err(stuck(input, next))
    }
}

// A statement, or a line of them, behind some others.
#[cycle(statements)]
fn read_statement(
    alloc: Global,
    input: &Input,
    some: Vec<Stmt>,
    at: usize,
    spaces: u32,
    left: u32,
) -> Result<Reading<Vec<Stmt>>, Stop>
    requires few { length input.now.tokens.now < 2 ^ 32 }
    ensures { Comes (λ all. statements_of all.items)
        (λ k. run_statement k (origin_of input.now) spaces left (statements_of some.items)
        (from_at input.now at)) input.now (suc at) result }
{
    let Some(token) = input.head(at) else {
        return Err(stuck(input, at));
    };
    let lead = lead_at(input, at, token, spaces);
    match lead {
        Lead::Line => read_line(alloc, input, some, at, spaces),
        Lead::If | Lead::Case => read_choice(alloc, input, some, lead, at, token, spaces, left),
        _ => {
            let one = read_compound(alloc, input, lead, at, token, spaces, left)?;
            Ok(Reading {
                value: and_one(some, one.value)?,
                next: one.next,
            })
        }
    }
}

// `if` or `case`, behind some other statements: an expression where it is one that is alone on its line, else with blocks.
#[cycle(statements)]
fn read_choice(
    alloc: Global,
    input: &Input,
    some: Vec<Stmt>,
    lead: Lead,
    at: usize,
    token: Token,
    spaces: u32,
    left: u32,
) -> Result<Reading<Vec<Stmt>>, Stop>
    requires few { length input.now.tokens.now < 2 ^ 32 }
    requires head { from_at input.now at ≡ token ∷ from_at input.now (suc at) }
    requires within { at < length input.now.tokens.now }
    ensures { Comes (λ all. statements_of all.items)
        (choice_run lead (origin_of input.now) spaces left (statements_of some.items) token
        (from_at input.now at) (from_at input.now (suc at))) input.now (suc at) result }
{
    let Reading { value: alone, next } = read_alone(alloc, input, at, spaces)?;
    match alone {
        Some(value) => Ok(Reading {
            value: and_one(some, as_statement(value))?,
            next,
        }),
        None => {
            let one = read_compound(alloc, input, lead, at, token, spaces, left)?;
            Ok(Reading {
                value: and_one(some, one.value)?,
                next: one.next,
            })
        }
    }
}

// A statement that isn't a line, at its first token.
#[cycle(statements)]
fn read_compound(
    alloc: Global,
    input: &Input,
    lead: Lead,
    at: usize,
    token: Token,
    spaces: u32,
    left: u32,
) -> Result<Reading<Stmt>, Stop>
    requires few { length input.now.tokens.now < 2 ^ 32 }
    requires head { from_at input.now at ≡ token ∷ from_at input.now (suc at) }
    requires within { at < length input.now.tokens.now }
    ensures { Comes statement_of (λ k. run_compound k lead (origin_of input.now) spaces left token (from_at input.now (suc at))) input.now (suc at) result }
{
    match lead {
        Lead::Line => Err(stuck(input, at)),
        Lead::If => read_if(alloc, input, at, token, spaces, left),
        Lead::Case => read_case(alloc, input, at, token, spaces, left),
        Lead::While => read_while(alloc, input, at, token, spaces, left),
        Lead::For => read_for(alloc, input, at, token, spaces, left),
        Lead::Try => read_try(alloc, input, at, token, spaces, left),
        Lead::Defer => read_defer(alloc, input, at, token, spaces, left),
        Lead::Proc => read_proc(alloc, input, at, token, spaces, left),
        Lead::Type => read_types_section(alloc, input, at, token, spaces),
        Lead::Section => read_section(alloc, input, at, token, spaces),
    }
}

/// A colon and a block.
#[cycle(statements)]
pub(crate) fn read_body(
    alloc: Global,
    input: &Input,
    at: usize,
    spaces: u32,
    left: u32,
) -> Result<Reading<Vec<Stmt>>, Stop>
    requires few { length input.now.tokens.now < 2 ^ 32 }
    ensures { Comes block_of (λ k. run_body k (origin_of input.now) spaces left (from_at input.now at)) input.now (suc at) result }
{
    match past_colon(input, at, spaces) {
        Some(behind) => read_block(alloc, input, behind, spaces, left),
        None => Err(stuck(input, at)),
    }
}

// Whether a block begins there, in a statement behind so many spaces.
fn opens_block(input: &Input, at: usize, spaces: u32) -> bool
    ensures { result ≡ opens_block (origin_of input.now) spaces (from_at input.now at) }
{
    (on_line_at(input, at) && line_at(input, at))
        || (deeper_at(input, at, spaces) && statement_at(input, at))
}

// The refusal of a block that begins there, where no level is left.
fn no_level(input: &Input, at: usize, spaces: u32) -> Stop
    ensures { Fails (λ k. run_block k (origin_of input.now) spaces 0 (from_at input.now at)) (origin_of input.now) result }
{
    if at >= input.tokens.len() {
        return stuck(input, at);
    }
    if opens_block(input, at, spaces) {
        too_deep(input, at)
    } else {
        stuck(input, at)
    }
}

/// A block: a line, or statements behind more spaces.
#[cycle(statements)]
pub(crate) fn read_block(
    alloc: Global,
    input: &Input,
    at: usize,
    spaces: u32,
    left: u32,
) -> Result<Reading<Vec<Stmt>>, Stop>
    requires few { length input.now.tokens.now < 2 ^ 32 }
    requires within { at ≤ length input.now.tokens.now }
    ensures { Comes block_of (λ k. run_block k (origin_of input.now) spaces left (from_at input.now at)) input.now at result }
{
    if left == 0 {
        return Err(no_level(input, at, spaces));
    }
    if on_line_at(input, at) {
        return read_line(alloc, input, Vec::new(alloc), at, spaces);
    }
    if !deeper_at(input, at, spaces) {
        return Err(stuck(input, at));
    }
    read_statements(alloc, input, at, level_at(input, at), left - 1)
}
