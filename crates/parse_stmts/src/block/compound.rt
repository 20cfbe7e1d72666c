// Loops, `try`, `defer`, `proc` and sections.
ghost use Rattle.std.specs.Prelude.{◌≡◌, ℕ, suc, ◌<◌, ◌≤◌, ◌^◌, ◌||◌, length, IfOk};
ghost use Rattle.nim_tree.specs.Statements.{no_handlers, statement_of, statements_of, handlers_of};
ghost use Rattle.parse_exprs.specs.Input.{from_at, origin_of};
ghost use Rattle.parse_decls.specs.Gives.{Comes};
ghost use Rattle.parse_stmts.specs.declared.look.Lead.TheVariants as L;
ghost use Rattle.parse_stmts.specs.Run.{run_compound, run_try, run_handler, run_handlers, run_finally, run_proc, binding_of, are_some, have_some, hold_some};
ghost use Rattle.parse_stmts.specs.Blocks.{block_of, caught_of};

use crate::block::statements::{read_block, read_body};
use crate::heads::{read_binding, read_course, read_types_of};
use crate::marks::{Word, branch_on, past_equals, past_word};
use crate::values::read_here;
use arc_base::{Place, Stop};
use indent_scanner::{Key, Tok, Token};
use nim_tree::{Binding, Handler, Name, Stmt};
use parse_decls::{
    Reading, and_one, definition_block, procedure_head, read_name, stuck, type_declarations,
};
use parse_exprs::{Input, Layout};
use std::alloc::Global;

// ---- loops

/// `while`, its condition and its block.
#[cycle(statements)]
pub(crate) fn read_while(
    alloc: Global,
    input: &Input,
    at: usize,
    token: Token,
    spaces: u32,
    left: u32,
) -> Result<Reading<Stmt>, Stop>
    requires few { length input.now.tokens.now < 2 ^ 32 }
    requires within { at < length input.now.tokens.now }
    ensures { Comes statement_of (λ k. run_compound k L.While (origin_of input.now) spaces left token (from_at input.now (suc at))) input.now (suc at) result }
{
    let condition = read_here(alloc, input, at + 1, spaces)?;
    let block = match read_body(alloc, input, condition.next, spaces, left) {
        Ok(block) => block,
        Err(stop) => {
            drop(condition);
            return Err(stop);
        }
    };
    Ok(Reading {
        value: Stmt::While {
            at: input.place_at(token),
            condition: condition.value,
            body: block.value,
        },
        next: block.next,
    })
}

/// `for`, its variable, what it goes over, and its block.
#[cycle(statements)]
pub(crate) fn read_for(
    alloc: Global,
    input: &Input,
    at: usize,
    token: Token,
    spaces: u32,
    left: u32,
) -> Result<Reading<Stmt>, Stop>
    requires few { length input.now.tokens.now < 2 ^ 32 }
    requires within { at < length input.now.tokens.now }
    ensures { Comes statement_of (λ k. run_compound k L.For (origin_of input.now) spaces left token (from_at input.now (suc at))) input.now (suc at) result }
{
    let variable = read_name(alloc, input, at + 1, Layout::Lines(spaces))?;
    let Some(behind) = past_word(input, variable.next, spaces, Word::In) else {
        return Err(stuck(input, variable.next));
    };
    let over = read_course(alloc, input, behind, spaces)?;
    let block = match read_body(alloc, input, over.next, spaces, left) {
        Ok(block) => block,
        Err(stop) => {
            drop(over);
            return Err(stop);
        }
    };
    Ok(Reading {
        value: Stmt::For {
            at: input.place_at(token),
            variable: variable.value,
            over: over.value,
            body: block.value,
        },
        next: block.next,
    })
}

// ---- `try` and `defer`

/// `try`, its handlers, and `finally`.
#[cycle(statements)]
pub(crate) fn read_try(
    alloc: Global,
    input: &Input,
    at: usize,
    token: Token,
    spaces: u32,
    left: u32,
) -> Result<Reading<Stmt>, Stop>
    requires few { length input.now.tokens.now < 2 ^ 32 }
    requires within { at < length input.now.tokens.now }
    ensures { Comes statement_of (λ k. run_try k (origin_of input.now) spaces left token (from_at input.now (suc at))) input.now (suc at) result }
{
    let block = read_body(alloc, input, at + 1, spaces, left)?;
    let all = read_handlers(alloc, input, block.next, spaces, left)?;
    let last = read_finally(alloc, input, all.next, spaces, left)?;
    if !have_some(&all.value, &last.value) {
        return Err(stuck(input, last.next));
    }
    Ok(Reading {
        value: Stmt::Try {
            at: input.place_at(token),
            body: block.value,
            handlers: all.value,
            finally: last.value,
        },
        next: last.next,
    })
}

fn hold_some(body: &[Stmt]) -> bool
    ensures { result ≡ hold_some (statements_of body.now) }
{
    match body {
        [] => false,
        _ => true,
    }
}

// Whether a `try` has a handler or a `finally`.
fn have_some(all: &[Handler], last: &[Stmt]) -> bool
    ensures { result ≡ (have_some (handlers_of all.now) || hold_some (statements_of last.now)) }
{
    match all {
        [] => hold_some(last),
        _ => true,
    }
}

// Exception types, a name for the exception, a colon and a block.
#[cycle(statements)]
fn read_handler(
    alloc: Global,
    input: &Input,
    place: Place,
    at: usize,
    spaces: u32,
    left: u32,
) -> Result<Reading<Handler>, Stop>
    requires few { length input.now.tokens.now < 2 ^ 32 }
    requires within { at ≤ length input.now.tokens.now }
    ensures runs { Comes caught_of (λ k. run_handler k (origin_of input.now) spaces left (from_at input.now at)) input.now at result }
    ensures stands { IfOk result (λ one. one.value.at ≡ place) }
{
    let types = read_types_of(alloc, input, at, spaces)?;
    let binding = read_binding(alloc, input, types.next, are_some(&types.value), spaces)?;
    let block = read_body(alloc, input, binding.next, spaces, left)?;
    Ok(Reading {
        value: Handler {
            at: place,
            types: types.value,
            binding: binding.value,
            body: block.value,
        },
        next: block.next,
    })
}

// The handlers, of which one without exception types is the last.
#[cycle(statements)]
fn read_handlers(
    alloc: Global,
    input: &Input,
    at: usize,
    spaces: u32,
    left: u32,
) -> Result<Reading<Vec<Handler>>, Stop>
    requires few { length input.now.tokens.now < 2 ^ 32 }
    requires within { at ≤ length input.now.tokens.now }
    ensures { Comes (λ all. handlers_of all.items)
        (λ k. run_handlers k (origin_of input.now) spaces left no_handlers (from_at input.now at)) input.now
        at result }
{
    let mut all = Vec::new(alloc);
    let mut next = at;
    while let Some(place) = branch_on(input, next, spaces, Word::Except) {
        let one = read_handler(alloc, input, place, next + 1, spaces, left)?;
        let goes_on = are_some(&one.value.types);
        all = and_one(all, one.value)?;
        next = one.next;
        if !goes_on {
            return Ok(Reading { value: all, next });
        }
    }
    Ok(Reading { value: all, next })
}

fn are_some(names: &[Name]) -> bool
    ensures { result ≡ are_some names.now }
{
    match names {
        [] => false,
        _ => true,
    }
}

// `finally`, a colon and a block, where there is one.
#[cycle(statements)]
fn read_finally(
    alloc: Global,
    input: &Input,
    at: usize,
    spaces: u32,
    left: u32,
) -> Result<Reading<Vec<Stmt>>, Stop>
    requires few { length input.now.tokens.now < 2 ^ 32 }
    requires within { at ≤ length input.now.tokens.now }
    ensures { Comes block_of (λ k. run_finally k (origin_of input.now) spaces left (from_at input.now at)) input.now at result }
{
    match branch_on(input, at, spaces, Word::Finally) {
        Some(_) => read_body(alloc, input, at + 1, spaces, left),
        None => Ok(Reading {
            value: Vec::new(alloc),
            next: at,
        }),
    }
}

/// `defer` and its block.
#[cycle(statements)]
pub(crate) fn read_defer(
    alloc: Global,
    input: &Input,
    at: usize,
    token: Token,
    spaces: u32,
    left: u32,
) -> Result<Reading<Stmt>, Stop>
    requires few { length input.now.tokens.now < 2 ^ 32 }
    requires within { at < length input.now.tokens.now }
    ensures { Comes statement_of (λ k. run_compound k L.Defer (origin_of input.now) spaces left token (from_at input.now (suc at))) input.now (suc at) result }
{
    let block = read_body(alloc, input, at + 1, spaces, left)?;
    Ok(Reading {
        value: Stmt::Defer {
            at: input.place_at(token),
            body: block.value,
        },
        next: block.next,
    })
}

// ---- declarations

/// `proc`, and its block where it has one.
#[cycle(statements)]
pub(crate) fn read_proc(
    alloc: Global,
    input: &Input,
    at: usize,
    token: Token,
    spaces: u32,
    left: u32,
) -> Result<Reading<Stmt>, Stop>
    requires few { length input.now.tokens.now < 2 ^ 32 }
    requires within { at < length input.now.tokens.now }
    ensures { Comes statement_of (λ k. run_proc k (origin_of input.now) spaces left token (from_at input.now (suc at))) input.now (suc at) result }
{
    let head = procedure_head(alloc, input, at + 1, spaces)?;
    let place = input.place_at(token);
    let Some(behind) = past_equals(input, head.next, spaces) else {
        return Ok(Reading {
            value: Stmt::Proc {
                at: place,
                head: head.value,
                body: Vec::new(alloc),
            },
            next: head.next,
        });
    };
    let block = match read_block(alloc, input, behind, spaces, left) {
        Ok(block) => block,
        Err(stop) => {
            drop(head);
            return Err(stop);
        }
    };
    Ok(Reading {
        value: Stmt::Proc {
            at: place,
            head: head.value,
            body: block.value,
        },
        next: block.next,
    })
}

/// `type`, and the declarations behind it.
pub(crate) fn read_types_section(
    alloc: Global,
    input: &Input,
    at: usize,
    token: Token,
    spaces: u32,
) -> Result<Reading<Stmt>, Stop>
    requires few { length input.now.tokens.now < 2 ^ 32 }
    requires within { at < length input.now.tokens.now }
    ensures { (left : ℕ)
        → Comes statement_of
        (λ k. run_compound k L.Type (origin_of input.now) spaces left token (from_at input.now (suc at)))
        input.now (suc at) result }
{
    let all = type_declarations(alloc, input, at + 1, spaces)?;
    Ok(Reading {
        value: Stmt::Types {
            at: input.place_at(token),
            defs: all.value,
        },
        next: all.next,
    })
}

fn binding_of(kind: Tok) -> Binding
    ensures { result ≡ binding_of kind }
{
    match kind {
        Tok::Key(Key::Let) => Binding::Let,
        Tok::Key(Key::Var) => Binding::Var,
        _ => Binding::Const,
    }
}

/// `let`, `var` or `const`, and a block of definitions.
pub(crate) fn read_section(
    alloc: Global,
    input: &Input,
    at: usize,
    token: Token,
    spaces: u32,
) -> Result<Reading<Stmt>, Stop>
    requires few { length input.now.tokens.now < 2 ^ 32 }
    requires within { at < length input.now.tokens.now }
    ensures { (left : ℕ)
        → Comes statement_of
        (λ k. run_compound k L.Section (origin_of input.now) spaces left token (from_at input.now (suc at)))
        input.now (suc at) result }
{
    let all = definition_block(alloc, input, at + 1, spaces)?;
    Ok(Reading {
        value: Stmt::Define {
            at: input.place_at(token),
            binding: binding_of(token.kind),
            defs: all.value,
        },
        next: all.next,
    })
}
