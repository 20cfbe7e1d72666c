// Expressions, assignments and commands.
ghost use Rattle.std.specs.Prelude.{◌≡◌, suc, ◌<◌, ◌≤◌, ◌^◌, length, Some};
ghost use Rattle.nim_tree.specs.Terms.{term_of, parts_of, part, no_parts};
ghost use Rattle.nim_tree.specs.Statements.{statement_of};
ghost use Rattle.parse_exprs.specs.Input.{from_at, origin_of};
ghost use Rattle.parse_decls.specs.Gives.{Comes};
ghost use Rattle.parse_stmts.specs.Look.{atom_at, assign_named, assign_of, assign_on};
ghost use Rattle.parse_stmts.specs.Run.{run_plain, run_command, run_operands, run_expression, run_assigned, assigned_by};

use crate::marks::past_comma;
use crate::values::read_here;
use arc_base::Stop;
use indent_scanner::Tok;
use nim_tree::{AssignOp, Expr, Stmt};
use parse_decls::{Reading, and_one, read_callee, read_value};
use parse_exprs::{Input, Layout, Lead, begins_atom, goes_on};
use std::alloc::Global;

// ---- what goes on

// Whether an atom begins there.
fn atom_at(input: &Input, at: usize) -> bool
    ensures { result ≡ atom_at (origin_of input.now) (from_at input.now at) }
{
    match input.head(at) {
        Some(token) => begins_atom(token.kind) || input.is_at_sign(token),
        None => false,
    }
}

fn assign_named(spelling: &[u8]) -> Option<AssignOp>
    ensures { result ≡ assign_named spelling.now }
{
    if spelling == b"+=".as_slice() {
        Some(AssignOp::Plus)
    } else if spelling == b"-=".as_slice() {
        Some(AssignOp::Minus)
    } else if spelling == b"*=".as_slice() {
        Some(AssignOp::Times)
    } else if spelling == b"&=".as_slice() {
        Some(AssignOp::Join)
    } else {
        None
    }
}

fn assign_of(kind: Tok, spelling: &[u8]) -> Option<AssignOp>
    ensures { result ≡ assign_of kind spelling.now }
{
    match kind {
        Tok::Op => assign_named(spelling),
        Tok::Punct(b'=') => Some(AssignOp::Set),
        _ => None,
    }
}

// The operator of an assignment that goes on there.
fn assign_on(input: &Input, at: usize, spaces: u32) -> Option<AssignOp>
    ensures { result ≡ assign_on (origin_of input.now) spaces (from_at input.now at) }
{
    let token = input.head(at)?;
    if goes_on(Layout::Lines(spaces), token.indent) {
        assign_of(token.kind, input.spelling(token))
    } else {
        None
    }
}

// The operator of an assignment that goes on behind an expression: only operators are assigned to.
fn assigned_by(lead: Lead, op: Option<AssignOp>) -> Option<AssignOp>
    ensures { result ≡ assigned_by lead op }
{
    match lead {
        Lead::Operand => op,
        Lead::If | Lead::Case => None,
    }
}

// ---- what is read

/// A command, where an operand stands behind what may be called, else an expression or an assignment.
pub(crate) fn read_plain(
    alloc: Global,
    input: &Input,
    at: usize,
    spaces: u32,
) -> Result<Reading<Stmt>, Stop>
    requires few { length input.now.tokens.now < 2 ^ 32 }
    ensures { Comes statement_of (λ k. run_plain k (origin_of input.now) spaces (from_at input.now at)) input.now (suc at) result }
{
    if !atom_at(input, at) {
        return read_expression(alloc, input, at, spaces);
    }
    let callee = read_callee(alloc, input, at, spaces)?;
    if input.operand_on(callee.next, Layout::Lines(spaces)) {
        read_command(alloc, input, callee, spaces)
    } else {
        drop(callee);
        read_expression(alloc, input, at, spaces)
    }
}

// The operands behind the callee of a command.
fn read_command(
    alloc: Global,
    input: &Input,
    callee: Reading<Expr>,
    spaces: u32,
) -> Result<Reading<Stmt>, Stop>
    requires few { length input.now.tokens.now < 2 ^ 32 }
    ensures { Comes statement_of
        (λ k. run_command k (origin_of input.now) spaces (term_of callee.value)
        (from_at input.now callee.next)) input.now (suc callee.next) result }
{
    let first = match read_value(alloc, input, callee.next, Layout::Lines(spaces)) {
        Ok(first) => first,
        Err(stop) => {
            drop(callee);
            return Err(stop);
        }
    };
    let operands = match read_operands(alloc, input, first, spaces) {
        Ok(operands) => operands,
        Err(stop) => {
            drop(callee);
            return Err(stop);
        }
    };
    Ok(Reading {
        value: Stmt::Command {
            at: callee.value.place(),
            callee: callee.value,
            operands: operands.value,
        },
        next: operands.next,
    })
}

// The operands behind the first.
fn read_operands(
    alloc: Global,
    input: &Input,
    first: Reading<Expr>,
    spaces: u32,
) -> Result<Reading<Vec<Expr>>, Stop>
    requires few { length input.now.tokens.now < 2 ^ 32 }
    requires within { first.next ≤ length input.now.tokens.now }
    ensures { Comes (λ operands. parts_of operands.items)
        (λ k. run_operands k (origin_of input.now) spaces (part (term_of first.value) no_parts)
        (from_at input.now first.next)) input.now first.next result }
{
    let mut operands = and_one(Vec::new(alloc), first.value)?;
    let mut next = first.next;
    while let Some(behind) = past_comma(input, next, spaces) {
        let one = read_value(alloc, input, behind, Layout::Lines(spaces))?;
        operands = and_one(operands, one.value)?;
        next = one.next;
    }
    Ok(Reading {
        value: operands,
        next,
    })
}

// An expression, which may be assigned to.
fn read_expression(
    alloc: Global,
    input: &Input,
    at: usize,
    spaces: u32,
) -> Result<Reading<Stmt>, Stop>
    requires few { length input.now.tokens.now < 2 ^ 32 }
    ensures { Comes statement_of (λ k. run_expression k (origin_of input.now) spaces (from_at input.now at)) input.now (suc at) result }
{
    let target = read_value(alloc, input, at, Layout::Lines(spaces))?;
    let op = assigned_by(input.lead_at(at), assign_on(input, target.next, spaces));
    match op {
        Some(op) => read_assigned(alloc, input, target, op, spaces),
        None => Ok(Reading {
            value: Stmt::Eval {
                at: target.value.place(),
                value: target.value,
            },
            next: target.next,
        }),
    }
}

// What is assigned.
fn read_assigned(
    alloc: Global,
    input: &Input,
    target: Reading<Expr>,
    op: AssignOp,
    spaces: u32,
) -> Result<Reading<Stmt>, Stop>
    requires few { length input.now.tokens.now < 2 ^ 32 }
    requires within { target.next < length input.now.tokens.now }
    ensures { Comes statement_of
        (λ k. run_assigned k (Some op) (origin_of input.now) spaces (term_of target.value)
        (from_at input.now target.next)) input.now (suc target.next) result }
{
    let value = match read_here(alloc, input, target.next + 1, spaces) {
        Ok(value) => value,
        Err(stop) => {
            drop(target);
            return Err(stop);
        }
    };
    Ok(Reading {
        value: Stmt::Assign {
            at: target.value.place(),
            op,
            target: target.value,
            value: value.value,
        },
        next: value.next,
    })
}
