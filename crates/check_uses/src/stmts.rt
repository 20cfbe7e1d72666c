// What occurs in statements, in order of text.
ghost use Rattle.std.specs.Prelude.{◌≡◌, ◌||◌, ◌++◌, [], None, take, drop, OnOk, option_map};
ghost use Rattle.nim_program.specs.Program.{Stmts, Empty};
ghost use Rattle.nim_program.specs.View.{expr_of, stmt_before, stmts_of, handlers_of};
ghost use Rattle.decl_rules.specs.Occurrences.{in_block, in_handlers};
ghost use Rattle.decl_rules.specs.Whole.{declares_any};
ghost use Rattle.check_uses.specs.Uses.{seen, in_other, in_first, in_branches, in_arms};

use crate::exprs::{add_expr, add_operand, add_operands};
use crate::uses::Occurrence;
use arc_base::{Items, Memory};
use nim_program::{Branch, CaseBranch, Expr, Handler, Stmt};

fn add_value(uses: &mut Items<Occurrence>, value: &Option<Expr>) -> Result<(), Memory>
    ensures { OnOk result (seen uses.new
        ≡ seen uses.old ++ in_other (option_map (expr_of []) value.now)) }
{
    match value {
        None => Ok(()),
        Some(value) => add_expr(uses, value),
    }
}

/// Adds what occurs in a statement.
#[cycle(stmts)]
pub fn add_stmt(uses: &mut Items<Occurrence>, stmt: &Stmt) -> Result<(), Memory>
    ensures { OnOk result (seen uses.new
        ≡ seen uses.old ++ in_first (stmt_before [] stmt.now Empty)) }
{
    match stmt {
        Stmt::Do { value } | Stmt::Give { value, .. } => add_expr(uses, value),
        Stmt::Idle { parts, .. } | Stmt::Leave { parts, .. } => add_operands(uses, None, parts),
        Stmt::Declare { value, .. } => add_value(uses, value),
        Stmt::Raise { message, .. } => add_value(uses, message),
        Stmt::If {
            branches,
            otherwise,
            ..
        } => {
            add_branches(uses, branches)?;
            add_block(uses, otherwise)
        }
        Stmt::Case {
            selector,
            branches,
            otherwise,
            ..
        } => {
            add_operand(uses, None, selector)?;
            add_arms(uses, branches)?;
            add_block(uses, otherwise)
        }
        Stmt::Loop { head, body, .. } => {
            add_operands(uses, None, head)?;
            add_block(uses, body)
        }
        Stmt::Try {
            body,
            handlers,
            last,
            ..
        } => {
            add_block(uses, body)?;
            add_handlers(uses, handlers)?;
            add_block(uses, last)
        }
        Stmt::Defer { last, .. } => add_block(uses, last),
    }
}

/// Adds what occurs in a block.
#[cycle(stmts)]
pub fn add_block(uses: &mut Items<Occurrence>, block: &Vec<Stmt>) -> Result<(), Memory>
    ensures { OnOk result (seen uses.new
        ≡ seen uses.old ++ in_block (stmts_of [] block.now.items)) }
{
    for stmt in block {
        add_stmt(uses, stmt)?;
    }
    Ok(())
}

#[cycle(stmts)]
fn add_branches(uses: &mut Items<Occurrence>, branches: &Vec<Branch>) -> Result<(), Memory>
    ensures { OnOk result (seen uses.new ≡ seen uses.old ++ in_branches branches.now.items) }
{
    for branch in branches {
        add_expr(uses, &branch.condition)?;
        add_block(uses, &branch.body)?;
    }
    Ok(())
}

#[cycle(stmts)]
fn add_arms(uses: &mut Items<Occurrence>, arms: &Vec<CaseBranch>) -> Result<(), Memory>
    ensures { OnOk result (seen uses.new ≡ seen uses.old ++ in_arms arms.now.items) }
{
    for arm in arms {
        add_block(uses, &arm.body)?;
    }
    Ok(())
}

#[cycle(stmts)]
fn add_handlers(uses: &mut Items<Occurrence>, handlers: &Vec<Handler>) -> Result<(), Memory>
    ensures { OnOk result (seen uses.new
        ≡ seen uses.old ++ in_handlers (handlers_of [] handlers.now.items)) }
{
    for handler in handlers {
        add_block(uses, &handler.body)?;
    }
    Ok(())
}

// ---- parts of the start code

fn behind(stmts: &[Stmt], first: usize) -> &[Stmt]
    ensures { result.now ≡ drop first stmts.now }
{
    if first < stmts.len() {
        &stmts[first..]
    } else {
        &[]
    }
}

/// So many statements, from a number on.
pub fn part(stmts: &[Stmt], first: usize, count: usize) -> &[Stmt]
    ensures { result.now ≡ take count (drop first stmts.now) }
{
    let rest = behind(stmts, first);
    if count < rest.len() {
        &rest[..count]
    } else {
        rest
    }
}

/// Adds what occurs in statements.
pub fn add_part(uses: &mut Items<Occurrence>, stmts: &[Stmt]) -> Result<(), Memory>
    ensures { OnOk result (seen uses.new ≡ seen uses.old ++ in_block (stmts_of [] stmts.now)) }
{
    for stmt in stmts {
        add_stmt(uses, stmt)?;
    }
    Ok(())
}

fn declares(stmt: &Stmt) -> bool
    ensures { (rest : Stmts) → declares_any (stmt_before [] stmt.now rest)
        ≡ (result || declares_any rest) }
{
    match stmt {
        Stmt::Declare { .. } => true,
        Stmt::Do { .. }
        | Stmt::Idle { .. }
        | Stmt::Give { .. }
        | Stmt::Leave { .. }
        | Stmt::If { .. }
        | Stmt::Case { .. }
        | Stmt::Loop { .. }
        | Stmt::Raise { .. }
        | Stmt::Try { .. }
        | Stmt::Defer { .. } => false,
    }
}

/// Whether statements of the start code declare a global.
pub fn declares_any(stmts: &[Stmt]) -> bool
    ensures { result ≡ declares_any (stmts_of [] stmts.now) }
{
    for stmt in stmts {
        if declares(stmt) {
            return true;
        }
    }
    false
}
