// The texts of statements, of procedures and of a program, in the same way.
ghost use Rattle.std.specs.Prelude.{◌≡◌, ℕ, List, map, option_map, IfOk};
ghost use Rattle.nim_types.specs.Types.{Ty};
ghost use Rattle.nim_types.specs.Table.{types_in, facts_in};
ghost use Rattle.nim_program.specs.declared.text_sizes.TheConstants.{MOST_DATA};
ghost use Rattle.nim_program.specs.Folds.{capped, totals, together, in_turn, each, each_block};
ghost use Rattle.nim_program.specs.Folds.{total_of, total_of_handlers, if_body, in_procs};
ghost use Rattle.nim_program.specs.Program.{NoArg, Stmts};
ghost use Rattle.nim_program.specs.View.{operand_before, if_value, stmt_before, stmts_of};
ghost use Rattle.nim_program.specs.View.{branch_conditions, branch_blocks, case_blocks};
ghost use Rattle.nim_program.specs.View.{handlers_of, body_of, proc_of, program_under};
ghost use Rattle.program_limits.specs.Data.{constants_counted};
ghost use Rattle.program_limits.specs.Meeting.{Met, Found, Before, before, own_before, body_before};

use crate::label_texts::of_branch_labels;
use crate::texts::{Texts, all_size, no_texts, of_expr, of_operand, of_operands, of_path};
use arc_base::Memory;
use nim_program::{Body, Branch, CaseBranch, Expr, Handler, Operand, Proc, Program, Stmt};
use std::alloc::Global;

// Those of a value, where there is one.
fn of_value(alloc: Global, texts: &mut Texts, value: &Option<Expr>)
    ensures { (ts : List Ty) (met : Found) → Met texts.old met
        → Met texts.new (totals before own_before (if_value ts value.now) met) }
{
    match value {
        None => {}
        Some(value) => of_expr(alloc, texts, value),
    }
}

// Those of a selector before blocks.
fn of_selector(alloc: Global, texts: &mut Texts, operand: &Operand)
    ensures { (ts : List Ty) (blocks : List Before) (met : Found)
        → Met texts.old (together before blocks met)
        → Met texts.new (in_turn before (each before own_before
        (operand_before ts operand.now NoArg)) blocks met) }
{
    match operand {
        Operand::Value(value) => of_expr(alloc, texts, value),
        Operand::At(path) => of_path(alloc, texts, path),
    }
}

#[cycle(stmts)]
fn of_block(alloc: Global, texts: &mut Texts, block: &Vec<Stmt>)
    ensures { (ts : List Ty) (met : Found) → Met texts.old met
        → Met texts.new (total_of before own_before (stmts_of ts block.now.items) met) }
{
    let mut i = block.len();
    while i > 0 {
        i -= 1;
        of_stmt(alloc, texts, &block[i]);
    }
}

// Those of a statement before the rest of its block.
#[cycle(stmts)]
fn of_stmt(alloc: Global, texts: &mut Texts, stmt: &Stmt)
    ensures { (ts : List Ty) (rest : Stmts) (met : Found)
        → Met texts.old (total_of before own_before rest met)
        → Met texts.new (total_of before own_before (stmt_before ts stmt.now rest) met) }
{
    match stmt {
        Stmt::Do { value } => of_expr(alloc, texts, value),
        Stmt::Idle { parts, .. } => of_operands(alloc, texts, parts),
        Stmt::Give { value, .. } => of_expr(alloc, texts, value),
        Stmt::Leave { parts, .. } => of_operands(alloc, texts, parts),
        Stmt::Declare { value, .. } => of_value(alloc, texts, value),
        Stmt::If {
            branches,
            otherwise,
            ..
        } => {
            of_block(alloc, texts, otherwise);
            of_branches(alloc, texts, branches)
        }
        Stmt::Case {
            selector,
            branches,
            otherwise,
            ..
        } => {
            of_block(alloc, texts, otherwise);
            of_case_branches(alloc, texts, branches);
            of_selector(alloc, texts, selector);
            of_branch_labels(alloc, texts, branches)
        }
        Stmt::Loop { head, body, .. } => {
            of_block(alloc, texts, body);
            of_operands(alloc, texts, head)
        }
        Stmt::Raise { message, .. } => of_value(alloc, texts, message),
        Stmt::Try {
            body,
            handlers,
            last,
            ..
        } => {
            of_block(alloc, texts, last);
            of_handlers(alloc, texts, handlers);
            of_block(alloc, texts, body)
        }
        Stmt::Defer { last, .. } => of_block(alloc, texts, last),
    }
}

// Those of branches before the block for all else.
#[cycle(stmts)]
fn of_branches(alloc: Global, texts: &mut Texts, branches: &Vec<Branch>)
    ensures { (ts : List Ty) (last : Stmts) (met : Found)
        → Met texts.old (total_of before own_before last met)
        → Met texts.new (in_turn before
        (each before own_before (branch_conditions ts branches.now.items))
        (each_block before own_before (branch_blocks ts branches.now.items last)) met) }
{
    let mut i = branches.len();
    while i > 0 {
        i -= 1;
        let branch = &branches[i];
        of_block(alloc, texts, &branch.body);
        of_expr(alloc, texts, &branch.condition);
    }
}

#[cycle(stmts)]
fn of_case_branches(alloc: Global, texts: &mut Texts, branches: &Vec<CaseBranch>)
    ensures { (ts : List Ty) (last : Stmts) (met : Found)
        → Met texts.old (total_of before own_before last met)
        → Met texts.new (together before
        (each_block before own_before (case_blocks ts branches.now.items last)) met) }
{
    let mut i = branches.len();
    while i > 0 {
        i -= 1;
        of_block(alloc, texts, &branches[i].body);
    }
}

#[cycle(stmts)]
fn of_handlers(alloc: Global, texts: &mut Texts, handlers: &Vec<Handler>)
    ensures { (ts : List Ty) (met : Found) → Met texts.old met
        → Met texts.new (total_of_handlers before own_before
        (handlers_of ts handlers.now.items) met) }
{
    let mut i = handlers.len();
    while i > 0 {
        i -= 1;
        of_block(alloc, texts, &handlers[i].body);
    }
}

// ---- procedures

fn of_body(alloc: Global, texts: &mut Texts, body: &Option<Body>)
    ensures { (ts : List Ty) (met : Found) → Met texts.old met
        → Met texts.new (if_body before body_before
        (option_map (body_of ts) body.now) met) }
{
    match body {
        None => {}
        Some(body) => of_block(alloc, texts, &body.stmts),
    }
}

fn of_procs(alloc: Global, texts: &mut Texts, procs: &Vec<Proc>)
    ensures { (ts : List Ty) (met : Found) → Met texts.old met
        → Met texts.new (in_procs before body_before
        (map (proc_of ts) procs.now.items) met) }
{
    let mut i = procs.len();
    while i > 0 {
        i -= 1;
        of_body(alloc, texts, &procs[i].body);
    }
}

/// The bytes of the distinct texts of a program, and of its constants with texts or sequences inside,
/// as far as they matter.
pub fn texts_size(alloc: Global, program: &Program) -> Result<u32, Memory>
    ensures { IfOk result (λ size. size ≡ capped MOST_DATA (constants_counted
        (program_under (types_in program.now.types) (facts_in program.now.types) program.now))) }
{
    let mut texts = no_texts(alloc);
    of_block(alloc, &mut texts, &program.start.stmts);
    of_procs(alloc, &mut texts, &program.procs);
    if texts.lost {
        return Err(Memory);
    }
    Ok(all_size(&texts))
}
