// The same walk over statements.
ghost use Rattle.std.specs.Prelude.{◌≡◌, [], ◌∷◌};
ghost use Rattle.nim_program.specs.Program.{NoArg, Stmts};
ghost use Rattle.nim_program.specs.View.{operand_before, if_value, stmt_before, stmts_of};
ghost use Rattle.nim_program.specs.View.{branch_conditions, branch_blocks, case_blocks};
ghost use Rattle.nim_program.specs.View.{handlers_of};
ghost use Rattle.nim_program.specs.Folds.{together, in_turn, totals, each, total_of, each_block};
ghost use Rattle.nim_program.specs.Folds.{total_of_handlers};

use crate::expr::{Expr, Operand};
use crate::fold::Fold;
use crate::fold_exprs::{total, total_at, totals};
use crate::stmt::{Branch, CaseBranch, Handler, Stmt};

// Of a selector.
fn test_total<F: Fold>(fold: &F, operand: &Operand) -> F::Value
    ensures { each (F.sum fold.now) (F.own fold.now)
        (operand_before (F.types fold.now) operand.now NoArg) ≡ result ∷ [] }
{
    match operand {
        Operand::Value(value) => total(fold, value),
        Operand::At(path) => total_at(fold, path, false),
    }
}

// Of the value, where there is one.
fn value_total<F: Fold>(fold: &F, value: &Option<Expr>) -> F::Value
    ensures { result ≡ totals (F.sum fold.now) (F.own fold.now)
        (if_value (F.types fold.now) value.now) }
{
    match value {
        None => fold.none(),
        Some(value) => fold.plus(total(fold, value), fold.none()),
    }
}

/// Over a block.
#[cycle(stmts)]
pub fn total_of<F: Fold>(fold: &F, block: &Vec<Stmt>) -> F::Value
    ensures { result ≡ total_of (F.sum fold.now) (F.own fold.now)
        (stmts_of (F.types fold.now) block.now.items) }
{
    let mut all = fold.none();
    let mut i = block.len();
    while i > 0 {
        i -= 1;
        all = stmt_total(fold, &block[i], all);
    }
    all
}

/// Of a statement before the rest of its block, which is this.
#[cycle(stmts)]
pub fn stmt_total<F: Fold>(fold: &F, stmt: &Stmt, others: F::Value) -> F::Value
    ensures { (rest : Stmts) → others ≡ total_of (F.sum fold.now) (F.own fold.now) rest
        → result ≡ total_of (F.sum fold.now) (F.own fold.now)
        (stmt_before (F.types fold.now) stmt.now rest) }
{
    let own = fold.of_stmt(stmt);
    match stmt {
        Stmt::Do { value } => fold.plus(total(fold, value), others),
        Stmt::Idle { parts, .. } => fold.plus(fold.plus(own, totals(fold, parts)), others),
        Stmt::Give { value, .. } => fold.plus(fold.plus(own, total(fold, value)), others),
        Stmt::Leave { parts, .. } => fold.plus(fold.plus(own, totals(fold, parts)), others),
        Stmt::Declare { value, .. } => {
            fold.plus(own, fold.plus(value_total(fold, value), others))
        }
        Stmt::If {
            branches,
            otherwise,
            ..
        } => {
            let last = fold.plus(total_of(fold, otherwise), fold.none());
            let parts = branch_totals(fold, branches, last);
            fold.plus(fold.plus(own, parts), others)
        }
        Stmt::Case {
            selector,
            branches,
            otherwise,
            ..
        } => {
            let last = fold.plus(total_of(fold, otherwise), fold.none());
            let blocks = case_totals(fold, branches, last);
            let parts = fold.plus(test_total(fold, selector), blocks);
            fold.plus(fold.plus(own, parts), others)
        }
        Stmt::Loop { head, body, .. } => {
            let parts = fold.plus(totals(fold, head), total_of(fold, body));
            fold.plus(fold.plus(own, parts), others)
        }
        Stmt::Raise { message, .. } => {
            fold.plus(fold.plus(own, value_total(fold, message)), others)
        }
        Stmt::Try {
            body,
            handlers,
            last,
            ..
        } => {
            let behind = fold.plus(handler_totals(fold, handlers), total_of(fold, last));
            let parts = fold.plus(total_of(fold, body), behind);
            fold.plus(fold.plus(own, parts), others)
        }
        Stmt::Defer { last, .. } => fold.plus(own, fold.plus(total_of(fold, last), others)),
    }
}

// Of branches before the block for all else, which is this.
#[cycle(stmts)]
fn branch_totals<F: Fold>(fold: &F, branches: &Vec<Branch>, otherwise: F::Value) -> F::Value
    ensures { (last : Stmts)
        → otherwise ≡ together (F.sum fold.now) (total_of (F.sum fold.now) (F.own fold.now) last ∷ [])
        → result ≡ in_turn (F.sum fold.now)
        (each (F.sum fold.now) (F.own fold.now)
        (branch_conditions (F.types fold.now) branches.now.items))
        (each_block (F.sum fold.now) (F.own fold.now)
        (branch_blocks (F.types fold.now) branches.now.items last)) }
{
    let mut all = otherwise;
    let mut i = branches.len();
    while i > 0 {
        i -= 1;
        let branch = &branches[i];
        all = fold.plus(total_of(fold, &branch.body), all);
        all = fold.plus(total(fold, &branch.condition), all);
    }
    all
}

#[cycle(stmts)]
fn case_totals<F: Fold>(fold: &F, branches: &Vec<CaseBranch>, otherwise: F::Value) -> F::Value
    ensures { (last : Stmts)
        → otherwise ≡ together (F.sum fold.now) (total_of (F.sum fold.now) (F.own fold.now) last ∷ [])
        → result ≡ together (F.sum fold.now)
        (each_block (F.sum fold.now) (F.own fold.now)
        (case_blocks (F.types fold.now) branches.now.items last)) }
{
    let mut all = otherwise;
    let mut i = branches.len();
    while i > 0 {
        i -= 1;
        all = fold.plus(total_of(fold, &branches[i].body), all);
    }
    all
}

// Over handlers.
#[cycle(stmts)]
fn handler_totals<F: Fold>(fold: &F, handlers: &Vec<Handler>) -> F::Value
    ensures { result ≡ total_of_handlers (F.sum fold.now) (F.own fold.now)
        (handlers_of (F.types fold.now) handlers.now.items) }
{
    let mut all = fold.none();
    let mut i = handlers.len();
    while i > 0 {
        i -= 1;
        let handler = &handlers[i];
        let parts = fold.plus(total_of(fold, &handler.body), all);
        all = fold.plus(fold.of_handler(&handler.name), parts);
    }
    all
}
