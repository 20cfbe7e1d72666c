// What is counted over all parts of a tree, as far as it matters.
ghost use Rattle.std.specs.Prelude.{◌≡◌, ◌+◌, ◌<◌, ◌-◌, ◌^◌, ℕ, List, option_map};
ghost use Rattle.nim_types.specs.Types.{Ty};
ghost use Rattle.nim_program.specs.Program.{Empty};
ghost use Rattle.nim_program.specs.View.{expr_of, path_of, operands_of, stmt_before, stmts_of};
ghost use Rattle.nim_program.specs.View.{declared_of};
ghost use Rattle.nim_program.specs.Folds.{Seen, handled, numbers, capped, capped_numbers};
ghost use Rattle.nim_program.specs.Folds.{total, total_at, totals, total_of};
ghost use Rattle.nim_program.specs.FoldParts.{seen_of, seen_at, seen_first, own_if};

use crate::expr::{Expr, Operand, Path};
use crate::fold::Fold;
use crate::fold_exprs::{total, total_at, totals};
use crate::fold_stmts::{stmt_total, total_of};
use crate::stmt::{PlaceDecl, Stmt};

/// What is counted of each part of a tree.
pub trait Count {
    /// The most that matters.
    ghost most: { Self → ℕ };

    /// The types that numbers of types stand for.
    ghost types: { Self → List Ty };

    /// What is counted of a part alone.
    ghost own: { Self → Seen → ℕ };

    /// The most that matters. What is beyond it is as one more.
    fn most(&self) -> u32
        ensures most { result ≡ most self.now }
        ensures below { result < 2 ^ 32 - 1 };

    /// Of an expression alone; nothing of one that is read.
    fn of_expr(&self, expr: &Expr) -> u32
        ensures { result ≡ capped (most self.now) (own_if numbers (own self.now)
            (seen_of (expr_of (types self.now) expr.now))) };

    /// Of the last part of a path alone, whose value is `read` or stands in place.
    fn of_path(&self, path: &Path, read: bool) -> u32
        ensures { result ≡ capped (most self.now) (own self.now
            (seen_at read (path_of (types self.now) path.now))) };

    /// Of a statement alone; nothing of an expression.
    fn of_stmt(&self, stmt: &Stmt) -> u32
        ensures { result ≡ capped (most self.now) (own_if numbers (own self.now)
            (seen_first (stmt_before (types self.now) stmt.now Empty))) };

    /// Of a handler alone, by the name that it gives the exception.
    fn of_handler(&self, name: &Option<PlaceDecl>) -> u32
        ensures { result ≡ capped (most self.now) (own self.now
            (handled (option_map (declared_of (types self.now)) name.now))) };
}

// Counts put together.
#[derive(Drop)]
struct Counted<'a, C> {
    count: &'a C,
}

impl<'a, C: Count> Fold for Counted<'a, C> {
    type Value = u32;

    ghost types = { λ s. C.types s.count.now };

    ghost sum = { λ s. capped_numbers (C.most s.count.now) };

    ghost own = { λ s seen. capped (C.most s.count.now) (C.own s.count.now seen) };

    fn none(&self) -> u32 {
        0
    }

    fn plus(&self, first: u32, second: u32) -> u32 {
        let most = self.count.most();
        let sum = u64::from(first) + u64::from(second);
        if sum > u64::from(most) {
            most + 1
        } else {
            sum as u32
        }
    }

    fn of_expr(&self, expr: &Expr) -> u32 {
        self.count.of_expr(expr)
    }

    fn of_path(&self, path: &Path, read: bool) -> u32 {
        self.count.of_path(path, read)
    }

    fn of_stmt(&self, stmt: &Stmt) -> u32 {
        self.count.of_stmt(stmt)
    }

    fn of_handler(&self, name: &Option<PlaceDecl>) -> u32 {
        self.count.of_handler(name)
    }
}

/// Of an expression and all its parts.
pub fn count_expr<C: Count>(count: &C, expr: &Expr) -> u32
    ensures { result ≡ capped (C.most count.now) (total numbers (C.own count.now)
        (expr_of (C.types count.now) expr.now)) }
{
    total(&Counted { count }, expr)
}

/// Of a path, whose value is `read` or stands in place.
pub fn count_path<C: Count>(count: &C, path: &Path, read: bool) -> u32
    ensures { result ≡ capped (C.most count.now) (total_at numbers (C.own count.now) read
        (path_of (C.types count.now) path.now)) }
{
    total_at(&Counted { count }, path, read)
}

/// Of operands.
pub fn count_operands<C: Count>(count: &C, operands: &Vec<Operand>) -> u32
    ensures { result ≡ capped (C.most count.now) (totals numbers (C.own count.now)
        (operands_of (C.types count.now) operands.now.items)) }
{
    totals(&Counted { count }, operands)
}

/// Of a block.
pub fn count_block<C: Count>(count: &C, block: &Vec<Stmt>) -> u32
    ensures { result ≡ capped (C.most count.now) (total_of numbers (C.own count.now)
        (stmts_of (C.types count.now) block.now.items)) }
{
    total_of(&Counted { count }, block)
}

/// Of a statement.
pub fn count_stmt<C: Count>(count: &C, stmt: &Stmt) -> u32
    ensures { result ≡ capped (C.most count.now) (total_of numbers (C.own count.now)
        (stmt_before (C.types count.now) stmt.now Empty)) }
{
    stmt_total(&Counted { count }, stmt, 0)
}
