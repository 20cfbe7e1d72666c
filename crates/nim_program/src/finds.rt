// The first part of a tree for which something holds.
ghost use Rattle.std.specs.Prelude.{◌≡◌, List, Option, option_map};
ghost use Rattle.nim_types.specs.Types.{Ty};
ghost use Rattle.nim_program.specs.Program.{Empty};
ghost use Rattle.nim_program.specs.View.{expr_of, path_of, stmt_before, stmts_of, declared_of};
ghost use Rattle.nim_program.specs.Folds.{Seen, handled, firsts, total, total_of};
ghost use Rattle.nim_program.specs.FoldParts.{seen_of, seen_at, seen_first, own_if};

use crate::expr::{Expr, Path};
use crate::fold::Fold;
use crate::fold_exprs::total;
use crate::fold_stmts::total_of;
use crate::stmt::{PlaceDecl, Stmt};

/// What is looked for in each part of a tree.
pub trait Find {
    /// What is said of a part that is found.
    type Found: Copy;

    /// The types that numbers of types stand for.
    ghost types: { Self → List Ty };

    /// What is found in a part alone.
    ghost own: { Self → Seen → Option Self.Found };

    /// In an expression alone; nothing in one that is read.
    fn of_expr(&self, expr: &Expr) -> Option<Self::Found>
        ensures { result ≡ own_if firsts (own self.now)
            (seen_of (expr_of (types self.now) expr.now)) };

    /// In the last part of a path alone, whose value is `read` or stands in place.
    fn of_path(&self, path: &Path, read: bool) -> Option<Self::Found>
        ensures { result ≡ own self.now (seen_at read (path_of (types self.now) path.now)) };

    /// In a statement alone; nothing in an expression.
    fn of_stmt(&self, stmt: &Stmt) -> Option<Self::Found>
        ensures { result ≡ own_if firsts (own self.now)
            (seen_first (stmt_before (types self.now) stmt.now Empty)) };

    /// In a handler alone, by the name that it gives the exception.
    fn of_handler(&self, name: &Option<PlaceDecl>) -> Option<Self::Found>
        ensures { result ≡ own self.now
            (handled (option_map (declared_of (types self.now)) name.now)) };
}

// Finds put together.
#[derive(Drop)]
struct Finding<'a, F> {
    find: &'a F,
}

impl<'a, F: Find> Fold for Finding<'a, F> {
    type Value = Option<F::Found>;

    ghost types = { λ s. F.types s.find.now };

    ghost sum = { λ s. firsts };

    ghost own = { λ s. F.own s.find.now };

    fn none(&self) -> Option<F::Found> {
        None
    }

    fn plus(&self, first: Option<F::Found>, second: Option<F::Found>) -> Option<F::Found> {
        match first {
            None => second,
            Some(found) => Some(found),
        }
    }

    fn of_expr(&self, expr: &Expr) -> Option<F::Found> {
        self.find.of_expr(expr)
    }

    fn of_path(&self, path: &Path, read: bool) -> Option<F::Found> {
        self.find.of_path(path, read)
    }

    fn of_stmt(&self, stmt: &Stmt) -> Option<F::Found> {
        self.find.of_stmt(stmt)
    }

    fn of_handler(&self, name: &Option<PlaceDecl>) -> Option<F::Found> {
        self.find.of_handler(name)
    }
}

/// The first in an expression, which comes before its parts.
pub fn find_in_expr<F: Find>(find: &F, expr: &Expr) -> Option<F::Found>
    ensures { result ≡ total firsts (F.own find.now) (expr_of (F.types find.now) expr.now) }
{
    total(&Finding { find }, expr)
}

/// The first in a block.
pub fn find_in_block<F: Find>(find: &F, block: &Vec<Stmt>) -> Option<F::Found>
    ensures { result ≡ total_of firsts (F.own find.now)
        (stmts_of (F.types find.now) block.now.items) }
{
    total_of(&Finding { find }, block)
}
