// What is put together over all parts of a tree.
ghost use Rattle.std.specs.Prelude.{◌≡◌, List, option_map};
ghost use Rattle.nim_types.specs.Types.{Ty};
ghost use Rattle.nim_program.specs.Program.{Empty};
ghost use Rattle.nim_program.specs.View.{expr_of, path_of, stmt_before, declared_of};
ghost use Rattle.nim_program.specs.Folds.{Seen, Sum, handled};
ghost use Rattle.nim_program.specs.FoldParts.{seen_of, seen_at, seen_first, own_if};

use crate::expr::{Expr, Path};
use crate::stmt::{PlaceDecl, Stmt};

/// What is put together over all parts of a tree, and how.
pub trait Fold {
    /// What is put together.
    type Value: Copy;

    /// The types that numbers of types stand for.
    ghost types: { Self → List Ty };

    /// How two are put together, and what stands for none.
    ghost sum: { Self → Sum Self.Value };

    /// What is said of a part alone.
    ghost own: { Self → Seen → Self.Value };

    /// Of nothing.
    fn none(&self) -> Self::Value
        ensures { result ≡ (sum self.now).none };

    /// Of two parts, of which the first stands before the second.
    fn plus(&self, first: Self::Value, second: Self::Value) -> Self::Value
        ensures { result ≡ (sum self.now).plus first second };

    /// Of an expression alone; nothing of one that is read.
    fn of_expr(&self, expr: &Expr) -> Self::Value
        ensures { result ≡ own_if (sum self.now) (own self.now)
            (seen_of (expr_of (types self.now) expr.now)) };

    /// Of the last part of a path alone, whose value is `read` or stands in place.
    fn of_path(&self, path: &Path, read: bool) -> Self::Value
        ensures { result ≡ own self.now (seen_at read (path_of (types self.now) path.now)) };

    /// Of a statement alone; nothing of an expression.
    fn of_stmt(&self, stmt: &Stmt) -> Self::Value
        ensures { result ≡ own_if (sum self.now) (own self.now)
            (seen_first (stmt_before (types self.now) stmt.now Empty)) };

    /// Of a handler alone, by the name that it gives the exception.
    fn of_handler(&self, name: &Option<PlaceDecl>) -> Self::Value
        ensures { result ≡ own self.now
            (handled (option_map (declared_of (types self.now)) name.now)) };
}
