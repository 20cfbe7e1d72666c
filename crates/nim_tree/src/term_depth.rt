// How deep the expressions of statements are.
ghost use Rattle.std.specs.Prelude.{◌≡◌, ◌-◌, ◌^◌, min};
ghost use Rattle.nim_tree.specs.Statements.{tree_of, statement_of, statements_of, branches_of, handlers_of};
ghost use Rattle.nim_tree.specs.Statements.{term_levels_of, term_levels, branch_term_levels, handler_term_levels};

use crate::expr::most_levels;
use crate::part_depth::{in_course, in_definitions, in_value};
use crate::{Branch, Handler, Module, Stmt};

/// The most levels of an expression, or 4,294,967,295 where there are more.
///
/// Each value, target, callee, operand, condition, selector, label and end of a `for` is one of its own; the length of an array
/// counts in the levels of its type.
pub fn expr_depth(tree: &Module) -> u32
    ensures { result ≡ min (term_levels (tree_of tree.now)) (2 ^ 32 - 1) }
{
    in_statements(&tree.body)
}

#[cycle(terms)]
fn in_statement(statement: &Stmt) -> u32
    ensures { result ≡ min (term_levels_of (statement_of statement.now)) (2 ^ 32 - 1) }
{
    match statement {
        Stmt::Discard { value, .. } | Stmt::Return { value, .. } | Stmt::Raise { value, .. } => {
            in_value(value)
        }
        Stmt::Break { .. } | Stmt::Continue { .. } | Stmt::Import { .. } | Stmt::Types { .. } => 0,
        Stmt::Eval { value, .. } => value.levels(),
        Stmt::Assign { target, value, .. } => target.levels().max(value.levels()),
        Stmt::Command {
            callee,
            operands,
            ..
        } => callee.levels().max(most_levels(operands)),
        Stmt::Define { defs, .. } => in_definitions(defs),
        Stmt::If { .. } => {
            in_branches(statement.branches()).max(in_statements(statement.closing()))
        }
        Stmt::Case { selector, .. } => selector
            .levels()
            .max(in_branches(statement.branches()))
            .max(in_statements(statement.closing())),
        Stmt::While { condition, .. } => condition.levels().max(in_statements(statement.body())),
        Stmt::For { over, .. } => in_course(over).max(in_statements(statement.body())),
        Stmt::Try { .. } => in_statements(statement.body())
            .max(in_handlers(statement.handlers()))
            .max(in_statements(statement.closing())),
        Stmt::Defer { .. } | Stmt::Proc { .. } => in_statements(statement.body()),
    }
}

#[cycle(terms)]
fn in_statements(statements: &[Stmt]) -> u32
    ensures { result ≡ min (term_levels (statements_of statements.now)) (2 ^ 32 - 1) }
{
    let mut most = 0;
    for statement in statements {
        most = in_statement(statement).max(most);
    }
    most
}

#[cycle(terms)]
fn in_branches(branches: &[Branch]) -> u32
    ensures { result ≡ min (branch_term_levels (branches_of branches.now)) (2 ^ 32 - 1) }
{
    let mut most = 0;
    for branch in branches {
        most = most_levels(&branch.tests)
            .max(in_statements(&branch.body))
            .max(most);
    }
    most
}

#[cycle(terms)]
fn in_handlers(handlers: &[Handler]) -> u32
    ensures { result ≡ min (handler_term_levels (handlers_of handlers.now)) (2 ^ 32 - 1) }
{
    let mut most = 0;
    for handler in handlers {
        most = in_statements(&handler.body).max(most);
    }
    most
}
