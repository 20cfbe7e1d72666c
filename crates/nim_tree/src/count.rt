// How many nodes a module has.
ghost use Rattle.std.specs.Prelude.{◌≡◌, ◌-◌, ◌^◌, min};
ghost use Rattle.nim_tree.specs.Statements.{tree_of, statement_of, statements_of, branches_of, handlers_of, nodes_of, all_nodes, branch_nodes, handler_nodes};

use crate::part_count::{
    of_course, of_declarations, of_definitions, of_each, of_head, of_optional, of_term, of_terms,
    of_value,
};
use crate::{Branch, Handler, Module, Stmt};

/// The statements, branches, handlers, expressions, types, names and pragmas of a module, each of which has a place, or
/// 4,294,967,295 where there are more.
pub fn nodes(tree: &Module) -> u32
    ensures { result ≡ min (all_nodes (tree_of tree.now)) (2 ^ 32 - 1) }
{
    of_statements(&tree.body)
}

#[cycle(nodes)]
fn of_statement(statement: &Stmt) -> u32
    ensures { result ≡ min (nodes_of (statement_of statement.now)) (2 ^ 32 - 1) }
{
    let inside = match statement {
        Stmt::Discard { value, .. } | Stmt::Return { value, .. } | Stmt::Raise { value, .. } => {
            of_value(value)
        }
        Stmt::Break { .. } | Stmt::Continue { .. } => 0,
        Stmt::Import { names, .. } => of_each(names),
        Stmt::Eval { value, .. } => of_term(value),
        Stmt::Assign { target, value, .. } => of_term(target).saturating_add(of_term(value)),
        Stmt::Command {
            callee,
            operands,
            ..
        } => of_term(callee).saturating_add(of_terms(operands)),
        Stmt::Define { defs, .. } => of_definitions(defs),
        Stmt::Types { defs, .. } => of_declarations(defs),
        Stmt::If { .. } => {
            of_branches(statement.branches()).saturating_add(of_statements(statement.closing()))
        }
        Stmt::Case { selector, .. } => of_term(selector)
            .saturating_add(of_branches(statement.branches()))
            .saturating_add(of_statements(statement.closing())),
        Stmt::While { condition, .. } => {
            of_term(condition).saturating_add(of_statements(statement.body()))
        }
        Stmt::For { over, .. } => of_course(over)
            .saturating_add(of_statements(statement.body()))
            .saturating_add(1),
        Stmt::Try { .. } => of_statements(statement.body())
            .saturating_add(of_handlers(statement.handlers()))
            .saturating_add(of_statements(statement.closing())),
        Stmt::Defer { .. } => of_statements(statement.body()),
        Stmt::Proc { head, .. } => of_head(head).saturating_add(of_statements(statement.body())),
    };
    inside.saturating_add(1)
}

#[cycle(nodes)]
fn of_statements(statements: &[Stmt]) -> u32
    ensures { result ≡ min (all_nodes (statements_of statements.now)) (2 ^ 32 - 1) }
{
    let mut all: u32 = 0;
    for statement in statements {
        all = all.saturating_add(of_statement(statement));
    }
    all
}

#[cycle(nodes)]
fn of_branches(branches: &[Branch]) -> u32
    ensures { result ≡ min (branch_nodes (branches_of branches.now)) (2 ^ 32 - 1) }
{
    let mut all: u32 = 0;
    for branch in branches {
        all = all
            .saturating_add(of_terms(&branch.tests))
            .saturating_add(of_statements(&branch.body))
            .saturating_add(1);
    }
    all
}

#[cycle(nodes)]
fn of_handlers(handlers: &[Handler]) -> u32
    ensures { result ≡ min (handler_nodes (handlers_of handlers.now)) (2 ^ 32 - 1) }
{
    let mut all: u32 = 0;
    for handler in handlers {
        all = all
            .saturating_add(of_each(&handler.types))
            .saturating_add(of_optional(&handler.binding))
            .saturating_add(of_statements(&handler.body))
            .saturating_add(1);
    }
    all
}
