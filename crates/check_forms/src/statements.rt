// The first form of a module that has no rule.
ghost use Rattle.std.specs.Prelude.{◌≡◌, ◌≢◌, IfErr};
ghost use Rattle.arc_base.specs.declared.place.Stop.TheVariants as Stop;
ghost use Rattle.arc_base.specs.Refusal.{Answers};
ghost use Rattle.nim_tree.specs.Terms.{term_of, parts_of, call};
ghost use Rattle.nim_tree.specs.Statements.{statement_of, statements_of, branches_of};
ghost use Rattle.decl_rules.specs.LeftOut.{left_in, left_in_statement, left_in_statements};
ghost use Rattle.decl_rules.specs.LeftOut.{left_in_branches, left_out, nothing_left_out};
ghost use Rattle.decl_rules.specs.LeftOut.{waiting, without, declared_in};
ghost use Rattle.check_forms.specs.Waiting.{names_in};

use crate::declared::is_declared;
use crate::names::{Waiting, or_later};
use crate::parts::{of_course, of_definitions, of_head};
use crate::terms::{of_callee, of_parts, of_term, of_value};
use crate::types::of_declarations;
use arc_base::{Code, Place, Stop};
use nim_tree::{Branch, Expr, Stmt};

// A call without parentheses.
fn of_command(names: Waiting, at: Place, callee: &Expr, operands: &[Expr]) -> Option<Place>
    ensures { result ≡ left_in (names_in names)
        (call at (term_of callee.now) (parts_of operands.now)) }
{
    let inside = or_later(of_term(names, callee), of_parts(names, operands));
    or_later(of_callee(names, at, callee), inside)
}

#[cycle(statements)]
fn of_statement(names: Waiting, statement: &Stmt) -> Option<Place>
    ensures { result ≡ left_in_statement (names_in names) (statement_of statement.now) }
{
    match statement {
        Stmt::Discard { value, .. } | Stmt::Return { value, .. } => of_value(names, value),
        Stmt::Break { .. } | Stmt::Continue { .. } => None,
        Stmt::Raise { at, .. }
        | Stmt::Import { at, .. }
        | Stmt::Try { at, .. }
        | Stmt::Defer { at, .. } => Some(*at),
        Stmt::Eval { value, .. } => of_term(names, value),
        Stmt::Assign { target, value, .. } => {
            or_later(of_term(names, target), of_term(names, value))
        }
        Stmt::Command {
            at,
            callee,
            operands,
        } => of_command(names, *at, callee, operands),
        Stmt::Define { defs, .. } => of_definitions(names, defs),
        Stmt::Types { defs, .. } => of_declarations(names, defs),
        Stmt::If { .. } => or_later(
            of_branches(names, statement.branches()),
            of_statements(names, statement.closing()),
        ),
        Stmt::Case { selector, .. } => {
            let branches = of_branches(names, statement.branches());
            let last = or_later(branches, of_statements(names, statement.closing()));
            or_later(of_term(names, selector), last)
        }
        Stmt::While { condition, .. } => {
            or_later(
                of_term(names, condition),
                of_statements(names, statement.body()),
            )
        }
        Stmt::For { over, .. } => {
            or_later(
                of_course(names, over),
                of_statements(names, statement.body()),
            )
        }
        Stmt::Proc { at, head, .. } => {
            or_later(
                of_head(names, *at, head),
                of_statements(names, statement.body()),
            )
        }
    }
}

#[cycle(statements)]
fn of_statements(names: Waiting, statements: &[Stmt]) -> Option<Place>
    ensures { result ≡ left_in_statements (names_in names) (statements_of statements.now) }
{
    for statement in statements {
        if let Some(at) = of_statement(names, statement) {
            return Some(at);
        }
    }
    None
}

#[cycle(statements)]
fn of_branches(names: Waiting, branches: &[Branch]) -> Option<Place>
    ensures { result ≡ left_in_branches (names_in names) (branches_of branches.now) }
{
    for branch in branches {
        if let Some(at) = of_parts(names, &branch.tests) {
            return Some(at);
        }
        if let Some(at) = of_statements(names, &branch.body) {
            return Some(at);
        }
    }
    None
}

// Those of the names without a rule that the source doesn't declare.
#[tactic(auto, using(crate::proofs::Naming::waiting_by))]
fn waiting_in(body: &[Stmt]) -> Waiting
    ensures { names_in result ≡ without waiting (declared_in (statements_of body.now)) }
{
    Waiting {
        is_nil: !is_declared(b"isnil", body),
        new_exception: !is_declared(b"newexception", body),
    }
}

fn left_out(body: &[Stmt]) -> Option<Place>
    ensures { result ≡ left_out (statements_of body.now) }
{
    of_statements(waiting_in(body), body)
}

/// Refuses the first form in order of text that has no rule yet. A form comes before those that stand in it.
///
/// # Errors
///
/// E23 at the place of the form.
pub fn check_nothing_left_out(body: &[Stmt]) -> Result<(), Stop>
    ensures answers { Answers (λ _. tt) (nothing_left_out (statements_of body.now)) result }
    ensures sure { IfErr result (λ stop. stop ≢ Stop.Memory) }
{
    match left_out(body) {
        None => Ok(()),
        Some(at) => Err(Stop::Refused {
            code: Code::LeftOut,
            at,
        }),
    }
}
