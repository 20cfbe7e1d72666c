// Whether a source declares a procedure or a type of a name, in whatever block.
ghost use Rattle.std.specs.Prelude.{◌≡◌, map};
ghost use Rattle.nim_tree.specs.Types.{declaration_of};
ghost use Rattle.nim_tree.specs.Statements.{statement_of, statements_of, branches_of, handlers_of};
ghost use Rattle.expr_rules.specs.Constructions.{is_among};
ghost use Rattle.decl_rules.specs.LeftOut.{declared_types, named_procedure, declared_by, declared_in};
ghost use Rattle.decl_rules.specs.LeftOut.{declared_in_branches, declared_in_handlers};

use indent_scanner::is_named;
use nim_tree::{Branch, Declared, Handler, Stmt, TypeDef};

fn is_type(name: &[u8], defs: &[TypeDef]) -> bool
    ensures { result ≡ is_among name.now (declared_types (map declaration_of defs.now)) }
{
    for def in defs {
        if is_named(def.name.text.as_slice(), name) {
            return true;
        }
    }
    false
}

#[tactic(auto, using(crate::proofs::Naming::among_one))]
fn is_procedure(name: &[u8], declared: &Declared) -> bool
    ensures { result ≡ is_among name.now (named_procedure declared.now) }
{
    !declared.quoted && is_named(declared.text.as_slice(), name)
}

#[cycle(declared)]
#[tactic(auto, using(crate::proofs::Naming::among_append))]
fn by_statement(name: &[u8], statement: &Stmt) -> bool
    ensures { result ≡ is_among name.now (declared_by (statement_of statement.now)) }
{
    match statement {
        Stmt::Types { defs, .. } => is_type(name, defs),
        Stmt::If { .. } | Stmt::Case { .. } => {
            in_branches(name, statement.branches()) || is_declared(name, statement.closing())
        }
        Stmt::While { .. } | Stmt::For { .. } | Stmt::Defer { .. } => {
            is_declared(name, statement.body())
        }
        Stmt::Try { .. } => {
            is_declared(name, statement.body())
                || in_handlers(name, statement.handlers())
                || is_declared(name, statement.closing())
        }
        Stmt::Proc { head, .. } => {
            is_procedure(name, &head.name) || is_declared(name, statement.body())
        }
        Stmt::Discard { .. }
        | Stmt::Return { .. }
        | Stmt::Raise { .. }
        | Stmt::Break { .. }
        | Stmt::Continue { .. }
        | Stmt::Import { .. }
        | Stmt::Eval { .. }
        | Stmt::Assign { .. }
        | Stmt::Command { .. }
        | Stmt::Define { .. } => false,
    }
}

/// Whether statements declare a procedure or a type of the name, which is in normal form.
#[cycle(declared)]
#[tactic(auto, using(crate::proofs::Naming::among_append))]
pub fn is_declared(name: &[u8], statements: &[Stmt]) -> bool
    ensures { result ≡ is_among name.now (declared_in (statements_of statements.now)) }
{
    for statement in statements {
        if by_statement(name, statement) {
            return true;
        }
    }
    false
}

#[cycle(declared)]
#[tactic(auto, using(crate::proofs::Naming::among_append))]
fn in_branches(name: &[u8], branches: &[Branch]) -> bool
    ensures { result ≡ is_among name.now (declared_in_branches (branches_of branches.now)) }
{
    for branch in branches {
        if is_declared(name, &branch.body) {
            return true;
        }
    }
    false
}

#[cycle(declared)]
#[tactic(auto, using(crate::proofs::Naming::among_append))]
fn in_handlers(name: &[u8], handlers: &[Handler]) -> bool
    ensures { result ≡ is_among name.now (declared_in_handlers (handlers_of handlers.now)) }
{
    for handler in handlers {
        if is_declared(name, &handler.body) {
            return true;
        }
    }
    false
}
