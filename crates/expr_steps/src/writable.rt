// What can be written.
ghost use Rattle.std.specs.Prelude.{◌≡◌, ℕ, List, IfOk, IfErr};
ghost use Rattle.arc_base.specs.declared.place.Stop.TheVariants as Stop;
ghost use Rattle.nim_tree.specs.Terms.{term_of};
ghost use Rattle.nim_types.specs.Types.{Ty, Facts};
ghost use Rattle.nim_program.specs.View.{expr_of};
ghost use Rattle.expr_rules.specs.Env.{Known, known_as, known_next};
ghost use Rattle.expr_rules.specs.Paths.{is_some, root_of, path_of, is_writable};
ghost use Rattle.expr_rules.specs.Paths.{has_writable_root, can_be_written};
ghost use Rattle.expr_parts.specs.View.{env_of, entry_by};

use arc_base::Stop;
use expr_parts::paths::root_of;
use expr_parts::scope::{Scope, What};
use indent_scanner::normal_form;
use nim_program::Expr;
use nim_tree::Expr as Tree;
use std::alloc::Global;

fn is_writable(what: &What) -> bool
    ensures { (ts : List Ty) (before : Known) (x : List ℕ)
        → is_writable (known_next before (entry_by ts x what.now)) ≡ result }
{
    match what {
        What::Variable { writable, .. } => *writable,
        _ => false,
    }
}

// Whether a name, in normal form, is that of a variable that can be written.
fn names_writable(scope: &Scope, name: &[u8]) -> bool
    ensures { (ts : List Ty) (facts : Facts)
        → is_writable (known_as (env_of ts facts scope.now) name.now) ≡ result }
{
    match scope.find(name) {
        Some(decl) => is_writable(&decl.what),
        None => false,
    }
}

// Whether the name at the root of a tree is that of a variable that can be written.
#[cycle(roots)]
fn has_writable_root(alloc: Global, scope: &Scope, tree: &Tree) -> Result<bool, Stop>
    ensures is { IfOk result (λ holds. (ts : List Ty) (facts : Facts)
        → has_writable_root (env_of ts facts scope.now) (term_of tree.now) ≡ holds) }
    ensures memory { IfErr result (λ stop. stop ≡ Stop.Memory) }
{
    match tree {
        Tree::Name { text, .. } => {
            let name = normal_form(alloc, text.as_slice())?;
            Ok(names_writable(scope, name.as_slice()))
        }
        Tree::Paren { inner, .. } => has_writable_root(alloc, scope, inner),
        Tree::Field { base, .. } => has_writable_root(alloc, scope, base),
        Tree::Index { base, .. } => has_writable_root(alloc, scope, base),
        _ => Ok(false),
    }
}

fn is_some(place: Option<u32>) -> bool
    ensures { is_some place ≡ result }
{
    match place {
        Some(_) => true,
        None => false,
    }
}

// Whether an expression is a path whose root is a place.
fn has_root(expr: &Expr) -> bool
    ensures { (ts : List Ty) → is_some (root_of (path_of (expr_of ts expr.now))) ≡ result }
{
    match expr {
        Expr::Read { path } => is_some(root_of(path)),
        _ => false,
    }
}

/// Whether what stands for a tree can be written: it is a path from a variable that can.
pub fn can_be_written(alloc: Global, scope: &Scope, tree: &Tree, expr: &Expr) -> Result<bool, Stop>
    ensures is { IfOk result (λ holds. (ts : List Ty) (facts : Facts)
        → can_be_written (env_of ts facts scope.now) (term_of tree.now) (expr_of ts expr.now)
        ≡ holds) }
    ensures memory { IfErr result (λ stop. stop ≡ Stop.Memory) }
{
    if !has_root(expr) {
        return Ok(false);
    }
    has_writable_root(alloc, scope, tree)
}
