// Values that are needed.
ghost use Rattle.std.specs.Prelude.{◌≡◌, ◌<◌, List, length, IfOk, Ok, Some};
ghost use Rattle.arc_base.specs.Refusal.{Answers, and_then};
ghost use Rattle.nim_tree.specs.Terms.{term_of};
ghost use Rattle.nim_types.specs.Types.{Ty, Facts};
ghost use Rattle.nim_program.specs.View.{expr_of};
ghost use Rattle.expr_rules.specs.Answers.{value_of};
ghost use Rattle.expr_parts.specs.View.{Under, Grown, env_of, want_of};
ghost use Rattle.expr_parts.specs.View.{number_of};
ghost use Rattle.expr_parts.specs.ViewReady.{IsReady, WantWithin};
ghost use Rattle.decl_rules.specs.Values.{as_value, valued_term};
ghost use Rattle.decl_written.specs.ViewWritten.{numbered_of};

use arc_base::Stop;
use check_exprs::public::type_expr;
use expr_parts::branching::value_of;
use expr_parts::scope::Scope;
use expr_parts::value::{Typed, Value, Want};
use nim_tree::Expr as Tree;
use nim_types::TypeTable;
use std::alloc::Global;

/// A typed value, and the first number behind its nodes.
#[derive(Drop)]
pub struct Numbered {
    pub value: Value,
    pub next: u32,
}

fn valued(typed: Typed) -> Result<Numbered, Stop>
    ensures answers { (ts : List Ty) → Answers (numbered_of ts) (and_then
        (value_of (expr_of ts typed.expr)) (λ v. Ok (as_value v typed.next))) result }
    ensures number { IfOk result (λ v. number_of typed.expr ≡ Some v.value.ty) }
{
    let next = typed.next;
    match value_of(typed.expr) {
        Ok(value) => Ok(Numbered { value, next }),
        Err(stop) => Err(stop),
    }
}

/// A value is needed. The first number of its nodes is given.
pub fn valued_term(
    alloc: Global,
    types: &mut TypeTable,
    scope: &Scope,
    want: Want,
    first: u32,
    tree: &Tree,
) -> Result<Numbered, Stop>
    requires ready { IsReady types.old scope.now }
    requires want { WantWithin (length types.old) want }
    ensures grown { Grown types.old types.new }
    ensures answers { (ts : List Ty) (facts : Facts) → Under types.new ts facts
        → Answers (numbered_of ts) (valued_term (env_of ts facts scope.now) (want_of ts want)
        first (term_of tree.now)) result }
    ensures within { IfOk result (λ v. v.value.ty < length types.new) }
{
    match type_expr(alloc, types, scope, want, first, tree) {
        Ok(typed) => valued(typed),
        Err(stop) => Err(stop),
    }
}
