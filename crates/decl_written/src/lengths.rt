// Lengths of array types.
ghost use Rattle.std.specs.Prelude.{ℤ, List};
ghost use Rattle.arc_base.specs.Refusal.{Answers};
ghost use Rattle.nim_tree.specs.Terms.{term_of};
ghost use Rattle.nim_types.specs.Types.{Ty, Facts};
ghost use Rattle.expr_parts.specs.View.{Under, Grown, env_of};
ghost use Rattle.expr_parts.specs.ViewReady.{IsReady};
ghost use Rattle.decl_rules.specs.Values.{length_value};

use crate::values::valued_term;
use arc_base::Stop;
use expr_constants::constant_rules::length_rule;
use expr_parts::scope::Scope;
use expr_parts::value::Want;
use nim_tree::Expr as Tree;
use nim_types::TypeTable;
use std::alloc::Global;

/// The length of an array type.
pub fn length_value(
    alloc: Global,
    types: &mut TypeTable,
    scope: &Scope,
    tree: &Tree,
) -> Result<i32, Stop>
    requires ready { IsReady types.old scope.now }
    ensures grown { Grown types.old types.new }
    ensures answers { (ts : List Ty) (facts : Facts) → Under types.new ts facts
        → Answers (λ (z : ℤ). z) (length_value (env_of ts facts scope.now)
        (term_of tree.now)) result }
{
    match valued_term(alloc, types, scope, Want::Nothing, 0, tree) {
        Ok(given) => length_rule(alloc, types, given.value),
        Err(stop) => Err(stop),
    }
}
