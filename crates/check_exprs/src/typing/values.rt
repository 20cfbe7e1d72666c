// Values in order.
ghost use Rattle.std.specs.Prelude.{length};
ghost use Rattle.nim_tree.specs.Terms.{term_of, parts_of};
ghost use Rattle.expr_parts.specs.ViewReady.{IsReady};
ghost use Rattle.expr_steps.specs.ViewTyping.{AsksWithin};
ghost use Rattle.check_exprs.specs.ViewTyped.{GivenSo, ValuesSo};

use crate::typing::typed;
use arc_base::Stop;
use expr_parts::scope::Scope;
use expr_steps::asks::{Asks, behind_first};
use expr_steps::given::{Given, Values, value_from};
use nim_tree::Expr as Tree;
use nim_types::{TypeId, TypeTable};
use std::alloc::Global;

/// A value that is what is asked for.
#[cycle(typing)]
pub(crate) fn value_at(
    alloc: Global,
    types: &mut TypeTable,
    scope: &Scope,
    asks: Asks,
    left: &[TypeId],
    number: u32,
    tree: &Tree,
) -> Result<Given, Stop>
    requires ready { IsReady types.old scope.now }
    requires asks { AsksWithin (length types.old) left.now asks }
    ensures { GivenSo types.old types.new scope.now left.now asks number (term_of tree.now) result }
{
    let typed = typed(alloc, types, scope, asks.want(left), number, tree)?;
    value_from(alloc, types, scope, asks, left, tree, typed)
}

/// Values in order, as it is asked of them.
#[cycle(typing)]
pub(crate) fn values(
    alloc: Global,
    types: &mut TypeTable,
    scope: &Scope,
    asks: Asks,
    left: &[TypeId],
    number: u32,
    parts: &[Tree],
) -> Result<Values, Stop>
    requires ready { IsReady types.old scope.now }
    requires asks { AsksWithin (length types.old) left.now asks }
    ensures { ValuesSo types.old types.new scope.now left.now asks number (parts_of parts.now)
        result }
{
    let mut asked = asks;
    let mut rest = left;
    let mut all = Vec::new(alloc);
    let mut next = number;
    for part in parts {
        let given = value_at(alloc, types, scope, asked, rest, next, part)?;
        next = given.next;
        asked = asked.behind(given.value.ty);
        rest = behind_first(rest);
        all.push(given.value)?;
    }
    Ok(Values { all, next })
}
