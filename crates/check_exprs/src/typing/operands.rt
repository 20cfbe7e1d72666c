// Operands in order.
ghost use Rattle.std.specs.Prelude.{length};
ghost use Rattle.nim_tree.specs.Terms.{term_of, parts_of};
ghost use Rattle.expr_parts.specs.ViewReady.{IsReady};
ghost use Rattle.expr_parts.specs.View.{OperandsWithin};
ghost use Rattle.check_exprs.specs.ViewTyped.{PartSo, OrdinarySo, TypeOperandSo, OperandsSo};

use crate::typing::read_type;
use crate::typing::values::value_at;
use arc_base::Stop;
use expr_parts::scope::Scope;
use expr_parts::value::Operand;
use expr_steps::asks::Asks;
use expr_steps::demands::{Demand, Special, special_at};
use expr_steps::given::{Operands, Part, behind, is_shown_by_call, open_part, plain, shown};
use nim_tree::Expr as Tree;
use nim_types::TypeTable;
use std::alloc::Global;

/// The operand that a tree is.
#[cycle(typing)]
pub(crate) fn operand_at(
    alloc: Global,
    types: &mut TypeTable,
    scope: &Scope,
    demand: Demand,
    number: u32,
    tree: &Tree,
) -> Result<Part, Stop>
    requires ready { IsReady types.old scope.now }
    ensures { PartSo types.old types.new scope.now demand number (term_of tree.now) result }
{
    match special_at(demand, tree) {
        Special::Ordinary => value_operand(alloc, types, scope, demand, number, tree),
        Special::Open(place) => open_part(number, place),
        Special::Type => type_operand(alloc, types, scope, number, tree),
        Special::Input => Ok(Part {
            operand: Operand::Input,
            next: number,
        }),
    }
}

// A value as it is, or the call that shows it. That call's number comes before those of the value, which is typed once more.
#[cycle(typing)]
fn value_operand(
    alloc: Global,
    types: &mut TypeTable,
    scope: &Scope,
    demand: Demand,
    number: u32,
    tree: &Tree,
) -> Result<Part, Stop>
    requires ready { IsReady types.old scope.now }
    ensures { OrdinarySo types.old types.new scope.now demand number (term_of tree.now) result }
{
    let given = value_at(alloc, types, scope, Asks::Anything, &[], number, tree)?;
    let is_shown = match is_shown_by_call(alloc, types, scope, demand, &given.value) {
        Ok(is_shown) => is_shown,
        Err(stop) => {
            drop(given);
            return Err(stop);
        }
    };
    if !is_shown {
        return Ok(plain(given));
    }
    drop(given);
    let first = behind(number)?;
    let again = value_at(alloc, types, scope, Asks::Anything, &[], first, tree)?;
    shown(alloc, types, scope, number, again)
}

#[cycle(typing)]
fn type_operand(
    alloc: Global,
    types: &mut TypeTable,
    scope: &Scope,
    number: u32,
    tree: &Tree,
) -> Result<Part, Stop>
    requires ready { IsReady types.old scope.now }
    ensures { TypeOperandSo types.old types.new scope.now number (term_of tree.now) result }
{
    let ty = read_type(alloc, types, scope, tree)?;
    Ok(Part {
        operand: Operand::Type(ty),
        next: number,
    })
}

/// Operands in order, as it is demanded of the first, behind those that are there.
#[cycle(typing)]
pub(crate) fn operands(
    alloc: Global,
    types: &mut TypeTable,
    scope: &Scope,
    demand: Demand,
    before: Vec<Operand>,
    number: u32,
    parts: &[Tree],
) -> Result<Operands, Stop>
    requires ready { IsReady types.old scope.now }
    requires before { OperandsWithin (length types.old) before.items }
    ensures { OperandsSo types.old types.new scope.now demand before.items number
        (parts_of parts.now) result }
{
    let mut demanded = demand;
    let mut all = before;
    let mut next = number;
    for part in parts {
        let operand = operand_at(alloc, types, scope, demanded, next, part)?;
        next = operand.next;
        demanded = demanded.behind();
        all.push(operand.operand)?;
    }
    Ok(Operands { all, next })
}
