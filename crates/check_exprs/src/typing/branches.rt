// `if` and `case` that are expressions.
ghost use Rattle.std.specs.Prelude.{◌<◌, length};
ghost use Rattle.nim_tree.specs.Terms as term;
ghost use Rattle.nim_tree.specs.Terms.{term_of, parts_of, choices_of};
ghost use Rattle.expr_parts.specs.ViewReady.{IsReady, WantWithin};
ghost use Rattle.expr_steps.specs.ViewChoices.{ConditionsWithin, PickedWithin};
ghost use Rattle.check_exprs.specs.ViewTyped.{TypedSo, ConditionsSo, ConditionSo, PicksSo, PickSo};
ghost use Rattle.check_exprs.specs.ViewTyped.{TestSo, case_by};

use crate::typing::labels::labels;
use crate::typing::typed;
use crate::typing::values::value_at;
use arc_base::{Code, Place, Stop};
use expr_parts::branching::{Branching, inner_by, wanted};
use expr_parts::scope::Scope;
use expr_parts::value::{Typed, Want, refusal};
use expr_steps::asks::Asks;
use expr_steps::choices::{Conditions, Picked, next_want, no_picks, with_condition, with_pick};
use expr_steps::endings::{case_else_from, case_from, if_from};
use expr_steps::given::{Given, behind};
use nim_tree::{Choice as TreeChoice, Expr as Tree};
use nim_types::{TypeId, TypeTable};
use std::alloc::Global;

#[cycle(typing)]
pub(crate) fn if_with_else(
    alloc: Global,
    types: &mut TypeTable,
    scope: &Scope,
    want: Want,
    number: u32,
    at: Place,
    choices: &[TreeChoice],
    otherwise: &Tree,
) -> Result<Typed, Stop>
    requires ready { IsReady types.old scope.now }
    requires want { WantWithin (length types.old) want }
    ensures { TypedSo types.old types.new scope.now want number
        (term.if_term at (choices_of choices.now) (term_of otherwise.now)) result }
{
    let first = behind(number)?;
    let values = Branching::Undecided(inner_by(wanted(want)));
    let none = Conditions {
        choices: Vec::new(alloc),
        values,
        next: first,
    };
    let given = conditions(alloc, types, scope, none, choices)?;
    let last = typed(
        alloc,
        types,
        scope,
        next_want(given.values),
        given.next,
        otherwise,
    )?;
    if_from(alloc, types, number, at, given, last)
}

/// The branches of an `if`, behind those that are there.
#[cycle(typing)]
fn conditions(
    alloc: Global,
    types: &mut TypeTable,
    scope: &Scope,
    before: Conditions,
    choices: &[TreeChoice],
) -> Result<Conditions, Stop>
    requires ready { IsReady types.old scope.now }
    requires before { ConditionsWithin (length types.old) before }
    ensures { ConditionsSo types.old types.new scope.now before (choices_of choices.now) result }
{
    let mut so_far = before;
    for choice in choices {
        so_far = condition(alloc, types, scope, so_far, choice)?;
    }
    Ok(so_far)
}

#[cycle(typing)]
fn condition(
    alloc: Global,
    types: &mut TypeTable,
    scope: &Scope,
    before: Conditions,
    choice: &TreeChoice,
) -> Result<Conditions, Stop>
    requires ready { IsReady types.old scope.now }
    requires before { ConditionsWithin (length types.old) before }
    ensures { ConditionSo types.old types.new scope.now before choice.now result }
{
    let test = test_at(alloc, types, scope, before.next, choice.at, &choice.tests)?;
    let want = next_want(before.values);
    let value = match typed(alloc, types, scope, want, test.next, &choice.value) {
        Ok(value) => value,
        Err(stop) => {
            drop(test);
            return Err(stop);
        }
    };
    with_condition(types, before, test, value)
}

// The only test of a branch, a bool.
#[cycle(typing)]
fn test_at(
    alloc: Global,
    types: &mut TypeTable,
    scope: &Scope,
    number: u32,
    at: Place,
    tests: &[Tree],
) -> Result<Given, Stop>
    requires ready { IsReady types.old scope.now }
    ensures { TestSo types.old types.new scope.now number at (parts_of tests.now) result }
{
    match tests {
        [test] => {
            let asks = Asks::Exactly(scope.kinds.bool);
            value_at(alloc, types, scope, asks, &[], number, test)
        }
        _ => Err(refusal(Code::NotTyped, at)),
    }
}

/// `case`, with `else` or without.
#[cycle(typing)]
pub(crate) fn case_of(
    alloc: Global,
    types: &mut TypeTable,
    scope: &Scope,
    want: Want,
    number: u32,
    at: Place,
    selector: &Tree,
    choices: &[TreeChoice],
    otherwise: &Option<Box<Tree>>,
) -> Result<Typed, Stop>
    requires ready { IsReady types.old scope.now }
    requires want { WantWithin (length types.old) want }
    ensures { TypedSo types.old types.new scope.now want number
        (case_by at (term_of selector.now) (choices_of choices.now) otherwise.now) result }
{
    match otherwise {
        None => case_alone(alloc, types, scope, want, number, at, selector, choices),
        Some(value) => case_with_else(
            alloc, types, scope, want, number, at, selector, choices, value,
        ),
    }
}

#[cycle(typing)]
fn case_alone(
    alloc: Global,
    types: &mut TypeTable,
    scope: &Scope,
    want: Want,
    number: u32,
    at: Place,
    selector: &Tree,
    choices: &[TreeChoice],
) -> Result<Typed, Stop>
    requires ready { IsReady types.old scope.now }
    requires want { WantWithin (length types.old) want }
    ensures { TypedSo types.old types.new scope.now want number
        (term.case_term at (term_of selector.now) (choices_of choices.now)) result }
{
    let first = behind(number)?;
    let value = value_at(alloc, types, scope, Asks::Selector, &[], first, selector)?;
    let none = no_picks(alloc, want, value.next);
    let given = match picks(alloc, types, scope, value.value.ty, none, choices) {
        Ok(given) => given,
        Err(stop) => {
            drop(value);
            return Err(stop);
        }
    };
    case_from(alloc, types, number, at, value, given)
}

#[cycle(typing)]
fn case_with_else(
    alloc: Global,
    types: &mut TypeTable,
    scope: &Scope,
    want: Want,
    number: u32,
    at: Place,
    selector: &Tree,
    choices: &[TreeChoice],
    otherwise: &Tree,
) -> Result<Typed, Stop>
    requires ready { IsReady types.old scope.now }
    requires want { WantWithin (length types.old) want }
    ensures { TypedSo types.old types.new scope.now want number
        (term.case_else at (term_of selector.now) (choices_of choices.now) (term_of otherwise.now))
        result }
{
    let first = behind(number)?;
    let value = value_at(alloc, types, scope, Asks::Selector, &[], first, selector)?;
    let none = no_picks(alloc, want, value.next);
    let given = match picks(alloc, types, scope, value.value.ty, none, choices) {
        Ok(given) => given,
        Err(stop) => {
            drop(value);
            return Err(stop);
        }
    };
    let want = next_want(given.values);
    let last = match typed(alloc, types, scope, want, given.next, otherwise) {
        Ok(last) => last,
        Err(stop) => {
            drop(value);
            return Err(stop);
        }
    };
    case_else_from(alloc, types, number, at, value, given, last)
}

/// The branches of a `case` over values of a type, behind those that are there.
#[cycle(typing)]
fn picks(
    alloc: Global,
    types: &mut TypeTable,
    scope: &Scope,
    ty: TypeId,
    before: Picked,
    choices: &[TreeChoice],
) -> Result<Picked, Stop>
    requires ready { IsReady types.old scope.now }
    requires ty { ty < length types.old }
    requires before { PickedWithin (length types.old) before }
    ensures { PicksSo types.old types.new scope.now ty before (choices_of choices.now) result }
{
    let mut so_far = before;
    for choice in choices {
        so_far = pick(alloc, types, scope, ty, so_far, choice)?;
    }
    Ok(so_far)
}

#[cycle(typing)]
fn pick(
    alloc: Global,
    types: &mut TypeTable,
    scope: &Scope,
    ty: TypeId,
    before: Picked,
    choice: &TreeChoice,
) -> Result<Picked, Stop>
    requires ready { IsReady types.old scope.now }
    requires ty { ty < length types.old }
    requires before { PickedWithin (length types.old) before }
    ensures { PickSo types.old types.new scope.now ty before choice.now result }
{
    let Picked {
        picks,
        labels: earlier,
        values,
        next,
    } = before;
    let tests = labels(alloc, types, scope, ty, earlier, &choice.tests)?;
    let value = typed(alloc, types, scope, next_want(values), next, &choice.value)?;
    with_pick(types, picks, values, tests, value)
}
