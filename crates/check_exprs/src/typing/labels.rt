// Labels of a branch.
ghost use Rattle.std.specs.Prelude.{◌≡◌, ◌<◌, length, false};
ghost use Rattle.nim_tree.specs.Terms.{term_of, parts_of};
ghost use Rattle.expr_rules.specs.Typed.{is_range};
ghost use Rattle.expr_parts.specs.ViewReady.{IsReady};
ghost use Rattle.check_exprs.specs.ViewTyped.{LabelsSo, LabelSo, OneLabelSo, RangeSo};

use crate::typing::typed;
use arc_base::{Items, Place, Stop};
use expr_builds::label_list::Labels;
use expr_parts::labels::range_of;
use expr_parts::scope::Scope;
use expr_parts::value::Want;
use expr_steps::choices::{Tests, label_from, label_place, with_label};
use nim_program::Label;
use nim_tree::Expr as Tree;
use nim_types::{TypeId, TypeTable};
use std::alloc::Global;

/// The labels of a branch over values of a type, behind those of earlier branches. They are no nodes.
#[cycle(typing)]
pub(crate) fn labels(
    alloc: Global,
    types: &mut TypeTable,
    scope: &Scope,
    ty: TypeId,
    before: Labels,
    tests: &[Tree],
) -> Result<Tests, Stop>
    requires ready { IsReady types.old scope.now }
    requires ty { ty < length types.old }
    ensures { LabelsSo types.old types.new scope.now ty before (parts_of tests.now) result }
{
    let mut so_far = Tests {
        own: Items::new(alloc),
        all: before,
    };
    for test in tests {
        let label = label_at(alloc, types, scope, ty, test)?;
        so_far = with_label(alloc, so_far, label_place(test), label)?;
    }
    Ok(so_far)
}

// A label that is no range.
fn no_range(test: &Tree) -> &Tree
    requires { is_range (term_of test.now) ≡ false }
    ensures plain { is_range (term_of test.now) ≡ false }
    ensures same { result.now ≡ test.now }
{
    test
}

#[cycle(typing)]
fn label_at(
    alloc: Global,
    types: &mut TypeTable,
    scope: &Scope,
    ty: TypeId,
    test: &Tree,
) -> Result<Label, Stop>
    requires ready { IsReady types.old scope.now }
    requires ty { ty < length types.old }
    ensures { LabelSo types.old types.new scope.now ty (term_of test.now) result }
{
    match test {
        Tree::Range { at, low, high } => range_at(alloc, types, scope, ty, *at, low, high),
        other => one_label(alloc, types, scope, ty, no_range(other)),
    }
}

#[cycle(typing)]
fn range_at(
    alloc: Global,
    types: &mut TypeTable,
    scope: &Scope,
    ty: TypeId,
    at: Place,
    low: &Tree,
    high: &Tree,
) -> Result<Label, Stop>
    requires ready { IsReady types.old scope.now }
    requires ty { ty < length types.old }
    ensures { RangeSo types.old types.new scope.now ty at (term_of low.now) (term_of high.now)
        result }
{
    let low = one_label(alloc, types, scope, ty, low)?;
    let high = one_label(alloc, types, scope, ty, high)?;
    range_of(at, low, high)
}

#[cycle(typing)]
fn one_label(
    alloc: Global,
    types: &mut TypeTable,
    scope: &Scope,
    ty: TypeId,
    tree: &Tree,
) -> Result<Label, Stop>
    requires ready { IsReady types.old scope.now }
    requires ty { ty < length types.old }
    ensures { OneLabelSo types.old types.new scope.now ty (term_of tree.now) result }
{
    let typed = typed(alloc, types, scope, Want::Nothing, 0, tree)?;
    label_from(alloc, types, ty, typed)
}
