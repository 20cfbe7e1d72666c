// The calls for whoever types statements.
ghost use Rattle.std.specs.Prelude.{◌≡◌, ◌<◌, ◌++◌, List, length, map, IfOk};
ghost use Rattle.arc_base.specs.Refusal.{Answers};
ghost use Rattle.nim_tree.specs.Terms as term;
ghost use Rattle.nim_tree.specs.Terms.{term_of, parts_of};
ghost use Rattle.nim_types.specs.Types.{Ty, Facts};
ghost use Rattle.nim_types.specs.Table.{type_at, IsBelow};
ghost use Rattle.nim_program.specs.View.{label_of};
ghost use Rattle.expr_rules.specs.Typed.{typed, labels, read_type};
ghost use Rattle.expr_parts.specs.View.{Under, Grown, env_of, typed_of, want_of, number_of};
ghost use Rattle.expr_parts.specs.ViewReady.{IsReady, WantWithin};

use crate::typing::{call, labels, read_type, typed};
use arc_base::{Place, Stop};
use expr_builds::label_list::Labels;
use expr_parts::scope::Scope;
use expr_parts::value::{Typed, Want};
use expr_steps::choices::Tests;
use nim_tree::Expr as Tree;
use nim_types::{TypeId, TypeTable};
use std::alloc::Global;

/// The typed node that a tree stands for, with nodes numbered from `number` on, where its place
/// gives the type `want`. A tree that no rule types is refused at the first place in order of text
/// where none fits. Types that the table lacks are added; want of memory, and of numbers, is
/// `Stop::Memory`.
pub fn type_expr(
    alloc: Global,
    types: &mut TypeTable,
    scope: &Scope,
    want: Want,
    number: u32,
    tree: &Tree,
) -> Result<Typed, Stop>
    requires ready { IsReady types.old scope.now }
    requires want { WantWithin (length types.old) want }
    ensures grown { Grown types.old types.new }
    ensures answers { (ts : List Ty) (facts : Facts) → Under types.new ts facts
        → Answers (typed_of ts) (typed (env_of ts facts scope.now) (want_of ts want) number
        (term_of tree.now)) result }
    ensures number { IfOk result (λ t. number_of t.expr ≡ t.ty) }
    ensures within { IfOk result (λ t. IsBelow (length types.new) t.ty) }
{
    typed(alloc, types, scope, want, number, tree)
}

/// The typed node that a command stands for, which is a call at a place. As `type_expr`; nothing is
/// wanted of a call.
pub fn type_call(
    alloc: Global,
    types: &mut TypeTable,
    scope: &Scope,
    want: Want,
    number: u32,
    at: Place,
    callee: &Tree,
    operands: &[Tree],
) -> Result<Typed, Stop>
    requires ready { IsReady types.old scope.now }
    requires want { WantWithin (length types.old) want }
    ensures grown { Grown types.old types.new }
    ensures answers { (ts : List Ty) (facts : Facts) → Under types.new ts facts
        → Answers (typed_of ts) (typed (env_of ts facts scope.now) (want_of ts want) number
        (term.call at (term_of callee.now) (parts_of operands.now))) result }
    ensures number { IfOk result (λ t. number_of t.expr ≡ t.ty) }
    ensures within { IfOk result (λ t. IsBelow (length types.new) t.ty) }
{
    call(alloc, types, scope, number, at, callee, operands)
}

/// The type that an expression spells: a name, or a name with types in brackets.
pub fn type_named(
    alloc: Global,
    types: &mut TypeTable,
    scope: &Scope,
    tree: &Tree,
) -> Result<TypeId, Stop>
    requires ready { IsReady types.old scope.now }
    ensures grown { Grown types.old types.new }
    ensures answers { (ts : List Ty) (facts : Facts) → Under types.new ts facts
        → Answers (type_at ts) (read_type (env_of ts facts scope.now) (term_of tree.now)) result }
    ensures within { IfOk result (λ id. id < length types.new) }
{
    read_type(alloc, types, scope, tree)
}

/// The labels of a branch over values of a type, behind those of earlier branches. They are no
/// nodes. A label that isn't a constant of the type is refused, and one that an earlier one covers.
pub fn type_labels(
    alloc: Global,
    types: &mut TypeTable,
    scope: &Scope,
    ty: TypeId,
    before: Labels,
    tests: &[Tree],
) -> Result<Tests, Stop>
    requires ready { IsReady types.old scope.now }
    requires ty { ty < length types.old }
    ensures grown { Grown types.old types.new }
    ensures answers { (ts : List Ty) (facts : Facts) → Under types.new ts facts
        → Answers (λ all. map label_of all.own) (labels (env_of ts facts scope.now) (type_at ts ty)
        before (parts_of tests.now)) result }
    ensures all { IfOk result (λ all. all.all ≡ before ++ map label_of all.own) }
{
    labels(alloc, types, scope, ty, before, tests)
}
