// `case`.
ghost use Rattle.std.specs.Prelude.{◌≡◌, ◌<◌, ◌++◌, [], List, length, map, IfOk};
ghost use Rattle.arc_base.specs.declared.place.Place.{Place};
ghost use Rattle.arc_base.specs.Refusal.{Answers};
ghost use Rattle.nim_tree.specs.Statements as tree;
ghost use Rattle.nim_tree.specs.Statements.{statements_of, branches_of};
ghost use Rattle.nim_tree.specs.Terms.{term_of, parts_of};
ghost use Rattle.nim_types.specs.Types.{Ty, Facts};
ghost use Rattle.nim_types.specs.Table.{type_at, facts_in};
ghost use Rattle.nim_program.specs.Program.{Label};
ghost use Rattle.nim_program.specs.View.{label_of, branch_labels, stmts_of};
ghost use Rattle.decl_rules.specs.State.{ResultPlace as Gives};
ghost use Rattle.decl_rules.specs.Stated.{stated, all_arms, covered};
ghost use Rattle.expr_parts.specs.View.{Under, valued_of};
ghost use Rattle.decl_parts.specs.declared.state.State.{State};
ghost use Rattle.decl_parts.specs.View.{around_of, state_of, arm_bodies_in, Beside};
ghost use Rattle.decl_written.specs.ViewWritten.{numbered_of};
ghost use Rattle.decl_parts.specs.View.{InsideWithin, Ready, Over, Further, Stating, AllStatedSo};
ghost use Rattle.decl_stmts.specs.ViewStated.{listed_stated};
ghost use Rattle.decl_stmts.specs.ViewCases.{armed_as, arm_as, arm_rule, arm_behind};
ghost use Rattle.decl_stmts.specs.ViewCases.{selection_behind, selection_over};
ghost use Rattle.decl_stmts.specs.ViewCases.{selection_else, covered_as, covered_by};

use crate::blocks::block;
use arc_base::{Place, Stop};
use check_exprs::public::type_labels;
use decl_parts::nodes::selection_of;
use decl_parts::state::{Around, State};
use decl_parts::stmts::list_of;
use decl_parts::typing::value_first;
use decl_parts::values::selector_rule;
use decl_written::values::Numbered;
use expr_builds::label_list::{Labels, cover_rule};
use expr_parts::branches::selector_of;
use expr_parts::value::{Value, Want};
use expr_steps::choices::Tests;
use nim_program::{CaseBranch, Node, Stmt};
use nim_tree::{Branch as TreeBranch, Expr as Term, Stmt as Tree};
use nim_types::{TypeId, TypeTable};
use std::alloc::Global;

/// Branches of a `case`, and all of their labels.
#[derive(Drop)]
pub struct Arms {
    pub all: Vec<CaseBranch>,
    pub labels: Labels,
}

/// A branch of a `case`, and the labels up to its own.
#[derive(Drop)]
pub struct Arm {
    pub one: CaseBranch,
    pub labels: Labels,
}

/// The branches of a `case` over values of a type.
#[cycle(statements)]
fn all_arms(
    alloc: Global,
    state: &mut State,
    around: Around,
    ty: TypeId,
    trees: &[TreeBranch],
) -> Result<Arms, Stop>
    requires ready { Ready state.old }
    requires around { InsideWithin (length state.old.types) around.inside }
    requires ty { ty < length state.old.types }
    ensures { Stating state.old state.new (λ ts b arms. armed_as ts b state.new arms)
        (λ ts b. all_arms (around_of ts around) (type_at ts ty) [] (state_of ts b state.old)
        (branches_of trees.now)) result }
{
    let mut all = Vec::new(alloc);
    let mut labels = Labels::new(alloc);
    for tree in trees {
        match one_arm(alloc, state, around, ty, labels, tree) {
            Ok(arm) => {
                labels = arm.labels;
                all.push(arm.one)?;
            }
            Err(stop) => return Err(stop),
        }
    }
    Ok(Arms { all, labels })
}

/// A branch of a `case`, behind branches with these labels.
#[cycle(statements)]
fn one_arm(
    alloc: Global,
    state: &mut State,
    around: Around,
    ty: TypeId,
    before: Labels,
    tree: &TreeBranch,
) -> Result<Arm, Stop>
    requires ready { Ready state.old }
    requires around { InsideWithin (length state.old.types) around.inside }
    requires ty { ty < length state.old.types }
    ensures arm { Stating state.old state.new (λ ts b arm. arm_as ts b state.new arm)
        (λ ts b. arm_rule (around_of ts around) (type_at ts ty) before (state_of ts b state.old)
        (parts_of tree.now.tests.items) (statements_of tree.now.body.items)) result }
    ensures labels { IfOk result (λ arm. arm.labels ≡ before ++ map label_of arm.one.labels) }
{
    match type_labels(
        alloc,
        &mut state.types,
        &state.scope,
        ty,
        before,
        &tree.tests,
    ) {
        Ok(tests) => arm_with(alloc, state, around, tests, &tree.body),
        Err(stop) => Err(stop),
    }
}

// Behind its labels.
#[cycle(statements)]
fn arm_with(
    alloc: Global,
    state: &mut State,
    around: Around,
    tests: Tests,
    body: &[Tree],
) -> Result<Arm, Stop>
    requires ready { Ready state.old }
    requires around { InsideWithin (length state.old.types) around.inside }
    ensures arm { Stating state.old state.new (λ ts b arm. arm_as ts b state.new arm)
        (λ ts b. arm_behind (around_of ts around) (state_of ts b state.old)
        (statements_of body.now) (map label_of tests.own)) result }
    ensures labels { IfOk result (λ arm. arm.labels ≡ tests.all) }
    ensures own { IfOk result (λ arm. arm.one.labels ≡ tests.own) }
{
    match block(alloc, state, around, body) {
        Ok(body) => Ok(Arm {
            one: CaseBranch {
                labels: tests.own,
                body,
            },
            labels: tests.all,
        }),
        Err(stop) => Err(stop),
    }
}

/// A `case`.
#[cycle(statements)]
pub(crate) fn selection(
    alloc: Global,
    state: &mut State,
    around: Around,
    at: Place,
    selector: &Term,
    branches: &[TreeBranch],
    otherwise: &[Tree],
) -> Result<Vec<Stmt>, Stop>
    requires ready { Ready state.old }
    requires around { InsideWithin (length state.old.types) around.inside }
    ensures { (ends : List Ty → Gives) → AllStatedSo state.old state.new (λ ts st. stated
        (around_of ts around) (ends ts) st (tree.selects at (term_of selector.now)
        (branches_of branches.now) (statements_of otherwise.now))) result }
{
    match value_first(alloc, state, Want::Nothing, selector) {
        Ok(given) => selection_by(alloc, state, around, at, given, branches, otherwise),
        Err(stop) => Err(stop),
    }
}

// Behind the selector.
#[cycle(statements)]
fn selection_by(
    alloc: Global,
    state: &mut State,
    around: Around,
    at: Place,
    given: Numbered,
    branches: &[TreeBranch],
    otherwise: &[Tree],
) -> Result<Vec<Stmt>, Stop>
    requires ready { Ready state.old }
    requires around { InsideWithin (length state.old.types) around.inside }
    requires given { given.value.ty < length state.old.types }
    ensures { AllStatedSo state.old state.new (λ ts st. selection_behind (around_of ts around) st at
        (branches_of branches.now) (statements_of otherwise.now) (numbered_of ts given)) result }
{
    let next = given.next;
    match selector_rule(&state.types, given.value) {
        Ok(value) => selection_with(alloc, state, around, at, value, next, branches, otherwise),
        Err(stop) => Err(stop),
    }
}

// Where the selector is one.
#[cycle(statements)]
fn selection_with(
    alloc: Global,
    state: &mut State,
    around: Around,
    at: Place,
    value: Value,
    next: u32,
    branches: &[TreeBranch],
    otherwise: &[Tree],
) -> Result<Vec<Stmt>, Stop>
    requires ready { Ready state.old }
    requires around { InsideWithin (length state.old.types) around.inside }
    requires value { value.ty < length state.old.types }
    ensures { AllStatedSo state.old state.new (λ ts st. selection_over (around_of ts around) st at
        (branches_of branches.now) (statements_of otherwise.now) (valued_of ts value) next)
        result }
{
    let node = Node {
        number: state.node,
        at,
    };
    state.node = next;
    match all_arms(alloc, state, around, value.ty, branches) {
        Ok(arms) => selection_else(alloc, state, around, node, value, arms, otherwise),
        Err(stop) => {
            drop(value);
            Err(stop)
        }
    }
}

// Behind the branches. Without `else` all values have labels.
#[cycle(statements)]
fn selection_else(
    alloc: Global,
    state: &mut State,
    around: Around,
    node: Node,
    value: Value,
    arms: Arms,
    otherwise: &[Tree],
) -> Result<Vec<Stmt>, Stop>
    requires ready { Ready state.old }
    requires around { InsideWithin (length state.old.types) around.inside }
    requires value { value.ty < length state.old.types }
    ensures { (before : State) → Further before state.old → value.ty < length before.types
        → Stating state.old state.new (λ ts b s. listed_stated ts b state.new s) (λ ts b.
        selection_else (around_of ts around) (facts_in before.types) node
        (statements_of otherwise.now) (valued_of ts value) (armed_as ts b state.old arms))
        result }
{
    match block(alloc, state, around, otherwise) {
        Ok(stmts) => covered(
            alloc,
            state,
            node,
            value,
            arms,
            lacks_else(otherwise),
            stmts,
        ),
        Err(stop) => {
            drop(value);
            Err(stop)
        }
    }
}

fn lacks_else(otherwise: &[Tree]) -> bool
    ensures { (facts : Facts) (at : Place) (ty : Ty) (ls : List Label) → covered facts at ty ls
        (statements_of otherwise.now) ≡ covered_by result facts at ty ls }
{
    match otherwise.split_first() {
        Some(_) => false,
        None => true,
    }
}

fn covered(
    alloc: Global,
    state: &State,
    node: Node,
    value: Value,
    arms: Arms,
    lacks_else: bool,
    stmts: Vec<Stmt>,
) -> Result<Vec<Stmt>, Stop>
    requires { value.ty < length state.now.types }
    ensures { (ts : List Ty) (b : Beside) → Over state.now ts
        → Answers (listed_stated ts b state.now) (covered_as lacks_else (facts_in state.now.types)
        node (valued_of ts value) (branch_labels arms.all.items)
        (arm_bodies_in ts arms.all.items) arms.labels (stmts_of ts stmts.items)
        (state_of ts b state.now)) result }
{
    match check_covered(&state.types, node.at, value.ty, &arms.labels, lacks_else) {
        Ok(()) => list_of(
            alloc,
            selection_of(node, selector_of(value.expr), arms.all, stmts),
        ),
        Err(stop) => {
            drop(value);
            Err(stop)
        }
    }
}

fn check_covered(
    types: &TypeTable,
    at: Place,
    ty: TypeId,
    labels: &Labels,
    lacks_else: bool,
) -> Result<(), Stop>
    requires { ty < length types.now }
    ensures { (ts : List Ty) (facts : Facts) → Under types.now ts facts
        → Answers (λ _. tt) (covered_by lacks_else facts at (type_at ts ty) labels.now) result }
{
    if !lacks_else {
        return Ok(());
    }
    cover_rule(types, at, ty, None, labels)
}
