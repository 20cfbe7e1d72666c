// Branches of an `if` or `case` that were typed, and labels.
ghost use Rattle.std.specs.Prelude.{◌≡◌, ◌<◌, ◌++◌, ◌∷◌, ℕ, List, [], length, map, Ok};
ghost use Rattle.std.specs.Prelude.{IfOk, IfErr};
ghost use Rattle.arc_base.specs.declared.place.Stop.TheVariants as Stop;
ghost use Rattle.arc_base.specs.Refusal.{Answers};
ghost use Rattle.nim_tree.specs.Terms.{term_of};
ghost use Rattle.nim_types.specs.Types.{Ty, Facts};
ghost use Rattle.nim_types.specs.Table.{type_at, IsBelow};
ghost use Rattle.nim_program.specs.Program.{NoArg};
ghost use Rattle.nim_program.specs.View.{expr_of, label_of};
ghost use Rattle.expr_rules.specs.Answers.{within};
ghost use Rattle.expr_rules.specs.Choices.{branch_want, undecided};
ghost use Rattle.expr_rules.specs.Typed.{label_from};
ghost use Rattle.expr_parts.specs.View.{Under, want_of, number_of, typed_of, branching_of};
ghost use Rattle.expr_parts.specs.View.{IsProper};
ghost use Rattle.expr_constants.specs.ViewFixed.{IsFixed};
ghost use Rattle.expr_parts.specs.ViewReady.{BranchesWithin, WantWithin};
ghost use Rattle.expr_steps.specs.ViewTyping.{TypedWithin, given_of};
ghost use Rattle.expr_steps.specs.ViewChoices.{conditions_of, ConditionsWithin, next_condition};
ghost use Rattle.expr_steps.specs.ViewChoices.{condition_onto, pick_onto};
ghost use Rattle.expr_steps.specs.ViewChoices.{picked_of, PickedWithin, next_pick, rows_of};
ghost use Rattle.expr_steps.specs.ViewChoices.{tests_of, next_test, test_place, range_place};

use crate::asks::want_or;
use crate::demands::bare;
use crate::given::Given;
use arc_base::{Items, Place, Stop};
use expr_builds::label_list::Labels;
use expr_constants::constant_rules::label_value;
use expr_parts::branching::{Branching, branch_value, inner_by, value_of, wanted};
use expr_parts::nodes::type_number;
use expr_parts::value::{Typed, Want};
use nim_program::{Choice, Expr, Label, Pick};
use nim_tree::Expr as Tree;
use nim_types::{TypeId, TypeTable};
use std::alloc::Global;

/// Branches of an `if`, and what is known of the next.
#[derive(Drop)]
pub struct Conditions {
    pub choices: Vec<Choice>,
    pub values: Branching,
    pub next: u32,
}

/// Branches of a `case`, with all their labels, and what is known of the next.
#[derive(Drop)]
pub struct Picked {
    pub picks: Vec<Pick>,
    pub labels: Labels,
    pub values: Branching,
    pub next: u32,
}

/// Labels of a branch, and all labels up to them.
#[derive(Drop)]
pub struct Tests {
    pub own: Items<Label>,
    pub all: Labels,
}

/// What is wanted of the next branch.
pub fn next_want(values: Branching) -> Want
    ensures want { (ts : List Ty) → want_of ts result ≡ branch_want (branching_of ts values) }
    ensures within { (n : ℕ) → BranchesWithin n values → WantWithin n result }
{
    match values {
        Branching::Undecided(want) => want,
        Branching::Decided(want, ty) => want_or(want, ty),
    }
}

// One more branch of an `if`, by its condition and its value.
fn one_condition(
    before: Conditions,
    condition: Expr,
    value: Expr,
    next: u32,
) -> Result<Conditions, Stop>
    ensures made { IfOk result (λ c. (ts : List Ty) → conditions_of ts c ≡ condition_onto
        (conditions_of ts before) (expr_of ts condition) (expr_of ts value) next) }
    ensures within { IfOk result (λ c. (n : ℕ) → ConditionsWithin n before
        → IsBelow n (number_of value) → ConditionsWithin n c) }
    ensures memory { IfErr result (λ stop. stop ≡ Stop.Memory) }
{
    let ty = type_number(&value);
    let mut choices = before.choices;
    choices.push(Choice { condition, value })?;
    Ok(Conditions {
        choices,
        values: before.values.behind(ty),
        next,
    })
}

/// One more branch of an `if`, by its condition and what stands for its value.
pub fn with_condition(
    types: &TypeTable,
    before: Conditions,
    test: Given,
    typed: Typed,
) -> Result<Conditions, Stop>
    requires before { ConditionsWithin (length types.now) before }
    requires typed { TypedWithin (length types.now) typed }
    ensures answers { (ts : List Ty) (facts : Facts) → Under types.now ts facts
        → Answers (conditions_of ts) (next_condition (conditions_of ts before) (given_of ts test)
        (typed_of ts typed)) result }
    ensures within { IfOk result (λ c. ConditionsWithin (length types.now) c) }
{
    let next = typed.next;
    match branch_value(types, before.values, typed.expr) {
        Ok(value) => one_condition(before, test.value.expr, value, next),
        Err(stop) => {
            drop(test);
            Err(stop)
        }
    }
}

/// No branch yet.
pub fn no_picks(alloc: Global, want: Want, next: u32) -> Picked
    ensures picked { (ts : List Ty) → picked_of ts result ≡ record {
      rows = [];
      labels = [];
      parts = NoArg;
      values = undecided (within (want_of ts want));
      next = next;
    } }
    ensures within { (n : ℕ) → WantWithin n want → PickedWithin n result }
{
    Picked {
        picks: Vec::new(alloc),
        labels: Labels::new(alloc),
        values: Branching::Undecided(inner_by(wanted(want))),
        next,
    }
}

// One more branch of a `case`, by its labels and its value.
fn one_pick(
    picks: Vec<Pick>,
    values: Branching,
    tests: Tests,
    value: Expr,
    next: u32,
) -> Result<Picked, Stop>
    ensures made { IfOk result (λ p. (ts : List Ty) → picked_of ts p ≡ pick_onto
        (rows_of ts picks.items) (branching_of ts values) (tests_of tests) (expr_of ts value)
        next) }
    ensures within { IfOk result (λ p. (n : ℕ) → BranchesWithin n values
        → IsBelow n (number_of value) → PickedWithin n p) }
    ensures memory { IfErr result (λ stop. stop ≡ Stop.Memory) }
{
    let ty = type_number(&value);
    let mut picks = picks;
    picks.push(Pick {
        labels: tests.own,
        value,
    })?;
    Ok(Picked {
        picks,
        labels: tests.all,
        values: values.behind(ty),
        next,
    })
}

/// One more branch of a `case`, by its labels and what stands for its value.
pub fn with_pick(
    types: &TypeTable,
    picks: Vec<Pick>,
    values: Branching,
    tests: Tests,
    typed: Typed,
) -> Result<Picked, Stop>
    requires values { BranchesWithin (length types.now) values }
    requires typed { TypedWithin (length types.now) typed }
    ensures answers { (ts : List Ty) (facts : Facts) → Under types.now ts facts
        → Answers (picked_of ts) (next_pick (rows_of ts picks.items) (branching_of ts values)
        (tests_of tests) (typed_of ts typed)) result }
    ensures within { IfOk result (λ p. PickedWithin (length types.now) p) }
{
    let next = typed.next;
    match branch_value(types, values, typed.expr) {
        Ok(value) => one_pick(picks, values, tests, value, next),
        Err(stop) => Err(stop),
    }
}

/// The label that what stands for a tree is.
pub fn label_from(alloc: Global, types: &TypeTable, ty: TypeId, typed: Typed) -> Result<Label, Stop>
    requires ty { ty < length types.now }
    requires typed { TypedWithin (length types.now) typed }
    requires fixed { IsFixed types.now (λ ts. expr_of ts typed.expr) }
    ensures answers { (ts : List Ty) (facts : Facts) → Under types.now ts facts
        → Answers label_of (label_from facts (type_at ts ty) (Ok (typed_of ts typed))) result }
    ensures proper { IfOk result (λ l. IsProper (label_of l)) }
{
    match value_of(typed.expr) {
        Ok(value) => label_value(alloc, types, ty, value),
        Err(stop) => Err(stop),
    }
}

fn range_place(test: &Tree) -> Option<Place>
    ensures { range_place (term_of test.now) ≡ result }
{
    match test {
        Tree::Range { at, .. } => Some(*at),
        _ => None,
    }
}

/// The place where a label is refused that has a value of an earlier one.
pub fn label_place(test: &Tree) -> Place
    ensures { result ≡ test_place (term_of test.now) }
{
    match range_place(test) {
        Some(at) => at,
        None => bare(test).place(),
    }
}

fn with_own(own: Items<Label>, label: Label, all: Labels) -> Result<Tests, Stop>
    ensures made { IfOk result (λ t. tests_of t ≡ record {
      own = map label_of own ++ label_of label ∷ [];
      all = all;
    }) }
    ensures memory { IfErr result (λ stop. stop ≡ Stop.Memory) }
{
    let mut own = own;
    own.push(label)?;
    Ok(Tests { own, all })
}

/// One more label.
pub fn with_label(alloc: Global, before: Tests, at: Place, label: Label) -> Result<Tests, Stop>
    requires { IsProper (label_of label) }
    ensures { Answers tests_of (next_test (tests_of before) at (label_of label)) result }
{
    let mut all = before.all;
    match all.take(alloc, at, &label) {
        Ok(()) => with_own(before.own, label, all),
        Err(stop) => Err(stop),
    }
}
