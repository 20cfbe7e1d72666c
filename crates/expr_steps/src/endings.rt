// What values and operands that were typed are put together to.
ghost use Rattle.std.specs.Prelude.{◌<◌, ℕ, List, length, IfOk};
ghost use Rattle.arc_base.specs.Refusal.{Answers};
ghost use Rattle.nim_tree.specs.Terms.{parts_of};
ghost use Rattle.nim_types.specs.Types.{Ty};
ghost use Rattle.nim_types.specs.Table.{type_at, IsBelow};
ghost use Rattle.nim_program.specs.Nodes.{followed_by, one_value, selecting};
ghost use Rattle.nim_program.specs.Program.{Choose, ByConditions, ByLabels, NoArg, type_of};
ghost use Rattle.nim_program.specs.View.{choices_of, expr_of, if_type, picks_of, pick_labels};
ghost use Rattle.expr_rules.specs.Answers.{gives, node};
ghost use Rattle.expr_rules.specs.Constructions.{part_names};
ghost use Rattle.expr_parts.specs.View.{env_of, number_of, want_of, typed_of};
ghost use Rattle.expr_parts.specs.ViewReady.{IsReady, WantWithin};
ghost use Rattle.expr_builds.specs.ViewBuilt.{plan_of, PlanWithin};
ghost use Rattle.expr_constants.specs.ViewFixed.{IsFixed};
ghost use Rattle.expr_steps.specs.ViewTyping.{Judges, TypedWithin, given_of, GivenWithin};
ghost use Rattle.expr_steps.specs.ViewTyping.{part_of, PartWithin, values_of, AllWithin};
ghost use Rattle.expr_steps.specs.ViewTyping.{operands_of, AllOperandsWithin};
ghost use Rattle.expr_steps.specs.ViewChoices.{conditions_of, ConditionsWithin, picked_of};
ghost use Rattle.expr_steps.specs.ViewChoices.{PickedWithin};
ghost use Rattle.expr_steps.specs.ViewEndings.{tuple_end, array_end, sequence_end, object_end};
ghost use Rattle.expr_steps.specs.ViewEndings.{field_end, call_end, conversion_end};
ghost use Rattle.expr_steps.specs.ViewEndings.{new_sequence_end, unary_end};
ghost use Rattle.expr_steps.specs.ViewEndings.{binary_end, index_end, if_end, case_end};
ghost use Rattle.expr_steps.specs.ViewEndings.{case_else_end};

use crate::any_call::{call_rule, field_rule, unary_call};
use crate::choices::{Conditions, Picked};
use crate::given::{Given, Operands, Part, Values, typed_from};
use arc_base::{Place, Stop};
use expr_builds::label_list::cover_rule;
use expr_builds::plans::{Plan, construct_rule};
use expr_builds::tuples::{array_rule, sequence_rule, tuple_rule};
use expr_calls::operator_calls::binary_rule;
use expr_constants::indexing::index_rule;
use expr_operations::new_sequences::new_sequence_rule;
use expr_parts::branches::{chosen, selected, selected_else};
use expr_parts::branching::branch_value;
use expr_parts::conversions::conversion;
use expr_parts::nodes::type_number;
use expr_parts::scope::Scope;
use expr_parts::value::{Typed, Want};
use nim_program::{Choice, Expr, Pick};
use nim_tree::{BinaryOp, Expr as Tree, UnaryOp};
use nim_types::{TypeId, TypeTable};
use std::alloc::Global;

pub fn tuple_from(
    alloc: Global,
    types: &mut TypeTable,
    scope: &Scope,
    want: Want,
    number: u32,
    at: Place,
    parts: &[Tree],
    given: Values,
) -> Result<Typed, Stop>
    requires ready { IsReady types.old scope.now }
    requires want { WantWithin (length types.old) want }
    requires given { AllWithin (length types.old) given }
    ensures { Judges types.old types.new typed_of (λ ts facts. tuple_end
        (env_of ts facts scope.now) (want_of ts want) number at (part_names (parts_of parts.now))
        (values_of ts given)) TypedWithin result }
{
    typed_from(
        tuple_rule(alloc, types, want, number, at, parts, given.all),
        given.next,
    )
}

pub fn array_from(
    alloc: Global,
    types: &mut TypeTable,
    scope: &Scope,
    number: u32,
    at: Place,
    given: Values,
) -> Result<Typed, Stop>
    requires ready { IsReady types.old scope.now }
    requires given { AllWithin (length types.old) given }
    ensures { Judges types.old types.new typed_of (λ ts facts. array_end
        (env_of ts facts scope.now) number at (values_of ts given)) TypedWithin result }
{
    typed_from(array_rule(alloc, types, number, at, given.all), given.next)
}

pub fn sequence_from(
    alloc: Global,
    types: &mut TypeTable,
    want: Want,
    number: u32,
    at: Place,
    given: Values,
) -> Result<Typed, Stop>
    requires want { WantWithin (length types.old) want }
    requires given { AllWithin (length types.old) given }
    ensures { Judges types.old types.new typed_of (λ ts facts. sequence_end
        (want_of ts want) number at (values_of ts given)) TypedWithin result }
{
    typed_from(
        sequence_rule(alloc, types, want, number, at, given.all),
        given.next,
    )
}

pub fn object_from(
    alloc: Global,
    types: &TypeTable,
    number: u32,
    at: Place,
    plan: Plan,
    given: Values,
) -> Result<Typed, Stop>
    requires plan { PlanWithin (length types.now) plan }
    requires given { AllWithin (length types.now) given }
    ensures { Judges types.now types.now typed_of (λ ts facts. object_end number at
        (plan_of ts plan) (values_of ts given)) TypedWithin result }
{
    typed_from(
        construct_rule(alloc, number, at, plan, given.all),
        given.next,
    )
}

pub fn field_from(
    alloc: Global,
    types: &TypeTable,
    scope: &Scope,
    number: u32,
    at: Place,
    name: &[u8],
    operand: Part,
) -> Result<Typed, Stop>
    requires ready { IsReady types.now scope.now }
    requires operand { PartWithin (length types.now) operand }
    ensures { Judges types.now types.now typed_of (λ ts facts. field_end
        (env_of ts facts scope.now) number at name.now (part_of ts operand)) TypedWithin result }
{
    typed_from(
        field_rule(alloc, types, scope, number, at, name, operand.operand),
        operand.next,
    )
}

pub fn call_from(
    alloc: Global,
    types: &TypeTable,
    scope: &Scope,
    number: u32,
    at: Place,
    name: &[u8],
    given: Operands,
) -> Result<Typed, Stop>
    requires ready { IsReady types.now scope.now }
    requires given { AllOperandsWithin (length types.now) given }
    ensures { Judges types.now types.now typed_of (λ ts facts. call_end
        (env_of ts facts scope.now) number at name.now (operands_of ts given)) TypedWithin result }
{
    typed_from(
        call_rule(alloc, types, scope, number, at, name, given.all),
        given.next,
    )
}

pub fn new_sequence_from(
    alloc: Global,
    types: &mut TypeTable,
    scope: &Scope,
    number: u32,
    at: Place,
    of: TypeId,
    given: Operands,
) -> Result<Typed, Stop>
    requires ready { IsReady types.old scope.now }
    requires of { of < length types.old }
    requires given { AllOperandsWithin (length types.old) given }
    ensures { Judges types.old types.new typed_of (λ ts facts. new_sequence_end number at
        (type_at ts of) (operands_of ts given)) TypedWithin result }
{
    typed_from(
        new_sequence_rule(alloc, types, scope, number, at, of, given.all),
        given.next,
    )
}

pub fn conversion_from(
    alloc: Global,
    types: &TypeTable,
    scope: &Scope,
    number: u32,
    at: Place,
    ty: TypeId,
    given: Operands,
) -> Result<Typed, Stop>
    requires ready { IsReady types.now scope.now }
    requires ty { ty < length types.now }
    requires given { AllOperandsWithin (length types.now) given }
    ensures { Judges types.now types.now typed_of (λ ts facts. conversion_end
        (env_of ts facts scope.now) number at (type_at ts ty) (operands_of ts given))
        TypedWithin result }
{
    typed_from(
        conversion(alloc, types, scope.kinds.int, number, at, ty, given.all),
        given.next,
    )
}

pub fn unary_from(
    alloc: Global,
    types: &TypeTable,
    scope: &Scope,
    number: u32,
    at: Place,
    op: UnaryOp,
    given: Given,
) -> Result<Typed, Stop>
    requires ready { IsReady types.now scope.now }
    requires given { GivenWithin (length types.now) given }
    ensures { Judges types.now types.now typed_of (λ ts facts. unary_end
        (env_of ts facts scope.now) number at op (given_of ts given)) TypedWithin result }
{
    typed_from(
        unary_call(alloc, types, scope, number, at, op, given.value),
        given.next,
    )
}

pub fn binary_from(
    alloc: Global,
    types: &TypeTable,
    scope: &Scope,
    number: u32,
    at: Place,
    op: BinaryOp,
    left: Part,
    right: Part,
) -> Result<Typed, Stop>
    requires ready { IsReady types.now scope.now }
    requires left { PartWithin (length types.now) left }
    requires right { PartWithin (length types.now) right }
    ensures { Judges types.now types.now typed_of (λ ts facts. binary_end
        (env_of ts facts scope.now) number at op (part_of ts left) (part_of ts right))
        TypedWithin result }
{
    let next = right.next;
    let answer = binary_rule(
        alloc,
        types,
        scope,
        number,
        at,
        op,
        left.operand,
        right.operand,
    );
    typed_from(answer, next)
}

pub fn index_from(
    alloc: Global,
    types: &TypeTable,
    scope: &Scope,
    number: u32,
    at: Place,
    value: Given,
    index: Given,
) -> Result<Typed, Stop>
    requires ready { IsReady types.now scope.now }
    requires value { GivenWithin (length types.now) value }
    requires index { GivenWithin (length types.now) index }
    requires fixed { IsFixed types.now (λ ts. expr_of ts index.value.expr) }
    ensures { Judges types.now types.now typed_of (λ ts facts. index_end
        (env_of ts facts scope.now) number at (given_of ts value) (given_of ts index))
        TypedWithin result }
{
    index_rule(
        alloc,
        types,
        scope,
        number,
        value.next,
        index.next,
        at,
        value.value,
        index.value,
    )
}

fn if_with(
    alloc: Global,
    number: u32,
    at: Place,
    choices: Vec<Choice>,
    otherwise: Expr,
    next: u32,
) -> Result<Typed, Stop>
    ensures answers { (ts : List Ty) → Answers (typed_of ts) (gives (Choose (node number at)
        (type_of (expr_of ts otherwise)) ByConditions
        (followed_by (choices_of ts choices.items NoArg) (one_value (expr_of ts otherwise))))
        next) result }
    ensures within { (n : ℕ) → IsBelow n (number_of otherwise)
        → IfOk result (λ t. TypedWithin n t) }
{
    let ty = type_number(&otherwise);
    typed_from(chosen(alloc, number, at, ty, choices, otherwise), next)
}

/// `if`, by its branches and the value of `else`.
pub fn if_from(
    alloc: Global,
    types: &TypeTable,
    number: u32,
    at: Place,
    given: Conditions,
    last: Typed,
) -> Result<Typed, Stop>
    requires given { ConditionsWithin (length types.now) given }
    requires last { TypedWithin (length types.now) last }
    ensures { Judges types.now types.now typed_of (λ ts facts. if_end number at
        (conditions_of ts given) (typed_of ts last)) TypedWithin result }
{
    let next = last.next;
    match branch_value(types, given.values, last.expr) {
        Ok(otherwise) => if_with(alloc, number, at, given.choices, otherwise, next),
        Err(stop) => Err(stop),
    }
}

fn case_with(
    alloc: Global,
    number: u32,
    at: Place,
    ty: Option<TypeId>,
    selector: Expr,
    picks: Vec<Pick>,
    next: u32,
) -> Result<Typed, Stop>
    ensures answers { (ts : List Ty) → Answers (typed_of ts) (gives (Choose (node number at)
        (if_type ts ty) (ByLabels (pick_labels picks.items))
        (selecting (expr_of ts selector) (picks_of ts picks.items NoArg))) next) result }
    ensures within { (n : ℕ) → IsBelow n ty → IfOk result (λ t. TypedWithin n t) }
{
    typed_from(selected(alloc, number, at, ty, selector, picks), next)
}

/// `case` without `else`, by its selector and its branches.
pub fn case_from(
    alloc: Global,
    types: &TypeTable,
    number: u32,
    at: Place,
    selector: Given,
    given: Picked,
) -> Result<Typed, Stop>
    requires selector { GivenWithin (length types.now) selector }
    requires given { PickedWithin (length types.now) given }
    ensures { Judges types.now types.now typed_of (λ ts facts. case_end facts number at
        (given_of ts selector) (picked_of ts given)) TypedWithin result }
{
    let ty = given.values.gives();
    match cover_rule(types, at, selector.value.ty, ty, &given.labels) {
        Ok(()) => case_with(
            alloc,
            number,
            at,
            ty,
            selector.value.expr,
            given.picks,
            given.next,
        ),
        Err(stop) => {
            drop(selector);
            Err(stop)
        }
    }
}

fn case_else_with(
    alloc: Global,
    number: u32,
    at: Place,
    selector: Expr,
    picks: Vec<Pick>,
    otherwise: Expr,
    next: u32,
) -> Result<Typed, Stop>
    ensures answers { (ts : List Ty) → Answers (typed_of ts) (gives (Choose (node number at)
        (type_of (expr_of ts otherwise)) (ByLabels (pick_labels picks.items))
        (selecting (expr_of ts selector) (followed_by (picks_of ts picks.items NoArg)
        (one_value (expr_of ts otherwise))))) next) result }
    ensures within { (n : ℕ) → IsBelow n (number_of otherwise)
        → IfOk result (λ t. TypedWithin n t) }
{
    let ty = type_number(&otherwise);
    typed_from(
        selected_else(alloc, number, at, ty, selector, picks, otherwise),
        next,
    )
}

/// `case`, by its selector, its branches and the value of `else`.
pub fn case_else_from(
    alloc: Global,
    types: &TypeTable,
    number: u32,
    at: Place,
    selector: Given,
    given: Picked,
    last: Typed,
) -> Result<Typed, Stop>
    requires given { PickedWithin (length types.now) given }
    requires last { TypedWithin (length types.now) last }
    ensures { Judges types.now types.now typed_of (λ ts facts. case_else_end number at
        (given_of ts selector) (picked_of ts given) (typed_of ts last)) TypedWithin result }
{
    let next = last.next;
    match branch_value(types, given.values, last.expr) {
        Ok(otherwise) => case_else_with(
            alloc,
            number,
            at,
            selector.value.expr,
            given.picks,
            otherwise,
            next,
        ),
        Err(stop) => {
            drop(selector);
            Err(stop)
        }
    }
}
