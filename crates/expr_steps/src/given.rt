// Values, operands and typed expressions with the first number behind their nodes.
ghost use Rattle.std.specs.Prelude.{◌≡◌, ◌<◌, ℕ, ℤ, suc, not, List, [], ◌∷◌, length};
ghost use Rattle.std.specs.Prelude.{IfOk, IfErr, Ok, option_map};
ghost use Rattle.arc_base.specs.declared.place.Stop.TheVariants as Stop;
ghost use Rattle.arc_base.specs.Refusal.{Answers, and_then};
ghost use Rattle.nim_tree.specs.Terms.{term_of};
ghost use Rattle.nim_types.specs.Types.{Ty, Facts};
ghost use Rattle.nim_types.specs.Table.{type_at, IsBelow};
ghost use Rattle.nim_program.specs.Program.{Expr as Core};
ghost use Rattle.nim_program.specs.View.{expr_of};
ghost use Rattle.expr_rules.specs.Answers.{Answer, Valued, gives, typed_as, value_of};
ghost use Rattle.expr_rules.specs.Answers.{open_sequence};
ghost use Rattle.expr_rules.specs.Constructions.{field_named};
ghost use Rattle.expr_rules.specs.Names.{is_echoed, is_field, is_shown_by_call, length_rule};
ghost use Rattle.expr_rules.specs.Typed.{accepted, as_value, value_by};
ghost use Rattle.expr_parts.specs.View.{Under, env_of, found_of, typed_of, valued_of, number_of};
ghost use Rattle.expr_parts.specs.ViewReady.{IsReady};
ghost use Rattle.expr_constants.specs.ViewFixed.{IsFixed};
ghost use Rattle.expr_steps.specs.ViewDemands.{demand_of, receiver_of};
ghost use Rattle.expr_steps.specs.ViewTyping.{asks_of, AsksWithin, given_of, GivenWithin};
ghost use Rattle.expr_steps.specs.ViewTyping.{part_of, PartWithin, TypedWithin, shown_part};
ghost use Rattle.expr_steps.specs.ViewTyping.{plain_part, if_accepted, text_part};

use crate::asks::Asks;
use crate::demands::Demand;
use crate::writable::can_be_written;
use arc_base::{Place, Stop};
use expr_calls::dollars::{dollar_call, has_own_dollar};
use expr_constants::constant_rules::length_rule;
use expr_parts::branching::value_of;
use expr_parts::nodes::type_number;
use expr_parts::parts::{Found, field_named};
use expr_parts::scope::Scope;
use expr_parts::value::{Operand, Typed, Value, accepted_by};
use nim_program::Expr;
use nim_tree::Expr as Tree;
use nim_types::{TypeId, TypeTable};
use std::alloc::Global;

/// A value, and the first number behind its nodes.
#[derive(Drop)]
pub struct Given {
    pub value: Value,
    pub next: u32,
}

/// An operand, and the first number behind its nodes.
#[derive(Drop)]
pub struct Part {
    pub operand: Operand,
    pub next: u32,
}

/// The number behind a node's own; want of numbers is want of memory.
pub fn behind(number: u32) -> Result<u32, Stop>
    ensures next { IfOk result (λ n. n ≡ suc number) }
    ensures memory { IfErr result (λ stop. stop ≡ Stop.Memory) }
{
    match number.checked_add(1) {
        Some(next) => Ok(next),
        None => Err(Stop::Memory),
    }
}

/// A typed expression, with the type of its value.
pub fn gives(expr: Expr, next: u32) -> Typed
    ensures typed { (ts : List Ty) → typed_of ts result ≡ typed_as (expr_of ts expr) next }
    ensures ty { result.ty ≡ number_of result.expr }
    ensures expr { result.expr ≡ expr }
{
    let ty = type_number(&expr);
    Typed { expr, ty, next }
}

/// An expression of one node.
pub fn single(number: u32, expr: Expr) -> Result<Typed, Stop>
    ensures answers { (ts : List Ty) → Answers (typed_of ts) (gives (expr_of ts expr) (suc number))
        result }
    ensures within { (n : ℕ) → IsBelow n (number_of expr) → IfOk result (λ t. TypedWithin n t) }
{
    match behind(number) {
        Ok(next) => Ok(gives(expr, next)),
        Err(_) => {
            drop(expr);
            Err(Stop::Memory)
        }
    }
}

/// What a rule answers, with the first number behind its nodes.
pub fn typed_from(answer: Result<Expr, Stop>, next: u32) -> Result<Typed, Stop>
    ensures answers { (ts : List Ty) (said : Answer Core) → Answers (expr_of ts) said answer
        → Answers (typed_of ts) (and_then said (λ e. gives e next)) result }
    ensures within { (n : ℕ) → IfOk answer (λ e. IsBelow n (number_of e))
        → IfOk result (λ t. TypedWithin n t) }
{
    match answer {
        Ok(expr) => Ok(gives(expr, next)),
        Err(stop) => Err(stop),
    }
}

// Of a value.
fn given_from(answer: Result<Value, Stop>, next: u32) -> Result<Given, Stop>
    ensures answers { (ts : List Ty) (said : Answer Valued) → Answers (valued_of ts) said answer
        → Answers (given_of ts) (and_then said (λ v. Ok (as_value v next))) result }
    ensures within { (n : ℕ) → IfOk answer (λ v. v.ty < n) → IfOk result (λ g. GivenWithin n g) }
{
    match answer {
        Ok(value) => Ok(Given { value, next }),
        Err(stop) => Err(stop),
    }
}

// A value where the place asks for it, which can be written or not.
fn if_accepted(
    types: &TypeTable,
    asks: Asks,
    left: &[TypeId],
    writable: bool,
    value: Value,
) -> Result<Value, Stop>
    requires asks { AsksWithin (length types.now) left.now asks }
    requires value { value.ty < length types.now }
    ensures answers { (ts : List Ty) (facts : Facts) → Under types.now ts facts
        → Answers (valued_of ts) (if_accepted (asks_of ts left.now asks) writable
        (valued_of ts value)) result }
    ensures within { IfOk result (λ v. v.ty < length types.now) }
{
    accepted_by(
        asks.accepts(types, left, value.ty),
        Value {
            expr: value.expr,
            ty: value.ty,
            writable,
        },
    )
}

// A value of a type where the place asks for it, which can be written or not.
fn accepted(
    types: &TypeTable,
    asks: Asks,
    left: &[TypeId],
    writable: bool,
    expr: Expr,
) -> Result<Value, Stop>
    requires asks { AsksWithin (length types.now) left.now asks }
    requires expr { IsBelow (length types.now) (number_of expr) }
    ensures answers { (ts : List Ty) (facts : Facts) → Under types.now ts facts
        → Answers (valued_of ts) (accepted (asks_of ts left.now asks) writable (expr_of ts expr))
        result }
    ensures within { IfOk result (λ v. v.ty < length types.now) }
{
    match value_of(expr) {
        Ok(value) => if_accepted(types, asks, left, writable, value),
        Err(stop) => Err(stop),
    }
}

/// What stands for a tree, as a value that is what is asked for.
pub fn value_from(
    alloc: Global,
    types: &TypeTable,
    scope: &Scope,
    asks: Asks,
    left: &[TypeId],
    tree: &Tree,
    typed: Typed,
) -> Result<Given, Stop>
    requires asks { AsksWithin (length types.now) left.now asks }
    requires typed { TypedWithin (length types.now) typed }
    ensures answers { (ts : List Ty) (facts : Facts) → Under types.now ts facts
        → Answers (given_of ts) (value_by (env_of ts facts scope.now) (asks_of ts left.now asks)
        (term_of tree.now) (Ok (typed_of ts typed))) result }
    ensures within { IfOk result (λ g. GivenWithin (length types.now) g) }
{
    let writable = match can_be_written(alloc, scope, tree, &typed.expr) {
        Ok(writable) => writable,
        Err(_) => {
            drop(typed);
            return Err(Stop::Memory);
        }
    };
    let next = typed.next;
    given_from(accepted(types, asks, left, writable, typed.expr), next)
}

// Whether `echo` takes the value: before a dot where it has no field of this name.
fn is_echoed(types: &TypeTable, scope: &Scope, demand: Demand, ty: TypeId) -> Result<bool, Stop>
    requires { ty < length types.now }
    ensures is { IfOk result (λ holds. (ts : List Ty) (facts : Facts) → Under types.now ts facts
        → is_echoed (env_of ts facts scope.now) (demand_of demand) (type_at ts ty) ≡ holds) }
    ensures memory { IfErr result (λ stop. stop ≡ Stop.Memory) }
{
    match demand {
        Demand::Echoed => Ok(true),
        Demand::Receiver { of_echo } => is_echoed_before(types, scope, of_echo, ty),
        _ => Ok(false),
    }
}

// Before a dot, and the name of `echo` or another.
fn is_echoed_before(
    types: &TypeTable,
    scope: &Scope,
    of_echo: bool,
    ty: TypeId,
) -> Result<bool, Stop>
    requires { ty < length types.now }
    ensures is { IfOk result (λ holds. (ts : List Ty) (facts : Facts) → Under types.now ts facts
        → is_echoed (env_of ts facts scope.now) (receiver_of of_echo) (type_at ts ty) ≡ holds) }
    ensures memory { IfErr result (λ stop. stop ≡ Stop.Memory) }
{
    if !of_echo {
        return Ok(false);
    }
    has_no_field(types, scope, b"echo", ty)
}

fn is_none(field: Option<Found>) -> bool
    ensures { (ts : List Ty) → not (is_field (option_map (found_of ts) field)) ≡ result }
{
    match field {
        Some(_) => false,
        None => true,
    }
}

fn has_no_field(types: &TypeTable, scope: &Scope, name: &[u8], ty: TypeId) -> Result<bool, Stop>
    requires { ty < length types.now }
    ensures is { IfOk result (λ holds. (ts : List Ty) (facts : Facts) → Under types.now ts facts
        → not (is_field (field_named (env_of ts facts scope.now) name.now (type_at ts ty)))
        ≡ holds) }
    ensures memory { IfErr result (λ stop. stop ≡ Stop.Memory) }
{
    let field = field_named(types, scope, name, ty)?;
    Ok(is_none(field))
}

/// Whether `echo` calls a `$` of one's own for the value.
pub fn is_shown_by_call(
    alloc: Global,
    types: &TypeTable,
    scope: &Scope,
    demand: Demand,
    value: &Value,
) -> Result<bool, Stop>
    requires ready { IsReady types.now scope.now }
    requires value { value.now.ty < length types.now }
    ensures is { IfOk result (λ holds. (ts : List Ty) (facts : Facts) → Under types.now ts facts
        → is_shown_by_call (env_of ts facts scope.now) (demand_of demand) (valued_of ts value.now)
        ≡ holds) }
    ensures memory { IfErr result (λ stop. stop ≡ Stop.Memory) }
{
    let echoed = is_echoed(types, scope, demand, value.ty)?;
    if !echoed {
        return Ok(false);
    }
    has_own_dollar(alloc, types, scope, value)
}

// What shows a value, as an operand: a text.
fn shown_from(answer: Result<Expr, Stop>, ty: TypeId, next: u32) -> Result<Part, Stop>
    ensures answers { (ts : List Ty) (said : Answer Core) → Answers (expr_of ts) said answer
        → Answers (part_of ts) (text_part said (type_at ts ty) next) result }
    ensures within { (n : ℕ) → ty < n → IfOk result (λ p. PartWithin n p) }
{
    match answer {
        Ok(expr) => Ok(Part {
            operand: Operand::Value(Value {
                expr,
                ty,
                writable: false,
            }),
            next,
        }),
        Err(stop) => Err(stop),
    }
}

/// A value that was typed with numbers behind that of the call which shows it, as that call.
pub fn shown(
    alloc: Global,
    types: &TypeTable,
    scope: &Scope,
    number: u32,
    given: Given,
) -> Result<Part, Stop>
    requires ready { IsReady types.now scope.now }
    requires given { GivenWithin (length types.now) given }
    ensures answers { (ts : List Ty) (facts : Facts) → Under types.now ts facts
        → Answers (part_of ts) (shown_part (env_of ts facts scope.now) number (given_of ts given))
        result }
    ensures within { IfOk result (λ p. PartWithin (length types.now) p) }
{
    let next = given.next;
    let answer = dollar_call(alloc, types, scope, number, given.value);
    shown_from(answer, scope.kinds.text, next)
}

/// Values in order.
#[derive(Drop)]
pub struct Values {
    pub all: Vec<Value>,
    pub next: u32,
}

/// Operands in order.
#[derive(Drop)]
pub struct Operands {
    pub all: Vec<Operand>,
    pub next: u32,
}

/// A value as an operand.
pub fn plain(given: Given) -> Part
    ensures part { (ts : List Ty) → part_of ts result ≡ plain_part (given_of ts given) }
    ensures within { (n : ℕ) → GivenWithin n given → PartWithin n result }
{
    Part {
        operand: Operand::Value(given.value),
        next: given.next,
    }
}

/// `@[]` whose type the operation gives, as an operand of one node.
pub fn open_part(number: u32, at: Place) -> Result<Part, Stop>
    ensures part { IfOk result (λ p. (ts : List Ty) → part_of ts p ≡ record {
      operand = open_sequence at number;
      next = suc number;
    }) }
    ensures within { IfOk result (λ p. (n : ℕ) → PartWithin n p) }
    ensures memory { IfErr result (λ stop. stop ≡ Stop.Memory) }
{
    let next = behind(number)?;
    Ok(Part {
        operand: Operand::Open { at, number },
        next,
    })
}

/// A list of one operand.
pub fn alone_in(alloc: Global, operand: Operand) -> Result<Vec<Operand>, Stop>
    ensures all { IfOk result (λ all. all.items ≡ operand ∷ []) }
    ensures memory { IfErr result (λ stop. stop ≡ Stop.Memory) }
{
    let mut all = Vec::new(alloc);
    all.push(operand)?;
    Ok(all)
}

/// The length of an array, by what stands for it.
pub fn length_from(alloc: Global, types: &TypeTable, typed: Typed) -> Result<i32, Stop>
    requires typed { TypedWithin (length types.now) typed }
    requires fixed { IsFixed types.now (λ ts. expr_of ts typed.expr) }
    ensures { (ts : List Ty) (facts : Facts) → Under types.now ts facts
        → Answers (λ (z : ℤ). z) (and_then (value_of (expr_of ts typed.expr)) (length_rule facts))
        result }
{
    match value_of(typed.expr) {
        Ok(value) => length_rule(alloc, types, value),
        Err(stop) => Err(stop),
    }
}
