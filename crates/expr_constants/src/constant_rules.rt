// Where a constant is needed.
ghost use Rattle.std.specs.Prelude.{◌<◌, ℕ, ℤ, List, length, IfOk};
ghost use Rattle.arc_base.specs.Refusal.{Answers, and_then};
ghost use Rattle.nim_types.specs.Types.{Ty, Facts};
ghost use Rattle.nim_types.specs.Table.{type_at};
ghost use Rattle.nim_program.specs.View.{expr_of, label_of, literal_of};
ghost use Rattle.expr_rules.specs.Choices.{label_by, label_value};
ghost use Rattle.expr_rules.specs.Constants.{constant_rule, if_comes, value_in};
ghost use Rattle.expr_rules.specs.Names.{length_by, length_limit, length_rule};
ghost use Rattle.expr_parts.specs.View.{Under, IsProper, valued_of};
ghost use Rattle.expr_constants.specs.ViewConstants.{evaluated_of};
ghost use Rattle.expr_constants.specs.ViewFixed.{IsFixed};

use crate::evaluated::Evaluated;
use crate::evaluation::value_in;
use arc_base::{Code, Place, Stop};
use expr_parts::kinds::{entry, is_int, is_same};
use expr_parts::value::{Value, refusal};
use expr_rules::MOST_ELEMENTS;
use nim_program::{Expr, Label, Literal};
use nim_types::{TypeId, TypeTable};
use std::alloc::Global;

fn if_comes(at: Place, value: Evaluated<Literal>) -> Result<Literal, Stop>
    ensures { Answers literal_of (if_comes at (evaluated_of literal_of value)) result }
{
    match value {
        Evaluated::Comes(literal) => Ok(literal),
        Evaluated::Traps | Evaluated::Varies => Err(refusal(Code::NotTyped, at)),
    }
}

/// The value of a constant expression, else no rule fits at some place.
pub fn constant_at(
    alloc: Global,
    types: &TypeTable,
    at: Place,
    expr: &Expr,
) -> Result<Literal, Stop>
    requires { IsFixed types.now (λ ts. expr_of ts expr.now) }
    ensures { (ts : List Ty) (facts : Facts) → Under types.now ts facts
        → Answers literal_of (if_comes at (value_in facts (expr_of ts expr.now))) result }
{
    let value = value_in(alloc, types, expr)?;
    if_comes(at, value)
}

/// The value of a constant expression: of a `const`, a length, a label. No rule fits at what isn't
/// known before any run.
///
/// # Errors
///
/// The refusal, or want of memory.
pub fn constant_rule(alloc: Global, types: &TypeTable, value: Value) -> Result<Literal, Stop>
    requires { IsFixed types.now (λ ts. expr_of ts value.expr) }
    ensures { (ts : List Ty) (facts : Facts) → Under types.now ts facts
        → Answers literal_of (constant_rule facts (valued_of ts value)) result }
{
    let literal = constant_at(alloc, types, value.expr.node().at, &value.expr);
    drop(value);
    literal
}

// ---- labels

fn label_by(at: Place, literal: Literal) -> Result<Label, Stop>
    ensures answers { Answers label_of (label_by at (literal_of literal)) result }
    ensures proper { IfOk result (λ l. IsProper (label_of l)) }
{
    match literal {
        Literal::Ordinal(value) => Ok(Label::Ordinals {
            low: value,
            high: value,
        }),
        Literal::Text(text) => Ok(Label::Text(text)),
        Literal::Nil | Literal::Parts(_) | Literal::Elements(_) => {
            Err(refusal(Code::NotTyped, at))
        }
    }
}

// The label of a constant expression.
fn constant_label(alloc: Global, types: &TypeTable, at: Place, expr: &Expr) -> Result<Label, Stop>
    requires { IsFixed types.now (λ ts. expr_of ts expr.now) }
    ensures answers { (ts : List Ty) (facts : Facts) → Under types.now ts facts
        → Answers label_of (and_then (if_comes at (value_in facts (expr_of ts expr.now)))
        (label_by at)) result }
    ensures proper { IfOk result (λ l. IsProper (label_of l)) }
{
    match constant_at(alloc, types, at, expr) {
        Ok(literal) => label_by(at, literal),
        Err(stop) => Err(stop),
    }
}

/// A label of a selector's type.
///
/// # Errors
///
/// The refusal, or want of memory.
pub fn label_value(
    alloc: Global,
    types: &TypeTable,
    ty: TypeId,
    value: Value,
) -> Result<Label, Stop>
    requires ty { ty < length types.now }
    requires value { value.ty < length types.now }
    requires fixed { IsFixed types.now (λ ts. expr_of ts value.expr) }
    ensures answers { (ts : List Ty) (facts : Facts) → Under types.now ts facts
        → Answers label_of (label_value facts (type_at ts ty) (valued_of ts value)) result }
    ensures proper { IfOk result (λ l. IsProper (label_of l)) }
{
    let at = value.expr.node().at;
    if !is_same(types, ty, value.ty) {
        drop(value);
        return Err(refusal(Code::NotTyped, at));
    }
    let label = constant_label(alloc, types, at, &value.expr);
    drop(value);
    label
}

// ---- lengths of arrays

fn length_by(at: Place, literal: &Literal) -> Result<i32, Stop>
    ensures { Answers (λ (z : ℤ). z) (length_by at (literal_of literal.now)) result }
{
    match literal {
        Literal::Ordinal(value) => Ok(*value),
        Literal::Text(_) | Literal::Nil | Literal::Parts(_) | Literal::Elements(_) => {
            Err(refusal(Code::NotTyped, at))
        }
    }
}

// The length by a constant expression.
fn constant_length(alloc: Global, types: &TypeTable, at: Place, expr: &Expr) -> Result<i32, Stop>
    requires { IsFixed types.now (λ ts. expr_of ts expr.now) }
    ensures { (ts : List Ty) (facts : Facts) → Under types.now ts facts
        → Answers (λ (z : ℤ). z) (and_then (if_comes at (value_in facts (expr_of ts expr.now)))
        (length_by at)) result }
{
    match constant_at(alloc, types, at, expr) {
        Ok(literal) => length_by(at, &literal),
        Err(stop) => Err(stop),
    }
}

/// The length of an array: a constant int.
///
/// # Errors
///
/// The refusal, or want of memory.
pub fn length_rule(alloc: Global, types: &TypeTable, value: Value) -> Result<i32, Stop>
    requires value { value.ty < length types.now }
    requires fixed { IsFixed types.now (λ ts. expr_of ts value.expr) }
    ensures { (ts : List Ty) (facts : Facts) → Under types.now ts facts
        → Answers (λ (z : ℤ). z) (length_rule facts (valued_of ts value)) result }
{
    let at = value.expr.node().at;
    if !is_int(entry(types, value.ty)) {
        drop(value);
        return Err(refusal(Code::NotTyped, at));
    }
    let length = constant_length(alloc, types, at, &value.expr);
    drop(value);
    length
}

/// A length of an array: from 1 to the most elements.
///
/// # Errors
///
/// The refusal.
pub fn length_limit(at: Place, length: i32) -> Result<u32, Stop>
    ensures { Answers (λ (n : ℕ). n) (length_limit at length) result }
{
    if length < 1 || length.unsigned_abs() > MOST_ELEMENTS {
        return Err(refusal(Code::NotTyped, at));
    }
    Ok(length.unsigned_abs())
}
