// Operators before and between operands.
ghost use Rattle.std.specs.Prelude.{◌≡◌, ◌<◌, List, length, IfOk};
ghost use Rattle.arc_base.specs.Refusal.{Answers};
ghost use Rattle.nim_types.specs.Types.{Ty, Facts, same};
ghost use Rattle.nim_types.specs.Table.{meant, IsBelow};
ghost use Rattle.nim_program.specs.View.{expr_of};
ghost use Rattle.expr_rules.specs.Operators.{unary_of, unary_rule, of_ints, of_bits, of_texts};
ghost use Rattle.expr_rules.specs.Operators.{of_equals, meaning_of, is_comparison};
ghost use Rattle.expr_parts.specs.View.{Under, valued_of, number_of, meaning_in};

use crate::kinds::{entry, is_shown, is_text_or_char};
use crate::nodes::on_one;
use crate::value::{Value, refusal};
use arc_base::{Code, Place, Stop};
use nim_program::{
    Comparison, Expr, Operand as Argument, Operation, Operator, Short, UnaryOperator,
};
use nim_tree::{BinaryOp, UnaryOp};
use nim_types::{TypeDef, TypeTable};
use std::alloc::Global;

fn unary_operator(op: UnaryOp, def: &TypeDef) -> Option<UnaryOperator>
    ensures { (ts : List Ty) → unary_of op (meant ts def.now) ≡ result }
{
    match (op, def) {
        (UnaryOp::Minus, TypeDef::Int) => Some(UnaryOperator::Negate),
        (UnaryOp::Plus, TypeDef::Int) => Some(UnaryOperator::Plus),
        (UnaryOp::Not, TypeDef::Int) => Some(UnaryOperator::Complement),
        (UnaryOp::Not, TypeDef::Bool) => Some(UnaryOperator::Not),
        _ => None,
    }
}

/// The operation that an operator before a value means.
pub fn unary(
    alloc: Global,
    types: &TypeTable,
    number: u32,
    at: Place,
    op: UnaryOp,
    value: Value,
) -> Result<Expr, Stop>
    requires { value.ty < length types.now }
    ensures answers { (ts : List Ty) (facts : Facts) → Under types.now ts facts
        → Answers (expr_of ts) (unary_rule number at op (valued_of ts value)) result }
    ensures within { IfOk result (λ e. IsBelow (length types.now) (number_of e)) }
{
    match unary_operator(op, entry(types, value.ty)) {
        Some(operator) => on_one(
            alloc,
            number,
            at,
            Some(value.ty),
            Operation::Unary(operator),
            Argument::Value(value.expr),
        ),
        None => {
            drop(value);
            Err(refusal(Code::NotTyped, at))
        }
    }
}

/// What an operator means on operands of two types.
#[derive(Clone, Copy)]
pub enum Meaning {
    /// An operation whose value has the type of the left operand.
    Computes(Operator),
    /// `and` and `or` of bools.
    StopsEarly(Short),
    Joins,
    Compares(Comparison),
    Nothing,
}

fn of_ints(operator: Operator, left: &TypeDef, right: &TypeDef) -> Meaning
    ensures { (ts : List Ty) → of_ints operator (meant ts left.now) (meant ts right.now)
        ≡ meaning_in (meant ts left.now) result }
{
    match (left, right) {
        (TypeDef::Int, TypeDef::Int) => Meaning::Computes(operator),
        _ => Meaning::Nothing,
    }
}

fn of_bits(operator: Operator, logic: Meaning, left: &TypeDef, right: &TypeDef) -> Meaning
    ensures { (ts : List Ty) → of_bits operator (meaning_in (meant ts left.now) logic)
        (meant ts left.now) (meant ts right.now) ≡ meaning_in (meant ts left.now) result }
{
    match (left, right) {
        (TypeDef::Int, TypeDef::Int) => Meaning::Computes(operator),
        (TypeDef::Bool, TypeDef::Bool) => logic,
        _ => Meaning::Nothing,
    }
}

fn of_texts(left: &TypeDef, right: &TypeDef) -> Meaning
    ensures { (ts : List Ty) → of_texts (meant ts left.now) (meant ts right.now)
        ≡ meaning_in (meant ts left.now) result }
{
    if is_text_or_char(left) && is_text_or_char(right) {
        Meaning::Joins
    } else {
        Meaning::Nothing
    }
}

fn of_equals(comparison: Comparison, are_same: bool, left: &TypeDef, right: &TypeDef) -> Meaning
    ensures { (ts : List Ty) → same (meant ts left.now) (meant ts right.now) ≡ are_same
        → of_equals comparison (meant ts left.now) (meant ts right.now)
        ≡ meaning_in (meant ts left.now) result }
{
    if are_same && is_shown(left) {
        Meaning::Compares(comparison)
    } else {
        Meaning::Nothing
    }
}

/// What an operator means on operands of these types.
pub fn meaning_on(op: BinaryOp, are_same: bool, left: &TypeDef, right: &TypeDef) -> Meaning
    ensures { (ts : List Ty) → same (meant ts left.now) (meant ts right.now) ≡ are_same
        → meaning_of op (meant ts left.now) (meant ts right.now)
        ≡ meaning_in (meant ts left.now) result }
{
    match op {
        BinaryOp::Plus => of_ints(Operator::Add, left, right),
        BinaryOp::Minus => of_ints(Operator::Subtract, left, right),
        BinaryOp::Times => of_ints(Operator::Multiply, left, right),
        BinaryOp::Div => of_ints(Operator::Divide, left, right),
        BinaryOp::Mod => of_ints(Operator::Modulo, left, right),
        BinaryOp::Shl => of_ints(Operator::ShiftLeft, left, right),
        BinaryOp::Shr => of_ints(Operator::ShiftRight, left, right),
        BinaryOp::And => of_bits(
            Operator::BitAnd,
            Meaning::StopsEarly(Short::And),
            left,
            right,
        ),
        BinaryOp::Or => of_bits(Operator::BitOr, Meaning::StopsEarly(Short::Or), left, right),
        BinaryOp::Xor => of_bits(
            Operator::BitXor,
            Meaning::Computes(Operator::BitXor),
            left,
            right,
        ),
        BinaryOp::Join => of_texts(left, right),
        BinaryOp::Equal => of_equals(Comparison::Equal, are_same, left, right),
        BinaryOp::Unequal => of_equals(Comparison::Unequal, are_same, left, right),
        BinaryOp::Less => of_equals(Comparison::Less, are_same, left, right),
        BinaryOp::AtMost => of_equals(Comparison::AtMost, are_same, left, right),
        BinaryOp::Greater => of_equals(Comparison::Greater, are_same, left, right),
        BinaryOp::AtLeast => of_equals(Comparison::AtLeast, are_same, left, right),
    }
}

pub fn is_comparison(op: BinaryOp) -> bool
    ensures { result ≡ is_comparison op }
{
    matches!(
        op,
        BinaryOp::Equal
            | BinaryOp::Unequal
            | BinaryOp::Less
            | BinaryOp::AtMost
            | BinaryOp::Greater
            | BinaryOp::AtLeast
    )
}
