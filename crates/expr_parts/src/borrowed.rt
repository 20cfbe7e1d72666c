// Operations that a distinct type borrows from its base.
ghost use Rattle.std.specs.Prelude.{◌≡◌, List, [], ◌∷◌, length, IfOk};
ghost use Rattle.arc_base.specs.Refusal.{Answers};
ghost use Rattle.nim_types.specs.Types.{Ty, Facts};
ghost use Rattle.nim_types.specs.Table.{IsBelow};
ghost use Rattle.nim_program.specs.View.{expr_of};
ghost use Rattle.expr_rules.specs.Env.{Parameter};
ghost use Rattle.expr_rules.specs.Calls.{comparisons, comparison_named, borrowed_call};
ghost use Rattle.expr_parts.specs.View.{Under, KindsIn, number_of, valued_of};

use crate::names::is_word;
use crate::nodes::{on_one, on_two};
use crate::scope::Kinds;
use crate::value::{Value, refusal};
use arc_base::{Code, Place, Stop};
use nim_program::{Comparison, Expr, Operand as Argument, Operation};
use nim_types::TypeTable;
use std::alloc::Global;

/// The comparison with this name.
pub fn comparison_named(name: &[u8]) -> Option<Comparison>
    ensures { comparison_named name.now comparisons ≡ result }
{
    if is_word(name, b"==") {
        Some(Comparison::Equal)
    } else if is_word(name, b"!=") {
        Some(Comparison::Unequal)
    } else if is_word(name, b"<") {
        Some(Comparison::Less)
    } else if is_word(name, b"<=") {
        Some(Comparison::AtMost)
    } else if is_word(name, b">") {
        Some(Comparison::Greater)
    } else if is_word(name, b">=") {
        Some(Comparison::AtLeast)
    } else {
        None
    }
}

/// A borrowed operation on one value: `$`.
pub fn borrowed_on_one(
    alloc: Global,
    types: &TypeTable,
    kinds: Kinds,
    number: u32,
    at: Place,
    comparison: Option<Comparison>,
    value: Value,
) -> Result<Expr, Stop>
    requires { KindsIn types.now kinds }
    ensures answers { (ts : List Ty) (facts : Facts) → Under types.now ts facts → (p : Parameter)
        → Answers (expr_of ts) (borrowed_call number at comparison
        ((p, valued_of ts value) ∷ [])) result }
    ensures within { IfOk result (λ e. IsBelow (length types.now) (number_of e)) }
{
    match comparison {
        None => on_one(
            alloc,
            number,
            at,
            Some(kinds.text),
            Operation::Show,
            Argument::Value(value.expr),
        ),
        Some(_) => {
            drop(value);
            Err(refusal(Code::NotTyped, at))
        }
    }
}

/// A borrowed operation on two values: a comparison.
pub fn borrowed_on_two(
    alloc: Global,
    types: &TypeTable,
    kinds: Kinds,
    number: u32,
    at: Place,
    comparison: Option<Comparison>,
    left: Value,
    right: Value,
) -> Result<Expr, Stop>
    requires { KindsIn types.now kinds }
    ensures answers { (ts : List Ty) (facts : Facts) → Under types.now ts facts → (p q : Parameter)
        → Answers (expr_of ts) (borrowed_call number at comparison
        ((p, valued_of ts left) ∷ (q, valued_of ts right) ∷ [])) result }
    ensures within { IfOk result (λ e. IsBelow (length types.now) (number_of e)) }
{
    match comparison {
        Some(comparison) => on_two(
            alloc,
            number,
            at,
            Some(kinds.bool),
            Operation::Compare(comparison),
            Argument::Value(left.expr),
            Argument::Value(right.expr),
        ),
        None => {
            drop(left);
            drop(right);
            Err(refusal(Code::NotTyped, at))
        }
    }
}
