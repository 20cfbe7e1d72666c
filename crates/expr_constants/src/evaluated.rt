// What operations give of constants.
ghost use Rattle.std.specs.Prelude.{◌≡◌, [], ◌∷◌, ◌++◌, IfOk, OnOk};
ghost use Rattle.nim_program.specs.Ints.{truth};
ghost use Rattle.nim_program.specs.Program.{ElementsOf, Number, PartsOf};
ghost use Rattle.nim_program.specs.View.{literal_of, literals_of};
ghost use Rattle.expr_rules.specs.Constants.{comes_to, on_one, on_two, unary_of, binary_of};
ghost use Rattle.expr_rules.specs.Constants.{if_fine};
ghost use Rattle.expr_rules.specs.Constants.{compare_of, both_of, either_of, unless_varies};
ghost use Rattle.expr_rules.specs.Constants.{text_order, join_of, limited, measured, measure_of};
ghost use Rattle.expr_constants.specs.ViewConstants.{evaluated_of, has_letters, letters};
ghost use Rattle.expr_constants.specs.ViewConstants.{left_of, values_of, and_value};
ghost use Rattle.expr_rules.specs.Constants.{Evaluated as Meaning, alone, in_pair, varies};
ghost use Rattle.expr_rules.specs.Constants.{number_in, short_of};
ghost use Rattle.nim_program.specs.Program.{Literal as Meant};
ghost use Rattle.plain_values.specs.Checked.{checked_of};

use crate::literal_sizes::is_small;
use arc_base::{Bytes, Memory};
use nim_program::{Comparison, Literal, Measure, Operator, Short, UnaryOperator};
use plain_values::{Trap, add_char, apply, calculate, compares};
use std::alloc::Global;

/// What an expression comes to before any run.
#[derive(Drop)]
pub enum Evaluated<T> {
    Comes(T),
    /// An operation in it traps, or a value in it is too large.
    Traps,
    /// It isn't constant.
    Varies,
}

/// What the two operands of an operation come to.
#[derive(Drop)]
pub struct Pair {
    pub left: Evaluated<Literal>,
    pub right: Evaluated<Literal>,
}

// ---- values

/// A number, where no operation trapped.
pub fn number_or_trap(number: Result<i32, Trap>) -> Evaluated<Literal>
    ensures { evaluated_of literal_of result ≡ if_fine (checked_of number) }
{
    match number {
        Ok(value) => Evaluated::Comes(Literal::Ordinal(value)),
        Err(_) => Evaluated::Traps,
    }
}

fn truth(holds: bool) -> Evaluated<Literal>
    ensures { evaluated_of literal_of result ≡ comes_to (Number (truth holds)) }
{
    Evaluated::Comes(Literal::Ordinal(i32::from(holds)))
}

/// A value that isn't too large.
pub fn limited(literal: Literal) -> Evaluated<Literal>
    ensures { evaluated_of literal_of result ≡ limited (literal_of literal) }
{
    if is_small(&literal) {
        Evaluated::Comes(literal)
    } else {
        Evaluated::Traps
    }
}

// ---- operations on numbers

fn unary_of(operator: UnaryOperator, a: &Literal) -> Evaluated<Literal>
    ensures { evaluated_of literal_of result ≡ unary_of operator (literal_of a.now) }
{
    match a {
        Literal::Ordinal(x) => number_or_trap(apply(operator, *x)),
        Literal::Text(_) | Literal::Nil | Literal::Parts(_) | Literal::Elements(_) =>
            Evaluated::Varies,
    }
}

/// An operation on one value.
pub fn unary(operator: UnaryOperator, a: &Evaluated<Literal>) -> Evaluated<Literal>
    ensures { evaluated_of literal_of result
        ≡ on_one (unary_of operator) (evaluated_of literal_of a.now) }
{
    match a {
        Evaluated::Comes(a) => unary_of(operator, a),
        Evaluated::Traps => Evaluated::Traps,
        Evaluated::Varies => Evaluated::Varies,
    }
}

fn binary_of(operator: Operator, a: &Literal, b: &Literal) -> Evaluated<Literal>
    ensures { evaluated_of literal_of result
        ≡ binary_of operator (literal_of a.now) (literal_of b.now) }
{
    match (a, b) {
        (Literal::Ordinal(x), Literal::Ordinal(y)) => number_or_trap(calculate(operator, *x, *y)),
        _ => Evaluated::Varies,
    }
}

/// An operation on two values.
pub fn binary(operator: Operator, pair: &Pair) -> Evaluated<Literal>
    ensures { evaluated_of literal_of result ≡ on_two (binary_of operator)
        (evaluated_of literal_of pair.now.left) (evaluated_of literal_of pair.now.right) }
{
    match (&pair.left, &pair.right) {
        (Evaluated::Comes(a), Evaluated::Comes(b)) => binary_of(operator, a, b),
        (Evaluated::Varies, _) | (_, Evaluated::Varies) => Evaluated::Varies,
        _ => Evaluated::Traps,
    }
}

// ---- comparisons

// Which of two texts comes first, byte by byte: below 0 the first, above 0 the second.
fn text_order(a: &[u8], b: &[u8]) -> i32
    ensures { result ≡ text_order a.now b.now }
{
    let mut left = a;
    let mut right = b;
    while let Some((x, more_left)) = left.split_first() {
        match right.split_first() {
            None => return 1,
            Some((y, more_right)) => {
                if x < y {
                    return -1;
                }
                if y < x {
                    return 1;
                }
                left = more_left;
                right = more_right;
            }
        }
    }
    if right.is_empty() { 0 } else { -1 }
}

fn compare_of(comparison: Comparison, a: &Literal, b: &Literal) -> Evaluated<Literal>
    ensures { evaluated_of literal_of result
        ≡ compare_of comparison (literal_of a.now) (literal_of b.now) }
{
    match (a, b) {
        (Literal::Ordinal(x), Literal::Ordinal(y)) => truth(compares(comparison, *x, *y)),
        (Literal::Text(s), Literal::Text(t)) => {
            let order = text_order(s.as_slice(), t.as_slice());
            truth(compares(comparison, order, 0))
        }
        _ => Evaluated::Varies,
    }
}

/// A comparison of two values.
pub fn compare(comparison: Comparison, pair: &Pair) -> Evaluated<Literal>
    ensures { evaluated_of literal_of result ≡ on_two (compare_of comparison)
        (evaluated_of literal_of pair.now.left) (evaluated_of literal_of pair.now.right) }
{
    match (&pair.left, &pair.right) {
        (Evaluated::Comes(a), Evaluated::Comes(b)) => compare_of(comparison, a, b),
        (Evaluated::Varies, _) | (_, Evaluated::Varies) => Evaluated::Varies,
        _ => Evaluated::Traps,
    }
}

// ---- `and` and `or`

// What isn't looked at may trap.
fn unless_varies(a: &Evaluated<Literal>, value: i32) -> Evaluated<Literal>
    ensures { evaluated_of literal_of result
        ≡ unless_varies (evaluated_of literal_of a.now) value }
{
    match a {
        Evaluated::Comes(_) | Evaluated::Traps => Evaluated::Comes(Literal::Ordinal(value)),
        Evaluated::Varies => Evaluated::Varies,
    }
}

/// The number that it comes to.
pub fn number_in(a: &Evaluated<Literal>) -> Option<i32>
    ensures { result ≡ number_in (evaluated_of literal_of a.now) }
{
    match a {
        Evaluated::Comes(Literal::Ordinal(x)) => Some(*x),
        _ => None,
    }
}

// Before what is looked at too.
fn left_of(a: Evaluated<Literal>, b: &Evaluated<Literal>) -> Evaluated<Literal>
    ensures { evaluated_of literal_of result
        ≡ left_of (evaluated_of literal_of a) (evaluated_of literal_of b.now) }
{
    match b {
        Evaluated::Comes(_) | Evaluated::Traps => a,
        Evaluated::Varies => Evaluated::Varies,
    }
}

/// `and`, which stops early.
pub fn both(pair: Pair) -> Evaluated<Literal>
    ensures { evaluated_of literal_of result
        ≡ both_of (evaluated_of literal_of pair.left) (evaluated_of literal_of pair.right) }
{
    match number_in(&pair.left) {
        Some(x) => {
            if x != 0 {
                pair.right
            } else {
                unless_varies(&pair.right, 0)
            }
        }
        None => left_of(pair.left, &pair.right),
    }
}

/// `or`, which stops early.
pub fn either(pair: Pair) -> Evaluated<Literal>
    ensures { evaluated_of literal_of result
        ≡ either_of (evaluated_of literal_of pair.left) (evaluated_of literal_of pair.right) }
{
    match number_in(&pair.left) {
        Some(x) => {
            if x != 0 {
                unless_varies(&pair.right, 1)
            } else {
                pair.right
            }
        }
        None => left_of(pair.left, &pair.right),
    }
}

/// An operator that stops early.
pub fn stopping(short: Short, pair: Pair) -> Evaluated<Literal>
    ensures { evaluated_of literal_of result ≡ short_of short
        (evaluated_of literal_of pair.left) (evaluated_of literal_of pair.right) }
{
    match short {
        Short::And => both(pair),
        Short::Or => either(pair),
    }
}

// ---- texts

fn has_letters(a: &Literal) -> bool
    ensures { has_letters (literal_of a.now) ≡ result }
{
    matches!(a, Literal::Ordinal(_) | Literal::Text(_))
}

// Adds the bytes of a text, or of a char.
fn add_letters(a: &Literal, text: &mut Bytes) -> Result<(), Memory>
    ensures { OnOk result (text.new ≡ text.old ++ letters (literal_of a.now)) }
{
    match a {
        Literal::Ordinal(z) => add_char(*z, text),
        Literal::Text(bytes) => text.append(bytes.as_slice()),
        Literal::Nil | Literal::Parts(_) | Literal::Elements(_) => Ok(()),
    }
}

// A text or a char, and another behind it.
fn join_of(alloc: Global, a: &Literal, b: &Literal) -> Result<Evaluated<Literal>, Memory>
    ensures { IfOk result (λ e. evaluated_of literal_of e
        ≡ join_of (literal_of a.now) (literal_of b.now)) }
{
    if !has_letters(a) || !has_letters(b) {
        return Ok(Evaluated::Varies);
    }
    let mut text = Bytes::new(alloc);
    add_letters(a, &mut text)?;
    add_letters(b, &mut text)?;
    Ok(limited(Literal::Text(text)))
}

/// `&` of two values.
pub fn join(alloc: Global, pair: &Pair) -> Result<Evaluated<Literal>, Memory>
    ensures { IfOk result (λ e. evaluated_of literal_of e ≡ on_two join_of
        (evaluated_of literal_of pair.now.left) (evaluated_of literal_of pair.now.right)) }
{
    match (&pair.left, &pair.right) {
        (Evaluated::Comes(a), Evaluated::Comes(b)) => join_of(alloc, a, b),
        (Evaluated::Varies, _) | (_, Evaluated::Varies) => Ok(Evaluated::Varies),
        _ => Ok(Evaluated::Traps),
    }
}

// ---- lengths

// The length or the last index of so many.
fn measured(measure: Measure, count: usize) -> Result<Evaluated<Literal>, Memory>
    ensures { IfOk result (λ e. evaluated_of literal_of e
        ≡ comes_to (Number (measured measure count))) }
{
    match i32::try_from(count) {
        Ok(len) => Ok(Evaluated::Comes(Literal::Ordinal(match measure {
            Measure::Len => len,
            Measure::High => len - 1,
        }))),
        Err(_) => Err(Memory),
    }
}

fn measure_of(measure: Measure, a: &Literal) -> Result<Evaluated<Literal>, Memory>
    ensures { IfOk result (λ e. evaluated_of literal_of e
        ≡ measure_of measure (literal_of a.now)) }
{
    match a {
        Literal::Ordinal(_) | Literal::Nil => Ok(Evaluated::Varies),
        Literal::Text(bytes) => measured(measure, bytes.as_slice().len()),
        Literal::Parts(all) => measured(measure, all.len()),
        Literal::Elements(all) => measured(measure, all.len()),
    }
}

/// `len` or `high` of a value.
pub fn measure(measure: Measure, a: &Evaluated<Literal>) -> Result<Evaluated<Literal>, Memory>
    ensures { IfOk result (λ e. evaluated_of literal_of e
        ≡ on_one (measure_of measure) (evaluated_of literal_of a.now)) }
{
    match a {
        Evaluated::Comes(a) => measure_of(measure, a),
        Evaluated::Traps => Ok(Evaluated::Traps),
        Evaluated::Varies => Ok(Evaluated::Varies),
    }
}

// ---- lists

/// Values with one more, which follows them.
pub fn with_value(
    done: Evaluated<Vec<Literal>>,
    value: Evaluated<Literal>,
) -> Result<Evaluated<Vec<Literal>>, Memory>
    ensures { IfOk result (λ e. evaluated_of values_of e
        ≡ on_two and_value (evaluated_of values_of done) (evaluated_of literal_of value)) }
{
    match done {
        Evaluated::Comes(all) => match value {
            Evaluated::Comes(value) => and_value(all, value),
            Evaluated::Traps => Ok(Evaluated::Traps),
            Evaluated::Varies => Ok(Evaluated::Varies),
        },
        Evaluated::Traps => match value {
            Evaluated::Comes(_) | Evaluated::Traps => Ok(Evaluated::Traps),
            Evaluated::Varies => Ok(Evaluated::Varies),
        },
        Evaluated::Varies => Ok(Evaluated::Varies),
    }
}

fn and_value(all: Vec<Literal>, value: Literal) -> Result<Evaluated<Vec<Literal>>, Memory>
    ensures { IfOk result (λ e. evaluated_of values_of e
        ≡ and_value (literals_of all.items) (literal_of value)) }
{
    let mut all = all;
    all.push(value)?;
    Ok(Evaluated::Comes(all))
}

/// The value, where there is one alone.
pub fn only(all: Evaluated<Vec<Literal>>) -> Evaluated<Literal>
    ensures { (go : Meant → Meaning Meant) → on_one (alone go) (evaluated_of values_of all)
        ≡ on_one go (evaluated_of literal_of result) }
{
    match all {
        Evaluated::Comes(all) => one_of(all),
        Evaluated::Traps => Evaluated::Traps,
        Evaluated::Varies => Evaluated::Varies,
    }
}

fn one_of(all: Vec<Literal>) -> Evaluated<Literal>
    ensures { (go : Meant → Meaning Meant) → alone go (literals_of all.items)
        ≡ on_one go (evaluated_of literal_of result) }
{
    let mut others = all;
    match others.pop() {
        Some(last) => unless_others(others.as_slice(), last),
        None => Evaluated::Varies,
    }
}

fn unless_others(others: &[Literal], last: Literal) -> Evaluated<Literal>
    ensures { (go : Meant → Meaning Meant) → alone go (literals_of (others.now ++ last ∷ []))
        ≡ on_one go (evaluated_of literal_of result) }
{
    let count = others.len();
    if count > 0 {
        drop(last);
        return Evaluated::Varies;
    }
    Evaluated::Comes(last)
}

/// Both values, where there are two.
pub fn two_of(all: Evaluated<Vec<Literal>>) -> Pair
    ensures { (go : Meant → Meant → Meaning Meant) →
        on_one (in_pair go) (evaluated_of values_of all)
        ≡ on_two go (evaluated_of literal_of result.left) (evaluated_of literal_of result.right) }
{
    match all {
        Evaluated::Comes(all) => pair_of(all),
        Evaluated::Traps => Pair {
            left: Evaluated::Traps,
            right: Evaluated::Traps,
        },
        Evaluated::Varies => no_pair(),
    }
}

fn no_pair() -> Pair
    ensures left { evaluated_of literal_of result.left ≡ varies }
    ensures right { evaluated_of literal_of result.right ≡ varies }
{
    Pair {
        left: Evaluated::Varies,
        right: Evaluated::Varies,
    }
}

fn pair_of(all: Vec<Literal>) -> Pair
    ensures { (go : Meant → Meant → Meaning Meant) → in_pair go (literals_of all.items)
        ≡ on_two go (evaluated_of literal_of result.left) (evaluated_of literal_of result.right) }
{
    let mut others = all;
    match others.pop() {
        Some(right) => Pair {
            left: one_of(others),
            right: Evaluated::Comes(right),
        },
        None => no_pair(),
    }
}

/// The parts of a tuple or an array.
pub fn as_parts(all: Evaluated<Vec<Literal>>) -> Evaluated<Literal>
    ensures { evaluated_of literal_of result
        ≡ on_one (λ all. limited (PartsOf all)) (evaluated_of values_of all) }
{
    match all {
        Evaluated::Comes(all) => limited(Literal::Parts(all)),
        Evaluated::Traps => Evaluated::Traps,
        Evaluated::Varies => Evaluated::Varies,
    }
}

/// The elements of a sequence.
pub fn as_elements(all: Evaluated<Vec<Literal>>) -> Evaluated<Literal>
    ensures { evaluated_of literal_of result
        ≡ on_one (λ all. limited (ElementsOf all)) (evaluated_of values_of all) }
{
    match all {
        Evaluated::Comes(all) => limited(Literal::Elements(all)),
        Evaluated::Traps => Evaluated::Traps,
        Evaluated::Varies => Evaluated::Varies,
    }
}
