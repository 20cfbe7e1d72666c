// The forms of pieces, byte by byte.
ghost use Rattle.std.specs.Prelude.{◌≡◌, ◌≤◌, ◌<◌, ◌+◌, ◌^◌, ℕ, Some, None, IfSome, IsTrue, true, false, length};
ghost use Rattle.indent_scanner.specs.Shape.{word_step, under_step, while_word, with_digit, digit_step, digit_due_step};
ghost use Rattle.indent_scanner.specs.Shape.{zero_step, character, plain_step, inside_step, decimal_step, simple_step};
ghost use Rattle.indent_scanner.specs.Shape.{escaped_step, hex_step, quoted_step, line_step, nested_on, nested_step};
ghost use Rattle.indent_scanner.specs.Shape.{run_step, single_step, step, is_whole, depth_of, form};

use crate::bytes::{
    byte_at, digit_value, hex_value, in_run, is_digit, is_line_byte, is_quotable, is_word,
    simple_escape,
};

/// What ends a literal.
#[derive(Clone, Copy)]
pub enum Quote {
    Char,
    Text,
}

/// What the last byte of a comment that nests is for the next one.
#[derive(Clone, Copy)]
pub enum Last {
    Other,
    Hash,
    Bracket,
}

/// What is read so far of a piece.
#[derive(Clone, Copy)]
pub enum Shape {
    /// A name.
    Word,
    /// A name that ends with `_`.
    WordUnder,
    /// A name with two `_` in a row.
    BrokenWord,
    /// The integer `0`.
    Zero,
    /// An integer: its base, and its value.
    Number(u64, u64),
    /// An integer that lacks a digit: its base, and its value so far.
    NumberUnder(u64, u64),
    /// What begins as an integer and is none.
    BrokenNumber,
    /// A char or a text, and the value of its last character.
    Inside(Quote, Option<u8>),
    /// Behind a backslash.
    Escaped(Quote),
    /// Behind `\x`, and the first digit.
    Hex(Quote, Option<u8>),
    /// A decimal escape, and its value so far.
    Decimal(Quote, u8),
    /// A char, and its value.
    CharWhole(u8),
    /// A text.
    TextWhole,
    /// A name in backticks that is open, and whether it has a byte.
    Quoted(bool),
    /// A name in backticks.
    QuotedWhole,
    /// A comment to the end of the line.
    Line,
    /// Inside so many `#[`.
    Nested(usize, Last),
    /// A comment that nests.
    NestedWhole,
    /// One operator byte.
    Single(u8),
    /// The run `*:`.
    StarColon,
    /// Another run, and whether it ends with `.`.
    Run(bool),
}

fn word_step(b: u8) -> Option<Shape>
    ensures { result ≡ word_step b }
{
    match b {
        b'_' => Some(Shape::WordUnder),
        _ if is_word(b) => Some(Shape::Word),
        _ => None,
    }
}

fn under_step(b: u8) -> Option<Shape>
    ensures { result ≡ under_step b }
{
    match b {
        b'_' => Some(Shape::BrokenWord),
        _ if is_word(b) => Some(Shape::Word),
        _ => None,
    }
}

fn while_word(shape: Shape, b: u8) -> Option<Shape>
    ensures { result ≡ while_word shape b }
{
    if is_word(b) { Some(shape) } else { None }
}

// One digit more. A value that no integer has is kept as the first of these.
fn with_digit(base: u64, value: u64, digit: Option<u8>) -> Shape
    ensures { result ≡ with_digit base value digit }
{
    match digit {
        Some(d) => Shape::Number(
            base,
            value
                .saturating_mul(base)
                .saturating_add(d as u64)
                .min(0x8000_0000),
        ),
        None => Shape::BrokenNumber,
    }
}

fn digit_step(base: u64, value: u64, b: u8) -> Option<Shape>
    ensures { result ≡ digit_step base value b }
{
    match b {
        b'_' => Some(Shape::NumberUnder(base, value)),
        _ if is_word(b) => Some(with_digit(base, value, digit_value(base, b))),
        _ => None,
    }
}

fn digit_due_step(base: u64, value: u64, b: u8) -> Option<Shape>
    ensures { result ≡ digit_due_step base value b }
{
    if is_word(b) {
        Some(with_digit(base, value, digit_value(base, b)))
    } else {
        None
    }
}

fn zero_step(b: u8) -> Option<Shape>
    ensures { result ≡ zero_step b }
{
    match b {
        b'x' => Some(Shape::NumberUnder(16, 0)),
        b'o' => Some(Shape::NumberUnder(8, 0)),
        b'b' => Some(Shape::NumberUnder(2, 0)),
        _ => digit_step(10, 0, b),
    }
}

// A character whose value is a byte.
fn character(quote: Quote, value: u64) -> Option<Shape>
    ensures { result ≡ character quote value }
{
    if value <= 255 {
        Some(Shape::Inside(quote, Some(value as u8)))
    } else {
        None
    }
}

fn plain_step(quote: Quote, b: u8) -> Option<Shape>
    ensures { result ≡ plain_step quote b }
{
    match b {
        b'\\' => Some(Shape::Escaped(quote)),
        b'\n' => None,
        _ => Some(Shape::Inside(quote, Some(b))),
    }
}

fn inside_step(quote: Quote, last: Option<u8>, b: u8) -> Option<Shape>
    ensures { result ≡ inside_step quote last b }
{
    match (quote, last) {
        (Quote::Text, _) if b == b'"' => Some(Shape::TextWhole),
        (Quote::Text, _) => plain_step(Quote::Text, b),
        (Quote::Char, Some(value)) if b == b'\'' => Some(Shape::CharWhole(value)),
        (Quote::Char, None) if b != b'\'' => plain_step(Quote::Char, b),
        _ => None,
    }
}

fn decimal_step(quote: Quote, value: u8, b: u8, next: u8) -> Option<Shape>
    ensures { result ≡ decimal_step quote value b next }
{
    let value = value as u64 * 10 + b.saturating_sub(b'0') as u64;
    if !is_digit(next) {
        character(quote, value)
    } else if value <= 255 {
        Some(Shape::Decimal(quote, value as u8))
    } else {
        None
    }
}

fn simple_step(quote: Quote, value: Option<u8>) -> Option<Shape>
    ensures { result ≡ simple_step quote value }
{
    match value {
        Some(value) => Some(Shape::Inside(quote, Some(value))),
        None => None,
    }
}

fn escaped_step(quote: Quote, b: u8, next: u8) -> Option<Shape>
    ensures { result ≡ escaped_step quote b next }
{
    match b {
        _ if is_digit(b) => decimal_step(quote, 0, b, next),
        b'x' => Some(Shape::Hex(quote, None)),
        _ => simple_step(quote, simple_escape(b)),
    }
}

fn hex_step(quote: Quote, high: Option<u8>, digit: Option<u8>) -> Option<Shape>
    ensures { result ≡ hex_step quote high digit }
{
    match (high, digit) {
        (_, None) => None,
        (None, Some(d)) => Some(Shape::Hex(quote, Some(d))),
        (Some(high), Some(d)) => character(quote, high as u64 * 16 + d as u64),
    }
}

fn quoted_step(some: bool, b: u8) -> Option<Shape>
    ensures { result ≡ quoted_step some b }
{
    match b {
        _ if is_quotable(b) => Some(Shape::Quoted(true)),
        b'`' if some => Some(Shape::QuotedWhole),
        _ => None,
    }
}

fn line_step(b: u8) -> Option<Shape>
    ensures { result ≡ line_step b }
{
    if is_line_byte(b) {
        Some(Shape::Line)
    } else {
        None
    }
}

fn nested_on(depth: usize, b: u8) -> Shape
    ensures { result ≡ nested_on depth b }
{
    match b {
        b'#' => Shape::Nested(depth, Last::Hash),
        b']' => Shape::Nested(depth, Last::Bracket),
        _ => Shape::Nested(depth, Last::Other),
    }
}

fn nested_step(depth: usize, last: Last, b: u8) -> Shape
    requires { depth < 2 ^ 63 }
    ensures { result ≡ nested_step depth last b }
{
    match (last, b) {
        (Last::Hash, b'[') => Shape::Nested(depth + 1, Last::Other),
        (Last::Bracket, b'#') if depth <= 1 => Shape::NestedWhole,
        (Last::Bracket, b'#') => Shape::Nested(depth - 1, Last::Other),
        _ => nested_on(depth, b),
    }
}

fn run_step(behind_dot: bool, b: u8, next: u8) -> Option<Shape>
    ensures { result ≡ run_step behind_dot b next }
{
    if in_run(behind_dot, b, next) {
        Some(Shape::Run(b == b'.'))
    } else {
        None
    }
}

fn single_step(first: u8, b: u8, next: u8) -> Option<Shape>
    ensures { result ≡ single_step first b next }
{
    if first == b'*' && b == b':' {
        Some(Shape::StarColon)
    } else {
        run_step(first == b'.', b, next)
    }
}

/// One byte more, with the byte behind it.
pub(crate) fn step(shape: Shape, b: u8, next: u8) -> Option<Shape>
    requires { depth_of shape < 2 ^ 63 }
    ensures { result ≡ step shape b next }
{
    match shape {
        Shape::Word => word_step(b),
        Shape::WordUnder => under_step(b),
        Shape::BrokenWord | Shape::BrokenNumber => while_word(shape, b),
        Shape::Zero => zero_step(b),
        Shape::Number(base, value) => digit_step(base, value, b),
        Shape::NumberUnder(base, value) => digit_due_step(base, value, b),
        Shape::Inside(quote, last) => inside_step(quote, last, b),
        Shape::Escaped(quote) => escaped_step(quote, b, next),
        Shape::Hex(quote, high) => hex_step(quote, high, hex_value(b)),
        Shape::Decimal(quote, value) => decimal_step(quote, value, b, next),
        Shape::Quoted(some) => quoted_step(some, b),
        Shape::Line => line_step(b),
        Shape::Nested(depth, last) => Some(nested_step(depth, last, b)),
        Shape::Single(first) => single_step(first, b, next),
        Shape::StarColon => run_step(false, b, next),
        Shape::Run(behind_dot) => run_step(behind_dot, b, next),
        Shape::CharWhole(_) | Shape::TextWhole | Shape::QuotedWhole | Shape::NestedWhole => None,
    }
}

/// Whether nothing is missing.
pub(crate) fn is_whole(shape: Shape) -> bool
    ensures { result ≡ is_whole shape }
{
    !matches!(
        shape,
        Shape::Inside(..)
            | Shape::Escaped(_)
            | Shape::Hex(..)
            | Shape::Decimal(..)
            | Shape::Quoted(_)
            | Shape::Nested(..)
    )
}

/// How far a form goes, and what it is there.
pub(crate) fn run(shape: Shape, bytes: &[u8]) -> (usize, Shape)
    requires { depth_of shape ≡ 0 }
    ensures within { result.0 ≤ length bytes.now }
    ensures reached { form shape result.0 bytes.now ≡ Some result.1 }
    ensures stuck { form shape (result.0 + 1) bytes.now ≡ None }
{
    let mut state = shape;
    let mut at = 0;
    while at < bytes.len() {
        let Some(next) = step(state, bytes[at], byte_at(bytes, at + 1)) else {
            return (at, state);
        };
        state = next;
        at += 1;
    }
    (at, state)
}
