// Operations on ints.
ghost use Rattle.std.specs.Prelude.{◌≡◌, ◌*◌, ◌^◌, ◌%◌, pos};
ghost use Rattle.std.specs.Int.{int_div_euclid};
ghost use Rattle.nim_program.specs.declared.operation.Operator.TheVariants.{Divide, Modulo};
ghost use Rattle.nim_program.specs.Ints.{applied, applied_to, compared, within, bits_of, low_byte, signed};
ghost use Rattle.nim_program.specs.Ints.{shift_by};
ghost use Rattle.plain_values.specs.Checked.{checked_of, or_overflow};

use nim_program::{Comparison, Operator, UnaryOperator};

/// What ends a run at once.
#[derive(Clone, Copy)]
pub enum Trap {
    Overflow,
    DivisionByZero,
    IndexOutOfBounds,
    OutOfRange,
    LengthChanged,
    CallDepth,
}

// A number, where it is an int.
fn checked(z: Option<i32>) -> Result<i32, Trap>
    ensures { checked_of result ≡ or_overflow z }
{
    z.ok_or(Trap::Overflow)
}

// The 32 bits of an int.
fn bits_of(z: i32) -> u32
    ensures { result ≡ bits_of z }
{
    i64::from(z).rem_euclid(4_294_967_296).unsigned_abs() as u32
}

/// The low eight bits of an int.
pub fn low_byte(z: i32) -> u8
    ensures { result ≡ low_byte z }
{
    z.rem_euclid(256).unsigned_abs() as u8
}

// The int of 32 bits.
fn signed(n: u32) -> i32
    ensures { result ≡ signed n }
{
    if n < 2_147_483_648 {
        n as i32
    } else {
        (i64::from(n) - 4_294_967_296) as i32
    }
}

fn shift_by(z: i32) -> u32
    ensures { result ≡ shift_by z }
{
    bits_of(z) % 32
}

fn divide(x: i32, y: i32) -> Result<i32, Trap>
    ensures { checked_of result ≡ applied Divide x y }
{
    if y == 0 {
        return Err(Trap::DivisionByZero);
    }
    checked(x.checked_div(y))
}

fn modulo(x: i32, y: i32) -> Result<i32, Trap>
    ensures { checked_of result ≡ applied Modulo x y }
{
    if y == 0 {
        return Err(Trap::DivisionByZero);
    }
    if y == -1 {
        return Ok(0);
    }
    Ok(x % y)
}

fn shift_left(x: i32, y: i32) -> i32
    ensures { result ≡ signed ((bits_of x * 2 ^ shift_by y) % 2 ^ 32) }
{
    let power = 1_u64 << shift_by(y);
    signed(((u64::from(bits_of(x)) * power) % 4_294_967_296) as u32)
}

fn shift_right(x: i32, y: i32) -> i32
    ensures { result ≡ int_div_euclid x (pos (2 ^ shift_by y)) }
{
    x >> shift_by(y)
}

/// The result of an operation on two numbers.
pub fn calculate(operator: Operator, x: i32, y: i32) -> Result<i32, Trap>
    ensures { checked_of result ≡ applied operator x y }
{
    match operator {
        Operator::Add => checked(x.checked_add(y)),
        Operator::Subtract => checked(x.checked_sub(y)),
        Operator::Multiply => checked(x.checked_mul(y)),
        Operator::Divide => divide(x, y),
        Operator::Modulo => modulo(x, y),
        Operator::ShiftLeft => Ok(shift_left(x, y)),
        Operator::ShiftRight => Ok(shift_right(x, y)),
        Operator::BitAnd => Ok(signed(bits_of(x) & bits_of(y))),
        Operator::BitOr => Ok(signed(bits_of(x) | bits_of(y))),
        Operator::BitXor => Ok(signed(bits_of(x) ^ bits_of(y))),
    }
}

/// The result of an operation on one number.
pub fn apply(operator: UnaryOperator, x: i32) -> Result<i32, Trap>
    ensures { checked_of result ≡ applied_to operator x }
{
    match operator {
        UnaryOperator::Plus => Ok(x),
        UnaryOperator::Negate => checked(x.checked_neg()),
        UnaryOperator::Complement => Ok(-1 - x),
        UnaryOperator::Not => Ok(if x == 0 { 1 } else { 0 }),
    }
}

/// Whether a comparison of two numbers holds.
pub fn compares(comparison: Comparison, x: i32, y: i32) -> bool
    ensures { compared comparison x y ≡ result }
{
    match comparison {
        Comparison::Equal => x == y,
        Comparison::Unequal => x != y,
        Comparison::Less => x < y,
        Comparison::AtMost => x <= y,
        Comparison::Greater => x > y,
        Comparison::AtLeast => x >= y,
    }
}

/// A number, where it is one of so many values.
pub fn one_of(values: usize, z: i32) -> Result<i32, Trap>
    ensures { checked_of result ≡ within values z }
{
    if z >= 0 && (z.unsigned_abs() as usize) < values {
        Ok(z)
    } else {
        Err(Trap::OutOfRange)
    }
}
