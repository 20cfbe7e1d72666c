// The word code of operations on ordinals.
ghost use Rattle.std.specs.Prelude.{◌≡◌, OnOk};
ghost use Rattle.word_lowering.specs.Emission.{Puts};
ghost use Rattle.word_lowering.specs.Operations.{binary_code, unary_code, compare_code};
ghost use Rattle.word_lowering.specs.Operations.{narrow_code, unless_code, turn_if_code, fits_code};
ghost use Rattle.word_lowering.specs.Operations.{sum_code, difference_code, product_code};
ghost use Rattle.word_lowering.specs.Operations.{quotient_code, opposite_code};
ghost use Rattle.word_lowering.specs.Operations.{computed_code, divisor_code, divided_code};
ghost use Rattle.word_lowering.specs.Operations.{beyond_code, unless_less, turn_code};

use crate::homes::{FIRST, SECOND, THIRD};
use crate::spots::{branch, compute, constant, emit, sum_with};
use arc_base::{Items, Memory};
use nim_program::{Comparison, Operator, UnaryOperator};
use word_code::{Test, WordInstr, WordOperation};

/// The label of the trap for an overflow.
pub const OVERFLOW: u32 = 0;

/// The label of the trap for a division by zero.
pub const DIVISION: u32 = 1;

/// The label of the trap for an index.
pub const INDEX: u32 = 2;

/// The label of the trap for a value out of range.
pub const RANGE: u32 = 3;

/// The label of the trap for a changed length.
pub const LENGTH: u32 = 4;

/// The label of the trap for one call too many.
pub const DEPTH: u32 = 5;

/// The word of -1.
const MINUS_ONE: u32 = 0xffff_ffff;

/// The word of the least int.
const LEAST: u32 = 0x8000_0000;

fn copy(to: u32, from: u32) -> WordInstr
    ensures { result ≡ WordInstr.Copy to from }
{
    WordInstr::Copy { to, from }
}

fn emit_sum(code: &mut Items<WordInstr>, to: u32, left: u32, right: u32) -> Result<(), Memory>
    ensures { OnOk result (Puts code.old code.new (sum_code to left right)) }
{
    emit(
        code,
        &[
            compute(FIRST, WordOperation::Add, left, right),
            compute(SECOND, WordOperation::Less, FIRST, left),
            constant(THIRD, 0),
            compute(THIRD, WordOperation::Less, right, THIRD),
            branch(Test::Unequal, SECOND, THIRD, OVERFLOW),
            copy(to, FIRST),
        ],
    )
}

fn emit_difference(
    code: &mut Items<WordInstr>,
    to: u32,
    left: u32,
    right: u32,
) -> Result<(), Memory>
    ensures { OnOk result (Puts code.old code.new (difference_code to left right)) }
{
    emit(
        code,
        &[
            compute(FIRST, WordOperation::Subtract, left, right),
            compute(SECOND, WordOperation::Less, left, FIRST),
            constant(THIRD, 0),
            compute(THIRD, WordOperation::Less, right, THIRD),
            branch(Test::Unequal, SECOND, THIRD, OVERFLOW),
            copy(to, FIRST),
        ],
    )
}

fn emit_product(code: &mut Items<WordInstr>, to: u32, left: u32, right: u32) -> Result<(), Memory>
    ensures { OnOk result (Puts code.old code.new (product_code to left right)) }
{
    emit(
        code,
        &[
            compute(FIRST, WordOperation::Multiply, left, right),
            compute(SECOND, WordOperation::MultiplyHigh, left, right),
            constant(THIRD, 31),
            compute(THIRD, WordOperation::ShiftRightSigned, FIRST, THIRD),
            branch(Test::Unequal, SECOND, THIRD, OVERFLOW),
            copy(to, FIRST),
        ],
    )
}

fn emit_divisor(code: &mut Items<WordInstr>, right: u32) -> Result<(), Memory>
    ensures { OnOk result (Puts code.old code.new (divisor_code right)) }
{
    emit(
        code,
        &[
            constant(FIRST, 0),
            branch(Test::Equal, right, FIRST, DIVISION),
        ],
    )
}

// The quotient, where the divisor isn't zero.
fn emit_divided(
    code: &mut Items<WordInstr>,
    label: u32,
    to: u32,
    left: u32,
    right: u32,
) -> Result<(), Memory>
    ensures { OnOk result (Puts code.old code.new (divided_code label to left right)) }
{
    emit(
        code,
        &[
            constant(FIRST, MINUS_ONE),
            branch(Test::Unequal, right, FIRST, label),
            constant(FIRST, LEAST),
            branch(Test::Equal, left, FIRST, OVERFLOW),
            WordInstr::Label { name: label },
            compute(to, WordOperation::Divide, left, right),
        ],
    )
}

fn emit_quotient(
    code: &mut Items<WordInstr>,
    label: u32,
    to: u32,
    left: u32,
    right: u32,
) -> Result<(), Memory>
    ensures { OnOk result (Puts code.old code.new (quotient_code label to left right)) }
{
    emit_divisor(code, right)?;
    emit_divided(code, label, to, left, right)
}

fn emit_remainder(code: &mut Items<WordInstr>, to: u32, left: u32, right: u32) -> Result<(), Memory>
    ensures { OnOk result (Puts code.old code.new (binary_code 0 Operator.Modulo to left right)) }
{
    emit(
        code,
        &[
            constant(FIRST, 0),
            branch(Test::Equal, right, FIRST, DIVISION),
            compute(to, WordOperation::Remainder, left, right),
        ],
    )
}

fn emit_computed(
    code: &mut Items<WordInstr>,
    operation: WordOperation,
    to: u32,
    left: u32,
    right: u32,
) -> Result<(), Memory>
    ensures { OnOk result (Puts code.old code.new (computed_code operation to left right)) }
{
    emit(code, &[compute(to, operation, left, right)])
}

/// An operation on two ordinals, with a label of its own.
pub fn emit_binary(
    code: &mut Items<WordInstr>,
    label: u32,
    operator: Operator,
    to: u32,
    left: u32,
    right: u32,
) -> Result<(), Memory>
    ensures { OnOk result (Puts code.old code.new (binary_code label operator to left right)) }
{
    match operator {
        Operator::Add => emit_sum(code, to, left, right),
        Operator::Subtract => emit_difference(code, to, left, right),
        Operator::Multiply => emit_product(code, to, left, right),
        Operator::Divide => emit_quotient(code, label, to, left, right),
        Operator::Modulo => emit_remainder(code, to, left, right),
        Operator::ShiftLeft => emit_computed(code, WordOperation::ShiftLeft, to, left, right),
        Operator::ShiftRight => {
            emit_computed(code, WordOperation::ShiftRightSigned, to, left, right)
        }
        Operator::BitAnd => emit_computed(code, WordOperation::And, to, left, right),
        Operator::BitOr => emit_computed(code, WordOperation::Or, to, left, right),
        Operator::BitXor => emit_computed(code, WordOperation::Xor, to, left, right),
    }
}

/// An operation on an ordinal.
pub fn emit_unary(
    code: &mut Items<WordInstr>,
    operator: UnaryOperator,
    to: u32,
    from: u32,
) -> Result<(), Memory>
    ensures { OnOk result (Puts code.old code.new (unary_code operator to from)) }
{
    match operator {
        UnaryOperator::Plus => emit(code, &[copy(to, from)]),
        UnaryOperator::Negate => emit(
            code,
            &[
                constant(FIRST, LEAST),
                branch(Test::Equal, from, FIRST, OVERFLOW),
                constant(FIRST, 0),
                compute(to, WordOperation::Subtract, FIRST, from),
            ],
        ),
        UnaryOperator::Complement => emit(
            code,
            &[
                constant(FIRST, MINUS_ONE),
                compute(to, WordOperation::Subtract, FIRST, from),
            ],
        ),
        UnaryOperator::Not => emit(
            code,
            &[
                constant(FIRST, 1),
                compute(to, WordOperation::Below, from, FIRST),
            ],
        ),
    }
}

// 1 where the left isn't less.
fn emit_opposite(code: &mut Items<WordInstr>, to: u32, left: u32, right: u32) -> Result<(), Memory>
    ensures { OnOk result (Puts code.old code.new (opposite_code to left right)) }
{
    emit(
        code,
        &[
            compute(FIRST, WordOperation::Less, left, right),
            constant(SECOND, 1),
            compute(to, WordOperation::Subtract, SECOND, FIRST),
        ],
    )
}

/// A comparison of two ordinals.
pub fn emit_compare(
    code: &mut Items<WordInstr>,
    comparison: Comparison,
    to: u32,
    left: u32,
    right: u32,
) -> Result<(), Memory>
    ensures { OnOk result (Puts code.old code.new (compare_code comparison to left right)) }
{
    let difference = compute(FIRST, WordOperation::Subtract, left, right);
    match comparison {
        Comparison::Equal => emit(
            code,
            &[
                difference,
                constant(SECOND, 1),
                compute(to, WordOperation::Below, FIRST, SECOND),
            ],
        ),
        Comparison::Unequal => emit(
            code,
            &[
                difference,
                constant(SECOND, 0),
                compute(to, WordOperation::Below, SECOND, FIRST),
            ],
        ),
        Comparison::Less => emit_computed(code, WordOperation::Less, to, left, right),
        Comparison::AtMost => emit_opposite(code, to, right, left),
        Comparison::Greater => emit_computed(code, WordOperation::Less, to, right, left),
        Comparison::AtLeast => emit_opposite(code, to, left, right),
    }
}

/// An ordinal that must be one of so many values.
pub fn emit_narrow(
    code: &mut Items<WordInstr>,
    to: u32,
    from: u32,
    values: usize,
) -> Result<(), Memory>
    ensures { OnOk result (Puts code.old code.new (narrow_code to from values)) }
{
    emit(
        code,
        &[
            constant(FIRST, values.min(LEAST as usize) as u32),
            branch(Test::NotBelow, from, FIRST, RANGE),
            copy(to, from),
        ],
    )
}

/// On at a label where a bool doesn't hold.
pub fn emit_unless(code: &mut Items<WordInstr>, from: u32, label: u32) -> Result<(), Memory>
    ensures { OnOk result (Puts code.old code.new (unless_code from label)) }
{
    emit(
        code,
        &[constant(FIRST, 0), branch(Test::Equal, from, FIRST, label)],
    )
}

/// A turn of a loop begins at a label, unless a word is 0.
pub fn emit_turn_if(code: &mut Items<WordInstr>, from: u32, label: u32) -> Result<(), Memory>
    ensures { OnOk result (Puts code.old code.new (turn_if_code from label)) }
{
    emit(
        code,
        &[
            constant(FIRST, 0),
            WordInstr::SpendIf {
                test: Test::Unequal,
                left: from,
                right: FIRST,
            },
            branch(Test::Unequal, from, FIRST, label),
        ],
    )
}

/// On at a label where an ordinal is one of those from `low` to `high`.
pub fn emit_fits(
    code: &mut Items<WordInstr>,
    from: u32,
    label: u32,
    low: i32,
    high: i32,
) -> Result<(), Memory>
    ensures { OnOk result (Puts code.old code.new (fits_code from label low high)) }
{
    if high < low {
        return Ok(());
    }
    let first = constant(FIRST, low.cast_unsigned());
    if low == high {
        return emit(code, &[first, branch(Test::Equal, from, FIRST, label)]);
    }
    emit(
        code,
        &[
            first,
            compute(FIRST, WordOperation::Subtract, from, FIRST),
            constant(SECOND, high.abs_diff(low)),
            branch(Test::NotBelow, SECOND, FIRST, label),
        ],
    )
}

// ---- the numbers of loops

/// On at a label where a number is none of the loop.
pub fn emit_beyond(
    code: &mut Items<WordInstr>,
    inclusive: bool,
    counter: u32,
    last: u32,
    label: u32,
) -> Result<(), Memory>
    ensures { OnOk result (Puts code.old code.new (beyond_code inclusive counter last label)) }
{
    if inclusive {
        return emit(code, &[branch(Test::Less, last, counter, label)]);
    }
    emit(code, &[branch(Test::AtLeast, counter, last, label)])
}

// On at a label where a number has no next one in the loop.
fn emit_unless_less(
    code: &mut Items<WordInstr>,
    inclusive: bool,
    counter: u32,
    last: u32,
    label: u32,
) -> Result<(), Memory>
    ensures { OnOk result (Puts code.old code.new (unless_less inclusive counter last label)) }
{
    if inclusive {
        return emit(code, &[branch(Test::AtLeast, counter, last, label)]);
    }
    emit(
        code,
        &[
            compute(FIRST, WordOperation::Less, counter, last),
            compute(SECOND, WordOperation::Subtract, last, FIRST),
            branch(Test::AtLeast, counter, SECOND, label),
        ],
    )
}

/// The next turn of a loop begins at a label, unless there is none; with a label of its own.
pub fn emit_turn(
    code: &mut Items<WordInstr>,
    own: u32,
    counter: u32,
    last: u32,
    inclusive: bool,
    label: u32,
) -> Result<(), Memory>
    ensures { OnOk result (Puts code.old code.new (turn_code own counter last inclusive label)) }
{
    emit_unless_less(code, inclusive, counter, last, own)?;
    emit(
        code,
        &[
            WordInstr::Spend,
            sum_with(counter, counter, 1),
            WordInstr::Jump { to: label },
            WordInstr::Label { name: own },
        ],
    )
}
