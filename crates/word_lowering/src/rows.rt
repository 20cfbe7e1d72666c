// The word code of operations, a row each.
ghost use Rattle.std.specs.Prelude.{◌≡◌, OnOk, if◌then◌else◌};
ghost use Rattle.word_lowering.specs.Emission.{Puts};
ghost use Rattle.word_lowering.specs.LineCode.{converted_code, updated_code, update_code, quit_code};
ghost use Rattle.word_lowering.specs.LineCode.{compared_code, measure_code, operands, row_code};
ghost use Rattle.word_lowering.specs.LineCode.{variable_of};
ghost use Rattle.word_lowering.specs.OwnedCode.{entry_of, has_handle, is_text, type_of};
ghost use Rattle.word_lowering.specs.Scope.{around_of, HasRoom};
ghost use Rattle.word_lowering.specs.Stored.{entry_at};

use crate::calls::emit_exit;
use crate::homes::{FIFTH, FIRST, FOURTH, Housed, SECOND};
use crate::locations::{emit_swap, measure_word};
use crate::operations::{emit_binary, emit_compare, emit_narrow, emit_unary};
use crate::owned_rows::{emit_owned, lacks};
use crate::scope::{Scope, variable_of};
use crate::sequence_rows::emit_measured;
use crate::spots::{
    Spot, address, constant, emit, emit_clears, emit_moves, emit_starts, home_in, load_sized,
    size_in, spot_of, store_sized,
};
use crate::stored::{count_in, entry_at, limit_at};
use crate::text_handles::first_type;
use crate::text_rows::emit_compared;
use crate::texts::LINE_END_AT;
use crate::values::emit_parts;
use crate::writing::{emit_text, emit_texts};
use arc_base::{Items, Memory};
use flat_code::From;
use nim_program::{Comparison, Measure, Operation, Operator};
use nim_types::{TypeDef, TypeId, TypeTable};
use word_code::WordInstr;

// The same value as one of another type, of which it has to be one where that has so many.
fn emit_converted(
    code: &mut Items<WordInstr>,
    limit: Option<usize>,
    to: Housed,
    from: Housed,
) -> Result<(), Memory>
    ensures { OnOk result (Puts code.old code.new (converted_code limit to from)) }
{
    match limit {
        None => emit_moves(code, to, from),
        Some(values) => emit_narrow(code, variable_of(to), variable_of(from), values),
    }
}

// The number at a spot becomes another one.
fn emit_updated(
    code: &mut Items<WordInstr>,
    label: u32,
    operator: Operator,
    spot: Spot,
    by: u32,
) -> Result<(), Memory>
    ensures { OnOk result (Puts code.old code.new (updated_code label operator spot by)) }
{
    match spot {
        Spot::Held(v) => emit_binary(code, label, operator, v, v, by),
        _ => {
            let (home, size) = (home_in(spot), size_in(spot));
            let there = address(SECOND, home);
            emit(code, &[there, load_sized(FOURTH, SECOND, size)])?;
            emit_binary(code, label, operator, FOURTH, FOURTH, by)?;
            emit(
                code,
                &[address(FIRST, home), store_sized(FIRST, FOURTH, size)],
            )
        }
    }
}

fn emit_update(
    code: &mut Items<WordInstr>,
    x: &Scope,
    label: u32,
    operator: Operator,
    from: &[From],
) -> Result<(), Memory>
    ensures { OnOk result (Puts code.old code.new
        (update_code label operator (operands (around_of x.now) from.now))) }
{
    let Some((first, rest)) = from.split_first() else {
        return Ok(());
    };
    let to = spot_of(x.operand(*first));
    match rest.first() {
        None => {
            emit(code, &[constant(FIFTH, 1)])?;
            emit_updated(code, label, operator, to, FIFTH)
        }
        Some(by) => emit_updated(code, label, operator, to, variable_of(x.operand(*by))),
    }
}

fn emit_quit(code: &mut Items<WordInstr>, x: &Scope, from: &[From]) -> Result<(), Memory>
    ensures { OnOk result (Puts code.old code.new
        (quit_code (operands (around_of x.now) from.now))) }
{
    match from.first() {
        None => emit_exit(code),
        Some(status) => emit(
            code,
            &[WordInstr::Exit {
                status: variable_of(x.operand(*status)),
            }],
        ),
    }
}

/// Whether values of a type are in handles, distinct types looked through.
pub fn has_handle(types: &TypeTable, ty: TypeId) -> bool
    ensures { result ≡ has_handle (entry_at types.now ty) }
{
    match entry_at(types, ty) {
        Some(TypeDef::Text) => true,
        Some(TypeDef::Seq(_)) => true,
        _ => false,
    }
}

/// Whether a type is that of texts, distinct types looked through.
pub fn is_text(types: &TypeTable, ty: Option<TypeId>) -> bool
    ensures { result ≡ is_text (entry_of types.now ty) }
{
    let Some(ty) = ty else {
        return false;
    };
    match entry_at(types, ty) {
        Some(TypeDef::Text) => true,
        _ => false,
    }
}

// Texts are compared by what they hold, all else by numbers.
fn emit_compared_by(
    code: &mut Items<WordInstr>,
    x: &Scope,
    text: bool,
    comparison: Comparison,
    of: &[Option<TypeId>],
    to: Housed,
    from: &[From],
) -> Result<(), Memory>
    requires { HasRoom (around_of x.now) }
    ensures { OnOk result (Puts code.old code.new (compared_code (around_of x.now) text comparison
        (variable_of to) of.now (operands (around_of x.now) from.now))) }
{
    if text {
        return emit_compared(code, x, comparison, of, to, from);
    }
    let (a, b) = (x.operand_at(from, 0), x.operand_at(from, 1));
    emit_compare(
        code,
        comparison,
        variable_of(to),
        variable_of(a),
        variable_of(b),
    )
}

fn emit_comparison(
    code: &mut Items<WordInstr>,
    x: &Scope,
    few: bool,
    comparison: Comparison,
    of: &[Option<TypeId>],
    to: Housed,
    from: &[From],
) -> Result<(), Memory>
    requires { HasRoom (around_of x.now) }
    ensures { OnOk result (Puts code.old code.new (λ k. if few then k else compared_code
        (around_of x.now) (is_text (entry_of x.now.types.now (type_of of.now 0))) comparison
        (variable_of to) of.now (operands (around_of x.now) from.now) k)) }
{
    if few {
        return Ok(());
    }
    emit_compared_by(
        code,
        x,
        is_text(x.types, first_type(of)),
        comparison,
        of,
        to,
        from,
    )
}

// A length, or the last index, of what has a handle, or of an array.
fn emit_measure_by(
    code: &mut Items<WordInstr>,
    x: &Scope,
    handle: bool,
    measure: Measure,
    to: u32,
    from: Housed,
) -> Result<(), Memory>
    ensures { OnOk result (Puts code.old code.new
        (measure_code (around_of x.now) handle measure to from)) }
{
    if handle {
        return emit_measured(code, measure, to, from.home);
    }
    let count = count_in(x.types, from.ty);
    emit(code, &[constant(to, measure_word(measure, count))])
}

/// A length, or the last index, at a place.
pub fn emit_measure(
    code: &mut Items<WordInstr>,
    x: &Scope,
    measure: Measure,
    to: u32,
    from: Housed,
) -> Result<(), Memory>
    ensures { OnOk result (Puts code.old code.new (measure_code (around_of x.now)
        (has_handle (entry_at x.now.types.now from.ty)) measure to from)) }
{
    emit_measure_by(code, x, has_handle(x.types, from.ty), measure, to, from)
}

/// An operation on operands of types, with a label of its own.
pub fn emit_row(
    code: &mut Items<WordInstr>,
    x: &Scope,
    label: u32,
    operation: Operation,
    ty: Option<TypeId>,
    of: &[Option<TypeId>],
    to: Housed,
    from: &[From],
) -> Result<(), Memory>
    requires { HasRoom (around_of x.now) }
    ensures { OnOk result (Puts code.old code.new (row_code (around_of x.now) operation label ty
        of.now to (operands (around_of x.now) from.now))) }
{
    let first = x.operand_at(from, 0);
    let second = x.operand_at(from, 1);
    let (t, a, b) = (variable_of(to), variable_of(first), variable_of(second));
    match operation {
        Operation::Default => emit_starts(code, to),
        Operation::Unary(operator) => emit_unary(code, operator, t, a),
        Operation::Binary(operator) => emit_binary(code, label, operator, t, a, b),
        Operation::Compare(comparison) => {
            emit_comparison(code, x, lacks(x, from, 2), comparison, of, to, from)
        }
        Operation::Convert => emit_converted(code, limit_at(x.types, ty), to, first),
        Operation::Make => emit_parts(code, x, to.home, from),
        Operation::Measure(measure) => emit_measure(code, x, measure, t, first),
        Operation::Echo => {
            emit_texts(code, x, of, from)?;
            emit_text(code, LINE_END_AT, 1)
        }
        Operation::Quit => emit_quit(code, x, from),
        Operation::Assign => emit_moves(code, first, second),
        Operation::Update(operator) => emit_update(code, x, label, operator, from),
        Operation::Move => {
            emit_moves(code, to, first)?;
            emit_clears(code, first)
        }
        Operation::Swap => emit_swap(code, first, second.home),
        _ => emit_owned(code, x, label, operation, of, to, from),
    }
}
