// The word code of operations on texts.
ghost use Rattle.std.specs.Prelude.{OnOk, if◌then◌else◌, ◌∷◌, ◌≡◌};
ghost use Rattle.word_lowering.specs.Emission.{Puts};
ghost use Rattle.word_lowering.specs.LineCode.{operands, variable_of};
ghost use Rattle.word_lowering.specs.OwnedCode.{added_letter_code, appended_code, entry_home, entry_of};
ghost use Rattle.word_lowering.specs.OwnedCode.{is_char, left_of, letter_put_lines, name_text};
ghost use Rattle.word_lowering.specs.Spots.{address};
ghost use Rattle.word_lowering.specs.OwnedCode.{right_of, room_lines, shown_code, two_made};
ghost use Rattle.word_lowering.specs.RoutineCode.{copy_code, join_code, read_code};
ghost use Rattle.word_lowering.specs.RoutineCode.{show_code, text_compare_code};
ghost use Rattle.word_lowering.specs.Scope.{HasRoom, around_of};
ghost use Rattle.word_lowering.specs.Stored.{base_at, entry_at};

use crate::handed::{Handed, LEFT_HANDLE_AT, RIGHT_HANDLE_AT};
use crate::homes::{FIFTH, FIRST, FOURTH, Home, Housed, SECOND, THIRD};
use crate::operations::emit_compare;
use crate::routine_calls::{emit_one, emit_three, emit_two};
use crate::scope::{Scope, variable_of};
use crate::spots::{address, branch, compute, constant, emit, load, store, sum, sum_with};
use crate::stored::{base_at, entry_at};
use crate::text_handles::{
    emit_letter, emit_name_text, emit_text_made, emit_two_made, entry_home, is_char, left_of,
    right_of, text_home,
};
use arc_base::{Items, Memory};
use flat_code::From;
use heap_memory::{TEXT_APPEND, TEXT_COPY, TEXT_JOIN, TEXT_OF_NUMBER, TEXT_ORDER, TEXT_READ};
use nim_program::Comparison;
use nim_types::{HEADER_BYTES, TypeDef, TypeId};
use rv32_isa::Size;
use word_code::{Test, WordInstr, WordOperation};

// What makes the place of a block the address of its header.
const HEADER_LESS: u32 = u32::MAX - HEADER_BYTES + 1;

fn emit_text_compare(
    code: &mut Items<WordInstr>,
    comparison: Comparison,
    to: u32,
    left: Home,
    right: Home,
) -> Result<(), Memory>
    ensures { OnOk result (Puts code.old code.new (text_compare_code comparison to left right)) }
{
    emit_two(
        code,
        FOURTH,
        TEXT_ORDER,
        Handed::Where(left),
        Handed::Where(right),
    )?;
    emit(code, &[constant(FIFTH, 0)])?;
    emit_compare(code, comparison, to, FOURTH, FIFTH)
}

pub fn emit_compared(
    code: &mut Items<WordInstr>,
    x: &Scope,
    comparison: Comparison,
    of: &[Option<TypeId>],
    to: Housed,
    from: &[From],
) -> Result<(), Memory>
    requires { HasRoom (around_of x.now) }
    ensures { OnOk result (Puts code.old code.new (λ k. two_made (around_of x.now) of.now
        (operands (around_of x.now) from.now) (text_compare_code comparison (variable_of to)
        (left_of (around_of x.now) of.now (operands (around_of x.now) from.now))
        (right_of (around_of x.now) of.now (operands (around_of x.now) from.now)) k))) }
{
    emit_two_made(code, x, of, from)?;
    let (left, right) = (left_of(x, of, from), right_of(x, of, from));
    emit_text_compare(code, comparison, variable_of(to), left, right)
}

pub fn emit_joined(
    code: &mut Items<WordInstr>,
    x: &Scope,
    few: bool,
    of: &[Option<TypeId>],
    to: Housed,
    from: &[From],
) -> Result<(), Memory>
    requires { HasRoom (around_of x.now) }
    ensures { OnOk result (Puts code.old code.new (λ k. if few then k else two_made
        (around_of x.now) of.now (operands (around_of x.now) from.now) (join_code to.home
        (left_of (around_of x.now) of.now (operands (around_of x.now) from.now))
        (right_of (around_of x.now) of.now (operands (around_of x.now) from.now)) k))) }
{
    if few {
        return Ok(());
    }
    emit_two_made(code, x, of, from)?;
    let (left, right) = (
        Handed::Where(left_of(x, of, from)),
        Handed::Where(right_of(x, of, from)),
    );
    emit_three(code, FIRST, TEXT_JOIN, Handed::Where(to.home), left, right)
}

// The text of an int is spelled.
fn emit_spelled(code: &mut Items<WordInstr>, to: Home, number: u32) -> Result<(), Memory>
    ensures { OnOk result (Puts code.old code.new (show_code to number)) }
{
    let number = Handed::Where(Home::Variable(number));
    emit_two(code, FIRST, TEXT_OF_NUMBER, Handed::Where(to), number)
}

// The text of all else is copied.
fn emit_copied(
    code: &mut Items<WordInstr>,
    x: &Scope,
    to: Home,
    ty: TypeId,
    from: Housed,
) -> Result<(), Memory>
    requires { HasRoom (around_of x.now) }
    ensures { OnOk result (Puts code.old code.new (λ k. name_text (around_of x.now) LEFT_HANDLE_AT
        (entry_at x.now.types.now ty) (base_at x.now.types.now ty) from (copy_code to
        (entry_home LEFT_HANDLE_AT (entry_at x.now.types.now ty) from) k))) }
{
    emit_name_text(code, x, LEFT_HANDLE_AT, ty, from)?;
    let home = entry_home(x, LEFT_HANDLE_AT, ty, from);
    emit_two(
        code,
        FIRST,
        TEXT_COPY,
        Handed::Where(to),
        Handed::Where(home),
    )
}

pub fn emit_shown(
    code: &mut Items<WordInstr>,
    x: &Scope,
    few: bool,
    to: Home,
    ty: Option<TypeId>,
    from: Housed,
) -> Result<(), Memory>
    requires { HasRoom (around_of x.now) }
    ensures { OnOk result (Puts code.old code.new (λ k. if few then k else shown_code
        (around_of x.now) (entry_of x.now.types.now ty) to ty from k)) }
{
    if few {
        return Ok(());
    }
    let Some(of) = ty else {
        return emit_spelled(code, to, variable_of(from));
    };
    match entry_at(x.types, of) {
        None | Some(TypeDef::Int) => emit_spelled(code, to, variable_of(from)),
        _ => emit_copied(code, x, to, of, from),
    }
}

// Control goes on at a label unless a text's block has room for a character more.
fn emit_room(code: &mut Items<WordInstr>, label: u32, to: Home) -> Result<(), Memory>
    ensures { OnOk result (Puts code.old code.new (λ k. address FIRST to ∷ room_lines label k)) }
{
    emit(
        code,
        &[
            address(FIRST, to),
            load(SECOND, FIRST),
            sum_with(THIRD, FIRST, 4),
            load(THIRD, THIRD),
            constant(FOURTH, 8),
            branch(Test::Below, THIRD, FOURTH, label),
            sum_with(FIFTH, THIRD, HEADER_LESS),
            load(FIFTH, FIFTH),
            compute(FOURTH, WordOperation::ShiftLeft, FOURTH, FIFTH),
            sum_with(FIFTH, SECOND, HEADER_BYTES),
            branch(Test::NotBelow, FIFTH, FOURTH, label),
        ],
    )
}

// The character is put there.
fn emit_letter_put(code: &mut Items<WordInstr>, label: u32, from: u32) -> Result<(), Memory>
    ensures { OnOk result (Puts code.old code.new (letter_put_lines label from)) }
{
    let put = WordInstr::Store {
        address: FIFTH,
        from,
        size: Size::Byte,
    };
    let behind = sum(label, 2)?;
    emit(
        code,
        &[
            compute(FIFTH, WordOperation::Add, THIRD, SECOND),
            put,
            sum_with(SECOND, SECOND, 1),
            store(FIRST, SECOND),
            sum_with(FIRST, FIRST, 4),
            store(FIRST, THIRD),
            WordInstr::Jump { to: behind },
            WordInstr::Label { name: label },
        ],
    )
}

// A character comes behind a text, by the routine where it isn't put in place.
fn emit_added_letter(
    code: &mut Items<WordInstr>,
    label: u32,
    to: Home,
    from: u32,
) -> Result<(), Memory>
    ensures { OnOk result (Puts code.old code.new (added_letter_code label to from)) }
{
    emit_room(code, label, to)?;
    emit_letter_put(code, label, from)?;
    emit_letter(code, RIGHT_HANDLE_AT, from)?;
    let letter = Handed::Where(Home::Static(RIGHT_HANDLE_AT));
    emit_two(code, FIRST, TEXT_APPEND, Handed::Where(to), letter)?;
    let name = sum(label, 2)?;
    emit(code, &[WordInstr::Label { name }])
}

pub fn emit_appended(
    code: &mut Items<WordInstr>,
    x: &Scope,
    few: bool,
    label: u32,
    to: Home,
    ty: Option<TypeId>,
    from: Housed,
) -> Result<(), Memory>
    requires { HasRoom (around_of x.now) }
    ensures { OnOk result (Puts code.old code.new (λ k. if few then k else appended_code
        (around_of x.now) (is_char (entry_of x.now.types.now ty)) label to ty from k)) }
{
    if few {
        return Ok(());
    }
    if is_char(x, ty) {
        return emit_added_letter(code, label, to, variable_of(from));
    }
    emit_text_made(code, x, RIGHT_HANDLE_AT, ty, from)?;
    let home = text_home(x, RIGHT_HANDLE_AT, ty, from);
    emit_two(
        code,
        FIRST,
        TEXT_APPEND,
        Handed::Where(to),
        Handed::Where(home),
    )
}

pub fn emit_read(code: &mut Items<WordInstr>, to: u32, line: Home) -> Result<(), Memory>
    ensures { OnOk result (Puts code.old code.new (read_code to line)) }
{
    emit_one(code, to, TEXT_READ, Handed::Where(line))
}
