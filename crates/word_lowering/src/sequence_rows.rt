// The word code of operations on sequences.
ghost use Rattle.std.specs.Prelude.{IfOk, OnOk, false, length, option_map, ◌≡◌, if◌then◌else◌};
ghost use Rattle.word_lowering.specs.Emission.{Puts};
ghost use Rattle.word_lowering.specs.LineCode.{operands};
ghost use Rattle.word_lowering.specs.OwnedCode.{added_code, counted_code, cut_code, cut_number};
ghost use Rattle.word_lowering.specs.OwnedCode.{each_bytes, element_in, element_read};
ghost use Rattle.word_lowering.specs.OwnedCode.{elements_code};
ghost use Rattle.word_lowering.specs.OwnedCode.{filled_code, has_hooks, is_text, measured_code};
ghost use Rattle.word_lowering.specs.OwnedCode.{next_element_code, popped_code, resized_code};
ghost use Rattle.word_lowering.specs.OwnedCode.{sequence_code, size_in, sized_code};
ghost use Rattle.word_lowering.specs.RoutineCode.{length_code, new_code};
ghost use Rattle.word_lowering.specs.Scope.{HasRoom, around_of};
ghost use Rattle.word_lowering.specs.Stored.{HaveForms, entry_at};

use crate::handed::Handed;
use crate::homes::{FIFTH, FIRST, Home, Housed, SECOND};
use crate::operations::{INDEX, RANGE};
use crate::routine_calls::{emit_three, emit_two};
use crate::scope::Scope;
use crate::spots::{
    Spot, address, branch, constant, emit, emit_moved, load, spot_of, sum, sum_with,
};
use crate::stored::{base_at, bytes_at, entry_at};
use arc_base::{Items, Memory};
use flat_code::From;
use heap_memory::{SEQ_ADD, SEQ_NEW, SEQ_POP, SEQ_RESIZE, TEXT_RESIZE};
use nim_program::Measure;
use nim_types::{TypeDef, TypeId, TypeTable};
use rv32_isa::Size;
use word_code::{PROCS_FROM, Test, WordInstr};

// The least int as a word, below which all numbers that aren't negative are.
const LEAST: u32 = 0x8000_0000;

// A length isn't negative.
fn emit_counted(code: &mut Items<WordInstr>, length: u32) -> Result<(), Memory>
    ensures { OnOk result (Puts code.old code.new (counted_code length)) }
{
    emit(
        code,
        &[
            constant(FIRST, LEAST),
            branch(Test::NotBelow, length, FIRST, RANGE),
        ],
    )
}

// A sequence isn't empty.
fn emit_filled(code: &mut Items<WordInstr>, from: Home) -> Result<(), Memory>
    ensures { OnOk result (Puts code.old code.new (filled_code from)) }
{
    emit(
        code,
        &[
            address(FIRST, from),
            load(FIRST, FIRST),
            constant(SECOND, 0),
            branch(Test::Equal, FIRST, SECOND, INDEX),
        ],
    )
}

fn element_in(entry: Option<&TypeDef>) -> TypeId
    ensures { result ≡ element_in (option_map (λ d. d.now) entry.entry) }
{
    match entry {
        Some(TypeDef::Seq(ty)) => *ty,
        _ => 0,
    }
}

fn each_bytes(types: &TypeTable, entry: Option<&TypeDef>) -> Result<u32, Memory>
    requires { HaveForms types.now }
    ensures { IfOk result (λ n. n ≡ each_bytes types.now (option_map (λ d. d.now) entry.entry)) }
{
    match entry {
        Some(TypeDef::Text) => Ok(1),
        Some(TypeDef::Seq(ty)) => bytes_at(types, *ty),
        _ => Ok(0),
    }
}

pub fn size_in(x: &Scope, place: Housed) -> Result<u32, Memory>
    requires { HasRoom (around_of x.now) }
    ensures { IfOk result (λ n. n ≡ size_in (around_of x.now) place) }
{
    each_bytes(x.types, entry_at(x.types, place.ty))
}

pub fn emit_new(code: &mut Items<WordInstr>, to: Home, length: u32, size: u32) -> Result<(), Memory>
    ensures { OnOk result (Puts code.old code.new (λ k. counted_code length (new_code to length size k))) }
{
    emit_counted(code, length)?;
    let length = Handed::Where(Home::Variable(length));
    emit_three(
        code,
        FIRST,
        SEQ_NEW,
        Handed::Where(to),
        length,
        Handed::Number(size),
    )
}

// A value comes to the address in the fifth variable, which is that of the next one then.
fn emit_next_element(code: &mut Items<WordInstr>, size: u32, from: Housed) -> Result<(), Memory>
    ensures { OnOk result (Puts code.old code.new (next_element_code size from)) }
{
    let there = Spot::Lies(Home::Variable(FIFTH));
    emit_moved(code, from.is_word, from.bytes, there, spot_of(from))?;
    emit(code, &[sum_with(FIFTH, FIFTH, size)])
}

// Operands, one behind the other.
fn emit_elements(
    code: &mut Items<WordInstr>,
    x: &Scope,
    size: u32,
    from: &[From],
) -> Result<(), Memory>
    ensures { OnOk result (Puts code.old code.new
        (elements_code size (operands (around_of x.now) from.now))) }
{
    let mut left = from;
    while let Some((operand, rest)) = left.split_first() {
        emit_next_element(code, size, x.operand(*operand))?;
        left = rest;
    }
    Ok(())
}

// A number of 32 bits.
fn counted(n: usize) -> Result<u32, Memory>
    ensures { IfOk result (λ m. m ≡ n) }
{
    if n > u32::MAX as usize {
        return Err(Memory);
    }
    Ok(n as u32)
}

// How many operands there are.
fn count_of(x: &Scope, from: &[From]) -> Result<u32, Memory>
    ensures { IfOk result (λ n. n ≡ length (operands (around_of x.now) from.now)) }
{
    let n = counted(from.len())?;
    Ok(n)
}

pub fn emit_sequence(
    code: &mut Items<WordInstr>,
    x: &Scope,
    to: Home,
    size: u32,
    from: &[From],
) -> Result<(), Memory>
    ensures { OnOk result (Puts code.old code.new
        (sequence_code to size (operands (around_of x.now) from.now))) }
{
    let length = count_of(x, from)?;
    let (new, length) = (Handed::Where(to), Handed::Number(length));
    emit_three(code, FIRST, SEQ_NEW, new, length, Handed::Number(size))?;
    emit(
        code,
        &[
            address(FIFTH, to),
            sum_with(FIFTH, FIFTH, 4),
            load(FIFTH, FIFTH),
        ],
    )?;
    emit_elements(code, x, size, from)
}

pub fn emit_added(
    code: &mut Items<WordInstr>,
    to: Home,
    size: u32,
    from: Housed,
) -> Result<(), Memory>
    ensures { OnOk result (Puts code.old code.new (added_code to size from)) }
{
    emit_two(
        code,
        FIFTH,
        SEQ_ADD,
        Handed::Where(to),
        Handed::Number(size),
    )?;
    let there = Spot::Lies(Home::Variable(FIFTH));
    emit_moved(code, from.is_word, from.bytes, there, spot_of(from))
}

pub fn emit_popped(
    code: &mut Items<WordInstr>,
    few: bool,
    to: Housed,
    from: Home,
    size: u32,
) -> Result<(), Memory>
    ensures { OnOk result (Puts code.old code.new
        (λ k. if few then k else popped_code to from size k)) }
{
    if few {
        return Ok(());
    }
    emit_filled(code, from)?;
    emit_two(
        code,
        FIFTH,
        SEQ_POP,
        Handed::Where(from),
        Handed::Number(size),
    )?;
    let there = Spot::Lies(Home::Variable(FIFTH));
    emit_moved(code, to.is_word, to.bytes, spot_of(to), there)
}

pub fn emit_measured(
    code: &mut Items<WordInstr>,
    measure: Measure,
    to: u32,
    from: Home,
) -> Result<(), Memory>
    ensures { OnOk result (Puts code.old code.new (measured_code measure to from)) }
{
    match measure {
        Measure::Len => emit(code, &[address(FIRST, from), load(to, FIRST)]),
        Measure::High => emit(
            code,
            &[
                address(FIRST, from),
                load(FIRST, FIRST),
                sum_with(to, FIRST, u32::MAX),
            ],
        ),
    }
}

// Whether a type has hooks. One beyond the table is int.
fn has_hooks(types: &TypeTable, ty: TypeId) -> bool
    requires { HaveForms types.now }
    ensures { result ≡ has_hooks types.now ty }
{
    ty < types.count() && types.is_hooked(ty)
}

// The number of the procedure by which what stands behind a length of a type's values ends.
fn cut_number(x: &Scope, ty: TypeId) -> Result<u32, Memory>
    ensures { IfOk result (λ n. n ≡ cut_number (around_of x.now) ty) }
{
    let procs = counted(x.layouts.len())?;
    if ty > (u32::MAX - 4) / 5 {
        return Err(Memory);
    }
    sum(sum(PROCS_FROM, procs)?, 5 * ty + 4)
}

// The routine that gives a sequence another length.
fn emit_length(code: &mut Items<WordInstr>, to: Home, length: u32, size: u32) -> Result<(), Memory>
    ensures { OnOk result (Puts code.old code.new (length_code to length size)) }
{
    let length = Handed::Where(Home::Variable(length));
    emit_three(
        code,
        FIRST,
        SEQ_RESIZE,
        Handed::Where(to),
        length,
        Handed::Number(size),
    )
}

// Where it gets no longer, elements with hooks behind a length end, and control goes on at the
// second label behind this one.
fn emit_cut(
    code: &mut Items<WordInstr>,
    number: u32,
    label: u32,
    to: Home,
    length: u32,
) -> Result<(), Memory>
    ensures { OnOk result (Puts code.old code.new (cut_code number label to length)) }
{
    emit(
        code,
        &[
            address(FIRST, to),
            load(FIRST, FIRST),
            branch(Test::Below, FIRST, length, label),
        ],
    )?;
    let kept = Handed::Where(Home::Variable(length));
    emit_two(code, FIRST, number, Handed::Where(to), kept)?;
    let to = sum(label, 2)?;
    emit(
        code,
        &[WordInstr::Jump { to }, WordInstr::Label { name: label }],
    )
}

fn emit_resized(
    code: &mut Items<WordInstr>,
    x: &Scope,
    hooks: bool,
    label: u32,
    ty: TypeId,
    to: Home,
    length: u32,
    size: u32,
) -> Result<(), Memory>
    ensures { OnOk result (Puts code.old code.new
        (resized_code (around_of x.now) hooks label ty to length size)) }
{
    if !hooks {
        return emit_length(code, to, length, size);
    }
    let number = cut_number(x, ty)?;
    emit_cut(code, number, label, to, length)?;
    emit_length(code, to, length, size)?;
    let name = sum(label, 2)?;
    emit(code, &[WordInstr::Label { name }])
}

fn emit_sequence_sized(
    code: &mut Items<WordInstr>,
    x: &Scope,
    label: u32,
    ty: TypeId,
    to: Home,
    length: u32,
) -> Result<(), Memory>
    requires { HasRoom (around_of x.now) }
    ensures { OnOk result (Puts code.old code.new
        (sized_code (around_of x.now) false label ty to length)) }
{
    let size = each_bytes(x.types, entry_at(x.types, ty))?;
    let hooks = has_hooks(x.types, element_in(entry_at(x.types, ty)));
    emit_resized(
        code,
        x,
        hooks,
        label,
        base_at(x.types, ty),
        to,
        length,
        size,
    )
}

pub fn emit_sized(
    code: &mut Items<WordInstr>,
    x: &Scope,
    few: bool,
    label: u32,
    ty: TypeId,
    to: Home,
    length: u32,
) -> Result<(), Memory>
    requires { HasRoom (around_of x.now) }
    ensures { OnOk result (Puts code.old code.new (λ k. if few then k else counted_code length
        (sized_code (around_of x.now) (is_text (entry_at x.now.types.now ty)) label ty to length k))) }
{
    if few {
        return Ok(());
    }
    emit_counted(code, length)?;
    match entry_at(x.types, ty) {
        Some(TypeDef::Text) => {
            let length = Handed::Where(Home::Variable(length));
            emit_two(code, FIRST, TEXT_RESIZE, Handed::Where(to), length)
        }
        _ => emit_sequence_sized(code, x, label, ty, to, length),
    }
}

/// The value of an element, from the address in the fifth variable. A character of a text is a byte.
pub fn emit_element_read(code: &mut Items<WordInstr>, text: bool, to: Housed) -> Result<(), Memory>
    ensures { OnOk result (Puts code.old code.new (element_read text to)) }
{
    if !text {
        let there = Spot::Lies(Home::Variable(FIFTH));
        return emit_moved(code, to.is_word, to.bytes, spot_of(to), there);
    }
    emit(
        code,
        &[WordInstr::Load {
            to: FIRST,
            address: FIFTH,
            size: Size::Byte,
        }],
    )?;
    emit_moved(code, true, to.bytes, spot_of(to), Spot::Held(FIRST))
}
