// The word code of values with parts.
ghost use Rattle.std.specs.Prelude.{◌≡◌, [], ◌∷◌, OnOk};
ghost use Rattle.word_lowering.specs.Emission.{Puts};
ghost use Rattle.word_lowering.specs.LineCode.{truth_word, unless_zero, pieces_code};
ghost use Rattle.flat_code.specs.Pieces.{piece_words};
ghost use Rattle.word_lowering.specs.LineCode.{built_code, constant_at, constant_code, parts_code};
ghost use Rattle.word_lowering.specs.LineCode.{fields_code};
ghost use Rattle.word_lowering.specs.LineCode.{first_word, operands, value};
ghost use Rattle.word_lowering.specs.Scope.{HasRoom, around_of};
ghost use Rattle.word_lowering.specs.Spots.{spot_of, clears};
ghost use Rattle.word_lowering.specs.Stored.{HaveForms, is_hooked};

use crate::aliases::{is_read, text_in};
use crate::homes::{FIRST, Home, Housed, SECOND};
use crate::hook_calls::emit_hook;
use crate::literals::{emit_lent_text, emit_text_copy};
use crate::scope::Scope;
use crate::spots::{
    Spot, address, constant, emit, emit_cleared, emit_clears, emit_moved, shifted, spot_of, store,
    store_sized,
};
use crate::stored::{is_hooked, part_at};
use arc_base::{Items, Memory};
use flat_code::{From, Piece};
use hook_lifting::Hook;
use nim_program::Use;
use nim_types::TypeId;
use rv32_isa::Size;
use word_code::WordInstr;

/// The word of a bool.
pub fn truth_word(holds: bool) -> u32
    ensures { result ≡ truth_word holds }
{
    if holds { 1 } else { 0 }
}

// A word that isn't 0 to where zeros stand.
fn emit_unless_zero(code: &mut Items<WordInstr>, to: Home, word: u32) -> Result<(), Memory>
    ensures { OnOk result (Puts code.old code.new (unless_zero to word)) }
{
    if word == 0 {
        return Ok(());
    }
    emit(
        code,
        &[
            address(FIRST, to),
            constant(SECOND, word),
            store(FIRST, SECOND),
        ],
    )
}

fn emit_pieces(code: &mut Items<WordInstr>, to: Home, pieces: &[Piece]) -> Result<(), Memory>
    ensures { OnOk result (Puts code.old code.new (pieces_code to pieces.now)) }
{
    let mut to = to;
    for piece in pieces {
        match piece {
            Piece::Ordinal(z) => {
                emit_unless_zero(code, to, z.cast_unsigned())?;
                to = shifted(4, to)?;
            }
            Piece::Parts(0) => to = shifted(4, to)?,
            _ => {}
        }
    }
    Ok(())
}

// The first of the words of pieces.
fn first_word(pieces: &[Piece]) -> u32
    ensures { result ≡ first_word (piece_words pieces.now) }
{
    for piece in pieces {
        match piece {
            Piece::Ordinal(z) => return z.cast_unsigned(),
            Piece::Parts(0) => return 0,
            _ => {}
        }
    }
    0
}

// A constant of numbers.
fn emit_constant_at(code: &mut Items<WordInstr>, to: Housed, pieces: &[Piece]) -> Result<(), Memory>
    ensures { OnOk result (Puts code.old code.new (constant_at to (spot_of to) pieces.now)) }
{
    match spot_of(to) {
        Spot::Held(v) => emit(code, &[constant(v, first_word(pieces))]),
        Spot::Lies(home) => {
            emit_cleared(code, to.is_word, to.bytes, Spot::Lies(home))?;
            emit_pieces(code, home, pieces)
        }
        Spot::Letter(home) => emit(
            code,
            &[
                address(FIRST, home),
                constant(SECOND, first_word(pieces)),
                store_sized(FIRST, SECOND, Size::Byte),
            ],
        ),
    }
}

// One that is no text: a copy of what stands in the data, or built.
fn emit_built(
    code: &mut Items<WordInstr>,
    x: &Scope,
    ty: TypeId,
    to: Housed,
    pieces: &[Piece],
) -> Result<(), Memory>
    requires { HasRoom (around_of x.now) }
    ensures { OnOk result (Puts code.old code.new
        (built_code (around_of x.now) (is_hooked x.now.types.now ty) ty to pieces.now)) }
{
    if is_hooked(x.types, ty) {
        let from = Home::Static(x.standing_at(pieces)?);
        return emit_hook(code, x, Hook::Copies, ty, to.home, from);
    }
    emit_constant_at(code, to, pieces)
}

/// The value of a constant.
pub fn emit_constant(
    code: &mut Items<WordInstr>,
    x: &Scope,
    how: Use,
    ty: TypeId,
    to: Housed,
    pieces: &[Piece],
) -> Result<(), Memory>
    requires { HasRoom (around_of x.now) }
    ensures { OnOk result (Puts code.old code.new (constant_code (around_of x.now) how ty to pieces.now)) }
{
    match text_in(pieces) {
        None => emit_built(code, x, ty, to, pieces),
        Some(text) => {
            if is_read(how) {
                return emit_lent_text(code, x, to, text);
            }
            emit_text_copy(code, x, to.home, text)
        }
    }
}

/// Parts one behind the other.
pub fn emit_parts(
    code: &mut Items<WordInstr>,
    x: &Scope,
    to: Home,
    parts: &[From],
) -> Result<(), Memory>
    ensures { OnOk result (Puts code.old code.new
        (parts_code to (operands (around_of x.now) parts.now))) }
{
    let mut to = to;
    for from in parts {
        let part = x.operand(*from);
        emit_moved(
            code,
            part.is_word,
            part.bytes,
            Spot::Lies(to),
            spot_of(part),
        )?;
        to = shifted(part.bytes, to)?;
    }
    Ok(())
}

// A field of an object of a type.
fn emit_field(
    code: &mut Items<WordInstr>,
    x: &Scope,
    to: Home,
    ty: TypeId,
    field: u32,
    part: Housed,
) -> Result<(), Memory>
    requires { HaveForms x.now.types.now }
    ensures { OnOk result (Puts code.old code.new (λ k.
        fields_code (around_of x.now) to ty (field ∷ []) (part ∷ []) k)) }
{
    let there = shifted(part_at(x.types, ty, field)?, to)?;
    emit_moved(
        code,
        part.is_word,
        part.bytes,
        Spot::Lies(there),
        spot_of(part),
    )
}

// Fields of an object of a type.
fn emit_fields(
    code: &mut Items<WordInstr>,
    x: &Scope,
    to: Home,
    ty: TypeId,
    fields: &[u32],
    parts: &[From],
) -> Result<(), Memory>
    requires { HaveForms x.now.types.now }
    ensures { OnOk result (Puts code.old code.new
        (fields_code (around_of x.now) to ty fields.now (operands (around_of x.now) parts.now))) }
{
    let mut numbers = fields;
    let mut left = parts;
    while let Some((field, more)) = numbers.split_first() {
        let Some((from, rest)) = left.split_first() else {
            break;
        };
        emit_field(code, x, to, ty, *field, x.operand(*from))?;
        numbers = more;
        left = rest;
    }
    Ok(())
}

/// An object with some fields.
pub fn emit_construct(
    code: &mut Items<WordInstr>,
    x: &Scope,
    to: u32,
    ty: TypeId,
    fields: &[u32],
    parts: &[From],
) -> Result<(), Memory>
    requires { HaveForms x.now.types.now }
    ensures { OnOk result (Puts code.old code.new (λ k. clears (value (around_of x.now) to)
        (fields_code (around_of x.now) (value (around_of x.now) to).home ty fields.now
        (operands (around_of x.now) parts.now) k))) }
{
    let place = x.value(to);
    emit_clears(code, place)?;
    emit_fields(code, x, place.home, ty, fields, parts)
}
