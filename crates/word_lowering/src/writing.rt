// The word code of what is written.
ghost use Rattle.std.specs.Prelude.{◌≡◌, ◌+◌, ◌*◌, OnOk};
ghost use Rattle.word_lowering.specs.Emission.{Puts};
ghost use Rattle.word_lowering.specs.LineCode.{number_code, bool_code, char_code, name_code};
ghost use Rattle.word_lowering.specs.LineCode.{text_code, literal_at, told_code, written_code};
ghost use Rattle.word_lowering.specs.LineCode.{typed_code};
ghost use Rattle.word_lowering.specs.LineCode.{texts_code, operands, variable_of};
ghost use Rattle.word_lowering.specs.Scope.{around_of, HasRoom};
ghost use Rattle.word_lowering.specs.Stored.{entry_at, base_at};
ghost use Rattle.word_lowering.specs.Texts.{names_before};

use crate::handed::Handed;
use crate::homes::{Alias, FIRST, Housed, SECOND, THIRD};
use crate::routine_calls::emit_one;
use crate::scope::{Scope, variable_of};
use crate::spots::{argument, call, compute, constant, emit, load};
use crate::stored::{base_at, entry_at};
use crate::texts::{FALSE_AT, names_before};
use arc_base::{Items, Memory, Stream};
use flat_code::From;
use heap_memory::TEXT_WRITE;
use nim_types::{TypeDef, TypeId};
use rv32_isa::Size;
use word_code::{NUMBER, WordInstr, WordOperation};

const WRITE: WordInstr = WordInstr::Write {
    stream: Stream::Out,
    address: FIRST,
    len: SECOND,
};

fn datum(to: u32, at: u32) -> WordInstr
    ensures { result ≡ WordInstr.Datum to at }
{
    WordInstr::Datum { to, at }
}

fn emit_number(code: &mut Items<WordInstr>, from: u32) -> Result<(), Memory>
    ensures { OnOk result (Puts code.old code.new (number_code from)) }
{
    emit(code, &[argument(0, from), call(FIRST, NUMBER)])
}

fn emit_bool(code: &mut Items<WordInstr>, from: u32) -> Result<(), Memory>
    ensures { OnOk result (Puts code.old code.new (bool_code from)) }
{
    emit(
        code,
        &[
            constant(FIRST, 3),
            compute(FIRST, WordOperation::ShiftLeft, from, FIRST),
            datum(SECOND, FALSE_AT),
            compute(FIRST, WordOperation::Add, SECOND, FIRST),
            constant(SECOND, 5),
            compute(SECOND, WordOperation::Subtract, SECOND, from),
            WRITE,
        ],
    )
}

fn emit_char(code: &mut Items<WordInstr>, from: u32) -> Result<(), Memory>
    ensures { OnOk result (Puts code.old code.new (char_code from)) }
{
    let put = WordInstr::Store {
        address: FIRST,
        from,
        size: Size::Byte,
    };
    emit(code, &[datum(FIRST, 0), put, constant(SECOND, 1), WRITE])
}

fn emit_name(code: &mut Items<WordInstr>, ends: u32, names: u32, from: u32) -> Result<(), Memory>
    ensures { OnOk result (Puts code.old code.new (name_code ends names from)) }
{
    emit(
        code,
        &[
            constant(FIRST, 2),
            compute(FIRST, WordOperation::ShiftLeft, from, FIRST),
            datum(SECOND, ends),
            compute(SECOND, WordOperation::Add, SECOND, FIRST),
            load(FIRST, SECOND),
            constant(THIRD, 4),
            compute(SECOND, WordOperation::Add, SECOND, THIRD),
            load(SECOND, SECOND),
            compute(SECOND, WordOperation::Subtract, SECOND, FIRST),
            datum(THIRD, names),
            compute(FIRST, WordOperation::Add, THIRD, FIRST),
            WRITE,
        ],
    )
}

/// The ends of the names of an enum, with distinct types looked through.
pub fn ends_of(x: &Scope, ty: TypeId) -> u32
    requires { HasRoom (around_of x.now) }
    ensures { result ≡ x.now.setting.ends
        + 4 * names_before x.now.types.now (base_at x.now.types.now ty) }
{
    x.setting.ends + 4 * names_before(x.types, base_at(x.types, ty))
}

/// So many bytes of the data; nothing is done for none.
pub fn emit_text(code: &mut Items<WordInstr>, at: u32, bytes: u32) -> Result<(), Memory>
    ensures { OnOk result (Puts code.old code.new (text_code at bytes)) }
{
    if bytes == 0 {
        return Ok(());
    }
    emit(code, &[datum(FIRST, at), constant(SECOND, bytes), WRITE])
}

// A text that a temporary is another name for, or that of a handle.
fn emit_told(code: &mut Items<WordInstr>, x: &Scope, from: Housed) -> Result<(), Memory>
    requires { HasRoom (around_of x.now) }
    ensures { OnOk result (Puts code.old code.new
        (told_code (literal_at (around_of x.now)) from.alias from.home)) }
{
    match from.alias {
        Alias::Text { behind, bytes } => {
            let at = x.literal_at(behind, bytes)?;
            emit_text(code, at, bytes)
        }
        _ => emit_one(code, FIRST, TEXT_WRITE, Handed::Where(from.home)),
    }
}

// The text of an operand of a type.
fn emit_written(
    code: &mut Items<WordInstr>,
    x: &Scope,
    ty: TypeId,
    from: Housed,
) -> Result<(), Memory>
    requires { HasRoom (around_of x.now) }
    ensures { OnOk result (Puts code.old code.new (written_code (around_of x.now)
        (entry_at x.now.types.now ty) (base_at x.now.types.now ty) from)) }
{
    match entry_at(x.types, ty) {
        None | Some(TypeDef::Int) => emit_number(code, variable_of(from)),
        Some(TypeDef::Bool) => emit_bool(code, variable_of(from)),
        Some(TypeDef::Char) => emit_char(code, variable_of(from)),
        Some(TypeDef::Text) => emit_told(code, x, from),
        Some(TypeDef::Enum { .. }) => {
            emit_name(code, ends_of(x, ty), x.setting.names, variable_of(from))
        }
        _ => Ok(()),
    }
}

// The text of an operand, by its type.
fn emit_typed(
    code: &mut Items<WordInstr>,
    x: &Scope,
    ty: Option<TypeId>,
    from: Housed,
) -> Result<(), Memory>
    requires { HasRoom (around_of x.now) }
    ensures { OnOk result (Puts code.old code.new (typed_code (around_of x.now) ty from)) }
{
    match ty {
        None => Ok(()),
        Some(ty) => emit_written(code, x, ty, from),
    }
}

/// The texts of operands of types, one behind the other.
pub fn emit_texts(
    code: &mut Items<WordInstr>,
    x: &Scope,
    of: &[Option<TypeId>],
    from: &[From],
) -> Result<(), Memory>
    requires { HasRoom (around_of x.now) }
    ensures { OnOk result (Puts code.old code.new
        (texts_code (around_of x.now) of.now (operands (around_of x.now) from.now))) }
{
    let mut tys = of;
    let mut left = from;
    while let Some((ty, more)) = tys.split_first() {
        let Some((operand, rest)) = left.split_first() else {
            break;
        };
        emit_typed(code, x, *ty, x.operand(*operand))?;
        tys = more;
        left = rest;
    }
    Ok(())
}
