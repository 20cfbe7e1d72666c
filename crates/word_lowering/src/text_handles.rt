// Handles of texts that have none of their own: literals, characters and names.
ghost use Rattle.std.specs.Prelude.{OnOk, ◌*◌, ◌+◌, ◌≡◌};
ghost use Rattle.word_lowering.specs.Emission.{Puts};
ghost use Rattle.word_lowering.specs.LineCode.{operand_at, operands};
ghost use Rattle.word_lowering.specs.OwnedCode.{bool_name_code, entry_home, entry_of, entry_text};
ghost use Rattle.word_lowering.specs.OwnedCode.{handle_code, is_char, left_of, letter_code};
ghost use Rattle.word_lowering.specs.OwnedCode.{literal_home, literal_text, name_handle_code};
ghost use Rattle.word_lowering.specs.OwnedCode.{name_text, no_text_code, right_of, text_home, text_made};
ghost use Rattle.word_lowering.specs.OwnedCode.{two_made, type_of};
ghost use Rattle.word_lowering.specs.Scope.{HasRoom, around_of};
ghost use Rattle.word_lowering.specs.Stored.{base_at, entry_at};

use crate::handed::{LEFT_HANDLE_AT, RIGHT_HANDLE_AT};
use crate::homes::{Alias, FIRST, Home, Housed, SECOND, THIRD};
use crate::scope::{Scope, variable_of};
use crate::spots::{address, compute, constant, emit, load, store, sum, sum_with};
use crate::stored::entry_at;
use crate::texts::FALSE_AT;
use crate::writing::ends_of;
use arc_base::{Items, Memory};
use flat_code::From;
use nim_types::{TypeDef, TypeId};
use rv32_isa::Size;
use word_code::{WordInstr, WordOperation};

/// The handle of a text whose address is in the first variable and whose length is in the second.
pub fn emit_handle(code: &mut Items<WordInstr>, at: u32) -> Result<(), Memory>
    ensures { OnOk result (Puts code.old code.new (handle_code at)) }
{
    let behind = sum(at, 4)?;
    emit(
        code,
        &[
            address(THIRD, Home::Static(at)),
            store(THIRD, SECOND),
            address(THIRD, Home::Static(behind)),
            store(THIRD, FIRST),
        ],
    )
}

/// Of a character.
pub fn emit_letter(code: &mut Items<WordInstr>, at: u32, from: u32) -> Result<(), Memory>
    ensures { OnOk result (Puts code.old code.new (letter_code at from)) }
{
    let letter = sum(at, 8)?;
    let put = WordInstr::Store {
        address: FIRST,
        from,
        size: Size::Byte,
    };
    emit(
        code,
        &[
            address(FIRST, Home::Static(letter)),
            put,
            constant(SECOND, 1),
        ],
    )?;
    emit_handle(code, at)
}

fn emit_bool_name(code: &mut Items<WordInstr>, at: u32, from: u32) -> Result<(), Memory>
    ensures { OnOk result (Puts code.old code.new (bool_name_code at from)) }
{
    emit(
        code,
        &[
            constant(FIRST, 3),
            compute(FIRST, WordOperation::ShiftLeft, from, FIRST),
            address(SECOND, Home::Static(FALSE_AT)),
            compute(FIRST, WordOperation::Add, SECOND, FIRST),
            constant(SECOND, 5),
            compute(SECOND, WordOperation::Subtract, SECOND, from),
        ],
    )?;
    emit_handle(code, at)
}

fn emit_name_handle(
    code: &mut Items<WordInstr>,
    at: u32,
    ends: u32,
    names: u32,
    from: u32,
) -> Result<(), Memory>
    ensures { OnOk result (Puts code.old code.new (name_handle_code at ends names from)) }
{
    emit(
        code,
        &[
            constant(FIRST, 2),
            compute(FIRST, WordOperation::ShiftLeft, from, FIRST),
            address(SECOND, Home::Static(ends)),
            compute(SECOND, WordOperation::Add, SECOND, FIRST),
            load(FIRST, SECOND),
            sum_with(SECOND, SECOND, 4),
            load(SECOND, SECOND),
            compute(SECOND, WordOperation::Subtract, SECOND, FIRST),
            address(THIRD, Home::Static(names)),
            compute(FIRST, WordOperation::Add, THIRD, FIRST),
        ],
    )?;
    emit_handle(code, at)
}

pub fn emit_literal_text(
    code: &mut Items<WordInstr>,
    x: &Scope,
    at: u32,
    alias: Alias,
) -> Result<(), Memory>
    requires { HasRoom (around_of x.now) }
    ensures { OnOk result (Puts code.old code.new (literal_text (around_of x.now) at alias)) }
{
    match alias {
        Alias::Text { behind, bytes } => {
            let place = x.literal_at(behind, bytes)?;
            emit(
                code,
                &[address(FIRST, Home::Static(place)), constant(SECOND, bytes)],
            )?;
            emit_handle(code, at)
        }
        _ => Ok(()),
    }
}

// A handle is made of an operand that has none: a literal, or a character.
fn emit_entry_text(
    code: &mut Items<WordInstr>,
    x: &Scope,
    at: u32,
    ty: TypeId,
    from: Housed,
) -> Result<(), Memory>
    requires { HasRoom (around_of x.now) }
    ensures { OnOk result (Puts code.old code.new (entry_text (around_of x.now) at
        (entry_at x.now.types.now ty) from)) }
{
    match entry_at(x.types, ty) {
        Some(TypeDef::Text) => emit_literal_text(code, x, at, from.alias),
        Some(TypeDef::Char) => emit_letter(code, at, variable_of(from)),
        _ => Ok(()),
    }
}

fn emit_no_text(code: &mut Items<WordInstr>, at: u32) -> Result<(), Memory>
    ensures { OnOk result (Puts code.old code.new (no_text_code at)) }
{
    emit(code, &[constant(FIRST, 0), constant(SECOND, 0)])?;
    emit_handle(code, at)
}

/// Or of the name of a value, where its type has names.
pub fn emit_name_text(
    code: &mut Items<WordInstr>,
    x: &Scope,
    at: u32,
    ty: TypeId,
    from: Housed,
) -> Result<(), Memory>
    requires { HasRoom (around_of x.now) }
    ensures { OnOk result (Puts code.old code.new (name_text (around_of x.now) at
        (entry_at x.now.types.now ty) (base_at x.now.types.now ty) from)) }
{
    match entry_at(x.types, ty) {
        Some(TypeDef::Bool) => emit_bool_name(code, at, variable_of(from)),
        Some(TypeDef::Enum { .. }) => {
            emit_name_handle(code, at, ends_of(x, ty), x.setting.names, variable_of(from))
        }
        Some(TypeDef::Char) => emit_letter(code, at, variable_of(from)),
        Some(TypeDef::Text) => emit_literal_text(code, x, at, from.alias),
        _ => emit_no_text(code, at),
    }
}

/// A handle is made where an operand of a type has none.
pub fn emit_text_made(
    code: &mut Items<WordInstr>,
    x: &Scope,
    at: u32,
    ty: Option<TypeId>,
    from: Housed,
) -> Result<(), Memory>
    requires { HasRoom (around_of x.now) }
    ensures { OnOk result (Puts code.old code.new (text_made (around_of x.now) at ty from)) }
{
    match ty {
        None => Ok(()),
        Some(ty) => emit_entry_text(code, x, at, ty, from),
    }
}

pub fn literal_home(at: u32, alias: Alias, home: Home) -> Home
    ensures { result ≡ literal_home at alias home }
{
    match alias {
        Alias::Text { .. } => Home::Static(at),
        _ => home,
    }
}

/// Where the handle of an operand is.
pub fn entry_home(x: &Scope, at: u32, ty: TypeId, from: Housed) -> Home
    ensures { result ≡ entry_home at (entry_at x.now.types.now ty) from }
{
    match entry_at(x.types, ty) {
        Some(TypeDef::Text) => literal_home(at, from.alias, from.home),
        _ => Home::Static(at),
    }
}

/// Where the handle is then.
pub fn text_home(x: &Scope, at: u32, ty: Option<TypeId>, from: Housed) -> Home
    ensures { result ≡ text_home (around_of x.now) at ty from }
{
    match ty {
        None => Home::Static(at),
        Some(ty) => entry_home(x, at, ty, from),
    }
}

/// Whether it is a character.
pub fn is_char(x: &Scope, ty: Option<TypeId>) -> bool
    ensures { result ≡ is_char (entry_of x.now.types.now ty) }
{
    match ty {
        None => false,
        Some(ty) => matches!(entry_at(x.types, ty), Some(TypeDef::Char)),
    }
}

pub fn first_type(of: &[Option<TypeId>]) -> Option<TypeId>
    ensures { result ≡ type_of of.now 0 }
{
    match of.split_first() {
        Some((ty, _)) => *ty,
        None => None,
    }
}

pub fn second_type(of: &[Option<TypeId>]) -> Option<TypeId>
    ensures { result ≡ type_of of.now 1 }
{
    match of.split_first() {
        Some((_, rest)) => first_type(rest),
        None => None,
    }
}

pub fn left_of(x: &Scope, of: &[Option<TypeId>], from: &[From]) -> Home
    ensures { result ≡ left_of (around_of x.now) of.now (operands (around_of x.now) from.now) }
{
    text_home(x, LEFT_HANDLE_AT, first_type(of), x.operand_at(from, 0))
}

pub fn right_of(x: &Scope, of: &[Option<TypeId>], from: &[From]) -> Home
    ensures { result ≡ right_of (around_of x.now) of.now (operands (around_of x.now) from.now) }
{
    text_home(x, RIGHT_HANDLE_AT, second_type(of), x.operand_at(from, 1))
}

fn emit_right_made(
    code: &mut Items<WordInstr>,
    x: &Scope,
    of: &[Option<TypeId>],
    from: &[From],
) -> Result<(), Memory>
    requires { HasRoom (around_of x.now) }
    ensures { OnOk result (Puts code.old code.new (text_made (around_of x.now) RIGHT_HANDLE_AT
        (type_of of.now 1) (operand_at (operands (around_of x.now) from.now) 1))) }
{
    emit_text_made(
        code,
        x,
        RIGHT_HANDLE_AT,
        second_type(of),
        x.operand_at(from, 1),
    )
}

pub fn emit_two_made(
    code: &mut Items<WordInstr>,
    x: &Scope,
    of: &[Option<TypeId>],
    from: &[From],
) -> Result<(), Memory>
    requires { HasRoom (around_of x.now) }
    ensures { OnOk result (Puts code.old code.new
        (two_made (around_of x.now) of.now (operands (around_of x.now) from.now))) }
{
    emit_text_made(
        code,
        x,
        LEFT_HANDLE_AT,
        first_type(of),
        x.operand_at(from, 0),
    )?;
    emit_right_made(code, x, of, from)
}
