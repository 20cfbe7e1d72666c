// Calls of routines at addresses.
ghost use Rattle.std.specs.Prelude.{OnOk, [], ◌∷◌};
ghost use Rattle.word_lowering.specs.Emission.{Puts};
ghost use Rattle.word_lowering.specs.RoutineCode.{called_code, handed_code};

use crate::handed::Handed;
use crate::homes::FIRST;
use crate::locations::emit_word_argument;
use crate::spots::{argument, call, constant, emit};
use arc_base::{Items, Memory};
use word_code::WordInstr;

fn emit_handed(code: &mut Items<WordInstr>, index: u32, what: Handed) -> Result<(), Memory>
    ensures { OnOk result (Puts code.old code.new (handed_code index what)) }
{
    match what {
        Handed::Where(home) => emit_word_argument(code, index, home),
        Handed::Number(n) => emit(code, &[constant(FIRST, n), argument(index, FIRST)]),
    }
}

/// A call with one argument. What it gives goes to a variable.
pub fn emit_one(code: &mut Items<WordInstr>, to: u32, callee: u32, a: Handed) -> Result<(), Memory>
    ensures { OnOk result (Puts code.old code.new (called_code to callee (a ∷ []))) }
{
    emit_handed(code, 0, a)?;
    emit(code, &[call(to, callee)])
}

pub fn emit_two(
    code: &mut Items<WordInstr>,
    to: u32,
    callee: u32,
    a: Handed,
    b: Handed,
) -> Result<(), Memory>
    ensures { OnOk result (Puts code.old code.new (called_code to callee (a ∷ b ∷ []))) }
{
    emit_handed(code, 0, a)?;
    emit_handed(code, 1, b)?;
    emit(code, &[call(to, callee)])
}

pub fn emit_three(
    code: &mut Items<WordInstr>,
    to: u32,
    callee: u32,
    a: Handed,
    b: Handed,
    c: Handed,
) -> Result<(), Memory>
    ensures { OnOk result (Puts code.old code.new (called_code to callee (a ∷ b ∷ c ∷ []))) }
{
    emit_handed(code, 0, a)?;
    emit_handed(code, 1, b)?;
    emit_handed(code, 2, c)?;
    emit(code, &[call(to, callee)])
}
