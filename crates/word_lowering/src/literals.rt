// The word code of literals that are no other names: their handles, copies of them, and labels of
// a `case`.
ghost use Rattle.std.specs.Prelude.{OnOk, ◌∷◌, length};
ghost use Rattle.nim_program.specs.declared.expr.Label.TheVariants as C;
ghost use Rattle.word_code.specs.declared.word.WordInstr.{WordInstr};
ghost use Rattle.word_lowering.specs.Emission.{Puts};
ghost use Rattle.word_lowering.specs.LineCode.{choice_code, text_at};
ghost use Rattle.word_lowering.specs.OwnedCode.{handle_code, lent_text_code, text_copy_code};
ghost use Rattle.word_lowering.specs.Scope.{HasRoom, around_of};

use crate::handed::{Handed, LEFT_HANDLE_AT, RIGHT_HANDLE_AT};
use crate::homes::{Alias, FIFTH, FIRST, FOURTH, Home, Housed, SECOND};
use crate::routine_calls::emit_two;
use crate::scope::Scope;
use crate::spots::{address, branch, constant, emit, more, shifted, store};
use crate::text_handles::{emit_handle, emit_literal_text, literal_home};
use arc_base::{Items, Memory};
use heap_memory::{TEXT_COPY, TEXT_ORDER};
use word_code::{Test, WordInstr};

// The handle of a text of the data.
fn emit_text_handle(code: &mut Items<WordInstr>, x: &Scope, text: &[u8]) -> Result<(), Memory>
    requires { HasRoom (around_of x.now) }
    ensures { OnOk result (Puts code.old code.new (λ k.
        WordInstr.Datum FIRST (text_at (around_of x.now) text.now)
        ∷ WordInstr.Constant SECOND (length text.now) ∷ handle_code LEFT_HANDLE_AT k)) }
{
    let place = x.text_at(text)?;
    let bytes = more(0, text)?;
    emit(
        code,
        &[address(FIRST, Home::Static(place)), constant(SECOND, bytes)],
    )?;
    emit_handle(code, LEFT_HANDLE_AT)
}

/// A copy of a literal.
pub fn emit_text_copy(
    code: &mut Items<WordInstr>,
    x: &Scope,
    to: Home,
    text: &[u8],
) -> Result<(), Memory>
    requires { HasRoom (around_of x.now) }
    ensures { OnOk result
        (Puts code.old code.new (text_copy_code (around_of x.now) to text.now)) }
{
    emit_text_handle(code, x, text)?;
    let from = Handed::Where(Home::Static(LEFT_HANDLE_AT));
    emit_two(code, FIRST, TEXT_COPY, Handed::Where(to), from)
}

/// The handle of a literal that is only read, where it has a home.
pub fn emit_lent_text(
    code: &mut Items<WordInstr>,
    x: &Scope,
    to: Housed,
    text: &[u8],
) -> Result<(), Memory>
    requires { HasRoom (around_of x.now) }
    ensures { OnOk result
        (Puts code.old code.new (lent_text_code (around_of x.now) to.alias to.home text.now)) }
{
    if let Alias::Text { .. } = to.alias {
        return Ok(());
    }
    let place = x.text_at(text)?;
    let bytes = more(0, text)?;
    let behind = shifted(4, to.home)?;
    emit(
        code,
        &[
            address(FIRST, to.home),
            constant(SECOND, bytes),
            store(FIRST, SECOND),
            address(FIRST, behind),
            address(SECOND, Home::Static(place)),
            store(FIRST, SECOND),
        ],
    )
}

/// A test whether a text is that of a label: control goes on at `to` then.
pub fn emit_text_fits(
    code: &mut Items<WordInstr>,
    x: &Scope,
    text: &[u8],
    from: Housed,
    to: u32,
) -> Result<(), Memory>
    requires { HasRoom (around_of x.now) }
    ensures { OnOk result (Puts code.old code.new
        (choice_code (around_of x.now) (C.Text text.now) from to)) }
{
    emit_literal_text(code, x, RIGHT_HANDLE_AT, from.alias)?;
    emit_text_handle(code, x, text)?;
    let left = Handed::Where(Home::Static(LEFT_HANDLE_AT));
    let right = Handed::Where(literal_home(RIGHT_HANDLE_AT, from.alias, from.home));
    emit_two(code, FOURTH, TEXT_ORDER, left, right)?;
    emit(
        code,
        &[constant(FIFTH, 0), branch(Test::Equal, FOURTH, FIFTH, to)],
    )
}
