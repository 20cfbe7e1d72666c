// The word code of lines of control: labels, lines that may lead to one, and the next number of a loop.
ghost use Rattle.std.specs.Prelude.{◌≡◌, true, ◌∷◌, OnOk};
ghost use Rattle.word_lowering.specs.Emission.{Puts};
ghost use Rattle.word_lowering.specs.LineCode.{choice_code, is_control, line_code, own_label};
ghost use Rattle.word_lowering.specs.Scope.{around_of, HasRoom};

use crate::homes::Housed;
use crate::literals::emit_text_fits;
use crate::operations::{emit_beyond, emit_fits, emit_turn, emit_turn_if, emit_unless};
use crate::scope::{Scope, own_label, variable_of};
use crate::spots::{emit, sum_with};
use arc_base::{Items, Memory};
use flat_code::Line;
use nim_program::Label;
use word_code::WordInstr;

fn emit_label(code: &mut Items<WordInstr>, name: u32) -> Result<(), Memory>
    ensures { OnOk result (Puts code.old code.new (λ k. WordInstr.Label (own_label name) ∷ k)) }
{
    let name = own_label(name)?;
    emit(code, &[WordInstr::Label { name }])
}

fn emit_jump(code: &mut Items<WordInstr>, to: u32) -> Result<(), Memory>
    ensures { OnOk result (Puts code.old code.new (λ k. WordInstr.Jump (own_label to) ∷ k)) }
{
    let to = own_label(to)?;
    emit(code, &[WordInstr::Jump { to }])
}

// A turn of a loop begins at a label.
fn emit_turn_to(code: &mut Items<WordInstr>, to: u32) -> Result<(), Memory>
    ensures { OnOk result (Puts code.old code.new
        (λ k. WordInstr.Spend ∷ WordInstr.Jump (own_label to) ∷ k)) }
{
    let to = own_label(to)?;
    emit(code, &[WordInstr::Spend, WordInstr::Jump { to }])
}

// A test of what is chosen by: control goes on at `to` where a label has it.
fn emit_choice(
    code: &mut Items<WordInstr>,
    x: &Scope,
    from: Housed,
    these: &Label,
    to: u32,
) -> Result<(), Memory>
    requires { HasRoom (around_of x.now) }
    ensures { OnOk result (Puts code.old code.new (choice_code (around_of x.now) these.now from to)) }
{
    match these {
        Label::Ordinals { low, high } => emit_fits(code, variable_of(from), to, *low, *high),
        Label::Text(text) => emit_text_fits(code, x, text.as_slice(), from, to),
    }
}

/// The code of a line of control, with a label of its own.
pub fn emit_control(
    code: &mut Items<WordInstr>,
    x: &Scope,
    line: &Line,
    label: u32,
) -> Result<(), Memory>
    requires room { HasRoom (around_of x.now) }
    requires control { is_control line.now ≡ true }
    ensures { OnOk result (Puts code.old code.new (line_code (around_of x.now) line.now label)) }
{
    match line {
        Line::Beyond {
            counter,
            last,
            inclusive,
            to,
        } => {
            let (i, n) = (x.held(*counter), x.held(*last));
            emit_beyond(code, *inclusive, i, n, own_label(*to)?)
        }
        Line::Next { counter, .. } => {
            let i = x.held(*counter);
            emit(code, &[sum_with(i, i, 1)])
        }
        Line::Label { name } => emit_label(code, *name),
        Line::Jump { to } => emit_jump(code, *to),
        Line::Enter => emit(code, &[WordInstr::Spend]),
        Line::Turn { to } => emit_turn_to(code, *to),
        Line::Unless { from, to } => emit_unless(code, x.held(*from), own_label(*to)?),
        Line::Fits { from, these, to } => {
            emit_choice(code, x, x.value(*from), these, own_label(*to)?)
        }
        Line::TurnIf { from, to } => emit_turn_if(code, x.held(*from), own_label(*to)?),
        Line::CountTurn {
            counter,
            last,
            inclusive,
            to,
        } => {
            let (i, n) = (x.held(*counter), x.held(*last));
            emit_turn(code, label, i, n, *inclusive, own_label(*to)?)
        }
        _ => Ok(()),
    }
}
