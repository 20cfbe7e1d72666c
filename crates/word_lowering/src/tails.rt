// The ends of procedures: labels of traps.
ghost use Rattle.std.specs.Prelude.{◌≡◌, ◌<◌, ◌+◌, OnOk};
ghost use Rattle.word_lowering.specs.Emission.{Puts};
ghost use Rattle.word_lowering.specs.Lowered.{branches_to, any_branches, trap_code, and_last};

use crate::homes::FIRST;
use crate::operations::{DEPTH, DIVISION, INDEX, LENGTH, OVERFLOW, RANGE};
use crate::spots::{call, emit};
use arc_base::{Items, Memory};
use word_code::{TRAPS_FROM, WordInstr};

fn branches_to(label: u32, line: &WordInstr) -> bool
    ensures { result ≡ branches_to label line.now }
{
    match line {
        WordInstr::Branch { to, .. } => label == *to,
        _ => false,
    }
}

// Whether one of these lines branches to a label.
fn any_branches(label: u32, lines: &[WordInstr]) -> bool
    ensures { result ≡ any_branches label lines.now }
{
    for line in lines {
        if branches_to(label, line) {
            return true;
        }
    }
    false
}

// The label of a trap with the call of its routine, which doesn't come back.
fn emit_trap(code: &mut Items<WordInstr>, leads: bool, label: u32) -> Result<(), Memory>
    requires { label < 8 }
    ensures { OnOk result (Puts code.old code.new (trap_code leads label (TRAPS_FROM + label))) }
{
    if !leads {
        return Ok(());
    }
    emit(
        code,
        &[
            WordInstr::Label { name: label },
            call(FIRST, TRAPS_FROM + label),
        ],
    )
}

/// Adds what stands at the end of a procedure with these lines.
pub fn emit_last(code: &mut Items<WordInstr>) -> Result<(), Memory>
    ensures { OnOk result (code.new ≡ and_last code.old) }
{
    let lines = code.as_slice();
    let overflow = any_branches(OVERFLOW, lines);
    let division = any_branches(DIVISION, lines);
    let index = any_branches(INDEX, lines);
    let range = any_branches(RANGE, lines);
    let length = any_branches(LENGTH, lines);
    let depth = any_branches(DEPTH, lines);
    emit_trap(code, overflow, OVERFLOW)?;
    emit_trap(code, division, DIVISION)?;
    emit_trap(code, index, INDEX)?;
    emit_trap(code, range, RANGE)?;
    emit_trap(code, length, LENGTH)?;
    emit_trap(code, depth, DEPTH)
}
