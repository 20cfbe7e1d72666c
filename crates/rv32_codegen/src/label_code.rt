// From word code to label code.
ghost use Rattle.std.specs.Prelude.{◌≡◌, ◌≤◌, ◌++◌, true, List, length, IfOk, OnOk};
ghost use Rattle.rv32_isa.specs.declared.label.LabelLine.{LabelLine as Line};
ghost use Rattle.rv32_isa.specs.Labels.{AreLines, has_instruction, hooks_lead};
ghost use Rattle.word_code.specs.Words.{have_no_hooks, is_word_code};
ghost use Rattle.rv32_codegen.specs.Code as spec;
ghost use Rattle.rv32_codegen.specs.Layout.{all_far, enters_no_hook, size};
ghost use Rattle.rv32_codegen.specs.Lowering.{AllHomes, AlwaysDoes, MakeFrames};
ghost use Rattle.rv32_codegen.specs.Lowering.{most_lines};
ghost use Rattle.rv32_codegen.specs.LineBytes.{most_bytes};

use crate::lines::emit_lines;
use crate::pieces::{emit, emit_shift, emit_sum, negative, push};
use arc_base::{Items, Memory};
use reg_scan::Homes;
use rv32_isa::build::{add, ebreak, lui, lw, sw};
use rv32_isa::{HookLabel, LabelCode, LabelLine, LabelName, STACK_AT, STATICS_AT};
use std::alloc::Global;
use word_code::{ProcKind, WordCode, WordProc};

/// The lines of label code do at most so many times the work of the word code and one more.
pub const CODE_PACE: u32 = 32;

/// A line of word code becomes at most so many lines.
pub const LINES_OF_LINE: u32 = 12;

/// A procedure has at most so many lines beside those of its lines.
pub const LINES_OF_PROC: u32 = 9;

/// So many lines stand in front of all procedures.
pub const LINES_OF_START: u32 = 5;

/// A line of word code that doesn't read the input, and the rest of a procedure, have at most so many
/// bytes where all branches are laid out as too far.
pub const BYTES_OF_LINE: u32 = 44;

/// One instruction reaches so many bytes from a register, up and down.
pub const NEAR_BYTES: u32 = 2_047;

/// What stands in front of all procedures has so many bytes.
pub const BYTES_OF_START: u32 = 20;

// What the label of a procedure carries.
fn hook_of(kind: ProcKind) -> Option<HookLabel>
    ensures { result ≡ spec.hook_of kind }
{
    match kind {
        ProcKind::Counted => None,
        ProcKind::Hook { kind, of } => Some(HookLabel { kind, of }),
        ProcKind::Uncounted => None,
    }
}

// What is done where a procedure begins: its frame and its places are made, and the return address
// is stored.
fn emit_entry(lines: &mut LabelCode, homes: &Homes, proc: &WordProc) -> Result<(), Memory>
    ensures { OnOk result ((k : List Line) →
        lines.new ++ k ≡ lines.old ++ spec.entry_code homes.now proc.now k) }
{
    emit_sum(lines, 2, 2, negative(homes.frame))?;
    emit_shift(lines, 3, proc.room)?;
    emit(lines, &[sw(2, 1, 0)])
}

// A procedure.
fn emit_proc(lines: &mut LabelCode, homes: &Homes, proc: &WordProc) -> Result<(), Memory>
    ensures { OnOk result ((k : List Line) →
        lines.new ++ k ≡ lines.old ++ spec.proc_code homes.now proc.now k) }
{
    push(
        lines,
        LabelLine::Label {
            name: LabelName::Entry {
                procedure: proc.number,
            },
            hook: hook_of(proc.kind),
        },
    )?;
    emit_entry(lines, homes, proc)?;
    emit_lines(lines, homes, proc, proc.lines.as_slice())?;
    emit(lines, &[ebreak()])
}

// Procedures, one after another.
fn emit_procs(lines: &mut LabelCode, procs: &[WordProc], homes: &[Homes]) -> Result<(), Memory>
    requires { length homes.now ≡ length procs.now }
    ensures { OnOk result (lines.new ≡ lines.old ++ spec.homes_code procs.now homes.now) }
{
    for i in 0..procs.len() {
        emit_proc(lines, &homes[i], &procs[i])?;
    }
    Ok(())
}

// What stands in front of them.
fn emit_start(lines: &mut LabelCode) -> Result<(), Memory>
    ensures { OnOk result ((k : List Line) → lines.new ++ k ≡ lines.old ++ spec.start_code k) }
{
    emit(
        lines,
        &[
            lui(4, STATICS_AT / 4096),
            lw(2, 4, 4),
            lui(3, STACK_AT / 4096),
            add(2, 2, 3),
        ],
    )?;
    push(
        lines,
        LabelLine::Jump {
            rd: 0,
            to: LabelName::Entry { procedure: 0 },
        },
    )
}

// All lines.
fn emit_code(alloc: Global, words: &WordCode, homes: &[Homes]) -> Result<LabelCode, Memory>
    requires { length homes.now ≡ length words.now.procs }
    ensures { IfOk result (λ lines. lines ≡ spec.code_of words.now.procs homes.now) }
{
    let mut lines = Items::new(alloc);
    emit_start(&mut lines)?;
    emit_procs(&mut lines, words.procs.as_slice(), homes)?;
    Ok(lines)
}

/// Label code that does, under all addresses of its marks that rise, what the word code does: over
/// the word code's data, and with each heap and each stack from `stack_need` on that a machine may
/// have, where new places have the bytes that are in the stack there. Each procedure makes the frame
/// of its homes and its places where it begins, and keeps them.
///
/// There are homes for each procedure, in order.
pub fn code(alloc: Global, words: &WordCode, homes: &[Homes]) -> Result<LabelCode, Memory>
    requires { AllHomes words.now.procs homes.now }
    ensures does { IfOk result (λ lines. AlwaysDoes lines words.now homes.now) }
    ensures frames { is_word_code words.now ≡ true →
        IfOk result (λ lines. MakeFrames lines words.now.procs homes.now) }
    ensures fits { IfOk result (λ lines. AreLines lines) }
    ensures some { IfOk result (λ lines. has_instruction lines ≡ true) }
    ensures leads { is_word_code words.now ≡ true →
        IfOk result (λ lines. hooks_lead lines ≡ true) }
    ensures size { IfOk result (λ lines. length lines ≤ most_lines words.now.procs) }
    ensures unhooked { have_no_hooks words.now.procs ≡ true →
        IfOk result (λ lines. enters_no_hook lines ≡ true) }
    ensures bytes { IfOk result (λ lines. size all_far lines ≤ most_bytes words.now.procs) }
{
    emit_code(alloc, words, homes)
}
