// The label code of the lines of word code.
ghost use Rattle.std.specs.Prelude.{◌≡◌, ◌++◌, ◌∷◌, List, OnOk};
ghost use Rattle.word_code.specs.declared.word.WordInstr.TheVariants as word;
ghost use Rattle.rv32_isa.specs.declared.label.LabelLine.{LabelLine as Line};
ghost use Rattle.reg_scan.specs.Alive.{effect_of};
ghost use Rattle.reg_scan.specs.Homes.{home_of};
ghost use Rattle.rv32_codegen.specs.Code as code;

use crate::pieces::{
    compare, emit, emit_bring, emit_constant, emit_datum, emit_give, emit_move, emit_save,
    emit_settle, emit_shift, emit_sum, fetch, negative, operate, push, seat, store, stream_number,
};
use arc_base::{Memory, Stream};
use reg_scan::{Home, Homes};
use rv32_isa::build::{addi, ecall, jalr, lw};
use rv32_isa::{LabelCode, LabelLine, LabelName, STATICS_AT, Size};
use word_code::{Test, WordInstr, WordOperation, WordProc};

/// Where the word code's own data begins: behind the sizes of heap and stack.
const OWN_DATA_AT: u32 = STATICS_AT + 8;

// The home of a variable.
fn home_of(homes: &Homes, variable: u32) -> Home
    ensures { result ≡ home_of homes.now variable }
{
    match homes.of.as_slice().get(variable as usize) {
        Some(home) => *home,
        None => Home::Frame(0),
    }
}

// The register that a variable is computed into.
fn target(homes: &Homes, to: u32) -> u32
    ensures { result ≡ code.target homes.now to }
{
    seat(5, home_of(homes, to))
}

// The registers of two variables that were brought.
fn left_of(homes: &Homes, left: u32) -> u32
    ensures { result ≡ code.left_of homes.now left }
{
    seat(5, home_of(homes, left))
}

fn right_of(homes: &Homes, right: u32) -> u32
    ensures { result ≡ code.right_of homes.now right }
{
    seat(6, home_of(homes, right))
}

// How far the argument of that number is from where the frame begins.
fn argument_at(index: u32) -> u32
    ensures { result ≡ code.argument_at index }
{
    negative(index.wrapping_add(1).wrapping_mul(4))
}

// Two variables into registers, x5 and x6 where they have none.
fn bring_both(lines: &mut LabelCode, homes: &Homes, left: u32, right: u32) -> Result<(), Memory>
    ensures { OnOk result ((k : List Line) →
        lines.new ++ k ≡ lines.old ++ code.bring_both homes.now left right k) }
{
    emit_bring(lines, 5, home_of(homes, left))?;
    emit_bring(lines, 6, home_of(homes, right))
}

// An address and a length into x11 and x12.
fn move_range(lines: &mut LabelCode, homes: &Homes, address: u32, len: u32) -> Result<(), Memory>
    ensures { OnOk result ((k : List Line) →
        lines.new ++ k ≡ lines.old ++ code.move_range homes.now address len k) }
{
    emit_move(lines, 11, home_of(homes, address))?;
    emit_move(lines, 12, home_of(homes, len))
}

// What was computed becomes a variable's.
fn keep(lines: &mut LabelCode, homes: &Homes, to: u32) -> Result<(), Memory>
    ensures { OnOk result ((k : List Line) →
        lines.new ++ k ≡ lines.old ++ code.keep homes.now to k) }
{
    emit_settle(lines, home_of(homes, to))
}

// A label of the procedure.
fn inner(proc: &WordProc, name: u32) -> LabelName
    ensures { result ≡ LabelName.Inner proc.now.number name }
{
    LabelName::Inner {
        procedure: proc.number,
        name,
    }
}

fn emit_set(lines: &mut LabelCode, homes: &Homes, to: u32, value: u32) -> Result<(), Memory>
    ensures { OnOk result ((k : List Line) →
        lines.new ++ k
        ≡ lines.old ++ code.does (code.constant (code.target homes.now to) value)
        (code.keep homes.now to k)) }
{
    emit_constant(lines, target(homes, to), value)?;
    keep(lines, homes, to)
}

fn emit_address(lines: &mut LabelCode, homes: &Homes, to: u32, address: u32) -> Result<(), Memory>
    ensures { OnOk result ((k : List Line) →
        lines.new ++ k ≡ lines.old ++ code.does (code.datum (code.target homes.now to) address)
        (code.keep homes.now to k)) }
{
    emit_datum(lines, target(homes, to), address)?;
    keep(lines, homes, to)
}

fn emit_copy(lines: &mut LabelCode, homes: &Homes, to: u32, from: u32) -> Result<(), Memory>
    ensures { OnOk result ((k : List Line) → lines.new ++ k ≡ lines.old ++ code.does
        (code.move (code.target homes.now to) (home_of homes.now from)) (code.keep homes.now to k)) }
{
    emit_move(lines, target(homes, to), home_of(homes, from))?;
    keep(lines, homes, to)
}

fn emit_compute(
    lines: &mut LabelCode,
    homes: &Homes,
    to: u32,
    operation: WordOperation,
    left: u32,
    right: u32,
) -> Result<(), Memory>
    ensures { OnOk result ((k : List Line) → lines.new ++ k ≡ lines.old ++
        code.bring_both homes.now left right (LabelLine.Do (code.operate operation
        (code.target homes.now to) (code.left_of homes.now left) (code.right_of homes.now right))
        ∷ code.keep homes.now to k)) }
{
    bring_both(lines, homes, left, right)?;
    let instr = operate(
        operation,
        target(homes, to),
        left_of(homes, left),
        right_of(homes, right),
    );
    emit(lines, &[instr])?;
    keep(lines, homes, to)
}

// A word of the frame is brought into x6, since a sum that is far needs x5.
fn emit_more(
    lines: &mut LabelCode,
    homes: &Homes,
    to: u32,
    from: u32,
    value: u32,
) -> Result<(), Memory>
    ensures { OnOk result ((k : List Line) → lines.new ++ k ≡ lines.old ++ code.does
        (code.bring 6 (home_of homes.now from))
        (code.does (code.sum (code.target homes.now to) (code.right_of homes.now from) value)
        (code.keep homes.now to k))) }
{
    emit_bring(lines, 6, home_of(homes, from))?;
    emit_sum(lines, target(homes, to), right_of(homes, from), value)?;
    keep(lines, homes, to)
}

// The place that is so far from where the places end.
fn emit_place(lines: &mut LabelCode, homes: &Homes, to: u32, offset: u32) -> Result<(), Memory>
    ensures { OnOk result ((k : List Line) →
        lines.new ++ k ≡ lines.old ++ code.does (code.sum (code.target homes.now to) 3 offset)
        (code.keep homes.now to k)) }
{
    emit_sum(lines, target(homes, to), 3, offset)?;
    keep(lines, homes, to)
}

fn emit_fetch(
    lines: &mut LabelCode,
    homes: &Homes,
    to: u32,
    address: u32,
    size: Size,
) -> Result<(), Memory>
    ensures { OnOk result ((k : List Line) → lines.new ++ k ≡ lines.old ++ code.does
        (code.bring 5 (home_of homes.now address))
        (LabelLine.Do (code.fetch size (code.target homes.now to) (code.left_of homes.now address))
        ∷ code.keep homes.now to k)) }
{
    emit_bring(lines, 5, home_of(homes, address))?;
    let rd = target(homes, to);
    emit(lines, &[fetch(size, rd, left_of(homes, address))])?;
    keep(lines, homes, to)
}

fn emit_store(
    lines: &mut LabelCode,
    homes: &Homes,
    address: u32,
    from: u32,
    size: Size,
) -> Result<(), Memory>
    ensures { OnOk result ((k : List Line) → lines.new ++ k
        ≡ lines.old ++ code.bring_both homes.now address from (LabelLine.Do (code.store size
        (code.left_of homes.now address) (code.right_of homes.now from)) ∷ k)) }
{
    bring_both(lines, homes, address, from)?;
    let instr = store(size, left_of(homes, address), right_of(homes, from));
    emit(lines, &[instr])
}

fn emit_jump(lines: &mut LabelCode, to: LabelName) -> Result<(), Memory>
    ensures { OnOk result ((k : List Line) →
        lines.new ++ k ≡ lines.old ++ (LabelLine.Jump 0 to ∷ k)) }
{
    push(lines, LabelLine::Jump { rd: 0, to })
}

fn emit_branch(
    lines: &mut LabelCode,
    homes: &Homes,
    test: Test,
    left: u32,
    right: u32,
    to: LabelName,
) -> Result<(), Memory>
    ensures { OnOk result ((k : List Line) → lines.new ++ k ≡ lines.old ++
        code.bring_both homes.now left right (LabelLine.Branch (code.compare test)
        (code.left_of homes.now left) (code.right_of homes.now right) to ∷ k)) }
{
    bring_both(lines, homes, left, right)?;
    push(
        lines,
        LabelLine::Branch {
            test: compare(test),
            left: left_of(homes, left),
            right: right_of(homes, right),
            to,
        },
    )
}

fn emit_argument(lines: &mut LabelCode, homes: &Homes, index: u32, from: u32) -> Result<(), Memory>
    ensures { OnOk result ((k : List Line) → lines.new ++ k ≡ lines.old ++ code.does
        (code.bring 5 (home_of homes.now from))
        (code.does (code.save (code.left_of homes.now from) (code.argument_at index)) k)) }
{
    emit_bring(lines, 5, home_of(homes, from))?;
    emit_save(lines, left_of(homes, from), argument_at(index))
}

fn emit_call(lines: &mut LabelCode, homes: &Homes, to: u32, callee: u32) -> Result<(), Memory>
    ensures { OnOk result ((k : List Line) → lines.new ++ k ≡ lines.old ++
        (LabelLine.Jump 1 (LabelName.Entry callee) ∷ code.after_call homes.now to k)) }
{
    push(
        lines,
        LabelLine::Jump {
            rd: 1,
            to: LabelName::Entry { procedure: callee },
        },
    )?;
    emit_give(lines, 10, home_of(homes, to))
}

// The return address into x1, where a call may have put another one there.
fn emit_restore(lines: &mut LabelCode, leaf: bool) -> Result<(), Memory>
    ensures { OnOk result ((k : List Line) →
        lines.new ++ k ≡ lines.old ++ code.does (code.restore leaf) k) }
{
    if leaf {
        return Ok(());
    }
    emit(lines, &[lw(1, 2, 0)])
}

// Frame and places go.
fn emit_leave(lines: &mut LabelCode, homes: &Homes, proc: &WordProc) -> Result<(), Memory>
    ensures { OnOk result ((k : List Line) →
        lines.new ++ k ≡ lines.old ++ code.leave_code homes.now proc.now k) }
{
    emit_sum(lines, 2, 2, homes.frame)?;
    emit_shift(lines, 3, negative(proc.room))
}

fn emit_return(
    lines: &mut LabelCode,
    homes: &Homes,
    proc: &WordProc,
    leaf: bool,
    from: u32,
) -> Result<(), Memory>
    ensures { OnOk result ((k : List Line) →
        lines.new ++ k ≡ lines.old ++ code.return_code homes.now proc.now leaf from k) }
{
    emit_move(lines, 10, home_of(homes, from))?;
    emit_restore(lines, leaf)?;
    emit_leave(lines, homes, proc)?;
    emit(lines, &[jalr(0, 1, 0)])
}

fn emit_read(
    lines: &mut LabelCode,
    homes: &Homes,
    proc: &WordProc,
    to: u32,
    address: u32,
    len: u32,
) -> Result<(), Memory>
    ensures { OnOk result ((k : List Line) →
        lines.new ++ k
        ≡ lines.old ++ code.line_code homes.now proc.now (word.Read to address len) k) }
{
    move_range(lines, homes, address, len)?;
    emit(lines, &[addi(10, 0, 0), addi(17, 0, 63), ecall()])?;
    emit_give(lines, 10, home_of(homes, to))
}

fn emit_write(
    lines: &mut LabelCode,
    homes: &Homes,
    proc: &WordProc,
    stream: Stream,
    address: u32,
    len: u32,
) -> Result<(), Memory>
    ensures { OnOk result ((k : List Line) →
        lines.new ++ k
        ≡ lines.old ++ code.line_code homes.now proc.now (word.Write stream address len) k) }
{
    move_range(lines, homes, address, len)?;
    emit(
        lines,
        &[addi(10, 0, stream_number(stream)), addi(17, 0, 64), ecall()],
    )
}

fn emit_exit(
    lines: &mut LabelCode,
    homes: &Homes,
    proc: &WordProc,
    status: u32,
) -> Result<(), Memory>
    ensures { OnOk result ((k : List Line) →
        lines.new ++ k ≡ lines.old ++ code.line_code homes.now proc.now (word.Exit status) k) }
{
    emit_move(lines, 10, home_of(homes, status))?;
    emit(lines, &[addi(17, 0, 93), ecall()])
}

// A line of a procedure, which may be a leaf.
fn emit_line(
    lines: &mut LabelCode,
    homes: &Homes,
    proc: &WordProc,
    leaf: bool,
    line: WordInstr,
) -> Result<(), Memory>
    requires { leaf ≡ code.is_leaf proc.now.lines }
    ensures { OnOk result ((k : List Line) →
        lines.new ++ k ≡ lines.old ++ code.line_code homes.now proc.now line k) }
{
    match line {
        WordInstr::Label { name } => push(
            lines,
            LabelLine::Label {
                name: inner(proc, name),
                hook: None,
            },
        ),
        WordInstr::Spend | WordInstr::SpendIf { .. } => Ok(()),
        WordInstr::Constant { to, value } => emit_set(lines, homes, to, value),
        WordInstr::Copy { to, from } => emit_copy(lines, homes, to, from),
        WordInstr::Compute {
            to,
            operation,
            left,
            right,
        } => emit_compute(lines, homes, to, operation, left, right),
        WordInstr::Sum { to, from, value } => emit_more(lines, homes, to, from, value),
        WordInstr::Place { to, at } => emit_place(lines, homes, to, place_at(proc, at)),
        WordInstr::Datum { to, at } => emit_address(lines, homes, to, datum_at(proc, at)),
        WordInstr::Load { to, address, size } => emit_fetch(lines, homes, to, address, size),
        WordInstr::Store {
            address,
            from,
            size,
        } => emit_store(lines, homes, address, from, size),
        WordInstr::Jump { to } => emit_jump(lines, inner(proc, to)),
        WordInstr::Branch {
            test,
            left,
            right,
            to,
        } => emit_branch(lines, homes, test, left, right, inner(proc, to)),
        WordInstr::Argument { index, from } => emit_argument(lines, homes, index, from),
        WordInstr::Call { to, callee } => emit_call(lines, homes, to, callee),
        WordInstr::Return { from } => emit_return(lines, homes, proc, leaf, from),
        WordInstr::Read { to, address, len } => emit_read(lines, homes, proc, to, address, len),
        WordInstr::Write {
            stream,
            address,
            len,
        } => emit_write(lines, homes, proc, stream, address, len),
        WordInstr::Exit { status } => emit_exit(lines, homes, proc, status),
    }
}

// How far a byte of a procedure's places, or one behind them, is from where they end.
fn place_at(proc: &WordProc, at: u32) -> u32
    ensures { result ≡ code.place_at proc.now at }
{
    at.wrapping_add(negative(proc.room))
}

// The address of a byte of a procedure's data.
fn datum_at(proc: &WordProc, at: u32) -> u32
    ensures { result ≡ code.datum_at proc.now at }
{
    OWN_DATA_AT.wrapping_add(proc.data_from).wrapping_add(at)
}

fn is_call(line: WordInstr) -> bool
    ensures { result ≡ (effect_of line).calls }
{
    matches!(line, WordInstr::Call { .. })
}

fn is_call_or_label(line: WordInstr) -> bool
    ensures { result ≡ code.is_call_or_label line }
{
    matches!(line, WordInstr::Label { .. } | WordInstr::Call { .. })
}

// Whether there are calls alone, and labels.
fn only_calls(words: &[WordInstr]) -> bool
    ensures { result ≡ code.only_calls words.now }
{
    for line in words {
        if !is_call_or_label(*line) {
            return false;
        }
    }
    true
}

// Whether nothing but calls and labels stands behind the first call, if there is one.
fn is_leaf(words: &[WordInstr]) -> bool
    ensures { result ≡ code.is_leaf words.now }
{
    let mut left = words;
    while let Some((line, rest)) = left.split_first() {
        if is_call(*line) {
            return only_calls(rest);
        }
        left = rest;
    }
    true
}

/// Lines of a procedure, one after another.
pub fn emit_lines(
    lines: &mut LabelCode,
    homes: &Homes,
    proc: &WordProc,
    words: &[WordInstr],
) -> Result<(), Memory>
    ensures { OnOk result ((k : List Line) →
        lines.new ++ k ≡ lines.old ++ code.lines_code homes.now proc.now words.now k) }
{
    let leaf = is_leaf(proc.lines.as_slice());
    for line in words {
        emit_line(lines, homes, proc, leaf, *line)?;
    }
    Ok(())
}
