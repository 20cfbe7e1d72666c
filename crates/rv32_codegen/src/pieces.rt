// Pieces of label code.
ghost use Rattle.std.specs.Prelude.{◌≡◌, ◌++◌, ◌∷◌, List, OnOk};
ghost use Rattle.rv32_isa.specs.declared.label.LabelLine.{LabelLine as Line};
ghost use Rattle.rv32_codegen.specs.Code as code;

use arc_base::{Memory, Stream};
use reg_scan::Home;
use rv32_isa::build::{
    add, addi, and, div, divu, lbu, lhu, lui, lw, mul, mulh, or, rem, remu, sb, sh, sll, slt, sltu,
    sra, srl, sub, sw, xor,
};
use rv32_isa::{Instr, LabelCode, LabelLine, STATICS_AT, Size, Test as LabelTest};
use word_code::{Test, WordOperation};

/// A line.
pub fn push(lines: &mut LabelCode, line: LabelLine) -> Result<(), Memory>
    ensures { OnOk result ((k : List Line) → lines.new ++ k ≡ lines.old ++ (line ∷ k)) }
{
    lines.push(line)
}

/// Instructions, one after another.
pub fn emit(lines: &mut LabelCode, is: &[Instr]) -> Result<(), Memory>
    ensures { OnOk result ((k : List Line) → lines.new ++ k ≡ lines.old ++ code.does is.now k) }
{
    for i in is {
        lines.push(LabelLine::Do { instr: *i })?;
    }
    Ok(())
}

// Twelve bits with their sign are the word.
fn is_near(value: u32) -> bool
    ensures { result ≡ code.is_near value }
{
    value.wrapping_add(2048) < 4096
}

fn lower(value: u32) -> u32
    ensures { result ≡ code.lower value }
{
    value % 4096
}

// The upper 20 bits of a word, where the lower 12 have a sign.
fn upper(value: u32) -> u32
    ensures { result ≡ code.upper value }
{
    value.wrapping_add(2048) / 4096
}

/// The word that is so much below 0.
pub fn negative(n: u32) -> u32
    ensures { result ≡ code.negative n }
{
    n.wrapping_neg()
}

/// A word into a register.
pub fn emit_constant(lines: &mut LabelCode, rd: u32, value: u32) -> Result<(), Memory>
    ensures { OnOk result ((k : List Line) →
        lines.new ++ k ≡ lines.old ++ code.does (code.constant rd value) k) }
{
    if is_near(value) {
        return emit(lines, &[addi(rd, 0, lower(value))]);
    }
    emit(lines, &[lui(rd, upper(value)), addi(rd, rd, lower(value))])
}

/// The address of a byte of the data into a register.
pub fn emit_datum(lines: &mut LabelCode, rd: u32, address: u32) -> Result<(), Memory>
    ensures { OnOk result ((k : List Line) →
        lines.new ++ k ≡ lines.old ++ code.does (code.datum rd address) k) }
{
    let offset = address.wrapping_add(negative(STATICS_AT));
    if is_near(offset) {
        return emit(lines, &[addi(rd, 4, lower(offset))]);
    }
    emit_constant(lines, rd, address)
}

/// The sum of a register and a word into a register.
pub fn emit_sum(lines: &mut LabelCode, rd: u32, from: u32, value: u32) -> Result<(), Memory>
    ensures { OnOk result ((k : List Line) →
        lines.new ++ k ≡ lines.old ++ code.does (code.sum rd from value) k) }
{
    if is_near(value) {
        return emit(lines, &[addi(rd, from, lower(value))]);
    }
    emit(
        lines,
        &[
            lui(5, upper(value)),
            addi(5, 5, lower(value)),
            add(rd, from, 5),
        ],
    )
}

/// A register becomes so much more.
pub fn emit_shift(lines: &mut LabelCode, rd: u32, amount: u32) -> Result<(), Memory>
    ensures { OnOk result ((k : List Line) →
        lines.new ++ k ≡ lines.old ++ code.does (code.shift rd amount) k) }
{
    if amount == 0 {
        return Ok(());
    }
    emit_sum(lines, rd, rd, amount)
}

/// A word of the frame into a register.
fn emit_load(lines: &mut LabelCode, rd: u32, offset: u32) -> Result<(), Memory>
    ensures { OnOk result ((k : List Line) →
        lines.new ++ k ≡ lines.old ++ code.does (code.load rd offset) k) }
{
    if is_near(offset) {
        return emit(lines, &[lw(rd, 2, lower(offset))]);
    }
    emit(
        lines,
        &[
            lui(rd, upper(offset)),
            add(rd, rd, 2),
            lw(rd, rd, lower(offset)),
        ],
    )
}

/// A register into a word of the frame.
pub fn emit_save(lines: &mut LabelCode, rs: u32, offset: u32) -> Result<(), Memory>
    ensures { OnOk result ((k : List Line) →
        lines.new ++ k ≡ lines.old ++ code.does (code.save rs offset) k) }
{
    if is_near(offset) {
        return emit(lines, &[sw(2, rs, lower(offset))]);
    }
    emit(
        lines,
        &[
            lui(7, upper(offset)),
            add(7, 7, 2),
            sw(7, rs, lower(offset)),
        ],
    )
}

/// The register in which a word is used: its own, or this one.
pub fn seat(other: u32, home: Home) -> u32
    ensures { result ≡ code.seat other home }
{
    match home {
        Home::Reg(number) => number,
        Home::Frame(_) => other,
    }
}

/// A word into the register in which it is used.
pub fn emit_bring(lines: &mut LabelCode, other: u32, home: Home) -> Result<(), Memory>
    ensures { OnOk result ((k : List Line) →
        lines.new ++ k ≡ lines.old ++ code.does (code.bring other home) k) }
{
    match home {
        Home::Reg(_) => Ok(()),
        Home::Frame(at) => emit_load(lines, other, at),
    }
}

/// A word into a register.
pub fn emit_move(lines: &mut LabelCode, rd: u32, home: Home) -> Result<(), Memory>
    ensures { OnOk result ((k : List Line) →
        lines.new ++ k ≡ lines.old ++ code.does (code.move rd home) k) }
{
    match home {
        Home::Reg(number) => emit(lines, &[addi(rd, number, 0)]),
        Home::Frame(at) => emit_load(lines, rd, at),
    }
}

/// A word from where it was computed, its own register or x5, to its home.
pub fn emit_settle(lines: &mut LabelCode, home: Home) -> Result<(), Memory>
    ensures { OnOk result ((k : List Line) →
        lines.new ++ k ≡ lines.old ++ code.does (code.settle home) k) }
{
    match home {
        Home::Reg(_) => Ok(()),
        Home::Frame(at) => emit_save(lines, 5, at),
    }
}

/// A register to a home.
pub fn emit_give(lines: &mut LabelCode, rs: u32, home: Home) -> Result<(), Memory>
    ensures { OnOk result ((k : List Line) →
        lines.new ++ k ≡ lines.old ++ code.does (code.give rs home) k) }
{
    match home {
        Home::Reg(number) => emit(lines, &[addi(number, rs, 0)]),
        Home::Frame(at) => emit_save(lines, rs, at),
    }
}

/// The instruction that puts the result of an operation on two registers into one.
pub fn operate(operation: WordOperation, rd: u32, left: u32, right: u32) -> Instr
    ensures { result ≡ code.operate operation rd left right }
{
    match operation {
        WordOperation::Add => add(rd, left, right),
        WordOperation::Subtract => sub(rd, left, right),
        WordOperation::Multiply => mul(rd, left, right),
        WordOperation::MultiplyHigh => mulh(rd, left, right),
        WordOperation::Divide => div(rd, left, right),
        WordOperation::Remainder => rem(rd, left, right),
        WordOperation::DivideUnsigned => divu(rd, left, right),
        WordOperation::RemainderUnsigned => remu(rd, left, right),
        WordOperation::And => and(rd, left, right),
        WordOperation::Or => or(rd, left, right),
        WordOperation::Xor => xor(rd, left, right),
        WordOperation::ShiftLeft => sll(rd, left, right),
        WordOperation::ShiftRight => srl(rd, left, right),
        WordOperation::ShiftRightSigned => sra(rd, left, right),
        WordOperation::Less => slt(rd, left, right),
        WordOperation::Below => sltu(rd, left, right),
    }
}

/// The instruction that loads so much into a register from the address in another one.
pub fn fetch(size: Size, rd: u32, address: u32) -> Instr
    ensures { result ≡ code.fetch size rd address }
{
    match size {
        Size::Byte => lbu(rd, address, 0),
        Size::Half => lhu(rd, address, 0),
        Size::Word => lw(rd, address, 0),
    }
}

/// The instruction that stores so much of a register to the address in a register.
pub fn store(size: Size, address: u32, rs: u32) -> Instr
    ensures { result ≡ code.store size address rs }
{
    match size {
        Size::Byte => sb(address, rs, 0),
        Size::Half => sh(address, rs, 0),
        Size::Word => sw(address, rs, 0),
    }
}

/// The comparison of label code.
pub fn compare(test: Test) -> LabelTest
    ensures { result ≡ code.compare test }
{
    match test {
        Test::Equal => LabelTest::Equal,
        Test::Unequal => LabelTest::Unequal,
        Test::Less => LabelTest::Less,
        Test::AtLeast => LabelTest::AtLeast,
        Test::Below => LabelTest::Below,
        Test::NotBelow => LabelTest::NotBelow,
    }
}

/// The number of a stream.
pub fn stream_number(stream: Stream) -> u32
    ensures { result ≡ code.stream_number stream }
{
    match stream {
        Stream::Out => 1,
        Stream::Err => 2,
    }
}
