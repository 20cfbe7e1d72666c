// Words of code: their instructions as the GNU assembler writes them, and one step of a machine.
use crate::text::Text;
use arc_base::{Bytes, Items, Memory};
use rv32_isa::{CODE_AT, Image, Instr, Machine, STATICS_AT, Stepped, decode, encode, step};
use std::alloc::Global;

/// A half of the numbers of 12 bits, of 13 bits, and of 21 bits: from it on they stand for negative ones.
const HALF_12: u32 = 0x800;

const HALF_13: u32 = 0x1000;

const HALF_21: u32 = 0x10_0000;

/// The bytes of the data.
const DATA: [u8; 8] = [0x80, 0x7f, 0xff, 0x01, 0x02, 0x03, 0x04, 0x85];

/// The sizes of heap and stack.
const HEAP: u32 = 4096;

const STACK: u32 = 65_536;

// Adds a number with its sign, where `half` is a half of the numbers of its bits.
fn show_signed(before: &str, number: u32, half: u32, out: &mut Text) {
    let value = i64::from(number);
    let is_negative = number >= half;
    out.say(before);
    out.number(if is_negative {
        value - 2 * i64::from(half)
    } else {
        value
    });
}

// A name and registers.
fn show_registers(name: &str, registers: &[u32], out: &mut Text) {
    let mut before = " x";
    out.say(name);
    for register in registers {
        out.say(before);
        out.number(i64::from(*register));
        before = ", x";
    }
}

fn show_upper(name: &str, rd: u32, imm: u32, out: &mut Text) {
    show_registers(name, &[rd], out);
    out.say(", 0x");
    out.hex(imm);
}

// Registers, and a number of bytes from here.
fn show_jump(name: &str, registers: &[u32], offset: u32, half: u32, out: &mut Text) {
    show_registers(name, registers, out);
    show_signed(
        if offset < half { ", .+" } else { ", ." },
        offset,
        half,
        out,
    );
}

// A register, and an address by a register.
fn show_address(name: &str, first: u32, rs1: u32, offset: u32, out: &mut Text) {
    show_registers(name, &[first], out);
    show_signed(", ", offset, HALF_12, out);
    out.say("(x");
    out.number(i64::from(rs1));
    out.say(")");
}

fn show_immediate(name: &str, rd: u32, rs1: u32, imm: u32, out: &mut Text) {
    show_registers(name, &[rd, rs1], out);
    show_signed(", ", imm, HALF_12, out);
}

// What is ordered before, or behind: of input, output, reads and writes.
fn show_accesses(before: &str, bits: u32, out: &mut Text) {
    out.say(before);
    out.say(if bits & 8 == 0 { "" } else { "i" });
    out.say(if bits & 4 == 0 { "" } else { "o" });
    out.say(if bits & 2 == 0 { "" } else { "r" });
    out.say(if bits & 1 == 0 { "" } else { "w" });
}

fn show_other(i: &Instr, out: &mut Text) {
    match *i {
        Instr::Mul { rd, rs1, rs2 } => show_registers("mul", &[rd, rs1, rs2], out),
        Instr::Mulh { rd, rs1, rs2 } => show_registers("mulh", &[rd, rs1, rs2], out),
        Instr::Mulhsu { rd, rs1, rs2 } => show_registers("mulhsu", &[rd, rs1, rs2], out),
        Instr::Mulhu { rd, rs1, rs2 } => show_registers("mulhu", &[rd, rs1, rs2], out),
        Instr::Div { rd, rs1, rs2 } => show_registers("div", &[rd, rs1, rs2], out),
        Instr::Divu { rd, rs1, rs2 } => show_registers("divu", &[rd, rs1, rs2], out),
        Instr::Rem { rd, rs1, rs2 } => show_registers("rem", &[rd, rs1, rs2], out),
        Instr::Remu { rd, rs1, rs2 } => show_registers("remu", &[rd, rs1, rs2], out),
        Instr::Fence { imm, .. } => {
            show_accesses("fence ", imm >> 4, out);
            show_accesses(", ", imm, out);
        }
        Instr::Ecall => out.say("ecall"),
        Instr::Ebreak => out.say("ebreak"),
        _ => {}
    }
}

fn show_operation(i: &Instr, out: &mut Text) {
    match *i {
        Instr::Addi { rd, rs1, imm } => show_immediate("addi", rd, rs1, imm, out),
        Instr::Slti { rd, rs1, imm } => show_immediate("slti", rd, rs1, imm, out),
        Instr::Sltiu { rd, rs1, imm } => show_immediate("sltiu", rd, rs1, imm, out),
        Instr::Xori { rd, rs1, imm } => show_immediate("xori", rd, rs1, imm, out),
        Instr::Ori { rd, rs1, imm } => show_immediate("ori", rd, rs1, imm, out),
        Instr::Andi { rd, rs1, imm } => show_immediate("andi", rd, rs1, imm, out),
        Instr::Slli { rd, rs1, amount } => show_immediate("slli", rd, rs1, amount, out),
        Instr::Srli { rd, rs1, amount } => show_immediate("srli", rd, rs1, amount, out),
        Instr::Srai { rd, rs1, amount } => show_immediate("srai", rd, rs1, amount, out),
        Instr::Add { rd, rs1, rs2 } => show_registers("add", &[rd, rs1, rs2], out),
        Instr::Sub { rd, rs1, rs2 } => show_registers("sub", &[rd, rs1, rs2], out),
        Instr::Sll { rd, rs1, rs2 } => show_registers("sll", &[rd, rs1, rs2], out),
        Instr::Slt { rd, rs1, rs2 } => show_registers("slt", &[rd, rs1, rs2], out),
        Instr::Sltu { rd, rs1, rs2 } => show_registers("sltu", &[rd, rs1, rs2], out),
        Instr::Xor { rd, rs1, rs2 } => show_registers("xor", &[rd, rs1, rs2], out),
        Instr::Srl { rd, rs1, rs2 } => show_registers("srl", &[rd, rs1, rs2], out),
        Instr::Sra { rd, rs1, rs2 } => show_registers("sra", &[rd, rs1, rs2], out),
        Instr::Or { rd, rs1, rs2 } => show_registers("or", &[rd, rs1, rs2], out),
        Instr::And { rd, rs1, rs2 } => show_registers("and", &[rd, rs1, rs2], out),
        _ => show_other(i, out),
    }
}

fn show_instruction(i: &Instr, out: &mut Text) {
    match *i {
        Instr::Lui { rd, imm } => show_upper("lui", rd, imm, out),
        Instr::Auipc { rd, imm } => show_upper("auipc", rd, imm, out),
        Instr::Jal { rd, offset } => show_jump("jal", &[rd], offset, HALF_21, out),
        Instr::Jalr { rd, rs1, offset } => show_address("jalr", rd, rs1, offset, out),
        Instr::Beq { rs1, rs2, offset } => show_jump("beq", &[rs1, rs2], offset, HALF_13, out),
        Instr::Bne { rs1, rs2, offset } => show_jump("bne", &[rs1, rs2], offset, HALF_13, out),
        Instr::Blt { rs1, rs2, offset } => show_jump("blt", &[rs1, rs2], offset, HALF_13, out),
        Instr::Bge { rs1, rs2, offset } => show_jump("bge", &[rs1, rs2], offset, HALF_13, out),
        Instr::Bltu { rs1, rs2, offset } => show_jump("bltu", &[rs1, rs2], offset, HALF_13, out),
        Instr::Bgeu { rs1, rs2, offset } => show_jump("bgeu", &[rs1, rs2], offset, HALF_13, out),
        Instr::Lb { rd, rs1, offset } => show_address("lb", rd, rs1, offset, out),
        Instr::Lh { rd, rs1, offset } => show_address("lh", rd, rs1, offset, out),
        Instr::Lw { rd, rs1, offset } => show_address("lw", rd, rs1, offset, out),
        Instr::Lbu { rd, rs1, offset } => show_address("lbu", rd, rs1, offset, out),
        Instr::Lhu { rd, rs1, offset } => show_address("lhu", rd, rs1, offset, out),
        Instr::Sb { rs1, rs2, offset } => show_address("sb", rs2, rs1, offset, out),
        Instr::Sh { rs1, rs2, offset } => show_address("sh", rs2, rs1, offset, out),
        Instr::Sw { rs1, rs2, offset } => show_address("sw", rs2, rs1, offset, out),
        _ => show_operation(i, out),
    }
}

/// The instruction of a word; that there is none; or that it has another word.
pub fn show_decoded(word: u32, out: &mut Text) {
    match decode(word) {
        Some(i) => {
            show_instruction(&i, out);
            out.say(if encode(&i) == word {
                ""
            } else {
                " of another word"
            });
        }
        None => out.say("none"),
    }
}

// The machine whose code is a word, where x1 and x2 have these values.
fn machine_of(alloc: Global, word: u32, first: u32, second: u32) -> Result<Machine, Memory> {
    let image = Image {
        code: Bytes::from_slice(alloc, &word.to_le_bytes())?,
        statics: Bytes::from_slice(alloc, &DATA)?,
        heap: HEAP,
        stack: STACK,
        hooks: Items::new(alloc),
    };
    let mut machine = Machine::start(alloc, &image)?;
    machine.set_reg(1, first);
    machine.set_reg(2, second);
    Ok(machine)
}

// Whether registers and program counter are as before the step, where x1 and x2 had these values.
fn is_unchanged(machine: &Machine, first: u32, second: u32) -> bool {
    let mut others = 0;
    for r in 3..32 {
        others |= machine.reg(r);
    }
    let are_given = machine.reg(1) == first && machine.reg(2) == second;
    machine.pc() == CODE_AT && are_given && others == 0
}

// That a step changed something which had to change nothing.
fn show_change(machine: &Machine, first: u32, second: u32, out: &mut Text) {
    if !is_unchanged(machine, first, second) {
        out.say(", and changed");
    }
}

// What a machine holds behind a step, as a part asks for it: of x3 and of the data only where the step went to the next
// word.
fn show_behind(machine: &Machine, name: &str, out: &mut Text) {
    let is_next = machine.pc() == CODE_AT + 4;
    if name == "x3" && is_next {
        out.hex(machine.reg(3));
    } else if name == "data" && is_next {
        out.hex_bytes(machine.readable(STATICS_AT, 8).unwrap_or(b""));
    } else if name == "pc" {
        out.hex(machine.pc());
    } else {
        out.say("pc ");
        out.hex(machine.pc());
        out.say(" x3 ");
        out.hex(machine.reg(3));
    }
}

// Carries out a step, and shows what a part asks for, or why the step did not go on.
fn show_stepped(alloc: Global, before: Machine, name: &str, out: &mut Text) {
    let mut machine = before;
    let (first, second) = (machine.reg(1), machine.reg(2));
    match step(&mut machine) {
        Stepped::Went => show_behind(&machine, name, out),
        Stepped::Call => {
            out.say("call");
            show_change(&machine, first, second, out);
        }
        Stepped::Fault { kind, .. } => {
            out.say_made(format!(in alloc; "{kind:?}"));
            show_change(&machine, first, second, out);
        }
    }
}

/// What one step of a word does that is all the code, where x1 and x2 have these values: what the part asks for, or why it
/// did not go on.
pub fn show_step(alloc: Global, word: u32, first: u32, second: u32, name: &str, out: &mut Text) {
    match machine_of(alloc, word, first, second) {
        Ok(machine) => show_stepped(alloc, machine, name, out),
        Err(Memory) => out.cut_unless(false),
    }
}
