// What each instruction is to do.
ghost use Rattle.std.specs.Prelude.{◌≡◌, ◌<◌, ◌^◌, nat_lt};
ghost use Rattle.rv32_isa.specs.Row.{IsInRange};
ghost use Rattle.rv32_isa.specs.State.{reg};
ghost use Rattle.rv32_isa.specs.Values.{one_if, is_less_signed};
ghost use Rattle.rv32_isa.specs.declared.micro_op.MicroOp.TheVariants.{Write, Jump, Load, LoadSigned, Store};
ghost use Rattle.rv32_isa.specs.Steps.{signed12, address, ahead, branch, micro_op_of, IsInReach};

use crate::instr::Instr;
use crate::machine::Machine;
use crate::values::{
    high_product, high_product_mixed, high_product_signed, is_less_signed, one_if, quotient,
    quotient_signed, remainder, remainder_signed, shifted_left, shifted_right,
    shifted_right_signed, with_sign,
};

/// How much is loaded or stored.
#[derive(Clone, Copy)]
pub enum Size {
    /// One byte.
    Byte,
    /// Two bytes.
    Half,
    /// Four bytes.
    Word,
}

/// What an instruction is to do, once its operands are read.
#[derive(Clone, Copy)]
pub enum MicroOp {
    /// Writes a register.
    Write { rd: u32, value: u32 },
    /// Goes on at an address, with the address of the next instruction in a register.
    Jump { rd: u32, at: u32 },
    /// Goes on at an address, where it is taken.
    Branch { taken: bool, at: u32 },
    /// Loads into a register.
    Load { rd: u32, at: u32, size: Size },
    /// Loads into a register, with its sign.
    LoadSigned { rd: u32, at: u32, size: Size },
    /// Stores the low bytes of a word.
    Store { at: u32, size: Size, value: u32 },
    /// Does nothing.
    Pass,
    /// Calls the environment.
    Ask,
    /// Stops by a fault.
    Stop,
}

// Twelve bits with their sign.
#[inline(always)]
fn signed12(imm: u32) -> u32
    requires { imm < 2 ^ 12 }
    ensures { result ≡ signed12 imm }
{
    with_sign(1 << 11, imm)
}

// Whether one register is less than the other, as signed numbers.
#[inline(always)]
fn is_below(m: &Machine, rs1: u32, rs2: u32) -> bool
    requires rs1 { rs1 < 32 }
    requires rs2 { rs2 < 32 }
    ensures { result ≡ is_less_signed (reg m.now rs1) (reg m.now rs2) }
{
    is_less_signed(m.reg(rs1), m.reg(rs2))
}

// The address of a load or a store.
#[inline(always)]
fn address(m: &Machine, rs1: u32, offset: u32) -> u32
    requires rs1 { rs1 < 32 }
    requires offset { offset < 2 ^ 12 }
    ensures { result ≡ address m.now rs1 offset }
{
    m.reg(rs1).wrapping_add(signed12(offset))
}

// The address that is so far from the instruction.
#[inline(always)]
fn ahead(m: &Machine, offset: u32) -> u32
    ensures { result ≡ ahead m.now offset }
{
    m.pc().wrapping_add(offset)
}

// A branch that is taken, or is not.
#[inline(always)]
fn branch(m: &Machine, taken: bool, offset: u32) -> MicroOp
    requires { offset < 2 ^ 13 }
    ensures { result ≡ branch m.now taken offset }
{
    MicroOp::Branch {
        taken,
        at: ahead(m, with_sign(1 << 12, offset)),
    }
}

// 1 where one word is less than the other as signed numbers, else 0.
#[inline(always)]
fn less_signed(a: u32, b: u32) -> u32
    ensures { result ≡ one_if (is_less_signed a b) }
{
    one_if(is_less_signed(a, b))
}

// The same as unsigned numbers.
#[inline(always)]
fn less(a: u32, b: u32) -> u32
    ensures { result ≡ one_if (nat_lt a b) }
{
    one_if(a < b)
}

// Writes a register.
#[inline(always)]
fn write(rd: u32, value: u32) -> MicroOp
    requires { rd < 32 }
    ensures op { result ≡ Write rd value }
    ensures reach { IsInReach result }
{
    MicroOp::Write { rd, value }
}

// Loads from an address that is so far from a register.
#[inline(always)]
fn load(m: &Machine, rd: u32, rs1: u32, offset: u32, size: Size) -> MicroOp
    requires rd { rd < 32 }
    requires rs1 { rs1 < 32 }
    requires offset { offset < 2 ^ 12 }
    ensures op { result ≡ Load rd (address m.now rs1 offset) size }
    ensures reach { IsInReach result }
{
    MicroOp::Load {
        rd,
        at: address(m, rs1, offset),
        size,
    }
}

// The same with the sign.
#[inline(always)]
fn load_signed(m: &Machine, rd: u32, rs1: u32, offset: u32, size: Size) -> MicroOp
    requires rd { rd < 32 }
    requires rs1 { rs1 < 32 }
    requires offset { offset < 2 ^ 12 }
    ensures op { result ≡ LoadSigned rd (address m.now rs1 offset) size }
    ensures reach { IsInReach result }
{
    MicroOp::LoadSigned {
        rd,
        at: address(m, rs1, offset),
        size,
    }
}

// Stores a register to an address that is so far from another one.
#[inline(always)]
fn store(m: &Machine, rs1: u32, rs2: u32, offset: u32, size: Size) -> MicroOp
    requires rs1 { rs1 < 32 }
    requires rs2 { rs2 < 32 }
    requires offset { offset < 2 ^ 12 }
    ensures op { result ≡ Store (address m.now rs1 offset) size (reg m.now rs2) }
    ensures reach { IsInReach result }
{
    MicroOp::Store {
        at: address(m, rs1, offset),
        size,
        value: m.reg(rs2),
    }
}

// Jumps.
#[inline(always)]
fn jump(rd: u32, at: u32) -> MicroOp
    requires { rd < 32 }
    ensures op { result ≡ Jump rd at }
    ensures reach { IsInReach result }
{
    MicroOp::Jump { rd, at }
}

/// What an instruction, whose fields fit, is to do in a state of the machine.
///
/// RISC-V unprivileged specification, "RV32I Base Integer Instruction Set" and the "M" extension.
#[inline(always)]
pub fn micro_op_of(m: &Machine, i: &Instr) -> MicroOp
    requires { IsInRange i.now }
    ensures op { result ≡ micro_op_of m.now i.now }
    ensures reach { IsInReach result }
{
    match *i {
        Instr::Lui { rd, imm } => write(rd, imm * 4096),
        Instr::Auipc { rd, imm } => write(rd, ahead(m, imm * 4096)),
        Instr::Jal { rd, offset } => jump(rd, ahead(m, with_sign(1 << 20, offset))),
        Instr::Jalr { rd, rs1, offset } => jump(rd, address(m, rs1, offset) / 2 * 2),
        Instr::Beq { rs1, rs2, offset } => branch(m, m.reg(rs1) == m.reg(rs2), offset),
        Instr::Bne { rs1, rs2, offset } => branch(m, m.reg(rs1) != m.reg(rs2), offset),
        Instr::Blt { rs1, rs2, offset } => branch(m, is_below(m, rs1, rs2), offset),
        Instr::Bge { rs1, rs2, offset } => branch(m, !is_below(m, rs1, rs2), offset),
        Instr::Bltu { rs1, rs2, offset } => branch(m, m.reg(rs1) < m.reg(rs2), offset),
        Instr::Bgeu { rs1, rs2, offset } => branch(m, m.reg(rs1) >= m.reg(rs2), offset),
        Instr::Lb { rd, rs1, offset } => load_signed(m, rd, rs1, offset, Size::Byte),
        Instr::Lh { rd, rs1, offset } => load_signed(m, rd, rs1, offset, Size::Half),
        Instr::Lw { rd, rs1, offset } => load(m, rd, rs1, offset, Size::Word),
        Instr::Lbu { rd, rs1, offset } => load(m, rd, rs1, offset, Size::Byte),
        Instr::Lhu { rd, rs1, offset } => load(m, rd, rs1, offset, Size::Half),
        Instr::Sb { rs1, rs2, offset } => store(m, rs1, rs2, offset, Size::Byte),
        Instr::Sh { rs1, rs2, offset } => store(m, rs1, rs2, offset, Size::Half),
        Instr::Sw { rs1, rs2, offset } => store(m, rs1, rs2, offset, Size::Word),
        Instr::Addi { rd, rs1, imm } => write(rd, m.reg(rs1).wrapping_add(signed12(imm))),
        Instr::Slti { rd, rs1, imm } => write(rd, less_signed(m.reg(rs1), signed12(imm))),
        Instr::Sltiu { rd, rs1, imm } => write(rd, less(m.reg(rs1), signed12(imm))),
        Instr::Xori { rd, rs1, imm } => write(rd, m.reg(rs1) ^ signed12(imm)),
        Instr::Ori { rd, rs1, imm } => write(rd, m.reg(rs1) | signed12(imm)),
        Instr::Andi { rd, rs1, imm } => write(rd, m.reg(rs1) & signed12(imm)),
        Instr::Slli { rd, rs1, amount } => write(rd, shifted_left(m.reg(rs1), amount)),
        Instr::Srli { rd, rs1, amount } => write(rd, shifted_right(m.reg(rs1), amount)),
        Instr::Srai { rd, rs1, amount } => write(rd, shifted_right_signed(m.reg(rs1), amount)),
        Instr::Add { rd, rs1, rs2 } => write(rd, m.reg(rs1).wrapping_add(m.reg(rs2))),
        Instr::Sub { rd, rs1, rs2 } => write(rd, m.reg(rs1).wrapping_sub(m.reg(rs2))),
        Instr::Sll { rd, rs1, rs2 } => write(rd, shifted_left(m.reg(rs1), m.reg(rs2))),
        Instr::Slt { rd, rs1, rs2 } => write(rd, less_signed(m.reg(rs1), m.reg(rs2))),
        Instr::Sltu { rd, rs1, rs2 } => write(rd, less(m.reg(rs1), m.reg(rs2))),
        Instr::Xor { rd, rs1, rs2 } => write(rd, m.reg(rs1) ^ m.reg(rs2)),
        Instr::Srl { rd, rs1, rs2 } => write(rd, shifted_right(m.reg(rs1), m.reg(rs2))),
        Instr::Sra { rd, rs1, rs2 } => write(rd, shifted_right_signed(m.reg(rs1), m.reg(rs2))),
        Instr::Or { rd, rs1, rs2 } => write(rd, m.reg(rs1) | m.reg(rs2)),
        Instr::And { rd, rs1, rs2 } => write(rd, m.reg(rs1) & m.reg(rs2)),
        Instr::Mul { rd, rs1, rs2 } => write(rd, m.reg(rs1).wrapping_mul(m.reg(rs2))),
        Instr::Mulh { rd, rs1, rs2 } => write(rd, high_product_signed(m.reg(rs1), m.reg(rs2))),
        Instr::Mulhsu { rd, rs1, rs2 } => write(rd, high_product_mixed(m.reg(rs1), m.reg(rs2))),
        Instr::Mulhu { rd, rs1, rs2 } => write(rd, high_product(m.reg(rs1), m.reg(rs2))),
        Instr::Div { rd, rs1, rs2 } => write(rd, quotient_signed(m.reg(rs1), m.reg(rs2))),
        Instr::Divu { rd, rs1, rs2 } => write(rd, quotient(m.reg(rs1), m.reg(rs2))),
        Instr::Rem { rd, rs1, rs2 } => write(rd, remainder_signed(m.reg(rs1), m.reg(rs2))),
        Instr::Remu { rd, rs1, rs2 } => write(rd, remainder(m.reg(rs1), m.reg(rs2))),
        Instr::Fence { .. } => MicroOp::Pass,
        Instr::Ecall => MicroOp::Ask,
        Instr::Ebreak => MicroOp::Stop,
    }
}
