// Instructions by their names, as an assembler writes them: first what is written, then what is read.
//
// RISC-V unprivileged specification, "RV32I Base Integer Instruction Set" and the "M" extension.
ghost use Rattle.std.specs.Prelude.{◌≡◌};

use crate::instr::Instr;

/// Puts a number below 2^20, times 4,096, into `rd`.
pub fn lui(rd: u32, imm: u32) -> Instr
    ensures { result ≡ Instr.Lui rd imm }
{
    Instr::Lui { rd, imm }
}

/// Puts the program counter and a number below 2^20, times 4,096, into `rd`, modulo 2^32.
pub fn auipc(rd: u32, imm: u32) -> Instr
    ensures { result ≡ Instr.Auipc rd imm }
{
    Instr::Auipc { rd, imm }
}

/// Jumps 20 bits with their sign from here, and puts the address of the next instruction into `rd`.
pub fn jal(rd: u32, offset: u32) -> Instr
    ensures { result ≡ Instr.Jal rd offset }
{
    Instr::Jal { rd, offset }
}

/// Jumps to `rs1` and 12 bits with their sign, whose lowest bit is cleared, and puts the address of the next instruction into `rd`.
pub fn jalr(rd: u32, rs1: u32, offset: u32) -> Instr
    ensures { result ≡ Instr.Jalr rd rs1 offset }
{
    Instr::Jalr { rd, rs1, offset }
}

/// Branches where `rs1` is `rs2`.
pub fn beq(rs1: u32, rs2: u32, offset: u32) -> Instr
    ensures { result ≡ Instr.Beq rs1 rs2 offset }
{
    Instr::Beq { rs1, rs2, offset }
}

/// Branches where `rs1` is not `rs2`.
pub fn bne(rs1: u32, rs2: u32, offset: u32) -> Instr
    ensures { result ≡ Instr.Bne rs1 rs2 offset }
{
    Instr::Bne { rs1, rs2, offset }
}

/// Branches where `rs1` is less than `rs2` as signed numbers.
pub fn blt(rs1: u32, rs2: u32, offset: u32) -> Instr
    ensures { result ≡ Instr.Blt rs1 rs2 offset }
{
    Instr::Blt { rs1, rs2, offset }
}

/// Branches where `rs1` is not less than `rs2` as signed numbers.
pub fn bge(rs1: u32, rs2: u32, offset: u32) -> Instr
    ensures { result ≡ Instr.Bge rs1 rs2 offset }
{
    Instr::Bge { rs1, rs2, offset }
}

/// Branches where `rs1` is less than `rs2` as unsigned numbers.
pub fn bltu(rs1: u32, rs2: u32, offset: u32) -> Instr
    ensures { result ≡ Instr.Bltu rs1 rs2 offset }
{
    Instr::Bltu { rs1, rs2, offset }
}

/// Branches where `rs1` is not less than `rs2` as unsigned numbers.
pub fn bgeu(rs1: u32, rs2: u32, offset: u32) -> Instr
    ensures { result ≡ Instr.Bgeu rs1 rs2 offset }
{
    Instr::Bgeu { rs1, rs2, offset }
}

/// Loads a byte with its sign.
pub fn lb(rd: u32, rs1: u32, offset: u32) -> Instr
    ensures { result ≡ Instr.Lb rd rs1 offset }
{
    Instr::Lb { rd, rs1, offset }
}

/// Loads two bytes with their sign.
pub fn lh(rd: u32, rs1: u32, offset: u32) -> Instr
    ensures { result ≡ Instr.Lh rd rs1 offset }
{
    Instr::Lh { rd, rs1, offset }
}

/// Loads a word.
pub fn lw(rd: u32, rs1: u32, offset: u32) -> Instr
    ensures { result ≡ Instr.Lw rd rs1 offset }
{
    Instr::Lw { rd, rs1, offset }
}

/// Loads a byte.
pub fn lbu(rd: u32, rs1: u32, offset: u32) -> Instr
    ensures { result ≡ Instr.Lbu rd rs1 offset }
{
    Instr::Lbu { rd, rs1, offset }
}

/// Loads two bytes.
pub fn lhu(rd: u32, rs1: u32, offset: u32) -> Instr
    ensures { result ≡ Instr.Lhu rd rs1 offset }
{
    Instr::Lhu { rd, rs1, offset }
}

/// Stores the low byte of `rs2`.
pub fn sb(rs1: u32, rs2: u32, offset: u32) -> Instr
    ensures { result ≡ Instr.Sb rs1 rs2 offset }
{
    Instr::Sb { rs1, rs2, offset }
}

/// Stores the low two bytes of `rs2`.
pub fn sh(rs1: u32, rs2: u32, offset: u32) -> Instr
    ensures { result ≡ Instr.Sh rs1 rs2 offset }
{
    Instr::Sh { rs1, rs2, offset }
}

/// Stores `rs2`.
pub fn sw(rs1: u32, rs2: u32, offset: u32) -> Instr
    ensures { result ≡ Instr.Sw rs1 rs2 offset }
{
    Instr::Sw { rs1, rs2, offset }
}

/// Adds 12 bits with their sign to `rs1`, modulo 2^32, and puts the sum into `rd`.
pub fn addi(rd: u32, rs1: u32, imm: u32) -> Instr
    ensures { result ≡ Instr.Addi rd rs1 imm }
{
    Instr::Addi { rd, rs1, imm }
}

/// 1 where `rs1` is less than the immediate as signed numbers, else 0.
pub fn slti(rd: u32, rs1: u32, imm: u32) -> Instr
    ensures { result ≡ Instr.Slti rd rs1 imm }
{
    Instr::Slti { rd, rs1, imm }
}

/// 1 where `rs1` is less than the immediate with its sign as unsigned numbers, else 0.
pub fn sltiu(rd: u32, rs1: u32, imm: u32) -> Instr
    ensures { result ≡ Instr.Sltiu rd rs1 imm }
{
    Instr::Sltiu { rd, rs1, imm }
}

/// The bits of `rs1` that differ from those of the immediate with its sign.
pub fn xori(rd: u32, rs1: u32, imm: u32) -> Instr
    ensures { result ≡ Instr.Xori rd rs1 imm }
{
    Instr::Xori { rd, rs1, imm }
}

/// The bits of `rs1` or of the immediate with its sign.
pub fn ori(rd: u32, rs1: u32, imm: u32) -> Instr
    ensures { result ≡ Instr.Ori rd rs1 imm }
{
    Instr::Ori { rd, rs1, imm }
}

/// The bits of both `rs1` and the immediate with its sign.
pub fn andi(rd: u32, rs1: u32, imm: u32) -> Instr
    ensures { result ≡ Instr.Andi rd rs1 imm }
{
    Instr::Andi { rd, rs1, imm }
}

/// Shifts `rs1` to the left by a number below 32.
pub fn slli(rd: u32, rs1: u32, amount: u32) -> Instr
    ensures { result ≡ Instr.Slli rd rs1 amount }
{
    Instr::Slli { rd, rs1, amount }
}

/// Shifts `rs1` to the right, with zeros from above.
pub fn srli(rd: u32, rs1: u32, amount: u32) -> Instr
    ensures { result ≡ Instr.Srli rd rs1 amount }
{
    Instr::Srli { rd, rs1, amount }
}

/// Shifts `rs1` to the right, with its sign from above.
pub fn srai(rd: u32, rs1: u32, amount: u32) -> Instr
    ensures { result ≡ Instr.Srai rd rs1 amount }
{
    Instr::Srai { rd, rs1, amount }
}

/// Adds `rs1` and `rs2`, modulo 2^32.
pub fn add(rd: u32, rs1: u32, rs2: u32) -> Instr
    ensures { result ≡ Instr.Add rd rs1 rs2 }
{
    Instr::Add { rd, rs1, rs2 }
}

/// Subtracts `rs2` from `rs1`, modulo 2^32.
pub fn sub(rd: u32, rs1: u32, rs2: u32) -> Instr
    ensures { result ≡ Instr.Sub rd rs1 rs2 }
{
    Instr::Sub { rd, rs1, rs2 }
}

/// Shifts `rs1` to the left by the low five bits of `rs2`.
pub fn sll(rd: u32, rs1: u32, rs2: u32) -> Instr
    ensures { result ≡ Instr.Sll rd rs1 rs2 }
{
    Instr::Sll { rd, rs1, rs2 }
}

/// 1 where `rs1` is less than `rs2` as signed numbers, else 0.
pub fn slt(rd: u32, rs1: u32, rs2: u32) -> Instr
    ensures { result ≡ Instr.Slt rd rs1 rs2 }
{
    Instr::Slt { rd, rs1, rs2 }
}

/// 1 where `rs1` is less than `rs2` as unsigned numbers, else 0.
pub fn sltu(rd: u32, rs1: u32, rs2: u32) -> Instr
    ensures { result ≡ Instr.Sltu rd rs1 rs2 }
{
    Instr::Sltu { rd, rs1, rs2 }
}

/// The bits of `rs1` that differ from those of `rs2`.
pub fn xor(rd: u32, rs1: u32, rs2: u32) -> Instr
    ensures { result ≡ Instr.Xor rd rs1 rs2 }
{
    Instr::Xor { rd, rs1, rs2 }
}

/// Shifts `rs1` to the right by the low five bits of `rs2`, with zeros from above.
pub fn srl(rd: u32, rs1: u32, rs2: u32) -> Instr
    ensures { result ≡ Instr.Srl rd rs1 rs2 }
{
    Instr::Srl { rd, rs1, rs2 }
}

/// Shifts `rs1` to the right by the low five bits of `rs2`, with its sign from above.
pub fn sra(rd: u32, rs1: u32, rs2: u32) -> Instr
    ensures { result ≡ Instr.Sra rd rs1 rs2 }
{
    Instr::Sra { rd, rs1, rs2 }
}

/// The bits of `rs1` or `rs2`.
pub fn or(rd: u32, rs1: u32, rs2: u32) -> Instr
    ensures { result ≡ Instr.Or rd rs1 rs2 }
{
    Instr::Or { rd, rs1, rs2 }
}

/// The bits of both `rs1` and `rs2`.
pub fn and(rd: u32, rs1: u32, rs2: u32) -> Instr
    ensures { result ≡ Instr.And rd rs1 rs2 }
{
    Instr::And { rd, rs1, rs2 }
}

/// The low word of the product.
pub fn mul(rd: u32, rs1: u32, rs2: u32) -> Instr
    ensures { result ≡ Instr.Mul rd rs1 rs2 }
{
    Instr::Mul { rd, rs1, rs2 }
}

/// The high word of the product of signed numbers.
pub fn mulh(rd: u32, rs1: u32, rs2: u32) -> Instr
    ensures { result ≡ Instr.Mulh rd rs1 rs2 }
{
    Instr::Mulh { rd, rs1, rs2 }
}

/// The high word of the product of signed `rs1` and unsigned `rs2`.
pub fn mulhsu(rd: u32, rs1: u32, rs2: u32) -> Instr
    ensures { result ≡ Instr.Mulhsu rd rs1 rs2 }
{
    Instr::Mulhsu { rd, rs1, rs2 }
}

/// The high word of the product of unsigned numbers.
pub fn mulhu(rd: u32, rs1: u32, rs2: u32) -> Instr
    ensures { result ≡ Instr.Mulhu rd rs1 rs2 }
{
    Instr::Mulhu { rd, rs1, rs2 }
}

/// The quotient of signed numbers, toward zero; all ones by zero.
pub fn div(rd: u32, rs1: u32, rs2: u32) -> Instr
    ensures { result ≡ Instr.Div rd rs1 rs2 }
{
    Instr::Div { rd, rs1, rs2 }
}

/// The quotient of unsigned numbers; all ones by zero.
pub fn divu(rd: u32, rs1: u32, rs2: u32) -> Instr
    ensures { result ≡ Instr.Divu rd rs1 rs2 }
{
    Instr::Divu { rd, rs1, rs2 }
}

/// The remainder of signed numbers, with the sign of `rs1`; `rs1` by zero.
pub fn rem(rd: u32, rs1: u32, rs2: u32) -> Instr
    ensures { result ≡ Instr.Rem rd rs1 rs2 }
{
    Instr::Rem { rd, rs1, rs2 }
}

/// The remainder of unsigned numbers; `rs1` by zero.
pub fn remu(rd: u32, rs1: u32, rs2: u32) -> Instr
    ensures { result ≡ Instr.Remu rd rs1 rs2 }
{
    Instr::Remu { rd, rs1, rs2 }
}

/// Does nothing, whatever its fields.
pub fn fence(rd: u32, rs1: u32, imm: u32) -> Instr
    ensures { result ≡ Instr.Fence rd rs1 imm }
{
    Instr::Fence { rd, rs1, imm }
}

/// Calls the environment.
pub fn ecall() -> Instr
    ensures { result ≡ Instr.Ecall }
{
    Instr::Ecall
}

/// Stops the machine by a fault.
pub fn ebreak() -> Instr
    ensures { result ≡ Instr.Ebreak }
{
    Instr::Ebreak
}
