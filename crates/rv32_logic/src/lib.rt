//! How machine code of RV32IM runs: the laws of instructions that are carried out, of memory and of branches.
//!
//! RISC-V unprivileged specification, "RV32I Base Integer Instruction Set" and the "M" extension.
#![tactic(auto)]

mod laws;

pub use laws::{branching, fetching, memory_access};
