//! The file of an image and a plan: an ELF file of 32 bits for RISC-V, written and read.
//!
//! System V ABI, "Object Files" and "Program Loading".
#![tactic(auto)]

mod file;
mod laws;
mod lists;
mod order;
mod reader;
mod words;
mod writer;

pub use file::{ElfFault, ElfFile, ElfStop};
pub use laws::one_file;
pub use reader::read;
pub use writer::write;
