//! Word code: procedures over words of 32 bits and a memory of bytes, what it means, and what
//! routines promise to it.
#![tactic(auto)]

mod copy;
mod examples;
mod join;
mod laws;
mod routine;
mod word;

pub use copy::copied;
pub use examples::word_examples;
pub use laws::{joining, words};
pub use routine::{
    CLEAR, CLEAR_LINES, COPY, COPY_LINES, DIGIT_LINES, MOVE_LINES, NUMBER, NUMBER_LINES,
    PROCS_FROM, ROUTINE_CHAIN, ROUTINE_ROOM, ROUTINE_VARIABLES, RUNTIME_DATA, RUNTIME_WEIGHT,
    SCRATCH_BYTES, SWAP, SWAP_LINES, TRAP_LINES, TRAPS_FROM,
};
pub use word::{
    HOOK_KINDS, MOST_ARGUMENTS, MOST_VARIABLES, ProcKind, SPARE_ROOM, Test, WordCode, WordInstr,
    WordOperation, WordProc,
};
