// The numbers of routines, procedures that each program's word code is joined with, and how much
// they take.

/// Copies words.
pub const COPY: u32 = 1;

/// Puts words of zeros.
pub const CLEAR: u32 = 2;

/// Lets words trade places.
pub const SWAP: u32 = 3;

/// Writes a number.
pub const NUMBER: u32 = 4;

/// The first of those that write the line of a trap and end the program, one for each trap.
pub const TRAPS_FROM: u32 = 5;

/// The number of a program's first procedure. Those between are for routines to come.
pub const PROCS_FROM: u32 = 64;

/// How many bytes of places a routine may have, a procedure whose calls don't count.
pub const ROUTINE_ROOM: u32 = 0;

/// How many variables a routine may have.
pub const ROUTINE_VARIABLES: u32 = 9;

/// How many calls of routines may stand in a chain, each made by the one before it.
pub const ROUTINE_CHAIN: u32 = 1;

/// How many lines and procedures all routines have at most.
pub const RUNTIME_WEIGHT: u32 = 102;

/// How many bytes of data all routines have at most.
pub const RUNTIME_DATA: u32 = 2_048;

/// So many bytes at the front of their data routines may change.
pub const SCRATCH_BYTES: u32 = 12;

/// The lines of a routine that moves words, with its call, beside those for each word.
pub const MOVE_LINES: u32 = 5;

/// The lines for each word that is copied.
pub const COPY_LINES: u32 = 6;

/// The lines for each word of zeros.
pub const CLEAR_LINES: u32 = 4;

/// The lines for each two words that trade places.
pub const SWAP_LINES: u32 = 8;

/// The lines that write a number of one byte, with the call.
pub const NUMBER_LINES: u32 = 13;

/// The lines for each further byte of its text.
pub const DIGIT_LINES: u32 = 16;

/// The lines that write the line of a trap and end the program, with the call.
pub const TRAP_LINES: u32 = 6;
