// How much a procedure and the data may take.

/// How many bytes the places of a procedure may have.
pub const MOST_ROOM: u32 = 65_536;

/// How many variables a procedure may have.
pub const MOST_VARS: u32 = 16_384;

/// How many bytes its variables and its places may have together: 2,001 calls of the largest, each
/// with a chain of calls that don't count, have room in a machine's stack.
pub const MOST_FRAME: u32 = 66_000;

/// For how many values that wait a procedure may have homes: 4 bytes at least for each, and a word.
pub const MOST_WAITERS: u32 = 8_192;

/// How many bytes the data may have: an image's, less the two words before it and what routines
/// have, with those of the heap.
pub const MOST_DATA: u32 = 1_046_392;
