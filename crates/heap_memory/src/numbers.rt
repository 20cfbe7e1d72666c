// The numbers of the heap's routines, which stand in front of a program's procedures, and how much
// they take.

/// Takes a block of the heap.
pub const TAKE: u32 = 13;

/// Gives a block back.
pub const GIVE: u32 = 14;

/// Finds the size of the smallest block for a payload.
pub const CLASS: u32 = 15;

/// The kind of a block that holds a text or a sequence.
pub const CONTENTS_KIND: u32 = 1;

/// The bytes of the heap's words in the data of its routines: where the next byte is that no block has, and the first free block of each size.
pub const HEAP_WORD_BYTES: u32 = 92;

/// The lines of a take, with its call, where a free block of the size is there.
pub const TAKE_LINES: u32 = 12;

/// The lines of any other take.
pub const NEXT_LINES: u32 = 23;

/// The lines that give a block back, with the call.
pub const GIVE_LINES: u32 = 14;

/// The lines that find a size, with the call, beside those for each further size.
pub const CLASS_LINES: u32 = 9;

/// The lines for each further size.
pub const FURTHER_LINES: u32 = 4;

/// How many lines and procedures the heap's routines have.
pub const HEAP_WEIGHT: u32 = 445;

/// How many of their calls may stand in a chain.
pub const HEAP_CHAIN: u32 = 4;

/// How many bytes of data they have.
pub const HEAP_DATA: u32 = 128;

/// Where in it their scratch bytes begin, behind the heap's words and the line of its trap.
pub const HEAP_SCRATCH: u32 = 116;

/// Copies bytes.
pub const MOVE: u32 = 16;

/// The lines that copy no bytes, with the call.
pub const MOVE_START: u32 = 15;

/// The lines for each byte.
pub const MOVE_BYTE: u32 = 7;

/// Finds a block for a longer payload, and lets it begin with that of another block.
pub const GROW: u32 = 17;

/// The lines of it, with the call, where the block is large enough.
pub const KEPT_LINES: u32 = 11;

/// Those of any other call, beside those for the size and for each byte.
pub const GROW_LINES: u32 = 81;

/// Compares texts.
pub const ORDER: u32 = 18;

/// The lines that compare with an empty text, with the call.
pub const ORDER_START: u32 = 10;

/// The lines for each byte of the first text.
pub const ORDER_BYTE: u32 = 10;

/// Gives a block back where there is one.
pub const RELEASE: u32 = 19;

/// The lines of it, with the call.
pub const RELEASE_LINES: u32 = 20;

/// Puts a text behind another.
pub const APPEND: u32 = 20;

/// The lines of it, with the call, beside those of the growth and for each byte.
pub const APPEND_LINES: u32 = 28;

/// Gives a text another length.
pub const RESIZE: u32 = 21;

/// The lines of it, with the call, beside those of the growth and for each byte.
pub const RESIZE_LINES: u32 = 10;

/// The lines for each byte that comes.
pub const ZERO_BYTE: u32 = 4;

/// Spells a number.
pub const DIGITS: u32 = 22;

/// The lines that spell a number of one byte, with the call.
pub const DIGITS_LINES: u32 = 10;

/// Reads a line of the input.
pub const READ_LINE: u32 = 23;

/// The lines of it, with the call, beside those for each character.
pub const LINE_LINES: u32 = 23;

/// The lines for each character, beside those of the growth.
pub const CHAR_LINES: u32 = 20;

/// Makes a text of two others.
pub const JOIN: u32 = 24;

/// The lines of it, with the call, beside those of the growth and for each byte.
pub const JOIN_LINES: u32 = 44;

/// Compares the texts of two handles.
pub const TEXT_ORDER: u32 = 25;

/// Writes the text of a handle.
pub const TEXT_WRITE: u32 = 26;

/// Puts a copy of a handle's text to an address.
pub const TEXT_COPY: u32 = 27;

/// Puts the text of a handle behind that of another one.
pub const TEXT_APPEND: u32 = 28;

/// Gives the text of a handle another length.
pub const TEXT_RESIZE: u32 = 29;

/// Puts a text to an address that two handles' texts make.
pub const TEXT_JOIN: u32 = 30;

/// Puts the text of a number to an address.
pub const TEXT_OF_NUMBER: u32 = 31;

/// Reads a line of the input into the text of a handle.
pub const TEXT_READ: u32 = 32;

/// The lines of a routine on handles, with the call, beside those of the routines that it calls.
pub const HANDLE_LINES: u32 = 17;

/// Puts a new sequence to an address.
pub const SEQ_NEW: u32 = 33;

/// Makes room for one more element in the sequence of a handle.
pub const SEQ_ADD: u32 = 34;

/// Gives the sequence of a handle another length.
pub const SEQ_RESIZE: u32 = 35;

/// Takes the last element from the sequence of a handle.
pub const SEQ_POP: u32 = 36;

/// The lines of a routine that counts the bytes of elements, with the call, beside those of the routine that it calls.
pub const SEQUENCE_LINES: u32 = 20;
