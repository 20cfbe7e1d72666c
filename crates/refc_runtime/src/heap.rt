// The routines of the heap, each as a procedure of word code, and their data.
ghost use Rattle.std.specs.Prelude.{◌≡◌, IfOk};
ghost use Rattle.refc_runtime.specs.Code.{routine};
ghost use Rattle.refc_runtime.specs.HeapCode.{take_lines, give_lines, class_lines};
ghost use Rattle.refc_runtime.specs.HeapCode.{heap_routines, heap_statics, heap_code};

use crate::handles::{
    text_append_routine, text_copy_routine, text_join_routine, text_of_number_routine,
    text_order_routine, text_resize_routine, text_write_routine,
};
use crate::input::{read_line_routine, text_read_routine};
use crate::lines::{append_routine, digits_routine, join_routine, release_routine, resize_routine};
use crate::routines::{branch, compute, constant, datum, load, routine, store, sum_with};
use crate::sequences::{seq_add_routine, seq_new_routine, seq_pop_routine, seq_resize_routine};
use crate::texts::{grow_routine, move_routine, order_routine};
use arc_base::{Bytes, Items, Memory, Stream};
use heap_memory::{CLASS, GIVE, HEAP_WORD_BYTES, TAKE};
use rv32_isa::{HEAP_AT, STATICS_AT, Size};
use std::alloc::Global;
use word_code::{Test, WordCode, WordInstr, WordOperation, WordProc};

/// The word by whose addition another one becomes eight less.
pub const HEADER_LESS: u32 = 4_294_967_288;

/// The word by whose addition the first word of a text's or sequence's block becomes its index.
pub const KIND_LESS: u32 = 4_294_967_168;

// Where the next byte is that no block has, the first free block of each size and of none, the line
// of the trap up to a whole number of words, and scratch bytes.
const STATICS: &[u8] = b"\0\0\x20\0\
\0\0\0\0\0\0\0\0\0\0\0\0\0\0\0\0\0\0\0\0\0\0\0\0\0\0\0\0\0\0\0\0\0\0\0\0\0\0\0\0\0\0\0\0\
\0\0\0\0\0\0\0\0\0\0\0\0\0\0\0\0\0\0\0\0\0\0\0\0\0\0\0\0\0\0\0\0\0\0\0\0\0\0\0\0\0\0\0\0\
Error: out of memory\n\0\0\0\0\0\0\0\0\0\0\0\0\0\0\0";

fn take_routine(alloc: Global) -> Result<WordProc, Memory>
    ensures { IfOk result (λ p. p ≡ routine TAKE 1 6 take_lines) }
{
    routine(
        alloc,
        TAKE,
        1,
        6,
        &[
            datum(1, 0),
            compute(1, WordOperation::Add, 1, 0),
            load(2, 1, Size::Word),
            branch(Test::Below, 2, 1, 0),
            load(3, 2, Size::Word),
            store(1, 3, Size::Word),
            sum_with(3, 2, HEADER_LESS),
            load(4, 3, Size::Word),
            sum_with(4, 4, 128),
            store(3, 4, Size::Word),
            WordInstr::Return { from: 2 },
            WordInstr::Label { name: 0 },
            datum(1, 0),
            load(2, 1, Size::Word),
            constant(3, STATICS_AT),
            load(3, 3, Size::Word),
            sum_with(3, 3, HEAP_AT),
            compute(3, WordOperation::Subtract, 3, 2),
            constant(4, 2),
            compute(4, WordOperation::ShiftRight, 0, 4),
            constant(5, 8),
            compute(5, WordOperation::ShiftLeft, 5, 4),
            branch(Test::Below, 3, 5, 1),
            sum_with(4, 4, 128),
            store(2, 4, Size::Word),
            compute(5, WordOperation::Add, 5, 2),
            store(1, 5, Size::Word),
            sum_with(2, 2, 8),
            WordInstr::Return { from: 2 },
            WordInstr::Label { name: 1 },
            datum(0, HEAP_WORD_BYTES),
            constant(1, 21),
            WordInstr::Write {
                stream: Stream::Err,
                address: 0,
                len: 1,
            },
            constant(0, 1),
            WordInstr::Exit { status: 0 },
        ],
    )
}

fn give_routine(alloc: Global) -> Result<WordProc, Memory>
    ensures { IfOk result (λ p. p ≡ routine GIVE 1 6 give_lines) }
{
    routine(
        alloc,
        GIVE,
        1,
        6,
        &[
            WordInstr::Copy { to: 1, from: 0 },
            sum_with(2, 1, HEADER_LESS),
            load(3, 2, Size::Word),
            sum_with(3, 3, KIND_LESS),
            store(2, 3, Size::Word),
            compute(3, WordOperation::Add, 3, 3),
            compute(3, WordOperation::Add, 3, 3),
            datum(4, 0),
            compute(4, WordOperation::Add, 4, 3),
            load(5, 4, Size::Word),
            store(1, 5, Size::Word),
            store(4, 1, Size::Word),
            WordInstr::Return { from: 1 },
        ],
    )
}

fn class_routine(alloc: Global) -> Result<WordProc, Memory>
    ensures { IfOk result (λ p. p ≡ routine CLASS 1 4 class_lines) }
{
    routine(
        alloc,
        CLASS,
        1,
        4,
        &[
            constant(1, 4),
            constant(2, 16_777_208),
            branch(Test::Below, 2, 0, 2),
            sum_with(2, 0, 8),
            constant(3, 16),
            branch(Test::NotBelow, 3, 2, 1),
            WordInstr::Label { name: 0 },
            compute(3, WordOperation::Add, 3, 3),
            sum_with(1, 1, 4),
            branch(Test::Below, 3, 2, 0),
            WordInstr::Label { name: 1 },
            WordInstr::Return { from: 1 },
            WordInstr::Label { name: 2 },
            constant(1, 88),
            WordInstr::Return { from: 1 },
        ],
    )
}

fn heap_routines(alloc: Global) -> Result<Items<WordProc>, Memory>
    ensures { IfOk result (λ procs. procs ≡ heap_routines) }
{
    let mut procs = Items::new(alloc);
    procs.push(take_routine(alloc)?)?;
    procs.push(give_routine(alloc)?)?;
    procs.push(class_routine(alloc)?)?;
    procs.push(move_routine(alloc)?)?;
    procs.push(grow_routine(alloc)?)?;
    procs.push(order_routine(alloc)?)?;
    procs.push(release_routine(alloc)?)?;
    procs.push(append_routine(alloc)?)?;
    procs.push(resize_routine(alloc)?)?;
    procs.push(digits_routine(alloc)?)?;
    procs.push(read_line_routine(alloc)?)?;
    procs.push(join_routine(alloc)?)?;
    procs.push(text_order_routine(alloc)?)?;
    procs.push(text_write_routine(alloc)?)?;
    procs.push(text_copy_routine(alloc)?)?;
    procs.push(text_append_routine(alloc)?)?;
    procs.push(text_resize_routine(alloc)?)?;
    procs.push(text_join_routine(alloc)?)?;
    procs.push(text_of_number_routine(alloc)?)?;
    procs.push(text_read_routine(alloc)?)?;
    procs.push(seq_new_routine(alloc)?)?;
    procs.push(seq_add_routine(alloc)?)?;
    procs.push(seq_resize_routine(alloc)?)?;
    procs.push(seq_pop_routine(alloc)?)?;
    Ok(procs)
}

fn heap_data(alloc: Global) -> Result<Bytes, Memory>
    ensures { IfOk result (λ bytes. bytes ≡ heap_statics) }
{
    let mut bytes = Bytes::new(alloc);
    bytes.append(STATICS)?;
    Ok(bytes)
}

/// The routines that take, give and grow blocks of the heap, copy and compare bytes, and those of
/// texts and sequences.
pub fn heap_runtime(alloc: Global) -> Result<WordCode, Memory>
    ensures { IfOk result (λ code. code ≡ heap_code) }
{
    let procs = heap_routines(alloc)?;
    let statics = heap_data(alloc)?;
    Ok(WordCode { procs, statics })
}
