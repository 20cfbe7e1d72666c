// The routines, each as a procedure of word code.
ghost use Rattle.std.specs.Prelude.{◌≡◌, ◌∷◌, ◌++◌, IfOk, OnOk};
ghost use Rattle.refc_runtime.specs.Code.{Puts, routine, copy_lines, clear_lines, swap_lines};
ghost use Rattle.refc_runtime.specs.Code.{spelling_lines, number_lines, ending_lines, and_traps, routines};

use arc_base::{Items, Memory, Stream};
use rv32_isa::Size;
use std::alloc::Global;
use word_code::{
    CLEAR, COPY, NUMBER, ProcKind, SCRATCH_BYTES, SWAP, TRAPS_FROM, Test, WordInstr, WordOperation,
    WordProc, copied,
};

/// The word by whose addition another one becomes one less.
pub const ONE_LESS: u32 = 4_294_967_295;

/// Where the line of a trap stands in the data: of an overflow.
pub const OVERFLOW_AT: u32 = 12;

/// Of a division by zero.
pub const DIVISION_AT: u32 = 28;

/// Of an index.
pub const INDEX_AT: u32 = 52;

/// Of a value out of range.
pub const RANGE_AT: u32 = 80;

/// Of a changed length.
pub const LENGTH_AT: u32 = 108;

/// Of one call too many.
pub const DEPTH_AT: u32 = 132;

pub fn constant(to: u32, value: u32) -> WordInstr
    ensures { result ≡ WordInstr.Constant to value }
{
    WordInstr::Constant { to, value }
}

pub fn compute(to: u32, operation: WordOperation, left: u32, right: u32) -> WordInstr
    ensures { result ≡ WordInstr.Compute to operation left right }
{
    WordInstr::Compute {
        to,
        operation,
        left,
        right,
    }
}

pub fn sum_with(to: u32, from: u32, value: u32) -> WordInstr
    ensures { result ≡ WordInstr.Sum to from value }
{
    WordInstr::Sum { to, from, value }
}

pub fn datum(to: u32, at: u32) -> WordInstr
    ensures { result ≡ WordInstr.Datum to at }
{
    WordInstr::Datum { to, at }
}

pub fn load(to: u32, address: u32, size: Size) -> WordInstr
    ensures { result ≡ WordInstr.Load to address size }
{
    WordInstr::Load { to, address, size }
}

pub fn store(address: u32, from: u32, size: Size) -> WordInstr
    ensures { result ≡ WordInstr.Store address from size }
{
    WordInstr::Store {
        address,
        from,
        size,
    }
}

pub fn branch(test: Test, left: u32, right: u32, to: u32) -> WordInstr
    ensures { result ≡ WordInstr.Branch test left right to }
{
    WordInstr::Branch {
        test,
        left,
        right,
        to,
    }
}

pub fn routine(
    alloc: Global,
    number: u32,
    params: u32,
    vars: u32,
    lines: &[WordInstr],
) -> Result<WordProc, Memory>
    ensures { IfOk result (λ p. p ≡ routine number params vars lines.now) }
{
    Ok(WordProc {
        number,
        kind: ProcKind::Uncounted,
        params,
        vars,
        room: 0,
        data_from: 0,
        lines: copied(alloc, lines)?,
    })
}

fn copy_routine(alloc: Global) -> Result<WordProc, Memory>
    ensures { IfOk result (λ p. p ≡ routine COPY 3 7 copy_lines) }
{
    routine(
        alloc,
        COPY,
        3,
        7,
        &[
            compute(3, WordOperation::Add, 1, 2),
            WordInstr::Copy { to: 4, from: 0 },
            WordInstr::Copy { to: 5, from: 1 },
            WordInstr::Label { name: 0 },
            load(6, 5, Size::Word),
            store(4, 6, Size::Word),
            sum_with(4, 4, 4),
            sum_with(5, 5, 4),
            branch(Test::Unequal, 5, 3, 0),
            WordInstr::Return { from: 3 },
        ],
    )
}

fn clear_routine(alloc: Global) -> Result<WordProc, Memory>
    ensures { IfOk result (λ p. p ≡ routine CLEAR 2 5 clear_lines) }
{
    routine(
        alloc,
        CLEAR,
        2,
        5,
        &[
            compute(2, WordOperation::Add, 0, 1),
            WordInstr::Copy { to: 3, from: 0 },
            constant(4, 0),
            WordInstr::Label { name: 0 },
            store(3, 4, Size::Word),
            sum_with(3, 3, 4),
            branch(Test::Unequal, 3, 2, 0),
            WordInstr::Return { from: 2 },
        ],
    )
}

fn swap_routine(alloc: Global) -> Result<WordProc, Memory>
    ensures { IfOk result (λ p. p ≡ routine SWAP 3 8 swap_lines) }
{
    routine(
        alloc,
        SWAP,
        3,
        8,
        &[
            compute(3, WordOperation::Add, 0, 2),
            WordInstr::Copy { to: 4, from: 0 },
            WordInstr::Copy { to: 5, from: 1 },
            WordInstr::Label { name: 0 },
            load(6, 4, Size::Word),
            load(7, 5, Size::Word),
            store(4, 7, Size::Word),
            store(5, 6, Size::Word),
            sum_with(4, 4, 4),
            sum_with(5, 5, 4),
            branch(Test::Unequal, 4, 3, 0),
            WordInstr::Return { from: 3 },
        ],
    )
}

// The lines of both.
fn lines_of(
    alloc: Global,
    front: &[WordInstr],
    lines: &[WordInstr],
) -> Result<Items<WordInstr>, Memory>
    ensures { IfOk result (λ all. all ≡ front.now ++ lines.now) }
{
    let mut all = copied(alloc, front)?;
    for line in lines {
        all.push(*line)?;
    }
    Ok(all)
}

/// One that spells a number, with its second line and those behind the text.
pub fn spelling_routine(
    alloc: Global,
    number: u32,
    params: u32,
    second: WordInstr,
    lines: &[WordInstr],
) -> Result<WordProc, Memory>
    ensures { IfOk result (λ p. p ≡ routine number params 7 (spelling_lines second lines.now)) }
{
    let front = [
        constant(5, 10),
        second,
        WordInstr::Copy { to: 1, from: 0 },
        sum_with(6, 1, 48),
        branch(Test::Below, 1, 5, 2),
        constant(4, 0),
        branch(Test::AtLeast, 1, 4, 1),
        compute(1, WordOperation::Subtract, 4, 1),
        WordInstr::Jump { to: 1 },
        WordInstr::Label { name: 0 },
        store(2, 6, Size::Byte),
        sum_with(2, 2, ONE_LESS),
        WordInstr::Label { name: 1 },
        compute(6, WordOperation::RemainderUnsigned, 1, 5),
        sum_with(6, 6, 48),
        compute(1, WordOperation::DivideUnsigned, 1, 5),
        branch(Test::Unequal, 1, 4, 0),
        branch(Test::AtLeast, 0, 4, 2),
        store(2, 6, Size::Byte),
        sum_with(2, 2, ONE_LESS),
        constant(6, 45),
        WordInstr::Label { name: 2 },
        store(2, 6, Size::Byte),
    ];
    Ok(WordProc {
        number,
        kind: ProcKind::Uncounted,
        params,
        vars: 7,
        room: 0,
        data_from: 0,
        lines: lines_of(alloc, &front, lines)?,
    })
}

fn number_routine(alloc: Global) -> Result<WordProc, Memory>
    ensures { IfOk result (λ p. p ≡ routine NUMBER 1 7 number_lines) }
{
    spelling_routine(
        alloc,
        NUMBER,
        1,
        datum(2, SCRATCH_BYTES - 1),
        &[
            datum(3, SCRATCH_BYTES),
            compute(3, WordOperation::Subtract, 3, 2),
            WordInstr::Write {
                stream: Stream::Out,
                address: 2,
                len: 3,
            },
            WordInstr::Return { from: 3 },
        ],
    )
}

// The routine of a trap, whose line stands at a byte of the data.
fn trap_routine(alloc: Global, number: u32, at: u32, len: u32) -> Result<WordProc, Memory>
    ensures { IfOk result (λ p. p ≡ routine number 0 2 (ending_lines at len)) }
{
    routine(
        alloc,
        number,
        0,
        2,
        &[
            datum(0, at),
            constant(1, len),
            WordInstr::Write {
                stream: Stream::Err,
                address: 0,
                len: 1,
            },
            constant(0, 1),
            WordInstr::Exit { status: 0 },
        ],
    )
}

fn push_trap(
    alloc: Global,
    procs: &mut Items<WordProc>,
    number: u32,
    at: u32,
    len: u32,
) -> Result<(), Memory>
    ensures { OnOk result (Puts procs.old procs.new
        (λ k. routine number 0 2 (ending_lines at len) ∷ k)) }
{
    procs.push(trap_routine(alloc, number, at, len)?)
}

// Those of traps.
fn push_traps(alloc: Global, procs: &mut Items<WordProc>) -> Result<(), Memory>
    ensures { OnOk result (Puts procs.old procs.new and_traps) }
{
    push_trap(alloc, procs, TRAPS_FROM, OVERFLOW_AT, 16)?;
    push_trap(alloc, procs, TRAPS_FROM + 1, DIVISION_AT, 24)?;
    push_trap(alloc, procs, TRAPS_FROM + 2, INDEX_AT, 27)?;
    push_trap(alloc, procs, TRAPS_FROM + 3, RANGE_AT, 26)?;
    push_trap(alloc, procs, TRAPS_FROM + 4, LENGTH_AT, 22)?;
    push_trap(alloc, procs, TRAPS_FROM + 5, DEPTH_AT, 24)
}

/// All routines.
pub fn routines(alloc: Global) -> Result<Items<WordProc>, Memory>
    ensures { IfOk result (λ procs. procs ≡ routines) }
{
    let mut procs = Items::new(alloc);
    procs.push(copy_routine(alloc)?)?;
    procs.push(clear_routine(alloc)?)?;
    procs.push(swap_routine(alloc)?)?;
    procs.push(number_routine(alloc)?)?;
    push_traps(alloc, &mut procs)?;
    Ok(procs)
}
