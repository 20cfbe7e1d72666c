// The routines by which texts get more characters and other lengths, each as a procedure of word code.
ghost use Rattle.std.specs.Prelude.{◌≡◌, IfOk};
ghost use Rattle.refc_runtime.specs.Code.{routine};
ghost use Rattle.refc_runtime.specs.LineCode.{append_lines, join_lines, resize_lines, release_lines};
ghost use Rattle.refc_runtime.specs.Code.{digits_lines};

use crate::routines::{branch, compute, constant, routine, spelling_routine, store, sum_with};
use crate::texts::{argument, call};
use arc_base::Memory;
use heap_memory::{APPEND, DIGITS, GIVE, GROW, JOIN, MOVE, RELEASE, RESIZE};
use rv32_isa::Size;
use std::alloc::Global;
use word_code::{SCRATCH_BYTES, Test, WordInstr, WordOperation, WordProc};

pub fn copy(to: u32, from: u32) -> WordInstr
    ensures { result ≡ WordInstr.Copy to from }
{
    WordInstr::Copy { to, from }
}

/// That gives a block back where there is one.
pub fn release_routine(alloc: Global) -> Result<WordProc, Memory>
    ensures { IfOk result (λ p. p ≡ routine RELEASE 1 2 release_lines) }
{
    routine(
        alloc,
        RELEASE,
        1,
        2,
        &[
            constant(1, 0),
            branch(Test::Equal, 0, 1, 0),
            argument(0, 0),
            call(1, GIVE),
            WordInstr::Label { name: 0 },
            WordInstr::Return { from: 0 },
        ],
    )
}

/// That puts a text behind another.
pub fn append_routine(alloc: Global) -> Result<WordProc, Memory>
    ensures { IfOk result (λ p. p ≡ routine APPEND 4 6 append_lines) }
{
    routine(
        alloc,
        APPEND,
        4,
        6,
        &[
            compute(5, WordOperation::Add, 1, 3),
            argument(0, 0),
            argument(1, 1),
            argument(2, 5),
            call(4, GROW),
            branch(Test::Unequal, 0, 2, 0),
            copy(2, 4),
            WordInstr::Label { name: 0 },
            compute(5, WordOperation::Add, 4, 1),
            argument(0, 5),
            argument(1, 2),
            argument(2, 3),
            call(5, MOVE),
            WordInstr::Return { from: 4 },
        ],
    )
}

/// That makes a text of two others.
pub fn join_routine(alloc: Global) -> Result<WordProc, Memory>
    ensures { IfOk result (λ p. p ≡ routine JOIN 4 6 join_lines) }
{
    routine(
        alloc,
        JOIN,
        4,
        6,
        &[
            compute(4, WordOperation::Add, 1, 3),
            constant(5, 0),
            argument(0, 5),
            argument(1, 5),
            argument(2, 4),
            call(4, GROW),
            argument(0, 4),
            argument(1, 0),
            argument(2, 1),
            call(5, MOVE),
            compute(5, WordOperation::Add, 4, 1),
            argument(0, 5),
            argument(1, 2),
            argument(2, 3),
            call(5, MOVE),
            WordInstr::Return { from: 4 },
        ],
    )
}

/// That gives a text another length.
pub fn resize_routine(alloc: Global) -> Result<WordProc, Memory>
    ensures { IfOk result (λ p. p ≡ routine RESIZE 3 7 resize_lines) }
{
    routine(
        alloc,
        RESIZE,
        3,
        7,
        &[
            branch(Test::Below, 1, 2, 0),
            WordInstr::Return { from: 0 },
            WordInstr::Label { name: 0 },
            argument(0, 0),
            argument(1, 1),
            argument(2, 2),
            call(3, GROW),
            compute(4, WordOperation::Add, 3, 1),
            compute(5, WordOperation::Add, 3, 2),
            constant(6, 0),
            WordInstr::Label { name: 1 },
            store(4, 6, Size::Byte),
            sum_with(4, 4, 1),
            branch(Test::Unequal, 4, 5, 1),
            WordInstr::Return { from: 3 },
        ],
    )
}

/// That spells a number.
pub fn digits_routine(alloc: Global) -> Result<WordProc, Memory>
    ensures { IfOk result (λ p. p ≡ routine DIGITS 2 7 digits_lines) }
{
    spelling_routine(
        alloc,
        DIGITS,
        2,
        sum_with(2, 1, SCRATCH_BYTES - 1),
        &[WordInstr::Return { from: 2 }],
    )
}
