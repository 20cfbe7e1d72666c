// The routines on the bytes of texts, each as a procedure of word code.
ghost use Rattle.std.specs.Prelude.{◌≡◌, IfOk};
ghost use Rattle.refc_runtime.specs.Code.{routine};
ghost use Rattle.refc_runtime.specs.TextCode.{move_lines, grow_lines, order_lines};

use crate::heap::{HEADER_LESS, KIND_LESS};
use crate::routines::{ONE_LESS, branch, compute, constant, load, routine, store, sum_with};
use arc_base::Memory;
use heap_memory::{CLASS, GIVE, GROW, MOVE, ORDER, TAKE};
use rv32_isa::Size;
use std::alloc::Global;
use word_code::{Test, WordInstr, WordOperation, WordProc};

pub fn argument(index: u32, from: u32) -> WordInstr
    ensures { result ≡ WordInstr.Argument index from }
{
    WordInstr::Argument { index, from }
}

pub fn call(to: u32, callee: u32) -> WordInstr
    ensures { result ≡ WordInstr.Call to callee }
{
    WordInstr::Call { to, callee }
}

/// That copies bytes.
pub fn move_routine(alloc: Global) -> Result<WordProc, Memory>
    ensures { IfOk result (λ p. p ≡ routine MOVE 3 7 move_lines) }
{
    routine(
        alloc,
        MOVE,
        3,
        7,
        &[
            compute(3, WordOperation::Add, 1, 2),
            constant(5, 4),
            constant(6, 0),
            compute(4, WordOperation::RemainderUnsigned, 0, 5),
            branch(Test::Unequal, 4, 6, 1),
            compute(4, WordOperation::RemainderUnsigned, 1, 5),
            branch(Test::Unequal, 4, 6, 1),
            WordInstr::Label { name: 0 },
            compute(4, WordOperation::Subtract, 3, 1),
            branch(Test::Below, 4, 5, 1),
            load(4, 1, Size::Word),
            store(0, 4, Size::Word),
            sum_with(0, 0, 4),
            sum_with(1, 1, 4),
            WordInstr::Jump { to: 0 },
            WordInstr::Label { name: 1 },
            branch(Test::Equal, 1, 3, 2),
            load(4, 1, Size::Byte),
            store(0, 4, Size::Byte),
            sum_with(0, 0, 1),
            sum_with(1, 1, 1),
            WordInstr::Jump { to: 1 },
            WordInstr::Label { name: 2 },
            WordInstr::Return { from: 0 },
        ],
    )
}

/// By which a payload grows.
pub fn grow_routine(alloc: Global) -> Result<WordProc, Memory>
    ensures { IfOk result (λ p. p ≡ routine GROW 3 6 grow_lines) }
{
    routine(
        alloc,
        GROW,
        3,
        6,
        &[
            constant(3, 0),
            branch(Test::Equal, 0, 3, 2),
            sum_with(4, 0, HEADER_LESS),
            load(4, 4, Size::Word),
            sum_with(4, 4, KIND_LESS),
            constant(5, 8),
            compute(5, WordOperation::ShiftLeft, 5, 4),
            sum_with(5, 5, HEADER_LESS),
            branch(Test::Below, 5, 2, 0),
            WordInstr::Return { from: 0 },
            WordInstr::Label { name: 2 },
            branch(Test::Unequal, 2, 3, 0),
            WordInstr::Return { from: 0 },
            WordInstr::Label { name: 0 },
            argument(0, 2),
            call(4, CLASS),
            argument(0, 4),
            call(4, TAKE),
            branch(Test::Equal, 0, 3, 1),
            argument(0, 4),
            argument(1, 0),
            argument(2, 1),
            call(5, MOVE),
            argument(0, 0),
            call(5, GIVE),
            WordInstr::Label { name: 1 },
            WordInstr::Return { from: 4 },
        ],
    )
}

/// That compares texts.
pub fn order_routine(alloc: Global) -> Result<WordProc, Memory>
    ensures { IfOk result (λ p. p ≡ routine ORDER 4 8 order_lines) }
{
    routine(
        alloc,
        ORDER,
        4,
        8,
        &[
            compute(4, WordOperation::Add, 0, 1),
            compute(5, WordOperation::Add, 2, 3),
            WordInstr::Label { name: 0 },
            branch(Test::Equal, 0, 4, 1),
            branch(Test::Equal, 2, 5, 2),
            load(6, 0, Size::Byte),
            load(7, 2, Size::Byte),
            branch(Test::Below, 6, 7, 3),
            branch(Test::Below, 7, 6, 2),
            sum_with(0, 0, 1),
            sum_with(2, 2, 1),
            WordInstr::Jump { to: 0 },
            WordInstr::Label { name: 1 },
            branch(Test::Unequal, 2, 5, 3),
            constant(4, 0),
            WordInstr::Return { from: 4 },
            WordInstr::Label { name: 2 },
            constant(4, 1),
            WordInstr::Return { from: 4 },
            WordInstr::Label { name: 3 },
            constant(4, ONE_LESS),
            WordInstr::Return { from: 4 },
        ],
    )
}
