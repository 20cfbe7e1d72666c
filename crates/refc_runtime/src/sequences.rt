// The routines on handles of sequences, each as a procedure of word code.
ghost use Rattle.std.specs.Prelude.{◌≡◌, IfOk};
ghost use Rattle.refc_runtime.specs.Code.{routine};
ghost use Rattle.refc_runtime.specs.HandleCode.{seq_new_lines, seq_add_lines, seq_resize_lines};
ghost use Rattle.refc_runtime.specs.HandleCode.{seq_pop_lines};

use crate::lines::copy;
use crate::routines::{ONE_LESS, branch, compute, constant, load, routine, store, sum_with};
use crate::texts::{argument, call};
use arc_base::Memory;
use heap_memory::{GROW, RESIZE, SEQ_ADD, SEQ_NEW, SEQ_POP, SEQ_RESIZE};
use rv32_isa::Size;
use std::alloc::Global;
use word_code::{Test, WordInstr, WordOperation, WordProc};

/// That puts a new sequence.
pub fn seq_new_routine(alloc: Global) -> Result<WordProc, Memory>
    ensures { IfOk result (λ p. p ≡ routine SEQ_NEW 3 7 seq_new_lines) }
{
    routine(
        alloc,
        SEQ_NEW,
        3,
        7,
        &[
            constant(3, 0),
            constant(4, 0),
            constant(6, 16_777_208),
            compute(5, WordOperation::DivideUnsigned, 6, 2),
            constant(6, 16_777_209),
            branch(Test::Below, 5, 1, 0),
            compute(6, WordOperation::Multiply, 1, 2),
            WordInstr::Label { name: 0 },
            compute(3, WordOperation::Multiply, 3, 2),
            argument(0, 4),
            argument(1, 3),
            argument(2, 6),
            copy(2, 1),
            call(3, RESIZE),
            store(0, 2, Size::Word),
            sum_with(4, 0, 4),
            store(4, 3, Size::Word),
            WordInstr::Return { from: 3 },
        ],
    )
}

/// That makes room for one more element.
pub fn seq_add_routine(alloc: Global) -> Result<WordProc, Memory>
    ensures { IfOk result (λ p. p ≡ routine SEQ_ADD 2 8 seq_add_lines) }
{
    routine(
        alloc,
        SEQ_ADD,
        2,
        8,
        &[
            load(4, 0, Size::Word),
            sum_with(5, 0, 4),
            load(5, 5, Size::Word),
            compute(6, WordOperation::Multiply, 4, 1),
            compute(7, WordOperation::Add, 6, 1),
            sum_with(2, 4, 1),
            argument(0, 5),
            argument(1, 6),
            argument(2, 7),
            call(3, GROW),
            store(0, 2, Size::Word),
            sum_with(4, 0, 4),
            store(4, 3, Size::Word),
            compute(3, WordOperation::Add, 3, 6),
            WordInstr::Return { from: 3 },
        ],
    )
}

/// That gives a sequence another length.
pub fn seq_resize_routine(alloc: Global) -> Result<WordProc, Memory>
    ensures { IfOk result (λ p. p ≡ routine SEQ_RESIZE 3 7 seq_resize_lines) }
{
    routine(
        alloc,
        SEQ_RESIZE,
        3,
        7,
        &[
            load(3, 0, Size::Word),
            sum_with(4, 0, 4),
            load(4, 4, Size::Word),
            constant(6, 16_777_208),
            compute(5, WordOperation::DivideUnsigned, 6, 2),
            constant(6, 16_777_209),
            branch(Test::Below, 5, 1, 0),
            compute(6, WordOperation::Multiply, 1, 2),
            WordInstr::Label { name: 0 },
            compute(3, WordOperation::Multiply, 3, 2),
            argument(0, 4),
            argument(1, 3),
            argument(2, 6),
            copy(2, 1),
            call(3, RESIZE),
            store(0, 2, Size::Word),
            sum_with(4, 0, 4),
            store(4, 3, Size::Word),
            WordInstr::Return { from: 3 },
        ],
    )
}

/// That takes the last element.
pub fn seq_pop_routine(alloc: Global) -> Result<WordProc, Memory>
    ensures { IfOk result (λ p. p ≡ routine SEQ_POP 2 6 seq_pop_lines) }
{
    routine(
        alloc,
        SEQ_POP,
        2,
        6,
        &[
            load(4, 0, Size::Word),
            sum_with(5, 0, 4),
            load(5, 5, Size::Word),
            sum_with(4, 4, ONE_LESS),
            store(0, 4, Size::Word),
            compute(4, WordOperation::Multiply, 4, 1),
            compute(5, WordOperation::Add, 5, 4),
            WordInstr::Return { from: 5 },
        ],
    )
}
