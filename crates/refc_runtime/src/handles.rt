// The routines on handles, each as a procedure of word code.
ghost use Rattle.std.specs.Prelude.{◌≡◌, IfOk};
ghost use Rattle.refc_runtime.specs.Code.{routine};
ghost use Rattle.refc_runtime.specs.HandleCode.{text_order_lines, text_write_lines};
ghost use Rattle.refc_runtime.specs.HandleCode.{text_copy_lines, text_append_lines, text_resize_lines};
ghost use Rattle.refc_runtime.specs.HandleCode.{text_join_lines, text_of_number_lines};

use crate::lines::copy;
use crate::routines::{compute, constant, datum, load, routine, store, sum_with};
use crate::texts::{argument, call};
use arc_base::{Memory, Stream};
use heap_memory::{
    APPEND, DIGITS, HEAP_DATA, HEAP_SCRATCH, JOIN, ORDER, RESIZE, TEXT_APPEND, TEXT_COPY,
    TEXT_JOIN, TEXT_OF_NUMBER, TEXT_ORDER, TEXT_RESIZE, TEXT_WRITE,
};
use rv32_isa::Size;
use std::alloc::Global;
use word_code::{WordInstr, WordOperation, WordProc};

/// That compares the texts of two handles.
pub fn text_order_routine(alloc: Global) -> Result<WordProc, Memory>
    ensures { IfOk result (λ p. p ≡ routine TEXT_ORDER 2 6 text_order_lines) }
{
    routine(
        alloc,
        TEXT_ORDER,
        2,
        6,
        &[
            load(2, 1, Size::Word),
            sum_with(3, 1, 4),
            load(3, 3, Size::Word),
            load(4, 0, Size::Word),
            sum_with(5, 0, 4),
            load(5, 5, Size::Word),
            argument(0, 5),
            argument(1, 4),
            argument(2, 3),
            argument(3, 2),
            call(3, ORDER),
            WordInstr::Return { from: 3 },
        ],
    )
}

/// That writes the text of a handle.
pub fn text_write_routine(alloc: Global) -> Result<WordProc, Memory>
    ensures { IfOk result (λ p. p ≡ routine TEXT_WRITE 1 6 text_write_lines) }
{
    routine(
        alloc,
        TEXT_WRITE,
        1,
        6,
        &[
            load(4, 0, Size::Word),
            sum_with(5, 0, 4),
            load(5, 5, Size::Word),
            WordInstr::Write {
                stream: Stream::Out,
                address: 5,
                len: 4,
            },
            WordInstr::Return { from: 5 },
        ],
    )
}

/// That puts a text's copy.
pub fn text_copy_routine(alloc: Global) -> Result<WordProc, Memory>
    ensures { IfOk result (λ p. p ≡ routine TEXT_COPY 2 6 text_copy_lines) }
{
    routine(
        alloc,
        TEXT_COPY,
        2,
        6,
        &[
            load(2, 1, Size::Word),
            sum_with(3, 1, 4),
            load(3, 3, Size::Word),
            constant(4, 0),
            constant(5, 0),
            argument(0, 5),
            argument(1, 4),
            argument(2, 3),
            argument(3, 2),
            compute(2, WordOperation::Add, 4, 2),
            call(3, APPEND),
            store(0, 2, Size::Word),
            sum_with(4, 0, 4),
            store(4, 3, Size::Word),
            WordInstr::Return { from: 3 },
        ],
    )
}

/// That puts a text behind another.
pub fn text_append_routine(alloc: Global) -> Result<WordProc, Memory>
    ensures { IfOk result (λ p. p ≡ routine TEXT_APPEND 2 6 text_append_lines) }
{
    routine(
        alloc,
        TEXT_APPEND,
        2,
        6,
        &[
            load(2, 1, Size::Word),
            sum_with(3, 1, 4),
            load(3, 3, Size::Word),
            load(4, 0, Size::Word),
            sum_with(5, 0, 4),
            load(5, 5, Size::Word),
            argument(0, 5),
            argument(1, 4),
            argument(2, 3),
            argument(3, 2),
            compute(2, WordOperation::Add, 4, 2),
            call(3, APPEND),
            store(0, 2, Size::Word),
            sum_with(4, 0, 4),
            store(4, 3, Size::Word),
            WordInstr::Return { from: 3 },
        ],
    )
}

/// That gives a text another length.
pub fn text_resize_routine(alloc: Global) -> Result<WordProc, Memory>
    ensures { IfOk result (λ p. p ≡ routine TEXT_RESIZE 2 6 text_resize_lines) }
{
    routine(
        alloc,
        TEXT_RESIZE,
        2,
        6,
        &[
            load(4, 0, Size::Word),
            sum_with(5, 0, 4),
            load(5, 5, Size::Word),
            argument(0, 5),
            argument(1, 4),
            argument(2, 1),
            copy(2, 1),
            call(3, RESIZE),
            store(0, 2, Size::Word),
            sum_with(4, 0, 4),
            store(4, 3, Size::Word),
            WordInstr::Return { from: 3 },
        ],
    )
}

/// That makes a text of two.
pub fn text_join_routine(alloc: Global) -> Result<WordProc, Memory>
    ensures { IfOk result (λ p. p ≡ routine TEXT_JOIN 3 8 text_join_lines) }
{
    routine(
        alloc,
        TEXT_JOIN,
        3,
        8,
        &[
            load(4, 1, Size::Word),
            sum_with(5, 1, 4),
            load(5, 5, Size::Word),
            load(6, 2, Size::Word),
            sum_with(7, 2, 4),
            load(7, 7, Size::Word),
            compute(2, WordOperation::Add, 4, 6),
            argument(0, 5),
            argument(1, 4),
            argument(2, 7),
            argument(3, 6),
            call(3, JOIN),
            store(0, 2, Size::Word),
            sum_with(4, 0, 4),
            store(4, 3, Size::Word),
            WordInstr::Return { from: 3 },
        ],
    )
}

/// That makes a text of a number.
pub fn text_of_number_routine(alloc: Global) -> Result<WordProc, Memory>
    ensures { IfOk result (λ p. p ≡ routine TEXT_OF_NUMBER 2 6 text_of_number_lines) }
{
    routine(
        alloc,
        TEXT_OF_NUMBER,
        2,
        6,
        &[
            datum(4, HEAP_SCRATCH),
            argument(0, 1),
            argument(1, 4),
            call(3, DIGITS),
            datum(4, HEAP_DATA),
            compute(2, WordOperation::Subtract, 4, 3),
            constant(4, 0),
            constant(5, 0),
            argument(0, 5),
            argument(1, 4),
            argument(2, 3),
            argument(3, 2),
            compute(2, WordOperation::Add, 4, 2),
            call(3, APPEND),
            store(0, 2, Size::Word),
            sum_with(4, 0, 4),
            store(4, 3, Size::Word),
            WordInstr::Return { from: 3 },
        ],
    )
}
