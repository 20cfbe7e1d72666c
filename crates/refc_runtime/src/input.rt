// The routines that read a line of the input, as procedures of word code.
ghost use Rattle.std.specs.Prelude.{◌≡◌, IfOk};
ghost use Rattle.refc_runtime.specs.Code.{routine};
ghost use Rattle.refc_runtime.specs.InputCode.{read_lines};
ghost use Rattle.refc_runtime.specs.HandleCode.{text_read_lines};

use crate::lines::copy;
use crate::routines::{branch, compute, constant, datum, load, routine, store, sum_with};
use crate::texts::{argument, call};
use arc_base::Memory;
use heap_memory::{GROW, HEAP_SCRATCH, READ_LINE, RELEASE, TEXT_READ};
use rv32_isa::Size;
use std::alloc::Global;
use word_code::{Test, WordInstr, WordOperation, WordProc};

fn read(to: u32, address: u32, len: u32) -> WordInstr
    ensures { result ≡ WordInstr.Read to address len }
{
    WordInstr::Read { to, address, len }
}

/// That reads a line of the input.
pub fn read_line_routine(alloc: Global) -> Result<WordProc, Memory>
    ensures { IfOk result (λ p. p ≡ routine READ_LINE 1 9 read_lines) }
{
    routine(
        alloc,
        READ_LINE,
        1,
        9,
        &[
            constant(1, 0),
            constant(2, 0),
            constant(3, 1),
            constant(8, 0),
            read(4, 0, 3),
            branch(Test::Unequal, 4, 8, 0),
            WordInstr::Return { from: 4 },
            WordInstr::Label { name: 0 },
            load(5, 0, Size::Byte),
            WordInstr::Label { name: 1 },
            constant(7, 10),
            branch(Test::Equal, 5, 7, 3),
            read(4, 0, 3),
            branch(Test::Equal, 4, 8, 2),
            load(6, 0, Size::Byte),
            branch(Test::Unequal, 6, 7, 2),
            constant(7, 13),
            branch(Test::Equal, 5, 7, 3),
            WordInstr::Label { name: 2 },
            sum_with(7, 2, 1),
            argument(0, 1),
            argument(1, 2),
            argument(2, 7),
            call(1, GROW),
            compute(7, WordOperation::Add, 1, 2),
            store(7, 5, Size::Byte),
            sum_with(2, 2, 1),
            branch(Test::Equal, 4, 8, 3),
            copy(5, 6),
            WordInstr::Jump { to: 1 },
            WordInstr::Label { name: 3 },
            store(0, 2, Size::Word),
            sum_with(7, 0, 4),
            store(7, 1, Size::Word),
            WordInstr::Return { from: 3 },
        ],
    )
}

/// That reads one into the text of a handle.
pub fn text_read_routine(alloc: Global) -> Result<WordProc, Memory>
    ensures { IfOk result (λ p. p ≡ routine TEXT_READ 1 7 text_read_lines) }
{
    routine(
        alloc,
        TEXT_READ,
        1,
        7,
        &[
            sum_with(6, 0, 4),
            load(6, 6, Size::Word),
            datum(1, HEAP_SCRATCH),
            argument(0, 1),
            call(5, READ_LINE),
            constant(4, 0),
            branch(Test::Equal, 5, 4, 0),
            argument(0, 6),
            call(6, RELEASE),
            load(2, 1, Size::Word),
            sum_with(3, 1, 4),
            load(3, 3, Size::Word),
            store(0, 2, Size::Word),
            sum_with(4, 0, 4),
            store(4, 3, Size::Word),
            WordInstr::Label { name: 0 },
            WordInstr::Return { from: 5 },
        ],
    )
}
