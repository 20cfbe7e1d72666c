// The word code of locations.
ghost use Rattle.std.specs.Prelude.{◌≡◌, OnOk};
ghost use Rattle.word_lowering.specs.Emission.{Puts};
ghost use Rattle.word_lowering.specs.LineCode.{root_code, part_code, behind_code, element_code, item_code};
ghost use Rattle.word_lowering.specs.LineCode.{word_argument, letter_swap, swap_code, measure_word};
ghost use Rattle.word_lowering.specs.OwnedCode.{owned_element_code, owned_item_code};

use crate::homes::{Alias, FIRST, FOURTH, Home, Housed, SECOND, THIRD};
use crate::operations::INDEX;
use crate::spots::{
    address, argument, branch, call, compute, constant, emit, load, load_sized, store_sized, sum,
    sum_with,
};
use arc_base::{Items, Memory};
use nim_program::Measure;
use rv32_isa::Size;
use word_code::{SWAP, Test, WordInstr, WordOperation};

/// That of a place, unless the location is another name for it.
pub fn emit_root(
    code: &mut Items<WordInstr>,
    alias: Alias,
    to: u32,
    home: Home,
) -> Result<(), Memory>
    ensures { OnOk result (Puts code.old code.new (root_code alias to home)) }
{
    match alias {
        Alias::Own => emit(code, &[address(to, home)]),
        _ => Ok(()),
    }
}

/// The address so many bytes behind that of a home.
pub fn emit_part(code: &mut Items<WordInstr>, to: u32, home: Home, at: u32) -> Result<(), Memory>
    ensures { OnOk result (Puts code.old code.new (part_code to home at)) }
{
    match home {
        Home::Variable(v) => emit(code, &[sum_with(to, v, at)]),
        Home::Placed(from) => {
            let at = sum(from, at)?;
            emit(code, &[WordInstr::Place { to, at }])
        }
        Home::Static(from) => {
            let at = sum(from, at)?;
            emit(code, &[WordInstr::Datum { to, at }])
        }
    }
}

// As many bytes as the first variable says behind that of a home.
fn emit_behind(code: &mut Items<WordInstr>, to: u32, home: Home) -> Result<(), Memory>
    ensures { OnOk result (Puts code.old code.new (behind_code to home)) }
{
    match home {
        Home::Variable(v) => emit(code, &[compute(to, WordOperation::Add, v, FIRST)]),
        _ => emit(
            code,
            &[
                address(SECOND, home),
                compute(to, WordOperation::Add, SECOND, FIRST),
            ],
        ),
    }
}

/// The address of an element of so many bytes.
pub fn emit_element(
    code: &mut Items<WordInstr>,
    to: u32,
    home: Home,
    index: u32,
    bytes: u32,
) -> Result<(), Memory>
    ensures { OnOk result (Puts code.old code.new (element_code to home index bytes)) }
{
    emit(
        code,
        &[
            constant(FIRST, bytes),
            compute(FIRST, WordOperation::Multiply, index, FIRST),
        ],
    )?;
    emit_behind(code, to, home)
}

/// The same of an index that has to be inside.
pub fn emit_item(
    code: &mut Items<WordInstr>,
    to: u32,
    home: Home,
    index: u32,
    count: u32,
    bytes: u32,
) -> Result<(), Memory>
    ensures { OnOk result (Puts code.old code.new (item_code to home index count bytes)) }
{
    emit(
        code,
        &[
            constant(FIRST, count),
            branch(Test::NotBelow, index, FIRST, INDEX),
        ],
    )?;
    emit_element(code, to, home, index, bytes)
}

/// An argument that is the word in a variable, or the address of a home.
pub fn emit_word_argument(code: &mut Items<WordInstr>, index: u32, home: Home) -> Result<(), Memory>
    ensures { OnOk result (Puts code.old code.new (word_argument index home)) }
{
    match home {
        Home::Variable(v) => emit(code, &[argument(index, v)]),
        _ => emit(code, &[address(FIRST, home), argument(index, FIRST)]),
    }
}

// Characters at two homes trade places.
fn emit_letter_swap(code: &mut Items<WordInstr>, left: Home, right: Home) -> Result<(), Memory>
    ensures { OnOk result (Puts code.old code.new (letter_swap left right)) }
{
    emit(
        code,
        &[
            address(FIRST, left),
            address(SECOND, right),
            load_sized(THIRD, FIRST, Size::Byte),
            load_sized(FOURTH, SECOND, Size::Byte),
            store_sized(SECOND, THIRD, Size::Byte),
            store_sized(FIRST, FOURTH, Size::Byte),
        ],
    )
}

/// What stands at two homes trades places.
pub fn emit_swap(code: &mut Items<WordInstr>, left: Housed, right: Home) -> Result<(), Memory>
    ensures { OnOk result (Puts code.old code.new
        (swap_code left.is_letter left.home right left.bytes)) }
{
    if left.is_letter {
        return emit_letter_swap(code, left.home, right);
    }
    emit_word_argument(code, 0, left.home)?;
    emit_word_argument(code, 1, right)?;
    emit(
        code,
        &[
            constant(THIRD, left.bytes),
            argument(2, THIRD),
            call(FIRST, SWAP),
        ],
    )
}

/// `len` or `high` of what has so many elements.
pub fn measure_word(measure: Measure, count: u32) -> u32
    ensures { result ≡ measure_word measure count }
{
    match measure {
        Measure::Len => count,
        Measure::High => count.wrapping_sub(1),
    }
}

/// The address of an element of so many bytes of what is in a handle. The index has to be below its length.
pub fn emit_owned_item(
    code: &mut Items<WordInstr>,
    to: u32,
    from: Home,
    index: u32,
    size: u32,
) -> Result<(), Memory>
    ensures { OnOk result (Puts code.old code.new (owned_item_code to from index size)) }
{
    emit(
        code,
        &[
            address(SECOND, from),
            load(FIRST, SECOND),
            branch(Test::NotBelow, index, FIRST, INDEX),
            sum_with(SECOND, SECOND, 4),
            load(SECOND, SECOND),
            constant(FIRST, size),
            compute(FIRST, WordOperation::Multiply, index, FIRST),
            compute(to, WordOperation::Add, SECOND, FIRST),
        ],
    )
}

/// That of an element that is there.
pub fn emit_owned_element(
    code: &mut Items<WordInstr>,
    to: u32,
    from: Home,
    index: u32,
    size: u32,
) -> Result<(), Memory>
    ensures { OnOk result (Puts code.old code.new (owned_element_code to from index size)) }
{
    emit(
        code,
        &[
            address(SECOND, from),
            sum_with(SECOND, SECOND, 4),
            load(SECOND, SECOND),
            constant(FIRST, size),
            compute(FIRST, WordOperation::Multiply, index, FIRST),
            compute(to, WordOperation::Add, SECOND, FIRST),
        ],
    )
}
