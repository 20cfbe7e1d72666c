// Code that moves values between variables and memory.
ghost use Rattle.std.specs.Prelude.{◌+◌, ◌≡◌, ◌++◌, length, IfOk, OnOk};
ghost use Rattle.word_lowering.specs.Emission.{Puts};
ghost use Rattle.word_lowering.specs.Layouts.{holds_address};
ghost use Rattle.word_lowering.specs.Spots.{spot_of, home_in, size_in, shifted, address, copied, moved};
ghost use Rattle.word_lowering.specs.Spots.{moves, passes, cleared, clears, starts, handed};

use crate::homes::{FIFTH, FIRST, FOURTH, Home, Housed, SECOND, THIRD};
use arc_base::{Items, Memory};
use flat_code::PlaceKind;
use nim_program::Mode;
use rv32_isa::Size;
use word_code::{CLEAR, COPY, Test, WordInstr, WordOperation};

/// Where a value is.
#[derive(Clone, Copy)]
pub enum Spot {
    /// In a variable.
    Held(u32),
    /// In memory: at an address that a variable has, or where a place is.
    Lies(Home),
    /// A character at an address: one of a text, or the first byte of a word whose others are 0.
    Letter(Home),
}

/// The sum of two numbers, if it has 32 bits.
pub fn sum(a: u32, b: u32) -> Result<u32, Memory>
    ensures { IfOk result (λ c. c ≡ a + b) }
{
    if a > u32::MAX - b {
        return Err(Memory);
    }
    Ok(a + b)
}

/// A number, and the bytes of a text.
pub fn more(n: u32, text: &[u8]) -> Result<u32, Memory>
    ensures { IfOk result (λ m. m ≡ n + length text.now) }
{
    let len = text.len();
    if len > u32::MAX as usize {
        return Err(Memory);
    }
    sum(n, len as u32)
}

/// Adds lines.
pub fn emit(code: &mut Items<WordInstr>, lines: &[WordInstr]) -> Result<(), Memory>
    ensures { OnOk result (Puts code.old code.new (λ k. lines.now ++ k)) }
{
    for line in lines {
        code.push(*line)?;
    }
    Ok(())
}

/// Whether a place holds an address, and not a value.
pub fn holds_address(place: Housed) -> bool
    ensures { result ≡ holds_address place }
{
    match place.kind {
        PlaceKind::Location | PlaceKind::Within | PlaceKind::Param(Mode::Var) => true,
        PlaceKind::Param(Mode::Plain) | PlaceKind::ForVar => place.lent,
        _ => false,
    }
}

/// Where the value of a place is, or the one to which it leads.
pub fn spot_of(place: Housed) -> Spot
    ensures { result ≡ spot_of place }
{
    match place.home {
        Home::Variable(v) if !holds_address(place) => Spot::Held(v),
        home if place.is_letter && holds_address(place) => Spot::Letter(home),
        home => Spot::Lies(home),
    }
}

pub fn home_in(spot: Spot) -> Home
    ensures { result ≡ home_in spot }
{
    match spot {
        Spot::Held(v) => Home::Variable(v),
        Spot::Lies(home) | Spot::Letter(home) => home,
    }
}

/// What is read or written there of a word.
pub fn size_in(spot: Spot) -> Size
    ensures { result ≡ size_in spot }
{
    match spot {
        Spot::Letter(_) => Size::Byte,
        _ => Size::Word,
    }
}

/// So many bytes further.
pub fn shifted(bytes: u32, home: Home) -> Result<Home, Memory>
    ensures { IfOk result (λ other. other ≡ shifted bytes home) }
{
    match home {
        Home::Variable(v) => Ok(Home::Variable(v)),
        Home::Placed(at) => Ok(Home::Placed(sum(at, bytes)?)),
        Home::Static(at) => Ok(Home::Static(sum(at, bytes)?)),
    }
}

/// A variable gets the address.
pub fn address(to: u32, home: Home) -> WordInstr
    ensures { result ≡ address to home }
{
    match home {
        Home::Variable(from) => WordInstr::Copy { to, from },
        Home::Placed(at) => WordInstr::Place { to, at },
        Home::Static(at) => WordInstr::Datum { to, at },
    }
}

pub fn load_sized(to: u32, address: u32, size: Size) -> WordInstr
    ensures { result ≡ WordInstr.Load to address size }
{
    WordInstr::Load { to, address, size }
}

pub fn load(to: u32, address: u32) -> WordInstr
    ensures { result ≡ WordInstr.Load to address Size.Word }
{
    load_sized(to, address, Size::Word)
}

pub fn store_sized(address: u32, from: u32, size: Size) -> WordInstr
    ensures { result ≡ WordInstr.Store address from size }
{
    WordInstr::Store {
        address,
        from,
        size,
    }
}

pub fn store(address: u32, from: u32) -> WordInstr
    ensures { result ≡ WordInstr.Store address from Size.Word }
{
    store_sized(address, from, Size::Word)
}

pub fn constant(to: u32, value: u32) -> WordInstr
    ensures { result ≡ WordInstr.Constant to value }
{
    WordInstr::Constant { to, value }
}

pub fn compute(to: u32, operation: WordOperation, left: u32, right: u32) -> WordInstr
    ensures { result ≡ WordInstr.Compute to operation left right }
{
    WordInstr::Compute {
        to,
        operation,
        left,
        right,
    }
}

pub fn sum_with(to: u32, from: u32, value: u32) -> WordInstr
    ensures { result ≡ WordInstr.Sum to from value }
{
    WordInstr::Sum { to, from, value }
}

pub fn argument(index: u32, from: u32) -> WordInstr
    ensures { result ≡ WordInstr.Argument index from }
{
    WordInstr::Argument { index, from }
}

pub fn call(to: u32, callee: u32) -> WordInstr
    ensures { result ≡ WordInstr.Call to callee }
{
    WordInstr::Call { to, callee }
}

pub fn branch(test: Test, left: u32, right: u32, to: u32) -> WordInstr
    ensures { result ≡ WordInstr.Branch test left right to }
{
    WordInstr::Branch {
        test,
        left,
        right,
        to,
    }
}

// To a variable.
fn emit_loaded(
    code: &mut Items<WordInstr>,
    is_word: bool,
    bytes: u32,
    to: u32,
    from: Spot,
) -> Result<(), Memory>
    ensures { OnOk result (Puts code.old code.new (moved is_word bytes (Spot.Held to) from)) }
{
    match from {
        Spot::Held(u) => emit(code, &[WordInstr::Copy { to, from: u }]),
        _ => emit(
            code,
            &[
                address(SECOND, home_in(from)),
                load_sized(to, SECOND, size_in(from)),
            ],
        ),
    }
}

// From one address to another.
fn emit_copied(code: &mut Items<WordInstr>, is_word: bool, bytes: u32) -> Result<(), Memory>
    ensures { OnOk result (Puts code.old code.new (copied is_word bytes)) }
{
    if is_word {
        return emit(code, &[load(THIRD, SECOND), store(FIRST, THIRD)]);
    }
    emit(
        code,
        &[
            constant(THIRD, bytes),
            argument(0, FIRST),
            argument(1, SECOND),
            argument(2, THIRD),
            call(FIRST, COPY),
        ],
    )
}

// To where a whole value lies.
fn emit_whole(
    code: &mut Items<WordInstr>,
    is_word: bool,
    bytes: u32,
    to: Home,
    from: Spot,
) -> Result<(), Memory>
    ensures { OnOk result (Puts code.old code.new (moved is_word bytes (Spot.Lies to) from)) }
{
    let onto = address(FIRST, to);
    match from {
        Spot::Held(u) => emit(code, &[onto, store(FIRST, u)]),
        Spot::Lies(home) => {
            emit(code, &[onto, address(SECOND, home)])?;
            emit_copied(code, is_word, bytes)
        }
        Spot::Letter(home) => emit(
            code,
            &[
                onto,
                address(SECOND, home),
                load_sized(THIRD, SECOND, Size::Byte),
                store(FIRST, THIRD),
            ],
        ),
    }
}

// To a character at an address.
fn emit_letter(
    code: &mut Items<WordInstr>,
    is_word: bool,
    bytes: u32,
    to: Home,
    from: Spot,
) -> Result<(), Memory>
    ensures { OnOk result (Puts code.old code.new (moved is_word bytes (Spot.Letter to) from)) }
{
    let onto = address(FIRST, to);
    match from {
        Spot::Held(u) => emit(code, &[onto, store_sized(FIRST, u, Size::Byte)]),
        _ => emit(
            code,
            &[
                onto,
                address(SECOND, home_in(from)),
                load_sized(THIRD, SECOND, size_in(from)),
                store_sized(FIRST, THIRD, Size::Byte),
            ],
        ),
    }
}

/// A value goes from one spot to another.
pub fn emit_moved(
    code: &mut Items<WordInstr>,
    is_word: bool,
    bytes: u32,
    to: Spot,
    from: Spot,
) -> Result<(), Memory>
    ensures { OnOk result (Puts code.old code.new (moved is_word bytes to from)) }
{
    match to {
        Spot::Held(v) => emit_loaded(code, is_word, bytes, v, from),
        Spot::Lies(home) => emit_whole(code, is_word, bytes, home, from),
        Spot::Letter(home) => emit_letter(code, is_word, bytes, home, from),
    }
}

/// The value of one place goes to another.
pub fn emit_moves(code: &mut Items<WordInstr>, to: Housed, from: Housed) -> Result<(), Memory>
    ensures { OnOk result (Puts code.old code.new (moves to from)) }
{
    emit_moved(code, from.is_word, from.bytes, spot_of(to), spot_of(from))
}

/// The same of a value that is there: that has bytes.
pub fn emit_passes(code: &mut Items<WordInstr>, to: Housed, from: Housed) -> Result<(), Memory>
    ensures { OnOk result (Puts code.old code.new (passes from.bytes to from)) }
{
    if from.bytes == 0 {
        return Ok(());
    }
    emit_moves(code, to, from)
}

/// A value becomes that at which its type starts.
pub fn emit_cleared(
    code: &mut Items<WordInstr>,
    is_word: bool,
    bytes: u32,
    to: Spot,
) -> Result<(), Memory>
    ensures { OnOk result (Puts code.old code.new (cleared is_word bytes to)) }
{
    match to {
        Spot::Held(v) => emit(code, &[constant(v, 0)]),
        Spot::Lies(home) if is_word => emit(
            code,
            &[
                address(FIRST, home),
                constant(SECOND, 0),
                store(FIRST, SECOND),
            ],
        ),
        Spot::Lies(home) => emit(
            code,
            &[
                address(FIRST, home),
                constant(SECOND, bytes),
                argument(0, FIRST),
                argument(1, SECOND),
                call(FIRST, CLEAR),
            ],
        ),
        Spot::Letter(home) => emit(
            code,
            &[
                address(FIRST, home),
                constant(SECOND, 0),
                store_sized(FIRST, SECOND, Size::Byte),
            ],
        ),
    }
}

/// The same of a place.
pub fn emit_clears(code: &mut Items<WordInstr>, to: Housed) -> Result<(), Memory>
    ensures { OnOk result (Puts code.old code.new (clears to)) }
{
    emit_cleared(code, to.is_word, to.bytes, spot_of(to))
}

/// The same of what is there.
pub fn emit_starts(code: &mut Items<WordInstr>, to: Housed) -> Result<(), Memory>
    ensures { OnOk result (Puts code.old code.new (starts to.bytes to)) }
{
    if to.bytes == 0 {
        return Ok(());
    }
    emit_clears(code, to)
}

/// A value goes to the address in the first variable, with a label for a loop.
pub fn emit_handed(
    code: &mut Items<WordInstr>,
    label: u32,
    bytes: u32,
    from: Spot,
) -> Result<(), Memory>
    ensures { OnOk result (Puts code.old code.new (handed label bytes from)) }
{
    match from {
        Spot::Held(u) => emit(code, &[store(FIRST, u)]),
        Spot::Lies(home) => emit(
            code,
            &[
                address(SECOND, home),
                constant(THIRD, bytes),
                compute(THIRD, WordOperation::Add, SECOND, THIRD),
                constant(FOURTH, 4),
                WordInstr::Label { name: label },
                load(FIFTH, SECOND),
                store(FIRST, FIFTH),
                compute(FIRST, WordOperation::Add, FIRST, FOURTH),
                compute(SECOND, WordOperation::Add, SECOND, FOURTH),
                branch(Test::Unequal, SECOND, THIRD, label),
            ],
        ),
        Spot::Letter(home) => emit(
            code,
            &[
                address(SECOND, home),
                load_sized(THIRD, SECOND, Size::Byte),
                store(FIRST, THIRD),
            ],
        ),
    }
}
