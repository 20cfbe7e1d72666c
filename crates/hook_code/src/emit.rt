// Lines of word code that are written one after another.
ghost use Rattle.std.specs.Prelude.{◌+◌, ◌≡◌, ◌++◌, IfOk, OnOk};
ghost use Rattle.hook_code.specs.Emission.{Puts};

use arc_base::{Items, Memory};
use rv32_isa::Size;
use word_code::WordInstr;

/// The sum of two numbers, if it has 32 bits.
pub fn sum(a: u32, b: u32) -> Result<u32, Memory>
    ensures { IfOk result (λ c. c ≡ a + b) }
{
    if a > u32::MAX - b {
        return Err(Memory);
    }
    Ok(a + b)
}

/// Adds lines.
pub fn emit(code: &mut Items<WordInstr>, lines: &[WordInstr]) -> Result<(), Memory>
    ensures { OnOk result (Puts code.old code.new (λ k. lines.now ++ k)) }
{
    for line in lines {
        code.push(*line)?;
    }
    Ok(())
}

/// Loads a word.
pub fn load(to: u32, address: u32) -> WordInstr
    ensures { result ≡ WordInstr.Load to address Size.Word }
{
    WordInstr::Load {
        to,
        address,
        size: Size::Word,
    }
}

/// Stores one.
pub fn store(address: u32, from: u32) -> WordInstr
    ensures { result ≡ WordInstr.Store address from Size.Word }
{
    WordInstr::Store {
        address,
        from,
        size: Size::Word,
    }
}
