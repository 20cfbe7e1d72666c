// Numbers as bytes, the lowest byte first.
ghost use Rattle.std.specs.Prelude.{◌≡◌, ◌≤◌, ◌+◌, ◌++◌, drop, length, OnOk};
ghost use Rattle.rv32_isa.specs.Words.{word_bytes};
ghost use Rattle.elf32.specs.Elf.{words};
ghost use Rattle.elf32.specs.Reading.{word_in};

use arc_base::{Bytes, Memory};
use byteorder::{ByteOrder, LittleEndian};

/// Adds a word of 32 bits.
#[tactic(auto, unfolding(rv32_isa::specs::Words::word_bytes))]
pub fn push_word(bytes: &mut Bytes, n: u32) -> Result<(), Memory>
    ensures { OnOk result (bytes.new ≡ bytes.old ++ word_bytes n) }
{
    let mut piece = [0u8; 4];
    LittleEndian::write_u32(&mut piece, n);
    bytes.append(&piece)
}

/// Adds words of 32 bits, one after the other.
pub fn push_words(bytes: &mut Bytes, numbers: &[u32]) -> Result<(), Memory>
    ensures { OnOk result (bytes.new ≡ bytes.old ++ words numbers.now) }
{
    for n in numbers {
        push_word(bytes, *n)?;
    }
    Ok(())
}

/// The word of 32 bits that stands there.
pub fn word_at(bytes: &[u8], at: usize) -> u32
    requires { at + 4 ≤ length bytes.now }
    ensures there { drop at bytes.now ≡ word_bytes result ++ drop (at + 4) bytes.now }
    ensures number { result ≡ word_in bytes.now at }
{
    LittleEndian::read_u32(&bytes[at..])
}
