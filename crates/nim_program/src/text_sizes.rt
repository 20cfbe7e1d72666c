// The bytes of a text, as far as they matter.
ghost use Rattle.std.specs.Prelude.{◌≡◌};
ghost use Rattle.nim_program.specs.Folds.{capped};
ghost use Rattle.nim_program.specs.TextSizes as texts;
ghost use Rattle.nim_program.specs.declared.text_sizes.TheConstants.{MOST_DATA};

use arc_base::Bytes;
use nim_types::WORD_BYTES;

/// The most bytes of data that a program may have.
pub const MOST_DATA: u32 = 1_040_384;

// As far as they matter.
fn capped(bytes: u64) -> u32
    ensures { result ≡ capped MOST_DATA bytes }
{
    if bytes > u64::from(MOST_DATA) {
        MOST_DATA + 1
    } else {
        bytes as u32
    }
}

/// The bytes of a text, up to whole words, and a word with its length.
pub fn text_bytes(text: &Bytes) -> u32
    ensures { result ≡ capped MOST_DATA (texts.text_bytes text.now) }
{
    let len = text.as_slice().len();
    if len > MOST_DATA as usize {
        return MOST_DATA + 1;
    }
    let words = (len as u64 + 3) / u64::from(WORD_BYTES);
    capped(u64::from(WORD_BYTES) + u64::from(WORD_BYTES) * words)
}
