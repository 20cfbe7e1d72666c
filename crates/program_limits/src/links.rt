// Constants with texts or sequences inside, whose handles lead to what stands elsewhere in the data.
ghost use Rattle.std.specs.Prelude.{◌≡◌, ℕ};
ghost use Rattle.nim_types.specs.Forms.{or_word};
ghost use Rattle.nim_program.specs.declared.text_sizes.TheConstants.{MOST_DATA};
ghost use Rattle.nim_program.specs.Folds.{capped};
ghost use Rattle.nim_program.specs.View.{literal_of, literals_of};
ghost use Rattle.program_limits.specs.Data.{has_links, any_has_links};
ghost use Rattle.program_limits.specs.Data.{linked_part_bytes, linked_parts_bytes};
ghost use Rattle.program_limits.specs.Data.{handled_bytes, linked_bytes};

use crate::data::plus;
use nim_program::Literal;
use nim_types::{LIST_BYTES, WORD_BYTES};

/// Whether texts or sequences stand in a constant.
#[cycle(links)]
pub fn has_links(literal: &Literal) -> bool
    ensures { result ≡ has_links (literal_of literal.now) }
{
    match literal {
        Literal::Ordinal(_) | Literal::Nil => false,
        Literal::Text(_) | Literal::Elements(_) => true,
        Literal::Parts(all) => any_has_links(all),
    }
}

#[cycle(links)]
fn any_has_links(all: &Vec<Literal>) -> bool
    ensures { result ≡ any_has_links (literals_of all.now.items) }
{
    for part in all {
        if has_links(part) {
            return true;
        }
    }
    false
}

// What has no bytes takes a word.
fn or_word(bytes: u32) -> u32
    ensures { (whole : ℕ) → bytes ≡ capped MOST_DATA whole
        → result ≡ capped MOST_DATA (or_word whole) }
{
    if bytes == 0 { WORD_BYTES } else { bytes }
}

// The bytes of one where it stands, and of the sequences in it.
#[cycle(linked_bytes)]
fn linked_part_bytes(literal: &Literal) -> u32
    ensures { result ≡ capped MOST_DATA (linked_part_bytes (literal_of literal.now)) }
{
    match literal {
        Literal::Ordinal(_) | Literal::Nil => WORD_BYTES,
        Literal::Text(_) => LIST_BYTES,
        Literal::Parts(all) => or_word(linked_parts_bytes(all)),
        Literal::Elements(all) => plus(LIST_BYTES + LIST_BYTES, linked_parts_bytes(all)),
    }
}

#[cycle(linked_bytes)]
fn linked_parts_bytes(all: &Vec<Literal>) -> u32
    ensures { result ≡ capped MOST_DATA (linked_parts_bytes (literals_of all.now.items)) }
{
    let mut sum = 0;
    for part in all {
        sum = plus(sum, linked_part_bytes(part));
    }
    sum
}

// With its handle.
fn handled_bytes(literal: &Literal) -> u32
    ensures { result ≡ capped MOST_DATA (handled_bytes (literal_of literal.now)) }
{
    if has_links(literal) {
        plus(LIST_BYTES, linked_part_bytes(literal))
    } else {
        0
    }
}

/// The bytes of a constant with texts or sequences inside, of another none, as far as they matter.
pub fn linked_bytes(literal: &Literal) -> u32
    ensures { result ≡ capped MOST_DATA (linked_bytes (literal_of literal.now)) }
{
    match literal {
        Literal::Text(_) => 0,
        Literal::Ordinal(_) | Literal::Nil | Literal::Parts(_) | Literal::Elements(_) => {
            handled_bytes(literal)
        }
    }
}
