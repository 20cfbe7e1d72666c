// How large values of constants are.
ghost use Rattle.std.specs.Prelude.{◌≡◌, ◌+◌, min, nat_le};
ghost use Rattle.nim_types.specs.Forms.{or_word};
ghost use Rattle.nim_program.specs.View.{literal_of, literals_of};
ghost use Rattle.expr_rules.specs.Literals.{literal_bytes, part_bytes, all_bytes};
ghost use Rattle.expr_constants.specs.ViewConstants.{most};

use expr_rules::MOST_TYPE_BYTES;
use nim_program::Literal;
use nim_types::{LIST_BYTES, WORD_BYTES};

// The bytes of a list that leads to so many.
fn list_bytes(bytes: u64) -> u64
    ensures { result ≡ min (LIST_BYTES + bytes) most }
{
    bytes.saturating_add(u64::from(LIST_BYTES))
}

// What has no parts takes a word.
fn or_word(bytes: u64) -> u64
    ensures { result ≡ or_word bytes }
{
    if bytes == 0 {
        u64::from(WORD_BYTES)
    } else {
        bytes
    }
}

// As a part of another, 18,446,744,073,709,551,615 where it is more.
#[cycle(sizes)]
fn part_bytes(literal: &Literal) -> u64
    ensures { result ≡ min (part_bytes (literal_of literal.now)) most }
{
    match literal {
        Literal::Ordinal(_) | Literal::Nil => u64::from(WORD_BYTES),
        Literal::Text(text) => list_bytes(text.as_slice().len() as u64),
        Literal::Parts(all) => or_word(all_bytes(all.as_slice())),
        Literal::Elements(all) => list_bytes(all_bytes(all.as_slice())),
    }
}

#[cycle(sizes)]
fn all_bytes(all: &[Literal]) -> u64
    ensures { result ≡ min (all_bytes (literals_of all.now)) most }
{
    let mut bytes = 0_u64;
    for literal in all {
        bytes = bytes.saturating_add(part_bytes(literal));
    }
    bytes
}

// By itself a text has its bytes, and a sequence those of its elements.
fn literal_bytes(literal: &Literal) -> u64
    ensures { result ≡ min (literal_bytes (literal_of literal.now)) most }
{
    match literal {
        Literal::Ordinal(_) | Literal::Nil => u64::from(WORD_BYTES),
        Literal::Text(text) => text.as_slice().len() as u64,
        Literal::Parts(all) => or_word(all_bytes(all.as_slice())),
        Literal::Elements(all) => all_bytes(all.as_slice()),
    }
}

/// Whether it isn't too large for a constant.
pub fn is_small(literal: &Literal) -> bool
    ensures { nat_le (literal_bytes (literal_of literal.now)) MOST_TYPE_BYTES ≡ result }
{
    literal_bytes(literal) <= u64::from(MOST_TYPE_BYTES)
}
