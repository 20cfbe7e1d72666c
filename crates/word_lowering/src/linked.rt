// The words of the values that the pieces of a constant are: a text or a sequence in it is a length and
// an address.
ghost use Rattle.std.specs.Prelude.{◌≡◌, ◌-◌, [], ◌∷◌, ℕ, List, drop, length, IfOk, OnOk};
ghost use Rattle.flat_code.specs.Pieces.{words_bytes};
ghost use Rattle.word_lowering.specs.Linked.{last_words, with_piece};
ghost use Rattle.word_lowering.specs.LaidTexts.{AreStacked, stacked};

use crate::spots::more;
use arc_base::{Bytes, Memory};
use flat_code::Piece;
use std::alloc::Global;

/// The words of values one behind the other, and where each value begins.
#[derive(Drop)]
pub struct Stack {
    pub words: Vec<u32>,
    pub begins: Vec<usize>,
}

/// The bytes of words.
pub fn words_bytes(alloc: Global, words: &[u32]) -> Result<Bytes, Memory>
    ensures { IfOk result (λ bytes. bytes ≡ words_bytes words.now) }
{
    let mut bytes = Bytes::new(alloc);
    for word in words {
        bytes.append(&word.to_le_bytes())?;
    }
    Ok(bytes)
}

/// No value.
pub fn no_values(alloc: Global) -> Stack
    ensures { AreStacked result [] }
{
    Stack {
        words: Vec::new(alloc),
        begins: Vec::new(alloc),
    }
}

// At which of them the last so many begin.
fn first_of(stack: &Stack, n: u32) -> usize
    ensures { result ≡ length stack.now.begins.items - n }
{
    stack.begins.len().saturating_sub(n as usize)
}

// Where the last so many begin.
fn begin_of(stack: &Stack, n: u32) -> usize
    ensures { (values : List (List ℕ)) → AreStacked stack.now values →
        result ≡ length (stacked (drop n values)) }
{
    match stack.begins.get(first_of(stack, n)) {
        Some(at) => *at,
        None => stack.words.as_slice().len(),
    }
}

/// The words of the last so many values.
pub fn last_words(stack: &Stack, n: u32) -> &[u32]
    ensures { (values : List (List ℕ)) → AreStacked stack.now values →
        result.now ≡ last_words n values }
{
    let words = stack.words.as_slice();
    let at = begin_of(stack, n).min(words.len());
    &words[at..]
}

// One more value.
fn push_value(stack: &mut Stack, words: &[u32]) -> Result<(), Memory>
    ensures { (values : List (List ℕ)) → AreStacked stack.old values →
        OnOk result (AreStacked stack.new (words.now ∷ values)) }
{
    stack.begins.push(stack.words.len())?;
    stack.words.extend_from_slice(words)?;
    Ok(())
}

// The last so many become one.
fn join_values(stack: &mut Stack, n: u32) -> Result<(), Memory>
    ensures { (values : List (List ℕ)) → AreStacked stack.old values →
        OnOk result (AreStacked stack.new (last_words n values ∷ drop n values)) }
{
    let at = begin_of(stack, n);
    let first = first_of(stack, n);
    stack.begins.truncate(first);
    stack.begins.push(at)?;
    Ok(())
}

// Without the last so many.
fn drop_values(stack: &mut Stack, n: u32)
    ensures { (values : List (List ℕ)) → AreStacked stack.old values →
        AreStacked stack.new (drop n values) }
{
    let at = begin_of(stack, n);
    let first = first_of(stack, n);
    stack.begins.truncate(first);
    stack.words.truncate(at);
}

/// The value of one more piece, which leads to an address if it is a text or a sequence.
pub fn push_piece(stack: &mut Stack, piece: &Piece, address: u32) -> Result<(), Memory>
    ensures { (values : List (List ℕ)) → AreStacked stack.old values →
        OnOk result (AreStacked stack.new (with_piece piece.now address values)) }
{
    match piece {
        Piece::Ordinal(z) => push_value(stack, &[z.cast_unsigned()]),
        Piece::Text(text) => push_value(stack, &[more(0, text.as_slice())?, address]),
        Piece::Nil => push_value(stack, &[0]),
        Piece::Parts(0) => push_value(stack, &[0]),
        Piece::Parts(n) => join_values(stack, *n),
        Piece::Elements(n) => {
            drop_values(stack, *n);
            push_value(stack, &[*n, address])
        }
    }
}
