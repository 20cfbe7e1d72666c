// Words of variables, and what else is held at numbers.
ghost use Rattle.std.specs.Prelude.{OnOk, Some, if◌then◌else◌, ℕ, ◌==◌, ◌≡◌};
ghost use Rattle.word_code.specs.Words.{no_words, put};
ghost use Rattle.word_runner.specs.View.{held_in};

use arc_base::Memory;
use std::alloc::Global;

/// What is held at a number.
#[inline(always)]
pub fn held_at<T: Copy>(held: &Vec<Option<T>>, at: usize) -> Option<T>
    ensures { result ≡ held_in held.now.items at }
{
    match held.get(at) {
        None => None,
        Some(x) => *x,
    }
}

/// The word of a variable.
#[inline(always)]
pub fn get(words: &Vec<Option<u32>>, v: u32) -> Option<u32>
    ensures { result ≡ held_in words.now.items v }
{
    held_at(words, v as usize)
}

/// At a number there is something else from now on.
#[inline(always)]
pub fn hold<T: Drop>(held: &mut Vec<Option<T>>, at: usize, x: T) -> Result<(), Memory>
    ensures { OnOk result ((v : ℕ) → held_in held.new.items v
        ≡ (if v == at then Some x else held_in held.old.items v)) }
{
    while held.len() <= at {
        held.push(None)?;
    }
    held[at] = Some(x);
    Ok(())
}

/// No variable has a word.
pub fn no_words(alloc: Global) -> Vec<Option<u32>>
    ensures { held_in result.items ≡ no_words }
{
    Vec::new(alloc)
}

/// A variable gets a word.
#[inline(always)]
pub fn put(words: &mut Vec<Option<u32>>, v: u32, word: u32) -> Result<(), Memory>
    ensures { OnOk result (held_in words.new.items ≡ put (held_in words.old.items) v word) }
{
    hold(words, v as usize, word)
}
