// Words and marks inside a statement.
ghost use Rattle.std.specs.Prelude.{◌≡◌, ℕ, List, ◌∷◌, codes};
ghost use Rattle.indent_scanner.specs.declared.token.Token.{Token as One};
ghost use Rattle.parse_exprs.specs.declared.layout.Layout.TheVariants.{Lines};
ghost use Rattle.parse_exprs.specs.Input.{from_at, origin_of};
ghost use Rattle.parse_exprs.specs.Look.{branch_at, colon_at, comma_at, dots_at, is_run, is_punct, spelling};
ghost use Rattle.parse_decls.specs.Look.{equals_at};
ghost use Rattle.parse_stmts.specs.Look.{word_on, below_at};
ghost use Rattle.parse_stmts.specs.Marks.{IsPast, IsBehind, IsMark, is_word};

use arc_base::Place;
use indent_scanner::{Key, Tok, Token};
use parse_exprs::{Input, Layout, branch_goes_on, goes_on, is_punct, is_run};

/// A keyword inside a statement.
#[derive(Clone, Copy)]
pub(crate) enum Word {
    In,
    As,
    Elif,
    Else,
    Of,
    Except,
    Finally,
}

fn is_word(word: Word, kind: Tok) -> bool
    ensures { result ≡ is_word word kind }
{
    match (word, kind) {
        (Word::In, Tok::Key(Key::In))
        | (Word::As, Tok::Key(Key::As))
        | (Word::Elif, Tok::Key(Key::Elif))
        | (Word::Else, Tok::Key(Key::Else))
        | (Word::Of, Tok::Key(Key::Of))
        | (Word::Except, Tok::Key(Key::Except))
        | (Word::Finally, Tok::Key(Key::Finally)) => true,
        _ => false,
    }
}

// The number of the token behind one, if it was found.
fn past(input: &Input, at: usize, found: bool) -> Option<usize>
    ensures { IsBehind input.now found at result }
{
    if found && at < input.tokens.len() {
        Some(at + 1)
    } else {
        None
    }
}

/// The number of the token behind the colon that goes on there.
pub(crate) fn past_colon(input: &Input, at: usize, spaces: u32) -> Option<usize>
    ensures { IsPast input.now (colon_at (Lines spaces)) at result }
{
    past(input, at, input.colon_at(at, Layout::Lines(spaces)))
}

/// The number of the token behind the comma that goes on there.
pub(crate) fn past_comma(input: &Input, at: usize, spaces: u32) -> Option<usize>
    ensures { IsPast input.now (comma_at (Lines spaces)) at result }
{
    past(input, at, input.comma_at(at, Layout::Lines(spaces)))
}

/// The number of the token behind the `..` that goes on there.
pub(crate) fn past_dots(input: &Input, at: usize, spaces: u32) -> Option<usize>
    ensures { IsPast input.now (dots_at (origin_of input.now) (Lines spaces)) at result }
{
    past(input, at, input.dots_at(at, Layout::Lines(spaces)))
}

fn below_at(input: &Input, at: usize, spaces: u32) -> bool
    ensures { result ≡ below_at (origin_of input.now) spaces (from_at input.now at) }
{
    match input.head(at) {
        Some(token) => goes_on(Layout::Lines(spaces), token.indent)
            && is_run(b"..<".as_slice(), token.kind, input.spelling(token)),
        None => false,
    }
}

/// The number of the token behind the `..<` that goes on there.
pub(crate) fn past_below(input: &Input, at: usize, spaces: u32) -> Option<usize>
    ensures { IsPast input.now (below_at (origin_of input.now) spaces) at result }
{
    past(input, at, below_at(input, at, spaces))
}

// Whether this punctuation goes on there.
fn punct_on(input: &Input, at: usize, spaces: u32, byte: u8) -> bool
    ensures { result ≡ word_on spaces (is_punct byte) (from_at input.now at) }
{
    match input.head(at) {
        Some(token) => goes_on(Layout::Lines(spaces), token.indent) && is_punct(byte, token.kind),
        None => false,
    }
}

/// The number of the token behind the semicolon that goes on there.
pub(crate) fn past_semicolon(input: &Input, at: usize, spaces: u32) -> Option<usize>
    ensures { IsPast input.now (word_on spaces (is_punct 59)) at result }
{
    past(input, at, punct_on(input, at, spaces, b';'))
}

/// The number of the token behind the `=` that goes on there.
pub(crate) fn past_equals(input: &Input, at: usize, spaces: u32) -> Option<usize>
    ensures { IsPast input.now (equals_at (Lines spaces)) at result }
{
    past(input, at, punct_on(input, at, spaces, b'='))
}

// Whether this keyword goes on there.
fn word_on(input: &Input, at: usize, spaces: u32, word: Word) -> bool
    ensures { result ≡ word_on spaces (is_word word) (from_at input.now at) }
{
    match input.head(at) {
        Some(token) => goes_on(Layout::Lines(spaces), token.indent) && is_word(word, token.kind),
        None => false,
    }
}

/// The number of the token behind the keyword that goes on there.
pub(crate) fn past_word(input: &Input, at: usize, spaces: u32, word: Word) -> Option<usize>
    ensures { IsPast input.now (word_on spaces (is_word word)) at result }
{
    past(input, at, word_on(input, at, spaces, word))
}

/// The place of the keyword of a further branch that goes on there, or begins a line behind so many spaces.
pub(crate) fn branch_on(input: &Input, at: usize, spaces: u32, word: Word) -> Option<Place>
    ensures { IsMark input.now (branch_at (Lines spaces) (is_word word)) at result }
{
    let Some(token) = input.head(at) else {
        return None;
    };
    if is_branch(token, spaces, word) {
        Some(input.place_at(token))
    } else {
        None
    }
}

fn is_branch(token: Token, spaces: u32, word: Word) -> bool
    ensures { (ts : List One) → result ≡ branch_at (Lines spaces) (is_word word) (token ∷ ts) }
{
    branch_goes_on(Layout::Lines(spaces), token.indent) && is_word(word, token.kind)
}
