// Places in a source.
ghost use Rattle.std.specs.Prelude.{◌≡◌, ◌≢◌, ◌≤◌, ◌<◌, ◌+◌, ◌-◌, ◌^◌, [], length, unwrap_or};
ghost use Rattle.indent_scanner.specs.Bytes.{byte_at};
ghost use Rattle.indent_scanner.specs.Tokens.{mark_length, first_place, one_space, spaces_over, over_byte, over_gap, over_token, is_apart, token_at, Fits};

use crate::bytes::byte_at;
use crate::token::{Tok, Token};

/// A place in a source, between pieces.
#[derive(Clone, Copy)]
pub struct Here {
    /// The bytes before it.
    pub start: u32,
    /// The line, from 1.
    pub line: u32,
    /// The byte of the line, from 1.
    pub column: u32,
    /// The spaces before it, where no token has begun on the line.
    pub spaces: Option<u32>,
    /// Whether no token ends here.
    pub apart: bool,
}

/// The length of a leading mark of the byte order.
pub(crate) fn mark_length(source: &[u8]) -> usize
    ensures length { result ≡ mark_length source.now }
    ensures inside { result ≤ length source.now }
    ensures short { result ≤ 3 }
{
    if byte_at(source, 0) == 0xef && byte_at(source, 1) == 0xbb && byte_at(source, 2) == 0xbf {
        3
    } else {
        0
    }
}

/// Where a source begins, behind its mark.
pub(crate) fn first_place(mark: u32) -> Here
    ensures { result ≡ first_place mark }
{
    Here {
        start: mark,
        line: 1,
        column: 1,
        spaces: Some(0),
        apart: true,
    }
}

fn one_space(spaces: Option<u32>) -> Option<u32>
    requires { unwrap_or spaces 0 < 2 ^ 32 - 1 }
    ensures { result ≡ one_space spaces }
{
    match spaces {
        Some(count) => Some(count + 1),
        None => None,
    }
}

// Spaces count outside comments.
fn spaces_over(comment: bool, b: u8, spaces: Option<u32>) -> Option<u32>
    requires { unwrap_or spaces 0 < 2 ^ 32 - 1 }
    ensures { result ≡ spaces_over comment b spaces }
{
    if b == b' ' && !comment {
        one_space(spaces)
    } else {
        spaces
    }
}

fn over_byte(comment: bool, here: Here, b: u8) -> Here
    requires fits { Fits here }
    requires room { here.start < 2 ^ 32 - 2 }
    ensures place { result ≡ over_byte comment here b }
    ensures fits { Fits result }
{
    if b == b'\n' {
        return Here {
            start: here.start + 1,
            line: here.line + 1,
            column: 1,
            spaces: Some(0),
            apart: true,
        };
    }
    Here {
        start: here.start + 1,
        line: here.line,
        column: here.column + 1,
        spaces: spaces_over(comment, b, here.spaces),
        apart: true,
    }
}

/// Behind bytes between tokens.
pub(crate) fn over_gap(comment: bool, here: Here, bytes: &[u8]) -> Here
    requires fits { Fits here }
    requires room { here.start + length bytes.now < 2 ^ 32 - 1 }
    ensures place { result ≡ over_gap comment here bytes.now }
    ensures fits { Fits result }
    ensures start { result.start ≡ here.start + length bytes.now }
{
    let mut here = here;
    for b in bytes {
        here = over_byte(comment, here, *b);
    }
    here
}

/// Behind a token.
pub(crate) fn over_token(here: Here, len: u32) -> Here
    requires fits { Fits here }
    requires room { here.start + len < 2 ^ 32 - 1 }
    ensures place { result ≡ over_token here len }
    ensures fits { Fits result }
{
    Here {
        start: here.start + len,
        line: here.line,
        column: here.column + len,
        spaces: None,
        apart: false,
    }
}

// Whether a blank, the end of a line, a comment or the end follows.
fn is_apart(bytes: &[u8]) -> bool
    ensures { result ≡ is_apart bytes.now }
{
    if bytes.is_empty() {
        return true;
    }
    let b = bytes[0];
    b == b' ' || b == b'\n' || b == b'\r' || b == b'#'
}

/// The token of a kind that begins here, before these bytes.
pub(crate) fn token_at(here: Here, kind: Tok, len: u32, behind: &[u8]) -> Token
    ensures { result ≡ token_at here kind len behind.now }
{
    Token {
        kind,
        start: here.start,
        len,
        line: here.line,
        column: here.column,
        indent: here.spaces,
        space_before: here.apart,
        space_after: is_apart(behind),
    }
}
