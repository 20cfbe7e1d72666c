// Lines, and the spaces before them.
ghost use Rattle.std.specs.Prelude.{◌≡◌};
ghost use Rattle.parse_exprs.specs.Input.{from_at};
ghost use Rattle.parse_decls.specs.Look.{is_end, spaces_at, deeper_at, stands_at, level_at};
ghost use Rattle.parse_stmts.specs.Look.{end_at, on_line_at, ends_at, goes_deeper, is_branch_word, line_over};

use indent_scanner::{Key, Tok};
use parse_decls::{is_end, spaces_at};
use parse_exprs::{Input, Layout, goes_on};

/// Whether the source ends there.
pub(crate) fn end_at(input: &Input, at: usize) -> bool
    ensures { result ≡ end_at (from_at input.now at) }
{
    match input.head(at) {
        Some(token) => is_end(token.kind),
        None => true,
    }
}

/// Whether a token stands there that begins no line.
pub(crate) fn on_line_at(input: &Input, at: usize) -> bool
    ensures { result ≡ on_line_at (from_at input.now at) }
{
    match input.head(at) {
        Some(token) => !is_end(token.kind) && goes_on(Layout::Lines(0), token.indent),
        None => false,
    }
}

/// Whether statements behind so many spaces end before it.
pub(crate) fn ends_at(input: &Input, at: usize, spaces: u32) -> bool
    ensures { result ≡ ends_at spaces (from_at input.now at) }
{
    if end_at(input, at) {
        return true;
    }
    match spaces_at(input, at) {
        Some(found) => found < spaces,
        None => false,
    }
}

fn goes_deeper(spaces: u32, indent: Option<u32>) -> bool
    ensures { result ≡ goes_deeper spaces indent }
{
    match indent {
        Some(found) => found >= spaces,
        None => false,
    }
}

fn is_branch_word(kind: Tok) -> bool
    ensures { result ≡ is_branch_word kind }
{
    match kind {
        Tok::Key(Key::Of | Key::Elif | Key::Else) => true,
        _ => false,
    }
}

/// Whether an expression that began a statement behind so many spaces is alone on its line, where this stands behind it: the
/// source ends, or a line begins, and no further branch at the level of the statement or deeper.
pub(crate) fn line_over(input: &Input, at: usize, spaces: u32) -> bool
    ensures { result ≡ line_over spaces (from_at input.now at) }
{
    match input.head(at) {
        Some(token) => is_end(token.kind)
            || (token.indent.is_some()
                && !(goes_deeper(spaces, token.indent) && is_branch_word(token.kind))),
        None => true,
    }
}
