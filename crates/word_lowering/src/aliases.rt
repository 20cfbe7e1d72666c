// What temporaries are other names for.
ghost use Rattle.std.specs.Prelude.{◌≡◌, ℕ, Some, None, nat_eq, if◌then◌else◌, map, option_map};
ghost use Rattle.std.specs.Prelude.{IfOk, OnOk};
ghost use Rattle.std.specs.HashMap.{get};
ghost use Rattle.flat_code.specs.Codes.{block_plain};
ghost use Rattle.word_lowering.specs.Aliases.{value_to, location_to, text_in, or_empty, text_of};
ghost use Rattle.word_lowering.specs.Aliases.{is_read, text_alias, alias_by, is_it, FindsAliases};

use crate::homes::Alias;
use crate::spots::more;
use arc_base::Memory;
use flat_code::{BlockLine, Line, OwnedLine, Piece};
use nim_program::Use;
use std::collections::HashMap;

/// What temporaries are other names for, by their numbers.
pub type Names = HashMap<u32, Alias>;

// ---- what lines give

fn value_by(line: &Line) -> Option<u32>
    ensures { result ≡ value_to line.now }
{
    match line {
        Line::Apply { to, .. }
        | Line::Construct { to, .. }
        | Line::Constant { to, .. }
        | Line::Call { to, .. }
        | Line::Get { to, .. }
        | Line::Look { to, .. }
        | Line::Pass { to, .. }
        | Line::Truth { to, .. }
        | Line::Zero { to }
        | Line::Length { to, .. }
        | Line::Element { to, .. } => Some(*to),
        Line::Beyond { counter, .. }
        | Line::Next { counter, .. }
        | Line::CountTurn { counter, .. } => Some(*counter),
        _ => None,
    }
}

/// The temporary that gets a value.
pub fn value_to(line: &BlockLine) -> Option<u32>
    ensures { result ≡ value_to (block_plain line.now) }
{
    match line {
        BlockLine::Plain(OwnedLine::Plain(line)) => value_by(line),
        BlockLine::Plain(OwnedLine::Take { to, .. }) => Some(*to),
    }
}

/// The temporary that gets a location.
pub fn location_to(line: &BlockLine) -> Option<u32>
    ensures { result ≡ location_to (block_plain line.now) }
{
    match line {
        BlockLine::Plain(
            OwnedLine::Plain(
                Line::Root { to, .. }
                | Line::Fresh { to, .. }
                | Line::Standing { to, .. }
                | Line::Part { to, .. }
                | Line::Item { to, .. }
                | Line::Object { to, .. },
            ),
        ) => Some(*to),
        _ => None,
    }
}

// ---- texts

/// The text that a constant is, if it is one.
pub fn text_in(pieces: &[Piece]) -> Option<&[u8]>
    ensures { option_map (λ text. text.now) result ≡ text_in pieces.now }
{
    match pieces.split_first() {
        Some((Piece::Text(text), rest)) if rest.is_empty() => Some(text.as_slice()),
        _ => None,
    }
}

fn own_text(pieces: &[Piece]) -> &[u8]
    ensures { result.now ≡ or_empty (text_in pieces.now) }
{
    match text_in(pieces) {
        None => &[],
        Some(text) => text,
    }
}

/// The text of a line.
pub fn text_of(line: &BlockLine) -> &[u8]
    ensures { result.now ≡ text_of (block_plain line.now) }
{
    match line {
        BlockLine::Plain(OwnedLine::Plain(Line::Constant { pieces, .. })) => {
            own_text(pieces.as_slice())
        }
        _ => &[],
    }
}

// ---- aliases

/// A literal that is only read is nobody's, and stays where it stands.
pub fn is_read(how: Use) -> bool
    ensures { result ≡ is_read how }
{
    match how {
        Use::Lent | Use::Looked => true,
        _ => false,
    }
}

fn text_alias(read: bool, behind: u32, pieces: &[Piece]) -> Result<Alias, Memory>
    ensures { IfOk result (λ alias. alias ≡ text_alias read behind (text_in pieces.now)) }
{
    if !read {
        return Ok(Alias::Own);
    }
    match text_in(pieces) {
        None => Ok(Alias::Own),
        Some(text) => Ok(Alias::Text {
            behind,
            bytes: more(0, text)?,
        }),
    }
}

/// What a line gives is another name for, where so many bytes of texts are behind it.
pub fn alias_by(line: &BlockLine, behind: u32) -> Result<Alias, Memory>
    ensures { IfOk result (λ alias. alias ≡ alias_by (block_plain line.now) behind) }
{
    match line {
        BlockLine::Plain(OwnedLine::Plain(Line::Root { place, global, .. })) => Ok(Alias::Place {
            place: *place,
            global: *global,
        }),
        BlockLine::Plain(OwnedLine::Plain(Line::Fresh { from, waits, .. })) => match waits {
            None => Ok(Alias::Value(*from)),
            Some(node) => Ok(Alias::Node(*node)),
        },
        BlockLine::Plain(OwnedLine::Plain(Line::Constant { how, pieces, .. })) => {
            text_alias(is_read(how.how), behind, pieces.as_slice())
        }
        _ => Ok(Alias::Own),
    }
}

// What a temporary is another name for, if there is one.
fn put_alias(names: &mut Names, to: Option<u32>, alias: Alias) -> Result<(), Memory>
    ensures { OnOk result ((n : ℕ) → get nat_eq names.new n
        ≡ (if is_it n to then Some alias else get nat_eq names.old n)) }
{
    match to {
        None => Ok(()),
        Some(t) => {
            names.insert(t, alias)?;
            Ok(())
        }
    }
}

/// What lines say of temporaries with values and of those with locations. The first of several
/// lines that give one counts, so they are gone over from their end.
pub fn put_aliases(
    lines: &[BlockLine],
    values: &mut Names,
    locations: &mut Names,
) -> Result<(), Memory>
    requires values { (n : ℕ) → get nat_eq values.old n ≡ None }
    requires locations { (n : ℕ) → get nat_eq locations.old n ≡ None }
    ensures values { OnOk result (FindsAliases values.new value_to (map block_plain lines.now)) }
    ensures locations { OnOk result
        (FindsAliases locations.new location_to (map block_plain lines.now)) }
{
    let mut behind = 0;
    let mut i = lines.len();
    while i > 0 {
        i -= 1;
        let alias = alias_by(&lines[i], behind)?;
        put_alias(values, value_to(&lines[i]), alias)?;
        put_alias(locations, location_to(&lines[i]), alias)?;
        behind = more(behind, text_of(&lines[i]))?;
    }
    Ok(())
}
