// The text of a token.
ghost use Rattle.std.specs.Prelude.{◌≡◌, ◌≤◌, ◌<◌, ◌+◌, ◌-◌, drop, take, length, List, ℕ, IfOk};
ghost use Rattle.indent_scanner.specs.declared.shape.Quote.TheVariants as Q;
ghost use Rattle.indent_scanner.specs.declared.shape.Shape.TheVariants as Open;
ghost use Rattle.indent_scanner.specs.Words.{normal, folded};
ghost use Rattle.indent_scanner.specs.Meaning.{inner, IsTextOf, bytes_of};
ghost use Rattle.indent_scanner.specs.ByForm.{values, value_of, meaning, characters};
ghost use Rattle.indent_scanner.specs.Grammar.{IsText, IsQuoted};
ghost use Rattle.indent_scanner.specs.declared.token.Tok.TheVariants as Kind;
ghost use Rattle.indent_scanner.specs.Tokens.{LiesIn};

use crate::bytes::byte_at;
use crate::shape::{Quote, Shape, step};
use crate::token::{Tok, Token};
use crate::words::lower;
use arc_base::{Bytes, Memory};
use std::alloc::Global;

// The value of a character that has just been read.
fn value_of(shape: Shape) -> Option<u8>
    ensures { result ≡ value_of shape }
{
    match shape {
        Shape::Inside(_, last) => last,
        _ => None,
    }
}

// The values of the characters of a text, from behind its first quote.
fn characters(alloc: Global, bytes: &[u8]) -> Result<Bytes, Memory>
    ensures { IfOk result (λ text. text ≡ values (Open.Inside Q.Text None) bytes.now) }
{
    let mut text = Bytes::new(alloc);
    let mut state = Shape::Inside(Quote::Text, None);
    let mut at = 0;
    while at < bytes.len() {
        let Some(next) = step(state, bytes[at], byte_at(bytes, at + 1)) else {
            return Ok(text);
        };
        if let Some(value) = value_of(next) {
            text.push(value)?;
        }
        state = next;
        at += 1;
    }
    Ok(text)
}

/// The normal form of a name, which equal names share: its first byte, and the rest without `_` and in
/// lower case.
pub fn normal_form(alloc: Global, name: &[u8]) -> Result<Bytes, Memory>
    ensures { IfOk result (λ text. text ≡ normal name.now) }
{
    let mut text = Bytes::new(alloc);
    if name.is_empty() {
        return Ok(text);
    }
    text.push(name[0])?;
    for b in &name[1..] {
        if *b != b'_' {
            text.push(lower(*b))?;
        }
    }
    Ok(text)
}

// Without the first byte and the last.
fn inner(alloc: Global, bytes: &[u8]) -> Result<Bytes, Memory>
    ensures { IfOk result (λ text. text ≡ inner bytes.now) }
{
    let mut text = Bytes::new(alloc);
    if bytes.len() > 2 {
        text.append(&bytes[1..bytes.len() - 1])?;
    }
    Ok(text)
}

// The text of a token of a kind, with these bytes.
fn text_in(alloc: Global, kind: Tok, bytes: &[u8]) -> Result<Bytes, Memory>
    ensures { IfOk result (λ text. text ≡ meaning kind bytes.now) }
{
    match kind {
        Tok::Text if bytes.is_empty() => Ok(Bytes::new(alloc)),
        Tok::Text => characters(alloc, &bytes[1..]),
        Tok::Name => normal_form(alloc, bytes),
        Tok::Quoted => inner(alloc, bytes),
        _ => Ok(Bytes::new(alloc)),
    }
}

/// The characters of a text, from the bytes that it is written with, quotes among them.
pub fn characters_of(alloc: Global, text: &[u8]) -> Result<Bytes, Memory>
    ensures characters { IfOk result (λ read. (values : List ℕ) → IsText text.now values → read ≡ values) }
    ensures computed { IfOk result (λ read. read ≡ characters text.now) }
    ensures short { IfOk result (λ read. length read ≤ length text.now) }
{
    text_in(alloc, Tok::Text, text)
}

/// The inner text of a name in backticks, from the bytes that it is written with, backticks among them.
///
/// It is what [`text_of`] gives for a token of these bytes.
pub fn inner_of(alloc: Global, name: &[u8]) -> Result<Bytes, Memory>
    ensures inner { IfOk result (λ text. (name_in : IsQuoted name.now) → text ≡ name_in.inner) }
    ensures token { IfOk result (λ text. IsTextOf Kind.Quoted name.now text) }
    ensures short { IfOk result (λ text. length text ≤ length name.now) }
{
    text_in(alloc, Tok::Quoted, name)
}

/// The characters of a text, the normal form of a name, or the inner text of a name in backticks.
///
/// Other tokens have no text. The token is one of the source's; the text of any other one is no longer than the token.
pub fn text_of(alloc: Global, source: &[u8], token: &Token) -> Result<Bytes, Memory>
    requires { LiesIn source.now token.now }
    ensures text { IfOk result (λ text. IsTextOf token.now.kind (bytes_of source.now token.now) text) }
    ensures short { IfOk result (λ text. length text ≤ token.now.len) }
{
    let start = token.start as usize;
    text_in(
        alloc,
        token.kind,
        &source[start..start + token.len as usize],
    )
}
