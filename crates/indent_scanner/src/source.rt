// From a source to its tokens.
ghost use Rattle.std.specs.Prelude.{◌≡◌, ◌≤◌, ◌<◌, ◌+◌, ◌-◌, ◌^◌, List, All, length, IfOk, IfErr};
ghost use Rattle.arc_base.specs.Stops.{OnRefusal};
ghost use Rattle.indent_scanner.specs.declared.token.Token.{Token as One};
ghost use Rattle.indent_scanner.specs.Tokens.{Tokens, IsRefused, IsEnded, HasByte, StandsIn, PlaceFits, LiesIn, refusal};
ghost use Rattle.indent_scanner.specs.Meaning.{IsSpelledIn};

use crate::here::{Here, first_place, mark_length, over_gap, over_token, token_at};
use crate::piece::{Piece, piece_at};
use crate::token::{Tok, Token};
use arc_base::{Code, Items, Place, Stop};
use std::alloc::Global;

// A refusal at a place of a module.
fn refusal(module: u32, here: Here, code: Code) -> Stop
    ensures { result ≡ refusal «module» here code }
{
    Stop::Refused {
        code,
        at: Place {
            module,
            line: here.line,
            column: here.column,
        },
    }
}

/// The tokens of a source, of which the last is `End`, or its first refusal.
///
/// A refusal names a place of the module with this number:
/// - E1 at a byte that nothing begins with, or that the char, text or comment around it may not hold; and at the start of
///   a word or of a backtick that is no name.
/// - E2 at the start of what begins as an integer, a char, a text or a comment and is none; and at a `"` straight behind a
///   name.
/// - E3 at the start of an integer above 2,147,483,647.
pub fn scan(alloc: Global, source: &[u8], module: u32) -> Result<Items<Token>, Stop>
    requires { length source.now < 2 ^ 32 - 1 }
    ensures tokens { IfOk result (λ tokens. Tokens source.now tokens) }
    ensures only { IfOk result (λ tokens. (others : List One) → Tokens source.now others → others ≡ tokens) }
    ensures spelled { IfOk result (λ tokens. All (IsSpelledIn source.now) tokens) }
    ensures places { IfOk result (λ tokens. All (StandsIn source.now) tokens) }
    ensures inside { IfOk result (λ tokens. All (LiesIn source.now) tokens) }
    ensures count { IfOk result (λ tokens. length tokens ≤ length source.now + 1) }
    ensures ended { IfOk result (λ tokens. IsEnded tokens) }
    ensures some { IfOk result (λ tokens. All HasByte tokens) }
    ensures fits { IfOk result (λ tokens. All PlaceFits tokens) }
    ensures refused { IfErr result (λ stop. OnRefusal stop (IsRefused source.now «module»)) }
    ensures none { IfErr result (λ stop. OnRefusal stop (λ _ _. (tokens : List One) → Tokens source.now tokens → ⊥)) }
{
    let mut tokens = Items::new(alloc);
    let mark = mark_length(source);
    let mut here = first_place(mark as u32);
    let mut rest = &source[mark..];
    while !rest.is_empty() {
        match piece_at(rest) {
            Piece::Gap(comment, len) => {
                here = over_gap(comment, here, &rest[..len]);
                rest = &rest[len..];
            }
            Piece::Found(kind, len) => {
                let behind = &rest[len..];
                tokens.push(token_at(here, kind, len as u32, behind))?;
                here = over_token(here, len as u32);
                rest = behind;
            }
            Piece::Refused(code, at) => {
                return Err(refusal(module, over_gap(true, here, &rest[..at]), code));
            }
        }
    }
    tokens.push(token_at(here, Tok::End, 0, rest))?;
    Ok(tokens)
}
