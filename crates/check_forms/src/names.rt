// Names that wait for their rule, names of hooks, and the places of forms.
ghost use Rattle.std.specs.Prelude.{◌≡◌, ◌&&◌};
ghost use Rattle.indent_scanner.specs.Bytes.{is_letter};
ghost use Rattle.indent_scanner.specs.Words.{is_named};
ghost use Rattle.indent_scanner.specs.Meaning.{inner};
ghost use Rattle.decl_rules.specs.LeftOut.{is_hook, waits, only_there, or_later};
ghost use Rattle.check_forms.specs.Waiting.{names_in};

use arc_base::Place;
use indent_scanner::is_named;

/// Which of the names that have no rule yet the source doesn't declare itself.
#[derive(Clone, Copy)]
pub struct Waiting {
    /// `isNil`
    pub is_nil: bool,
    /// `newException`
    pub new_exception: bool,
}

fn is_one(waits: bool, text: &[u8], name: &[u8]) -> bool
    ensures { result ≡ (waits && is_named text.now name.now) }
{
    waits && is_named(text, name)
}

/// Whether it is a name that waits for its rule.
#[tactic(auto, using(crate::proofs::Naming::waits_by))]
pub fn waits(names: Waiting, text: &[u8]) -> bool
    ensures { result ≡ waits (names_in names) text.now }
{
    is_one(names.is_nil, text, b"isnil") || is_one(names.new_exception, text, b"newexception")
}

// `A` to `Z`, and `a` to `z`.
fn is_letter(b: u8) -> bool
    ensures { result ≡ is_letter b }
{
    matches!(b, b'A'..=b'Z' | b'a'..=b'z')
}

// What stands between backticks.
fn inside(text: &[u8]) -> &[u8]
    ensures { result.now ≡ inner text.now }
{
    if text.len() > 2 {
        &text[1..text.len() - 1]
    } else {
        &[]
    }
}

// A `=` with a name behind it.
fn is_hook(text: &[u8]) -> bool
    ensures { result ≡ is_hook text.now }
{
    match text {
        [sign, first, ..] => *sign == b'=' && is_letter(*first),
        _ => false,
    }
}

/// Whether a name in backticks, which are among its bytes, is that of a hook.
pub fn is_hook_name(text: &[u8]) -> bool
    ensures { result ≡ is_hook (inner text.now) }
{
    is_hook(inside(text))
}

/// A form that is left out where a condition holds.
pub fn only_there(here: bool, at: Place) -> Option<Place>
    ensures { result ≡ only_there here at }
{
    if here { Some(at) } else { None }
}

/// Of two parts, one before the other in the text.
pub fn or_later(first: Option<Place>, later: Option<Place>) -> Option<Place>
    ensures { result ≡ or_later first later }
{
    match first {
        Some(at) => Some(at),
        None => later,
    }
}
