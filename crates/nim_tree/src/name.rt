// Names.
use arc_base::{Bytes, Place};

/// A name, with the place of its token.
#[derive(Drop)]
pub struct Name {
    pub at: Place,
    /// The bytes that it is written with.
    pub text: Bytes,
}

/// A name that is declared.
#[derive(Drop)]
pub struct Declared {
    pub at: Place,
    /// The bytes that it is written with, in backticks where it is `quoted`.
    pub text: Bytes,
    /// Whether it stands in backticks, as only that of a procedure may.
    pub quoted: bool,
    /// Whether a `*` follows, which shows it to other modules.
    pub shown: bool,
}

/// What a pragma says.
#[derive(Clone, Copy)]
pub enum PragmaKind {
    /// `error`
    Error,
    /// `borrow`
    Borrow,
    /// `cursor`
    Cursor,
    /// `inline`
    Inline,
}

/// A pragma, with the place of its name.
#[derive(Clone, Copy)]
pub struct Pragma {
    pub at: Place,
    pub kind: PragmaKind,
}
