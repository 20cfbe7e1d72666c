//! Flat, owned and block code: lines of one operation each, with their meanings.
#![tactic(auto)]

mod block;
mod code;
mod copy;
mod examples;
mod flat;
mod laws;
mod line;
mod owned;
mod place;

pub use block::{BlockLine, Blocks};
pub use code::{Code, CodeProc};
pub use copy::copied;
pub use examples::{flat_examples, form_examples};
pub use flat::Flat;
pub use laws::{by_units, codes, waits, weights};
pub use line::{From, Line, Owning, Piece, UseAt};
pub use owned::{Owned, OwnedLine};
pub use place::{FlatPlace, MOST_LEVELS, PlaceKind};
