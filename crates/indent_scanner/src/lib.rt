//! The scanner: from the bytes of a source to its tokens.
#![tactic(auto)]

mod bytes;
mod here;
mod laws;
mod piece;
mod shape;
mod source;
mod text;
mod token;
mod words;

pub use laws::{each_token, one_reading, text_characters};
pub use source::scan;
pub use text::{characters_of, inner_of, normal_form, text_of};
pub use token::{Key, Tok, Token};
pub use words::is_named;
