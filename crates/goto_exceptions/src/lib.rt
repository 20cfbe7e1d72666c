//! Owned code becomes block code, in which exceptions are an error word and jumps. Nothing raises yet.
#![tactic(auto)]

mod blocks;
mod laws;

pub use blocks::{LINES_EACH, PACE, branches};
pub use laws::block_codes;
