//! Plain values: the operations on ints, the texts of ints by their types, and what places start at.
#![tactic(auto)]

mod numbers;
mod starts;
mod texts;

pub use numbers::{Trap, apply, calculate, compares, low_byte, one_of};
pub use starts::start_of;
pub use texts::{add_char, add_text, limit_of};
