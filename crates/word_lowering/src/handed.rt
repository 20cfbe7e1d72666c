// What calls of routines on handles, and of hooks, are given.
use crate::homes::Home;

/// Where the handle of a left operand stands in the data, if it has none of its own: its length, its place, and a character.
pub const LEFT_HANDLE_AT: u32 = 20;

/// That of a right operand, or of the only one.
pub const RIGHT_HANDLE_AT: u32 = 32;

/// What one argument is.
#[derive(Clone, Copy)]
pub enum Handed {
    /// The address of a home, which for a variable is its word.
    Where(Home),
    /// A number.
    Number(u32),
}
