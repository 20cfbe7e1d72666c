//! The words of the command line, and the command that they are.
#![tactic(auto)]

mod arguments;
mod command;
mod laws;
mod number;
mod word;

pub use command::{Command, read_words};
pub use laws::{command_ranges, one_command};
