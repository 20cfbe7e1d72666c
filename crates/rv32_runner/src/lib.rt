//! The runner: carries out the machine of an image to a number of instructions, between a source and two sinks.
#![tactic(auto)]

mod calls;
mod laws;
mod runner;

pub use laws::runs;
pub use runner::{RunEnd, Runner, load};

#[cfg(test)]
mod tests;
