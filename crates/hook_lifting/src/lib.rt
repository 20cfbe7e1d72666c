//! The hooks of types that have texts or sequences in them, as procedures of lines over their parts.
#![tactic(auto)]

mod examples;
mod laws;
mod lifted;
mod lines;
mod procedures;
mod shortening;

pub use examples::lifted_examples;
pub use laws::{cutting, lifting};
pub use lifted::{Cut, Hook, Hooks, Lifted, LiftedLine};
pub use procedures::{MOST_LEVELS, lift};
