//! From the trees of modules to a typed program.
#![tactic(auto)]

mod bodies;
mod draft;
mod heads;
mod modules;
mod procedures;
mod program;

pub use program::elaborate;
