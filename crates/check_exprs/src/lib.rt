//! From trees to typed expressions.
#![tactic(auto)]

pub mod public;
mod typing;
