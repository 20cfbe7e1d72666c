//! Statements, definitions and constants, from their trees to what is typed.
#![tactic(auto)]

pub mod assignments;
pub mod blocks;
pub mod constants;
pub mod definitions;
mod sections;
pub mod statements;
