//! The values of constant expressions, and what needs them.
#![tactic(auto)]

pub mod constant_rules;
pub mod defaults;
pub mod evaluated;
pub mod evaluation;
pub mod indexing;
pub mod literal_sizes;
pub mod shown;
