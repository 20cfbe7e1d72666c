//! Numbers, each once, in the order in which they were added.
#![tactic(auto)]

mod numbers;

pub use numbers::Numbers;
