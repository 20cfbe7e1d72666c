//! Operations that are built in and called by name, and `newSeq`.
#![tactic(auto)]

pub mod built_in;
pub mod built_in_calls;
pub mod built_in_nodes;
pub mod built_in_pairs;
pub mod new_sequences;
