//! Word code without the procedures that no call can reach.
#![tactic(auto)]

mod laws;
mod reaching;

pub use laws::pruning;
pub use reaching::prune;
