//! What a typed program lends to its procedures lies apart, and isn't written.
#![tactic(auto)]

mod laws;

pub use laws::lent_apart;
