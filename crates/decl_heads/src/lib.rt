//! Heads of procedures: what they declare, and which procedure they are of.
#![tactic(auto)]

pub mod borrowing;
pub mod completion;
pub mod given;
pub mod heads;
pub mod names;
pub mod signature;
pub mod written;
