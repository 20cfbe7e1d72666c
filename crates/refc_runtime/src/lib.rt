//! The routines that each program is joined with, as word code.
#![tactic(auto)]

mod code;
mod handles;
mod heap;
mod input;
mod lines;
mod routines;
mod sequences;
mod texts;

pub use code::{Runtimes, runtime_pair};
