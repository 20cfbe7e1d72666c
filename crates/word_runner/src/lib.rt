//! Runs word code by units on a source and two sinks.
#![tactic(auto)]

mod act;
mod books;
mod calls;
mod mean;
mod space;
mod start;
mod state;
mod step;
mod take;
mod vars;

pub use mean::{MeanEnd, mean_words};
