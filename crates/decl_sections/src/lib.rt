//! Sections of types: what their definitions say, one after another, and what is known behind them.
#![tactic(auto)]

mod bodies;
mod reading;
mod spelling;
mod starting;
pub mod walk;
