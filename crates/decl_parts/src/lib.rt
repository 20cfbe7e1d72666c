//! What statements are made of: the state of the pass, values, places and names.
#![tactic(auto)]

pub mod heads;
pub mod names;
pub mod nodes;
pub mod same;
pub mod state;
pub mod stmts;
pub mod typing;
pub mod values;
pub mod written;
