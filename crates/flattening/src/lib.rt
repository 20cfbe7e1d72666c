//! From the typed program to its flat code.
#![tactic(auto)]

mod acts;
mod around;
mod declared_places;
mod ends;
mod expr_code;
mod expr_places;
mod finds;
mod known;
mod labels;
mod laws;
mod loop_acts;
mod marks;
mod numbers;
mod operand_lists;
mod pieces;
mod program;
mod spans;
mod stmt_acts;
mod stmt_code;
mod stmt_places;
mod temporaries;
mod waits;
mod ways;
mod written;

pub use laws::{FLAT_PACE, NODE_WEIGHT, counts_in_turn, fits, flat_code, may_be_lowered, sizes};
pub use numbers::{PURPOSES, Purpose};
pub use program::flatten;
