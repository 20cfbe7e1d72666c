//! The parser of statements: from the tokens of a module to its tree.
#![tactic(auto)]

mod alone;
mod block;
mod heads;
mod imports;
mod line;
mod lines;
mod look;
mod marks;
mod plain;
mod simple;
mod total;
mod tree;
mod values;

pub use alone::MOST_ALONE;
pub use total::tree_or_fault;
pub use tree::{one_fault, one_tree, parse};
