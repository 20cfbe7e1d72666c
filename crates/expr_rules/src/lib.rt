//! The typing rules of expressions.
#![tactic(auto)]

mod laws;
mod limits;

pub use laws::{
    calls_computed, examples, labels_cover, nodes_numbered, one_typing, typing_computed,
};
pub use limits::{MOST_ELEMENTS, MOST_TYPE_BYTES};
