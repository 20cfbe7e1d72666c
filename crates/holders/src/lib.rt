//! Each text and sequence has its block by itself: what the operations do with them is never at a
//! fault, and leaves each block one holder.
#![tactic(auto)]

mod laws;
mod soundness;
mod territories;

pub use laws::{deeds, parts, sequences, texts, walks};
pub use soundness::{contents, released, sound};
pub use territories::{
    brought_back, calls_as_a_whole, cells, entered, expressions, parts_of_bodies, paths,
    rows_on_cells,
};
