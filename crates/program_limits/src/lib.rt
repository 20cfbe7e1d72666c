//! Which typed programs have code: those whose whole meaning is built, and which aren't too large
//! for it, as far as that is said of the program alone.
#![tactic(auto)]

mod block_texts;
mod data;
mod frames;
mod known;
mod label_texts;
mod lacking;
mod laws;
mod limits;
mod links;
mod parts;
mod plain;
mod shallow;
mod summary;
mod texts;
mod types;

pub use laws::limit_examples;
pub use limits::{left_out, within};
pub use shallow::shallow_types;
pub use summary::MOST_LEVELS;
pub use texts::FEW_TEXTS;
