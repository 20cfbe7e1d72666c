//! The types of a section of types, by its definitions: as they become known, which of them contain
//! themselves, and their sizes.
#![tactic(auto)]

pub mod containing;
pub mod knowing;
pub mod known;
pub mod nodes;
pub mod occurring;
pub mod places;
pub mod sizing;
