//! Values that are built of parts, written types, and the labels of a `case`.
#![tactic(auto)]

pub mod label_list;
pub mod plans;
pub mod ranges;
pub mod tuples;
pub mod written;
