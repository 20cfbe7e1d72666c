//! Where the variables of word code are: each has a home in its call's frame, or a register.
#![tactic(auto)]

mod chains;
mod choose;
mod effects;
mod fine;
mod homes;

pub use effects::Effect;
pub use homes::{Home, Homes, assign};
