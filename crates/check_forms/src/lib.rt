//! Forms that have no rule yet: the first of them in order of text.
#![tactic(auto)]

mod declared;
mod names;
mod parts;
mod statements;
mod terms;
mod types;

pub use statements::check_nothing_left_out;
