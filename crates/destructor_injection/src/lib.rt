//! Flat code under a plan becomes owned code, in whose lines stands what the plan says.
#![tactic(auto)]

mod laws;
mod owned;

pub use laws::owned_codes;
pub use owned::{LINES_EACH, PACE, owned_of};
