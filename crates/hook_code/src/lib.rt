//! Hooks of types as procedures of word code, from one address to another.
#![tactic(auto)]

mod arrays;
mod bytes;
mod code;
mod elements;
mod emit;
mod laws;
mod numbers;
mod procs;

pub use arrays::arrays_are_short;
pub use code::{cut_number, hook_number};
pub use elements::elements_are_small;
pub use laws::{hook_levels, hook_procedures};
pub use numbers::{ADDRESS, COUNT, HOOK_VARIABLES, HOOKS_EACH, ONE, OTHER, PLACES_BEHIND};
pub use procs::put_hooks;
