//! What a typed program means.
#![tactic(auto)]

mod examples;
mod laws;
mod laws_of_acts;

pub use examples::{
    call_examples, exit_examples, left_out_examples, loop_examples, number_examples,
    place_examples, text_examples,
};
pub use laws::meanings;
pub use laws_of_acts::{acts, exits, kinds, lent, points, program_sites, runs, sites, ways};
