//! Typed programs have what the laws of flat code ask for; and what the flat code of small ones shows.
#![tactic(auto)]

mod examples;
mod laws;

pub use examples::flat_examples;
pub use laws::{formed, table_forms};
