//! The typing rules of programs.
#![tactic(auto)]

mod laws;

pub use laws::{
    examples, names_found, one_program, one_statement, places_numbered, programs_computed,
    statements_computed, statements_numbered, types_found,
};
