//! What the typing rules accept is typed.
#![tactic(auto)]

mod laws;

pub use laws::{
    bodies_numbered, completed_there, constant_values, exprs_typed, typed_programs, types_sound,
};
