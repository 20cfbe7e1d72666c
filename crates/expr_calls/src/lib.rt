//! Calls and operators.
#![tactic(auto)]

pub mod calls_borrowed;
pub mod calls_by_name;
pub mod dollars;
pub mod operator_calls;
