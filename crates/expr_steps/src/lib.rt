//! What is done before and behind the typing of the parts of an expression.
#![tactic(auto)]

pub mod any_call;
pub mod asks;
pub mod choices;
pub mod demands;
pub mod endings;
pub mod given;
pub mod named_calls;
pub mod simple;
pub mod writable;
