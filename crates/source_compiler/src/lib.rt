//! The compiler's own parts: from the bytes of a source to its typed program, and to the image that does what it means,
//! and its plan.
#![tactic(auto)]

mod compiler;
mod source;

pub use compiler::{NotCompiled, compile};
pub use source::{SOURCE_MOST, one_answer, plan_of, typed};
