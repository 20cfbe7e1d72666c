//! Types that are written, but in sections of types, and values that are needed.
#![tactic(auto)]

pub mod lengths;
pub mod parts;
pub mod values;
pub mod written;
