//! The plan of a program that copies at each of its sites.
#![tactic(auto)]

mod around;
mod blocks;
mod examples;
mod found;
mod known;
mod laws;
mod plain;
mod values;

pub use examples::site_examples;
pub use laws::plain_plans;
pub use plain::plain_plan;
