//! The plan of a program: what happens to the value at each site, and which destroys are skipped;
//! sets of sites and of skipped pairs, of which a plan is made, and what a plan has of them.
#![tactic(auto)]

mod laws;
mod plan;
mod said;
mod sets;
#[cfg(test)]
mod tests;

pub use laws::one_more;
pub use plan::{Act, Plan, SiteAct, SkipAt};
pub use said::{act_of, is_skipped};
pub use sets::{SiteSet, SkipSet};
