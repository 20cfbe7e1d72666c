//! The top call: from the words of a command to what is stored, run and said.
#![tactic(auto)]

mod answer;
mod laws;
mod report;
mod top;

pub use answer::{Answer, FileName};
pub use laws::{complete, in_time};
pub use report::put_report;
pub use top::nimarc;
