//! What has to be known of the whole text: each procedure has a body, and no `var` argument is a
//! global that its procedure names.
#![tactic(auto)]

mod exprs;
mod known;
mod names;
mod paths;
mod stmts;
mod text;
mod uses;

pub use text::{Item, check_text};
