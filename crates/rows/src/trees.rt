// Trees in short: what is done stands first, with its parts behind it in parentheses. Square brackets stand for the
// parentheses of a source.
mod exprs;
mod stmts;
mod types;

pub use exprs::show_expr;
pub use stmts::{show_defs, show_head, show_stmts};
pub use types::{show_names, show_typedefs};
