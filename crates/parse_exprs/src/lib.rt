//! The parser of expressions.
//!
//! An expression is the longest one that begins at a token, in the grammar of `specs/Grammar.antt`.
#![tactic(auto)]

mod input;
mod kinds;
mod layout;
mod make;
mod parse;
mod read;
mod total;

pub use input::{Bracket, Input, Lead};
pub use kinds::{
    begins_atom, bracket_of, branch_goes_on, goes_on, is_name, is_punct, is_run, op_named,
    sign_named,
};
pub use layout::Layout;
pub use parse::{
    Parsed, callee, callees_run, deep_exprs, expr, expr_within, exprs_run, one_callee, one_expr,
};
pub use total::{expr_or_fault, exprs_end};
