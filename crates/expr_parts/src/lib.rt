//! What typed expressions are made of: the scope, operands, nodes, and the rules that need no other value.
#![tactic(auto)]

pub mod arguments;
pub mod borrowed;
pub mod branches;
pub mod branching;
pub mod calls;
pub mod constants;
pub mod conversions;
pub mod decls;
pub mod elements;
pub mod grow;
pub mod kinds;
pub mod labels;
pub mod literals;
pub mod names;
pub mod nodes;
pub mod operand_lists;
pub mod operations;
pub mod operators;
pub mod overlap;
pub mod parts;
pub mod paths;
pub mod scope;
pub mod settle;
pub mod sizes;
pub mod slots;
pub mod value;
