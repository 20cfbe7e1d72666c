// From tokens to trees.
//
// `left` is the number of levels that the tree may have.
mod atoms;
mod branches;
mod operators;
mod parts;

pub(crate) use operators::{read_expr, read_primary};
