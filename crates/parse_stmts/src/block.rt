// Statements and their blocks.
//
// `spaces` is the number of spaces that a statement stands behind, and `left` the number of levels of blocks that are left.
mod branches;
mod compound;
mod statements;

pub(crate) use statements::read_statements;
