// Block code: owned code in which an exception is an error word and jumps.
use crate::code::Code;
use crate::owned::OwnedLine;

/// A line of block code.
#[derive(Drop)]
pub enum BlockLine {
    /// A line of owned code that raises nothing.
    Plain(OwnedLine),
}

/// Block code.
pub type Blocks = Code<BlockLine>;
