//! From word code to label code, and from label code to an image.
#![tactic(auto)]

mod label_code;
mod layout;
mod layout_places;
mod lines;
mod pieces;
mod stack;

pub use label_code::{
    BYTES_OF_LINE, BYTES_OF_START, CODE_PACE, LINES_OF_LINE, LINES_OF_PROC, LINES_OF_START,
    NEAR_BYTES, code,
};
pub use layout::{
    BRANCH_REACH, LAYOUT_PACE, LINE_BYTES, LayFault, MOST_CODE_BYTES, lay_out, layouts,
};
pub use stack::stack_need;
