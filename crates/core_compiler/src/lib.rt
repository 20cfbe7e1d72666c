//! What commands do with a typed program: they compile it to an image, say whether it has one, or run what it means.
#![tactic(auto)]

mod image;
mod laws;
mod meaning;
mod note;
mod program;

pub use laws::code_limits;
pub use meaning::mean_core;
pub use note::MOST_NOTE_BYTES;
pub use program::{
    BYTES_OF_ALL, BYTES_OF_HOOK, BYTES_OF_PAIR, BYTES_OF_PART, IMAGE_LATE, IMAGE_PACE, TIME_LATE,
    TIME_PACE, check_core, compile_core, within_core,
};
