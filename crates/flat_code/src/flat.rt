// Flat code: lines under a plan.
use crate::code::Code;
use crate::line::Line;

/// Flat code.
pub type Flat = Code<Line>;
