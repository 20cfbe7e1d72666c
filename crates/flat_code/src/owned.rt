// Owned code: what the plan says at a site stands in the line, so it has no plan.
use crate::code::Code;
use crate::line::{Line, UseAt};
use nim_plan::Act;
use nim_types::TypeId;

/// A line of owned code.
#[derive(Drop)]
pub enum OwnedLine {
    /// A line of flat code that asks no plan.
    Plain(Line),
    /// The value at a location, by the plan's act at its site.
    Take {
        to: u32,
        from: u32,
        how: UseAt,
        act: Option<Act>,
        ty: Option<TypeId>,
    },
}

/// Owned code.
pub type Owned = Code<OwnedLine>;
