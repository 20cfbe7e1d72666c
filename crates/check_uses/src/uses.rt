// What of globals and procedures occurs in typed code.
use arc_base::Place;

/// A use of a global or a procedure.
#[derive(Clone, Copy)]
pub enum Occurrence {
    /// A global, by its place, read or written.
    Global { place: u32 },
    /// A call of a procedure.
    Calls { proc: u32 },
    /// A `var` argument of a procedure: its place, and the global at its root.
    Hands { proc: u32, at: Place, global: u32 },
}
