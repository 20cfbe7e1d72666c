// The numbers of flat code.

/// What a label of a part is for.
#[derive(Clone, Copy)]
pub enum Purpose {
    /// Where control comes to the part from what it is a part of: a branch of a `case`, what is
    /// behind a condition that doesn't hold, and the test of a loop.
    Arm,
    /// What comes behind the part.
    End,
    /// What comes next: where no label of a `case` fits, or for the next turn of a loop.
    Next,
    /// Where a turn of a loop begins.
    Turn,
}

/// How many purposes there are.
pub const PURPOSES: u32 = 4;
