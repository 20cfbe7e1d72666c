// Where an expression stands.

/// Whether line ends count.
#[derive(Clone, Copy)]
pub enum Layout {
    /// Inside brackets they don't.
    Brackets,
    /// Outside they do. The statement stands behind so many spaces.
    Lines(u32),
    /// The same at the start of a statement: what begins as a command there is no expression, and neither is it in the branches
    /// of an `if` or `case` that begins there.
    Start(u32),
}
