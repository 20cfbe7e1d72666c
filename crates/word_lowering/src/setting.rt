// Where a procedure finds what it shares with others.

/// Which code it is, and where its data is.
#[derive(Clone, Copy)]
pub struct Setting {
    /// Whether it is the start code.
    pub start: bool,
    /// Where the ends of the names of enums stand, as words.
    pub ends: u32,
    /// Where these names stand.
    pub names: u32,
    /// Where the texts of literals are laid out.
    pub texts: u32,
    /// How many bytes of literals stand before its own, those of the last procedure first and in each
    /// those of the last line.
    pub literals: u32,
}
