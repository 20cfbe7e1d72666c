// What flat, owned and block code have in common: procedures of lines.
use crate::place::FlatPlace;
use arc_base::Items;
use nim_program::HookOf;

/// A procedure, or the start code, whose lines are of a kind. One without a body has no lines.
#[derive(Drop)]
pub struct CodeProc<L: Drop> {
    /// The number of its first declared place, and how many it has.
    pub first: u32,
    pub span: u32,
    pub places: Items<FlatPlace>,
    pub lines: Items<L>,
    pub hook: Option<HookOf>,
}

/// The procedures of a program by number, and the start code as the last one.
#[derive(Drop)]
pub struct Code<L: Drop> {
    pub procs: Items<CodeProc<L>>,
}
