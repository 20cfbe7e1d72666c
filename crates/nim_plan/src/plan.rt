// The plan: what happens to the value at each site, and which destroys are skipped.
ghost use Rattle.std.specs.Prelude.{◌≡◌, []};

use arc_base::Items;
use std::alloc::Global;

/// What happens to the value of a path at a site.
#[derive(Clone, Copy, Debug, PartialEq, Eq)]
pub enum Act {
    /// The value is copied.
    Copy,
    /// The value is handed on, and its place is blanked.
    Move,
    /// The value is handed on, and its place is not seen again before it is written.
    Final,
    /// The value stays where it is, and is read from there.
    Borrow,
}

/// The act at a site, by the node's number.
#[derive(Clone, Copy)]
pub struct SiteAct {
    pub site: u32,
    pub act: Act,
}

/// A place that is not destroyed at an exit of its scope, by their numbers.
#[derive(Clone, Copy)]
pub struct SkipAt {
    pub place: u32,
    pub exit: u32,
}

/// The plan of a program. Each list is in increasing order.
#[derive(Drop)]
pub struct Plan {
    /// The acts, by site.
    pub sites: Items<SiteAct>,
    /// The parameters that became `sink` by inference, by place.
    pub sinks: Items<u32>,
    /// The skipped pairs, by place and then by exit.
    pub skips: Items<SkipAt>,
}

impl Plan {
    /// The plan of a program without sites.
    pub fn new(alloc: Global) -> Self
        ensures sites { result.sites ≡ [] }
        ensures sinks { result.sinks ≡ [] }
        ensures skips { result.skips ≡ [] }
    {
        Plan {
            sites: Items::new(alloc),
            sinks: Items::new(alloc),
            skips: Items::new(alloc),
        }
    }
}
