// Sets of sites and of skipped pairs, kept in order.
ghost use Rattle.std.specs.Prelude.{◌≡◌, ◌↔◌, [], Contains, IsOk, IsTrue, OnOk, OnErr};
ghost use Rattle.std.specs.List.Sorted.{IsStrictlySortedBy};
ghost use Rattle.std.specs.Ordering.{nat_cmp};
ghost use Rattle.nim_plan.specs.Order.{skip_of, skip_order, with_site, with_skip};

use arc_base::Memory;
use std::alloc::Global;
use std::collections::BTreeSet;
use std::marker::Model;

/// A set of sites, which contracts see as the list of their numbers in order. A look-up and an
/// addition take time that grows as the logarithm of the number of sites.
#[derive(Drop)]
pub struct SiteSet {
    sites: BTreeSet<u32>,
}

impl Model for SiteSet {
    ghost use Rattle.std.specs.Prelude.{List, ℕ};
    ghost use Rattle.std.specs.List.Sorted.{IsStrictlySortedBy};
    ghost use Rattle.std.specs.Ordering.{nat_cmp};

    ghost Value = { List ℕ };

    ghost view = { λ s. s.sites.keys };

    ghost invariant = { λ s. IsStrictlySortedBy nat_cmp s.sites.keys };
}

impl SiteSet {
    /// No site.
    pub fn new(alloc: Global) -> Self
        ensures { result ≡ [] }
    {
        SiteSet {
            sites: BTreeSet::new(alloc),
        }
    }

    /// Whether a site is in the set.
    pub fn has(&self, site: u32) -> bool
        ensures order { IsStrictlySortedBy nat_cmp self.now }
        ensures has { IsTrue result ↔ Contains self.now site }
    {
        self.sites.contains(&site)
    }

    /// Adds a site. Where it is there nothing changes, and Memory isn't answered; a refused growth
    /// changes nothing.
    pub fn add(&mut self, site: u32) -> Result<(), Memory>
        ensures ok { OnOk result (self.new ≡ with_site self.old site) }
        ensures err { OnErr result (self.new ≡ self.old) }
        ensures there { Contains self.old site → IsOk result }
    {
        self.sites.insert(site)?;
        Ok(())
    }
}

/// A set of pairs of a place and an exit, which contracts see as a list in order, by place and then
/// by exit. A look-up and an addition take time that grows as the logarithm of their number.
#[derive(Drop)]
pub struct SkipSet {
    skips: BTreeSet<(u32, u32)>,
}

impl Model for SkipSet {
    ghost use Rattle.std.specs.Prelude.{List, map};
    ghost use Rattle.std.specs.List.Sorted.{IsStrictlySortedBy};
    ghost use Rattle.nim_plan.specs.declared.plan.SkipAt.{SkipAt};
    ghost use Rattle.nim_plan.specs.Order.{pair_order, skip_of};

    ghost Value = { List SkipAt };

    ghost view = { λ s. map skip_of s.skips.keys };

    ghost invariant = { λ s. IsStrictlySortedBy pair_order s.skips.keys };
}

impl SkipSet {
    /// No pair.
    pub fn new(alloc: Global) -> Self
        ensures { result ≡ [] }
    {
        SkipSet {
            skips: BTreeSet::new(alloc),
        }
    }

    /// Whether a pair is in the set.
    pub fn has(&self, place: u32, exit: u32) -> bool
        ensures order { IsStrictlySortedBy skip_order self.now }
        ensures has { IsTrue result ↔ Contains self.now (skip_of (place, exit)) }
    {
        self.skips.contains(&(place, exit))
    }

    /// Adds a pair. Where it is there nothing changes, and Memory isn't answered; a refused growth
    /// changes nothing.
    pub fn add(&mut self, place: u32, exit: u32) -> Result<(), Memory>
        ensures ok { OnOk result (self.new ≡ with_skip self.old (skip_of (place, exit))) }
        ensures err { OnErr result (self.new ≡ self.old) }
        ensures there { Contains self.old (skip_of (place, exit)) → IsOk result }
    {
        self.skips.insert((place, exit))?;
        Ok(())
    }
}
