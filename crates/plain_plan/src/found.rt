// Sites that were found.
ghost use Rattle.std.specs.Prelude.{◌≡◌, ◌<◌, ◌^◌, ◌∷◌, [], ℕ, List, Option, Some, IfOk, map};
ghost use Rattle.plain_plan.specs.Adding.{Adds};
ghost use Rattle.plain_plan.specs.Plain.{AreWords, copied};

use arc_base::{Items, Memory};
use nim_plan::{Act, SiteAct};
use std::alloc::Global;
use std::collections::BTreeSet;
use std::marker::Model;

/// A set of sites. Where there was no memory for one, all is lost, which `finish` tells.
#[derive(Drop)]
pub struct Found {
    sites: BTreeSet<u32>,
    kept: bool,
}

impl Model for Found {
    ghost use Rattle.std.specs.Prelude.{ℕ, List, Option, Some, None, if◌then◌else◌};

    ghost Value = { Option (List ℕ) };

    ghost view = { λ f. if f.kept then Some f.sites.keys else None };
}

impl Found {
    /// No site.
    pub fn new(alloc: Global) -> Self
        ensures { result ≡ Some [] }
    {
        Found {
            sites: BTreeSet::new(alloc),
            kept: true,
        }
    }

    /// Adds a site.
    pub fn add(&mut self, site: u32)
        ensures { Adds self.old self.new (site ∷ []) }
    {
        if self.sites.insert(site).is_err() {
            self.kept = false;
        }
    }

    /// A copy at each site, in order, unless one was lost.
    pub fn finish(self, alloc: Global) -> Result<Items<SiteAct>, Memory>
        ensures { IfOk result (λ acts. (sites : List ℕ) × (self ≡ Some sites)
            × (acts ≡ map copied sites) × AreWords acts) }
    {
        if !self.kept {
            return Err(Memory);
        }
        copies(alloc, &self.sites)
    }
}

fn copy_at(site: u32) -> SiteAct
    ensures is { result ≡ copied site }
    ensures word { site < 2 ^ 32 }
{
    SiteAct {
        site,
        act: Act::Copy,
    }
}

// A copy at each site.
fn copies(alloc: Global, sites: &BTreeSet<u32>) -> Result<Items<SiteAct>, Memory>
    ensures copies { IfOk result (λ acts. acts ≡ map copied sites.now.keys) }
    ensures words { IfOk result AreWords }
{
    let mut acts = Items::new(alloc);
    for site in sites {
        acts.push(copy_at(*site))?;
    }
    Ok(acts)
}
