// What a plan says of a site, and of a pair of a place and an exit.
ghost use Rattle.std.specs.Prelude.{◌≡◌, IfSome, IsTrue, Some};
ghost use Rattle.nim_plan.specs.Order.{HasAct, HasSkip, IsInOrder};

use crate::plan::{Act, Plan};

/// The act at a site, or None where the plan has none. Of a plan whose lists aren't in order it may
/// miss one. The time grows as the logarithm of the number of sites.
pub fn act_of(plan: &Plan, site: u32) -> Option<Act>
    ensures only { IfSome result (λ act. HasAct plan.now site act) }
    ensures all { IsInOrder plan.now → (act : Act) → HasAct plan.now site act → result ≡ Some act }
{
    let sites = plan.sites.as_slice();
    match sites.binary_search_by_key(&site, |entry| entry.site) {
        Ok(at) => Some(sites[at].act),
        Err(_) => None,
    }
}

/// Whether a place isn't destroyed at an exit. Of a plan whose lists aren't in order it may miss a
/// pair. The time grows as the logarithm of the number of pairs.
pub fn is_skipped(plan: &Plan, place: u32, exit: u32) -> bool
    ensures only { IsTrue result → HasSkip plan.now place exit }
    ensures all { IsInOrder plan.now → HasSkip plan.now place exit → IsTrue result }
{
    let skips = plan.skips.as_slice();
    let found = skips.binary_search_by_key(&(place, exit), |skip| (skip.place, skip.exit));
    found.is_ok()
}
