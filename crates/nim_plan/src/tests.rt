// What no clause says: that memory is found.
use crate::*;
use std::test::Fail;

#[test]
fn sites_are_kept_in_order(rt: HostRuntime) -> Result<(), Fail> {
    let mut sites = SiteSet::new(rt.alloc());
    for site in [7, 4, 9, 4, 7] {
        sites.add(site)?;
    }
    let mut plan = Plan::new(rt.alloc());
    for site in 0..12 {
        if sites.has(site) {
            plan.sites.push(SiteAct {
                site,
                act: Act::Move,
            })?;
        }
    }
    assert_eq!(rt; plan.sites.as_slice().len(), 3);
    assert_eq!(rt; act_of(&plan, 4), Some(Act::Move));
    assert_eq!(rt; act_of(&plan, 9), Some(Act::Move));
    assert_eq!(rt; act_of(&plan, 8), None);
    Ok(())
}

#[test]
fn pairs_are_told_apart_by_both_numbers(rt: HostRuntime) -> Result<(), Fail> {
    let mut skips = SkipSet::new(rt.alloc());
    for (place, exit) in [(2, 1), (1, 2), (1, 9), (2, 1)] {
        skips.add(place, exit)?;
    }
    assert_eq!(rt; skips.has(1, 2), true);
    assert_eq!(rt; skips.has(2, 2), false);
    let mut plan = Plan::new(rt.alloc());
    plan.skips.push(SkipAt { place: 1, exit: 9 })?;
    plan.skips.push(SkipAt { place: 2, exit: 1 })?;
    assert_eq!(rt; is_skipped(&plan, 2, 1), true);
    assert_eq!(rt; is_skipped(&plan, 1, 1), false);
    Ok(())
}
