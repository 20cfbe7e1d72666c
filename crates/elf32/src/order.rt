// The order of the lists of a note.
ghost use Rattle.std.specs.Prelude.{◌≡◌, ◌≤◌, None, ltb};
ghost use Rattle.elf32.specs.Reading.{follows, rises, site_before, skip_before, stand, stands};
ghost use Rattle.rv32_isa.specs.Hooks.{code_at};

use nim_plan::{SiteAct, SkipAt};
use rv32_isa::{CODE_AT, HookAt};

// Whether a hook stands at an instruction of code that ends at `end`, from an address on.
fn stands(hook: &HookAt, least: u32, end: u32) -> bool
    ensures { result ≡ stands least end hook.now }
{
    let behind = hook.addr as u64 + 4;
    least <= hook.addr && behind <= end as u64 && hook.addr % 4 == 0 && hook.kind < 4
}

/// Whether hooks stand at instructions of code of `size` bytes, in strictly increasing order of address.
pub fn hooks_stand(hooks: &[HookAt], size: u32) -> bool
    requires { size ≤ 524288 }
    ensures { result ≡ stand size code_at hooks.now }
{
    let end = CODE_AT + size;
    let mut least = CODE_AT;
    for hook in hooks {
        if !stands(hook, least, end) {
            return false;
        }
        least = hook.addr + 1;
    }
    true
}

fn site_follows(last: Option<SiteAct>, site: SiteAct) -> bool
    ensures { result ≡ follows site_before last site }
{
    match last {
        Some(before) => before.site < site.site,
        None => true,
    }
}

/// Whether sites are in strictly increasing order.
pub fn sites_rise(sites: &[SiteAct]) -> bool
    ensures { result ≡ rises site_before None sites.now }
{
    let mut last = None;
    for site in sites {
        if !site_follows(last, *site) {
            return false;
        }
        last = Some(*site);
    }
    true
}

fn sink_follows(last: Option<u32>, sink: u32) -> bool
    ensures { result ≡ follows ltb last sink }
{
    match last {
        Some(before) => before < sink,
        None => true,
    }
}

/// Whether inferred sinks are in strictly increasing order.
pub fn sinks_rise(sinks: &[u32]) -> bool
    ensures { result ≡ rises ltb None sinks.now }
{
    let mut last = None;
    for sink in sinks {
        if !sink_follows(last, *sink) {
            return false;
        }
        last = Some(*sink);
    }
    true
}

fn skip_follows(last: Option<SkipAt>, skip: SkipAt) -> bool
    ensures { result ≡ follows skip_before last skip }
{
    match last {
        Some(before) => before.place < skip.place
            || before.place == skip.place && before.exit < skip.exit,
        None => true,
    }
}

/// Whether skips, by place and then by exit, are in strictly increasing order.
pub fn skips_rise(skips: &[SkipAt]) -> bool
    ensures { result ≡ rises skip_before None skips.now }
{
    let mut last = None;
    for skip in skips {
        if !skip_follows(last, *skip) {
            return false;
        }
        last = Some(*skip);
    }
    true
}
