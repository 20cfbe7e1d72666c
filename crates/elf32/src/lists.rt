// The lists of a note.
ghost use Rattle.std.specs.Prelude.{◌≡◌, ◌≤◌, ◌<◌, ◌^◌, ◌+◌, ◌*◌, ◌++◌, drop, length, IfOk, IfErr, IfSome, IfNone};
ghost use Rattle.std.specs.List.{AllByRecursion};
ghost use Rattle.rv32_isa.specs.Words.{word_bytes};
ghost use Rattle.elf32.specs.declared.file.ElfFault.TheVariants.{Note};
ghost use Rattle.elf32.specs.Elf.{words, counted, hook_words, site_words, sink_words, skip_words, act_number};
ghost use Rattle.elf32.specs.Reading.{Because, Lists, ListsNone, CountsNone};

use crate::file::{ElfFault, ElfStop};
use crate::words::word_at;
use arc_base::Items;
use nim_plan::{Act, SiteAct, SkipAt};
use rv32_isa::HookAt;
use std::alloc::Global;

/// The items of a counted list, and where it ends.
#[derive(Drop)]
pub struct Listed<T: Drop> {
    pub items: Items<T>,
    pub end: usize,
}

// The bytes of an item.
const HOOK_SIZE: usize = 12;

const SITE_SIZE: usize = 8;

const SINK_SIZE: usize = 4;

const SKIP_SIZE: usize = 8;

// A note that no file has.
const BAD: ElfStop = ElfStop::Bad(ElfFault::Note);

// The count of a list whose items have `size` bytes each. They are in the note.
fn count_at(note: &[u8], at: usize, size: usize) -> Result<u32, ElfStop>
    requires at { at ≤ length note.now }
    requires size { 0 < size }
    ensures there { IfOk result (λ count. drop at note.now ≡ word_bytes count ++ drop (at + 4) note.now) }
    ensures room { IfOk result (λ count. at + 4 + size * count ≤ length note.now) }
    ensures bad { IfErr result (λ stop. Because stop Note (CountsNone size (drop at note.now))) }
{
    let left = note.len() - at;
    if left < 4 {
        return Err(BAD);
    }
    let count = word_at(note, at);
    if count as usize > (left - 4) / size {
        return Err(BAD);
    }
    Ok(count)
}

fn hook_at(note: &[u8], at: usize) -> HookAt
    requires { at + 12 ≤ length note.now }
    ensures { drop at note.now ≡ words (hook_words result) ++ drop (at + 12) note.now }
{
    HookAt {
        kind: word_at(note, at),
        of: word_at(note, at + 4),
        addr: word_at(note, at + 8),
    }
}

fn skip_at(note: &[u8], at: usize) -> SkipAt
    requires { at + 8 ≤ length note.now }
    ensures { drop at note.now ≡ words (skip_words result) ++ drop (at + 8) note.now }
{
    SkipAt {
        place: word_at(note, at),
        exit: word_at(note, at + 4),
    }
}

fn act_of(number: u32) -> Option<Act>
    ensures some { IfSome result (λ act. number ≡ act_number act) }
    ensures none { IfNone result (4 ≤ number) }
{
    match number {
        0 => Some(Act::Copy),
        1 => Some(Act::Move),
        2 => Some(Act::Final),
        3 => Some(Act::Borrow),
        _ => None,
    }
}

/// The hooks whose list stands at `at`.
pub fn read_hooks(alloc: Global, note: &[u8], at: usize) -> Result<Listed<HookAt>, ElfStop>
    requires { at ≤ length note.now }
    ensures end { IfOk result (λ listed. listed.end ≤ length note.now) }
    ensures fits { IfOk result (λ listed. AllByRecursion (λ n. n < 2 ^ 32) (counted hook_words listed.items)) }
    ensures there { IfOk result (λ listed. Lists hook_words listed.items (drop at note.now) (drop listed.end note.now)) }
    ensures bad { IfErr result (λ stop. Because stop Note (ListsNone hook_words (drop at note.now))) }
{
    let count = count_at(note, at, HOOK_SIZE)? as usize;
    let start = at + 4;
    let mut items = Items::new(alloc);
    for index in 0..count {
        items.push(hook_at(note, start + HOOK_SIZE * index))?;
    }
    Ok(Listed {
        items,
        end: start + HOOK_SIZE * count,
    })
}

/// The sites whose list stands at `at`.
pub fn read_sites(alloc: Global, note: &[u8], at: usize) -> Result<Listed<SiteAct>, ElfStop>
    requires { at ≤ length note.now }
    ensures end { IfOk result (λ listed. listed.end ≤ length note.now) }
    ensures fits { IfOk result (λ listed. AllByRecursion (λ n. n < 2 ^ 32) (counted site_words listed.items)) }
    ensures there { IfOk result (λ listed. Lists site_words listed.items (drop at note.now) (drop listed.end note.now)) }
    ensures bad { IfErr result (λ stop. Because stop Note (ListsNone site_words (drop at note.now))) }
{
    let count = count_at(note, at, SITE_SIZE)? as usize;
    let start = at + 4;
    let mut items = Items::new(alloc);
    for index in 0..count {
        let site = word_at(note, start + SITE_SIZE * index);
        let Some(act) = act_of(word_at(note, start + SITE_SIZE * index + 4)) else {
            return Err(BAD);
        };
        items.push(SiteAct { site, act })?;
    }
    Ok(Listed {
        items,
        end: start + SITE_SIZE * count,
    })
}

/// The inferred sinks whose list stands at `at`.
pub fn read_sinks(alloc: Global, note: &[u8], at: usize) -> Result<Listed<u32>, ElfStop>
    requires { at ≤ length note.now }
    ensures end { IfOk result (λ listed. listed.end ≤ length note.now) }
    ensures fits { IfOk result (λ listed. AllByRecursion (λ n. n < 2 ^ 32) (counted sink_words listed.items)) }
    ensures there { IfOk result (λ listed. Lists sink_words listed.items (drop at note.now) (drop listed.end note.now)) }
    ensures bad { IfErr result (λ stop. Because stop Note (ListsNone sink_words (drop at note.now))) }
{
    let count = count_at(note, at, SINK_SIZE)? as usize;
    let start = at + 4;
    let mut items = Items::new(alloc);
    for index in 0..count {
        items.push(word_at(note, start + SINK_SIZE * index))?;
    }
    Ok(Listed {
        items,
        end: start + SINK_SIZE * count,
    })
}

/// The skips whose list stands at `at`.
pub fn read_skips(alloc: Global, note: &[u8], at: usize) -> Result<Listed<SkipAt>, ElfStop>
    requires { at ≤ length note.now }
    ensures end { IfOk result (λ listed. listed.end ≤ length note.now) }
    ensures fits { IfOk result (λ listed. AllByRecursion (λ n. n < 2 ^ 32) (counted skip_words listed.items)) }
    ensures there { IfOk result (λ listed. Lists skip_words listed.items (drop at note.now) (drop listed.end note.now)) }
    ensures bad { IfErr result (λ stop. Because stop Note (ListsNone skip_words (drop at note.now))) }
{
    let count = count_at(note, at, SKIP_SIZE)? as usize;
    let start = at + 4;
    let mut items = Items::new(alloc);
    for index in 0..count {
        items.push(skip_at(note, start + SKIP_SIZE * index))?;
    }
    Ok(Listed {
        items,
        end: start + SKIP_SIZE * count,
    })
}
