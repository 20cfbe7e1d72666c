// How often the instructions of a built program are carried out.
use crate::text::Text;
use arc_base::Memory;
use elf32::read;
use rv32_isa::{CODE_AT, Machine, Stepped, step};
use std::alloc::Global;

/// What stands before and behind the number in the name of a part.
const FRONT: &str = "at most ";

const BACK: &str = " visits";

/// The most steps that are looked at.
const MOST_STEPS: u32 = 100_000;

/// The bytes of an instruction.
const WORD: u32 = 4;

/// The number in the name of a part that asks for visits.
pub fn most_of(name: &str) -> Option<u32> {
    let digits = name.strip_prefix(FRONT)?.strip_suffix(BACK)?;
    digits.parse::<u32>().ok()
}

// How often a machine comes to the address of its code to which it comes most often, up to its first call of the environment.
fn most_visits(alloc: Global, machine: Machine, words: usize) -> u32 {
    let mut machine = machine;
    let mut counts = Vec::new(alloc);
    for _ in 0..words {
        let _ = counts.push(0u32);
    }
    let mut most = 0u32;
    let mut goes_on = true;
    for _ in 0..MOST_STEPS {
        let at = machine.pc().saturating_sub(CODE_AT) / WORD;
        if let Some(count) = counts.get_mut(at as usize) {
            *count = count.saturating_add(u32::from(goes_on));
            most = most.max(*count);
        }
        goes_on = goes_on && matches!(step(&mut machine), Stepped::Went);
    }
    most
}

/// Whether the machine on a file comes to no address more often than that, up to its first call of the environment.
pub fn show_visits(alloc: Global, file: &[u8], most: u32, out: &mut Text) {
    let Ok(elf) = read(alloc, file) else {
        out.say("no file");
        return;
    };
    match Machine::start(alloc, &elf.image) {
        Ok(machine) => {
            let words = elf.image.code.as_slice().len() / WORD as usize;
            let is_within = most_visits(alloc, machine, words) <= most;
            out.say(if is_within { "yes" } else { "no" });
        }
        Err(Memory) => out.cut_unless(false),
    }
    drop(elf);
}
