// Numbers, each once.
ghost use Rattle.std.specs.Prelude.{◌≡◌, ◌<◌, ◌≤◌, ℕ, List, [], length, slice_get, OnOk};
ghost use Rattle.number_sets.specs.Numbers.{is_stamped, is_among, with_number, AreStamped};

use arc_base::Memory;
use std::alloc::Global;
use std::marker::Model;

/// Numbers, each once, in the order in which they were added. Contracts see them as a list. All are
/// taken away in one step.
#[derive(Drop)]
pub struct Numbers {
    numbers: Vec<u32>,
    /// By number: the time at which it was added last, or 0. Larger ones were never added.
    stamps: Vec<u32>,
    /// The time, which goes on where all are taken away.
    time: u32,
}

impl Model for Numbers {
    ghost use Rattle.std.specs.Prelude.{List, ℕ};
    ghost use Rattle.std.specs.Coded.{coded_list, coded_ℕ};

    ghost Value = { List ℕ };

    ghost coded = { coded_list coded_ℕ };

    ghost view = { λ t. t.numbers.items };

    ghost use Rattle.number_sets.specs.Numbers.{AreStamped};

    ghost invariant = { λ t. AreStamped t.time t.stamps.items t.numbers.items };
}

// What was never added has this stamp.
const NEVER: u32 = 0;

fn is_stamped(stamps: &[u32], now: u32, number: u32) -> bool
    ensures { result ≡ is_stamped now (slice_get stamps.now number) }
{
    match stamps.get(number as usize) {
        Some(stamp) => *stamp == now,
        None => false,
    }
}

// Stamps of so many numbers at least.
fn make_room(stamps: &mut Vec<u32>, count: usize) -> Result<(), Memory>
    ensures enough { OnOk result (count ≤ length stamps.new.items) }
    ensures kept { (now : ℕ) (numbers : List ℕ) → AreStamped now stamps.old.items numbers
        → AreStamped now stamps.new.items numbers }
{
    while stamps.len() < count {
        stamps.push(NEVER)?;
    }
    Ok(())
}

// The next time, at which nothing was added yet. Where there is none, time begins anew, and all
// stamps are forgotten.
fn next_time(stamps: &mut Vec<u32>, time: u32) -> u32
    ensures { (numbers : List ℕ) → AreStamped time stamps.old.items numbers
        → AreStamped result stamps.new.items [] }
{
    if time == u32::MAX {
        stamps.clear();
        return NEVER + 1;
    }
    time + 1
}

impl Numbers {
    /// No numbers.
    pub fn new(alloc: Global) -> Numbers
        ensures { result ≡ [] }
    {
        Numbers {
            numbers: Vec::new(alloc),
            stamps: Vec::new(alloc),
            time: NEVER + 1,
        }
    }

    /// Takes all away.
    pub fn clear(&mut self)
        ensures { self.new ≡ [] }
    {
        self.numbers.clear();
        self.time = next_time(&mut self.stamps, self.time);
    }

    /// How many there are.
    pub fn count(&self) -> usize
        ensures { result ≡ length self.now }
    {
        self.numbers.len()
    }

    /// The number at an index.
    pub fn get(&self, i: usize) -> u32
        requires { i < length self.now }
        ensures { slice_get self.now i ≡ Some result }
    {
        self.numbers[i]
    }

    /// Whether a number is one of them.
    pub fn has(&self, number: u32) -> bool
        ensures { result ≡ is_among number self.now }
    {
        is_stamped(&self.stamps, self.time, number)
    }

    /// Adds a number at the end, if it isn't one of them.
    pub fn add(&mut self, number: u32) -> Result<(), Memory>
        ensures { OnOk result (self.new ≡ with_number number self.old) }
    {
        if self.has(number) {
            return Ok(());
        }
        let i = number as usize;
        make_room(&mut self.stamps, i + 1)?;
        self.numbers.push(number)?;
        self.stamps[i] = self.time;
        Ok(())
    }
}
