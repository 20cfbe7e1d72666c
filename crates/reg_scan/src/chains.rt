// Lists of numbers for each of several keys, each number in one list at most.
use arc_base::Memory;
use std::alloc::Global;

/// For each key the last number that was added, and for each number the one before it.
#[derive(Drop)]
pub(crate) struct Chains {
    last: Vec<Option<usize>>,
    before: Vec<Option<usize>>,
}

/// A value so many times.
pub(crate) fn filled<T: Copy>(alloc: Global, value: T, count: usize) -> Result<Vec<T>, Memory> {
    let mut values = Vec::new(alloc);
    for _ in 0..count {
        values.push(value)?;
    }
    Ok(values)
}

impl Chains {
    /// No numbers, for keys and numbers below these.
    pub(crate) fn new(alloc: Global, keys: usize, numbers: usize) -> Result<Chains, Memory> {
        let last = filled(alloc, None, keys)?;
        let before = filled(alloc, None, numbers)?;
        Ok(Chains { last, before })
    }

    /// Adds a number to the list of a key.
    pub(crate) fn add(&mut self, key: usize, number: usize) {
        let earlier = self.first(key);
        if let Some(place) = self.before.get_mut(number) {
            *place = earlier;
        }
        if let Some(place) = self.last.get_mut(key) {
            *place = Some(number);
        }
    }

    /// The number of a key's list that was added last.
    pub(crate) fn first(&self, key: usize) -> Option<usize> {
        self.last.get(key).copied().flatten()
    }

    /// The one that was added before it.
    pub(crate) fn next(&self, number: usize) -> Option<usize> {
        self.before.get(number).copied().flatten()
    }
}
