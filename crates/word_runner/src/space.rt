// Bytes and numbers in memory.
ghost use Rattle.rv32_isa.specs.State.{lies_in, part_of, put_bytes};
ghost use Rattle.rv32_isa.specs.Steps.{size_of};
ghost use Rattle.rv32_isa.specs.Words.{little, word_bytes};
ghost use Rattle.std.specs.Option.{option_copied};
ghost use Rattle.std.specs.Prelude.{IfSome, OnOk, [], length, true, ◌%◌, ◌+◌, ◌<◌, ◌^◌, ◌≡◌, ◌≤◌};
ghost use Rattle.word_code.specs.Memory.{bytes_at, may_fill, may_put, number_at, with_bytes, with_number, with_places, without_places};
ghost use Rattle.word_runner.specs.View.{ok_in, space_is};

use crate::state::Space;
use arc_base::Memory;
use rv32_isa::{HEAP_AT, STACK_AT, STATICS_AT, Size};

// The bytes of a range, where it lies in the region.
#[inline(always)]
fn part<'a>(base: u32, region: &'a [u8], at: usize, len: usize) -> Option<&'a [u8]>
    requires at { at < 2 ^ 32 }
    requires len { len < 2 ^ 32 }
    ensures part { option_copied result ≡ part_of base region.now at len }
    ensures size { IfSome result (λ bytes. length bytes.now ≡ len) }
{
    let base = base as usize;
    if base <= at && at + len <= base + region.len() {
        Some(&region[at - base..at - base + len])
    } else {
        None
    }
}

// Whether a range that isn't empty lies in the region.
#[inline(always)]
fn lies_in(base: u32, region: &[u8], at: usize, len: usize) -> bool
    requires at { at < 2 ^ 32 }
    requires len { len < 2 ^ 63 }
    ensures { result ≡ lies_in base region.now at len }
{
    let base = base as usize;
    base <= at && at + len <= base + region.len()
}

// Writes bytes into a region.
#[inline(always)]
fn put(region: &mut [u8], at: usize, bytes: &[u8])
    requires { at + length bytes.now ≤ length region.old }
    ensures { region.new ≡ put_bytes region.old at bytes.now }
{
    region[at..at + bytes.len()].copy_from_slice(bytes);
}

// The number of so many bytes.
#[inline(always)]
fn number(bytes: &[u8], size: Size) -> u32
    requires { length bytes.now ≡ size_of size }
    ensures number { result ≡ little bytes.now }
{
    match size {
        Size::Byte => u32::from(bytes[0]),
        Size::Half => u32::from(u16::from_le_bytes([bytes[0], bytes[1]])),
        Size::Word => u32::from_le_bytes([bytes[0], bytes[1], bytes[2], bytes[3]]),
    }
}

// How many bytes a number of a size has.
#[inline(always)]
fn size_of(size: Size) -> u32
    ensures { result ≡ size_of size }
{
    match size {
        Size::Byte => 1,
        Size::Half => 2,
        Size::Word => 4,
    }
}

impl Space {
    /// The bytes of a range, where they may be read.
    #[inline(always)]
    pub fn bytes(&self, at: u32, len: u32) -> Option<&[u8]>
        ensures bytes { option_copied result ≡ bytes_at (space_is self.now) at len }
        ensures size { IfSome result (λ bytes. length bytes.now ≡ len) }
    {
        let (at, len) = (at as usize, len as usize);
        if len == 0 {
            return Some(&[]);
        }
        if let Some(found) = part(STATICS_AT, self.statics.as_slice(), at, len) {
            return Some(found);
        }
        if let Some(found) = part(HEAP_AT, self.heap.as_slice(), at, len) {
            return Some(found);
        }
        part(STACK_AT, self.places.as_slice(), at, len)
    }

    /// Whether a range may be written.
    #[inline(always)]
    pub fn may_fill(&self, at: u32, len: u32) -> bool
        ensures { result ≡ may_fill (space_is self.now) at len }
    {
        let (at, len) = (at as usize, len as usize);
        len == 0
            || lies_in(STATICS_AT, self.statics.as_slice(), at, len)
            || lies_in(HEAP_AT, self.heap.as_slice(), at, len)
            || lies_in(STACK_AT, self.places.as_slice(), at, len)
    }

    /// Puts bytes into a range that may be written.
    #[inline(always)]
    pub fn fill(&mut self, at: u32, bytes: &[u8])
        requires { may_fill (space_is self.old) at (length bytes.now) ≡ true }
        ensures { space_is self.new ≡ with_bytes (space_is self.old) at bytes.now }
    {
        let at = at as usize;
        let len = bytes.len();
        if len == 0 {
            return;
        }
        if lies_in(STATICS_AT, self.statics.as_slice(), at, len) {
            put(self.statics.as_mut_slice(), at - STATICS_AT as usize, bytes);
        } else if lies_in(HEAP_AT, self.heap.as_slice(), at, len) {
            put(self.heap.as_mut_slice(), at - HEAP_AT as usize, bytes);
        } else {
            put(self.places.as_mut_slice(), at - STACK_AT as usize, bytes);
        }
    }

    /// The unsigned number at an address.
    #[inline(always)]
    pub fn number(&self, at: u32, size: Size) -> Option<u32>
        ensures { result ≡ ok_in (number_at (space_is self.now) at size) }
    {
        let len = size_of(size);
        if at % len != 0 {
            return None;
        }
        match self.bytes(at, len) {
            None => None,
            Some(bytes) => Some(number(bytes, size)),
        }
    }

    /// Whether a number may be put to an address.
    #[inline(always)]
    pub fn may_put(&self, at: u32, size: Size) -> bool
        ensures { result ≡ may_put (space_is self.now) at size }
    {
        let len = size_of(size);
        at % len == 0 && self.may_fill(at, len)
    }

    /// Puts the lowest bytes of a word to an address to which they may be put.
    #[tactic(auto, unfolding(rv32_isa::specs::Words::word_bytes))]
    #[inline(always)]
    pub fn put_number(&mut self, at: u32, size: Size, word: u32)
        requires { may_put (space_is self.old) at size ≡ true }
        ensures { space_is self.new ≡ with_number (space_is self.old) at size word }
    {
        let bytes = word.to_le_bytes();
        self.fill(at, &bytes[..size_of(size) as usize]);
    }

    /// Behind the places come so many bytes of zeros.
    pub fn extend(&mut self, count: u32) -> Result<(), Memory>
        ensures { OnOk result (space_is self.new ≡ with_places (space_is self.old) count []) }
    {
        self.places.resize(self.places.len() + count as usize, 0)?;
        Ok(())
    }

    /// So many of the places go, the last ones.
    pub fn cut(&mut self, count: u32)
        ensures { space_is self.new ≡ without_places (space_is self.old) count }
    {
        self.places
            .truncate(self.places.len().saturating_sub(count as usize));
    }
}
