// Slots, by which the declarations of a name are found.
ghost use Rattle.std.specs.Prelude.{◌≡◌, ◌<◌, ℕ};
ghost use Rattle.expr_parts.specs.ViewDecls.{mixed, slot, is_named, in_slot, last_below, last_of};
ghost use Rattle.expr_parts.specs.ViewDecls.{at_number, AreBefore};

use crate::scope::Decl;

/// How many slots there are: a prime, so that each byte of a name counts.
pub const SLOTS: u32 = 65_521;

fn mix(number: u32, byte: u8) -> u32
    ensures is { result ≡ mixed number byte }
    ensures below { result < SLOTS }
{
    ((u64::from(number) * 31 + u64::from(byte)) % u64::from(SLOTS)) as u32
}

/// The slot of a name.
pub fn slot_of(name: &[u8]) -> u32
    ensures is { result ≡ slot name.now }
    ensures below { result < SLOTS }
{
    let mut sum = 0;
    for b in name {
        sum = mix(sum, *b);
    }
    sum
}

/// What stands at a number, None too where it is beyond the list.
pub fn number_at(numbers: &[Option<u32>], i: u32) -> Option<u32>
    ensures { result ≡ at_number numbers.now i }
{
    numbers.get(i as usize).copied().flatten()
}

// Whether the declaration at a number has this name.
fn is_named(decls: &[Decl], name: &[u8], number: u32) -> bool
    ensures { result ≡ is_named decls.now name.now number }
{
    match decls.get(number as usize) {
        Some(decl) => name == decl.name.as_slice(),
        None => false,
    }
}

/// The last declaration of a name, from one of its slot on.
pub fn named_from(
    decls: &[Decl],
    befores: &[Option<u32>],
    name: &[u8],
    first: Option<u32>,
) -> Option<u32>
    requires { AreBefore decls.now befores.now }
    ensures { (n : ℕ) → first ≡ last_below (in_slot decls.now (slot name.now)) n
        → result ≡ last_of decls.now name.now n }
{
    let mut next = first;
    while let Some(number) = next {
        if is_named(decls, name, number) {
            return Some(number);
        }
        next = number_at(befores, number);
    }
    None
}
