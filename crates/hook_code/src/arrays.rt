// How many elements arrays have.
ghost use Rattle.std.specs.Prelude.{◌≡◌, ◌<◌, ◌^◌, ℕ};
ghost use Rattle.nim_types.specs.declared.types.TypeDef.TheVariants as entries;
ghost use Rattle.hook_code.specs.Kept.{AreShort};

use nim_types::{TypeDef, TypeTable};

// The number of elements in an entry has 32 bits.
fn is_short(entry: &TypeDef)
    ensures { (n of : ℕ) → entry.now ≡ entries.Array n of → n < 2 ^ 32 }
{
    if let TypeDef::Array { len, .. } = entry {
        let _len = *len;
    }
}

/// Arrays have fewer elements than there are words, since the numbers of a table have 32 bits.
pub fn arrays_are_short(types: &TypeTable)
    ensures { AreShort types.now }
{
    for ty in 0..types.count() {
        is_short(types.get(ty));
    }
}
