// How many bytes elements of sequences have.
ghost use Rattle.std.specs.Prelude.{◌≡◌, ◌<◌, ◌^◌, ℕ, OnOk};
ghost use Rattle.nim_types.specs.declared.types.TypeDef.TheVariants as entries;
ghost use Rattle.nim_program.specs.Sizes.{HaveForms};
ghost use Rattle.hook_code.specs.HookCode.{bytes_at};
ghost use Rattle.hook_code.specs.Kept.{HaveSmallElements};

use crate::bytes::bytes_at;
use arc_base::Memory;
use nim_types::{TypeDef, TypeTable};

// The elements of an entry have a size of 32 bits.
fn is_small(types: &TypeTable, entry: &TypeDef) -> Result<(), Memory>
    requires { HaveForms types.now }
    ensures { OnOk result ((of : ℕ) → entry.now ≡ entries.Seq of →
        bytes_at types.now of < 2 ^ 32) }
{
    if let TypeDef::Seq(of) = entry {
        let _bytes = bytes_at(types, *of)?;
    }
    Ok(())
}

/// Elements of sequences have sizes of 32 bits, or there is no memory that has one.
pub fn elements_are_small(types: &TypeTable) -> Result<(), Memory>
    requires { HaveForms types.now }
    ensures { OnOk result (HaveSmallElements types.now) }
{
    for ty in 0..types.count() {
        is_small(types, types.get(ty))?;
    }
    Ok(())
}
