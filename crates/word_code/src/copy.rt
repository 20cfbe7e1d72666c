// Lists of one's own.
ghost use Rattle.std.specs.Prelude.{◌≡◌, IfOk};

use arc_base::{Items, Memory};
use std::alloc::Global;

/// A list of its own with these items.
pub fn copied<T: Copy + Drop>(alloc: Global, items: &[T]) -> Result<Items<T>, Memory>
    ensures { IfOk result (λ copy. copy ≡ items.now) }
{
    let mut copy = Items::new(alloc);
    for item in items {
        copy.push(*item)?;
    }
    Ok(copy)
}
