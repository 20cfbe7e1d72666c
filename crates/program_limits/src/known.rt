// The types of a program, and what is known of each.
ghost use Rattle.std.specs.Prelude.{◌≡◌, IfOk};
ghost use Rattle.program_limits.specs.Summaries.{AreListed};

use crate::summary::{Summary, all_summaries};
use arc_base::{Items, Memory};
use nim_types::TypeTable;
use std::alloc::Global;

/// The types of a table, and what is known of each.
#[derive(Drop)]
pub struct Known<'a> {
    pub types: &'a TypeTable,
    pub of: Items<Summary>,
    ghost listed: { AreListed types.now of },
}

/// What is known of the types of a table.
pub fn known_of<'a>(alloc: Global, types: &'a TypeTable) -> Result<Known<'a>, Memory>
    ensures { IfOk result (λ known. known.types.now ≡ types.now) }
{
    let of = all_summaries(alloc, types)?;
    Ok(Known { types, of })
}
