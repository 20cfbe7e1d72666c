// Which types of a table have no more levels than they may.
ghost use Rattle.std.specs.Prelude.{◌≡◌, nat_le, map, IfOk};
ghost use Rattle.nim_types.specs.Table.{types_in, facts_in};
ghost use Rattle.program_limits.specs.Summaries.{is_shallow};

use crate::summary::{MOST_LEVELS, Summary, all_summaries};
use arc_base::{Items, Memory};
use nim_types::TypeTable;
use std::alloc::Global;

fn has_few(summary: &Summary) -> bool
    ensures { result ≡ nat_le summary.now.levels MOST_LEVELS }
{
    summary.levels <= MOST_LEVELS
}

// One mark for each type.
fn marks_of(alloc: Global, of: &[Summary]) -> Result<Items<bool>, Memory>
    ensures { IfOk result (λ marks. marks ≡ map (λ s. nat_le s.levels MOST_LEVELS) of.now) }
{
    let mut marks = Items::new(alloc);
    for summary in of {
        marks.push(has_few(summary))?;
    }
    Ok(marks)
}

/// For each type of a table, by number, whether it has at most `MOST_LEVELS` levels.
pub fn shallow_types(alloc: Global, types: &TypeTable) -> Result<Items<bool>, Memory>
    ensures { IfOk result (λ marks. marks ≡ map (is_shallow (facts_in types.now)) (types_in types.now)) }
{
    let of = all_summaries(alloc, types)?;
    marks_of(alloc, of.as_slice())
}
