// Sizes of types.
ghost use Rattle.std.specs.Prelude.{◌≡◌, ◌<◌, List, length};
ghost use Rattle.nim_types.specs.Types.{Ty, Facts};
ghost use Rattle.nim_types.specs.Table.{type_at};
ghost use Rattle.expr_rules.specs.Sizes.{is_sized};
ghost use Rattle.expr_parts.specs.View.{Under, AllFormed};

use expr_rules::MOST_TYPE_BYTES;
use nim_types::{TypeId, TypeTable};

/// Whether values of the type aren't too large.
pub fn is_sized(types: &TypeTable, id: TypeId) -> bool
    requires within { id < length types.now }
    requires formed { AllFormed types.now }
    ensures { (ts : List Ty) (facts : Facts) → Under types.now ts facts
        → is_sized facts (type_at ts id) ≡ result }
{
    types.size_of(id) <= MOST_TYPE_BYTES
}
