// Types that expressions add to the table.
ghost use Rattle.std.specs.Prelude.{◌≡◌, ◌<◌, List, length, IfOk, IfErr};
ghost use Rattle.arc_base.specs.declared.place.Stop.TheVariants as Stop;
ghost use Rattle.nim_types.specs.Types.{Ty, Facts};
ghost use Rattle.nim_types.specs.Table.{type_at, meant, IsWithin};
ghost use Rattle.expr_parts.specs.View.{Under, IsBuilt, Grown};

use arc_base::Stop;
use nim_types::{TypeDef, TypeId, TypeTable};

/// The number of a type that is made of others.
pub fn add(types: &mut TypeTable, def: TypeDef) -> Result<TypeId, Stop>
    requires built { IsBuilt def }
    requires within { IsWithin (length types.old) def }
    ensures grown { Grown types.old types.new }
    ensures below { IfOk result (λ id. id < length types.new) }
    ensures means { IfOk result (λ id. (ts : List Ty) (facts : Facts) → Under types.new ts facts
        → type_at ts id ≡ meant ts def) }
    ensures memory { IfErr result (λ stop. stop ≡ Stop.Memory) }
{
    let _count = types.count();
    Ok(types.add(def)?)
}
