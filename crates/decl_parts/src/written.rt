// Written types in statements and heads.
ghost use Rattle.nim_tree.specs.Types.{written_of};
ghost use Rattle.nim_types.specs.Table.{type_at};
ghost use Rattle.decl_rules.specs.Written.{written_type};
ghost use Rattle.decl_parts.specs.View.{Ready, Typing, TypeWithin};

use crate::state::State;
use arc_base::Stop;
use decl_written::written;
use nim_tree::TypeTree;
use nim_types::TypeId;
use std::alloc::Global;

/// The type that is written, where that isn't in a section of types.
pub fn written_type(alloc: Global, state: &mut State, tree: &TypeTree) -> Result<TypeId, Stop>
    requires ready { Ready state.old }
    ensures { Typing state.old state.new type_at (λ _ env. written_type env
        (written_of tree.now)) TypeWithin result }
{
    written::written_type(alloc, &mut state.types, &state.scope, tree)
}
