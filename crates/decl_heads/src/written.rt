// Types that are written, under what is known there.
ghost use Rattle.std.specs.Prelude.{option_map, Some};
ghost use Rattle.nim_tree.specs.Types.{written_of};
ghost use Rattle.nim_types.specs.Table.{IsBelow};
ghost use Rattle.nim_program.specs.View.{if_type};
ghost use Rattle.decl_rules.specs.Written.{if_written};
ghost use Rattle.decl_parts.specs.View.{Ready, Typing};

use arc_base::Stop;
use decl_parts::state::State;
use decl_parts::written::written_type;
use nim_tree::TypeTree;
use nim_types::TypeId;
use std::alloc::Global;

fn some_type(alloc: Global, state: &mut State, tree: &TypeTree) -> Result<Option<TypeId>, Stop>
    requires ready { Ready state.old }
    ensures { Typing state.old state.new if_type (λ ts env. if_written env
        (Some (written_of tree.now))) IsBelow result }
{
    match written_type(alloc, state, tree) {
        Ok(ty) => Ok(Some(ty)),
        Err(stop) => Err(stop),
    }
}

/// The type that is written, where one is.
pub fn if_written(
    alloc: Global,
    state: &mut State,
    tree: &Option<TypeTree>,
) -> Result<Option<TypeId>, Stop>
    requires ready { Ready state.old }
    ensures { Typing state.old state.new if_type (λ ts env. if_written env
        (option_map written_of tree.now)) IsBelow result }
{
    match tree {
        Some(tree) => some_type(alloc, state, tree),
        None => Ok(None),
    }
}
