// Sections of types as statements.
ghost use Rattle.std.specs.Prelude.{map, Ok};
ghost use Rattle.arc_base.specs.Refusal.{and_then};
ghost use Rattle.nim_tree.specs.Types.{declaration_of};
ghost use Rattle.decl_rules.specs.Sections.{section_rule};
ghost use Rattle.decl_parts.specs.View.{state_of, Ready, Stating};

use arc_base::Stop;
use decl_parts::state::State;
use decl_sections::walk;
use nim_tree::TypeDef;
use std::alloc::Global;

/// The types of a section, which are declared behind it.
pub fn section(alloc: Global, state: &mut State, all: &[TypeDef]) -> Result<(), Stop>
    requires ready { Ready state.old }
    ensures { Stating state.old state.new (λ ts b _. state_of ts b state.new) (λ ts b.
        and_then (section_rule (state_of ts b state.old) (map declaration_of all.now))
        (λ env. Ok (record (state_of ts b state.old) { env = env }))) result }
{
    walk::section(
        alloc,
        &mut state.types,
        &mut state.scope,
        state.outside,
        all,
    )
}
