// The walk through a section.
ghost use Rattle.std.specs.Prelude.{◌≡◌, ◌≤◌, ◌+◌, ◌++◌, [], ℕ, List, map, length, OnOk};
ghost use Rattle.arc_base.specs.Refusal.{Answers};
ghost use Rattle.nim_tree.specs.Types.{declaration_of};
ghost use Rattle.nim_types.specs.Types.{Ty};
ghost use Rattle.nim_types.specs.Table.{facts_in};
ghost use Rattle.expr_parts.specs.declared.scope.Decl.{Decl};
ghost use Rattle.expr_parts.specs.View.{Under, env_of};
ghost use Rattle.expr_parts.specs.ViewReady.{IsReady};
ghost use Rattle.decl_rules.specs.State.{State};
ghost use Rattle.decl_rules.specs.Sections.{section_rule, none_read};
ghost use Rattle.decl_types.specs.ViewKnown.{Kept, Holds};
ghost use Rattle.decl_types.specs.ViewPlaces.{Ascends, AllFar};
ghost use Rattle.decl_sections.specs.ViewSpelled.{NumbersBelow};
ghost use Rattle.decl_sections.specs.ViewWalk.{Framed, StageOf};

use crate::reading::read_all;
use crate::starting::{Frame, Reading, begin};
use arc_base::Stop;
use decl_types::containing::check_contained;
use decl_types::places::{are_ascending, are_far, position};
use decl_types::sizing::check_sizes;
use expr_parts::scope::Scope;
use nim_tree::TypeDef as Tree;
use nim_types::TypeTable;
use std::alloc::Global;

// The definitions, behind what is declared before them.
fn walk(
    alloc: Global,
    types: &mut TypeTable,
    scope: &mut Scope,
    frame: &Frame,
    reading: &mut Reading,
    defs: &[Tree],
) -> Result<(), Stop>
    requires ready { IsReady types.old scope.old }
    requires none_read { reading.old.read.items ≡ [] }
    requires known { length reading.old.known.items ≡ length defs.now }
    requires numbers { NumbersBelow (length reading.old.known.items) frame.now.names }
    requires holds { Holds types.old reading.old.known.items reading.old.read.items }
    ensures kept { Kept types.old types.new }
    ensures ready { OnOk result (IsReady types.new scope.new) }
    ensures answers { (ts : List Ty) (st : State) (old : List Decl) (n : ℕ)
        → Under types.new ts (facts_in types.new)
        → Framed ts st (map declaration_of defs.now) old n frame.now
        → reading.old.read.items ≡ []
        → StageOf ts st (map declaration_of defs.now) old n types.old scope.old
        reading.old none_read
        → Answers (λ _. env_of ts (facts_in types.new) scope.new)
        (section_rule st (map declaration_of defs.now)) result }
    ensures begins { (ts : List Ty) (st : State) (old : List Decl) (n : ℕ)
        → Under types.new ts (facts_in types.new)
        → Framed ts st (map declaration_of defs.now) old n frame.now
        → reading.old.read.items ≡ []
        → StageOf ts st (map declaration_of defs.now) old n types.old scope.old
        reading.old none_read
        → OnOk result ((more : List Decl) × (scope.new.decls ≡ old ++ more)) }
{
    match read_all(alloc, types, scope, frame, reading, defs) {
        Ok(()) => {}
        Err(stop) => return Err(stop),
    }
    match check_contained(alloc, reading.read.as_slice()) {
        Ok(()) => {}
        Err(stop) => return Err(stop),
    }
    check_sizes(
        alloc,
        types,
        reading.known.as_slice(),
        reading.read.as_slice(),
    )
}

// A section whose definitions stand in order, behind all that is declared.
fn ordered(
    alloc: Global,
    types: &mut TypeTable,
    scope: &mut Scope,
    outside: u32,
    defs: &[Tree],
    home: u32,
    last: u64,
) -> Result<(), Stop>
    requires ready { IsReady types.old scope.old }
    requires outside { outside ≤ length scope.old.decls }
    requires ascends { Ascends home last (map declaration_of defs.now) }
    requires far { AllFar home last types.old }
    ensures kept { Kept types.old types.new }
    ensures ready { OnOk result (IsReady types.new scope.new) }
    ensures answers { (ts : List Ty) (st : State) → Under types.new ts (facts_in types.new)
        → st.env ≡ env_of ts (facts_in types.old) scope.old → st.outside ≡ outside
        → Answers (λ _. env_of ts (facts_in types.new) scope.new)
        (section_rule st (map declaration_of defs.now)) result }
    ensures begins { OnOk result ((more : List Decl)
        × (scope.new.decls ≡ scope.old.decls ++ more)) }
{
    let (frame, mut reading) = begin(alloc, scope, outside, defs)?;
    match walk(alloc, types, scope, &frame, &mut reading, defs) {
        Ok(()) => {
            let _count = types.count();
            Ok(())
        }
        Err(stop) => Err(stop),
    }
}

/// Declares the types of a section, and the members of its enums. The innermost scope's
/// declarations are those from `outside` on.
///
/// # Errors
///
/// The refusal, or want of memory. What has been declared by then stays.
pub fn section(
    alloc: Global,
    types: &mut TypeTable,
    scope: &mut Scope,
    outside: u32,
    defs: &[Tree],
) -> Result<(), Stop>
    requires ready { IsReady types.old scope.old }
    requires outside { outside ≤ length scope.old.decls }
    ensures kept { Kept types.old types.new }
    ensures ready { OnOk result (IsReady types.new scope.new) }
    ensures answers { (ts : List Ty) (st : State) → Under types.new ts (facts_in types.new)
        → st.env ≡ env_of ts (facts_in types.old) scope.old → st.outside ≡ outside
        → Answers (λ _. env_of ts (facts_in types.new) scope.new)
        (section_rule st (map declaration_of defs.now)) result }
    ensures begins { OnOk result ((more : List Decl)
        × (scope.new.decls ≡ scope.old.decls ++ more)) }
{
    let Some(first) = defs.first() else {
        return Ok(());
    };
    // In a source lines are counted from 1, and definitions stand in order, behind all types that
    // are declared before them.
    let home = first.name.at.module;
    let at = position(first.name.at);
    if at == 0 {
        return Err(Stop::Memory);
    }
    let last = at - 1;
    if !are_ascending(defs, home, last) {
        return Err(Stop::Memory);
    }
    if !are_far(types, home, last) {
        return Err(Stop::Memory);
    }
    ordered(alloc, types, scope, outside, defs, home, last)
}
