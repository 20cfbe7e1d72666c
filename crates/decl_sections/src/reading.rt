// The definitions of a section, one after another.
ghost use Rattle.std.specs.Prelude.{◌≡◌, ◌<◌, ◌≤◌, ◌+◌, ◌++◌, ◌∷◌, [], ℕ, List, suc, pos, drop, map};
ghost use Rattle.std.specs.Prelude.{false, length, slice_get, Some, Ok};
ghost use Rattle.std.specs.Prelude.{if◌then◌else◌, IfOk, IfErr, OnOk};
ghost use Rattle.std.specs.HashSet.{contains};
ghost use Rattle.arc_base.specs.declared.place.Stop.TheVariants as Stop;
ghost use Rattle.arc_base.specs.Refusal.{Answers, and_then};
ghost use Rattle.indent_scanner.specs.Words.{normal};
ghost use Rattle.nim_tree.specs.Types.{Declaration, declaration_of, body_of};
ghost use Rattle.nim_types.specs.Types as type;
ghost use Rattle.nim_types.specs.Types.{Ty, Key, Facts, same_text};
ghost use Rattle.nim_types.specs.Table.{type_at, facts_in};
ghost use Rattle.expr_parts.specs.declared.scope.Decl.{Decl};
ghost use Rattle.expr_parts.specs.View.{Under, Grown, env_of, entry_of, DeclsWithin};
ghost use Rattle.expr_parts.specs.ViewReady.{IsReady};
ghost use Rattle.decl_rules.specs.State.{State};
ghost use Rattle.decl_rules.specs.Meanings.{key_of};
ghost use Rattle.decl_rules.specs.Written.{later};
ghost use Rattle.decl_rules.specs.Sections.{Section, new_in_section, if_single, seen_members};
ghost use Rattle.decl_rules.specs.Sections.{declaration_rule, declarations_rule, none_read};
ghost use Rattle.decl_written.specs.ViewWritten.{HasNames};
ghost use Rattle.decl_types.specs.ViewNodes.{names_env_of};
ghost use Rattle.decl_sections.specs.ViewBodies.{IsDeclared, member_entries, said_by};
ghost use Rattle.decl_types.specs.ViewKnown.{Kept, key_by, InOrder, IsSound, Holds};
ghost use Rattle.decl_types.specs.ViewKnown.{KnownBelow, HasType};
ghost use Rattle.decl_types.specs.ViewMarks.{Stuck, is_enum};
ghost use Rattle.decl_sections.specs.ViewSpelled.{Outer, NumbersBelow};
ghost use Rattle.decl_sections.specs.ViewSections.{members_in, said_in, Leads};
ghost use Rattle.decl_types.specs.ViewScoped.{KnowsAll};
ghost use Rattle.decl_types.specs.ViewMarks.{is_unknown};
ghost use Rattle.decl_sections.specs.ViewWalk.{Framed, StageOf, member_decl};

use crate::bodies::{Declared, body, check_single, new_in_section, new_members};
use crate::starting::{Frame, Reading};
use arc_base::{Bytes, Items, Memory, Stop};
use decl_types::knowing::{definition_at, know_all, known_type};
use decl_types::known::{Definition, Meaning};
use decl_types::nodes::Names;
use expr_parts::scope::{Decl, Scope, What};
use expr_steps::given::behind;
use nim_program::Literal;
use nim_tree::{TypeBody, TypeDef as Tree};
use nim_types::{TypeId, TypeTable};
use std::alloc::Global;
use std::collections::HashSet;

// ---- what a definition says

// The name of a definition is new, and it has no type parameters.
fn check_head(alloc: Global, scope: &Scope, declared: &mut Declared, def: &Tree) -> Result<(), Stop>
    ensures answers { (names : List (List ℕ)) (st : State) → HasNames declared.old.seen names
        → IsDeclared st declared.old scope.now → Answers (λ _. tt) (and_then (new_in_section st
        names def.now.name.at (normal def.now.name.text)) (λ _. if_single
        def.now.parameters.items def.now.name.at)) result }
    ensures seen { OnOk result ((names : List (List ℕ)) → HasNames declared.old.seen names
        → HasNames declared.new.seen (normal def.now.name.text ∷ names)) }
    ensures outside { declared.new.outside ≡ declared.old.outside }
    ensures start { declared.new.start ≡ declared.old.start }
{
    match new_in_section(
        alloc,
        scope,
        declared,
        def.name.at,
        def.name.text.as_slice(),
    ) {
        Ok(_name) => {}
        Err(stop) => return Err(stop),
    }
    check_single(def.parameters.as_slice(), def.name.at)
}

// The members of an enum, which are new.
fn members_of(
    alloc: Global,
    scope: &Scope,
    declared: &mut Declared,
    body: &TypeBody,
) -> Result<Items<Bytes>, Stop>
    ensures answers { (names : List (List ℕ)) (key : Key) (st : State)
        → HasNames declared.old.seen names → IsDeclared st declared.old scope.now
        → Answers (member_entries (type.enum key) 0) (members_in st names key (body_of body.now))
        result }
    ensures seen { IfOk result (λ all. (names : List (List ℕ)) → HasNames declared.old.seen names
        → HasNames declared.new.seen (all ++ names)) }
    ensures outside { declared.new.outside ≡ declared.old.outside }
    ensures start { declared.new.start ≡ declared.old.start }
{
    match body {
        TypeBody::Enum { members, .. } => {
            new_members(alloc, scope, declared, members.as_slice())
        }
        TypeBody::Object { .. } | TypeBody::Distinct { .. } | TypeBody::Alias(_) => {
            Ok(Items::new(alloc))
        }
    }
}

// What a definition says.
fn read_definition(
    alloc: Global,
    types: &mut TypeTable,
    scope: &Scope,
    names: &Names,
    def: &Tree,
) -> Result<Definition, Stop>
    requires { IsReady types.old scope.now }
    ensures grown { Grown types.old types.new }
    ensures answers { (ts : List Ty) (facts before : Facts) (keys : List Key)
        → Under types.new ts facts → Answers (said_in ts keys) (said_by (later (env_of ts facts
        scope.now)) (names_env_of ts before keys names.now scope.now) (body_of def.now.body))
        result }
    ensures key { IfOk result (λ d. key_by d ≡ key_of (declaration_of def.now)) }
    ensures ordered { IfOk result InOrder }
    ensures sound { (n m : ℕ) → Outer n m names.now scope.now.decls → IfOk result (IsSound n m) }
{
    let name = Bytes::from_slice(alloc, def.name.text.as_slice())?;
    let mut nodes = Vec::new(alloc);
    match body(alloc, types, scope, names, &mut nodes, &def.body) {
        Ok(meaning) => Ok(Definition {
            name,
            at: def.name.at,
            meaning,
            nodes,
        }),
        Err(stop) => Err(stop),
    }
}

// ---- members of enums

fn ordinal(number: u32) -> Result<i32, Memory>
    ensures { IfOk result (λ z. z ≡ pos number) }
{
    match i32::try_from(number) {
        Ok(z) => Ok(z),
        Err(_) => Err(Memory),
    }
}

// Declares a member, unless a type of the section has its name.
fn declare_member(
    alloc: Global,
    scope: &mut Scope,
    all: &HashSet<Bytes>,
    ty: TypeId,
    number: u32,
    name: &[u8],
) -> Result<(), Stop>
    ensures decls { OnOk result (scope.new.decls ≡ scope.old.decls
        ++ (if contains same_text all.now name.now then [] else member_decl ty number name.now
        ∷ [])) }
    ensures kinds { scope.new.kinds ≡ scope.old.kinds }
    ensures home { scope.new.home ≡ scope.old.home }
    ensures memory { IfErr result (λ stop. stop ≡ Stop.Memory) }
{
    let name = Bytes::from_slice(alloc, name)?;
    if all.contains(&name) {
        return Ok(());
    }
    let value = Literal::Ordinal(ordinal(number)?);
    scope.declare(Decl {
        name,
        what: What::Constant { ty, value },
    })?;
    Ok(())
}

// Declares the members of an enum.
fn declare_members(
    alloc: Global,
    scope: &mut Scope,
    all: &HashSet<Bytes>,
    ty: TypeId,
    members: &[Bytes],
) -> Result<(), Stop>
    ensures decls { OnOk result ((seen : List Decl) × (scope.new.decls ≡ scope.old.decls ++ seen)
        × ((n : ℕ) → ty < n → DeclsWithin n seen)
        × ((ts : List Ty) (types : List (List ℕ)) → HasNames all.now types
        → map (entry_of ts) seen ≡ seen_members types
        (member_entries (type_at ts ty) 0 members.now))) }
    ensures kinds { scope.new.kinds ≡ scope.old.kinds }
    ensures home { scope.new.home ≡ scope.old.home }
    ensures memory { IfErr result (λ stop. stop ≡ Stop.Memory) }
{
    let mut number = 0_u32;
    for member in members {
        declare_member(alloc, scope, all, ty, number, member.as_slice())?;
        number = behind(number)?;
    }
    Ok(())
}

// Declares the members of the definition that has been read last, where it is an enum.
fn take_members(
    alloc: Global,
    scope: &mut Scope,
    frame: &Frame,
    reading: &Reading,
    members: &[Bytes],
) -> Result<(), Stop>
    requires read { 0 < length reading.now.read.items }
    requires room { length reading.now.read.items ≤ length reading.now.known.items }
    requires stuck { Stuck (map is_unknown reading.now.known.items) reading.now.read.items }
    ensures decls { OnOk result ((seen : List Decl) × (scope.new.decls ≡ scope.old.decls ++ seen)
        × ((n : ℕ) → KnownBelow n reading.now.known.items → DeclsWithin n seen)
        × ((ts : List Ty) (section : List (List ℕ)) (before : List Definition) (d : Definition)
        → HasNames frame.now.all section → reading.now.read.items ≡ before ++ d ∷ []
        → ((id : ℕ) → slice_get reading.now.known.items (length before) ≡ Some (Some id)
        → HasType d d.meaning (type_at ts id))
        → (is_enum d.meaning ≡ false → members.now ≡ [])
        → map (entry_of ts) seen ≡ seen_members section
        (member_entries (type.enum (key_by d)) 0 members.now))) }
    ensures kinds { scope.new.kinds ≡ scope.old.kinds }
    ensures home { scope.new.home ≡ scope.old.home }
    ensures memory { IfErr result (λ stop. stop ≡ Stop.Memory) }
{
    let read = reading.read.as_slice();
    let last = read.len() - 1;
    match &definition_at(read, last).meaning {
        Meaning::Enum(_) => {
            let ty = known_type(reading.known.as_slice(), last);
            declare_members(alloc, scope, &frame.all, ty, members)
        }
        Meaning::Object { .. } | Meaning::Distinct(_) | Meaning::Alias(_) => Ok(()),
    }
}

// ---- definitions

// Takes up the next definition, and what becomes known with it.
fn take_up(
    alloc: Global,
    types: &mut TypeTable,
    scope: &mut Scope,
    frame: &Frame,
    reading: &mut Reading,
    definition: Definition,
) -> Result<(), Stop>
    requires room { length reading.old.read.items < length reading.old.known.items }
    requires holds { Holds types.old reading.old.known.items reading.old.read.items }
    requires ordered { InOrder definition }
    requires sound { IsSound (length types.old) (length reading.old.known.items) definition }
    ensures kept { Kept types.old types.new }
    ensures ready { IsReady types.old scope.old → OnOk result (IsReady types.new scope.new) }
    ensures read { OnOk result (reading.new.read.items
        ≡ reading.old.read.items ++ definition ∷ []) }
    ensures holds { OnOk result (Holds types.new reading.new.known.items
        reading.new.read.items) }
    ensures knows { OnOk result (KnowsAll types.old types.new scope.old scope.new frame.now.names
        reading.old.known.items reading.new.known.items reading.new.read.items) }
    ensures count { OnOk result (length reading.new.known.items
        ≡ length reading.old.known.items) }
    ensures stuck { OnOk result (Stuck (map is_unknown reading.new.known.items)
        reading.new.read.items) }
    ensures declared { reading.new.declared ≡ reading.old.declared }
    ensures memory { IfErr result (λ stop. stop ≡ Stop.Memory) }
{
    reading.read.push(definition)?;
    know_all(
        alloc,
        types,
        scope,
        &frame.names,
        &mut reading.known,
        reading.read.as_slice(),
    )
}

// Reads one definition.
fn read(
    alloc: Global,
    types: &mut TypeTable,
    scope: &mut Scope,
    frame: &Frame,
    reading: &mut Reading,
    def: &Tree,
) -> Result<(), Stop>
    requires ready { IsReady types.old scope.old }
    requires room { length reading.old.read.items < length reading.old.known.items }
    requires holds { Holds types.old reading.old.known.items reading.old.read.items }
    requires numbers { NumbersBelow (length reading.old.known.items) frame.now.names }
    ensures kept { Kept types.old types.new }
    ensures ready { OnOk result (IsReady types.new scope.new) }
    ensures holds { OnOk result (Holds types.new reading.new.known.items
        reading.new.read.items) }
    ensures stuck { OnOk result (Stuck (map is_unknown reading.new.known.items)
        reading.new.read.items) }
    ensures count { OnOk result (length reading.new.read.items
        ≡ suc (length reading.old.read.items)) }
    ensures known { OnOk result (length reading.new.known.items
        ≡ length reading.old.known.items) }
    ensures leads { (ts : List Ty) (st : State) (all : List Declaration) (old : List Decl)
        (n : ℕ) (s : Section) (rest : List Declaration) → Under types.new ts (facts_in types.new)
        → Framed ts st all old n frame.now
        → drop (length reading.old.read.items) all ≡ declaration_of def.now ∷ rest
        → StageOf ts st all old n types.old scope.old reading.old s
        → Leads (StageOf ts st all old n types.new scope.new reading.new)
        (declaration_rule st all s (declaration_of def.now)) result }
{
    match check_head(alloc, scope, &mut reading.declared, def) {
        Ok(()) => {}
        Err(stop) => return Err(stop),
    }
    let members = match members_of(alloc, scope, &mut reading.declared, &def.body) {
        Ok(members) => members,
        Err(stop) => return Err(stop),
    };
    let definition = match read_definition(alloc, types, scope, &frame.names, def) {
        Ok(definition) => definition,
        Err(stop) => return Err(stop),
    };
    take_up(alloc, types, scope, frame, reading, definition)?;
    take_members(alloc, scope, frame, reading, members.as_slice())
}

/// Reads all definitions.
pub fn read_all(
    alloc: Global,
    types: &mut TypeTable,
    scope: &mut Scope,
    frame: &Frame,
    reading: &mut Reading,
    defs: &[Tree],
) -> Result<(), Stop>
    requires ready { IsReady types.old scope.old }
    requires room { length reading.old.read.items + length defs.now
        ≤ length reading.old.known.items }
    requires holds { Holds types.old reading.old.known.items reading.old.read.items }
    requires numbers { NumbersBelow (length reading.old.known.items) frame.now.names }
    requires stuck { Stuck (map is_unknown reading.old.known.items) reading.old.read.items }
    ensures kept { Kept types.old types.new }
    ensures ready { OnOk result (IsReady types.new scope.new) }
    ensures holds { OnOk result (Holds types.new reading.new.known.items
        reading.new.read.items) }
    ensures stuck { OnOk result (Stuck (map is_unknown reading.new.known.items)
        reading.new.read.items) }
    ensures known { OnOk result (length reading.new.known.items
        ≡ length reading.old.known.items) }
    ensures count { reading.old.read.items ≡ [] → OnOk result (length reading.new.read.items
        ≡ length defs.now) }
    ensures leads { (ts : List Ty) (st : State) (old : List Decl) (n : ℕ)
        → Under types.new ts (facts_in types.new)
        → Framed ts st (map declaration_of defs.now) old n frame.now
        → reading.old.read.items ≡ []
        → StageOf ts st (map declaration_of defs.now) old n types.old scope.old
        reading.old none_read
        → Leads (StageOf ts st (map declaration_of defs.now) old n types.new scope.new
        reading.new) (declarations_rule st (map declaration_of defs.now) none_read
        (map declaration_of defs.now)) result }
{
    for def in defs {
        match read(alloc, types, scope, frame, reading, def) {
            Ok(()) => {}
            Err(stop) => return Err(stop),
        }
    }
    Ok(())
}
