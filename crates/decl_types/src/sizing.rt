// Sizes of the types of a section, and of what is written in it.
ghost use Rattle.std.specs.Prelude.{◌≡◌, ◌<◌, ◌≤◌, ℕ, List, length, map};
ghost use Rattle.arc_base.specs.Refusal.{Answers, and_then};
ghost use Rattle.nim_types.specs.Types.{Ty, Key, Facts};
ghost use Rattle.nim_types.specs.Table.{type_at, AllBelow};
ghost use Rattle.expr_parts.specs.View.{Under, Grown, AllFormed};
ghost use Rattle.decl_rules.specs.Meanings.{KnownType};
ghost use Rattle.decl_rules.specs.Written.{within_size};
ghost use Rattle.decl_rules.specs.Sections.{formed_within, meant_within, sizes_rule};
ghost use Rattle.decl_types.specs.ViewNodes.{formed_nodes};
ghost use Rattle.decl_types.specs.ViewKnown.{IsSound, InOrder, KnownBelow, KnownAs, Untouched, Stands};
ghost use Rattle.decl_types.specs.ViewKnown.{Holds, key_by, meant_by};
ghost use Rattle.decl_types.specs.ViewKnown.{meaning_by};
ghost use Rattle.decl_types.specs.ViewMarks.{is_unknown, Unmarked};
ghost use Rattle.decl_types.specs.ViewReading.{all_defined};
ghost use Rattle.decl_types.specs.ViewScoped.{Reads};
ghost use Rattle.decl_types.specs.ViewSized.{node_sized, nodes_sized};

use crate::knowing::known_type;
use crate::known::{Definition, Meaning, id_at, types_of};
use crate::nodes::Node;
use arc_base::{Code, Place, Stop};
use expr_parts::sizes::is_sized;
use expr_parts::value::refusal;
use nim_types::{TypeId, TypeTable};
use std::alloc::Global;

// Refuses a type that is too large.
fn check_size(types: &TypeTable, id: TypeId, at: Place) -> Result<(), Stop>
    requires formed { AllFormed types.now }
    requires within { id < length types.now }
    ensures { (ts : List Ty) (facts : Facts) → Under types.now ts facts
        → Answers (λ _. tt) (within_size facts at (type_at ts id)) result }
{
    if !is_sized(types, id) {
        return Err(refusal(Code::NotTyped, at));
    }
    Ok(())
}

// Refuses an array or tuple type that is too large.
fn check_node(types: &TypeTable, node: &Node, id: TypeId) -> Result<(), Stop>
    requires formed { AllFormed types.now }
    requires within { id < length types.now }
    ensures { (ts : List Ty) (facts : Facts) → Under types.now ts facts
        → Answers (λ _. tt) (node_sized facts node.now (type_at ts id)) result }
{
    match node {
        Node::Array { at, .. } => check_size(types, id, *at),
        Node::Tuple { at, .. } => check_size(types, id, *at),
        Node::Known(_) | Node::Named(_) | Node::Sequence(_) => Ok(()),
    }
}

// Refuses the first array or tuple type that is too large, where nodes have these types.
fn check_nodes(types: &TypeTable, nodes: &[Node], ids: &[TypeId]) -> Result<(), Stop>
    requires formed { AllFormed types.now }
    requires within { AllBelow (length types.now) ids.now }
    requires count { length ids.now ≡ length nodes.now }
    ensures { (ts : List Ty) (facts : Facts) → Under types.now ts facts
        → Answers (λ _. tt) (nodes_sized facts nodes.now (map (type_at ts) ids.now)) result }
{
    let mut number = 0_usize;
    for node in nodes {
        match check_node(types, node, id_at(ids, number)) {
            Ok(()) => {}
            Err(stop) => return Err(stop),
        }
        number += 1;
    }
    Ok(())
}

// An object by its name; of others what is written is looked at.
fn check_meant(
    types: &TypeTable,
    known: &[Option<TypeId>],
    number: usize,
    definition: &Definition,
) -> Result<(), Stop>
    requires formed { AllFormed types.now }
    requires room { number < length known.now }
    requires all { Unmarked (map is_unknown known.now) }
    requires below { KnownBelow (length types.now) known.now }
    requires stands { Stands types.now known.now number definition.now }
    ensures { (ts : List Ty) (facts : Facts) (keys : List Key) → Under types.now ts facts
        → Answers (λ _. tt) (meant_within facts (key_by definition.now)
        (meant_by ts keys definition.now)) result }
{
    match &definition.meaning {
        Meaning::Object { .. } => {
            let id = known_type(known, number);
            check_size(types, id, definition.at)
        }
        Meaning::Enum(_) | Meaning::Distinct(_) | Meaning::Alias(_) => Ok(()),
    }
}

// Refuses what is too large in a definition.
fn check_definition(
    alloc: Global,
    types: &mut TypeTable,
    known: &[Option<TypeId>],
    number: usize,
    definition: &Definition,
) -> Result<(), Stop>
    requires formed { AllFormed types.old }
    requires ordered { InOrder definition.now }
    requires room { number < length known.now }
    requires all { Unmarked (map is_unknown known.now) }
    requires sound { IsSound (length types.old) (length known.now) definition.now }
    requires known { KnownBelow (length types.old) known.now }
    requires stands { Stands types.old known.now number definition.now }
    ensures grown { Grown types.old types.new }
    ensures answers { (n m : ℕ) (ts : List Ty) (facts : Facts) (keys : List Key)
        (k : List KnownType) → Under types.new ts facts → IsSound n m definition.now
        → KnownAs ts keys known.now (meaning_by k) → Untouched ts n (meaning_by k)
        → Answers (λ _. tt) (and_then (formed_within facts k
        (formed_nodes ts keys definition.now.nodes.items)) (λ _. meant_within facts
        (key_by definition.now) (meant_by ts keys definition.now))) result }
{
    let ids = types_of(alloc, types, known, definition.nodes.as_slice())?;
    match check_nodes(types, definition.nodes.as_slice(), ids.as_slice()) {
        Ok(()) => check_meant(types, known, number, definition),
        Err(stop) => Err(stop),
    }
}

/// Refuses the first type that is too large.
pub fn check_sizes(
    alloc: Global,
    types: &mut TypeTable,
    known: &[Option<TypeId>],
    read: &[Definition],
) -> Result<(), Stop>
    requires formed { AllFormed types.old }
    requires holds { Holds types.old known.now read.now }
    requires room { length read.now ≤ length known.now }
    requires all { Unmarked (map is_unknown known.now) }
    ensures grown { Grown types.old types.new }
    ensures answers { (n m : ℕ) (ts : List Ty) (facts : Facts) (keys : List Key)
        (k : List KnownType) → Under types.new ts facts → Reads n m keys read.now
        → KnownAs ts keys known.now (meaning_by k) → Untouched ts n (meaning_by k)
        → Answers (λ _. tt) (sizes_rule facts k (all_defined ts keys read.now)) result }
{
    let mut number = 0_usize;
    for definition in read {
        match check_definition(alloc, types, known, number, definition) {
            Ok(()) => {}
            Err(stop) => return Err(stop),
        }
        number += 1;
    }
    Ok(())
}
