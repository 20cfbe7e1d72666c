// Written types: the types that they stand for.
ghost use Rattle.std.specs.Prelude.{◌≡◌, ◌<◌, ◌++◌, [], ℕ, List, length, map, IfOk, IfErr, OnOk};
ghost use Rattle.std.specs.Prelude.{Ok, Err};
ghost use Rattle.arc_base.specs.Refusal.{Answers, and_then};
ghost use Rattle.nim_tree.specs.Terms.{term_of};
ghost use Rattle.nim_tree.specs.Types.{written_of, arguments_of, fields_of, named, array, tuple_of};
ghost use Rattle.nim_tree.specs.Types.{Fields};
ghost use Rattle.nim_types.specs.Types.{Ty, Facts};
ghost use Rattle.nim_types.specs.Table.{type_at, types_at, AllBelow};
ghost use Rattle.expr_parts.specs.View.{Under, Grown, env_of};
ghost use Rattle.expr_parts.specs.ViewReady.{IsReady};
ghost use Rattle.decl_rules.specs.Written.{at_once, spelled, all_spelled, named_by};
ghost use Rattle.decl_rules.specs.Written.{parts_spelled, array_rule, written_type};
ghost use Rattle.decl_rules.specs.Written.{tuple_of as parts_tuple};
ghost use Rattle.decl_written.specs.ViewWritten.{at_once_of, tuple_in, HasNames, GoesOn};
ghost use Rattle.decl_written.specs.ViewWritten.{PartsLeft, with_field};

use crate::lengths::length_value;
use crate::parts::{Parts, new_names, push_all, tuple_type};
use arc_base::{Bytes, Code, Items, Place, Stop};
use expr_builds::written::{array_type, formed_type};
use expr_parts::names::{check_callee, named_type};
use expr_parts::scope::Scope;
use expr_parts::value::refusal;
use indent_scanner::normal_form;
use nim_tree::{Expr, Field, TypeTree};
use nim_types::{TypeId, TypeTable};
use std::alloc::Global;
use std::collections::HashSet;

/// The type that a written type stands for, but in a section of types.
pub fn written_type(
    alloc: Global,
    types: &mut TypeTable,
    scope: &Scope,
    tree: &TypeTree,
) -> Result<TypeId, Stop>
    requires ready { IsReady types.old scope.now }
    ensures grown { Grown types.old types.new }
    ensures answers { (ts : List Ty) (facts : Facts) → Under types.new ts facts
        → Answers (type_at ts) (written_type (env_of ts facts scope.now)
        (written_of tree.now)) result }
    ensures within { IfOk result (λ id. id < length types.new) }
{
    spelled(alloc, types, scope, tree)
}

#[cycle(written)]
fn spelled(
    alloc: Global,
    types: &mut TypeTable,
    scope: &Scope,
    tree: &TypeTree,
) -> Result<TypeId, Stop>
    requires ready { IsReady types.old scope.now }
    ensures grown { Grown types.old types.new }
    ensures answers { (ts : List Ty) (facts : Facts) → Under types.new ts facts
        → Answers (at_once_of ts) (spelled at_once (env_of ts facts scope.now)
        (written_of tree.now)) result }
    ensures within { IfOk result (λ id. id < length types.new) }
{
    match tree {
        TypeTree::Named { at, text, .. } => {
            named(alloc, types, scope, *at, text.as_slice(), tree.arguments())
        }
        TypeTree::Array {
            at,
            length,
            element,
        } => array(alloc, types, scope, *at, length, element),
        TypeTree::Ref { at, .. } => Err(refusal(Code::LeftOut, *at)),
        TypeTree::Tuple { at, .. } => tuple(alloc, types, scope, *at, tree.fields()),
    }
}

#[cycle(written)]
fn named(
    alloc: Global,
    types: &mut TypeTable,
    scope: &Scope,
    at: Place,
    text: &[u8],
    arguments: &[TypeTree],
) -> Result<TypeId, Stop>
    requires ready { IsReady types.old scope.now }
    ensures grown { Grown types.old types.new }
    ensures answers { (ts : List Ty) (facts : Facts) → Under types.new ts facts
        → Answers (at_once_of ts) (spelled at_once (env_of ts facts scope.now)
        (named at text.now (arguments_of arguments.now))) result }
    ensures within { IfOk result (λ id. id < length types.new) }
{
    let name = normal_form(alloc, text)?;
    match check_callee(scope, at, name.as_slice()) {
        Ok(()) => applied(alloc, types, scope, at, text, arguments),
        Err(stop) => Err(stop),
    }
}

// A name that has a meaning, with arguments.
#[cycle(written)]
fn applied(
    alloc: Global,
    types: &mut TypeTable,
    scope: &Scope,
    at: Place,
    text: &[u8],
    arguments: &[TypeTree],
) -> Result<TypeId, Stop>
    requires ready { IsReady types.old scope.now }
    ensures grown { Grown types.old types.new }
    ensures answers { (ts : List Ty) (facts : Facts) → Under types.new ts facts
        → Answers (at_once_of ts) (and_then (all_spelled at_once (env_of ts facts scope.now)
        (arguments_of arguments.now)) (named_by (env_of ts facts scope.now) at text.now)) result }
    ensures within { IfOk result (λ id. id < length types.new) }
{
    match given(alloc, types, scope, arguments) {
        Ok(given) => by_name(alloc, types, scope, at, text, given),
        Err(stop) => Err(stop),
    }
}

// What a name with these types in brackets stands for.
fn by_name(
    alloc: Global,
    types: &mut TypeTable,
    scope: &Scope,
    at: Place,
    text: &[u8],
    given: Vec<TypeId>,
) -> Result<TypeId, Stop>
    requires ready { IsReady types.old scope.now }
    requires given { AllBelow (length types.old) given.items }
    ensures grown { Grown types.old types.new }
    ensures answers { (ts : List Ty) (facts : Facts) → Under types.new ts facts
        → Answers (at_once_of ts) (named_by (env_of ts facts scope.now) at text.now
        (map (at_once_of ts) given.items)) result }
    ensures within { IfOk result (λ id. id < length types.new) }
{
    if given.is_empty() {
        named_type(alloc, scope, at, text)
    } else {
        formed_type(alloc, types, scope, at, text, given)
    }
}

#[cycle(written)]
fn given(
    alloc: Global,
    types: &mut TypeTable,
    scope: &Scope,
    arguments: &[TypeTree],
) -> Result<Vec<TypeId>, Stop>
    requires ready { IsReady types.old scope.now }
    ensures grown { Grown types.old types.new }
    ensures answers { (ts : List Ty) (facts : Facts) → Under types.new ts facts
        → Answers (λ ids. map (at_once_of ts) ids.items) (all_spelled at_once
        (env_of ts facts scope.now) (arguments_of arguments.now)) result }
    ensures within { IfOk result (λ ids. AllBelow (length types.new) ids.items) }
{
    let mut ids = Vec::new(alloc);
    for argument in arguments {
        match spelled(alloc, types, scope, argument) {
            Ok(id) => ids.push(id)?,
            Err(stop) => return Err(stop),
        }
    }
    Ok(ids)
}

#[cycle(written)]
fn array(
    alloc: Global,
    types: &mut TypeTable,
    scope: &Scope,
    at: Place,
    count: &Expr,
    element: &TypeTree,
) -> Result<TypeId, Stop>
    requires ready { IsReady types.old scope.now }
    ensures grown { Grown types.old types.new }
    ensures answers { (ts : List Ty) (facts : Facts) → Under types.new ts facts
        → Answers (at_once_of ts) (spelled at_once (env_of ts facts scope.now)
        (array at (term_of count.now) (written_of element.now))) result }
    ensures within { IfOk result (λ id. id < length types.new) }
{
    match length_value(alloc, types, scope, count) {
        Ok(len) => array_of(alloc, types, scope, at, len, element),
        Err(stop) => Err(stop),
    }
}

#[cycle(written)]
fn array_of(
    alloc: Global,
    types: &mut TypeTable,
    scope: &Scope,
    at: Place,
    len: i32,
    element: &TypeTree,
) -> Result<TypeId, Stop>
    requires ready { IsReady types.old scope.now }
    ensures grown { Grown types.old types.new }
    ensures answers { (ts : List Ty) (facts : Facts) → Under types.new ts facts
        → Answers (at_once_of ts) (and_then (spelled at_once (env_of ts facts scope.now)
        (written_of element.now)) (array_rule at_once (env_of ts facts scope.now) at len)) result }
    ensures within { IfOk result (λ id. id < length types.new) }
{
    match spelled(alloc, types, scope, element) {
        Ok(of) => array_type(types, scope, at, len, of),
        Err(stop) => Err(stop),
    }
}

#[cycle(written)]
fn tuple(
    alloc: Global,
    types: &mut TypeTable,
    scope: &Scope,
    at: Place,
    fields: &[Field],
) -> Result<TypeId, Stop>
    requires ready { IsReady types.old scope.now }
    ensures grown { Grown types.old types.new }
    ensures answers { (ts : List Ty) (facts : Facts) → Under types.new ts facts
        → Answers (at_once_of ts) (spelled at_once (env_of ts facts scope.now)
        (tuple_of at (fields_of fields.now))) result }
    ensures within { IfOk result (λ id. id < length types.new) }
{
    match parts(alloc, types, scope, fields) {
        Ok(parts) => tuple_type(types, at, parts),
        Err(stop) => Err(stop),
    }
}

#[cycle(written)]
fn parts(
    alloc: Global,
    types: &mut TypeTable,
    scope: &Scope,
    fields: &[Field],
) -> Result<Parts, Stop>
    requires ready { IsReady types.old scope.now }
    ensures grown { Grown types.old types.new }
    ensures answers { (ts : List Ty) (facts : Facts) → Under types.new ts facts
        → Answers (tuple_in ts) (and_then (parts_spelled at_once (env_of ts facts scope.now) []
        (fields_of fields.now)) (λ all. Ok (parts_tuple all.parts))) result }
    ensures within { IfOk result (λ parts. AllBelow (length types.new) parts.types) }
{
    let mut seen = HashSet::new(alloc);
    let mut parts = Parts {
        names: Items::new(alloc),
        types: Items::new(alloc),
    };
    for field in fields {
        match group(alloc, types, scope, &mut seen, &mut parts, field) {
            Ok(()) => {}
            Err(stop) => return Err(stop),
        }
    }
    Ok(parts)
}

// With one more group of fields.
#[cycle(written)]
fn group(
    alloc: Global,
    types: &mut TypeTable,
    scope: &Scope,
    seen: &mut HashSet<Bytes>,
    parts: &mut Parts,
    field: &Field,
) -> Result<(), Stop>
    requires ready { IsReady types.old scope.now }
    requires within { AllBelow (length types.old) parts.old.types }
    ensures grown { Grown types.old types.new }
    ensures done { OnOk result ((before : List (List ℕ)) → HasNames seen.old before
        → GoesOn types.new scope.now before field.now parts.old seen.new parts.new) }
    ensures within { OnOk result (AllBelow (length types.new) parts.new.types) }
    ensures refused { IfErr result (λ stop. (before : List (List ℕ)) → HasNames seen.old before
        → (ts : List Ty) (facts : Facts) → Under types.new ts facts → (rest : Fields)
        → Answers (tuple_in ts) (PartsLeft parts.old.names (types_at ts parts.old.types)
        (parts_spelled at_once (env_of ts facts scope.now) before (with_field field.now rest)))
        (Err stop)) }
{
    match new_names(alloc, seen, &mut parts.names, field.names.as_slice()) {
        Ok(()) => group_type(alloc, types, scope, &mut parts.types, field),
        Err(stop) => Err(stop),
    }
}

// The type of a group of fields, for each of them.
#[cycle(written)]
fn group_type(
    alloc: Global,
    types: &mut TypeTable,
    scope: &Scope,
    given: &mut Items<TypeId>,
    field: &Field,
) -> Result<(), Stop>
    requires ready { IsReady types.old scope.now }
    requires within { AllBelow (length types.old) given.old }
    ensures grown { Grown types.old types.new }
    ensures done { OnOk result ((id : ℕ) × (given.new ≡ given.old ++ map (λ _. id)
        field.now.names.items) × ((ts : List Ty) (facts : Facts) → Under types.new ts facts
        → spelled at_once (env_of ts facts scope.now) (written_of field.now.of)
        ≡ Ok (at_once_of ts id))) }
    ensures within { OnOk result (AllBelow (length types.new) given.new) }
    ensures refused { IfErr result (λ stop. (ts : List Ty) (facts : Facts)
        → Under types.new ts facts → Answers (at_once_of ts) (spelled at_once
        (env_of ts facts scope.now) (written_of field.now.of)) (Err stop)) }
{
    match spelled(alloc, types, scope, &field.of) {
        Ok(id) => {
            push_all(given, id, field.names.as_slice())?;
            Ok(())
        }
        Err(stop) => Err(stop),
    }
}
