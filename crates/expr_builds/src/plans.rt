// Objects with given fields.
ghost use Rattle.std.specs.Prelude.{◌≡◌, ◌<◌, ℕ, Bool, List, length, map, Some, IfOk, IfErr};
ghost use Rattle.arc_base.specs.declared.place.Stop.TheVariants as Stop;
ghost use Rattle.arc_base.specs.Refusal.{Answers};
ghost use Rattle.nim_tree.specs.Terms.{parts_of};
ghost use Rattle.nim_types.specs.Types.{Ty, Facts, fact_of};
ghost use Rattle.nim_types.specs.Table.{type_at, IsBelow};
ghost use Rattle.nim_program.specs.View.{expr_of, if_type};
ghost use Rattle.expr_rules.specs.Env.{Known, known_next};
ghost use Rattle.expr_rules.specs.Constructions.{object_of, fields_for, plan_for, plan_with, plan_as};
ghost use Rattle.expr_rules.specs.Constructions.{construct_rule, field_or_unknown, field_named};
ghost use Rattle.expr_rules.specs.Constructions.{object_by, part_names};
ghost use Rattle.expr_parts.specs.declared.scope.Scope.{Scope};
ghost use Rattle.expr_parts.specs.View.{Under, env_of, entry_by, found_of, valued_of, number_of};
ghost use Rattle.expr_parts.specs.View.{WhatWithin, DeclsWithin};
ghost use Rattle.expr_builds.specs.ViewBuilt.{plan_of, FoundsWithin, PlanWithin, found_twice};
ghost use Rattle.expr_builds.specs.ViewBuilt.{fields_found, plan_once};

use crate::tuples::part_names;
use arc_base::{Bytes, Code, Items, Place, Stop};
use expr_parts::conversions::has_fields;
use expr_parts::kinds::entry;
use expr_parts::names::{is_built_in, undeclared};
use expr_parts::nodes::constructed;
use expr_parts::parts::{Found, field_named};
use expr_parts::scope::{Scope, What};
use expr_parts::value::{Value, operands_in, refusal};
use indent_scanner::normal_form;
use nim_program::Expr;
use nim_tree::Expr as Tree;
use nim_types::{TypeId, TypeTable};
use std::alloc::Global;
use std::collections::HashSet;

/// An object type and the fields that are given, in order of text.
#[derive(Drop)]
pub struct Plan {
    pub ty: TypeId,
    pub chosen: Vec<Found>,
}

fn field_number(found: &Found) -> u32
    ensures { result ≡ found.now.number }
{
    found.number
}

// Whether a field comes twice.
fn is_twice(alloc: Global, chosen: &[Found]) -> Result<bool, Stop>
    ensures twice { IfOk result (λ twice. found_twice chosen.now ≡ twice) }
    ensures memory { IfErr result (λ stop. stop ≡ Stop.Memory) }
{
    let mut seen = HashSet::new(alloc);
    for found in chosen {
        if !seen.insert(field_number(found))? {
            return Ok(true);
        }
    }
    Ok(false)
}

// The field of a type with a name, else the name is unknown.
fn field_for(
    types: &TypeTable,
    scope: &Scope,
    at: Place,
    ty: TypeId,
    name: &[u8],
) -> Result<Found, Stop>
    requires { ty < length types.now }
    ensures answers { (ts : List Ty) (facts : Facts) → Under types.now ts facts
        → Answers (found_of ts) (field_or_unknown at (field_named (env_of ts facts scope.now)
        name.now (type_at ts ty))) result }
    ensures within { IfOk result (λ f. f.ty < length types.now) }
{
    match field_named(types, scope, name, ty)? {
        Some(found) => Ok(found),
        None => Err(refusal(Code::UnknownName, at)),
    }
}

// The fields of a type with the names, in order, whether or not one comes twice.
fn fields_named(
    alloc: Global,
    types: &TypeTable,
    scope: &Scope,
    at: Place,
    ty: TypeId,
    names: &[Bytes],
) -> Result<Vec<Found>, Stop>
    requires { ty < length types.now }
    ensures answers { (ts : List Ty) (facts : Facts) → Under types.now ts facts
        → Answers (λ fs. map (found_of ts) fs.items) (fields_found (env_of ts facts scope.now) at
        (type_at ts ty) names.now) result }
    ensures within { IfOk result (λ fs. FoundsWithin (length types.now) fs.items) }
{
    let mut chosen = Vec::new(alloc);
    for name in names {
        match field_for(types, scope, at, ty, name.as_slice()) {
            Ok(found) => chosen.push(found)?,
            Err(stop) => return Err(stop),
        }
    }
    Ok(chosen)
}

// The plan of an object type with fields of the names.
fn fields_for(
    alloc: Global,
    types: &TypeTable,
    scope: &Scope,
    at: Place,
    ty: TypeId,
    names: &[Bytes],
) -> Result<Plan, Stop>
    requires { ty < length types.now }
    ensures answers { (ts : List Ty) (facts : Facts) → Under types.now ts facts
        → Answers (plan_of ts) (fields_for (env_of ts facts scope.now) at (type_at ts ty)
        names.now) result }
    ensures within { IfOk result (λ p. PlanWithin (length types.now) p) }
{
    match fields_named(alloc, types, scope, at, ty, names) {
        Ok(chosen) => once(alloc, at, ty, chosen),
        Err(stop) => Err(stop),
    }
}

// A field is given once at most.
fn once(alloc: Global, at: Place, ty: TypeId, chosen: Vec<Found>) -> Result<Plan, Stop>
    ensures answers { (ts : List Ty) → Answers (plan_of ts) (plan_once at (type_at ts ty)
        (found_twice chosen.items) (map (found_of ts) chosen.items)) result }
    ensures same { IfOk result (λ p. (p.ty ≡ ty) × (p.chosen.items ≡ chosen.items)) }
{
    if is_twice(alloc, chosen.as_slice())? {
        return Err(refusal(Code::NotTyped, at));
    }
    Ok(Plan { ty, chosen })
}

// The type of what a name means, where it is an object whose fields are known.
fn object_of(types: &TypeTable, what: &What) -> Option<TypeId>
    requires { WhatWithin (length types.now) what.now }
    ensures object { (ts : List Ty) (facts : Facts) → Under types.now ts facts
        → (scope : Scope) (before : Known) (x : List ℕ)
        → object_of (env_of ts facts scope) (known_next before (entry_by ts x what.now))
        ≡ if_type ts result }
    ensures within { IsBelow (length types.now) result }
{
    match what {
        What::Type(id) => object_at(types, *id),
        _ => None,
    }
}

fn object_at(types: &TypeTable, id: TypeId) -> Option<TypeId>
    requires { id < length types.now }
    ensures object { (ts : List Ty) (facts : Facts) → Under types.now ts facts
        → object_by (type_at ts id) (fact_of facts (type_at ts id)) ≡ if_type ts result }
    ensures within { IsBelow (length types.now) result }
{
    if has_fields(entry(types, id)) {
        Some(id)
    } else {
        None
    }
}

fn plan_with(
    alloc: Global,
    types: &TypeTable,
    scope: &Scope,
    at: Place,
    ty: Option<TypeId>,
    names: &[Bytes],
) -> Result<Plan, Stop>
    requires { IsBelow (length types.now) ty }
    ensures answers { (ts : List Ty) (facts : Facts) → Under types.now ts facts
        → Answers (plan_of ts) (plan_with (env_of ts facts scope.now) at (if_type ts ty)
        names.now) result }
    ensures within { IfOk result (λ p. PlanWithin (length types.now) p) }
{
    match ty {
        Some(ty) => fields_for(alloc, types, scope, at, ty, names),
        None => Err(refusal(Code::NotTyped, at)),
    }
}

// The plan of an object whose type is what its name means.
fn plan_by(
    alloc: Global,
    types: &TypeTable,
    scope: &Scope,
    at: Place,
    what: &What,
    parts: &[Tree],
) -> Result<Plan, Stop>
    requires { WhatWithin (length types.now) what.now }
    ensures answers { (ts : List Ty) (facts : Facts) → Under types.now ts facts
        → (built_in : Bool) (before : Known) (x : List ℕ)
        → Answers (plan_of ts) (plan_as (env_of ts facts scope.now) at built_in
        (known_next before (entry_by ts x what.now)) (part_names (parts_of parts.now))) result }
    ensures within { IfOk result (λ p. PlanWithin (length types.now) p) }
{
    let names = part_names(alloc, parts)?;
    let ty = object_of(types, what);
    plan_with(alloc, types, scope, at, ty, names.as_slice())
}

/// The plan of an object: its type by its name, and the fields by those of the parts.
pub fn plan_for(
    alloc: Global,
    types: &TypeTable,
    scope: &Scope,
    at: Place,
    text: &[u8],
    parts: &[Tree],
) -> Result<Plan, Stop>
    requires { DeclsWithin (length types.now) scope.now.decls }
    ensures answers { (ts : List Ty) (facts : Facts) → Under types.now ts facts
        → Answers (plan_of ts) (plan_for (env_of ts facts scope.now) at text.now
        (part_names (parts_of parts.now))) result }
    ensures within { IfOk result (λ p. PlanWithin (length types.now) p) }
{
    let name = normal_form(alloc, text)?;
    match scope.find(name.as_slice()) {
        Some(decl) => plan_by(alloc, types, scope, at, &decl.what, parts),
        None => Err(undeclared(at, is_built_in(name.as_slice()))),
    }
}

// The numbers of fields, in order.
fn numbers_of(alloc: Global, chosen: &[Found]) -> Result<Items<u32>, Stop>
    ensures numbers { IfOk result (λ is. is ≡ map (λ f. f.number) chosen.now) }
    ensures memory { IfErr result (λ stop. stop ≡ Stop.Memory) }
{
    let mut numbers = Items::new(alloc);
    for found in chosen {
        numbers.push(found.number)?;
    }
    Ok(numbers)
}

/// An object from values of the fields of a plan, in order.
pub fn construct_rule(
    alloc: Global,
    number: u32,
    at: Place,
    plan: Plan,
    values: Vec<Value>,
) -> Result<Expr, Stop>
    ensures expr { IfOk result (λ e. (ts : List Ty) → expr_of ts e ≡ construct_rule number at
        (type_at ts plan.ty) (map (found_of ts) plan.chosen.items)
        (map (valued_of ts) values.items)) }
    ensures number { IfOk result (λ e. number_of e ≡ Some plan.ty) }
    ensures memory { IfErr result (λ stop. stop ≡ Stop.Memory) }
{
    let fields = numbers_of(alloc, plan.chosen.as_slice())?;
    let operands = operands_in(alloc, values)?;
    Ok(constructed(number, at, plan.ty, fields, operands))
}
