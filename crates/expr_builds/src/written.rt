// Types that are written with brackets.
ghost use Rattle.std.specs.Prelude.{◌≡◌, ◌<◌, ℕ, List, length, map, Ok, IfOk};
ghost use Rattle.arc_base.specs.Refusal.{Answers, and_then};
ghost use Rattle.nim_types.specs.Types.{Ty, Facts, array};
ghost use Rattle.nim_types.specs.Table.{type_at, AllBelow};
ghost use Rattle.expr_rules.specs.Names.{formed_by, formed_type, length_limit, sized_type};
ghost use Rattle.expr_rules.specs.Names.{array_type, array_by};
ghost use Rattle.expr_rules.specs.Demands.{of_sequences};
ghost use Rattle.expr_parts.specs.View.{Under, Grown, AllFormed, env_of, former_in};
ghost use Rattle.expr_builds.specs.ViewBuilt.{only_one};

use arc_base::{Code, Place, Stop};
use expr_parts::grow::add;
use expr_parts::names::{Former, former_of};
use expr_parts::scope::Scope;
use expr_parts::sizes::is_sized;
use expr_parts::value::refusal;
use expr_rules::MOST_ELEMENTS;
use indent_scanner::normal_form;
use nim_types::{TypeDef, TypeId, TypeTable};
use std::alloc::Global;

fn only_one(given: &[TypeId]) -> Option<TypeId>
    ensures { result ≡ only_one given.now }
{
    match given {
        [one] => Some(*one),
        _ => None,
    }
}

// A sequence of the only type that is given.
fn sequence_type(types: &mut TypeTable, at: Place, given: &[TypeId]) -> Result<TypeId, Stop>
    requires given { AllBelow (length types.old) given.now }
    ensures grown { Grown types.old types.new }
    ensures answers { (ts : List Ty) (facts : Facts) → Under types.new ts facts
        → Answers (type_at ts) (formed_by at of_sequences (map (type_at ts) given.now)) result }
    ensures within { IfOk result (λ id. id < length types.new) }
{
    match only_one(given) {
        Some(of) => add(types, TypeDef::Seq(of)),
        None => Err(refusal(Code::NotTyped, at)),
    }
}

fn formed_by(
    types: &mut TypeTable,
    at: Place,
    former: Former,
    given: &[TypeId],
) -> Result<TypeId, Stop>
    requires given { AllBelow (length types.old) given.now }
    ensures grown { Grown types.old types.new }
    ensures answers { (ts : List Ty) (facts : Facts) → Under types.new ts facts
        → Answers (type_at ts) (formed_by at (former_in former) (map (type_at ts) given.now))
        result }
    ensures within { IfOk result (λ id. id < length types.new) }
{
    match former {
        Former::Sequences => sequence_type(types, at, given),
        Former::Arrays | Former::Nothing => Err(refusal(Code::NotTyped, at)),
    }
}

/// The type of a name with types in brackets.
pub fn formed_type(
    alloc: Global,
    types: &mut TypeTable,
    scope: &Scope,
    at: Place,
    text: &[u8],
    given: Vec<TypeId>,
) -> Result<TypeId, Stop>
    requires given { AllBelow (length types.old) given.items }
    ensures grown { Grown types.old types.new }
    ensures answers { (ts : List Ty) (facts : Facts) → Under types.new ts facts
        → Answers (type_at ts) (formed_type (env_of ts facts scope.now) at text.now
        (map (type_at ts) given.items)) result }
    ensures within { IfOk result (λ id. id < length types.new) }
{
    let name = normal_form(alloc, text)?;
    let former = former_of(scope, name.as_slice());
    formed_by(types, at, former, given.as_slice())
}

// The length of an array, from 1 to the most elements.
fn length_limit(at: Place, len: i32) -> Result<u32, Stop>
    ensures { Answers (λ (n : ℕ). n) (length_limit at len) result }
{
    if len < 1 || len > MOST_ELEMENTS as i32 {
        return Err(refusal(Code::NotTyped, at));
    }
    Ok(len as u32)
}

// An array that isn't too large.
fn sized_array(types: &mut TypeTable, at: Place, len: u32, of: TypeId) -> Result<TypeId, Stop>
    requires of { of < length types.old }
    requires formed { AllFormed types.old }
    ensures grown { Grown types.old types.new }
    ensures answers { (ts : List Ty) (facts : Facts) → Under types.new ts facts
        → Answers (type_at ts) (sized_type facts at (array len (type_at ts of))) result }
    ensures within { IfOk result (λ id. id < length types.new) }
{
    let ty = add(types, TypeDef::Array { len, of })?;
    if !is_sized(types, ty) {
        return Err(refusal(Code::NotTyped, at));
    }
    Ok(ty)
}

fn limited_array(types: &mut TypeTable, at: Place, len: i32, of: TypeId) -> Result<TypeId, Stop>
    requires of { of < length types.old }
    requires formed { AllFormed types.old }
    ensures grown { Grown types.old types.new }
    ensures answers { (ts : List Ty) (facts : Facts) → Under types.new ts facts
        → Answers (type_at ts) (and_then (and_then (length_limit at len)
        (λ n. Ok (array n (type_at ts of)))) (sized_type facts at)) result }
    ensures within { IfOk result (λ id. id < length types.new) }
{
    match length_limit(at, len) {
        Ok(len) => sized_array(types, at, len, of),
        Err(stop) => Err(stop),
    }
}

// An array, where the name makes arrays.
fn array_by(
    types: &mut TypeTable,
    at: Place,
    former: Former,
    len: i32,
    of: TypeId,
) -> Result<TypeId, Stop>
    requires of { of < length types.old }
    requires formed { AllFormed types.old }
    ensures grown { Grown types.old types.new }
    ensures answers { (ts : List Ty) (facts : Facts) → Under types.new ts facts
        → Answers (type_at ts) (and_then (array_by at (former_in former) len (type_at ts of))
        (sized_type facts at)) result }
    ensures within { IfOk result (λ id. id < length types.new) }
{
    match former {
        Former::Arrays => limited_array(types, at, len, of),
        Former::Sequences | Former::Nothing => Err(refusal(Code::NotTyped, at)),
    }
}

/// The type of an array, by its length and the type of its elements.
pub fn array_type(
    types: &mut TypeTable,
    scope: &Scope,
    at: Place,
    len: i32,
    of: TypeId,
) -> Result<TypeId, Stop>
    requires of { of < length types.old }
    requires formed { AllFormed types.old }
    ensures grown { Grown types.old types.new }
    ensures answers { (ts : List Ty) (facts : Facts) → Under types.new ts facts
        → Answers (type_at ts) (array_type (env_of ts facts scope.now) at len (type_at ts of))
        result }
    ensures within { IfOk result (λ id. id < length types.new) }
{
    array_by(types, at, former_of(scope, b"array"), len, of)
}
