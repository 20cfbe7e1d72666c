// What the place of a value asks for.
ghost use Rattle.std.specs.Prelude.{◌≡◌, ◌<◌, ℕ, List, length, map, drop, IfOk, IfErr};
ghost use Rattle.arc_base.specs.declared.place.Stop.TheVariants as Stop;
ghost use Rattle.nim_types.specs.Types.{Ty, Facts};
ghost use Rattle.nim_types.specs.Table.{type_at, meant, IsBelow, AllBelow};
ghost use Rattle.nim_program.specs.View.{if_type};
ghost use Rattle.expr_rules.specs.Choices.{branch_want, decided};
ghost use Rattle.expr_rules.specs.Constructions.{types_in};
ghost use Rattle.expr_rules.specs.Demands.{want_in, asks_behind, accepts, first_want, first_type};
ghost use Rattle.expr_rules.specs.Demands.{is_one_of, is_first, is_selector};
ghost use Rattle.expr_parts.specs.View.{Under, want_of, found_of};
ghost use Rattle.expr_parts.specs.ViewReady.{WantWithin};
ghost use Rattle.expr_builds.specs.ViewBuilt.{FoundsWithin};
ghost use Rattle.expr_steps.specs.ViewTyping.{asks_of, AsksWithin, inners, is_inner};

use arc_base::Stop;
use expr_parts::branching::inner_by;
use expr_parts::kinds::{entry, is_ordinal, is_same, is_text};
use expr_parts::parts::Found;
use expr_parts::value::Want;
use nim_types::{TypeDef, TypeId, TypeTable};
use std::alloc::Global;

/// What is asked of values, beside the types of the parts or fields that are left.
#[derive(Clone, Copy)]
pub enum Asks {
    Anything,
    /// A value of the type, for a place that gets the value itself.
    Exactly(TypeId),
    /// What a `case` can select by.
    Selector,
    /// Parts of a tuple: of inner places of the types that are left, and of whatever is behind.
    Parts,
    /// A value of each of the types that are left.
    Fields,
    /// Elements of one type, that of the first, with what is wanted of them.
    Elements(Want, Option<TypeId>),
}

// What the first of inner places wants.
fn first_want(left: &[TypeId]) -> Want
    ensures want { (ts : List Ty) → want_of ts result ≡ first_want (inners ts left.now) }
    ensures field { (ts : List Ty) → want_of ts result ≡ first_type (map (type_at ts) left.now) }
    ensures within { (n : ℕ) → AllBelow n left.now → WantWithin n result }
{
    match left {
        [first, ..] => Want::Inner(*first),
        [] => Want::Nothing,
    }
}

/// What is left behind the first.
pub fn behind_first(left: &[TypeId]) -> &[TypeId]
    ensures { result.now ≡ drop 1 left.now }
{
    match left {
        [_, rest @ ..] => rest,
        [] => left,
    }
}

fn is_selector(def: &TypeDef) -> bool
    ensures { (ts : List Ty) → is_selector (meant ts def.now) ≡ result }
{
    is_ordinal(def) || is_text(def)
}

// Whether an inner place of the type is wanted.
fn is_inner(types: &TypeTable, want: Want, ty: TypeId) -> bool
    requires want { WantWithin (length types.now) want }
    requires ty { ty < length types.now }
    ensures { (ts : List Ty) (facts : Facts) → Under types.now ts facts
        → is_inner (want_of ts want) (type_at ts ty) ≡ result }
{
    match want {
        Want::Inner(first) => is_same(types, first, ty),
        Want::Nothing => false,
        Want::Whole(_) => false,
    }
}

fn is_first(types: &TypeTable, left: &[TypeId], ty: TypeId) -> bool
    requires left { AllBelow (length types.now) left.now }
    requires ty { ty < length types.now }
    ensures { (ts : List Ty) (facts : Facts) → Under types.now ts facts
        → is_first (map (type_at ts) left.now) (type_at ts ty) ≡ result }
{
    is_inner(types, first_want(left), ty)
}

fn is_one_of(types: &TypeTable, first: Option<TypeId>, ty: TypeId) -> bool
    requires first { IsBelow (length types.now) first }
    requires ty { ty < length types.now }
    ensures { (ts : List Ty) (facts : Facts) → Under types.now ts facts
        → is_one_of (if_type ts first) (type_at ts ty) ≡ result }
{
    match first {
        Some(first) => is_same(types, first, ty),
        None => true,
    }
}

/// What is wanted, else an inner place of the type.
pub fn want_or(want: Want, ty: Option<TypeId>) -> Want
    ensures want { (ts : List Ty) → want_of ts result
        ≡ branch_want (decided (want_of ts want) (if_type ts ty)) }
    ensures within { (n : ℕ) → WantWithin n want → IsBelow n ty → WantWithin n result }
{
    match want {
        Want::Nothing => inner_by(ty),
        other => other,
    }
}

impl Asks {
    /// The type that is wanted of the next value.
    pub fn want(self, left: &[TypeId]) -> Want
        ensures want { (ts : List Ty) → want_of ts result ≡ want_in (asks_of ts left.now self) }
        ensures within { (n : ℕ) → AsksWithin n left.now self → WantWithin n result }
    {
        match self {
            Asks::Anything | Asks::Selector => Want::Nothing,
            Asks::Exactly(ty) => Want::Whole(ty),
            Asks::Parts => first_want(left),
            Asks::Fields => first_want(left),
            Asks::Elements(want, ty) => want_or(want, ty),
        }
    }

    /// What is asked behind a value of the type.
    pub fn behind(self, ty: TypeId) -> Asks
        ensures asks { (ts : List Ty) (left : List ℕ) → asks_of ts (drop 1 left) result
            ≡ asks_behind (asks_of ts left self) (type_at ts ty) }
        ensures within { (n : ℕ) (left : List ℕ) → ty < n → AsksWithin n left self
            → AsksWithin n (drop 1 left) result }
    {
        match self {
            Asks::Elements(want, None) => Asks::Elements(want, Some(ty)),
            other => other,
        }
    }

    /// Whether a value of the type is what is asked for.
    pub fn accepts(self, types: &TypeTable, left: &[TypeId], ty: TypeId) -> bool
        requires asks { AsksWithin (length types.now) left.now self }
        requires ty { ty < length types.now }
        ensures { (ts : List Ty) (facts : Facts) → Under types.now ts facts
            → accepts (asks_of ts left.now self) (type_at ts ty) ≡ result }
    {
        match self {
            Asks::Anything | Asks::Parts => true,
            Asks::Exactly(exact) => is_same(types, exact, ty),
            Asks::Selector => is_selector(entry(types, ty)),
            Asks::Fields => is_first(types, left, ty),
            Asks::Elements(_, first) => is_one_of(types, first, ty),
        }
    }
}

// The numbers of the types of fields, in order.
fn type_ids(alloc: Global, fields: &[Found]) -> Result<Vec<TypeId>, Stop>
    ensures ids { IfOk result (λ ids. ids.items ≡ map (λ f. f.ty) fields.now) }
    ensures memory { IfErr result (λ stop. stop ≡ Stop.Memory) }
{
    let mut ids = Vec::new(alloc);
    for field in fields {
        ids.push(field.ty)?;
    }
    Ok(ids)
}

/// The types of fields, in order.
pub fn field_types(alloc: Global, fields: &[Found]) -> Result<Vec<TypeId>, Stop>
    ensures types { IfOk result (λ ids. (ts : List Ty) → map (type_at ts) ids.items
        ≡ types_in (map (found_of ts) fields.now)) }
    ensures within { IfOk result (λ ids. (n : ℕ) → FoundsWithin n fields.now
        → AllBelow n ids.items) }
    ensures memory { IfErr result (λ stop. stop ≡ Stop.Memory) }
{
    type_ids(alloc, fields)
}
