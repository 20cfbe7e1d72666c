// Tuples, arrays and sequences, and the names of parts.
ghost use Rattle.std.specs.Prelude.{◌≡◌, ◌<◌, ℕ, List, [], length, map, nat_eq, if◌then◌else◌};
ghost use Rattle.std.specs.Prelude.{IfOk, IfErr, Some};
ghost use Rattle.std.specs.Option.{option_copied};
ghost use Rattle.arc_base.specs.declared.place.Stop.TheVariants as Stop;
ghost use Rattle.arc_base.specs.Refusal.{Answers};
ghost use Rattle.nim_tree.specs.Terms.{term_of, parts_of};
ghost use Rattle.nim_types.specs.Types.{Ty, Facts, tuple};
ghost use Rattle.nim_types.specs.Table.{type_at, types_at, AllBelow, IsBelow, IsWithin, meant};
ghost use Rattle.nim_program.specs.View.{expr_of, if_type};
ghost use Rattle.expr_rules.specs.Env.{Env};
ghost use Rattle.expr_rules.specs.Answers.{inner, Valued};
ghost use Rattle.expr_rules.specs.Constructions.{part_names, has_twice, are_names, tuple_type};
ghost use Rattle.expr_rules.specs.Constructions.{make_tuple, tuple_rule, array_want, tuple_wants};
ghost use Rattle.expr_rules.specs.Constructions.{sequence_want, array_rule, sequence_rule};
ghost use Rattle.expr_parts.specs.View.{Under, Grown, AllFormed, want_of, valued_of, number_of};
ghost use Rattle.expr_builds.specs.ViewBuilt.{part_name, or_tuple};
ghost use Rattle.expr_parts.specs.ViewReady.{WantWithin, ValuesWithin};
ghost use Rattle.expr_builds.specs.ViewBuilt.{first_number, IsTuple, TakesTuple, wants_of};
ghost use Rattle.expr_builds.specs.ViewBuilt.{has_names};

use arc_base::{Bytes, Code, Items, Place, Stop};
use expr_parts::branching::wanted;
use expr_parts::elements::{array_of, empty_sequence, sequence_of};
use expr_parts::grow::add;
use expr_parts::kinds::entry;
use expr_parts::nodes::applied;
use expr_parts::sizes::is_sized;
use expr_parts::value::{Value, Want, operands_in, refusal};
use indent_scanner::normal_form;
use nim_program::{Expr, Operation};
use nim_tree::Expr as Tree;
use nim_types::{TypeDef, TypeId, TypeTable};
use std::alloc::Global;
use std::collections::HashSet;

// The name of a part, as it is written.
fn part_name(part: &Tree) -> Option<&Bytes>
    ensures { option_copied result ≡ part_name (term_of part.now) }
{
    match part {
        Tree::Named { text, .. } => Some(text),
        _ => None,
    }
}

/// The names of parts in normal form, up to the first part without a name.
pub fn part_names(alloc: Global, parts: &[Tree]) -> Result<Items<Bytes>, Stop>
    ensures names { IfOk result (λ names. names ≡ part_names (parts_of parts.now)) }
    ensures memory { IfErr result (λ stop. stop ≡ Stop.Memory) }
{
    let mut names = Items::new(alloc);
    for part in parts {
        let Some(text) = part_name(part) else {
            return Ok(names);
        };
        let name = normal_form(alloc, text.as_slice())?;
        names.push(name)?;
    }
    Ok(names)
}

/// Whether one of the names comes twice.
pub fn has_twice(alloc: Global, names: &[Bytes]) -> Result<bool, Stop>
    ensures twice { IfOk result (λ twice. has_twice names.now ≡ twice) }
    ensures memory { IfErr result (λ stop. stop ≡ Stop.Memory) }
{
    let mut seen = HashSet::new(alloc);
    for name in names {
        if !seen.insert(name.as_slice())? {
            return Ok(true);
        }
    }
    Ok(false)
}

fn has_names(names: &[Bytes]) -> bool
    ensures { has_names names.now ≡ result }
{
    match names.split_first() {
        Some(_) => true,
        None => false,
    }
}

// Whether so many parts have names of their own, or none has one.
fn are_names(alloc: Global, names: &[Bytes], count: usize) -> Result<bool, Stop>
    ensures names { IfOk result (λ are. (vs : List Valued) → length vs ≡ count
        → are_names names.now vs ≡ are) }
    ensures memory { IfErr result (λ stop. stop ≡ Stop.Memory) }
{
    if !has_names(names) {
        return Ok(true);
    }
    let named = names.len();
    if named != count {
        return Ok(false);
    }
    let twice = has_twice(alloc, names)?;
    Ok(!twice)
}

// Whether it is a tuple of parts of these types.
fn is_of(def: &TypeDef, parts: &[TypeId]) -> bool
    ensures { IsTuple def.now parts.now result }
{
    match def {
        TypeDef::Tuple { parts: own, .. } => own.as_slice() == parts,
        _ => false,
    }
}

fn if_of(id: TypeId, def: &TypeDef, parts: &[TypeId]) -> Option<TypeId>
    ensures takes { TakesTuple id def.now parts.now result }
{
    if is_of(def, parts) { Some(id) } else { None }
}

// The type that its place gives a tuple without names.
fn taken(types: &TypeTable, want: Want, names: &[Bytes], parts: &[TypeId]) -> Option<TypeId>
    requires want { WantWithin (length types.now) want }
    requires parts { AllBelow (length types.now) parts.now }
    ensures takes { (ts : List Ty) (facts : Facts) → Under types.now ts facts
        → tuple_type names.now (want_of ts want) (types_at ts parts.now)
        ≡ or_tuple (if_type ts result) (tuple names.now (types_at ts parts.now)) }
    ensures within { IsBelow (length types.now) result }
{
    if has_names(names) {
        return None;
    }
    match want {
        Want::Whole(id) => if_of(id, entry(types, id), parts),
        Want::Inner(_) | Want::Nothing => None,
    }
}

// The type of a tuple of parts of these types.
fn tuple_type(
    types: &mut TypeTable,
    want: Want,
    names: Items<Bytes>,
    parts: Items<TypeId>,
) -> Result<TypeId, Stop>
    requires want { WantWithin (length types.old) want }
    requires parts { AllBelow (length types.old) parts }
    ensures grown { Grown types.old types.new }
    ensures means { IfOk result (λ id. (ts : List Ty) (facts : Facts) → Under types.new ts facts
        → type_at ts id ≡ tuple_type names (want_of ts want) (types_at ts parts)) }
    ensures below { IfOk result (λ id. id < length types.new) }
    ensures memory { IfErr result (λ stop. stop ≡ Stop.Memory) }
{
    if let Some(id) = taken(types, want, names.as_slice(), parts.as_slice()) {
        return Ok(id);
    }
    add(types, TypeDef::Tuple { names, parts })
}

// The types of values, in order.
fn types_of(alloc: Global, values: &[Value]) -> Result<Items<TypeId>, Stop>
    ensures types { IfOk result (λ is. is ≡ map (λ v. v.ty) values.now) }
    ensures memory { IfErr result (λ stop. stop ≡ Stop.Memory) }
{
    let mut types = Items::new(alloc);
    for value in values {
        types.push(value.ty)?;
    }
    Ok(types)
}

fn make_tuple(
    alloc: Global,
    types: &TypeTable,
    number: u32,
    at: Place,
    ty: TypeId,
    values: Vec<Value>,
) -> Result<Expr, Stop>
    requires ty { ty < length types.now }
    requires formed { AllFormed types.now }
    ensures answers { (ts : List Ty) (env : Env) → Under types.now ts env.facts
        → Answers (expr_of ts) (make_tuple env number at (type_at ts ty)
        (map (valued_of ts) values.items)) result }
    ensures number { IfOk result (λ e. number_of e ≡ Some ty) }
{
    if !is_sized(types, ty) {
        return Err(refusal(Code::NotTyped, at));
    }
    let parts = operands_in(alloc, values)?;
    Ok(applied(number, at, Some(ty), Operation::Make, parts))
}

/// A tuple of values, one for each of these parts.
pub fn tuple_rule(
    alloc: Global,
    types: &mut TypeTable,
    want: Want,
    number: u32,
    at: Place,
    parts: &[Tree],
    values: Vec<Value>,
) -> Result<Expr, Stop>
    requires want { WantWithin (length types.old) want }
    requires values { ValuesWithin (length types.old) values.items }
    requires formed { AllFormed types.old }
    ensures grown { Grown types.old types.new }
    ensures answers { (ts : List Ty) (env : Env) → Under types.new ts env.facts
        → Answers (expr_of ts) (tuple_rule env (want_of ts want) number at
        (part_names (parts_of parts.now)) (map (valued_of ts) values.items)) result }
    ensures within { IfOk result (λ e. IsBelow (length types.new) (number_of e)) }
{
    let names = part_names(alloc, parts)?;
    let are = are_names(alloc, names.as_slice(), values.len())?;
    if !are {
        return Err(refusal(Code::NotTyped, at));
    }
    let own = types_of(alloc, values.as_slice())?;
    let ty = tuple_type(types, want, names, own)?;
    make_tuple(alloc, types, number, at, ty, values)
}

// The types of the parts of a tuple.
fn parts_in(def: &TypeDef) -> &[TypeId]
    ensures means { (ts : List Ty) → wants_of (meant ts def.now)
        ≡ map (λ id. inner (type_at ts id)) result.now }
    ensures within { (n : ℕ) → IsWithin n def.now → AllBelow n result.now }
{
    match def {
        TypeDef::Tuple { parts, .. } => parts.as_slice(),
        _ => &[],
    }
}

// The numbers again, where they are so many.
fn if_count(alloc: Global, numbers: &[TypeId], count: usize) -> Result<Vec<TypeId>, Stop>
    ensures same { IfOk result (λ all. all.items ≡ if nat_eq (length numbers.now) count
        then numbers.now else []) }
    ensures memory { IfErr result (λ stop. stop ≡ Stop.Memory) }
{
    let mut all = Vec::new(alloc);
    if numbers.len() == count {
        all.extend_from_slice(numbers)?;
    }
    Ok(all)
}

/// What so many parts of a tuple want, by the types of inner places; none where nothing is wanted.
pub fn tuple_wants(
    alloc: Global,
    types: &TypeTable,
    wanted: Option<TypeId>,
    count: usize,
) -> Result<Vec<TypeId>, Stop>
    requires { IsBelow (length types.now) wanted }
    ensures wants { IfOk result (λ all. (ts : List Ty) (facts : Facts) → Under types.now ts facts
        → tuple_wants (if_type ts wanted) count ≡ map (λ id. inner (type_at ts id)) all.items) }
    ensures within { IfOk result (λ all. AllBelow (length types.now) all.items) }
    ensures memory { IfErr result (λ stop. stop ≡ Stop.Memory) }
{
    match wanted {
        Some(ty) => if_count(alloc, parts_in(entry(types, ty)), count),
        None => Ok(Vec::new(alloc)),
    }
}

// What the elements of an array want.
fn elements_of(def: &TypeDef) -> Want
    ensures means { (ts : List Ty) → want_of ts result ≡ array_want (Some (meant ts def.now)) }
    ensures within { (n : ℕ) → IsWithin n def.now → WantWithin n result }
{
    match def {
        TypeDef::Array { of, .. } => Want::Inner(*of),
        _ => Want::Nothing,
    }
}

/// What the elements of an array want, where its place wants a type.
pub fn array_want(types: &TypeTable, wanted: Option<TypeId>) -> Want
    requires wanted { IsBelow (length types.now) wanted }
    ensures means { (ts : List Ty) (facts : Facts) → Under types.now ts facts
        → want_of ts result ≡ array_want (if_type ts wanted) }
    ensures within { WantWithin (length types.now) result }
{
    match wanted {
        Some(ty) => elements_of(entry(types, ty)),
        None => Want::Nothing,
    }
}

// What the elements of a sequence want.
fn items_of(def: &TypeDef) -> Want
    ensures means { (ts : List Ty) → want_of ts result ≡ sequence_want (Some (meant ts def.now)) }
    ensures within { (n : ℕ) → IsWithin n def.now → WantWithin n result }
{
    match def {
        TypeDef::Seq(of) => Want::Inner(*of),
        _ => Want::Nothing,
    }
}

/// What the elements of a sequence want, where its place wants a type.
pub fn sequence_want(types: &TypeTable, wanted: Option<TypeId>) -> Want
    requires wanted { IsBelow (length types.now) wanted }
    ensures means { (ts : List Ty) (facts : Facts) → Under types.now ts facts
        → want_of ts result ≡ sequence_want (if_type ts wanted) }
    ensures within { WantWithin (length types.now) result }
{
    match wanted {
        Some(ty) => items_of(entry(types, ty)),
        None => Want::Nothing,
    }
}

// The type of the first value.
fn first_type(values: &[Value]) -> Option<TypeId>
    ensures first { result ≡ first_number values.now }
    ensures within { (n : ℕ) → ValuesWithin n values.now → IsBelow n result }
{
    match values.first() {
        Some(value) => Some(value.ty),
        None => None,
    }
}

/// An array of values, which have one type.
pub fn array_rule(
    alloc: Global,
    types: &mut TypeTable,
    number: u32,
    at: Place,
    values: Vec<Value>,
) -> Result<Expr, Stop>
    requires values { ValuesWithin (length types.old) values.items }
    requires formed { AllFormed types.old }
    ensures grown { Grown types.old types.new }
    ensures answers { (ts : List Ty) (env : Env) → Under types.new ts env.facts
        → Answers (expr_of ts) (array_rule env number at (map (valued_of ts) values.items)) result }
    ensures within { IfOk result (λ e. IsBelow (length types.new) (number_of e)) }
{
    match first_type(values.as_slice()) {
        Some(of) => array_of(alloc, types, number, at, of, values),
        None => Err(refusal(Code::NotTyped, at)),
    }
}

/// A sequence of values, which have one type.
pub fn sequence_rule(
    alloc: Global,
    types: &mut TypeTable,
    want: Want,
    number: u32,
    at: Place,
    values: Vec<Value>,
) -> Result<Expr, Stop>
    requires want { WantWithin (length types.old) want }
    requires values { ValuesWithin (length types.old) values.items }
    ensures grown { Grown types.old types.new }
    ensures answers { (ts : List Ty) (facts : Facts) → Under types.new ts facts
        → Answers (expr_of ts) (sequence_rule (want_of ts want) number at
        (map (valued_of ts) values.items)) result }
    ensures within { IfOk result (λ e. IsBelow (length types.new) (number_of e)) }
{
    match first_type(values.as_slice()) {
        Some(of) => sequence_of(alloc, types, number, at, of, values),
        None => empty_sequence(alloc, types, number, at, wanted(want)),
    }
}
