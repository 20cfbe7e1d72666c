// Elements at indexes, and parts of tuples by their numbers.
ghost use Rattle.std.specs.Prelude.{◌≡◌, ◌<◌, ℕ, List, length, slice_get, IfOk, Some};
ghost use Rattle.std.specs.Prelude.{option_map};
ghost use Rattle.arc_base.specs.Refusal.{Answers, and_then};
ghost use Rattle.nim_types.specs.Types.{Ty, Facts};
ghost use Rattle.nim_types.specs.Table.{type_at, types_at, AllBelow, IsBelow};
ghost use Rattle.nim_types.specs.declared.types.TypeDef.TheVariants.{Char};
ghost use Rattle.nim_program.specs.Program.{Number};
ghost use Rattle.nim_program.specs.View.{expr_of, if_type, literal_of};
ghost use Rattle.expr_rules.specs.Answers.{typed_as};
ghost use Rattle.expr_rules.specs.Constants.{if_comes, value_in};
ghost use Rattle.expr_rules.specs.Constructions.{element_of, index_rule, indexed, nth_type};
ghost use Rattle.expr_rules.specs.Constructions.{numbered_part, read_part};
ghost use Rattle.expr_rules.specs.Env.{Env};
ghost use Rattle.expr_parts.specs.View.{KindsIn, Under, env_of, number_of, typed_of, valued_of};
ghost use Rattle.expr_constants.specs.ViewConstants.{behind, natural, tuple_parts};
ghost use Rattle.expr_constants.specs.ViewFixed.{IsFixed};

use crate::constant_rules::constant_at;
use crate::evaluation::index_number;
use arc_base::{Code, Place, Stop};
use expr_parts::kinds::{entry, is_int};
use expr_parts::nodes::type_number;
use expr_parts::parts::{element_of, element_type, read_field};
use expr_parts::scope::Scope;
use expr_parts::value::{Typed, Value, refusal};
use nim_program::{Expr, Literal};
use nim_types::{TypeDef, TypeId, TypeTable};
use std::alloc::Global;

// ---- parts of tuples

// A number that isn't negative.
fn natural(z: i32) -> Option<u32>
    ensures { result ≡ natural z }
{
    if z < 0 {
        return None;
    }
    Some(z.unsigned_abs())
}

fn part_type(parts: &[TypeId], i: u32) -> Option<TypeId>
    ensures { result ≡ slice_get parts.now i }
{
    parts.get(i as usize).copied()
}

fn part_at(
    alloc: Global,
    number: u32,
    at: Place,
    value: Value,
    parts: &[TypeId],
    i: u32,
) -> Result<Expr, Stop>
    ensures answers { (ts : List Ty) → Answers (expr_of ts) (read_part number at
        (valued_of ts value) i (nth_type i (types_at ts parts.now))) result }
    ensures within { (n : ℕ) → AllBelow n parts.now → IfOk result (λ e. IsBelow n (number_of e)) }
{
    match part_type(parts, i) {
        Some(ty) => read_field(alloc, number, at, value.expr, i, ty),
        None => {
            drop(value);
            Err(refusal(Code::NotTyped, at))
        }
    }
}

fn part_by(
    alloc: Global,
    number: u32,
    at: Place,
    value: Value,
    parts: &[TypeId],
    i: i32,
) -> Result<Expr, Stop>
    ensures answers { (ts : List Ty) → Answers (expr_of ts) (numbered_part number at
        (valued_of ts value) (types_at ts parts.now) (Number i)) result }
    ensures within { (n : ℕ) → AllBelow n parts.now → IfOk result (λ e. IsBelow n (number_of e)) }
{
    match natural(i) {
        Some(i) => part_at(alloc, number, at, value, parts, i),
        None => {
            drop(value);
            Err(refusal(Code::NotTyped, at))
        }
    }
}

// The part of a tuple by a constant number.
fn numbered_part(
    alloc: Global,
    number: u32,
    at: Place,
    value: Value,
    parts: &[TypeId],
    literal: &Literal,
) -> Result<Expr, Stop>
    ensures answers { (ts : List Ty) → Answers (expr_of ts) (numbered_part number at
        (valued_of ts value) (types_at ts parts.now) (literal_of literal.now)) result }
    ensures within { (n : ℕ) → AllBelow n parts.now → IfOk result (λ e. IsBelow n (number_of e)) }
{
    match literal {
        Literal::Ordinal(i) => part_by(alloc, number, at, value, parts, *i),
        Literal::Text(_) | Literal::Nil | Literal::Parts(_) | Literal::Elements(_) => {
            drop(value);
            Err(refusal(Code::NotTyped, at))
        }
    }
}

// The part of a tuple by a constant.
fn constant_part(
    alloc: Global,
    types: &TypeTable,
    number: u32,
    at: Place,
    value: Value,
    parts: &[TypeId],
    index: &Expr,
) -> Result<Expr, Stop>
    requires { IsFixed types.now (λ ts. expr_of ts index.now) }
    ensures answers { (ts : List Ty) (facts : Facts) → Under types.now ts facts
        → Answers (expr_of ts) (and_then (if_comes at (value_in facts (expr_of ts index.now)))
        (numbered_part number at (valued_of ts value) (types_at ts parts.now))) result }
    ensures within { (n : ℕ) → AllBelow n parts.now → IfOk result (λ e. IsBelow n (number_of e)) }
{
    match constant_at(alloc, types, at, index) {
        Ok(literal) => numbered_part(alloc, number, at, value, parts, &literal),
        Err(stop) => {
            drop(value);
            Err(stop)
        }
    }
}

// ---- both

// The types of a tuple's parts.
fn tuple_parts(def: &TypeDef) -> Option<&[TypeId]>
    ensures { option_map (λ ps. ps.now) result ≡ tuple_parts def.now }
{
    match def {
        TypeDef::Tuple { parts, .. } => Some(parts.as_slice()),
        _ => None,
    }
}

// The element at an index, of a type where it has elements.
fn element_at(
    alloc: Global,
    types: &TypeTable,
    number: u32,
    at: Place,
    value: Value,
    index: Value,
    ty: Option<TypeId>,
) -> Result<Expr, Stop>
    requires { IsFixed types.now (λ ts. expr_of ts index.expr) }
    ensures answers { (ts : List Ty) (facts : Facts) (k : ℕ) → Under types.now ts facts
        → Answers (λ e. typed_as (expr_of ts e) k) (element_of facts number k at
        (valued_of ts value) (valued_of ts index) (if_type ts ty)) result }
    ensures number { IfOk result (λ e. number_of e ≡ ty) }
{
    match index_number(alloc, types, &index.expr) {
        Ok(constant) => element_of(alloc, number, at, value, index, constant, ty),
        Err(_) => {
            drop(value);
            drop(index);
            Err(Stop::Memory)
        }
    }
}

fn read(
    alloc: Global,
    types: &TypeTable,
    chars: TypeId,
    number: u32,
    at: Place,
    value: Value,
    index: Value,
) -> Result<Expr, Stop>
    requires chars { slice_get types.now chars ≡ Some Char }
    requires value { value.ty < length types.now }
    requires index { IsFixed types.now (λ ts. expr_of ts index.expr) }
    ensures answers { (ts : List Ty) (env : Env) (k : ℕ) → Under types.now ts env.facts
        → Answers (λ e. typed_as (expr_of ts e) k) (indexed env number k k at (valued_of ts value)
        (type_at ts value.ty) (valued_of ts index)) result }
    ensures within { IfOk result (λ e. IsBelow (length types.now) (number_of e)) }
{
    let def = entry(types, value.ty);
    match tuple_parts(def) {
        Some(parts) => {
            let part = constant_part(alloc, types, number, at, value, parts, &index.expr);
            drop(index);
            part
        }
        None => element_at(
            alloc,
            types,
            number,
            at,
            value,
            index,
            element_type(chars, def),
        ),
    }
}

// The first number behind the nodes: the index of a tuple is no node.
fn behind(def: &TypeDef, behind_value: u32, behind_index: u32) -> u32
    ensures { result ≡ behind (tuple_parts def.now) behind_value behind_index }
{
    match tuple_parts(def) {
        Some(_) => behind_value,
        None => behind_index,
    }
}

/// The element at an index, or the part of a tuple by its number, whose index is no node. The first
/// numbers behind the nodes of the value and of the index are given.
pub fn index_rule(
    alloc: Global,
    types: &TypeTable,
    scope: &Scope,
    number: u32,
    behind_value: u32,
    behind_index: u32,
    at: Place,
    value: Value,
    index: Value,
) -> Result<Typed, Stop>
    requires kinds { KindsIn types.now scope.now.kinds }
    requires value { value.ty < length types.now }
    requires index { index.ty < length types.now }
    requires fixed { IsFixed types.now (λ ts. expr_of ts index.expr) }
    ensures answers { (ts : List Ty) (facts : Facts) → Under types.now ts facts
        → Answers (typed_of ts) (index_rule (env_of ts facts scope.now) number behind_value
        behind_index at (valued_of ts value) (valued_of ts index)) result }
    ensures number { IfOk result (λ t. number_of t.expr ≡ t.ty) }
    ensures within { IfOk result (λ t. IsBelow (length types.now) t.ty) }
{
    if !is_int(entry(types, index.ty)) {
        drop(value);
        drop(index);
        return Err(refusal(Code::NotTyped, at));
    }
    let next = behind(entry(types, value.ty), behind_value, behind_index);
    match read(alloc, types, scope.kinds.char, number, at, value, index) {
        Ok(expr) => {
            let ty = type_number(&expr);
            Ok(Typed { expr, ty, next })
        }
        Err(stop) => Err(stop),
    }
}
