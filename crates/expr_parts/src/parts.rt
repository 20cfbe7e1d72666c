// Parts of values: fields and elements.
ghost use Rattle.std.specs.Prelude.{◌≡◌, ◌+◌, ◌^◌, ◌<◌, ◌&&◌, ◌||◌, ℕ, Bool, List, length, nat_eq};
ghost use Rattle.std.specs.Prelude.{option_map, IfOk, IfErr, IfSome};
ghost use Rattle.std.specs.Prelude.{Some};
ghost use Rattle.arc_base.specs.declared.place.Stop.TheVariants as Stop;
ghost use Rattle.arc_base.specs.Refusal.{Answers};
ghost use Rattle.indent_scanner.specs.Words.{normal};
ghost use Rattle.nim_types.specs.Types.{Ty, Key, Facts, char, same_text, fields_in, fact_of};
ghost use Rattle.nim_types.specs.Table.{type_at, types_at, meant, fields_with, fields_fact};
ghost use Rattle.nim_types.specs.Table.{IsBelow, IsWithin};
ghost use Rattle.nim_types.specs.Table.{said_of, parts_of, AllBelow};
ghost use Rattle.nim_program.specs.Program.{Read, Field, Element};
ghost use Rattle.nim_program.specs.View.{expr_of, path_of as path_in, if_type};
ghost use Rattle.expr_rules.specs.Answers.{node, typed_as};
ghost use Rattle.expr_rules.specs.Paths.{path_of};
ghost use Rattle.expr_parts.specs.View.{number_of, number_at, field_from, part_from};
ghost use Rattle.expr_parts.specs.View.{found_of, valued_of, Under, env_of};
ghost use Rattle.expr_rules.specs.Env.{Env};
ghost use Rattle.expr_rules.specs.Constants.{index_number};
ghost use Rattle.expr_rules.specs.Constructions.{element_of, element_type, field_among, part_among, field_named};

use crate::kinds::entry;
use crate::names::is_word;
use crate::paths::path_of;
use crate::scope::Scope;
use crate::value::{Value, refusal};
use arc_base::{Bytes, Code, Place, Stop};
use indent_scanner::is_named;
use nim_program::{Expr, Node, Path};
use nim_types::{FieldName, TypeDef, TypeId, TypeTable};
use std::alloc::Global;

/// The field of a value, or the part of a tuple, by its number and its type.
pub fn read_field(
    alloc: Global,
    number: u32,
    at: Place,
    value: Expr,
    field: u32,
    ty: TypeId,
) -> Result<Expr, Stop>
    ensures expr { IfOk result (λ e. (ts : List Ty) → expr_of ts e ≡ Read (Field (node number at)
        (type_at ts ty) (path_of (expr_of ts value)) field)) }
    ensures number { IfOk result (λ e. number_of e ≡ Some ty) }
    ensures memory { IfErr result (λ stop. stop ≡ Stop.Memory) }
{
    let base = path_of(alloc, value)?;
    let path = field_path(alloc, number, at, base, field, ty)?;
    Ok(Expr::Read { path })
}

fn field_path(
    alloc: Global,
    number: u32,
    at: Place,
    base: Path,
    field: u32,
    ty: TypeId,
) -> Result<Path, Stop>
    ensures path { IfOk result (λ p. (ts : List Ty) → path_in ts p ≡ Field (node number at)
        (type_at ts ty) (path_in ts base) field) }
    ensures number { IfOk result (λ p. number_at p ≡ Some ty) }
    ensures memory { IfErr result (λ stop. stop ≡ Stop.Memory) }
{
    let base = Box::new(alloc, base)?;
    Ok(Path::Field {
        node: Node { number, at },
        ty,
        base,
        field,
    })
}

/// The element of a value at an index, with the number of a constant one.
pub fn read_element(
    alloc: Global,
    number: u32,
    at: Place,
    value: Expr,
    index: Expr,
    constant: Option<i32>,
    ty: TypeId,
) -> Result<Expr, Stop>
    ensures expr { IfOk result (λ e. (ts : List Ty) → expr_of ts e ≡ Read (Element (node number at)
        (type_at ts ty) (path_of (expr_of ts value)) (expr_of ts index) constant)) }
    ensures number { IfOk result (λ e. number_of e ≡ Some ty) }
    ensures memory { IfErr result (λ stop. stop ≡ Stop.Memory) }
{
    match path_of(alloc, value) {
        Ok(base) => {
            let path = element_path(alloc, number, at, base, index, constant, ty)?;
            Ok(Expr::Read { path })
        }
        Err(stop) => {
            drop(index);
            Err(stop)
        }
    }
}

/// The element of a value at an index, of a type where it has elements.
pub fn element_of(
    alloc: Global,
    number: u32,
    at: Place,
    value: Value,
    index: Value,
    constant: Option<i32>,
    ty: Option<TypeId>,
) -> Result<Expr, Stop>
    ensures answers { (ts : List Ty) (facts : Facts) (k : ℕ)
        → index_number facts (expr_of ts index.expr) ≡ constant
        → Answers (λ e. typed_as (expr_of ts e) k) (element_of facts number k at
        (valued_of ts value) (valued_of ts index) (if_type ts ty)) result }
    ensures number { IfOk result (λ e. number_of e ≡ ty) }
{
    match ty {
        Some(ty) => read_element(alloc, number, at, value.expr, index.expr, constant, ty),
        None => {
            drop(value);
            drop(index);
            Err(refusal(Code::NotTyped, at))
        }
    }
}

fn element_path(
    alloc: Global,
    number: u32,
    at: Place,
    base: Path,
    index: Expr,
    constant: Option<i32>,
    ty: TypeId,
) -> Result<Path, Stop>
    ensures path { IfOk result (λ p. (ts : List Ty) → path_in ts p ≡ Element (node number at)
        (type_at ts ty) (path_in ts base) (expr_of ts index) constant) }
    ensures number { IfOk result (λ p. number_at p ≡ Some ty) }
    ensures memory { IfErr result (λ stop. stop ≡ Stop.Memory) }
{
    let index = Box::new(alloc, index)?;
    let base = Box::new(alloc, base)?;
    Ok(Path::Element {
        node: Node { number, at },
        ty,
        base,
        index,
        constant,
    })
}

/// The type of the elements of a text, a sequence or an array.
pub fn element_type(chars: TypeId, def: &TypeDef) -> Option<TypeId>
    ensures means { (ts : List Ty) → type_at ts chars ≡ char
        → element_type (meant ts def.now) ≡ if_type ts result }
    ensures within { (n : ℕ) → chars < n → IsWithin n def.now → IsBelow n result }
{
    match def {
        TypeDef::Text => Some(chars),
        TypeDef::Seq(of) | TypeDef::Array { of, .. } => Some(*of),
        _ => None,
    }
}

// Whether it is the field of the name, which is in normal form, and can be seen in the module.
fn is_field(field: &FieldName, name: &[u8], is_home: bool) -> bool
    ensures { same_text name.now (normal field.now.name) && (field.now.shown || is_home) ≡ result }
{
    is_named(field.name.as_slice(), name) && (field.shown || is_home)
}

/// A field of an object or a part of a tuple: its number and its type.
#[derive(Clone, Copy)]
pub struct Found {
    pub number: u32,
    pub ty: TypeId,
}

// The field with the name, where as many types are known.
fn field_from(
    fields: &[FieldName],
    parts: &[TypeId],
    name: &[u8],
    is_home: bool,
    number: u32,
) -> Option<Found>
    requires { number + length fields.now < 2 ^ 32 }
    ensures found { result ≡ field_from name.now is_home number fields.now parts.now }
    ensures within { (n : ℕ) → AllBelow n parts.now → IfSome result (λ f. f.ty < n) }
{
    let (field, fields) = fields.split_first()?;
    let (ty, parts) = parts.split_first()?;
    if is_field(field, name, is_home) {
        return Some(Found { number, ty: *ty });
    }
    field_from(fields, parts, name, is_home, number + 1)
}

// The part with the name.
fn part_from(names: &[Bytes], parts: &[TypeId], name: &[u8], number: u32) -> Option<Found>
    requires { number + length names.now < 2 ^ 32 }
    ensures found { result ≡ part_from name.now number names.now parts.now }
    ensures within { (n : ℕ) → AllBelow n parts.now → IfSome result (λ f. f.ty < n) }
{
    let (first, names) = names.split_first()?;
    let (ty, parts) = parts.split_first()?;
    if is_word(name, first.as_slice()) {
        return Some(Found { number, ty: *ty });
    }
    part_from(names, parts, name, number + 1)
}

// The field of an object with the name, None too where the types of its fields aren't known.
fn object_field(
    fields: &[FieldName],
    parts: &[TypeId],
    name: &[u8],
    is_home: bool,
) -> Result<Option<Found>, Stop>
    ensures found { IfOk result (λ o. (ts : List Ty) (env : Env) (key : Key) (own_hooks : Bool)
        → nat_eq key.at.module env.home ≡ is_home → option_map (found_of ts) o
        ≡ field_among env key name.now 0 (fields_in (fields_fact (fields_with ts fields.now
        parts.now) own_hooks))) }
    ensures within { IfOk result (λ o. (n : ℕ) → AllBelow n parts.now
        → IfSome o (λ f. f.ty < n)) }
    ensures memory { IfErr result (λ stop. stop ≡ Stop.Memory) }
{
    let count = fields.len();
    if count != parts.len() {
        return Ok(None);
    }
    if count >= u32::MAX as usize {
        return Err(Stop::Memory);
    }
    Ok(field_from(fields, parts, name, is_home, 0))
}

// The part of a tuple with the name.
fn tuple_part(names: &[Bytes], parts: &[TypeId], name: &[u8]) -> Result<Option<Found>, Stop>
    ensures found { IfOk result (λ o. (ts : List Ty) → option_map (found_of ts) o
        ≡ part_among name.now 0 names.now (types_at ts parts.now)) }
    ensures within { IfOk result (λ o. (n : ℕ) → AllBelow n parts.now
        → IfSome o (λ f. f.ty < n)) }
    ensures memory { IfErr result (λ stop. stop ≡ Stop.Memory) }
{
    if names.len() >= u32::MAX as usize {
        return Err(Stop::Memory);
    }
    Ok(part_from(names, parts, name, 0))
}

fn field_in(def: &TypeDef, home: u32, name: &[u8]) -> Result<Option<Found>, Stop>
    ensures found { IfOk result (λ o. (ts : List Ty) (env : Env)
        → fact_of env.facts (meant ts def.now) ≡ said_of ts def.now → env.home ≡ home
        → option_map (found_of ts) o ≡ field_named env name.now (meant ts def.now)) }
    ensures within { IfOk result (λ o. (n : ℕ) → IsWithin n def.now
        → AllBelow n (parts_of def.now) → IfSome o (λ f. f.ty < n)) }
    ensures memory { IfErr result (λ stop. stop ≡ Stop.Memory) }
{
    match def {
        TypeDef::Object {
            at,
            fields,
            parts,
            ..
        } => object_field(fields.as_slice(), parts.as_slice(), name, at.module == home),
        TypeDef::Tuple { names, parts } => tuple_part(names.as_slice(), parts.as_slice(), name),
        _ => Ok(None),
    }
}

/// The field of an object or the part of a tuple with the name, which is in normal form.
pub fn field_named(
    types: &TypeTable,
    scope: &Scope,
    name: &[u8],
    id: TypeId,
) -> Result<Option<Found>, Stop>
    requires { id < length types.now }
    ensures found { IfOk result (λ o. (ts : List Ty) (facts : Facts) → Under types.now ts facts
        → option_map (found_of ts) o
        ≡ field_named (env_of ts facts scope.now) name.now (type_at ts id)) }
    ensures within { IfOk result (λ o. IfSome o (λ f. f.ty < length types.now)) }
    ensures memory { IfErr result (λ stop. stop ≡ Stop.Memory) }
{
    field_in(entry(types, id), scope.home, name)
}
