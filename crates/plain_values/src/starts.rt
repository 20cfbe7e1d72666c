// What places start at.
ghost use Rattle.std.specs.Prelude.{◌≡◌, length, IfOk};
ghost use Rattle.nim_types.specs.Table.{type_at, types_in, facts_in, AllBelow};
ghost use Rattle.nim_program.specs.Program.{PartsOf, ElementsOf, NoLiteral};
ghost use Rattle.nim_program.specs.Defaults.{times, default_literal};
ghost use Rattle.nim_program.specs.View.{literal_of, literals_of};
ghost use Rattle.plain_values.specs.Entries.{starts_at, starts_all};

use arc_base::{Bytes, Memory};
use nim_program::Literal;
use nim_types::{TypeDef, TypeId, TypeTable, entry, says};
use std::alloc::Global;

fn parts_with(all: Vec<Literal>) -> Literal
    ensures { literal_of result ≡ PartsOf (literals_of all.items) }
{
    Literal::Parts(all)
}

fn no_parts(alloc: Global) -> Literal
    ensures { literal_of result ≡ PartsOf NoLiteral }
{
    parts_with(Vec::new(alloc))
}

fn no_elements(alloc: Global) -> Literal
    ensures { literal_of result ≡ ElementsOf NoLiteral }
{
    Literal::Elements(Vec::new(alloc))
}

// What a place of a type starts at, so many declared types inside one another looked through.
#[cycle(starts)]
fn start(alloc: Global, types: &TypeTable, within: u32, ty: TypeId) -> Result<Literal, Memory>
    ensures { IfOk result (λ l. literal_of l ≡ starts_at within types.now ty) }
{
    match entry(types, ty) {
        None => Ok(Literal::Ordinal(0)),
        Some(def) => match def {
            TypeDef::Text => Ok(Literal::Text(Bytes::new(alloc))),
            TypeDef::Seq(_) => Ok(no_elements(alloc)),
            TypeDef::Array { len, of } => {
                let all = start_row(alloc, types, within, *of, *len)?;
                Ok(parts_with(all))
            }
            TypeDef::Tuple { parts, .. } => {
                let all = start_all(alloc, types, within, ty, parts.as_slice())?;
                Ok(parts_with(all))
            }
            TypeDef::Object { parts, .. } => {
                if within == 0 {
                    return Ok(no_parts(alloc));
                }
                if !says(def) {
                    return Ok(no_parts(alloc));
                }
                let count = types.count();
                let all = start_all(alloc, types, within - 1, count, parts.as_slice())?;
                Ok(parts_with(all))
            }
            TypeDef::Distinct { base, .. } => {
                if within == 0 {
                    return Ok(no_parts(alloc));
                }
                start(alloc, types, within - 1, *base)
            }
            TypeDef::Int => Ok(Literal::Ordinal(0)),
            TypeDef::Bool => Ok(Literal::Ordinal(0)),
            TypeDef::Char => Ok(Literal::Ordinal(0)),
            TypeDef::Param(_) => Ok(Literal::Ordinal(0)),
            TypeDef::Enum { .. } => Ok(Literal::Ordinal(0)),
            TypeDef::Ref { .. } => Ok(Literal::Nil),
            TypeDef::Exception { .. } => Ok(Literal::Ordinal(0)),
        },
    }
}

// So many places of one type.
#[cycle(starts)]
fn start_row(
    alloc: Global,
    types: &TypeTable,
    within: u32,
    ty: TypeId,
    count: u32,
) -> Result<Vec<Literal>, Memory>
    ensures { IfOk result (λ all. literals_of all.items
        ≡ times count (starts_at within types.now ty)) }
{
    let mut all = Vec::new(alloc);
    for _ in 0..count {
        let literal = start(alloc, types, within, ty)?;
        all.push(literal)?;
    }
    Ok(all)
}

#[cycle(starts)]
fn start_all(
    alloc: Global,
    types: &TypeTable,
    within: u32,
    bound: u32,
    ids: &[TypeId],
) -> Result<Vec<Literal>, Memory>
    requires { AllBelow bound ids.now }
    ensures { IfOk result (λ all. literals_of all.items ≡ starts_all within types.now ids.now) }
{
    let mut all = Vec::new(alloc);
    for id in ids {
        let literal = start(alloc, types, within, *id)?;
        all.push(literal)?;
    }
    Ok(all)
}

/// What a place of a type starts at, where so many types have something said of them. Of the type
/// of a number beyond the table that is a zero.
pub fn start_of(
    alloc: Global,
    types: &TypeTable,
    declared: u32,
    ty: TypeId,
) -> Result<Literal, Memory>
    requires { declared ≡ length (facts_in types.now) }
    ensures { IfOk result (λ l. literal_of l ≡ default_literal (facts_in types.now)
        (type_at (types_in types.now) ty)) }
{
    start(alloc, types, declared, ty)
}
