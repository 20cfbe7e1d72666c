// What is known of the types of a table: whether values have code, and how many levels types have,
// as far as it matters.
ghost use Rattle.std.specs.Prelude.{◌≡◌, ◌||◌, max, true, ℕ, List, slice_get, IfOk};
ghost use Rattle.nim_types.specs.Forms.{Form, Forms, row, elements, wrapped, object_form};
ghost use Rattle.nim_types.specs.declared.types.TypeDef.{TypeDef};
ghost use Rattle.nim_types.specs.Table.{AllBelow};
ghost use Rattle.program_limits.specs.Summaries as specs;
ghost use Rattle.program_limits.specs.Summaries.{capped, summary_of, summaries_of, summary_at};
ghost use Rattle.program_limits.specs.Summaries.{summaries_at, with_more, summary_or, AreKnown};
ghost use Rattle.program_limits.specs.Summaries.{IsLast, AreNext, AreListed};

use arc_base::{Items, Memory};
use nim_types::{TypeDef, TypeId, TypeTable, declared_types, entry, says};
use std::alloc::Global;

/// How many levels a type may have.
pub const MOST_LEVELS: u32 = 64;

/// Whether a ref or an object with hooks of its own is in a type, so that its values have no code yet,
/// and the levels of the type: one more than the most stands for all above.
#[derive(Clone, Copy)]
pub struct Summary {
    pub unbuilt: bool,
    pub levels: u32,
}

fn capped(levels: u64) -> u32
    ensures { result ≡ capped levels }
{
    if levels > u64::from(MOST_LEVELS) {
        MOST_LEVELS + 1
    } else {
        levels as u32
    }
}

fn greater(m: u32, n: u32) -> u32
    ensures { result ≡ max m n }
{
    if m < n { n } else { m }
}

fn either(one: bool, other: bool) -> bool
    ensures { result ≡ (one || other) }
{
    one || other
}

// Of a type without parts.
fn alone(unbuilt: bool) -> Summary
    ensures { result ≡ record { unbuilt = unbuilt; levels = 1 } }
{
    Summary { unbuilt, levels: 1 }
}

// One level above some.
fn above(unbuilt: bool, levels: u32) -> Summary
    ensures { result ≡ specs.above unbuilt levels }
{
    Summary {
        unbuilt,
        levels: capped(u64::from(levels) + 1),
    }
}

fn row_of(count: u32, each: Summary) -> Summary
    ensures { (f : Form) → each ≡ summary_of f → result ≡ summary_of (row count f) }
{
    if count == 0 {
        return alone(each.unbuilt);
    }
    above(each.unbuilt, each.levels)
}

fn beside(one: Summary, others: Summary) -> Summary
    ensures { result ≡ with_more one others }
{
    Summary {
        unbuilt: either(one.unbuilt, others.unbuilt),
        levels: capped(u64::from(greater(one.levels, others.levels))),
    }
}

// Of a tuple or an object, which may have hooks of its own.
fn whole_of(own: bool, all: Summary) -> Summary
    ensures { (fs : Forms) → all ≡ summaries_of fs → result ≡ summary_of (object_form own fs) }
{
    above(either(own, all.unbuilt), all.levels)
}

fn wrapped_around(base: Summary) -> Summary
    ensures { (f : Form) → base ≡ summary_of f → result ≡ summary_of (wrapped f) }
{
    above(base.unbuilt, base.levels)
}

fn elements_of(each: Summary) -> Summary
    ensures { (f : Form) → each ≡ summary_of f → result ≡ summary_of (elements f) }
{
    above(each.unbuilt, each.levels)
}

/// Of a type that is listed; one beyond the list counts as an int.
pub fn look(known: &[Summary], ty: TypeId) -> Summary
    ensures { result ≡ summary_or (slice_get known.now ty) }
{
    match known.get(ty as usize) {
        Some(summary) => *summary,
        None => alone(false),
    }
}

// Of types one behind the other, all below a number.
fn look_all(known: &[Summary], bound: u32, ids: &[TypeId]) -> Summary
    requires { AllBelow bound ids.now }
    ensures { (n : ℕ) (ds : List TypeDef) → AreKnown n ds known.now bound →
        result ≡ summaries_at n ds ids.now }
{
    let mut all = Summary {
        unbuilt: false,
        levels: 0,
    };
    for id in ids {
        all = beside(all, look(known, *id));
    }
    all
}

// Of the type of a number. Those of lower numbers are listed in `before`. The round before this one
// has all types, with one declared type fewer inside one another looked through: `last`. The first
// round looks through none.
fn type_summary(
    types: &TypeTable,
    ty: TypeId,
    first: bool,
    last: &[Summary],
    before: &[Summary],
) -> Summary
    ensures { (n : ℕ) → IsLast first n types.now last.now → AreKnown n types.now before.now ty →
        result ≡ summary_at n types.now ty }
{
    match entry(types, ty) {
        None => alone(false),
        Some(def) => match def {
            TypeDef::Text => alone(false),
            TypeDef::Seq(of) => elements_of(look(before, *of)),
            TypeDef::Array { len, of } => row_of(*len, look(before, *of)),
            TypeDef::Tuple { parts, .. } => {
                whole_of(false, look_all(before, ty, parts.as_slice()))
            }
            TypeDef::Object {
                resource,
                parts,
                ..
            } => {
                if first {
                    return alone(false);
                }
                if !says(def) {
                    return alone(false);
                }
                whole_of(*resource, look_all(last, types.count(), parts.as_slice()))
            }
            TypeDef::Distinct { base, .. } => {
                if first {
                    return alone(false);
                }
                wrapped_around(look(last, *base))
            }
            TypeDef::Ref { .. } => alone(true),
            TypeDef::Int => alone(false),
            TypeDef::Bool => alone(false),
            TypeDef::Char => alone(false),
            TypeDef::Param(_) => alone(false),
            TypeDef::Enum { .. } => alone(false),
            TypeDef::Exception { .. } => alone(false),
        },
    }
}

// Of all types, with one declared type more inside one another looked through.
fn next_summaries(
    alloc: Global,
    types: &TypeTable,
    first: bool,
    last: &[Summary],
) -> Result<Items<Summary>, Memory>
    ensures { IfOk result (λ next. AreNext first types.now last.now next) }
{
    let mut next = Items::new(alloc);
    for ty in 0..types.count() {
        let one = type_summary(types, ty, first, last, next.as_slice());
        next.push(one)?;
    }
    Ok(next)
}

fn is_same(a: Summary, b: Summary) -> bool
    ensures { result ≡ true → a ≡ b }
{
    a.unbuilt == b.unbuilt && a.levels == b.levels
}

fn are_same(a: &[Summary], b: &[Summary]) -> bool
    ensures { result ≡ true → a.now ≡ b.now }
{
    let mut left = a;
    let mut other = b;
    while let Some((one, more)) = left.split_first() {
        let Some((two, rest)) = other.split_first() else {
            return false;
        };
        if !is_same(*one, *two) {
            return false;
        }
        left = more;
        other = rest;
    }
    other.is_empty()
}

/// What is known of each type of a table. What is looked through grows by one declared type a round,
/// up to where nothing changes.
pub fn all_summaries(alloc: Global, types: &TypeTable) -> Result<Items<Summary>, Memory>
    ensures { IfOk result (λ of. AreListed types.now of) }
{
    let declared = declared_types(types);
    let mut of = next_summaries(alloc, types, true, &[])?;
    for _round in 0..declared {
        let next = next_summaries(alloc, types, false, of.as_slice())?;
        if are_same(next.as_slice(), of.as_slice()) {
            return Ok(of);
        }
        of = next;
    }
    Ok(of)
}
