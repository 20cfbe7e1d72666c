// Ranges of ordinals in order, and what they cover.
ghost use Rattle.std.specs.Prelude.{◌≡◌, ◌≤◌, ◌||◌, true, false, int_le, List, length, map, slice_get, IfErr, OnOk, OnErr};
ghost use Rattle.arc_base.specs.declared.place.Stop.TheVariants as Stop;
ghost use Rattle.nim_program.specs.Program.{Label};
ghost use Rattle.expr_rules.specs.Choices.{clash, clashes, covers, span, span_of};
ghost use Rattle.nim_types.specs.Types.{Ty, Facts, fact_of};
ghost use Rattle.nim_types.specs.Table.{meant, said_of};
ghost use Rattle.expr_builds.specs.ViewLabels.{SameOrdinals, span_in};
ghost use Rattle.expr_builds.specs.ViewLabels.{label_in, IsAscending, IsPlace, ends_at, begins_by, all_from, behind};

use arc_base::Stop;
use nim_types::TypeDef;

/// Ordinals from one to another that isn't below it.
#[derive(Clone, Copy)]
pub struct Range {
    pub low: i32,
    pub high: i32,
}

/// The values of an ordinal type; none where the last is below the first.
#[derive(Clone, Copy)]
pub struct Span {
    pub from: i64,
    pub to: i64,
}

// Whether the range at a place ends before another begins.
fn ends_at(ranges: &[Range], i: usize, range: &Range) -> bool
    ensures { result ≡ ends_at (slice_get ranges.now i) range.now }
{
    match ranges.get(i) {
        Some(other) => other.high < range.low,
        None => false,
    }
}

// Whether the range at a place begins before another has ended.
fn begins_by(ranges: &[Range], i: usize, range: &Range) -> bool
    ensures { result ≡ begins_by (slice_get ranges.now i) range.now }
{
    match ranges.get(i) {
        Some(other) => other.low <= range.high,
        None => false,
    }
}

// The place of the first range that doesn't end before another begins.
fn place_of(ranges: &[Range], range: &Range) -> usize
    requires { IsAscending ranges.now }
    ensures within { result ≤ length ranges.now }
    ensures place { IsPlace ranges.now range.now.low result }
{
    let mut first = 0;
    let mut last = ranges.len();
    while first < last {
        let middle = first + (last - first) / 2;
        if ends_at(ranges, middle, range) {
            first = middle + 1;
        } else {
            last = middle;
        }
    }
    first
}

/// Whether some range has an ordinal of another.
pub fn has_some(ranges: &[Range], range: &Range) -> bool
    requires { IsAscending ranges.now }
    ensures { clashes (label_in range.now) (map label_in ranges.now) ≡ result }
{
    begins_by(ranges, place_of(ranges, range), range)
}

/// Takes a further range, which has no ordinal of another.
pub fn add_range(ranges: &mut Vec<Range>, range: Range) -> Result<(), Stop>
    requires ascending { IsAscending ranges.old.items }
    requires proper { int_le range.low range.high ≡ true }
    requires apart { clashes (label_in range) (map label_in ranges.old.items) ≡ false }
    ensures ascending { IsAscending ranges.new.items }
    ensures more { OnOk result ((l : Label) → clashes l (map label_in ranges.new.items)
        ≡ (clash l (label_in range) || clashes l (map label_in ranges.old.items))) }
    ensures same { OnErr result (ranges.new.items ≡ ranges.old.items) }
    ensures memory { IfErr result (λ stop. stop ≡ Stop.Memory) }
{
    let place = place_of(ranges.as_slice(), &range);
    ranges.insert(place, range)?;
    Ok(())
}

// The next number that isn't known to be covered, behind a range.
fn behind(next: i64, range: Range) -> i64
    ensures { result ≡ behind next range }
{
    let high = i64::from(range.high);
    if high < next { next } else { high + 1 }
}

// Whether the ranges have all numbers from one to another.
fn all_from(ranges: &[Range], span: Span) -> bool
    ensures { all_from span.from span.to ranges.now ≡ result }
{
    let mut next = span.from;
    for range in ranges {
        if next < i64::from(range.low) {
            return span.to < next;
        }
        next = behind(next, *range);
    }
    span.to < next
}

/// Whether ranges have each value, where there are some.
pub fn covers(span: Option<Span>, ranges: &[Range]) -> bool
    requires { IsAscending ranges.now }
    ensures { (labels : List Label) → SameOrdinals labels ranges.now
        → covers (span_in span) labels ≡ result }
{
    match span {
        Some(span) => all_from(ranges, span),
        None => true,
    }
}

fn ordinals(from: i64, to: i64) -> Option<Span>
    ensures { span_in result ≡ span from to }
{
    Some(Span { from, to })
}

/// The values of a type, where it is an ordinal type.
pub fn span_of(def: &TypeDef) -> Option<Span>
    ensures { (ts : List Ty) (facts : Facts) → fact_of facts (meant ts def.now) ≡ said_of ts def.now
        → span_of facts (meant ts def.now) ≡ span_in result }
{
    match def {
        TypeDef::Int => ordinals(i64::from(i32::MIN), i64::from(i32::MAX)),
        TypeDef::Bool => ordinals(0, 1),
        TypeDef::Char => ordinals(0, 255),
        TypeDef::Enum { members, .. } => ordinals(0, members.as_slice().len() as i64 - 1),
        _ => None,
    }
}
