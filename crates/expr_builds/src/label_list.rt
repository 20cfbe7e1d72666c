// The labels of a `case` so far.
ghost use Rattle.std.specs.Prelude.{◌≡◌, ◌<◌, ◌++◌, [], ◌∷◌, List, length, map, int_le, true, OnOk};
ghost use Rattle.arc_base.specs.Refusal.{Answers};
ghost use Rattle.nim_types.specs.Types.{Ty, Facts};
ghost use Rattle.nim_types.specs.Table.{type_at};
ghost use Rattle.nim_program.specs.Program.{Ordinals, Exactly};
ghost use Rattle.nim_program.specs.View.{label_of, if_type};
ghost use Rattle.expr_rules.specs.Choices.{new_label, covers, is_enough, cover_rule};
ghost use Rattle.expr_parts.specs.View.{Under, IsProper};
ghost use Rattle.expr_builds.specs.ViewLabels.{span_in};

use crate::ranges::{Range, Span, add_range, covers, has_some, span_of};
use arc_base::{Bytes, Code, Place, Stop};
use expr_parts::kinds::{entry, is_text};
use expr_parts::value::{allow, refusal};
use nim_program::Label;
use nim_types::{TypeId, TypeTable};
use std::alloc::Global;
use std::collections::HashSet;
use std::marker::Model;

/// The labels of a `case` so far. Contracts see them in order of text.
///
/// Looking for a value takes as many steps as the number of labels has binary digits.
#[derive(Drop)]
pub struct Labels {
    given: Vec<Label>,
    ranges: Vec<Range>,
    texts: HashSet<Bytes>,
}

impl Model for Labels {
    ghost use Rattle.std.specs.Prelude.{List, map};
    ghost use Rattle.nim_program.specs.Program.{Label};
    ghost use Rattle.nim_program.specs.View.{label_of};

    ghost Value = { List Label };

    ghost view = { λ l. map label_of l.given.items };

    ghost use Rattle.expr_builds.specs.KeptLabels.{AreKept};

    ghost invariant = { λ l. AreKept l.given.items l.ranges.items l.texts };
}

impl Labels {
    /// No label.
    pub fn new(alloc: Global) -> Labels
        ensures { result ≡ [] }
    {
        Labels {
            given: Vec::new(alloc),
            ranges: Vec::new(alloc),
            texts: HashSet::new(alloc),
        }
    }

    /// Takes one more label, and refuses one that has a value of an earlier one.
    pub fn take(&mut self, alloc: Global, at: Place, label: &Label) -> Result<(), Stop>
        requires { IsProper (label_of label.now) }
        ensures answers { Answers (λ _. label_of label.now) (new_label at self.old
            (label_of label.now)) result }
        ensures taken { OnOk result (self.new ≡ self.old ++ label_of label.now ∷ []) }
    {
        match label {
            Label::Ordinals { low, high } => self.take_range(at, *low, *high),
            Label::Text(text) => self.take_text(alloc, at, text),
        }
    }

    fn take_range(&mut self, at: Place, low: i32, high: i32) -> Result<(), Stop>
        requires { int_le low high ≡ true }
        ensures answers { Answers (λ _. Ordinals low high) (new_label at self.old
            (Ordinals low high)) result }
        ensures taken { OnOk result (self.new ≡ self.old ++ Ordinals low high ∷ []) }
    {
        let range = Range { low, high };
        if has_some(self.ranges.as_slice(), &range) {
            return Err(refusal(Code::CaseCover, at));
        }
        self.given.reserve(1)?;
        add_range(&mut self.ranges, range)?;
        self.given.push_reserved(Label::Ordinals { low, high });
        Ok(())
    }

    fn take_text(&mut self, alloc: Global, at: Place, text: &Bytes) -> Result<(), Stop>
        ensures answers { Answers (λ _. Exactly text.now) (new_label at self.old
            (Exactly text.now)) result }
        ensures taken { OnOk result (self.new ≡ self.old ++ Exactly text.now ∷ []) }
    {
        if self.texts.contains(text) {
            return Err(refusal(Code::CaseCover, at));
        }
        let copy = Bytes::from_slice(alloc, text.as_slice())?;
        let kept = Bytes::from_slice(alloc, text.as_slice())?;
        self.given.reserve(1)?;
        self.texts.insert(copy)?;
        self.given.push_reserved(Label::Text(kept));
        Ok(())
    }

    // Whether the labels have each value, where there are some.
    fn cover(&self, span: Option<Span>) -> bool
        ensures { covers (span_in span) self.now ≡ result }
    {
        covers(span, self.ranges.as_slice())
    }
}

// Whether the labels are enough without `else`.
fn is_enough(types: &TypeTable, ty: TypeId, gives: Option<TypeId>, labels: &Labels) -> bool
    requires ty { ty < length types.now }
    ensures { (ts : List Ty) (facts : Facts) → Under types.now ts facts
        → is_enough facts (type_at ts ty) (if_type ts gives) labels.now ≡ result }
{
    let def = entry(types, ty);
    if is_text(def) {
        return gives.is_none();
    }
    labels.cover(span_of(def))
}

/// Refuses a `case` without `else` whose labels don't cover what they have to.
pub fn cover_rule(
    types: &TypeTable,
    at: Place,
    ty: TypeId,
    gives: Option<TypeId>,
    labels: &Labels,
) -> Result<(), Stop>
    requires ty { ty < length types.now }
    ensures { (ts : List Ty) (facts : Facts) → Under types.now ts facts
        → Answers (λ _. tt) (cover_rule facts at (type_at ts ty) (if_type ts gives)
        labels.now) result }
{
    allow(is_enough(types, ty, gives, labels), Code::CaseCover, at)
}
