// Types that contain themselves.
ghost use Rattle.std.specs.Prelude.{◌≡◌, ℕ, List, length, slice_set, true, IfOk, OnOk};
ghost use Rattle.arc_base.specs.declared.place.Stop.TheVariants as Stop;
ghost use Rattle.arc_base.specs.Refusal.{Answers};
ghost use Rattle.nim_types.specs.Types.{Ty, Key};
ghost use Rattle.decl_rules.specs.Sections.{containment_rule};
ghost use Rattle.decl_types.specs.ViewMarks.{mark_at};
ghost use Rattle.decl_types.specs.ViewReading.{all_defined};
ghost use Rattle.decl_types.specs.ViewContained.{step_of, contained, NoneContained};
ghost use Rattle.decl_types.specs.ViewScoped.{Whole};

use crate::known::Definition;
use crate::occurring::definition_marks;
use arc_base::{Code, Memory, Stop};
use expr_parts::value::refusal;
use std::alloc::Global;

fn mark_at(marks: &[bool], number: usize) -> bool
    ensures { mark_at marks.now number ≡ result }
{
    match marks.get(number) {
        Some(mark) => *mark,
        None => false,
    }
}

fn is_same(a: bool, b: bool) -> bool
    ensures { result ≡ true → a ≡ b }
{
    a == b
}

// Whether the same are marked.
fn are_same(a: &[bool], b: &[bool]) -> bool
    ensures { result ≡ true → a.now ≡ b.now }
{
    let mut number = 0_usize;
    for x in a {
        let Some(y) = b.get(number) else {
            return false;
        };
        if !is_same(*x, *y) {
            return false;
        }
        number += 1;
    }
    number == b.len()
}

// Marks with one more.
fn marked(alloc: Global, marks: &[bool], number: usize) -> Result<Vec<bool>, Memory>
    ensures { IfOk result (λ all. all.items ≡ slice_set marks.now number true) }
{
    let mut all = Vec::new(alloc);
    for mark in marks {
        all.push(*mark)?;
    }
    if number < all.len() {
        all[number] = true;
    }
    Ok(all)
}

// Which definitions contain one, in one step more than those that are marked.
fn step(
    alloc: Global,
    read: &[Definition],
    marks: &[bool],
    number: usize,
) -> Result<Vec<bool>, Memory>
    ensures { IfOk result (λ all. all.items ≡ step_of read.now number marks.now) }
{
    let all = marked(alloc, marks, number)?;
    definition_marks(alloc, all.as_slice(), read)
}

// None is marked.
fn no_marks(alloc: Global, read: &[Definition]) -> Result<Vec<bool>, Memory>
    ensures { IfOk result (λ all. all.items ≡ contained 0 read.now 0) }
{
    let mut all = Vec::new(alloc);
    for _definition in read {
        all.push(false)?;
    }
    Ok(all)
}

// Which definitions contain one, in as many steps as there are definitions. Where a step adds none,
// no further one does.
fn containers(alloc: Global, read: &[Definition], number: usize) -> Result<Vec<bool>, Memory>
    ensures { IfOk result (λ all. all.items ≡ contained (length read.now) read.now number) }
{
    let mut marks = no_marks(alloc, read)?;
    for _definition in read {
        let next = step(alloc, read, marks.as_slice(), number)?;
        if are_same(marks.as_slice(), next.as_slice()) {
            return Ok(next);
        }
        marks = next;
    }
    Ok(marks)
}

fn contains_itself(alloc: Global, read: &[Definition], number: usize) -> Result<bool, Memory>
    ensures { IfOk result (λ mark. mark
        ≡ mark_at (contained (length read.now) read.now number) number) }
{
    let all = containers(alloc, read, number)?;
    Ok(mark_at(all.as_slice(), number))
}

/// Refuses the first type that contains itself.
pub fn check_contained(alloc: Global, read: &[Definition]) -> Result<(), Stop>
    ensures answers { (ts : List Ty) (n m : ℕ) (keys : List Key) → Whole ts n m keys read.now
        → Answers (λ _. tt) (containment_rule (all_defined ts keys read.now)
        (all_defined ts keys read.now)) result }
    ensures none { OnOk result (NoneContained read.now) }
{
    let mut number = 0_usize;
    for definition in read {
        if contains_itself(alloc, read, number)? {
            return Err(refusal(Code::NotTyped, definition.at));
        }
        number += 1;
    }
    Ok(())
}
