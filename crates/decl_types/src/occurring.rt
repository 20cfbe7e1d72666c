// Types of the section in what definitions are made of, by marks of definitions.
ghost use Rattle.std.specs.Prelude.{◌≡◌, ◌<◌, ℕ, List, Bool, Some, None, IfOk, IfSome, length, map};
ghost use Rattle.std.specs.Prelude.{drop, true, slice_get};
ghost use Rattle.decl_types.specs.declared.known.Definition.{Definition};
ghost use Rattle.nim_types.specs.Types.{Ty, Key};
ghost use Rattle.decl_rules.specs.Meanings.{occurs_in_any, made_of, KnownType, next_in};
ghost use Rattle.decl_rules.specs.Meanings.{is_next as is_next_key};
ghost use Rattle.decl_types.specs.ViewReading.{IsReading, all_defined, defined_at};
ghost use Rattle.decl_types.specs.ViewKnown.{IsSound, meant_by};
ghost use Rattle.decl_types.specs.ViewMarks.{mark_at, any_at, node_mark, node_marks, meaning_mark};
ghost use Rattle.decl_types.specs.ViewMarks.{definition_mark, is_next, next_from, Marks};
ghost use Rattle.decl_types.specs.ViewMarks.{Apart, Stuck};

use crate::known::{Definition, Meaning};
use crate::nodes::Node;
use arc_base::Memory;
use std::alloc::Global;

// Numbers that have none aren't marked.
fn mark_at(marks: &[bool], number: usize) -> bool
    ensures { mark_at marks.now number ≡ result }
{
    match marks.get(number) {
        Some(mark) => *mark,
        None => false,
    }
}

fn any_at(marks: &[bool], numbers: &[u32]) -> bool
    ensures { any_at marks.now numbers.now ≡ result }
{
    for number in numbers {
        if mark_at(marks, *number as usize) {
            return true;
        }
    }
    false
}

// Whether a marked definition is named in a node, by the nodes before it.
fn node_mark(marks: &[bool], before: &[bool], node: &Node) -> bool
    ensures { node_mark marks.now before.now node.now ≡ result }
{
    match node {
        Node::Known(_) => false,
        Node::Named(number) => mark_at(marks, *number as usize),
        Node::Sequence(of) => mark_at(before, *of as usize),
        Node::Array { of, .. } => mark_at(before, *of as usize),
        Node::Tuple { parts, .. } => any_at(before, parts.as_slice()),
    }
}

fn node_marks(alloc: Global, marks: &[bool], nodes: &[Node]) -> Result<Vec<bool>, Memory>
    ensures { IfOk result (λ all. all.items ≡ node_marks marks.now nodes.now) }
{
    let mut all = Vec::new(alloc);
    for node in nodes {
        let mark = node_mark(marks, all.as_slice(), node);
        all.push(mark)?;
    }
    Ok(all)
}

fn meaning_mark(before: &[bool], meaning: &Meaning) -> bool
    ensures { meaning_mark before.now meaning.now ≡ result }
{
    match meaning {
        Meaning::Object { types, .. } => any_at(before, types.as_slice()),
        Meaning::Enum(_) => false,
        Meaning::Distinct(base) => mark_at(before, *base as usize),
        Meaning::Alias(of) => mark_at(before, *of as usize),
    }
}

/// Whether a marked definition is named in what a definition is made of.
pub fn definition_mark(
    alloc: Global,
    marks: &[bool],
    definition: &Definition,
) -> Result<bool, Memory>
    ensures mark { IfOk result (λ mark. mark ≡ definition_mark marks.now definition.now) }
    ensures occurs { IfOk result (λ mark. (n m : ℕ) → IsSound n m definition.now
        → (ts : List Ty) (keys : List Key) (is_meant : Key → Bool) → Marks keys marks.now is_meant
        → Apart ts n is_meant → mark ≡ occurs_in_any is_meant (made_of (Some
        (meant_by ts keys definition.now)))) }
{
    let before = node_marks(alloc, marks, definition.nodes.as_slice())?;
    Ok(meaning_mark(before.as_slice(), &definition.meaning))
}

// Whether a definition is marked and names no marked ones.
fn is_next(
    alloc: Global,
    marks: &[bool],
    number: usize,
    definition: &Definition,
) -> Result<bool, Memory>
    ensures { IfOk result (λ next. next ≡ is_next marks.now number definition.now) }
{
    if !mark_at(marks, number) {
        return Ok(false);
    }
    let mark = definition_mark(alloc, marks, definition)?;
    Ok(!mark)
}

// The first definition from a number on that is marked and names no marked ones.
fn next_from(
    alloc: Global,
    marks: &[bool],
    read: &[Definition],
    from: usize,
) -> Result<Option<usize>, Memory>
    ensures next { IfOk result (λ next. next ≡ next_from marks.now from (drop from read.now)) }
    ensures within { IfOk result (λ next. IfSome next (λ n. n < length read.now)) }
{
    let mut number = from;
    while let Some(definition) = read.get(number) {
        if is_next(alloc, marks, number, definition)? {
            return Ok(Some(number));
        }
        number += 1;
    }
    Ok(None)
}

/// The first definition that becomes known next, where those that aren't known are marked.
pub fn next_known(
    alloc: Global,
    marks: &[bool],
    read: &[Definition],
) -> Result<Option<usize>, Memory>
    ensures next { IfOk result (λ next. (n m : ℕ) (ts : List Ty) (keys : List Key)
        (known : List KnownType) → IsReading n m ts keys known marks.now read.now → next_in (is_next_key keys (all_defined ts keys read.now)
        known) (all_defined ts keys read.now) ≡ defined_at ts keys read.now next) }
    ensures within { IfOk result (λ next. IfSome next (λ n. n < length read.now)) }
    ensures found { IfOk result (λ next. IfSome next (λ n. (d : Definition)
        → slice_get read.now n ≡ Some d → is_next marks.now n d ≡ true)) }
    ensures stuck { IfOk result (λ next. next ≡ None → Stuck marks.now read.now) }
{
    next_from(alloc, marks, read, 0)
}

/// Which definitions name marked ones in what they are made of.
pub fn definition_marks(
    alloc: Global,
    marks: &[bool],
    read: &[Definition],
) -> Result<Vec<bool>, Memory>
    ensures { IfOk result (λ all. all.items ≡ map (definition_mark marks.now) read.now) }
{
    let mut all = Vec::new(alloc);
    for definition in read {
        let mark = definition_mark(alloc, marks, definition)?;
        all.push(mark)?;
    }
    Ok(all)
}
