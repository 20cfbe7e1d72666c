// What makes sequences shorter, whose elements have hooks.
ghost use Rattle.std.specs.Prelude.{◌≡◌, ◌<◌, ◌&&◌, ◌++◌, Some, IfOk, OnOk, length, slice_get};
ghost use Rattle.nim_types.specs.declared.types.TypeDef.{TypeDef as Entry};
ghost use Rattle.nim_program.specs.Sizes.{HaveForms};
ghost use Rattle.hook_lifting.specs.Written.{IsPut};
ghost use Rattle.hook_lifting.specs.Lifted.{has_hooks, is_shallow, AreMarked};
ghost use Rattle.hook_lifting.specs.Lifted.{cutting_lines, cut_lines, cut_if, cut_entry, cuts};

use crate::lifted::{Cut, Hook, LiftedLine};
use crate::lines::Lines;
use crate::procedures::{element, has_hooks, is_shallow, put_each};
use arc_base::{Items, Memory};
use flat_code::Line;
use nim_types::{TypeDef, TypeId, TypeTable};
use std::alloc::Global;

// A sequence keeps so many of its elements.
fn put_cutting(lines: &mut Lines, of: TypeId)
    ensures { IsPut lines.old lines.new (cutting_lines of) }
{
    lines.put(LiftedLine::Load { to: 6, at: 0 });
    lines.put(LiftedLine::Shorten {
        at: 0,
        of: 6,
        count: 8,
    });
    lines.put(LiftedLine::Count { to: 5, of: 6 });
    lines.put(LiftedLine::Copy { to: 4, of: 8 });
    lines.put(LiftedLine::Plain(Line::Beyond {
        counter: 4,
        last: 5,
        inclusive: false,
        to: 0,
    }));
    put_each(lines, Hook::Ends, of, element(2, 6, 0), element(3, 6, 0));
    lines.put(LiftedLine::Forget { of: 6, count: 8 });
}

// The lines that make a sequence shorter.
fn cut_lines(alloc: Global, of: TypeId) -> Result<Items<LiftedLine>, Memory>
    ensures { IfOk result (λ lines. lines ≡ cut_lines of) }
{
    let mut lines = Lines::new(alloc);
    put_cutting(&mut lines, of);
    lines.put(LiftedLine::Plain(Line::Return { result: None }));
    lines.finish()
}

// Adds what makes sequences of a type shorter, if it is one whose elements have hooks.
fn add_cut(
    alloc: Global,
    cuts: &mut Items<Cut>,
    types: &TypeTable,
    shallow: &[bool],
    ty: TypeId,
) -> Result<(), Memory>
    requires forms { HaveForms types.now }
    requires marked { AreMarked types.now shallow.now }
    requires inside { ty < length types.now }
    ensures { OnOk result ((entry : Entry) → slice_get types.now ty ≡ Some entry →
        cuts.new ≡ cuts.old ++ cut_entry types.now ty entry) }
{
    match types.get(ty) {
        TypeDef::Seq(of) => add_cut_if(alloc, cuts, types, shallow, ty, *of),
        _ => Ok(()),
    }
}

// Whether the elements of a sequence of a type have hooks, and it has no more levels.
fn is_cut(types: &TypeTable, shallow: &[bool], ty: TypeId, of: TypeId) -> bool
    requires forms { HaveForms types.now }
    requires marked { AreMarked types.now shallow.now }
    requires inside { ty < length types.now }
    requires elements { of < length types.now }
    ensures { result ≡ (has_hooks types.now of && is_shallow types.now ty) }
{
    if !has_hooks(types, of) {
        return false;
    }
    is_shallow(types, shallow, ty)
}

fn add_cut_if(
    alloc: Global,
    cuts: &mut Items<Cut>,
    types: &TypeTable,
    shallow: &[bool],
    ty: TypeId,
    of: TypeId,
) -> Result<(), Memory>
    requires forms { HaveForms types.now }
    requires marked { AreMarked types.now shallow.now }
    requires inside { ty < length types.now }
    requires elements { of < length types.now }
    ensures { OnOk result (cuts.new ≡ cuts.old ++
        cut_if (has_hooks types.now of && is_shallow types.now ty) ty of) }
{
    if !is_cut(types, shallow, ty, of) {
        return Ok(());
    }
    let lines = cut_lines(alloc, of)?;
    cuts.push(Cut { ty, lines })
}

// What makes sequences shorter, of all types.
pub(crate) fn cuts_of_all(
    alloc: Global,
    types: &TypeTable,
    shallow: &[bool],
) -> Result<Items<Cut>, Memory>
    requires forms { HaveForms types.now }
    requires marked { AreMarked types.now shallow.now }
    ensures { IfOk result (λ all. all ≡ cuts types.now) }
{
    let mut all = Items::new(alloc);
    for ty in 0..types.count() {
        add_cut(alloc, &mut all, types, shallow, ty)?;
    }
    Ok(all)
}
