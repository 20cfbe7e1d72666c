// The lines of hooks, by the entries of the table of types.
ghost use Rattle.std.specs.Prelude.{◌≡◌, ◌<◌, ◌++◌, ◌∷◌, [], List, Some, IfOk, OnOk, length, slice_get};
ghost use Rattle.nim_types.specs.declared.types.TypeDef.{TypeDef as Entry};
ghost use Rattle.nim_types.specs.Table.{IsWithin, AllBelow, parts_of};
ghost use Rattle.nim_program.specs.Sizes.{HaveForms};
ghost use Rattle.hook_lifting.specs.Written.{IsPut};
ghost use Rattle.hook_lifting.specs.declared.lifted.LiftedLine.TheVariants as O;
ghost use Rattle.hook_lifting.specs.Lifted.{has_hooks, is_needed, to_part, one_part, part_lines};
ghost use Rattle.hook_lifting.specs.Lifted.{loop_lines, array_lines, assigning_lines, sinking_lines};
ghost use Rattle.hook_lifting.specs.Lifted.{copying_lines, ending_lines, sequence_lines, text_lines};
ghost use Rattle.hook_lifting.specs.Lifted.{entry_lines, is_routine, lines_of, all_hooks, hooks_of};
ghost use Rattle.hook_lifting.specs.Lifted.{turn_lines, elements_end, of_entry, cuts};
ghost use Rattle.hook_lifting.specs.Lifted.{lifted, is_shallow, is_lifted, mark_or, AreMarked};

use crate::lifted::{Hook, Hooks, Lifted, LiftedLine};
use crate::lines::Lines;
use crate::shortening::cuts_of_all;
use arc_base::{Items, Memory};
use flat_code::Line;
use nim_types::{TypeDef, TypeId, TypeTable};
use std::alloc::Global;

/// Hooks are lifted of types of so many levels at most.
pub const MOST_LEVELS: u32 = 64;

// The mark of a type.
fn mark_of(shallow: &[bool], ty: TypeId) -> bool
    ensures { result ≡ mark_or (slice_get shallow.now ty) }
{
    match shallow.get(ty as usize) {
        Some(mark) => *mark,
        None => true,
    }
}

// Whether a type has no more levels.
pub(crate) fn is_shallow(types: &TypeTable, shallow: &[bool], ty: TypeId) -> bool
    requires marked { AreMarked types.now shallow.now }
    requires inside { ty < length types.now }
    ensures { result ≡ is_shallow types.now ty }
{
    mark_of(shallow, ty)
}

// Whether a type has hooks.
pub(crate) fn has_hooks(types: &TypeTable, ty: TypeId) -> bool
    requires forms { HaveForms types.now }
    requires inside { ty < length types.now }
    ensures { result ≡ has_hooks types.now ty }
{
    types.is_hooked(ty)
}

// Whether a hook has anything to do with values of a type.
fn is_needed(types: &TypeTable, hook: Hook, ty: TypeId) -> bool
    requires forms { HaveForms types.now }
    requires inside { ty < length types.now }
    ensures { result ≡ is_needed hook (has_hooks types.now ty) }
{
    match hook {
        Hook::Ends => has_hooks(types, ty),
        Hook::Copies | Hook::Assigns | Hook::Sinks => true,
    }
}

// A part of both locations.
fn put_part(lines: &mut Lines, hook: Hook, part: u32, ty: TypeId)
    ensures { IsPut lines.old lines.new (to_part hook ty part) }
{
    lines.put(LiftedLine::Plain(Line::Part {
        to: 2,
        from: 0,
        field: part,
    }));
    lines.put(LiftedLine::Plain(Line::Part {
        to: 3,
        from: 1,
        field: part,
    }));
    lines.put(LiftedLine::Hook {
        hook,
        ty,
        to: 2,
        from: 3,
    });
}

// The part of a number, where it needs any lines.
fn put_if_needed(lines: &mut Lines, types: &TypeTable, hook: Hook, part: u32, ty: TypeId)
    requires forms { HaveForms types.now }
    requires inside { ty < length types.now }
    ensures { IsPut lines.old lines.new (one_part types.now hook ty part) }
{
    if is_needed(types, hook, ty) {
        put_part(lines, hook, part, ty);
    }
}

// The parts of a tuple or an object. (A source has no type with more parts than 32 bits can count.)
fn put_parts(lines: &mut Lines, types: &TypeTable, hook: Hook, parts: &[TypeId])
    requires forms { HaveForms types.now }
    requires inside { AllBelow (length types.now) parts.now }
    ensures { IsPut lines.old lines.new (part_lines types.now hook parts.now 0) }
{
    if parts.len() > 4_294_967_295 {
        return lines.lose();
    }
    let mut part: u32 = 0;
    for ty in parts {
        put_if_needed(lines, types, hook, part, *ty);
        part += 1;
    }
}

// The same for each element to which two lines lead.
pub(crate) fn put_each(
    lines: &mut Lines,
    hook: Hook,
    of: TypeId,
    one: LiftedLine,
    other: LiftedLine,
)
    ensures { IsPut lines.old lines.new (turn_lines hook of one other) }
{
    lines.put(LiftedLine::Plain(Line::Label { name: 1 }));
    lines.put(one);
    lines.put(other);
    lines.put(LiftedLine::Hook {
        hook,
        ty: of,
        to: 2,
        from: 3,
    });
    lines.put(LiftedLine::Plain(Line::CountTurn {
        counter: 4,
        last: 5,
        inclusive: false,
        to: 1,
    }));
    lines.put(LiftedLine::Plain(Line::Label { name: 0 }));
}

// From the first element on.
fn put_turns(lines: &mut Lines, hook: Hook, of: TypeId, one: LiftedLine, other: LiftedLine)
    ensures { IsPut lines.old lines.new (loop_lines hook of one other) }
{
    lines.put(LiftedLine::Plain(Line::Zero { to: 4 }));
    lines.put(LiftedLine::Plain(Line::Beyond {
        counter: 4,
        last: 5,
        inclusive: false,
        to: 0,
    }));
    put_each(lines, hook, of, one, other);
}

// The elements of an array.
fn put_array(lines: &mut Lines, hook: Hook, count: u32, of: TypeId)
    ensures { IsPut lines.old lines.new (array_lines hook count of) }
{
    lines.put(LiftedLine::Number {
        to: 5,
        number: count,
    });
    let one = LiftedLine::Member {
        to: 2,
        at: 0,
        index: 4,
        count,
    };
    let other = LiftedLine::Member {
        to: 3,
        at: 1,
        index: 4,
        count,
    };
    put_turns(lines, hook, of, one, other);
}

// A text or a sequence becomes a copy.
fn put_assigning(lines: &mut Lines, ty: TypeId)
    ensures { IsPut lines.old lines.new (assigning_lines ty) }
{
    lines.put(LiftedLine::Begin { ty, to: 2 });
    lines.put(LiftedLine::Hook {
        hook: Hook::Copies,
        ty,
        to: 2,
        from: 1,
    });
    lines.put(LiftedLine::Pop { to: 7, at: 2 });
    lines.put(LiftedLine::Exchange {
        to: 6,
        at: 0,
        of: 7,
    });
    lines.put(LiftedLine::Push { to: 2, of: 6 });
    lines.put(LiftedLine::Hook {
        hook: Hook::Ends,
        ty,
        to: 2,
        from: 2,
    });
    lines.put(LiftedLine::Pop { to: 6, at: 2 });
}

// A text or a sequence becomes one that is handed over.
fn put_sinking(lines: &mut Lines, ty: TypeId)
    ensures { IsPut lines.old lines.new (sinking_lines ty) }
{
    lines.put(LiftedLine::Trade { to: 0, from: 1 });
    lines.put(LiftedLine::Hook {
        hook: Hook::Ends,
        ty,
        to: 1,
        from: 1,
    });
}

// A sequence is copied, with a block of its own.
fn put_copying(lines: &mut Lines, ty: TypeId, of: TypeId)
    ensures { IsPut lines.old lines.new (copying_lines ty of) }
{
    lines.put(LiftedLine::Load { to: 7, at: 1 });
    lines.put(LiftedLine::Take {
        ty,
        to: 6,
        at: 0,
        of: 7,
    });
    lines.put(LiftedLine::Count { to: 5, of: 7 });
    put_turns(lines, Hook::Copies, of, element(2, 6, 0), element(3, 7, 1));
}

// The location of the element with the number of a turn.
pub(crate) fn element(to: u32, of: u32, at: u32) -> LiftedLine
    ensures { result ≡ O.Element to of at 4 }
{
    LiftedLine::Element {
        to,
        of,
        at,
        index: 4,
    }
}

// Elements end, where they have hooks.
fn put_elements_end(lines: &mut Lines, types: &TypeTable, of: TypeId)
    requires forms { HaveForms types.now }
    requires inside { of < length types.now }
    ensures { IsPut lines.old lines.new (elements_end types.now of) }
{
    if has_hooks(types, of) {
        lines.put(LiftedLine::Count { to: 5, of: 6 });
        put_turns(lines, Hook::Ends, of, element(2, 6, 0), element(3, 6, 0));
    }
}

// A sequence ends, and its elements before it.
fn put_ending(lines: &mut Lines, types: &TypeTable, ty: TypeId, of: TypeId)
    requires forms { HaveForms types.now }
    requires inside { of < length types.now }
    ensures { IsPut lines.old lines.new (ending_lines types.now ty of) }
{
    lines.put(LiftedLine::Load { to: 6, at: 0 });
    put_elements_end(lines, types, of);
    lines.put(LiftedLine::GiveBack { ty, at: 0, of: 6 });
}

// The hook of a sequence.
fn put_sequence(lines: &mut Lines, types: &TypeTable, hook: Hook, ty: TypeId, of: TypeId)
    requires forms { HaveForms types.now }
    requires inside { of < length types.now }
    ensures { IsPut lines.old lines.new (sequence_lines types.now hook ty of) }
{
    match hook {
        Hook::Copies => put_copying(lines, ty, of),
        Hook::Assigns => put_assigning(lines, ty),
        Hook::Sinks => put_sinking(lines, ty),
        Hook::Ends => put_ending(lines, types, ty, of),
    }
}

// The hook of a text, where it is no routine.
fn put_text(lines: &mut Lines, hook: Hook, ty: TypeId)
    ensures { IsPut lines.old lines.new (text_lines hook ty) }
{
    match hook {
        Hook::Assigns => put_assigning(lines, ty),
        Hook::Sinks => put_sinking(lines, ty),
        Hook::Copies | Hook::Ends => {}
    }
}

// The hook of a type, by its entry.
fn put_entry(lines: &mut Lines, types: &TypeTable, hook: Hook, ty: TypeId, entry: &TypeDef)
    requires forms { HaveForms types.now }
    requires within { IsWithin (length types.now) entry.now }
    requires parts { AllBelow (length types.now) (parts_of entry.now) }
    ensures { IsPut lines.old lines.new (entry_lines types.now hook ty entry.now) }
{
    match entry {
        TypeDef::Text => put_text(lines, hook, ty),
        TypeDef::Seq(of) => put_sequence(lines, types, hook, ty, *of),
        TypeDef::Array { len, of } => put_array(lines, hook, *len, *of),
        TypeDef::Tuple { parts, .. } => put_parts(lines, types, hook, parts.as_slice()),
        TypeDef::Object { resource: true, .. } => {}
        TypeDef::Object {
            resource: false,
            parts,
            ..
        } => put_parts(lines, types, hook, parts.as_slice()),
        TypeDef::Distinct { base, .. } => lines.put(LiftedLine::Hook {
            hook,
            ty: *base,
            to: 0,
            from: 1,
        }),
        TypeDef::Int
        | TypeDef::Bool
        | TypeDef::Char
        | TypeDef::Param(_)
        | TypeDef::Enum { .. }
        | TypeDef::Ref { .. }
        | TypeDef::Exception { .. } => {}
    }
}

fn is_routine(entry: &TypeDef, hook: Hook) -> bool
    ensures { result ≡ is_routine entry.now hook }
{
    matches!(entry, TypeDef::Text) && matches!(hook, Hook::Copies | Hook::Ends)
}

// The lines of a hook.
fn lines_of(
    alloc: Global,
    types: &TypeTable,
    hook: Hook,
    ty: TypeId,
) -> Result<Items<LiftedLine>, Memory>
    requires forms { HaveForms types.now }
    requires inside { ty < length types.now }
    ensures { IfOk result (λ lines. (entry : Entry) → slice_get types.now ty ≡ Some entry →
        lines ≡ lines_of types.now hook ty entry) }
{
    let entry = types.get(ty);
    let mut lines = Lines::new(alloc);
    if !is_routine(entry, hook) {
        put_entry(&mut lines, types, hook, ty, entry);
        lines.put(LiftedLine::Plain(Line::Return { result: None }));
    }
    lines.finish()
}

// Adds a hook of a type.
fn add_hook(
    alloc: Global,
    hooks: &mut Items<Lifted>,
    types: &TypeTable,
    hook: Hook,
    ty: TypeId,
) -> Result<(), Memory>
    requires forms { HaveForms types.now }
    requires inside { ty < length types.now }
    ensures { OnOk result ((entry : Entry) → slice_get types.now ty ≡ Some entry →
        hooks.new ≡ hooks.old ++ hooks_of types.now ty entry (hook ∷ [])) }
{
    let lines = lines_of(alloc, types, hook, ty)?;
    hooks.push(Lifted { ty, hook, lines })
}

// Adds all hooks of a type.
fn add_hooks(
    alloc: Global,
    hooks: &mut Items<Lifted>,
    types: &TypeTable,
    ty: TypeId,
) -> Result<(), Memory>
    requires forms { HaveForms types.now }
    requires inside { ty < length types.now }
    ensures { OnOk result ((entry : Entry) → slice_get types.now ty ≡ Some entry →
        hooks.new ≡ hooks.old ++ hooks_of types.now ty entry all_hooks) }
{
    add_hook(alloc, hooks, types, Hook::Copies, ty)?;
    add_hook(alloc, hooks, types, Hook::Assigns, ty)?;
    add_hook(alloc, hooks, types, Hook::Sinks, ty)?;
    add_hook(alloc, hooks, types, Hook::Ends, ty)
}

// Whether a type has hooks, and no more levels.
fn is_lifted(types: &TypeTable, shallow: &[bool], ty: TypeId) -> bool
    requires forms { HaveForms types.now }
    requires marked { AreMarked types.now shallow.now }
    requires inside { ty < length types.now }
    ensures { result ≡ is_lifted types.now ty }
{
    if !has_hooks(types, ty) {
        return false;
    }
    is_shallow(types, shallow, ty)
}

// Adds the hooks of a type, if they are lifted.
fn add_type(
    alloc: Global,
    hooks: &mut Items<Lifted>,
    types: &TypeTable,
    shallow: &[bool],
    ty: TypeId,
) -> Result<(), Memory>
    requires forms { HaveForms types.now }
    requires marked { AreMarked types.now shallow.now }
    requires inside { ty < length types.now }
    ensures { OnOk result ((entry : Entry) → slice_get types.now ty ≡ Some entry →
        hooks.new ≡ hooks.old ++ of_entry types.now ty entry) }
{
    if !is_lifted(types, shallow, ty) {
        return Ok(());
    }
    add_hooks(alloc, hooks, types, ty)
}

// The hooks of all types.
fn hooks_of_all(alloc: Global, types: &TypeTable, shallow: &[bool]) -> Result<Items<Lifted>, Memory>
    requires forms { HaveForms types.now }
    requires marked { AreMarked types.now shallow.now }
    ensures { IfOk result (λ hooks. hooks ≡ lifted types.now) }
{
    let mut of = Items::new(alloc);
    for ty in 0..types.count() {
        add_type(alloc, &mut of, types, shallow, ty)?;
    }
    Ok(of)
}

/// The hooks of the types of a table that have at most `MOST_LEVELS` levels, as marks say: of each
/// type with hooks, in order, all four; and of each sequence whose elements have hooks what makes it
/// shorter. Each type has a form.
pub fn lift(alloc: Global, types: &TypeTable, shallow: &[bool]) -> Result<Hooks, Memory>
    requires forms { HaveForms types.now }
    requires marked { AreMarked types.now shallow.now }
    ensures { IfOk result (λ hooks. (hooks.of ≡ lifted types.now)
        × (hooks.cuts ≡ cuts types.now)) }
{
    let of = hooks_of_all(alloc, types, shallow)?;
    let cuts = cuts_of_all(alloc, types, shallow)?;
    Ok(Hooks { of, cuts })
}
