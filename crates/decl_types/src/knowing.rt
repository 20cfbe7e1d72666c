// What becomes known behind the definitions that have been read.
ghost use Rattle.std.specs.Prelude.{◌≡◌, ◌+◌, ◌<◌, ◌≤◌, length, ℕ, List, Some, map, slice_get, true};
ghost use Rattle.std.specs.Prelude.{slice_set, None, IfOk, IfErr, IfSome, OnOk};
ghost use Rattle.arc_base.specs.declared.place.Stop.TheVariants as Stop;
ghost use Rattle.nim_types.specs.Types.{Ty, Key};
ghost use Rattle.expr_parts.specs.declared.scope.What.TheVariants as What;
ghost use Rattle.expr_parts.specs.ViewReady.{IsReady};
ghost use Rattle.decl_rules.specs.Meanings.{KnownType, next_in};
ghost use Rattle.decl_rules.specs.Meanings.{is_next as is_next_key};
ghost use Rattle.decl_types.specs.ViewKnown.{Kept, Holds};
ghost use Rattle.decl_types.specs.ViewReading.{IsReading, all_defined, defined_at};
ghost use Rattle.decl_types.specs.declared.known.Definition.{Definition};
ghost use Rattle.decl_types.specs.ViewMarks.{is_next, Stuck};
ghost use Rattle.decl_types.specs.ViewScoped.{KnowsOne, KnowsAll};
ghost use Rattle.decl_types.specs.ViewMarks.{is_unknown};
ghost use Rattle.decl_types.specs.ViewScoped.{declaration_from, mended_from};

use crate::known::{Definition, add_known};
use crate::nodes::Names;
use crate::occurring::next_known;
use arc_base::{Memory, Stop};
use expr_parts::scope::{Scope, What};
use nim_types::{TypeId, TypeTable};
use std::alloc::Global;

// Which definitions aren't known.
fn unknown_marks(alloc: Global, known: &[Option<TypeId>]) -> Result<Vec<bool>, Memory>
    ensures { IfOk result (λ marks. marks.items ≡ map is_unknown known.now) }
{
    let mut marks = Vec::new(alloc);
    for one in known {
        marks.push(one.is_none())?;
    }
    Ok(marks)
}

// The first definition that becomes known next.
fn next(
    alloc: Global,
    known: &[Option<TypeId>],
    read: &[Definition],
) -> Result<Option<usize>, Memory>
    ensures next { IfOk result (λ next. (n m : ℕ) (ts : List Ty) (keys : List Key)
        (k : List KnownType) → IsReading n m ts keys k (map is_unknown known.now) read.now
        → next_in (is_next_key keys (all_defined ts keys read.now) k)
        (all_defined ts keys read.now) ≡ defined_at ts keys read.now next) }
    ensures within { IfOk result (λ next. IfSome next (λ n. n < length read.now)) }
    ensures found { IfOk result (λ next. IfSome next (λ n. (d : Definition)
        → slice_get read.now n ≡ Some d → is_next (map is_unknown known.now) n d ≡ true)) }
    ensures stuck { IfOk result (λ next. next ≡ None
        → Stuck (map is_unknown known.now) read.now) }
{
    let marks = unknown_marks(alloc, known)?;
    next_known(alloc, marks.as_slice(), read)
}

fn note(known: &mut Vec<Option<TypeId>>, number: usize, id: TypeId)
    requires { number < length known.old.items }
    ensures { known.new.items ≡ slice_set known.old.items number (Some id) }
{
    known[number] = Some(id);
}

// Which of the declarations of a section is that of a definition: none is where its name is declared
// already.
fn declaration_of(numbers: &[u32], number: usize) -> Option<usize>
    ensures { declaration_from 0 numbers.now number ≡ result }
{
    let mut declaration = 0_usize;
    for first in numbers {
        if *first as usize == number {
            return Some(declaration);
        }
        declaration += 1;
    }
    None
}

// Declares the type of a definition where the scope has a declaration of it.
fn mend(scope: &mut Scope, names: &Names, number: usize, id: TypeId)
    ensures decls { scope.new.decls ≡ mended_from scope.old.decls names.now.start
        (declaration_from 0 names.now.numbers.items number) id }
    ensures kinds { scope.new.kinds ≡ scope.old.kinds }
    ensures home { scope.new.home ≡ scope.old.home }
{
    let Some(number) = declaration_of(names.numbers.as_slice(), number) else {
        return;
    };
    let start = names.start as usize;
    let behind = (scope.count() as usize).saturating_sub(start);
    if number < behind {
        scope.mend((start + number) as u32, What::Type(id));
    }
}

/// The definition of a number.
pub fn definition_at(read: &[Definition], number: usize) -> &Definition
    requires { number < length read.now }
    ensures { slice_get read.now number ≡ Some result.now }
{
    &read[number]
}

/// The type of the definition of a number, which is known.
pub fn known_type(known: &[Option<TypeId>], number: usize) -> TypeId
    requires { (id : ℕ) × (slice_get known.now number ≡ Some (Some id)) }
    ensures { slice_get known.now number ≡ Some (Some result) }
{
    match known.get(number) {
        Some(Some(id)) => *id,
        _ => unreachable!(),
    }
}

// The type of a definition that names known types alone, in the scope too.
fn know(
    alloc: Global,
    types: &mut TypeTable,
    scope: &mut Scope,
    names: &Names,
    known: &mut Vec<Option<TypeId>>,
    read: &[Definition],
    number: usize,
) -> Result<(), Stop>
    requires found { number < length read.now }
    requires next { (d : Definition) → slice_get read.now number ≡ Some d
        → is_next (map is_unknown known.old.items) number d ≡ true }
    requires room { number < length known.old.items }
    requires holds { Holds types.old known.old.items read.now }
    ensures kept { Kept types.old types.new }
    ensures ready { IsReady types.old scope.old → OnOk result (IsReady types.new scope.new) }
    ensures knows { OnOk result (KnowsOne types.old types.new scope.old scope.new names.now
        known.old.items known.new.items read.now number) }
    ensures count { OnOk result (length known.new.items ≡ length known.old.items) }
    ensures noted { OnOk result ((id : ℕ)
        × (known.new.items ≡ slice_set known.old.items number (Some id))) }
    ensures holds { OnOk result (Holds types.new known.new.items read.now) }
    ensures memory { IfErr result (λ stop. stop ≡ Stop.Memory) }
{
    let id = add_known(alloc, types, known.as_slice(), definition_at(read, number))?;
    note(known, number, id);
    mend(scope, names, number, id);
    Ok(())
}

/// All that can be known behind the definitions that have been read.
pub fn know_all(
    alloc: Global,
    types: &mut TypeTable,
    scope: &mut Scope,
    names: &Names,
    known: &mut Vec<Option<TypeId>>,
    read: &[Definition],
) -> Result<(), Stop>
    requires room { length read.now ≤ length known.old.items }
    requires holds { Holds types.old known.old.items read.now }
    ensures kept { Kept types.old types.new }
    ensures ready { IsReady types.old scope.old → OnOk result (IsReady types.new scope.new) }
    ensures knows { OnOk result (KnowsAll types.old types.new scope.old scope.new names.now
        known.old.items known.new.items read.now) }
    ensures count { OnOk result (length known.new.items ≡ length known.old.items) }
    ensures holds { OnOk result (Holds types.new known.new.items read.now) }
    ensures stuck { OnOk result (Stuck (map is_unknown known.new.items) read.now) }
    ensures memory { IfErr result (λ stop. stop ≡ Stop.Memory) }
{
    for _definition in read {
        match next(alloc, known.as_slice(), read)? {
            Some(number) => know(alloc, types, scope, names, known, read, number)?,
            None => return Ok(()),
        }
    }
    Ok(())
}
