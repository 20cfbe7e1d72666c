// Parameters: their names are new, and they are declared one after another.
ghost use Rattle.std.specs.Prelude.{◌≡◌, ◌<◌, ◌≤◌, ◌+◌, ◌∷◌, ◌++◌, ℕ, suc, List, [], length, map};
ghost use Rattle.std.specs.Prelude.{drop, IfOk, IfErr, OnOk};
ghost use Rattle.arc_base.specs.declared.place.Stop.TheVariants as Stop;
ghost use Rattle.arc_base.specs.Refusal.{Answers};
ghost use Rattle.indent_scanner.specs.Words.{normal};
ghost use Rattle.nim_types.specs.Types.{Ty};
ghost use Rattle.nim_types.specs.Table.{type_at};
ghost use Rattle.expr_parts.specs.declared.scope.Decl.{Decl};
ghost use Rattle.expr_parts.specs.View.{entry_of, WhatWithin};
ghost use Rattle.decl_rules.specs.State.{State as Known, own_entries};
ghost use Rattle.decl_rules.specs.Heads.{is_taken, group_names, given_as, with_parameters};
ghost use Rattle.decl_rules.specs.Heads.{parameter_entry};
ghost use Rattle.decl_parts.specs.View.{own_names};
ghost use Rattle.decl_heads.specs.ViewHeads.{given_of, GivenWithin, AreNumbered};
ghost use Rattle.decl_heads.specs.ViewHeads.{group_name, Declares};

use arc_base::{Bytes, Code, Stop};
use decl_parts::heads::{is_result_name, is_written};
use decl_parts::state::{State, after};
use expr_parts::scope::{Decl, Scope, What};
use expr_parts::value::refusal;
use indent_scanner::normal_form;
use nim_program::{Mode, Param, PlaceDecl};
use nim_tree::Name;
use nim_types::TypeId;
use std::alloc::Global;

fn is_taken(scope: &Scope, outside: u32, has_result: bool, word: &[u8]) -> bool
    ensures { (st : Known) (before : List (List ℕ)) → own_names outside scope.now.decls st before
        → is_taken st has_result before word.now ≡ result }
{
    scope.is_declared_since(word, outside) || is_result_name(has_result, word)
}

// One name more of a group, which the scope takes up until all of them are known.
fn take_name(
    alloc: Global,
    scope: &mut Scope,
    outside: u32,
    has_result: bool,
    name: &Name,
) -> Result<(), Stop>
    requires outside { outside ≤ length scope.old.decls }
    ensures answers { (st : Known) (before : List (List ℕ))
        → own_names outside scope.old.decls st before
        → Answers (λ _. tt) (group_name st has_result before name.now) result }
    ensures names { OnOk result ((st : Known) (before : List (List ℕ))
        → own_names outside scope.old.decls st before
        → own_names outside scope.new.decls st (normal name.now.text ∷ before)) }
    ensures begins { OnOk result ((more : List Decl) × (scope.new.decls
        ≡ scope.old.decls ++ more)) }
    ensures kinds { scope.new.kinds ≡ scope.old.kinds }
    ensures home { scope.new.home ≡ scope.old.home }
{
    let word = normal_form(alloc, name.text.as_slice())?;
    if is_taken(scope, outside, has_result, word.as_slice()) {
        return Err(refusal(Code::Redefined, name.at));
    }
    scope.declare(Decl {
        name: word,
        what: What::Input,
    })?;
    Ok(())
}

fn take_names(
    alloc: Global,
    scope: &mut Scope,
    outside: u32,
    has_result: bool,
    names: &[Name],
) -> Result<(), Stop>
    requires outside { outside ≤ length scope.old.decls }
    ensures answers { (st : Known) (before : List (List ℕ))
        → own_names outside scope.old.decls st before
        → Answers (λ _. tt) (group_names st has_result before names.now) result }
    ensures begins { OnOk result ((more : List Decl) × (scope.new.decls
        ≡ scope.old.decls ++ more)) }
    ensures kinds { scope.new.kinds ≡ scope.old.kinds }
    ensures home { scope.new.home ≡ scope.old.home }
{
    for name in names {
        match take_name(alloc, scope, outside, has_result, name) {
            Ok(()) => {}
            Err(stop) => return Err(stop),
        }
    }
    Ok(())
}

/// The names of a group: each is new in its scope.
pub fn check_names(
    alloc: Global,
    scope: &mut Scope,
    outside: u32,
    has_result: bool,
    names: &[Name],
) -> Result<(), Stop>
    requires outside { outside ≤ length scope.old.decls }
    ensures answers { (ts : List Ty) (st : Known)
        → own_entries st ≡ map (entry_of ts) (drop outside scope.old.decls)
        → Answers (λ _. tt) (group_names st has_result [] names.now) result }
    ensures same { OnOk result (scope.new ≡ scope.old) }
{
    let count = scope.count();
    match take_names(alloc, scope, outside, has_result, names) {
        Ok(()) => {
            scope.leave(count);
            Ok(())
        }
        Err(stop) => Err(stop),
    }
}

fn one_given(alloc: Global, number: u32, name: &Name, mode: Mode, ty: TypeId) -> Result<Param, Stop>
    ensures given { IfOk result (λ p. (ts : List Ty) → given_of ts p
        ≡ record { name = name.now; mode = mode; of = type_at ts ty }) }
    ensures ty { IfOk result (λ p. p.place.ty ≡ ty) }
    ensures number { IfOk result (λ p. p.place.number ≡ number) }
    ensures memory { IfErr result (λ stop. stop ≡ Stop.Memory) }
{
    let text = Bytes::from_slice(alloc, name.text.as_slice())?;
    let place = PlaceDecl {
        number,
        name: text,
        at: name.at,
        ty,
    };
    Ok(Param { place, mode })
}

/// Parameters of one type, whose places follow one another.
pub fn given_as(
    alloc: Global,
    first: u32,
    names: &[Name],
    mode: Mode,
    ty: TypeId,
) -> Result<Vec<Param>, Stop>
    ensures given { IfOk result (λ all. (ts : List Ty) → map (given_of ts) all.items
        ≡ given_as names.now mode (type_at ts ty)) }
    ensures within { IfOk result (λ all. (n : ℕ) → ty < n → GivenWithin n all.items) }
    ensures numbered { IfOk result (λ all. AreNumbered first all.items) }
    ensures memory { IfErr result (λ stop. stop ≡ Stop.Memory) }
{
    let mut all = Vec::new(alloc);
    let mut number = first;
    for name in names {
        let one = one_given(alloc, number, name, mode, ty)?;
        all.push(one)?;
        number = after(number)?;
    }
    Ok(all)
}

// The parameter as a variable, with its place.
fn variable(alloc: Global, place: u32, param: &Param) -> Result<Decl, Stop>
    ensures entry { IfOk result (λ d. (ts : List Ty) → entry_of ts d
        ≡ parameter_entry place (given_of ts param.now)) }
    ensures within { IfOk result (λ d. (n : ℕ) → param.now.place.ty < n → WhatWithin n d.what) }
    ensures memory { IfErr result (λ stop. stop ≡ Stop.Memory) }
{
    let name = normal_form(alloc, param.place.name.as_slice())?;
    Ok(Decl {
        name,
        what: What::Variable {
            place,
            ty: param.place.ty,
            writable: is_written(param.mode),
            global: false,
        },
    })
}

fn declare_one(alloc: Global, state: &mut State, param: &Param) -> Result<(), Stop>
    requires ty { param.now.place.ty < length state.old.types }
    ensures behind { OnOk result (Declares state.old state.new (λ ts st. with_parameters st
        (given_of ts param.now ∷ []))) }
    ensures place { OnOk result (state.new.place ≡ suc state.old.place) }
    ensures types { state.new.types ≡ state.old.types }
    ensures memory { IfErr result (λ stop. stop ≡ Stop.Memory) }
{
    let next = after(state.place)?;
    let decl = variable(alloc, state.place, param)?;
    state.scope.declare(decl)?;
    state.place = next;
    Ok(())
}

/// Declares parameters, in order.
pub fn declare_all(alloc: Global, state: &mut State, all: &[Param]) -> Result<(), Stop>
    requires within { GivenWithin (length state.old.types) all.now }
    ensures behind { OnOk result (Declares state.old state.new (λ ts st. with_parameters st
        (map (given_of ts) all.now))) }
    ensures place { OnOk result (state.new.place ≡ state.old.place + length all.now) }
    ensures types { state.new.types ≡ state.old.types }
    ensures memory { IfErr result (λ stop. stop ≡ Stop.Memory) }
{
    for param in all {
        declare_one(alloc, state, param)?;
    }
    Ok(())
}
