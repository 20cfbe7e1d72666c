// Definitions of constants.
ghost use Rattle.std.specs.Prelude.{◌≡◌, ◌<◌, ℕ, List, Option, ◌++◌, length, map, option_map};
ghost use Rattle.std.specs.Prelude.{IfOk, IfErr, OnOk, None, Some};
ghost use Rattle.arc_base.specs.declared.place.Stop.TheVariants as Stop;
ghost use Rattle.arc_base.specs.Refusal.{Answers, and_then};
ghost use Rattle.nim_tree.specs.Statements.{definition_of};
ghost use Rattle.nim_tree.specs.Terms.{term_of};
ghost use Rattle.nim_tree.specs.Types.{written_of};
ghost use Rattle.indent_scanner.specs.Words.{normal};
ghost use Rattle.nim_types.specs.Types.{Ty};
ghost use Rattle.nim_types.specs.Table.{type_at, IsBelow};
ghost use Rattle.nim_program.specs.View.{expr_of, if_type, literal_of};
ghost use Rattle.expr_rules.specs.Env.{Env, constant};
ghost use Rattle.expr_parts.specs.declared.scope.Decl.{Decl};
ghost use Rattle.expr_parts.specs.View.{Under, entry_of, valued_of, WhatWithin, DeclsWithin};
ghost use Rattle.expr_constants.specs.ViewFixed.{IsFixed};
ghost use Rattle.decl_rules.specs.Definitions.{constant_entries, fixed_value, constant_value};
ghost use Rattle.decl_rules.specs.Definitions.{constants_by, constants_in, constants_rule};
ghost use Rattle.decl_rules.specs.Written.{if_written};
ghost use Rattle.decl_parts.specs.View.{env_in, state_of, Ready, Typing, Stating};
ghost use Rattle.decl_stmts.specs.ViewDefinitions.{fixed_of, FixedWithin};

use crate::definitions::{annotation, new_names};
use arc_base::{Code, Stop};
use decl_parts::state::State;
use decl_parts::typing::definition_value;
use expr_constants::constant_rules::constant_rule;
use expr_parts::constants::copied;
use expr_parts::scope::{Decl, What};
use expr_parts::value::{Value, refusal};
use indent_scanner::normal_form;
use nim_program::Literal;
use nim_tree::{Binding, Declared, Def, Expr as Tree};
use nim_types::{TypeId, TypeTable};
use std::alloc::Global;

/// A value that is known before any run, with its type.
#[derive(Drop)]
pub struct Fixed {
    pub ty: TypeId,
    pub literal: Literal,
}

fn fixed_value(alloc: Global, types: &TypeTable, value: Value) -> Result<Fixed, Stop>
    requires value { value.ty < length types.now }
    requires fixed { IsFixed types.now (λ ts. expr_of ts value.expr) }
    ensures answers { (ts : List Ty) (env : Env) → Under types.now ts env.facts
        → Answers (fixed_of ts) (fixed_value env (valued_of ts value)) result }
    ensures fits { IfOk result (FixedWithin (length types.now)) }
{
    let ty = value.ty;
    match constant_rule(alloc, types, value) {
        Ok(literal) => Ok(Fixed { ty, literal }),
        Err(stop) => Err(stop),
    }
}

fn constant_value(
    alloc: Global,
    state: &mut State,
    ty: Option<TypeId>,
    value: &Tree,
) -> Result<Fixed, Stop>
    requires ready { Ready state.old }
    requires ty { IsBelow (length state.old.types) ty }
    ensures { Typing state.old state.new fixed_of (λ ts env. constant_value env (if_type ts ty)
        (term_of value.now)) FixedWithin result }
{
    match definition_value(alloc, state, ty, 0, value) {
        Ok(given) => fixed_value(alloc, &state.types, given.value),
        Err(stop) => Err(stop),
    }
}

fn constant(alloc: Global, name: &[u8], value: &Fixed) -> Result<Decl, Stop>
    ensures entry { IfOk result (λ d. (ts : List Ty) → entry_of ts d ≡ constant (normal name.now)
        (type_at ts value.now.ty) (literal_of value.now.literal)) }
    ensures within { IfOk result (λ d. (n : ℕ) → value.now.ty < n → WhatWithin n d.what) }
    ensures memory { IfErr result (λ stop. stop ≡ Stop.Memory) }
{
    let name = normal_form(alloc, name)?;
    let literal = copied(alloc, &value.literal)?;
    Ok(Decl {
        name,
        what: What::Constant {
            ty: value.ty,
            value: literal,
        },
    })
}

// Declares the names of a definition as constants.
fn declare_constants(
    alloc: Global,
    state: &mut State,
    names: &[Declared],
    value: &Fixed,
) -> Result<(), Stop>
    ensures behind { OnOk result ((ts : List Ty) → map (entry_of ts) state.new.scope.decls
        ≡ map (entry_of ts) state.old.scope.decls ++ constant_entries (type_at ts value.now.ty)
        (literal_of value.now.literal) names.now) }
    ensures begins { OnOk result ((more : List Decl) × (state.new.scope.decls
        ≡ state.old.scope.decls ++ more)) }
    ensures within { OnOk result ((n : ℕ) → value.now.ty < n
        → DeclsWithin n state.old.scope.decls → DeclsWithin n state.new.scope.decls) }
    ensures kinds { state.new.scope.kinds ≡ state.old.scope.kinds }
    ensures home { state.new.scope.home ≡ state.old.scope.home }
    ensures same { state.new ≡ record state.old { scope = state.new.scope } }
    ensures memory { IfErr result (λ stop. stop ≡ Stop.Memory) }
{
    for name in names {
        let decl = constant(alloc, name.text.as_slice(), value)?;
        state.scope.declare(decl)?;
    }
    Ok(())
}

fn fix(
    alloc: Global,
    state: &mut State,
    ty: Option<TypeId>,
    value: &Tree,
    names: &[Declared],
) -> Result<(), Stop>
    requires ready { Ready state.old }
    requires ty { IsBelow (length state.old.types) ty }
    ensures { Stating state.old state.new (λ ts b _. state_of ts b state.new) (λ ts b.
        constants_by (state_of ts b state.old) (if_type ts ty) (Some (term_of value.now))
        names.now) result }
{
    match constant_value(alloc, state, ty, value) {
        Ok(value) => declare_constants(alloc, state, names, &value),
        Err(stop) => Err(stop),
    }
}

// Without a value no name is a constant.
fn unfixed(state: &mut State, names: &[Declared]) -> Result<(), Stop>
    requires ready { Ready state.old }
    ensures { (ty : List Ty → Option Ty) → Stating state.old state.new (λ ts b _.
        state_of ts b state.new) (λ ts b. constants_by (state_of ts b state.old) (ty ts) None
        names.now) result }
{
    match names.split_first() {
        Some((name, _)) => Err(refusal(Code::NotTyped, name.at)),
        None => Ok(()),
    }
}

fn constants_by(alloc: Global, state: &mut State, ty: Option<TypeId>, def: &Def) -> Result<(), Stop>
    requires ready { Ready state.old }
    requires ty { IsBelow (length state.old.types) ty }
    ensures { Stating state.old state.new (λ ts b _. state_of ts b state.new) (λ ts b.
        constants_by (state_of ts b state.old) (if_type ts ty) (option_map term_of def.now.value)
        def.now.names.items) result }
{
    match &def.value {
        Some(value) => fix(alloc, state, ty, value, &def.names),
        None => unfixed(state, &def.names),
    }
}

// A definition whose names are new.
fn constants_with(alloc: Global, state: &mut State, def: &Def) -> Result<(), Stop>
    requires ready { Ready state.old }
    ensures { Stating state.old state.new (λ ts b _. state_of ts b state.new) (λ ts b. and_then
        (if_written (env_in ts state.old) (option_map written_of def.now.annotation)) (λ ty.
        constants_by (state_of ts b state.old) ty (option_map term_of def.now.value)
        def.now.names.items)) result }
{
    match annotation(alloc, state, def) {
        Ok(ty) => constants_by(alloc, state, ty, def),
        Err(stop) => Err(stop),
    }
}

fn constants_in(alloc: Global, state: &mut State, def: &Def) -> Result<(), Stop>
    requires ready { Ready state.old }
    ensures { Stating state.old state.new (λ ts b _. state_of ts b state.new) (λ ts b.
        constants_in (state_of ts b state.old) (definition_of def.now)) result }
{
    match new_names(alloc, state, Binding::Const, def) {
        Ok(()) => constants_with(alloc, state, def),
        Err(stop) => Err(stop),
    }
}

/// Definitions of constants.
pub fn constants(alloc: Global, state: &mut State, defs: &[Def]) -> Result<(), Stop>
    requires ready { Ready state.old }
    ensures { Stating state.old state.new (λ ts b _. state_of ts b state.new) (λ ts b.
        constants_rule (state_of ts b state.old) (map definition_of defs.now)) result }
{
    for def in defs {
        match constants_in(alloc, state, def) {
            Ok(()) => {}
            Err(stop) => return Err(stop),
        }
    }
    Ok(())
}
