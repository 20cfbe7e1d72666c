// Whether a declaration of a procedure is a further one, and of which.
ghost use Rattle.std.specs.Prelude.{◌≡◌, ◌||◌, ◌&&◌, not, ℕ, List, length, map, slice_get};
ghost use Rattle.arc_base.specs.declared.place.Place.{Place};
ghost use Rattle.nim_types.specs.Types.{Ty, Facts};
ghost use Rattle.nim_types.specs.Table.{IsBelow};
ghost use Rattle.nim_program.specs.View.{if_type};
ghost use Rattle.expr_rules.specs.Choices.{same_value};
ghost use Rattle.expr_parts.specs.View.{Under, ParametersWithin, WhatWithin, parameter_of};
ghost use Rattle.expr_parts.specs.View.{procedure_of, entry_by};
ghost use Rattle.expr_rules.specs.Env.{Procedure as Called, procedure as called};
ghost use Rattle.decl_rules.specs.State.{State as Known, own_entries};
ghost use Rattle.decl_rules.specs.Heads.{is_awaited, is_completion, completion_rule, earlier};
ghost use Rattle.decl_rules.specs.Heads.{completes_if};
ghost use Rattle.decl_rules.specs.Heads.{earlier_by, Earlier};
ghost use Rattle.decl_parts.specs.View.{Beside, Over, Ready, state_of};
ghost use Rattle.decl_heads.specs.ViewHeads.{holds_at, AreCompleted, completed_by};

use decl_parts::heads::{same_modes, same_types};
use decl_parts::state::State;
use expr_parts::kinds::is_same;
use expr_parts::scope::{Parameter, Procedure, What};
use nim_types::{TypeId, TypeTable};

/// What a declaration completes.
#[derive(Clone, Copy)]
pub enum Completion {
    /// It is the first one.
    Nothing,
    /// The procedure of this number.
    Of(u32),
    /// Another declaration of its scope stands against it.
    Never,
}

// Whether a procedure has its body.
fn is_completed(completed: &[bool], number: u32) -> bool
    ensures { holds_at (slice_get completed.now number) ≡ result }
{
    completed.get(number as usize).copied().unwrap_or(false)
}

/// Whether two types of results, or that there is none, are one.
fn same_value(types: &TypeTable, a: Option<TypeId>, b: Option<TypeId>) -> bool
    requires a { IsBelow (length types.now) a }
    requires b { IsBelow (length types.now) b }
    ensures { (ts : List Ty) (facts : Facts) → Under types.now ts facts
        → same_value (if_type ts a) (if_type ts b) ≡ result }
{
    match (a, b) {
        (None, None) => true,
        (Some(a), Some(b)) => is_same(types, a, b),
        _ => false,
    }
}

fn neither(a: bool, b: bool) -> bool
    ensures { not (a || b) ≡ result }
{
    !(a || b)
}

fn is_awaited(completed: &[bool], procedure: &Procedure) -> bool
    ensures { (ts : List Ty) (b : Beside) → AreCompleted completed.now b
        → is_awaited b.text (procedure_of ts procedure.now) ≡ result }
{
    neither(
        procedure.borrowed,
        is_completed(completed, procedure.number),
    )
}

fn are_all(has_body: bool, awaited: bool, modes: bool, gives: bool) -> bool
    ensures { ((has_body && awaited) && (modes && gives)) ≡ result }
{
    has_body && awaited && modes && gives
}

// Whether the head, with its modes and its result, completes a procedure.
fn is_completion(
    types: &TypeTable,
    completed: &[bool],
    has_body: bool,
    params: &[Parameter],
    gives: Option<TypeId>,
    procedure: &Procedure,
) -> bool
    requires gives { IsBelow (length types.now) gives }
    requires own { IsBelow (length types.now) procedure.now.gives }
    ensures { (ts : List Ty) (facts : Facts) (b : Beside) → Under types.now ts facts
        → AreCompleted completed.now b → is_completion b.text has_body
        (map (parameter_of ts) params.now) (if_type ts gives) (procedure_of ts procedure.now)
        ≡ result }
{
    are_all(
        has_body,
        is_awaited(completed, procedure),
        same_modes(procedure.params.as_slice(), params),
        same_value(types, procedure.gives, gives),
    )
}

fn completion_of(number: u32, completes: bool) -> Completion
    ensures { (at : Place) (p : Called) → p.number ≡ number
        → completes_if completes at p ≡ completed_by at result }
{
    if completes {
        Completion::Of(number)
    } else {
        Completion::Never
    }
}

// With a procedure before other declarations of the name, by what these say.
fn completion_by(
    types: &TypeTable,
    completed: &[bool],
    has_body: bool,
    params: &[Parameter],
    gives: Option<TypeId>,
    procedure: &Procedure,
    rest: Completion,
) -> Completion
    requires params { ParametersWithin (length types.now) params.now }
    requires gives { IsBelow (length types.now) gives }
    requires own { IsBelow (length types.now) procedure.now.gives }
    requires known { ParametersWithin (length types.now) procedure.now.params }
    ensures { (ts : List Ty) (facts : Facts) (b : Beside) (st : Known) (at : Place) (x : List ℕ)
        (more : Earlier) → Under types.now ts facts → AreCompleted completed.now b
        → st.text ≡ b.text
        → completion_rule st at has_body (map (parameter_of ts) params.now) (if_type ts gives) more
        ≡ completed_by at rest
        → completion_rule st at has_body (map (parameter_of ts) params.now) (if_type ts gives)
        (earlier_by (map (parameter_of ts) params.now) (called x (procedure_of ts procedure.now))
        more) ≡ completed_by at result }
{
    if !same_types(types, procedure.params.as_slice(), params) {
        return rest;
    }
    completion_of(
        procedure.number,
        is_completion(types, completed, has_body, params, gives, procedure),
    )
}

// The same with a declaration of any kind: what is no procedure stands against each.
fn completion_at(
    types: &TypeTable,
    completed: &[bool],
    has_body: bool,
    params: &[Parameter],
    gives: Option<TypeId>,
    what: &What,
    rest: Completion,
) -> Completion
    requires params { ParametersWithin (length types.now) params.now }
    requires gives { IsBelow (length types.now) gives }
    requires what { WhatWithin (length types.now) what.now }
    ensures { (ts : List Ty) (facts : Facts) (b : Beside) (st : Known) (at : Place) (x : List ℕ)
        (more : Earlier) → Under types.now ts facts → AreCompleted completed.now b
        → st.text ≡ b.text
        → completion_rule st at has_body (map (parameter_of ts) params.now) (if_type ts gives) more
        ≡ completed_by at rest
        → completion_rule st at has_body (map (parameter_of ts) params.now) (if_type ts gives)
        (earlier_by (map (parameter_of ts) params.now) (entry_by ts x what.now) more)
        ≡ completed_by at result }
{
    match what.procedure() {
        Some(procedure) => completion_by(
            types, completed, has_body, params, gives, procedure, rest,
        ),
        None => Completion::Never,
    }
}

/// What a declaration of a name completes, by the declarations of its scope.
pub fn completion_in(
    state: &State,
    completed: &[bool],
    has_body: bool,
    name: &[u8],
    params: &[Parameter],
    gives: Option<TypeId>,
) -> Completion
    requires ready { Ready state.now }
    requires params { ParametersWithin (length state.now.types) params.now }
    requires gives { IsBelow (length state.now.types) gives }
    ensures { (ts : List Ty) (b : Beside) (at : Place) → Over state.now ts
        → AreCompleted completed.now b → completion_rule (state_of ts b state.now) at has_body
        (map (parameter_of ts) params.now) (if_type ts gives) (earlier name.now
        (map (parameter_of ts) params.now) (own_entries (state_of ts b state.now)))
        ≡ completed_by at result }
{
    let decls = &state.scope.decls;
    let mut completion = Completion::Nothing;
    let mut next = decls.last(name);
    while let Some(number) = next {
        if number < state.outside {
            return completion;
        }
        let what = &decls.get(number).what;
        completion = completion_at(
            &state.types,
            completed,
            has_body,
            params,
            gives,
            what,
            completion,
        );
        next = decls.before(number, name);
    }
    completion
}
