// What heads say of parameters and results.
ghost use Rattle.std.specs.Prelude.{◌≡◌, ◌<◌, ◌+◌, List, [], ◌++◌, length, map, option_map};
ghost use Rattle.std.specs.Prelude.{IfOk, IfErr, OnOk, Ok};
ghost use Rattle.arc_base.specs.declared.place.Stop.TheVariants as Stop;
ghost use Rattle.arc_base.specs.Refusal.{Answers};
ghost use Rattle.nim_tree.specs.Statements.{parameters_of, head_of};
ghost use Rattle.nim_tree.specs.Types.{written_of};
ghost use Rattle.nim_types.specs.Types.{Ty};
ghost use Rattle.nim_types.specs.Table.{type_at};
ghost use Rattle.expr_parts.specs.View.{Grown};
ghost use Rattle.decl_rules.specs.Heads.{given_as, group_names, has_result, signature_rule};
ghost use Rattle.decl_parts.specs.View.{state_of, Beside, Over, Ready, Typing, Stating};
ghost use Rattle.decl_heads.specs.ViewHeads.{AreNumbered, GivenWithin, opening};
ghost use Rattle.decl_heads.specs.ViewHeads.{group_typed, group_rule, opening_rule, signature_of};
ghost use Rattle.decl_heads.specs.ViewHeads.{signature_inside, with_gives, given_of};
ghost use Rattle.decl_heads.specs.ViewHeads.{SignatureWithin, Extends, Opens};

use crate::given::{check_names, declare_all, given_as};
use crate::written::if_written;
use arc_base::{Items, Stop};
use decl_parts::heads::mode_of;
use decl_parts::state::{State, leave};
use decl_parts::written::written_type;
use nim_program::{Mode, Param};
use nim_tree::{Name, Param as Group, ProcHead, TypeTree};
use nim_types::TypeId;
use std::alloc::Global;

/// What a head says of its parameters, with their places, and of its result.
#[derive(Drop)]
pub struct Signature {
    pub params: Items<Param>,
    /// The type of the result.
    pub gives: Option<TypeId>,
}

// The names of a group are new in their scope.
fn new_names(alloc: Global, state: &mut State, has_result: bool, names: &[Name]) -> Result<(), Stop>
    requires ready { Ready state.old }
    ensures names { Stating state.old state.new (λ ts b x. x) (λ ts b. group_names
        (state_of ts b state.old) has_result [] names.now) result }
    ensures same { OnOk result (state.new ≡ state.old) }
    ensures types { state.new.types ≡ state.old.types }
{
    let outside = state.outside;
    check_names(alloc, &mut state.scope, outside, has_result, names)
}

// The parameters of a group whose type is known.
fn declare_group(
    alloc: Global,
    state: &mut State,
    names: &[Name],
    mode: Mode,
    ty: TypeId,
) -> Result<Vec<Param>, Stop>
    requires ready { Ready state.old }
    requires ty { ty < length state.old.types }
    ensures { Opens state.old state.new (λ all. all.items) (λ ts st. Ok (opening st
        (given_as names.now mode (type_at ts ty)))) result }
{
    let all = given_as(alloc, state.place, names, mode, ty)?;
    declare_all(alloc, state, all.as_slice())?;
    Ok(all)
}

fn typed_group(alloc: Global, state: &mut State, group: &Group) -> Result<Vec<Param>, Stop>
    requires ready { Ready state.old }
    ensures { Opens state.old state.new (λ all. all.items) (λ ts st. group_typed st
        (parameters_of group.now)) result }
{
    match written_type(alloc, state, &group.of) {
        Ok(ty) => declare_group(alloc, state, &group.names, mode_of(group.mode), ty),
        Err(stop) => Err(stop),
    }
}

fn new_group(
    alloc: Global,
    state: &mut State,
    has_result: bool,
    group: &Group,
) -> Result<Vec<Param>, Stop>
    requires ready { Ready state.old }
    ensures { Opens state.old state.new (λ all. all.items) (λ ts st. group_rule st has_result
        (parameters_of group.now)) result }
{
    match new_names(alloc, state, has_result, &group.names) {
        Ok(()) => typed_group(alloc, state, group),
        Err(stop) => Err(stop),
    }
}

fn append(all: &mut Items<Param>, more: Vec<Param>) -> Result<(), Stop>
    ensures all { OnOk result (all.new ≡ all.old ++ more.items) }
    ensures memory { IfErr result (λ stop. stop ≡ Stop.Memory) }
{
    for param in more {
        all.push(param)?;
    }
    Ok(())
}

// Parameters, which are declared one group after another.
fn parameters(
    alloc: Global,
    state: &mut State,
    has_result: bool,
    groups: &[Group],
) -> Result<Items<Param>, Stop>
    requires ready { Ready state.old }
    ensures { Opens state.old state.new (λ all. all) (λ ts st. opening_rule st has_result
        (map parameters_of groups.now)) result }
{
    let mut all = Items::new(alloc);
    for group in groups {
        match new_group(alloc, state, has_result, group) {
            Ok(more) => append(&mut all, more)?,
            Err(stop) => return Err(stop),
        }
    }
    Ok(all)
}

// A result behind parameters.
fn with_result(
    alloc: Global,
    state: &mut State,
    params: Items<Param>,
    tree: &Option<TypeTree>,
) -> Result<Signature, Stop>
    requires ready { Ready state.old }
    requires params { GivenWithin (length state.old.types) params }
    ensures said { Typing state.old state.new signature_of (λ ts env. with_gives env
        (option_map written_of tree.now) (map (given_of ts) params)) SignatureWithin result }
    ensures params { IfOk result (λ s. s.params ≡ params) }
{
    match if_written(alloc, state, tree) {
        Ok(gives) => Ok(Signature { params, gives }),
        Err(stop) => Err(stop),
    }
}

fn has_result(gives: &Option<TypeTree>) -> bool
    ensures { has_result (option_map written_of gives.now) ≡ result }
{
    match gives {
        Some(_) => true,
        None => false,
    }
}

// A signature, in a scope of its own that has been entered.
fn inside(alloc: Global, state: &mut State, head: &ProcHead) -> Result<Signature, Stop>
    requires ready { Ready state.old }
    ensures grown { Grown state.old.types state.new.types }
    ensures extends { OnOk result (Extends state.old state.new) }
    ensures answers { (ts : List Ty) (b : Beside) → Over state.new ts
        → Answers (signature_of ts) (signature_inside (state_of ts b state.old)
        (head_of head.now)) result }
    ensures within { IfOk result (λ s. SignatureWithin (length state.new.types) s) }
    ensures numbered { IfOk result (λ s. AreNumbered state.old.place s.params) }
{
    match parameters(alloc, state, has_result(&head.gives), &head.params) {
        Ok(params) => with_result(alloc, state, params, &head.gives),
        Err(stop) => Err(stop),
    }
}

/// What a head says of its parameters and its result. Behind it nothing more is declared.
pub fn head_signature(alloc: Global, state: &mut State, head: &ProcHead) -> Result<Signature, Stop>
    requires ready { Ready state.old }
    ensures said { Stating state.old state.new (λ ts b s. signature_of ts s) (λ ts b.
        signature_rule (state_of ts b state.old) (head_of head.now)) result }
    ensures same { OnOk result (state.new ≡ record state.old { types = state.new.types }) }
    ensures numbered { IfOk result (λ s. AreNumbered state.old.place s.params) }
    ensures within { IfOk result (λ s. SignatureWithin (length state.new.types) s) }
    ensures grown { Grown state.old.types state.new.types }
{
    let outside = state.outside;
    let place = state.place;
    let count = state.scope.count();
    state.outside = count;
    match inside(alloc, state, head) {
        Ok(signature) => {
            leave(state, count, outside);
            state.place = place;
            Ok(signature)
        }
        Err(stop) => Err(stop),
    }
}
