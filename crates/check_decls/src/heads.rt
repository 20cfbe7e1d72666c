// What the head of a procedure declares.
ghost use Rattle.std.specs.Prelude.{◌≡◌, ◌<◌, ℕ, List, length, true, codes};
ghost use Rattle.std.specs.Prelude.{Some, option_map, IfOk, OnOk, IfErr};
ghost use Rattle.arc_base.specs.declared.place.Stop.TheVariants as Stop;
ghost use Rattle.nim_tree.specs.Types.{Written, written_of};
ghost use Rattle.nim_types.specs.Types.{Ty};
ghost use Rattle.nim_types.specs.Table.{type_at, IsBelow};
ghost use Rattle.nim_program.specs.View.{declared_of, if_type};
ghost use Rattle.decl_rules.specs.Bodies.{result_at};
ghost use Rattle.decl_rules.specs.Written.{type_place};
ghost use Rattle.decl_parts.specs.View.{Ready, place_of};
ghost use Rattle.decl_heads.specs.ViewHeads.{SignatureWithin};
ghost use Rattle.check_decls.specs.ViewBodies.{HeadDeclared, BodyBegun};
ghost use Rattle.check_decls.specs.ViewBodies.{with_result_in, place_type};

use arc_base::{Bytes, Place, Stop};
use decl_heads::given::declare_all;
use decl_heads::heads::{Headed, parameters_of};
use decl_heads::signature::Signature;
use decl_parts::names::place_of;
use decl_parts::state::{State, after};
use expr_parts::scope::{Decl, Procedure, What};
use nim_program::PlaceDecl;
use nim_tree::{ProcHead, TypeTree};
use nim_types::TypeId;
use std::alloc::Global;

// ---- the procedure

fn declare_new(
    alloc: Global,
    state: &mut State,
    signature: &Signature,
    headed: &Headed,
) -> Result<(), Stop>
    requires ready { Ready state.old }
    requires within { SignatureWithin (length state.old.types) signature.now }
    requires new { headed.now.is_new ≡ true }
    ensures declared { OnOk result (HeadDeclared state.old state.new signature.now headed.now) }
    ensures types { state.new.types ≡ state.old.types }
    ensures memory { IfErr result (λ stop. stop ≡ Stop.Memory) }
{
    let params = parameters_of(alloc, signature.params.as_slice())?;
    let name = Bytes::from_slice(alloc, headed.name.as_slice())?;
    state.scope.declare(Decl {
        name,
        what: What::Procedure(Procedure {
            number: headed.number,
            params,
            gives: signature.gives,
            borrowed: headed.borrowed,
        }),
    })?;
    Ok(())
}

/// Declares the procedure of a head, where it isn't declared before.
pub fn declare_head(
    alloc: Global,
    state: &mut State,
    signature: &Signature,
    headed: &Headed,
) -> Result<(), Stop>
    requires ready { Ready state.old }
    requires within { SignatureWithin (length state.old.types) signature.now }
    ensures declared { OnOk result (HeadDeclared state.old state.new signature.now headed.now) }
    ensures types { state.new.types ≡ state.old.types }
    ensures memory { IfErr result (λ stop. stop ≡ Stop.Memory) }
{
    if headed.is_new {
        declare_new(alloc, state, signature, headed)
    } else {
        Ok(())
    }
}

// ---- its parameters and its result

/// The place of a written type.
fn type_place(tree: &TypeTree) -> Place
    ensures { result ≡ type_place (written_of tree.now) }
{
    match tree {
        TypeTree::Named { at, .. }
        | TypeTree::Array { at, .. }
        | TypeTree::Ref { at, .. }
        | TypeTree::Tuple { at, .. } => *at,
    }
}

// `result` as a variable, with the next place.
fn some_result(
    alloc: Global,
    state: &mut State,
    at: Place,
    ty: TypeId,
) -> Result<Option<PlaceDecl>, Stop>
    ensures place { IfOk result (λ place. (ts : List Ty) → option_map (declared_of ts) place
        ≡ Some (place_of state.old.place (codes "result") at (type_at ts ty))) }
    ensures state { IfOk result (λ place. state.new ≡ with_result_in state.old place) }
    ensures ty { (n : ℕ) → ty < n → IfOk result (λ place. IsBelow n (place_type place)) }
    ensures types { state.new.types ≡ state.old.types }
    ensures memory { IfErr result (λ stop. stop ≡ Stop.Memory) }
{
    let place = place_of(alloc, state.place, b"result", at, ty)?;
    let next = after(state.place)?;
    let name = Bytes::from_slice(alloc, b"result")?;
    state.scope.declare(Decl {
        name,
        what: What::Variable {
            place: place.number,
            ty: place.ty,
            writable: true,
            global: false,
        },
    })?;
    state.place = next;
    Ok(Some(place))
}

fn typed_result(
    alloc: Global,
    state: &mut State,
    at: Place,
    ty: Option<TypeId>,
) -> Result<Option<PlaceDecl>, Stop>
    ensures place { IfOk result (λ place. (ts : List Ty) (tree : Written) → type_place tree ≡ at
        → option_map (declared_of ts) place
        ≡ result_at state.old.place (Some tree) (if_type ts ty)) }
    ensures state { IfOk result (λ place. state.new ≡ with_result_in state.old place) }
    ensures ty { (n : ℕ) → IsBelow n ty → IfOk result (λ place. IsBelow n (place_type place)) }
    ensures types { state.new.types ≡ state.old.types }
    ensures memory { IfErr result (λ stop. stop ≡ Stop.Memory) }
{
    match ty {
        Some(ty) => some_result(alloc, state, at, ty),
        None => Ok(None),
    }
}

// `result`, where the head has one.
fn declare_result(
    alloc: Global,
    state: &mut State,
    gives: &Option<TypeTree>,
    ty: Option<TypeId>,
) -> Result<Option<PlaceDecl>, Stop>
    ensures place { IfOk result (λ place. (ts : List Ty) → option_map (declared_of ts) place
        ≡ result_at state.old.place (option_map written_of gives.now) (if_type ts ty)) }
    ensures state { IfOk result (λ place. state.new ≡ with_result_in state.old place) }
    ensures ty { (n : ℕ) → IsBelow n ty → IfOk result (λ place. IsBelow n (place_type place)) }
    ensures types { state.new.types ≡ state.old.types }
    ensures memory { IfErr result (λ stop. stop ≡ Stop.Memory) }
{
    match gives {
        Some(tree) => typed_result(alloc, state, type_place(tree), ty),
        None => Ok(None),
    }
}

/// Begins the scope of parameters and result, and that of the body in it.
pub fn begin_body(
    alloc: Global,
    state: &mut State,
    head: &ProcHead,
    signature: &Signature,
) -> Result<Option<PlaceDecl>, Stop>
    requires ready { Ready state.old }
    requires within { SignatureWithin (length state.old.types) signature.now }
    ensures begun { IfOk result (λ place. BodyBegun state.old state.new head.now signature.now
        place) }
    ensures types { state.new.types ≡ state.old.types }
    ensures memory { IfErr result (λ stop. stop ≡ Stop.Memory) }
{
    declare_all(alloc, state, signature.params.as_slice())?;
    let place = declare_result(alloc, state, &head.gives, signature.gives)?;
    state.outside = state.scope.count();
    Ok(place)
}
