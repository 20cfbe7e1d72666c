// Which procedure a head is of.
ghost use Rattle.std.specs.Prelude.{◌≡◌, ℕ, List, length, map, IfOk, IfErr, Ok};
ghost use Rattle.arc_base.specs.declared.place.Stop.TheVariants as Stop;
ghost use Rattle.arc_base.specs.Refusal.{Answers, and_then};
ghost use Rattle.nim_tree.specs.Statements.{Head, head_of};
ghost use Rattle.nim_types.specs.Types.{Ty};
ghost use Rattle.expr_parts.specs.View.{ParametersWithin, parameter_of};
ghost use Rattle.decl_rules.specs.State.{State as Known, if_typed};
ghost use Rattle.decl_rules.specs.Heads.{head_by, parameters_of, procedure_name, headed};
ghost use Rattle.decl_rules.specs.Heads.{has_pragma, is_borrow};
ghost use Rattle.decl_parts.specs.View.{state_of, Beside, Over, Ready};
ghost use Rattle.decl_heads.specs.ViewHeads.{given_of, GivenWithin, SignatureWithin};
ghost use Rattle.decl_heads.specs.ViewHeads.{AreCompleted, completed_by, signature_of, headed_of};
ghost use Rattle.decl_heads.specs.declared.signature.Signature.{Signature as Signed};

use crate::borrowing::head_fits;
use crate::completion::{Completion, completion_in};
use crate::names::procedure_name;
use crate::signature::Signature;
use arc_base::{Bytes, Code, Items, Place, Stop};
use decl_parts::heads::has_borrow;
use decl_parts::state::State;
use expr_parts::scope::Parameter;
use expr_parts::value::refusal;
use nim_program::Param;
use nim_tree::ProcHead;
use std::alloc::Global;

/// What is known of a procedure at its head.
#[derive(Drop)]
pub struct Headed {
    /// Its name in normal form; in backticks, the sign of an operation.
    pub name: Bytes,
    /// That of its first declaration.
    pub number: u32,
    pub is_new: bool,
    pub borrowed: bool,
}

/// Parameters, as those who call the procedure see them.
pub fn parameters_of(alloc: Global, params: &[Param]) -> Result<Items<Parameter>, Stop>
    ensures params { IfOk result (λ all. (ts : List Ty) → map (parameter_of ts) all
        ≡ parameters_of (map (given_of ts) params.now)) }
    ensures within { (n : ℕ) → GivenWithin n params.now → IfOk result (ParametersWithin n) }
    ensures memory { IfErr result (λ stop. stop ≡ Stop.Memory) }
{
    let mut all = Items::new(alloc);
    for param in params {
        all.push(Parameter {
            mode: param.mode,
            ty: param.place.ty,
        })?;
    }
    Ok(all)
}

// The number of a further procedure.
fn next_number(completed: &[bool]) -> Result<u32, Stop>
    ensures next { IfOk result (λ n. n ≡ length completed.now) }
    ensures memory { IfErr result (λ stop. stop ≡ Stop.Memory) }
{
    let count = completed.len();
    if count > u32::MAX as usize {
        return Err(Stop::Memory);
    }
    Ok(count as u32)
}

fn headed_if(fits: bool, at: Place, headed: Headed) -> Result<Headed, Stop>
    ensures answers { (ts : List Ty) (s : Signed) → Answers (headed_of ts s)
        (and_then (if_typed fits at) (λ _. Ok (headed_of ts s headed))) result }
    ensures same { IfOk result (λ k. k ≡ headed) }
{
    if !fits {
        return Err(refusal(Code::NotTyped, at));
    }
    Ok(headed)
}

// A head that declares a procedure of this number, or completes another, or neither.
fn headed_by(
    name: Bytes,
    number: u32,
    borrowed: bool,
    at: Place,
    completion: Completion,
    fits: bool,
) -> Result<Headed, Stop>
    ensures answers { (ts : List Ty) (s : Signed) (st : Known) (h : Head)
        → number ≡ length st.procs → has_pragma is_borrow h.pragmas ≡ borrowed
        → Answers (headed_of ts s) (and_then (completed_by at completion) (λ c.
        and_then (if_typed fits at) (λ _. Ok (headed st h (signature_of ts s) c)))) result }
    ensures name { IfOk result (λ k. k.name ≡ name) }
{
    match completion {
        Completion::Nothing => headed_if(
            fits,
            at,
            Headed {
                name,
                number,
                is_new: true,
                borrowed,
            },
        ),
        Completion::Of(number) => headed_if(
            fits,
            at,
            Headed {
                name,
                number,
                is_new: false,
                borrowed,
            },
        ),
        Completion::Never => Err(refusal(Code::Redefined, at)),
    }
}

/// The procedure that a head is of, where its parameters and its result are known.
pub fn head_by(
    alloc: Global,
    state: &State,
    completed: &[bool],
    at: Place,
    head: &ProcHead,
    has_body: bool,
    signature: &Signature,
) -> Result<Headed, Stop>
    requires ready { Ready state.now }
    requires within { SignatureWithin (length state.now.types) signature.now }
    ensures said { (ts : List Ty) (b : Beside) → Over state.now ts → AreCompleted completed.now b
        → Answers (headed_of ts signature.now) (head_by (state_of ts b state.now) at
        (head_of head.now) has_body (signature_of ts signature.now)) result }
    ensures name { IfOk result (λ k. k.name ≡ procedure_name head.now.name) }
{
    let name = procedure_name(alloc, &head.name)?;
    let params = parameters_of(alloc, signature.params.as_slice())?;
    let number = next_number(completed)?;
    let word = name.as_slice();
    let given = params.as_slice();
    let gives = signature.gives;
    let fits = head_fits(
        &state.types,
        &state.scope,
        head,
        has_body,
        word,
        given,
        gives,
    );
    let completes = completion_in(state, completed, has_body, word, given, gives);
    let borrowed = has_borrow(&head.pragmas);
    headed_by(name, number, borrowed, at, completes, fits)
}
