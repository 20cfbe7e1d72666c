// Procedures.
ghost use Rattle.std.specs.Prelude.{◌≡◌, List, [], length, None, IfOk, IfErr, OnOk};
ghost use Rattle.arc_base.specs.Refusal.{and_then};
ghost use Rattle.arc_base.specs.declared.place.Stop.TheVariants as Stop;
ghost use Rattle.nim_tree.specs.Statements.{head_of, statements_of, proclaims};
ghost use Rattle.nim_types.specs.Types.{Ty};
ghost use Rattle.decl_rules.specs.Heads.{head_by, procedure_name};
ghost use Rattle.decl_rules.specs.State.{in_module, stated_as};
ghost use Rattle.decl_rules.specs.Stated.{has_statements, stated};
ghost use Rattle.decl_parts.specs.View.{Over};
ghost use Rattle.check_decls.specs.View.{Sound, Reached, Passing, known_in};
ghost use Rattle.decl_heads.specs.ViewHeads.{AreNumbered, SignatureWithin};
ghost use Rattle.decl_heads.specs.ViewHeads.{headed_of, signature_of};
ghost use Rattle.check_decls.specs.ViewBodies.{proclaim_rule, NumberFits, CompletesThere, Noted};

use crate::bodies::{body_of, has_statements};
use crate::draft::{Draft, add_procedure, complete_procedure};
use crate::heads::declare_head;
use arc_base::{Bytes, Place, Stop};
use decl_heads::heads::{Headed, head_by};
use decl_heads::signature::{Signature, head_signature};
use nim_program::{Body, Proc};
use nim_tree::{ProcHead, Stmt as Tree};
use std::alloc::Global;
use typing_laws::completed_there;

fn proc_of(
    alloc: Global,
    at: Place,
    head: &ProcHead,
    signature: Signature,
    body: Option<Body>,
) -> Result<Proc, Stop>
    ensures proc { IfOk result (λ proc. proc ≡ record {
      name = head.now.name.text;
      at = at;
      type_params = 0;
      params = signature.params;
      gives = signature.gives;
      body = body;
      hook = None;
    }) }
    ensures memory { IfErr result (λ stop. stop ≡ Stop.Memory) }
{
    let name = Bytes::from_slice(alloc, head.name.text.as_slice())?;
    Ok(Proc {
        name,
        at,
        type_params: 0,
        params: signature.params,
        gives: signature.gives,
        body,
        hook: None,
    })
}

fn note_procedure(draft: &mut Draft, headed: &Headed, proc: Proc) -> Result<(), Stop>
    requires there { CompletesThere draft.old headed.now }
    ensures noted { OnOk result (Noted headed.now.is_new draft.old draft.new headed.now.number
        proc headed.now.borrowed) }
    ensures state { draft.new.state ≡ draft.old.state }
    ensures start { draft.new.start ≡ draft.old.start }
    ensures memory { IfErr result (λ stop. stop ≡ Stop.Memory) }
{
    if headed.is_new {
        add_procedure(draft, proc, headed.borrowed)
    } else {
        complete_procedure(draft, headed.number, proc)
    }
}

// Behind the body, where there is one.
fn note_body(
    alloc: Global,
    draft: &mut Draft,
    at: Place,
    head: &ProcHead,
    signature: Signature,
    headed: &Headed,
    body: Option<Body>,
) -> Result<(), Stop>
    requires there { CompletesThere draft.old headed.now }
    ensures noted { OnOk result (Noted headed.now.is_new draft.old draft.new headed.now.number
        (record {
          name = head.now.name.text;
          at = at;
          type_params = 0;
          params = signature.params;
          gives = signature.gives;
          body = body;
          hook = None;
        }) headed.now.borrowed) }
    ensures state { draft.new.state ≡ draft.old.state }
    ensures start { draft.new.start ≡ draft.old.start }
    ensures memory { IfErr result (λ stop. stop ≡ Stop.Memory) }
{
    let proc = proc_of(alloc, at, head, signature, body)?;
    note_procedure(draft, headed, proc)
}

// A procedure, where it is known which one its head is of.
fn proclaim(
    alloc: Global,
    draft: &mut Draft,
    at: Place,
    head: &ProcHead,
    signature: Signature,
    headed: &Headed,
    trees: &[Tree],
) -> Result<(), Stop>
    requires sound { Sound draft.old }
    requires within { SignatureWithin (length draft.old.state.types) signature }
    requires numbered { AreNumbered draft.old.state.place signature.params }
    requires name { headed.now.name ≡ procedure_name head.now.name }
    requires there { CompletesThere draft.old headed.now }
    requires fits { (ts : List Ty) → Over draft.old.state ts → NumberFits (known_in ts draft.old)
        (headed_of ts signature headed.now) (has_statements (statements_of trees.now)) }
    ensures passing { Passing draft.old draft.new (λ ts. stated_as [] (known_in ts draft.new))
        (λ ts st. proclaim_rule st at (head_of head.now) (headed_of ts signature headed.now)
        (statements_of trees.now)) result }
    ensures start { draft.new.start ≡ draft.old.start }
{
    declare_head(alloc, &mut draft.state, &signature, headed)?;
    match body_of(alloc, &mut draft.state, head, &signature, headed, trees) {
        Ok(body) => note_body(alloc, draft, at, head, signature, headed, body),
        Err(stop) => Err(stop),
    }
}

// A procedure, where what its head says is known.
fn procedure_by(
    alloc: Global,
    draft: &mut Draft,
    at: Place,
    head: &ProcHead,
    signature: Signature,
    trees: &[Tree],
) -> Result<(), Stop>
    requires sound { Sound draft.old }
    requires reached { Reached draft.old }
    requires within { SignatureWithin (length draft.old.state.types) signature }
    requires numbered { AreNumbered draft.old.state.place signature.params }
    ensures passing { Passing draft.old draft.new (λ ts. stated_as [] (known_in ts draft.new))
        (λ ts st. and_then (head_by st at (head_of head.now)
        (has_statements (statements_of trees.now)) (signature_of ts signature)) (λ k.
        proclaim_rule st at (head_of head.now) k (statements_of trees.now))) result }
    ensures start { draft.new.start ≡ draft.old.start }
{
    completed_there();
    let _types = draft.state.types.count();
    let whole = has_statements(trees);
    let completed = draft.completed.as_slice();
    match head_by(alloc, &draft.state, completed, at, head, whole, &signature) {
        Ok(headed) => proclaim(alloc, draft, at, head, signature, &headed, trees),
        Err(stop) => Err(stop),
    }
}

/// A procedure.
pub fn procedure(
    alloc: Global,
    draft: &mut Draft,
    at: Place,
    head: &ProcHead,
    trees: &[Tree],
) -> Result<(), Stop>
    requires sound { Sound draft.old }
    requires reached { Reached draft.old }
    ensures passing { Passing draft.old draft.new (λ ts. stated_as [] (known_in ts draft.new))
        (λ ts st. stated in_module None st (proclaims at (head_of head.now)
        (statements_of trees.now))) result }
    ensures start { draft.new.start ≡ draft.old.start }
{
    match head_signature(alloc, &mut draft.state, head) {
        Ok(signature) => procedure_by(alloc, draft, at, head, signature, trees),
        Err(stop) => Err(stop),
    }
}
