// Bodies of procedures.
ghost use Rattle.std.specs.Prelude.{◌≡◌, length, true, false, Ok, None};
ghost use Rattle.std.specs.Prelude.{IfOk, OnOk, IfErr};
ghost use Rattle.arc_base.specs.declared.place.Stop.TheVariants as Stop;
ghost use Rattle.nim_tree.specs.Statements.{head_of, statements_of};
ghost use Rattle.decl_rules.specs.State.{in_body};
ghost use Rattle.decl_rules.specs.Stated.{all_stated, has_statements};
ghost use Rattle.decl_rules.specs.Bodies.{without_body};
ghost use Rattle.decl_parts.specs.View.{Ready, Stating, AllStatedSo, ResultWithin, state_of};
ghost use Rattle.decl_parts.specs.View.{if_result};
ghost use Rattle.decl_heads.specs.declared.heads.Headed.{Headed};
ghost use Rattle.decl_heads.specs.ViewHeads.{SignatureWithin, headed_of};
ghost use Rattle.check_decls.specs.ViewBodies.{body_rule, some_body_rule, bodied};
ghost use Rattle.check_decls.specs.ViewBodies.{bodied_as, place_given, last_result, place_behind};
ghost use Rattle.check_decls.specs.ViewBodies.{is_there};

use crate::draft::number_of;
use crate::heads::begin_body;
use arc_base::Stop;
use decl_heads::heads::Headed;
use decl_heads::signature::Signature;
use decl_parts::state::{Around, Inside, ResultPlace, State, leave};
use decl_parts::stmts::append;
use decl_stmts::blocks::statement;
use nim_program::{Body, PlaceDecl, Stmt};
use nim_tree::{ProcHead, Stmt as Tree};
use std::alloc::Global;

// The place of the result, as statements know it.
fn place_given(place: &Option<PlaceDecl>) -> Option<ResultPlace>
    ensures { result ≡ place_given place.now }
{
    match place {
        Some(place) => Some(ResultPlace {
            number: place.number,
            at: place.at,
            ty: place.ty,
        }),
        None => None,
    }
}

// The result that a statement of a body has to give, behind which so many come.
fn last_result(gives: Option<ResultPlace>, left: usize) -> Option<ResultPlace>
    ensures { result ≡ last_result gives left }
{
    if left == 0 { gives } else { None }
}

// The statements of a body, the last of which may give the result.
fn body_statements(
    alloc: Global,
    state: &mut State,
    gives: Option<ResultPlace>,
    trees: &[Tree],
) -> Result<Vec<Stmt>, Stop>
    requires ready { Ready state.old }
    requires gives { ResultWithin (length state.old.types) gives }
    ensures { AllStatedSo state.old state.new (λ ts st. all_stated
        (in_body (if_result ts gives)) (if_result ts gives) st (statements_of trees.now)) result }
{
    let around = Around {
        inside: Inside::Procedure(gives),
        outermost: false,
        in_loop: false,
    };
    let mut all = Vec::new(alloc);
    let mut left = trees.len();
    for tree in trees {
        left -= 1;
        match statement(alloc, state, around, last_result(gives, left), tree) {
            Ok(more) => append(&mut all, more)?,
            Err(stop) => return Err(stop),
        }
    }
    Ok(all)
}

/// Whether there is one.
pub fn has_statements(trees: &[Tree]) -> bool
    ensures { result ≡ has_statements (statements_of trees.now) }
{
    match trees.split_first() {
        Some(_) => true,
        None => false,
    }
}

// A body with statements, in the scope of the parameters and the result.
fn some_body(
    alloc: Global,
    state: &mut State,
    head: &ProcHead,
    signature: &Signature,
    trees: &[Tree],
) -> Result<Option<Body>, Stop>
    requires ready { Ready state.old }
    requires within { SignatureWithin (length state.old.types) signature.now }
    ensures stated { (k : Headed) → Stating state.old state.new
        (λ ts b body. bodied_as ts b state.new body) (λ ts b.
        some_body_rule (state_of ts b state.old) (head_of head.now)
        (headed_of ts signature.now k) (statements_of trees.now)) result }
    ensures there { IfOk result (λ body. is_there body ≡ true) }
{
    let first = state.place;
    let before = state.node;
    let count = state.scope.count();
    let outside = state.outside;
    let result = begin_body(alloc, state, head, signature)?;
    let gives = place_given(&result);
    match body_statements(alloc, state, gives, trees) {
        Ok(stmts) => {
            let places = state.place.saturating_sub(first);
            leave(state, count, outside);
            Ok(Some(Body {
                first,
                places,
                before,
                result,
                stmts,
            }))
        }
        Err(stop) => Err(stop),
    }
}

// The parameters of what is borrowed have places, those of a procedure that waits for its body
// have none.
fn skip_places(state: &mut State, count: usize, borrowed: bool) -> Result<(), Stop>
    ensures place { OnOk result (state.new ≡ record state.old {
      place = place_behind borrowed
          state.old.place count;
    }) }
    ensures types { state.new.types ≡ state.old.types }
    ensures memory { IfErr result (λ stop. stop ≡ Stop.Memory) }
{
    if !borrowed {
        return Ok(());
    }
    let further = number_of(count)?;
    match state.place.checked_add(further) {
        Some(place) => {
            state.place = place;
            Ok(())
        }
        None => Err(Stop::Memory),
    }
}

fn no_body(state: &mut State, signature: &Signature, headed: &Headed) -> Result<Option<Body>, Stop>
    requires ready { Ready state.old }
    ensures stated { Stating state.old state.new (λ ts b body. bodied_as ts b state.new body)
        (λ ts b. Ok (bodied None (without_body (state_of ts b state.old)
        (headed_of ts signature.now headed.now)))) result }
    ensures there { IfOk result (λ body. is_there body ≡ false) }
{
    skip_places(state, signature.params.as_slice().len(), headed.borrowed)?;
    Ok(None)
}

/// The body of a procedure behind its head, where it has statements.
pub fn body_of(
    alloc: Global,
    state: &mut State,
    head: &ProcHead,
    signature: &Signature,
    headed: &Headed,
    trees: &[Tree],
) -> Result<Option<Body>, Stop>
    requires ready { Ready state.old }
    requires within { SignatureWithin (length state.old.types) signature.now }
    ensures stated { Stating state.old state.new (λ ts b body. bodied_as ts b state.new body)
        (λ ts b. body_rule (state_of ts b state.old) (head_of head.now)
        (headed_of ts signature.now headed.now) (statements_of trees.now)) result }
    ensures there { IfOk result (λ body. is_there body
        ≡ has_statements (statements_of trees.now)) }
{
    if has_statements(trees) {
        some_body(alloc, state, head, signature, trees)
    } else {
        no_body(state, signature, headed)
    }
}
