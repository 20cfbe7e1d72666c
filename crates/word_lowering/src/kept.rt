// The word code of what waits, by lines: a value comes where it waits, or is there no more.
ghost use Rattle.std.specs.Prelude.{◌≡◌, OnOk};
ghost use Rattle.nim_meaning.specs.Shapes.{is_held, waits};
ghost use Rattle.nim_meaning.specs.Waiting.{reads_kept};
ghost use Rattle.flat_code.specs.Codes.{block_plain, owned_plain};
ghost use Rattle.flat_code.specs.Waits.{constant_waits};
ghost use Rattle.word_lowering.specs.Emission.{Puts};
ghost use Rattle.word_lowering.specs.LineCode.{value, owning_code, behind_line};
ghost use Rattle.word_lowering.specs.Scope.{around_of};
ghost use Rattle.word_lowering.specs.Stored.{HaveForms};
ghost use Rattle.word_lowering.specs.WaitingCode.{gives_hooked, kept_if};

use crate::hook_calls::{emit_ends, emit_hook, emit_waiter_ends, taking};
use crate::nodes::{emit_leaves, emit_waits, waiter_at};
use crate::scope::{Scope, variable_of};
use crate::spots::{address, emit, holds_address};
use crate::stored::is_hooked;
use arc_base::{Items, Memory};
use flat_code::{BlockLine, From, Line, OwnedLine, Owning, Piece};
use hook_lifting::Hook;
use nim_program::Use;
use nim_types::{TypeId, TypeTable};
use word_code::WordInstr;

// ---- which values wait

fn is_held(how: Use) -> bool
    ensures { result ≡ is_held how }
{
    match how {
        Use::Held => true,
        _ => false,
    }
}

fn waits(how: Use) -> bool
    ensures { result ≡ waits how }
{
    match how {
        Use::Owned | Use::Given => false,
        _ => true,
    }
}

fn reads_kept(how: Use) -> bool
    ensures { result ≡ reads_kept how }
{
    match how {
        Use::Held | Use::Lent => true,
        _ => false,
    }
}

// Nobody owns the text of a literal that is only read.
fn constant_waits(pieces: &[Piece], how: Use) -> bool
    ensures { result ≡ constant_waits pieces.now how }
{
    match pieces.split_first() {
        Some((Piece::Text(_), rest)) if rest.is_empty() => is_held(how),
        _ => waits(how),
    }
}

/// Whether values of a type, if there is one, have hooks.
pub fn gives_hooked(types: &TypeTable, ty: Option<TypeId>) -> bool
    requires { HaveForms types.now }
    ensures { result ≡ gives_hooked types.now ty }
{
    match ty {
        None => false,
        Some(ty) => is_hooked(types, ty),
    }
}

// ---- their code

// The value of a temporary comes where it waits, if it does.
fn emit_kept(
    code: &mut Items<WordInstr>,
    x: &Scope,
    waits: bool,
    node: u32,
    to: u32,
) -> Result<(), Memory>
    ensures { OnOk result (Puts code.old code.new (kept_if (around_of x.now).table
        (around_of x.now).own.waiters (value (around_of x.now)) waits node to)) }
{
    if !waits {
        return Ok(());
    }
    let there = waiter_at(node, x.own.waiters.as_slice());
    emit_waits(code, there, x.value(to))
}

// Behind a line.
fn emit_behind(code: &mut Items<WordInstr>, x: &Scope, line: &Line) -> Result<(), Memory>
    requires { HaveForms x.now.types.now }
    ensures { OnOk result (Puts code.old code.new (behind_line (around_of x.now) line.now)) }
{
    match line {
        Line::Apply { to, how, ty, .. } => {
            let kept = gives_hooked(x.types, *ty) && waits(how.how);
            emit_kept(code, x, kept, how.node, *to)
        }
        Line::Construct { to, how, ty, .. } => {
            let kept = is_hooked(x.types, *ty) && waits(how.how);
            emit_kept(code, x, kept, how.node, *to)
        }
        Line::Constant {
            to,
            how,
            ty,
            pieces,
        } => {
            let kept = is_hooked(x.types, *ty) && constant_waits(pieces.as_slice(), how.how);
            emit_kept(code, x, kept, how.node, *to)
        }
        Line::Get { to, how, ty, .. } => {
            let kept = gives_hooked(x.types, *ty) && reads_kept(how.how);
            emit_kept(code, x, kept, how.node, *to)
        }
        Line::Pass { to, how, ty, .. } => {
            let kept = gives_hooked(x.types, *ty) && waits(how.how);
            emit_kept(code, x, kept, how.node, *to)
        }
        _ => Ok(()),
    }
}

// Behind a line of owned code.
fn emit_behind_owned(code: &mut Items<WordInstr>, x: &Scope, line: &OwnedLine) -> Result<(), Memory>
    requires { HaveForms x.now.types.now }
    ensures { OnOk result (Puts code.old code.new
        (behind_line (around_of x.now) (owned_plain line.now))) }
{
    match line {
        OwnedLine::Plain(line) => emit_behind(code, x, line),
        OwnedLine::Take { to, how, ty, .. } => {
            let kept = gives_hooked(x.types, *ty) && reads_kept(how.how);
            emit_kept(code, x, kept, how.node, *to)
        }
    }
}

/// Behind a line of block code whose value waits it comes where it waits.
pub fn emit_behind_line(
    code: &mut Items<WordInstr>,
    x: &Scope,
    line: &BlockLine,
) -> Result<(), Memory>
    requires { HaveForms x.now.types.now }
    ensures { OnOk result (Puts code.old code.new
        (behind_line (around_of x.now) (block_plain line.now))) }
{
    match line {
        BlockLine::Plain(line) => emit_behind_owned(code, x, line),
    }
}

/// What is done with a value that somebody owns.
pub fn emit_owning(
    code: &mut Items<WordInstr>,
    x: &Scope,
    what: Owning,
    from: &[From],
    label: u32,
) -> Result<(), Memory>
    ensures { OnOk result (Puts code.old code.new
        (owning_code (around_of x.now) what from.now label)) }
{
    let waiters = x.own.waiters.as_slice();
    match what {
        Owning::TemporaryEnds { node, ty } => {
            emit_waiter_ends(code, x, label, ty, waiter_at(node, waiters))
        }
        Owning::PlaceEnds { place, ty } => {
            let there = x.place(place, false);
            emit_ends(code, x, holds_address(there), ty, there.home)
        }
        Owning::PlaceCopies { place, ty } => {
            let (to, value) = (x.place(place, false), x.operand_at(from, 0));
            emit_hook(code, x, Hook::Copies, ty, to.home, value.home)
        }
        Owning::ResultGets { place, ty } => {
            let (to, value) = (x.place(place, false), x.operand_at(from, 0));
            emit_hook(code, x, taking(from, 0), ty, to.home, value.home)
        }
        Owning::TakenUp { node } => emit_leaves(code, waiter_at(node, waiters)),
        Owning::Waits { node } => match from.split_first() {
            Some((From::Value(t), rest)) if rest.is_empty() => {
                emit_waits(code, waiter_at(node, waiters), x.value(*t))
            }
            _ => Ok(()),
        },
        Owning::PlaceStands { place } => match from.split_first() {
            Some((From::Place(t), rest)) if rest.is_empty() => {
                let to = variable_of(x.place(place, false));
                emit(code, &[address(to, x.location(*t).home)])
            }
            _ => Ok(()),
        },
    }
}
