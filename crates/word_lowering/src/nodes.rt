// The word code of what waits at nodes.
ghost use Rattle.std.specs.Prelude.{◌≡◌, OnOk};
ghost use Rattle.word_lowering.specs.Emission.{Puts};
ghost use Rattle.word_lowering.specs.WaitingCode.{waiter_at, waiting_house, waiter_house, waits_code};
ghost use Rattle.word_lowering.specs.WaitingCode.{leaves_code, none_code};

use crate::homes::{Alias, Home, Housed, Waiter};
use crate::layouts::nowhere;
use crate::spots::{address, constant, emit, emit_moves};
use arc_base::{Items, Memory};
use flat_code::PlaceKind;
use word_code::WordInstr;

/// Where what waits at a node stands.
pub fn waiter_at(node: u32, all: &[Waiter]) -> Option<Waiter>
    ensures { result ≡ waiter_at node all.now }
{
    for w in all {
        if w.node == node {
            return Some(*w);
        }
    }
    None
}

// As a home.
fn waiting_house(w: Waiter) -> Housed
    ensures { result ≡ waiting_house w }
{
    Housed {
        number: w.node,
        kind: PlaceKind::Temp,
        ty: w.ty,
        bytes: w.bytes,
        is_word: false,
        is_letter: false,
        alias: Alias::Own,
        home: Home::Placed(w.at),
        waits: None,
        lent: false,
    }
}

/// Or nowhere.
pub fn waiter_house(there: Option<Waiter>) -> Housed
    ensures { result ≡ waiter_house there }
{
    match there {
        None => nowhere(),
        Some(w) => waiting_house(w),
    }
}

/// A value comes there.
pub fn emit_waits(
    code: &mut Items<WordInstr>,
    there: Option<Waiter>,
    from: Housed,
) -> Result<(), Memory>
    ensures { OnOk result (Puts code.old code.new (waits_code there from)) }
{
    match there {
        None => Ok(()),
        Some(w) => {
            emit_moves(code, waiting_house(w), from)?;
            emit(code, &[address(w.variable, Home::Placed(w.at))])
        }
    }
}

/// Nothing waits there any more.
pub fn emit_leaves(code: &mut Items<WordInstr>, there: Option<Waiter>) -> Result<(), Memory>
    ensures { OnOk result (Puts code.old code.new (leaves_code there)) }
{
    match there {
        None => Ok(()),
        Some(w) => emit(code, &[constant(w.variable, 0)]),
    }
}

/// Nothing waits yet.
pub fn emit_none(code: &mut Items<WordInstr>, all: &[Waiter]) -> Result<(), Memory>
    ensures { OnOk result (Puts code.old code.new (none_code all.now)) }
{
    for w in all {
        emit(code, &[constant(w.variable, 0)])?;
    }
    Ok(())
}
