// The pieces of a constant's value.
ghost use Rattle.std.specs.Prelude.{◌≡◌, ◌++◌, IfOk, OnOk};
ghost use Rattle.nim_program.specs.View.{literal_of, literals_of};
ghost use Rattle.flat_code.specs.Pieces.{pieces_of, pieces_of_all, count_of};

use arc_base::{Bytes, Items, Memory};
use flat_code::Piece;
use nim_program::Literal;
use std::alloc::Global;

// How many parts a value has. `Memory` comes too for more than a source can have.
#[tactic(auto, using(crate::proofs::Counts::count_is))]
fn count_of(all: &Vec<Literal>) -> Result<u32, Memory>
    ensures { IfOk result (λ count. count ≡ count_of (literals_of all.now.items)) }
{
    let count = all.len();
    if count > 4_294_967_295 {
        return Err(Memory);
    }
    Ok(count as u32)
}

/// Adds the pieces of a value, parts before the whole.
#[cycle(pieces)]
pub fn add_pieces(alloc: Global, pieces: &mut Items<Piece>, literal: &Literal) -> Result<(), Memory>
    ensures { OnOk result (pieces.new ≡ pieces.old ++ pieces_of (literal_of literal.now)) }
{
    match literal {
        Literal::Ordinal(value) => pieces.push(Piece::Ordinal(*value)),
        Literal::Text(text) => {
            let text = Bytes::from_slice(alloc, text.as_slice())?;
            pieces.push(Piece::Text(text))
        }
        Literal::Nil => pieces.push(Piece::Nil),
        Literal::Parts(all) => {
            let count = count_of(all)?;
            add_all(alloc, pieces, all)?;
            pieces.push(Piece::Parts(count))
        }
        Literal::Elements(all) => {
            let count = count_of(all)?;
            add_all(alloc, pieces, all)?;
            pieces.push(Piece::Elements(count))
        }
    }
}

#[cycle(pieces)]
fn add_all(alloc: Global, pieces: &mut Items<Piece>, all: &Vec<Literal>) -> Result<(), Memory>
    ensures { OnOk result (pieces.new ≡ pieces.old ++ pieces_of_all (literals_of all.now.items)) }
{
    for literal in all {
        add_pieces(alloc, pieces, literal)?;
    }
    Ok(())
}
