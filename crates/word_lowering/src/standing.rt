// Constants that stand in the data.
ghost use Rattle.std.specs.Prelude.{◌≡◌, IfOk};
ghost use Rattle.flat_code.specs.Pieces.{has_links, is_linked, standing_bytes};

use arc_base::{Bytes, Memory};
use flat_code::Piece;
use std::alloc::Global;

/// Whether texts or sequences stand in it.
pub fn has_links(pieces: &[Piece]) -> bool
    ensures { result ≡ has_links pieces.now }
{
    for piece in pieces {
        match piece {
            Piece::Text(_) => return true,
            Piece::Elements(_) => return true,
            _ => {}
        }
    }
    false
}

/// Whether it is more than one text, with texts or sequences inside.
pub fn is_linked(pieces: &[Piece]) -> bool
    ensures { result ≡ is_linked pieces.now }
{
    match pieces.split_first() {
        Some((Piece::Text(_), rest)) => !rest.is_empty(),
        _ => has_links(pieces),
    }
}

/// The bytes of one without texts or sequences, by its pieces: parts stand before the whole.
pub fn standing_bytes(alloc: Global, pieces: &[Piece]) -> Result<Bytes, Memory>
    ensures { IfOk result (λ bytes. bytes ≡ standing_bytes pieces.now) }
{
    let mut bytes = Bytes::new(alloc);
    for piece in pieces {
        match piece {
            Piece::Ordinal(z) => bytes.append(&z.cast_unsigned().to_le_bytes())?,
            Piece::Parts(0) => bytes.append(&0_u32.to_le_bytes())?,
            _ => {}
        }
    }
    Ok(bytes)
}
