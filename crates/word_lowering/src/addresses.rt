// The places whose addresses are needed.
ghost use Rattle.std.specs.Prelude.{◌≡◌, ◌++◌, map, IfOk, OnOk};
ghost use Rattle.flat_code.specs.Codes.{block_plain};
ghost use Rattle.word_lowering.specs.Aliases.{handed_by, places_in, handed_in, is_among};
ghost use Rattle.word_lowering.specs.Aliases.{addressed_by, addressed_in, addressed};
ghost use Rattle.word_lowering.specs.Aliases.{stands_by, standing};

use arc_base::{Items, Memory};
use flat_code::{BlockLine, From, Line, OwnedLine, Owning};
use nim_program::Operation;
use std::alloc::Global;

// What is handed on by its location, where it is an operand by that.
fn handed_by(line: &BlockLine) -> &[From]
    ensures { result.now ≡ handed_by (block_plain line.now) }
{
    match line {
        BlockLine::Plain(
            OwnedLine::Plain(
                Line::Call { from, .. }
                | Line::Apply {
                    operation: Operation::Swap,
                    from,
                    ..
                }
                | Line::Own {
                    what: Owning::PlaceStands { .. },
                    from,
                },
            ),
        ) => from.as_slice(),
        _ => &[],
    }
}

fn push_places(found: &mut Items<u32>, from: &[From]) -> Result<(), Memory>
    ensures { OnOk result (found.new ≡ found.old ++ places_in from.now) }
{
    for x in from {
        if let From::Place(t) = x {
            found.push(*t)?;
        }
    }
    Ok(())
}

// The temporaries with locations that are handed on.
fn handed_in(alloc: Global, lines: &[BlockLine]) -> Result<Items<u32>, Memory>
    ensures { IfOk result (λ found. found ≡ handed_in (map block_plain lines.now)) }
{
    let mut found = Items::new(alloc);
    for line in lines {
        push_places(&mut found, handed_by(line))?;
    }
    Ok(found)
}

/// Whether a number is one of some.
pub fn is_among(number: u32, numbers: &[u32]) -> bool
    ensures { result ≡ is_among number numbers.now }
{
    for other in numbers {
        if *other == number {
            return true;
        }
    }
    false
}

// The place of the call to whose location a line leads, if it is handed on.
fn addressed_by(handed: &[u32], line: &BlockLine) -> Option<u32>
    ensures { result ≡ addressed_by handed.now (block_plain line.now) }
{
    match line {
        BlockLine::Plain(
            OwnedLine::Plain(
                Line::Root {
                    to,
                    place,
                    global: false,
                },
            ),
        ) if is_among(*to, handed) => Some(*place),
        _ => None,
    }
}

fn push_addressed(found: &mut Items<u32>, handed: &[u32], lines: &[BlockLine]) -> Result<(), Memory>
    ensures { OnOk result (found.new
        ≡ found.old ++ addressed_in handed.now (map block_plain lines.now)) }
{
    for line in lines {
        if let Some(place) = addressed_by(handed, line) {
            found.push(place)?;
        }
    }
    Ok(())
}

// The place to which a line gives a location.
fn stands_by(line: &BlockLine) -> Option<u32>
    ensures { result ≡ stands_by (block_plain line.now) }
{
    match line {
        BlockLine::Plain(
            OwnedLine::Plain(
                Line::Own {
                    what: Owning::PlaceStands { place },
                    ..
                },
            ),
        ) => Some(*place),
        _ => None,
    }
}

/// The places to which lines give locations.
pub fn standing(alloc: Global, lines: &[BlockLine]) -> Result<Items<u32>, Memory>
    ensures { IfOk result (λ found. found ≡ standing (map block_plain lines.now)) }
{
    let mut found = Items::new(alloc);
    for line in lines {
        if let Some(place) = stands_by(line) {
            found.push(place)?;
        }
    }
    Ok(found)
}

/// The places of a call whose addresses its lines need.
pub fn addressed(alloc: Global, lines: &[BlockLine]) -> Result<Items<u32>, Memory>
    ensures { IfOk result (λ found. found ≡ addressed (map block_plain lines.now)) }
{
    let handed = handed_in(alloc, lines)?;
    let mut found = Items::new(alloc);
    push_addressed(&mut found, handed.as_slice(), lines)?;
    Ok(found)
}
