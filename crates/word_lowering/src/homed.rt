// The values that lines take from homes of their own.
ghost use Rattle.std.specs.Prelude.{◌≡◌, ◌++◌, map, IfOk, OnOk};
ghost use Rattle.flat_code.specs.Codes.{block_plain};
ghost use Rattle.word_lowering.specs.Aliases.{reads_texts, homed_by, values_in, homed};

use arc_base::{Items, Memory};
use flat_code::{BlockLine, From, Line, OwnedLine};
use nim_program::Operation;
use std::alloc::Global;

// Operations that read texts, each of which may be a literal.
fn reads_texts(operation: Operation) -> bool
    ensures { result ≡ reads_texts operation }
{
    match operation {
        Operation::Compare(_)
        | Operation::Join
        | Operation::Show
        | Operation::Measure(_)
        | Operation::Echo
        | Operation::Append => true,
        _ => false,
    }
}

fn push_values(found: &mut Items<u32>, from: &[From]) -> Result<(), Memory>
    ensures { OnOk result (found.new ≡ found.old ++ values_in from.now) }
{
    for x in from {
        if let From::Value(t) = x {
            found.push(*t)?;
        }
    }
    Ok(())
}

// Those of a line.
fn push_homed(found: &mut Items<u32>, line: &Line) -> Result<(), Memory>
    ensures { OnOk result (found.new ≡ found.old ++ values_in (homed_by line.now)) }
{
    match line {
        Line::Apply {
            operation,
            from,
            ..
        } => {
            if reads_texts(*operation) {
                return Ok(());
            }
            push_values(found, from.as_slice())
        }
        Line::Construct { from, .. } | Line::Call { from, .. } | Line::Own { from, .. } => {
            push_values(found, from.as_slice())
        }
        Line::Fresh { from, .. }
        | Line::Pass { from, .. }
        | Line::Fill { from, .. }
        | Line::Give { from, .. } => {
            found.push(*from)?;
            Ok(())
        }
        _ => Ok(()),
    }
}

/// The temporaries whose values lines take from homes.
pub fn homed(alloc: Global, lines: &[BlockLine]) -> Result<Items<u32>, Memory>
    ensures { IfOk result (λ found. found ≡ homed (map block_plain lines.now)) }
{
    let mut found = Items::new(alloc);
    for line in lines {
        if let BlockLine::Plain(OwnedLine::Plain(line)) = line {
            push_homed(&mut found, line)?;
        }
    }
    Ok(found)
}
