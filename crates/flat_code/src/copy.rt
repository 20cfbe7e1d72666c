// Lists and lines of one's own, from those that another code keeps.
ghost use Rattle.std.specs.Prelude.{◌≡◌, IfOk};

use crate::line::{Line, Piece};
use crate::owned::OwnedLine;
use arc_base::{Bytes, Items, Memory};
use nim_program::Label;
use std::alloc::Global;

/// A list of its own with these items.
pub fn copied<T: Copy + Drop>(alloc: Global, items: &[T]) -> Result<Items<T>, Memory>
    ensures { IfOk result (λ copy. copy ≡ items.now) }
{
    let mut copy = Items::new(alloc);
    for item in items {
        copy.push(*item)?;
    }
    Ok(copy)
}

impl Piece {
    // The same piece, with a text of its own.
    fn copied(&self, alloc: Global) -> Result<Piece, Memory>
        ensures { IfOk result (λ piece. piece ≡ self.now) }
    {
        match self {
            Piece::Ordinal(ordinal) => Ok(Piece::Ordinal(*ordinal)),
            Piece::Text(text) => {
                let text = Bytes::from_slice(alloc, text.as_slice())?;
                Ok(Piece::Text(text))
            }
            Piece::Nil => Ok(Piece::Nil),
            Piece::Parts(count) => Ok(Piece::Parts(*count)),
            Piece::Elements(count) => Ok(Piece::Elements(*count)),
        }
    }
}

// The same pieces, with texts of their own.
fn pieces_copied(alloc: Global, pieces: &[Piece]) -> Result<Items<Piece>, Memory>
    ensures { IfOk result (λ copy. copy ≡ pieces.now) }
{
    let mut copy = Items::new(alloc);
    for piece in pieces {
        let next = piece.copied(alloc)?;
        copy.push(next)?;
    }
    Ok(copy)
}

// The same label, with a text of its own.
fn label_copied(alloc: Global, label: &Label) -> Result<Label, Memory>
    ensures { IfOk result (λ copy. copy ≡ label.now) }
{
    match label {
        Label::Ordinals { low, high } => Ok(Label::Ordinals {
            low: *low,
            high: *high,
        }),
        Label::Text(text) => {
            let text = Bytes::from_slice(alloc, text.as_slice())?;
            Ok(Label::Text(text))
        }
    }
}

// What a line holds, by its variants: numbers and the like alone; and behind these one list, or two.
macro_rules! copy_of {
    ($line:expr, $alloc:expr;
        $($plain:ident { $($field:ident),* })*;
        $($long:ident { $($part:ident),*; $($list:ident),* })*) => {
        match $line {
            $(Line::$plain { $($field),* } => Ok(Line::$plain { $($field: *$field),* }),)*
            $(Line::$long { $($part,)* $($list),* } => {
                $(let $list = copied($alloc, $list.as_slice())?;)*
                Ok(Line::$long { $($part: *$part,)* $($list),* })
            })*
            Line::Constant { to, how, ty, pieces } => {
                let pieces = pieces_copied($alloc, pieces.as_slice())?;
                Ok(Line::Constant { to: *to, how: *how, ty: *ty, pieces })
            }
            Line::Fits { from, these, to } => {
                let these = label_copied($alloc, these)?;
                Ok(Line::Fits { from: *from, these, to: *to })
            }
            Line::Standing { to, ty, pieces } => {
                let pieces = pieces_copied($alloc, pieces.as_slice())?;
                Ok(Line::Standing { to: *to, ty: *ty, pieces })
            }
        }
    };
}

impl Line {
    /// The same line, with lists of its own.
    pub fn copied(&self, alloc: Global) -> Result<Line, Memory>
        ensures { IfOk result (λ line. line ≡ self.now) }
    {
        copy_of!(self, alloc;
            Get { to, from, how, ty } Look { to, from } Root { to, place, global } Fresh { to, from, waits }
            Part { to, from, field } Item { to, from, index } Object { to, from } Pass { to, from, how, ty }
            Truth { to, value } Fill { place, from } Blank { place, ty } Give { place, from } Zero { to }
            Length { to, from } Still { from, length } Element { to, from, index }
            Beyond { counter, last, inclusive, to } Next { counter, last } Label { name } Jump { to }
            Unless { from, to } Enter {} Turn { to } TurnIf { from, to }
            CountTurn { counter, last, inclusive, to } Return { result };
            Apply { to, operation, how, ty; of, from } Construct { to, how, ty; fields, from }
            Call { to, how, ty, proc; from } Own { what; from })
    }
}

impl OwnedLine {
    /// The same line, with lists of its own.
    pub fn copied(&self, alloc: Global) -> Result<OwnedLine, Memory>
        ensures { IfOk result (λ line. line ≡ self.now) }
    {
        match self {
            OwnedLine::Plain(line) => {
                let line = line.copied(alloc)?;
                Ok(OwnedLine::Plain(line))
            }
            OwnedLine::Take {
                to,
                from,
                how,
                act,
                ty,
            } => Ok(OwnedLine::Take {
                to: *to,
                from: *from,
                how: *how,
                act: *act,
                ty: *ty,
            }),
        }
    }
}
