// The texts of code and its constants that stand in the data, each distinct one laid out once, from a
// word on, behind its handle. The last one comes first.
ghost use Rattle.std.specs.Prelude.{◌≡◌, [], ◌∷◌, ◌++◌, ◌+◌, ℕ, List, false, length, Some, IfOk, OnOk};
ghost use Rattle.std.specs.Prelude.{if◌then◌else◌};
ghost use Rattle.std.specs.HashMap.{get};
ghost use Rattle.nim_types.specs.Types.{same_text};
ghost use Rattle.flat_code.specs.Codes.{block_plain};
ghost use Rattle.flat_code.specs.Pieces.{standing_bytes};
ghost use Rattle.word_lowering.specs.Handled.{handled};
ghost use Rattle.word_lowering.specs.LaidTexts.{AreLaid, AreStacked, FindsPlaces};
ghost use Rattle.word_lowering.specs.Linked.{piece_before, pieces_before, elements_before};
ghost use Rattle.word_lowering.specs.Linked.{items_before, if_linked, constant_before};
ghost use Rattle.word_lowering.specs.Linked.{standing_before, line_before, lines_before, procs_before};
ghost use Rattle.word_lowering.specs.Linked.{item_of, item_address, with_piece, linked_bytes, laid_out};
ghost use Rattle.word_lowering.specs.Texts.{laid_texts, handle_place, place_of, standing_place};
ghost use Rattle.word_lowering.specs.Texts.{text_place};

use crate::linked::{Stack, last_words, no_values, push_piece, words_bytes};
use crate::spots::{more, sum};
use crate::standing::{has_links, is_linked, standing_bytes};
use crate::texts::{HANDLE_BYTES, push_padded, push_texts_in, push_word};
use arc_base::{Bytes, Memory};
use flat_code::{BlockLine, CodeProc, Line, OwnedLine, Piece};
use nim_program::Label;
use std::alloc::Global;
use std::collections::HashMap;
use std::marker::Model;

/// Where the handle of each text stands.
pub type Places = HashMap<Bytes, usize>;

/// What is laid out so far.
#[derive(Drop)]
pub struct Laying {
    pub bytes: Bytes,
    pub places: Places,
    /// Whether there was no memory for a text.
    pub lost: bool,
}

fn no_text(alloc: Global) -> Laying
    ensures { (from : ℕ) → AreLaid from result [] }
{
    Laying {
        bytes: Bytes::new(alloc),
        places: HashMap::new(alloc),
        lost: false,
    }
}

// The address that is so many bytes behind another one.
fn address(from: u32, behind: usize) -> Result<u32, Memory>
    ensures { IfOk result (λ at. at ≡ from + behind) }
{
    if behind > u32::MAX as usize {
        return Err(Memory);
    }
    sum(from, behind as u32)
}

// A text behind its handle, which stands at an address.
fn push_handled(bytes: &mut Bytes, at: u32, text: &[u8]) -> Result<(), Memory>
    ensures { OnOk result (bytes.new ≡ bytes.old ++ handled at text.now) }
{
    push_word(bytes, more(0, text)?)?;
    push_word(bytes, sum(at, HANDLE_BYTES)?)?;
    push_padded(bytes, text)
}

// Behind all, the first of which is at an address.
fn add_text(alloc: Global, from: u32, laying: &mut Laying, text: &Bytes) -> Result<(), Memory>
    ensures bytes { OnOk result (laying.new.bytes
        ≡ laying.old.bytes ++ handled (from + length laying.old.bytes) text.now) }
    ensures places { OnOk result ((other : List ℕ) → get same_text laying.new.places other
        ≡ (if same_text text.now other then Some (length laying.old.bytes)
        else get same_text laying.old.places other)) }
    ensures lost { laying.new.lost ≡ laying.old.lost }
{
    let at = laying.bytes.as_slice().len();
    let copy = Bytes::from_slice(alloc, text.as_slice())?;
    laying.places.insert(copy, at)?;
    push_handled(&mut laying.bytes, address(from, at)?, text.as_slice())
}

#[tactic(auto, using(crate::proofs::LayingTexts::laid_again, crate::proofs::LayingTexts::laid_more, crate::proofs::LayingTexts::laid_none))]
fn put_text(alloc: Global, from: u32, laying: &mut Laying, text: &Bytes)
    ensures { (texts : List (List ℕ)) → AreLaid from laying.old texts
        → AreLaid from laying.new (text.now ∷ texts) }
{
    if laying.places.contains_key(text) {
        return;
    }
    match add_text(alloc, from, laying, text) {
        Ok(()) => {}
        Err(_) => laying.lost = true,
    }
}

fn put_piece(alloc: Global, from: u32, laying: &mut Laying, piece: &Piece)
    ensures { (texts : List (List ℕ)) → AreLaid from laying.old texts
        → AreLaid from laying.new (piece_before piece.now texts) }
{
    match piece {
        Piece::Text(text) => put_text(alloc, from, laying, text),
        _ => {}
    }
}

fn put_pieces(alloc: Global, from: u32, laying: &mut Laying, pieces: &[Piece])
    ensures { (texts : List (List ℕ)) → AreLaid from laying.old texts
        → AreLaid from laying.new (pieces_before pieces.now texts) }
{
    let mut i = pieces.len();
    while i > 0 {
        i -= 1;
        put_piece(alloc, from, laying, &pieces[i]);
    }
}

// Where a text is laid out, behind its handle.
fn behind_handle(handle: usize) -> Result<usize, Memory>
    ensures { IfOk result (λ at. at ≡ handle + HANDLE_BYTES) }
{
    match handle.checked_add(HANDLE_BYTES as usize) {
        Some(at) => Ok(at),
        None => Err(Memory),
    }
}

// ---- constants with texts or sequences inside

// The address of a text among those that are laid out.
fn item_address(places: &Places, from: u32, item: &Bytes) -> Result<u32, Memory>
    ensures { (texts : List (List ℕ)) → FindsPlaces places.now texts →
        IfOk result (λ at. at ≡ item_address from texts (Some item.now)) }
{
    let handle = match places.get(item) {
        Some(at) => *at,
        None => 0,
    };
    address(from, behind_handle(handle)?)
}

// One more value, whose text or sequence is laid out.
fn push_placed(
    alloc: Global,
    places: &Places,
    from: u32,
    stack: &mut Stack,
    piece: &Piece,
) -> Result<(), Memory>
    ensures { (texts values : List (List ℕ)) → FindsPlaces places.now texts → AreStacked stack.old values →
        OnOk result (AreStacked stack.new
        (with_piece piece.now (item_address from texts (item_of piece.now values)) values)) }
{
    let at = match piece {
        Piece::Text(text) => item_address(places, from, text)?,
        Piece::Elements(n) => {
            let item = words_bytes(alloc, last_words(stack, *n))?;
            item_address(places, from, &item)?
        }
        _ => 0,
    };
    push_piece(stack, piece, at)
}

// The elements of a sequence.
fn put_elements(
    alloc: Global,
    from: u32,
    laying: &mut Laying,
    stack: &Stack,
    piece: &Piece,
) -> Result<(), Memory>
    ensures laid { (texts values : List (List ℕ)) → AreLaid from laying.old texts
        → AreStacked stack.now values
        → OnOk result (AreLaid from laying.new (elements_before piece.now values texts)) }
    ensures kept { OnOk result (laying.new.lost ≡ false) }
{
    if let Piece::Elements(n) = piece {
        let item = words_bytes(alloc, last_words(stack, *n))?;
        put_text(alloc, from, laying, &item);
    }
    if laying.lost {
        return Err(Memory);
    }
    Ok(())
}

// Sequences, and the bytes of the whole.
fn put_items(alloc: Global, from: u32, laying: &mut Laying, pieces: &[Piece]) -> Result<(), Memory>
    ensures { (texts : List (List ℕ)) → AreLaid from laying.old texts →
        OnOk result (AreLaid from laying.new (items_before from pieces.now [] texts)) }
{
    let mut stack = no_values(alloc);
    for piece in pieces {
        put_elements(alloc, from, laying, &stack, piece)?;
        push_placed(alloc, &laying.places, from, &mut stack, piece)?;
    }
    let item = words_bytes(alloc, last_words(&stack, 1))?;
    put_text(alloc, from, laying, &item);
    Ok(())
}

fn put_linked(alloc: Global, from: u32, laying: &mut Laying, pieces: &[Piece])
    ensures { (texts : List (List ℕ)) → AreLaid from laying.old texts
        → AreLaid from laying.new (items_before from pieces.now [] texts) }
{
    match put_items(alloc, from, laying, pieces) {
        Ok(()) => {}
        Err(_) => laying.lost = true,
    }
}

// ---- constants

fn put_constant(alloc: Global, from: u32, laying: &mut Laying, pieces: &[Piece])
    ensures { (texts : List (List ℕ)) → AreLaid from laying.old texts
        → AreLaid from laying.new (constant_before from pieces.now texts) }
{
    put_pieces(alloc, from, laying, pieces);
    if is_linked(pieces) {
        put_linked(alloc, from, laying, pieces);
    }
}

// The bytes of one without texts or sequences.
#[tactic(auto, using(crate::proofs::LayingTexts::laid_none))]
fn put_plain(alloc: Global, from: u32, laying: &mut Laying, pieces: &[Piece])
    ensures { (texts : List (List ℕ)) → AreLaid from laying.old texts
        → AreLaid from laying.new (standing_bytes pieces.now ∷ texts) }
{
    match standing_bytes(alloc, pieces) {
        Ok(bytes) => put_text(alloc, from, laying, &bytes),
        Err(_) => laying.lost = true,
    }
}

// One that is read in place.
fn put_standing(alloc: Global, from: u32, laying: &mut Laying, pieces: &[Piece])
    ensures { (texts : List (List ℕ)) → AreLaid from laying.old texts
        → AreLaid from laying.new (standing_before from pieces.now texts) }
{
    if has_links(pieces) {
        put_constant(alloc, from, laying, pieces)
    } else {
        put_plain(alloc, from, laying, pieces)
    }
}

fn put_line(alloc: Global, from: u32, laying: &mut Laying, line: &BlockLine)
    ensures { (texts : List (List ℕ)) → AreLaid from laying.old texts
        → AreLaid from laying.new (line_before from (block_plain line.now) texts) }
{
    match line {
        BlockLine::Plain(OwnedLine::Plain(Line::Constant { pieces, .. })) => {
            put_constant(alloc, from, laying, pieces.as_slice())
        }
        BlockLine::Plain(OwnedLine::Plain(Line::Standing { pieces, .. })) => {
            put_standing(alloc, from, laying, pieces.as_slice())
        }
        BlockLine::Plain(
            OwnedLine::Plain(
                Line::Fits {
                    these: Label::Text(text),
                    ..
                },
            ),
        ) => put_text(alloc, from, laying, text),
        _ => {}
    }
}

fn put_lines(alloc: Global, from: u32, laying: &mut Laying, lines: &[BlockLine])
    ensures { (texts : List (List ℕ)) → AreLaid from laying.old texts
        → AreLaid from laying.new (lines_before from lines.now texts) }
{
    let mut i = lines.len();
    while i > 0 {
        i -= 1;
        put_line(alloc, from, laying, &lines[i]);
    }
}

fn put_procs(alloc: Global, from: u32, laying: &mut Laying, procs: &[CodeProc<BlockLine>])
    ensures { (texts : List (List ℕ)) → AreLaid from laying.old texts
        → AreLaid from laying.new (procs_before from procs.now texts) }
{
    let mut i = procs.len();
    while i > 0 {
        i -= 1;
        put_lines(alloc, from, laying, procs[i].lines.as_slice());
    }
}

// ---- all

/// Where the texts of procedures are laid out. Contracts see these, and the address of the first text.
#[derive(Drop)]
pub struct LaidTexts<'a> {
    alloc: Global,
    from: u32,
    procs: &'a [CodeProc<BlockLine>],
    // the literals as they stand in the code
    all: Bytes,
    places: Places,
}

/// As they are laid out, and where.
#[derive(Drop)]
pub struct LaidOut<'a> {
    pub bytes: Bytes,
    pub texts: LaidTexts<'a>,
}

impl<'a> Model for LaidTexts<'a> {
    ghost use Rattle.word_lowering.specs.LaidTexts.{LaidCode, ArePut};

    ghost Value = { LaidCode };

    ghost view = { λ t. record { from = t.from; procs = t.procs.now } };

    ghost invariant = { λ t. ArePut (record { from = t.from; procs = t.procs.now }) t.all t.places };
}

/// Those of procedures, from an address on.
pub fn laid_texts<'a>(
    alloc: Global,
    from: u32,
    procs: &'a [CodeProc<BlockLine>],
) -> Result<LaidOut<'a>, Memory>
    ensures bytes { IfOk result (λ out. out.bytes ≡ laid_texts from procs.now) }
    ensures texts { IfOk result (λ out. out.texts ≡ record { from = from; procs = procs.now }) }
{
    let mut laying = no_text(alloc);
    put_procs(alloc, from, &mut laying, procs);
    if laying.lost {
        return Err(Memory);
    }
    let mut all = Bytes::new(alloc);
    push_texts_in(&mut all, procs)?;
    let Laying { bytes, places, .. } = laying;
    let texts = LaidTexts {
        alloc,
        from,
        procs,
        all,
        places,
    };
    Ok(LaidOut { bytes, texts })
}

impl LaidTexts<'_> {
    // Where the handle of a text stands, or 0.
    fn handle(&self, text: &Bytes) -> usize
        ensures { result ≡ handle_place self.now.from self.now.procs text.now }
    {
        match self.places.get(text) {
            Some(at) => *at,
            None => 0,
        }
    }

    /// Where the literal of so many bytes is laid out that stands at this offset in the code.
    pub fn place_of(&self, offset: usize, bytes: u32) -> Result<usize, Memory>
        ensures { IfOk result (λ at. at ≡ place_of self.now.from self.now.procs offset bytes) }
    {
        let all = self.all.as_slice();
        let from = offset.min(all.len());
        let to = (bytes as usize).min(all.len() - from);
        let text = Bytes::from_slice(self.alloc, &all[from..from + to])?;
        behind_handle(self.handle(&text))
    }

    /// Where a text is laid out.
    pub fn text_place(&self, text: &[u8]) -> Result<usize, Memory>
        ensures { IfOk result (λ at. at ≡ text_place self.now.from self.now.procs text.now) }
    {
        let text = Bytes::from_slice(self.alloc, text)?;
        behind_handle(self.handle(&text))
    }

    // The bytes of a constant with texts or sequences inside.
    fn linked_bytes(&self, pieces: &[Piece]) -> Result<Bytes, Memory>
        ensures { IfOk result (λ bytes. bytes
            ≡ linked_bytes self.now.from (laid_out self.now.from self.now.procs) pieces.now) }
    {
        let mut stack = no_values(self.alloc);
        for piece in pieces {
            push_placed(self.alloc, &self.places, self.from, &mut stack, piece)?;
        }
        words_bytes(self.alloc, last_words(&stack, 1))
    }

    /// Where what a constant that stands in the data leads to is laid out: the handle of a text, or
    /// its bytes.
    pub fn standing_place(&self, pieces: &[Piece]) -> Result<usize, Memory>
        ensures { IfOk result (λ at. at ≡ standing_place self.now.from self.now.procs pieces.now) }
    {
        match pieces.split_first() {
            Some((Piece::Text(text), rest)) if rest.is_empty() => Ok(self.handle(text)),
            _ => {
                let bytes = if has_links(pieces) {
                    self.linked_bytes(pieces)?
                } else {
                    standing_bytes(self.alloc, pieces)?
                };
                behind_handle(self.handle(&bytes))
            }
        }
    }
}
