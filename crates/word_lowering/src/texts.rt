// The data of word code.
ghost use Rattle.std.specs.Prelude.{◌≡◌, ◌≤◌, ◌+◌, ◌++◌, length, map, replicate, IfOk, OnOk};
ghost use Rattle.flat_code.specs.Codes.{block_plain};
ghost use Rattle.rv32_isa.specs.Words.{word_bytes};
ghost use Rattle.word_lowering.specs.Emission.{Puts};
ghost use Rattle.word_lowering.specs.Texts.{texts_of, texts_in, all_names};
ghost use Rattle.word_lowering.specs.Texts.{joined_all, starts_from, names_before, members_of};
ghost use Rattle.word_lowering.specs.Texts.{ends_from, names_at, texts_at, data_at, data_with, padded};

use crate::aliases::text_of;
use crate::handed::LEFT_HANDLE_AT;
use crate::spots::{more, sum};
use arc_base::{Bytes, Memory};
use flat_code::{BlockLine, CodeProc};
use heap_memory::HEAP_DATA;
use nim_types::{TypeDef, TypeId, TypeTable, WORD_BYTES};
use rv32_isa::STATICS_AT;
use std::alloc::Global;

/// Where the line end stands.
pub const LINE_END_AT: u32 = 4;

/// Where `false` stands.
pub const FALSE_AT: u32 = 8;

/// The bytes of what each program has: these texts, and two handles that are made for operands.
/// Globals stand behind them.
pub const FIXED_BYTES: u32 = 44;

/// The bytes of the handle in front of a text: how many bytes that has, and their address.
pub const HANDLE_BYTES: u32 = 8;

/// Where a program's data begins, behind that of the heap's routines.
const PROGRAM_DATA_AT: u32 = STATICS_AT + 8 + HEAP_DATA;

/// The word of which the first byte is a character that is written.
const LETTER_BYTES: usize = 4;

/// The texts that each program has, each up to a whole number of words.
const FIXED_TEXTS: &[u8] = b"\n\0\0\0false\0\0\0true";

// So many zeros.
fn push_zeros(bytes: &mut Bytes, count: usize) -> Result<(), Memory>
    ensures { OnOk result (bytes.new ≡ bytes.old ++ replicate count 0) }
{
    let mut left = count;
    while left > 0 {
        bytes.push(0)?;
        left -= 1;
    }
    Ok(())
}

/// A text, and zeros up to a whole number of words.
pub fn push_padded(bytes: &mut Bytes, text: &[u8]) -> Result<(), Memory>
    ensures { OnOk result (bytes.new ≡ bytes.old ++ padded text.now) }
{
    bytes.append(text)?;
    push_zeros(bytes, (4 - text.len() % 4) % 4)
}

// The texts of a procedure, those of the last line first.
fn push_texts_of(bytes: &mut Bytes, lines: &[BlockLine]) -> Result<(), Memory>
    ensures { OnOk result (bytes.new ≡ bytes.old ++ texts_of (map block_plain lines.now)) }
{
    let mut i = lines.len();
    while i > 0 {
        i -= 1;
        bytes.append(text_of(&lines[i]))?;
    }
    Ok(())
}

/// The texts of all literals, those of the last procedure first.
pub fn push_texts_in(bytes: &mut Bytes, procs: &[CodeProc<BlockLine>]) -> Result<(), Memory>
    ensures { OnOk result (bytes.new ≡ bytes.old ++ texts_in procs.now) }
{
    let mut i = procs.len();
    while i > 0 {
        i -= 1;
        push_texts_of(bytes, procs[i].lines.as_slice())?;
    }
    Ok(())
}

/// How many bytes the texts of a procedure have.
pub fn text_bytes(lines: &[BlockLine]) -> Result<u32, Memory>
    ensures { IfOk result (λ n. n ≡ length (texts_of (map block_plain lines.now))) }
{
    let mut i = lines.len();
    let mut n = 0;
    while i > 0 {
        i -= 1;
        n = more(n, text_of(&lines[i]))?;
    }
    Ok(n)
}

/// How many bytes the texts of procedures have.
pub fn texts_bytes(procs: &[CodeProc<BlockLine>]) -> Result<u32, Memory>
    ensures { IfOk result (λ n. n ≡ length (texts_in procs.now)) }
{
    let mut i = procs.len();
    let mut n = 0;
    while i > 0 {
        i -= 1;
        n = sum(n, text_bytes(procs[i].lines.as_slice())?)?;
    }
    Ok(n)
}

// The names of an entry.
fn members_of(def: &TypeDef) -> &[Bytes]
    ensures { result.now ≡ members_of def.now }
{
    match def {
        TypeDef::Enum { members, .. } => members.as_slice(),
        _ => &[],
    }
}

/// How many names stand before those of an enum, by its number.
pub fn names_before(types: &TypeTable, ty: TypeId) -> u32
    requires { length (all_names types.now) ≤ 4294967295 }
    ensures { result ≡ names_before types.now ty }
{
    let mut n = 0;
    for id in 0..ty.min(types.count()) {
        n += members_of(types.get(id)).len() as u32;
    }
    n
}

#[tactic(auto, unfolding(rv32_isa::specs::Words::word_bytes))]
pub fn push_word(bytes: &mut Bytes, n: u32) -> Result<(), Memory>
    ensures { OnOk result (bytes.new ≡ bytes.old ++ word_bytes n) }
{
    bytes.append(&n.to_le_bytes())
}

// Where names begin, the first one at n; and where the last one ends.
fn push_starts(bytes: &mut Bytes, n: u32, names: &[Bytes]) -> Result<u32, Memory>
    requires { n + length (joined_all names.now) ≤ 4294967295 }
    ensures pushed { OnOk result (Puts bytes.old bytes.new (λ k. starts_from n names.now k)) }
    ensures end { IfOk result (λ end. end ≡ n + length (joined_all names.now)) }
{
    let mut at = n;
    for name in names {
        push_word(bytes, at)?;
        at += name.as_slice().len() as u32;
    }
    Ok(at)
}

// The ends of all names.
fn push_ends(bytes: &mut Bytes, types: &TypeTable) -> Result<(), Memory>
    requires { length (joined_all (all_names types.now)) ≤ 4294967295 }
    ensures { OnOk result (bytes.new ≡ bytes.old ++ ends_from 0 (all_names types.now)) }
{
    let mut n = 0;
    for id in 0..types.count() {
        n = push_starts(bytes, n, members_of(types.get(id)))?;
    }
    push_word(bytes, n)
}

// Some names, one behind the other.
fn push_members(bytes: &mut Bytes, names: &[Bytes]) -> Result<(), Memory>
    ensures { OnOk result (bytes.new ≡ bytes.old ++ joined_all names.now) }
{
    for name in names {
        bytes.append(name.as_slice())?;
    }
    Ok(())
}

// All names.
fn push_names(bytes: &mut Bytes, types: &TypeTable) -> Result<(), Memory>
    ensures { OnOk result (bytes.new ≡ bytes.old ++ joined_all (all_names types.now)) }
{
    for id in 0..types.count() {
        push_members(bytes, members_of(types.get(id)))?;
    }
    Ok(())
}

/// Where the names stand, where globals end at a byte.
pub fn names_at(types: &TypeTable, globals_end: u32) -> u32
    requires { names_at types.now globals_end ≤ 4294967295 }
    ensures { result ≡ names_at types.now globals_end }
{
    let count = names_before(types, types.count()) + 1;
    globals_end + WORD_BYTES * count
}

// How many bytes some names have.
fn name_bytes(n: u32, names: &[Bytes]) -> u32
    requires { n + length (joined_all names.now) ≤ 4294967295 }
    ensures { result ≡ n + length (joined_all names.now) }
{
    let mut n = n;
    for name in names {
        n += name.as_slice().len() as u32;
    }
    n
}

// How many bytes all names have.
fn names_length(types: &TypeTable) -> u32
    requires { length (joined_all (all_names types.now)) ≤ 4294967295 }
    ensures { result ≡ length (joined_all (all_names types.now)) }
{
    let mut n = 0;
    for id in 0..types.count() {
        n = name_bytes(n, members_of(types.get(id)));
    }
    n
}

/// Where the texts of literals are laid out, and the constants that stand in the data.
pub fn texts_at(types: &TypeTable, globals_end: u32) -> u32
    requires { texts_at types.now globals_end ≤ 4294967295 }
    ensures { result ≡ texts_at types.now globals_end }
{
    let n = names_length(types);
    let at = names_at(types, globals_end);
    at + (n + (4 - n % 4) % 4)
}

/// Their address.
pub fn texts_address(types: &TypeTable, globals_end: u32) -> Result<u32, Memory>
    requires { texts_at types.now globals_end ≤ 4294967295 }
    ensures { IfOk result (λ at. at ≡ data_at + texts_at types.now globals_end) }
{
    sum(PROGRAM_DATA_AT, texts_at(types, globals_end))
}

/// All data, where globals end at a byte, with texts as they are laid out.
pub fn data(
    alloc: Global,
    types: &TypeTable,
    globals_end: u32,
    texts: &[u8],
) -> Result<Bytes, Memory>
    requires { length (joined_all (all_names types.now)) ≤ 4294967295 }
    ensures { IfOk result (λ bytes. bytes ≡ padded (data_with types.now globals_end texts.now)) }
{
    let mut bytes = Bytes::new(alloc);
    push_zeros(&mut bytes, LETTER_BYTES)?;
    bytes.append(FIXED_TEXTS)?;
    push_zeros(
        &mut bytes,
        globals_end.saturating_sub(LEFT_HANDLE_AT) as usize,
    )?;
    push_ends(&mut bytes, types)?;
    let mut names = Bytes::new(alloc);
    push_names(&mut names, types)?;
    push_padded(&mut bytes, names.as_slice())?;
    bytes.append(texts)?;
    let missing = (4 - bytes.as_slice().len() % 4) % 4;
    push_zeros(&mut bytes, missing)?;
    Ok(bytes)
}
