// A file from its bytes.
ghost use Rattle.std.specs.Prelude.{◌≡◌, ◌≤◌, ◌<◌, ◌^◌, ◌+◌, ◌++◌, take, drop, length, IfOk, IfErr, OnOk, IsTrue, IsFalse};
ghost use Rattle.elf32.specs.declared.file.ElfFault.TheVariants.{Segment, Note};
ghost use Rattle.elf32.specs.Elf.{file_of, Elf, header, segments_of};
ghost use Rattle.elf32.specs.Faults.{HasSegments, AreSizes, StopsRightly};
ghost use Rattle.elf32.specs.Reading.{Because, SaysNote, SaysNone, image_in, note_front};
ghost use Rattle.rv32_isa.specs.Hooks.{HooksStand, code_at};
ghost use Rattle.rv32_isa.specs.Image.{image_of};

use crate::file::{ElfFault, ElfFile, ElfStop};
use crate::lists::{read_hooks, read_sinks, read_sites, read_skips};
use crate::order::{hooks_stand, sinks_rise, sites_rise, skips_rise};
use crate::words::{push_word, push_words, word_at};
use crate::writer::{
    HEADER, NAME, NAME_SIZE, NOTE_OFFSET, NOTE_TYPE, Sizes, VERSION, push_segments,
};
use arc_base::{Bytes, Items, Memory};
use nim_plan::Plan;
use rv32_isa::{HookAt, Image};
use std::alloc::Global;

// The ranges of the sizes that program headers tell, in bytes.
const NOTE_MOST: u32 = 2_097_152;

const CODE_LEAST: u32 = 4;

const CODE_MOST: u32 = 524_288;

const STATICS_MOST: u32 = 1_048_576;

const HEAP_LEAST: u32 = 4_096;

const HEAP_MOST: u32 = 16_777_216;

const STACK_LEAST: u32 = 65_536;

const STACK_MOST: u32 = 268_435_456;

// Where the program headers tell the sizes: in the file, or in memory for what the file doesn't have.
const CODE_SIZE_AT: usize = 68;

const STATICS_SIZE_AT: usize = 100;

const HEAP_SIZE_AT: usize = 136;

const STACK_SIZE_AT: usize = 168;

const NOTE_SIZE_AT: usize = 196;

// Where the description stands in a note, and its lists, behind the version.
const DESCRIPTION_AT: u32 = 20;

const LISTS_AT: usize = 24;

// What a note says.
#[derive(Drop)]
struct Said {
    hooks: Items<HookAt>,
    plan: Plan,
}

// Whether two lists of bytes are equal.
fn is_same(one: &[u8], other: &[u8]) -> bool
    ensures yes { IsTrue result → one.now ≡ other.now }
    ensures no { IsFalse result → one.now ≡ other.now → ⊥ }
{
    one == other
}

// Whether bytes begin as the header does.
#[tactic(auto, unfolding(rv32_isa::specs::Words::word_bytes))]
fn is_front(bytes: &[u8], len: usize) -> bool
    requires bytes { len ≤ length bytes.now }
    requires header { len ≤ 52 }
    ensures yes { IsTrue result → take len bytes.now ≡ take len header }
    ensures no { IsFalse result → take len bytes.now ≡ take len header → ⊥ }
{
    is_same(&bytes[..len], &HEADER[..len])
}

// The header, and that the program headers are there.
fn check_header(bytes: &[u8]) -> Result<(), ElfStop>
    ensures long { OnOk result (212 ≤ length bytes.now) }
    ensures header { OnOk result (take 52 bytes.now ≡ header) }
    ensures bad { IfErr result (λ stop. StopsRightly bytes.now stop) }
{
    if bytes.len() < NOTE_OFFSET as usize {
        return Err(ElfStop::Bad(ElfFault::Short));
    }
    if !is_front(bytes, 4) {
        return Err(ElfStop::Bad(ElfFault::Magic));
    }
    if !is_front(bytes, 16) {
        return Err(ElfStop::Bad(ElfFault::Class));
    }
    if !is_front(bytes, 18) {
        return Err(ElfStop::Bad(ElfFault::FileType));
    }
    if !is_front(bytes, 20) {
        return Err(ElfStop::Bad(ElfFault::Machine));
    }
    if !is_front(bytes, 52) {
        return Err(ElfStop::Bad(ElfFault::Header));
    }
    Ok(())
}

// Whether sizes are in their ranges, and are all of a file with so many bytes.
fn are_sizes(sizes: &Sizes, len: usize) -> bool
    ensures yes { IsTrue result → AreSizes sizes.now.note sizes.now.code sizes.now.statics sizes.now.heap sizes.now.stack len }
    ensures no { IsFalse result → AreSizes sizes.now.note sizes.now.code sizes.now.statics sizes.now.heap sizes.now.stack len → ⊥ }
{
    let note = sizes.note <= NOTE_MOST;
    let code = sizes.code % 4 == 0 && CODE_LEAST <= sizes.code && sizes.code <= CODE_MOST;
    let statics = sizes.statics % 4 == 0 && sizes.statics <= STATICS_MOST;
    let heap = HEAP_LEAST <= sizes.heap && sizes.heap <= HEAP_MOST;
    let stack = sizes.stack % 16 == 0 && STACK_LEAST <= sizes.stack && sizes.stack <= STACK_MOST;
    let stored = NOTE_OFFSET as usize
        + sizes.note as usize
        + sizes.code as usize
        + sizes.statics as usize;
    note && code && statics && heap && stack && len == stored
}

// The sizes that the program headers tell.
fn read_sizes(alloc: Global, bytes: &[u8]) -> Result<Sizes, ElfStop>
    requires { 212 ≤ length bytes.now }
    ensures sizes { IfOk result (λ sizes. AreSizes sizes.note sizes.code sizes.statics sizes.heap sizes.stack (length bytes.now)) }
    ensures spelled { IfOk result (λ sizes. take 160 (drop 52 bytes.now) ≡ segments_of sizes.note sizes.code sizes.statics sizes.heap sizes.stack) }
    ensures bad { IfErr result (λ stop. Because stop Segment (HasSegments bytes.now → ⊥)) }
{
    let sizes = Sizes {
        note: word_at(bytes, NOTE_SIZE_AT),
        code: word_at(bytes, CODE_SIZE_AT),
        statics: word_at(bytes, STATICS_SIZE_AT),
        heap: word_at(bytes, HEAP_SIZE_AT),
        stack: word_at(bytes, STACK_SIZE_AT),
    };
    if !are_sizes(&sizes, bytes.len()) {
        return Err(ElfStop::Bad(ElfFault::Segment));
    }
    let mut expected = Bytes::new(alloc);
    push_segments(&mut expected, &sizes)?;
    if !is_same(&bytes[52..212], expected.as_slice()) {
        return Err(ElfStop::Bad(ElfFault::Segment));
    }
    Ok(sizes)
}

// Adds the bytes of a note of `size` bytes up to its version.
fn push_front(front: &mut Bytes, size: u32) -> Result<(), Memory>
    requires { 20 ≤ size }
    ensures { OnOk result (front.new ≡ front.old ++ note_front size) }
{
    push_words(front, &[NAME_SIZE, size - DESCRIPTION_AT, NOTE_TYPE])?;
    front.append(&NAME)?;
    push_word(front, VERSION)
}

// That a note begins as one does, up to its version.
fn check_front(alloc: Global, note: &[u8]) -> Result<(), ElfStop>
    requires { length note.now < 2 ^ 32 }
    ensures long { OnOk result (24 ≤ length note.now) }
    ensures front { OnOk result (take 24 note.now ≡ note_front (length note.now)) }
    ensures bad { IfErr result (λ stop. Because stop Note (24 ≤ length note.now → take 24 note.now ≡ note_front (length note.now) → ⊥)) }
{
    if note.len() < LISTS_AT {
        return Err(ElfStop::Bad(ElfFault::Note));
    }
    let mut expected = Bytes::new(alloc);
    push_front(&mut expected, note.len() as u32)?;
    if !is_same(&note[..LISTS_AT], expected.as_slice()) {
        return Err(ElfStop::Bad(ElfFault::Note));
    }
    Ok(())
}

// The note of a file with `size` bytes of code.
fn read_note(alloc: Global, note: &[u8], size: u32) -> Result<Said, ElfStop>
    requires note { length note.now ≤ 2097152 }
    requires code { size ≤ 524288 }
    ensures ok { IfOk result (λ said. SaysNote size note.now said.hooks said.plan) }
    ensures bad { IfErr result (λ stop. Because stop Note (SaysNone size note.now)) }
{
    check_front(alloc, note)?;
    let hooks = read_hooks(alloc, note, LISTS_AT)?;
    let sites = read_sites(alloc, note, hooks.end)?;
    let sinks = read_sinks(alloc, note, sites.end)?;
    let skips = read_skips(alloc, note, sinks.end)?;
    if skips.end != note.len() {
        return Err(ElfStop::Bad(ElfFault::Note));
    }
    if !hooks_stand(hooks.items.as_slice(), size) || !sites_rise(sites.items.as_slice()) {
        return Err(ElfStop::Bad(ElfFault::Note));
    }
    if !sinks_rise(sinks.items.as_slice()) || !skips_rise(skips.items.as_slice()) {
        return Err(ElfStop::Bad(ElfFault::Note));
    }
    Ok(Said {
        hooks: hooks.items,
        plan: Plan {
            sites: sites.items,
            sinks: sinks.items,
            skips: skips.items,
        },
    })
}

// So many bytes from a place on.
fn part(bytes: &[u8], start: usize, len: usize) -> &[u8]
    requires { start + len ≤ length bytes.now }
    ensures { result.now ≡ take len (drop start bytes.now) }
{
    &bytes[start..start + len]
}

// The image of a file of these sizes, with its hooks.
fn read_image(
    alloc: Global,
    bytes: &[u8],
    sizes: &Sizes,
    hooks: Items<HookAt>,
) -> Result<Image, Memory>
    requires sizes { AreSizes sizes.now.note sizes.now.code sizes.now.statics sizes.now.heap sizes.now.stack (length bytes.now) }
    requires hooks { HooksStand sizes.now.code code_at hooks }
    ensures { IfOk result (λ image. image_of image ≡ image_in bytes.now sizes.now.note sizes.now.code sizes.now.statics sizes.now.heap sizes.now.stack hooks) }
{
    let note_end = NOTE_OFFSET as usize + sizes.note as usize;
    let code_end = note_end + sizes.code as usize;
    let code = Bytes::from_slice(alloc, part(bytes, note_end, sizes.code as usize))?;
    let statics = Bytes::from_slice(alloc, part(bytes, code_end, sizes.statics as usize))?;
    Ok(Image {
        code,
        statics,
        heap: sizes.heap,
        stack: sizes.stack,
        hooks,
    })
}

/// The file that has these bytes. Where there is none, `Bad` says the first part that is not as in a file; the bytes of a file
/// are never answered so (`one_file`). `Memory` where no memory is found.
pub fn read(alloc: Global, bytes: &[u8]) -> Result<ElfFile, ElfStop>
    ensures ok { IfOk result (λ file. Elf bytes.now (file_of file)) }
    ensures bad { IfErr result (λ stop. StopsRightly bytes.now stop) }
{
    check_header(bytes)?;
    let sizes = read_sizes(alloc, bytes)?;
    let note = part(bytes, NOTE_OFFSET as usize, sizes.note as usize);
    let said = read_note(alloc, note, sizes.code)?;
    let image = read_image(alloc, bytes, &sizes, said.hooks)?;
    Ok(ElfFile {
        image,
        version: VERSION,
        plan: said.plan,
    })
}
