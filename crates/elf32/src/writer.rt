// The bytes of a file.
ghost use Rattle.std.specs.Prelude.{◌≡◌, ◌≤◌, ◌<◌, ◌^◌, ◌++◌, length, IfOk, OnOk};
ghost use Rattle.rv32_isa.specs.Image.{image_of};
ghost use Rattle.elf32.specs.Elf.{words, header, segment, segments_of, segments, counted, hook_words, act_number};
ghost use Rattle.elf32.specs.Elf.{site_words, sink_words, skip_words, description, note, file_of, IsFile, Elf, File};

use crate::file::ElfFile;
use crate::words::{push_word, push_words};
use arc_base::{Bytes, Memory};
use nim_plan::{Act, SiteAct, SkipAt};
use rv32_isa::{CODE_AT, HEAP_AT, HookAt, STACK_AT, STATICS_AT};
use std::alloc::Global;

/// The header: what all files begin with.
pub const HEADER: [u8; 52] = [
    // the magic number; 32 bits, lowest byte first, version 1; and nine zeros
    0x7f, 0x45, 0x4c, 0x46, 1, 1, 1, 0, 0, 0, 0, 0, 0, 0, 0, 0,
    // a file that can be run, for RISC-V
    2, 0, 243, 0,
    // version, entry, where program headers and sections stand, and flags
    1, 0, 0, 0, 0, 0, 1, 0, 52, 0, 0, 0, 0, 0, 0, 0, 0, 0, 0, 0,
    // the sizes of this header and of a program header, their number, and no sections
    52, 0, 32, 0, 5, 0, 0, 0, 0, 0, 0, 0,
];

/// Where the note stands in the file: after the headers.
pub const NOTE_OFFSET: u32 = 212;

/// The kind of a program header of memory.
const LOAD: u32 = 1;

/// The kind of a program header of a note.
const NOTE: u32 = 4;

/// The flags of a note.
const READ: u32 = 4;

/// The flags of data, heap and stack.
const READ_WRITE: u32 = 6;

/// The flags of code.
const READ_EXECUTE: u32 = 5;

/// Each program header has this alignment.
const ALIGNMENT: u32 = 4;

/// The name of the note, with the zero that ends it and one that fills it up to 8 bytes.
pub const NAME: [u8; 8] = *b"NimArc\0\0";

/// The size of the name, with the zero that ends it.
pub const NAME_SIZE: u32 = 7;

/// The type of the note.
pub const NOTE_TYPE: u32 = 1;

/// The version of the note.
pub const VERSION: u32 = 1;

// What a program header says.
#[derive(Clone, Copy)]
struct Segment {
    kind: u32,
    offset: u32,
    address: u32,
    in_file: u32,
    in_memory: u32,
    flags: u32,
}

/// Adds the header.
#[tactic(auto, unfolding(rv32_isa::specs::Words::word_bytes))]
pub fn push_header(file: &mut Bytes) -> Result<(), Memory>
    ensures { OnOk result (file.new ≡ file.old ++ header) }
{
    file.append(&HEADER)
}

fn push_segment(file: &mut Bytes, head: &Segment) -> Result<(), Memory>
    ensures { OnOk result (file.new ≡ file.old ++ segment head.now.kind head.now.offset head.now.address head.now.in_file head.now.in_memory head.now.flags) }
{
    push_words(
        file,
        &[
            head.kind,
            head.offset,
            head.address,
            head.address,
            head.in_file,
            head.in_memory,
            head.flags,
            ALIGNMENT,
        ],
    )
}

// A region that is zeros at first.
fn push_zeros(file: &mut Bytes, address: u32, size: u32) -> Result<(), Memory>
    ensures { OnOk result (file.new ≡ file.old ++ segment 1 0 address 0 size 6) }
{
    push_segment(
        file,
        &Segment {
            kind: LOAD,
            offset: 0,
            address,
            in_file: 0,
            in_memory: size,
            flags: READ_WRITE,
        },
    )
}

// A region whose bytes stand in the file.
fn push_stored(
    file: &mut Bytes,
    offset: u32,
    address: u32,
    size: u32,
    flags: u32,
) -> Result<(), Memory>
    ensures { OnOk result (file.new ≡ file.old ++ segment 1 offset address size size flags) }
{
    push_segment(
        file,
        &Segment {
            kind: LOAD,
            offset,
            address,
            in_file: size,
            in_memory: size,
            flags,
        },
    )
}

/// The sizes that a file has, in bytes.
#[derive(Clone, Copy)]
pub struct Sizes {
    pub note: u32,
    pub code: u32,
    pub statics: u32,
    pub heap: u32,
    pub stack: u32,
}

/// Adds the program headers of a file of these sizes.
pub fn push_segments(file: &mut Bytes, sizes: &Sizes) -> Result<(), Memory>
    requires note { sizes.now.note ≤ 2097152 }
    requires code { sizes.now.code ≤ 524288 }
    ensures { OnOk result (file.new ≡ file.old ++ segments_of sizes.now.note sizes.now.code sizes.now.statics sizes.now.heap sizes.now.stack) }
{
    let code = NOTE_OFFSET + sizes.note;
    push_stored(file, code, CODE_AT, sizes.code, READ_EXECUTE)?;
    push_stored(
        file,
        code + sizes.code,
        STATICS_AT,
        sizes.statics,
        READ_WRITE,
    )?;
    push_zeros(file, HEAP_AT, sizes.heap)?;
    push_zeros(file, STACK_AT, sizes.stack)?;
    push_segment(
        file,
        &Segment {
            kind: NOTE,
            offset: NOTE_OFFSET,
            address: 0,
            in_file: sizes.note,
            in_memory: 0,
            flags: READ,
        },
    )
}

fn push_hooks(bytes: &mut Bytes, hooks: &[HookAt]) -> Result<(), Memory>
    requires { length hooks.now < 2 ^ 32 }
    ensures { OnOk result (bytes.new ≡ bytes.old ++ words (counted hook_words hooks.now)) }
{
    push_word(bytes, hooks.len() as u32)?;
    for hook in hooks {
        push_words(bytes, &[hook.kind, hook.of, hook.addr])?;
    }
    Ok(())
}

fn number_of(act: Act) -> u32
    ensures { result ≡ act_number act }
{
    match act {
        Act::Copy => 0,
        Act::Move => 1,
        Act::Final => 2,
        Act::Borrow => 3,
    }
}

fn push_sites(bytes: &mut Bytes, sites: &[SiteAct]) -> Result<(), Memory>
    requires { length sites.now < 2 ^ 32 }
    ensures { OnOk result (bytes.new ≡ bytes.old ++ words (counted site_words sites.now)) }
{
    push_word(bytes, sites.len() as u32)?;
    for site in sites {
        push_words(bytes, &[site.site, number_of(site.act)])?;
    }
    Ok(())
}

fn push_sinks(bytes: &mut Bytes, sinks: &[u32]) -> Result<(), Memory>
    requires { length sinks.now < 2 ^ 32 }
    ensures { OnOk result (bytes.new ≡ bytes.old ++ words (counted sink_words sinks.now)) }
{
    push_word(bytes, sinks.len() as u32)?;
    push_words(bytes, sinks)
}

fn push_skips(bytes: &mut Bytes, skips: &[SkipAt]) -> Result<(), Memory>
    requires { length skips.now < 2 ^ 32 }
    ensures { OnOk result (bytes.new ≡ bytes.old ++ words (counted skip_words skips.now)) }
{
    push_word(bytes, skips.len() as u32)?;
    for skip in skips {
        push_words(bytes, &[skip.place, skip.exit])?;
    }
    Ok(())
}

// The description of the note.
fn describe(alloc: Global, file: &ElfFile) -> Result<Bytes, Memory>
    requires { IsFile (file_of file.now) }
    ensures { IfOk result (λ bytes. bytes ≡ words (description (file_of file.now))) }
{
    let mut bytes = Bytes::new(alloc);
    push_word(&mut bytes, file.version)?;
    push_hooks(&mut bytes, file.image.hooks.as_slice())?;
    push_sites(&mut bytes, file.plan.sites.as_slice())?;
    push_sinks(&mut bytes, file.plan.sinks.as_slice())?;
    push_skips(&mut bytes, file.plan.skips.as_slice())?;
    Ok(bytes)
}

fn note_of(alloc: Global, file: &ElfFile) -> Result<Bytes, Memory>
    requires { IsFile (file_of file.now) }
    ensures { IfOk result (λ bytes. bytes ≡ note (file_of file.now)) }
{
    let description = describe(alloc, file)?;
    let size = description.as_slice().len() as u32;
    let mut bytes = Bytes::new(alloc);
    push_words(&mut bytes, &[NAME_SIZE, size, NOTE_TYPE])?;
    bytes.append(&NAME)?;
    bytes.append(description.as_slice())?;
    Ok(bytes)
}

/// The bytes of a file, which are those of no other file. Its version is 1, its heap has at least 4,096 bytes, each list of its
/// plan is in strictly increasing order, and its note has at most 2,097,152 bytes. `Memory` where no memory is found.
pub fn write(alloc: Global, file: &ElfFile) -> Result<Bytes, Memory>
    requires { IsFile (file_of file.now) }
    ensures elf { IfOk result (λ bytes. Elf bytes (file_of file.now)) }
    ensures only { IfOk result (λ bytes. (other : File) → Elf bytes other → other ≡ file_of file.now) }
{
    let note = note_of(alloc, file)?;
    let sizes = Sizes {
        note: note.as_slice().len() as u32,
        code: file.image.code.as_slice().len() as u32,
        statics: file.image.statics.as_slice().len() as u32,
        heap: file.image.heap,
        stack: file.image.stack,
    };
    let mut bytes = Bytes::new(alloc);
    push_header(&mut bytes)?;
    push_segments(&mut bytes, &sizes)?;
    bytes.append(note.as_slice())?;
    bytes.append(file.image.code.as_slice())?;
    bytes.append(file.image.statics.as_slice())?;
    Ok(bytes)
}
