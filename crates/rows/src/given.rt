// The files before a command.
use crate::commands::built_file;
use crate::escapes::digit_of;
use crate::programs::program_file;
use crate::rows::Row;
use crate::text::Text;
use arc_base::{Faults, MemFiles};
use std::alloc::Global;

/// The name of the main module.
pub const MAIN: &str = "t.nim";

/// The name of the file that is built.
pub const TARGET: &str = "o";

/// What stands under the name of the file that is built, before.
const OLDER: &[u8] = b"older";

/// The text of a part; an empty one where it is no text.
pub fn text_in(bytes: &[u8]) -> &str {
    std::str::from_utf8(bytes).unwrap_or("")
}

/// Whether a part of this kind gives a file: as it is, to base 16, as a program of words, or as the source that it is built
/// from.
fn gives_file(kind: &str) -> bool {
    matches!(kind, "module" | "hex" | "program" | "built")
}

/// Whether a part gives a file, or says what is changed in one.
pub fn is_of_files(part: &str) -> bool {
    let (kind, _) = part.split_once(' ').unwrap_or(("", ""));
    gives_file(kind) || matches!(kind, "changed" | "cut")
}

// What stands in the part of this kind for a file.
fn part_for<'a>(row: &'a Row, kind: &str, name: &str) -> &'a str {
    for part in &row.parts {
        if part.name.split_once(' ') == Some((kind, name)) {
            return text_in(part.content.as_slice());
        }
    }
    ""
}

// The bytes of a text to base 16, where only digits count.
fn hex_of(alloc: Global, text: &[u8]) -> Text {
    let mut bytes = Text::new(alloc, false);
    let mut high = None;
    for b in text {
        let digit = digit_of(*b);
        if let (Some(high), Some(low)) = (high, digit) {
            bytes.put(&[(high << 4) | low]);
        }
        high = match (high, digit) {
            (Some(_), Some(_)) => None,
            (before, None) => before,
            (None, now) => now,
        };
    }
    bytes
}

// What stands at an offset behind a change, as `18:3e` (at offset 18 stands the byte 3e) or `18:` (it is one more).
fn changed_byte(change: &str, at: usize, old: u8) -> u8 {
    let (offset, new) = change.split_once(':').unwrap_or(("", ""));
    let Ok(offset) = offset.parse::<usize>() else {
        return old;
    };
    let Some(behind) = at.checked_sub(offset) else {
        return old;
    };
    let first = behind.saturating_mul(2);
    let high = new.as_bytes().get(first).copied().unwrap_or(b' ');
    let low = new
        .as_bytes()
        .get(first.saturating_add(1))
        .copied()
        .unwrap_or(b' ');
    match (digit_of(high), digit_of(low)) {
        (Some(high), Some(low)) => (high << 4) | low,
        _ => old.wrapping_add(u8::from(behind == 0 && new.is_empty())),
    }
}

// The first bytes, as many as a text says, with all changes that another has.
fn changed(alloc: Global, bytes: &[u8], changes: &str, most: &str) -> Text {
    let most = most.trim().parse::<usize>().unwrap_or(usize::MAX);
    let mut left = Text::new(alloc, false);
    let mut at = 0usize;
    for b in bytes.get(..most).unwrap_or(bytes) {
        let mut byte = *b;
        for change in changes.split_whitespace() {
            byte = changed_byte(change, at, byte);
        }
        left.put(&[byte]);
        at = at.saturating_add(1);
    }
    left
}

// The file that a part gives.
fn given_file(alloc: Global, kind: &str, given: &[u8]) -> Text {
    match kind {
        "hex" => hex_of(alloc, given),
        "program" => program_file(alloc, text_in(given)),
        "built" => built_file(alloc, given),
        _ => changed(alloc, given, "", ""),
    }
}

/// The calls of an object that fail, whose numbers stand in a part.
pub fn faults_of(alloc: Global, row: &Row, name: &str) -> Faults {
    let mut calls = Vec::new(alloc);
    for number in text_in(row.bytes(name)).split_whitespace() {
        let _ = calls.push(number.parse::<u64>().unwrap_or(0));
    }
    Faults { calls }
}

/// The files before a command: the source, an older file under the name of the new one, and those that parts give.
pub fn files_of(alloc: Global, row: &Row) -> MemFiles {
    let mut files = MemFiles::new(alloc, faults_of(alloc, row, "failing files"));
    let _ = files.add(MAIN, row.bytes("source"));
    let _ = files.add(TARGET, OLDER);
    for part in &row.parts {
        let (kind, name) = part.name.split_once(' ').unwrap_or(("", ""));
        if gives_file(kind) {
            let given = given_file(alloc, kind, part.content.as_slice());
            let (changes, most) = (part_for(row, "changed", name), part_for(row, "cut", name));
            let file = changed(alloc, given.as_slice(), changes, most);
            let _ = files.add(name, file.as_slice());
        }
    }
    files
}

/// Whether the files of a row, but for that of a name, are in both the same.
pub fn are_same_but(row: &Row, before: &MemFiles, after: &MemFiles, but: &str) -> bool {
    let mut same = but == MAIN || before.entry(MAIN) == after.entry(MAIN);
    same = same && (but == TARGET || before.entry(TARGET) == after.entry(TARGET));
    for part in &row.parts {
        let (_, name) = part.name.split_once(' ').unwrap_or(("", ""));
        same = same && (but == name || before.entry(name) == after.entry(name));
    }
    same
}
