// Rows against what the calls give.
use crate::commands::{built_file, show_command};
use crate::given::{is_of_files, text_in};
use crate::machine::{show_decoded, show_step};
use crate::parsed::{is_of_source, show_characters, show_source, show_text};
use crate::report::Report;
use crate::rows::{Part, Row};
use crate::runs::{check_call, check_program, is_of_run};
use crate::text::Text;
use crate::visits::{most_of, show_visits};
use std::alloc::Global;

/// The most bytes of a source that is scanned.
const SOURCE_MOST: usize = 1_048_575;

/// What stands before the name of a part that also has places.
const PLACED: &str = "placed ";

// Whether a part is given, or says what fails outside, or is compared with what a program or a whole call does.
fn is_given(name: &str) -> bool {
    let is_of_call = matches!(
        name,
        "source" | "words" | "input" | "steps" | "word" | "x1" | "x2" | "call" | "stored" | "left"
    );
    is_of_call || name.starts_with("failing ") || is_of_files(name) || is_of_run(name)
}

// The number to base 16 in a part; 0 where there is none.
fn number_in(row: &Row, name: &str) -> u32 {
    let digits = text_in(row.bytes(name)).trim().trim_start_matches("0x");
    u32::from_str_radix(digits, 16).unwrap_or(0)
}

// What a call gives that a part of this name is of; nothing where there is no such part.
fn show(alloc: Global, row: &Row, name: &str, out: &mut Text) {
    let source = row.bytes("source");
    let word = number_in(row, "word");
    if source.len() > SOURCE_MOST {
        out.cut_unless(false);
    } else if is_of_source(name) {
        show_source(alloc, source, name, out);
    } else if name == "text" {
        show_text(alloc, source, out);
    } else if name == "characters" {
        show_characters(alloc, source, out);
    } else if name == "instruction" {
        show_decoded(word, out);
    } else if matches!(name, "step" | "x3" | "pc" | "data") {
        let (first, second) = (number_in(row, "x1"), number_in(row, "x2"));
        show_step(alloc, word, first, second, name, out);
    } else {
        out.cut_unless(false);
    }
}

// The lines of a text as one: without the spaces at their ends, and with one space before each.
fn joined(alloc: Global, lines: &[u8]) -> Text {
    let mut one = Text::new(alloc, false);
    for line in lines.split(|b| *b == b'\n') {
        let line = line.trim_ascii();
        one.say(if line.is_empty() { "" } else { " " });
        one.put(line);
    }
    one
}

// Compares what a call gives with what is wanted in a part.
fn check_part(alloc: Global, row: &Row, part: &Part, report: &mut Report) {
    let name = part.name;
    let mut found = Text::new(alloc, name.starts_with(PLACED) || name == "imports");
    if matches!(name, "answer" | "check") || name.starts_with("bytes ") {
        show_command(alloc, row, name, &mut found);
    } else if let Some(most) = most_of(name) {
        let file = built_file(alloc, row.bytes("source"));
        show_visits(alloc, file.as_slice(), most, &mut found);
    } else {
        show(
            alloc,
            row,
            name.strip_prefix(PLACED).unwrap_or(name),
            &mut found,
        );
    }
    let wanted = joined(alloc, part.content.as_slice());
    report.expect_same(row.line, name, wanted.as_slice(), &found);
}

/// Compares a row with what the calls give.
pub fn check_row(alloc: Global, row: &Row, report: &mut Report) {
    let mut is_run = false;
    report.count = report.count.saturating_add(1);
    if row.is_bad {
        report.say(row.line, "no row", "");
    }
    for part in &row.parts {
        is_run = is_run || is_of_run(part.name);
        if !is_given(part.name) {
            check_part(alloc, row, part, report);
        }
    }
    if row.part("call").is_some() {
        check_call(alloc, row, report);
    } else if is_run {
        check_program(alloc, row, report);
    }
}
