// What commands do that are carried out whole: rows of calls, and of programs.
use crate::commands::{Done, built_file, carried_out, command_of};
use crate::given::{MAIN, TARGET, are_same_but, files_of, text_in};
use crate::report::Report;
use crate::rows::Row;
use crate::text::Text;
use arc_base::{MemFiles, Memory, Stream};
use std::alloc::Global;

/// The most instructions of a run, and units of a meaning, where a row says nothing of them.
const STEPS: u32 = 100_000_000;

const UNITS: u32 = 5_000_000;

/// Whether a part says what a program does.
pub fn is_of_run(part: &str) -> bool {
    matches!(
        part,
        "out" | "out begins" | "out within" | "err" | "err begins" | "err within" | "status"
    )
}

// Compares the files behind a call with those before it: that one is stored, which a part names, or none, and that all
// others are as they were.
fn check_files(alloc: Global, row: &Row, files: &MemFiles, report: &mut Report) {
    let stored = text_in(row.bytes("stored")).trim();
    let before = files_of(alloc, row);
    if !are_same_but(row, &before, files, stored) {
        report.say(row.line, "files changed", "");
    }
    if !stored.is_empty() && before.entry(stored) == files.entry(stored) {
        report.say(row.line, "not stored: ", stored);
    }
}

// Compares what a call answers, writes and leaves with what a row says.
fn check_answer(alloc: Global, row: &Row, done: Done, report: &mut Report) {
    let mut done = done;
    let (mut answer, mut left) = (Text::new(alloc, false), Text::new(alloc, false));
    done.show_answer(alloc, &mut answer);
    report.expect_same(row.line, "call", row.bytes("call"), &answer);
    report.compare(row, Stream::Out, done.out());
    report.compare(row, Stream::Err, done.err());
    done.show_left(&mut left);
    if let Some(wanted) = row.part("left") {
        report.expect(
            wanted == left.as_slice(),
            row.line,
            "left",
            wanted,
            left.as_slice(),
        );
    }
}

/// Compares all that a call does with what a row says: nothing is written and nothing stored where it says nothing.
pub fn check_call(alloc: Global, row: &Row, report: &mut Report) {
    let mut files = files_of(alloc, row);
    match carried_out(alloc, row, command_of(row), &mut files) {
        Ok(done) => check_answer(alloc, row, done, report),
        Err(Memory) => report.say(row.line, "no memory", ""),
    }
    check_files(alloc, row, &files, report);
}

// Compares what a program did by a command with what a row says.
fn check_done(alloc: Global, row: &Row, command: &str, done: &Done, report: &mut Report) {
    let mut end = Text::new(alloc, false);
    done.show_end(alloc, &mut end);
    let wanted = row.part("status").unwrap_or(b"0");
    report.expect_same(row.line, command, wanted, &end);
    report.compare(row, Stream::Out, done.out());
    match done.err_of_program() {
        Some(err) => report.compare(row, Stream::Err, err),
        None => report.say(row.line, command, ": no line on spent steps"),
    }
}

// Compares what a program does by a command, to so many steps where the row says nothing of them.
fn check_by(
    alloc: Global,
    row: &Row,
    command: &str,
    files: MemFiles,
    most: u32,
    report: &mut Report,
) {
    let mut files = files;
    let steps = text_in(row.bytes("steps")).trim();
    let steps = steps.parse::<u32>().unwrap_or(most);
    let name = if command == "exec" { TARGET } else { MAIN };
    let heap = if command == "exec" {
        ""
    } else {
        "\n--heap=4096"
    };
    let mut words = Text::new(alloc, false);
    words.say(command);
    words.say("\n");
    words.say(name);
    words.say(heap);
    words.say("\n--steps=");
    words.number(i64::from(steps));
    match carried_out(alloc, row, text_in(words.as_slice()), &mut files) {
        Ok(done) => check_done(alloc, row, command, &done, report),
        Err(Memory) => report.say(row.line, "no memory", ""),
    }
}

// The files of a row, with the file that is built from its source.
fn files_with_built(alloc: Global, row: &Row) -> MemFiles {
    let built = built_file(alloc, row.bytes("source"));
    let mut files = files_of(alloc, row);
    let _ = files.add(TARGET, built.as_slice());
    files
}

/// Compares what a program means, and what it does as it is run and as its file is executed, with what a row says. It writes
/// nothing and ends with status 0 where the row says nothing of it.
pub fn check_program(alloc: Global, row: &Row, report: &mut Report) {
    if row.part("words").is_some() {
        report.say(row.line, "words of a program", "");
    } else {
        check_by(alloc, row, "mean", files_of(alloc, row), UNITS, report);
        check_by(alloc, row, "run", files_of(alloc, row), STEPS, report);
        check_by(
            alloc,
            row,
            "exec",
            files_with_built(alloc, row),
            STEPS,
            report,
        );
    }
}
