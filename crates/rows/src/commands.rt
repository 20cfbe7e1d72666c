// Commands of the compiler, over files, a source and sinks in memory.
use crate::given::{MAIN, TARGET, are_same_but, faults_of, files_of, text_in};
use crate::rows::Row;
use crate::text::Text;
use arc_base::{Bytes, MemFiles, MemSink, MemSource, Memory, Source, Stop};
use arc_top::{Answer, nimarc};
use std::alloc::Global;

/// The words of a command, where a row gives none.
const BUILD: &str = "build\nt.nim\no\n";

/// The words that check the source.
const CHECK: &str = "check\nt.nim\n";

/// The words that build a file with the least heap, which takes less time to run.
const BUILD_LEAST: &str = "build\nt.nim\no\n--heap=4096\n";

/// The most bytes that standard output takes, and standard error.
const OUT_ROOM: usize = 16_384;

const ERR_ROOM: usize = 512;

/// The line of a call whose steps are spent.
const SPENT: &[u8] = b"nimarc: steps spent\n";

/// The most bytes of input that may be left.
const LEFT_MOST: usize = 1024;

/// What a command answered, wrote and left.
#[derive(Drop)]
pub struct Done {
    pub answer: Answer,
    input: MemSource,
    out: MemSink,
    err: MemSink,
}

// The words, each on a line.
fn words_of(alloc: Global, lines: &str) -> Vec<String> {
    let mut words = Vec::new(alloc);
    for line in lines.lines() {
        if let Ok(word) = String::from_str(alloc, line) {
            let _ = words.push(word);
        }
    }
    words
}

/// Carries out a command over files, with the input and the faults of a row.
pub fn carried_out(
    alloc: Global,
    row: &Row,
    words: &str,
    files: &mut MemFiles,
) -> Result<Done, Memory> {
    let mut out = MemSink::new(alloc, OUT_ROOM, faults_of(alloc, row, "failing out"))?;
    let mut err = MemSink::new(alloc, ERR_ROOM, faults_of(alloc, row, "failing err"))?;
    let given = Bytes::from_slice(alloc, row.bytes("input"))?;
    let mut input = MemSource::new(given, faults_of(alloc, row, "failing input"));
    let words = words_of(alloc, words);
    let answer = nimarc(
        alloc,
        words.as_slice(),
        files,
        &mut input,
        &mut out,
        &mut err,
    );
    Ok(Done {
        answer,
        input,
        out,
        err,
    })
}

/// The words of a row's command.
pub fn command_of<'a>(row: &'a Row) -> &'a str {
    match row.part("words") {
        Some(words) => text_in(words),
        None => BUILD,
    }
}

/// The file that is built from a source, with the least heap; an empty one where it isn't built.
pub fn built_file(alloc: Global, source: &[u8]) -> Text {
    let none = Row::new(alloc, 0);
    let mut files = MemFiles::new(alloc, faults_of(alloc, &none, ""));
    let _ = files.add(MAIN, source);
    let _ = carried_out(alloc, &none, BUILD_LEAST, &mut files);
    let mut file = Text::new(alloc, false);
    file.put(files.entry(TARGET).unwrap_or(b""));
    file
}

impl Done {
    /// What it wrote to standard output.
    pub fn out(&self) -> &[u8] {
        self.out.written()
    }

    /// What it wrote to standard error.
    pub fn err(&self) -> &[u8] {
        self.err.written()
    }

    /// What the program that it ran wrote to standard error: all but the line on spent steps,
    /// without which there is no answer where they are spent.
    pub fn err_of_program(&self) -> Option<&[u8]> {
        match self.answer {
            Answer::StepsSpent(_) => self.err().strip_suffix(SPENT),
            _ => Some(self.err()),
        }
    }

    /// Takes the input that is left.
    pub fn show_left(&mut self, out: &mut Text) {
        let mut piece = [0u8; LEFT_MOST];
        match self.input.take(&mut piece) {
            Ok(count) => out.put(piece.get(..count).unwrap_or(b"")),
            Err(_) => out.say("a fault"),
        }
    }

    // The name of the file that it built; an empty one where it built none.
    fn built(&self) -> &'static str {
        match self.answer {
            Answer::Done => TARGET,
            _ => "",
        }
    }

    /// The status and the answer, with what it holds.
    pub fn show_answer(&self, alloc: Global, out: &mut Text) {
        out.number(i64::from(self.answer.status()));
        out.say(" ");
        show_answer(alloc, &self.answer, out);
    }

    /// How the program that it ran ended: its status, `running` where its steps are spent, or
    /// another answer.
    pub fn show_end(&self, alloc: Global, out: &mut Text) {
        match &self.answer {
            Answer::Ended(status) => out.number(i64::from(*status)),
            Answer::StepsSpent(_) => out.say("running"),
            _ => self.show_answer(alloc, out),
        }
    }
}

// A name, and what an answer holds, in Rust's form.
fn show_answer(alloc: Global, answer: &Answer, out: &mut Text) {
    match answer {
        Answer::Done => out.say("Done"),
        Answer::Ended(_) => out.say("Ended"),
        Answer::Usage => out.say("Usage"),
        Answer::NoFile(name) => {
            out.say("NoFile ");
            out.put(name.as_bytes());
        }
        Answer::TooLong(name) => {
            out.say("TooLong ");
            out.put(name.as_bytes());
        }
        Answer::Refused { code, at } => {
            out.say("Refused ");
            out.stop(Stop::Refused {
                code: *code,
                at: *at,
            });
        }
        Answer::BadElf(fault) => out.say_made(format!(in alloc; "BadElf {fault:?}")),
        Answer::MachineFault { kind, pc, word } => {
            out.say_made(format!(in alloc; "MachineFault {kind:?} "));
            out.hex(*pc);
            out.say(" ");
            out.hex(*word);
        }
        Answer::StepsSpent(steps) => {
            out.say("StepsSpent ");
            out.number(i64::from(*steps));
        }
        Answer::ReadFault => out.say("ReadFault"),
        Answer::WriteFault(stream) => out.say_made(format!(in alloc; "WriteFault {stream:?}")),
        Answer::StoreFault => out.say("StoreFault"),
        Answer::Memory => out.say("Memory"),
    }
}

// The bytes of a file from one offset to another, both in a text.
fn show_range(file: &[u8], range: &str, out: &mut Text) {
    let (from, to) = range.split_once(' ').unwrap_or((range, ""));
    let from = from.parse::<usize>().unwrap_or(usize::MAX);
    let to = to.parse::<usize>().unwrap_or(0);
    out.hex_bytes(file.get(from..to).unwrap_or(b""));
}

// The status and the line of errors, and that files changed that should not.
fn show_done(alloc: Global, row: &Row, done: &Done, files: &MemFiles, out: &mut Text) {
    let before = files_of(alloc, row);
    out.number(i64::from(done.answer.status()));
    out.say(" ");
    out.put(done.err().trim_ascii_end());
    if !are_same_but(row, &before, files, done.built()) {
        out.say(", and files changed");
    }
}

/// What a row's command answers, or `check`; or bytes of the file that it built.
pub fn show_command(alloc: Global, row: &Row, name: &str, out: &mut Text) {
    let words = if name == "check" {
        CHECK
    } else {
        command_of(row)
    };
    let mut files = files_of(alloc, row);
    match carried_out(alloc, row, words, &mut files) {
        Ok(done) => match name.strip_prefix("bytes ") {
            Some(range) => show_range(files.entry(done.built()).unwrap_or(b""), range, out),
            None => show_done(alloc, row, &done, &files, out),
        },
        Err(Memory) => out.cut_unless(false),
    }
}
