// From a file to its rows.
use crate::check::check_row;
use crate::escapes::unescaped;
use crate::report::Report;
use crate::text::Text;
use std::alloc::Global;

/// What a title begins with, behind the end of the line before it.
const TITLE: &str = "\n=== ";

/// What the name of a part begins with, and the names of columns.
const NAME: &str = "\n--- ";

/// What stands between the columns of a table.
const BETWEEN: &str = " => ";

/// The name of what isn't a part: words, of which each stands in place of `WORD` in the tables of its title.
const EACH: &str = "each";

/// What stands in a row for a word.
const WORD: &str = "\\w";

/// What the name of a part with escapes begins with.
const ESCAPED: &str = "escaped ";

/// A part of a row.
#[derive(Drop)]
pub struct Part<'a> {
    /// Its name, which says what it is of.
    pub name: &'a str,
    pub content: Text,
}

/// A row: what is given, and what is wanted.
#[derive(Drop)]
pub struct Row<'a> {
    /// The line of its file, from 1.
    pub line: u32,
    pub parts: Vec<Part<'a>>,
    /// Whether it has another form than its columns or escapes have, or there was no memory for it.
    pub is_bad: bool,
}

impl<'a> Row<'a> {
    /// A row of which nothing was read.
    pub fn new(alloc: Global, line: u32) -> Self {
        Row {
            line,
            parts: Vec::new(alloc),
            is_bad: false,
        }
    }

    /// What stands in the part with this name.
    pub fn part(&self, name: &str) -> Option<&[u8]> {
        for part in &self.parts {
            if part.name == name {
                return Some(part.content.as_slice());
            }
        }
        None
    }

    /// The same; nothing where there is no such part.
    pub fn bytes(&self, name: &str) -> &[u8] {
        self.part(name).unwrap_or(b"")
    }

    // Adds a part.
    fn put(&mut self, name: &'a str, content: Text) {
        let is_cut = content.is_cut();
        let refused = self.parts.push(Part { name, content }).is_err();
        self.is_bad = self.is_bad || is_cut || refused;
    }
}

// How many lines end in a text, and one more.
fn lines_in(text: &str) -> u32 {
    let mut count = 1u32;
    for b in text.as_bytes() {
        if *b == b'\n' {
            count = count.saturating_add(1);
        }
    }
    count
}

// The content of a part with these lines and this behind them, where empty lines at the end don't count.
fn content_of(alloc: Global, name: &str, lines: &str, end: &str) -> Text {
    let mut content = Text::new(alloc, false);
    content.say(lines.trim_end_matches('\n'));
    content.say(end);
    if name.starts_with(ESCAPED) {
        return unescaped(alloc, content.as_slice(), b"");
    }
    content
}

// Runs the row of a line of a table with these columns, where this word stands for `WORD`.
fn run_line(alloc: Global, line: u32, columns: &str, text: &str, word: &str, report: &mut Report) {
    let mut row = Row::new(alloc, line);
    let mut cells = text.split(BETWEEN);
    for column in columns.split(BETWEEN) {
        let cell = cells.next();
        row.is_bad = row.is_bad || cell.is_none();
        let cell = cell.unwrap_or("").as_bytes();
        row.put(column, unescaped(alloc, cell, word.as_bytes()));
    }
    row.is_bad = row.is_bad || cells.next().is_some();
    check_row(alloc, &row, report);
}

// Runs the rows of a table whose first line has this number: one for each line, or for each word where it stands for some.
fn run_table(
    alloc: Global,
    first: u32,
    columns: &str,
    words: &str,
    body: &str,
    report: &mut Report,
) {
    let mut line = first;
    for text in body.split('\n') {
        let is_row = !text.is_empty() && !text.starts_with('#');
        if is_row && text.contains(WORD) {
            for word in words.split_whitespace() {
                run_line(alloc, line, columns, text, word, report);
            }
        } else if is_row {
            run_line(alloc, line, columns, text, "", report);
        }
        line = line.saturating_add(1);
    }
}

// The words under a title of which each stands in place of `WORD`.
fn words_of(title: &str) -> &str {
    for part in title.split(NAME) {
        let (name, lines) = part.split_once('\n').unwrap_or((part, ""));
        if name == EACH {
            return lines;
        }
    }
    ""
}

// Runs the rows under a title that stands on this line.
fn run_title(alloc: Global, title_line: u32, title: &str, report: &mut Report) {
    let mut row = Row::new(alloc, title_line);
    let mut parts = title.split(NAME);
    // What stands before the first part is for readers.
    let mut line = title_line.saturating_add(lines_in(parts.next().unwrap_or("")));
    for part in parts {
        let (name, lines) = part.split_once('\n').unwrap_or((part, ""));
        if name.contains(BETWEEN) {
            let first = line.saturating_add(1);
            run_table(alloc, first, name, words_of(title), lines, report);
        } else if name != EACH {
            let end = if name.len() < part.len() { "\n" } else { "" };
            let content = content_of(alloc, name, lines, end);
            row.put(name.strip_prefix(ESCAPED).unwrap_or(name), content);
        }
        line = line.saturating_add(lines_in(part));
    }
    if !row.parts.is_empty() {
        check_row(alloc, &row, report);
    }
}

/// Runs the rows of a file, and says what differs.
pub fn run_rows(alloc: Global, file: &str, report: &mut Report) {
    let mut line = 1u32;
    for title in file.split(TITLE) {
        run_title(alloc, line, title, report);
        line = line.saturating_add(lines_in(title));
    }
}
