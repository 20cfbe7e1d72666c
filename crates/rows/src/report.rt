// What is said of rows that differ.
use crate::rows::Row;
use crate::text::Text;
use arc_base::Stream;

/// What differs in a file of rows.
#[derive(Drop)]
pub struct Report<'a> {
    pub file: &'a str,
    pub lines: Text,
    /// How many rows it has.
    pub count: i64,
    pub differs: bool,
}

impl Report<'_> {
    // Says what is wrong with a row, and why, without the end of the line.
    fn begin(&mut self, line: u32, what: &str, why: &str) {
        self.differs = true;
        self.lines.say(self.file);
        self.lines.say(":");
        self.lines.number(i64::from(line));
        self.lines.say(": ");
        self.lines.say(what);
        self.lines.say(why);
    }

    /// Says what is wrong with a row, and why.
    pub fn say(&mut self, line: u32, what: &str, why: &str) {
        self.begin(line, what, why);
        self.lines.say("\n");
    }

    /// That a part differs, unless it holds.
    pub fn expect(&mut self, holds: bool, line: u32, name: &str, wanted: &[u8], found: &[u8]) {
        if !holds {
            self.begin(line, name, ": wanted ");
            self.lines.put(wanted);
            self.lines.say(", found ");
            self.lines.put(found);
            self.lines.say("\n");
        }
    }

    /// That a part differs, unless what is wanted was found.
    pub fn expect_same(&mut self, line: u32, name: &str, wanted: &[u8], found: &Text) {
        let (wanted, bytes) = (wanted.trim_ascii(), found.as_slice().trim_ascii());
        self.expect(
            wanted == bytes && !found.is_cut(),
            line,
            name,
            wanted,
            bytes,
        );
    }

    /// Says how many rows the file has.
    pub fn end(&mut self) {
        self.lines.say(self.file);
        self.lines.say(": ");
        self.lines.number(self.count);
        self.lines.say(" rows\n");
        self.differs = self.differs || self.lines.is_cut();
    }

    /// Compares what was written to a stream with what a row wants: all of it, what it begins with,
    /// or a text of which it is a front. Where the row says nothing, nothing is to be written.
    pub fn compare(&mut self, row: &Row, stream: Stream, found: &[u8]) {
        let (whole, begins, within) = match stream {
            Stream::Out => ("out", "out begins", "out within"),
            Stream::Err => ("err", "err begins", "err within"),
        };
        let line = row.line;
        if let Some(wanted) = row.part(begins) {
            self.expect(found.starts_with(wanted), line, begins, wanted, found);
        } else if let Some(wanted) = row.part(within) {
            self.expect(wanted.starts_with(found), line, within, wanted, found);
        } else {
            let wanted = row.bytes(whole);
            self.expect(wanted == found, line, whole, wanted, found);
        }
    }
}
