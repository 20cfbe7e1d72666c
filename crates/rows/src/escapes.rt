// Escapes: how a row writes bytes that a line can't hold well.
use crate::text::Text;
use std::alloc::Global;

/// The most times that a text is repeated.
const MOST_TIMES: u32 = 100_000;

/// What the next byte belongs to.
#[derive(Clone, Copy)]
enum State {
    /// Anything.
    Plain,
    /// An escape.
    Escape,
    /// The first digit behind `\x`.
    High,
    /// The second one, behind the first.
    Low(u8),
    /// The number behind `\*`.
    Times,
    /// What is repeated.
    Body,
    /// An escape in what is repeated.
    BodyEscape,
    /// It has no such form.
    Bad,
}

/// What was written out, and what the next byte belongs to.
#[derive(Drop)]
struct Writer<'a> {
    alloc: Global,
    /// What `\w` stands for.
    word: &'a [u8],
    whole: Text,
    state: State,
    /// How often the text is repeated that is being read.
    times: u32,
    body: Text,
}

/// The value of a digit to base 16.
pub fn digit_of(b: u8) -> Option<u8> {
    match b {
        b'0'..=b'9' => Some(b - b'0'),
        b'a'..=b'f' => Some(b - b'a' + 10),
        b'A'..=b'F' => Some(b - b'A' + 10),
        _ => None,
    }
}

impl Writer<'_> {
    // Writes out the letter of an escape; in what is repeated so many turns came before. A line end doesn't count.
    fn letter(&mut self, b: u8, turn: u32) {
        self.state = State::Plain;
        match b {
            b'n' => self.whole.say("\n"),
            b'r' => self.whole.say("\r"),
            b't' => self.whole.say("\t"),
            b'\\' => self.whole.say("\\"),
            b'}' => self.whole.say("}"),
            b'w' => self.whole.put(self.word),
            b'#' => self.whole.number(i64::from(turn)),
            b'i' => {
                for _ in 0..turn {
                    self.whole.say(" ");
                }
            }
            b'\n' => {}
            b'x' => self.state = State::High,
            b'*' => self.state = State::Times,
            _ => self.state = State::Bad,
        }
    }

    // Writes out a byte that isn't repeated, or one of what is.
    fn write(&mut self, b: u8, turn: u32) {
        match self.state {
            State::Plain => {
                if b == b'\\' {
                    self.state = State::Escape;
                } else {
                    self.whole.put(&[b]);
                }
            }
            State::Escape => self.letter(b, turn),
            State::High => {
                self.state = match digit_of(b) {
                    Some(high) => State::Low(high),
                    None => State::Bad,
                };
            }
            State::Low(high) => {
                self.state = match digit_of(b) {
                    Some(_) => State::Plain,
                    None => State::Bad,
                };
                self.whole.put(&[(high << 4) | digit_of(b).unwrap_or(0)]);
            }
            _ => self.state = State::Bad,
        }
    }

    // Takes a byte of the number behind `\*`.
    fn count(&mut self, b: u8) {
        match b {
            b'0'..=b'9' => {
                let digit = u32::from(b - b'0');
                self.times = self.times.saturating_mul(10).saturating_add(digit);
            }
            b'{' => self.state = State::Body,
            _ => self.state = State::Bad,
        }
    }

    // Writes out what is repeated, as often as it is to be.
    fn repeat(&mut self) {
        let body = std::mem::replace(&mut self.body, Text::new(self.alloc, false));
        self.state = State::Plain;
        for turn in 0..self.times.min(MOST_TIMES) {
            for b in body.as_slice() {
                self.write(*b, turn);
            }
        }
        self.times = 0;
    }

    // Takes a byte of what is repeated, or its end.
    fn keep(&mut self, b: u8, in_escape: bool) {
        if b == b'}' && !in_escape {
            self.repeat();
        } else {
            self.body.put(&[b]);
            let begins = b == b'\\' && !in_escape;
            self.state = if begins {
                State::BodyEscape
            } else {
                State::Body
            };
        }
    }

    // Takes a byte.
    fn take(&mut self, b: u8) {
        match self.state {
            State::Times => self.count(b),
            State::Body => self.keep(b, false),
            State::BodyEscape => self.keep(b, true),
            _ => self.write(b, 0),
        }
    }
}

/// The bytes that a text with escapes stands for. It is cut where an escape has no such form.
///
/// `\n`, `\r`, `\t`, `\\` and `\}` stand for their bytes, `\xHH` for a byte, and `\` at the end of a line for nothing.
/// `\w` stands for a word that is given. `\*N{TEXT}` is TEXT so many times, in which `\i` stands for as many spaces as times before, and `\#` for their number.
pub fn unescaped(alloc: Global, text: &[u8], word: &[u8]) -> Text {
    let mut writer = Writer {
        alloc,
        word,
        whole: Text::new(alloc, false),
        state: State::Plain,
        times: 0,
        body: Text::new(alloc, false),
    };
    for b in text {
        writer.take(*b);
    }
    let is_whole = matches!(writer.state, State::Plain);
    writer.whole.cut_unless(is_whole);
    writer.whole
}
