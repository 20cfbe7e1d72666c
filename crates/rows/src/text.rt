// Texts that are put together.
use arc_base::{Bytes, Memory, Place, Stop};
use itoa::Buffer;
use std::alloc::{AllocError, Global};

/// The digits of numbers to base 16.
const DIGITS: [u8; 16] = *b"0123456789abcdef";

/// A text that is put together, with or without the places of what it shows.
///
/// A piece for which there is no memory is left out, and the text is then equal to none.
#[derive(Drop)]
pub struct Text {
    bytes: Bytes,
    with_places: bool,
    is_cut: bool,
}

impl Text {
    /// An empty text.
    pub fn new(alloc: Global, with_places: bool) -> Self {
        Text {
            bytes: Bytes::new(alloc),
            with_places,
            is_cut: false,
        }
    }

    /// The bytes of the text.
    pub fn as_slice(&self) -> &[u8] {
        self.bytes.as_slice()
    }

    /// Whether a piece of it was left out.
    pub fn is_cut(&self) -> bool {
        self.is_cut
    }

    /// Makes it equal to none, unless it is whole.
    pub fn cut_unless(&mut self, is_whole: bool) {
        self.is_cut = self.is_cut || !is_whole;
    }

    /// Adds bytes.
    pub fn put(&mut self, piece: &[u8]) {
        let refused = self.bytes.append(piece).is_err();
        self.is_cut = self.is_cut || refused;
    }

    /// Adds a text.
    pub fn say(&mut self, text: &str) {
        self.put(text.as_bytes());
    }

    /// Adds a text that was made for it.
    pub fn say_made(&mut self, text: Result<String, AllocError>) {
        match text {
            Ok(text) => self.say(text.as_str()),
            Err(_) => self.is_cut = true,
        }
    }

    /// Adds bytes that were read.
    pub fn say_read(&mut self, bytes: Result<Bytes, Memory>) {
        match bytes {
            Ok(bytes) => self.put(bytes.as_slice()),
            Err(Memory) => self.is_cut = true,
        }
    }

    /// Adds a number to base 10.
    pub fn number(&mut self, number: i64) {
        let mut digits = Buffer::new();
        self.put(digits.format(number).as_bytes());
    }

    /// Adds two numbers to base 10 with a sign between them.
    pub fn pair(&mut self, first: u32, sign: &str, second: u32) {
        self.number(i64::from(first));
        self.say(sign);
        self.number(i64::from(second));
    }

    /// Adds a number to base 16, without leading zeros.
    pub fn hex(&mut self, number: u32) {
        let mut begun = false;
        for shift in [28u32, 24, 20, 16, 12, 8, 4, 0] {
            let digit = (number >> shift) & 15;
            begun = begun || digit != 0 || shift == 0;
            if begun {
                self.put(&[DIGITS[digit as usize]]);
            }
        }
    }

    /// Adds where what was read ends: the number of the token behind it.
    pub fn end(&mut self, next: usize) {
        self.say(" to ");
        self.number(i64::try_from(next).unwrap_or(-1));
    }

    /// Adds bytes to base 16, with two digits each and a space before each.
    pub fn hex_bytes(&mut self, bytes: &[u8]) {
        for b in bytes {
            self.put(&[b' ', DIGITS[(*b >> 4) as usize], DIGITS[(*b & 15) as usize]]);
        }
    }

    /// Adds a place, where places are shown.
    pub fn at(&mut self, at: Place) {
        if self.with_places {
            self.say("@");
            self.pair(at.line, ":", at.column);
        }
    }

    /// Adds the place of the branch that comes, where places are shown.
    pub fn branch_at(&mut self, at: Place) {
        self.say(if self.with_places { " " } else { "" });
        self.at(at);
    }

    /// Adds a refusal, or that there was no memory.
    pub fn stop(&mut self, stop: Stop) {
        match stop {
            Stop::Refused { code, at } => {
                self.say(code.text());
                self.say(" ");
                self.pair(at.line, ":", at.column);
            }
            Stop::Memory => self.is_cut = true,
        }
    }
}
