// The words behind the command's own, one after another.
ghost use Rattle.std.specs.Prelude.{◌≡◌, ◌∷◌, map, option_map, string_bytes};
ghost use Rattle.command_words.specs.Command.{no_arguments};
ghost use Rattle.command_words.specs.Walk.{arguments_of, line_of, with_place, with_value, kind_seen, read_kind, step, walk, ended, begin, arguments};

use crate::number::number;
use crate::word::{Key, Kind, kind_of};

/// The least size of the heap, in bytes.
pub const HEAP_LEAST: u32 = 4_096;
/// The greatest size of the heap, in bytes, and the one where none is given.
pub const HEAP_MOST: u32 = 16_777_216;
/// The least number of steps.
pub const STEPS_LEAST: u32 = 1;
/// The greatest number of steps.
pub const STEPS_MOST: u32 = 4_294_967_295;

/// The positional words. No command has more than two.
#[derive(Clone, Copy)]
pub(crate) enum Places<'a> {
    Zero,
    One(&'a str),
    Two(&'a str, &'a str),
}

/// What was given behind the command's word.
#[derive(Clone, Copy)]
pub(crate) struct Arguments<'a> {
    pub places: Places<'a>,
    pub heap: Option<u32>,
    pub steps: Option<u32>,
}

/// What the next word is.
#[derive(Clone, Copy)]
enum Next {
    /// A positional word or an option, or `--`.
    Any,
    /// The value of this option.
    Value(Key),
    /// A positional word, since options have ended.
    Place,
}

/// What was given so far.
#[derive(Clone, Copy)]
struct Line<'a> {
    next: Next,
    given: Arguments<'a>,
}

impl<'a> Arguments<'a> {
    // Nothing is given.
    fn none() -> Arguments<'a>
        ensures { arguments_of result ≡ no_arguments }
    {
        Arguments {
            places: Places::Zero,
            heap: None,
            steps: None,
        }
    }

    // One more positional word, unless there are two.
    fn with_place(self, word: &'a str) -> Option<Arguments<'a>>
        ensures { option_map arguments_of result ≡ with_place word.now (arguments_of self.entry) }
    {
        let places = match self.places {
            Places::Zero => Places::One(word),
            Places::One(first) => Places::Two(first, word),
            Places::Two(..) => return None,
        };
        Some(Arguments { places, ..self })
    }

    // The value of an option that isn't given yet.
    fn with_value(self, key: Key, text: &str) -> Option<Arguments<'a>>
        ensures { option_map arguments_of result ≡ with_value key text.now (arguments_of self.entry) }
    {
        match key {
            Key::Heap => {
                if self.heap.is_some() {
                    return None;
                }
                let heap = Some(number(text, HEAP_LEAST, HEAP_MOST)?);
                Some(Arguments { heap, ..self })
            }
            Key::Steps => {
                if self.steps.is_some() {
                    return None;
                }
                let steps = Some(number(text, STEPS_LEAST, STEPS_MOST)?);
                Some(Arguments { steps, ..self })
            }
        }
    }
}

impl<'a> Line<'a> {
    // One word more, of this kind, where it may be an option.
    fn read_kind(self, kind: Kind<'a>, word: &'a str) -> Option<Line<'a>>
        ensures { option_map line_of result ≡ read_kind (kind_seen kind.entry) word.now (arguments_of self.entry.given) }
    {
        let given = self.given;
        match kind {
            Kind::End => Some(Line {
                next: Next::Place,
                given,
            }),
            Kind::Place => Some(Line {
                next: Next::Any,
                given: given.with_place(word)?,
            }),
            Kind::Named(key) => Some(Line {
                next: Next::Value(key),
                given,
            }),
            Kind::Valued(key, value) => Some(Line {
                next: Next::Any,
                given: given.with_value(key, value)?,
            }),
            Kind::Unknown => None,
        }
    }

    // One word more.
    fn read_word(self, word: &'a str) -> Option<Line<'a>>
        ensures { option_map line_of result ≡ step word.now (line_of self.entry) }
    {
        match self.next {
            Next::Any => self.read_kind(kind_of(word), word),
            Next::Value(key) => Some(Line {
                next: Next::Any,
                given: self.given.with_value(key, word)?,
            }),
            Next::Place => Some(Line {
                next: Next::Place,
                given: self.given.with_place(word)?,
            }),
        }
    }

    // What is given where no words follow.
    fn ended(self) -> Option<Arguments<'a>>
        ensures { option_map arguments_of result ≡ ended (line_of self.entry) }
    {
        match self.next {
            Next::Value(_) => None,
            _ => Some(self.given),
        }
    }
}

// Where the words lead from the beginning.
fn walk<'a>(words: &'a [String]) -> Option<Line<'a>>
    ensures { option_map line_of result ≡ walk (map string_bytes words.now) begin }
{
    let mut line = Line {
        next: Next::Any,
        given: Arguments::none(),
    };
    for word in words {
        line = line.read_word(word.as_str())?;
    }
    Some(line)
}

/// What the words behind the command's own give, with two positional words at most.
pub(crate) fn read_arguments<'a>(words: &'a [String]) -> Option<Arguments<'a>>
    ensures { option_map arguments_of result ≡ arguments (map string_bytes words.now) }
{
    walk(words)?.ended()
}
