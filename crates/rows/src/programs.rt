// Files of machine code, put together from words by the layout of docs/FORMATS.md. No code of the compiler takes part.
use crate::text::Text;
use std::alloc::Global;

/// The header.
const HEADER: [u8; 52] = [
    0x7f, 0x45, 0x4c, 0x46, 1, 1, 1, 0, 0, 0, 0, 0, 0, 0, 0, 0, 2, 0, 243, 0, 1, 0, 0, 0, 0, 0, 1,
    0, 52, 0, 0, 0, 0, 0, 0, 0, 0, 0, 0, 0, 52, 0, 32, 0, 5, 0, 0, 0, 0, 0, 0, 0,
];

/// Where the note stands: behind the header and five program headers.
const NOTE_AT: u32 = 212;

/// The name in the note, with its zero bytes.
const NAME: &[u8] = b"NimArc\0\0";

/// How many bytes of the note stand before its description.
const NOTE_FRONT: u32 = 20;

/// The description of a note whose lists are empty: the version and four counts.
const DESCRIPTION: [u32; 5] = [1, 0, 0, 0, 0];

/// The sizes of heap and stack, where nothing is said of them.
const HEAP: u32 = 4096;

const STACK: u32 = 65_536;

/// What the words of a program are of.
#[derive(Clone, Copy)]
enum Section {
    Code,
    Data,
    Note,
    Heap,
    Stack,
}

/// A program, part by part.
#[derive(Drop)]
struct Program {
    code: Text,
    data: Text,
    description: Text,
    heap: u32,
    stack: u32,
}

// Adds words, the lowest byte of each first.
fn put_words(bytes: &mut Text, words: &[u32]) {
    for word in words {
        bytes.put(&word.to_le_bytes());
    }
}

// How many bytes these are.
fn count(bytes: &Text) -> u32 {
    u32::try_from(bytes.as_slice().len()).unwrap_or(0)
}

impl Program {
    // Adds a word to a section, or sets the size that it is.
    fn put(&mut self, section: Section, word: u32) {
        match section {
            Section::Code => put_words(&mut self.code, &[word]),
            Section::Data => put_words(&mut self.data, &[word]),
            Section::Note => put_words(&mut self.description, &[word]),
            Section::Heap => self.heap = word,
            Section::Stack => self.stack = word,
        }
    }

    // Adds the program headers.
    fn put_headers(&self, file: &mut Text) {
        let (c, d) = (count(&self.code), count(&self.data));
        let n = count(&self.description).saturating_add(NOTE_FRONT);
        let (code_at, data_at) = (
            NOTE_AT.saturating_add(n),
            NOTE_AT.saturating_add(n).saturating_add(c),
        );
        put_words(file, &[1, code_at, 0x1_0000, 0x1_0000, c, c, 5, 4]);
        put_words(file, &[1, data_at, 0x10_0000, 0x10_0000, d, d, 6, 4]);
        put_words(file, &[1, 0, 0x20_0000, 0x20_0000, 0, self.heap, 6, 4]);
        put_words(file, &[1, 0, 0x200_0000, 0x200_0000, 0, self.stack, 6, 4]);
        put_words(file, &[4, NOTE_AT, 0, 0, n, 0, 4, 4]);
    }

    // Its file.
    fn written(&self, alloc: Global) -> Text {
        let mut file = Text::new(alloc, false);
        file.put(&HEADER);
        self.put_headers(&mut file);
        put_words(&mut file, &[7, count(&self.description), 1]);
        file.put(NAME);
        file.put(self.description.as_slice());
        file.put(self.code.as_slice());
        file.put(self.data.as_slice());
        file
    }
}

// The section that a word names.
fn section_of(word: &str) -> Option<Section> {
    match word {
        "code" => Some(Section::Code),
        "data" => Some(Section::Data),
        "note" => Some(Section::Note),
        "heap" => Some(Section::Heap),
        "stack" => Some(Section::Stack),
        _ => None,
    }
}

/// The file with these words of code, to base 16. Behind `data`, `note`, `heap` or `stack` stand the words of the data
/// and of the note's description, and the sizes of heap and stack. A word that is none counts as 0.
pub fn program_file(alloc: Global, text: &str) -> Text {
    let mut program = Program {
        code: Text::new(alloc, false),
        data: Text::new(alloc, false),
        description: Text::new(alloc, false),
        heap: HEAP,
        stack: STACK,
    };
    let mut section = Section::Code;
    for word in text.split_whitespace() {
        match section_of(word) {
            Some(next) => section = next,
            None => program.put(section, u32::from_str_radix(word, 16).unwrap_or(0)),
        }
    }
    if program.description.as_slice().is_empty() {
        put_words(&mut program.description, &DESCRIPTION);
    }
    program.written(alloc)
}
