// Where the places and temporaries of a procedure are in word code.
use crate::place_table::PlaceTable;
use arc_base::Items;
use flat_code::PlaceKind;
use nim_types::TypeId;

/// The variable of how many calls may still be active behind the running one. It is the first
/// parameter of each procedure.
pub const LEFT: u32 = 0;

/// A variable for what comes between; the address to which something goes; before a call, how many
/// calls may be active behind it.
pub const FIRST: u32 = 1;

/// Another one; the address from which something comes.
pub const SECOND: u32 = 2;

/// Another one; how many bytes there are.
pub const THIRD: u32 = 3;

/// Another one; the number at a location that becomes another one.
pub const FOURTH: u32 = 4;

/// Another one; the address of an element.
pub const FIFTH: u32 = 5;

/// The first variable that a procedure has for its own places: from here on come its parameters,
/// and then all others.
pub const OWN_FROM: u32 = 6;

/// Where something of block code is in word code.
#[derive(Clone, Copy)]
pub enum Home {
    /// In a variable: a word, or the address of what a location leads to.
    Variable(u32),
    /// In the places of the call, from this byte on.
    Placed(u32),
    /// In the data, from this byte on.
    Static(u32),
}

/// What a temporary is another name for. It has no home of its own then.
#[derive(Clone, Copy)]
pub enum Alias {
    /// Nothing: it has one.
    Own,
    /// The location of a declared place: of the call, or of the start code where it is `global`.
    Place { place: u32, global: bool },
    /// The location of the value in a temporary.
    Value(u32),
    /// What waits at a node.
    Node(u32),
    /// A text that stands in the data: so many bytes from behind so many bytes of the procedure's
    /// literals on.
    Text { behind: u32, bytes: u32 },
}

/// A place or a temporary, and where it is.
#[derive(Clone, Copy)]
pub struct Housed {
    /// Its number in block code.
    pub number: u32,
    pub kind: PlaceKind,
    pub ty: TypeId,
    /// The bytes of its value, or of the value to which it leads.
    pub bytes: u32,
    /// Whether that value is one word: an ordinal.
    pub is_word: bool,
    /// Whether it is one of 256 values, as a character is: at an address it is read and written as
    /// a byte, since it may be one of a text.
    pub is_letter: bool,
    pub alias: Alias,
    pub home: Home,
    /// The node at which it may wait: of a temporary whose type has something to do at its end.
    pub waits: Option<u32>,
    /// Whether it stands for another place, whose address it holds then.
    pub lent: bool,
}

/// Where a value stands while it waits at a node.
#[derive(Clone, Copy)]
pub struct Waiter {
    pub node: u32,
    pub ty: TypeId,
    pub bytes: u32,
    /// In the places of the call, from this byte on.
    pub at: u32,
    /// The variable of the address there while a value waits, and of 0 while none does.
    pub variable: u32,
}

/// What isn't taken yet: the next variable, the next byte of places, the next byte of data.
#[derive(Clone, Copy)]
pub struct Free {
    pub variable: u32,
    pub byte: u32,
    pub datum: u32,
}

/// The layout of a procedure.
#[derive(Drop)]
pub struct Layout {
    /// Its places and temporaries, in their order.
    pub all: PlaceTable,
    /// Where what waits stands, in their order.
    pub waiters: Items<Waiter>,
    /// What isn't taken behind them.
    pub free: Free,
    /// Whether it has lines.
    pub runs: bool,
}

/// Among which kinds of places a line seeks one.
#[derive(Clone, Copy)]
pub enum Sort {
    /// Temporaries with values.
    Value,
    /// Temporaries with locations.
    Location,
    /// Declared places with a value of their own.
    Own,
    /// All declared places.
    Declared,
    /// Globals.
    Global,
}
