// The places of a procedure.
use arc_base::Place;
use nim_program::Mode;
use nim_types::TypeId;

/// How many levels the types of places have at most in code of a program that isn't too large.
pub const MOST_LEVELS: u32 = 64;

/// What kind of place a place is.
#[derive(Clone, Copy)]
pub enum PlaceKind {
    /// Of a `let` or a `var`.
    Local,
    /// The same, with `{.cursor.}`.
    Cursor,
    Result,
    Param(Mode),
    /// The variable of a `for`.
    ForVar,
    /// The name after `as` in `except`.
    Caught,
    /// Declared outside of all blocks of the start code.
    Global,
    /// The value of a node.
    Temp,
    /// Where a path leads that begins at a place or passes through a ref, whose value has the type.
    Location,
    /// Where a path leads in a value that no place holds. It is only read.
    Within,
    /// A number that a loop keeps, whatever its type says.
    Counter,
}

/// A place of a procedure.
#[derive(Clone, Copy)]
pub struct FlatPlace {
    /// The number of a declared place, or of a temporary.
    pub number: u32,
    /// The place in the text of its name, or of its node.
    pub at: Place,
    pub kind: PlaceKind,
    pub ty: TypeId,
    /// Whether its type has something to do when a value is copied, moved or destroyed.
    pub hooked: bool,
    /// Whether its type contains an object with hooks of its own.
    pub resource: bool,
    /// Whether its values can be copied.
    pub copies: bool,
    /// The node at which the value of a temporary waits, if it does.
    pub waits: Option<u32>,
}
