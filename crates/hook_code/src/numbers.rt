// The numbers of hooks, of their labels and of their variables.

/// How many procedures a type may have: its four hooks, and what makes a sequence shorter.
pub const HOOKS_EACH: u32 = 5;

/// The value that says how many elements of a sequence are kept.
pub const COUNT: u32 = 8;

/// A handle that comes between.
pub const ONE: u32 = 11;

/// Another one.
pub const OTHER: u32 = 12;

/// A variable for addresses, and for what is done with them.
pub const ADDRESS: u32 = 13;

/// So many variables behind that with the length of a handle stands the one with its place.
pub const PLACES_BEHIND: u32 = 3;

/// How many variables a hook has.
pub const HOOK_VARIABLES: u32 = 16;
