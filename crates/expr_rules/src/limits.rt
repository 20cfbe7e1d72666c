// Limits of types.

/// The most elements of an array.
pub const MOST_ELEMENTS: u32 = 65_536;

/// The most bytes of a value of a type.
pub const MOST_TYPE_BYTES: u32 = 1_048_576;
