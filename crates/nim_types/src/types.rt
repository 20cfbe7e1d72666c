// Types by their numbers in a table.

use arc_base::{Bytes, Items, Place};

/// The number of a type in its table.
pub type TypeId = u32;

/// The bytes of a number, bool, char, enum or ref, and of what has no parts.
pub const WORD_BYTES: u32 = 4;

/// The bytes of a text or a sequence: its length and its block.
pub const LIST_BYTES: u32 = 8;

/// A field of an object.
#[derive(Drop)]
pub struct FieldName {
    /// Its name as declared.
    pub name: Bytes,
    /// Whether other modules see it.
    pub shown: bool,
}

/// A type by the numbers of its parts, and what its declaration says.
///
/// Places are those of declarations; the line is 0 where no source declares the type.
#[derive(Drop)]
pub enum TypeDef {
    Int,
    Bool,
    Char,
    Text,
    Seq(TypeId),
    /// The type parameter at a place, from 0.
    Param(u32),
    Enum {
        name: Bytes,
        at: Place,
        members: Items<Bytes>,
    },
    Array {
        len: u32,
        of: TypeId,
    },
    /// The names of its parts in normal form, or none.
    Tuple {
        names: Items<Bytes>,
        parts: Items<TypeId>,
    },
    /// `args` are those of a generic one, `resource` says that it has hooks of its own, and `parts`
    /// are the types of its fields,
    /// none until they are known.
    Object {
        name: Bytes,
        at: Place,
        args: Items<TypeId>,
        fields: Items<FieldName>,
        resource: bool,
        parts: Items<TypeId>,
    },
    Distinct {
        name: Bytes,
        at: Place,
        base: TypeId,
    },
    /// With the name of its `ref object` declaration, or without.
    Ref {
        name: Option<Bytes>,
        to: TypeId,
    },
    /// With the exception that it is below, but for the root.
    Exception {
        name: Bytes,
        at: Place,
        parent: Option<TypeId>,
    },
}
