// Written types.
ghost use Rattle.std.specs.Prelude.{◌≡◌, ◌-◌, ◌^◌, min};
ghost use Rattle.nim_tree.specs.Types.{written_of, arguments_of, fields_of, arguments_in, fields_in, type_levels, most_type_levels, field_levels};

use crate::{Declared, Expr, Name};
use arc_base::{Bytes, Place};

/// A written type, with the place of its first token.
#[derive(Drop)]
#[cycle(types)]
pub enum TypeTree {
    /// A name, and its arguments in brackets where it has any.
    Named {
        at: Place,
        text: Bytes,
        arguments: Vec<TypeTree>,
    },
    /// `array[length, element]`
    Array {
        at: Place,
        length: Expr,
        element: Box<TypeTree>,
    },
    /// `ref target`
    Ref {
        at: Place,
        target: Box<TypeTree>,
    },
    /// `tuple[..]`
    Tuple {
        at: Place,
        fields: Vec<Field>,
    },
}

impl TypeTree {
    /// The arguments behind a name.
    pub fn arguments(&self) -> &[TypeTree]
        ensures { arguments_of result.now ≡ arguments_in (written_of self.now) }
    {
        match self {
            TypeTree::Named { arguments, .. } => arguments,
            _ => &[],
        }
    }

    /// The fields of a tuple.
    pub fn fields(&self) -> &[Field]
        ensures { fields_of result.now ≡ fields_in (written_of self.now) }
    {
        match self {
            TypeTree::Tuple { fields, .. } => fields,
            _ => &[],
        }
    }

    /// Its levels, or 4,294,967,295 where it has more.
    ///
    /// A name without arguments has one level, any other type one more than the highest type or length in it.
    pub fn levels(&self) -> u32
        ensures { result ≡ min (type_levels (written_of self.now)) (2 ^ 32 - 1) }
    {
        levels_of(self)
    }
}

#[cycle(levels)]
fn levels_of(tree: &TypeTree) -> u32
    ensures { result ≡ min (type_levels (written_of tree.now)) (2 ^ 32 - 1) }
{
    match tree {
        TypeTree::Named { .. } => argument_levels(tree.arguments()).saturating_add(1),
        TypeTree::Array {
            length,
            element,
            ..
        } => length.levels().max(levels_of(element)).saturating_add(1),
        TypeTree::Ref { target, .. } => levels_of(target).saturating_add(1),
        TypeTree::Tuple { .. } => field_levels(tree.fields()).saturating_add(1),
    }
}

// The levels of the highest argument.
#[cycle(levels)]
fn argument_levels(arguments: &[TypeTree]) -> u32
    ensures { result ≡ min (most_type_levels (arguments_of arguments.now)) (2 ^ 32 - 1) }
{
    let mut most = 0;
    for argument in arguments {
        most = levels_of(argument).max(most);
    }
    most
}

// The levels of the highest type of a field.
#[cycle(levels)]
fn field_levels(fields: &[Field]) -> u32
    ensures { result ≡ min (field_levels (fields_of fields.now)) (2 ^ 32 - 1) }
{
    let mut most = 0;
    for field in fields {
        most = levels_of(&field.of).max(most);
    }
    most
}

/// Fields of one type.
#[derive(Drop)]
#[cycle(types)]
pub struct Field {
    /// One or more.
    pub names: Vec<Declared>,
    /// Their type.
    pub of: TypeTree,
}

/// What a declared type is.
#[derive(Drop)]
pub enum TypeBody {
    /// `object`, or `ref object`.
    Object {
        at: Place,
        is_ref: bool,
        /// The name behind `of`.
        parent: Option<Name>,
        fields: Vec<Field>,
    },
    /// `enum`
    Enum {
        at: Place,
        members: Vec<Name>,
    },
    /// `distinct base`
    Distinct {
        at: Place,
        base: TypeTree,
    },
    /// Another name for a type.
    Alias(TypeTree),
}

/// The declaration of a type.
#[derive(Drop)]
pub struct TypeDef {
    pub name: Declared,
    /// The names of its type parameters.
    pub parameters: Vec<Name>,
    /// What it is.
    pub body: TypeBody,
}
