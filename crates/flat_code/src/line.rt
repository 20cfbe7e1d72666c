// The lines that flat, owned and block code have in common: one operation a line.
use arc_base::{Bytes, Items};
use nim_program::{Label, Operation, Use};
use nim_types::TypeId;

/// A part of a constant's value. A value is its pieces one after another, parts before the whole.
#[derive(Drop)]
pub enum Piece {
    /// An int, a bool, a char or a member of an enum, by its ordinal.
    Ordinal(i32),
    Text(Bytes),
    Nil,
    /// An array, a tuple or an object of so many parts, which stand before it.
    Parts(u32),
    /// A sequence of so many elements, which stand before it.
    Elements(u32),
}

/// Where a line takes an operand from.
#[derive(Clone, Copy)]
pub enum From {
    /// The value in a temporary.
    Value(u32),
    /// The location in a temporary.
    Place(u32),
}

/// What the value of a line is for, and the node at which it waits if it does.
#[derive(Clone, Copy)]
pub struct UseAt {
    pub how: Use,
    pub node: u32,
}

/// What is done with a value that somebody owns, beside the rows of the table. A `node` is one of
/// the call at which a value waits, a `place` one of the call, and `ty` the type of the value.
#[derive(Clone, Copy)]
pub enum Owning {
    /// An operation takes the value that waits at a node, which is none any more.
    TakenUp { node: u32 },
    /// A call's value waits at a node.
    Waits { node: u32 },
    /// The value that waits at a node ends, if there is one.
    TemporaryEnds { node: u32, ty: TypeId },
    /// What a place holds ends; what it stands for is another's.
    PlaceEnds { place: u32, ty: TypeId },
    /// A place is filled with a copy of what stands at a location.
    PlaceCopies { place: u32, ty: TypeId },
    /// A place stands for a location.
    PlaceStands { place: u32 },
    /// The place of the result gets a value, or a copy of what stands at a location, in place of
    /// what it holds, which ends.
    ResultGets { place: u32, ty: TypeId },
}

/// A line of flat, owned and block code.
///
/// Each call has temporaries of its own, by number: for values, and, apart from these, for
/// locations. One that got nothing yet can't be read. `to` is a temporary that gets a value or a
/// location, and `from`, `index` and the like are such as are read. A `place` is declared: a place
/// of the call, or, where it is `global`, of the start code. Types are those of the program's table.
#[derive(Drop)]
pub enum Line {
    /// A row of the table of operations, on operands of types.
    Apply {
        to: u32,
        operation: Operation,
        how: UseAt,
        ty: Option<TypeId>,
        of: Items<Option<TypeId>>,
        from: Items<From>,
    },
    /// An object with these fields, and with the others at their defaults.
    Construct {
        to: u32,
        how: UseAt,
        ty: TypeId,
        fields: Items<u32>,
        from: Items<From>,
    },
    /// The value of a constant.
    Constant {
        to: u32,
        how: UseAt,
        ty: TypeId,
        pieces: Items<Piece>,
    },
    /// Calls a procedure, by its number, whose result goes to a temporary.
    Call {
        to: u32,
        how: UseAt,
        ty: Option<TypeId>,
        proc: u32,
        from: Items<From>,
    },
    /// The value at a location, at a site, which is the node at which it waits if it does.
    Get {
        to: u32,
        from: u32,
        how: UseAt,
        ty: Option<TypeId>,
    },
    /// The value at a location, in place.
    Look {
        to: u32,
        from: u32,
    },
    /// The location of a place; of a `var` parameter, the one that it stands for.
    Root {
        to: u32,
        place: u32,
        global: bool,
    },
    /// The location of a value that no place holds: the node at which it waits, or, of one that
    /// nobody owns, its temporary.
    Fresh {
        to: u32,
        from: u32,
        waits: Option<u32>,
    },
    /// The location of a constant, which stands in the data and is never written.
    Standing {
        to: u32,
        ty: TypeId,
        pieces: Items<Piece>,
    },
    /// The location of a field or of a part of a tuple.
    Part {
        to: u32,
        from: u32,
        field: u32,
    },
    /// The location of an element, whose index must be inside.
    Item {
        to: u32,
        from: u32,
        index: u32,
    },
    /// The location of the object of a ref, which must not be nil.
    Object {
        to: u32,
        from: u32,
    },
    /// A value becomes that of another temporary.
    Pass {
        to: u32,
        from: u32,
        how: UseAt,
        ty: Option<TypeId>,
    },
    /// A bool, before an operator that stops early decides whether it is the value.
    Truth {
        to: u32,
        value: bool,
    },
    /// A declared place of the call is filled.
    Fill {
        place: u32,
        from: u32,
    },
    /// A declared place of the call is filled with what its type starts at.
    Blank {
        place: u32,
        ty: TypeId,
    },
    /// The place of the result gets a value.
    Give {
        place: u32,
        from: u32,
    },
    /// Something is done with a value that somebody owns, with at most one operand.
    Own {
        what: Owning,
        from: Items<From>,
    },
    /// The number 0.
    Zero {
        to: u32,
    },
    /// How many elements stand at a location.
    Length {
        to: u32,
        from: u32,
    },
    /// What stands at a location must have as many elements as a temporary says.
    Still {
        from: u32,
        length: u32,
    },
    /// The value of the element at a location by its position, which has to be inside.
    Element {
        to: u32,
        from: u32,
        index: u32,
    },
    /// Goes on at a label behind where a number is none of a loop that goes to a last one, with that
    /// one where it is inclusive. Else the loop's number is that one.
    Beyond {
        counter: u32,
        last: u32,
        inclusive: bool,
        to: u32,
    },
    /// A number that has to be below a last one becomes the next one.
    Next {
        counter: u32,
        last: u32,
    },
    /// A point to which lines of this procedure lead.
    Label {
        name: u32,
    },
    /// Goes on at a label behind.
    Jump {
        to: u32,
    },
    /// Goes on at a label behind where a bool doesn't hold.
    Unless {
        from: u32,
        to: u32,
    },
    /// Goes on at a label behind where a value is one of those of a label of a `case`.
    Fits {
        from: u32,
        these: Label,
        to: u32,
    },
    /// The first turn of a loop begins.
    Enter,
    /// Goes back to a label before, where a further turn of a loop begins. This line and the two
    /// below are all that lead back.
    Turn {
        to: u32,
    },
    /// Goes back likewise where a bool holds.
    TurnIf {
        from: u32,
        to: u32,
    },
    /// The number of a loop becomes the next one, and the turn of that begins likewise, where it is
    /// one of the loop.
    CountTurn {
        counter: u32,
        last: u32,
        inclusive: bool,
        to: u32,
    },
    /// Returns to the caller with the value of the place of the result, or ends the start code.
    Return {
        result: Option<u32>,
    },
}
