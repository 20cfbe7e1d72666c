// Typed expressions: one form for all that evaluates its operands from left to right and then does
// something, and a few that choose.
use crate::operation::{Operation, Short};
use arc_base::{Bytes, Items, Place};
use nim_types::TypeId;

/// A node of the program: a statement or an expression.
#[derive(Clone, Copy)]
pub struct Node {
    /// Its number, in order of text. An expression comes before its operands, also where both begin
    /// at one token.
    pub number: u32,
    /// The place of its first token.
    pub at: Place,
}

/// The values of a label of a `case`.
#[derive(Drop)]
pub enum Label {
    /// The ordinals from one to another.
    Ordinals { low: i32, high: i32 },
    /// A text.
    Text(Bytes),
}

/// The value of a constant: an ordinal, a text, `nil`, the parts of an array, a tuple or an object,
/// or the elements of a sequence.
#[derive(Drop)]
#[cycle(literal)]
pub enum Literal {
    Ordinal(i32),
    Text(Bytes),
    Nil,
    Parts(Vec<Literal>),
    Elements(Vec<Literal>),
}

/// A typed expression. Types are numbers of the program's table; None is that of one that gives no
/// value.
#[derive(Drop)]
#[cycle(tree)]
pub enum Expr {
    /// An operation on its operands.
    Apply {
        node: Node,
        ty: Option<TypeId>,
        operation: Operation,
        operands: Vec<Operand>,
    },
    /// A call of a procedure, by its number, with the types for its type parameters.
    Call {
        node: Node,
        ty: Option<TypeId>,
        proc: u32,
        types: Items<TypeId>,
        operands: Vec<Operand>,
    },
    /// An object from values of fields, by the numbers of these from 0, in order of text. Other
    /// fields start at their default. Of a ref type it is a new object.
    Construct {
        node: Node,
        ty: TypeId,
        fields: Items<u32>,
        operands: Vec<Operand>,
    },
    /// A literal, or a use of a constant: its value, built anew.
    Constant {
        node: Node,
        ty: TypeId,
        value: Literal,
    },
    /// The value at a path.
    Read {
        path: Path,
    },
    /// `and` and `or` of bools, which stop early.
    Early {
        node: Node,
        ty: TypeId,
        short: Short,
        left: Box<Expr>,
        right: Box<Expr>,
    },
    /// The value of the first branch whose condition holds.
    If {
        node: Node,
        ty: Option<TypeId>,
        branches: Vec<Choice>,
        otherwise: Box<Expr>,
    },
    /// The value of the branch that has the selector's value among its labels. Without `otherwise`
    /// the labels cover the type, or nothing is done where none fits. A selector at a path is read
    /// in place.
    Case {
        node: Node,
        ty: Option<TypeId>,
        selector: Box<Operand>,
        branches: Vec<Pick>,
        otherwise: Option<Box<Expr>>,
    },
}

/// A path: a name or a fresh value, followed by fields, indexes and dereferences. Each part but a
/// dereference is a node.
#[derive(Drop)]
#[cycle(tree)]
pub enum Path {
    /// A declared place, by its number.
    Variable {
        node: Node,
        ty: TypeId,
        place: u32,
        /// Whether it is a global.
        global: bool,
    },
    /// A value that no place holds.
    Fresh {
        value: Box<Expr>,
    },
    /// A field of an object or a part of a tuple, by its number from 0; of an exception its
    /// message.
    Field {
        node: Node,
        ty: TypeId,
        base: Box<Path>,
        field: u32,
    },
    /// An element of a text, a sequence or an array. The number of a constant index stands
    /// beside it.
    Element {
        node: Node,
        ty: TypeId,
        base: Box<Path>,
        index: Box<Expr>,
        constant: Option<i32>,
    },
    /// The object of the ref at a path, whose field follows.
    Deref {
        ty: TypeId,
        base: Box<Path>,
    },
}

/// An operand: a value, or a place by its path.
#[derive(Drop)]
#[cycle(tree)]
pub enum Operand {
    Value(Expr),
    /// A place that is written or read in place, or that a `var` parameter is another name for.
    At(Path),
}

/// A branch of an `if` that is an expression.
#[derive(Drop)]
#[cycle(tree)]
pub struct Choice {
    pub condition: Expr,
    pub value: Expr,
}

/// A branch of a `case` that is an expression.
#[derive(Drop)]
#[cycle(tree)]
pub struct Pick {
    pub labels: Items<Label>,
    pub value: Expr,
}
