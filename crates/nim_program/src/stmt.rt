// Typed statements.
use crate::expr::{Expr, Label, Node, Operand};
use arc_base::{Bytes, Items, Place};
use nim_types::TypeId;

/// A declared place.
#[derive(Drop)]
pub struct PlaceDecl {
    /// Its number, in order of text. The result of a procedure comes after its parameters.
    pub number: u32,
    /// Its name, as declared.
    pub name: Bytes,
    /// The place of its name; for a result, of its type.
    pub at: Place,
    pub ty: TypeId,
}

/// How control leaves the statements around.
#[derive(Clone, Copy)]
pub enum Leaving {
    Break,
    Continue,
    Return,
}

/// How a body is repeated, over what its head gives.
#[derive(Drop)]
pub enum Kind {
    /// As long as the condition that is its head holds.
    While,
    /// For each int from the first to the last of its head, which are evaluated once: to the last
    /// itself where that is `inclusive` (`..`), else below it (`..<`).
    Count {
        variable: PlaceDecl,
        inclusive: bool,
    },
    /// For each element of the text, sequence or array at the path of its head.
    Each {
        variable: PlaceDecl,
    },
}

/// A branch of an `if`: a condition and its block.
#[derive(Drop)]
#[cycle(code)]
pub struct Branch {
    pub condition: Expr,
    pub body: Vec<Stmt>,
}

/// A branch of a `case`: labels and their block.
#[derive(Drop)]
#[cycle(code)]
pub struct CaseBranch {
    pub labels: Items<Label>,
    pub body: Vec<Stmt>,
}

/// An `except`: which exceptions it handles, all where it names none; the name for the exception;
/// its block.
#[derive(Drop)]
#[cycle(code)]
pub struct Handler {
    pub types: Items<TypeId>,
    pub name: Option<PlaceDecl>,
    pub body: Vec<Stmt>,
}

/// A typed statement. The list of statements of a block is the scope of the places that they
/// declare.
#[derive(Drop)]
#[cycle(code)]
pub enum Stmt {
    /// An expression without a value, whose node is the statement's.
    Do {
        value: Expr,
    },
    /// Nothing is done and nothing is evaluated: a declaration of types, constants or a procedure, a
    /// `discard` without a value, or what is assigned to itself, with its parts.
    Idle {
        node: Node,
        parts: Vec<Operand>,
    },
    /// The result becomes the value: of `return`, after which control goes back, or of the last
    /// expression of a body.
    Give {
        node: Node,
        back: bool,
        value: Expr,
    },
    /// `break`, `continue`, and `return` without a value or with the result itself, which stands
    /// beside it and isn't evaluated.
    Leave {
        node: Node,
        leaving: Leaving,
        parts: Vec<Operand>,
    },
    /// Declares a place, which holds the value or starts at its default. Each name of a `let` or
    /// `var` is one such statement at the place of the whole `let` or `var`.
    Declare {
        node: Node,
        place: PlaceDecl,
        cursor: bool,
        value: Option<Expr>,
    },
    /// Without an `else` its last block is empty.
    If {
        node: Node,
        branches: Vec<Branch>,
        otherwise: Vec<Stmt>,
    },
    /// Where no label fits, `otherwise` is carried out, which is empty without an `else`. A selector
    /// at a path is read in place.
    Case {
        node: Node,
        selector: Operand,
        branches: Vec<CaseBranch>,
        otherwise: Vec<Stmt>,
    },
    Loop {
        node: Node,
        kind: Kind,
        head: Vec<Operand>,
        body: Vec<Stmt>,
    },
    /// `raise` of a new exception with a message, or, without both, of the one that is handled.
    Raise {
        node: Node,
        exception: Option<TypeId>,
        message: Option<Expr>,
    },
    /// A block; what is done where it raises; and what is done behind both in any case (`finally`),
    /// which is empty without one.
    Try {
        node: Node,
        body: Vec<Stmt>,
        handlers: Vec<Handler>,
        last: Vec<Stmt>,
    },
    /// What is done behind the rest of the block in any case.
    Defer {
        node: Node,
        last: Vec<Stmt>,
    },
}
