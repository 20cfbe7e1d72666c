// A typed program.
use crate::stmt::{PlaceDecl, Stmt};
use arc_base::{Bytes, Items, Place};
use nim_types::{TypeId, TypeTable};

/// How many calls may be active at once. One more ends the run.
pub const ACTIVE_CALLS: u32 = 2000;

/// How a parameter takes its argument.
#[derive(Clone, Copy)]
pub enum Mode {
    Plain,
    /// `sink`
    Sink,
    /// `var`
    Var,
}

/// A parameter.
#[derive(Drop)]
pub struct Param {
    pub place: PlaceDecl,
    pub mode: Mode,
}

/// Which hook a procedure is.
#[derive(Clone, Copy)]
pub struct HookOf {
    /// destroy 0, wasMoved 1, sink 2, copy 3
    pub kind: u32,
    /// The type whose hook it is.
    pub of: TypeId,
}

/// What a procedure does, or the start code of all modules.
#[derive(Drop)]
pub struct Body {
    /// The number of the first of its places, which follow one another: parameters, result, and
    /// what is declared in it. The start code begins at 0 and spans the places of all procedures.
    pub first: u32,
    /// How many places it spans.
    pub places: u32,
    /// How many nodes come before its first one in the numbering.
    pub before: u32,
    pub result: Option<PlaceDecl>,
    pub stmts: Vec<Stmt>,
}

/// A procedure.
#[derive(Drop)]
pub struct Proc {
    /// Its name, as declared.
    pub name: Bytes,
    /// The place of the word `proc`.
    pub at: Place,
    /// How many type parameters it has.
    pub type_params: u32,
    pub params: Items<Param>,
    /// The type of its result.
    pub gives: Option<TypeId>,
    /// None where the built-in operation of the base is meant, and where a copy isn't allowed.
    pub body: Option<Body>,
    pub hook: Option<HookOf>,
}

/// A program.
#[derive(Drop)]
pub struct Program {
    pub types: TypeTable,
    /// The procedures, by number.
    pub procs: Vec<Proc>,
    /// The globals, in order of declaration. Each is declared once more by a statement of the start
    /// code, which fills it.
    pub globals: Items<PlaceDecl>,
    pub start: Body,
}
