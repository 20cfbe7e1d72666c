// Statements.
ghost use Rattle.std.specs.Prelude.{◌≡◌};
ghost use Rattle.nim_tree.specs.Statements.{statement_of, statements_of, branches_of, handlers_of, body_in, closing_in, branches_in, handlers_in};

use crate::{Declared, Expr, Name, Pragma, TypeDef, TypeTree};
use arc_base::{Bytes, Place};

/// How an assignment combines the old value with the new one.
#[derive(Clone, Copy)]
pub enum AssignOp {
    /// `=`
    Set,
    /// `+=`
    Plus,
    /// `-=`
    Minus,
    /// `*=`
    Times,
    /// `&=`
    Join,
}

/// What a definition binds its names to.
#[derive(Clone, Copy)]
pub enum Binding {
    Let,
    Var,
    Const,
}

/// The definition of names with one type and one value.
#[derive(Drop)]
pub struct Def {
    /// One or more.
    pub names: Vec<Declared>,
    /// In the order in which they are written.
    pub pragmas: Vec<Pragma>,
    /// The type behind `:`.
    pub annotation: Option<TypeTree>,
    /// The value behind `=`.
    pub value: Option<Expr>,
}

/// How a parameter takes its argument.
#[derive(Clone, Copy)]
pub enum ParamMode {
    Plain,
    /// `var`
    Var,
    /// `sink`
    Sink,
}

/// Parameters of one type.
#[derive(Drop)]
pub struct Param {
    /// One or more.
    pub names: Vec<Name>,
    pub mode: ParamMode,
    /// Their type.
    pub of: TypeTree,
}

/// A procedure, but for its body.
#[derive(Drop)]
pub struct ProcHead {
    pub name: Declared,
    /// The names of its type parameters.
    pub generics: Vec<Name>,
    /// Its parameters, in order.
    pub params: Vec<Param>,
    /// The type of its result, if it has one.
    pub gives: Option<TypeTree>,
    /// In the order in which they are written.
    pub pragmas: Vec<Pragma>,
}

/// What a `for` goes over.
#[derive(Drop)]
pub enum Over {
    /// The elements of a value.
    Each(Expr),
    /// `first..last`
    UpTo(Expr, Expr),
    /// `first..<end`
    Below(Expr, Expr),
}

/// A branch of an `if` or `case`: its condition, or its labels, and its block.
#[derive(Drop)]
#[cycle(stmt)]
pub struct Branch {
    /// The place of `if`, `elif` or `of`.
    pub at: Place,
    /// One condition, or the labels.
    pub tests: Vec<Expr>,
    /// The statements of its block, one or more.
    pub body: Vec<Stmt>,
}

/// A handler of a `try`: its exception types, of which none stands for all, and its block.
#[derive(Drop)]
#[cycle(stmt)]
pub struct Handler {
    /// The place of `except`.
    pub at: Place,
    pub types: Vec<Name>,
    /// The name behind `as`.
    pub binding: Option<Name>,
    pub body: Vec<Stmt>,
}

/// A statement, with the place of its first token.
///
/// A block holds a statement at least, so an empty list stands for one that isn't there.
#[derive(Drop)]
#[cycle(stmt)]
pub enum Stmt {
    /// `discard`, or `discard value`.
    Discard {
        at: Place,
        value: Option<Expr>,
    },
    /// `return`, or `return value`.
    Return {
        at: Place,
        value: Option<Expr>,
    },
    /// `raise`, or `raise value`.
    Raise {
        at: Place,
        value: Option<Expr>,
    },
    /// `break`
    Break {
        at: Place,
    },
    /// `continue`
    Continue {
        at: Place,
    },
    /// `import` and the names of modules.
    Import {
        at: Place,
        names: Vec<Name>,
    },
    /// An expression.
    Eval {
        at: Place,
        value: Expr,
    },
    /// `target op value`
    Assign {
        at: Place,
        op: AssignOp,
        target: Expr,
        value: Expr,
    },
    /// A call without parentheses: `callee operand, ..`.
    Command {
        at: Place,
        callee: Expr,
        operands: Vec<Expr>,
    },
    /// `let`, `var` or `const`, with one definition or a block of them.
    Define {
        at: Place,
        binding: Binding,
        defs: Vec<Def>,
    },
    /// `type`, with one declaration or a block of them.
    Types {
        at: Place,
        defs: Vec<TypeDef>,
    },
    /// `if`, its `elif` branches, and the block of `else`.
    If {
        at: Place,
        branches: Vec<Branch>,
        otherwise: Vec<Stmt>,
    },
    /// `case`, its `of` branches, and the block of `else`.
    Case {
        at: Place,
        selector: Expr,
        branches: Vec<Branch>,
        otherwise: Vec<Stmt>,
    },
    /// `while`
    While {
        at: Place,
        condition: Expr,
        body: Vec<Stmt>,
    },
    /// `for variable in over`
    For {
        at: Place,
        variable: Name,
        over: Over,
        body: Vec<Stmt>,
    },
    /// `try`, its handlers, and the block of `finally`.
    Try {
        at: Place,
        body: Vec<Stmt>,
        handlers: Vec<Handler>,
        finally: Vec<Stmt>,
    },
    /// `defer`
    Defer {
        at: Place,
        body: Vec<Stmt>,
    },
    /// `proc`, and its block.
    Proc {
        at: Place,
        head: ProcHead,
        body: Vec<Stmt>,
    },
}

impl Stmt {
    /// Its block, where that isn't in a branch.
    pub fn body(&self) -> &[Stmt]
        ensures { statements_of result.now ≡ body_in (statement_of self.now) }
    {
        match self {
            Stmt::While { body, .. }
            | Stmt::For { body, .. }
            | Stmt::Try { body, .. }
            | Stmt::Defer { body, .. }
            | Stmt::Proc { body, .. } => body,
            _ => &[],
        }
    }

    /// The block of `else` or `finally`.
    pub fn closing(&self) -> &[Stmt]
        ensures { statements_of result.now ≡ closing_in (statement_of self.now) }
    {
        match self {
            Stmt::If {
                otherwise: block,
                ..
            }
            | Stmt::Case {
                otherwise: block,
                ..
            }
            | Stmt::Try { finally: block, .. } => block,
            _ => &[],
        }
    }

    /// The branches of an `if` or `case`.
    pub fn branches(&self) -> &[Branch]
        ensures { branches_of result.now ≡ branches_in (statement_of self.now) }
    {
        match self {
            Stmt::If { branches, .. } | Stmt::Case { branches, .. } => branches,
            _ => &[],
        }
    }

    /// The handlers of a `try`.
    pub fn handlers(&self) -> &[Handler]
        ensures { handlers_of result.now ≡ handlers_in (statement_of self.now) }
    {
        match self {
            Stmt::Try { handlers, .. } => handlers,
            _ => &[],
        }
    }
}

/// The tree of a module.
#[derive(Drop)]
pub struct Module {
    /// The names behind `import` of its own statements, in order.
    pub imports: Vec<Import>,
    /// Its statements, in order, imports among them.
    pub body: Vec<Stmt>,
}

/// A module that is imported.
#[derive(Drop)]
pub struct Import {
    pub at: Place,
    /// The bytes that its name is written with.
    pub text: Bytes,
}
