// Trees on the heap.
ghost use Rattle.std.specs.Prelude.{◌≡◌, [], max, IfOk, IfErr};
ghost use Rattle.nim_tree.specs.Terms.{term_of, parts_of, choices_of, and_part, and_choice, place_of, sequence, named};
ghost use Rattle.nim_tree.specs.Terms.{field, paren, unary, binary, if_term, case_term, case_else, range};
ghost use Rattle.parse_exprs.specs.Look.{single_of, some_tuple, grouped, as_name, object, applied};
ghost use Rattle.parse_exprs.specs.Gives.{tree_in};
ghost use Rattle.parse_exprs.specs.declared.make.Stuck.TheVariants.{Memory};

use crate::input::Bracket;
use arc_base::{Bytes, Place};
use indent_scanner::{Key, Tok};
use nim_tree::{BinaryOp, Choice, Expr, Name, UnaryOp};
use std::alloc::{AllocFailed, Global};

// A tree, the number of the token behind it, and its levels.
#[derive(Drop)]
pub(crate) struct Reading {
    pub tree: Expr,
    pub next: usize,
    pub depth: u32,
}

// Parts, the number of the token behind them, and the levels of the highest.
#[derive(Drop)]
pub(crate) struct Several {
    pub parts: Vec<Expr>,
    pub next: usize,
    pub depth: u32,
}

// A condition or labels, and the value behind them.
#[derive(Drop)]
pub(crate) struct Tail {
    pub tests: Vec<Expr>,
    pub value: Expr,
    pub next: usize,
    pub depth: u32,
}

// Branches, the number of the token behind them, and the levels of the highest.
#[derive(Drop)]
pub(crate) struct Branches {
    pub branches: Vec<Choice>,
    pub next: usize,
    pub depth: u32,
}

// Why nothing was read.
#[derive(Clone, Copy)]
pub(crate) enum Stuck {
    /// The token of this number can't go on.
    Syntax(usize),
    /// A level too many is opened.
    Deep,
    /// No memory was found.
    Memory,
}

impl From<arc_base::Memory> for Stuck {
    ghost from_gives = { λ _ e. e ≡ Memory };

    fn from(_: arc_base::Memory) -> Self {
        Stuck::Memory
    }
}

impl<T: Drop> From<AllocFailed<T>> for Stuck {
    ghost from_gives = { λ _ e. e ≡ Memory };

    fn from(_: AllocFailed<T>) -> Self {
        Stuck::Memory
    }
}

// The expression that a token is alone.
pub(crate) fn make_single(
    alloc: Global,
    at: Place,
    spelling: &[u8],
    kind: Tok,
) -> Result<Option<Expr>, Stuck>
    ensures ok { IfOk result (λ tree. tree_in tree ≡ single_of at spelling.now kind) }
    ensures err { IfErr result (λ e. e ≡ Memory) }
{
    let tree = match kind {
        Tok::Int(value) => Expr::Int { at, value },
        Tok::Char(value) => Expr::Char { at, value },
        Tok::Text => Expr::Text {
            at,
            text: Bytes::from_slice(alloc, spelling)?,
        },
        Tok::Name => Expr::Name {
            at,
            text: Bytes::from_slice(alloc, spelling)?,
        },
        Tok::Quoted => Expr::Quoted {
            at,
            text: Bytes::from_slice(alloc, spelling)?,
        },
        Tok::Key(Key::Nil) => Expr::Nil { at },
        _ => return Ok(None),
    };
    Ok(Some(tree))
}

// One more part.
pub(crate) fn and_part(some: Several, last: Reading) -> Result<Several, Stuck>
    ensures parts { IfOk result (λ all. parts_of all.parts.items ≡ and_part (parts_of some.parts.items) (term_of last.tree)) }
    ensures next { IfOk result (λ all. all.next ≡ last.next) }
    ensures depth { IfOk result (λ all. all.depth ≡ max some.depth last.depth) }
    ensures err { IfErr result (λ e. e ≡ Memory) }
{
    let mut parts = some.parts;
    parts.push(last.tree)?;
    Ok(Several {
        parts,
        next: last.next,
        depth: some.depth.max(last.depth),
    })
}

// No parts yet.
pub(crate) fn no_parts(alloc: Global, next: usize) -> Several
    ensures parts { result.parts.items ≡ [] }
    ensures next { result.next ≡ next }
    ensures depth { result.depth ≡ 0 }
{
    Several {
        parts: Vec::new(alloc),
        next,
        depth: 0,
    }
}

// No branches yet.
pub(crate) fn no_branches(alloc: Global, next: usize) -> Branches
    ensures branches { result.branches.items ≡ [] }
    ensures next { result.next ≡ next }
    ensures depth { result.depth ≡ 0 }
{
    Branches {
        branches: Vec::new(alloc),
        next,
        depth: 0,
    }
}

// A value behind its condition or labels.
pub(crate) fn with_value(tests: Several, value: Reading) -> Tail
    ensures tests { result.tests.items ≡ tests.parts.items }
    ensures value { result.value ≡ value.tree }
    ensures next { result.next ≡ value.next }
    ensures depth { result.depth ≡ max tests.depth value.depth }
{
    Tail {
        tests: tests.parts,
        value: value.tree,
        next: value.next,
        depth: tests.depth.max(value.depth),
    }
}

// One more branch.
pub(crate) fn and_branch(some: Branches, at: Place, last: Tail) -> Result<Branches, Stuck>
    ensures branches { IfOk result
        (λ all. choices_of all.branches.items ≡ and_choice (choices_of some.branches.items) at
        (parts_of last.tests.items) (term_of last.value)) }
    ensures next { IfOk result (λ all. all.next ≡ last.next) }
    ensures depth { IfOk result (λ all. all.depth ≡ max some.depth last.depth) }
    ensures err { IfErr result (λ e. e ≡ Memory) }
{
    let mut branches = some.branches;
    let branch = Choice {
        at,
        tests: last.tests,
        value: last.value,
    };
    branches.push(branch)?;
    Ok(Branches {
        branches,
        next: last.next,
        depth: some.depth.max(last.depth),
    })
}

// A part with a name of these bytes.
pub(crate) fn make_named(
    alloc: Global,
    at: Place,
    spelling: &[u8],
    value: Expr,
) -> Result<Expr, Stuck>
    ensures ok { IfOk result (λ e. term_of e ≡ named at spelling.now (term_of value)) }
    ensures err { IfErr result (λ e. e ≡ Memory) }
{
    let value = Box::new(alloc, value)?;
    let text = Bytes::from_slice(alloc, spelling)?;
    Ok(Expr::Named { at, text, value })
}

// A field of these bytes.
pub(crate) fn make_field(alloc: Global, base: Expr, spelling: &[u8]) -> Result<Expr, Stuck>
    ensures ok { IfOk result (λ e. term_of e ≡ field (place_of (term_of base)) (term_of base) spelling.now) }
    ensures err { IfErr result (λ e. e ≡ Memory) }
{
    let at = base.place();
    let base = Box::new(alloc, base)?;
    let text = Bytes::from_slice(alloc, spelling)?;
    Ok(Expr::Field { at, base, text })
}

// `@` and parts in brackets.
pub(crate) fn make_sequence(at: Place, parts: Vec<Expr>) -> Expr
    ensures { term_of result ≡ sequence at (parts_of parts.items) }
{
    Expr::Sequence { at, parts }
}

// An expression in parentheses.
fn make_paren(alloc: Global, at: Place, inner: Expr) -> Result<Expr, Stuck>
    ensures ok { IfOk result (λ e. term_of e ≡ paren at (term_of inner)) }
    ensures err { IfErr result (λ e. e ≡ Memory) }
{
    let inner = Box::new(alloc, inner)?;
    Ok(Expr::Paren { at, inner })
}

fn make_tuple(at: Place, parts: Vec<Expr>) -> Option<Expr>
    ensures { tree_in result ≡ some_tuple at (parts_of parts.items) }
{
    if parts.is_empty() {
        None
    } else {
        Some(Expr::Tuple { at, parts })
    }
}

// What parts in brackets are.
pub(crate) fn make_group(
    alloc: Global,
    bracket: Bracket,
    names: bool,
    at: Place,
    parts: Vec<Expr>,
) -> Result<Option<Expr>, Stuck>
    ensures ok { IfOk result (λ tree. tree_in tree ≡ grouped bracket names at (parts_of parts.items)) }
    ensures err { IfErr result (λ e. e ≡ Memory) }
{
    let mut parts = parts;
    match bracket {
        Bracket::Round if names => Ok(make_tuple(at, parts)),
        Bracket::Round if parts.len() == 1 => match parts.pop() {
            Some(inner) => Ok(Some(make_paren(alloc, at, inner)?)),
            None => Ok(None),
        },
        Bracket::Round => Ok(make_tuple(at, parts)),
        Bracket::Square => Ok(Some(Expr::Array { at, parts })),
    }
}

fn name_of(tree: Expr) -> Option<Name>
    ensures { result ≡ as_name (term_of tree) }
{
    match tree {
        Expr::Name { at, text } => Some(Name { at, text }),
        other => {
            drop(other);
            None
        }
    }
}

// An object of the type with that name.
fn make_object(base: Expr, parts: Vec<Expr>) -> Option<Expr>
    ensures { tree_in result ≡ object (as_name (term_of base)) (parts_of parts.items) }
{
    match name_of(base) {
        Some(name) if !parts.is_empty() => Some(Expr::Construct {
            at: name.at,
            text: name.text,
            parts,
        }),
        _ => None,
    }
}

// What brackets behind an expression make of it.
pub(crate) fn make_applied(
    bracket: Bracket,
    names: bool,
    base: Box<Expr>,
    parts: Vec<Expr>,
) -> Option<Expr>
    ensures { tree_in result ≡ applied bracket names (term_of base.value) (parts_of parts.items) }
{
    let at = base.place();
    match bracket {
        Bracket::Round if names => make_object(Box::into_inner(base), parts),
        Bracket::Round => Some(Expr::Call { at, base, parts }),
        Bracket::Square => Some(Expr::Index { at, base, parts }),
    }
}

// An operator before its operand.
pub(crate) fn make_unary(
    alloc: Global,
    at: Place,
    op: UnaryOp,
    operand: Expr,
) -> Result<Expr, Stuck>
    ensures ok { IfOk result (λ e. term_of e ≡ unary at op (term_of operand)) }
    ensures err { IfErr result (λ e. e ≡ Memory) }
{
    let operand = Box::new(alloc, operand)?;
    Ok(Expr::Unary { at, op, operand })
}

// An operator between its operands.
pub(crate) fn make_binary(
    alloc: Global,
    op: BinaryOp,
    left: Box<Expr>,
    right: Expr,
) -> Result<Expr, Stuck>
    ensures ok { IfOk result (λ e. term_of e ≡ binary (place_of (term_of left.value)) op (term_of left.value) (term_of right)) }
    ensures err { IfErr result (λ e. e ≡ Memory) }
{
    let at = left.place();
    let right = Box::new(alloc, right)?;
    Ok(Expr::Binary {
        at,
        op,
        left,
        right,
    })
}

// `if` and its branches, with the value of `else`.
pub(crate) fn make_if(
    alloc: Global,
    at: Place,
    branches: Vec<Choice>,
    otherwise: Expr,
) -> Result<Expr, Stuck>
    ensures ok { IfOk result (λ e. term_of e ≡ if_term at (choices_of branches.items) (term_of otherwise)) }
    ensures err { IfErr result (λ e. e ≡ Memory) }
{
    let otherwise = Box::new(alloc, otherwise)?;
    Ok(Expr::If {
        at,
        branches,
        otherwise,
    })
}

// `case` and its branches.
pub(crate) fn make_case(at: Place, selector: Box<Expr>, branches: Vec<Choice>) -> Expr
    ensures { term_of result ≡ case_term at (term_of selector.value) (choices_of branches.items) }
{
    Expr::Case {
        at,
        selector,
        branches,
        otherwise: None,
    }
}

// `case` and its branches, with the value of `else`.
pub(crate) fn make_case_else(
    alloc: Global,
    at: Place,
    selector: Box<Expr>,
    branches: Vec<Choice>,
    otherwise: Expr,
) -> Result<Expr, Stuck>
    ensures ok { IfOk result (λ e. term_of e ≡ case_else at (term_of selector.value) (choices_of branches.items) (term_of otherwise)) }
    ensures err { IfErr result (λ e. e ≡ Memory) }
{
    let otherwise = Box::new(alloc, otherwise)?;
    Ok(Expr::Case {
        at,
        selector,
        branches,
        otherwise: Some(otherwise),
    })
}

// The ends of a label.
pub(crate) fn make_range(alloc: Global, low: Box<Expr>, high: Expr) -> Result<Expr, Stuck>
    ensures ok { IfOk result (λ e. term_of e ≡ range (place_of (term_of low.value)) (term_of low.value) (term_of high)) }
    ensures err { IfErr result (λ e. e ≡ Memory) }
{
    let at = low.place();
    let high = Box::new(alloc, high)?;
    Ok(Expr::Range { at, low, high })
}
