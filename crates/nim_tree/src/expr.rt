// Expressions.
ghost use Rattle.std.specs.Prelude.{◌≡◌, ◌-◌, ◌^◌, min};
ghost use Rattle.nim_tree.specs.Terms.{term_of, parts_of, parts_in, place_of, levels, most_levels, levels_in, choices_of, branches_in};

use arc_base::{Bytes, Place};

/// An operator with one operand.
#[derive(Clone, Copy)]
pub enum UnaryOp {
    /// `-`
    Minus,
    /// `+`
    Plus,
    /// `not`
    Not,
    /// `$`
    Dollar,
}

/// An operator with two operands.
#[derive(Clone, Copy)]
pub enum BinaryOp {
    /// `*`
    Times,
    /// `div`
    Div,
    /// `mod`
    Mod,
    /// `shl`
    Shl,
    /// `shr`
    Shr,
    /// `+`
    Plus,
    /// `-`
    Minus,
    /// `&`
    Join,
    /// `==`
    Equal,
    /// `<=`
    AtMost,
    /// `<`
    Less,
    /// `>=`
    AtLeast,
    /// `>`
    Greater,
    /// `!=`
    Unequal,
    /// `and`
    And,
    /// `or`
    Or,
    /// `xor`
    Xor,
}

/// A branch of an `if` or `case` that is an expression: its condition, or its labels, and its value.
#[derive(Drop)]
#[cycle(expr)]
pub struct Choice {
    /// The place of `if`, `elif` or `of`.
    pub at: Place,
    /// One condition, or the labels.
    pub tests: Vec<Expr>,
    pub value: Expr,
}

/// An expression, each part with the place of its first token.
#[derive(Drop)]
#[cycle(expr)]
pub enum Expr {
    /// An integer.
    Int {
        at: Place,
        value: i32,
    },
    /// A char, by its value.
    Char {
        at: Place,
        value: u8,
    },
    /// A text, by the bytes that it is written with.
    Text {
        at: Place,
        text: Bytes,
    },
    /// A name, by the bytes that it is written with.
    Name {
        at: Place,
        text: Bytes,
    },
    /// A name in backticks, by the bytes that it is written with.
    Quoted {
        at: Place,
        text: Bytes,
    },
    /// `nil`
    Nil {
        at: Place,
    },
    /// An expression in parentheses.
    Paren {
        at: Place,
        inner: Box<Expr>,
    },
    /// A tuple: two expressions or more, or parts with names.
    Tuple {
        at: Place,
        parts: Vec<Expr>,
    },
    /// `[..]`
    Array {
        at: Place,
        parts: Vec<Expr>,
    },
    /// `@[..]`
    Sequence {
        at: Place,
        parts: Vec<Expr>,
    },
    /// An object of a type with this name, whose parts have names.
    Construct {
        at: Place,
        text: Bytes,
        parts: Vec<Expr>,
    },
    /// `name: value`, a part of a tuple or an object.
    Named {
        at: Place,
        text: Bytes,
        value: Box<Expr>,
    },
    /// `base.name`
    Field {
        at: Place,
        base: Box<Expr>,
        text: Bytes,
    },
    /// `base(..)`
    Call {
        at: Place,
        base: Box<Expr>,
        parts: Vec<Expr>,
    },
    /// `base[..]`
    Index {
        at: Place,
        base: Box<Expr>,
        parts: Vec<Expr>,
    },
    /// An operator and its operand.
    Unary {
        at: Place,
        op: UnaryOp,
        operand: Box<Expr>,
    },
    /// An operator between its operands.
    Binary {
        at: Place,
        op: BinaryOp,
        left: Box<Expr>,
        right: Box<Expr>,
    },
    /// `if condition: value`, its `elif` branches, and the value of `else`.
    If {
        at: Place,
        branches: Vec<Choice>,
        otherwise: Box<Expr>,
    },
    /// `case selector`, its `of` branches, and the value of `else` where there is one.
    Case {
        at: Place,
        selector: Box<Expr>,
        branches: Vec<Choice>,
        otherwise: Option<Box<Expr>>,
    },
    /// `low..high`, a label of an `of` branch.
    Range {
        at: Place,
        low: Box<Expr>,
        high: Box<Expr>,
    },
}

impl Expr {
    /// The place of its first token.
    pub fn place(&self) -> Place
        ensures { result ≡ place_of (term_of self.now) }
    {
        match self {
            Expr::Int { at, .. }
            | Expr::Char { at, .. }
            | Expr::Text { at, .. }
            | Expr::Name { at, .. }
            | Expr::Quoted { at, .. }
            | Expr::Nil { at }
            | Expr::Paren { at, .. }
            | Expr::Tuple { at, .. }
            | Expr::Array { at, .. }
            | Expr::Sequence { at, .. }
            | Expr::Construct { at, .. }
            | Expr::Named { at, .. }
            | Expr::Field { at, .. }
            | Expr::Call { at, .. }
            | Expr::Index { at, .. }
            | Expr::Unary { at, .. }
            | Expr::Binary { at, .. }
            | Expr::If { at, .. }
            | Expr::Case { at, .. }
            | Expr::Range { at, .. } => *at,
        }
    }

    /// What stands in its brackets, but for a parenthesis.
    pub fn parts(&self) -> &[Expr]
        ensures { parts_of result.now ≡ parts_in (term_of self.now) }
    {
        match self {
            Expr::Tuple { parts, .. }
            | Expr::Array { parts, .. }
            | Expr::Sequence { parts, .. }
            | Expr::Construct { parts, .. }
            | Expr::Call { parts, .. }
            | Expr::Index { parts, .. } => parts,
            _ => &[],
        }
    }

    /// The branches of an `if` or `case`.
    pub fn branches(&self) -> &[Choice]
        ensures { choices_of result.now ≡ branches_in (term_of self.now) }
    {
        match self {
            Expr::If { branches, .. } | Expr::Case { branches, .. } => branches,
            _ => &[],
        }
    }

    /// Its levels, or 4,294,967,295 where it has more.
    ///
    /// A literal or a name has one level, any other expression one more than the highest of its operands or parts.
    pub fn levels(&self) -> u32
        ensures { result ≡ min (levels (term_of self.now)) (2 ^ 32 - 1) }
    {
        levels_of(self)
    }
}

#[cycle(levels)]
fn levels_of(tree: &Expr) -> u32
    ensures { result ≡ min (levels (term_of tree.now)) (2 ^ 32 - 1) }
{
    match tree {
        Expr::Int { .. }
        | Expr::Char { .. }
        | Expr::Text { .. }
        | Expr::Name { .. }
        | Expr::Quoted { .. }
        | Expr::Nil { .. } => 1,
        Expr::Paren { inner, .. } => levels_of(inner).saturating_add(1),
        Expr::Tuple { .. } | Expr::Array { .. } | Expr::Sequence { .. } | Expr::Construct { .. } =>
            { most_levels(tree.parts()).saturating_add(1) }
        Expr::Named { value, .. } => levels_of(value),
        Expr::Field { base, .. } => levels_of(base).saturating_add(1),
        Expr::Call { base, .. } | Expr::Index { base, .. } => levels_of(base)
            .max(most_levels(tree.parts()))
            .saturating_add(1),
        Expr::Unary { operand, .. } => levels_of(operand).saturating_add(1),
        Expr::Binary { left, right, .. } => levels_of(left).max(levels_of(right)).saturating_add(1),
        Expr::If { otherwise, .. } => levels_in(tree.branches())
            .max(levels_of(otherwise))
            .saturating_add(1),
        Expr::Case {
            selector,
            otherwise: None,
            ..
        } => levels_of(selector)
            .max(levels_in(tree.branches()))
            .saturating_add(1),
        Expr::Case {
            selector,
            otherwise: Some(value),
            ..
        } => levels_of(selector)
            .max(levels_in(tree.branches()))
            .max(levels_of(value))
            .saturating_add(1),
        Expr::Range { low, high, .. } => levels_of(low).max(levels_of(high)),
    }
}

// The levels of the highest part.
#[cycle(levels)]
pub(crate) fn most_levels(parts: &[Expr]) -> u32
    ensures { result ≡ min (most_levels (parts_of parts.now)) (2 ^ 32 - 1) }
{
    let mut most = 0;
    for part in parts {
        most = levels_of(part).max(most);
    }
    most
}

// The levels of the highest condition, label or value.
#[cycle(levels)]
fn levels_in(branches: &[Choice]) -> u32
    ensures { result ≡ min (levels_in (choices_of branches.now)) (2 ^ 32 - 1) }
{
    let mut most = 0;
    for branch in branches {
        most = most_levels(&branch.tests)
            .max(levels_of(&branch.value))
            .max(most);
    }
    most
}
