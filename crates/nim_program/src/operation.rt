// Operations: what a node does with its operands. Each has a row in the table of operations
// (specs/Uses.antt, specs/Fitting.antt).

/// An operation on one number.
#[derive(Clone, Copy)]
pub enum UnaryOperator {
    /// `+` of an int
    Plus,
    /// `-` of an int
    Negate,
    /// `not` of an int, bit by bit
    Complement,
    /// `not` of a bool
    Not,
}

/// An operation on two operands that gives a value of their type: on ints, and `BitAnd`, `BitOr`
/// and `BitXor` on bools too, where `and` and `or` of bools stop early and are no such operation.
#[derive(Clone, Copy)]
pub enum Operator {
    /// `+`
    Add,
    /// `-`
    Subtract,
    /// `*`
    Multiply,
    /// `div`
    Divide,
    /// `mod`
    Modulo,
    /// `shl`
    ShiftLeft,
    /// `shr`
    ShiftRight,
    /// `and` of ints
    BitAnd,
    /// `or` of ints
    BitOr,
    /// `xor`
    BitXor,
}

/// A comparison of two operands of one type.
#[derive(Clone, Copy)]
pub enum Comparison {
    /// `==`
    Equal,
    /// `!=`
    Unequal,
    /// `<`
    Less,
    /// `<=`
    AtMost,
    /// `>`
    Greater,
    /// `>=`
    AtLeast,
}

/// What is asked of the elements at a path.
#[derive(Clone, Copy)]
pub enum Measure {
    /// `len`
    Len,
    /// `high`: the length less one
    High,
}

/// What is done with operands, which stand in order of text. A place is an operand by its path.
#[derive(Clone, Copy)]
pub enum Operation {
    /// The value that a place of the type starts at.
    Default,
    Unary(UnaryOperator),
    Binary(Operator),
    /// A comparison. Where the operands are of a distinct type, it is borrowed from the base.
    Compare(Comparison),
    /// The same value as one of another type: `ord`, `chr`, to an enum, to and from a distinct
    /// type. A char or an enum traps where it has no such value.
    Convert,
    /// `&`, of texts and chars.
    Join,
    /// The built-in `$`.
    Show,
    /// A tuple or an array of its parts.
    Make,
    /// A sequence of its elements.
    Sequence,
    /// `newSeq`: so many elements at their default.
    NewSequence,
    /// `len` or `high` of the text, sequence or array at a path.
    Measure(Measure),
    /// `isNil` of a ref.
    IsNil,
    Echo,
    /// `quit`, with a status or without.
    Quit,
    /// `readLine(stdin)`
    ReadLine,
    /// `readLine(stdin, path)`: whether there was a line, which the text at the path becomes.
    ReadLineInto,
    /// `=`: the place at the path gets the value.
    Assign,
    /// `+=`, `-=`, `*=`, `inc` and `dec` of the place at the path, by a value; without one by 1.
    Update(Operator),
    /// `add` of an element to the sequence at the path.
    Add,
    /// `add` and `&=` of a char or a text to the text at the path.
    Append,
    /// `setLen`
    SetLength,
    /// `pop`: the last element of the sequence at a path, which it loses.
    Pop,
    /// `move`: the value at a path, whose place is blank then.
    Move,
    /// `swap` of the values at two paths.
    Swap,
    /// The value is let go: `discard`, and a call whose value nobody takes.
    Discard,
    /// `` `=destroy`(dest) `` in a hook.
    Destroy,
    /// `` `=wasMoved`(dest) `` in a hook.
    Blank,
}

/// An operator on bools that stops early.
#[derive(Clone, Copy)]
pub enum Short {
    /// `and`
    And,
    /// `or`
    Or,
}

/// What becomes of the value of an operand, where its type has something to do when a value is
/// copied, moved or destroyed.
#[derive(Clone, Copy)]
pub enum Use {
    /// It is handed on at once to what takes it.
    Owned,
    /// A place gets it, by a copy, a move or a borrow.
    Given,
    /// It is held while further operands are evaluated, until its operation takes it.
    Held,
    /// An operation reads it.
    Lent,
    /// It is read where it is.
    Looked,
}
