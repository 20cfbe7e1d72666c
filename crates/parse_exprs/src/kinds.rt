// What tokens are.
ghost use Rattle.std.specs.Prelude.{◌≡◌, codes};
ghost use Rattle.parse_exprs.specs.Look.{goes_on, branch_goes_on, first_goes_on, branch_layout, is_deeper};
ghost use Rattle.parse_exprs.specs.Look.{is_shallower, at_start, past_start, is_end, is_operator, op_named, op_of_key};
ghost use Rattle.parse_exprs.specs.Look.{op_of, level_of, of_level, sign_named, sign_of_key, sign_of, is_punct};
ghost use Rattle.parse_exprs.specs.Look.{is_name, is_run, is_at_sign, bracket_named, bracket_of, closing, is_suffix};
ghost use Rattle.parse_exprs.specs.Look.{is_apart, begins_atom, begins, lead_of, is_elif, is_else, is_of, is_left_out};

use crate::input::{Bracket, Lead};
use crate::layout::Layout;
use indent_scanner::{Key, Tok, Token};
use nim_tree::{BinaryOp, UnaryOp};

/// Whether a token with this number of spaces goes on.
pub fn goes_on(layout: Layout, indent: Option<u32>) -> bool
    ensures { result ≡ goes_on layout indent }
{
    match (layout, indent) {
        (_, None) | (Layout::Brackets, _) => true,
        (Layout::Lines(_) | Layout::Start(_), Some(_)) => false,
    }
}

/// Whether a word of a further branch with this number of spaces goes on.
pub fn branch_goes_on(layout: Layout, indent: Option<u32>) -> bool
    ensures { result ≡ branch_goes_on layout indent }
{
    match (layout, indent) {
        (_, None) | (Layout::Brackets, _) => true,
        (Layout::Lines(level) | Layout::Start(level), Some(spaces)) => spaces == level,
    }
}

/// Whether the first `of` with this number of spaces goes on.
pub(crate) fn first_goes_on(layout: Layout, indent: Option<u32>) -> bool
    ensures { result ≡ first_goes_on layout indent }
{
    match (layout, indent) {
        (_, None) | (Layout::Brackets, _) => true,
        (Layout::Lines(level) | Layout::Start(level), Some(spaces)) => spaces >= level,
    }
}

/// The level that the first `of` sets for those that follow.
pub(crate) fn branch_layout(layout: Layout, indent: Option<u32>) -> Layout
    ensures { result ≡ branch_layout layout indent }
{
    match (layout, indent) {
        (Layout::Lines(_), Some(spaces)) => Layout::Lines(spaces),
        (Layout::Start(_), Some(spaces)) => Layout::Start(spaces),
        _ => layout,
    }
}

/// Whether a line behind so many spaces stands deeper.
pub(crate) fn is_deeper(layout: Layout, indent: Option<u32>) -> bool
    ensures { result ≡ is_deeper layout indent }
{
    match (layout, indent) {
        (_, None) | (Layout::Brackets, _) => false,
        (Layout::Lines(level) | Layout::Start(level), Some(spaces)) => level < spaces,
    }
}

/// Whether a line behind so many spaces stands less deep.
pub(crate) fn is_shallower(layout: Layout, indent: Option<u32>) -> bool
    ensures { result ≡ is_shallower layout indent }
{
    match (layout, indent) {
        (_, None) | (Layout::Brackets, _) => false,
        (Layout::Lines(level) | Layout::Start(level), Some(spaces)) => spaces < level,
    }
}

/// Whether the start of a statement stands there, where a command may begin.
pub(crate) fn at_start(layout: Layout) -> bool
    ensures { result ≡ at_start layout }
{
    match layout {
        Layout::Start(_) => true,
        Layout::Brackets | Layout::Lines(_) => false,
    }
}

/// The layout behind the start of a statement.
pub(crate) fn past_start(layout: Layout) -> Layout
    ensures { result ≡ past_start layout }
{
    match layout {
        Layout::Start(spaces) => Layout::Lines(spaces),
        Layout::Brackets | Layout::Lines(_) => layout,
    }
}

/// Whether it is the end of the source.
pub(crate) fn is_end(kind: Tok) -> bool
    ensures { result ≡ is_end kind }
{
    match kind {
        Tok::End => true,
        _ => false,
    }
}

/// Whether these bytes are an operator of the language, `@` among them.
pub(crate) fn is_operator(spelling: &[u8]) -> bool
    ensures { result ≡ is_operator spelling.now }
{
    op_named(spelling).is_some()
        || (sign_named(spelling).is_some() || is_at_sign(Tok::Op, spelling))
}

/// The operator between two operands that these bytes are.
pub fn op_named(spelling: &[u8]) -> Option<BinaryOp>
    ensures { result ≡ op_named spelling.now }
{
    if spelling == b"*".as_slice() {
        Some(BinaryOp::Times)
    } else if spelling == b"+".as_slice() {
        Some(BinaryOp::Plus)
    } else if spelling == b"-".as_slice() {
        Some(BinaryOp::Minus)
    } else if spelling == b"&".as_slice() {
        Some(BinaryOp::Join)
    } else if spelling == b"==".as_slice() {
        Some(BinaryOp::Equal)
    } else if spelling == b"<=".as_slice() {
        Some(BinaryOp::AtMost)
    } else if spelling == b"<".as_slice() {
        Some(BinaryOp::Less)
    } else if spelling == b">=".as_slice() {
        Some(BinaryOp::AtLeast)
    } else if spelling == b">".as_slice() {
        Some(BinaryOp::Greater)
    } else if spelling == b"!=".as_slice() {
        Some(BinaryOp::Unequal)
    } else {
        None
    }
}

fn op_of_key(key: Key) -> Option<BinaryOp>
    ensures { result ≡ op_of_key key }
{
    match key {
        Key::Div => Some(BinaryOp::Div),
        Key::Mod => Some(BinaryOp::Mod),
        Key::Shl => Some(BinaryOp::Shl),
        Key::Shr => Some(BinaryOp::Shr),
        Key::And => Some(BinaryOp::And),
        Key::Or => Some(BinaryOp::Or),
        Key::Xor => Some(BinaryOp::Xor),
        _ => None,
    }
}

/// The operator between operands that a token is.
pub(crate) fn op_of(kind: Tok, spelling: &[u8]) -> Option<BinaryOp>
    ensures { result ≡ op_of kind spelling.now }
{
    match kind {
        Tok::Op => op_named(spelling),
        Tok::Key(key) => op_of_key(key),
        _ => None,
    }
}

// The level of an operator, from tight to loose.
fn level_of(op: BinaryOp) -> u32
    ensures { result ≡ level_of op }
{
    match op {
        BinaryOp::Times | BinaryOp::Div | BinaryOp::Mod | BinaryOp::Shl | BinaryOp::Shr => 0,
        BinaryOp::Plus | BinaryOp::Minus => 1,
        BinaryOp::Join => 2,
        BinaryOp::Equal
        | BinaryOp::AtMost
        | BinaryOp::Less
        | BinaryOp::AtLeast
        | BinaryOp::Greater
        | BinaryOp::Unequal => 3,
        BinaryOp::And => 4,
        BinaryOp::Or | BinaryOp::Xor => 5,
    }
}

/// The operator, where it has this level.
pub(crate) fn of_level(level: u32, op: Option<BinaryOp>) -> Option<BinaryOp>
    ensures { result ≡ of_level level op }
{
    match op {
        Some(op) if level_of(op) == level => Some(op),
        _ => None,
    }
}

/// The operator before an operand that these bytes are.
pub fn sign_named(spelling: &[u8]) -> Option<UnaryOp>
    ensures { result ≡ sign_named spelling.now }
{
    if spelling == b"-".as_slice() {
        Some(UnaryOp::Minus)
    } else if spelling == b"+".as_slice() {
        Some(UnaryOp::Plus)
    } else if spelling == b"$".as_slice() {
        Some(UnaryOp::Dollar)
    } else {
        None
    }
}

fn sign_of_key(key: Key) -> Option<UnaryOp>
    ensures { result ≡ sign_of_key key }
{
    match key {
        Key::Not => Some(UnaryOp::Not),
        _ => None,
    }
}

/// The operator before one operand that a token is.
pub(crate) fn sign_of(kind: Tok, spelling: &[u8]) -> Option<UnaryOp>
    ensures { result ≡ sign_of kind spelling.now }
{
    match kind {
        Tok::Op => sign_named(spelling),
        Tok::Key(key) => sign_of_key(key),
        _ => None,
    }
}

/// Whether it is the punctuation with this byte.
pub fn is_punct(byte: u8, kind: Tok) -> bool
    ensures { result ≡ is_punct byte kind }
{
    match kind {
        Tok::Punct(b) => b == byte,
        _ => false,
    }
}

/// Whether it is a name that stands in no backticks and is no keyword.
pub fn is_name(kind: Tok) -> bool
    ensures { result ≡ is_name kind }
{
    match kind {
        Tok::Name => true,
        _ => false,
    }
}

/// Whether it is this run of operator bytes.
pub fn is_run(run: &[u8], kind: Tok, spelling: &[u8]) -> bool
    ensures { result ≡ is_run run.now kind spelling.now }
{
    match kind {
        Tok::Op => spelling == run,
        _ => false,
    }
}

/// Whether it is the `@` of a sequence.
pub(crate) fn is_at_sign(kind: Tok, spelling: &[u8]) -> bool
    ensures { result ≡ is_at_sign kind spelling.now }
{
    is_run(b"@".as_slice(), kind, spelling)
}

/// Whether it is the `..` between the ends of a label.
pub(crate) fn is_dots(kind: Tok, spelling: &[u8]) -> bool
    ensures { result ≡ is_run (codes "..") kind spelling.now }
{
    is_run(b"..".as_slice(), kind, spelling)
}

fn bracket_named(b: u8) -> Option<Bracket>
    ensures { result ≡ bracket_named b }
{
    if b == b'(' {
        Some(Bracket::Round)
    } else if b == b'[' {
        Some(Bracket::Square)
    } else {
        None
    }
}

/// The bracket that it opens.
pub fn bracket_of(kind: Tok) -> Option<Bracket>
    ensures { result ≡ bracket_of kind }
{
    match kind {
        Tok::Punct(b) => bracket_named(b),
        _ => None,
    }
}

/// The byte that closes a bracket.
pub(crate) fn closing(bracket: Bracket) -> u8
    ensures { result ≡ closing bracket }
{
    match bracket {
        Bracket::Round => b')',
        Bracket::Square => b']',
    }
}

/// Whether it begins what may stand behind an atom.
pub(crate) fn is_suffix(kind: Tok) -> bool
    ensures { result ≡ is_suffix kind }
{
    bracket_of(kind).is_some() || is_punct(b'.', kind)
}

/// Whether an atom begins with such a token.
pub fn begins_atom(kind: Tok) -> bool
    ensures { result ≡ begins_atom kind }
{
    match kind {
        Tok::Int(_) | Tok::Char(_) | Tok::Text | Tok::Name | Tok::Quoted | Tok::Key(Key::Nil) =>
            true,
        Tok::Punct(b) => bracket_named(b).is_some(),
        _ => false,
    }
}

/// Whether a token begins an operand.
pub(crate) fn begins(kind: Tok, spelling: &[u8]) -> bool
    ensures { result ≡ begins kind spelling.now }
{
    sign_of(kind, spelling).is_some() || begins_atom(kind) || is_at_sign(kind, spelling)
}

/// What an expression begins with, where this token begins it.
pub(crate) fn lead_of(kind: Tok) -> Lead
    ensures { result ≡ lead_of kind }
{
    match kind {
        Tok::Key(Key::If) => Lead::If,
        Tok::Key(Key::Case) => Lead::Case,
        _ => Lead::Operand,
    }
}

/// Whether it is `elif`.
pub(crate) fn is_elif(kind: Tok) -> bool
    ensures { result ≡ is_elif kind }
{
    match kind {
        Tok::Key(Key::Elif) => true,
        _ => false,
    }
}

/// Whether it is `else`.
pub(crate) fn is_else(kind: Tok) -> bool
    ensures { result ≡ is_else kind }
{
    match kind {
        Tok::Key(Key::Else) => true,
        _ => false,
    }
}

/// Whether it is `of`.
pub(crate) fn is_of(kind: Tok) -> bool
    ensures { result ≡ is_of kind }
{
    match kind {
        Tok::Key(Key::Of) => true,
        _ => false,
    }
}

/// Whether it is a keyword that the language leaves out.
pub(crate) fn is_left_out(kind: Tok) -> bool
    ensures { result ≡ is_left_out kind }
{
    match kind {
        Tok::Key(key) => key.is_left_out(),
        _ => false,
    }
}

/// Whether a command may begin, and this token begins its operand.
pub(crate) fn is_apart(command: bool, token: Token) -> bool
    ensures { result ≡ is_apart command token }
{
    command && (token.space_before && is_punct(b'(', token.kind))
}
