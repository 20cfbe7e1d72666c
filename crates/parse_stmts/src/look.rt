// What a statement begins with.
ghost use Rattle.std.specs.Prelude.{◌≡◌, ◌∷◌, ◌<◌, suc, length};
ghost use Rattle.parse_exprs.specs.Input.{from_at, origin_of};
ghost use Rattle.parse_stmts.specs.Look.{lead, section_or_line, simple_of, is_simple_word, begins_compound, line_at, statement_at};

use indent_scanner::{Key, Tok, Token};
use parse_decls::deeper_at;
use parse_exprs::Input;

/// What a statement begins with.
#[derive(Clone, Copy)]
pub enum Lead {
    If,
    Case,
    While,
    For,
    Try,
    Defer,
    Proc,
    Type,
    /// `let`, `var` or `const` at the end of its line.
    Section,
    /// A line of simple statements.
    Line,
}

/// What a simple statement begins with.
#[derive(Clone, Copy)]
pub enum Simple {
    Discard,
    Return,
    Raise,
    Break,
    Continue,
    Import,
    Let,
    Var,
    Const,
    /// An expression, an assignment or a command.
    Plain,
}

/// What a statement behind so many spaces begins with, whose first token this is.
pub(crate) fn lead_at(input: &Input, at: usize, token: Token, spaces: u32) -> Lead
    requires within { at < length input.now.tokens.now }
    ensures { result ≡ lead spaces token (from_at input.now (suc at)) }
{
    match token.kind {
        Tok::Key(Key::If) => Lead::If,
        Tok::Key(Key::Case) => Lead::Case,
        Tok::Key(Key::While) => Lead::While,
        Tok::Key(Key::For) => Lead::For,
        Tok::Key(Key::Try) => Lead::Try,
        Tok::Key(Key::Defer) => Lead::Defer,
        Tok::Key(Key::Proc) => Lead::Proc,
        Tok::Key(Key::Type) => Lead::Type,
        Tok::Key(Key::Let | Key::Var | Key::Const) => section_or_line(deeper_at(
            input,
            at + 1,
            spaces,
        )),
        _ => Lead::Line,
    }
}

fn section_or_line(section: bool) -> Lead
    ensures { result ≡ section_or_line section }
{
    if section { Lead::Section } else { Lead::Line }
}

/// What a simple statement begins with, whose first token is of this kind.
pub(crate) fn simple_of(kind: Tok) -> Simple
    ensures { result ≡ simple_of kind }
{
    match kind {
        Tok::Key(Key::Discard) => Simple::Discard,
        Tok::Key(Key::Return) => Simple::Return,
        Tok::Key(Key::Raise) => Simple::Raise,
        Tok::Key(Key::Break) => Simple::Break,
        Tok::Key(Key::Continue) => Simple::Continue,
        Tok::Key(Key::Import) => Simple::Import,
        Tok::Key(Key::Let) => Simple::Let,
        Tok::Key(Key::Var) => Simple::Var,
        Tok::Key(Key::Const) => Simple::Const,
        _ => Simple::Plain,
    }
}

// Whether it is a word, and no expression, assignment or command.
fn is_simple_word(simple: Simple) -> bool
    ensures { result ≡ is_simple_word simple }
{
    match simple {
        Simple::Plain => false,
        _ => true,
    }
}

// Whether it begins a statement with blocks or declarations.
fn begins_compound(kind: Tok) -> bool
    ensures { result ≡ begins_compound kind }
{
    match kind {
        Tok::Key(
            Key::If
            | Key::Case
            | Key::While
            | Key::For
            | Key::Try
            | Key::Defer
            | Key::Proc
            | Key::Type,
        ) => true,
        _ => false,
    }
}

/// Whether a line of simple statements begins there.
pub(crate) fn line_at(input: &Input, at: usize) -> bool
    ensures { result ≡ line_at (origin_of input.now) (from_at input.now at) }
{
    match input.head(at) {
        Some(token) => is_simple_word(simple_of(token.kind)) || input.expr_at(at),
        None => false,
    }
}

/// Whether a statement begins there.
pub(crate) fn statement_at(input: &Input, at: usize) -> bool
    ensures { result ≡ statement_at (origin_of input.now) (from_at input.now at) }
{
    match input.head(at) {
        Some(token) => begins_compound(token.kind) || line_at(input, at),
        None => false,
    }
}
