// What stands at a place of the tokens.
ghost use Rattle.std.specs.Prelude.{◌≡◌, ◌≤◌, ◌+◌, ◌<◌, length, codes};
ghost use Rattle.parse_exprs.specs.Look.{kind_at, is_run};
ghost use Rattle.parse_exprs.specs.Input.{origin_of, from_at};
ghost use Rattle.parse_decls.specs.Look.{spaces_at, deeper_at, equals, stands_at, level_at, is_end, star_at, past_star};
ghost use Rattle.parse_decls.specs.Look.{is_quoted, proc_name_on, is_bracket, opens_at, equals_at, is_of, of_at};
ghost use Rattle.parse_decls.specs.Look.{separator_at, is_pragma_open, is_pragma_close, pragmas_at, pragma_named};
ghost use Rattle.parse_decls.specs.Look.{named_lead, type_lead, begins_type, type_at, mode_of, mode_at, past_mode};
ghost use Rattle.parse_decls.specs.Look.{is_object, object_at, body_lead_of, body_lead, member_at, more_members_at};
ghost use Rattle.parse_decls.specs.Look.{past_comma};

use indent_scanner::{Key, Tok, Token, is_named};
use nim_tree::{ParamMode, PragmaKind};
use parse_exprs::{Bracket, Input, Layout, bracket_of, goes_on, is_name, is_punct, is_run};

/// What a written type begins with.
#[derive(Clone, Copy)]
pub(crate) enum TypeLead {
    /// A name.
    Name,
    /// `array` and a bracket.
    Array,
    /// `ref`
    Ref,
    /// `tuple`
    Tuple,
    /// No type begins so.
    Other,
}

/// What the body of a declared type begins with.
#[derive(Clone, Copy)]
pub(crate) enum BodyLead {
    /// `object`
    Object,
    /// `ref object`
    RefObject,
    /// `enum`
    Enum,
    /// `distinct`
    Distinct,
    /// A written type.
    Alias,
}

/// Whether it is the end of the source.
pub fn is_end(kind: Tok) -> bool
    ensures { result ≡ is_end kind }
{
    match kind {
        Tok::End => true,
        _ => false,
    }
}

/// The spaces before the token there, where it begins a line and isn't the end of the source.
pub fn spaces_at(input: &Input, at: usize) -> Option<u32>
    ensures { result ≡ spaces_at (from_at input.now at) }
{
    match input.head(at) {
        Some(token) if !is_end(token.kind) => token.indent,
        _ => None,
    }
}

/// Whether a line behind more spaces begins there.
pub fn deeper_at(input: &Input, at: usize, spaces: u32) -> bool
    ensures { result ≡ deeper_at spaces (from_at input.now at) }
{
    match spaces_at(input, at) {
        Some(level) => spaces < level,
        None => false,
    }
}

/// Whether a line behind so many spaces begins there.
pub fn stands_at(input: &Input, at: usize, spaces: u32) -> bool
    ensures { result ≡ stands_at spaces (from_at input.now at) }
{
    match spaces_at(input, at) {
        Some(found) => found == spaces,
        None => false,
    }
}

/// The number of spaces before the line that begins there.
pub fn level_at(input: &Input, at: usize) -> u32
    ensures { result ≡ level_at (from_at input.now at) }
{
    match spaces_at(input, at) {
        Some(level) => level,
        None => 0,
    }
}

/// Whether `*` goes on there.
pub(crate) fn star_at(input: &Input, at: usize, layout: Layout) -> bool
    ensures { result ≡ star_at (origin_of input.now) layout (from_at input.now at) }
{
    match input.head(at) {
        Some(token) => goes_on(layout, token.indent)
            && is_run(b"*".as_slice(), token.kind, input.spelling(token)),
        None => false,
    }
}

/// The place behind the `*` that may stand there.
pub(crate) fn past_star(input: &Input, at: usize, layout: Layout) -> usize
    requires within { at ≤ length input.now.tokens.now }
    ensures past { from_at input.now result ≡ past_star (origin_of input.now) layout (from_at input.now at) }
    ensures goes { at ≤ result }
    ensures within { result ≤ length input.now.tokens.now }
{
    match input.head(at) {
        Some(token)
            if goes_on(layout, token.indent)
                && is_run(b"*".as_slice(), token.kind, input.spelling(token)) => { at + 1 }
        _ => at,
    }
}

/// Whether a name stands in backticks.
pub(crate) fn is_quoted(kind: Tok) -> bool
    ensures { result ≡ is_quoted kind }
{
    match kind {
        Tok::Quoted => true,
        _ => false,
    }
}

/// The name of a procedure that goes on there.
pub(crate) fn proc_name_on(input: &Input, at: usize, layout: Layout) -> Option<Token>
    ensures { result ≡ proc_name_on layout (from_at input.now at) }
{
    match input.head(at) {
        Some(token)
            if goes_on(layout, token.indent) && (is_name(token.kind) || is_quoted(token.kind)) => {
            Some(token)
        }
        _ => None,
    }
}

fn is_bracket(bracket: Bracket, other: Option<Bracket>) -> bool
    ensures { result ≡ is_bracket bracket other }
{
    match (bracket, other) {
        (Bracket::Round, Some(Bracket::Round)) | (Bracket::Square, Some(Bracket::Square)) => true,
        _ => false,
    }
}

/// Whether this bracket opens there and goes on.
pub(crate) fn opens_at(input: &Input, at: usize, layout: Layout, bracket: Bracket) -> bool
    ensures { result ≡ opens_at layout bracket (from_at input.now at) }
{
    match input.head(at) {
        Some(token) => goes_on(layout, token.indent) && is_bracket(bracket, bracket_of(token.kind)),
        None => false,
    }
}

/// Whether `=` goes on there.
pub(crate) fn equals_at(input: &Input, at: usize, layout: Layout) -> bool
    ensures { result ≡ equals_at layout (from_at input.now at) }
{
    match input.head(at) {
        Some(token) => goes_on(layout, token.indent) && is_punct(b'=', token.kind),
        None => false,
    }
}

fn is_of(kind: Tok) -> bool
    ensures { result ≡ is_of kind }
{
    match kind {
        Tok::Key(Key::Of) => true,
        _ => false,
    }
}

/// Whether `of` goes on there.
pub(crate) fn of_at(input: &Input, at: usize, layout: Layout) -> bool
    ensures { result ≡ of_at layout (from_at input.now at) }
{
    match input.head(at) {
        Some(token) => goes_on(layout, token.indent) && is_of(token.kind),
        None => false,
    }
}

/// Whether a comma or a semicolon stands there.
pub(crate) fn separator_at(input: &Input, at: usize) -> bool
    ensures { result ≡ separator_at (from_at input.now at) }
{
    input.punct_at(b',', at) || input.punct_at(b';', at)
}

fn is_pragma_open(kind: Tok) -> bool
    ensures { result ≡ is_pragma_open kind }
{
    match kind {
        Tok::PragmaOpen => true,
        _ => false,
    }
}

/// Whether pragmas go on there.
pub(crate) fn pragmas_at(input: &Input, at: usize, layout: Layout) -> bool
    ensures { result ≡ pragmas_at layout (from_at input.now at) }
{
    match input.head(at) {
        Some(token) => goes_on(layout, token.indent) && is_pragma_open(token.kind),
        None => false,
    }
}

fn is_pragma_close(kind: Tok) -> bool
    ensures { result ≡ is_pragma_close kind }
{
    match kind {
        Tok::PragmaClose => true,
        _ => false,
    }
}

/// Whether pragmas end there.
pub(crate) fn pragmas_end_at(input: &Input, at: usize) -> bool
    ensures { result ≡ kind_at is_pragma_close (from_at input.now at) }
{
    match input.head(at) {
        Some(token) => is_pragma_close(token.kind),
        None => false,
    }
}

/// The pragma of this name.
pub(crate) fn pragma_named(name: &[u8]) -> Option<PragmaKind>
    ensures { result ≡ pragma_named name.now }
{
    if is_named(name, b"error") {
        Some(PragmaKind::Error)
    } else if is_named(name, b"borrow") {
        Some(PragmaKind::Borrow)
    } else if is_named(name, b"cursor") {
        Some(PragmaKind::Cursor)
    } else if is_named(name, b"inline") {
        Some(PragmaKind::Inline)
    } else {
        None
    }
}

fn named_lead(is_array: bool, opens: bool) -> TypeLead
    ensures { result ≡ named_lead is_array opens }
{
    if is_array && opens {
        TypeLead::Array
    } else {
        TypeLead::Name
    }
}

/// What a written type begins with, whose first token stands there.
pub(crate) fn type_lead(input: &Input, at: usize, token: Token, layout: Layout) -> TypeLead
    requires within { at < length input.now.tokens.now }
    ensures { result ≡ type_lead (origin_of input.now) layout token (from_at input.now (at + 1)) }
{
    match token.kind {
        Tok::Name => named_lead(
            is_named(input.spelling(token), b"array"),
            opens_at(input, at + 1, layout, Bracket::Square),
        ),
        Tok::Key(Key::Ref) => TypeLead::Ref,
        Tok::Key(Key::Tuple) => TypeLead::Tuple,
        _ => TypeLead::Other,
    }
}

fn begins_type(kind: Tok) -> bool
    ensures { result ≡ begins_type kind }
{
    match kind {
        Tok::Name | Tok::Key(Key::Ref | Key::Tuple) => true,
        _ => false,
    }
}

/// Whether a written type begins there.
pub(crate) fn type_at(input: &Input, at: usize) -> bool
    ensures { result ≡ type_at (from_at input.now at) }
{
    match input.head(at) {
        Some(token) => begins_type(token.kind),
        None => false,
    }
}

// The mode that this token is, where it stands there.
fn mode_of(input: &Input, at: usize, token: Token) -> ParamMode
    requires within { at < length input.now.tokens.now }
    ensures { result ≡ mode_of (origin_of input.now) token (from_at input.now (at + 1)) token.kind }
{
    match token.kind {
        Tok::Key(Key::Var) => ParamMode::Var,
        Tok::Name => {
            if is_named(input.spelling(token), b"sink") && type_at(input, at + 1) {
                ParamMode::Sink
            } else {
                ParamMode::Plain
            }
        }
        _ => ParamMode::Plain,
    }
}

/// The mode of a parameter whose type stands there.
pub(crate) fn mode_at(input: &Input, at: usize) -> ParamMode
    ensures { result ≡ mode_at (origin_of input.now) (from_at input.now at) }
{
    match input.head(at) {
        Some(token) => mode_of(input, at, token),
        None => ParamMode::Plain,
    }
}

/// The place behind the mode that may stand there.
pub(crate) fn past_mode(input: &Input, at: usize) -> usize
    requires within { at ≤ length input.now.tokens.now }
    ensures past { from_at input.now result ≡ past_mode (origin_of input.now) (from_at input.now at) }
    ensures goes { at ≤ result }
    ensures within { result ≤ length input.now.tokens.now }
{
    match mode_at(input, at) {
        ParamMode::Plain => at,
        ParamMode::Var | ParamMode::Sink => at + 1,
    }
}

fn is_object(kind: Tok) -> bool
    ensures { result ≡ is_object kind }
{
    match kind {
        Tok::Key(Key::Object) => true,
        _ => false,
    }
}

// Whether `object` goes on there.
fn object_at(input: &Input, at: usize, layout: Layout) -> bool
    ensures { result ≡ object_at layout (from_at input.now at) }
{
    match input.head(at) {
        Some(token) => goes_on(layout, token.indent) && is_object(token.kind),
        None => false,
    }
}

// What the body of a declared type begins with, whose first token stands there.
fn body_lead_of(input: &Input, at: usize, token: Token, layout: Layout) -> BodyLead
    requires within { at < length input.now.tokens.now }
    ensures { result ≡ body_lead_of layout (from_at input.now (at + 1)) token.kind }
{
    match token.kind {
        Tok::Key(Key::Object) => BodyLead::Object,
        Tok::Key(Key::Ref) => {
            if object_at(input, at + 1, layout) {
                BodyLead::RefObject
            } else {
                BodyLead::Alias
            }
        }
        Tok::Key(Key::Enum) => BodyLead::Enum,
        Tok::Key(Key::Distinct) => BodyLead::Distinct,
        _ => BodyLead::Alias,
    }
}

/// What the body of a declared type begins with there.
pub(crate) fn body_lead(input: &Input, at: usize, layout: Layout) -> BodyLead
    ensures { result ≡ body_lead layout (from_at input.now at) }
{
    match input.head(at) {
        Some(token) => body_lead_of(input, at, token, layout),
        None => BodyLead::Alias,
    }
}

fn is_member_line(indent: Option<u32>, spaces: u32) -> bool
    ensures { result ≡ equals spaces indent }
{
    match indent {
        Some(level) => level == spaces,
        None => false,
    }
}

// Whether a member of a block of members goes on there, or begins a line.
fn member_at(input: &Input, at: usize, spaces: u32) -> bool
    ensures { result ≡ member_at spaces (from_at input.now at) }
{
    match input.head(at) {
        Some(token) => (goes_on(Layout::Lines(spaces), token.indent)
            || is_member_line(token.indent, spaces))
            && is_name(token.kind),
        None => false,
    }
}

/// Whether a comma or a further member of a block of members stands there.
pub(crate) fn more_members_at(input: &Input, at: usize, spaces: u32) -> bool
    ensures { result ≡ more_members_at spaces (from_at input.now at) }
{
    input.comma_at(at, Layout::Lines(spaces)) || member_at(input, at, spaces)
}

/// The place behind the comma that may stand there.
pub(crate) fn past_comma(input: &Input, at: usize, layout: Layout) -> usize
    requires within { at < length input.now.tokens.now }
    ensures past { from_at input.now result ≡ past_comma layout (from_at input.now at) }
    ensures goes { at ≤ result }
{
    if input.comma_at(at, layout) {
        at + 1
    } else {
        at
    }
}
