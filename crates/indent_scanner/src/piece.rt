// The piece that a list of bytes begins with.
ghost use Rattle.std.specs.Prelude.{◌≡◌, ◌≢◌, ◌≤◌, ◌<◌, ◌+◌, [], ◌∷◌, drop, length, Some, None, IfSome};
ghost use Rattle.indent_scanner.specs.Bytes.{byte_at};
ghost use Rattle.indent_scanner.specs.Shape.{depth_of};
ghost use Rattle.indent_scanner.specs.Pieces.{word_kind, word_piece, int_piece, Begins};
ghost use Rattle.indent_scanner.specs.ByForm.{open_comment, open_text, open_brace, open_digit, open_mark, opening_of};
ghost use Rattle.indent_scanner.specs.ByForm.{may_hold, stray_in, if_clean, piece_of, code_of, IsWithin};

use crate::bytes::{
    byte_at, in_char, in_comment, in_text, is_blank, is_bracket, is_digit, is_letter, is_mark,
    is_operator,
};
use crate::shape::{Last, Quote, Shape, is_whole, run};
use crate::token::{Key, Tok};
use crate::words::key_of;
use arc_base::Code;

/// A piece of a source.
#[derive(Clone, Copy)]
pub enum Piece {
    /// Bytes between tokens, of a comment or not: how many.
    Gap(bool, usize),
    /// A token, and how many bytes it has.
    Found(Tok, usize),
    /// A refusal, and behind how many bytes.
    Refused(Code, usize),
}

/// How a piece begins.
#[derive(Clone, Copy)]
pub enum Opening {
    /// It is this piece.
    Known(Piece),
    /// It has this form behind its first byte.
    Shaped(Shape),
}

fn open_comment(next: u8) -> Opening
    ensures { result ≡ open_comment next }
{
    match next {
        b'[' => Opening::Shaped(Shape::Nested(0, Last::Hash)),
        _ => Opening::Shaped(Shape::Line),
    }
}

fn open_text(next: u8, third: u8) -> Opening
    ensures { result ≡ open_text next third }
{
    if next == b'"' && third == b'"' {
        Opening::Known(Piece::Refused(Code::BadLiteral, 0))
    } else {
        Opening::Shaped(Shape::Inside(Quote::Text, None))
    }
}

fn open_brace(next: u8, third: u8) -> Opening
    ensures { result ≡ open_brace next third }
{
    if next == b'.' && third != b'.' {
        Opening::Known(Piece::Found(Tok::PragmaOpen, 2))
    } else {
        Opening::Known(Piece::Found(Tok::Punct(b'{'), 1))
    }
}

fn open_digit(b: u8) -> Opening
    ensures { result ≡ open_digit b }
{
    match b {
        b'0' => Opening::Shaped(Shape::Zero),
        _ => Opening::Shaped(Shape::Number(10, b.saturating_sub(b'0') as u64)),
    }
}

fn open_mark(b: u8) -> Opening
    ensures { result ≡ open_mark b }
{
    match b {
        _ if is_bracket(b) => Opening::Known(Piece::Found(Tok::Punct(b), 1)),
        _ if is_operator(b) => Opening::Shaped(Shape::Single(b)),
        _ => Opening::Known(Piece::Refused(Code::BadByte, 0)),
    }
}

// What begins by a byte and those behind it.
fn opening_of(b: u8, bytes: &[u8]) -> Opening
    ensures { result ≡ opening_of b bytes.now }
{
    let next = byte_at(bytes, 0);
    match b {
        _ if is_letter(b) => Opening::Shaped(Shape::Word),
        _ if is_digit(b) => open_digit(b),
        _ if is_blank(b) => Opening::Known(Piece::Gap(false, 1)),
        b'\r' if next == b'\n' => Opening::Known(Piece::Gap(false, 2)),
        b'#' => open_comment(next),
        b'\'' => Opening::Shaped(Shape::Inside(Quote::Char, None)),
        b'"' => open_text(next, byte_at(bytes, 1)),
        b'`' => Opening::Shaped(Shape::Quoted(false)),
        b'{' => open_brace(next, byte_at(bytes, 1)),
        b'.' if next == b'}' => Opening::Known(Piece::Found(Tok::PragmaClose, 2)),
        _ => open_mark(b),
    }
}

// Whether a form may hold a byte, before the one behind it.
fn may_hold(shape: Shape, b: u8, next: u8) -> bool
    ensures { result ≡ may_hold shape b next }
{
    match shape {
        Shape::CharWhole(_) => in_char(b),
        Shape::TextWhole => in_text(b),
        Shape::NestedWhole => in_comment(b, next),
        _ => true,
    }
}

// Where the first byte stands that it may not hold, among the first so many.
fn stray_in(shape: Shape, len: usize, bytes: &[u8]) -> Option<usize>
    requires { len ≤ length bytes.now }
    ensures { result ≡ stray_in shape len bytes.now }
{
    for at in 0..len {
        if !may_hold(shape, bytes[at], byte_at(bytes, at + 1)) {
            return Some(at);
        }
    }
    None
}

// The piece, where no byte is stray.
fn if_clean(stray: Option<usize>, piece: Piece) -> Piece
    ensures { result ≡ if_clean stray piece }
{
    match stray {
        Some(at) => Piece::Refused(Code::BadByte, at),
        None => piece,
    }
}

fn word_kind(key: Option<Key>) -> Tok
    ensures { result ≡ word_kind key }
{
    match key {
        Some(key) => Tok::Key(key),
        None => Tok::Name,
    }
}

fn word_piece(len: usize, bytes: &[u8]) -> Piece
    requires { len ≤ length bytes.now }
    ensures { result ≡ word_piece len bytes.now }
{
    if byte_at(bytes, len) == b'"' {
        Piece::Refused(Code::BadLiteral, len)
    } else {
        Piece::Found(word_kind(key_of(&bytes[..len])), len)
    }
}

fn int_piece(value: u64, len: usize, bytes: &[u8]) -> Piece
    requires { len ≤ length bytes.now }
    ensures { result ≡ int_piece value len bytes.now }
{
    if byte_at(bytes, len) == b'.' && is_digit(byte_at(bytes, len + 1)) {
        Piece::Refused(Code::BadLiteral, 0)
    } else if value > 0x7fff_ffff {
        Piece::Refused(Code::IntTooLarge, 0)
    } else {
        Piece::Found(Tok::Int(value as i32), len)
    }
}

// The first bytes, which have this form, as a piece.
fn piece_of(shape: Shape, len: usize, bytes: &[u8]) -> Piece
    requires { len ≤ length bytes.now }
    ensures { result ≡ piece_of shape len bytes.now }
{
    match shape {
        Shape::Word => word_piece(len, bytes),
        Shape::WordUnder | Shape::BrokenWord => Piece::Refused(Code::BadByte, 0),
        Shape::Zero => int_piece(0, len, bytes),
        Shape::Number(_, value) => int_piece(value, len, bytes),
        Shape::CharWhole(value) => {
            if_clean(
                stray_in(shape, len, bytes),
                Piece::Found(Tok::Char(value), len),
            )
        }
        Shape::TextWhole => if_clean(stray_in(shape, len, bytes), Piece::Found(Tok::Text, len)),
        Shape::QuotedWhole => Piece::Found(Tok::Quoted, len),
        Shape::Line => Piece::Gap(true, len),
        Shape::NestedWhole => if_clean(stray_in(shape, len, bytes), Piece::Gap(true, len)),
        Shape::Single(b) if is_mark(b) => Piece::Found(Tok::Punct(b), 1),
        Shape::Single(_) | Shape::StarColon => Piece::Found(Tok::Op, 1),
        Shape::Run(_) => Piece::Found(Tok::Op, len),
        _ => Piece::Refused(Code::BadLiteral, 0),
    }
}

fn code_of(shape: Shape) -> Code
    ensures { result ≡ code_of shape }
{
    match shape {
        Shape::Quoted(_) => Code::BadByte,
        _ => Code::BadLiteral,
    }
}

/// The piece that the bytes begin with.
pub(crate) fn piece_at(bytes: &[u8]) -> Piece
    requires { bytes.now ≢ [] }
    ensures begins { Begins bytes.now result }
    ensures within { IsWithin bytes.now result }
{
    let behind = &bytes[1..];
    match opening_of(bytes[0], behind) {
        Opening::Known(piece) => piece,
        Opening::Shaped(shape) => {
            let (len, reached) = run(shape, behind);
            if is_whole(reached) {
                piece_of(reached, len + 1, bytes)
            } else {
                Piece::Refused(code_of(shape), 0)
            }
        }
    }
}
