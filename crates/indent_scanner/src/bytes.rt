// Classes of bytes.
ghost use Rattle.std.specs.Prelude.{◌≡◌, IfSome, ◌<◌};
ghost use Rattle.indent_scanner.specs.Bytes.{byte_at, is_letter, is_digit, is_word, is_operator, is_bracket, is_mark};
ghost use Rattle.indent_scanner.specs.Bytes.{is_blank, is_quotable, is_line_byte, in_char, in_text, in_comment, in_run};
ghost use Rattle.indent_scanner.specs.Bytes.{hex_value, digit_value, simple_escape};

// The byte at a place, or 0 behind the end.
pub(crate) fn byte_at(bytes: &[u8], k: usize) -> u8
    ensures { result ≡ byte_at bytes.now k }
{
    if k < bytes.len() { bytes[k] } else { 0 }
}

pub(crate) fn is_letter(b: u8) -> bool
    ensures { result ≡ is_letter b }
{
    matches!(b, b'A'..=b'Z' | b'a'..=b'z')
}

pub(crate) fn is_digit(b: u8) -> bool
    ensures { result ≡ is_digit b }
{
    matches!(b, b'0'..=b'9')
}

pub(crate) fn is_word(b: u8) -> bool
    ensures { result ≡ is_word b }
{
    is_letter(b) || is_digit(b) || b == b'_'
}

pub(crate) fn is_operator(b: u8) -> bool
    ensures { result ≡ is_operator b }
{
    b == b'='
        || b == b'+'
        || b == b'-'
        || b == b'*'
        || b == b'/'
        || b == b'<'
        || b == b'>'
        || b == b'@'
        || b == b'$'
        || b == b'~'
        || b == b'&'
        || b == b'%'
        || b == b'|'
        || b == b'!'
        || b == b'?'
        || b == b'^'
        || b == b'.'
        || b == b':'
        || b == b'\\'
}

pub(crate) fn is_bracket(b: u8) -> bool
    ensures { result ≡ is_bracket b }
{
    b == b'('
        || b == b')'
        || b == b'['
        || b == b']'
        || b == b'{'
        || b == b'}'
        || b == b','
        || b == b';'
}

pub(crate) fn is_mark(b: u8) -> bool
    ensures { result ≡ is_mark b }
{
    b == b'=' || b == b':' || b == b'.'
}

pub(crate) fn is_blank(b: u8) -> bool
    ensures { result ≡ is_blank b }
{
    b == b' ' || b == b'\n'
}

// What a name in backticks may hold.
pub(crate) fn is_quotable(b: u8) -> bool
    ensures { result ≡ is_quotable b }
{
    b != b'`' && matches!(b, 0x21..=0x7e)
}

// What a comment to the end of the line may hold.
pub(crate) fn is_line_byte(b: u8) -> bool
    ensures { result ≡ is_line_byte b }
{
    matches!(b, b'\t' | b' '..=b'~' | 0x80..)
}

// What a char may hold.
pub(crate) fn in_char(b: u8) -> bool
    ensures { result ≡ in_char b }
{
    matches!(b, b' '..=b'~')
}

// What a text may hold.
pub(crate) fn in_text(b: u8) -> bool
    ensures { result ≡ in_text b }
{
    b >= b' ' && b != 0x7f
}

// Whether a comment that nests may hold a byte with the next one behind it: `\r` only before `\n`.
pub(crate) fn in_comment(b: u8, next: u8) -> bool
    ensures { result ≡ in_comment b next }
{
    is_line_byte(b) || b == b'\n' || b == b'\r' && next == b'\n'
}

// Whether a run of operators goes on with a byte.
pub(crate) fn in_run(behind_dot: bool, b: u8, next: u8) -> bool
    ensures { result ≡ in_run behind_dot b next }
{
    is_operator(b) && (b != b'.' || behind_dot || next != b'}')
}

// The value of a hexadecimal digit.
pub(crate) fn hex_value(b: u8) -> Option<u8>
    ensures { result ≡ hex_value b }
{
    match b {
        b'0'..=b'9' => Some(b - b'0'),
        b'a'..=b'f' => Some(b - b'a' + 10),
        b'A'..=b'F' => Some(b - b'A' + 10),
        _ => None,
    }
}

// The value of a digit of a base.
pub(crate) fn digit_value(base: u64, b: u8) -> Option<u8>
    ensures { result ≡ digit_value base b }
{
    match hex_value(b) {
        Some(d) if (d as u64) < base => Some(d),
        _ => None,
    }
}

// What the byte behind a backslash stands for.
pub(crate) fn simple_escape(b: u8) -> Option<u8>
    ensures { result ≡ simple_escape b }
{
    match b {
        b'n' | b'l' => Some(b'\n'),
        b'r' | b'c' => Some(b'\r'),
        b't' => Some(b'\t'),
        b'e' => Some(27),
        b'\\' | b'"' | b'\'' => Some(b),
        _ => None,
    }
}
