// Names and keywords.
ghost use Rattle.std.specs.Prelude.{◌≡◌};
ghost use Rattle.indent_scanner.specs.Words.{lower, folded, same, is_named, first_keys, more_keys, left_keys, other_left_keys, key_of};

use crate::token::Key;

// A letter in lower case.
pub(crate) fn lower(b: u8) -> u8
    ensures { result ≡ lower b }
{
    if matches!(b, b'A'..=b'Z') { b + 32 } else { b }
}

// Whether bytes without `_` and in lower case are these.
fn is_folded(bytes: &[u8], key: &[u8]) -> bool
    ensures { result ≡ same (folded bytes.now) key.now }
{
    let mut at = 0;
    for b in bytes {
        if *b != b'_' {
            if at == key.len() || lower(*b) != key[at] {
                return false;
            }
            at += 1;
        }
    }
    at == key.len()
}

/// Whether a name is this word, which is given in normal form: its first byte as written, and the rest without `_` and
/// in lower case.
pub fn is_named(name: &[u8], key: &[u8]) -> bool
    ensures { result ≡ is_named name.now key.now }
{
    if name.is_empty() {
        return key.is_empty();
    }
    if key.is_empty() {
        return false;
    }
    name[0] == key[0] && is_folded(&name[1..], &key[1..])
}

// Keywords in use, from `and` to `let`.
fn first_keys(name: &[u8]) -> Option<Key>
    ensures { result ≡ first_keys name.now }
{
    match name {
        _ if is_named(name, b"and") => Some(Key::And),
        _ if is_named(name, b"as") => Some(Key::As),
        _ if is_named(name, b"break") => Some(Key::Break),
        _ if is_named(name, b"case") => Some(Key::Case),
        _ if is_named(name, b"const") => Some(Key::Const),
        _ if is_named(name, b"continue") => Some(Key::Continue),
        _ if is_named(name, b"defer") => Some(Key::Defer),
        _ if is_named(name, b"discard") => Some(Key::Discard),
        _ if is_named(name, b"distinct") => Some(Key::Distinct),
        _ if is_named(name, b"div") => Some(Key::Div),
        _ if is_named(name, b"elif") => Some(Key::Elif),
        _ if is_named(name, b"else") => Some(Key::Else),
        _ if is_named(name, b"enum") => Some(Key::Enum),
        _ if is_named(name, b"except") => Some(Key::Except),
        _ if is_named(name, b"finally") => Some(Key::Finally),
        _ if is_named(name, b"for") => Some(Key::For),
        _ if is_named(name, b"if") => Some(Key::If),
        _ if is_named(name, b"import") => Some(Key::Import),
        _ if is_named(name, b"in") => Some(Key::In),
        _ if is_named(name, b"let") => Some(Key::Let),
        _ => None,
    }
}

// Keywords in use, from `mod` to `xor`.
fn more_keys(name: &[u8]) -> Option<Key>
    ensures { result ≡ more_keys name.now }
{
    match name {
        _ if is_named(name, b"mod") => Some(Key::Mod),
        _ if is_named(name, b"nil") => Some(Key::Nil),
        _ if is_named(name, b"not") => Some(Key::Not),
        _ if is_named(name, b"object") => Some(Key::Object),
        _ if is_named(name, b"of") => Some(Key::Of),
        _ if is_named(name, b"or") => Some(Key::Or),
        _ if is_named(name, b"proc") => Some(Key::Proc),
        _ if is_named(name, b"raise") => Some(Key::Raise),
        _ if is_named(name, b"ref") => Some(Key::Ref),
        _ if is_named(name, b"return") => Some(Key::Return),
        _ if is_named(name, b"shl") => Some(Key::Shl),
        _ if is_named(name, b"shr") => Some(Key::Shr),
        _ if is_named(name, b"try") => Some(Key::Try),
        _ if is_named(name, b"tuple") => Some(Key::Tuple),
        _ if is_named(name, b"type") => Some(Key::Type),
        _ if is_named(name, b"var") => Some(Key::Var),
        _ if is_named(name, b"while") => Some(Key::While),
        _ if is_named(name, b"xor") => Some(Key::Xor),
        _ => None,
    }
}

// Keywords that the language leaves out, from `addr` to `interface`.
fn left_keys(name: &[u8]) -> Option<Key>
    ensures { result ≡ left_keys name.now }
{
    match name {
        _ if is_named(name, b"addr") => Some(Key::Addr),
        _ if is_named(name, b"asm") => Some(Key::Asm),
        _ if is_named(name, b"bind") => Some(Key::Bind),
        _ if is_named(name, b"block") => Some(Key::Block),
        _ if is_named(name, b"cast") => Some(Key::Cast),
        _ if is_named(name, b"concept") => Some(Key::Concept),
        _ if is_named(name, b"converter") => Some(Key::Converter),
        _ if is_named(name, b"do") => Some(Key::Do),
        _ if is_named(name, b"end") => Some(Key::End),
        _ if is_named(name, b"export") => Some(Key::Export),
        _ if is_named(name, b"from") => Some(Key::From),
        _ if is_named(name, b"func") => Some(Key::Func),
        _ if is_named(name, b"include") => Some(Key::Include),
        _ if is_named(name, b"interface") => Some(Key::Interface),
        _ => None,
    }
}

// Keywords that the language leaves out, from `is` to `yield`.
fn other_left_keys(name: &[u8]) -> Option<Key>
    ensures { result ≡ other_left_keys name.now }
{
    match name {
        _ if is_named(name, b"is") => Some(Key::Is),
        _ if is_named(name, b"isnot") => Some(Key::IsNot),
        _ if is_named(name, b"iterator") => Some(Key::Iterator),
        _ if is_named(name, b"macro") => Some(Key::Macro),
        _ if is_named(name, b"method") => Some(Key::Method),
        _ if is_named(name, b"mixin") => Some(Key::Mixin),
        _ if is_named(name, b"notin") => Some(Key::NotIn),
        _ if is_named(name, b"out") => Some(Key::Out),
        _ if is_named(name, b"ptr") => Some(Key::Ptr),
        _ if is_named(name, b"static") => Some(Key::Static),
        _ if is_named(name, b"template") => Some(Key::Template),
        _ if is_named(name, b"using") => Some(Key::Using),
        _ if is_named(name, b"when") => Some(Key::When),
        _ if is_named(name, b"yield") => Some(Key::Yield),
        _ => None,
    }
}

/// The keyword that a name is.
pub(crate) fn key_of(name: &[u8]) -> Option<Key>
    ensures { result ≡ key_of name.now }
{
    if let Some(key) = first_keys(name) {
        return Some(key);
    }
    if let Some(key) = more_keys(name) {
        return Some(key);
    }
    if let Some(key) = left_keys(name) {
        return Some(key);
    }
    other_left_keys(name)
}
