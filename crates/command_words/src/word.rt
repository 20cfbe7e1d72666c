// What a word is, where it may be an option.
ghost use Rattle.std.specs.Prelude.{◌≡◌, option_copied};
ghost use Rattle.command_words.specs.Command.{is_option};
ghost use Rattle.command_words.specs.Walk.{key_of, cut, kind_of, kind_seen};

/// The options that have a value.
#[derive(Clone, Copy)]
pub(crate) enum Key {
    Heap,
    Steps,
}

/// What a word is.
#[derive(Clone, Copy)]
pub(crate) enum Kind<'a> {
    /// `--`, which ends the options.
    End,
    /// A positional word.
    Place,
    /// An option whose value is the next word.
    Named(Key),
    /// An option with its value.
    Valued(Key, &'a str),
    /// An option that there isn't.
    Unknown,
}

// A dash and more.
fn is_option(word: &str) -> bool
    ensures { result ≡ is_option word.now }
{
    word.len() > 1 && word.as_bytes()[0] == b'-'
}

// The option of this name.
fn key_of(name: &str) -> Option<Key>
    ensures { result ≡ key_of name.now }
{
    if name == "--heap" {
        Some(Key::Heap)
    } else if name == "--steps" {
        Some(Key::Steps)
    } else {
        None
    }
}

// What stands before the first `=`, and what stands behind it.
fn cut(word: &str) -> (&str, Option<&str>)
    ensures name { result.0.now ≡ (cut word.now).0 }
    ensures value { option_copied result.1 ≡ (cut word.now).1 }
{
    match word.split_once('=') {
        Some((name, value)) => (name, Some(value)),
        None => (word, None),
    }
}

// What the word is, before `--`.
pub(crate) fn kind_of(word: &str) -> Kind<'_>
    ensures { kind_seen result ≡ kind_of word.now }
{
    if word == "--" {
        return Kind::End;
    }
    if !is_option(word) {
        return Kind::Place;
    }
    let (name, value) = cut(word);
    match (key_of(name), value) {
        (Some(key), Some(value)) => Kind::Valued(key, value),
        (Some(key), None) => Kind::Named(key),
        (None, _) => Kind::Unknown,
    }
}
