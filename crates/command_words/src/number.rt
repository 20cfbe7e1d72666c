// Numbers as the command line spells them.
ghost use Rattle.std.specs.Prelude.{◌≡◌};
ghost use Rattle.command_words.specs.Walk.{number};

/// The most digits that a number has.
pub const MOST_DIGITS: usize = 10;

// The number that the text spells, from `least` to `most`.
pub(crate) fn number(text: &str, least: u32, most: u32) -> Option<u32>
    ensures { result ≡ number least most text.now }
{
    if text.len() > MOST_DIGITS || text.starts_with('+') {
        return None;
    }
    match text.parse::<u32>() {
        Ok(value) if least <= value && value <= most => Some(value),
        _ => None,
    }
}
