// What the lines of a procedure say of its places, before these have homes.
ghost use Rattle.std.specs.Prelude.{◌≡◌, nat_eq, map};
ghost use Rattle.std.specs.HashMap.{get};
ghost use Rattle.flat_code.specs.Codes.{block_plain};
ghost use Rattle.word_lowering.specs.Aliases.{alias_for, own_literal, own_where, or_own};
ghost use Rattle.word_lowering.specs.Survey.{IsSurvey};

use crate::addresses::is_among;
use crate::aliases::Names;
use crate::homes::Alias;
use flat_code::{BlockLine, PlaceKind};

/// What lines of a procedure say of its places.
#[derive(Clone, Copy)]
pub struct Survey<'a> {
    pub lines: &'a [BlockLine],
    /// What temporaries with values are other names for.
    pub values: &'a Names,
    /// What temporaries with locations are other names for.
    pub locations: &'a Names,
    /// The places whose addresses are needed.
    pub addressed: &'a [u32],
    /// The places to which lines give locations.
    pub standing: &'a [u32],
    /// The temporaries whose values lines take from homes.
    pub homed: &'a [u32],
}

fn named(names: &Names, number: u32) -> Alias
    ensures { result ≡ or_own (get nat_eq names.now number) }
{
    match names.get(&number) {
        Some(alias) => *alias,
        None => Alias::Own,
    }
}

// A location of a place that stands for another one each time has a home of its own.
fn own_where(standing: &[u32], alias: Alias) -> Alias
    ensures { result ≡ own_where standing.now alias }
{
    match alias {
        Alias::Place {
            place,
            global: false,
        } if is_among(place, standing) => Alias::Own,
        _ => alias,
    }
}

// A literal whose value a line takes from a home has one.
fn own_literal(homed: &[u32], number: u32, alias: Alias) -> Alias
    ensures { result ≡ own_literal homed.now number alias }
{
    match alias {
        Alias::Text { .. } if is_among(number, homed) => Alias::Own,
        _ => alias,
    }
}

impl Survey<'_> {
    /// What a place of some kind is another name for.
    pub fn alias(&self, kind: PlaceKind, number: u32) -> Alias
        requires { IsSurvey self.now }
        ensures { result ≡ alias_for kind number (map block_plain self.now.lines.now) }
    {
        match kind {
            PlaceKind::Temp => own_literal(self.homed, number, named(self.values, number)),
            PlaceKind::Location | PlaceKind::Within => {
                own_where(self.standing, named(self.locations, number))
            }
            _ => Alias::Own,
        }
    }
}
