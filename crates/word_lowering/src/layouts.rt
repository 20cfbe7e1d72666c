// Where the places and temporaries of each procedure are.
ghost use Rattle.std.specs.Prelude.{◌≡◌, ◌++◌, ◌∷◌, [], map, IfOk, OnOk};
ghost use Rattle.flat_code.specs.Codes.{block_plain};
ghost use Rattle.word_lowering.specs.Aliases.{is_among, addressed, standing, alias_for};
ghost use Rattle.word_lowering.specs.Layouts.{is_kept, is_static, lent_by, home_at, free_behind};
ghost use Rattle.word_lowering.specs.Layouts.{home_by, free_by, housed, behind};
ghost use Rattle.word_lowering.specs.Layouts.{all_housed, behind_all, laid, layout_of, layouts};
ghost use Rattle.word_lowering.specs.Layouts.{waits_by, behind_waiter, and_waiter, waiters};
ghost use Rattle.word_lowering.specs.Layouts.{behind_waiters};
ghost use Rattle.word_lowering.specs.Layouts.{is_sort, is_param, params_in};
ghost use Rattle.word_lowering.specs.Layouts.{result_in, kept_in, nowhere, AreNumbers, AreCounted};
ghost use Rattle.word_lowering.specs.Survey.{IsSurvey};
ghost use Rattle.word_lowering.specs.Stored.{HaveForms};

use crate::addresses::{addressed, is_among, standing};
use crate::aliases::put_aliases;
use crate::homed::homed;
use crate::homes::{Alias, FIRST, Free, Home, Housed, Layout, OWN_FROM, Sort, Waiter};
use crate::place_table::places_of;
use crate::stored::{bytes_at, is_hooked, is_letter, is_word};
use crate::survey::Survey;
use arc_base::{Items, Memory};
use flat_code::{BlockLine, CodeProc, FlatPlace, PlaceKind};
use nim_program::Mode;
use nim_types::{TypeTable, WORD_BYTES};
use std::alloc::Global;
use std::collections::HashMap;

// What is in a variable: an address, and a word whose own address isn't needed. That of a temporary
// never is, so none is looked for among the addressed.
fn is_kept(number: u32, lent: bool, addressed: &[u32], word: bool, kind: PlaceKind) -> bool
    ensures { result ≡ is_kept lent (is_among number addressed.now) word kind }
{
    match kind {
        PlaceKind::Location
        | PlaceKind::Within
        | PlaceKind::Param(Mode::Var)
        | PlaceKind::Counter => true,
        PlaceKind::Temp => word,
        PlaceKind::Param(Mode::Plain) | PlaceKind::ForVar => {
            lent || word && !is_among(number, addressed)
        }
        _ => word && !is_among(number, addressed),
    }
}

fn is_static(start: bool, kind: PlaceKind) -> bool
    ensures { result ≡ is_static start kind }
{
    match kind {
        PlaceKind::Global => start,
        _ => false,
    }
}

fn home_at(fixed: bool, kept: bool, free: Free) -> Home
    ensures { result ≡ home_at fixed kept free }
{
    if fixed {
        Home::Static(free.datum)
    } else if kept {
        Home::Variable(free.variable)
    } else {
        Home::Placed(free.byte)
    }
}

fn free_behind(fixed: bool, kept: bool, bytes: u32, free: Free) -> Free
    requires { AreNumbers (free_behind fixed kept bytes free) }
    ensures { result ≡ free_behind fixed kept bytes free }
{
    let mut free = free;
    if fixed {
        free.datum += bytes;
    } else if kept {
        free.variable += 1;
    } else {
        free.byte += bytes;
    }
    free
}

// Another name has no home.
fn home_by(alias: Alias, home: Home) -> Home
    ensures { result ≡ home_by alias home }
{
    match alias {
        Alias::Own => home,
        _ => Home::Variable(FIRST),
    }
}

// What waits is a temporary's own value that has something to do at its end.
fn waits_by(kind: PlaceKind, alias: Alias, hooked: bool, waits: Option<u32>) -> Option<u32>
    ensures { result ≡ waits_by kind alias hooked waits }
{
    match (kind, alias, hooked) {
        (PlaceKind::Temp, Alias::Own, true) => waits,
        _ => None,
    }
}

// A place that stands for another one.
fn lent_by(kind: PlaceKind, hooked: bool, stands: bool) -> bool
    ensures { result ≡ lent_by kind hooked stands }
{
    match kind {
        PlaceKind::Param(Mode::Plain) => hooked,
        PlaceKind::ForVar => hooked && stands,
        _ => false,
    }
}

// Where one place is.
fn housed(
    types: &TypeTable,
    start: bool,
    survey: &Survey,
    free: Free,
    place: &FlatPlace,
) -> Result<Housed, Memory>
    requires forms { HaveForms types.now }
    requires survey { IsSurvey survey.now }
    ensures { IfOk result (λ h. h
        ≡ housed types.now start (map block_plain survey.now.lines.now) free place.now) }
{
    let counts = matches!(place.kind, PlaceKind::Counter);
    let word = counts || is_word(types, place.ty);
    let bytes = if counts {
        WORD_BYTES
    } else {
        bytes_at(types, place.ty)?
    };
    let hooked = is_hooked(types, place.ty);
    let lent = lent_by(place.kind, hooked, is_among(place.number, survey.standing));
    let kept = is_kept(place.number, lent, survey.addressed, word, place.kind);
    let alias = survey.alias(place.kind, place.number);
    Ok(Housed {
        number: place.number,
        kind: place.kind,
        ty: place.ty,
        bytes,
        is_word: word,
        is_letter: !counts && is_letter(types, place.ty),
        alias,
        home: home_by(alias, home_at(is_static(start, place.kind), kept, free)),
        waits: waits_by(place.kind, alias, hooked, place.waits),
        lent,
    })
}

// What isn't taken behind it.
fn behind(survey: &Survey, start: bool, free: Free, place: Housed) -> Free
    requires survey { IsSurvey survey.now }
    requires small { AreNumbers (free_by place.alias free
        (free_behind (is_static start place.kind)
        (is_kept place.lent
        (is_among place.number (addressed (map block_plain survey.now.lines.now)))
        place.is_word place.kind) place.bytes free)) }
    ensures { result ≡ free_by place.alias free
        (free_behind (is_static start place.kind)
        (is_kept place.lent
        (is_among place.number (addressed (map block_plain survey.now.lines.now)))
        place.is_word place.kind) place.bytes free) }
{
    match place.alias {
        Alias::Own => {
            let kept = is_kept(
                place.number,
                place.lent,
                survey.addressed,
                place.is_word,
                place.kind,
            );
            free_behind(is_static(start, place.kind), kept, place.bytes, free)
        }
        _ => free,
    }
}

// Adds where a place is, and what isn't taken behind it.
fn put_housed(
    types: &TypeTable,
    start: bool,
    survey: &Survey,
    all: &mut Items<Housed>,
    free: &mut Free,
    place: &FlatPlace,
) -> Result<(), Memory>
    requires forms { HaveForms types.now }
    requires survey { IsSurvey survey.now }
    requires small { AreNumbers
        (behind types.now start (map block_plain survey.now.lines.now) free.old place.now) }
    ensures all { OnOk result (all.new ≡ all.old
        ++ housed types.now start (map block_plain survey.now.lines.now) free.old place.now ∷ []) }
    ensures free { OnOk result (free.new
        ≡ behind types.now start (map block_plain survey.now.lines.now) free.old place.now) }
{
    let h = housed(types, start, survey, *free, place)?;
    let other = behind(survey, start, *free, h);
    all.push(h)?;
    *free = other;
    Ok(())
}

// The same of places, one after another.
fn put_all_housed(
    types: &TypeTable,
    start: bool,
    survey: &Survey,
    all: &mut Items<Housed>,
    free: &mut Free,
    places: &[FlatPlace],
) -> Result<(), Memory>
    requires forms { HaveForms types.now }
    requires survey { IsSurvey survey.now }
    requires small { AreNumbers
        (behind_all types.now start (map block_plain survey.now.lines.now) free.old places.now) }
    ensures all { OnOk result (all.new ≡ all.old
        ++ all_housed types.now start (map block_plain survey.now.lines.now) free.old places.now) }
    ensures free { OnOk result (free.new
        ≡ behind_all types.now start (map block_plain survey.now.lines.now) free.old places.now) }
{
    for place in places {
        put_housed(types, start, survey, all, free, place)?;
    }
    Ok(())
}

// What isn't taken behind one that may wait.
fn behind_waiter(waits: Option<u32>, bytes: u32, free: Free) -> Free
    requires { AreNumbers (behind_waiter waits bytes free) }
    ensures { result ≡ behind_waiter waits bytes free }
{
    match waits {
        None => free,
        Some(_) => Free {
            variable: free.variable + 1,
            byte: free.byte + bytes,
            datum: free.datum,
        },
    }
}

// Adds where one stands that may wait, if it may.
fn put_waiter(made: &mut Items<Waiter>, place: Housed, free: Free) -> Result<(), Memory>
    ensures { OnOk result
        (made.new ≡ made.old ++ and_waiter place.waits place.ty place.bytes free []) }
{
    if let Some(node) = place.waits {
        made.push(Waiter {
            node,
            ty: place.ty,
            bytes: place.bytes,
            at: free.byte,
            variable: free.variable,
        })?;
    }
    Ok(())
}

// The same of places, one after another.
fn put_waiters(made: &mut Items<Waiter>, free: &mut Free, all: &[Housed]) -> Result<(), Memory>
    requires small { AreNumbers (behind_waiters free.old all.now) }
    ensures made { OnOk result (made.new ≡ made.old ++ waiters free.old all.now) }
    ensures free { OnOk result (free.new ≡ behind_waiters free.old all.now) }
{
    for h in all {
        let other = behind_waiter(h.waits, h.bytes, *free);
        put_waiter(made, *h, *free)?;
        *free = other;
    }
    Ok(())
}

// The layout of a procedure with these places and lines.
fn laid(
    alloc: Global,
    types: &TypeTable,
    start: bool,
    datum: u32,
    survey: &Survey,
    places: &[FlatPlace],
) -> Result<Layout, Memory>
    requires forms { HaveForms types.now }
    requires survey { IsSurvey survey.now }
    requires small { AreNumbers
        (laid types.now start datum survey.now.lines.now places.now).free }
    ensures { IfOk result (λ own. own
        ≡ laid types.now start datum survey.now.lines.now places.now) }
{
    let mut homes = Items::new(alloc);
    let mut free = Free {
        variable: OWN_FROM,
        byte: 0,
        datum,
    };
    put_all_housed(types, start, survey, &mut homes, &mut free, places)?;
    let mut waiters = Items::new(alloc);
    put_waiters(&mut waiters, &mut free, homes.as_slice())?;
    let all = places_of(alloc, homes)?;
    let runs = !survey.lines.is_empty();
    Ok(Layout {
        all,
        waiters,
        free,
        runs,
    })
}

/// The layout of a procedure, where the data of globals begins at a byte.
pub fn layout_of(
    alloc: Global,
    types: &TypeTable,
    start: bool,
    datum: u32,
    proc: &CodeProc<BlockLine>,
) -> Result<Layout, Memory>
    requires forms { HaveForms types.now }
    requires small { AreNumbers (layout_of types.now start datum proc.now).free }
    ensures { IfOk result (λ own. own ≡ layout_of types.now start datum proc.now) }
{
    let lines = proc.lines.as_slice();
    let mut values = HashMap::new(alloc);
    let mut locations = HashMap::new(alloc);
    put_aliases(lines, &mut values, &mut locations)?;
    let needed = addressed(alloc, lines)?;
    let stands = standing(alloc, lines)?;
    let taken = homed(alloc, lines)?;
    let survey = Survey {
        lines,
        values: &values,
        locations: &locations,
        addressed: needed.as_slice(),
        standing: stands.as_slice(),
        homed: taken.as_slice(),
    };
    laid(alloc, types, start, datum, &survey, proc.places.as_slice())
}

/// The layouts of all procedures, the last of which is the start code.
pub fn layouts(
    alloc: Global,
    types: &TypeTable,
    datum: u32,
    procs: &[CodeProc<BlockLine>],
) -> Result<Items<Layout>, Memory>
    requires forms { HaveForms types.now }
    requires counted { AreCounted (layouts types.now datum procs.now) }
    ensures { IfOk result (λ all. all ≡ layouts types.now datum procs.now) }
{
    let mut all = Items::new(alloc);
    let mut left = procs;
    while let Some((proc, rest)) = left.split_first() {
        let own = layout_of(alloc, types, rest.is_empty(), datum, proc)?;
        all.push(own)?;
        left = rest;
    }
    Ok(all)
}

pub fn is_declared(kind: PlaceKind) -> bool
    ensures { result ≡ is_sort Sort.Declared kind }
{
    !matches!(
        kind,
        PlaceKind::Temp | PlaceKind::Counter | PlaceKind::Location | PlaceKind::Within
    )
}

/// Whether a line that seeks one of a sort may find this kind.
pub fn is_sort(sort: Sort, kind: PlaceKind) -> bool
    ensures { result ≡ is_sort sort kind }
{
    match sort {
        Sort::Value => matches!(kind, PlaceKind::Temp | PlaceKind::Counter),
        Sort::Location => matches!(kind, PlaceKind::Location | PlaceKind::Within),
        Sort::Own => !matches!(kind, PlaceKind::Param(Mode::Var)) && is_declared(kind),
        Sort::Declared => is_declared(kind),
        Sort::Global => matches!(kind, PlaceKind::Global),
    }
}

/// What isn't there.
pub fn nowhere() -> Housed
    ensures { result ≡ nowhere }
{
    Housed {
        number: 0,
        kind: PlaceKind::Temp,
        ty: 0,
        bytes: 0,
        is_word: true,
        is_letter: false,
        alias: Alias::Own,
        home: Home::Variable(FIRST),
        waits: None,
        lent: false,
    }
}

pub fn is_param(kind: PlaceKind) -> bool
    ensures { result ≡ is_param kind }
{
    matches!(kind, PlaceKind::Param(_))
}

/// The place of the result.
pub fn result_in(all: &[Housed]) -> Option<Housed>
    ensures { result ≡ result_in all.now }
{
    for h in all {
        if matches!(h.kind, PlaceKind::Result) {
            return Some(*h);
        }
    }
    None
}

/// How many parameters are in variables.
pub fn kept_in(all: &[Housed]) -> usize
    ensures { result ≡ kept_in (params_in all.now) }
{
    let mut n = 0;
    for h in all {
        if is_param(h.kind) && matches!(h.home, Home::Variable(_)) {
            n += 1;
        }
    }
    n
}
