// Where definitions stand: those of a source one behind the other, and behind all types that are
// declared before them.
ghost use Rattle.std.specs.Prelude.{◌≡◌, map, true};
ghost use Rattle.nim_tree.specs.Types.{declaration_of};
ghost use Rattle.decl_types.specs.ViewPlaces.{position, Ascends, IsFar, AllFar};

use arc_base::Place;
use nim_tree::TypeDef as Tree;
use nim_types::{TypeDef, TypeTable};

/// The position of a place in its module: what stands behind has a larger one.
pub fn position(at: Place) -> u64
    ensures { result ≡ position at }
{
    at.line as u64 * 4_294_967_296 + at.column as u64
}

/// Whether definitions stand in a module, each behind the one before and behind a position.
pub fn are_ascending(defs: &[Tree], home: u32, first: u64) -> bool
    ensures { result ≡ true → Ascends home first (map declaration_of defs.now) }
{
    let mut last = first;
    for def in defs {
        let at = position(def.name.at);
        if def.name.at.module != home || at <= last {
            return false;
        }
        last = at;
    }
    true
}

// Whether a type isn't declared behind a position of a module.
fn is_far(def: &TypeDef, home: u32, last: u64) -> bool
    ensures { result ≡ true → IsFar home last def.now }
{
    match def {
        TypeDef::Distinct { at, .. } => at.module != home || position(*at) <= last,
        _ => true,
    }
}

/// Whether no distinct type is declared behind a position of a module.
pub fn are_far(types: &TypeTable, home: u32, last: u64) -> bool
    ensures { result ≡ true → AllFar home last types.now }
{
    for id in 0..types.count() {
        if !is_far(types.get(id), home, last) {
            return false;
        }
    }
    true
}
