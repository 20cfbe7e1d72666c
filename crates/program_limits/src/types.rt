// What is asked of types.
ghost use Rattle.std.specs.Prelude.{◌≡◌};
ghost use Rattle.nim_types.specs.Table.{type_at};
ghost use Rattle.nim_program.specs.View.{if_type};
ghost use Rattle.nim_meaning.specs.Unbuilt.{is_unbuilt, gives_unbuilt};
ghost use Rattle.program_limits.specs.Summaries.{summary_in};
ghost use Rattle.program_limits.specs.Known.{known_types, known_facts};
ghost use Rattle.program_limits.specs.Frames.{is_deep, gives_deep};

use crate::known::Known;
use crate::summary::{MOST_LEVELS, Summary, look};
use nim_types::TypeId;

// A number beyond the table counts as an int.
fn summary(known: &Known, ty: TypeId) -> Summary
    ensures { result ≡ summary_in (known_facts known.now) (type_at (known_types known.now) ty) }
{
    look(known.of.as_slice(), ty)
}

/// Whether values of the type have no code yet.
pub fn is_unbuilt(known: &Known, ty: TypeId) -> bool
    ensures { result ≡ is_unbuilt (known_facts known.now) (type_at (known_types known.now) ty) }
{
    summary(known, ty).unbuilt
}

/// Whether a value of the type has no code yet, where there is one.
pub fn gives_unbuilt(known: &Known, ty: Option<TypeId>) -> bool
    ensures { result ≡ gives_unbuilt (known_facts known.now) (if_type (known_types known.now) ty) }
{
    match ty {
        None => false,
        Some(ty) => is_unbuilt(known, ty),
    }
}

/// Whether the type has too many levels.
pub fn is_deep(known: &Known, ty: TypeId) -> bool
    ensures { result ≡ is_deep (known_facts known.now) (type_at (known_types known.now) ty) }
{
    summary(known, ty).levels > MOST_LEVELS
}

/// Whether the type of a value has too many levels, where there is one.
pub fn gives_deep(known: &Known, ty: Option<TypeId>) -> bool
    ensures { result ≡ gives_deep (known_facts known.now) (if_type (known_types known.now) ty) }
{
    match ty {
        None => false,
        Some(ty) => is_deep(known, ty),
    }
}
