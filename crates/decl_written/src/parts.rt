// Names and types of fields and parts.
ghost use Rattle.std.specs.Prelude.{◌≡◌, ◌<◌, ◌++◌, ◌∷◌, [], ℕ, List, length, map, IfOk, Ok, OnOk};
ghost use Rattle.arc_base.specs.Refusal.{Answers, and_then};
ghost use Rattle.indent_scanner.specs.Words.{normal};
ghost use Rattle.nim_types.specs.Types.{Ty, Facts};
ghost use Rattle.nim_types.specs.Table.{AllBelow};
ghost use Rattle.expr_rules.specs.Constructions.{is_among};
ghost use Rattle.expr_parts.specs.View.{Under, Grown, AllFormed};
ghost use Rattle.decl_rules.specs.State.{if_new};
ghost use Rattle.decl_rules.specs.Written.{at_once, field_names_rule, formed_rule};
ghost use Rattle.decl_written.specs.ViewWritten.{at_once_of, HasNames, HasNamesBehind};
ghost use Rattle.decl_written.specs.ViewWritten.{normal_names, tuple_in};

use arc_base::{Bytes, Code, Items, Memory, Place, Stop};
use expr_parts::grow::add;
use expr_parts::sizes::is_sized;
use expr_parts::value::refusal;
use indent_scanner::normal_form;
use nim_tree::Declared;
use nim_types::{TypeDef, TypeId, TypeTable};
use std::alloc::Global;
use std::collections::HashSet;

/// The parts of a tuple.
#[derive(Drop)]
pub struct Parts {
    /// In normal form.
    pub names: Items<Bytes>,
    pub types: Items<TypeId>,
}

/// A name that isn't among others yet, in normal form.
pub fn new_name(
    alloc: Global,
    seen: &mut HashSet<Bytes>,
    at: Place,
    text: &[u8],
) -> Result<Bytes, Stop>
    ensures answers { (before : List (List ℕ)) → HasNames seen.old before
        → Answers (λ _. tt) (if_new (is_among (normal text.now) before) at) result }
    ensures name { IfOk result (λ name. name ≡ normal text.now) }
    ensures seen { OnOk result ((before : List (List ℕ)) → HasNames seen.old before
        → HasNames seen.new (normal text.now ∷ before)) }
{
    let name = normal_form(alloc, text)?;
    if seen.contains(&name) {
        return Err(refusal(Code::Redefined, at));
    }
    let copy = Bytes::from_slice(alloc, name.as_slice())?;
    seen.insert(copy)?;
    Ok(name)
}

/// The names of a group of fields, in normal form: each once, behind others.
pub fn new_names(
    alloc: Global,
    seen: &mut HashSet<Bytes>,
    names: &mut Items<Bytes>,
    declared: &[Declared],
) -> Result<(), Stop>
    ensures answers { (before : List (List ℕ)) → HasNames seen.old before
        → Answers {A = Unit {0}} (λ _. tt) (and_then (field_names_rule before declared.now)
        (λ _. Ok tt)) result }
    ensures seen { OnOk result ((before : List (List ℕ)) → HasNames seen.old before
        → HasNamesBehind seen.new before declared.now) }
    ensures names { OnOk result (names.new ≡ names.old ++ normal_names declared.now) }
{
    for name in declared {
        match new_name(alloc, seen, name.at, name.text.as_slice()) {
            Ok(text) => names.push(text)?,
            Err(stop) => return Err(stop),
        }
    }
    Ok(())
}

/// One type for each name of a group of fields.
pub fn push_all(types: &mut Items<TypeId>, ty: TypeId, declared: &[Declared]) -> Result<(), Memory>
    ensures { OnOk result (types.new ≡ types.old ++ map (λ _. ty) declared.now) }
{
    for _name in declared {
        types.push(ty)?;
    }
    Ok(())
}

/// The type of a tuple that is written, which isn't too large.
pub fn tuple_type(types: &mut TypeTable, at: Place, parts: Parts) -> Result<TypeId, Stop>
    requires formed { AllFormed types.old }
    requires within { AllBelow (length types.old) parts.types }
    ensures grown { Grown types.old types.new }
    ensures answers { (ts : List Ty) (facts : Facts) → Under types.new ts facts
        → Answers (at_once_of ts) (formed_rule at_once facts at (tuple_in ts parts) []) result }
    ensures within { IfOk result (λ id. id < length types.new) }
{
    let def = TypeDef::Tuple {
        names: parts.names,
        parts: parts.types,
    };
    let id = add(types, def)?;
    if !is_sized(types, id) {
        return Err(refusal(Code::NotTyped, at));
    }
    Ok(id)
}
