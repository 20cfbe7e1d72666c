// The names of a definition, and declared places.
ghost use Rattle.std.specs.Prelude.{◌≡◌, ◌≤◌, ℕ, List, [], ◌∷◌};
ghost use Rattle.std.specs.Prelude.{◌++◌, ◌&&◌, length, map, drop, Bool};
ghost use Rattle.std.specs.Prelude.{IfOk, IfErr, OnOk};
ghost use Rattle.arc_base.specs.declared.place.Stop.TheVariants as Stop;
ghost use Rattle.arc_base.specs.Refusal.{Answers, and_then};
ghost use Rattle.indent_scanner.specs.Words.{normal};
ghost use Rattle.nim_tree.specs.Statements.{definition_of};
ghost use Rattle.nim_types.specs.Types.{Ty};
ghost use Rattle.nim_types.specs.Table.{type_at};
ghost use Rattle.nim_program.specs.View.{declared_of};
ghost use Rattle.expr_parts.specs.declared.scope.Decl.{Decl};
ghost use Rattle.expr_parts.specs.View.{entry_of};
ghost use Rattle.decl_rules.specs.State.{State, own_entries};
ghost use Rattle.decl_rules.specs.Definitions.{is_fitting, all_fit, is_whole, name_rule, names_by};
ghost use Rattle.decl_rules.specs.Definitions.{names_behind};
ghost use Rattle.decl_parts.specs.View.{place_of, own_names};

use arc_base::{Bytes, Code, Place, Stop};
use expr_parts::scope::{Decl, Scope, What};
use expr_parts::value::refusal;
use indent_scanner::normal_form;
use nim_program::PlaceDecl;
use nim_tree::{Binding, Declared, Def, Pragma, PragmaKind};
use nim_types::TypeId;
use std::alloc::Global;

fn is_fitting(kind: PragmaKind) -> bool
    ensures { is_fitting kind ≡ result }
{
    !matches!(kind, PragmaKind::Borrow | PragmaKind::Error)
}

/// Whether pragmas may stand at a definition.
pub fn all_fit(pragmas: &[Pragma]) -> bool
    ensures { all_fit pragmas.now ≡ result }
{
    for pragma in pragmas {
        if !is_fitting(pragma.kind) {
            return false;
        }
    }
    true
}

/// Whether a definition has a value, or of a `var` a type.
pub fn is_whole(binding: Binding, def: &Def) -> bool
    ensures { is_whole binding (definition_of def.now) ≡ result }
{
    match binding {
        Binding::Var => def.value.is_some() || def.annotation.is_some(),
        _ => def.value.is_some(),
    }
}

// One name more of a definition, which the scope takes up until all of them are known.
fn take_name(
    alloc: Global,
    scope: &mut Scope,
    outside: u32,
    name: &Declared,
    fits: bool,
) -> Result<(), Stop>
    requires outside { outside ≤ length scope.old.decls }
    ensures answers { (st : State) (before : List (List ℕ))
        → own_names outside scope.old.decls st before
        → Answers (λ _. tt) (name_rule st before fits name.now) result }
    ensures names { OnOk result ((st : State) (before : List (List ℕ))
        → own_names outside scope.old.decls st before
        → own_names outside scope.new.decls st (normal name.now.text ∷ before)) }
    ensures begins { OnOk result ((more : List Decl) × (scope.new.decls
        ≡ scope.old.decls ++ more)) }
    ensures kinds { scope.new.kinds ≡ scope.old.kinds }
    ensures home { scope.new.home ≡ scope.old.home }
{
    let word = normal_form(alloc, name.text.as_slice())?;
    if scope.is_declared_since(word.as_slice(), outside) {
        return Err(refusal(Code::Redefined, name.at));
    }
    if !fits {
        return Err(refusal(Code::NotTyped, name.at));
    }
    scope.declare(Decl {
        name: word,
        what: What::Input,
    })?;
    Ok(())
}

// Further names of a definition.
fn take_names(
    alloc: Global,
    scope: &mut Scope,
    outside: u32,
    names: &[Declared],
    fits: bool,
) -> Result<(), Stop>
    requires outside { outside ≤ length scope.old.decls }
    ensures answers { (st : State) (before : List (List ℕ))
        → own_names outside scope.old.decls st before
        → Answers (λ _. tt) (names_behind st before fits names.now) result }
    ensures begins { OnOk result ((more : List Decl) × (scope.new.decls
        ≡ scope.old.decls ++ more)) }
    ensures kinds { scope.new.kinds ≡ scope.old.kinds }
    ensures home { scope.new.home ≡ scope.old.home }
{
    for name in names {
        match take_name(alloc, scope, outside, name, fits) {
            Ok(()) => {}
            Err(stop) => return Err(stop),
        }
    }
    Ok(())
}

// The first name of a definition, with which pragmas are looked at, and the others.
fn take_first(
    alloc: Global,
    scope: &mut Scope,
    outside: u32,
    name: &Declared,
    rest: &[Declared],
    first: bool,
    whole: bool,
) -> Result<(), Stop>
    requires outside { outside ≤ length scope.old.decls }
    ensures answers { (st : State) → own_names outside scope.old.decls st []
        → Answers (λ _. tt) (and_then (name_rule st [] first name.now) (λ _. names_behind st
        (normal name.now.text ∷ []) whole rest.now)) result }
    ensures begins { OnOk result ((more : List Decl) × (scope.new.decls
        ≡ scope.old.decls ++ more)) }
    ensures kinds { scope.new.kinds ≡ scope.old.kinds }
    ensures home { scope.new.home ≡ scope.old.home }
{
    match take_name(alloc, scope, outside, name, first) {
        Ok(()) => take_names(alloc, scope, outside, rest, whole),
        Err(stop) => Err(stop),
    }
}

fn take_all(
    alloc: Global,
    scope: &mut Scope,
    outside: u32,
    names: &[Declared],
    first: bool,
    whole: bool,
) -> Result<(), Stop>
    requires outside { outside ≤ length scope.old.decls }
    ensures answers { (st : State) (fits : Bool) → own_names outside scope.old.decls st []
        → (whole && fits) ≡ first → Answers (λ _. tt) (names_by st whole fits names.now) result }
    ensures begins { OnOk result ((more : List Decl) × (scope.new.decls
        ≡ scope.old.decls ++ more)) }
    ensures kinds { scope.new.kinds ≡ scope.old.kinds }
    ensures home { scope.new.home ≡ scope.old.home }
{
    match names.split_first() {
        Some((name, rest)) => take_first(alloc, scope, outside, name, rest, first, whole),
        None => Ok(()),
    }
}

fn is_right(whole: bool, fits: bool) -> bool
    ensures { (whole && fits) ≡ result }
{
    whole && fits
}

/// The names of a definition: each is new in its scope, and the definition is whole.
pub fn check_names(
    alloc: Global,
    scope: &mut Scope,
    outside: u32,
    names: &[Declared],
    whole: bool,
    fits: bool,
) -> Result<(), Stop>
    requires outside { outside ≤ length scope.old.decls }
    ensures answers { (ts : List Ty) (st : State)
        → own_entries st ≡ map (entry_of ts) (drop outside scope.old.decls)
        → Answers (λ _. tt) (names_by st whole fits names.now) result }
    ensures same { OnOk result (scope.new ≡ scope.old) }
{
    let count = scope.count();
    let first = is_right(whole, fits);
    match take_all(alloc, scope, outside, names, first, whole) {
        Ok(()) => {
            scope.leave(count);
            Ok(())
        }
        Err(stop) => Err(stop),
    }
}

/// A declared place with a name.
pub fn place_of(
    alloc: Global,
    number: u32,
    name: &[u8],
    at: Place,
    ty: TypeId,
) -> Result<PlaceDecl, Stop>
    ensures place { IfOk result (λ p. (ts : List Ty) → declared_of ts p
        ≡ place_of number name.now at (type_at ts ty)) }
    ensures ty { IfOk result (λ p. p.ty ≡ ty) }
    ensures number { IfOk result (λ p. p.number ≡ number) }
    ensures memory { IfErr result (λ stop. stop ≡ Stop.Memory) }
{
    let name = Bytes::from_slice(alloc, name)?;
    Ok(PlaceDecl {
        number,
        name,
        at,
        ty,
    })
}
