// What names stand for: in a value, before operands, and as types.
ghost use Rattle.std.specs.Prelude.{◌≡◌, ◌<◌, ℕ, Bool, true, false, List, IfOk};
ghost use Rattle.arc_base.specs.declared.place.Code.TheVariants.{NotTyped, UnknownName};
ghost use Rattle.arc_base.specs.declared.place.Stop.TheVariants as Stop;
ghost use Rattle.arc_base.specs.Refusal.{Answers};
ghost use Rattle.nim_types.specs.Types.{Ty, Facts, same_text};
ghost use Rattle.nim_types.specs.Table.{type_at};
ghost use Rattle.expr_rules.specs.Builtins.{is_built_in, is_there, operations_named};
ghost use Rattle.expr_rules.specs.Names.{is_nothing, callee_rule, named_type, type_rule};
ghost use Rattle.expr_rules.specs.Env.{Known, known_next, unknown};
ghost use Rattle.expr_rules.specs.Builtins.{is_echo, is_default, is_new_sequence};
ghost use Rattle.expr_rules.specs.Names.{bracket_rule, quoted_rule, count_rule, is_single};
ghost use Rattle.expr_rules.specs.Names.{is_array};
ghost use Rattle.indent_scanner.specs.Words.{normal};
ghost use Rattle.expr_rules.specs.Demands.{former_by, former_of, is_former};
ghost use Rattle.nim_tree.specs.Terms.{Parts};
ghost use Rattle.expr_parts.specs.View.{former_in};
ghost use Rattle.expr_parts.specs.View.{env_of, entry_by, WhatWithin, DeclsWithin};

use crate::scope::{Scope, What};
use crate::value::{allow, refusal};
use arc_base::{Code, Place, Stop};
use indent_scanner::normal_form;
use nim_types::TypeId;
use std::alloc::Global;

/// Whether a name, in normal form, is this word.
pub fn is_word(name: &[u8], word: &[u8]) -> bool
    ensures { same_text name.now word.now ≡ result }
{
    name == word
}

// Whether an operation of the name is built in.
fn has_operations(name: &[u8]) -> bool
    ensures { is_there (operations_named name.now) ≡ result }
{
    is_word(name, b"len")
        || is_word(name, b"high")
        || is_word(name, b"low")
        || is_word(name, b"ord")
        || is_word(name, b"chr")
        || is_word(name, b"$")
        || is_word(name, b"inc")
        || is_word(name, b"dec")
        || is_word(name, b"add")
        || is_word(name, b"setlen")
        || is_word(name, b"pop")
        || is_word(name, b"default")
        || is_word(name, b"move")
        || is_word(name, b"swap")
        || is_word(name, b"quit")
        || is_word(name, b"readline")
}

/// Whether some operation or form of type has the name without a declaration.
pub fn is_built_in(name: &[u8]) -> bool
    ensures { is_built_in name.now ≡ result }
{
    has_operations(name)
        || is_word(name, b"echo")
        || is_word(name, b"newseq")
        || is_word(name, b"seq")
        || is_word(name, b"array")
}

/// Whether it is the name of `echo`, in normal form.
pub fn is_echo(name: &[u8]) -> bool
    ensures { is_echo name.now ≡ result }
{
    is_word(name, b"echo")
}

/// Whether it is the name of `default`, in normal form.
pub fn is_default(name: &[u8]) -> bool
    ensures { is_default name.now ≡ result }
{
    is_word(name, b"default")
}

/// Whether it is the name of `newSeq`, in normal form.
pub fn is_new_sequence(name: &[u8]) -> bool
    ensures { is_new_sequence name.now ≡ result }
{
    is_word(name, b"newseq")
}

/// Whether it is the name of arrays, in normal form.
pub fn is_array(name: &[u8]) -> bool
    ensures { (text : List ℕ) → normal text ≡ name.now → is_array text ≡ result }
{
    is_word(name, b"array")
}

/// Refuses a name, in normal form, before brackets and operands, but those that make types of others.
pub fn check_brackets(scope: &Scope, at: Place, name: &[u8]) -> Result<(), Stop>
    ensures { (ts : List Ty) (facts : Facts)
        → Answers (λ _. tt) (bracket_rule (env_of ts facts scope.now) at name.now) result }
{
    allow(makes_types(former_of(scope, name)), Code::NotTyped, at)
}

/// Refuses a name in backticks that is called, but `$` with one operand.
pub fn check_quoted(at: Place, name: &[u8], single: bool) -> Result<(), Stop>
    ensures { (given : Parts) → is_single given ≡ single
        → Answers (λ _. tt) (quoted_rule at name.now given) result }
{
    allow(is_word(name, b"$") && single, Code::NotTyped, at)
}

/// Refuses `default`, in normal form, with another number of operands than one.
pub fn check_count(at: Place, name: &[u8], single: bool) -> Result<(), Stop>
    ensures { (given : Parts) → is_single given ≡ single
        → Answers (λ _. tt) (count_rule at name.now given) result }
{
    allow(single || !is_default(name), Code::NotTyped, at)
}

/// What makes types of others.
#[derive(Clone, Copy)]
pub enum Former {
    Sequences,
    Arrays,
    Nothing,
}

fn former_named(name: &[u8]) -> Former
    ensures { former_by unknown name.now ≡ former_in result }
{
    if is_word(name, b"seq") {
        Former::Sequences
    } else if is_word(name, b"array") {
        Former::Arrays
    } else {
        Former::Nothing
    }
}

/// What a name, in normal form, makes of types.
pub fn former_of(scope: &Scope, name: &[u8]) -> Former
    ensures { (ts : List Ty) (facts : Facts)
        → former_of (env_of ts facts scope.now) name.now ≡ former_in result }
{
    match scope.find(name) {
        Some(_) => Former::Nothing,
        None => former_named(name),
    }
}

/// Whether that makes any.
pub fn makes_types(former: Former) -> bool
    ensures { is_former (former_in former) ≡ result }
{
    match former {
        Former::Sequences => true,
        Former::Arrays => true,
        Former::Nothing => false,
    }
}

/// Whether a name, in normal form, has no meaning at all.
pub fn is_nothing(scope: &Scope, name: &[u8]) -> bool
    ensures { (ts : List Ty) (facts : Facts)
        → is_nothing (env_of ts facts scope.now) name.now ≡ result }
{
    !is_built_in(name) && scope.find(name).is_none()
}

/// Refuses the name of a call that has no meaning; it is in normal form.
pub fn check_callee(scope: &Scope, at: Place, name: &[u8]) -> Result<(), Stop>
    ensures { (ts : List Ty) (facts : Facts)
        → Answers (λ _. tt) (callee_rule (env_of ts facts scope.now) at name.now) result }
{
    if is_nothing(scope, name) {
        return Err(refusal(Code::UnknownName, at));
    }
    Ok(())
}

// A name that nothing declares: one that is built in is something else than its place asks for.
pub fn undeclared(at: Place, built_in: bool) -> Stop
    ensures built_in { built_in ≡ true → result ≡ Stop.Refused NotTyped at }
    ensures unknown { built_in ≡ false → result ≡ Stop.Refused UnknownName at }
{
    if built_in {
        refusal(Code::NotTyped, at)
    } else {
        refusal(Code::UnknownName, at)
    }
}

fn type_by(at: Place, what: &What) -> Result<TypeId, Stop>
    ensures answers { (ts : List Ty) (built_in : Bool) (before : Known) (x : List ℕ)
        → Answers (type_at ts) (type_rule at built_in (known_next before
        (entry_by ts x what.now))) result }
    ensures within { (n : ℕ) → WhatWithin n what.now → IfOk result (λ id. id < n) }
{
    match what {
        What::Type(id) => Ok(*id),
        _ => Err(refusal(Code::NotTyped, at)),
    }
}

/// The type that a name stands for.
pub fn named_type(alloc: Global, scope: &Scope, at: Place, text: &[u8]) -> Result<TypeId, Stop>
    ensures answers { (ts : List Ty) (facts : Facts)
        → Answers (type_at ts) (named_type (env_of ts facts scope.now) at text.now) result }
    ensures within { (n : ℕ) → DeclsWithin n scope.now.decls → IfOk result (λ id. id < n) }
{
    let name = normal_form(alloc, text)?;
    match scope.find(name.as_slice()) {
        Some(decl) => type_by(at, &decl.what),
        None => Err(undeclared(at, is_built_in(name.as_slice()))),
    }
}
