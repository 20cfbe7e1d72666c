// What definitions of a section say.
ghost use Rattle.std.specs.Prelude.{◌≡◌, ◌≤◌, ◌∷◌, ◌++◌, ℕ, List, [], map, length, Ok, IfOk, IfErr};
ghost use Rattle.std.specs.Prelude.{OnOk};
ghost use Rattle.arc_base.specs.declared.place.Stop.TheVariants as Stop;
ghost use Rattle.arc_base.specs.Refusal.{Answers, and_then};
ghost use Rattle.indent_scanner.specs.Words.{normal};
ghost use Rattle.nim_tree.specs.Types.{written_of, fields_of, body_of, object};
ghost use Rattle.nim_types.specs.Types.{Ty};
ghost use Rattle.expr_parts.specs.ViewDecls.{declares};
ghost use Rattle.expr_parts.specs.ViewReady.{IsReady};
ghost use Rattle.decl_rules.specs.State.{State};
ghost use Rattle.decl_rules.specs.Meanings.{an_object, a_distinct, an_alias};
ghost use Rattle.decl_rules.specs.Written.{spelled, parts_spelled};
ghost use Rattle.decl_rules.specs.Written.{fields_of as object_fields};
ghost use Rattle.decl_rules.specs.Sections.{members_rule, texts_of, if_plain, is_plain_object};
ghost use Rattle.decl_rules.specs.Sections.{if_single, new_in_section};
ghost use Rattle.decl_written.specs.ViewWritten.{HasNames};
ghost use Rattle.decl_sections.specs.ViewSpelled.{Spells};
ghost use Rattle.decl_sections.specs.ViewBodies.{own_decls, NoneTwice, IsDeclared, member_entries};
ghost use Rattle.decl_sections.specs.ViewBodies.{field_name, all_field_names, meant_in};
ghost use Rattle.decl_sections.specs.ViewBodies.{said_with, said_by};
ghost use Rattle.decl_types.specs.ViewKnown.{MeaningWithin};

use crate::spelling::{parts, spelled};
use arc_base::{Bytes, Code, Items, Place, Stop};
use decl_types::known::Meaning;
use decl_types::nodes::{Names, Node};
use decl_written::parts::new_name;
use expr_parts::scope::Scope;
use expr_parts::value::refusal;
use indent_scanner::normal_form;
use nim_tree::{Field, Name, TypeBody, TypeTree};
use nim_types::{FieldName, TypeTable};
use std::alloc::Global;
use std::collections::HashSet;

/// What is declared in the innermost scope: what stands there before a section, and the names of
/// definitions of the section and of their members so far, in normal form.
#[derive(Drop)]
pub struct Declared {
    /// The number of the first declaration of the scope.
    pub outside: u32,
    /// The number of the first declaration of the section.
    pub start: u32,
    pub seen: HashSet<Bytes>,
}

// Whether the scope declared a name, in normal form, before the section.
fn is_own(scope: &Scope, declared: &Declared, name: &[u8]) -> bool
    ensures { declared.now.outside ≤ declared.now.start
        → declared.now.start ≤ length scope.now.decls
        → NoneTwice declared.now.outside declared.now.start scope.now.decls
        → declares name.now (own_decls declared.now.outside declared.now.start scope.now.decls)
        ≡ result }
{
    if scope.is_declared_since(name, declared.start) {
        return false;
    }
    scope.is_declared_since(name, declared.outside)
}

/// A name that neither its scope nor the section declares yet, in normal form.
pub fn new_in_section(
    alloc: Global,
    scope: &Scope,
    declared: &mut Declared,
    at: Place,
    text: &[u8],
) -> Result<Bytes, Stop>
    ensures answers { (names : List (List ℕ)) (st : State) → HasNames declared.old.seen names
        → IsDeclared st declared.old scope.now
        → Answers (λ _. tt) (new_in_section st names at (normal text.now)) result }
    ensures name { IfOk result (λ name. name ≡ normal text.now) }
    ensures seen { OnOk result ((names : List (List ℕ)) → HasNames declared.old.seen names
        → HasNames declared.new.seen (normal text.now ∷ names)) }
    ensures outside { declared.new.outside ≡ declared.old.outside }
    ensures start { declared.new.start ≡ declared.old.start }
{
    let name = normal_form(alloc, text)?;
    if is_own(scope, declared, name.as_slice()) {
        return Err(refusal(Code::Redefined, at));
    }
    new_name(alloc, &mut declared.seen, at, text)
}

/// The names of the members of an enum, in normal form: each is new.
pub fn new_members(
    alloc: Global,
    scope: &Scope,
    declared: &mut Declared,
    members: &[Name],
) -> Result<Items<Bytes>, Stop>
    ensures answers { (names : List (List ℕ)) (ty : Ty) (st : State)
        → HasNames declared.old.seen names → IsDeclared st declared.old scope.now
        → Answers (member_entries ty 0) (members_rule st names ty 0 members.now) result }
    ensures seen { IfOk result (λ all. (names : List (List ℕ)) → HasNames declared.old.seen names
        → HasNames declared.new.seen (all ++ names)) }
    ensures outside { declared.new.outside ≡ declared.old.outside }
    ensures start { declared.new.start ≡ declared.old.start }
{
    let mut names = Items::new(alloc);
    for member in members {
        match new_in_section(alloc, scope, declared, member.at, member.text.as_slice()) {
            Ok(name) => names.push(name)?,
            Err(stop) => return Err(stop),
        }
    }
    Ok(names)
}

/// The names of members as they are declared.
pub fn texts_of(alloc: Global, members: &[Name]) -> Result<Items<Bytes>, Stop>
    ensures texts { IfOk result (λ texts. texts ≡ texts_of members.now) }
    ensures memory { IfErr result (λ stop. stop ≡ Stop.Memory) }
{
    let mut texts = Items::new(alloc);
    for member in members {
        texts.push(Bytes::from_slice(alloc, member.text.as_slice())?)?;
    }
    Ok(texts)
}

// Adds the names of a group of fields as they are declared.
fn add_fields(
    alloc: Global,
    names: &mut Items<FieldName>,
    declared: &[nim_tree::Declared],
) -> Result<(), Stop>
    ensures names { OnOk result (names.new ≡ names.old ++ map field_name declared.now) }
    ensures memory { IfErr result (λ stop. stop ≡ Stop.Memory) }
{
    for field in declared {
        let name = Bytes::from_slice(alloc, field.text.as_slice())?;
        names.push(FieldName {
            name,
            shown: field.shown,
        })?;
    }
    Ok(())
}

/// The names of fields as they are declared.
pub fn field_names(alloc: Global, fields: &[Field]) -> Result<Items<FieldName>, Stop>
    ensures names { IfOk result (λ names. names ≡ all_field_names (fields_of fields.now)) }
    ensures memory { IfErr result (λ stop. stop ≡ Stop.Memory) }
{
    let mut names = Items::new(alloc);
    for field in fields {
        add_fields(alloc, &mut names, field.names.as_slice())?;
    }
    Ok(names)
}

/// No refs, and nothing below another object.
pub fn check_plain(at: Place, is_ref: bool, parent: &Option<Name>) -> Result<(), Stop>
    ensures { Answers (λ _. tt) (if_plain (is_plain_object is_ref parent.now) at) result }
{
    if is_ref || parent.is_some() {
        return Err(refusal(Code::LeftOut, at));
    }
    Ok(())
}

/// None has type parameters.
pub fn check_single(parameters: &[Name], at: Place) -> Result<(), Stop>
    ensures { Answers (λ _. tt) (if_single parameters.now at) result }
{
    if !parameters.is_empty() {
        return Err(refusal(Code::LeftOut, at));
    }
    Ok(())
}

// The fields of an object.
fn object(
    alloc: Global,
    types: &mut TypeTable,
    scope: &Scope,
    names: &Names,
    out: &mut Vec<Node>,
    fields: &[Field],
) -> Result<Meaning, Stop>
    requires ready { IsReady types.old scope.now }
    ensures { Spells types.old types.new out.old.items out.new.items scope.now names.now
        meant_in (λ sizing env. and_then (parts_spelled sizing env []
        (fields_of fields.now)) (λ all. Ok (said_with (an_object (object_fields all.parts))
        all.formed))) MeaningWithin result }
{
    let declared = field_names(alloc, fields)?;
    match parts(alloc, types, scope, names, out, fields) {
        Ok(parts) => Ok(Meaning::Object {
            fields: declared,
            types: parts.types,
        }),
        Err(stop) => Err(stop),
    }
}

// The type that is written behind `distinct`.
fn distinct(
    alloc: Global,
    types: &mut TypeTable,
    scope: &Scope,
    names: &Names,
    out: &mut Vec<Node>,
    base: &TypeTree,
) -> Result<Meaning, Stop>
    requires ready { IsReady types.old scope.now }
    ensures { Spells types.old types.new out.old.items out.new.items scope.now names.now
        meant_in (λ sizing env. and_then (spelled sizing env
        (written_of base.now)) (λ t. Ok (said_with (a_distinct t.of) t.formed)))
        MeaningWithin result }
{
    match spelled(alloc, types, scope, names, out, base) {
        Ok(base) => Ok(Meaning::Distinct(base)),
        Err(stop) => Err(stop),
    }
}

// The type that an alias names.
fn alias(
    alloc: Global,
    types: &mut TypeTable,
    scope: &Scope,
    names: &Names,
    out: &mut Vec<Node>,
    of: &TypeTree,
) -> Result<Meaning, Stop>
    requires ready { IsReady types.old scope.now }
    ensures { Spells types.old types.new out.old.items out.new.items scope.now names.now
        meant_in (λ sizing env. and_then (spelled sizing env
        (written_of of.now)) (λ t. Ok (said_with (an_alias t.of) t.formed)))
        MeaningWithin result }
{
    match spelled(alloc, types, scope, names, out, of) {
        Ok(of) => Ok(Meaning::Alias(of)),
        Err(stop) => Err(stop),
    }
}

// An object that isn't a ref and not below another one.
fn plain_object(
    alloc: Global,
    types: &mut TypeTable,
    scope: &Scope,
    names: &Names,
    out: &mut Vec<Node>,
    at: Place,
    is_ref: bool,
    parent: &Option<Name>,
    fields: &[Field],
) -> Result<Meaning, Stop>
    requires ready { IsReady types.old scope.now }
    ensures { Spells types.old types.new out.old.items out.new.items scope.now names.now meant_in
        (λ sizing env. said_by sizing env (object at is_ref parent.now (fields_of fields.now)))
        MeaningWithin result }
{
    match check_plain(at, is_ref, parent) {
        Ok(()) => object(alloc, types, scope, names, out, fields),
        Err(stop) => Err(stop),
    }
}

/// What the body of a definition says, but for enums.
pub fn body(
    alloc: Global,
    types: &mut TypeTable,
    scope: &Scope,
    names: &Names,
    out: &mut Vec<Node>,
    body: &TypeBody,
) -> Result<Meaning, Stop>
    requires ready { IsReady types.old scope.now }
    ensures { Spells types.old types.new out.old.items out.new.items scope.now names.now meant_in
        (λ sizing env. said_by sizing env (body_of body.now)) MeaningWithin result }
{
    match body {
        TypeBody::Object {
            at,
            is_ref,
            parent,
            fields,
        } => plain_object(
            alloc,
            types,
            scope,
            names,
            out,
            *at,
            *is_ref,
            parent,
            fields.as_slice(),
        ),
        TypeBody::Enum { members, .. } => {
            Ok(Meaning::Enum(texts_of(alloc, members.as_slice())?))
        },
        TypeBody::Distinct { base, .. } => distinct(alloc, types, scope, names, out, base),
        TypeBody::Alias(of) => alias(alloc, types, scope, names, out, of),
    }
}
