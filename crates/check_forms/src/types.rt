// The first form of a written type, or of the declaration of one, that has no rule.
ghost use Rattle.std.specs.Prelude.{◌≡◌, map, option_map};
ghost use Rattle.nim_tree.specs.Types.{written_of, arguments_of, fields_of, body_of, declaration_of};
ghost use Rattle.decl_rules.specs.LeftOut.{left_in_type, left_in_arguments, left_in_fields};
ghost use Rattle.decl_rules.specs.LeftOut.{if_left_in_type, is_left_object, left_in_body};
ghost use Rattle.decl_rules.specs.LeftOut.{is_some_name, left_in_declarations};
ghost use Rattle.check_forms.specs.Waiting.{names_in};

use crate::names::{Waiting, only_there, or_later};
use crate::terms::of_term;
use arc_base::Place;
use nim_tree::{Field, Name, TypeBody, TypeDef, TypeTree};

/// The first form of a written type that has no rule.
#[cycle(types)]
pub fn of_type(names: Waiting, tree: &TypeTree) -> Option<Place>
    ensures { result ≡ left_in_type (names_in names) (written_of tree.now) }
{
    match tree {
        TypeTree::Named { .. } => of_arguments(names, tree.arguments()),
        TypeTree::Array {
            length,
            element,
            ..
        } => or_later(of_term(names, length), of_type(names, element)),
        TypeTree::Ref { at, .. } => Some(*at),
        TypeTree::Tuple { .. } => of_fields(names, tree.fields()),
    }
}

#[cycle(types)]
fn of_arguments(names: Waiting, arguments: &[TypeTree]) -> Option<Place>
    ensures { result ≡ left_in_arguments (names_in names) (arguments_of arguments.now) }
{
    for argument in arguments {
        if let Some(at) = of_type(names, argument) {
            return Some(at);
        }
    }
    None
}

#[cycle(types)]
fn of_fields(names: Waiting, fields: &[Field]) -> Option<Place>
    ensures { result ≡ left_in_fields (names_in names) (fields_of fields.now) }
{
    for field in fields {
        if let Some(at) = of_type(names, &field.of) {
            return Some(at);
        }
    }
    None
}

/// The same of a type that may be missing.
pub fn of_annotation(names: Waiting, annotation: &Option<TypeTree>) -> Option<Place>
    ensures { result ≡ if_left_in_type (names_in names) (option_map written_of annotation.now) }
{
    match annotation {
        Some(tree) => of_type(names, tree),
        None => None,
    }
}

// Refs, and objects below others.
fn is_left_object(is_ref: bool, parent: &Option<Name>) -> bool
    ensures { result ≡ is_left_object is_ref parent.now }
{
    if is_ref {
        return true;
    }
    match parent {
        Some(_) => true,
        None => false,
    }
}

fn of_body(names: Waiting, body: &TypeBody) -> Option<Place>
    ensures { result ≡ left_in_body (names_in names) (body_of body.now) }
{
    match body {
        TypeBody::Object {
            at,
            is_ref,
            parent,
            fields,
        } => {
            let here = only_there(is_left_object(*is_ref, parent), *at);
            or_later(here, of_fields(names, fields))
        }
        TypeBody::Enum { .. } => None,
        TypeBody::Distinct { base, .. } => of_type(names, base),
        TypeBody::Alias(tree) => of_type(names, tree),
    }
}

/// Whether there are names.
pub fn is_some_name(names: &[Name]) -> bool
    ensures { result ≡ is_some_name names.now }
{
    !names.is_empty()
}

/// The first form in declarations of types that has no rule. One with type parameters is left out as a whole.
pub fn of_declarations(names: Waiting, defs: &[TypeDef]) -> Option<Place>
    ensures { result ≡ left_in_declarations (names_in names) (map declaration_of defs.now) }
{
    for def in defs {
        if is_some_name(&def.parameters) {
            return Some(def.name.at);
        }
        if let Some(at) = of_body(names, &def.body) {
            return Some(at);
        }
    }
    None
}
