// How many nodes the parts of a statement have. Where they are more than 4,294,967,295, that number stands for them.
ghost use Rattle.std.specs.Prelude.{◌≡◌, ◌-◌, ◌^◌, min, length, map, option_map};
ghost use Rattle.nim_tree.specs.Lists.{total, if_there, one};
ghost use Rattle.nim_tree.specs.Terms.{term_of, parts_of, choices_of, nodes, nodes_in, nodes_of};
ghost use Rattle.nim_tree.specs.Types.{written_of, arguments_of, fields_of, body_of, declaration_of, type_nodes};
ghost use Rattle.nim_tree.specs.Types.{argument_nodes, field_nodes, body_nodes, declaration_nodes};
ghost use Rattle.nim_tree.specs.Statements.{definition_of, parameters_of, head_of, course_of, definition_nodes, parameter_nodes, head_nodes, course_nodes};

use crate::{Choice, Def, Expr, Field, Name, Over, Param, ProcHead, TypeBody, TypeDef, TypeTree};

// Of elements with one node each.
pub(crate) fn of_each<T>(elements: &[T]) -> u32
    ensures { result ≡ min (length elements.now) (2 ^ 32 - 1) }
{
    let count = elements.len();
    if count < 4_294_967_295 {
        count as u32
    } else {
        4_294_967_295
    }
}

#[cycle(terms)]
pub(crate) fn of_term(tree: &Expr) -> u32
    ensures { result ≡ min (nodes (term_of tree.now)) (2 ^ 32 - 1) }
{
    match tree {
        Expr::Int { .. }
        | Expr::Char { .. }
        | Expr::Text { .. }
        | Expr::Name { .. }
        | Expr::Quoted { .. }
        | Expr::Nil { .. } => 1,
        Expr::Paren { inner, .. } => of_term(inner).saturating_add(1),
        Expr::Tuple { .. } | Expr::Array { .. } | Expr::Sequence { .. } | Expr::Construct { .. } =>
            { of_terms(tree.parts()).saturating_add(1) }
        Expr::Named { value, .. } => of_term(value).saturating_add(1),
        Expr::Field { base, .. } => of_term(base).saturating_add(1),
        Expr::Call { base, .. } | Expr::Index { base, .. } => of_term(base)
            .saturating_add(of_terms(tree.parts()))
            .saturating_add(1),
        Expr::Unary { operand, .. } => of_term(operand).saturating_add(1),
        Expr::Binary { left, right, .. } => of_term(left)
            .saturating_add(of_term(right))
            .saturating_add(1),
        Expr::If { otherwise, .. } => of_choices(tree.branches())
            .saturating_add(of_term(otherwise))
            .saturating_add(1),
        Expr::Case {
            selector,
            otherwise: None,
            ..
        } => of_term(selector)
            .saturating_add(of_choices(tree.branches()))
            .saturating_add(1),
        Expr::Case {
            selector,
            otherwise: Some(value),
            ..
        } => of_term(selector)
            .saturating_add(of_choices(tree.branches()))
            .saturating_add(of_term(value))
            .saturating_add(1),
        Expr::Range { low, high, .. } => of_term(low)
            .saturating_add(of_term(high))
            .saturating_add(1),
    }
}

#[cycle(terms)]
pub(crate) fn of_terms(parts: &[Expr]) -> u32
    ensures { result ≡ min (nodes_in (parts_of parts.now)) (2 ^ 32 - 1) }
{
    let mut all: u32 = 0;
    for part in parts {
        all = all.saturating_add(of_term(part));
    }
    all
}

#[cycle(terms)]
fn of_choices(branches: &[Choice]) -> u32
    ensures { result ≡ min (nodes_of (choices_of branches.now)) (2 ^ 32 - 1) }
{
    let mut all: u32 = 0;
    for branch in branches {
        all = all
            .saturating_add(of_terms(&branch.tests))
            .saturating_add(of_term(&branch.value))
            .saturating_add(1);
    }
    all
}

pub(crate) fn of_value(value: &Option<Expr>) -> u32
    ensures { result ≡ min (if_there nodes (option_map term_of value.now)) (2 ^ 32 - 1) }
{
    match value {
        Some(value) => of_term(value),
        None => 0,
    }
}

#[cycle(types)]
fn of_type(tree: &TypeTree) -> u32
    ensures { result ≡ min (type_nodes (written_of tree.now)) (2 ^ 32 - 1) }
{
    match tree {
        TypeTree::Named { .. } => of_arguments(tree.arguments()).saturating_add(1),
        TypeTree::Array {
            length,
            element,
            ..
        } => of_term(length)
            .saturating_add(of_type(element))
            .saturating_add(1),
        TypeTree::Ref { target, .. } => of_type(target).saturating_add(1),
        TypeTree::Tuple { .. } => of_fields(tree.fields()).saturating_add(1),
    }
}

#[cycle(types)]
fn of_arguments(arguments: &[TypeTree]) -> u32
    ensures { result ≡ min (argument_nodes (arguments_of arguments.now)) (2 ^ 32 - 1) }
{
    let mut all: u32 = 0;
    for argument in arguments {
        all = all.saturating_add(of_type(argument));
    }
    all
}

#[cycle(types)]
fn of_fields(fields: &[Field]) -> u32
    ensures { result ≡ min (field_nodes (fields_of fields.now)) (2 ^ 32 - 1) }
{
    let mut all: u32 = 0;
    for field in fields {
        all = all
            .saturating_add(of_each(&field.names))
            .saturating_add(of_type(&field.of));
    }
    all
}

fn of_annotation(annotation: &Option<TypeTree>) -> u32
    ensures { result ≡ min (if_there type_nodes (option_map written_of annotation.now)) (2 ^ 32 - 1) }
{
    match annotation {
        Some(tree) => of_type(tree),
        None => 0,
    }
}

pub(crate) fn of_optional(name: &Option<Name>) -> u32
    ensures { result ≡ if_there one name.now }
{
    match name {
        Some(_) => 1,
        None => 0,
    }
}

fn of_type_body(body: &TypeBody) -> u32
    ensures { result ≡ min (body_nodes (body_of body.now)) (2 ^ 32 - 1) }
{
    match body {
        TypeBody::Object { parent, fields, .. } => of_optional(parent)
            .saturating_add(of_fields(fields))
            .saturating_add(1),
        TypeBody::Enum { members, .. } => of_each(members).saturating_add(1),
        TypeBody::Distinct { base, .. } => of_type(base).saturating_add(1),
        TypeBody::Alias(tree) => of_type(tree),
    }
}

pub(crate) fn of_declarations(defs: &[TypeDef]) -> u32
    ensures { result ≡ min (total declaration_nodes (map declaration_of defs.now)) (2 ^ 32 - 1) }
{
    let mut all: u32 = 0;
    for def in defs {
        all = all
            .saturating_add(of_each(&def.parameters))
            .saturating_add(of_type_body(&def.body))
            .saturating_add(1);
    }
    all
}

fn of_definition(def: &Def) -> u32
    ensures { result ≡ min (definition_nodes (definition_of def.now)) (2 ^ 32 - 1) }
{
    of_each(&def.names)
        .saturating_add(of_each(&def.pragmas))
        .saturating_add(of_annotation(&def.annotation))
        .saturating_add(of_value(&def.value))
}

pub(crate) fn of_definitions(defs: &[Def]) -> u32
    ensures { result ≡ min (total definition_nodes (map definition_of defs.now)) (2 ^ 32 - 1) }
{
    let mut all: u32 = 0;
    for def in defs {
        all = all.saturating_add(of_definition(def));
    }
    all
}

fn of_params(params: &[Param]) -> u32
    ensures { result ≡ min (total parameter_nodes (map parameters_of params.now)) (2 ^ 32 - 1) }
{
    let mut all: u32 = 0;
    for param in params {
        all = all
            .saturating_add(of_each(&param.names))
            .saturating_add(of_type(&param.of));
    }
    all
}

pub(crate) fn of_head(head: &ProcHead) -> u32
    ensures { result ≡ min (head_nodes (head_of head.now)) (2 ^ 32 - 1) }
{
    of_each(&head.generics)
        .saturating_add(of_params(&head.params))
        .saturating_add(of_annotation(&head.gives))
        .saturating_add(of_each(&head.pragmas))
        .saturating_add(1)
}

pub(crate) fn of_course(over: &Over) -> u32
    ensures { result ≡ min (course_nodes (course_of over.now)) (2 ^ 32 - 1) }
{
    match over {
        Over::Each(value) => of_term(value),
        Over::UpTo(first, last) => of_term(first).saturating_add(of_term(last)),
        Over::Below(first, end) => of_term(first).saturating_add(of_term(end)),
    }
}
