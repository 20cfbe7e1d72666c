// Types that are written in a section, as nodes.
ghost use Rattle.std.specs.Prelude.{◌≡◌, ◌<◌, ◌∷◌, [], ℕ, List, length, map, codes, Ok, IfOk, None};
ghost use Rattle.arc_base.specs.Refusal.{Answers, and_then};
ghost use Rattle.indent_scanner.specs.Words.{normal};
ghost use Rattle.nim_tree.specs.Terms.{term_of};
ghost use Rattle.nim_tree.specs.Types.{written_of, arguments_of, fields_of, named, array, tuple_of};
ghost use Rattle.nim_types.specs.Types as type;
ghost use Rattle.nim_types.specs.Types.{Ty, Key, Facts};
ghost use Rattle.nim_types.specs.Table.{type_at, types_at, AllBelow};
ghost use Rattle.expr_rules.specs.Demands.{former_of};
ghost use Rattle.expr_rules.specs.Names.{named_type, formed_by, array_by, length_limit};
ghost use Rattle.expr_parts.specs.View.{env_of, former_in};
ghost use Rattle.expr_parts.specs.ViewReady.{IsReady};
ghost use Rattle.decl_rules.specs.Written.{spelled, all_spelled, named_by, parts_spelled};
ghost use Rattle.decl_rules.specs.Written.{array_rule};
ghost use Rattle.decl_sections.specs.ViewSpelled.{Spells, Adds, AddsIn, AddsAnywhere, one_in, IsNode};
ghost use Rattle.decl_sections.specs.ViewSpelled.{given_in, all_given};
ghost use Rattle.decl_sections.specs.ViewSpelled.{AreNodes, named_with};
ghost use Rattle.decl_types.specs.ViewNodes.{names_env_of, node_type};
ghost use Rattle.decl_types.specs.ViewNodes.{node_formed};
ghost use Rattle.decl_types.specs.declared.nodes.Names.{Names};
ghost use Rattle.decl_types.specs.ViewNodes.{number_in};
ghost use Rattle.decl_types.specs.ViewKnown.{MadeBelow, NodeIn};
ghost use Rattle.expr_parts.specs.ViewDecls.{last_of};
ghost use Rattle.decl_sections.specs.ViewSpelled.{parts_in, all_parted, part_count, ArePartNodes};
ghost use Rattle.decl_sections.specs.ViewSpelled.{Outer};

use arc_base::{Code, Items, Place, Stop};
use decl_types::nodes::{Names, Node, add};
use decl_written::lengths::length_value;
use decl_written::parts::{Parts, new_names, push_all};
use expr_constants::constant_rules::length_limit;
use expr_parts::names::{Former, check_callee, former_of, named_type};
use expr_parts::scope::Scope;
use expr_parts::value::refusal;
use indent_scanner::normal_form;
use nim_tree::{Expr, Field, TypeTree};
use nim_types::TypeTable;
use std::alloc::Global;
use std::collections::HashSet;

// ---- what names and arrays stand for

// A type that no name of the section means.
fn outer_node(alloc: Global, scope: &Scope, at: Place, text: &[u8]) -> Result<Node, Stop>
    ensures answers { (ts : List Ty) (facts : Facts) (keys : List Key) (done : List Ty)
        → Answers (node_type ts keys done) (named_type (env_of ts facts scope.now) at text.now)
        result }
    ensures formed { IfOk result (λ node. (ty : Ty) → node_formed node ty ≡ []) }
    ensures sound { (n m : ℕ) (names : Names) → Outer n m names scope.now.decls → number_in names
        (last_of scope.now.decls (normal text.now) (length scope.now.decls)) ≡ None
        → IfOk result (NodeIn n m) }
    ensures made { IfOk result (λ node. (n : ℕ) → MadeBelow n node) }
{
    match named_type(alloc, scope, at, text) {
        Ok(id) => Ok(Node::Known(id)),
        Err(stop) => Err(stop),
    }
}

// What a name alone stands for: a type of the section, or another one.
fn name_node(
    alloc: Global,
    scope: &Scope,
    names: &Names,
    at: Place,
    text: &[u8],
    name: &[u8],
) -> Result<Node, Stop>
    requires { name.now ≡ normal text.now }
    ensures answers { (ts : List Ty) (before : Facts) (keys : List Key) (done : List Ty)
        → Answers (node_type ts keys done) (named_type
        (names_env_of ts before keys names.now scope.now) at text.now) result }
    ensures formed { IfOk result (λ node. (ty : Ty) → node_formed node ty ≡ []) }
    ensures sound { (n m : ℕ) → Outer n m names.now scope.now.decls → IfOk result (NodeIn n m) }
    ensures made { IfOk result (λ node. (n : ℕ) → MadeBelow n node) }
{
    match names.number_of(scope, name) {
        Some(number) => Ok(Node::Named(number)),
        None => outer_node(alloc, scope, at, text),
    }
}

fn sequence_node(at: Place, former: Former, given: &[u32]) -> Result<Node, Stop>
    ensures answers { (ts : List Ty) (keys : List Key) (done : List Ty)
        → Answers (node_type ts keys done) (formed_by at (former_in former)
        (map (type_at done) given.now)) result }
    ensures formed { IfOk result (λ node. (ty : Ty) → node_formed node ty ≡ []) }
    ensures sound { (n m : ℕ) → IfOk result (NodeIn n m) }
    ensures made { IfOk result (λ node. (n : ℕ) → AllBelow n given.now → MadeBelow n node) }
{
    match (former, given) {
        (Former::Sequences, [of]) => Ok(Node::Sequence(*of)),
        _ => Err(refusal(Code::NotTyped, at)),
    }
}

// What a name with these types in brackets stands for.
fn named_node(
    alloc: Global,
    scope: &Scope,
    names: &Names,
    at: Place,
    text: &[u8],
    given: &[u32],
) -> Result<Node, Stop>
    ensures answers { (ts : List Ty) (before : Facts) (keys : List Key) (done : List Ty)
        → Answers (node_type ts keys done) (named_with
        (names_env_of ts before keys names.now scope.now) at text.now
        (map (type_at done) given.now)) result }
    ensures formed { IfOk result (λ node. (ty : Ty) → node_formed node ty ≡ []) }
    ensures sound { (n m : ℕ) → Outer n m names.now scope.now.decls → IfOk result (NodeIn n m) }
    ensures made { IfOk result (λ node. (n : ℕ) → AllBelow n given.now → MadeBelow n node) }
{
    let name = normal_form(alloc, text)?;
    if given.is_empty() {
        name_node(alloc, scope, names, at, text, name.as_slice())
    } else {
        sequence_node(at, former_of(scope, name.as_slice()), given)
    }
}

fn limited_node(at: Place, len: i32, of: u32) -> Result<Node, Stop>
    ensures answers { (ts : List Ty) (keys : List Key) (done : List Ty)
        → Answers (node_type ts keys done) (and_then (length_limit at len)
        (λ n. Ok (type.array n (type_at done of)))) result }
    ensures formed { IfOk result (λ node. (ty : Ty)
        → node_formed node ty ≡ record { at = at; of = ty } ∷ []) }
    ensures sound { (n m : ℕ) → IfOk result (NodeIn n m) }
    ensures made { IfOk result (λ node. (n : ℕ) → of < n → MadeBelow n node) }
{
    match length_limit(at, len) {
        Ok(len) => Ok(Node::Array { at, len, of }),
        Err(stop) => Err(stop),
    }
}

// An array, where the name makes arrays.
fn array_node(at: Place, former: Former, len: i32, of: u32) -> Result<Node, Stop>
    ensures answers { (ts : List Ty) (keys : List Key) (done : List Ty)
        → Answers (node_type ts keys done) (array_by at (former_in former) len (type_at done of))
        result }
    ensures formed { IfOk result (λ node. (ty : Ty)
        → node_formed node ty ≡ record { at = at; of = ty } ∷ []) }
    ensures sound { (n m : ℕ) → IfOk result (NodeIn n m) }
    ensures made { IfOk result (λ node. (n : ℕ) → of < n → MadeBelow n node) }
{
    match former {
        Former::Arrays => limited_node(at, len, of),
        Former::Sequences | Former::Nothing => Err(refusal(Code::NotTyped, at)),
    }
}

// ---- nodes that are added

fn add_named(
    alloc: Global,
    scope: &Scope,
    names: &Names,
    out: &mut Vec<Node>,
    at: Place,
    text: &[u8],
    given: &[u32],
) -> Result<u32, Stop>
    requires { AllBelow (length out.old.items) given.now }
    ensures { Adds out.old.items out.new.items scope.now names.now (λ env done.
        named_with env at text.now (map (type_at done) given.now)) (λ _. []) result }
{
    match named_node(alloc, scope, names, at, text, given) {
        Ok(node) => add(out, node),
        Err(stop) => Err(stop),
    }
}

fn add_array(scope: &Scope, out: &mut Vec<Node>, at: Place, len: i32, of: u32) -> Result<u32, Stop>
    requires { of < length out.old.items }
    ensures { AddsIn out.old.items out.new.items scope.now (λ env done.
        array_by at (former_of env (codes "array")) len (type_at done of))
        (λ ty. record { at = at; of = ty } ∷ []) result }
{
    match array_node(at, former_of(scope, b"array"), len, of) {
        Ok(node) => add(out, node),
        Err(stop) => Err(stop),
    }
}

fn add_tuple(out: &mut Vec<Node>, at: Place, parts: Parts) -> Result<u32, Stop>
    requires { AllBelow (length out.old.items) parts.types }
    ensures { AddsAnywhere out.old.items out.new.items (λ _ done.
        Ok (type.tuple parts.names (types_at done parts.types)))
        (λ ty. record { at = at; of = ty } ∷ []) result }
{
    let node = Node::Tuple {
        at,
        names: parts.names,
        parts: parts.types,
    };
    add(out, node)
}

// ---- written types

/// The node of a type that is written in a section, behind those that stand there.
#[cycle(spelled)]
pub fn spelled(
    alloc: Global,
    types: &mut TypeTable,
    scope: &Scope,
    names: &Names,
    out: &mut Vec<Node>,
    tree: &TypeTree,
) -> Result<u32, Stop>
    requires ready { IsReady types.old scope.now }
    ensures { Spells types.old types.new out.old.items out.new.items scope.now names.now one_in
        (λ sizing env. spelled sizing env (written_of tree.now)) IsNode result }
{
    match tree {
        TypeTree::Named { at, text, .. } => named(
            alloc,
            types,
            scope,
            names,
            out,
            *at,
            text.as_slice(),
            tree.arguments(),
        ),
        TypeTree::Array {
            at,
            length,
            element,
        } => array(alloc, types, scope, names, out, *at, length, element),
        TypeTree::Ref { at, .. } => Err(refusal(Code::LeftOut, *at)),
        TypeTree::Tuple { at, .. } => tuple(alloc, types, scope, names, out, *at, tree.fields()),
    }
}

#[cycle(spelled)]
fn named(
    alloc: Global,
    types: &mut TypeTable,
    scope: &Scope,
    names: &Names,
    out: &mut Vec<Node>,
    at: Place,
    text: &[u8],
    arguments: &[TypeTree],
) -> Result<u32, Stop>
    requires ready { IsReady types.old scope.now }
    ensures { Spells types.old types.new out.old.items out.new.items scope.now names.now one_in
        (λ sizing env. spelled sizing env (named at text.now (arguments_of arguments.now)))
        IsNode result }
{
    let name = normal_form(alloc, text)?;
    match check_callee(scope, at, name.as_slice()) {
        Ok(()) => applied(alloc, types, scope, names, out, at, text, arguments),
        Err(stop) => Err(stop),
    }
}

// A name that has a meaning, with arguments.
#[cycle(spelled)]
fn applied(
    alloc: Global,
    types: &mut TypeTable,
    scope: &Scope,
    names: &Names,
    out: &mut Vec<Node>,
    at: Place,
    text: &[u8],
    arguments: &[TypeTree],
) -> Result<u32, Stop>
    requires ready { IsReady types.old scope.now }
    ensures { Spells types.old types.new out.old.items out.new.items scope.now names.now one_in
        (λ sizing env. and_then (all_spelled sizing env (arguments_of arguments.now))
        (named_by env at text.now)) IsNode result }
{
    match given(alloc, types, scope, names, out, arguments) {
        Ok(given) => add_named(alloc, scope, names, out, at, text, given.as_slice()),
        Err(stop) => Err(stop),
    }
}

#[cycle(spelled)]
fn given(
    alloc: Global,
    types: &mut TypeTable,
    scope: &Scope,
    names: &Names,
    out: &mut Vec<Node>,
    arguments: &[TypeTree],
) -> Result<Vec<u32>, Stop>
    requires ready { IsReady types.old scope.now }
    ensures { Spells types.old types.new out.old.items out.new.items scope.now names.now given_in
        (λ sizing env. all_given (all_spelled sizing env (arguments_of arguments.now)))
        AreNodes result }
{
    let mut nodes = Vec::new(alloc);
    for argument in arguments {
        match spelled(alloc, types, scope, names, out, argument) {
            Ok(node) => nodes.push(node)?,
            Err(stop) => return Err(stop),
        }
    }
    Ok(nodes)
}

#[cycle(spelled)]
fn array(
    alloc: Global,
    types: &mut TypeTable,
    scope: &Scope,
    names: &Names,
    out: &mut Vec<Node>,
    at: Place,
    count: &Expr,
    element: &TypeTree,
) -> Result<u32, Stop>
    requires ready { IsReady types.old scope.now }
    ensures { Spells types.old types.new out.old.items out.new.items scope.now names.now one_in
        (λ sizing env. spelled sizing env (array at (term_of count.now)
        (written_of element.now))) IsNode result }
{
    match length_value(alloc, types, scope, count) {
        Ok(len) => array_of(alloc, types, scope, names, out, at, len, element),
        Err(stop) => Err(stop),
    }
}

#[cycle(spelled)]
fn array_of(
    alloc: Global,
    types: &mut TypeTable,
    scope: &Scope,
    names: &Names,
    out: &mut Vec<Node>,
    at: Place,
    len: i32,
    element: &TypeTree,
) -> Result<u32, Stop>
    requires ready { IsReady types.old scope.now }
    ensures { Spells types.old types.new out.old.items out.new.items scope.now names.now one_in
        (λ sizing env. and_then (spelled sizing env (written_of element.now))
        (array_rule sizing env at len)) IsNode result }
{
    match spelled(alloc, types, scope, names, out, element) {
        Ok(of) => add_array(scope, out, at, len, of),
        Err(stop) => Err(stop),
    }
}

#[cycle(spelled)]
fn tuple(
    alloc: Global,
    types: &mut TypeTable,
    scope: &Scope,
    names: &Names,
    out: &mut Vec<Node>,
    at: Place,
    fields: &[Field],
) -> Result<u32, Stop>
    requires ready { IsReady types.old scope.now }
    ensures { Spells types.old types.new out.old.items out.new.items scope.now names.now one_in
        (λ sizing env. spelled sizing env (tuple_of at (fields_of fields.now))) IsNode result }
{
    match parts(alloc, types, scope, names, out, fields) {
        Ok(parts) => add_tuple(out, at, parts),
        Err(stop) => Err(stop),
    }
}

/// The parts of a tuple, or the fields of an object: their names in normal form, and the nodes of
/// their types.
#[cycle(spelled)]
pub fn parts(
    alloc: Global,
    types: &mut TypeTable,
    scope: &Scope,
    names: &Names,
    out: &mut Vec<Node>,
    fields: &[Field],
) -> Result<Parts, Stop>
    requires ready { IsReady types.old scope.now }
    ensures { Spells types.old types.new out.old.items out.new.items scope.now names.now parts_in
        (λ sizing env. all_parted (parts_spelled sizing env [] (fields_of fields.now)))
        (ArePartNodes (part_count (fields_of fields.now))) result }
{
    let mut seen = HashSet::new(alloc);
    let mut parts = Parts {
        names: Items::new(alloc),
        types: Items::new(alloc),
    };
    for field in fields {
        match new_names(alloc, &mut seen, &mut parts.names, field.names.as_slice()) {
            Ok(()) => {}
            Err(stop) => return Err(stop),
        }
        match spelled(alloc, types, scope, names, out, &field.of) {
            Ok(node) => push_all(&mut parts.types, node, field.names.as_slice())?,
            Err(stop) => return Err(stop),
        }
    }
    Ok(parts)
}
