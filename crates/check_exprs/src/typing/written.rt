// Written types.
ghost use Rattle.std.specs.Prelude.{◌≡◌, ◌&&◌, ℕ, List, length, false};
ghost use Rattle.arc_base.specs.declared.place.Code.TheVariants.{NotTyped};
ghost use Rattle.arc_base.specs.declared.place.Stop.TheVariants as Stop;
ghost use Rattle.arc_base.specs.declared.place.Place.{Place};
ghost use Rattle.nim_tree.specs.Terms.{term_of, parts_of, part, no_parts, place_of, Parts};
ghost use Rattle.nim_tree.specs.Terms as term;
ghost use Rattle.indent_scanner.specs.Words.{normal};
ghost use Rattle.expr_rules.specs.Names.{is_array};
ghost use Rattle.expr_rules.specs.Typed.{is_pair, is_type_term};
ghost use Rattle.expr_parts.specs.ViewReady.{IsReady};
ghost use Rattle.check_exprs.specs.ViewTyped.{TypeSo, TypesSo, ArraySo};

use crate::typing::typed;
use arc_base::{Code, Place, Stop};
use expr_builds::written::{array_type, formed_type};
use expr_parts::names::{check_callee, is_array, named_type};
use expr_parts::scope::Scope;
use expr_parts::value::{Want, refusal};
use expr_steps::given::length_from;
use indent_scanner::normal_form;
use nim_tree::Expr as Tree;
use nim_types::{TypeId, TypeTable};
use std::alloc::Global;

// The refusal of what spells no type.
fn no_type(tree: &Tree) -> Stop
    requires { is_type_term (term_of tree.now) ≡ false }
    ensures none { is_type_term (term_of tree.now) ≡ false }
    ensures stop { result ≡ Stop.Refused NotTyped (place_of (term_of tree.now)) }
{
    refusal(Code::NotTyped, tree.place())
}

// The refusal of what is no name before types in brackets.
fn no_former(at: Place, base: &Tree) -> Stop
    requires { (given : Parts) → is_type_term (term.index at (term_of base.now) given) ≡ false }
    ensures none { (given : Parts)
        → is_type_term (term.index at (term_of base.now) given) ≡ false }
    ensures stop { result ≡ Stop.Refused NotTyped at }
{
    refusal(Code::NotTyped, at)
}

/// The type that a tree spells.
#[cycle(typing)]
pub(crate) fn read_type(
    alloc: Global,
    types: &mut TypeTable,
    scope: &Scope,
    tree: &Tree,
) -> Result<TypeId, Stop>
    requires ready { IsReady types.old scope.now }
    ensures { TypeSo types.old types.new scope.now (term_of tree.now) result }
{
    match tree {
        Tree::Paren { inner, .. } => read_type(alloc, types, scope, inner),
        Tree::Name { at, text } => named_type(alloc, scope, *at, text.as_slice()),
        Tree::Index { at, base, parts } => bracket_type(alloc, types, scope, *at, base, parts),
        other => Err(no_type(other)),
    }
}

#[cycle(typing)]
fn bracket_type(
    alloc: Global,
    types: &mut TypeTable,
    scope: &Scope,
    at: Place,
    base: &Tree,
    given: &[Tree],
) -> Result<TypeId, Stop>
    requires ready { IsReady types.old scope.now }
    ensures { TypeSo types.old types.new scope.now
        (term.index at (term_of base.now) (parts_of given.now)) result }
{
    match base {
        Tree::Name { at: place, text } => {
            formed(alloc, types, scope, at, *place, text.as_slice(), given)
        }
        _ => Err(no_former(at, base)),
    }
}

#[cycle(typing)]
pub(crate) fn formed(
    alloc: Global,
    types: &mut TypeTable,
    scope: &Scope,
    at: Place,
    place: Place,
    text: &[u8],
    given: &[Tree],
) -> Result<TypeId, Stop>
    requires ready { IsReady types.old scope.now }
    ensures { TypeSo types.old types.new scope.now
        (term.index at (term.name place text.now) (parts_of given.now)) result }
{
    let name = normal_form(alloc, text)?;
    let word = name.as_slice();
    check_callee(scope, place, word)?;
    if is_array_type(word, given) {
        return read_array(alloc, types, scope, at, given);
    }
    let ids = read_types(alloc, types, scope, given)?;
    formed_type(alloc, types, scope, at, text, ids)
}

// A length and an element.
fn is_pair(given: &[Tree]) -> bool
    ensures { is_pair (parts_of given.now) ≡ result }
{
    given.len() == 2
}

// Whether a name, in normal form, is that of arrays, with a length and an element.
fn is_array_type(name: &[u8], given: &[Tree]) -> bool
    ensures { (text : List ℕ) → normal text ≡ name.now
        → is_array text && is_pair (parts_of given.now) ≡ result }
{
    if !is_array(name) {
        return false;
    }
    is_pair(given)
}

// The array type of a length and an element.
#[cycle(typing)]
fn read_array(
    alloc: Global,
    types: &mut TypeTable,
    scope: &Scope,
    at: Place,
    given: &[Tree],
) -> Result<TypeId, Stop>
    requires ready { IsReady types.old scope.now }
    ensures { ArraySo types.old types.new scope.now at (parts_of given.now) result }
{
    match given {
        [len, of] => array_of(alloc, types, scope, at, len, of),
        _ => Err(refusal(Code::NotTyped, at)),
    }
}

#[cycle(typing)]
fn array_of(
    alloc: Global,
    types: &mut TypeTable,
    scope: &Scope,
    at: Place,
    len: &Tree,
    of: &Tree,
) -> Result<TypeId, Stop>
    requires ready { IsReady types.old scope.now }
    ensures { ArraySo types.old types.new scope.now at
        (part (term_of len.now) (part (term_of of.now) no_parts)) result }
{
    let typed = typed(alloc, types, scope, Want::Nothing, 0, len)?;
    let len = length_from(alloc, types, typed)?;
    let of = read_type(alloc, types, scope, of)?;
    array_type(types, scope, at, len, of)
}

#[cycle(typing)]
fn read_types(
    alloc: Global,
    types: &mut TypeTable,
    scope: &Scope,
    given: &[Tree],
) -> Result<Vec<TypeId>, Stop>
    requires ready { IsReady types.old scope.now }
    ensures { TypesSo types.old types.new scope.now (parts_of given.now) result }
{
    let mut ids = Vec::new(alloc);
    for part in given {
        let id = read_type(alloc, types, scope, part)?;
        ids.push(id)?;
    }
    Ok(ids)
}
