// Expressions of statements, under what is known there.
ghost use Rattle.std.specs.Prelude.{◌<◌, suc, length};
ghost use Rattle.nim_tree.specs.Terms as term;
ghost use Rattle.nim_tree.specs.Terms.{term_of, parts_of, part};
ghost use Rattle.nim_types.specs.Table.{type_at, IsBelow};
ghost use Rattle.nim_program.specs.View.{if_type};
ghost use Rattle.expr_rules.specs.Typed.{typed};
ghost use Rattle.expr_parts.specs.View.{typed_of, want_of};
ghost use Rattle.expr_parts.specs.ViewReady.{WantWithin};
ghost use Rattle.decl_rules.specs.Definitions.{definition_value};
ghost use Rattle.decl_rules.specs.Values.{valued_term, value_as, condition};
ghost use Rattle.decl_written.specs.ViewWritten.{numbered_of};
ghost use Rattle.decl_parts.specs.View.{Ready, Typing, TypedWithin};
ghost use Rattle.decl_parts.specs.View.{NumberedWithin};

use crate::state::{State, after};
use crate::values::{is_annotated, numbered_if, result_want};
use arc_base::{Code, Place, Stop};
use check_exprs::public::{type_call, type_expr};
use decl_written::values::{Numbered, valued_term};
use expr_parts::kinds::is_same;
use expr_parts::value::{Typed, Want, refusal};
use nim_tree::Expr as Tree;
use nim_types::TypeId;
use std::alloc::Global;

/// The typed node of the expression of a statement, which comes behind the statement's node.
pub fn type_first(alloc: Global, state: &mut State, want: Want, tree: &Tree) -> Result<Typed, Stop>
    requires ready { Ready state.old }
    requires want { WantWithin (length state.old.types) want }
    ensures { Typing state.old state.new typed_of (λ ts env. typed env (want_of ts want)
        (suc state.old.node) (term_of tree.now)) TypedWithin result }
{
    let first = after(state.node)?;
    type_expr(alloc, &mut state.types, &state.scope, want, first, tree)
}

/// The typed node of a command, which is a call.
pub fn type_command(
    alloc: Global,
    state: &mut State,
    want: Want,
    at: Place,
    callee: &Tree,
    operands: &[Tree],
) -> Result<Typed, Stop>
    requires ready { Ready state.old }
    requires want { WantWithin (length state.old.types) want }
    ensures { Typing state.old state.new typed_of (λ ts env. typed env (want_of ts want)
        (suc state.old.node) (term.call at (term_of callee.now) (parts_of operands.now)))
        TypedWithin result }
{
    let first = after(state.node)?;
    type_call(
        alloc,
        &mut state.types,
        &state.scope,
        want,
        first,
        at,
        callee,
        operands,
    )
}

/// A value, the first number of whose nodes is given.
pub fn value_at(
    alloc: Global,
    state: &mut State,
    want: Want,
    first: u32,
    tree: &Tree,
) -> Result<Numbered, Stop>
    requires ready { Ready state.old }
    requires want { WantWithin (length state.old.types) want }
    ensures { Typing state.old state.new numbered_of (λ ts env. valued_term env
        (want_of ts want) first (term_of tree.now)) NumberedWithin result }
{
    valued_term(alloc, &mut state.types, &state.scope, want, first, tree)
}

/// A value of a statement, which comes behind the statement's node.
pub fn value_first(
    alloc: Global,
    state: &mut State,
    want: Want,
    tree: &Tree,
) -> Result<Numbered, Stop>
    requires ready { Ready state.old }
    requires want { WantWithin (length state.old.types) want }
    ensures { Typing state.old state.new numbered_of (λ ts env. valued_term env
        (want_of ts want) (suc state.old.node) (term_of tree.now)) NumberedWithin result }
{
    let first = after(state.node)?;
    value_at(alloc, state, want, first, tree)
}

/// A value of a type, the first number of whose nodes is given.
pub fn value_as_at(
    alloc: Global,
    state: &mut State,
    ty: TypeId,
    first: u32,
    tree: &Tree,
) -> Result<Numbered, Stop>
    requires ready { Ready state.old }
    requires ty { ty < length state.old.types }
    ensures { Typing state.old state.new numbered_of (λ ts env. value_as env (type_at ts ty)
        first (term_of tree.now)) NumberedWithin result }
{
    match value_at(alloc, state, Want::Inner(ty), first, tree) {
        Ok(given) => numbered_if(is_same(&state.types, ty, given.value.ty), given),
        Err(stop) => Err(stop),
    }
}

/// A value of a type, which comes behind the node of its statement.
pub fn value_as_first(
    alloc: Global,
    state: &mut State,
    ty: TypeId,
    tree: &Tree,
) -> Result<Numbered, Stop>
    requires ready { Ready state.old }
    requires ty { ty < length state.old.types }
    ensures { Typing state.old state.new numbered_of (λ ts env. value_as env (type_at ts ty)
        (suc state.old.node) (term_of tree.now)) NumberedWithin result }
{
    let first = after(state.node)?;
    value_as_at(alloc, state, ty, first, tree)
}

/// The value of a definition, with the type that is written, the first number of whose nodes is
/// given.
pub fn definition_value(
    alloc: Global,
    state: &mut State,
    ty: Option<TypeId>,
    first: u32,
    tree: &Tree,
) -> Result<Numbered, Stop>
    requires ready { Ready state.old }
    requires ty { IsBelow (length state.old.types) ty }
    ensures { Typing state.old state.new numbered_of (λ ts env. definition_value env
        (if_type ts ty) first (term_of tree.now)) NumberedWithin result }
{
    match value_at(alloc, state, result_want(ty), first, tree) {
        Ok(given) => numbered_if(is_annotated(&state.types, ty, given.value.ty), given),
        Err(stop) => Err(stop),
    }
}

/// The value of a definition, which comes behind its node.
pub fn definition_first(
    alloc: Global,
    state: &mut State,
    ty: Option<TypeId>,
    tree: &Tree,
) -> Result<Numbered, Stop>
    requires ready { Ready state.old }
    requires ty { IsBelow (length state.old.types) ty }
    ensures { Typing state.old state.new numbered_of (λ ts env. definition_value env
        (if_type ts ty) (suc state.old.node) (term_of tree.now)) NumberedWithin result }
{
    let first = after(state.node)?;
    definition_value(alloc, state, ty, first, tree)
}

// A condition with further tests.
fn condition_of(
    alloc: Global,
    state: &mut State,
    at: Place,
    test: &Tree,
    more: &[Tree],
) -> Result<Numbered, Stop>
    requires ready { Ready state.old }
    ensures { Typing state.old state.new numbered_of (λ ts env. condition env state.old.node at
        (part (term_of test.now) (parts_of more.now))) NumberedWithin result }
{
    let bools = state.scope.kinds.bool;
    let first = state.node;
    match more.split_first() {
        Some((_other, _rest)) => Err(refusal(Code::NotTyped, at)),
        None => value_as_at(alloc, state, bools, first, test),
    }
}

/// A condition, which is one test. The first number of its nodes is the next one.
pub fn condition_at(
    alloc: Global,
    state: &mut State,
    at: Place,
    tests: &[Tree],
) -> Result<Numbered, Stop>
    requires ready { Ready state.old }
    ensures { Typing state.old state.new numbered_of (λ ts env. condition env state.old.node at
        (parts_of tests.now)) NumberedWithin result }
{
    match tests.split_first() {
        Some((test, more)) => condition_of(alloc, state, at, test, more),
        None => Err(refusal(Code::NotTyped, at)),
    }
}
