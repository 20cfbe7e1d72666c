// Constructions, parts of values, and operators.
ghost use Rattle.std.specs.Prelude.{length};
ghost use Rattle.arc_base.specs.declared.place.Place.{Place};
ghost use Rattle.nim_tree.specs.Terms as term;
ghost use Rattle.nim_tree.specs.Terms.{term_of, parts_of, part, no_parts};
ghost use Rattle.expr_parts.specs.ViewReady.{IsReady, WantWithin};
ghost use Rattle.check_exprs.specs.ViewTyped.{TypedSo, ReadSo};

use crate::typing::operands::operand_at;
use crate::typing::values::{value_at, values};
use arc_base::{Code, Place, Stop};
use expr_builds::plans::plan_for;
use expr_builds::tuples::{array_want, sequence_want, tuple_wants};
use expr_parts::branching::wanted;
use expr_parts::scope::Scope;
use expr_parts::value::{Typed, Want, refusal};
use expr_steps::asks::{Asks, field_types};
use expr_steps::demands::{operator_demand, receiver_demand};
use expr_steps::endings::{
    array_from, binary_from, field_from, index_from, object_from, sequence_from, tuple_from,
    unary_from,
};
use expr_steps::given::behind;
use indent_scanner::normal_form;
use nim_tree::{BinaryOp, Expr as Tree, UnaryOp};
use nim_types::TypeTable;
use std::alloc::Global;

#[cycle(typing)]
pub(crate) fn tuple(
    alloc: Global,
    types: &mut TypeTable,
    scope: &Scope,
    want: Want,
    number: u32,
    at: Place,
    parts: &[Tree],
) -> Result<Typed, Stop>
    requires ready { IsReady types.old scope.now }
    requires want { WantWithin (length types.old) want }
    ensures { TypedSo types.old types.new scope.now want number
        (term.tuple at (parts_of parts.now)) result }
{
    let left = tuple_wants(alloc, types, wanted(want), parts.len())?;
    let first = behind(number)?;
    let given = values(
        alloc,
        types,
        scope,
        Asks::Parts,
        left.as_slice(),
        first,
        parts,
    )?;
    tuple_from(alloc, types, scope, want, number, at, parts, given)
}

#[cycle(typing)]
pub(crate) fn array(
    alloc: Global,
    types: &mut TypeTable,
    scope: &Scope,
    want: Want,
    number: u32,
    at: Place,
    parts: &[Tree],
) -> Result<Typed, Stop>
    requires ready { IsReady types.old scope.now }
    requires want { WantWithin (length types.old) want }
    ensures { TypedSo types.old types.new scope.now want number
        (term.array at (parts_of parts.now)) result }
{
    let asks = Asks::Elements(array_want(types, wanted(want)), None);
    let first = behind(number)?;
    let given = values(alloc, types, scope, asks, &[], first, parts)?;
    array_from(alloc, types, scope, number, at, given)
}

#[cycle(typing)]
pub(crate) fn sequence(
    alloc: Global,
    types: &mut TypeTable,
    scope: &Scope,
    want: Want,
    number: u32,
    at: Place,
    parts: &[Tree],
) -> Result<Typed, Stop>
    requires ready { IsReady types.old scope.now }
    requires want { WantWithin (length types.old) want }
    ensures { TypedSo types.old types.new scope.now want number
        (term.sequence at (parts_of parts.now)) result }
{
    let asks = Asks::Elements(sequence_want(types, wanted(want)), None);
    let first = behind(number)?;
    let given = values(alloc, types, scope, asks, &[], first, parts)?;
    sequence_from(alloc, types, want, number, at, given)
}

/// An object of a type with a name.
#[cycle(typing)]
pub(crate) fn object(
    alloc: Global,
    types: &mut TypeTable,
    scope: &Scope,
    number: u32,
    at: Place,
    text: &[u8],
    parts: &[Tree],
) -> Result<Typed, Stop>
    requires ready { IsReady types.old scope.now }
    ensures { ReadSo types.old types.new scope.now number
        (term.construct at text.now (parts_of parts.now)) result }
{
    let plan = plan_for(alloc, types, scope, at, text, parts)?;
    let left = field_types(alloc, plan.chosen.as_slice())?;
    let first = behind(number)?;
    let given = values(
        alloc,
        types,
        scope,
        Asks::Fields,
        left.as_slice(),
        first,
        parts,
    )?;
    object_from(alloc, types, number, at, plan, given)
}

/// A field, or a call with one operand.
#[cycle(typing)]
pub(crate) fn field(
    alloc: Global,
    types: &mut TypeTable,
    scope: &Scope,
    number: u32,
    at: Place,
    base: &Tree,
    text: &[u8],
) -> Result<Typed, Stop>
    requires ready { IsReady types.old scope.now }
    ensures { ReadSo types.old types.new scope.now number
        (term.field at (term_of base.now) text.now) result }
{
    let name = normal_form(alloc, text)?;
    let word = name.as_slice();
    let demand = receiver_demand(alloc, scope, word, base)?;
    let first = behind(number)?;
    let operand = operand_at(alloc, types, scope, demand, first, base)?;
    field_from(alloc, types, scope, number, at, word, operand)
}

/// An element, or a part of a tuple by its number.
#[cycle(typing)]
pub(crate) fn index(
    alloc: Global,
    types: &mut TypeTable,
    scope: &Scope,
    number: u32,
    at: Place,
    base: &Tree,
    parts: &[Tree],
) -> Result<Typed, Stop>
    requires ready { IsReady types.old scope.now }
    ensures { ReadSo types.old types.new scope.now number
        (term.index at (term_of base.now) (parts_of parts.now)) result }
{
    match parts {
        [part] => element(alloc, types, scope, number, at, base, part),
        _ => Err(refusal(Code::NotTyped, at)),
    }
}

#[cycle(typing)]
fn element(
    alloc: Global,
    types: &mut TypeTable,
    scope: &Scope,
    number: u32,
    at: Place,
    base: &Tree,
    index: &Tree,
) -> Result<Typed, Stop>
    requires ready { IsReady types.old scope.now }
    ensures { ReadSo types.old types.new scope.now number
        (term.index at (term_of base.now) (part (term_of index.now) no_parts)) result }
{
    let first = behind(number)?;
    let value = value_at(alloc, types, scope, Asks::Anything, &[], first, base)?;
    let index = match value_at(alloc, types, scope, Asks::Anything, &[], value.next, index) {
        Ok(index) => index,
        Err(stop) => {
            drop(value);
            return Err(stop);
        }
    };
    index_from(alloc, types, scope, number, at, value, index)
}

#[cycle(typing)]
pub(crate) fn unary(
    alloc: Global,
    types: &mut TypeTable,
    scope: &Scope,
    number: u32,
    at: Place,
    op: UnaryOp,
    operand: &Tree,
) -> Result<Typed, Stop>
    requires ready { IsReady types.old scope.now }
    ensures { ReadSo types.old types.new scope.now number
        (term.unary at op (term_of operand.now)) result }
{
    let first = behind(number)?;
    let value = value_at(alloc, types, scope, Asks::Anything, &[], first, operand)?;
    unary_from(alloc, types, scope, number, at, op, value)
}

#[cycle(typing)]
pub(crate) fn binary(
    alloc: Global,
    types: &mut TypeTable,
    scope: &Scope,
    number: u32,
    at: Place,
    op: BinaryOp,
    left: &Tree,
    right: &Tree,
) -> Result<Typed, Stop>
    requires ready { IsReady types.old scope.now }
    ensures { ReadSo types.old types.new scope.now number
        (term.binary at op (term_of left.now) (term_of right.now)) result }
{
    let demand = operator_demand(op);
    let first = behind(number)?;
    let left = operand_at(alloc, types, scope, demand, first, left)?;
    let right = match operand_at(alloc, types, scope, demand, left.next, right) {
        Ok(right) => right,
        Err(stop) => {
            drop(left);
            return Err(stop);
        }
    };
    binary_from(alloc, types, scope, number, at, op, left, right)
}
