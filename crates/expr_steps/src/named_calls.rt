// Calls by a name: of a procedure that fits, else of a type, else of an operation that is built in.
ghost use Rattle.std.specs.Prelude.{ℕ, List, length, map, Some, IfOk};
ghost use Rattle.arc_base.specs.Refusal.{Answers};
ghost use Rattle.nim_types.specs.Types.{Ty, Facts};
ghost use Rattle.nim_types.specs.Table.{IsBelow};
ghost use Rattle.nim_program.specs.View.{expr_of};
ghost use Rattle.expr_rules.specs.Env.{Known, known_as, known_next};
ghost use Rattle.expr_rules.specs.Names.{call_named, unless_type};
ghost use Rattle.expr_parts.specs.declared.scope.What.TheVariants as What;
ghost use Rattle.expr_parts.specs.View.{Under, OperandsWithin, WhatWithin};
ghost use Rattle.expr_parts.specs.View.{operand_of};
ghost use Rattle.expr_parts.specs.View.{number_of, env_of, entry_by};
ghost use Rattle.expr_parts.specs.View.{DeclsWithin};
ghost use Rattle.expr_steps.specs.ViewCalls.{IsKnownType};
ghost use Rattle.expr_parts.specs.ViewReady.{IsReady};

use arc_base::{Code, Place, Stop};
use expr_calls::calls_by_name::{call_at, chosen};
use expr_operations::built_in_calls::operation_rule;
use expr_parts::calls::Chosen;
use expr_parts::conversions::conversion;
use expr_parts::names::is_default;
use expr_parts::scope::{Scope, What};
use expr_parts::value::{Operand, refusal};
use nim_program::Expr;
use nim_types::{TypeId, TypeTable};
use std::alloc::Global;

fn type_in(what: &What) -> Option<TypeId>
    ensures known { (ts : List Ty) (before : Known) (x : List ℕ)
        → IsKnownType ts (known_next before (entry_by ts x what.now)) result }
    ensures within { (n : ℕ) → WhatWithin n what.now → IsBelow n result }
{
    match what {
        What::Type(id) => Some(*id),
        _ => None,
    }
}

// The type that a name, in normal form, is known as.
fn type_known(scope: &Scope, name: &[u8]) -> Option<TypeId>
    ensures known { (ts : List Ty) (facts : Facts)
        → IsKnownType ts (known_as (env_of ts facts scope.now) name.now) result }
    ensures within { (n : ℕ) → DeclsWithin n scope.now.decls → IsBelow n result }
{
    match scope.find(name) {
        Some(decl) => type_in(&decl.what),
        None => None,
    }
}

// A conversion where the name is that of a type, else an operation that is built in.
fn unless_type(
    alloc: Global,
    types: &TypeTable,
    scope: &Scope,
    number: u32,
    at: Place,
    name: &[u8],
    operands: Vec<Operand>,
) -> Result<Expr, Stop>
    requires ready { IsReady types.now scope.now }
    requires operands { OperandsWithin (length types.now) operands.items }
    ensures answers { (ts : List Ty) (facts : Facts) → Under types.now ts facts
        → Answers (expr_of ts) (unless_type (env_of ts facts scope.now) number at
        (known_as (env_of ts facts scope.now) name.now) name.now
        (map (operand_of ts) operands.items)) result }
    ensures within { IfOk result (λ e. IsBelow (length types.now) (number_of e)) }
{
    match type_known(scope, name) {
        Some(ty) => conversion(alloc, types, scope.kinds.int, number, at, ty, operands),
        None => operation_rule(alloc, types, scope.kinds, number, at, name, operands),
    }
}

/// A call by a name, in normal form, that isn't `echo`.
pub fn call_named(
    alloc: Global,
    types: &TypeTable,
    scope: &Scope,
    number: u32,
    at: Place,
    name: &[u8],
    operands: Vec<Operand>,
) -> Result<Expr, Stop>
    requires ready { IsReady types.now scope.now }
    requires operands { OperandsWithin (length types.now) operands.items }
    ensures answers { (ts : List Ty) (facts : Facts) → Under types.now ts facts
        → Answers (expr_of ts) (call_named (env_of ts facts scope.now) number at name.now
        (map (operand_of ts) operands.items)) result }
    ensures within { IfOk result (λ e. IsBelow (length types.now) (number_of e)) }
{
    if is_default(name) {
        return operation_rule(alloc, types, scope.kinds, number, at, name, operands);
    }
    match chosen(types, scope, name, operands.as_slice()) {
        Chosen::Nothing => unless_type(alloc, types, scope, number, at, name, operands),
        Chosen::One(i) => call_at(alloc, types, scope, number, at, name, i, operands),
        Chosen::Several => Err(refusal(Code::Ambiguous, at)),
    }
}
