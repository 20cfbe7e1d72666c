// Calls of procedures by name.
ghost use Rattle.std.specs.Prelude.{◌≡◌, List, length, map, slice_get, true, Some, IfOk};
ghost use Rattle.std.specs.Option.{option_copied};
ghost use Rattle.arc_base.specs.Refusal.{Answers};
ghost use Rattle.nim_types.specs.Types.{Ty, Facts};
ghost use Rattle.nim_types.specs.Table.{IsBelow};
ghost use Rattle.nim_program.specs.View.{expr_of};
ghost use Rattle.nim_program.specs.Program.{Expr as CoreExpr};
ghost use Rattle.expr_rules.specs.Answers.{Answer, Valued, not_typed};
ghost use Rattle.expr_rules.specs.Calls.{Fit, arguments_for, called, fitting, one_of};
ghost use Rattle.expr_rules.specs.Env.{Parameter as Passed, callable, known_as};
ghost use Rattle.expr_parts.specs.declared.scope.What.TheVariants as What;
ghost use Rattle.expr_parts.specs.declared.scope.Procedure.{Procedure};
ghost use Rattle.expr_parts.specs.View.{Under, KindsIn, OperandsWithin, WhatWithin};
ghost use Rattle.expr_parts.specs.View.{ParametersWithin, operand_of, procedure_of, fit};
ghost use Rattle.expr_parts.specs.View.{number_of, env_of, Chooses, IsChosen, ChosenFits};
ghost use Rattle.expr_parts.specs.View.{do_fit, WhatFits, DeclFits};
ghost use Rattle.expr_parts.specs.ViewReady.{IsReady};

use crate::calls_borrowed::call_borrowed;
use arc_base::{Code, Place, Stop};
use expr_parts::calls::{Chosen, call_procedure, choose};
use expr_parts::scope::{Decl, Kinds, Procedure, Scope, What};
use expr_parts::value::{Operand, refusal};
use nim_program::Expr;
use nim_types::TypeTable;
use std::alloc::Global;

/// The declaration that a call of a name, in normal form, means.
pub fn chosen(types: &TypeTable, scope: &Scope, name: &[u8], operands: &[Operand]) -> Chosen
    requires ready { IsReady types.now scope.now }
    requires operands { OperandsWithin (length types.now) operands.now }
    ensures means { (ts : List Ty) (facts : Facts) → Under types.now ts facts
        → Chooses ts scope.now.decls (map (operand_of ts) operands.now) result
        (fitting (callable (known_as (env_of ts facts scope.now) name.now))
        (map (operand_of ts) operands.now)) }
    ensures fits { ChosenFits types.now scope.now.decls operands.now result }
{
    choose(types, &scope.decls, name, operands)
}

// The call of a procedure that the operands fit.
fn call_fitting(
    alloc: Global,
    types: &TypeTable,
    kinds: Kinds,
    number: u32,
    at: Place,
    name: &[u8],
    callee: &Procedure,
    operands: Vec<Operand>,
) -> Result<Expr, Stop>
    requires kinds { KindsIn types.now kinds }
    requires gives { IsBelow (length types.now) callee.now.gives }
    requires params { ParametersWithin (length types.now) callee.now.params }
    requires operands { OperandsWithin (length types.now) operands.items }
    requires fits { do_fit types.now callee.now.params operands.items ≡ true }
    ensures answers { (ts : List Ty) (facts : Facts) → Under types.now ts facts
        → (given : List (Passed × Valued))
        → arguments_for (procedure_of ts callee.now).params (map (operand_of ts) operands.items)
        ≡ Some given → Answers (expr_of ts) (called number at callee.now.borrowed name.now
        (fit (procedure_of ts callee.now) given)) result }
    ensures within { IfOk result (λ e. IsBelow (length types.now) (number_of e)) }
{
    if callee.borrowed {
        return call_borrowed(alloc, types, kinds, number, at, name, callee, operands);
    }
    call_procedure(alloc, types, number, at, callee, operands)
}

// The call of what is declared, a procedure that the operands fit.
fn call_declared(
    alloc: Global,
    types: &TypeTable,
    kinds: Kinds,
    number: u32,
    at: Place,
    name: &[u8],
    what: &What,
    operands: Vec<Operand>,
) -> Result<Expr, Stop>
    requires kinds { KindsIn types.now kinds }
    requires what { WhatWithin (length types.now) what.now }
    requires operands { OperandsWithin (length types.now) operands.items }
    requires fits { WhatFits types.now operands.items what.now }
    ensures answers { (ts : List Ty) (facts : Facts) → Under types.now ts facts
        → (callee : Procedure) (given : List (Passed × Valued))
        → what.now ≡ What.Procedure callee
        → arguments_for (procedure_of ts callee).params (map (operand_of ts) operands.items)
        ≡ Some given → Answers (expr_of ts) (called number at callee.borrowed name.now
        (fit (procedure_of ts callee) given)) result }
    ensures within { IfOk result (λ e. IsBelow (length types.now) (number_of e)) }
{
    match what {
        What::Procedure(callee) => {
            call_fitting(alloc, types, kinds, number, at, name, callee, operands)
        }
        _ => unreachable!(),
    }
}

fn decl_at(decls: &[Decl], i: usize) -> Option<&Decl>
    ensures { option_copied result ≡ slice_get decls.now i }
{
    decls.get(i)
}

/// The call of the only procedure that fits, by the number of its declaration.
pub fn call_at(
    alloc: Global,
    types: &TypeTable,
    scope: &Scope,
    number: u32,
    at: Place,
    name: &[u8],
    i: usize,
    operands: Vec<Operand>,
) -> Result<Expr, Stop>
    requires ready { IsReady types.now scope.now }
    requires operands { OperandsWithin (length types.now) operands.items }
    requires fits { DeclFits types.now operands.items (slice_get scope.now.decls i) }
    ensures answers { (ts : List Ty) (facts : Facts) → Under types.now ts facts
        → (all : List Fit) (otherwise : Answer CoreExpr)
        → IsChosen ts scope.now.decls (map (operand_of ts) operands.items) i all
        → Answers (expr_of ts) (one_of number at name.now all otherwise) result }
    ensures within { IfOk result (λ e. IsBelow (length types.now) (number_of e)) }
{
    match decl_at(scope.decls.as_slice(), i) {
        Some(decl) => call_declared(
            alloc,
            types,
            scope.kinds,
            number,
            at,
            name,
            &decl.what,
            operands,
        ),
        None => unreachable!(),
    }
}

/// The call of the procedure of a name, in normal form, that fits; where none does, no rule fits.
pub fn one_fitting(
    alloc: Global,
    types: &TypeTable,
    scope: &Scope,
    number: u32,
    at: Place,
    name: &[u8],
    operands: Vec<Operand>,
) -> Result<Expr, Stop>
    requires ready { IsReady types.now scope.now }
    requires operands { OperandsWithin (length types.now) operands.items }
    ensures answers { (ts : List Ty) (facts : Facts) → Under types.now ts facts
        → Answers (expr_of ts) (one_of number at name.now
        (fitting (callable (known_as (env_of ts facts scope.now) name.now))
        (map (operand_of ts) operands.items)) (not_typed at)) result }
    ensures within { IfOk result (λ e. IsBelow (length types.now) (number_of e)) }
{
    match chosen(types, scope, name, operands.as_slice()) {
        Chosen::Nothing => Err(refusal(Code::NotTyped, at)),
        Chosen::One(i) => call_at(alloc, types, scope, number, at, name, i, operands),
        Chosen::Several => Err(refusal(Code::Ambiguous, at)),
    }
}
