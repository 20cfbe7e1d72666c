// Calls of procedures: which one is meant.
ghost use Rattle.std.specs.Prelude.{◌≡◌, ◌<◌, ℕ, List, length, map, is_some, if◌then◌else◌, true, false, Some, IfOk};
ghost use Rattle.nim_types.specs.Types.{Ty, Facts};
ghost use Rattle.arc_base.specs.Refusal.{Answers};
ghost use Rattle.nim_program.specs.View.{expr_of};
ghost use Rattle.expr_rules.specs.Answers.{Valued};
ghost use Rattle.expr_rules.specs.Env.{Parameter as Given};
ghost use Rattle.expr_rules.specs.Calls.{arguments_for, called, fitting};
ghost use Rattle.expr_parts.specs.View.{procedure_of, fit, number_of};
ghost use Rattle.expr_rules.specs.Env.{callable, known_behind, unknown};
ghost use Rattle.expr_parts.specs.View.{Under, OperandsWithin, ParametersWithin};
ghost use Rattle.expr_parts.specs.View.{operand_of, parameter_of, one_more};
ghost use Rattle.expr_parts.specs.View.{DeclsWithin, Chooses, ChosenFits, do_fit, entry_of};

use crate::arguments::arguments;
use crate::decls::Decls;
use crate::nodes::called;
use crate::scope::{Parameter, Procedure};
use crate::settle::settles;
use crate::value::Operand;
use arc_base::{Place, Stop};
use nim_program::Expr;
use nim_types::TypeTable;
use std::alloc::Global;

/// Whether the operands are values of the types of the parameters.
pub fn fits(types: &TypeTable, params: &[Parameter], operands: &[Operand]) -> bool
    requires params { ParametersWithin (length types.now) params.now }
    requires operands { OperandsWithin (length types.now) operands.now }
    ensures means { (ts : List Ty) (facts : Facts) → Under types.now ts facts
        → is_some (arguments_for (map (parameter_of ts) params.now)
        (map (operand_of ts) operands.now)) ≡ result }
    ensures numbers { do_fit types.now params.now operands.now ≡ result }
{
    match (params.split_first(), operands.split_first()) {
        (None, None) => true,
        (Some((param, params)), Some((operand, operands))) => {
            settles(types, param.ty, operand) && fits(types, params, operands)
        }
        _ => false,
    }
}

/// Which declaration a call of a name means.
#[derive(Clone, Copy)]
pub enum Chosen {
    /// No procedure fits.
    Nothing,
    /// The one with this number fits.
    One(usize),
    Several,
}

fn one_more(chosen: Chosen, i: usize, is_fitting: bool) -> Chosen
    ensures { result ≡ if is_fitting then one_more i chosen else chosen }
{
    match (is_fitting, chosen) {
        (true, Chosen::Nothing) => Chosen::One(i),
        (true, _) => Chosen::Several,
        (false, _) => chosen,
    }
}

/// The declaration that a call of a name, in normal form, means: of the procedures that nothing
/// else of the name hides, from the last one on.
pub fn choose(types: &TypeTable, decls: &Decls, name: &[u8], operands: &[Operand]) -> Chosen
    requires decls { DeclsWithin (length types.now) decls.now }
    requires operands { OperandsWithin (length types.now) operands.now }
    ensures means { (ts : List Ty) (facts : Facts) → Under types.now ts facts
        → Chooses ts decls.now (map (operand_of ts) operands.now) result
        (fitting (callable (known_behind unknown name.now (map (entry_of ts) decls.now)))
        (map (operand_of ts) operands.now)) }
    ensures fits { ChosenFits types.now decls.now operands.now result }
{
    let mut chosen = Chosen::Nothing;
    let mut next = decls.last(name);
    while let Some(number) = next {
        match decls.get(number).what.procedure() {
            Some(procedure) => {
                let is_fitting = fits(types, procedure.params.as_slice(), operands);
                chosen = one_more(chosen, number as usize, is_fitting);
                next = decls.before(number, name);
            }
            None => return chosen,
        }
    }
    chosen
}

/// The call of a procedure that the operands fit, and that isn't borrowed.
pub fn call_procedure(
    alloc: Global,
    types: &TypeTable,
    number: u32,
    at: Place,
    callee: &Procedure,
    operands: Vec<Operand>,
) -> Result<Expr, Stop>
    requires params { ParametersWithin (length types.now) callee.now.params }
    requires operands { OperandsWithin (length types.now) operands.items }
    requires fits { do_fit types.now callee.now.params operands.items ≡ true }
    ensures answers { (ts : List Ty) (facts : Facts) → Under types.now ts facts
        → (x : List ℕ) (given : List (Given × Valued))
        → arguments_for (procedure_of ts callee.now).params (map (operand_of ts) operands.items)
        ≡ Some given
        → Answers (expr_of ts) (called number at false x (fit (procedure_of ts callee.now) given))
        result }
    ensures number { IfOk result (λ e. number_of e ≡ callee.now.gives) }
{
    match arguments(alloc, types, callee.params.as_slice(), operands) {
        Ok(args) => Ok(called(alloc, number, at, callee.gives, callee.number, args)),
        Err(stop) => Err(stop),
    }
}
