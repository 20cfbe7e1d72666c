// Arguments of procedures.
ghost use Rattle.std.specs.Prelude.{◌≡◌, ◌<◌, List, [], length, map, true, Some};
ghost use Rattle.arc_base.specs.Refusal.{Answers};
ghost use Rattle.nim_types.specs.Types.{Ty, Facts};
ghost use Rattle.nim_types.specs.Table.{type_at};
ghost use Rattle.nim_program.specs.View.{operands_of};
ghost use Rattle.nim_program.specs.View.{path_of as path_in};
ghost use Rattle.expr_rules.specs.Calls.{no_overlap, argument_by, arguments_by, arguments_for};
ghost use Rattle.expr_rules.specs.Answers.{Valued, settled};
ghost use Rattle.expr_rules.specs.Env.{Parameter as Given};
ghost use Rattle.expr_parts.specs.View.{Under, OperandWithin, OperandsWithin, ParametersWithin};
ghost use Rattle.expr_parts.specs.View.{operand_of, parameter_of, is_of, do_fit};
ghost use Rattle.expr_rules.specs.Paths.{overlaps_any};
ghost use Rattle.expr_parts.specs.View.{paths_in, argument_of, as_var, valued_of};

use crate::overlap::overlaps_any;
use crate::paths::path_of;
use crate::scope::Parameter;
use crate::settle::settled;
use crate::value::{Operand, Value, refusal};
use arc_base::{Code, Place, Stop};
use nim_program::{Mode, Operand as Argument, Path};
use nim_types::TypeTable;
use std::alloc::Global;

/// A path that is passed as `var` behind other arguments.
pub fn var_argument(
    alloc: Global,
    writable: bool,
    at: Place,
    path: Path,
    before: &[Argument],
) -> Result<Path, Stop>
    ensures { (ts : List Ty) → Answers (path_in ts) (no_overlap writable
        (overlaps_any (path_in ts path) (map (path_in ts) (paths_in before.now))) at
        (path_in ts path)) result }
{
    if !writable {
        return Err(refusal(Code::NotAssignable, at));
    }
    if overlaps_any(alloc, &path, before)? {
        return Err(refusal(Code::VarOverlap, at));
    }
    Ok(path)
}

fn passed_as_var(
    alloc: Global,
    writable: bool,
    at: Place,
    path: Path,
    before: &[Argument],
) -> Result<Argument, Stop>
    ensures { (ts : List Ty) → Answers (argument_of ts) (as_var writable
        (map (path_in ts) (paths_in before.now)) at (path_in ts path)) result }
{
    match var_argument(alloc, writable, at, path, before) {
        Ok(path) => Ok(Argument::At(path)),
        Err(stop) => Err(stop),
    }
}

/// A value as the argument of a parameter, behind other arguments.
pub fn argument(
    alloc: Global,
    mode: Mode,
    value: Value,
    before: &[Argument],
) -> Result<Argument, Stop>
    ensures { (ts : List Ty) → Answers (argument_of ts) (argument_by
        (map (path_in ts) (paths_in before.now)) mode (valued_of ts value)) result }
{
    match mode {
        Mode::Var => {
            let at = value.expr.node().at;
            let path = path_of(alloc, value.expr)?;
            passed_as_var(alloc, value.writable, at, path, before)
        }
        Mode::Plain | Mode::Sink => Ok(Argument::Value(value.expr)),
    }
}

// An operand as the argument of a parameter, behind other arguments.
fn settled_argument(
    alloc: Global,
    types: &TypeTable,
    param: Parameter,
    operand: Operand,
    before: &[Argument],
) -> Result<Argument, Stop>
    requires param { param.ty < length types.now }
    requires operand { OperandWithin (length types.now) operand }
    requires fits { is_of types.now param.ty operand ≡ true }
    ensures { (ts : List Ty) (facts : Facts) → Under types.now ts facts → (v : Valued)
        → settled (type_at ts param.ty) (operand_of ts operand) ≡ Some v
        → Answers (argument_of ts) (argument_by (map (path_in ts) (paths_in before.now))
        param.mode v) result }
{
    let value = settled(alloc, types, param.ty, operand);
    argument(alloc, param.mode, value, before)
}

/// The arguments of a call, where the operands are values of the types of the parameters.
pub fn arguments(
    alloc: Global,
    types: &TypeTable,
    params: &[Parameter],
    operands: Vec<Operand>,
) -> Result<Vec<Argument>, Stop>
    requires params { ParametersWithin (length types.now) params.now }
    requires operands { OperandsWithin (length types.now) operands.items }
    requires fits { do_fit types.now params.now operands.items ≡ true }
    ensures { (ts : List Ty) (facts : Facts) → Under types.now ts facts
        → (given : List (Given × Valued))
        → arguments_for (map (parameter_of ts) params.now) (map (operand_of ts) operands.items)
        ≡ Some given
        → Answers (λ args. operands_of ts args.items) (arguments_by [] given) result }
{
    let mut args = Vec::new(alloc);
    let mut rest = params;
    for operand in operands {
        let Some((param, others)) = rest.split_first() else {
            unreachable!();
        };
        rest = others;
        match settled_argument(alloc, types, *param, operand, args.as_slice()) {
            Ok(arg) => args.push(arg)?,
            Err(stop) => return Err(stop),
        }
    }
    Ok(args)
}
