// `newSeq`.
ghost use Rattle.std.specs.Prelude.{◌≡◌, ◌<◌, ◌∷◌, [], List, length, map, slice_get};
ghost use Rattle.std.specs.Prelude.{Some, Ok, IfOk};
ghost use Rattle.arc_base.specs.Refusal.{Answers};
ghost use Rattle.nim_types.specs.Types.{Ty, Facts, sequence};
ghost use Rattle.nim_types.specs.Table.{type_at, IsBelow};
ghost use Rattle.nim_types.specs.declared.types.TypeDef.TheVariants.{Int};
ghost use Rattle.nim_program.specs.Nodes.{new_sequence};
ghost use Rattle.nim_program.specs.View.{expr_of};
ghost use Rattle.expr_rules.specs.Answers.{node};
ghost use Rattle.expr_rules.specs.Names.{new_sequence_rule};
ghost use Rattle.expr_parts.specs.View.{Under, Grown, OperandWithin, OperandsWithin};
ghost use Rattle.expr_parts.specs.View.{operand_of, number_of, no_fit_at};
ghost use Rattle.expr_parts.specs.ViewReady.{IsReady};

use arc_base::{Code, Place, Stop};
use expr_parts::grow::add;
use expr_parts::nodes::on_one;
use expr_parts::operand_lists::only_operand;
use expr_parts::scope::Scope;
use expr_parts::settle::{place_of_no_fit, settle};
use expr_parts::value::{Operand, refusal};
use nim_program::{Expr, Operand as Argument, Operation};
use nim_types::{TypeDef, TypeId, TypeTable};
use std::alloc::Global;

// So many elements of a type, at their default.
fn so_many(
    alloc: Global,
    types: &mut TypeTable,
    number: u32,
    at: Place,
    of: TypeId,
    elements: Expr,
) -> Result<Expr, Stop>
    requires of { of < length types.old }
    ensures grown { Grown types.old types.new }
    ensures answers { (ts : List Ty) (facts : Facts) → Under types.new ts facts
        → Answers (expr_of ts) (Ok (new_sequence (node number at) (sequence (type_at ts of))
        (expr_of ts elements))) result }
    ensures within { IfOk result (λ e. IsBelow (length types.new) (number_of e)) }
{
    match add(types, TypeDef::Seq(of)) {
        Ok(ty) => on_one(
            alloc,
            number,
            at,
            Some(ty),
            Operation::NewSequence,
            Argument::Value(elements),
        ),
        Err(stop) => {
            drop(elements);
            Err(stop)
        }
    }
}

// Of one operand, which is the number of elements.
fn of_length(
    alloc: Global,
    types: &mut TypeTable,
    ints: TypeId,
    number: u32,
    at: Place,
    place: Place,
    of: TypeId,
    operand: Operand,
) -> Result<Expr, Stop>
    requires ints { slice_get types.old ints ≡ Some Int }
    requires of { of < length types.old }
    requires operand { OperandWithin (length types.old) operand }
    ensures grown { Grown types.old types.new }
    ensures answers { (ts : List Ty) (facts : Facts) → Under types.new ts facts
        → no_fit_at at (operand ∷ []) ≡ place
        → Answers (expr_of ts) (new_sequence_rule number at (type_at ts of)
        (operand_of ts operand ∷ [])) result }
    ensures within { IfOk result (λ e. IsBelow (length types.new) (number_of e)) }
{
    match settle(alloc, types, ints, operand) {
        Some(value) => so_many(alloc, types, number, at, of, value.expr),
        None => Err(refusal(Code::NotTyped, place)),
    }
}

/// `newSeq` with a type in brackets, and operands.
pub fn new_sequence_rule(
    alloc: Global,
    types: &mut TypeTable,
    scope: &Scope,
    number: u32,
    at: Place,
    ty: TypeId,
    operands: Vec<Operand>,
) -> Result<Expr, Stop>
    requires ready { IsReady types.old scope.now }
    requires ty { ty < length types.old }
    requires operands { OperandsWithin (length types.old) operands.items }
    ensures grown { Grown types.old types.new }
    ensures answers { (ts : List Ty) (facts : Facts) → Under types.new ts facts
        → Answers (expr_of ts) (new_sequence_rule number at (type_at ts ty)
        (map (operand_of ts) operands.items)) result }
    ensures within { IfOk result (λ e. IsBelow (length types.new) (number_of e)) }
{
    let place = place_of_no_fit(at, operands.as_slice());
    match only_operand(operands) {
        Some(operand) => of_length(
            alloc,
            types,
            scope.kinds.int,
            number,
            at,
            place,
            ty,
            operand,
        ),
        None => Err(refusal(Code::NotTyped, place)),
    }
}
