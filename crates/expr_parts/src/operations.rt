// Operations that are built in between two values.
ghost use Rattle.std.specs.Prelude.{◌≡◌, ◌<◌, List, length, IfOk};
ghost use Rattle.arc_base.specs.Refusal.{Answers};
ghost use Rattle.nim_tree.specs.declared.expr.BinaryOp.{BinaryOp};
ghost use Rattle.nim_types.specs.Types.{Ty, Facts};
ghost use Rattle.nim_types.specs.Table.{type_at, IsBelow};
ghost use Rattle.nim_program.specs.View.{expr_of};
ghost use Rattle.expr_rules.specs.Env.{Env};
ghost use Rattle.expr_rules.specs.Operators.{binary_by};
ghost use Rattle.expr_parts.specs.View.{Under, KindsIn, valued_of, number_of, meaning_in};
ghost use Rattle.expr_parts.specs.View.{HasMeaning};

use crate::nodes::{early, on_two};
use crate::operators::Meaning;
use crate::scope::Kinds;
use crate::value::Value;
use arc_base::{Place, Stop};
use nim_program::{Expr, Operand as Argument, Operation};
use nim_types::TypeTable;
use std::alloc::Global;

/// What an operator means on two values, where it means something that is built in.
pub fn operation(
    alloc: Global,
    types: &TypeTable,
    kinds: Kinds,
    number: u32,
    at: Place,
    meaning: Meaning,
    left: Value,
    right: Value,
) -> Result<Expr, Stop>
    requires kinds { KindsIn types.now kinds }
    requires left { left.ty < length types.now }
    requires meaning { HasMeaning meaning }
    ensures answers { (ts : List Ty) (facts : Facts) → Under types.now ts facts
        → (env : Env) (op : BinaryOp) → Answers (expr_of ts) (binary_by env number at op
        (meaning_in (type_at ts left.ty) meaning) (valued_of ts left) (valued_of ts right))
        result }
    ensures within { IfOk result (λ e. IsBelow (length types.now) (number_of e)) }
{
    match meaning {
        Meaning::Computes(operator) => on_two(
            alloc,
            number,
            at,
            Some(left.ty),
            Operation::Binary(operator),
            Argument::Value(left.expr),
            Argument::Value(right.expr),
        ),
        Meaning::StopsEarly(short) => early(
            alloc, number, at, kinds.bool, short, left.expr, right.expr,
        ),
        Meaning::Joins => on_two(
            alloc,
            number,
            at,
            Some(kinds.text),
            Operation::Join,
            Argument::Value(left.expr),
            Argument::Value(right.expr),
        ),
        Meaning::Compares(comparison) => on_two(
            alloc,
            number,
            at,
            Some(kinds.bool),
            Operation::Compare(comparison),
            Argument::Value(left.expr),
            Argument::Value(right.expr),
        ),
        Meaning::Nothing => unreachable!(),
    }
}
