// Operands: their types, and where they come from.
ghost use Rattle.std.specs.Prelude.{◌≡◌, ◌∷◌, [], List, IfOk, IfSome};
ghost use Rattle.nim_types.specs.Types.{Ty};
ghost use Rattle.nim_program.specs.Program.{types_in, NoArg};
ghost use Rattle.nim_program.specs.View.{expr_of, operand_before, operands_of, if_type};
ghost use Rattle.flattening.specs.Numbering.{all_numbers};
ghost use Rattle.flattening.specs.ExprLines.{from_of, froms};
ghost use Rattle.flattening.specs.Views.{types_of, facts_of, modes_of, uses_of, act_of};

use crate::around::{Around, Uses};
use crate::known::{if_number, is_copied, is_lent_at, use_at};
use crate::spans::{behind_operand, next};
use arc_base::{Items, Memory};
use flat_code::From;
use nim_program::{Expr, Operand, Use};
use nim_types::TypeId;
use std::alloc::Global;

fn type_of(operand: &Operand) -> Option<TypeId>
    ensures { (ts : List Ty) → types_in (operand_before ts operand.now NoArg) ≡ if_type ts result ∷ [] }
{
    match operand {
        Operand::Value(value) => value.ty(),
        Operand::At(path) => path.ty(),
    }
}

/// The numbers of the types of operands.
pub fn operand_types(
    alloc: Global,
    around: &Around,
    operands: &Vec<Operand>,
) -> Result<Items<Option<TypeId>>, Memory>
    ensures { IfOk result (λ numbers. numbers ≡ all_numbers (types_of around.now)
        (types_in (operands_of (types_of around.now) operands.now.items))) }
{
    let mut numbers = Items::new(alloc);
    for operand in operands {
        numbers.push(if_number(around, type_of(operand)))?;
    }
    Ok(numbers)
}

// Where a value comes from whose numbers begin with t. None where there are more parts than a source
// can have.
fn value_from(around: &Around, uses: Uses, how: Use, value: &Expr, t: u32) -> Option<From>
    ensures { IfSome result (λ from. from ≡ from_of (facts_of around.now) (act_of uses) how
        (expr_of (types_of around.now) value.now) t) }
{
    if is_copied(around, how, value) {
        return match next(t) {
            None => None,
            Some(at) => Some(From::Place(at)),
        };
    }
    Some(if is_lent_at(around, uses, how, value) {
        From::Place(t)
    } else {
        From::Value(t)
    })
}

fn operand_from(around: &Around, uses: Uses, how: Use, operand: &Operand, t: u32) -> Option<From>
    ensures { IfSome result (λ from. froms (facts_of around.now) (act_of uses)
        (operand_before (types_of around.now) operand.now NoArg) (λ i. how) 0 t ≡ from ∷ []) }
{
    match operand {
        Operand::Value(value) => value_from(around, uses, how, value, t),
        Operand::At(_) => Some(From::Place(t)),
    }
}

/// Where operands come from, whose numbers begin with t. `Memory` comes too where there are more
/// parts than a source can have.
pub fn froms(
    alloc: Global,
    around: &Around,
    operands: &Vec<Operand>,
    uses: Uses,
    t: u32,
) -> Result<Items<From>, Memory>
    ensures { IfOk result (λ all. all ≡ froms (facts_of around.now) (act_of uses)
        (operands_of (types_of around.now) operands.now.items)
        (uses_of (modes_of around.now) uses) 0 t) }
{
    let mut all = Items::new(alloc);
    let mut u = t;
    let mut position = 0;
    for operand in operands {
        let how = use_at(around, uses, position);
        let Some(from) = operand_from(around, uses, how, operand, u) else {
            return Err(Memory);
        };
        all.push(from)?;
        let Some(following) = behind_operand(around, u, operand) else {
            return Err(Memory);
        };
        u = following;
        position += 1;
    }
    Ok(all)
}
