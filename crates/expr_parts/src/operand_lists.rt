// Operands, by their number.
ghost use Rattle.std.specs.Prelude.{◌≡◌, ◌++◌, ◌∷◌, [], IfOk, IfErr};
ghost use Rattle.arc_base.specs.declared.place.Stop.TheVariants as Stop;
ghost use Rattle.expr_parts.specs.ViewOperands.{IsGiven, IsOnly};

use crate::value::Operand;
use arc_base::Stop;
use std::alloc::Global;

/// The operands of an operation that takes two at most.
#[derive(Drop)]
pub enum Given {
    Nothing,
    One(Operand),
    Two(Operand, Operand),
    More,
}

/// Operands, by their number.
pub fn taken_apart(operands: Vec<Operand>) -> Given
    ensures { IsGiven operands.items result }
{
    let mut others = operands;
    match others.pop() {
        Some(last) => before_last(others, last),
        None => Given::Nothing,
    }
}

fn before_last(operands: Vec<Operand>, last: Operand) -> Given
    ensures { IsGiven (operands.items ++ last ∷ []) result }
{
    let mut others = operands;
    match others.pop() {
        Some(first) => two_or_more(others.as_slice(), first, last),
        None => Given::One(last),
    }
}

fn two_or_more(others: &[Operand], first: Operand, last: Operand) -> Given
    ensures { IsGiven (others.now ++ first ∷ last ∷ []) result }
{
    let count = others.len();
    if count > 0 {
        drop(first);
        drop(last);
        return Given::More;
    }
    Given::Two(first, last)
}

/// The only operand, where there is no other.
pub fn only_operand(operands: Vec<Operand>) -> Option<Operand>
    ensures { IsOnly operands.items result }
{
    let mut others = operands;
    match others.pop() {
        Some(last) => unless_others(others.as_slice(), last),
        None => None,
    }
}

fn unless_others(others: &[Operand], last: Operand) -> Option<Operand>
    ensures { IsOnly (others.now ++ last ∷ []) result }
{
    let count = others.len();
    if count > 0 {
        drop(last);
        return None;
    }
    Some(last)
}

/// A list of one operand.
pub fn alone(alloc: Global, operand: Operand) -> Result<Vec<Operand>, Stop>
    ensures only { IfOk result (λ os. os.items ≡ operand ∷ []) }
    ensures memory { IfErr result (λ stop. stop ≡ Stop.Memory) }
{
    let mut operands = Vec::new(alloc);
    operands.push(operand)?;
    Ok(operands)
}

/// A list of two operands.
pub fn both_in(alloc: Global, left: Operand, right: Operand) -> Result<Vec<Operand>, Stop>
    ensures both { IfOk result (λ os. os.items ≡ left ∷ right ∷ []) }
    ensures memory { IfErr result (λ stop. stop ≡ Stop.Memory) }
{
    match alone(alloc, left) {
        Ok(first) => {
            let mut operands = first;
            operands.push(right)?;
            Ok(operands)
        }
        Err(stop) => {
            drop(right);
            Err(stop)
        }
    }
}
