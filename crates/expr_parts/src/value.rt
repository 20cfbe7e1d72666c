// Typed expressions, operands, and what is wanted of them.
ghost use Rattle.std.specs.Prelude.{◌≡◌, List, map, IfOk, IfErr};
ghost use Rattle.arc_base.specs.declared.place.Stop.TheVariants as Stop;
ghost use Rattle.arc_base.specs.Refusal.{Answers};
ghost use Rattle.nim_types.specs.Types.{Ty};
ghost use Rattle.expr_rules.specs.Typed.{accepted_by};
ghost use Rattle.expr_parts.specs.View.{valued_of, if_allowed, handed_on};

use arc_base::{Code, Place, Stop};
use nim_program::{Expr, Operand as Argument};
use nim_types::TypeId;
use std::alloc::Global;

/// A typed expression, its type where it gives a value, and the first number behind its nodes.
#[derive(Drop)]
pub struct Typed {
    pub expr: Expr,
    pub ty: Option<TypeId>,
    pub next: u32,
}

/// An expression that gives a value of a type, and whether it can be written.
#[derive(Drop)]
pub struct Value {
    pub expr: Expr,
    pub ty: TypeId,
    pub writable: bool,
}

/// The type that the place of an expression gives.
#[derive(Clone, Copy)]
pub enum Want {
    Nothing,
    /// That of a place which gets the value itself.
    Whole(TypeId),
    /// That of an element, a part, a field or a branch: a tuple without names doesn't take it.
    Inner(TypeId),
}

/// An operand of an operation.
#[derive(Drop)]
pub enum Operand {
    Value(Value),
    /// `@[]`, whose type the operation gives.
    Open { at: Place, number: u32 },
    Type(TypeId),
    /// Standard input.
    Input,
}

pub fn refusal(code: Code, at: Place) -> Stop
    ensures { result ≡ Stop.Refused code at }
{
    Stop::Refused { code, at }
}

/// Refuses what doesn't hold.
pub fn allow(holds: bool, code: Code, at: Place) -> Result<(), Stop>
    ensures { Answers (λ _. tt) (if_allowed holds code at) result }
{
    if !holds {
        return Err(refusal(code, at));
    }
    Ok(())
}

/// A value that is what is asked for, else no rule fits at it.
pub fn accepted_by(accepts: bool, value: Value) -> Result<Value, Stop>
    ensures answers { (ts : List Ty) →
        Answers (valued_of ts) (accepted_by accepts (valued_of ts value)) result }
    ensures same { IfOk result (λ v. v ≡ value) }
{
    if !accepts {
        let at = value.expr.node().at;
        drop(value);
        return Err(refusal(Code::NotTyped, at));
    }
    Ok(value)
}

/// Values as operands of a node, in order.
pub fn operands_in(alloc: Global, values: Vec<Value>) -> Result<Vec<Argument>, Stop>
    ensures operands { IfOk result (λ os. os.items ≡ map handed_on values.items) }
    ensures memory { IfErr result (λ stop. stop ≡ Stop.Memory) }
{
    let mut operands = Vec::new(alloc);
    for value in values {
        operands.push(Argument::Value(value.expr))?;
    }
    Ok(operands)
}
