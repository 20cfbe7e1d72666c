// Nodes of operations that are built in.
ghost use Rattle.std.specs.Prelude.{◌≡◌, List, Ok, IfOk, IfErr};
ghost use Rattle.arc_base.specs.declared.place.Stop.TheVariants as Stop;
ghost use Rattle.arc_base.specs.Refusal.{Answers, and_then};
ghost use Rattle.nim_types.specs.Types.{Ty};
ghost use Rattle.nim_program.specs.Nodes.{one_path};
ghost use Rattle.nim_program.specs.Program.{Apply, Doing};
ghost use Rattle.nim_program.specs.View.{expr_of, if_type};
ghost use Rattle.expr_rules.specs.Answers.{node};
ghost use Rattle.expr_rules.specs.Builtins.{written};
ghost use Rattle.expr_rules.specs.Paths.{path_of};
ghost use Rattle.expr_parts.specs.View.{number_of, valued_of};
ghost use Rattle.expr_operations.specs.ViewOperations.{done_by, done_rule};

use crate::built_in::{Hand, Makes};
use arc_base::{Place, Stop};
use expr_parts::nodes::on_one;
use expr_parts::paths::{path_of, written};
use expr_parts::value::Value;
use nim_program::{Expr, Operand as Argument, Operation};
use nim_types::TypeId;
use std::alloc::Global;

// What is made of a path that is read in place.
fn in_place(
    alloc: Global,
    number: u32,
    at: Place,
    ty: Option<TypeId>,
    operation: Operation,
    value: Expr,
) -> Result<Expr, Stop>
    ensures expr { IfOk result (λ e. (ts : List Ty) → expr_of ts e ≡ Apply (node number at)
        (if_type ts ty) (Doing operation) (one_path (path_of (expr_of ts value)))) }
    ensures number { IfOk result (λ e. number_of e ≡ ty) }
    ensures memory { IfErr result (λ stop. stop ≡ Stop.Memory) }
{
    let path = path_of(alloc, value)?;
    on_one(alloc, number, at, ty, operation, Argument::At(path))
}

// What is made of a path that is written.
fn to_write(
    alloc: Global,
    number: u32,
    at: Place,
    ty: Option<TypeId>,
    operation: Operation,
    value: Value,
) -> Result<Expr, Stop>
    ensures answers { (ts : List Ty) → Answers (expr_of ts) (and_then (written (valued_of ts value))
        (λ p. Ok (Apply (node number at) (if_type ts ty) (Doing operation) (one_path p)))) result }
    ensures number { IfOk result (λ e. number_of e ≡ ty) }
{
    match written(alloc, value) {
        Ok(path) => on_one(alloc, number, at, ty, operation, Argument::At(path)),
        Err(stop) => Err(stop),
    }
}

/// What an operation makes of one operand.
pub fn make(alloc: Global, number: u32, at: Place, makes: Makes, value: Value) -> Result<Expr, Stop>
    ensures answers { (ts : List Ty) → Answers (expr_of ts) (done_rule (done_by ts (node number at)
        (valued_of ts value) makes)) result }
    ensures number { IfOk result (λ e. number_of e ≡ makes.ty) }
{
    match makes.hand {
        Hand::AsValue => on_one(
            alloc,
            number,
            at,
            makes.ty,
            makes.operation,
            Argument::Value(value.expr),
        ),
        Hand::InPlace => in_place(alloc, number, at, makes.ty, makes.operation, value.expr),
        Hand::ToWrite => to_write(alloc, number, at, makes.ty, makes.operation, value),
    }
}
