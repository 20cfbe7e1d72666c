// Statements. Each shape is built here alone.
ghost use Rattle.std.specs.Prelude.{◌≡◌, [], ◌∷◌, List, IfOk, IfErr};
ghost use Rattle.arc_base.specs.declared.place.Stop.TheVariants as Stop;
ghost use Rattle.nim_types.specs.Types.{Ty};
ghost use Rattle.nim_program.specs.Nodes as nodes;
ghost use Rattle.nim_program.specs.Program as P;
ghost use Rattle.nim_program.specs.Program.{NoArg};
ghost use Rattle.nim_program.specs.View.{expr_of, path_of, kind_of, operand_before, operands_of};
ghost use Rattle.nim_program.specs.View.{stmts_of, branch_conditions, branch_labels};
ghost use Rattle.decl_rules.specs.State.{does};
ghost use Rattle.decl_parts.specs.View.{step_of, steps_of, bodies_in, arm_bodies_in};

use crate::stmts::list_of;
use arc_base::Stop;
use expr_parts::nodes::{on_one, on_two, one_operand, two_operands};
use nim_program::{Branch, CaseBranch, Expr, Kind, Leaving, Node, Operand, Operation, Path, Stmt};
use std::alloc::Global;

/// A statement that does nothing, with its parts.
pub fn idle(node: Node, parts: Vec<Operand>) -> Stmt
    ensures { (ts : List Ty) → step_of ts result
        ≡ does (P.Idle node (operands_of ts parts.items)) ∷ [] }
{
    Stmt::Idle { node, parts }
}

/// A statement by which control leaves, with its parts.
pub fn leaves(node: Node, leaving: Leaving, parts: Vec<Operand>) -> Stmt
    ensures { (ts : List Ty) → step_of ts result
        ≡ does (P.Leave node leaving (operands_of ts parts.items)) ∷ [] }
{
    Stmt::Leave {
        node,
        leaving,
        parts,
    }
}

/// The result becomes the value, and then control goes back, or on.
pub fn gives(node: Node, back: bool, value: Expr) -> Stmt
    ensures { (ts : List Ty) → step_of ts result
        ≡ does (P.Give node back (expr_of ts value)) ∷ [] }
{
    Stmt::Give { node, back, value }
}

fn doing(value: Expr) -> Stmt
    ensures { (ts : List Ty) → step_of ts result ≡ does (P.Do (expr_of ts value)) ∷ [] }
{
    Stmt::Do { value }
}

// ---- lists of the one statement that is made

/// An operation on one operand.
pub fn does_one(
    alloc: Global,
    node: Node,
    operation: Operation,
    operand: Operand,
) -> Result<Vec<Stmt>, Stop>
    ensures list { IfOk result (λ all. (ts : List Ty) → steps_of ts all.items
        ≡ does (P.Do (nodes.acting node operation (operand_before ts operand NoArg))) ∷ []) }
    ensures memory { IfErr result (λ stop. stop ≡ Stop.Memory) }
{
    let value = on_one(alloc, node.number, node.at, None, operation, operand)?;
    list_of(alloc, doing(value))
}

/// An operation on two operands.
pub fn does_two(
    alloc: Global,
    node: Node,
    operation: Operation,
    first: Operand,
    second: Operand,
) -> Result<Vec<Stmt>, Stop>
    ensures list { IfOk result (λ all. (ts : List Ty) → steps_of ts all.items
        ≡ does (P.Do (nodes.acting node operation
        (operand_before ts first (operand_before ts second NoArg)))) ∷ []) }
    ensures memory { IfErr result (λ stop. stop ≡ Stop.Memory) }
{
    let value = on_two(alloc, node.number, node.at, None, operation, first, second)?;
    list_of(alloc, doing(value))
}

/// Nothing is done with a value.
pub fn idle_with(alloc: Global, node: Node, value: Expr) -> Result<Vec<Stmt>, Stop>
    ensures list { IfOk result (λ all. (ts : List Ty) → steps_of ts all.items
        ≡ does (P.Idle node (nodes.one_value (expr_of ts value))) ∷ []) }
    ensures memory { IfErr result (λ stop. stop ≡ Stop.Memory) }
{
    let parts = one_operand(alloc, Operand::Value(value))?;
    list_of(alloc, idle(node, parts))
}

/// Nothing is done with a path and a value.
pub fn idle_with_two(alloc: Global, node: Node, path: Path, value: Expr) -> Result<Vec<Stmt>, Stop>
    ensures list { IfOk result (λ all. (ts : List Ty) → steps_of ts all.items
        ≡ does (P.Idle node (nodes.path_and_value (path_of ts path) (expr_of ts value))) ∷ []) }
    ensures memory { IfErr result (λ stop. stop ≡ Stop.Memory) }
{
    let parts = two_operands(alloc, Operand::At(path), Operand::Value(value))?;
    list_of(alloc, idle(node, parts))
}

/// Control leaves with a value, which isn't evaluated.
pub fn leaves_with(
    alloc: Global,
    node: Node,
    leaving: Leaving,
    value: Expr,
) -> Result<Vec<Stmt>, Stop>
    ensures list { IfOk result (λ all. (ts : List Ty) → steps_of ts all.items
        ≡ does (P.Leave node leaving (nodes.one_value (expr_of ts value))) ∷ []) }
    ensures memory { IfErr result (λ stop. stop ≡ Stop.Memory) }
{
    let parts = one_operand(alloc, Operand::Value(value))?;
    list_of(alloc, leaves(node, leaving, parts))
}

// ---- statements with blocks

/// An `if`.
pub fn choice_of(node: Node, branches: Vec<Branch>, otherwise: Vec<Stmt>) -> Stmt
    ensures { (ts : List Ty) → step_of ts result ≡ does (P.Select node P.ByConditions
        (branch_conditions ts branches.items)
        (nodes.blocks_of (bodies_in ts branches.items) (stmts_of ts otherwise.items))) ∷ [] }
{
    Stmt::If {
        node,
        branches,
        otherwise,
    }
}

/// A `case`.
pub fn selection_of(
    node: Node,
    selector: Operand,
    branches: Vec<CaseBranch>,
    otherwise: Vec<Stmt>,
) -> Stmt
    ensures { (ts : List Ty) → step_of ts result ≡ does (P.Select node
        (P.ByLabels (branch_labels branches.items)) (operand_before ts selector NoArg)
        (nodes.blocks_of (arm_bodies_in ts branches.items) (stmts_of ts otherwise.items)))
        ∷ [] }
{
    Stmt::Case {
        node,
        selector,
        branches,
        otherwise,
    }
}

/// A loop.
pub fn repetition_of(node: Node, kind: Kind, head: Vec<Operand>, body: Vec<Stmt>) -> Stmt
    ensures { (ts : List Ty) → step_of ts result ≡ does (P.Loop node (kind_of ts kind)
        (operands_of ts head.items) (stmts_of ts body.items)) ∷ [] }
{
    Stmt::Loop {
        node,
        kind,
        head,
        body,
    }
}
