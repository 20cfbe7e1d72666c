// Nodes of typed expressions, and the type of what they give. Each shape is built here alone.
ghost use Rattle.std.specs.Prelude.{◌≡◌, List, Some, IfOk, IfErr};
ghost use Rattle.arc_base.specs.declared.place.Stop.TheVariants as Stop;
ghost use Rattle.nim_types.specs.Types.{Ty};
ghost use Rattle.nim_types.specs.Table.{type_at};
ghost use Rattle.nim_program.specs.Nodes as nodes;
ghost use Rattle.nim_program.specs.Program.{Apply, Doing, Early, NoArg, type_of};
ghost use Rattle.nim_program.specs.Program as program;
ghost use Rattle.nim_program.specs.View.{expr_of, path_of, if_type, literal_of};
ghost use Rattle.nim_program.specs.View.{operand_before, operands_of};
ghost use Rattle.expr_rules.specs.Answers.{node};
ghost use Rattle.expr_parts.specs.View.{number_of, number_at};

use arc_base::{Items, Place, Stop};
use nim_program::{Expr, Literal, Node, Operand, Operation, Path, Short};
use nim_types::TypeId;
use std::alloc::Global;

/// The type of its value, None where it gives none.
#[cycle(types)]
pub fn type_number(expr: &Expr) -> Option<TypeId>
    ensures number { result ≡ number_of expr.now }
    ensures ty { (ts : List Ty) → if_type ts result ≡ type_of (expr_of ts expr.now) }
{
    match expr {
        Expr::Apply { ty, .. }
        | Expr::Call { ty, .. }
        | Expr::If { ty, .. }
        | Expr::Case { ty, .. } => *ty,
        Expr::Construct { ty, .. } | Expr::Constant { ty, .. } | Expr::Early { ty, .. } => {
            Some(*ty)
        }
        Expr::Read { path } => path_type(path),
    }
}

#[cycle(types)]
fn path_type(path: &Path) -> Option<TypeId>
    ensures number { result ≡ number_at path.now }
    ensures ty { (ts : List Ty) → if_type ts result ≡ program.type_at (path_of ts path.now) }
{
    match path {
        Path::Variable { ty, .. }
        | Path::Field { ty, .. }
        | Path::Element { ty, .. }
        | Path::Deref { ty, .. } => Some(*ty),
        Path::Fresh { value } => type_number(value),
    }
}

// ---- operands

/// Operands with one more at the end.
pub fn and_operand(operands: Vec<Operand>, operand: Operand) -> Result<Vec<Operand>, Stop>
    ensures operands { IfOk result (λ os. (ts : List Ty) → operands_of ts os.items
        ≡ nodes.followed_by (operands_of ts operands.items) (operand_before ts operand NoArg)) }
    ensures memory { IfErr result (λ stop. stop ≡ Stop.Memory) }
{
    let mut all = operands;
    all.push(operand)?;
    Ok(all)
}

/// One operand.
pub fn one_operand(alloc: Global, operand: Operand) -> Result<Vec<Operand>, Stop>
    ensures operands { IfOk result (λ os. (ts : List Ty) →
        operands_of ts os.items ≡ operand_before ts operand NoArg) }
    ensures memory { IfErr result (λ stop. stop ≡ Stop.Memory) }
{
    let mut all = Vec::new(alloc);
    all.push(operand)?;
    Ok(all)
}

/// Two operands.
pub fn two_operands(alloc: Global, first: Operand, second: Operand) -> Result<Vec<Operand>, Stop>
    ensures operands { IfOk result (λ os. (ts : List Ty) → operands_of ts os.items
        ≡ operand_before ts first (operand_before ts second NoArg)) }
    ensures memory { IfErr result (λ stop. stop ≡ Stop.Memory) }
{
    match one_operand(alloc, first) {
        Ok(operands) => and_operand(operands, second),
        Err(stop) => {
            drop(second);
            Err(stop)
        }
    }
}

// ---- nodes

/// An operation on operands, which gives a value of a type, or none.
pub fn applied(
    number: u32,
    at: Place,
    ty: Option<TypeId>,
    operation: Operation,
    operands: Vec<Operand>,
) -> Expr
    ensures expr { (ts : List Ty) → expr_of ts result ≡ Apply (node number at) (if_type ts ty)
        (Doing operation) (operands_of ts operands.items) }
    ensures number { number_of result ≡ ty }
{
    Expr::Apply {
        node: Node { number, at },
        ty,
        operation,
        operands,
    }
}

/// An operation on one operand.
pub fn on_one(
    alloc: Global,
    number: u32,
    at: Place,
    ty: Option<TypeId>,
    operation: Operation,
    operand: Operand,
) -> Result<Expr, Stop>
    ensures expr { IfOk result (λ e. (ts : List Ty) → expr_of ts e ≡ Apply (node number at)
        (if_type ts ty) (Doing operation) (operand_before ts operand NoArg)) }
    ensures number { IfOk result (λ e. number_of e ≡ ty) }
    ensures memory { IfErr result (λ stop. stop ≡ Stop.Memory) }
{
    let operands = one_operand(alloc, operand)?;
    Ok(applied(number, at, ty, operation, operands))
}

/// An operation on two operands.
pub fn on_two(
    alloc: Global,
    number: u32,
    at: Place,
    ty: Option<TypeId>,
    operation: Operation,
    first: Operand,
    second: Operand,
) -> Result<Expr, Stop>
    ensures expr { IfOk result (λ e. (ts : List Ty) → expr_of ts e ≡ Apply (node number at)
        (if_type ts ty) (Doing operation)
        (operand_before ts first (operand_before ts second NoArg))) }
    ensures number { IfOk result (λ e. number_of e ≡ ty) }
    ensures memory { IfErr result (λ stop. stop ≡ Stop.Memory) }
{
    let operands = two_operands(alloc, first, second)?;
    Ok(applied(number, at, ty, operation, operands))
}

/// The value of a constant.
pub fn constant(number: u32, at: Place, ty: TypeId, value: Literal) -> Expr
    ensures expr { (ts : List Ty) → expr_of ts result ≡ nodes.literal (node number at)
        (type_at ts ty) (literal_of value) }
    ensures number { number_of result ≡ Some ty }
{
    Expr::Constant {
        node: Node { number, at },
        ty,
        value,
    }
}

/// An object of values of fields, by the numbers of these.
pub fn constructed(
    number: u32,
    at: Place,
    ty: TypeId,
    fields: Items<u32>,
    operands: Vec<Operand>,
) -> Expr
    ensures expr { (ts : List Ty) → expr_of ts result ≡ nodes.construct (node number at)
        (type_at ts ty) fields (operands_of ts operands.items) }
    ensures number { number_of result ≡ Some ty }
{
    Expr::Construct {
        node: Node { number, at },
        ty,
        fields,
        operands,
    }
}

/// A call of a procedure, by its number and the type of its result.
pub fn called(
    alloc: Global,
    number: u32,
    at: Place,
    ty: Option<TypeId>,
    proc: u32,
    operands: Vec<Operand>,
) -> Expr
    ensures expr { (ts : List Ty) → expr_of ts result ≡ nodes.call (node number at)
        (if_type ts ty) proc (operands_of ts operands.items) }
    ensures number { number_of result ≡ ty }
{
    Expr::Call {
        node: Node { number, at },
        ty,
        proc,
        types: Items::new(alloc),
        operands,
    }
}

/// `and` or `or` of bools.
pub fn early(
    alloc: Global,
    number: u32,
    at: Place,
    ty: TypeId,
    short: Short,
    left: Expr,
    right: Expr,
) -> Result<Expr, Stop>
    ensures expr { IfOk result (λ e. (ts : List Ty) → expr_of ts e ≡ Early (node number at)
        (type_at ts ty) short (expr_of ts left) (expr_of ts right)) }
    ensures number { IfOk result (λ e. number_of e ≡ Some ty) }
    ensures memory { IfErr result (λ stop. stop ≡ Stop.Memory) }
{
    let (left, right) = boxes(alloc, left, right)?;
    Ok(Expr::Early {
        node: Node { number, at },
        ty,
        short,
        left,
        right,
    })
}

/// Two expressions in boxes.
pub fn boxes(alloc: Global, left: Expr, right: Expr) -> Result<(Box<Expr>, Box<Expr>), Stop>
    ensures boxes { IfOk result (λ both. (both.0.value ≡ left) × (both.1.value ≡ right)) }
    ensures memory { IfErr result (λ stop. stop ≡ Stop.Memory) }
{
    match Box::new(alloc, left) {
        Ok(left) => {
            let right = Box::new(alloc, right)?;
            Ok((left, right))
        }
        Err(left) => {
            drop(left);
            drop(right);
            Err(Stop::Memory)
        }
    }
}
