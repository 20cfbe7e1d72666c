// The value of an expression that is known before any run.
ghost use Rattle.std.specs.Prelude.{◌≡◌, ◌∷◌, [], List, IfOk, Option, Some};
ghost use Rattle.nim_types.specs.Types.{Ty, Facts};
ghost use Rattle.nim_types.specs.Table.{type_at};
ghost use Rattle.nim_program.specs.Program.{Building, Doing, types_in};
ghost use Rattle.nim_program.specs.View.{expr_of, path_of, operands_of, literal_of, if_type};
ghost use Rattle.expr_rules.specs.Constants.{act_value, computing, first_type, if_computed};
ghost use Rattle.expr_rules.specs.Constants.{index_number, number_in, of_literal};
ghost use Rattle.expr_rules.specs.Constants.{value_in, value_at, values_in};
ghost use Rattle.expr_parts.specs.View.{Under};
ghost use Rattle.expr_constants.specs.ViewConstants.{evaluated_of, values_of, is_text, value_of};
ghost use Rattle.expr_constants.specs.ViewFixed.{IsFixed};

use crate::defaults::construct;
use crate::evaluated::{
    Evaluated, Pair, as_elements, as_parts, binary, compare, join, limited, measure, number_in,
    only, stopping, two_of, unary, with_value,
};
use crate::shown::{convert, show};
use arc_base::Memory;
use expr_parts::constants::copied;
use expr_parts::nodes::type_number;
use nim_program::{Expr, Literal, Operand, Operation, Path};
use nim_types::{TypeId, TypeTable};
use std::alloc::Global;

fn is_text(value: &Literal) -> bool
    ensures { is_text (literal_of value.now) ≡ result }
{
    matches!(value, Literal::Text(_))
}

// A text has a limit.
fn constant(alloc: Global, value: &Literal) -> Result<Evaluated<Literal>, Memory>
    ensures { IfOk result (λ e. evaluated_of literal_of e ≡ of_literal (literal_of value.now)) }
{
    let literal = copied(alloc, value)?;
    if is_text(value) {
        Ok(limited(literal))
    } else {
        Ok(Evaluated::Comes(literal))
    }
}

// What an operation gives of the values of its operands, of which the first has a type.
fn operate(
    alloc: Global,
    types: &TypeTable,
    ty: Option<TypeId>,
    first: Option<TypeId>,
    operation: Operation,
    values: Evaluated<Vec<Literal>>,
) -> Result<Evaluated<Literal>, Memory>
    requires ty { IsFixed types.now (λ ts. if_type ts ty) }
    requires first { IsFixed types.now (λ ts. if_type ts first) }
    ensures { IfOk result (λ e. (ts : List Ty) (facts : Facts) → Under types.now ts facts
        → (tys : List (Option Ty)) → first_type tys ≡ if_type ts first
        → evaluated_of literal_of e ≡ if_computed (computing facts (if_type ts ty) tys operation)
        (evaluated_of values_of values)) }
{
    match operation {
        Operation::Unary(operator) => Ok(unary(operator, &only(values))),
        Operation::Binary(operator) => Ok(binary(operator, &two_of(values))),
        Operation::Compare(comparison) => Ok(compare(comparison, &two_of(values))),
        Operation::Convert => Ok(convert(types, ty, only(values))),
        Operation::Join => join(alloc, &two_of(values)),
        Operation::Show => show(alloc, types, first, only(values)),
        Operation::Measure(of) => measure(of, &only(values)),
        Operation::Make => Ok(as_parts(values)),
        Operation::Sequence => Ok(as_elements(values)),
        Operation::Default
        | Operation::NewSequence
        | Operation::IsNil
        | Operation::Echo
        | Operation::Quit
        | Operation::ReadLine
        | Operation::ReadLineInto
        | Operation::Assign
        | Operation::Update(_)
        | Operation::Add
        | Operation::Append
        | Operation::SetLength
        | Operation::Pop
        | Operation::Move
        | Operation::Swap
        | Operation::Discard
        | Operation::Destroy
        | Operation::Blank => {
            drop(values);
            Ok(Evaluated::Varies)
        }
    }
}

// The type of the first operand.
fn first_type(operands: &[Operand]) -> Option<TypeId>
    ensures { (ts : List Ty) →
        first_type (types_in (operands_of ts operands.now)) ≡ if_type ts result }
{
    let (first, _) = operands.split_first()?;
    match first {
        Operand::Value(value) => type_number(value),
        Operand::At(path) => path.ty(),
    }
}

/// What an expression comes to before any run.
#[cycle(values)]
pub fn value_in(alloc: Global, types: &TypeTable, expr: &Expr) -> Result<Evaluated<Literal>, Memory>
    requires { IsFixed types.now (λ ts. expr_of ts expr.now) }
    ensures { IfOk result (λ e. (ts : List Ty) (facts : Facts) → Under types.now ts facts
        → evaluated_of literal_of e ≡ value_in facts (expr_of ts expr.now)) }
{
    match expr {
        Expr::Apply {
            ty,
            operation,
            operands,
            ..
        } => applied(alloc, types, *ty, *operation, operands.as_slice()),
        Expr::Construct {
            ty,
            fields,
            operands,
            ..
        } => object_in(alloc, types, *ty, fields.as_slice(), operands.as_slice()),
        Expr::Constant { value, .. } => constant(alloc, value),
        Expr::Early {
            short,
            left,
            right,
            ..
        } => {
            let both = pair_in(alloc, types, &**left, &**right)?;
            Ok(stopping(*short, both))
        }
        Expr::Read { .. } | Expr::Call { .. } | Expr::If { .. } | Expr::Case { .. } => {
            Ok(Evaluated::Varies)
        }
    }
}

// What both operands come to.
#[cycle(values)]
fn pair_in(alloc: Global, types: &TypeTable, left: &Expr, right: &Expr) -> Result<Pair, Memory>
    requires left { IsFixed types.now (λ ts. expr_of ts left.now) }
    requires right { IsFixed types.now (λ ts. expr_of ts right.now) }
    ensures left { IfOk result (λ p. (ts : List Ty) (facts : Facts) → Under types.now ts facts
        → evaluated_of literal_of p.left ≡ value_in facts (expr_of ts left.now)) }
    ensures right { IfOk result (λ p. (ts : List Ty) (facts : Facts) → Under types.now ts facts
        → evaluated_of literal_of p.right ≡ value_in facts (expr_of ts right.now)) }
{
    let left = value_in(alloc, types, left)?;
    let right = value_in(alloc, types, right)?;
    Ok(Pair { left, right })
}

// What an operation comes to.
#[cycle(values)]
fn applied(
    alloc: Global,
    types: &TypeTable,
    ty: Option<TypeId>,
    operation: Operation,
    operands: &[Operand],
) -> Result<Evaluated<Literal>, Memory>
    requires ty { IsFixed types.now (λ ts. if_type ts ty) }
    requires operands { IsFixed types.now (λ ts. operands_of ts operands.now) }
    ensures { IfOk result (λ e. (ts : List Ty) (facts : Facts) → Under types.now ts facts
        → evaluated_of literal_of e
        ≡ act_value facts (if_type ts ty) (types_in (operands_of ts operands.now)) (Doing operation)
        (values_in facts (operands_of ts operands.now))) }
{
    let values = values_in(alloc, types, operands)?;
    operate(alloc, types, ty, first_type(operands), operation, values)
}

// An object of these values.
#[cycle(values)]
fn object_in(
    alloc: Global,
    types: &TypeTable,
    ty: TypeId,
    fields: &[u32],
    operands: &[Operand],
) -> Result<Evaluated<Literal>, Memory>
    requires ty { IsFixed types.now (λ ts. type_at ts ty) }
    requires operands { IsFixed types.now (λ ts. operands_of ts operands.now) }
    ensures { IfOk result (λ e. (ts : List Ty) (facts : Facts) → Under types.now ts facts
        → evaluated_of literal_of e ≡ act_value facts (Some (type_at ts ty))
        (types_in (operands_of ts operands.now)) (Building fields.now)
        (values_in facts (operands_of ts operands.now))) }
{
    let values = values_in(alloc, types, operands)?;
    construct(alloc, types, ty, fields, &values)
}

// What stands at a path: a fresh value alone.
#[cycle(values)]
fn value_at(alloc: Global, types: &TypeTable, path: &Path) -> Result<Evaluated<Literal>, Memory>
    requires { IsFixed types.now (λ ts. path_of ts path.now) }
    ensures { IfOk result (λ e. (ts : List Ty) (facts : Facts) → Under types.now ts facts
        → evaluated_of literal_of e ≡ value_at facts (path_of ts path.now)) }
{
    match path {
        Path::Fresh { value } => value_in(alloc, types, &**value),
        Path::Variable { .. } => Ok(Evaluated::Varies),
        Path::Field { .. } => Ok(Evaluated::Varies),
        Path::Element { .. } => Ok(Evaluated::Varies),
        Path::Deref { .. } => Ok(Evaluated::Varies),
    }
}

// What an operand comes to.
#[cycle(values)]
fn value_of(
    alloc: Global,
    types: &TypeTable,
    operand: &Operand,
) -> Result<Evaluated<Literal>, Memory>
    requires { IsFixed types.now (λ ts. operands_of ts (operand.now ∷ [])) }
    ensures { IfOk result (λ e. (ts : List Ty) (facts : Facts) → Under types.now ts facts
        → evaluated_of literal_of e ≡ value_of facts ts operand.now) }
{
    match operand {
        Operand::Value(value) => value_in(alloc, types, value),
        Operand::At(path) => value_at(alloc, types, path),
    }
}

#[cycle(values)]
fn values_in(
    alloc: Global,
    types: &TypeTable,
    operands: &[Operand],
) -> Result<Evaluated<Vec<Literal>>, Memory>
    requires { IsFixed types.now (λ ts. operands_of ts operands.now) }
    ensures { IfOk result (λ e. (ts : List Ty) (facts : Facts) → Under types.now ts facts
        → evaluated_of values_of e ≡ values_in facts (operands_of ts operands.now)) }
{
    let mut done = Evaluated::Comes(Vec::new(alloc));
    for operand in operands {
        let value = value_of(alloc, types, operand)?;
        done = with_value(done, value)?;
    }
    Ok(done)
}

/// The number of an index that is constant.
pub fn index_number(alloc: Global, types: &TypeTable, index: &Expr) -> Result<Option<i32>, Memory>
    requires { IsFixed types.now (λ ts. expr_of ts index.now) }
    ensures { IfOk result (λ z. (ts : List Ty) (facts : Facts) → Under types.now ts facts
        → index_number facts (expr_of ts index.now) ≡ z) }
{
    let value = value_in(alloc, types, index)?;
    Ok(number_in(&value))
}
