// The first node of an expression that is left out of what is built.
ghost use Rattle.std.specs.Prelude.{Some, ◌≡◌, ◌∷◌, ◌||◌, ℕ, false, List, Option, map, option_map};
ghost use Rattle.nim_types.specs.Types.{Ty, Facts};
ghost use Rattle.nim_types.specs.Table.{type_at, meant};
ghost use Rattle.nim_program.specs.Program.{Args, Calling, Chooser, Choose, NoArg, ByValue};
ghost use Rattle.nim_program.specs.Program.{types_in};
ghost use Rattle.nim_program.specs.declared.expr.Node.{Node};
ghost use Rattle.nim_program.specs.View.{expr_of, path_of, operands_of, operand_before};
ghost use Rattle.nim_program.specs.View.{choices_of, picks_of, if_value, if_type};
ghost use Rattle.nim_meaning.specs.Unbuilt.{any_unbuilt, gives_unbuilt};
ghost use Rattle.nim_meaning.specs.LeftOut.{left_out_in, left_out_in_path, left_out_in_args};
ghost use Rattle.nim_meaning.specs.LeftOut.{first_unbuilt, is_built, is_act_built};
ghost use Rattle.nim_meaning.specs.LeftOut.{is_exception_type};
ghost use Rattle.nim_meaning.specs.LeftOut.{◌or_then◌};
ghost use Rattle.program_limits.specs.Known.{known_types, known_facts};

use crate::known::Known;
use crate::parts::{either, if_either, if_unbuilt, or_then, out_if, out_unless};
use crate::types::{gives_unbuilt, is_unbuilt};
use nim_program::{Choice, Expr, Node, Operand, Operation, Path, Pick};
use nim_types::{TypeDef, TypeId, entry, table_entries};

// ---- the table of operations, by what is built

/// The type of an operand, None where it gives no value.
pub fn operand_type(operand: &Operand) -> Option<TypeId>
    ensures { (ts : List Ty) (rest : Args) → types_in (operand_before ts operand.now rest)
        ≡ if_type ts result ∷ types_in rest }
{
    match operand {
        Operand::Value(value) => value.ty(),
        Operand::At(path) => path.ty(),
    }
}

fn operand_unbuilt(known: &Known, operand: &Operand) -> bool
    ensures { (rest : Args) → any_unbuilt (known_facts known.now)
        (types_in (operand_before (known_types known.now) operand.now rest))
        ≡ (result || any_unbuilt (known_facts known.now) (types_in rest)) }
{
    gives_unbuilt(known, operand_type(operand))
}

fn any_unbuilt(known: &Known, operands: &Vec<Operand>) -> bool
    ensures { result ≡ any_unbuilt (known_facts known.now)
        (types_in (operands_of (known_types known.now) operands.now.items)) }
{
    for operand in operands {
        if operand_unbuilt(known, operand) {
            return true;
        }
    }
    false
}

fn is_built(known: &Known, operation: Operation, operands: &Vec<Operand>) -> bool
    ensures { result ≡ is_built operation (known_facts known.now)
        (types_in (operands_of (known_types known.now) operands.now.items)) }
{
    match operation {
        Operation::Compare(_) | Operation::Measure(_) => !any_unbuilt(known, operands),
        Operation::IsNil | Operation::ReadLine | Operation::Destroy | Operation::Blank => false,
        Operation::Join
        | Operation::Show
        | Operation::Sequence
        | Operation::NewSequence
        | Operation::Add
        | Operation::Append
        | Operation::SetLength
        | Operation::Pop
        | Operation::Default
        | Operation::Unary(_)
        | Operation::Binary(_)
        | Operation::Convert
        | Operation::Make
        | Operation::Echo
        | Operation::Quit
        | Operation::ReadLineInto
        | Operation::Assign
        | Operation::Update(_)
        | Operation::Move
        | Operation::Swap
        | Operation::Discard => true,
    }
}

// A call has no types for type parameters.
fn is_call_built(known: &Known, types: &[TypeId], operands: &Vec<Operand>) -> bool
    ensures { (proc : ℕ) (facts : Facts) (ty : Option Ty) → result
        ≡ is_act_built (Calling proc (map (type_at (known_types known.now)) types.now)) facts ty
        (operands_of (known_types known.now) operands.now.items) }
{
    types.is_empty()
}

// ---- exceptions

fn means_exception(def: &TypeDef) -> bool
    ensures { (ts : List Ty) → result ≡ is_exception_type (Some (meant ts def.now)) }
{
    matches!(def, TypeDef::Exception { .. })
}

// A number beyond the table counts as an int.
fn is_exception(known: &Known, ty: TypeId) -> bool
    ensures { result ≡ is_exception_type (Some (type_at (known_types known.now) ty)) }
{
    table_entries();
    match entry(known.types, ty) {
        Some(def) => means_exception(def),
        None => false,
    }
}

fn gives_exception(known: &Known, ty: Option<TypeId>) -> bool
    ensures { result ≡ is_exception_type (if_type (known_types known.now) ty) }
{
    match ty {
        None => false,
        Some(ty) => is_exception(known, ty),
    }
}

// ---- expressions

/// The first node of an expression that is left out. A node comes before its operands.
#[cycle(lacking)]
pub fn of_expr(known: &Known, expr: &Expr) -> Option<Node>
    ensures { result
        ≡ left_out_in (known_facts known.now) (expr_of (known_types known.now) expr.now) }
{
    match expr {
        Expr::Apply {
            node,
            ty,
            operation,
            operands,
        } => {
            let here = out_unless(known, *ty, is_built(known, *operation, operands), *node);
            or_then(here, of_operands(known, operands))
        }
        Expr::Call {
            node,
            ty,
            types,
            operands,
            ..
        } => {
            let here = out_unless(
                known,
                *ty,
                is_call_built(known, types.as_slice(), operands),
                *node,
            );
            or_then(here, of_operands(known, operands))
        }
        Expr::Construct {
            node,
            ty,
            operands,
            ..
        } => or_then(if_unbuilt(known, *ty, *node), of_operands(known, operands)),
        Expr::Constant { node, ty, .. } => if_unbuilt(known, *ty, *node),
        Expr::Read { path } => of_path(known, path),
        Expr::Early { left, right, .. } => {
            or_then(of_expr(known, &**left), of_expr(known, &**right))
        }
        Expr::If { .. } => of_choice(known, expr),
        Expr::Case { .. } => of_choice(known, expr),
    }
}

// The same of an expression that chooses.
#[cycle(lacking)]
fn of_choice(known: &Known, expr: &Expr) -> Option<Node>
    ensures { (node : Node) (ty : Option Ty) (chooser : Chooser) (parts : Args) →
        expr_of (known_types known.now) expr.now ≡ Choose node ty chooser parts →
        result ≡ left_out_in (known_facts known.now) (Choose node ty chooser parts) }
{
    match expr {
        Expr::If {
            node,
            ty,
            branches,
            otherwise,
        } => {
            let here = if_either(known, *ty, first_type(branches, &**otherwise), *node);
            or_then(
                here,
                or_then(of_choices(known, branches), of_expr(known, &**otherwise)),
            )
        }
        Expr::Case {
            node,
            ty,
            selector,
            branches,
            otherwise,
        } => {
            let here = if_either(known, *ty, operand_type(&**selector), *node);
            let values = or_then(of_picks(known, branches), of_else(known, otherwise));
            or_then(here, or_then(of_operand(known, &**selector), values))
        }
        _ => None,
    }
}

/// The first node of a path that is left out.
#[cycle(lacking)]
pub fn of_path(known: &Known, path: &Path) -> Option<Node>
    ensures { result
        ≡ left_out_in_path (known_facts known.now) (path_of (known_types known.now) path.now) }
{
    match path {
        Path::Variable { node, ty, .. } => if_unbuilt(known, *ty, *node),
        Path::Fresh { value } => of_expr(known, &**value),
        Path::Field { node, ty, base, .. } => {
            let left_out = either(is_unbuilt(known, *ty), gives_exception(known, base.ty()));
            or_then(out_if(left_out, *node), of_path(known, &**base))
        }
        Path::Element {
            node,
            ty,
            base,
            index,
            ..
        } => {
            let inside = or_then(of_path(known, &**base), of_expr(known, &**index));
            or_then(if_unbuilt(known, *ty, *node), inside)
        }
        Path::Deref { base, .. } => Some(base.node()),
    }
}

/// The first node of an operand that is left out.
#[cycle(lacking)]
pub fn of_operand(known: &Known, operand: &Operand) -> Option<Node>
    ensures { (rest : Args) → left_out_in_args (known_facts known.now)
        (operand_before (known_types known.now) operand.now rest)
        ≡ (result or_then left_out_in_args (known_facts known.now) rest) }
{
    match operand {
        Operand::Value(value) => of_expr(known, value),
        Operand::At(path) => of_path(known, path),
    }
}

/// The first node of operands that is left out.
#[cycle(lacking)]
pub fn of_operands(known: &Known, operands: &Vec<Operand>) -> Option<Node>
    ensures { result ≡ left_out_in_args (known_facts known.now)
        (operands_of (known_types known.now) operands.now.items) }
{
    for operand in operands {
        if let Some(node) = of_operand(known, operand) {
            return Some(node);
        }
    }
    None
}

// ---- choices

// The type of the first condition, or of the value where there is none.
fn first_type(branches: &Vec<Choice>, otherwise: &Expr) -> Option<TypeId>
    ensures { (facts : Facts) (ts : List Ty) → first_unbuilt facts
        (types_in (choices_of ts branches.now.items (ByValue (expr_of ts otherwise.now) NoArg)))
        ≡ gives_unbuilt facts (if_type ts result) }
{
    if branches.is_empty() {
        return otherwise.ty();
    }
    branches[0].condition.ty()
}

#[cycle(lacking)]
fn of_choices(known: &Known, choices: &Vec<Choice>) -> Option<Node>
    ensures { (rest : Args) → left_out_in_args (known_facts known.now)
        (choices_of (known_types known.now) choices.now.items rest)
        ≡ (result or_then left_out_in_args (known_facts known.now) rest) }
{
    for choice in choices {
        if let Some(node) = or_then(
            of_expr(known, &choice.condition),
            of_expr(known, &choice.value),
        ) {
            return Some(node);
        }
    }
    None
}

#[cycle(lacking)]
fn of_picks(known: &Known, picks: &Vec<Pick>) -> Option<Node>
    ensures { (rest : Args) → left_out_in_args (known_facts known.now)
        (picks_of (known_types known.now) picks.now.items rest)
        ≡ (result or_then left_out_in_args (known_facts known.now) rest) }
{
    for pick in picks {
        if let Some(node) = of_expr(known, &pick.value) {
            return Some(node);
        }
    }
    None
}

#[cycle(lacking)]
fn of_else(known: &Known, otherwise: &Option<Box<Expr>>) -> Option<Node>
    ensures { result ≡ left_out_in_args (known_facts known.now)
        (if_value (known_types known.now) (option_map (λ e. e.value) otherwise.now)) }
{
    match otherwise {
        None => None,
        Some(value) => of_expr(known, &**value),
    }
}
