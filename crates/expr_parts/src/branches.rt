// Nodes with the value of a branch.
ghost use Rattle.std.specs.Prelude.{◌≡◌, List, option_map, IfOk, IfErr};
ghost use Rattle.arc_base.specs.declared.place.Stop.TheVariants as Stop;
ghost use Rattle.nim_types.specs.Types.{Ty};
ghost use Rattle.nim_program.specs.Nodes.{followed_by, one_value, selecting};
ghost use Rattle.nim_program.specs.Program.{Args, Choose, ByConditions, ByLabels, NoArg};
ghost use Rattle.nim_program.specs.View.{expr_of, if_type, if_value, operand_before};
ghost use Rattle.nim_program.specs.View.{choices_of, picks_of, pick_labels};
ghost use Rattle.expr_rules.specs.Answers.{node};
ghost use Rattle.expr_parts.specs.View.{number_of};

use arc_base::{Place, Stop};
use nim_program::{Choice, Expr, Node, Operand, Pick};
use nim_types::TypeId;
use std::alloc::Global;

/// `if` with the value of a branch.
pub fn chosen(
    alloc: Global,
    number: u32,
    at: Place,
    ty: Option<TypeId>,
    branches: Vec<Choice>,
    otherwise: Expr,
) -> Result<Expr, Stop>
    ensures expr { IfOk result (λ e. (ts : List Ty) → expr_of ts e ≡ Choose (node number at)
        (if_type ts ty) ByConditions
        (followed_by (choices_of ts branches.items NoArg) (one_value (expr_of ts otherwise)))) }
    ensures number { IfOk result (λ e. number_of e ≡ ty) }
    ensures memory { IfErr result (λ stop. stop ≡ Stop.Memory) }
{
    let otherwise = Box::new(alloc, otherwise)?;
    Ok(Expr::If {
        node: Node { number, at },
        ty,
        branches,
        otherwise,
    })
}

/// What selects a branch: what stands at a path is read in place.
pub fn selector_of(value: Expr) -> Operand
    ensures { (ts : List Ty) (rest : Args) →
        operand_before ts result rest ≡ selecting (expr_of ts value) rest }
{
    match value {
        Expr::Read { path } => Operand::At(path),
        other => Operand::Value(other),
    }
}

fn case_of(
    alloc: Global,
    number: u32,
    at: Place,
    ty: Option<TypeId>,
    selector: Operand,
    branches: Vec<Pick>,
    otherwise: Option<Box<Expr>>,
) -> Result<Expr, Stop>
    ensures expr { IfOk result (λ e. (ts : List Ty) → expr_of ts e ≡ Choose (node number at)
        (if_type ts ty) (ByLabels (pick_labels branches.items)) (operand_before ts selector
        (picks_of ts branches.items (if_value ts (option_map (λ v. v.value) otherwise))))) }
    ensures number { IfOk result (λ e. number_of e ≡ ty) }
    ensures memory { IfErr result (λ stop. stop ≡ Stop.Memory) }
{
    let selector = Box::new(alloc, selector)?;
    Ok(Expr::Case {
        node: Node { number, at },
        ty,
        selector,
        branches,
        otherwise,
    })
}

/// `case` with the value of a branch, and no `else`.
pub fn selected(
    alloc: Global,
    number: u32,
    at: Place,
    ty: Option<TypeId>,
    selector: Expr,
    branches: Vec<Pick>,
) -> Result<Expr, Stop>
    ensures expr { IfOk result (λ e. (ts : List Ty) → expr_of ts e ≡ Choose (node number at)
        (if_type ts ty) (ByLabels (pick_labels branches.items))
        (selecting (expr_of ts selector) (picks_of ts branches.items NoArg))) }
    ensures number { IfOk result (λ e. number_of e ≡ ty) }
    ensures memory { IfErr result (λ stop. stop ≡ Stop.Memory) }
{
    case_of(alloc, number, at, ty, selector_of(selector), branches, None)
}

/// `case` with the value of a branch or of `else`.
pub fn selected_else(
    alloc: Global,
    number: u32,
    at: Place,
    ty: Option<TypeId>,
    selector: Expr,
    branches: Vec<Pick>,
    otherwise: Expr,
) -> Result<Expr, Stop>
    ensures expr { IfOk result (λ e. (ts : List Ty) → expr_of ts e ≡ Choose (node number at)
        (if_type ts ty) (ByLabels (pick_labels branches.items)) (selecting (expr_of ts selector)
        (followed_by (picks_of ts branches.items NoArg) (one_value (expr_of ts otherwise))))) }
    ensures number { IfOk result (λ e. number_of e ≡ ty) }
    ensures memory { IfErr result (λ stop. stop ≡ Stop.Memory) }
{
    match Box::new(alloc, otherwise) {
        Ok(otherwise) => case_of(
            alloc,
            number,
            at,
            ty,
            selector_of(selector),
            branches,
            Some(otherwise),
        ),
        Err(otherwise) => {
            drop(otherwise);
            drop(selector);
            Err(Stop::Memory)
        }
    }
}
