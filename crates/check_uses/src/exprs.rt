// What occurs in expressions, in order of text.
ghost use Rattle.std.specs.Prelude.{◌≡◌, ◌++◌, ◌∷◌, [], None, Some, OnOk, option_map};
ghost use Rattle.decl_rules.specs.Occurrences.{in_expr, in_path, in_args, calls};
ghost use Rattle.nim_program.specs.Program.{NoArg};
ghost use Rattle.nim_program.specs.View.{expr_of, path_of, operands_of, choices_of, picks_of};
ghost use Rattle.check_uses.specs.Uses.{seen, in_operand, in_other};

use crate::paths::{add_handed, add_variable};
use crate::uses::Occurrence;
use arc_base::{Items, Memory};
use nim_program::{Choice, Expr, Operand, Path, Pick};

/// Adds what occurs in an expression.
#[cycle(exprs)]
pub fn add_expr(uses: &mut Items<Occurrence>, expr: &Expr) -> Result<(), Memory>
    ensures { OnOk result (seen uses.new ≡ seen uses.old ++ in_expr (expr_of [] expr.now)) }
{
    match expr {
        Expr::Constant { .. } => Ok(()),
        Expr::Read { path } => add_path(uses, path),
        Expr::Apply { operands, .. } => add_operands(uses, None, operands),
        Expr::Construct { operands, .. } => add_operands(uses, None, operands),
        Expr::Call { proc, operands, .. } => add_call(uses, *proc, operands),
        Expr::Early { left, right, .. } => {
            add_expr(uses, &**left)?;
            add_expr(uses, &**right)
        }
        Expr::If {
            branches,
            otherwise,
            ..
        } => {
            add_choices(uses, branches)?;
            add_expr(uses, &**otherwise)
        }
        Expr::Case {
            selector,
            branches,
            otherwise,
            ..
        } => {
            add_operand(uses, None, &**selector)?;
            add_picks(uses, branches)?;
            add_other(uses, otherwise)
        }
    }
}

/// Adds what occurs in a path.
#[cycle(exprs)]
pub fn add_path(uses: &mut Items<Occurrence>, path: &Path) -> Result<(), Memory>
    ensures { OnOk result (seen uses.new ≡ seen uses.old ++ in_path (path_of [] path.now)) }
{
    match path {
        Path::Variable { place, global, .. } => add_variable(uses, *global, *place),
        Path::Fresh { value } => add_expr(uses, &**value),
        Path::Field { base, .. } | Path::Deref { base, .. } => add_path(uses, &**base),
        Path::Element { base, index, .. } => {
            add_path(uses, &**base)?;
            add_expr(uses, &**index)
        }
    }
}

#[cycle(exprs)]
fn add_call(uses: &mut Items<Occurrence>, proc: u32, operands: &Vec<Operand>) -> Result<(), Memory>
    ensures { OnOk result (seen uses.new ≡ seen uses.old
        ++ calls proc ∷ in_args (Some proc) (operands_of [] operands.now.items)) }
{
    uses.push(Occurrence::Calls { proc })?;
    add_operands(uses, Some(proc), operands)
}

/// Adds what occurs in an operand, of the procedure that is called or of something else.
#[cycle(exprs)]
pub fn add_operand(
    uses: &mut Items<Occurrence>,
    callee: Option<u32>,
    operand: &Operand,
) -> Result<(), Memory>
    ensures { OnOk result (seen uses.new ≡ seen uses.old ++ in_operand callee operand.now) }
{
    match operand {
        Operand::Value(value) => add_expr(uses, value),
        Operand::At(path) => {
            add_path(uses, path)?;
            add_handed(uses, callee, path)
        }
    }
}

/// Adds what occurs in operands.
#[cycle(exprs)]
pub fn add_operands(
    uses: &mut Items<Occurrence>,
    callee: Option<u32>,
    operands: &Vec<Operand>,
) -> Result<(), Memory>
    ensures { OnOk result (seen uses.new
        ≡ seen uses.old ++ in_args callee (operands_of [] operands.now.items)) }
{
    for operand in operands {
        add_operand(uses, callee, operand)?;
    }
    Ok(())
}

#[cycle(exprs)]
fn add_other(uses: &mut Items<Occurrence>, other: &Option<Box<Expr>>) -> Result<(), Memory>
    ensures { OnOk result (seen uses.new
        ≡ seen uses.old ++ in_other (option_map (λ e. expr_of [] e.value) other.now)) }
{
    match other {
        None => Ok(()),
        Some(value) => add_expr(uses, &**value),
    }
}

#[cycle(exprs)]
fn add_choices(uses: &mut Items<Occurrence>, choices: &Vec<Choice>) -> Result<(), Memory>
    ensures { OnOk result (seen uses.new
        ≡ seen uses.old ++ in_args None (choices_of [] choices.now.items NoArg)) }
{
    for choice in choices {
        add_expr(uses, &choice.condition)?;
        add_expr(uses, &choice.value)?;
    }
    Ok(())
}

#[cycle(exprs)]
fn add_picks(uses: &mut Items<Occurrence>, picks: &Vec<Pick>) -> Result<(), Memory>
    ensures { OnOk result (seen uses.new
        ≡ seen uses.old ++ in_args None (picks_of [] picks.now.items NoArg)) }
{
    for pick in picks {
        add_expr(uses, &pick.value)?;
    }
    Ok(())
}
