// A walk over expressions that puts together what is said of each part alone. Lists are gone
// through from their end, since a part is put before all that stands behind it.
ghost use Rattle.std.specs.Prelude.{◌≡◌, false, true, option_map};
ghost use Rattle.nim_program.specs.Program.{Args};
ghost use Rattle.nim_program.specs.View.{expr_of, path_of, operand_before, operands_of};
ghost use Rattle.nim_program.specs.View.{choices_of, picks_of, if_value};
ghost use Rattle.nim_program.specs.Folds.{total, total_at, totals};
ghost use Rattle.nim_program.specs.FoldParts.{with_parts, with_base};

use crate::expr::{Choice, Expr, Operand, Path, Pick};
use crate::fold::Fold;

/// Over an expression and all its parts.
#[cycle(exprs)]
pub fn total<F: Fold>(fold: &F, expr: &Expr) -> F::Value
    ensures { result ≡ total (F.sum fold.now) (F.own fold.now)
        (expr_of (F.types fold.now) expr.now) }
{
    with_parts(fold, fold.of_expr(expr), expr)
}

#[cycle(exprs)]
fn with_parts<F: Fold>(fold: &F, own: F::Value, expr: &Expr) -> F::Value
    ensures { result ≡ with_parts (F.sum fold.now) (F.own fold.now) own
        (expr_of (F.types fold.now) expr.now) }
{
    match expr {
        Expr::Apply { operands, .. } => fold.plus(own, totals(fold, operands)),
        Expr::Call { operands, .. } => fold.plus(own, totals(fold, operands)),
        Expr::Construct { operands, .. } => fold.plus(own, totals(fold, operands)),
        Expr::Constant { .. } => fold.plus(own, fold.none()),
        Expr::Read { path } => total_at(fold, path, true),
        Expr::Early { left, right, .. } => {
            fold.plus(own, fold.plus(total(fold, &**left), total(fold, &**right)))
        }
        Expr::If {
            branches,
            otherwise,
            ..
        } => {
            let last = fold.plus(total(fold, &**otherwise), fold.none());
            fold.plus(own, choice_totals(fold, branches, last))
        }
        Expr::Case {
            selector,
            branches,
            otherwise,
            ..
        } => {
            let values = pick_totals(fold, branches, else_total(fold, otherwise));
            fold.plus(own, operand_total(fold, &**selector, values))
        }
    }
}

/// Over a path, whose value is `read` or stands in place.
#[cycle(exprs)]
pub fn total_at<F: Fold>(fold: &F, path: &Path, read: bool) -> F::Value
    ensures { result ≡ total_at (F.sum fold.now) (F.own fold.now) read
        (path_of (F.types fold.now) path.now) }
{
    with_base(fold, fold.of_path(path, read), path, read)
}

#[cycle(exprs)]
fn with_base<F: Fold>(fold: &F, own: F::Value, path: &Path, read: bool) -> F::Value
    ensures { result ≡ with_base (F.sum fold.now) (F.own fold.now) read own
        (path_of (F.types fold.now) path.now) }
{
    match path {
        Path::Variable { .. } => own,
        Path::Fresh { value } => match &**value {
            Expr::Constant { .. } => own,
            _ => fold.plus(own, total(fold, &**value)),
        },
        Path::Field { base, .. } => fold.plus(own, total_at(fold, &**base, false)),
        Path::Element { base, index, .. } => {
            let parts = fold.plus(total_at(fold, &**base, false), total(fold, &**index));
            fold.plus(own, parts)
        }
        Path::Deref { base, .. } => fold.plus(own, total_at(fold, &**base, false)),
    }
}

// Of an operand before others, which are this.
#[cycle(exprs)]
pub fn operand_total<F: Fold>(fold: &F, operand: &Operand, others: F::Value) -> F::Value
    ensures { (rest : Args) → others ≡ totals (F.sum fold.now) (F.own fold.now) rest
        → result ≡ totals (F.sum fold.now) (F.own fold.now)
        (operand_before (F.types fold.now) operand.now rest) }
{
    match operand {
        Operand::Value(value) => fold.plus(total(fold, value), others),
        Operand::At(path) => fold.plus(total_at(fold, path, false), others),
    }
}

/// Over operands.
#[cycle(exprs)]
pub fn totals<F: Fold>(fold: &F, operands: &Vec<Operand>) -> F::Value
    ensures { result ≡ totals (F.sum fold.now) (F.own fold.now)
        (operands_of (F.types fold.now) operands.now.items) }
{
    let mut all = fold.none();
    let mut i = operands.len();
    while i > 0 {
        i -= 1;
        all = operand_total(fold, &operands[i], all);
    }
    all
}

// Of branches before others, which are this.
#[cycle(exprs)]
fn choice_totals<F: Fold>(fold: &F, choices: &Vec<Choice>, others: F::Value) -> F::Value
    ensures { (rest : Args) → others ≡ totals (F.sum fold.now) (F.own fold.now) rest
        → result ≡ totals (F.sum fold.now) (F.own fold.now)
        (choices_of (F.types fold.now) choices.now.items rest) }
{
    let mut all = others;
    let mut i = choices.len();
    while i > 0 {
        i -= 1;
        let choice = &choices[i];
        all = fold.plus(total(fold, &choice.value), all);
        all = fold.plus(total(fold, &choice.condition), all);
    }
    all
}

#[cycle(exprs)]
fn pick_totals<F: Fold>(fold: &F, picks: &Vec<Pick>, others: F::Value) -> F::Value
    ensures { (rest : Args) → others ≡ totals (F.sum fold.now) (F.own fold.now) rest
        → result ≡ totals (F.sum fold.now) (F.own fold.now)
        (picks_of (F.types fold.now) picks.now.items rest) }
{
    let mut all = others;
    let mut i = picks.len();
    while i > 0 {
        i -= 1;
        all = fold.plus(total(fold, &picks[i].value), all);
    }
    all
}

// Of the value of `else`, where there is one.
#[cycle(exprs)]
fn else_total<F: Fold>(fold: &F, otherwise: &Option<Box<Expr>>) -> F::Value
    ensures { result ≡ totals (F.sum fold.now) (F.own fold.now)
        (if_value (F.types fold.now) (option_map (λ e. e.value) otherwise.now)) }
{
    match otherwise {
        None => fold.none(),
        Some(value) => fold.plus(total(fold, &**value), fold.none()),
    }
}
