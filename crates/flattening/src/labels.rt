// The tests of a `case`, and whether its last branch is for all else.
ghost use Rattle.std.specs.Prelude.{◌≡◌, ◌&&◌, ◌∷◌, [], Option, option_map, map, IfOk};
ghost use Rattle.nim_program.specs.declared.expr.Expr.{Expr as RustExpr};
ghost use Rattle.nim_program.specs.Program.{NoArg};
ghost use Rattle.nim_program.specs.View.{label_of, operand_before, picks_of, pick_labels, if_value};
ghost use Rattle.nim_meaning.specs.Shapes.{is_covered, selector_type, is_last_value};
ghost use Rattle.flattening.specs.declared.numbers.Purpose.TheVariants.{Arm};
ghost use Rattle.flattening.specs.ExprLines.{written_label, label_tests, value_tests};
ghost use Rattle.flattening.specs.Numbering.{label};
ghost use Rattle.flattening.specs.Views.{types_of};
ghost use Rattle.flattening.specs.Written.{IsPut};

use crate::around::Around;
use crate::known::is_covered;
use crate::numbers::Purpose;
use crate::spans::{behind_value, label};
use crate::written::Written;
use arc_base::{Bytes, Items, Memory};
use flat_code::Line;
use nim_program::{Expr, Label, Operand, Pick};
use std::alloc::Global;

/// The tests of a branch's labels.
pub fn put_label_tests(
    alloc: Global,
    code: &mut Written<Line>,
    labels: &Items<Label>,
    selector: u32,
    arm: u32,
)
    ensures { IsPut code.old code.new
        (label_tests (map label_of labels.now) selector (label Arm arm)) }
{
    match label(Purpose::Arm, arm) {
        None => code.lose(),
        Some(to) => put_tests(alloc, code, labels.as_slice(), selector, to),
    }
}

fn put_tests(alloc: Global, code: &mut Written<Line>, labels: &[Label], selector: u32, to: u32)
    ensures { IsPut code.old code.new (label_tests (map label_of labels.now) selector to) }
{
    for label in labels {
        put_test(alloc, code, label, selector, to);
    }
}

fn put_test(alloc: Global, code: &mut Written<Line>, label: &Label, selector: u32, to: u32)
    ensures { IsPut code.old code.new (label_tests (label_of label.now ∷ []) selector to) }
{
    match written_label(alloc, label) {
        Err(_) => code.lose(),
        Ok(these) => code.put(Line::Fits {
            from: selector,
            these,
            to,
        }),
    }
}

fn written_label(alloc: Global, label: &Label) -> Result<Label, Memory>
    ensures { IfOk result (λ these. these ≡ written_label (label_of label.now)) }
{
    match label {
        Label::Ordinals { low, high } => Ok(Label::Ordinals {
            low: *low,
            high: *high,
        }),
        Label::Text(text) => {
            let text = Bytes::from_slice(alloc, text.as_slice())?;
            Ok(Label::Text(text))
        }
    }
}

/// The tests of the labels of all branches, whose values' numbers begin with t.
pub fn put_value_tests(
    alloc: Global,
    code: &mut Written<Line>,
    around: &Around,
    branches: &Vec<Pick>,
    selector: u32,
    first: u32,
)
    ensures { (otherwise : Option RustExpr) → IsPut code.old code.new (value_tests
        (pick_labels branches.now.items) (picks_of (types_of around.now) branches.now.items
        (if_value (types_of around.now) otherwise)) selector first) }
{
    let mut u = first;
    for branch in branches {
        let Some(following) = behind_value(around, u, &branch.value) else {
            return code.lose();
        };
        put_label_tests(alloc, code, &branch.labels, selector, u);
        u = following;
    }
}

/// Whether labels cover the type of a selector, where there is no `else`.
pub fn covers(around: &Around, selector: &Operand) -> bool
    ensures { result ≡ is_covered (selector_type (operand_before (types_of around.now)
        selector.now NoArg)) }
{
    match selector {
        Operand::Value(value) => is_covered(around, value.ty()),
        Operand::At(path) => is_covered(around, path.ty()),
    }
}

/// Whether the last branch is for all else: labels cover the type, and nothing follows.
pub fn may_close(around: &Around, selector: &Operand, otherwise: &Option<Box<Expr>>) -> bool
    ensures { result ≡ (is_covered (selector_type (operand_before (types_of around.now)
        selector.now NoArg)) && is_last_value (if_value (types_of around.now)
        (option_map (λ e. e.value) otherwise.now))) }
{
    match otherwise {
        None => covers(around, selector),
        Some(_) => false,
    }
}
