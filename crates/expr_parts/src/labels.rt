// Labels of a `case`.
ghost use Rattle.std.specs.Prelude.{IfOk};
ghost use Rattle.arc_base.specs.Refusal.{Answers};
ghost use Rattle.nim_program.specs.Program.{Ordinals};
ghost use Rattle.nim_program.specs.View.{label_of};
ghost use Rattle.expr_rules.specs.Choices.{range_of};
ghost use Rattle.expr_parts.specs.View.{IsProper};

use crate::value::refusal;
use arc_base::{Code, Place, Stop};
use nim_program::Label;

/// A label from one value to another that isn't below it.
pub fn range_of(at: Place, low: Label, high: Label) -> Result<Label, Stop>
    ensures answers { Answers label_of (range_of at (label_of low) (label_of high)) result }
    ensures proper { IfOk result (λ l. IsProper (label_of l)) }
{
    match (low, high) {
        (Label::Ordinals { low, .. }, Label::Ordinals { low: high, .. }) => range(at, low, high),
        _ => Err(refusal(Code::NotTyped, at)),
    }
}

fn range(at: Place, low: i32, high: i32) -> Result<Label, Stop>
    ensures answers { Answers label_of (range_of at (Ordinals low low) (Ordinals high high)) result }
    ensures proper { IfOk result (λ l. IsProper (label_of l)) }
{
    if low <= high {
        Ok(Label::Ordinals { low, high })
    } else {
        Err(refusal(Code::NotTyped, at))
    }
}
