// What lines do to variables.
ghost use Rattle.std.specs.Prelude.{◌≡◌};
ghost use Rattle.reg_scan.specs.Alive.{passing, effect_of};

use word_code::WordInstr;

/// What a line does to variables, and where control goes from it.
#[derive(Clone, Copy)]
pub struct Effect {
    /// The variables that it reads, if any.
    pub first: Option<u32>,
    pub second: Option<u32>,
    /// The variable that it sets.
    pub to: Option<u32>,
    /// The label to which it may lead.
    pub label: Option<u32>,
    /// Whether control may go to the line behind it.
    pub goes_on: bool,
    /// Whether it calls a procedure.
    pub calls: bool,
}

// Of a line from which control goes on to the next one.
fn passing(first: Option<u32>, second: Option<u32>, to: Option<u32>) -> Effect
    ensures { result ≡ passing first second to }
{
    Effect {
        first,
        second,
        to,
        label: None,
        goes_on: true,
        calls: false,
    }
}

/// What a line does.
pub(crate) fn effect_of(line: WordInstr) -> Effect
    ensures { result ≡ effect_of line }
{
    match line {
        WordInstr::Label { .. } => passing(None, None, None),
        WordInstr::Spend => passing(None, None, None),
        WordInstr::SpendIf { left, right, .. } => passing(Some(left), Some(right), None),
        WordInstr::Constant { to, .. } => passing(None, None, Some(to)),
        WordInstr::Copy { to, from } => passing(Some(from), None, Some(to)),
        WordInstr::Compute {
            to,
            left,
            right,
            ..
        } => passing(Some(left), Some(right), Some(to)),
        WordInstr::Sum { to, from, .. } => passing(Some(from), None, Some(to)),
        WordInstr::Place { to, .. } => passing(None, None, Some(to)),
        WordInstr::Datum { to, .. } => passing(None, None, Some(to)),
        WordInstr::Load { to, address, .. } => passing(Some(address), None, Some(to)),
        WordInstr::Store { address, from, .. } => passing(Some(address), Some(from), None),
        WordInstr::Jump { to } => Effect {
            label: Some(to),
            goes_on: false,
            ..passing(None, None, None)
        },
        WordInstr::Branch {
            left,
            right,
            to,
            ..
        } => Effect {
            label: Some(to),
            ..passing(Some(left), Some(right), None)
        },
        WordInstr::Argument { from, .. } => passing(Some(from), None, None),
        WordInstr::Call { to, .. } => Effect {
            calls: true,
            ..passing(None, None, Some(to))
        },
        WordInstr::Return { from } => Effect {
            goes_on: false,
            ..passing(Some(from), None, None)
        },
        WordInstr::Read { to, address, len } => passing(Some(address), Some(len), Some(to)),
        WordInstr::Write { address, len, .. } => passing(Some(address), Some(len), None),
        WordInstr::Exit { status } => Effect {
            goes_on: false,
            ..passing(Some(status), None, None)
        },
    }
}
