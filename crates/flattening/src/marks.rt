// Lines that are labels or lead to labels.
ghost use Rattle.std.specs.Prelude.{ℕ, List};
ghost use Rattle.nim_types.specs.Types.{Ty, Facts};
ghost use Rattle.nim_program.specs.declared.program.Mode.{Mode};
ghost use Rattle.flat_code.specs.declared.line.Line.TheVariants as line;
ghost use Rattle.flattening.specs.Numbering.{label};
ghost use Rattle.flattening.specs.Written.{IsPut, one};
ghost use Rattle.flattening.specs.ExprLines.{arm_label, early_lines};
ghost use Rattle.flattening.specs.declared.numbers.Purpose.TheVariants.{Arm, End, Next, Turn};

use crate::numbers::Purpose;
use crate::spans::label;
use crate::written::Written;
use flat_code::Line;
use nim_program::Short;

pub fn put_label(code: &mut Written<Line>, purpose: Purpose, t: u32)
    ensures { IsPut code.old code.new (one (line.Label (label purpose t))) }
{
    match label(purpose, t) {
        None => code.lose(),
        Some(name) => code.put(Line::Label { name }),
    }
}

pub fn put_jump(code: &mut Written<Line>, purpose: Purpose, t: u32)
    ensures { IsPut code.old code.new (one (line.Jump (label purpose t))) }
{
    match label(purpose, t) {
        None => code.lose(),
        Some(to) => code.put(Line::Jump { to }),
    }
}

pub fn put_unless(code: &mut Written<Line>, from: u32, purpose: Purpose, t: u32)
    ensures { IsPut code.old code.new (one (line.Unless from (label purpose t))) }
{
    match label(purpose, t) {
        None => code.lose(),
        Some(to) => code.put(Line::Unless { from, to }),
    }
}

pub fn put_turn(code: &mut Written<Line>, t: u32)
    ensures { IsPut code.old code.new (one (line.Turn (label Turn t))) }
{
    match label(Purpose::Turn, t) {
        None => code.lose(),
        Some(to) => code.put(Line::Turn { to }),
    }
}

pub fn put_turn_if(code: &mut Written<Line>, from: u32, t: u32)
    ensures { IsPut code.old code.new (one (line.TurnIf from (label Turn t))) }
{
    match label(Purpose::Turn, t) {
        None => code.lose(),
        Some(to) => code.put(Line::TurnIf { from, to }),
    }
}

pub fn put_count_turn(code: &mut Written<Line>, counter: u32, last: u32, inclusive: bool, t: u32)
    ensures { IsPut code.old code.new
        (one (line.CountTurn counter last inclusive (label Turn t))) }
{
    match label(Purpose::Turn, t) {
        None => code.lose(),
        Some(to) => code.put(Line::CountTurn {
            counter,
            last,
            inclusive,
            to,
        }),
    }
}

pub fn put_beyond(code: &mut Written<Line>, counter: u32, last: u32, inclusive: bool, t: u32)
    ensures { IsPut code.old code.new
        (one (line.Beyond counter last inclusive (label End t))) }
{
    match label(Purpose::End, t) {
        None => code.lose(),
        Some(to) => code.put(Line::Beyond {
            counter,
            last,
            inclusive,
            to,
        }),
    }
}

/// Where an arm begins, and, where it is for all else, where what no label fits leads to it.
pub fn put_arm_label(code: &mut Written<Line>, for_others: bool, t: u32, arm: u32)
    ensures { IsPut code.old code.new (arm_label for_others (label Next t) (label Arm arm)) }
{
    if for_others {
        put_label(code, Purpose::Next, t);
    }
    put_label(code, Purpose::Arm, arm)
}

/// What stands between the operands of an operator that stops early.
pub fn put_early(code: &mut Written<Line>, short: Short, t: u32, left: u32)
    ensures { (types : List Ty) (facts : Facts) (modes : (proc position : ℕ) → Mode) →
        IsPut code.old code.new (early_lines types facts modes short t left) }
{
    match short {
        Short::And => {
            code.put(Line::Truth {
                to: t,
                value: false,
            });
            put_unless(code, left, Purpose::End, t)
        }
        Short::Or => {
            code.put(Line::Truth { to: t, value: true });
            put_unless(code, left, Purpose::Next, t);
            put_jump(code, Purpose::End, t);
            put_label(code, Purpose::Next, t)
        }
    }
}
