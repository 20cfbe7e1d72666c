// The lines of a loop beside those of its body.
ghost use Rattle.std.specs.Prelude.{◌≡◌, IfSome};
ghost use Rattle.nim_meaning.specs.Meaning.{is_fresh};
ghost use Rattle.nim_program.specs.View.{operands_of, declared_of};
ghost use Rattle.flattening.specs.StmtLines.{second};
ghost use Rattle.flattening.specs.StmtViews.{tested, before_turns, next_element};
ghost use Rattle.flattening.specs.Views.{types_of, facts_of, modes_of, result_of};
ghost use Rattle.flattening.specs.Written.{IsPut};

use crate::around::Around;
use crate::expr_code::add_expr;
use crate::finds::add_head_place;
use crate::marks::{put_beyond, put_jump, put_label, put_turn};
use crate::numbers::Purpose;
use crate::spans::behind_value;
use crate::stmt_acts::put_item;
use crate::waits::put_value_ends;
use crate::written::Written;
use flat_code::Line;
use nim_program::{Operand, Path, PlaceDecl, Use};
use std::alloc::Global;

/// The condition of a `while`, whose temporaries end.
pub fn add_test(
    alloc: Global,
    code: &mut Written<Line>,
    around: &Around,
    head: &Vec<Operand>,
    t: u32,
)
    ensures { IsPut code.old code.new (tested (types_of around.now) (facts_of around.now)
        (modes_of around.now) (result_of around.now)
        (operands_of (types_of around.now) head.now.items) t) }
{
    match head.first() {
        Some(Operand::Value(condition)) => {
            add_expr(alloc, code, around, condition, Use::Owned, t);
            put_value_ends(alloc, code, around, condition, Use::Owned)
        }
        _ => code.put(Line::Zero { to: t }),
    }
}

/// Behind the first operand of a loop's head, where that is a value.
pub fn second(around: &Around, head: &Vec<Operand>, t: u32) -> Option<u32>
    ensures { IfSome result (λ u. u
        ≡ second (operands_of (types_of around.now) head.now.items) t) }
{
    match head.first() {
        Some(Operand::Value(value)) => behind_value(around, t, value),
        _ => Some(t),
    }
}

// Whether a head is a value of its own.
fn is_fresh(around: &Around, head: &Vec<Operand>) -> bool
    ensures { result ≡ is_fresh (operands_of (types_of around.now) head.now.items) }
{
    match head.first() {
        Some(Operand::At(Path::Fresh { .. })) => true,
        _ => false,
    }
}

/// How many elements there are, and that their first one is next.
pub fn put_before_turns(
    alloc: Global,
    code: &mut Written<Line>,
    around: &Around,
    head: &Vec<Operand>,
    t: u32,
    counter: u32,
    length: u32,
    place: u32,
)
    ensures { IsPut code.old code.new (before_turns (types_of around.now) (facts_of around.now)
        (modes_of around.now) (result_of around.now)
        (operands_of (types_of around.now) head.now.items) t counter length place) }
{
    add_head_place(alloc, code, around, head, place);
    code.put(Line::Length {
        to: length,
        from: place,
    });
    code.put(Line::Zero { to: counter });
    put_jump(code, Purpose::Arm, t);
    put_label(code, Purpose::Turn, t)
}

/// The next element, where there is one.
pub fn put_element(
    alloc: Global,
    code: &mut Written<Line>,
    around: &Around,
    variable: &PlaceDecl,
    head: &Vec<Operand>,
    t: u32,
    counter: u32,
    length: u32,
    place: u32,
)
    ensures { IsPut code.old code.new (next_element (types_of around.now) (facts_of around.now)
        (modes_of around.now) (result_of around.now)
        (declared_of (types_of around.now) variable.now)
        (operands_of (types_of around.now) head.now.items) t counter length place) }
{
    let borrows = is_fresh(around, head);
    code.put(Line::Next {
        counter,
        last: length,
    });
    put_label(code, Purpose::Arm, t);
    put_beyond(code, counter, length, false, t);
    add_head_place(alloc, code, around, head, place);
    code.put(Line::Still {
        from: place,
        length,
    });
    put_item(alloc, code, around, borrows, variable, t, place, counter);
    put_turn(code, t);
    put_label(code, Purpose::End, t)
}
