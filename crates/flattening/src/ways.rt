// How control leaves what is around.
ghost use Rattle.flattening.specs.StmtLines.{back_lines, leaving_by};
ghost use Rattle.flattening.specs.StmtViews.{exits_of};
ghost use Rattle.flattening.specs.Views.{result_of};
ghost use Rattle.flattening.specs.Written.{IsPut};

use crate::around::Around;
use crate::ends::put_return;
use crate::marks::put_jump;
use crate::numbers::Purpose;
use crate::waits::put_ends;
use crate::written::Written;
use flat_code::{Line, Owning};
use nim_program::Leaving;
use std::alloc::Global;

/// What is around a statement, from inside to outside.
#[derive(Clone, Copy)]
pub enum Ways<'a> {
    /// A body alone, whose parameters end.
    Body(&'a [Owning]),
    /// A loop, whose statement has this number.
    Loop(&'a Ways<'a>, u32),
    /// What ends before control leaves.
    Ending(&'a Ways<'a>, &'a [Owning]),
}

/// Control leaves.
pub fn put_leave(
    alloc: Global,
    code: &mut Written<Line>,
    around: &Around,
    ways: &Ways,
    leaving: Leaving,
)
    ensures { IsPut code.old code.new
        (leaving_by (exits_of (result_of around.now) ways.now) leaving) }
{
    match ways {
        Ways::Body(ends) => match leaving {
            Leaving::Break | Leaving::Continue => {}
            Leaving::Return => {
                put_ends(alloc, code, ends);
                put_return(code, around)
            }
        },
        Ways::Loop(outer, number) => match leaving {
            Leaving::Break => put_jump(code, Purpose::End, *number),
            Leaving::Continue => put_jump(code, Purpose::Next, *number),
            Leaving::Return => put_leave(alloc, code, around, outer, leaving),
        },
        Ways::Ending(outer, ends) => {
            put_ends(alloc, code, ends);
            put_leave(alloc, code, around, outer, leaving)
        }
    }
}

/// Control goes back, where it does.
pub fn put_back(alloc: Global, code: &mut Written<Line>, around: &Around, ways: &Ways, back: bool)
    ensures { IsPut code.old code.new
        (back_lines (exits_of (result_of around.now) ways.now) back) }
{
    if back {
        put_leave(alloc, code, around, ways, Leaving::Return)
    }
}
