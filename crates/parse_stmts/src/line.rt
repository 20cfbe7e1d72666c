// Lines of simple statements.
ghost use Rattle.std.specs.Prelude.{suc, ◌<◌, ◌^◌, length};
ghost use Rattle.nim_tree.specs.Statements.{statements_of};
ghost use Rattle.parse_exprs.specs.Input.{from_at, origin_of};
ghost use Rattle.parse_decls.specs.Gives.{Comes};
ghost use Rattle.parse_stmts.specs.Run.{run_line};

use crate::marks::past_semicolon;
use crate::simple::read_simple;
use arc_base::Stop;
use nim_tree::Stmt;
use parse_decls::{Reading, and_one, stuck};
use parse_exprs::{Input, Layout};
use std::alloc::Global;

/// Simple statements with `;` between them, behind some others.
pub(crate) fn read_line(
    alloc: Global,
    input: &Input,
    some: Vec<Stmt>,
    at: usize,
    spaces: u32,
) -> Result<Reading<Vec<Stmt>>, Stop>
    requires few { length input.now.tokens.now < 2 ^ 32 }
    ensures { Comes (λ all. statements_of all.items)
        (λ k. run_line k (origin_of input.now) spaces (statements_of some.items) (from_at input.now at))
        input.now (suc at) result }
{
    let first = read_simple(alloc, input, at, spaces)?;
    let mut all = and_one(some, first.value)?;
    let mut next = first.next;
    while let Some(behind) = past_semicolon(input, next, spaces) {
        if !input.stays(behind, Layout::Lines(spaces)) {
            return Err(stuck(input, behind));
        }
        let one = read_simple(alloc, input, behind, spaces)?;
        all = and_one(all, one.value)?;
        next = one.next;
    }
    Ok(Reading { value: all, next })
}
