// The lines of statements without parts, and of what is done with one value.
ghost use Rattle.std.specs.Prelude.{◌≡◌, ◌&&◌, ◌∷◌, [], List, true};
ghost use Rattle.nim_types.specs.Table.{type_at};
ghost use Rattle.nim_types.specs.Types.{Ty};
ghost use Rattle.nim_meaning.specs.Shapes.{is_covered, selector_type, is_empty};
ghost use Rattle.nim_program.specs.Program.{Stmts, NoArg};
ghost use Rattle.nim_program.specs.View.{branch_labels, case_blocks, declared_of, expr_of};
ghost use Rattle.nim_program.specs.View.{operand_before, stmts_of};
ghost use Rattle.flat_code.specs.declared.line.From.TheVariants as F;
ghost use Rattle.flat_code.specs.declared.line.Line.TheVariants as L;
ghost use Rattle.flat_code.specs.declared.line.Owning.TheVariants as W;
ghost use Rattle.flattening.specs.declared.numbers.Purpose.TheVariants.{End};
ghost use Rattle.flattening.specs.Numbering.{type_number, label};
ghost use Rattle.flattening.specs.StmtLines.{block_tests, gets_line, give_lines, fill_lines, element_lines};
ghost use Rattle.flattening.specs.Views.{types_of, facts_of, modes_of, result_of, own_lines};
ghost use Rattle.flattening.specs.Written.{IsPut, one};

use crate::acts::put_own_from;
use crate::around::Around;
use crate::expr_code::{add_copied, add_expr};
use crate::known::{has_hooks, is_copied, is_hooked, type_number};
use crate::labels::{covers, put_label_tests};
use crate::marks::put_label;
use crate::numbers::Purpose;
use crate::spans::next;
use crate::waits::put_ends;
use crate::written::Written;
use flat_code::{From, Line, Owning};
use nim_program::{CaseBranch, Expr, Operand, PlaceDecl, Stmt, Use};
use std::alloc::Global;

// The place of the result gets a copy of what stands at a location.
fn put_result_copy(alloc: Global, code: &mut Written<Line>, around: &Around, from: From)
    ensures { IsPut code.old code.new (gets_line (types_of around.now) (facts_of around.now)
        (modes_of around.now) (result_of around.now) (result_of around.now) true from) }
{
    match around.result {
        None => {}
        Some(place) => put_own_from(
            alloc,
            code,
            Owning::ResultGets {
                place: place.number,
                ty: type_number(around, place.ty),
            },
            from,
        ),
    }
}

// The place of the result gets a value.
fn put_result(alloc: Global, code: &mut Written<Line>, around: &Around, hooked: bool, from: u32)
    ensures { IsPut code.old code.new (gets_line (types_of around.now) (facts_of around.now)
        (modes_of around.now) (result_of around.now) (result_of around.now) hooked (F.Value from)) }
{
    if hooked {
        return put_result_copy(alloc, code, around, From::Value(from));
    }
    match around.result {
        None => {}
        Some(place) => code.put(Line::Give {
            place: place.number,
            from,
        }),
    }
}

/// The result becomes a value, whose numbers begin with t.
pub fn add_given(alloc: Global, code: &mut Written<Line>, around: &Around, value: &Expr, t: u32)
    ensures { IsPut code.old code.new (give_lines (types_of around.now) (facts_of around.now)
        (modes_of around.now) (result_of around.now)
        (expr_of (types_of around.now) value.now) t) }
{
    if !is_copied(around, Use::Given, value) {
        add_expr(alloc, code, around, value, Use::Given, t);
        return put_result(alloc, code, around, has_hooks(around, value), t);
    }
    let Some(from) = next(t) else {
        return code.lose();
    };
    add_copied(alloc, code, around, value, t);
    put_result_copy(alloc, code, around, From::Place(from))
}

/// A place starts at what its type starts at.
pub fn put_blank(code: &mut Written<Line>, around: &Around, place: &PlaceDecl)
    ensures { IsPut code.old code.new (one (L.Blank place.now.number
        (type_number (types_of around.now) (type_at (types_of around.now) place.now.ty)))) }
{
    code.put(Line::Blank {
        place: place.number,
        ty: type_number(around, place.ty),
    })
}

// A place is filled with a copy of what stands at a location.
fn put_copy(alloc: Global, code: &mut Written<Line>, around: &Around, place: &PlaceDecl, from: u32)
    ensures { IsPut code.old code.new (one (L.Own (W.PlaceCopies place.now.number
        (type_number (types_of around.now) (type_at (types_of around.now) place.now.ty)))
        (F.Place from ∷ []))) }
{
    let what = Owning::PlaceCopies {
        place: place.number,
        ty: type_number(around, place.ty),
    };
    put_own_from(alloc, code, what, From::Place(from))
}

/// A place is filled with a value, whose numbers begin with t.
pub fn add_filled(
    alloc: Global,
    code: &mut Written<Line>,
    around: &Around,
    place: &PlaceDecl,
    value: &Expr,
    t: u32,
)
    ensures { IsPut code.old code.new (fill_lines (types_of around.now) (facts_of around.now)
        (modes_of around.now) (result_of around.now)
        (declared_of (types_of around.now) place.now)
        (expr_of (types_of around.now) value.now) t) }
{
    if !is_copied(around, Use::Given, value) {
        add_expr(alloc, code, around, value, Use::Given, t);
        return code.put(Line::Fill {
            place: place.number,
            from: t,
        });
    }
    let Some(from) = next(t) else {
        return code.lose();
    };
    add_copied(alloc, code, around, value, t);
    put_copy(alloc, code, around, place, from)
}

/// The place of a loop gets the element that has a number: a copy of it, or, where the head is a
/// value of its own, the place stands for it.
pub fn put_item(
    alloc: Global,
    code: &mut Written<Line>,
    around: &Around,
    borrows: bool,
    place: &PlaceDecl,
    t: u32,
    head: u32,
    counter: u32,
)
    ensures { IsPut code.old code.new (element_lines (types_of around.now) (facts_of around.now)
        (modes_of around.now) (result_of around.now) borrows
        (declared_of (types_of around.now) place.now) t head counter) }
{
    if is_hooked(around, place.ty) {
        code.put(Line::Item {
            to: t,
            from: head,
            index: counter,
        });
        if !borrows {
            return put_copy(alloc, code, around, place, t);
        }
        let what = Owning::PlaceStands {
            place: place.number,
        };
        return put_own_from(alloc, code, what, From::Place(t));
    }
    code.put(Line::Element {
        to: t,
        from: head,
        index: counter,
    });
    code.put(Line::Fill {
        place: place.number,
        from: t,
    })
}

/// The tests of the labels of all branches, whose numbers begin with `first`.
pub fn put_block_tests(
    alloc: Global,
    code: &mut Written<Line>,
    branches: &Vec<CaseBranch>,
    selector: u32,
    first: u32,
)
    ensures { (ts : List Ty) (last : Stmts) → IsPut code.old code.new (block_tests
        (branch_labels branches.now.items) (case_blocks ts branches.now.items last)
        selector first) }
{
    let mut arm = first;
    for branch in branches {
        let Some(following) = next(arm) else {
            return code.lose();
        };
        put_label_tests(alloc, code, &branch.labels, selector, arm);
        arm = following;
    }
}

/// Whether the last block is for all else: labels cover the type, and no block follows.
pub fn may_close(around: &Around, selector: &Operand, otherwise: &Vec<Stmt>) -> bool
    ensures { result ≡ (is_covered (selector_type (operand_before (types_of around.now)
        selector.now NoArg)) && is_empty (stmts_of (types_of around.now) otherwise.now.items)) }
{
    match otherwise.get(0) {
        None => covers(around, selector),
        Some(_) => false,
    }
}

/// Behind the blocks of a `case`.
pub fn put_case_end(alloc: Global, code: &mut Written<Line>, t: u32, ends: &[Owning])
    ensures { IsPut code.old code.new (λ k. L.Label (label End t) ∷ own_lines ends.now k) }
{
    put_label(code, Purpose::End, t);
    put_ends(alloc, code, ends)
}
