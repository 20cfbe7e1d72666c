// The lines of statements: one case for each form of the tree.
ghost use Rattle.std.specs.Prelude.{◌≡◌, ◌&&◌, Bool, suc, List};
ghost use Rattle.nim_program.specs.Program.{Empty, NoArg, Stmts, While, Count, Each};
ghost use Rattle.flattening.specs.Forms.{IsSelect};
ghost use Rattle.nim_program.specs.View.{stmt_before, stmts_of, operand_before, operands_of};
ghost use Rattle.nim_program.specs.View.{declared_of, kind_of};
ghost use Rattle.nim_program.specs.View.{branch_conditions, branch_blocks, case_blocks};
ghost use Rattle.nim_program.specs.View.{branch_labels};
ghost use Rattle.flattening.specs.StmtLines.{lines_of, branch_lines, arm_blocks};
ghost use Rattle.flattening.specs.StmtViews.{exits_of, first_lines, loop_lines, placed_turn};
ghost use Rattle.flattening.specs.StmtViews.{BlocksLast, other_blocks};
ghost use Rattle.flattening.specs.Views.{types_of, facts_of, modes_of, result_of};
ghost use Rattle.flattening.specs.Written.{IsPut, GoesOnAt, ArmsPut};

use crate::around::{Around, Uses};
use crate::ends::{head_waits, place_ends, push_declared, selector_waits};
use crate::expr_code::{add_expr, add_ready, add_selector};
use crate::known::is_last;
use crate::loop_acts::{add_test, put_before_turns, put_element, second};
use crate::marks::{
    put_arm_label, put_beyond, put_count_turn, put_jump, put_label, put_turn_if, put_unless,
};
use crate::numbers::Purpose;
use crate::spans::{
    behind, behind_block, behind_cases, behind_operands, behind_selector, behind_stmt,
    behind_value, is_defer, next,
};
use crate::stmt_acts::{
    add_filled, add_given, may_close, put_blank, put_block_tests, put_case_end,
};
use crate::waits::{put_ends, put_value_ends};
use crate::ways::{Ways, put_back, put_leave};
use crate::written::{Arms, Written};
use arc_base::Items;
use flat_code::Line;
use nim_program::{Branch, CaseBranch, Kind, Operand, PlaceDecl, Stmt, Use};
use std::alloc::Global;

/// Adds the lines of a block. Behind a `defer` nothing has lines yet.
#[cycle(stmts)]
pub fn add_block(
    alloc: Global,
    code: &mut Written<Line>,
    around: &Around,
    ways: &Ways,
    block: &Vec<Stmt>,
    t: u32,
)
    ensures { IsPut code.old code.new (lines_of (types_of around.now) (facts_of around.now)
        (modes_of around.now) (result_of around.now)
        (stmts_of (types_of around.now) block.now.items)
        (exits_of (result_of around.now) ways.now) t) }
{
    let mut ends = Items::new(alloc);
    let mut u = t;
    for stmt in block {
        let Some(following) = behind_stmt(around, u, stmt) else {
            return code.lose();
        };
        add_stmt(
            alloc,
            code,
            around,
            &Ways::Ending(&*ways, ends.as_slice()),
            stmt,
            u,
        );
        if is_defer(stmt) {
            return put_ends(alloc, code, ends.as_slice());
        }
        let Ok(()) = push_declared(&mut ends, around, stmt) else {
            return code.lose();
        };
        u = following;
    }
    put_ends(alloc, code, ends.as_slice())
}

// A statement alone.
#[cycle(stmts)]
fn add_stmt(
    alloc: Global,
    code: &mut Written<Line>,
    around: &Around,
    ways: &Ways,
    stmt: &Stmt,
    t: u32,
)
    ensures { IsPut code.old code.new (first_lines (types_of around.now) (facts_of around.now)
        (modes_of around.now) (result_of around.now)
        (stmt_before (types_of around.now) stmt.now Empty)
        (exits_of (result_of around.now) ways.now) t) }
{
    let Some(u) = next(t) else {
        return code.lose();
    };
    match stmt {
        Stmt::Do { value } => {
            add_expr(alloc, code, around, value, Use::Owned, t);
            put_value_ends(alloc, code, around, value, Use::Owned)
        }
        Stmt::Give { back, value, .. } => {
            add_given(alloc, code, around, value, u);
            put_value_ends(alloc, code, around, value, Use::Given);
            put_back(alloc, code, around, ways, *back)
        }
        Stmt::Leave { leaving, .. } => put_leave(alloc, code, around, ways, *leaving),
        Stmt::Declare { place, value, .. } => match value {
            None => put_blank(code, around, place),
            Some(value) => {
                add_filled(alloc, code, around, place, value, u);
                put_value_ends(alloc, code, around, value, Use::Given)
            }
        },
        Stmt::If {
            branches,
            otherwise,
            ..
        } => {
            let Some(v) = add_branches(alloc, code, around, ways, branches, t, u) else {
                return;
            };
            add_block(alloc, code, around, ways, otherwise, v);
            put_label(code, Purpose::End, t)
        }
        Stmt::Case { .. } => add_select(alloc, code, around, ways, stmt, t, u),
        Stmt::Loop {
            kind,
            head,
            body,
            ..
        } => add_loop(alloc, code, around, ways, kind, body, head, t, u),
        Stmt::Idle { .. } | Stmt::Raise { .. } | Stmt::Try { .. } | Stmt::Defer { .. } => {}
    }
}

// A `case` statement. The numbers of its parts begin with u.
#[cycle(stmts)]
fn add_select(
    alloc: Global,
    code: &mut Written<Line>,
    around: &Around,
    ways: &Ways,
    stmt: &Stmt,
    t: u32,
    u: u32,
)
    requires { IsSelect stmt.now }
    ensures { u ≡ suc t → IsPut code.old code.new (first_lines (types_of around.now)
        (facts_of around.now) (modes_of around.now) (result_of around.now)
        (stmt_before (types_of around.now) stmt.now Empty)
        (exits_of (result_of around.now) ways.now) t) }
{
    match stmt {
        Stmt::Case {
            selector,
            branches,
            otherwise,
            ..
        } => {
            let Some(s) = behind_cases(u, branches) else {
                return code.lose();
            };
            let Some(v) = behind_selector(around, s, selector) else {
                return code.lose();
            };
            let Ok(ends) = selector_waits(alloc, around, selector) else {
                return code.lose();
            };
            let inside = Ways::Ending(&*ways, ends.as_slice());
            let closes = may_close(around, selector, otherwise);
            add_selector(alloc, code, around, selector, s);
            put_block_tests(alloc, code, branches, s, u);
            put_jump(code, Purpose::Next, t);
            match add_cases(alloc, code, around, &inside, closes, branches, t, u, v) {
                Arms::Lost => {}
                Arms::Closed => put_case_end(alloc, code, t, ends.as_slice()),
                Arms::Open(w) => {
                    add_others(alloc, code, around, &inside, otherwise, t, w);
                    put_case_end(alloc, code, t, ends.as_slice())
                }
            }
        }
        _ => unreachable!(),
    }
}

// What is done where no label fits.
#[cycle(stmts)]
fn add_others(
    alloc: Global,
    code: &mut Written<Line>,
    around: &Around,
    ways: &Ways,
    otherwise: &Vec<Stmt>,
    t: u32,
    u: u32,
)
    ensures { IsPut code.old code.new (other_blocks (types_of around.now) (facts_of around.now)
        (modes_of around.now) (result_of around.now)
        (stmts_of (types_of around.now) otherwise.now.items)
        (exits_of (result_of around.now) ways.now) t u) }
{
    put_label(code, Purpose::Next, t);
    add_block(alloc, code, around, ways, otherwise, u)
}

// A loop. The numbers of its parts begin with u.
#[cycle(stmts)]
fn add_loop(
    alloc: Global,
    code: &mut Written<Line>,
    around: &Around,
    ways: &Ways,
    kind: &Kind,
    body: &Vec<Stmt>,
    head: &Vec<Operand>,
    t: u32,
    u: u32,
)
    ensures { u ≡ suc t → IsPut code.old code.new (loop_lines (types_of around.now)
        (facts_of around.now) (modes_of around.now) (result_of around.now)
        (kind_of (types_of around.now) kind.now)
        (operands_of (types_of around.now) head.now.items)
        (stmts_of (types_of around.now) body.now.items)
        (exits_of (result_of around.now) ways.now) t) }
{
    match kind {
        Kind::While => add_while(alloc, code, around, ways, body, head, t, u),
        Kind::Count {
            variable,
            inclusive,
        } => add_count(
            alloc, code, around, ways, variable, *inclusive, body, head, t, u,
        ),
        Kind::Each { variable } => {
            add_each(alloc, code, around, ways, variable, body, head, t, u)
        }
    }
}

// The body of a loop with a place, which ends with each turn, and where the next turn begins.
#[cycle(stmts)]
fn add_placed_turn(
    alloc: Global,
    code: &mut Written<Line>,
    around: &Around,
    ways: &Ways,
    place: &PlaceDecl,
    body: &Vec<Stmt>,
    t: u32,
    first: u32,
)
    ensures { IsPut code.old code.new (placed_turn (types_of around.now) (facts_of around.now)
        (modes_of around.now) (result_of around.now)
        (declared_of (types_of around.now) place.now)
        (stmts_of (types_of around.now) body.now.items)
        (exits_of (result_of around.now) ways.now) t first) }
{
    let Ok(ends) = place_ends(alloc, around, place) else {
        return code.lose();
    };
    let inside = Ways::Loop(&*ways, t);
    let scope = Ways::Ending(&inside, ends.as_slice());
    add_block(alloc, code, around, &scope, body, first);
    put_ends(alloc, code, ends.as_slice());
    put_label(code, Purpose::Next, t)
}

// A `while`. The numbers of its head begin with u.
#[cycle(stmts)]
fn add_while(
    alloc: Global,
    code: &mut Written<Line>,
    around: &Around,
    ways: &Ways,
    body: &Vec<Stmt>,
    head: &Vec<Operand>,
    t: u32,
    u: u32,
)
    ensures { u ≡ suc t → IsPut code.old code.new (loop_lines (types_of around.now)
        (facts_of around.now) (modes_of around.now) (result_of around.now) While
        (operands_of (types_of around.now) head.now.items)
        (stmts_of (types_of around.now) body.now.items)
        (exits_of (result_of around.now) ways.now) t) }
{
    let Some(first) = behind_operands(around, u, head) else {
        return code.lose();
    };
    put_jump(code, Purpose::Next, t);
    put_label(code, Purpose::Turn, t);
    add_block(alloc, code, around, &Ways::Loop(&*ways, t), body, first);
    put_label(code, Purpose::Next, t);
    add_test(alloc, code, around, head, u);
    put_turn_if(code, u, t);
    put_label(code, Purpose::End, t)
}

// A `for` over ints. The numbers of its head begin with u.
#[cycle(stmts)]
fn add_count(
    alloc: Global,
    code: &mut Written<Line>,
    around: &Around,
    ways: &Ways,
    variable: &PlaceDecl,
    inclusive: bool,
    body: &Vec<Stmt>,
    head: &Vec<Operand>,
    t: u32,
    u: u32,
)
    ensures { u ≡ suc t → IsPut code.old code.new (loop_lines (types_of around.now)
        (facts_of around.now) (modes_of around.now) (result_of around.now)
        (Count (declared_of (types_of around.now) variable.now) inclusive)
        (operands_of (types_of around.now) head.now.items)
        (stmts_of (types_of around.now) body.now.items)
        (exits_of (result_of around.now) ways.now) t) }
{
    let Some(last) = second(around, head, u) else {
        return code.lose();
    };
    let Some(first) = behind_operands(around, u, head) else {
        return code.lose();
    };
    let Ok(ends) = head_waits(alloc, around, head) else {
        return code.lose();
    };
    let inside = Ways::Ending(&*ways, ends.as_slice());
    add_ready(alloc, code, around, head, Uses::All(Use::Owned), u);
    put_beyond(code, u, last, inclusive, t);
    code.put(Line::Enter);
    put_label(code, Purpose::Turn, t);
    code.put(Line::Fill {
        place: variable.number,
        from: u,
    });
    add_placed_turn(alloc, code, around, &inside, variable, body, t, first);
    put_count_turn(code, u, last, inclusive, t);
    put_label(code, Purpose::End, t);
    put_ends(alloc, code, ends.as_slice())
}

// A `for` over elements. The number of the loop is at u, behind it how many elements there are,
// and then its head.
#[cycle(stmts)]
fn add_each(
    alloc: Global,
    code: &mut Written<Line>,
    around: &Around,
    ways: &Ways,
    variable: &PlaceDecl,
    body: &Vec<Stmt>,
    head: &Vec<Operand>,
    t: u32,
    u: u32,
)
    ensures { u ≡ suc t → IsPut code.old code.new (loop_lines (types_of around.now)
        (facts_of around.now) (modes_of around.now) (result_of around.now)
        (Each (declared_of (types_of around.now) variable.now))
        (operands_of (types_of around.now) head.now.items)
        (stmts_of (types_of around.now) body.now.items)
        (exits_of (result_of around.now) ways.now) t) }
{
    let Some(length) = next(u) else {
        return code.lose();
    };
    let Some(place) = behind(u, 2) else {
        return code.lose();
    };
    let Some(first) = behind_operands(around, place, head) else {
        return code.lose();
    };
    let Ok(ends) = head_waits(alloc, around, head) else {
        return code.lose();
    };
    let inside = Ways::Ending(&*ways, ends.as_slice());
    add_ready(alloc, code, around, head, Uses::All(Use::Owned), place);
    put_before_turns(alloc, code, around, head, t, u, length, place);
    add_placed_turn(alloc, code, around, &inside, variable, body, t, first);
    put_element(alloc, code, around, variable, head, t, u, length, place);
    put_ends(alloc, code, ends.as_slice())
}

// The conditions of an `if` and their blocks, which come before the last one.
#[cycle(stmts)]
fn add_branches(
    alloc: Global,
    code: &mut Written<Line>,
    around: &Around,
    ways: &Ways,
    branches: &Vec<Branch>,
    t: u32,
    first: u32,
) -> Option<u32>
    ensures { GoesOnAt result code.old code.new
        (λ (last : Stmts) u. lines_of (types_of around.now) (facts_of around.now)
        (modes_of around.now) (result_of around.now) last
        (exits_of (result_of around.now) ways.now) u)
        (λ (last : Stmts). branch_lines (types_of around.now) (facts_of around.now)
        (modes_of around.now) (result_of around.now)
        (branch_conditions (types_of around.now) branches.now.items)
        (branch_blocks (types_of around.now) branches.now.items last)
        (exits_of (result_of around.now) ways.now) t first) }
{
    let mut u = first;
    for branch in branches {
        let Some(v) = behind_value(around, u, &branch.condition) else {
            code.lose();
            return None;
        };
        let Some(following) = behind_block(around, v, &branch.body) else {
            code.lose();
            return None;
        };
        add_expr(alloc, code, around, &branch.condition, Use::Owned, u);
        put_value_ends(alloc, code, around, &branch.condition, Use::Owned);
        put_unless(code, u, Purpose::Arm, u);
        add_block(alloc, code, around, ways, &branch.body, v);
        put_jump(code, Purpose::End, t);
        put_label(code, Purpose::Arm, u);
        u = following;
    }
    Some(u)
}

// The blocks of a `case`. Where no block follows them and the labels cover the type, the last one
// is for all else.
#[cycle(stmts)]
fn add_cases(
    alloc: Global,
    code: &mut Written<Line>,
    around: &Around,
    ways: &Ways,
    closes: bool,
    branches: &Vec<CaseBranch>,
    t: u32,
    arms: u32,
    first: u32,
) -> Arms
    ensures { (covered : Bool) → ArmsPut result code.old code.new
        (λ (last : BlocksLast covered closes) u. other_blocks (types_of around.now)
        (facts_of around.now) (modes_of around.now) (result_of around.now) last.0
        (exits_of (result_of around.now) ways.now) t u)
        (λ (last : BlocksLast covered closes). arm_blocks (types_of around.now)
        (facts_of around.now) (modes_of around.now) (result_of around.now) covered
        (branch_labels branches.now.items)
        (case_blocks (types_of around.now) branches.now.items last.0)
        (exits_of (result_of around.now) ways.now) t arms first) }
{
    let mut arm = arms;
    let mut u = first;
    let mut i = 0;
    while i < branches.len() {
        let body = &branches[i].body;
        i += 1;
        let Some(next_arm) = next(arm) else {
            code.lose();
            return Arms::Lost;
        };
        let Some(following) = behind_block(around, u, body) else {
            code.lose();
            return Arms::Lost;
        };
        let for_others = is_last(closes, i, branches.len());
        put_arm_label(code, for_others, t, arm);
        add_block(alloc, code, around, ways, body, u);
        if for_others {
            return Arms::Closed;
        }
        put_jump(code, Purpose::End, t);
        arm = next_arm;
        u = following;
    }
    Arms::Open(u)
}
