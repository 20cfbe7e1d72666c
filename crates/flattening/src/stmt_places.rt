// The temporaries of statements, by their numbers.
ghost use Rattle.std.specs.Prelude.{◌≡◌, suc, None, List, IfSome};
ghost use Rattle.nim_types.specs.Types.{Ty, int};
ghost use Rattle.nim_program.specs.Program.{Empty, Stmts};
ghost use Rattle.nim_program.specs.View.{declared_of, stmt_before, stmts_of, operands_of, kind_of, if_value};
ghost use Rattle.nim_program.specs.View.{branch_conditions, branch_blocks, case_blocks};
ghost use Rattle.flattening.specs.Places.{place, head_from, element_kind, loop_places, value_places};
ghost use Rattle.flattening.specs.Places.{block_places};
ghost use Rattle.flattening.specs.Places.{branch_places, arm_places};
ghost use Rattle.flattening.specs.Views.{types_of, facts_of, modes_of};
ghost use Rattle.flattening.specs.PlaceViews.{places_of_first, places_of_loop};
ghost use Rattle.flattening.specs.Written.{IsPut, GoesOnAt, one};
ghost use Rattle.flattening.specs.PlaceViews.{in_front};

use crate::around::{Around, Uses};
use crate::expr_places::{list_expr, list_operand, list_operands};
use crate::known::{int_number, is_hooked};
use crate::spans::{
    behind, behind_block, behind_cases, behind_operands, behind_selector, behind_stmt,
    behind_value, is_defer, next, selector_from,
};
use crate::temporaries::{kind_of_path, put_place, put_selector};
use crate::written::Written;
use flat_code::{FlatPlace, PlaceKind};
use nim_program::{Branch, CaseBranch, Expr, Kind, Node, Operand, PlaceDecl, Stmt, Use};

/// Adds the temporaries of a block, whose numbers begin with t. Behind a `defer` nothing has lines
/// yet.
#[cycle(block_places)]
pub fn list_block(places: &mut Written<FlatPlace>, around: &Around, block: &Vec<Stmt>, t: u32)
    ensures { IsPut places.old places.new (in_front (block_places (types_of around.now) (facts_of around.now) (modes_of around.now)
        (stmts_of (types_of around.now) block.now.items) t)) }
{
    let mut u = t;
    for stmt in block {
        let Some(following) = behind_stmt(around, u, stmt) else {
            return places.lose();
        };
        list_stmt(places, around, stmt, u);
        if is_defer(stmt) {
            return;
        }
        u = following;
    }
}

// The temporaries of a statement.
#[cycle(block_places)]
fn list_stmt(places: &mut Written<FlatPlace>, around: &Around, stmt: &Stmt, t: u32)
    ensures { IsPut places.old places.new (in_front (places_of_first (types_of around.now) (facts_of around.now) (modes_of around.now)
        (stmt_before (types_of around.now) stmt.now Empty) t)) }
{
    let Some(u) = next(t) else {
        return places.lose();
    };
    match stmt {
        Stmt::Do { value } => list_expr(places, around, value, t),
        Stmt::Give { value, .. } => list_expr(places, around, value, u),
        Stmt::Declare { value, .. } => list_if(places, around, value, u),
        Stmt::If {
            branches,
            otherwise,
            ..
        } => {
            let Some(v) = list_branches(places, around, branches, u) else {
                return;
            };
            list_block(places, around, otherwise, v)
        }
        Stmt::Case {
            selector,
            branches,
            otherwise,
            ..
        } => {
            let Some(s) = behind_cases(u, branches) else {
                return places.lose();
            };
            let Some(from) = selector_from(s, selector) else {
                return places.lose();
            };
            let Some(v) = behind_selector(around, s, selector) else {
                return places.lose();
            };
            put_selector(places, around, selector, s);
            list_operand(places, around, selector, from);
            let Some(w) = list_arms(places, around, branches, v) else {
                return;
            };
            list_block(places, around, otherwise, w)
        }
        Stmt::Loop {
            node,
            kind,
            head,
            body,
        } => {
            put_counters(places, around, *node, kind, head, t);
            list_loop(places, around, kind, body, head, t)
        }
        Stmt::Idle { .. }
        | Stmt::Leave { .. }
        | Stmt::Raise { .. }
        | Stmt::Try { .. }
        | Stmt::Defer { .. } => {}
    }
}

// The temporaries of a value, where there is one.
fn list_if(places: &mut Written<FlatPlace>, around: &Around, value: &Option<Expr>, t: u32)
    ensures { IsPut places.old places.new (in_front (value_places (types_of around.now) (facts_of around.now) (modes_of around.now)
        (if_value (types_of around.now) value.now) t)) }
{
    match value {
        None => {}
        Some(value) => list_expr(places, around, value, t),
    }
}

// What kind of place holds the element of a turn: its value, or where it stands.
fn element_kind(around: &Around, variable: &PlaceDecl, head: &Vec<Operand>) -> PlaceKind
    ensures { result ≡ element_kind (types_of around.now) (facts_of around.now)
        (modes_of around.now) (declared_of (types_of around.now) variable.now)
        (operands_of (types_of around.now) head.now.items) }
{
    match head.get(0) {
        Some(Operand::At(path)) => {
            if is_hooked(around, variable.ty) {
                kind_of_path(path)
            } else {
                PlaceKind::Temp
            }
        }
        _ => PlaceKind::Temp,
    }
}

// The element of a turn, its number, and how many there are.
fn put_counters(
    places: &mut Written<FlatPlace>,
    around: &Around,
    node: Node,
    kind: &Kind,
    head: &Vec<Operand>,
    t: u32,
)
    ensures { IsPut places.old places.new (in_front (loop_places (types_of around.now)
        (facts_of around.now) (modes_of around.now) node (kind_of (types_of around.now) kind.now)
        (operands_of (types_of around.now) head.now.items) t)) }
{
    let Kind::Each { variable } = kind else {
        return;
    };
    let Some(counter) = next(t) else {
        return places.lose();
    };
    let Some(length) = next(counter) else {
        return places.lose();
    };
    let element = element_kind(around, variable, head);
    put_place(places, around, t, node.at, element, variable.ty, None);
    put_counter(places, around, node, counter);
    put_counter(places, around, node, length)
}

// A number that a loop keeps.
fn put_counter(places: &mut Written<FlatPlace>, around: &Around, node: Node, t: u32)
    ensures { IsPut places.old places.new
        (one (place (types_of around.now) (facts_of around.now) (modes_of around.now) None t node.at PlaceKind.Counter int)) }
{
    places.put(FlatPlace {
        number: t,
        at: node.at,
        kind: PlaceKind::Counter,
        ty: int_number(around.types),
        hooked: false,
        resource: false,
        copies: true,
        waits: None,
    })
}

fn head_start(kind: &Kind, t: u32) -> Option<u32>
    ensures { (ts : List Ty) → IfSome result (λ u. u ≡ head_from (kind_of ts kind.now) t) }
{
    match kind {
        Kind::While | Kind::Count { .. } => next(t),
        Kind::Each { .. } => behind(t, 3),
    }
}

// The temporaries of a loop's head and body.
#[cycle(block_places)]
fn list_loop(
    places: &mut Written<FlatPlace>,
    around: &Around,
    kind: &Kind,
    body: &Vec<Stmt>,
    head: &Vec<Operand>,
    t: u32,
)
    ensures { IsPut places.old places.new (in_front (places_of_loop (types_of around.now) (facts_of around.now) (modes_of around.now)
        (kind_of (types_of around.now) kind.now)
        (operands_of (types_of around.now) head.now.items)
        (stmts_of (types_of around.now) body.now.items) t)) }
{
    let Some(u) = head_start(kind, t) else {
        return places.lose();
    };
    let Some(v) = behind_operands(around, u, head) else {
        return places.lose();
    };
    list_operands(places, around, head, Uses::All(Use::Owned), u);
    list_block(places, around, body, v)
}

// The temporaries of conditions and their blocks, which come before the last one.
#[cycle(block_places)]
fn list_branches(
    places: &mut Written<FlatPlace>,
    around: &Around,
    branches: &Vec<Branch>,
    t: u32,
) -> Option<u32>
    ensures { GoesOnAt result places.old places.new
        (λ (last : Stmts) u. in_front (block_places (types_of around.now) (facts_of around.now) (modes_of around.now) last u))
        (λ (last : Stmts). in_front (branch_places (types_of around.now) (facts_of around.now) (modes_of around.now)
        (branch_conditions (types_of around.now) branches.now.items)
        (branch_blocks (types_of around.now) branches.now.items last) t)) }
{
    let mut u = t;
    for branch in branches {
        let Some(v) = behind_value(around, u, &branch.condition) else {
            places.lose();
            return None;
        };
        let Some(following) = behind_block(around, v, &branch.body) else {
            places.lose();
            return None;
        };
        list_expr(places, around, &branch.condition, u);
        list_block(places, around, &branch.body, v);
        u = following;
    }
    Some(u)
}

// The temporaries of the blocks of a `case`, which come before the last one.
#[cycle(block_places)]
fn list_arms(
    places: &mut Written<FlatPlace>,
    around: &Around,
    branches: &Vec<CaseBranch>,
    t: u32,
) -> Option<u32>
    ensures { GoesOnAt result places.old places.new
        (λ (last : Stmts) u. in_front (block_places (types_of around.now) (facts_of around.now) (modes_of around.now) last u))
        (λ (last : Stmts). in_front (arm_places (types_of around.now) (facts_of around.now) (modes_of around.now)
        (case_blocks (types_of around.now) branches.now.items last) t)) }
{
    let mut u = t;
    for branch in branches {
        let Some(following) = behind_block(around, u, &branch.body) else {
            places.lose();
            return None;
        };
        list_block(places, around, &branch.body, u);
        u = following;
    }
    Some(u)
}
