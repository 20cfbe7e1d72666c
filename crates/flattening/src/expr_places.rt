// The temporaries of expressions, by their numbers: one case for each form of the tree.
ghost use Rattle.std.specs.Prelude.{◌≡◌, suc, option_map};
ghost use Rattle.nim_program.specs.Program.{Args, NoArg};
ghost use Rattle.nim_program.specs.View.{expr_of, path_of, operand_before, operands_of};
ghost use Rattle.nim_program.specs.View.{choices_of, picks_of, if_value};
ghost use Rattle.flattening.specs.Forms.{IsEarly, IsCase};
ghost use Rattle.flattening.specs.Places.{expr_places, path_places, operand_places, part_places};
ghost use Rattle.flattening.specs.Views.{types_of, facts_of, modes_of, uses_of, act_of};
ghost use Rattle.flattening.specs.PlaceViews.{first_places, fresh_places};
ghost use Rattle.flattening.specs.Written.{IsPut, GoesOnAt};
ghost use Rattle.flattening.specs.PlaceViews.{in_front};

use crate::around::{Around, Uses};
use crate::known::{has_node, use_at};
use crate::spans::{
    behind_operand, behind_path, behind_picks, behind_selector, behind_value, next, selector_from,
};
use crate::temporaries::{put_lent, put_location, put_read, put_selector, put_value};
use crate::written::Written;
use flat_code::FlatPlace;
use nim_program::{Choice, Expr, Operand, Path, Pick, Use};

/// Adds the temporaries of an expression, whose numbers begin with t.
#[cycle(temporaries)]
pub fn list_expr(places: &mut Written<FlatPlace>, around: &Around, expr: &Expr, t: u32)
    ensures { IsPut places.old places.new (in_front (expr_places (types_of around.now) (facts_of around.now) (modes_of around.now)
        (expr_of (types_of around.now) expr.now) t)) }
{
    let Some(u) = next(t) else {
        return places.lose();
    };
    match expr {
        Expr::Apply {
            node,
            ty,
            operation,
            operands,
            ..
        } => {
            put_value(places, around, true, *node, *ty, t);
            list_operands(places, around, operands, Uses::Of(*operation), u)
        }
        Expr::Call {
            node,
            ty,
            proc,
            operands,
            ..
        } => {
            put_value(places, around, true, *node, *ty, t);
            list_operands(places, around, operands, Uses::OfParams(*proc), u)
        }
        Expr::Construct {
            node,
            ty,
            operands,
            ..
        } => {
            put_value(places, around, true, *node, Some(*ty), t);
            list_operands(places, around, operands, Uses::All(Use::Held), u)
        }
        Expr::Constant { node, ty, .. } => { put_value(places, around, true, *node, Some(*ty), t) }
        Expr::Read { path } => {
            put_read(places, around, has_node(path), path, t);
            list_path(places, around, path, u)
        }
        Expr::Early { .. } => list_early(places, around, expr, t, u),
        Expr::If {
            node,
            ty,
            branches,
            otherwise,
        } => {
            put_value(places, around, true, *node, *ty, t);
            let Some(v) = list_choices(places, around, branches, u) else {
                return;
            };
            list_expr(places, around, &**otherwise, v)
        }
        Expr::Case { .. } => list_case(places, around, expr, t, u),
    }
}

// The temporaries of an `and` or an `or`. The numbers of its parts begin with u.
#[cycle(temporaries)]
fn list_early(places: &mut Written<FlatPlace>, around: &Around, expr: &Expr, t: u32, u: u32)
    requires { IsEarly expr.now }
    ensures { u ≡ suc t → IsPut places.old places.new (in_front (expr_places (types_of around.now) (facts_of around.now) (modes_of around.now)
        (expr_of (types_of around.now) expr.now) t)) }
{
    match expr {
        Expr::Early {
            node,
            ty,
            left,
            right,
            ..
        } => {
            let left = &**left;
            let right = &**right;
            let Some(v) = behind_value(around, u, left) else {
                return places.lose();
            };
            put_value(places, around, true, *node, Some(*ty), t);
            list_expr(places, around, left, u);
            list_expr(places, around, right, v)
        }
        _ => unreachable!(),
    }
}

// The temporaries of a `case` that gives a value. The numbers of its parts begin with u.
#[cycle(temporaries)]
fn list_case(places: &mut Written<FlatPlace>, around: &Around, expr: &Expr, t: u32, u: u32)
    requires { IsCase expr.now }
    ensures { u ≡ suc t → IsPut places.old places.new (in_front (expr_places (types_of around.now) (facts_of around.now) (modes_of around.now)
        (expr_of (types_of around.now) expr.now) t)) }
{
    match expr {
        Expr::Case {
            node,
            ty,
            selector,
            branches,
            otherwise,
        } => {
            let selector = &**selector;
            let Some(s) = behind_picks(u, branches) else {
                return places.lose();
            };
            let Some(from) = selector_from(s, selector) else {
                return places.lose();
            };
            let Some(v) = behind_selector(around, s, selector) else {
                return places.lose();
            };
            put_value(places, around, true, *node, *ty, t);
            put_selector(places, around, selector, s);
            list_operand(places, around, selector, from);
            let Some(w) = list_picks(places, around, branches, v) else {
                return;
            };
            list_else(places, around, otherwise, w)
        }
        _ => unreachable!(),
    }
}

// The temporaries of a path that is looked up.
#[cycle(temporaries)]
fn list_path(places: &mut Written<FlatPlace>, around: &Around, path: &Path, t: u32)
    ensures { IsPut places.old places.new (in_front (path_places (types_of around.now) (facts_of around.now) (modes_of around.now)
        (path_of (types_of around.now) path.now) t)) }
{
    let Some(u) = next(t) else {
        return places.lose();
    };
    match path {
        Path::Variable { .. } => put_location(places, around, path, t),
        Path::Fresh { value } => {
            let value = &**value;
            put_location(places, around, path, t);
            list_fresh(places, around, value, u)
        }
        Path::Field { base, .. } => {
            let base = &**base;
            put_location(places, around, path, t);
            list_path(places, around, base, u)
        }
        Path::Deref { base, .. } => {
            let base = &**base;
            put_location(places, around, path, t);
            list_path(places, around, base, u)
        }
        Path::Element { base, index, .. } => {
            let base = &**base;
            let index = &**index;
            let Some(v) = behind_path(around, u, base) else {
                return places.lose();
            };
            put_location(places, around, path, t);
            list_path(places, around, base, u);
            list_expr(places, around, index, v)
        }
    }
}

// The temporaries of a value that a path begins with, none of a constant.
#[cycle(temporaries)]
fn list_fresh(places: &mut Written<FlatPlace>, around: &Around, value: &Expr, t: u32)
    ensures { IsPut places.old places.new (in_front (fresh_places (types_of around.now) (facts_of around.now) (modes_of around.now)
        (expr_of (types_of around.now) value.now) t)) }
{
    match value {
        Expr::Constant { .. } => {}
        _ => list_expr(places, around, value, t),
    }
}

/// The temporaries of an operand.
#[cycle(temporaries)]
pub fn list_operand(places: &mut Written<FlatPlace>, around: &Around, operand: &Operand, t: u32)
    ensures { IsPut places.old places.new (in_front (first_places (types_of around.now) (facts_of around.now) (modes_of around.now)
        (operand_before (types_of around.now) operand.now NoArg) t)) }
{
    match operand {
        Operand::Value(value) => list_expr(places, around, value, t),
        Operand::At(path) => list_path(places, around, path, t),
    }
}

/// The temporaries of operands, whose numbers begin with t, and where those are that are lent.
#[cycle(temporaries)]
pub fn list_operands(
    places: &mut Written<FlatPlace>,
    around: &Around,
    operands: &Vec<Operand>,
    uses: Uses,
    t: u32,
)
    ensures { IsPut places.old places.new (in_front (operand_places (types_of around.now)
        (facts_of around.now) (modes_of around.now) (act_of uses)
        (operands_of (types_of around.now) operands.now.items)
        (uses_of (modes_of around.now) uses) 0 t)) }
{
    let mut u = t;
    let mut position = 0;
    for operand in operands {
        let Some(following) = behind_operand(around, u, operand) else {
            return places.lose();
        };
        let how = use_at(around, uses, position);
        list_operand(places, around, operand, u);
        put_lent(places, around, uses, how, operand, u);
        u = following;
        position += 1;
    }
}

// The temporaries of conditions and their values, which come before what is last.
#[cycle(temporaries)]
fn list_choices(
    places: &mut Written<FlatPlace>,
    around: &Around,
    branches: &Vec<Choice>,
    t: u32,
) -> Option<u32>
    ensures { GoesOnAt result places.old places.new
        (λ (last : Args) u. in_front (part_places (types_of around.now) (facts_of around.now) (modes_of around.now) last u))
        (λ (last : Args). in_front (part_places (types_of around.now) (facts_of around.now) (modes_of around.now)
        (choices_of (types_of around.now) branches.now.items last) t)) }
{
    let mut u = t;
    for branch in branches {
        let Some(v) = behind_value(around, u, &branch.condition) else {
            places.lose();
            return None;
        };
        let Some(following) = behind_value(around, v, &branch.value) else {
            places.lose();
            return None;
        };
        list_expr(places, around, &branch.condition, u);
        list_expr(places, around, &branch.value, v);
        u = following;
    }
    Some(u)
}

// The temporaries of the values of a `case`, which come before what is last.
#[cycle(temporaries)]
fn list_picks(
    places: &mut Written<FlatPlace>,
    around: &Around,
    branches: &Vec<Pick>,
    t: u32,
) -> Option<u32>
    ensures { GoesOnAt result places.old places.new
        (λ (last : Args) u. in_front (part_places (types_of around.now) (facts_of around.now) (modes_of around.now) last u))
        (λ (last : Args). in_front (part_places (types_of around.now) (facts_of around.now) (modes_of around.now)
        (picks_of (types_of around.now) branches.now.items last) t)) }
{
    let mut u = t;
    for branch in branches {
        let Some(following) = behind_value(around, u, &branch.value) else {
            places.lose();
            return None;
        };
        list_expr(places, around, &branch.value, u);
        u = following;
    }
    Some(u)
}

// The temporaries of the value of `else`, where there is one.
#[cycle(temporaries)]
fn list_else(
    places: &mut Written<FlatPlace>,
    around: &Around,
    otherwise: &Option<Box<Expr>>,
    t: u32,
)
    ensures { IsPut places.old places.new (in_front (part_places (types_of around.now) (facts_of around.now) (modes_of around.now)
        (if_value (types_of around.now) (option_map (λ e. e.value) otherwise.now)) t)) }
{
    match otherwise {
        None => {}
        Some(value) => list_expr(places, around, &**value, t),
    }
}
