// The lines of expressions: one case for each form of the tree.
ghost use Rattle.std.specs.Prelude.{◌≡◌, suc, Bool, option_map};
ghost use Rattle.nim_program.specs.Program.{Args, NoArg};
ghost use Rattle.nim_program.specs.View.{expr_of, path_of, operand_before, operands_of, if_type, choices_of, picks_of, pick_labels, if_value};
ghost use Rattle.flattening.specs.Forms.{IsEarly, IsIf, IsCase};
ghost use Rattle.flattening.specs.ExprLines.{lines, aim_lines, copied_lines, ready_lines, choice_lines, arm_lines};
ghost use Rattle.flattening.specs.StmtLines.{selector_lines};
ghost use Rattle.flattening.specs.Views.{types_of, facts_of, modes_of, result_of, uses_of, act_of, branch_lines, fresh_lines, ArmsLast, other_lines};
ghost use Rattle.flattening.specs.Written.{IsPut, GoesOnAt, ArmsPut};

use crate::acts::{
    put_call, put_constant, put_get, put_handed_on, put_none_fits, put_object, put_operation,
};
use crate::around::{Around, Uses};
use crate::finds::{add_found, put_begun};
use crate::known::{branch_use, is_copied, is_last, is_lent_text, use_at};
use crate::labels::{may_close, put_value_tests};
use crate::marks::{put_arm_label, put_early, put_jump, put_label, put_unless};
use crate::numbers::Purpose;
use crate::spans::{
    behind_operand, behind_path, behind_picks, behind_selector, behind_value, next, selector_from,
};
use crate::waits::{put_branch_ends, put_lent, put_settled, put_value_ends};
use crate::written::{Arms, Written};
use flat_code::{Line, UseAt};
use nim_program::{Choice, Expr, Operand, Path, Pick, Use};
use nim_types::TypeId;
use std::alloc::Global;

/// Adds the lines of an expression, whose value comes to temporary t.
#[cycle(exprs)]
pub fn add_expr(
    alloc: Global,
    code: &mut Written<Line>,
    around: &Around,
    expr: &Expr,
    how: Use,
    t: u32,
)
    ensures { IsPut code.old code.new (lines (types_of around.now) (facts_of around.now)
        (modes_of around.now) (expr_of (types_of around.now) expr.now) how t) }
{
    let Some(u) = next(t) else {
        return code.lose();
    };
    let at = UseAt {
        how,
        node: expr.node().number,
    };
    match expr {
        Expr::Apply {
            ty,
            operation,
            operands,
            ..
        } => {
            add_ready(alloc, code, around, operands, Uses::Of(*operation), u);
            put_settled(alloc, code, around, operands, Uses::Of(*operation), u);
            put_operation(alloc, code, around, t, *operation, at, *ty, operands, u)
        }
        Expr::Call {
            ty,
            proc,
            operands,
            ..
        } => {
            add_ready(alloc, code, around, operands, Uses::OfParams(*proc), u);
            put_settled(alloc, code, around, operands, Uses::OfParams(*proc), u);
            put_call(alloc, code, around, t, *proc, at, *ty, operands, u)
        }
        Expr::Construct {
            ty,
            fields,
            operands,
            ..
        } => {
            add_ready(alloc, code, around, operands, Uses::All(Use::Held), u);
            put_settled(alloc, code, around, operands, Uses::All(Use::Held), u);
            put_object(alloc, code, around, t, fields, at, *ty, operands, u)
        }
        Expr::Constant { ty, value, .. } => { put_constant(alloc, code, around, t, value, at, *ty) }
        Expr::Read { path } => {
            add_aim(alloc, code, around, path, u);
            add_found(alloc, code, around, path, u);
            put_get(code, around, path, how, t, u)
        }
        Expr::Early { .. } => add_early(alloc, code, around, expr, how, t, u),
        Expr::If { .. } => add_if(alloc, code, around, expr, how, t, u),
        Expr::Case { .. } => add_case(alloc, code, around, expr, how, t, u),
    }
}

// An `and` or an `or`. The numbers of its parts begin with u.
#[cycle(exprs)]
fn add_early(
    alloc: Global,
    code: &mut Written<Line>,
    around: &Around,
    expr: &Expr,
    how: Use,
    t: u32,
    u: u32,
)
    requires { IsEarly expr.now }
    ensures { u ≡ suc t → IsPut code.old code.new (lines (types_of around.now) (facts_of around.now)
        (modes_of around.now) (expr_of (types_of around.now) expr.now) how t) }
{
    match expr {
        Expr::Early {
            node,
            short,
            left,
            right,
            ..
        } => {
            let left = &**left;
            let right = &**right;
            let Some(v) = behind_value(around, u, left) else {
                return code.lose();
            };
            add_expr(alloc, code, around, left, Use::Owned, u);
            put_early(code, *short, t, u);
            add_expr(alloc, code, around, right, Use::Owned, v);
            code.put(Line::Pass {
                to: t,
                from: v,
                how: UseAt {
                    how,
                    node: node.number,
                },
                ty: None,
            });
            put_label(code, Purpose::End, t)
        }
        _ => unreachable!(),
    }
}

// An `if` that gives a value. The numbers of its parts begin with u.
#[cycle(exprs)]
fn add_if(
    alloc: Global,
    code: &mut Written<Line>,
    around: &Around,
    expr: &Expr,
    how: Use,
    t: u32,
    u: u32,
)
    requires { IsIf expr.now }
    ensures { u ≡ suc t → IsPut code.old code.new (lines (types_of around.now) (facts_of around.now)
        (modes_of around.now) (expr_of (types_of around.now) expr.now) how t) }
{
    match expr {
        Expr::If {
            node,
            ty,
            branches,
            otherwise,
        } => {
            let how = UseAt {
                how,
                node: node.number,
            };
            let otherwise = &**otherwise;
            let Some(v) = add_choices(alloc, code, around, branches, *ty, how, t, u) else {
                return;
            };
            add_handed_on(alloc, code, around, otherwise, *ty, how, t, v);
            put_label(code, Purpose::End, t)
        }
        _ => unreachable!(),
    }
}

// A `case` that gives a value. The numbers of its parts begin with u.
#[cycle(exprs)]
fn add_case(
    alloc: Global,
    code: &mut Written<Line>,
    around: &Around,
    expr: &Expr,
    how: Use,
    t: u32,
    u: u32,
)
    requires { IsCase expr.now }
    ensures { u ≡ suc t → IsPut code.old code.new (lines (types_of around.now) (facts_of around.now)
        (modes_of around.now) (expr_of (types_of around.now) expr.now) how t) }
{
    match expr {
        Expr::Case {
            node,
            ty,
            selector,
            branches,
            otherwise,
        } => {
            let how = UseAt {
                how,
                node: node.number,
            };
            let selector = &**selector;
            let Some(s) = behind_picks(u, branches) else {
                return code.lose();
            };
            let Some(v) = behind_selector(around, s, selector) else {
                return code.lose();
            };
            add_selector(alloc, code, around, selector, s);
            put_value_tests(alloc, code, around, branches, s, v);
            put_jump(code, Purpose::Next, t);
            let closes = may_close(around, selector, otherwise);
            match add_arms(alloc, code, around, closes, branches, *ty, how, t, v) {
                Arms::Lost => {}
                Arms::Closed => put_label(code, Purpose::End, t),
                Arms::Open(w) => {
                    add_others(alloc, code, around, otherwise, *ty, how, t, w);
                    put_label(code, Purpose::End, t)
                }
            }
        }
        _ => unreachable!(),
    }
}

/// Adds what a path needs before it is looked up.
#[cycle(exprs)]
pub fn add_aim(alloc: Global, code: &mut Written<Line>, around: &Around, path: &Path, t: u32)
    ensures { IsPut code.old code.new (aim_lines (types_of around.now) (facts_of around.now)
        (modes_of around.now)
        (path_of (types_of around.now) path.now) t) }
{
    let Some(u) = next(t) else {
        return code.lose();
    };
    match path {
        Path::Variable { .. } => {}
        Path::Fresh { value } => add_fresh(alloc, code, around, &**value, u),
        Path::Field { base, .. } => add_aim(alloc, code, around, &**base, u),
        Path::Deref { base, .. } => add_aim(alloc, code, around, &**base, u),
        Path::Element { base, index, .. } => {
            let base = &**base;
            let index = &**index;
            let Some(v) = behind_path(around, u, base) else {
                return code.lose();
            };
            add_aim(alloc, code, around, base, u);
            add_expr(alloc, code, around, index, Use::Owned, v)
        }
    }
}

// A value that a path begins with. A constant stands in the data, and nothing is to be done for it.
#[cycle(exprs)]
fn add_fresh(alloc: Global, code: &mut Written<Line>, around: &Around, value: &Expr, t: u32)
    ensures { IsPut code.old code.new (fresh_lines (types_of around.now) (facts_of around.now)
        (modes_of around.now)
        (expr_of (types_of around.now) value.now) t) }
{
    match value {
        Expr::Constant { .. } => {}
        _ => add_expr(alloc, code, around, value, Use::Looked, t),
    }
}

/// Adds where a place copies from.
#[cycle(exprs)]
pub fn add_copied(alloc: Global, code: &mut Written<Line>, around: &Around, value: &Expr, t: u32)
    ensures { IsPut code.old code.new (copied_lines (types_of around.now) (facts_of around.now)
        (modes_of around.now) (expr_of (types_of around.now) value.now) t) }
{
    match value {
        Expr::Read { path } => match next(t) {
            None => code.lose(),
            Some(u) => {
                add_aim(alloc, code, around, path, u);
                add_found(alloc, code, around, path, u)
            }
        },
        _ => {}
    }
}

// An operand before places are looked up.
#[cycle(exprs)]
fn add_operand(
    alloc: Global,
    code: &mut Written<Line>,
    around: &Around,
    operand: &Operand,
    uses: Uses,
    how: Use,
    t: u32,
)
    ensures { IsPut code.old code.new (ready_lines (types_of around.now) (facts_of around.now)
        (modes_of around.now) (act_of uses) (operand_before (types_of around.now) operand.now NoArg)
        (λ i. how) 0 t) }
{
    match operand {
        Operand::Value(value) => {
            if is_copied(around, how, value) {
                return add_copied(alloc, code, around, value, t);
            }
            if is_lent_text(around, uses, how, value) {
                return put_begun(alloc, code, around, value, t);
            }
            add_expr(alloc, code, around, value, how, t);
            put_lent(code, around, value, uses, how, t)
        }
        Operand::At(path) => add_aim(alloc, code, around, path, t),
    }
}

/// Adds operands, whose numbers begin with t, before places are looked up.
#[cycle(exprs)]
pub fn add_ready(
    alloc: Global,
    code: &mut Written<Line>,
    around: &Around,
    operands: &Vec<Operand>,
    uses: Uses,
    t: u32,
)
    ensures { IsPut code.old code.new (ready_lines (types_of around.now) (facts_of around.now)
        (modes_of around.now) (act_of uses) (operands_of (types_of around.now) operands.now.items)
        (uses_of (modes_of around.now) uses) 0 t) }
{
    let mut u = t;
    let mut position = 0;
    for operand in operands {
        let Some(following) = behind_operand(around, u, operand) else {
            return code.lose();
        };
        let how = use_at(around, uses, position);
        add_operand(alloc, code, around, operand, uses, how, u);
        u = following;
        position += 1;
    }
}

/// Adds the selector of a `case`, whose value comes to temporary s.
#[cycle(exprs)]
pub fn add_selector(
    alloc: Global,
    code: &mut Written<Line>,
    around: &Around,
    selector: &Operand,
    s: u32,
)
    ensures { IsPut code.old code.new (selector_lines (types_of around.now) (facts_of around.now)
        (modes_of around.now)
        (result_of around.now) (operand_before (types_of around.now) selector.now NoArg) s) }
{
    match selector {
        Operand::Value(value) => add_expr(alloc, code, around, value, Use::Looked, s),
        Operand::At(path) => {
            let Some(from) = selector_from(s, selector) else {
                return code.lose();
            };
            add_aim(alloc, code, around, path, from);
            add_found(alloc, code, around, path, from);
            code.put(Line::Look { to: s, from })
        }
    }
}

// The conditions of an `if` and their values, which come before what is last.
#[cycle(exprs)]
fn add_choices(
    alloc: Global,
    code: &mut Written<Line>,
    around: &Around,
    branches: &Vec<Choice>,
    ty: Option<TypeId>,
    how: UseAt,
    t: u32,
    first: u32,
) -> Option<u32>
    ensures { GoesOnAt result code.old code.new
        (λ (last : Args) u. choice_lines (types_of around.now) (facts_of around.now)
        (modes_of around.now) last (if_type (types_of around.now) ty) how t u)
        (λ (last : Args). choice_lines (types_of around.now) (facts_of around.now)
        (modes_of around.now) (choices_of (types_of around.now) branches.now.items last)
        (if_type (types_of around.now) ty) how t first) }
{
    let mut u = first;
    for branch in branches {
        let Some(v) = behind_value(around, u, &branch.condition) else {
            code.lose();
            return None;
        };
        let Some(following) = behind_value(around, v, &branch.value) else {
            code.lose();
            return None;
        };
        add_expr(alloc, code, around, &branch.condition, Use::Owned, u);
        put_value_ends(alloc, code, around, &branch.condition, Use::Owned);
        put_unless(code, u, Purpose::Arm, u);
        add_handed_on(alloc, code, around, &branch.value, ty, how, t, v);
        put_jump(code, Purpose::End, t);
        put_label(code, Purpose::Arm, u);
        u = following;
    }
    Some(u)
}

// The value of a branch, which becomes that of the whole.
#[cycle(exprs)]
fn add_handed_on(
    alloc: Global,
    code: &mut Written<Line>,
    around: &Around,
    value: &Expr,
    ty: Option<TypeId>,
    how: UseAt,
    t: u32,
    from: u32,
)
    ensures { IsPut code.old code.new (branch_lines (types_of around.now) (facts_of around.now)
        (modes_of around.now)
        (expr_of (types_of around.now) value.now) (if_type (types_of around.now) ty) how t from) }
{
    add_expr(alloc, code, around, value, branch_use(around, value), from);
    put_branch_ends(alloc, code, around, value);
    put_handed_on(code, around, t, from, how, ty)
}

// The branches of a `case`. Where they close it, the last one is for all else.
#[cycle(exprs)]
fn add_arms(
    alloc: Global,
    code: &mut Written<Line>,
    around: &Around,
    closes: bool,
    branches: &Vec<Pick>,
    ty: Option<TypeId>,
    how: UseAt,
    t: u32,
    first: u32,
) -> Arms
    ensures { (covered : Bool) → ArmsPut result code.old code.new
        (λ (last : ArmsLast covered closes) u. other_lines (types_of around.now)
        (facts_of around.now) (modes_of around.now) covered last.0
        (if_type (types_of around.now) ty) how t u)
        (λ (last : ArmsLast covered closes). arm_lines (types_of around.now) (facts_of around.now)
        (modes_of around.now) covered (pick_labels branches.now.items)
        (picks_of (types_of around.now) branches.now.items last.0)
        (if_type (types_of around.now) ty) how t first) }
{
    let mut u = first;
    let mut i = 0;
    while i < branches.len() {
        let value = &branches[i].value;
        i += 1;
        let Some(following) = behind_value(around, u, value) else {
            code.lose();
            return Arms::Lost;
        };
        let for_others = is_last(closes, i, branches.len());
        put_arm_label(code, for_others, t, u);
        add_handed_on(alloc, code, around, value, ty, how, t, u);
        if for_others {
            return Arms::Closed;
        }
        put_jump(code, Purpose::End, t);
        u = following;
    }
    Arms::Open(u)
}

// What is done where no label fits.
#[cycle(exprs)]
fn add_others(
    alloc: Global,
    code: &mut Written<Line>,
    around: &Around,
    otherwise: &Option<Box<Expr>>,
    ty: Option<TypeId>,
    how: UseAt,
    t: u32,
    u: u32,
)
    ensures { (covered : Bool) → IsPut code.old code.new (other_lines (types_of around.now)
        (facts_of around.now) (modes_of around.now) covered
        (if_value (types_of around.now) (option_map (λ e. e.value) otherwise.now))
        (if_type (types_of around.now) ty) how t u) }
{
    put_label(code, Purpose::Next, t);
    match otherwise {
        None => put_none_fits(alloc, code, around, t, ty, how),
        Some(value) => add_handed_on(alloc, code, around, &**value, ty, how, t, u),
    }
}
