// The lines by which paths are looked up.
ghost use Rattle.std.specs.Prelude.{◌≡◌, if◌then◌else◌, Some, None};
ghost use Rattle.nim_program.specs.View.{expr_of, path_of, operand_before, operands_of};
ghost use Rattle.nim_program.specs.Program.{Fresh, NoArg, node_of};
ghost use Rattle.flattening.specs.ExprLines.{has_hooks, find_lines, settle_lines};
ghost use Rattle.flattening.specs.StmtLines.{look_up};
ghost use Rattle.flattening.specs.Views.{types_of, facts_of, modes_of, result_of};
ghost use Rattle.flattening.specs.Written.{IsPut};

use crate::acts::put_standing;
use crate::around::Around;
use crate::known::has_hooks;
use crate::spans::{behind_operand, behind_path, next};
use crate::written::Written;
use flat_code::Line;
use nim_program::{Expr, Operand, Path};
use std::alloc::Global;

/// A path whose indexes are evaluated is looked up: a line for each of its steps.
#[cycle(finds)]
pub fn add_found(alloc: Global, code: &mut Written<Line>, around: &Around, path: &Path, t: u32)
    ensures { IsPut code.old code.new
        (find_lines (types_of around.now) (facts_of around.now)
        (path_of (types_of around.now) path.now) t) }
{
    match path {
        Path::Variable { place, global, .. } => code.put(Line::Root {
            to: t,
            place: *place,
            global: *global,
        }),
        Path::Fresh { value } => put_begun(alloc, code, around, &**value, t),
        Path::Field { base, field, .. } => {
            let base = &**base;
            let Some(u) = next(t) else {
                return code.lose();
            };
            add_found(alloc, code, around, base, u);
            code.put(Line::Part {
                to: t,
                from: u,
                field: *field,
            })
        }
        Path::Element { base, .. } => {
            let base = &**base;
            let Some(u) = next(t) else {
                return code.lose();
            };
            let Some(index) = behind_path(around, u, base) else {
                return code.lose();
            };
            add_found(alloc, code, around, base, u);
            code.put(Line::Item {
                to: t,
                from: u,
                index,
            })
        }
        Path::Deref { base, .. } => {
            let base = &**base;
            let Some(u) = next(t) else {
                return code.lose();
            };
            add_found(alloc, code, around, base, u);
            code.put(Line::Object { to: t, from: u })
        }
    }
}

/// What a path begins with: a constant where it stands, or another value.
pub fn put_begun(alloc: Global, code: &mut Written<Line>, around: &Around, value: &Expr, t: u32)
    ensures { IsPut code.old code.new (find_lines (types_of around.now)
        (facts_of around.now) (Fresh (expr_of (types_of around.now) value.now)) t) }
{
    match value {
        Expr::Constant { ty, value, .. } => put_standing(alloc, code, around, t, value, *ty),
        _ => match next(t) {
            None => code.lose(),
            Some(from) => code.put(Line::Fresh {
                to: t,
                from,
                waits: fresh_waits(around, value),
            }),
        },
    }
}

// The node at which a value that a path begins with waits, if it has hooks.
fn fresh_waits(around: &Around, value: &Expr) -> Option<u32>
    ensures { result ≡ (if has_hooks (facts_of around.now) (expr_of (types_of around.now) value.now)
        then Some (node_of (expr_of (types_of around.now) value.now)).number else None) }
{
    if has_hooks(around, value) {
        Some(value.node().number)
    } else {
        None
    }
}

/// The places of operands are looked up, behind the last operand.
pub fn add_settled(
    alloc: Global,
    code: &mut Written<Line>,
    around: &Around,
    operands: &Vec<Operand>,
    t: u32,
)
    ensures { IsPut code.old code.new
        (settle_lines (types_of around.now) (facts_of around.now)
        (operands_of (types_of around.now) operands.now.items) t) }
{
    let mut u = t;
    for operand in operands {
        let Some(following) = behind_operand(around, u, operand) else {
            return code.lose();
        };
        add_place(alloc, code, around, operand, u);
        u = following;
    }
}

// The place of an operand, where it is a place.
fn add_place(alloc: Global, code: &mut Written<Line>, around: &Around, operand: &Operand, t: u32)
    ensures { IsPut code.old code.new
        (settle_lines (types_of around.now) (facts_of around.now)
        (operand_before (types_of around.now) operand.now NoArg) t) }
{
    match operand {
        Operand::Value(_) => {}
        Operand::At(path) => add_found(alloc, code, around, path, t),
    }
}

/// The path of a loop's head is looked up.
pub fn add_head_place(
    alloc: Global,
    code: &mut Written<Line>,
    around: &Around,
    head: &Vec<Operand>,
    t: u32,
)
    ensures { IsPut code.old code.new (look_up (types_of around.now) (facts_of around.now)
        (modes_of around.now) (result_of around.now) (operands_of (types_of around.now) head.now.items) t) }
{
    match head.first() {
        Some(Operand::At(path)) => add_found(alloc, code, around, path, t),
        _ => {}
    }
}
