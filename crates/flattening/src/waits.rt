// What waits in the values of a part, and the lines by which it is taken or ends.
ghost use Rattle.std.specs.Prelude.{◌≡◌, ◌∷◌, ◌++◌, [], List, OnOk};
ghost use Rattle.nim_types.specs.Types.{Ty};
ghost use Rattle.nim_program.specs.Program.{node_of, Fresh, NoArg};
ghost use Rattle.nim_program.specs.View.{expr_of, path_of, operand_before, operands_of, if_type};
ghost use Rattle.nim_meaning.specs.Shapes.{is_held};
ghost use Rattle.nim_meaning.specs.Waiting.{waiting, waiting_at, waiting_all};
ghost use Rattle.nim_meaning.specs.Waiting.{waiting_first, held_from};
ghost use Rattle.flattening.specs.ExprLines.{lent_line, settle_lines, taken_lines, value_ends, branch_ends};
ghost use Rattle.flattening.specs.Numbering.{number_or};
ghost use Rattle.flattening.specs.Views.{types_of, facts_of, modes_of, uses_of, act_of, own_lines};
ghost use Rattle.flattening.specs.Views.{waits_own, keeps, own_waits, inside_waits};
ghost use Rattle.flattening.specs.Written.{IsPut};

use crate::acts::put_own;
use crate::around::{Around, Uses};
use crate::finds::add_settled;
use crate::known::{
    gives_hooked, has_hooks, has_node, is_lent_at, type_number, use_at, waits, waits_at,
};
use crate::written::Written;
use arc_base::{Items, Memory};
use flat_code::{Line, Owning};
use nim_program::{Expr, Literal, Operand, Path, Use};
use nim_types::TypeId;
use std::alloc::Global;

/// A value that is lent has a location.
pub fn put_lent(
    code: &mut Written<Line>,
    around: &Around,
    value: &Expr,
    uses: Uses,
    how: Use,
    t: u32,
)
    ensures { IsPut code.old code.new (lent_line (facts_of around.now) (act_of uses) how
        (expr_of (types_of around.now) value.now) t) }
{
    if is_lent_at(around, uses, how, value) {
        code.put(Line::Fresh {
            to: t,
            from: t,
            waits: waits_at(around, value),
        })
    }
}

// ---- what is taken

// An operation takes what it holds of its operands.
fn put_taken(
    alloc: Global,
    code: &mut Written<Line>,
    around: &Around,
    operands: &Vec<Operand>,
    uses: Uses,
)
    ensures { IsPut code.old code.new (taken_lines (held_from (facts_of around.now)
        (modes_of around.now) (operands_of (types_of around.now) operands.now.items)
        (uses_of (modes_of around.now) uses) 0)) }
{
    let mut position = 0;
    for operand in operands {
        put_taken_one(alloc, code, around, operand, use_at(around, uses, position));
        position += 1;
    }
}

fn put_taken_one(
    alloc: Global,
    code: &mut Written<Line>,
    around: &Around,
    operand: &Operand,
    how: Use,
)
    ensures { IsPut code.old code.new (taken_lines (held_from (facts_of around.now)
        (modes_of around.now) (operand_before (types_of around.now) operand.now NoArg)
        (λ i. how) 0)) }
{
    match operand {
        Operand::Value(value) => {
            if has_hooks(around, value) && is_held(how) {
                put_taken_up(alloc, code, value)
            }
        }
        Operand::At(_) => {}
    }
}

fn is_held(how: Use) -> bool
    ensures { result ≡ is_held how }
{
    matches!(how, Use::Held)
}

/// The value that waits at the node of an expression is taken.
pub fn put_taken_up(alloc: Global, code: &mut Written<Line>, value: &Expr)
    ensures { (ts : List Ty) → IsPut code.old code.new
        (taken_lines ((node_of (expr_of ts value.now)).number ∷ [])) }
{
    put_own(
        alloc,
        code,
        Owning::TakenUp {
            node: value.node().number,
        },
    )
}

/// The places of operands are looked up, and what an operation holds of them is taken.
pub fn put_settled(
    alloc: Global,
    code: &mut Written<Line>,
    around: &Around,
    operands: &Vec<Operand>,
    uses: Uses,
    t: u32,
)
    ensures { IsPut code.old code.new (λ k. settle_lines (types_of around.now) (facts_of around.now)
        (operands_of (types_of around.now) operands.now.items) t (taken_lines (held_from
        (facts_of around.now) (modes_of around.now)
        (operands_of (types_of around.now) operands.now.items)
        (uses_of (modes_of around.now) uses) 0) k)) }
{
    add_settled(alloc, code, around, operands, t);
    put_taken(alloc, code, around, operands, uses)
}

// ---- what ends

fn number_or(around: &Around, ty: Option<TypeId>) -> TypeId
    ensures { result ≡ number_or (types_of around.now) (if_type (types_of around.now) ty) }
{
    match ty {
        None => 0,
        Some(ty) => type_number(around, ty),
    }
}

// Whether the value of the node itself waits, if it has hooks.
fn keeps(value: &Expr, how: Use) -> bool
    ensures { (ts : List Ty) → keeps (expr_of ts value.now) how ≡ result }
{
    match value {
        Expr::Constant { value, .. } => match value {
            Literal::Text(_) => is_held(how),
            _ => waits(how),
        },
        Expr::Read { path } => has_node(path) && (is_held(how) || matches!(how, Use::Lent)),
        Expr::Early { .. } => false,
        _ => waits(how),
    }
}

// The value of the node itself, where it waits.
fn add_own(ends: &mut Items<Owning>, around: &Around, value: &Expr, how: Use) -> Result<(), Memory>
    ensures { OnOk result (ends.new ≡ ends.old ++ waits_own (types_of around.now)
        (own_waits (facts_of around.now) (modes_of around.now)
        (expr_of (types_of around.now) value.now) how)) }
{
    let ty = value.ty();
    if !gives_hooked(around, ty) || !keeps(value, how) {
        return Ok(());
    }
    ends.push(Owning::TemporaryEnds {
        node: value.node().number,
        ty: number_or(around, ty),
    })
}

/// Adds the ends of what waits in a value, in the order in which it is made.
#[cycle(waits)]
fn add_waits(
    ends: &mut Items<Owning>,
    around: &Around,
    value: &Expr,
    how: Use,
) -> Result<(), Memory>
    ensures { OnOk result (ends.new ≡ ends.old ++ waits_own (types_of around.now)
        (waiting (facts_of around.now) (modes_of around.now)
        (expr_of (types_of around.now) value.now) how)) }
{
    add_inside(ends, around, value)?;
    add_own(ends, around, value, how)
}

// What waits in the parts of a value. Conditions and branches are groups of their own.
#[cycle(waits)]
fn add_inside(ends: &mut Items<Owning>, around: &Around, value: &Expr) -> Result<(), Memory>
    ensures { OnOk result (ends.new ≡ ends.old ++ waits_own (types_of around.now)
        (inside_waits (facts_of around.now) (modes_of around.now)
        (expr_of (types_of around.now) value.now))) }
{
    match value {
        Expr::Apply {
            operation,
            operands,
            ..
        } => add_waits_of(ends, around, operands, Uses::Of(*operation)),
        Expr::Call { proc, operands, .. } => {
            add_waits_of(ends, around, operands, Uses::OfParams(*proc))
        }
        Expr::Construct { operands, .. } => {
            add_waits_of(ends, around, operands, Uses::All(Use::Held))
        }
        Expr::Constant { .. } | Expr::If { .. } => Ok(()),
        Expr::Read { path } => add_path_waits(ends, around, path),
        Expr::Early { left, right, .. } => {
            let left = &**left;
            let right = &**right;
            add_waits(ends, around, left, Use::Owned)?;
            add_waits(ends, around, right, Use::Owned)
        }
        Expr::Case { selector, .. } => add_selector_waits(ends, around, &**selector),
    }
}

#[cycle(waits)]
fn add_path_waits(ends: &mut Items<Owning>, around: &Around, path: &Path) -> Result<(), Memory>
    ensures { OnOk result (ends.new ≡ ends.old ++ waits_own (types_of around.now)
        (waiting_at (facts_of around.now) (modes_of around.now)
        (path_of (types_of around.now) path.now))) }
{
    match path {
        Path::Variable { .. } => Ok(()),
        Path::Fresh { value } => add_fresh_waits(ends, around, &**value),
        Path::Field { base, .. } => add_path_waits(ends, around, &**base),
        Path::Deref { base, .. } => add_path_waits(ends, around, &**base),
        Path::Element { base, index, .. } => {
            let base = &**base;
            let index = &**index;
            add_path_waits(ends, around, base)?;
            add_waits(ends, around, index, Use::Owned)
        }
    }
}

// Of a value that a path begins with. A constant stands in the data.
#[cycle(waits)]
fn add_fresh_waits(ends: &mut Items<Owning>, around: &Around, value: &Expr) -> Result<(), Memory>
    ensures { OnOk result (ends.new ≡ ends.old ++ waits_own (types_of around.now)
        (waiting_at (facts_of around.now) (modes_of around.now)
        (Fresh (expr_of (types_of around.now) value.now)))) }
{
    match value {
        Expr::Constant { .. } => Ok(()),
        _ => add_waits(ends, around, value, Use::Looked),
    }
}

/// Adds the ends of what waits in the selector of a `case`.
#[cycle(waits)]
pub fn add_selector_waits(
    ends: &mut Items<Owning>,
    around: &Around,
    selector: &Operand,
) -> Result<(), Memory>
    ensures { OnOk result (ends.new ≡ ends.old ++ waits_own (types_of around.now)
        (waiting_first (facts_of around.now) (modes_of around.now)
        (operand_before (types_of around.now) selector.now NoArg))) }
{
    match selector {
        Operand::Value(value) => add_waits(ends, around, value, Use::Looked),
        Operand::At(path) => add_path_waits(ends, around, path),
    }
}

#[cycle(waits)]
fn add_operand_waits(
    ends: &mut Items<Owning>,
    around: &Around,
    operand: &Operand,
    how: Use,
) -> Result<(), Memory>
    ensures { OnOk result (ends.new ≡ ends.old ++ waits_own (types_of around.now)
        (waiting_all (facts_of around.now) (modes_of around.now)
        (operand_before (types_of around.now) operand.now NoArg) (λ i. how) 0)) }
{
    match operand {
        Operand::Value(value) => add_waits(ends, around, value, how),
        Operand::At(path) => add_path_waits(ends, around, path),
    }
}

/// Adds the ends of what waits in operands.
#[cycle(waits)]
pub fn add_waits_of(
    ends: &mut Items<Owning>,
    around: &Around,
    operands: &Vec<Operand>,
    uses: Uses,
) -> Result<(), Memory>
    ensures { OnOk result (ends.new ≡ ends.old ++ waits_own (types_of around.now)
        (waiting_all (facts_of around.now) (modes_of around.now)
        (operands_of (types_of around.now) operands.now.items)
        (uses_of (modes_of around.now) uses) 0)) }
{
    let mut position = 0;
    for operand in operands {
        let how = use_at(around, uses, position);
        add_operand_waits(ends, around, operand, how)?;
        position += 1;
    }
    Ok(())
}

/// Something ends, the last one first.
pub fn put_ends(alloc: Global, code: &mut Written<Line>, ends: &[Owning])
    ensures { IsPut code.old code.new (own_lines ends.now) }
{
    let mut i = ends.len();
    while i > 0 {
        i -= 1;
        put_own(alloc, code, ends[i]);
    }
}

/// What waits in a value ends.
pub fn put_value_ends(
    alloc: Global,
    code: &mut Written<Line>,
    around: &Around,
    value: &Expr,
    how: Use,
)
    ensures { IsPut code.old code.new (value_ends (types_of around.now) (facts_of around.now)
        (modes_of around.now) (expr_of (types_of around.now) value.now) how) }
{
    let mut ends = Items::new(alloc);
    match add_waits(&mut ends, around, value, how) {
        Ok(()) => put_ends(alloc, code, ends.as_slice()),
        Err(_) => code.lose(),
    }
}

/// What waits in the value of a branch ends, and the value itself is taken up.
pub fn put_branch_ends(alloc: Global, code: &mut Written<Line>, around: &Around, value: &Expr)
    ensures { IsPut code.old code.new (branch_ends (types_of around.now) (facts_of around.now)
        (modes_of around.now) (expr_of (types_of around.now) value.now)) }
{
    put_value_ends(alloc, code, around, value, Use::Owned);
    if has_hooks(around, value) {
        put_taken_up(alloc, code, value)
    }
}
