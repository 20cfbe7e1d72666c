// What ends, as a list.
ghost use Rattle.std.specs.Prelude.{◌≡◌, ◌++◌, map, IfOk, OnOk};
ghost use Rattle.nim_program.specs.Program.{Empty, NoArg};
ghost use Rattle.nim_program.specs.View.{declared_of, param_of, stmt_before, operand_before, operands_of};
ghost use Rattle.nim_program.specs.declared.operation.Use.TheVariants.{Owned};
ghost use Rattle.nim_meaning.specs.Waiting.{waiting_all, waiting_first};
ghost use Rattle.flattening.specs.StmtViews.{first_owns};
ghost use Rattle.flattening.specs.StmtLines.{returned};
ghost use Rattle.flattening.specs.Views.{types_of, facts_of, modes_of, result_of};
ghost use Rattle.flattening.specs.Views.{waits_own, place_owns, params_own};
ghost use Rattle.flattening.specs.Written.{IsPut};

use crate::around::{Around, Uses};
use crate::known::{is_hooked, type_number};
use crate::waits::{add_selector_waits, add_waits_of};
use crate::written::Written;
use arc_base::{Items, Memory};
use flat_code::{Line, Owning};
use nim_program::{Operand, Param, PlaceDecl, Stmt, Use};
use std::alloc::Global;

/// Control goes back to the caller.
pub fn put_return(code: &mut Written<Line>, around: &Around)
    ensures { IsPut code.old code.new (returned (result_of around.now)) }
{
    let result = match around.result {
        None => None,
        Some(place) => Some(place.number),
    };
    code.put(Line::Return { result })
}

/// Adds a place, where it has hooks.
pub fn push_place(
    ends: &mut Items<Owning>,
    around: &Around,
    place: &PlaceDecl,
) -> Result<(), Memory>
    ensures { OnOk result (ends.new ≡ ends.old ++ place_owns (types_of around.now)
        (facts_of around.now) (declared_of (types_of around.now) place.now)) }
{
    if is_hooked(around, place.ty) {
        return ends.push(Owning::PlaceEnds {
            place: place.number,
            ty: type_number(around, place.ty),
        });
    }
    Ok(())
}

/// A place.
pub fn place_ends(
    alloc: Global,
    around: &Around,
    place: &PlaceDecl,
) -> Result<Items<Owning>, Memory>
    ensures { IfOk result (λ ends. ends ≡ place_owns (types_of around.now) (facts_of around.now)
        (declared_of (types_of around.now) place.now)) }
{
    let mut ends = Items::new(alloc);
    push_place(&mut ends, around, place)?;
    Ok(ends)
}

/// Parameters.
pub fn param_ends(alloc: Global, around: &Around, params: &[Param]) -> Result<Items<Owning>, Memory>
    ensures { IfOk result (λ ends. ends ≡ params_own (types_of around.now) (facts_of around.now)
        (map (param_of (types_of around.now)) params.now)) }
{
    let mut ends = Items::new(alloc);
    for param in params {
        push_place(&mut ends, around, &param.place)?;
    }
    Ok(ends)
}

/// Adds the place that a statement declares for the rest of its block.
pub fn push_declared(ends: &mut Items<Owning>, around: &Around, stmt: &Stmt) -> Result<(), Memory>
    ensures { OnOk result (ends.new ≡ ends.old ++ first_owns (types_of around.now)
        (facts_of around.now) (stmt_before (types_of around.now) stmt.now Empty)) }
{
    match stmt {
        Stmt::Declare { place, .. } => push_place(ends, around, place),
        _ => Ok(()),
    }
}

/// The temporaries of the values of a loop's head.
pub fn head_waits(
    alloc: Global,
    around: &Around,
    head: &Vec<Operand>,
) -> Result<Items<Owning>, Memory>
    ensures { IfOk result (λ ends. ends ≡ waits_own (types_of around.now)
        (waiting_all (facts_of around.now) (modes_of around.now)
        (operands_of (types_of around.now) head.now.items) (λ i. Owned) 0)) }
{
    let mut ends = Items::new(alloc);
    add_waits_of(&mut ends, around, head, Uses::All(Use::Owned))?;
    Ok(ends)
}

/// The temporaries of a selector.
pub fn selector_waits(
    alloc: Global,
    around: &Around,
    selector: &Operand,
) -> Result<Items<Owning>, Memory>
    ensures { IfOk result (λ ends. ends ≡ waits_own (types_of around.now)
        (waiting_first (facts_of around.now) (modes_of around.now)
        (operand_before (types_of around.now) selector.now NoArg))) }
{
    let mut ends = Items::new(alloc);
    add_selector_waits(&mut ends, around, selector)?;
    Ok(ends)
}
