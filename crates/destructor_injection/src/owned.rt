// Flat code as owned code, procedure by procedure and line by line.
ghost use Rattle.std.specs.Prelude.{◌≡◌, IfOk, map};
ghost use Rattle.nim_plan.specs.Order.{IsInOrder};
ghost use Rattle.nim_meaning.specs.Here.{act_at};
ghost use Rattle.flat_code.specs.Codes.{under, each_line};
ghost use Rattle.destructor_injection.specs.Injecting.{IsOwned};

use arc_base::{Items, Memory, agreement};
use flat_code::{CodeProc, Flat, Line, Owned, OwnedLine, codes, copied};
use nim_plan::{Plan, act_of};
use std::alloc::Global;

/// Owned code does at most so many times the work of the flat code that it is of.
pub const PACE: u32 = 1;

/// It has at most so many lines for each line of the flat code.
pub const LINES_EACH: u32 = 1;

fn owned_line(alloc: Global, line: &Line, plan: &Plan) -> Result<OwnedLine, Memory>
    ensures { IsInOrder plan.now → IfOk result (λ owned. owned ≡ under plan.now line.now) }
{
    if let Line::Get { to, from, how, ty } = line {
        let act = act_of(plan, how.node);
        return Ok(OwnedLine::Take {
            to: *to,
            from: *from,
            how: *how,
            act,
            ty: *ty,
        });
    }
    let plain = line.copied(alloc)?;
    Ok(OwnedLine::Plain(plain))
}

fn owned_lines(alloc: Global, lines: &[Line], plan: &Plan) -> Result<Items<OwnedLine>, Memory>
    ensures { IsInOrder plan.now →
        IfOk result (λ owned. owned ≡ map (under plan.now) lines.now) }
{
    let mut owned = Items::new(alloc);
    for line in lines {
        let next = owned_line(alloc, line, plan)?;
        owned.push(next)?;
    }
    Ok(owned)
}

fn owned_proc(
    alloc: Global,
    proc: &CodeProc<Line>,
    plan: &Plan,
) -> Result<CodeProc<OwnedLine>, Memory>
    ensures { IsInOrder plan.now →
        IfOk result (λ owned. owned ≡ each_line (under plan.now) proc.now) }
{
    let places = copied(alloc, proc.places.as_slice())?;
    let lines = owned_lines(alloc, proc.lines.as_slice(), plan)?;
    Ok(CodeProc {
        first: proc.first,
        span: proc.span,
        places,
        lines,
        hook: proc.hook,
    })
}

fn owned_procs(
    alloc: Global,
    procs: &[CodeProc<Line>],
    plan: &Plan,
) -> Result<Items<CodeProc<OwnedLine>>, Memory>
    ensures { IsInOrder plan.now →
        IfOk result (λ owned. owned ≡ map (each_line (under plan.now)) procs.now) }
{
    let mut owned = Items::new(alloc);
    for proc in procs {
        let next = owned_proc(alloc, proc, plan)?;
        owned.push(next)?;
    }
    Ok(owned)
}

/// Owned code that does what flat code does under a plan whose lists are in order, where that is
/// never at a fault and never wrong.
pub fn owned_of(alloc: Global, flat: &Flat, plan: &Plan) -> Result<Owned, Memory>
    ensures { IsInOrder plan.now → IfOk result (λ owned. IsOwned flat.now plan.now owned) }
{
    agreement();
    codes();
    let procs = owned_procs(alloc, flat.procs.as_slice(), plan)?;
    Ok(Owned { procs })
}
