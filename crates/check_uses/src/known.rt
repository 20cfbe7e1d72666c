// The procedures, and what occurs in them.
ghost use Rattle.std.specs.Prelude.{◌≡◌, map, slice_get, IfOk};
ghost use Rattle.check_uses.specs.Uses.{seen, in_procedure, uses_at, AreListed};

use crate::stmts::add_block;
use crate::uses::Occurrence;
use arc_base::{Items, Memory};
use nim_program::Proc;
use std::alloc::Global;

/// The procedures, by number, and what occurs in the body of each.
#[derive(Drop)]
pub struct Known<'a> {
    pub procs: &'a Vec<Proc>,
    pub uses: Vec<Items<Occurrence>>,
    ghost listed: { AreListed procs.now.items uses.items },
}

fn uses_in(alloc: Global, proc: &Proc) -> Result<Items<Occurrence>, Memory>
    ensures { IfOk result (λ uses. seen uses ≡ in_procedure proc.now) }
{
    let mut uses = Items::new(alloc);
    if let Some(body) = &proc.body {
        add_block(&mut uses, &body.stmts)?;
    }
    Ok(uses)
}

fn all_uses(alloc: Global, procs: &Vec<Proc>) -> Result<Vec<Items<Occurrence>>, Memory>
    ensures { IfOk result (λ uses. AreListed procs.now.items uses.items) }
{
    let mut all = Vec::new(alloc);
    for proc in procs {
        let uses = uses_in(alloc, proc)?;
        all.push(uses)?;
    }
    Ok(all)
}

/// Lists what occurs in procedures.
pub fn known_of<'a>(alloc: Global, procs: &'a Vec<Proc>) -> Result<Known<'a>, Memory>
    ensures { IfOk result (λ known. known.procs.now ≡ procs.now) }
{
    let uses = all_uses(alloc, procs)?;
    Ok(Known { procs, uses })
}

/// What occurs in the body of a procedure.
pub fn uses_of(uses: &Vec<Items<Occurrence>>, proc: u32) -> &[Occurrence]
    ensures { seen result.now ≡ uses_at (slice_get uses.now.items proc) }
{
    match uses.get(proc as usize) {
        Some(list) => list.as_slice(),
        None => &[],
    }
}
