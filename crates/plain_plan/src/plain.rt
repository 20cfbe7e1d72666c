// The plain plan of a program.
ghost use Rattle.std.specs.Prelude.{◌≡◌, IfOk, map};
ghost use Rattle.nim_types.specs.Table.{types_in, facts_in};
ghost use Rattle.nim_program.specs.Sizes.{HaveForms};
ghost use Rattle.nim_program.specs.View.{proc_of, program_under};
ghost use Rattle.plain_plan.specs.Adding.{Adds};
ghost use Rattle.plain_plan.specs.Plain.{plain_plan, AreWords};
ghost use Rattle.nim_meaning.specs.TreeSites.{sites_if_body, proc_sites};
ghost use Rattle.plain_plan.specs.Views.{types_of, facts_of, modes_of};

use crate::around::Around;
use crate::blocks::add_block;
use crate::found::Found;
use arc_base::{Items, Memory};
use nim_plan::Plan;
use nim_program::{Proc, Program};
use nim_types::type_forms;
use std::alloc::Global;

// Of a procedure, where it has a body.
fn add_proc(found: &mut Found, around: &Around, proc: &Proc)
    ensures { Adds found.old found.new (sites_if_body (facts_of around.now) (modes_of around.now)
        (proc_of (types_of around.now) proc.now).body) }
{
    match &proc.body {
        None => {}
        Some(body) => add_block(found, around, &body.stmts),
    }
}

fn add_procs(found: &mut Found, around: &Around, procs: &Vec<Proc>)
    ensures { Adds found.old found.new (proc_sites (facts_of around.now) (modes_of around.now)
        (map (proc_of (types_of around.now)) procs.now.items)) }
{
    for proc in procs {
        add_proc(found, around, proc);
    }
}

/// The plan of a program that copies at each of its sites, and does nothing else. `Memory` where
/// none was found.
pub fn plain_plan(alloc: Global, program: &Program) -> Result<Plan, Memory>
    requires forms { HaveForms program.now.types }
    ensures is { IfOk result (λ plan. plan ≡ plain_plan (program_under (types_in program.now.types)
        (facts_in program.now.types) program.now)) }
    ensures words { IfOk result (λ plan. AreWords plan.sites) }
{
    type_forms();
    let around = Around {
        types: &program.types,
        procs: &program.procs,
    };
    let mut found = Found::new(alloc);
    add_procs(&mut found, &around, &program.procs);
    add_block(&mut found, &around, &program.start.stmts);
    let sites = found.finish(alloc)?;
    Ok(Plan {
        sites,
        sinks: Items::new(alloc),
        skips: Items::new(alloc),
    })
}
