// Lists of typed statements.
ghost use Rattle.std.specs.Prelude.{◌≡◌, ◌++◌, [], ◌∷◌, OnOk, IfOk, IfErr};
ghost use Rattle.arc_base.specs.declared.place.Stop.TheVariants as Stop;

use arc_base::Stop;
use nim_program::Stmt;
use std::alloc::Global;

/// Puts statements behind others.
pub fn append(all: &mut Vec<Stmt>, more: Vec<Stmt>) -> Result<(), Stop>
    ensures all { OnOk result (all.new.items ≡ all.old.items ++ more.items) }
    ensures memory { IfErr result (λ stop. stop ≡ Stop.Memory) }
{
    let mut more = more;
    all.append(&mut more)?;
    Ok(())
}

/// A list of one statement.
pub fn list_of(alloc: Global, stmt: Stmt) -> Result<Vec<Stmt>, Stop>
    ensures list { IfOk result (λ all. all.items ≡ stmt ∷ []) }
    ensures memory { IfErr result (λ stop. stop ≡ Stop.Memory) }
{
    let mut all = Vec::new(alloc);
    all.push(stmt)?;
    Ok(all)
}
