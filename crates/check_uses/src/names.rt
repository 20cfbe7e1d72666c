// The globals that procedures name, and the `var` arguments that may be none of them.
ghost use Rattle.std.specs.Prelude.{◌≡◌, ◌∷◌, [], IfOk};
ghost use Rattle.arc_base.specs.Refusal.{Answers};
ghost use Rattle.decl_rules.specs.Whole.{names, occurrence_rule, occurrences_rule};
ghost use Rattle.check_uses.specs.Uses.{seen, occurrence_of};
ghost use Rattle.check_uses.specs.Known.{all_procs};
ghost use Rattle.check_uses.specs.Search.{visited, Leaves};

use crate::known::{Known, uses_of};
use crate::uses::Occurrence;
use arc_base::{Code, Memory, Stop};
use decl_rules::names_found;
use number_sets::Numbers;

// Adds the procedure that is called, unless the global is used: whether it is.
fn visit_one(reached: &mut Numbers, occurrence: Occurrence, global: u32) -> Result<bool, Memory>
    ensures { IfOk result (λ found. Leaves found reached.new
        (visited global (occurrence_of occurrence ∷ []) reached.old)) }
{
    match occurrence {
        Occurrence::Global { place } => Ok(place == global),
        Occurrence::Calls { proc } => {
            reached.add(proc)?;
            Ok(false)
        }
        Occurrence::Hands { .. } => Ok(false),
    }
}

// Adds the procedures that are called, unless the global is used: whether it is.
fn visit(reached: &mut Numbers, uses: &[Occurrence], global: u32) -> Result<bool, Memory>
    ensures { IfOk result (λ found. Leaves found reached.new
        (visited global (seen uses.now) reached.old)) }
{
    for occurrence in uses {
        let found = visit_one(reached, *occurrence, global)?;
        if found {
            return Ok(true);
        }
    }
    Ok(false)
}

// Whether a procedure names a global: a search through all calls.
fn names(known: &Known, reached: &mut Numbers, global: u32, proc: u32) -> Result<bool, Memory>
    ensures { IfOk result (λ found. found ≡ names (all_procs known.now) global proc) }
{
    names_found();
    reached.clear();
    reached.add(proc)?;
    let mut next = 0;
    while next < reached.count() {
        let number = reached.get(next);
        let found = visit(reached, uses_of(&known.uses, number), global)?;
        if found {
            return Ok(true);
        }
        next += 1;
    }
    Ok(false)
}

fn check_use(known: &Known, reached: &mut Numbers, occurrence: Occurrence) -> Result<(), Stop>
    ensures { Answers (λ _. tt)
        (occurrence_rule (all_procs known.now) (occurrence_of occurrence)) result }
{
    match occurrence {
        Occurrence::Global { .. } | Occurrence::Calls { .. } => Ok(()),
        Occurrence::Hands { proc, at, global } => {
            let found = names(known, reached, global, proc)?;
            if found {
                return Err(Stop::Refused {
                    code: Code::VarOfGlobal,
                    at,
                });
            }
            Ok(())
        }
    }
}

/// Whether no `var` argument among these is a global that its procedure names.
pub fn check_each(known: &Known, reached: &mut Numbers, uses: &[Occurrence]) -> Result<(), Stop>
    ensures { Answers (λ _. tt) (occurrences_rule (all_procs known.now) (seen uses.now)) result }
{
    for occurrence in uses {
        match check_use(known, reached, *occurrence) {
            Ok(()) => {}
            Err(stop) => return Err(stop),
        }
    }
    Ok(())
}
