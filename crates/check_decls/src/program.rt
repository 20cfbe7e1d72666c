// The program that modules are.
ghost use Rattle.std.specs.Prelude.{◌≡◌, ◌≤◌, List, IfOk};
ghost use Rattle.arc_base.specs.Refusal.{Answers, and_then};
ghost use Rattle.nim_types.specs.Types.{Ty};
ghost use Rattle.nim_types.specs.Table.{facts_in};
ghost use Rattle.nim_program.specs.declared.nodes.TheConstants.{MOST_NODES};
ghost use Rattle.nim_program.specs.View.{program_under};
ghost use Rattle.decl_rules.specs.Elaborated.{elaborated, program_of, modules_stated};
ghost use Rattle.decl_rules.specs.Elaborated.{nothing_known};
ghost use Rattle.check_decls.specs.Modules.{in_order, program_in, types_or, IsWhole};
ghost use Rattle.check_decls.specs.View.{so_far, program_rule};

use crate::draft::Draft;
use crate::modules::{all_modules, check_all_forms};
use arc_base::Stop;
use check_uses::check_text;
use nim_program::{Body, MOST_NODES, Program};
use nim_tree::Module;
use std::alloc::Global;

fn program_of(draft: Draft) -> Program
    ensures types { result.types ≡ draft.state.types }
    ensures program { (ts : List Ty) → program_under ts (facts_in draft.state.types) result
        ≡ program_of ts (so_far ts draft) }
{
    let state = draft.state;
    Program {
        types: state.types,
        procs: draft.procs,
        globals: state.globals,
        start: Body {
            first: 0,
            places: state.place,
            before: 0,
            result: None,
            stmts: draft.start,
        },
    }
}

// The program, where what has to be known of the whole text holds and its nodes have numbers.
fn checked(alloc: Global, draft: Draft) -> Result<Program, Stop>
    ensures types { IfOk result (λ p. p.types ≡ draft.state.types) }
    ensures program { (ts : List Ty) → Answers (program_under ts (facts_in draft.state.types))
        (program_rule ts (so_far ts draft)) result }
    ensures nodes { IfOk result (λ _. draft.state.node ≤ MOST_NODES) }
{
    if draft.state.node > MOST_NODES {
        return Err(Stop::Memory);
    }
    match check_text(alloc, &draft.procs, draft.text.as_slice(), &draft.start) {
        Ok(()) => Ok(program_of(draft)),
        Err(stop) => Err(stop),
    }
}

fn typed(alloc: Global, modules: &[Module], order: &[u32]) -> Result<Program, Stop>
    ensures program { (ts : List Ty) → Answers program_in (and_then (modules_stated
        nothing_known (in_order modules.now order.now)) (program_rule (types_or ts result)))
        result }
    ensures whole { IfOk result (λ p. IsWhole (in_order modules.now order.now) p) }
{
    let mut draft = Draft::new(alloc)?;
    match all_modules(alloc, &mut draft, modules, order) {
        Ok(()) => {
            let _types = draft.state.types.count();
            checked(alloc, draft)
        }
        Err(stop) => {
            // Whatever was answered, the types are a table.
            let _count = draft.state.types.count();
            Err(stop)
        }
    }
}

/// The program that modules are, whose numbers are given in the order in which their code runs.
///
/// # Errors
///
/// The first refusal: of a form without a rule (E23); then, in order of text, of what declarations
/// and types say (E6 to E11, E13); then, in order of text, of what has to be known of the whole
/// text (E15, E26).
pub fn elaborate(alloc: Global, modules: &[Module], order: &[u32]) -> Result<Program, Stop>
    ensures program { (ts : List Ty) → Answers program_in (elaborated (types_or ts result)
        (in_order modules.now order.now)) result }
    ensures whole { IfOk result (λ p. IsWhole (in_order modules.now order.now) p) }
{
    match check_all_forms(modules, order) {
        Ok(()) => typed(alloc, modules, order),
        Err(stop) => Err(stop),
    }
}
