// What plan is the plain one of a program.
ghost use Rattle.std.specs.Prelude.{◌≡◌, [], true};
ghost use Rattle.nim_plan.specs.declared.plan.Plan.{Plan};
ghost use Rattle.nim_program.specs.Program.{Program};
ghost use Rattle.nim_meaning.specs.Runs.{has_no_hooks};
ghost use Rattle.plain_plan.specs.Plain.{plain_plan, IsPlainPlan};

use nim_meaning::program_sites;
use nim_plan::one_more;

/// A program has one plain plan; without hooks it is the empty one.
pub fn plain_plans()
    ensures is { (program : Program) → IsPlainPlan program (plain_plan program) }
    ensures only { (program : Program) (p q : Plan) → IsPlainPlan program p → IsPlainPlan program q →
        p ≡ q }
    ensures without_hooks { (program : Program) (plan : Plan) → has_no_hooks program ≡ true →
        plan.sites ≡ [] → plan.sinks ≡ [] → plan.skips ≡ [] → IsPlainPlan program plan }
{
    one_more();
    program_sites();
}
