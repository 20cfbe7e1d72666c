// What the limits say of programs with few parts and pairs.
ghost use Rattle.std.specs.Prelude.{◌≡◌, ◌≤◌, ◌+◌, ℕ, Ok};
ghost use Rattle.nim_plan.specs.declared.plan.Plan.{Plan};
ghost use Rattle.nim_program.specs.Program.{Program};
ghost use Rattle.flattening.specs.Counted.{program_parts, program_pairs};
ghost use Rattle.flattening.specs.Flattened.{modes_of};
ghost use Rattle.core_compiler.specs.Compile.{HasCode};
ghost use Rattle.core_compiler.specs.Limits.{code_limits, hook_parts};

/// Code of a program with few parts, few pairs of an exit and what ends there, and few types with hooks
/// and parts of these, is never too large.
pub fn code_limits()
    ensures few_parts { (program : Program) (plan : Plan) (code : ℕ) (has : HasCode program plan code) →
        program_parts program + program_pairs (modes_of program plan) program
        + hook_parts program.facts has.types ≤ 257 →
        code_limits code ≡ Ok tt }
{}
