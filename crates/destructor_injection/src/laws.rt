// The law of owned code.
ghost use Rattle.std.specs.Prelude.{◌≡◌, ℕ, List};
ghost use Rattle.nim_types.specs.declared.types.TypeDef.{TypeDef};
ghost use Rattle.nim_plan.specs.declared.plan.Plan.{Plan};
ghost use Rattle.flat_code.specs.declared.code.Code.{Code};
ghost use Rattle.flat_code.specs.declared.line.Line.{Line};
ghost use Rattle.flat_code.specs.Codes.{flat_meaning, owned_meaning, flat_within, owned_within, under, by_lines};

/// Flat code with the plan's acts in its lines shows, as owned code, what it shows under the plan:
/// the same after each number of lines, with the same work, also by units.
pub fn owned_codes()
    ensures lines { (table : List TypeDef) (plan : Plan) (flat : Code Line) (heap : ℕ) (input : List ℕ)
        (n : ℕ) → owned_meaning table (by_lines (under plan) flat) heap input n
        ≡ flat_meaning table flat plan heap input n }
    ensures units { (table : List TypeDef) (plan : Plan) (flat : Code Line) (units heap : ℕ)
        (input : List ℕ) (n : ℕ) → owned_within table (by_lines (under plan) flat) units heap input n
        ≡ flat_within table flat plan units heap input n }
{}
