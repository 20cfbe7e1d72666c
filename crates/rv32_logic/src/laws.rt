// The laws of machine code.
ghost use Rattle.std.specs.Prelude.{◌≡◌, ◌<◌, ◌≤◌, ◌+◌, ◌*◌, ◌/◌, ◌%◌, ◌^◌, ℕ, List, ◌∷◌, ◌++◌, length, take, drop, Some, Bool, true};
ghost use Rattle.std.specs.List.{flat_map};
ghost use Rattle.rv32_isa.specs.declared.instr.Instr.{Instr};
ghost use Rattle.rv32_isa.specs.declared.instr.Instr.TheVariants.{Lw, Sw};
ghost use Rattle.rv32_isa.specs.declared.image.HookAt.{HookAt};
ghost use Rattle.rv32_isa.specs.Words.{little, word_bytes};
ghost use Rattle.rv32_isa.specs.Row.{AllInRange, bytes_of};
ghost use Rattle.rv32_isa.specs.Image.{stack_at};
ghost use Rattle.rv32_isa.specs.State.{State, reg, skip, readable, writable, put_bytes, filled};
ghost use Rattle.rv32_isa.specs.Steps.{Outcome, Goes, address, branch, act, obey, next_pc};
ghost use Rattle.rv32_isa.specs.Regions.{HasRegions};
ghost use Rattle.rv32_isa.specs.Machine.{Lives, Run, led, shows, step};
ghost use Rattle.rv32_logic.specs.Placed.{Stands, Before, outcome_of};
ghost use Rattle.rv32_logic.specs.Registers.{put};
ghost use Rattle.rv32_logic.specs.Placed.{moved};
ghost use Rattle.rv32_logic.specs.Jumps.{placed, branches_to};
ghost use Rattle.rv32_logic.specs.Data.{Holds};

/// The bytes of instructions are code in which they stand, so do their backs, and a machine that is
/// before one carries it out.
pub fn fetching()
    ensures all { (is : List Instr) → AllInRange is → Stands (flat_map bytes_of is) 0 is }
    ensures back { (code : List ℕ) (off : ℕ) (a b : List Instr) → Stands code off (a ++ b) →
        Stands code (off + 4 * length a) b }
    ensures step { (live : Lives) (hooks : List HookAt) (r : Run) (off : ℕ) (i : Instr) (is : List Instr)
        (o : Outcome) → Before r.state off (i ∷ is) → outcome_of r.state i ≡ o →
        step live hooks r ≡ shows live hooks r.state (led r o) }
{}

/// Data and stack are read by offsets from where they begin, and the stack is written so. Loads and
/// stores of words do what memory allows.
pub fn memory_access()
    ensures holds { (s : State) (statics : List ℕ) (at : ℕ) (bytes : List ℕ) → s.statics ≡ statics →
        Holds statics at bytes → 0 < length bytes → length s.code ≤ 524288 →
        readable s at (length bytes) ≡ Some bytes }
    ensures stack { (s : State) (i n : ℕ) → HasRegions s → 0 < n → i + n ≤ length s.stack →
        readable s (stack_at + i) n ≡ Some (take n (drop i s.stack)) }
    ensures into_stack { (s : State) (i : ℕ) (bytes : List ℕ) → HasRegions s → 0 < length bytes →
        i + length bytes ≤ length s.stack →
        filled s (stack_at + i) bytes ≡ record s { stack = put_bytes s.stack i bytes } }
    ensures load_word { (s : State) (link word rd rs1 offset at : ℕ) (bytes : List ℕ) → address s rs1 offset ≡ at →
        at % 4 ≡ 0 → readable s at 4 ≡ Some bytes → little bytes < 2 ^ 32 →
        obey s link word (Lw rd rs1 offset) ≡ Goes (moved s (put s.regs rd (little bytes)) (next_pc s)) }
    ensures store_word { (s next : State) (link word rs1 rs2 offset at : ℕ) → address s rs1 offset ≡ at →
        at % 4 ≡ 0 → writable s at 4 ≡ true → filled s at (word_bytes (reg s rs2)) ≡ next →
        obey s link word (Sw rs1 rs2 offset) ≡ Goes (skip next) }
{}

/// Branches go where they lead, if that is a multiple of 4.
pub fn branching()
    ensures branch { (s : State) (link word : ℕ) (taken : Bool) (offset to : ℕ) →
        branches_to s taken offset ≡ to → to % 4 ≡ 0 →
        act s link word (branch s taken offset) ≡ Goes (placed s to) }
{}
