// The laws of flat code.
ghost use Rattle.std.specs.Prelude.{◌≡◌, ◌≤◌, ◌+◌, ◌*◌, ℕ, true, List, codes};
ghost use Rattle.arc_base.specs.Behaviour.{Agrees, Sound};
ghost use Rattle.arc_base.specs.Event.{writes};
ghost use Rattle.arc_base.specs.declared.outside.Stream.TheVariants.{Out};
ghost use Rattle.arc_base.specs.Pace.{Paced};
ghost use Rattle.nim_types.specs.declared.types.TypeDef.{TypeDef};
ghost use Rattle.nim_types.specs.Table.{facts_in};
ghost use Rattle.nim_plan.specs.declared.plan.Plan.{Plan};
ghost use Rattle.nim_program.specs.Numbering.{is_numbered_program};
ghost use Rattle.nim_program.specs.Program.{Program};
ghost use Rattle.nim_program.specs.Sizes.{globals_size};
ghost use Rattle.nim_program.specs.Typed.{IsTyped};
ghost use Rattle.nim_meaning.specs.LeftOut.{IsBuilt};
ghost use Rattle.nim_meaning.specs.Meaning.{meaning};
ghost use Rattle.flat_code.specs.Codes.{flat_plain, places_of, procs_of, hooks_of, AreNone};
ghost use Rattle.flat_code.specs.Fits.{code_fits, start_places};
ghost use Rattle.flat_code.specs.Scene.{Known, known_in};
ghost use Rattle.flat_code.specs.Sizes.{code_weight, globals_bytes, code_texts};
ghost use Rattle.flat_code.specs.Sizes.{constants_bytes};
ghost use Rattle.flat_code.specs.Leads.{AllLeadRight};
ghost use Rattle.flat_code.specs.Waits.{AllWaitOnce, AllWaitRight};
ghost use Rattle.flat_code.specs.Whole.{label_in, are_whole};
ghost use Rattle.flattening.specs.declared.laws.TheConstants.{FLAT_PACE, NODE_WEIGHT};
ghost use Rattle.flattening.specs.declared.laws.TheConstants.{PAIR_WEIGHT};
ghost use Rattle.flat_code.specs.Alike.{AllAlike};
ghost use Rattle.flattening.specs.Counted.{program_parts, program_pairs, times};
ghost use Rattle.flattening.specs.Counted.{places_waiting, program_times, program_constants};
ghost use Rattle.flattening.specs.Examples.{counting};
ghost use Rattle.flattening.specs.Flattened.{known_of, code_of, modes_of};
ghost use Rattle.flattening.specs.Flattened.{flat_meaning, flat_by_units, IsExact};
ghost use Rattle.flattening.specs.Formed.{IsFormed};
ghost use Rattle.flattening.specs.Given.{flat_procs, flat_of};
ghost use Rattle.flat_code.specs.BuiltCode.{AreBuiltProcs};
ghost use Rattle.flattening.specs.BodySums.{SumsWithin};
ghost use Rattle.flattening.specs.Shallow.{IsShallow};

/// Flat code does at most so many times the work of its program's meaning and one more.
pub const FLAT_PACE: u32 = 12;

/// The most that flat code weighs for each counted part of its program.
pub const NODE_WEIGHT: u32 = 44;

/// And for each pair of an exit and what ends there.
pub const PAIR_WEIGHT: u32 = 9;

/// The flat code of a program shows what the program means, under each plan, each heap and each
/// input.
pub fn flat_code()
    ensures agrees { (program : Program) → IsFormed program → (plan : Plan) (heap : ℕ) (input : List ℕ) →
        Sound (meaning program plan heap input) →
        Agrees (flat_meaning program plan heap input) (meaning program plan heap input) }
    ensures paced { (program : Program) → IsFormed program → (plan : Plan) (heap : ℕ) (input : List ℕ) →
        Sound (meaning program plan heap input) →
        Paced FLAT_PACE (flat_meaning program plan heap input) (meaning program plan heap input) }
    // With each number of units it comes to exactly the same.
    ensures exact { (program : Program) → IsFormed program → (plan : Plan) (heap : ℕ) (input : List ℕ) →
        Sound (meaning program plan heap input) →
        (units : ℕ) → IsExact program plan heap input units }
{}

/// What is handed on as flat code of a typed program is its flat code, and its lines lead somewhere;
/// where nothing is left out of the program, it fits the types of its places, and no procedure is a
/// hook.
pub fn fits()
    ensures given { (program : Program) → IsTyped program → (plan : Plan) →
        procs_of (known_of program) (flat_of program plan) ≡ code_of program plan }
    ensures whole { (program : Program) (plan : Plan) (known : Known) →
        are_whole label_in flat_plain (procs_of known (flat_of program plan)) ≡ true }
    ensures fits { (table : List TypeDef) (program : Program) → program.facts ≡ facts_in table →
        IsTyped program → is_numbered_program program ≡ true → IsBuilt program → (plan : Plan) →
        code_fits flat_plain (known_of program) (flat_procs program plan) ≡ true }
    // What waits does so in the temporary of its node.
    ensures waits { (table : List TypeDef) (program : Program) → program.facts ≡ facts_in table →
        IsTyped program → is_numbered_program program ≡ true → IsBuilt program → (plan : Plan) →
        AllWaitRight flat_plain (known_of program) (flat_procs program plan) }
    // Lines lead where they may.
    ensures leads { (table : List TypeDef) (program : Program) → program.facts ≡ facts_in table →
        IsTyped program → is_numbered_program program ≡ true → IsBuilt program → (plan : Plan) →
        AllLeadRight (known_of program) (flat_procs program plan) }
    ensures hooks { (table : List TypeDef) (program : Program) → program.facts ≡ facts_in table →
        IsTyped program → IsBuilt program → (plan : Plan) → AreNone (hooks_of (flat_of program plan)) }
{}

/// Flat code weighs no more than the counted parts and pairs of its program allow, its globals take
/// no more bytes than the program's, each text stands in it twice as often as in the program at most: a
/// `for` over a constant that is read where it stands looks it up at two places; and constants with texts or
/// sequences inside have no more bytes than are counted of the program.
pub fn sizes()
    ensures weight { (program : Program) (plan : Plan) →
        code_weight flat_plain (flat_procs program plan) ≤ NODE_WEIGHT * program_parts program
        + PAIR_WEIGHT * program_pairs (modes_of program plan) program }
    ensures waiting { (program : Program) (plan : Plan) →
        places_waiting (places_of (flat_of program plan)) ≤ program_parts program }
    ensures globals { (program : Program) (plan : Plan) → IsTyped program →
        is_numbered_program program ≡ true →
        globals_bytes (known_of program) (start_places (flat_procs program plan))
        ≤ globals_size program.facts program.globals }
    ensures texts { (program : Program) (plan : Plan) (text : List ℕ) →
        times text (code_texts flat_plain (flat_procs program plan)) ≤ 2 * program_times text program }
    ensures constants { (program : Program) (plan : Plan) →
        constants_bytes flat_plain (flat_procs program plan) ≤ program_constants program }
{}

/// What word code rests on beside that flat code fits: lines of flat code that give one label or one
/// temporary are alike, so a label stands once, and a temporary is another name for one place.
pub fn may_be_lowered()
    ensures alike { (table : List TypeDef) (program : Program) → program.facts ≡ facts_in table →
        IsTyped program → (plan : Plan) → AllAlike (flat_procs program plan) }
    // At each node the value of one temporary waits at most.
    ensures once { (table : List TypeDef) (program : Program) → program.facts ≡ facts_in table →
        IsTyped program → is_numbered_program program ≡ true → (plan : Plan) → AllWaitOnce (places_of (flat_of program plan)) }
    // Its types and operations are built, its types have few levels, and its places are few where the
    // sums of its bodies are.
    ensures built { (table : List TypeDef) (program : Program) → program.facts ≡ facts_in table →
        IsTyped program → is_numbered_program program ≡ true → IsBuilt program → IsShallow program →
        (most : ℕ) → SumsWithin most program program.procs → (plan : Plan) →
        AreBuiltProcs (known_of program) most (flat_procs program plan) }
{}

/// A loop that is left, over calls, is such a program, and its flat code counts.
pub fn counts_in_turn()
    ensures formed { IsFormed counting }
    ensures shown { (plan : Plan) (heap : ℕ) (input : List ℕ) →
        (flat_by_units counting plan heap input 10 200).events ≡ writes Out (codes "false\ntrue\nfalse\n") }
{}
