// From the bytes of a source to its typed program.
ghost use Rattle.std.specs.Prelude.{◌≡◌, ◌⊎◌, ◌≤◌, ◌<◌, [], ◌∷◌, ℕ, true, List, length, IfOk, IfErr};
ghost use Rattle.arc_base.specs.Stops.{OnRefusal};
ghost use Rattle.arc_base.specs.declared.place.Code.{Code};
ghost use Rattle.arc_base.specs.declared.place.Place.{Place};
ghost use Rattle.nim_plan.specs.Order.{IsInOrder};
ghost use Rattle.nim_program.specs.Program.{Program as TypedProgram};
ghost use Rattle.nim_program.specs.Numbering.{is_numbered_program};
ghost use Rattle.nim_program.specs.Typed.{IsTyped};
ghost use Rattle.plain_plan.specs.Plain.{plain_plan, AreWords};
ghost use Rattle.check_decls.specs.Modules.{program_in};
ghost use Rattle.core_compiler.specs.Compile.{MembersNamed, IsSoundWhereBuilt};
ghost use Rattle.nim_plan.specs.declared.plan.Plan.{Plan as RustPlan};
ghost use Rattle.source_compiler.specs.Source.{Module, alone, read_program, ReadsAlone, RefusesAlone, Reads, Refuses};
ghost use Rattle.source_compiler.specs.Limits.{Limits};
ghost use Rattle.source_compiler.specs.Compile.{IsProgram, IsNoProgram, source_most, OnTooLong, OnRefused, IsOkOrMemory};
ghost use Rattle.source_compiler.specs.Compile.{ReleasesWhereBuilt};

use crate::compiler::NotCompiled;
use arc_base::{Memory, Stop};
use check_decls::elaborate;
use decl_rules::{one_program, programs_computed};
use formed_programs::table_forms;
use holders::{released, sound};
use indent_scanner::{one_reading, scan};
use lending_laws::lent_apart;
use nim_plan::Plan;
use nim_program::Program;
use parse_stmts::parse;
use plain_plan::{plain_plan, plain_plans};
use std::alloc::Global;
use typing_laws::{typed_programs, types_sound};

/// The longest source, in bytes.
pub const SOURCE_MOST: usize = 1_048_576;

/// The number of the main module.
const MAIN: u32 = 0;

// The typed program of a source that isn't too long.
fn read(alloc: Global, source: &[u8]) -> Result<Program, Stop>
    requires { length source.now ≤ source_most }
    ensures reads { IfOk result (λ program. ReadsAlone source.now (read_program program)) }
    ensures typed { IfOk result (λ program. IsTyped (program_in program)) }
    ensures numbered { IfOk result (λ program.
        is_numbered_program (program_in program) ≡ true) }
    ensures named { IfOk result (λ program. MembersNamed (program_in program).facts) }
    // No run of it is wrong.
    ensures sound { IfOk result (λ program.
        (plan : RustPlan) → IsSoundWhereBuilt (program_in program) plan) }
    // And none leaves a block.
    ensures released { IfOk result (λ program.
        (plan : RustPlan) → ReleasesWhereBuilt (program_in program) plan) }
    ensures refused { IfErr result (λ stop. OnRefusal stop (RefusesAlone source.now)) }
{
    let tokens = scan(alloc, source, MAIN)?;
    let tree = parse(alloc, source, tokens.as_slice(), MAIN)?;
    programs_computed();
    typed_programs();
    types_sound();
    lent_apart();
    sound();
    released();
    elaborate(alloc, &[tree], &[MAIN])
}

/// The typed program of a main module, whatever its name.
///
/// Refused is a source that is none, and too long one of more than 1,048,576 bytes.
pub fn typed(alloc: Global, source: &[u8]) -> Result<Program, NotCompiled>
    ensures reads { IfOk result (λ program.
        (name : List ℕ) → Reads (alone name source.now) (read_program program)) }
    ensures typed { IfOk result (λ program. IsTyped (program_in program)) }
    ensures numbered { IfOk result (λ program.
        is_numbered_program (program_in program) ≡ true) }
    ensures named { IfOk result (λ program. MembersNamed (program_in program).facts) }
    // No run of it is wrong.
    ensures sound { IfOk result (λ program.
        (plan : RustPlan) → IsSoundWhereBuilt (program_in program) plan) }
    // And none leaves a block.
    ensures released { IfOk result (λ program.
        (plan : RustPlan) → ReleasesWhereBuilt (program_in program) plan) }
    ensures too_long { IfErr result (λ e. OnTooLong e (source_most < length source.now)) }
    ensures refused { IfErr result (λ e. OnRefused e (λ code at.
        (limits : Limits) (name : List ℕ) → IsNoProgram limits name source.now code at)) }
    ensures within { IfOk result (λ _. length source.now ≤ source_most) }
    ensures complete { (limits : Limits) (name : List ℕ) →
        IsProgram limits name source.now → IsOkOrMemory result }
{
    if source.len() > SOURCE_MOST {
        return Err(NotCompiled::TooLong);
    }
    one_answer();
    Ok(read(alloc, source)?)
}

/// The plan of a typed program: it copies at each of its sites. `Memory` where none was found.
pub fn plan_of(alloc: Global, program: &Program) -> Result<Plan, Memory>
    requires { IsTyped (program_in program.now) }
    ensures plain { IfOk result (λ plan. plan ≡ plain_plan (read_program program.now)) }
    ensures ordered { IfOk result IsInOrder }
    ensures words { IfOk result (λ plan. AreWords plan.sites) }
{
    table_forms();
    plain_plans();
    plain_plan(alloc, program)
}

/// A main module is a typed program or is refused. Modules are one program at most, or are refused with one code at one
/// place, and never both. Where they are a program, a command takes it or refuses it, and never both.
pub fn one_answer()
    ensures some { (main : Module) → ((program : TypedProgram) × Reads (main ∷ []) program)
        ⊎ ((code : Code) × (at : Place) × Refuses (main ∷ []) code at) }
    ensures program { (modules : List Module) (p q : TypedProgram) →
        Reads modules p → Reads modules q → p ≡ q }
    ensures refusal { (modules : List Module) (c d : Code) (p q : Place) →
        Refuses modules c p → Refuses modules d q → (c ≡ d) × (p ≡ q) }
    ensures either { (modules : List Module) (program : TypedProgram) (c : Code) (at : Place) →
        Reads modules program → Refuses modules c at → ⊥ }
    ensures taken { (limits : Limits) (name source : List ℕ) → length source ≤ source_most →
        IsProgram limits name source
        ⊎ ((code : Code) × (at : Place) × IsNoProgram limits name source code at) }
    ensures not_both { (limits : Limits) (name source : List ℕ) (c : Code) (at : Place) →
        IsProgram limits name source → IsNoProgram limits name source c at → ⊥ }
    ensures one { (limits : Limits) (name source : List ℕ) (c d : Code) (p q : Place) →
        IsNoProgram limits name source c p → IsNoProgram limits name source d q →
        (c ≡ d) × (p ≡ q) }
{
    one_reading();
    one_program();
}
