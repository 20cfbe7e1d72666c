// What commands do with a typed program: its image, stage by stage, or only whether it has one.
ghost use Rattle.std.specs.Prelude.{◌≡◌, ◌≤◌, ℕ, true, length, Ok, IfOk};
ghost use Rattle.arc_base.specs.Refusal.{Answers};
ghost use Rattle.nim_plan.specs.Order.{IsInOrder};
ghost use Rattle.nim_types.specs.Table.{IsTable};
ghost use Rattle.nim_program.specs.Sizes.{HaveForms};
ghost use Rattle.nim_program.specs.Numbering.{is_numbered_program};
ghost use Rattle.nim_program.specs.Typed.{IsTyped};
ghost use Rattle.rv32_isa.specs.declared.image.Image.{Image as RustImage};
ghost use Rattle.rv32_isa.specs.Image.{image_of};
ghost use Rattle.program_limits.specs.Limits.{program_in, tree_limits};
ghost use Rattle.word_lowering.specs.MayLower.{defs_may};
ghost use Rattle.core_compiler.specs.Limits.{build_limits, check_limits};
ghost use Rattle.core_compiler.specs.Compile.{HasCodeWhereWithin, UnlessMemory, DoesProgram};
ghost use Rattle.core_compiler.specs.Compile.{MembersNamed, HasImageWhereBuilt, IsSoundWhereBuilt};
ghost use Rattle.core_compiler.specs.Stages.{IsFlatOf, MayBeLowered, AreWordsOf, too_large};

use crate::image::image_of_words;
use crate::note::note_fits;
use arc_base::{Code, Memory, Place, Stop, agreement};
use destructor_injection::{owned_codes, owned_of};
use flat_code::{Flat, Line, by_units};
use flattening::{fits, flat_code, flatten, may_be_lowered, sizes};
use formed_programs::{formed, table_forms};
use goto_exceptions::{block_codes, branches};
use nim_plan::Plan;
use nim_program::Program;
use nim_types::TypeTable;
use program_limits::{left_out, shallow_types, within};
use reachable_procs::{prune, pruning};
use refc_runtime::runtime_pair;
use rv32_codegen::LayFault;
use rv32_isa::Image;
use std::alloc::Global;
use word_code::WordCode;
use word_lowering::words;

/// The machine does at most so many times the work of the meaning and `IMAGE_LATE` more.
pub const IMAGE_PACE: u32 = 196_608;

/// So much more.
pub const IMAGE_LATE: u32 = 36;

/// Where the meaning ends, the machine has exited after so many instructions for each work of the
/// meaning and for `TIME_LATE` more.
pub const TIME_PACE: u32 = 262_144;

/// So much more.
pub const TIME_LATE: u32 = 64;

/// The most bytes of code for each part that is counted of a program.
pub const BYTES_OF_PART: u32 = 1_980;

/// The most for each pair of an exit and what ends there.
pub const BYTES_OF_PAIR: u32 = 396;

/// The most for each type with hooks, and for each of its parts.
pub const BYTES_OF_HOOK: u32 = 1_980;

/// And for the whole.
pub const BYTES_OF_ALL: u32 = 13_412;

// The main module is too large.
fn too_large() -> Stop
    ensures { result ≡ too_large }
{
    Stop::Refused {
        code: Code::TooLarge,
        at: Place {
            module: 0,
            line: 1,
            column: 1,
        },
    }
}

/// The flat code of a program that is built, under a plan.
pub fn flat_of(alloc: Global, program: &Program, plan: &Plan) -> Result<Flat, Memory>
    requires typed { IsTyped (program_in program.now) }
    requires numbered { is_numbered_program (program_in program.now) ≡ true }
    requires within { tree_limits (program_in program.now) ≡ Ok tt }
    requires sound { IsSoundWhereBuilt (program_in program.now) plan.now }
    ensures { IfOk result (λ flat.
        IsFlatOf program.now.types (program_in program.now) plan.now flat) }
{
    table_forms();
    let flat = flatten(alloc, program, plan)?;
    formed();
    flat_code();
    by_units::<Line>();
    fits();
    may_be_lowered();
    sizes();
    Ok(flat)
}

/// Flat code without its plan and its exceptions, as word code with the routines that it may call.
pub fn words_of(
    alloc: Global,
    types: &TypeTable,
    plan: &Plan,
    flat: &Flat,
) -> Result<WordCode, Memory>
    requires forms { HaveForms types.now }
    requires ordered { IsInOrder plan.now }
    requires enums { defs_may types.now ≡ true }
    requires table { IsTable types.now }
    requires may { MayBeLowered types.now flat.now }
    ensures { IfOk result (λ words. AreWordsOf types.now plan.now flat.now words) }
{
    agreement();
    owned_codes();
    block_codes();
    let owned = owned_of(alloc, flat, plan)?;
    let blocks = branches(alloc, &owned)?;
    let shallow = shallow_types(alloc, types)?;
    let words = words(alloc, &blocks, types, shallow.as_slice())?;
    let runtimes = runtime_pair(alloc)?;
    let front = runtimes.heap.join(alloc, words)?;
    let whole = front.join(alloc, runtimes.others)?;
    pruning();
    prune(alloc, &whole)
}

/// Refuses a typed program with a form that isn't built (E23), one with a procedure that is too large
/// to be called or with a type of too many levels (E21), and one whose data is too large (E25).
pub fn within_core(alloc: Global, program: &Program) -> Result<(), Stop>
    requires { IsTyped (program_in program.now) }
    ensures { Answers (λ (done : Unit {0}). tt) (tree_limits (program_in program.now)) result }
{
    table_forms();
    within(alloc, program)
}

/// The image of a typed program: for every input and every number of steps its machine does what the
/// program means under the plan, with a heap of that many bytes, at most 16,777,216.
///
/// Refused is a program with a form that isn't built (E23), with a procedure that is too large to be
/// called (E21), and one whose data or code is too large, or its file's note (E25). The bytes of code by which it is taken
/// or refused are those of code that does what the program means.
pub fn compile_core(alloc: Global, program: &Program, plan: &Plan, heap: u32) -> Result<Image, Stop>
    requires typed { IsTyped (program_in program.now) }
    requires numbered { is_numbered_program (program_in program.now) ≡ true }
    requires named { MembersNamed (program_in program.now).facts }
    requires ordered { IsInOrder plan.now }
    requires sound { IsSoundWhereBuilt (program_in program.now) plan.now }
    requires heap { heap ≤ 16777216 }
    ensures answers { (code : ℕ) × Answers (λ (image : RustImage). tt)
        (build_limits plan.now code (program_in program.now)) result
        × UnlessMemory result (HasCodeWhereWithin (program_in program.now) plan.now code)
        × IfOk result (λ image. length image.code ≡ code) }
    ensures does { IfOk result (λ image.
        DoesProgram (program_in program.now) plan.now heap (image_of image)) }
{
    within_core(alloc, program)?;
    let _types = program.types.count();
    let flat = flat_of(alloc, program, plan)?;
    let words = words_of(alloc, &program.types, plan, &flat)?;
    agreement();
    match image_of_words(alloc, &words, heap) {
        Ok(image) => {
            if !note_fits(plan) {
                return Err(too_large());
            }
            Ok(image)
        }
        Err(LayFault::TooLarge(_)) => Err(too_large()),
        Err(LayFault::Memory) => Err(Stop::Memory),
    }
}

/// Refuses what `compile_core` refuses, whatever the heap, but for a program with a form that isn't
/// built: of that it says nothing.
pub fn check_core(alloc: Global, program: &Program, plan: &Plan) -> Result<(), Stop>
    requires typed { IsTyped (program_in program.now) }
    requires numbered { is_numbered_program (program_in program.now) ≡ true }
    requires named { MembersNamed (program_in program.now).facts }
    requires ordered { IsInOrder plan.now }
    requires sound { IsSoundWhereBuilt (program_in program.now) plan.now }
    ensures answers { (code : ℕ) × Answers (λ (done : Unit {0}). tt)
        (check_limits plan.now code (program_in program.now)) result
        × UnlessMemory result (HasCodeWhereWithin (program_in program.now) plan.now code)
        × IfOk result (λ done. HasImageWhereBuilt (program_in program.now) plan.now code) }
{
    match left_out(alloc, program)? {
        Some(_) => {
            return Ok(());
        }
        None => {}
    }
    let image = compile_core(alloc, program, plan, 0)?;
    drop(image);
    Ok(())
}
