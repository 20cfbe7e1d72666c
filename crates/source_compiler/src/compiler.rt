// From the bytes of a source to what its file says.
ghost use Rattle.std.specs.Prelude.{◌≡◌, ◌<◌, ◌≤◌, ℕ, List, length, IfOk, IfErr};
ghost use Rattle.elf32.specs.Elf.{file_of};
ghost use Rattle.source_compiler.specs.Source.{alone};
ghost use Rattle.source_compiler.specs.Compile.{Compiled, DecidedBy, source_most, OnTooLong};

use crate::source::{one_answer, plan_of, typed};
use arc_base::{Code, Memory, Place, Stop};
use core_compiler::compile_core;
use elf32::ElfFile;
use plain_plan::plain_plans;
use std::alloc::Global;

/// The version of the file's note.
const VERSION: u32 = 1;

/// Why a source was not compiled.
#[derive(Clone, Copy)]
pub enum NotCompiled {
    /// It has more than 1,048,576 bytes.
    TooLong,
    /// It is no program, or none that can be compiled.
    Refused { code: Code, at: Place },
    /// No memory was found.
    Memory,
}

impl From<Stop> for NotCompiled {
    ghost use Rattle.source_compiler.specs.Compile.{IsStop};

    ghost from_gives = { λ stop e. IsStop stop e };

    fn from(stop: Stop) -> Self {
        match stop {
            Stop::Refused { code, at } => NotCompiled::Refused { code, at },
            Stop::Memory => NotCompiled::Memory,
        }
    }
}

impl From<Memory> for NotCompiled {
    ghost use Rattle.std.specs.Prelude.{◌≡◌};
    ghost use Rattle.source_compiler.specs.declared.compiler.NotCompiled.TheVariants.{Memory};

    ghost from_gives = { λ _ e. e ≡ Memory };

    fn from(_: Memory) -> Self {
        NotCompiled::Memory
    }
}

/// The file of a main module, whatever its name, with a heap of that many bytes, 4,096 to 16,777,216: for every input and
/// every number of steps, the machine on its image does what the source means under the file's plan.
///
/// Refused is a source that is no program, or none that can be compiled, and too long one of more than 1,048,576 bytes. Whether
/// code is too large is said of the number of bytes of code that does what the source means.
pub fn compile(alloc: Global, source: &[u8], heap: u32) -> Result<ElfFile, NotCompiled>
    requires heap_least { 4096 ≤ heap }
    requires heap_most { heap ≤ 16777216 }
    ensures compiled { IfOk result (λ file.
        (name : List ℕ) → Compiled (alone name source.now) heap (file_of file)) }
    ensures too_long { IfErr result (λ e. OnTooLong e (source_most < length source.now)) }
    ensures within { IfOk result (λ _. length source.now ≤ source_most) }
    ensures decided { (bytes : ℕ) × DecidedBy bytes source.now result
        × IfOk result (λ file. length file.image.code ≡ bytes) }
{
    one_answer();
    plain_plans();
    let program = typed(alloc, source)?;
    let plan = plan_of(alloc, &program)?;
    let image = compile_core(alloc, &program, &plan, heap)?;
    Ok(ElfFile {
        image,
        version: VERSION,
        plan,
    })
}
