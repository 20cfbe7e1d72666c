// From word code to its image: homes for its variables, label code, the stack, and the layout.
ghost use Rattle.std.specs.Prelude.{◌≤◌, IfOk, IfErr};
ghost use Rattle.rv32_isa.specs.Image.{image_of};
ghost use Rattle.rv32_codegen.specs.Lowering.{AllHomes};
ghost use Rattle.word_lowering.specs.Lowers.{AreSmall};
ghost use Rattle.core_compiler.specs.Stages.{CanLayOut, IsImageOf, IsTooLarge};

use arc_base::{Items, Memory, agreement};
use reg_scan::{Homes, assign};
use rv32_codegen::{LayFault, code, lay_out, layouts, stack_need};
use rv32_isa::Image;
use std::alloc::Global;
use word_code::{WordCode, WordProc};

// Homes for the variables of each procedure.
fn homes_of(alloc: Global, procs: &[WordProc]) -> Result<Items<Homes>, Memory>
    requires { AreSmall procs.now }
    ensures { IfOk result (λ homes. AllHomes procs.now homes) }
{
    let mut all = Items::new(alloc);
    for proc in procs {
        let homes = assign(alloc, proc)?;
        all.push(homes)?;
    }
    Ok(all)
}

// The image of word code whose variables have these homes: it does what the word code does, and its
// stack is exactly what the calls need with these homes.
fn image_by(alloc: Global, words: &WordCode, homes: &[Homes], heap: u32) -> Result<Image, LayFault>
    requires homes { AllHomes words.now.procs homes.now }
    requires can { CanLayOut words.now }
    requires heap { heap ≤ 16777216 }
    ensures is { IfOk result (λ image. IsImageOf words.now heap (image_of image)) }
    ensures fault { IfErr result (λ fault. IsTooLarge words.now fault) }
{
    let lines = code(alloc, words, homes)?;
    let stack = stack_need(alloc, words, homes)?;
    agreement();
    layouts();
    lay_out(alloc, &lines, words.statics.as_slice(), heap, stack)
}

/// The image of word code, with homes for its variables.
pub fn image_of_words(alloc: Global, words: &WordCode, heap: u32) -> Result<Image, LayFault>
    requires can { CanLayOut words.now }
    requires heap { heap ≤ 16777216 }
    ensures is { IfOk result (λ image. IsImageOf words.now heap (image_of image)) }
    ensures fault { IfErr result (λ fault. IsTooLarge words.now fault) }
{
    let homes = homes_of(alloc, words.procs.as_slice())?;
    image_by(alloc, words, homes.as_slice(), heap)
}
