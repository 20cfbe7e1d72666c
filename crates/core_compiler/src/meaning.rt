// Runs what a typed program means.
ghost use Rattle.std.specs.Prelude.{◌≡◌, ◌≤◌, ℕ, true, List, Ok};
ghost use Rattle.nim_plan.specs.Order.{IsInOrder};
ghost use Rattle.nim_program.specs.Numbering.{is_numbered_program};
ghost use Rattle.nim_program.specs.Typed.{IsTyped};
ghost use Rattle.nim_meaning.specs.Meaning.{meaning};
ghost use Rattle.program_limits.specs.Limits.{program_in, tree_limits};
ghost use Rattle.rv32_isa.specs.Machine.{Lives};
ghost use Rattle.rv32_runner.specs.Streams.{feed};
ghost use Rattle.word_code.specs.Words.{is_word_code};
ghost use Rattle.word_runner.specs.Mean.{Came, Stops, shown_by};
ghost use Rattle.word_runner.specs.Sinks.{told};
ghost use Rattle.core_compiler.specs.Compile.{MembersNamed, IsSoundWhereBuilt};
ghost use Rattle.core_compiler.specs.Mean.{CameTo, IsEnd};

use crate::program::{flat_of, words_of};
use arc_base::{Sink, Source, agreement};
use nim_plan::Plan;
use nim_program::Program;
use std::alloc::Global;
use word_code::WordCode;
use word_runner::{MeanEnd, mean_words};

// Runs word code of a program under a plan: how long it may go on is said of these two.
fn run_words<I: Source, O: Sink, E: Sink>(
    alloc: Global,
    program: &Program,
    plan: &Plan,
    words: &WordCode,
    heap: u32,
    n: u64,
    input: &mut I,
    out: &mut O,
    err: &mut E,
) -> MeanEnd
    ghost most: { List ℕ → ℕ }
    requires formed { is_word_code words.now ≡ true }
    requires stops { (live : Lives) → Stops (shown_by live words.now heap n) most }
    ensures { (live : Lives) → Came (shown_by live words.now heap n)
        (feed (I.left input.old) (I.ended input.old) (I.faults input.old) (I.gave input.old))
        result
        (feed (I.left input.new) (I.ended input.new) (I.faults input.new) (I.gave input.new))
        (told (O.written out.old) (O.written out.new) (O.faults out.old) (O.faults out.new))
        (told (E.written err.old) (E.written err.new) (E.faults err.old) (E.faults err.new)) }
{
    mean_words(alloc, words, heap, n, input, out, err)
}

/// Runs the meaning of a typed program under a plan with so many units: what it reads is taken from
/// the source when it asks for it, and what it writes goes to the sinks as it happens.
pub fn mean_core<I: Source, O: Sink, E: Sink>(
    alloc: Global,
    program: &Program,
    plan: &Plan,
    heap: u32,
    n: u64,
    input: &mut I,
    out: &mut O,
    err: &mut E,
) -> MeanEnd
    requires typed { IsTyped (program_in program.now) }
    requires numbered { is_numbered_program (program_in program.now) ≡ true }
    requires named { MembersNamed (program_in program.now).facts }
    requires ordered { IsInOrder plan.now }
    requires sound { IsSoundWhereBuilt (program_in program.now) plan.now }
    requires heap { heap ≤ 16777216 }
    requires within { tree_limits (program_in program.now) ≡ Ok tt }
    ensures came { CameTo (λ (bytes : List ℕ). meaning (program_in program.now) plan.now heap bytes n)
        (feed (I.left input.old) (I.ended input.old) (I.faults input.old) (I.gave input.old))
        result
        (feed (I.left input.new) (I.ended input.new) (I.faults input.new) (I.gave input.new))
        (told (O.written out.old) (O.written out.new) (O.faults out.old) (O.faults out.new))
        (told (E.written err.old) (E.written err.new) (E.faults err.old) (E.faults err.new)) }
    ensures ends { IsEnd result }
{
    let _types = program.types.count();
    let Ok(flat) = flat_of(alloc, program, plan) else {
        return MeanEnd::Memory;
    };
    let Ok(words) = words_of(alloc, &program.types, plan, &flat) else {
        return MeanEnd::Memory;
    };
    agreement();
    run_words(alloc, program, plan, &words, heap, n, input, out, err)
}
