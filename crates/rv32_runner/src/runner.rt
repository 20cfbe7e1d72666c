// The runner, and the loop over its instructions.
ghost use Rattle.std.specs.Prelude.{◌≡◌, ◌≢◌, IfOk};
ghost use Rattle.rv32_isa.specs.Image.{image_of};
ghost use Rattle.rv32_isa.specs.State.{first_state};
ghost use Rattle.rv32_isa.specs.Regions.{HasRegions};
ghost use Rattle.rv32_runner.specs.declared.runner.RunEnd.TheVariants.{Spent};
ghost use Rattle.rv32_runner.specs.Streams.{feed, tally, streams};
ghost use Rattle.rv32_runner.specs.Runs.{Ran};

use crate::calls::call;
use arc_base::{Memory, Sink, Source, Stream};
use rv32_isa::{FaultKind, Image, Machine, Stepped, memories, step};
use std::alloc::Global;
use std::marker::Model;

/// How a run ended, or that it hasn't.
#[derive(Clone, Copy, Debug, PartialEq, Eq)]
pub enum RunEnd {
    /// The machine exited with this status.
    Exited(u8),
    /// All instructions that were asked for ran, and the machine can go on.
    Spent,
    /// The machine can't go on. `pc` is the address of the instruction, and `word` its word, or 0 where
    /// it could not be fetched.
    Fault { kind: FaultKind, pc: u32, word: u32 },
    /// The source failed.
    ReadFault,
    /// That sink failed.
    WriteFault(Stream),
}

/// A machine that is run in parts, and the answer that ended it.
#[derive(Drop)]
pub struct Runner {
    machine: Machine,
    // Spent as long as nothing has ended the run
    last: RunEnd,
}

impl Model for Runner {
    ghost use Rattle.rv32_isa.specs.Regions.{HasRegions};
    ghost use Rattle.rv32_runner.specs.Runs.{RunnerState};

    ghost Value = { RunnerState };

    ghost view = { λ r. record { machine = r.machine; last = r.last } };

    ghost invariant = { λ r. HasRegions r.machine };
}

/// A runner at the first state of an image. The only error is that no memory was found for its regions.
pub fn load(alloc: Global, image: &Image) -> Result<Runner, Memory>
    ensures { IfOk result (λ r.
        r ≡ record { machine = first_state (image_of image.now); last = Spent }) }
{
    Ok(Runner {
        machine: Machine::start(alloc, image)?,
        last: RunEnd::Spent,
    })
}

impl Runner {
    /// Carries out at most `n` instructions, until the machine exits or faults, or the source or a sink
    /// fails.
    ///
    /// What the machine writes reaches the sinks at once, and what it reads is taken when it asks for it.
    /// After any answer but Spent each later call gives the same answer and does nothing.
    pub fn run<I: Source, O: Sink, E: Sink>(
        &mut self,
        n: u64,
        input: &mut I,
        out: &mut O,
        err: &mut E,
    ) -> RunEnd
        ensures ran { self.old.last ≡ Spent → Ran n
            (streams
            (feed (I.left input.old) (I.ended input.old) (I.faults input.old) (I.gave input.old))
            (tally (O.written out.old) (O.faults out.old))
            (tally (E.written err.old) (E.faults err.old)))
            self.old.machine result self.new.machine
            (streams
            (feed (I.left input.new) (I.ended input.new) (I.faults input.new) (I.gave input.new))
            (tally (O.written out.new) (O.faults out.new))
            (tally (E.written err.new) (E.faults err.new))) }
        ensures last { self.new.last ≡ result }
        ensures over { self.old.last ≢ Spent → (result ≡ self.old.last) × (self.new ≡ self.old) }
        ensures streams { self.old.last ≢ Spent →
            (input.new ≡ input.old) × (out.new ≡ out.old) × (err.new ≡ err.old) }
    {
        let RunEnd::Spent = self.last else {
            return self.last;
        };
        let end = go(&mut self.machine, n, input, out, err);
        self.last = end;
        end
    }
}

// The instructions of a run that hasn't ended.
fn go<I: Source, O: Sink, E: Sink>(
    machine: &mut Machine,
    n: u64,
    input: &mut I,
    out: &mut O,
    err: &mut E,
) -> RunEnd
    requires regions { HasRegions machine.old }
    ensures regions { HasRegions machine.new }
    ensures ran { Ran n
        (streams
        (feed (I.left input.old) (I.ended input.old) (I.faults input.old) (I.gave input.old))
        (tally (O.written out.old) (O.faults out.old))
        (tally (E.written err.old) (E.faults err.old)))
        machine.old result machine.new
        (streams
        (feed (I.left input.new) (I.ended input.new) (I.faults input.new) (I.gave input.new))
        (tally (O.written out.new) (O.faults out.new))
        (tally (E.written err.new) (E.faults err.new))) }
{
    let mut left = n;
    while left > 0 {
        match instruct(machine, input, out, err) {
            RunEnd::Spent => left -= 1,
            end => return end,
        }
    }
    RunEnd::Spent
}

// One instruction: Spent where the machine can go on.
#[inline(always)]
fn instruct<I: Source, O: Sink, E: Sink>(
    machine: &mut Machine,
    input: &mut I,
    out: &mut O,
    err: &mut E,
) -> RunEnd
    requires regions { HasRegions machine.old }
    ensures regions { HasRegions machine.new }
    ensures ran { Ran 1
        (streams
        (feed (I.left input.old) (I.ended input.old) (I.faults input.old) (I.gave input.old))
        (tally (O.written out.old) (O.faults out.old))
        (tally (E.written err.old) (E.faults err.old)))
        machine.old result machine.new
        (streams
        (feed (I.left input.new) (I.ended input.new) (I.faults input.new) (I.gave input.new))
        (tally (O.written out.new) (O.faults out.new))
        (tally (E.written err.new) (E.faults err.new))) }
{
    memories();
    match step(machine) {
        Stepped::Went => RunEnd::Spent,
        Stepped::Call => call(machine, input, out, err),
        Stepped::Fault { kind, pc, word } => RunEnd::Fault { kind, pc, word },
    }
}
