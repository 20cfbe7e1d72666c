// The calls of the environment: exit, write and read.
ghost use Rattle.std.specs.Prelude.{◌≡◌, ◌<◌, true};
ghost use Rattle.rv32_isa.specs.State.{reg, writable};
ghost use Rattle.rv32_isa.specs.Steps.{Calls, outcome};
ghost use Rattle.rv32_isa.specs.Machine.{answered};
ghost use Rattle.rv32_isa.specs.Regions.{HasRegions, KeepsSizes};
ghost use Rattle.rv32_runner.specs.declared.runner.RunEnd.TheVariants.{Fault};
ghost use Rattle.rv32_runner.specs.Streams.{feed, tally, streams};
ghost use Rattle.rv32_runner.specs.Calls.{Wrote, Read, Fills, Fronts};
ghost use Rattle.rv32_runner.specs.Runs.{Ran};

use crate::runner::RunEnd;
use arc_base::{Failed, Sink, Source, Stream, put_all};
use rv32_isa::{FaultKind, Machine, are_bytes, memories};

// The word of an ecall.
const ECALL: u32 = 0x73;

// As many bytes at most are taken from the source at once.
const PIECE: usize = 1024;

// Carries out the call of the environment that is due.
pub(crate) fn call<I: Source, O: Sink, E: Sink>(
    machine: &mut Machine,
    input: &mut I,
    out: &mut O,
    err: &mut E,
) -> RunEnd
    requires due { outcome machine.old ≡ Calls }
    requires regions { HasRegions machine.old }
    ensures regions { HasRegions machine.new }
    ensures ran { Ran 1
        (streams
        (feed (I.left input.old) (I.ended input.old) (I.faults input.old) (I.gave input.old))
        (tally (O.written out.old) (O.faults out.old))
        (tally (E.written err.old) (E.faults err.old)))
        machine.old result machine.new
        (streams
        (feed (I.left input.new) (I.ended input.new) (I.faults input.new) (I.gave input.new))
        (tally (O.written out.new) (O.faults out.new))
        (tally (E.written err.new) (E.faults err.new))) }
{
    let number = machine.reg(17);
    let first = machine.reg(10);
    if number == 93 {
        return RunEnd::Exited((first % 256) as u8);
    }
    if number == 64 && first == 1 {
        return write(machine, out, Stream::Out);
    }
    if number == 64 && first == 2 {
        return write(machine, err, Stream::Err);
    }
    if number == 63 && first == 0 {
        return read(machine, input);
    }
    refused(machine, FaultKind::BadCall)
}

// The call can't be carried out.
fn refused(machine: &Machine, kind: FaultKind) -> RunEnd
    ensures { result ≡ Fault kind machine.now.pc 0x73 }
{
    RunEnd::Fault {
        kind,
        pc: machine.pc(),
        word: ECALL,
    }
}

// Gives the answer of a call, and goes past it.
fn answer(machine: &mut Machine, value: u32)
    ensures { machine.new ≡ answered machine.old value }
{
    machine.set_reg(10, value);
    machine.skip();
}

// Writes the bytes that the machine names.
fn write<K: Sink>(machine: &mut Machine, sink: &mut K, stream: Stream) -> RunEnd
    requires regions { HasRegions machine.old }
    ensures regions { HasRegions machine.new }
    ensures wrote { Wrote machine.old stream
        (tally (K.written sink.old) (K.faults sink.old)) result machine.new
        (tally (K.written sink.new) (K.faults sink.new)) }
{
    let (at, len) = (machine.reg(11), machine.reg(12));
    let Some(bytes) = machine.readable(at, len) else {
        return refused(machine, FaultKind::OutOfRange);
    };
    match put_all(sink, bytes) {
        Ok(()) => {
            answer(machine, len);
            RunEnd::Spent
        }
        Err(Failed) => RunEnd::WriteFault(stream),
    }
}

// Reads as many bytes as the machine asks for, or as there are.
fn read<I: Source>(machine: &mut Machine, input: &mut I) -> RunEnd
    requires regions { HasRegions machine.old }
    ensures regions { HasRegions machine.new }
    ensures did { Read machine.old
        (feed (I.left input.old) (I.ended input.old) (I.faults input.old) (I.gave input.old))
        result machine.new
        (feed (I.left input.new) (I.ended input.new) (I.faults input.new) (I.gave input.new)) }
{
    let (at, len) = (machine.reg(11), machine.reg(12));
    if !machine.is_writable(at, len) {
        return refused(machine, FaultKind::OutOfRange);
    }
    match fill(machine, at, len, input) {
        Ok(count) => {
            answer(machine, count);
            RunEnd::Spent
        }
        Err(Failed) => RunEnd::ReadFault,
    }
}

// Puts input into a range that may be stored to, until it is full or the source ends, and says how many bytes.
fn fill<I: Source>(machine: &mut Machine, at: u32, len: u32, input: &mut I) -> Result<u32, Failed>
    requires regions { HasRegions machine.old }
    requires to { writable machine.old at len ≡ true }
    ensures regions { HasRegions machine.new }
    ensures fills { Fills machine.old at len
        (feed (I.left input.old) (I.ended input.old) (I.faults input.old) (I.gave input.old))
        result machine.new
        (feed (I.left input.new) (I.ended input.new) (I.faults input.new) (I.gave input.new)) }
{
    memories();
    let mut done = 0;
    while done < len {
        match fill_front(machine, at + done, len - done, input) {
            Ok(0) => return Ok(done),
            Ok(count) => done += count,
            Err(failed) => return Err(failed),
        }
    }
    Ok(done)
}

// Puts what one take gives into the front of a range that may be stored to and is not empty.
fn fill_front<I: Source>(
    machine: &mut Machine,
    at: u32,
    len: u32,
    input: &mut I,
) -> Result<u32, Failed>
    requires to { writable machine.old at len ≡ true }
    requires some { 0 < len }
    ensures sizes { KeepsSizes machine.old machine.new }
    ensures fronts { Fronts machine.old at len
        (feed (I.left input.old) (I.ended input.old) (I.faults input.old) (I.gave input.old))
        result machine.new
        (feed (I.left input.new) (I.ended input.new) (I.faults input.new) (I.gave input.new)) }
{
    memories();
    let mut piece = [0; PIECE];
    let room = PIECE.min(len as usize);
    let count = input.take(&mut piece[..room])?;
    let given = &piece[..count];
    are_bytes(given);
    machine.fill(at, given);
    Ok(count as u32)
}
