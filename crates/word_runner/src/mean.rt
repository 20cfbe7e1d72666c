// Word code, run on a source and sinks.
ghost use Rattle.arc_base.specs.Behaviour.{Behaviour};
ghost use Rattle.arc_base.specs.Event.{Event};
ghost use Rattle.rv32_isa.specs.Machine.{Lives};
ghost use Rattle.rv32_runner.specs.Streams.{Feed, feed};
ghost use Rattle.std.specs.Prelude.{IfNone, IfSome, IsTrue, List, Option, Some, [], false, length, true, ℕ, ◌≡◌, ◌≤◌};
ghost use Rattle.word_code.specs.Memory.{bytes_at};
ghost use Rattle.word_code.specs.Words.{first_of, from_proc, is_word_code};
ghost use Rattle.word_runner.specs.Books.{IsBooks};
ghost use Rattle.word_runner.specs.Holding.{Holding, Put, StopsWithin, WentOn, machine};
ghost use Rattle.word_runner.specs.Mean.{Came, Failed, Stops, shown_by};
ghost use Rattle.word_runner.specs.Sinks.{told};
ghost use Rattle.word_runner.specs.Steps.{Kept};
ghost use Rattle.word_runner.specs.View.{proc_in, space_is, state_is};

use crate::books::{Books, books_of};
use crate::start::begun;
use crate::state::{Run, Space, Went};
use crate::step::step;
use crate::take::{Taken, take_more};
use arc_base::{Failed as PutFailed, Sink, Source, Stream, put_all};
use std::alloc::Global;
use word_code::{WordCode, WordProc};

/// How running word code ended.
#[derive(Clone, Copy)]
pub enum MeanEnd {
    /// The program ended, with a status.
    Ended(u8),
    /// The units are spent.
    Going,
    /// The run is wrong, by the plan. Word code never is.
    Wrong,
    /// A line can't be carried out. The code of a program never comes to that.
    Faulted,
    /// The source was not read.
    ReadFault,
    /// A sink didn't take what was written.
    WriteFault(Stream),
    /// No memory was found.
    Memory,
}

// Bytes of memory are written.
fn put_bytes<K: Sink>(space: &Space, sink: &mut K, at: u32, len: u32) -> Result<(), PutFailed>
    ensures { (bytes : List ℕ) → bytes_at (space_is space.now) at len ≡ Some bytes →
        Put result (K.written sink.old) (K.faults sink.old) (K.written sink.new) (K.faults sink.new) bytes }
{
    match space.bytes(at, len) {
        None => Ok(()),
        Some(bytes) => put_all(sink, bytes),
    }
}

// Lines are carried out until more input is wanted, or to the end.
fn go<O: Sink, E: Sink>(
    alloc: Global,
    procs: &[WordProc],
    books: &Books,
    run: &mut Run,
    out: &mut O,
    err: &mut E,
) -> Option<MeanEnd>
    ghost most: { ℕ }
    requires books { IsBooks procs.now books.now }
    requires within { run.old.input.read ≤ length run.old.input.taken.items }
    requires stops { (live : Lives) → StopsWithin (machine live procs.now) (state_is procs.now run.old []) most }
    ensures goes { (live : Lives) (rest : List ℕ) → (IsTrue run.old.input.ended → rest ≡ []) → (shown : Behaviour Event)
        (a b : Option (List ℕ)) (m n : ℕ) →
        Holding (machine live procs.now) shown (state_is procs.now run.old rest)
        (told a (O.written out.old) m (O.faults out.old)) (told b (E.written err.old) n (E.faults err.old)) →
        WentOn (machine live procs.now) shown result (state_is procs.now run.new rest)
        (told a (O.written out.new) m (O.faults out.new)) (told b (E.written err.new) n (E.faults err.new)) }
    ensures unfailed { (old new : Feed) → new.faults ≡ old.faults → IfSome result (λ end. Failed end old new) }
    ensures wants { IfNone result (run.new.input.ended ≡ false) }
    ensures kept { Kept run.old.input run.new.input }
{
    'lines: loop {
        match step(alloc, procs, books, run) {
            Went::Goes => {}
            Went::Says { address, len } => match put_bytes(&run.space, out, address, len) {
                Err(_) => return Some(MeanEnd::WriteFault(Stream::Out)),
                Ok(()) => {}
            },
            Went::Warns { address, len } => match put_bytes(&run.space, err, address, len) {
                Err(_) => return Some(MeanEnd::WriteFault(Stream::Err)),
                Ok(()) => {}
            },
            Went::Ends(status) => return Some(MeanEnd::Ended(status)),
            Went::Waits => return Some(MeanEnd::Going),
            Went::Wants(_) => return None,
            Went::Faults => return Some(MeanEnd::Faulted),
            Went::Memory => return Some(MeanEnd::Memory),
        }
    }
}

// The position of the start code; behind all procedures where there is none.
fn first_of(books: &Books, procs: &[WordProc]) -> usize
    ensures { IsBooks procs.now books.now → proc_in procs.now result ≡ first_of (from_proc 0 procs.now) }
{
    match books.number(0) {
        None => procs.len(),
        Some(i) => i,
    }
}

/// Runs word code with so many units: what it reads is taken from the source when it asks for it, and
/// what it writes goes to the sinks as it happens.
pub fn mean_words<I: Source, O: Sink, E: Sink>(
    alloc: Global,
    code: &WordCode,
    heap: u32,
    units: u64,
    input: &mut I,
    out: &mut O,
    err: &mut E,
) -> MeanEnd
    ghost most: { List ℕ → ℕ }
    requires formed { is_word_code code.now ≡ true }
    requires stops { (live : Lives) → Stops (shown_by live code.now heap units) most }
    ensures { (live : Lives) → Came (shown_by live code.now heap units)
        (feed (I.left input.old) (I.ended input.old) (I.faults input.old) (I.gave input.old))
        result
        (feed (I.left input.new) (I.ended input.new) (I.faults input.new) (I.gave input.new))
        (told (O.written out.old) (O.written out.new) (O.faults out.old) (O.faults out.new))
        (told (E.written err.old) (E.written err.new) (E.faults err.old) (E.faults err.new)) }
{
    let procs = code.procs.as_slice();
    let Ok(books) = books_of(alloc, procs) else {
        return MeanEnd::Memory;
    };
    let first = first_of(&books, procs);
    let Ok(mut run) = begun(alloc, code, heap, units, first) else {
        return MeanEnd::Memory;
    };
    'takes: loop {
        if let Some(end) = go(alloc, procs, &books, &mut run, out, err) {
            return end;
        }
        match take_more(&mut run, input) {
            Taken::More => {}
            Taken::Failed => return MeanEnd::ReadFault,
            Taken::Memory => return MeanEnd::Memory,
        }
    }
}
