// One line of word code.
ghost use Rattle.rv32_isa.specs.Machine.{Lives};
ghost use Rattle.std.specs.Prelude.{IsTrue, List, [], false, length, slice_get, Some, true, ℕ, ◌%◌, ◌+◌, ◌<◌, ◌^◌, ◌≡◌, ◌≤◌};
ghost use Rattle.word_code.specs.Memory.{own_data_at};
ghost use Rattle.word_code.specs.Words.{step};
ghost use Rattle.word_code.specs.declared.word.WordProc.{WordProc as SpecProc};
ghost use Rattle.word_runner.specs.Acts.{May};
ghost use Rattle.word_runner.specs.declared.act.Act.TheVariants as does;
ghost use Rattle.word_runner.specs.Books.{IsBooks};
ghost use Rattle.word_runner.specs.Steps.{Followed, Kept, Settles, Wants};
ghost use Rattle.word_runner.specs.View.{state_is};

use crate::act::{Act, act_of};
use crate::books::Books;
use crate::calls::{begin, end, is_refused};
use crate::state::{Run, Went};
use crate::vars::put;
use arc_base::Stream;
use rv32_isa::{STATICS_AT, Size, are_bytes};
use std::alloc::Global;
use word_code::{WordInstr, WordProc};

// A unit is spent, if there is one.
#[inline(always)]
fn spend(run: &mut Run, next: usize) -> Went
    ensures { (procs : List SpecProc) → Settles procs run.old next does.Spends result run.new }
{
    if run.units == 0 {
        return Went::Waits;
    }
    run.units -= 1;
    run.frame.at = next;
    Went::Goes
}

// A variable gets a word.
#[inline(always)]
fn set(run: &mut Run, to: u32, word: u32, next: usize) -> Went
    ensures { (procs : List SpecProc) → Settles procs run.old next (does.Sets to word) result run.new }
{
    match put(&mut run.frame.vars, to, word) {
        Err(_) => Went::Memory,
        Ok(()) => {
            run.frame.at = next;
            Went::Goes
        }
    }
}

// A word is an argument.
fn argue(run: &mut Run, index: u32, word: u32, next: usize) -> Went
    ensures { (procs : List SpecProc) → Settles procs run.old next (does.Gives index word) result run.new }
{
    match put(&mut run.frame.given, index, word) {
        Err(_) => Went::Memory,
        Ok(()) => {
            run.frame.at = next;
            Went::Goes
        }
    }
}

// The lowest bytes of a word are put to an address.
#[inline(always)]
fn store(run: &mut Run, address: u32, size: Size, word: u32, next: usize) -> Went
    requires { May run.old.space (does.Stores address size word) }
    ensures { (procs : List SpecProc) → Settles procs run.old next (does.Stores address size word) result run.new }
{
    run.space.put_number(address, size, word);
    run.frame.at = next;
    Went::Goes
}

// Control goes on at a label.
#[inline(always)]
fn leap(run: &mut Run, books: &Books, name: u32, next: usize) -> Went
    ensures { (procs : List SpecProc) (own : SpecProc) → IsBooks procs books.now →
        slice_get procs run.old.frame.proc ≡ Some own →
        Settles procs run.old next (does.Leaps name) result run.new }
{
    match books.label(run.frame.proc, name) {
        None => Went::Faults,
        Some(at) => {
            run.frame.at = at;
            Went::Goes
        }
    }
}

// A procedure is called.
fn call(
    alloc: Global,
    procs: &[WordProc],
    books: &Books,
    run: &mut Run,
    own: &WordProc,
    to: u32,
    callee: u32,
    next: usize,
) -> Went
    requires books { IsBooks procs.now books.now }
    requires own { slice_get procs.now run.old.frame.proc ≡ Some own.now }
    ensures { Settles procs.now run.old next (does.Calls to callee) result run.new }
{
    match books.number(callee) {
        None => Went::Faults,
        Some(i) => match procs.get(i) {
            None => Went::Faults,
            Some(p) => {
                if is_refused(procs, run, p) {
                    return Went::Faults;
                }
                match begin(alloc, run, own, to, next, i, p) {
                    Err(_) => Went::Memory,
                    Ok(()) => Went::Goes,
                }
            }
        },
    }
}

// A call is over.
fn give_back(procs: &[WordProc], run: &mut Run, own: &WordProc, word: u32, next: usize) -> Went
    requires own { slice_get procs.now run.old.frame.proc ≡ Some own.now }
    ensures { Settles procs.now run.old next (does.Returns word) result run.new }
{
    match end(run, own, word) {
        Err(_) => Went::Memory,
        Ok(is_over) => { if is_over { Went::Goes } else { Went::Faults } }
    }
}

// Whether more bytes have to be taken.
fn wants(count: usize, len: u32, ended: bool) -> bool
    ensures more { result ≡ true → ended ≡ false }
    ensures enough { result ≡ false → count < len → IsTrue ended }
{
    count < len as usize && !ended
}

// So many bytes of input come to an address, where they are there or no more come.
fn read(run: &mut Run, to: u32, address: u32, len: u32, next: usize) -> Went
    requires may { May run.old.space (does.Reads to address len) }
    requires within { run.old.input.read ≤ length run.old.input.taken.items }
    ensures { (procs : List SpecProc) → Settles procs run.old next (does.Reads to address len) result run.new }
{
    let there = run.input.taken.len() - run.input.read;
    let count = there.min(len as usize);
    if wants(count, len, run.input.ended) {
        return Went::Wants(len as usize - count);
    }
    match put(&mut run.frame.vars, to, count as u32) {
        Err(_) => Went::Memory,
        Ok(()) => {
            let from = run.input.read;
            let given = &run.input.taken.as_slice()[from..from + count];
            are_bytes(given);
            run.space.fill(address, given);
            run.input.read = from + count;
            run.frame.at = next;
            Went::Goes
        }
    }
}

// So many bytes are written.
fn write(run: &mut Run, stream: Stream, address: u32, len: u32, next: usize) -> Went
    requires { May run.old.space (does.Writes stream address len) }
    ensures { (procs : List SpecProc) → Settles procs run.old next (does.Writes stream address len) result run.new }
{
    run.frame.at = next;
    match stream {
        Stream::Out => Went::Says { address, len },
        Stream::Err => Went::Warns { address, len },
    }
}

// What a line does is carried out.
fn carry(
    alloc: Global,
    procs: &[WordProc],
    books: &Books,
    run: &mut Run,
    own: &WordProc,
    act: Act,
    next: usize,
) -> Went
    requires books { IsBooks procs.now books.now }
    requires own { slice_get procs.now run.old.frame.proc ≡ Some own.now }
    requires may { May run.old.space act }
    requires within { run.old.input.read ≤ length run.old.input.taken.items }
    ensures { Settles procs.now run.old next act result run.new }
{
    match act {
        Act::Passes => {
            run.frame.at = next;
            Went::Goes
        }
        Act::Spends => spend(run, next),
        Act::Sets { to, word } => set(run, to, word, next),
        Act::Stores {
            address,
            size,
            word,
        } => store(run, address, size, word, next),
        Act::Leaps(name) => leap(run, books, name, next),
        Act::Gives { index, word } => argue(run, index, word, next),
        Act::Calls { to, callee } => call(alloc, procs, books, run, own, to, callee, next),
        Act::Returns(word) => give_back(procs, run, own, word, next),
        Act::Reads { to, address, len } => read(run, to, address, len, next),
        Act::Writes {
            stream,
            address,
            len,
        } => write(run, stream, address, len, next),
        Act::Exits(status) => Went::Ends(status),
        Act::Fails => Went::Faults,
    }
}

// Where the data of a procedure begins.
fn data_of(proc: &WordProc) -> u32
    ensures { result ≡ (own_data_at + proc.now.data_from) % 2 ^ 32 }
{
    (STATICS_AT + 8).wrapping_add(proc.data_from)
}

/// The next line is carried out.
pub fn step(alloc: Global, procs: &[WordProc], books: &Books, run: &mut Run) -> Went
    requires books { IsBooks procs.now books.now }
    requires within { run.old.input.read ≤ length run.old.input.taken.items }
    ensures follows { (live : Lives) (rest : List ℕ) → (IsTrue run.old.input.ended → rest ≡ []) →
        Followed (step live procs.now [] (state_is procs.now run.old rest)) result
        (state_is procs.now run.old rest) (state_is procs.now run.new rest) }
    ensures wants { Wants result run.old.input.ended }
    ensures kept { Kept run.old.input run.new.input }
{
    match procs.get(run.frame.proc) {
        None => Went::Faults,
        Some(own) => match own.lines.as_slice().get(run.frame.at) {
            None => Went::Faults,
            Some(line) => {
                let act = act_of(&run.frame, &run.space, data_of(own), *line);
                let next = run.frame.at + 1;
                carry(alloc, procs, books, run, own, act, next)
            }
        },
    }
}
