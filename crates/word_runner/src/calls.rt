// Calls begin and end.
ghost use Rattle.std.specs.Prelude.{IfOk, OnOk, List, if◌then◌else◌, length, ℕ, nat_le, ◌∷◌, ◌≡◌, ◌≤◌};
ghost use Rattle.word_code.specs.Words.{counted, is_counted, is_full, most_calls};
ghost use Rattle.word_code.specs.declared.word.WordProc.{WordProc};
ghost use Rattle.word_runner.specs.View.{callers_are, frame_is, proc_in};
ghost use Rattle.word_runner.specs.Steps.{Begun, Ended};

use crate::state::{Frame, Run};
use crate::vars::{no_words, put};
use arc_base::Memory;
use nim_program::ACTIVE_CALLS;
use std::alloc::Global;
use std::mem::replace;
use word_code::{ProcKind, WordProc};

fn is_counted(kind: ProcKind) -> bool
    ensures { result ≡ is_counted kind }
{
    match kind {
        ProcKind::Counted => true,
        ProcKind::Hook { .. } => true,
        ProcKind::Uncounted => false,
    }
}

fn own_count(procs: &[WordProc], proc: usize) -> usize
    ensures is { result ≡ (if is_counted (proc_in procs.now proc).kind then 1 else 0) }
    ensures few { result ≤ 1 }
{
    match procs.get(proc) {
        None => 1,
        Some(p) => { if is_counted(p.kind) { 1 } else { 0 } }
    }
}

// How many of these calls count.
fn counted(procs: &[WordProc], frames: &Vec<Frame>) -> usize
    ensures is { result ≡ counted (callers_are procs.now frames.now.items) }
    ensures few { result ≤ length frames.now.items }
{
    let mut count = 0;
    for frame in frames {
        count += own_count(procs, frame.proc);
    }
    count
}

// Whether as many calls that count are active as may be.
fn is_full(procs: &[WordProc], run: &Run) -> bool
    ensures { result ≡ nat_le most_calls (counted (frame_is procs.now run.now.frame
        ∷ callers_are procs.now run.now.callers.items)) }
{
    if run.callers.len() < ACTIVE_CALLS as usize {
        return false;
    }
    counted(procs, &run.callers) + own_count(procs, run.frame.proc) >= ACTIVE_CALLS as usize + 1
}

/// A call of a procedure is one too many.
pub fn is_refused(procs: &[WordProc], run: &Run, callee: &WordProc) -> bool
    ensures { result ≡ is_full callee.now (frame_is procs.now run.now.frame
        ∷ callers_are procs.now run.now.callers.items) }
{
    is_counted(callee.kind) && is_full(procs, run)
}

/// The procedure at a position is called, for a variable. The caller goes on at `next`.
pub fn begin(
    alloc: Global,
    run: &mut Run,
    own: &WordProc,
    to: u32,
    next: usize,
    proc: usize,
    callee: &WordProc,
) -> Result<(), Memory>
    ensures begun { (procs : List WordProc) (rest : List ℕ) → proc_in procs run.old.frame.proc ≡ own.now →
        proc_in procs proc ≡ callee.now → OnOk result (Begun procs run.old to next callee.now rest run.new) }
    ensures input { run.new.input ≡ run.old.input }
{
    let kept = no_words(alloc);
    let given = no_words(alloc);
    let mut vars = replace(&mut run.frame.given, kept);
    vars.truncate(callee.params as usize);
    let begun = Frame {
        proc,
        at: 0,
        vars,
        given,
        base: run.frame.base.wrapping_add(own.room),
        awaits: 0,
    };
    let mut caller = replace(&mut run.frame, begun);
    caller.at = next;
    caller.awaits = to;
    run.callers.push(caller)?;
    run.space.extend(callee.room)?;
    Ok(())
}

/// A call is over, with a word for its caller. Whether there is one.
pub fn end(run: &mut Run, own: &WordProc, word: u32) -> Result<bool, Memory>
    ensures over { (procs : List WordProc) (rest : List ℕ) → proc_in procs run.old.frame.proc ≡ own.now →
        IfOk result (Ended procs run.old word rest run.new) }
    ensures input { run.new.input ≡ run.old.input }
{
    match run.callers.pop() {
        None => Ok(false),
        Some(caller) => {
            run.frame = caller;
            run.space.cut(own.room);
            let to = run.frame.awaits;
            match put(&mut run.frame.vars, to, word) {
                Err(_) => Err(Memory),
                Ok(()) => Ok(true),
            }
        }
    }
}
