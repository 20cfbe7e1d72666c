// The procedures that calls can reach from the start code, and the code with these alone.
ghost use Rattle.std.specs.Prelude.{◌≡◌, ◌++◌, nat_eq, IfOk, OnOk};
ghost use Rattle.std.specs.HashMap.{get};
ghost use Rattle.word_code.specs.Words.{callee_of, from_proc};
ghost use Rattle.reachable_procs.specs.Reachable.{lines_from, kept, AreReached, IsPruned};
ghost use Rattle.reachable_procs.specs.Search.{IsIndex, with_callee, with_called};

use arc_base::{Bytes, Items, Memory};
use number_sets::Numbers;
use std::alloc::Global;
use std::collections::HashMap;
use word_code::{WordCode, WordInstr, WordProc, copied};

// Where the first procedure of each number stands.
type Index = HashMap<u32, usize>;

// The first of several procedures of a number counts, so they are gone over from their end.
fn index_of(alloc: Global, procs: &[WordProc]) -> Result<Index, Memory>
    ensures { IfOk result (λ index. IsIndex index procs.now) }
{
    let mut index = HashMap::new(alloc);
    let mut i = procs.len();
    while i > 0 {
        i -= 1;
        index.insert(procs[i].number, i)?;
    }
    Ok(index)
}

// The lines of the first procedure of that number, or none.
fn lines_of<'a>(index: &Index, procs: &'a [WordProc], number: u32) -> &'a [WordInstr]
    requires { IsIndex index.now procs.now }
    ensures { result.now ≡ lines_from (from_proc number procs.now) }
{
    match index.get(&number) {
        Some(at) => {
            if *at < procs.len() {
                procs[*at].lines.as_slice()
            } else {
                &[]
            }
        }
        None => &[],
    }
}

// Adds the number of the procedure that a line calls.
fn add_called(reached: &mut Numbers, line: WordInstr) -> Result<(), Memory>
    ensures { OnOk result (reached.new ≡ with_callee (callee_of line) reached.old) }
{
    match line {
        WordInstr::Call { callee, .. } => reached.add(callee),
        _ => Ok(()),
    }
}

// Adds the numbers of all procedures that these lines call.
fn add_all_called(reached: &mut Numbers, lines: &[WordInstr]) -> Result<(), Memory>
    ensures { OnOk result (reached.new ≡ with_called lines.now reached.old) }
{
    for line in lines {
        add_called(reached, *line)?;
    }
    Ok(())
}

// The numbers that calls can reach: each that is found is searched in its turn.
fn reach(alloc: Global, procs: &[WordProc]) -> Result<Numbers, Memory>
    ensures { IfOk result (λ reached. AreReached procs.now reached) }
{
    let index = index_of(alloc, procs)?;
    let mut reached = Numbers::new(alloc);
    reached.add(0)?;
    let mut next = 0;
    while next < reached.count() {
        let number = reached.get(next);
        add_all_called(&mut reached, lines_of(&index, procs, number))?;
        next += 1;
    }
    Ok(reached)
}

fn copy_of(alloc: Global, proc: &WordProc) -> Result<WordProc, Memory>
    ensures { IfOk result (λ copy. copy ≡ proc.now) }
{
    let lines = copied(alloc, proc.lines.as_slice())?;
    Ok(WordProc {
        number: proc.number,
        kind: proc.kind,
        params: proc.params,
        vars: proc.vars,
        room: proc.room,
        data_from: proc.data_from,
        lines,
    })
}

fn kept_of(alloc: Global, reached: &Numbers, procs: &[WordProc]) -> Result<Items<WordProc>, Memory>
    ensures { IfOk result (λ left. left ≡ kept reached.now procs.now) }
{
    let mut left = Items::new(alloc);
    for proc in procs {
        if reached.has(proc.number) {
            let copy = copy_of(alloc, proc)?;
            left.push(copy)?;
        }
    }
    Ok(left)
}

/// The code without the procedures that no call can reach from the start code, which is the one of
/// number 0. Data stay as they are.
pub fn prune(alloc: Global, code: &WordCode) -> Result<WordCode, Memory>
    ensures { IfOk result (λ pruned. IsPruned code.now pruned) }
{
    let reached = reach(alloc, code.procs.as_slice())?;
    let procs = kept_of(alloc, &reached, code.procs.as_slice())?;
    let statics = Bytes::from_slice(alloc, code.statics.as_slice())?;
    Ok(WordCode { procs, statics })
}
