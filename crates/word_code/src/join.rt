// Two word codes as one.
ghost use Rattle.std.specs.Prelude.{◌≡◌, ◌≤◌, ◌+◌, ◌++◌, length, IfOk, OnOk};
ghost use Rattle.word_code.specs.Joined.{moved, all_moved, joined, AreApart, HaveRoom};

use crate::copy::copied;
use crate::word::{WordCode, WordProc};
use arc_base::{Items, Memory};
use std::alloc::Global;

// The procedure, with its data behind so many bytes.
fn moved_proc(alloc: Global, before: u32, proc: &WordProc) -> Result<WordProc, Memory>
    requires { before + proc.now.data_from ≤ 4294967295 }
    ensures { IfOk result (λ p. p ≡ moved before proc.now) }
{
    let data_from = before + proc.data_from;
    let lines = copied(alloc, proc.lines.as_slice())?;
    Ok(WordProc {
        number: proc.number,
        kind: proc.kind,
        params: proc.params,
        vars: proc.vars,
        room: proc.room,
        data_from,
        lines,
    })
}

// Adds the procedures, with their data behind so many bytes.
fn push_moved(
    alloc: Global,
    procs: &mut Items<WordProc>,
    before: u32,
    others: &[WordProc],
) -> Result<(), Memory>
    requires { HaveRoom before others.now }
    ensures { OnOk result (procs.new ≡ procs.old ++ all_moved before others.now) }
{
    for proc in others {
        let moved = moved_proc(alloc, before, proc)?;
        procs.push(moved)?;
    }
    Ok(())
}

impl WordCode {
    /// The procedures and the data of both, these before those of the other. The data of the other
    /// is found where it stands then.
    ///
    /// After `Memory` both are lost.
    pub fn join(self, alloc: Global, other: WordCode) -> Result<WordCode, Memory>
        requires apart { AreApart self.procs other.procs }
        requires small { length self.statics ≤ 4294967295 }
        requires room { HaveRoom (length self.statics) other.procs }
        ensures { IfOk result (λ code. code ≡ joined self other) }
    {
        let before = self.statics.as_slice().len() as u32;
        let mut procs = self.procs;
        let mut statics = self.statics;
        push_moved(alloc, &mut procs, before, other.procs.as_slice())?;
        statics.append(other.statics.as_slice())?;
        Ok(WordCode { procs, statics })
    }
}
