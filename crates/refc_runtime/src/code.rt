// The routines and their data.
ghost use Rattle.std.specs.Prelude.{◌≡◌, IfOk};
ghost use Rattle.refc_runtime.specs.BothRuntimes.{AreRuntimes};
ghost use Rattle.refc_runtime.specs.Code.{statics};

use crate::heap::heap_runtime;
use crate::routines::routines;
use arc_base::{Bytes, Memory};
use rv32_isa::memories;
use std::alloc::Global;
use word_code::WordCode;

// Room for the digits of a number, and the lines of traps, each up to a whole number of words.
const STATICS: &[u8] =
    b"\0\0\0\0\0\0\0\0\0\0\0\0Error: overflow\nError: division by zero\nError: index out of bounds\n\0\
Error: value out of range\n\0\0Error: length changed\n\0\0Error: call depth limit\n";

// The data of routines.
fn data(alloc: Global) -> Result<Bytes, Memory>
    ensures { IfOk result (λ bytes. bytes ≡ statics) }
{
    let mut bytes = Bytes::new(alloc);
    bytes.append(STATICS)?;
    Ok(bytes)
}

/// All routines that a program is joined with: those of the heap in front of it, and the others
/// behind it.
#[derive(Drop)]
pub struct Runtimes {
    pub heap: WordCode,
    pub others: WordCode,
}

/// All routines, whose numbers are those that word_code and heap_memory name.
pub fn runtime_pair(alloc: Global) -> Result<Runtimes, Memory>
    ensures { IfOk result (λ r. AreRuntimes r.heap r.others) }
{
    memories();
    let heap = heap_runtime(alloc)?;
    let procs = routines(alloc)?;
    let statics = data(alloc)?;
    let others = WordCode { procs, statics };
    Ok(Runtimes { heap, others })
}
