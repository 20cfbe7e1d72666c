// Before the first line.
ghost use Rattle.std.specs.Prelude.{IfOk, List, Some, [], false, replicate, ℕ, ◌+◌, ◌≡◌};
ghost use Rattle.word_code.specs.Memory.{data_of};
ghost use Rattle.word_code.specs.Words.{first_of, from_proc, start};
ghost use Rattle.word_code.specs.declared.word.TheConstants.{SPARE_ROOM};
ghost use Rattle.word_runner.specs.View.{proc_in, space_is, state_is};

use crate::state::{Frame, Input, Run, Space};
use crate::vars::no_words;
use arc_base::Memory;
use rv32_isa::STACK_AT;
use std::alloc::Global;
use word_code::{SPARE_ROOM, WordCode, WordProc};

// The data at the start: the sizes of heap and stack, and the code's own.
#[tactic(auto, unfolding(rv32_isa::specs::Words::word_bytes))]
fn data_of(alloc: Global, heap: u32, own: &[u8]) -> Result<Vec<u8>, Memory>
    ensures { IfOk result (λ made. made.items ≡ data_of heap 0 own.now) }
{
    let stack: u32 = 0;
    let mut data = Vec::new(alloc);
    data.extend_from_slice(&heap.to_le_bytes())?;
    data.extend_from_slice(&stack.to_le_bytes())?;
    data.extend_from_slice(own)?;
    Ok(data)
}

// The memory, with so many bytes of places.
fn space_of(alloc: Global, heap: u32, own: &[u8], room: usize) -> Result<Space, Memory>
    ensures { IfOk result (λ space. space_is space ≡ record {
      statics = data_of heap 0 own.now;
      heap = replicate heap 0;
      places = replicate room 0;
    }) }
{
    let statics = data_of(alloc, heap, own)?;
    Ok(Space {
        statics,
        heap: vec![in alloc; 0; heap as usize]?,
        places: vec![in alloc; 0; room]?,
    })
}

// How many bytes of places the procedure at a position has.
fn room_of(procs: &[WordProc], proc: usize) -> u32
    ensures { result ≡ (proc_in procs.now proc).room }
{
    match procs.get(proc) {
        None => 0,
        Some(p) => p.room,
    }
}

/// The start code, which stands at a position, before its first line.
pub fn begun(
    alloc: Global,
    code: &WordCode,
    heap: u32,
    units: u64,
    first: usize,
) -> Result<Run, Memory>
    ensures state { (rest : List ℕ) → proc_in code.now.procs first ≡ first_of (from_proc 0 code.now.procs) →
        IfOk result (λ run. state_is code.now.procs run rest
        ≡ record (start code.now heap 0 rest) { units = Some units }) }
    ensures none { IfOk result (λ run. (run.input.taken.items ≡ []) × (run.input.read ≡ 0) × (run.input.ended ≡ false)) }
{
    let room = room_of(code.procs.as_slice(), first) as usize + SPARE_ROOM as usize;
    let space = space_of(alloc, heap, code.statics.as_slice(), room)?;
    let vars = no_words(alloc);
    let given = no_words(alloc);
    let callers = Vec::new(alloc);
    let taken = Vec::new(alloc);
    let frame = Frame {
        proc: first,
        at: 0,
        vars,
        given,
        base: STACK_AT,
        awaits: 0,
    };
    let input = Input {
        taken,
        read: 0,
        ended: false,
    };
    Ok(Run {
        space,
        frame,
        callers,
        units,
        input,
    })
}
