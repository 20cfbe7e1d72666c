// The stack that label code needs.
ghost use Rattle.std.specs.Prelude.{◌≡◌, ◌≤◌, ◌+◌, ◌*◌, true, false, max, nat_eq, length, IfOk};
ghost use Rattle.std.specs.HashMap.{get};
ghost use Rattle.word_code.specs.Words as words;
ghost use Rattle.word_code.specs.Sizes.{has_no_circle};
ghost use Rattle.rv32_codegen.specs.Stack as stack;
ghost use Rattle.rv32_codegen.specs.Chains as chains;
ghost use Rattle.rv32_codegen.specs.Lowering.{AllHomes};

use arc_base::{Items, Memory};
use nim_program::ACTIVE_CALLS;
use reg_scan::Homes;
use std::alloc::Global;
use std::collections::HashMap;
use word_code::{MOST_ARGUMENTS, ProcKind, SPARE_ROOM, WordCode, WordInstr, WordProc};

fn larger(a: u32, b: u32) -> u32
    ensures { result ≡ max a b }
{
    if a < b { b } else { a }
}

fn is_counted(kind: ProcKind) -> bool
    ensures { result ≡ words.is_counted kind }
{
    match kind {
        ProcKind::Counted => true,
        ProcKind::Hook { .. } => true,
        ProcKind::Uncounted => false,
    }
}

fn callee_of(line: WordInstr) -> Option<u32>
    ensures { result ≡ words.callee_of line }
{
    match line {
        WordInstr::Call { callee, .. } => Some(callee),
        _ => None,
    }
}

// Where the first procedure of each number stands.
type Index = HashMap<u32, usize>;

// The first of several procedures of a number counts, so they are gone over from their end.
fn index_of(alloc: Global, procs: &[WordProc]) -> Result<Index, Memory>
    ensures { IfOk result (λ index. chains.IsIndex index procs.now) }
{
    let mut index = HashMap::new(alloc);
    let mut i = procs.len();
    while i > 0 {
        i -= 1;
        index.insert(procs[i].number, i)?;
    }
    Ok(index)
}

fn place_at(index: &Index, number: u32) -> Option<usize>
    ensures { result ≡ get nat_eq index.now number }
{
    match index.get(&number) {
        Some(at) => Some(*at),
        None => None,
    }
}

fn taken_at(taken: &[u32], at: Option<usize>) -> u32
    ensures { result ≡ chains.taken_at taken.now at }
{
    match at {
        None => 0,
        Some(i) => { if i < taken.len() { taken[i] } else { 0 } }
    }
}

// What the first procedure of this number takes, or 0.
fn number_for(index: &Index, taken: &[u32], number: u32) -> u32
    ensures { result ≡ chains.by_index index.now taken.now number }
{
    taken_at(taken, place_at(index, number))
}

// What the procedure takes that a line calls, or 0.
fn taken_for(index: &Index, taken: &[u32], line: WordInstr) -> u32
    ensures { result
        ≡ words.taken_for (chains.by_index index.now taken.now) (words.callee_of line) }
{
    match callee_of(line) {
        Some(callee) => number_for(index, taken, callee),
        None => 0,
    }
}

// The most that one of the procedures takes that these lines call.
fn most_called(index: &Index, taken: &[u32], lines: &[WordInstr]) -> u32
    ensures { result ≡ words.most_called (chains.by_index index.now taken.now) lines.now }
{
    let mut most = 0;
    for line in lines {
        most = larger(most, taken_for(index, taken, *line));
    }
    most
}

// What chains take from a procedure on that takes so much itself.
fn chain_from(index: &Index, taken: &[u32], size: u32, proc: &WordProc) -> u32
    ensures { result ≡ chains.chain_from (chains.by_index index.now taken.now) size proc.now }
{
    if is_counted(proc.kind) {
        return 0;
    }
    size.saturating_add(most_called(index, taken, proc.lines.as_slice()))
}

// The same of each procedure.
fn chains_from(
    alloc: Global,
    index: &Index,
    procs: &[WordProc],
    taken: &[u32],
    sizes: &[u32],
) -> Result<Items<u32>, Memory>
    requires { length sizes.now ≡ length procs.now }
    ensures { IfOk result (λ next. next
        ≡ chains.chains_from (chains.by_index index.now taken.now) procs.now sizes.now) }
{
    let mut next = Items::new(alloc);
    for i in 0..procs.len() {
        next.push(chain_from(index, taken, sizes[i], &procs[i]))?;
    }
    Ok(next)
}

fn none_of(alloc: Global, procs: &[WordProc]) -> Result<Items<u32>, Memory>
    ensures { IfOk result (λ none. none ≡ chains.none_of procs.now) }
{
    let mut none = Items::new(alloc);
    for _proc in procs {
        none.push(0)?;
    }
    Ok(none)
}

fn is_same(a: &[u32], b: &[u32]) -> bool
    ensures { result ≡ true → a.now ≡ b.now }
{
    a == b
}

// What the longest chains take, from each procedure on.
fn longest_chains(
    alloc: Global,
    index: &Index,
    procs: &[WordProc],
    sizes: &[u32],
) -> Result<Items<u32>, Memory>
    requires index { chains.IsIndex index.now procs.now }
    requires sizes { length sizes.now ≡ length procs.now }
    ensures { IfOk result (λ taken. chains.AreLongest procs.now sizes.now taken) }
{
    let mut taken = none_of(alloc, procs)?;
    for _round in 0..procs.len() {
        let next = chains_from(alloc, index, procs, taken.as_slice(), sizes)?;
        if is_same(next.as_slice(), taken.as_slice()) {
            return Ok(taken);
        }
        taken = next;
    }
    Ok(taken)
}

// The longest chain that a procedure may call.
fn most_chain(index: &Index, procs: &[WordProc], taken: &[u32]) -> u32
    ensures { result ≡ words.most_chain (chains.by_index index.now taken.now) procs.now }
{
    let mut most = 0;
    for proc in procs {
        most = larger(most, most_called(index, taken, proc.lines.as_slice()));
    }
    most
}

fn most_of(sizes: &[u32]) -> u32
    ensures { result ≡ chains.most_of sizes.now }
{
    let mut most = 0;
    for size in sizes {
        most = larger(most, *size);
    }
    most
}

// What a call takes that counts, with the chains that it may call.
fn call_size(alloc: Global, procs: &[WordProc], sizes: &[u32]) -> Result<u64, Memory>
    requires { length sizes.now ≡ length procs.now }
    ensures { IfOk result (λ size. chains.IsCallSize procs.now sizes.now size) }
{
    let index = index_of(alloc, procs)?;
    let taken = longest_chains(alloc, &index, procs, sizes)?;
    let chain = most_chain(&index, procs, taken.as_slice());
    Ok(u64::from(most_of(sizes)) + u64::from(chain))
}

// What a call of each procedure takes: its frame, and the room of its places.
fn sizes_of(alloc: Global, procs: &[WordProc], homes: &[Homes]) -> Result<Items<u32>, Memory>
    requires { length homes.now ≡ length procs.now }
    ensures { IfOk result (λ sizes. sizes ≡ chains.sizes_of procs.now homes.now) }
{
    let mut sizes = Items::new(alloc);
    for i in 0..procs.len() {
        sizes.push(homes[i].frame.saturating_add(procs[i].room))?;
    }
    Ok(sizes)
}

/// The bytes of a stack for all calls that may be active: of each that counts the frame and the
/// places, taken together, with those of the longest chain of calls that don't.
///
/// There are homes for each procedure, in order, procedures that don't count call each other in no
/// circle, and the stack is at most 268,435,456 bytes.
pub fn stack_need(alloc: Global, words: &WordCode, homes: &[Homes]) -> Result<u32, Memory>
    requires homes { AllHomes words.now.procs homes.now }
    requires circle { has_no_circle words.now.procs ≡ true }
    requires most { stack.stack_need words.now.procs homes.now ≤ 268435456 }
    ensures { IfOk result (λ need. need ≡ stack.stack_need words.now.procs homes.now) }
{
    let procs = words.procs.as_slice();
    let sizes = sizes_of(alloc, procs, homes)?;
    let size = call_size(alloc, procs, sizes.as_slice())?;
    let calls = u64::from(ACTIVE_CALLS) + 1;
    let spare = u64::from(SPARE_ROOM) + 4 * u64::from(MOST_ARGUMENTS);
    let bytes = calls * size + spare;
    Ok(((bytes + 15) / 16 * 16) as u32)
}
