// From block code to word code.
ghost use Rattle.std.specs.Prelude.{◌+◌, ◌≡◌, ◌<◌, ◌≤◌, ◌∷◌, ◌++◌, true, length, map, IfOk, OnOk};
ghost use Rattle.flat_code.specs.Codes.{block_plain};
ghost use Rattle.hook_lifting.specs.Lifted.{AreMarked};
ghost use Rattle.hook_code.specs.HookCode.{procs_in};
ghost use Rattle.word_lowering.specs.Emission.{Puts};
ghost use Rattle.word_lowering.specs.LineCode.{proc_number};
ghost use Rattle.word_lowering.specs.Lowered.{result_cleared, kind_of, kind_in, code_of, word_proc};
ghost use Rattle.word_lowering.specs.Lowered.{with_own, if_runs, word_procs, all_layouts, around_start};
ghost use Rattle.word_lowering.specs.Lowers.{LowersWithRuntime};
ghost use Rattle.word_lowering.specs.MayLower.{may_lower};
ghost use Rattle.word_lowering.specs.Scope.{around_of, HasRoom};
ghost use Rattle.word_lowering.specs.Stored.{HaveForms};
ghost use Rattle.word_lowering.specs.Texts.{data_at, texts_at};

use crate::calls::proc_number;
use crate::homes::{Housed, Layout, OWN_FROM};
use crate::laid_texts::{LaidTexts, laid_texts};
use crate::layouts::{kept_in, layouts, result_in};
use crate::line_code::emit_lines;
use crate::nodes::emit_none;
use crate::scope::{Scope, few_labels};
use crate::setting::Setting;
use crate::spots::{emit_clears, sum};
use crate::tails::emit_last;
use crate::texts::{FIXED_BYTES, data, names_at, text_bytes, texts_address, texts_at, texts_bytes};
use arc_base::{Items, Memory};
use flat_code::{BlockLine, Blocks, CodeProc};
use hook_code::{arrays_are_short, elements_are_small, hook_levels, hook_procedures, put_hooks};
use hook_lifting::lift;
use nim_program::HookOf;
use nim_types::TypeTable;
use rv32_isa::{are_bytes, memories};
use std::alloc::Global;
use word_code::{ProcKind, WordCode, WordInstr, WordProc};

/// Word code has at most so many lines carried out for each work of the block code that it is of.
pub const WORD_PACE: u32 = 256;

/// And for so many works more: in front of its first line the start code says of up to 8,192 values
/// that none waits.
pub const WORD_LATE: u32 = 33;

/// Without a runtime word code has at most so many lines and procedures beside what block code weighs:
/// a start code without lines.
pub const START_WEIGHT: u32 = 6;

/// Without a runtime data has at most so many bytes beside those of globals, of names of enums and of
/// texts.
pub const MORE_DATA: u32 = 2_044;

/// A chain of calls that don't count has at most so many: hooks of types, and then routines.
pub const MOST_CHAIN: u32 = 134;

/// The greatest heap of a machine.
pub const MOST_HEAP: u32 = 16_777_216;

// The result is at its default.
fn emit_result(code: &mut Items<WordInstr>, own: Option<Housed>) -> Result<(), Memory>
    ensures { OnOk result (Puts code.old code.new (result_cleared own)) }
{
    match own {
        None => Ok(()),
        Some(place) => emit_clears(code, place),
    }
}

fn code_of(alloc: Global, x: &Scope, lines: &[BlockLine]) -> Result<Items<WordInstr>, Memory>
    requires { HasRoom (around_of x.now) }
    ensures { IfOk result (λ code. code ≡ code_of (around_of x.now) (map block_plain lines.now)) }
{
    let mut code = Items::new(alloc);
    let places = x.own.all.as_slice();
    let waiters = x.own.waiters.as_slice();
    emit_none(&mut code, waiters)?;
    emit_result(&mut code, result_in(places))?;
    emit_lines(&mut code, x, lines)?;
    emit_last(&mut code)?;
    Ok(code)
}

fn kind_of(hook: Option<HookOf>) -> ProcKind
    ensures { result ≡ kind_of hook }
{
    match hook {
        None => ProcKind::Counted,
        Some(hook) => ProcKind::Hook {
            kind: hook.kind,
            of: hook.of,
        },
    }
}

fn kind_in(start: bool, hook: Option<HookOf>) -> ProcKind
    ensures { result ≡ kind_in start hook }
{
    if start {
        ProcKind::Counted
    } else {
        kind_of(hook)
    }
}

fn word_proc(
    alloc: Global,
    x: &Scope,
    number: u32,
    proc: &CodeProc<BlockLine>,
) -> Result<WordProc, Memory>
    requires { HasRoom (around_of x.now) }
    ensures { IfOk result (λ p. p ≡ word_proc (around_of x.now) number proc.now) }
{
    let params = OWN_FROM + kept_in(x.own.all.as_slice()) as u32;
    let lines = code_of(alloc, x, proc.lines.as_slice())?;
    Ok(WordProc {
        number,
        kind: kind_in(x.setting.start, proc.hook),
        params,
        vars: x.own.free.variable,
        room: x.own.free.byte,
        data_from: 0,
        lines,
    })
}

// What is around another procedure than the start code.
fn with_own<'a>(x: &Scope<'a>, own: &'a Layout, behind: u32) -> Result<Scope<'a>, Memory>
    ensures { IfOk result (λ y. around_of y ≡ with_own (around_of x.now) own.now behind) }
{
    let literals = sum(x.setting.literals, behind)?;
    let setting = Setting {
        start: false,
        literals,
        ..x.setting
    };
    Ok(Scope { own, setting, ..*x })
}

// A procedure, if it has lines.
fn push_proc(
    alloc: Global,
    all: &mut Items<WordProc>,
    x: &Scope,
    index: u32,
    proc: &CodeProc<BlockLine>,
) -> Result<(), Memory>
    requires { HasRoom (around_of x.now) }
    ensures { OnOk result (Puts all.old all.new
        (if_runs x.now.own.now.runs (word_proc (around_of x.now) (proc_number index) proc.now))) }
{
    if !x.own.runs {
        return Ok(());
    }
    let number = proc_number(index)?;
    all.push(word_proc(alloc, x, number, proc)?)
}

// The procedures but for the start code.
fn push_procs(
    alloc: Global,
    all: &mut Items<WordProc>,
    x: &Scope,
    procs: &[CodeProc<BlockLine>],
) -> Result<(), Memory>
    requires { HasRoom (around_of x.now) }
    ensures { OnOk result (all.new ≡
        all.old ++ word_procs (around_of x.now) 0 x.now.layouts.now procs.now) }
{
    let mut behind = texts_bytes(procs)?;
    let mut owns = x.layouts;
    let mut left = procs;
    let mut index = 0;
    while let Some((proc, rest)) = left.split_first() {
        let Some((own, more)) = owns.split_first() else {
            break;
        };
        if rest.is_empty() {
            break;
        }
        behind -= text_bytes(proc.lines.as_slice())?;
        let y = with_own(x, own, behind)?;
        push_proc(alloc, all, &y, index, proc)?;
        index = sum(index, 1)?;
        owns = more;
        left = rest;
    }
    Ok(())
}

// All procedures: the start code, and the others.
fn all_procs(
    alloc: Global,
    x: &Scope,
    start: &CodeProc<BlockLine>,
    procs: &[CodeProc<BlockLine>],
) -> Result<Items<WordProc>, Memory>
    requires { HasRoom (around_of x.now) }
    ensures { IfOk result (λ all. all ≡ word_proc (around_of x.now) 0 start.now
        ∷ word_procs (around_of x.now) 0 x.now.layouts.now procs.now) }
{
    let mut all = Items::new(alloc);
    all.push(word_proc(alloc, x, 0, start)?)?;
    push_procs(alloc, &mut all, x, procs)?;
    Ok(all)
}

// What is around the start code.
fn start_scope<'a>(
    types: &'a TypeTable,
    texts: &'a LaidTexts<'a>,
    layouts: &'a [Layout],
    own: &'a Layout,
) -> Scope<'a>
    requires room { texts_at types.now own.now.free.datum ≤ 4294967295 }
    requires from { texts.now.from ≡ data_at + texts_at types.now own.now.free.datum }
    ensures { around_of result ≡ around_start types.now texts.now.procs layouts.now own.now }
{
    let ends = own.free.datum;
    let setting = Setting {
        start: true,
        ends,
        names: names_at(types, ends),
        texts: texts_at(types, ends),
        literals: 0,
    };
    Scope {
        types,
        texts,
        layouts,
        own,
        globals: &own.all,
        setting,
    }
}

// A number of procedures.
fn count_of(count: usize) -> Result<u32, Memory>
    ensures { IfOk result (λ n. n ≡ count) }
{
    if count > u32::MAX as usize {
        return Err(Memory);
    }
    Ok(count as u32)
}

// The hooks of types, behind so many procedures.
fn push_hooks(
    alloc: Global,
    all: &mut Items<WordProc>,
    types: &TypeTable,
    shallow: &[bool],
    count: usize,
) -> Result<(), Memory>
    requires forms { HaveForms types.now }
    requires marked { AreMarked types.now shallow.now }
    ensures { OnOk result (all.new ≡ all.old ++ procs_in types.now (proc_number count)) }
{
    let many = count_of(count)?;
    let first = proc_number(many)?;
    let hooks = lift(alloc, types, shallow)?;
    put_hooks(alloc, all, types, first, &hooks)
}

// The word code of block code whose procedures have these layouts.
fn words_of(
    alloc: Global,
    blocks: &Blocks,
    types: &TypeTable,
    shallow: &[bool],
    layouts: &[Layout],
) -> Result<WordCode, Memory>
    requires forms { HaveForms types.now }
    requires marked { AreMarked types.now shallow.now }
    requires layouts { layouts.now ≡ all_layouts types.now blocks.now.procs }
    requires some { 0 < length blocks.now.procs }
    requires may { may_lower types.now blocks.now ≡ true }
    ensures { IfOk result (λ code. LowersWithRuntime types.now blocks.now code) }
{
    memories();
    hook_procedures();
    hook_levels();
    arrays_are_short(types);
    elements_are_small(types)?;
    let _types = types.count();
    let procs = blocks.procs.as_slice();
    few_labels(procs)?;
    let Some(own) = layouts.last() else {
        unreachable!()
    };
    let Some(start) = procs.last() else {
        unreachable!()
    };
    let from = texts_address(types, own.free.datum)?;
    let out = laid_texts(alloc, from, procs)?;
    let statics = data(alloc, types, own.free.datum, out.bytes.as_slice())?;
    let bytes = statics.as_slice();
    are_bytes(bytes);
    let x = start_scope(types, &out.texts, layouts, own);
    let count = procs.len();
    let mut all = all_procs(alloc, &x, start, procs)?;
    push_hooks(alloc, &mut all, types, shallow, count)?;
    Ok(WordCode {
        procs: all,
        statics,
    })
}

/// The word code of block code, with the hooks of types that have no more levels than each type of a
/// program's places, as marks say. It calls routines by their numbers: it is to be joined with a
/// runtime.
pub fn words(
    alloc: Global,
    blocks: &Blocks,
    types: &TypeTable,
    shallow: &[bool],
) -> Result<WordCode, Memory>
    requires forms { HaveForms types.now }
    requires marked { AreMarked types.now shallow.now }
    requires some { 0 < length blocks.now.procs }
    requires may { may_lower types.now blocks.now ≡ true }
    ensures { IfOk result (λ code. LowersWithRuntime types.now blocks.now code) }
{
    let all = layouts(alloc, types, FIXED_BYTES, blocks.procs.as_slice())?;
    words_of(alloc, blocks, types, shallow, all.as_slice())
}
