// Hooks as procedures of word code.
ghost use Rattle.std.specs.Prelude.{◌≡◌, ◌++◌, IfOk, OnOk};
ghost use Rattle.nim_program.specs.Sizes.{HaveForms};
ghost use Rattle.hook_code.specs.HookCode.{proc_with, hook_proc, cut_proc, hook_procs, cut_procs};

use crate::code::{Around, emit_body, emit_lines, hook_number, number_at};
use crate::numbers::{COUNT, HOOK_VARIABLES};
use arc_base::{Items, Memory};
use hook_lifting::{Cut, Hooks, Lifted};
use nim_types::{LIST_BYTES, TypeTable};
use std::alloc::Global;
use word_code::{ProcKind, WordInstr, WordProc};

fn proc_with(number: u32, lines: Items<WordInstr>) -> WordProc
    ensures { result ≡ proc_with number lines }
{
    WordProc {
        number,
        kind: ProcKind::Uncounted,
        params: 2,
        vars: HOOK_VARIABLES,
        room: LIST_BYTES,
        data_from: 0,
        lines,
    }
}

fn hook_proc(
    alloc: Global,
    types: &TypeTable,
    first: u32,
    hook: &Lifted,
) -> Result<WordProc, Memory>
    requires { HaveForms types.now }
    ensures { IfOk result (λ p. p ≡ hook_proc types.now first hook.now) }
{
    let x = Around {
        types,
        first,
        ty: hook.ty,
    };
    let number = hook_number(first, hook.hook, hook.ty)?;
    let mut code = Items::new(alloc);
    emit_body(&mut code, &x, hook.hook, hook.lines.as_slice())?;
    Ok(proc_with(number, code))
}

fn cut_proc(alloc: Global, types: &TypeTable, first: u32, cut: &Cut) -> Result<WordProc, Memory>
    requires { HaveForms types.now }
    ensures { IfOk result (λ p. p ≡ cut_proc types.now first cut.now) }
{
    let x = Around {
        types,
        first,
        ty: cut.ty,
    };
    let number = number_at(first, cut.ty, 4)?;
    let mut code = Items::new(alloc);
    code.push(WordInstr::Copy { to: COUNT, from: 1 })?;
    emit_lines(&mut code, &x, cut.lines.as_slice())?;
    Ok(proc_with(number, code))
}

fn push_hooks(
    alloc: Global,
    all: &mut Items<WordProc>,
    types: &TypeTable,
    first: u32,
    hooks: &[Lifted],
) -> Result<(), Memory>
    requires { HaveForms types.now }
    ensures { OnOk result (all.new ≡ all.old ++ hook_procs types.now first hooks.now) }
{
    for hook in hooks {
        all.push(hook_proc(alloc, types, first, hook)?)?;
    }
    Ok(())
}

fn push_cuts(
    alloc: Global,
    all: &mut Items<WordProc>,
    types: &TypeTable,
    first: u32,
    cuts: &[Cut],
) -> Result<(), Memory>
    requires { HaveForms types.now }
    ensures { OnOk result (all.new ≡ all.old ++ cut_procs types.now first cuts.now) }
{
    for cut in cuts {
        all.push(cut_proc(alloc, types, first, cut)?)?;
    }
    Ok(())
}

/// Adds the hooks of a table of types as procedures of word code, whose numbers begin with `first`.
/// Each is called with two addresses, and does from one to the other what its lines do; the last ones,
/// with an address and a number of elements. They call the routines of the heap. Each type has a form.
pub fn put_hooks(
    alloc: Global,
    all: &mut Items<WordProc>,
    types: &TypeTable,
    first: u32,
    hooks: &Hooks,
) -> Result<(), Memory>
    requires { HaveForms types.now }
    ensures { OnOk result (all.new ≡ all.old ++ (hook_procs types.now first hooks.now.of
        ++ cut_procs types.now first hooks.now.cuts)) }
{
    push_hooks(alloc, all, types, first, hooks.of.as_slice())?;
    push_cuts(alloc, all, types, first, hooks.cuts.as_slice())
}
