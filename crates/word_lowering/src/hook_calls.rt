// Calls of the hooks of types.
ghost use Rattle.std.specs.Prelude.{◌≡◌, length, OnOk, IfOk};
ghost use Rattle.word_lowering.specs.Emission.{Puts};
ghost use Rattle.word_lowering.specs.LineCode.{ends_code, got_code, hook_code, is_copied};
ghost use Rattle.word_lowering.specs.LineCode.{proc_number, taking, waiter_ends_code};
ghost use Rattle.word_lowering.specs.Scope.{around_of};

use crate::calls::proc_number;
use crate::homes::{FIRST, Home, Housed, SECOND, Waiter};
use crate::scope::Scope;
use crate::spots::{address, argument, branch, call, constant, emit, emit_clears, emit_moves};
use arc_base::{Items, Memory};
use flat_code::From;
use hook_code::hook_number;
use hook_lifting::Hook;
use nim_program::Use;
use nim_types::TypeId;
use word_code::{Test, WordInstr};

// The number of the first one.
fn first_hook(x: &Scope) -> Result<u32, Memory>
    ensures { IfOk result (λ n. n ≡ proc_number (length (around_of x.now).layouts)) }
{
    let procs = x.layouts.len();
    if procs > u32::MAX as usize {
        return Err(Memory);
    }
    proc_number(procs as u32)
}

/// The call of a type's hook, from one home to another.
pub fn emit_hook(
    code: &mut Items<WordInstr>,
    x: &Scope,
    hook: Hook,
    ty: TypeId,
    to: Home,
    from: Home,
) -> Result<(), Memory>
    ensures { OnOk result (Puts code.old code.new (hook_code (around_of x.now) hook ty to from)) }
{
    let number = hook_number(first_hook(x)?, hook, ty)?;
    emit(
        code,
        &[
            address(FIRST, to),
            address(SECOND, from),
            argument(0, FIRST),
            argument(1, SECOND),
            call(FIRST, number),
        ],
    )
}

/// Whether what has hooks is copied where it is found.
pub fn is_copied(how: Use) -> bool
    ensures { result ≡ is_copied how }
{
    match how {
        Use::Looked => false,
        _ => true,
    }
}

/// A copy of what is found, by a hook, or what is looked at of it: a blank, or its bits.
pub fn emit_got(
    code: &mut Items<WordInstr>,
    x: &Scope,
    copied: bool,
    blank: bool,
    ty: Option<TypeId>,
    to: Housed,
    from: Housed,
) -> Result<(), Memory>
    ensures { OnOk result (Puts code.old code.new (got_code (around_of x.now) copied blank ty to from)) }
{
    match ty {
        Some(ty) if copied => emit_hook(code, x, Hook::Copies, ty, to.home, from.home),
        _ => {
            if blank {
                emit_clears(code, to)
            } else {
                emit_moves(code, to, from)
            }
        }
    }
}

/// The hook by which a place gets an operand.
pub fn taking(from: &[From], index: usize) -> Hook
    ensures { result ≡ taking from.now index }
{
    match from.get(index) {
        Some(From::Value(_)) => Hook::Sinks,
        Some(From::Place(_)) => Hook::Assigns,
        None => Hook::Assigns,
    }
}

/// What a place holds ends, unless it stands for another one.
pub fn emit_ends(
    code: &mut Items<WordInstr>,
    x: &Scope,
    stands: bool,
    ty: TypeId,
    home: Home,
) -> Result<(), Memory>
    ensures { OnOk result (Puts code.old code.new (ends_code (around_of x.now) stands ty home)) }
{
    if stands {
        return Ok(());
    }
    emit_hook(code, x, Hook::Ends, ty, home, home)
}

/// What waits ends, if anything does.
pub fn emit_waiter_ends(
    code: &mut Items<WordInstr>,
    x: &Scope,
    label: u32,
    ty: TypeId,
    there: Option<Waiter>,
) -> Result<(), Memory>
    ensures { OnOk result (Puts code.old code.new
        (waiter_ends_code (around_of x.now) label ty there)) }
{
    let Some(w) = there else {
        return Ok(());
    };
    let home = Home::Placed(w.at);
    emit(
        code,
        &[
            constant(FIRST, 0),
            branch(Test::Equal, w.variable, FIRST, label),
        ],
    )?;
    emit_hook(code, x, Hook::Ends, ty, home, home)?;
    emit(
        code,
        &[WordInstr::Label { name: label }, constant(w.variable, 0)],
    )
}
