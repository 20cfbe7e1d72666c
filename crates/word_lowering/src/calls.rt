// The word code of calls and returns.
ghost use Rattle.std.specs.Prelude.{◌≡◌, ◌≤◌, ◌∷◌, ◌+◌, ◌*◌, suc, IfSome, IfOk, OnOk};
ghost use Rattle.word_lowering.specs.Emission.{Puts};
ghost use Rattle.word_lowering.specs.LineCode.{proc_number, left_at, result_code, entered_code};
ghost use Rattle.word_lowering.specs.LineCode.{argument_code, arguments_code, operands, value};
ghost use Rattle.word_lowering.specs.LineCode.{checked_code, nothing_code, given_code};
ghost use Rattle.word_lowering.specs.LineCode.{call_code, back_code, return_code, exit_code};
ghost use Rattle.word_lowering.specs.Layouts.{params_in, BeginsBy, AllBeginBy};
ghost use Rattle.word_lowering.specs.LineCode.{layout_at};
ghost use Rattle.word_lowering.specs.Scope.{around_of, HasRoom};
ghost use Rattle.word_lowering.specs.declared.may_lower.TheConstants.{MOST_ROOM};
ghost use Rattle.word_lowering.specs.Spots.{spot_of};

use crate::homes::{FIRST, Home, Housed, LEFT, SECOND};
use crate::layouts::result_in;
use crate::locations::emit_word_argument;
use crate::operations::DEPTH;
use crate::scope::Scope;
use crate::spots::{
    Spot, address, argument, branch, call, constant, emit, emit_handed, emit_moved, home_in,
    load_sized, size_in, spot_of, sum, sum_with,
};
use arc_base::{Items, Memory};
use flat_code::From;
use nim_program::ACTIVE_CALLS;
use nim_types::TypeId;
use word_code::{PROCS_FROM, Test, WordInstr};

// What makes a word one less.
const ONE_LESS: u32 = u32::MAX;

/// The number of a procedure in word code.
pub fn proc_number(proc: u32) -> Result<u32, Memory>
    ensures { IfOk result (λ number. number ≡ proc_number proc) }
{
    sum(PROCS_FROM, proc)
}

// Where the places of a call behind so many bytes left something.
fn left_at(room: u32, home: Home) -> Home
    requires room { room ≤ MOST_ROOM }
    requires home { BeginsBy MOST_ROOM home }
    ensures { result ≡ left_at room home }
{
    match home {
        Home::Placed(at) => Home::Placed(at + room),
        _ => Home::Placed(room),
    }
}

// The result, where it is no word, is still where the call had it.
fn emit_result(
    code: &mut Items<WordInstr>,
    x: &Scope,
    to: Housed,
    own: Option<Housed>,
) -> Result<(), Memory>
    requires room { HasRoom (around_of x.now) }
    requires own { IfSome own (λ r. BeginsBy MOST_ROOM r.home) }
    ensures { OnOk result (Puts code.old code.new (result_code (around_of x.now) to own)) }
{
    match own {
        None => Ok(()),
        Some(r) => {
            let from = left_at(x.own.free.byte, r.home);
            emit_moved(code, r.is_word, r.bytes, spot_of(to), Spot::Lies(from))
        }
    }
}

// Calls a procedure whose arguments are given, with its result to a spot.
fn emit_entered(
    code: &mut Items<WordInstr>,
    x: &Scope,
    proc: u32,
    to: Housed,
    spot: Spot,
) -> Result<(), Memory>
    requires { HasRoom (around_of x.now) }
    ensures { OnOk result (Puts code.old code.new (entered_code (around_of x.now) proc to spot)) }
{
    let callee = proc_number(proc)?;
    match spot {
        Spot::Held(v) => emit(code, &[call(v, callee)]),
        _ => {
            emit(code, &[call(FIRST, callee)])?;
            emit_result(code, x, to, result_in(x.places_of(proc)))
        }
    }
}

fn emit_given(code: &mut Items<WordInstr>, x: &Scope, proc: u32, to: u32) -> Result<(), Memory>
    requires { HasRoom (around_of x.now) }
    ensures { OnOk result (Puts code.old code.new (given_code (around_of x.now) proc to)) }
{
    let place = x.value(to);
    emit_entered(code, x, proc, place, spot_of(place))
}

// What a procedure without lines gives.
fn emit_nothing(
    code: &mut Items<WordInstr>,
    x: &Scope,
    ty: Option<TypeId>,
    to: u32,
) -> Result<(), Memory>
    ensures { OnOk result (Puts code.old code.new (nothing_code (around_of x.now) ty to)) }
{
    match ty {
        None => Ok(()),
        Some(_) => emit(code, &[constant(x.held(to), 0)]),
    }
}

// An argument to its parameter, in code that may have a label of its own.
fn emit_argument(
    code: &mut Items<WordInstr>,
    x: &Scope,
    label: u32,
    param: Home,
    from: Housed,
) -> Result<(), Memory>
    requires room { HasRoom (around_of x.now) }
    requires param { BeginsBy MOST_ROOM param }
    ensures { OnOk result (Puts code.old code.new
        (argument_code (around_of x.now) label param from)) }
{
    match param {
        Home::Variable(v) => emit_word_argument(code, v, from.home),
        Home::Placed(at) => {
            let at = x.own.free.byte + at;
            emit(code, &[WordInstr::Place { to: FIRST, at }])?;
            emit_handed(code, label, from.bytes, spot_of(from))
        }
        Home::Static(_) => Ok(()),
    }
}

// The label for an argument that has so many behind it.
fn argument_label(label: u32, behind: usize) -> Result<u32, Memory>
    ensures { IfOk result (λ own. own ≡ label + 2 * suc behind) }
{
    if behind >= (u32::MAX / 2) as usize {
        return Err(Memory);
    }
    sum(label, 2 * (behind as u32 + 1))
}

fn emit_arguments(
    code: &mut Items<WordInstr>,
    x: &Scope,
    label: u32,
    params: &[Housed],
    from: &[From],
) -> Result<(), Memory>
    requires room { HasRoom (around_of x.now) }
    requires params { AllBeginBy MOST_ROOM params.now }
    ensures { OnOk result (Puts code.old code.new
        (arguments_code (around_of x.now) label params.now
        (operands (around_of x.now) from.now))) }
{
    let mut params = params;
    let mut left = from;
    while let Some((param, more)) = params.split_first() {
        let Some((operand, rest)) = left.split_first() else {
            break;
        };
        let own = argument_label(label, rest.len())?;
        emit_argument(code, x, own, param.home, x.operand(*operand))?;
        params = more;
        left = rest;
    }
    Ok(())
}

// How many calls may be active behind the new one, unless that is one too many.
fn emit_checked(code: &mut Items<WordInstr>, start: bool) -> Result<(), Memory>
    ensures { OnOk result (Puts code.old code.new (checked_code start)) }
{
    if start {
        return emit(code, &[constant(FIRST, ACTIVE_CALLS - 1)]);
    }
    emit(
        code,
        &[
            WordInstr::Copy {
                to: SECOND,
                from: LEFT,
            },
            sum_with(FIRST, SECOND, ONE_LESS),
            branch(Test::Below, SECOND, FIRST, DEPTH),
        ],
    )
}

// A call of a procedure with lines.
fn emit_running(
    code: &mut Items<WordInstr>,
    x: &Scope,
    label: u32,
    proc: u32,
    to: u32,
    from: &[From],
) -> Result<(), Memory>
    requires { HasRoom (around_of x.now) }
    ensures { OnOk result (Puts code.old code.new (λ k.
        arguments_code (around_of x.now) label (params_in (layout_at (around_of x.now) proc).all)
        (operands (around_of x.now) from.now)
        (checked_code x.now.setting.start (WordInstr.Argument LEFT FIRST
        ∷ given_code (around_of x.now) proc to k)))) }
{
    emit_arguments(code, x, label, x.params_of(proc), from)?;
    emit_checked(code, x.setting.start)?;
    emit(code, &[argument(LEFT, FIRST)])?;
    emit_given(code, x, proc, to)
}

// A call, unless it is one too many; with labels of its own.
fn emit_called(
    code: &mut Items<WordInstr>,
    x: &Scope,
    label: u32,
    proc: u32,
    ty: Option<TypeId>,
    to: u32,
    from: &[From],
) -> Result<(), Memory>
    requires { HasRoom (around_of x.now) }
    ensures { OnOk result (Puts code.old code.new
        (call_code (around_of x.now) label proc ty to from.now)) }
{
    if x.runs(proc) {
        return emit_running(code, x, label, proc, to, from);
    }
    emit_checked(code, x.setting.start)?;
    emit_nothing(code, x, ty, to)
}

/// A call, which spends a unit first.
pub fn emit_call(
    code: &mut Items<WordInstr>,
    x: &Scope,
    label: u32,
    proc: u32,
    ty: Option<TypeId>,
    to: u32,
    from: &[From],
) -> Result<(), Memory>
    requires { HasRoom (around_of x.now) }
    ensures { OnOk result (Puts code.old code.new
        (λ k. WordInstr.Spend ∷ call_code (around_of x.now) label proc ty to from.now k)) }
{
    emit(code, &[WordInstr::Spend])?;
    emit_called(code, x, label, proc, ty, to, from)
}

// Returns with a result.
fn emit_back(code: &mut Items<WordInstr>, is_word: bool, spot: Spot) -> Result<(), Memory>
    ensures { OnOk result (Puts code.old code.new (back_code is_word spot)) }
{
    match spot {
        Spot::Held(v) => emit(code, &[WordInstr::Return { from: v }]),
        _ if is_word => emit(
            code,
            &[
                address(FIRST, home_in(spot)),
                load_sized(FIRST, FIRST, size_in(spot)),
                WordInstr::Return { from: FIRST },
            ],
        ),
        _ => emit(code, &[WordInstr::Return { from: LEFT }]),
    }
}

/// Ends the program with status 0.
pub fn emit_exit(code: &mut Items<WordInstr>) -> Result<(), Memory>
    ensures { OnOk result (Puts code.old code.new exit_code) }
{
    emit(
        code,
        &[constant(FIRST, 0), WordInstr::Exit { status: FIRST }],
    )
}

/// Returns to the caller; the start code ends the program.
pub fn emit_return(code: &mut Items<WordInstr>, x: &Scope, place: Option<u32>) -> Result<(), Memory>
    ensures { OnOk result (Puts code.old code.new
        (return_code (around_of x.now) x.now.setting.start place)) }
{
    if x.setting.start {
        return emit_exit(code);
    }
    match place {
        None => emit(code, &[WordInstr::Return { from: LEFT }]),
        Some(p) => {
            let h = x.own_place(p);
            emit_back(code, h.is_word, spot_of(h))
        }
    }
}
