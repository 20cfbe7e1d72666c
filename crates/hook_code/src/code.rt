// The word code of each line of a hook.
ghost use Rattle.std.specs.Prelude.{◌≡◌, ◌==◌, ◌++◌, IfOk, OnOk};
ghost use Rattle.nim_program.specs.Sizes.{HaveForms};
ghost use Rattle.hook_lifting.specs.Lifted.{has_hooks};
ghost use Rattle.hook_code.specs.Emission.{Puts};
ghost use Rattle.hook_code.specs.HookCode.{cut_number, hook_index, number_at, hook_number, place, handle_got};
ghost use Rattle.hook_code.specs.HookCode.{handle_with};
ghost use Rattle.hook_code.specs.HookCode.{handle_put, element_of, bits, plain_hook, hook_called};
ghost use Rattle.hook_code.specs.HookCode.{taken, released, traded, turned, text_code};
ghost use Rattle.hook_code.specs.HookCode.{part_hook, flat_code, line_code, lines_code, body_code};

use crate::bytes::{bytes_at, element_bytes, part_at};
use crate::emit::{emit, load, store, sum};
use crate::numbers::{ADDRESS, HOOKS_EACH, ONE, OTHER, PLACES_BEHIND};
use arc_base::{Items, Memory};
use flat_code::Line;
use heap_memory::{RELEASE, SEQ_NEW, TEXT_COPY};
use hook_lifting::{Hook, LiftedLine};
use nim_types::{TypeId, TypeTable, WORD_BYTES};
use word_code::{COPY, Test, WordInstr, WordOperation};

/// The types of a table, the number of the first hook of all, and the type whose hook is written.
#[derive(Clone, Copy)]
pub struct Around<'a> {
    pub types: &'a TypeTable,
    pub first: u32,
    pub ty: TypeId,
}

// ---- numbers

fn hook_index(hook: Hook) -> u32
    ensures { result ≡ hook_index hook }
{
    match hook {
        Hook::Copies => 0,
        Hook::Assigns => 1,
        Hook::Sinks => 2,
        Hook::Ends => 3,
    }
}

/// The number of a procedure of a type.
pub fn number_at(first: u32, ty: TypeId, index: u32) -> Result<u32, Memory>
    ensures { IfOk result (λ n. n ≡ number_at first ty index) }
{
    if ty > u32::MAX / HOOKS_EACH {
        return Err(Memory);
    }
    sum(first, sum(HOOKS_EACH * ty, index)?)
}

/// The number of a hook.
pub fn hook_number(first: u32, hook: Hook, ty: TypeId) -> Result<u32, Memory>
    ensures { IfOk result (λ n. n ≡ hook_number first hook ty) }
{
    number_at(first, ty, hook_index(hook))
}

/// The number of what makes a sequence shorter.
pub fn cut_number(first: u32, ty: TypeId) -> Result<u32, Memory>
    ensures { IfOk result (λ n. n ≡ cut_number first ty) }
{
    number_at(first, ty, 4)
}

// ---- handles

// The variable with the place of a handle. (The variables of hooks are few.)
fn place(handle: u32) -> Result<u32, Memory>
    ensures { IfOk result (λ v. v ≡ place handle) }
{
    sum(handle, PLACES_BEHIND)
}

// A handle that stands at an address.
fn emit_got(code: &mut Items<WordInstr>, handle: u32, at: u32) -> Result<(), Memory>
    ensures { OnOk result (Puts code.old code.new (handle_got handle at)) }
{
    let lines = [
        load(handle, at),
        WordInstr::Sum {
            to: ADDRESS,
            from: at,
            value: 4,
        },
        load(place(handle)?, ADDRESS),
    ];
    emit(code, &lines)
}

// The place of a handle comes to an address, with a length.
fn emit_with(code: &mut Items<WordInstr>, at: u32, length: u32, handle: u32) -> Result<(), Memory>
    ensures { OnOk result (Puts code.old code.new (handle_with at length handle)) }
{
    let lines = [
        store(at, length),
        WordInstr::Sum {
            to: ADDRESS,
            from: at,
            value: 4,
        },
        store(ADDRESS, place(handle)?),
    ];
    emit(code, &lines)
}

// A handle comes to an address.
fn emit_put(code: &mut Items<WordInstr>, at: u32, handle: u32) -> Result<(), Memory>
    ensures { OnOk result (Puts code.old code.new (handle_put at handle)) }
{
    emit_with(code, at, handle, handle)
}

// The address of an element of so many bytes.
fn emit_element(
    code: &mut Items<WordInstr>,
    to: u32,
    start: u32,
    index: u32,
    bytes: u32,
) -> Result<(), Memory>
    ensures { OnOk result (Puts code.old code.new (element_of to start index bytes)) }
{
    let lines = [
        WordInstr::Constant {
            to: ADDRESS,
            value: bytes,
        },
        WordInstr::Compute {
            to: ADDRESS,
            operation: WordOperation::Multiply,
            left: index,
            right: ADDRESS,
        },
        WordInstr::Compute {
            to,
            operation: WordOperation::Add,
            left: start,
            right: ADDRESS,
        },
    ];
    emit(code, &lines)
}

// ---- parts

// Bytes come to an address from another one.
fn emit_bits(code: &mut Items<WordInstr>, bytes: u32, to: u32, from: u32) -> Result<(), Memory>
    ensures { OnOk result (Puts code.old code.new (bits (bytes == 4) bytes to from)) }
{
    if bytes == WORD_BYTES {
        return emit(code, &[load(ADDRESS, from), store(to, ADDRESS)]);
    }
    let lines = [
        WordInstr::Constant {
            to: ADDRESS,
            value: bytes,
        },
        WordInstr::Argument { index: 0, from: to },
        WordInstr::Argument { index: 1, from },
        WordInstr::Argument {
            index: 2,
            from: ADDRESS,
        },
        WordInstr::Call {
            to: ADDRESS,
            callee: COPY,
        },
    ];
    emit(code, &lines)
}

// What is done with what has no hooks.
fn emit_plain(
    code: &mut Items<WordInstr>,
    hook: Hook,
    bytes: u32,
    to: u32,
    from: u32,
) -> Result<(), Memory>
    ensures { OnOk result (Puts code.old code.new (plain_hook hook bytes to from)) }
{
    match hook {
        Hook::Ends => Ok(()),
        Hook::Copies | Hook::Assigns | Hook::Sinks => emit_bits(code, bytes, to, from),
    }
}

// A hook is called.
fn emit_called(code: &mut Items<WordInstr>, callee: u32, to: u32, from: u32) -> Result<(), Memory>
    ensures { OnOk result (Puts code.old code.new (hook_called callee to from)) }
{
    let lines = [
        WordInstr::Argument { index: 0, from: to },
        WordInstr::Argument { index: 1, from },
        WordInstr::Call {
            to: ADDRESS,
            callee,
        },
    ];
    emit(code, &lines)
}

// Whether a type has hooks. One beyond the table is int.
fn has_hooks(types: &TypeTable, ty: TypeId) -> bool
    requires { HaveForms types.now }
    ensures { result ≡ has_hooks types.now ty }
{
    ty < types.count() && types.is_hooked(ty)
}

// What is done with a part or an element.
fn emit_part(
    code: &mut Items<WordInstr>,
    x: &Around,
    hook: Hook,
    of: TypeId,
    to: u32,
    from: u32,
) -> Result<(), Memory>
    requires { HaveForms x.now.types.now }
    ensures { OnOk result (Puts code.old code.new
        (part_hook x.now.types.now x.now.first x.now.ty (has_hooks x.now.types.now of) hook of to from)) }
{
    if has_hooks(x.types, of) {
        emit_called(code, hook_number(x.first, hook, of)?, to, from)
    } else {
        emit_plain(code, hook, bytes_at(x.types, of)?, to, from)
    }
}

// ---- sequences

// A sequence gets a block.
fn emit_take(
    code: &mut Items<WordInstr>,
    to: u32,
    at: u32,
    long: u32,
    bytes: u32,
) -> Result<(), Memory>
    ensures { OnOk result (Puts code.old code.new (taken to at long bytes)) }
{
    let lines = [
        WordInstr::Argument { index: 0, from: at },
        WordInstr::Argument {
            index: 1,
            from: long,
        },
        WordInstr::Constant {
            to: ADDRESS,
            value: bytes,
        },
        WordInstr::Argument {
            index: 2,
            from: ADDRESS,
        },
        WordInstr::Call {
            to: place(to)?,
            callee: SEQ_NEW,
        },
        WordInstr::Copy { to, from: long },
    ];
    emit(code, &lines)
}

// The block of a handle is given back.
fn emit_released(code: &mut Items<WordInstr>, handle: u32) -> Result<(), Memory>
    ensures { OnOk result (Puts code.old code.new (released handle)) }
{
    let lines = [
        WordInstr::Argument {
            index: 0,
            from: place(handle)?,
        },
        WordInstr::Call {
            to: ADDRESS,
            callee: RELEASE,
        },
    ];
    emit(code, &lines)
}

// The handles at two addresses trade places.
fn emit_trade(code: &mut Items<WordInstr>, to: u32, from: u32) -> Result<(), Memory>
    ensures { OnOk result (Puts code.old code.new (traded to from)) }
{
    emit_got(code, ONE, to)?;
    emit_got(code, OTHER, from)?;
    emit_put(code, to, OTHER)?;
    emit_put(code, from, ONE)
}

// ---- lines

// A line that flat code has too.
fn emit_flat(code: &mut Items<WordInstr>, x: &Around, line: &Line) -> Result<(), Memory>
    requires { HaveForms x.now.types.now }
    ensures { OnOk result (Puts code.old code.new (flat_code x.now.types.now x.now.ty line.now)) }
{
    match line {
        Line::Part { to, from, field } => {
            let value = part_at(x.types, x.ty, *field)?;
            emit(
                code,
                &[WordInstr::Sum {
                    to: *to,
                    from: *from,
                    value,
                }],
            )
        }
        Line::Zero { to } => emit(code, &[WordInstr::Constant { to: *to, value: 0 }]),
        Line::Beyond {
            counter,
            last,
            inclusive: false,
            to,
        } => emit(code, &[branch(Test::NotBelow, *counter, *last, *to)]),
        Line::CountTurn {
            counter,
            last,
            inclusive: false,
            to,
        } => emit_turn(code, *counter, *last, *to),
        Line::Label { name } => emit(code, &[WordInstr::Label { name: *name }]),
        Line::Return { .. } => emit(code, &[WordInstr::Return { from: 0 }]),
        _ => Ok(()),
    }
}

fn branch(test: Test, left: u32, right: u32, to: u32) -> WordInstr
    ensures { result ≡ WordInstr.Branch test left right to }
{
    WordInstr::Branch {
        test,
        left,
        right,
        to,
    }
}

// The next turn of a loop, if there is one.
fn emit_turn(code: &mut Items<WordInstr>, counter: u32, last: u32, to: u32) -> Result<(), Memory>
    ensures { OnOk result (Puts code.old code.new (turned counter last to)) }
{
    let next = WordInstr::Sum {
        to: counter,
        from: counter,
        value: 1,
    };
    emit(code, &[next, branch(Test::Below, counter, last, to)])
}

// A line that reads or writes.
fn emit_line(code: &mut Items<WordInstr>, x: &Around, line: &LiftedLine) -> Result<(), Memory>
    requires { HaveForms x.now.types.now }
    ensures { OnOk result (Puts code.old code.new
        (line_code x.now.types.now x.now.first x.now.ty line.now)) }
{
    match line {
        LiftedLine::Plain(line) => emit_flat(code, x, line),
        LiftedLine::Hook { hook, ty, to, from } => emit_part(code, x, *hook, *ty, *to, *from),
        LiftedLine::Load { to, at } | LiftedLine::Pop { to, at } => emit_got(code, *to, *at),
        LiftedLine::Count { to, of } | LiftedLine::Copy { to, of } => {
            emit(code, &[WordInstr::Copy { to: *to, from: *of }])
        }
        LiftedLine::Number { to, number } => emit(
            code,
            &[WordInstr::Constant {
                to: *to,
                value: *number,
            }],
        ),
        LiftedLine::Element { to, of, index, .. } => {
            emit_element(
                code,
                *to,
                place(*of)?,
                *index,
                element_bytes(x.types, x.ty)?,
            )
        }
        LiftedLine::Member { to, at, index, .. } => {
            emit_element(code, *to, *at, *index, element_bytes(x.types, x.ty)?)
        }
        LiftedLine::Take { to, at, of, .. } => {
            emit_take(code, *to, *at, *of, element_bytes(x.types, x.ty)?)
        }
        LiftedLine::GiveBack { of, .. } => emit_released(code, *of),
        LiftedLine::Trade { to, from } => emit_trade(code, *to, *from),
        LiftedLine::Begin { to, .. } => emit(code, &[WordInstr::Place { to: *to, at: 0 }]),
        LiftedLine::Push { to, of } => {
            code.push(WordInstr::Place { to: *to, at: 0 })?;
            emit_put(code, *to, *of)
        }
        LiftedLine::Exchange { to, at, of } => {
            emit_got(code, *to, *at)?;
            emit_put(code, *at, *of)
        }
        LiftedLine::Shorten { at, of, count } => emit_with(code, *at, *count, *of),
        LiftedLine::Forget { .. } => Ok(()),
    }
}

/// The lines of a hook.
pub fn emit_lines(
    code: &mut Items<WordInstr>,
    x: &Around,
    lines: &[LiftedLine],
) -> Result<(), Memory>
    requires { HaveForms x.now.types.now }
    ensures { OnOk result (Puts code.old code.new
        (lines_code x.now.types.now x.now.first x.now.ty lines.now)) }
{
    for line in lines {
        emit_line(code, x, line)?;
    }
    Ok(())
}

// The hook of a text that is a routine.
fn emit_text(code: &mut Items<WordInstr>, hook: Hook) -> Result<(), Memory>
    ensures { OnOk result (Puts code.old code.new (text_code hook)) }
{
    match hook {
        Hook::Ends => {
            emit_got(code, ONE, 0)?;
            emit_released(code, ONE)
        }
        Hook::Copies | Hook::Assigns | Hook::Sinks => emit_called(code, TEXT_COPY, 0, 1),
    }
}

/// The lines of a hook, or of the routine that it is.
pub fn emit_body(
    code: &mut Items<WordInstr>,
    x: &Around,
    hook: Hook,
    lines: &[LiftedLine],
) -> Result<(), Memory>
    requires { HaveForms x.now.types.now }
    ensures { OnOk result (code.new ≡ code.old ++ body_code x.now.types.now x.now.first x.now.ty hook lines.now) }
{
    if lines.is_empty() {
        emit_text(code, hook)?;
        code.push(WordInstr::Return { from: 0 })?;
        Ok(())
    } else {
        emit_lines(code, x, lines)
    }
}
