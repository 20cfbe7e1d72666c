// The word code of each line.
ghost use Rattle.std.specs.Prelude.{◌≡◌, ◌&&◌, ◌∷◌, map, OnOk};
ghost use Rattle.nim_program.specs.Traps.{LengthChanged};
ghost use Rattle.flat_code.specs.Codes.{block_plain, owned_plain};
ghost use Rattle.word_lowering.specs.Emission.{Puts};
ghost use Rattle.word_lowering.specs.LineCode.{part_code, item_at, item_in, element_at, element_in};
ghost use Rattle.word_lowering.specs.LineCode.{value, own_place, location, held, led, measure_code, entry_from};
ghost use Rattle.word_lowering.specs.LineCode.{operands, row_code, line_code, lines_code, labels_in};
ghost use Rattle.word_lowering.specs.LineCode.{applied_code, assigned_code, got_code, is_copied, is_seen_blank};
ghost use Rattle.word_lowering.specs.LineCode.{standing_at, behind_line, place, own_alias, root_code};
ghost use Rattle.word_lowering.specs.Operations.{trap_label};
ghost use Rattle.word_lowering.specs.Scope.{around_of, HasRoom};
ghost use Rattle.word_lowering.specs.OwnedCode.{has_handle, type_of};
ghost use Rattle.word_lowering.specs.Spots.{moves};
ghost use Rattle.word_lowering.specs.Stored.{part_at, HaveForms};
ghost use Rattle.word_lowering.specs.WaitingCode.{gives_hooked};

use crate::calls::{emit_call, emit_return};
use crate::control::emit_control;
use crate::homes::{FIFTH, FIRST, Home, Housed};
use crate::hook_calls::{emit_got, emit_hook, is_copied, taking};
use crate::kept::{emit_behind_line, emit_owning, gives_hooked};
use crate::locations::{
    emit_element, emit_item, emit_owned_element, emit_owned_item, emit_part, emit_root,
};
use crate::operations::LENGTH;
use crate::rows::{emit_measure, emit_row, has_handle, is_text};
use crate::scope::{Scope, label_before, labels_in, labels_of};
use crate::sequence_rows::{emit_element_read, size_in};
use crate::spots::{address, branch, constant, emit, emit_clears, emit_moves, emit_passes};
use crate::stored::{count_in, element_bytes, part_at};
use crate::values::{emit_constant, emit_construct, truth_word};
use arc_base::{Items, Memory};
use flat_code::{BlockLine, From, Line, OwnedLine, Piece, UseAt};
use nim_program::{Measure, Operation, Use};
use nim_types::TypeId;
use word_code::{Test, WordInstr};

// An operation on its operands.
fn emit_apply(
    code: &mut Items<WordInstr>,
    x: &Scope,
    label: u32,
    to: u32,
    operation: Operation,
    ty: Option<TypeId>,
    of: &[Option<TypeId>],
    from: &[From],
) -> Result<(), Memory>
    requires { HasRoom (around_of x.now) }
    ensures { OnOk result (Puts code.old code.new (row_code (around_of x.now) operation label ty
        of.now (value (around_of x.now) to) (operands (around_of x.now) from.now))) }
{
    let there = x.value(to);
    emit_row(code, x, label, operation, ty, of, there, from)
}

fn first_type(of: &[Option<TypeId>]) -> Option<TypeId>
    ensures { result ≡ type_of of.now 0 }
{
    match of.first() {
        Some(ty) => *ty,
        None => None,
    }
}

// An assignment, by a hook or by a row.
fn emit_assign(
    code: &mut Items<WordInstr>,
    x: &Scope,
    label: u32,
    to: u32,
    ty: Option<TypeId>,
    of: &[Option<TypeId>],
    from: &[From],
) -> Result<(), Memory>
    requires { HasRoom (around_of x.now) }
    ensures { OnOk result (Puts code.old code.new (assigned_code (around_of x.now)
        (gives_hooked x.now.types.now (type_of of.now 0))
        (row_code (around_of x.now) Operation.Assign label ty of.now (value (around_of x.now) to)
        (operands (around_of x.now) from.now)) (type_of of.now 0) from.now)) }
{
    let assigned = first_type(of);
    let hooked = gives_hooked(x.types, assigned);
    match assigned {
        Some(ty) if hooked => {
            let (place, value) = (x.operand_at(from, 0), x.operand_at(from, 1));
            emit_hook(code, x, taking(from, 1), ty, place.home, value.home)
        }
        _ => emit_apply(code, x, label, to, Operation::Assign, ty, of, from),
    }
}

fn emit_applied(
    code: &mut Items<WordInstr>,
    x: &Scope,
    label: u32,
    to: u32,
    operation: Operation,
    ty: Option<TypeId>,
    of: &[Option<TypeId>],
    from: &[From],
) -> Result<(), Memory>
    requires { HasRoom (around_of x.now) }
    ensures { OnOk result (Puts code.old code.new (applied_code (around_of x.now) operation label to
        ty of.now from.now)) }
{
    match operation {
        Operation::Assign => emit_assign(code, x, label, to, ty, of, from),
        _ => emit_apply(code, x, label, to, operation, ty, of, from),
    }
}

// The location of a part.
fn emit_part_at(
    code: &mut Items<WordInstr>,
    x: &Scope,
    to: u32,
    from: u32,
    field: u32,
) -> Result<(), Memory>
    requires { HaveForms x.now.types.now }
    ensures { OnOk result (Puts code.old code.new (part_code (led (around_of x.now) to)
        (location (around_of x.now) from).home
        (part_at x.now.types.now (location (around_of x.now) from).ty field))) }
{
    let whole = x.location(from);
    let at = part_at(x.types, whole.ty, field)?;
    emit_part(code, x.led(to), whole.home, at)
}

// The address of an element, of an array or of what has a handle.
fn emit_item_in(
    code: &mut Items<WordInstr>,
    x: &Scope,
    handle: bool,
    to: u32,
    from: Housed,
    index: u32,
) -> Result<(), Memory>
    requires { HasRoom (around_of x.now) }
    ensures { OnOk result (Puts code.old code.new (item_in (around_of x.now) handle to from index)) }
{
    if handle {
        let size = size_in(x, from)?;
        return emit_owned_item(code, to, from.home, index, size);
    }
    let bytes = element_bytes(x.types, from.ty)?;
    emit_item(
        code,
        to,
        from.home,
        index,
        count_in(x.types, from.ty),
        bytes,
    )
}

// The location of an element.
fn emit_item_at(
    code: &mut Items<WordInstr>,
    x: &Scope,
    to: u32,
    from: u32,
    index: u32,
) -> Result<(), Memory>
    requires { HasRoom (around_of x.now) }
    ensures { OnOk result (Puts code.old code.new (item_at (around_of x.now)
        (has_handle (entry_from (around_of x.now) from)) to from index)) }
{
    let handle = has_handle(x.types, x.location(from).ty);
    emit_item_in(code, x, handle, x.led(to), x.location(from), x.held(index))
}

// The value of an element, of an array or of what has a handle.
fn emit_element_in(
    code: &mut Items<WordInstr>,
    x: &Scope,
    handle: bool,
    from: Housed,
    index: u32,
    to: Housed,
) -> Result<(), Memory>
    requires { HasRoom (around_of x.now) }
    ensures { OnOk result (Puts code.old code.new
        (element_in (around_of x.now) handle from index to)) }
{
    if handle {
        let size = size_in(x, from)?;
        emit_owned_element(code, FIFTH, from.home, index, size)?;
        return emit_element_read(code, is_text(x.types, Some(from.ty)), to);
    }
    let bytes = element_bytes(x.types, from.ty)?;
    emit_element(code, FIFTH, from.home, index, bytes)?;
    emit_element_read(code, false, to)
}

fn emit_element_of(
    code: &mut Items<WordInstr>,
    x: &Scope,
    to: u32,
    from: u32,
    index: u32,
) -> Result<(), Memory>
    requires { HasRoom (around_of x.now) }
    ensures { OnOk result (Puts code.old code.new (element_at (around_of x.now)
        (has_handle (entry_from (around_of x.now) from)) from index (value (around_of x.now) to))) }
{
    let handle = has_handle(x.types, x.location(from).ty);
    emit_element_in(
        code,
        x,
        handle,
        x.location(from),
        x.held(index),
        x.value(to),
    )
}

// How many elements stand at a location.
fn emit_length(code: &mut Items<WordInstr>, x: &Scope, to: u32, from: u32) -> Result<(), Memory>
    ensures { OnOk result (Puts code.old code.new (measure_code (around_of x.now)
        (has_handle (entry_from (around_of x.now) from)) Measure.Len (held (around_of x.now) to)
        (location (around_of x.now) from))) }
{
    emit_measure(code, x, Measure::Len, x.held(to), x.location(from))
}

// So many elements stand at a location still.
fn emit_still(code: &mut Items<WordInstr>, x: &Scope, from: u32, length: u32) -> Result<(), Memory>
    ensures { OnOk result (Puts code.old code.new (λ k. measure_code (around_of x.now)
        (has_handle (entry_from (around_of x.now) from)) Measure.Len FIRST
        (location (around_of x.now) from) (WordInstr.Branch Test.Unequal
        (held (around_of x.now) length) FIRST (trap_label LengthChanged) ∷ k))) }
{
    emit_measure(code, x, Measure::Len, FIRST, x.location(from))?;
    emit(
        code,
        &[branch(Test::Unequal, x.held(length), FIRST, LENGTH)],
    )
}

// The address of a constant that stands in the data.
fn emit_standing(
    code: &mut Items<WordInstr>,
    x: &Scope,
    to: u32,
    pieces: &[Piece],
) -> Result<(), Memory>
    requires { HasRoom (around_of x.now) }
    ensures { OnOk result (Puts code.old code.new
        (λ k. WordInstr.Datum (led (around_of x.now) to) (standing_at (around_of x.now) pieces.now) ∷ k)) }
{
    let at = x.standing_at(pieces)?;
    emit(code, &[address(x.led(to), Home::Static(at))])
}

// The bits of what is found.
fn emit_looked(code: &mut Items<WordInstr>, x: &Scope, to: u32, from: u32) -> Result<(), Memory>
    ensures { OnOk result (Puts code.old code.new
        (moves (value (around_of x.now) to) (location (around_of x.now) from))) }
{
    emit_moves(code, x.value(to), x.location(from))
}

// Whether what is found is copied by a hook.
fn gets_copy(x: &Scope, ty: Option<TypeId>, how: Use) -> bool
    requires { HasRoom (around_of x.now) }
    ensures { result ≡ (gives_hooked x.now.types.now ty && is_copied how) }
{
    gives_hooked(x.types, ty) && is_copied(how)
}

// Whether what is looked at is a blank.
fn is_seen_blank(x: &Scope, ty: Option<TypeId>) -> bool
    requires { HasRoom (around_of x.now) }
    ensures { result ≡ is_seen_blank (around_of x.now) ty }
{
    gives_hooked(x.types, ty) && !is_text(x.types, ty)
}

// A copy of what is found, as its use asks.
fn emit_got_for(
    code: &mut Items<WordInstr>,
    x: &Scope,
    to: u32,
    from: u32,
    how: UseAt,
    ty: Option<TypeId>,
) -> Result<(), Memory>
    requires { HasRoom (around_of x.now) }
    ensures { OnOk result (Puts code.old code.new (got_code (around_of x.now)
        (gives_hooked x.now.types.now ty && is_copied how.how) (is_seen_blank (around_of x.now) ty) ty
        (value (around_of x.now) to) (location (around_of x.now) from))) }
{
    let copied = gets_copy(x, ty, how.how);
    let blank = is_seen_blank(x, ty);
    emit_got(code, x, copied, blank, ty, x.value(to), x.location(from))
}

// A location of a place.
fn emit_root_at(
    code: &mut Items<WordInstr>,
    x: &Scope,
    to: u32,
    number: u32,
    global: bool,
) -> Result<(), Memory>
    ensures { OnOk result (Puts code.old code.new (root_code (own_alias (around_of x.now) to)
        (led (around_of x.now) to) (place (around_of x.now) number global).home)) }
{
    emit_root(
        code,
        x.own_alias(to),
        x.led(to),
        x.place(number, global).home,
    )
}

// A declared place gets a value.
fn emit_put(code: &mut Items<WordInstr>, x: &Scope, place: u32, from: u32) -> Result<(), Memory>
    ensures { OnOk result (Puts code.old code.new
        (moves (own_place (around_of x.now) place) (value (around_of x.now) from))) }
{
    emit_moves(code, x.own_place(place), x.value(from))
}

// The code of a line with a label of its own. Another name for a value needs none, and what stands
// behind a ref has none yet.
fn emit_line(code: &mut Items<WordInstr>, x: &Scope, line: &Line, label: u32) -> Result<(), Memory>
    requires { HasRoom (around_of x.now) }
    ensures { OnOk result (Puts code.old code.new (line_code (around_of x.now) line.now label)) }
{
    match line {
        Line::Apply {
            to,
            operation,
            ty,
            of,
            from,
            ..
        } => {
            let (tys, operands) = (of.as_slice(), from.as_slice());
            emit_applied(code, x, label, *to, *operation, *ty, tys, operands)
        }
        Line::Construct {
            to,
            ty,
            fields,
            from,
            ..
        } => emit_construct(code, x, *to, *ty, fields.as_slice(), from.as_slice()),
        Line::Constant {
            to,
            how,
            ty,
            pieces,
        } => emit_constant(code, x, how.how, *ty, x.value(*to), pieces.as_slice()),
        Line::Call {
            to,
            ty,
            proc,
            from,
            ..
        } => emit_call(code, x, label, *proc, *ty, *to, from.as_slice()),
        Line::Get { to, from, how, ty } => emit_got_for(code, x, *to, *from, *how, *ty),
        Line::Look { to, from } => emit_looked(code, x, *to, *from),
        Line::Standing { to, pieces, .. } => emit_standing(code, x, *to, pieces.as_slice()),
        Line::Own { what, from } => emit_owning(code, x, *what, from.as_slice(), label),
        Line::Root { to, place, global } => emit_root_at(code, x, *to, *place, *global),
        Line::Part { to, from, field } => emit_part_at(code, x, *to, *from, *field),
        Line::Item { to, from, index } => emit_item_at(code, x, *to, *from, *index),
        Line::Pass { to, from, .. } => emit_passes(code, x.value(*to), x.value(*from)),
        Line::Truth { to, value } => emit(code, &[constant(x.held(*to), truth_word(*value))]),
        Line::Fill { place, from } => emit_put(code, x, *place, *from),
        Line::Give { place, from } => emit_put(code, x, *place, *from),
        Line::Blank { place, .. } => emit_clears(code, x.own_place(*place)),
        Line::Zero { to } => emit(code, &[constant(x.held(*to), 0)]),
        Line::Length { to, from } => emit_length(code, x, *to, *from),
        Line::Still { from, length } => emit_still(code, x, *from, *length),
        Line::Element { to, from, index } => emit_element_of(code, x, *to, *from, *index),
        Line::Return { result } => emit_return(code, x, *result),
        Line::Fresh { .. } | Line::Object { .. } => Ok(()),
        _ => emit_control(code, x, line, label),
    }
}

fn emit_owned_line(
    code: &mut Items<WordInstr>,
    x: &Scope,
    line: &OwnedLine,
    label: u32,
) -> Result<(), Memory>
    requires { HasRoom (around_of x.now) }
    ensures { OnOk result (Puts code.old code.new
        (line_code (around_of x.now) (owned_plain line.now) label)) }
{
    match line {
        OwnedLine::Plain(line) => emit_line(code, x, line, label),
        OwnedLine::Take {
            to,
            from,
            how,
            ty,
            ..
        } => emit_got_for(code, x, *to, *from, *how, *ty),
    }
}

fn emit_block_line(
    code: &mut Items<WordInstr>,
    x: &Scope,
    line: &BlockLine,
    label: u32,
) -> Result<(), Memory>
    requires { HasRoom (around_of x.now) }
    ensures { OnOk result (Puts code.old code.new
        (line_code (around_of x.now) (block_plain line.now) label)) }
{
    match line {
        BlockLine::Plain(line) => emit_owned_line(code, x, line, label),
    }
}

// With what stands behind it.
fn emit_next_line(
    code: &mut Items<WordInstr>,
    x: &Scope,
    line: &BlockLine,
    label: u32,
) -> Result<(), Memory>
    requires { HasRoom (around_of x.now) }
    ensures { OnOk result (Puts code.old code.new
        (λ k. line_code (around_of x.now) (block_plain line.now) label
        (behind_line (around_of x.now) (block_plain line.now) k))) }
{
    emit_block_line(code, x, line, label)?;
    emit_behind_line(code, x, line)
}

/// The code of lines.
pub fn emit_lines(code: &mut Items<WordInstr>, x: &Scope, lines: &[BlockLine]) -> Result<(), Memory>
    requires { HasRoom (around_of x.now) }
    ensures { OnOk result (Puts code.old code.new
        (lines_code (around_of x.now) (map block_plain lines.now))) }
{
    let mut left = lines;
    let mut labels = labels_in(lines)?;
    while let Some((line, rest)) = left.split_first() {
        labels = labels.saturating_sub(labels_of(line)?);
        emit_next_line(code, x, line, label_before(labels)?)?;
        left = rest;
    }
    Ok(())
}
