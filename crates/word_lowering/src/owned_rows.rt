// The word code of operations on texts and sequences alone.
ghost use Rattle.std.specs.Prelude.{OnOk, length, nat_lt, ◌≡◌};
ghost use Rattle.word_lowering.specs.Emission.{Puts};
ghost use Rattle.word_lowering.specs.LineCode.{operands};
ghost use Rattle.word_lowering.specs.OwnedCode.{owned_code};
ghost use Rattle.word_lowering.specs.Scope.{HasRoom, around_of};

use crate::homes::Housed;
use crate::scope::{Scope, variable_of};
use crate::sequence_rows::{emit_added, emit_new, emit_popped, emit_sequence, emit_sized, size_in};
use crate::text_handles::{first_type, second_type};
use crate::text_rows::{emit_appended, emit_joined, emit_read, emit_shown};
use arc_base::{Items, Memory};
use flat_code::From;
use nim_program::Operation;
use nim_types::TypeId;
use word_code::WordInstr;

/// Whether there are fewer operands than so many.
pub fn lacks(x: &Scope, from: &[From], n: usize) -> bool
    ensures { result ≡ nat_lt (length (operands (around_of x.now) from.now)) n }
{
    from.len() < n
}

/// An operation on texts and sequences alone.
pub fn emit_owned(
    code: &mut Items<WordInstr>,
    x: &Scope,
    label: u32,
    operation: Operation,
    of: &[Option<TypeId>],
    to: Housed,
    from: &[From],
) -> Result<(), Memory>
    requires { HasRoom (around_of x.now) }
    ensures { OnOk result (Puts code.old code.new (owned_code (around_of x.now) operation label
        of.now to (operands (around_of x.now) from.now))) }
{
    let (first, second) = (x.operand_at(from, 0), x.operand_at(from, 1));
    match operation {
        Operation::Join => emit_joined(code, x, lacks(x, from, 2), of, to, from),
        Operation::Show => emit_shown(code, x, lacks(x, from, 1), to.home, first_type(of), first),
        Operation::Sequence => {
            let size = size_in(x, to)?;
            emit_sequence(code, x, to.home, size, from)
        }
        Operation::NewSequence => {
            let size = size_in(x, to)?;
            emit_new(code, to.home, variable_of(first), size)
        }
        Operation::ReadLineInto => emit_read(code, variable_of(to), first.home),
        Operation::Add => {
            let size = size_in(x, first)?;
            emit_added(code, first.home, size, second)
        }
        Operation::Append => {
            let few = lacks(x, from, 2);
            emit_appended(code, x, few, label, first.home, second_type(of), second)
        }
        Operation::SetLength => {
            let (n, few) = (variable_of(second), lacks(x, from, 2));
            emit_sized(code, x, few, label, first.ty, first.home, n)
        }
        Operation::Pop => {
            let size = size_in(x, first)?;
            emit_popped(code, lacks(x, from, 1), to, first.home, size)
        }
        _ => Ok(()),
    }
}
