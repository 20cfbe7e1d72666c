// The code of a machine, decoded ahead of its run.
ghost use Rattle.std.specs.Prelude.{◌≡◌, IfOk, IfSome, length};
ghost use Rattle.rv32_isa.specs.Table.{IsOf, AreDecoded};

use crate::act::number;
use crate::instr::{Instr, decode};
use crate::micro_op::Size;
use arc_base::Memory;
use std::alloc::Global;

// An instruction of the code, and its word.
#[derive(Clone, Copy)]
pub(crate) struct Decoded {
    pub(crate) instr: Instr,
    pub(crate) word: u32,
}

// The instruction of four bytes, if their word is one.
fn instr_of(bytes: &[u8]) -> Option<Decoded>
    requires { length bytes.now ≡ 4 }
    ensures { IfSome result (λ d. IsOf bytes.now d) }
{
    let word = number(bytes, Size::Word);
    match decode(word) {
        Some(instr) => Some(Decoded { instr, word }),
        None => None,
    }
}

// The instructions of the code, one after another.
pub(crate) fn table_of(alloc: Global, code: &[u8]) -> Result<Vec<Option<Decoded>>, Memory>
    ensures { IfOk result (λ table. AreDecoded code.now table.items) }
{
    let count = code.len() / 4;
    let mut table = Vec::with_capacity(alloc, count)?;
    while table.len() < count {
        let at = 4 * table.len();
        table.push(instr_of(&code[at..at + 4]))?;
    }
    Ok(table)
}
