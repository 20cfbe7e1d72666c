// Literals.
ghost use Rattle.std.specs.Prelude.{◌≡◌, List, Some, pos, IfOk, IfErr};
ghost use Rattle.arc_base.specs.declared.place.Stop.TheVariants as Stop;
ghost use Rattle.indent_scanner.specs.ByForm.{characters};
ghost use Rattle.nim_types.specs.Types.{Ty, Facts};
ghost use Rattle.nim_types.specs.Types as type;
ghost use Rattle.nim_program.specs.Program.{Number, Characters};
ghost use Rattle.nim_program.specs.Nodes.{literal};
ghost use Rattle.nim_program.specs.View.{expr_of};
ghost use Rattle.expr_rules.specs.Answers.{node};
ghost use Rattle.expr_parts.specs.View.{Under, KindsIn, number_of};

use crate::nodes::constant;
use crate::scope::Kinds;
use arc_base::{Place, Stop};
use indent_scanner::characters_of;
use nim_program::{Expr, Literal};
use nim_types::TypeTable;
use std::alloc::Global;

/// An int.
pub fn int_literal(types: &TypeTable, kinds: Kinds, number: u32, at: Place, value: i32) -> Expr
    requires { KindsIn types.now kinds }
    ensures expr { (ts : List Ty) (facts : Facts) → Under types.now ts facts
        → expr_of ts result ≡ literal (node number at) type.int (Number value) }
    ensures number { number_of result ≡ Some kinds.int }
{
    constant(number, at, kinds.int, Literal::Ordinal(value))
}

/// A char, by its value.
pub fn char_literal(types: &TypeTable, kinds: Kinds, number: u32, at: Place, value: u8) -> Expr
    requires { KindsIn types.now kinds }
    ensures expr { (ts : List Ty) (facts : Facts) → Under types.now ts facts
        → expr_of ts result ≡ literal (node number at) type.char (Number (pos value)) }
    ensures number { number_of result ≡ Some kinds.char }
{
    constant(number, at, kinds.char, Literal::Ordinal(value as i32))
}

/// A text, by the bytes that it is written with.
pub fn text_literal(
    alloc: Global,
    types: &TypeTable,
    kinds: Kinds,
    number: u32,
    at: Place,
    text: &[u8],
) -> Result<Expr, Stop>
    requires { KindsIn types.now kinds }
    ensures expr { IfOk result (λ e. (ts : List Ty) (facts : Facts) → Under types.now ts facts
        → expr_of ts e ≡ literal (node number at) type.text (Characters (characters text.now))) }
    ensures number { IfOk result (λ e. number_of e ≡ Some kinds.text) }
    ensures memory { IfErr result (λ stop. stop ≡ Stop.Memory) }
{
    let bytes = characters_of(alloc, text)?;
    Ok(constant(number, at, kinds.text, Literal::Text(bytes)))
}
