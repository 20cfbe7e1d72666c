// Literals and names that were typed.
ghost use Rattle.std.specs.Prelude.{suc, pos, List, length, IfOk};
ghost use Rattle.arc_base.specs.Refusal.{Answers};
ghost use Rattle.indent_scanner.specs.ByForm.{characters};
ghost use Rattle.nim_types.specs.Types.{Ty, Facts};
ghost use Rattle.nim_types.specs.Types as type;
ghost use Rattle.nim_program.specs.Nodes.{literal};
ghost use Rattle.nim_program.specs.Program.{Number, Characters};
ghost use Rattle.expr_rules.specs.Answers.{gives, node};
ghost use Rattle.expr_rules.specs.Names.{named_value};
ghost use Rattle.expr_parts.specs.View.{Under, env_of, typed_of};
ghost use Rattle.expr_parts.specs.ViewReady.{IsReady};
ghost use Rattle.expr_steps.specs.ViewTyping.{TypedWithin};

use crate::given::single;
use arc_base::{Place, Stop};
use expr_parts::constants::named_value;
use expr_parts::literals::{char_literal, int_literal, text_literal};
use expr_parts::scope::Scope;
use expr_parts::value::Typed;
use nim_types::TypeTable;
use std::alloc::Global;

pub fn int_of(
    types: &TypeTable,
    scope: &Scope,
    number: u32,
    at: Place,
    value: i32,
) -> Result<Typed, Stop>
    requires ready { IsReady types.now scope.now }
    ensures answers { (ts : List Ty) (facts : Facts) → Under types.now ts facts
        → Answers (typed_of ts) (gives (literal (node number at) type.int (Number value))
        (suc number))
        result }
    ensures within { IfOk result (λ t. TypedWithin (length types.now) t) }
{
    single(number, int_literal(types, scope.kinds, number, at, value))
}

/// By its value.
pub fn char_of(
    types: &TypeTable,
    scope: &Scope,
    number: u32,
    at: Place,
    value: u8,
) -> Result<Typed, Stop>
    requires ready { IsReady types.now scope.now }
    ensures answers { (ts : List Ty) (facts : Facts) → Under types.now ts facts
        → Answers (typed_of ts) (gives (literal (node number at) type.char
        (Number (pos value))) (suc number)) result }
    ensures within { IfOk result (λ t. TypedWithin (length types.now) t) }
{
    single(number, char_literal(types, scope.kinds, number, at, value))
}

/// By the bytes that it is written with.
pub fn text_of(
    alloc: Global,
    types: &TypeTable,
    scope: &Scope,
    number: u32,
    at: Place,
    text: &[u8],
) -> Result<Typed, Stop>
    requires ready { IsReady types.now scope.now }
    ensures answers { (ts : List Ty) (facts : Facts) → Under types.now ts facts
        → Answers (typed_of ts) (gives (literal (node number at) type.text
        (Characters (characters text.now))) (suc number)) result }
    ensures within { IfOk result (λ t. TypedWithin (length types.now) t) }
{
    let expr = text_literal(alloc, types, scope.kinds, number, at, text)?;
    single(number, expr)
}

/// By the bytes that it is written with.
pub fn name_of(
    alloc: Global,
    types: &TypeTable,
    scope: &Scope,
    number: u32,
    at: Place,
    text: &[u8],
) -> Result<Typed, Stop>
    requires ready { IsReady types.now scope.now }
    ensures answers { (ts : List Ty) (facts : Facts) → Under types.now ts facts
        → Answers (typed_of ts) (named_value (env_of ts facts scope.now) number at text.now)
        result }
    ensures within { IfOk result (λ t. TypedWithin (length types.now) t) }
{
    match named_value(alloc, scope, number, at, text) {
        Ok(expr) => single(number, expr),
        Err(stop) => Err(stop),
    }
}
