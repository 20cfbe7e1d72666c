// Calls.
ghost use Rattle.std.specs.Prelude.{◌≡◌, false};
ghost use Rattle.arc_base.specs.declared.place.Code.TheVariants.{NotTyped};
ghost use Rattle.arc_base.specs.declared.place.Stop.TheVariants as Stop;
ghost use Rattle.arc_base.specs.declared.place.Place.{Place};
ghost use Rattle.nim_tree.specs.Terms as term;
ghost use Rattle.nim_tree.specs.Terms.{term_of, parts_of, part, no_parts, Parts};
ghost use Rattle.expr_rules.specs.Names.{is_single};
ghost use Rattle.expr_rules.specs.Typed.{is_callee};
ghost use Rattle.expr_parts.specs.ViewReady.{IsReady};
ghost use Rattle.check_exprs.specs.ViewTyped.{ConversionSo, ReadSo, SequenceSo};

use crate::typing::operands::{operand_at, operands};
use crate::typing::written::{formed, read_type};
use arc_base::{Code, Place, Stop};
use expr_parts::names::{check_brackets, check_callee, check_count, check_quoted, is_new_sequence};
use expr_parts::scope::Scope;
use expr_parts::value::{Typed, refusal};
use expr_steps::demands::{Demand, call_demand, is_alone, method_demand};
use expr_steps::endings::{call_from, conversion_from, new_sequence_from};
use expr_steps::given::{alone_in, behind};
use indent_scanner::{inner_of, normal_form};
use nim_tree::Expr as Tree;
use nim_types::TypeTable;
use std::alloc::Global;

// Whether there is one operand.
fn is_single(parts: &[Tree]) -> bool
    ensures { is_single (parts_of parts.now) ≡ result }
{
    parts.len() == 1
}

// The refusal of what can't be called.
fn no_callee(at: Place, base: &Tree) -> Stop
    requires { is_callee (term_of base.now) ≡ false }
    ensures none { is_callee (term_of base.now) ≡ false }
    ensures stop { result ≡ Stop.Refused NotTyped at }
{
    refusal(Code::NotTyped, at)
}

// The refusal of what is no name before a type in brackets.
fn no_name(at: Place, base: &Tree) -> Stop
    requires { (place : Place) (given : Parts)
        → is_callee (term.index place (term_of base.now) given) ≡ false }
    ensures none { (place : Place) (given : Parts)
        → is_callee (term.index place (term_of base.now) given) ≡ false }
    ensures stop { result ≡ Stop.Refused NotTyped at }
{
    refusal(Code::NotTyped, at)
}

/// A call, by what is called.
#[cycle(typing)]
pub(crate) fn call(
    alloc: Global,
    types: &mut TypeTable,
    scope: &Scope,
    number: u32,
    at: Place,
    base: &Tree,
    parts: &[Tree],
) -> Result<Typed, Stop>
    requires ready { IsReady types.old scope.now }
    ensures { ReadSo types.old types.new scope.now number
        (term.call at (term_of base.now) (parts_of parts.now)) result }
{
    match base {
        Tree::Name { at: place, text } => {
            named_call(
                alloc,
                types,
                scope,
                number,
                at,
                *place,
                text.as_slice(),
                parts,
            )
        }
        Tree::Quoted { text, .. } => {
            quoted_call(alloc, types, scope, number, at, text.as_slice(), parts)
        }
        Tree::Field { base, text, .. } => {
            method_call(
                alloc,
                types,
                scope,
                number,
                at,
                base,
                text.as_slice(),
                parts,
            )
        }
        Tree::Index {
            at: place,
            base,
            parts: inside,
        } => { bracket_call(alloc, types, scope, number, at, *place, base, inside, parts) }
        _ => Err(no_callee(at, base)),
    }
}

#[cycle(typing)]
fn named_call(
    alloc: Global,
    types: &mut TypeTable,
    scope: &Scope,
    number: u32,
    at: Place,
    place: Place,
    text: &[u8],
    parts: &[Tree],
) -> Result<Typed, Stop>
    requires ready { IsReady types.old scope.now }
    ensures { ReadSo types.old types.new scope.now number
        (term.call at (term.name place text.now) (parts_of parts.now)) result }
{
    let name = normal_form(alloc, text)?;
    let word = name.as_slice();
    check_callee(scope, place, word)?;
    check_count(at, word, is_single(parts))?;
    let demand = call_demand(alloc, scope, word, parts)?;
    let first = behind(number)?;
    let given = operands(alloc, types, scope, demand, Vec::new(alloc), first, parts)?;
    call_from(alloc, types, scope, number, at, word, given)
}

#[cycle(typing)]
fn quoted_call(
    alloc: Global,
    types: &mut TypeTable,
    scope: &Scope,
    number: u32,
    at: Place,
    text: &[u8],
    parts: &[Tree],
) -> Result<Typed, Stop>
    requires ready { IsReady types.old scope.now }
    ensures { (place : Place) → ReadSo types.old types.new scope.now number
        (term.call at (term.quoted place text.now) (parts_of parts.now)) result }
{
    let name = inner_of(alloc, text)?;
    let word = name.as_slice();
    check_quoted(at, word, is_single(parts))?;
    let first = behind(number)?;
    let given = operands(
        alloc,
        types,
        scope,
        Demand::Arguments,
        Vec::new(alloc),
        first,
        parts,
    )?;
    call_from(alloc, types, scope, number, at, word, given)
}

// A call of a name behind a dot, whose first operand stands before it.
#[cycle(typing)]
fn method_call(
    alloc: Global,
    types: &mut TypeTable,
    scope: &Scope,
    number: u32,
    at: Place,
    base: &Tree,
    text: &[u8],
    parts: &[Tree],
) -> Result<Typed, Stop>
    requires ready { IsReady types.old scope.now }
    ensures { (place : Place) → ReadSo types.old types.new scope.now number
        (term.call at (term.field place (term_of base.now) text.now) (parts_of parts.now)) result }
{
    let name = normal_form(alloc, text)?;
    let word = name.as_slice();
    let alone = is_alone(parts);
    check_count(at, word, alone)?;
    let demand = method_demand(alloc, scope, word, base, alone)?;
    let first = behind(number)?;
    let receiver = operand_at(alloc, types, scope, demand, first, base)?;
    match check_callee(scope, at, word) {
        Ok(()) => {}
        Err(stop) => {
            drop(receiver);
            return Err(stop);
        }
    }
    let before = alone_in(alloc, receiver.operand)?;
    let given = operands(
        alloc,
        types,
        scope,
        demand.behind(),
        before,
        receiver.next,
        parts,
    )?;
    call_from(alloc, types, scope, number, at, word, given)
}

// A call of a name with something in brackets.
#[cycle(typing)]
fn bracket_call(
    alloc: Global,
    types: &mut TypeTable,
    scope: &Scope,
    number: u32,
    at: Place,
    p: Place,
    base: &Tree,
    given: &[Tree],
    parts: &[Tree],
) -> Result<Typed, Stop>
    requires ready { IsReady types.old scope.now }
    ensures { ReadSo types.old types.new scope.now number
        (term.call at (term.index p (term_of base.now) (parts_of given.now))
        (parts_of parts.now)) result }
{
    match base {
        Tree::Name { at: q, text } => {
            bracket_named(
                alloc,
                types,
                scope,
                number,
                at,
                p,
                *q,
                text.as_slice(),
                given,
                parts,
            )
        }
        _ => Err(no_name(at, base)),
    }
}

#[cycle(typing)]
fn bracket_named(
    alloc: Global,
    types: &mut TypeTable,
    scope: &Scope,
    number: u32,
    at: Place,
    p: Place,
    q: Place,
    text: &[u8],
    given: &[Tree],
    parts: &[Tree],
) -> Result<Typed, Stop>
    requires ready { IsReady types.old scope.now }
    ensures { ReadSo types.old types.new scope.now number
        (term.call at (term.index p (term.name q text.now) (parts_of given.now))
        (parts_of parts.now)) result }
{
    match given {
        [ty] => one_bracket(
            alloc, types, scope, number, at, p, q, text, given, ty, parts,
        ),
        _ => conversion(alloc, types, scope, number, at, p, q, text, given, parts),
    }
}

// With one part in the brackets: `newSeq` of a type, or a type.
#[cycle(typing)]
fn one_bracket(
    alloc: Global,
    types: &mut TypeTable,
    scope: &Scope,
    number: u32,
    at: Place,
    p: Place,
    q: Place,
    text: &[u8],
    given: &[Tree],
    ty: &Tree,
    parts: &[Tree],
) -> Result<Typed, Stop>
    requires ready { IsReady types.old scope.now }
    requires alone { parts_of given.now ≡ part (term_of ty.now) no_parts }
    ensures { ReadSo types.old types.new scope.now number
        (term.call at (term.index p (term.name q text.now) (parts_of given.now))
        (parts_of parts.now)) result }
{
    let name = normal_form(alloc, text)?;
    let word = name.as_slice();
    if is_new_sequence(word) {
        return new_sequence(alloc, types, scope, number, at, ty, parts);
    }
    conversion(alloc, types, scope, number, at, p, q, text, given, parts)
}

#[cycle(typing)]
fn new_sequence(
    alloc: Global,
    types: &mut TypeTable,
    scope: &Scope,
    number: u32,
    at: Place,
    ty: &Tree,
    parts: &[Tree],
) -> Result<Typed, Stop>
    requires ready { IsReady types.old scope.now }
    ensures { SequenceSo types.old types.new scope.now number at (term_of ty.now)
        (parts_of parts.now) result }
{
    let of = read_type(alloc, types, scope, ty)?;
    let first = behind(number)?;
    let given = operands(
        alloc,
        types,
        scope,
        Demand::Arguments,
        Vec::new(alloc),
        first,
        parts,
    )?;
    new_sequence_from(alloc, types, scope, number, at, of, given)
}

// A value of a type that is written with brackets.
#[cycle(typing)]
fn conversion(
    alloc: Global,
    types: &mut TypeTable,
    scope: &Scope,
    number: u32,
    at: Place,
    p: Place,
    q: Place,
    text: &[u8],
    given: &[Tree],
    parts: &[Tree],
) -> Result<Typed, Stop>
    requires ready { IsReady types.old scope.now }
    ensures { ConversionSo types.old types.new scope.now number at p q text.now
        (parts_of given.now) (parts_of parts.now) result }
{
    let name = normal_form(alloc, text)?;
    let word = name.as_slice();
    check_brackets(scope, at, word)?;
    let ty = formed(alloc, types, scope, p, q, text, given)?;
    let first = behind(number)?;
    let values = operands(
        alloc,
        types,
        scope,
        Demand::Arguments,
        Vec::new(alloc),
        first,
        parts,
    )?;
    conversion_from(alloc, types, scope, number, at, ty, values)
}
