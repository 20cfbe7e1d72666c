// Names as values: variables, and uses of constants.
ghost use Rattle.std.specs.Prelude.{◌≡◌, ℕ, suc, Bool, List, Some, IfOk, IfErr};
ghost use Rattle.arc_base.specs.declared.place.Stop.TheVariants as Stop;
ghost use Rattle.arc_base.specs.Refusal.{Answers};
ghost use Rattle.nim_types.specs.Types.{Ty, Facts};
ghost use Rattle.nim_types.specs.Table.{type_at, IsBelow};
ghost use Rattle.nim_program.specs.Program.{Characters, Read, Variable};
ghost use Rattle.nim_program.specs.View.{expr_of, literal_of, literals_of};
ghost use Rattle.expr_rules.specs.Answers.{node, typed_as};
ghost use Rattle.expr_rules.specs.Names.{name_rule, named_value};
ghost use Rattle.expr_rules.specs.Env.{Known, known_next};
ghost use Rattle.nim_program.specs.Nodes as nodes;
ghost use Rattle.expr_parts.specs.View.{number_of, env_of, entry_by, WhatWithin, DeclsWithin};

use crate::names::{is_built_in, undeclared};
use crate::nodes::constant;
use crate::scope::{Scope, What};
use crate::value::refusal;
use arc_base::{Bytes, Code, Memory, Place, Stop};
use indent_scanner::normal_form;
use nim_program::{Expr, Literal, Node, Path};
use nim_types::TypeId;
use std::alloc::Global;

/// The same value again.
#[cycle(copies)]
pub fn copied(alloc: Global, literal: &Literal) -> Result<Literal, Memory>
    ensures { IfOk result (λ l. literal_of l ≡ literal_of literal.now) }
{
    match literal {
        Literal::Ordinal(value) => Ok(Literal::Ordinal(*value)),
        Literal::Text(text) => text_copied(alloc, text),
        Literal::Nil => Ok(Literal::Nil),
        Literal::Parts(all) => {
            let parts = all_copied(alloc, all.as_slice())?;
            Ok(Literal::Parts(parts))
        }
        Literal::Elements(all) => {
            let elements = all_copied(alloc, all.as_slice())?;
            Ok(Literal::Elements(elements))
        }
    }
}

fn text_copied(alloc: Global, text: &Bytes) -> Result<Literal, Memory>
    ensures { IfOk result (λ l. literal_of l ≡ Characters text.now) }
{
    let text = Bytes::from_slice(alloc, text.as_slice())?;
    Ok(Literal::Text(text))
}

#[cycle(copies)]
fn all_copied(alloc: Global, all: &[Literal]) -> Result<Vec<Literal>, Memory>
    ensures { IfOk result (λ copies. literals_of copies.items ≡ literals_of all.now) }
{
    let mut copies = Vec::new(alloc);
    for literal in all {
        let copy = copied(alloc, literal)?;
        copies.push(copy)?;
    }
    Ok(copies)
}

/// A use of a constant: one node with its value.
pub fn constant_use(
    alloc: Global,
    number: u32,
    at: Place,
    ty: TypeId,
    literal: &Literal,
) -> Result<Expr, Stop>
    ensures expr { IfOk result (λ e. (ts : List Ty) → expr_of ts e ≡ nodes.literal (node number at)
        (type_at ts ty) (literal_of literal.now)) }
    ensures number { IfOk result (λ e. number_of e ≡ Some ty) }
    ensures memory { IfErr result (λ stop. stop ≡ Stop.Memory) }
{
    let literal = copied(alloc, literal)?;
    Ok(constant(number, at, ty, literal))
}

// A variable, or a use of a constant.
fn value_by(alloc: Global, number: u32, at: Place, what: &What) -> Result<Expr, Stop>
    ensures answers { (ts : List Ty) (built_in : Bool) (before : Known) (x : List ℕ)
        → Answers (λ e. typed_as (expr_of ts e) (suc number)) (name_rule number at built_in
        (known_next before (entry_by ts x what.now))) result }
    ensures within { (n : ℕ) → WhatWithin n what.now
        → IfOk result (λ e. IsBelow n (number_of e)) }
{
    match what {
        What::Variable {
            place,
            ty,
            global,
            ..
        } => Ok(variable(number, at, *ty, *place, *global)),
        What::Constant { ty, value } => constant_use(alloc, number, at, *ty, value),
        _ => Err(refusal(Code::NotTyped, at)),
    }
}

fn variable(number: u32, at: Place, ty: TypeId, place: u32, global: bool) -> Expr
    ensures expr { (ts : List Ty) → expr_of ts result ≡ Read (Variable (node number at)
        (type_at ts ty) place global) }
    ensures number { number_of result ≡ Some ty }
{
    Expr::Read {
        path: Path::Variable {
            node: Node { number, at },
            ty,
            place,
            global,
        },
    }
}

/// A name as a value.
pub fn named_value(
    alloc: Global,
    scope: &Scope,
    number: u32,
    at: Place,
    text: &[u8],
) -> Result<Expr, Stop>
    ensures answers { (ts : List Ty) (facts : Facts)
        → Answers (λ e. typed_as (expr_of ts e) (suc number)) (named_value
        (env_of ts facts scope.now) number at text.now) result }
    ensures within { (n : ℕ) → DeclsWithin n scope.now.decls
        → IfOk result (λ e. IsBelow n (number_of e)) }
{
    let name = normal_form(alloc, text)?;
    match scope.find(name.as_slice()) {
        Some(decl) => value_by(alloc, number, at, &decl.what),
        None => Err(undeclared(at, is_built_in(name.as_slice()))),
    }
}
