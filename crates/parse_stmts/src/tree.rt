// The tree of a module.
ghost use Rattle.std.specs.Prelude.{◌≡◌, ◌<◌, ◌≤◌, ◌^◌, ◌*◌, List, length, IfOk, IfErr};
ghost use Rattle.arc_base.specs.declared.place.Place.{Place as At};
ghost use Rattle.arc_base.specs.Stops.{OnRefusal};
ghost use Rattle.indent_scanner.specs.declared.token.Token.{Token as One};
ghost use Rattle.nim_tree.specs.Statements.{Statements, tree_of, all_nodes, statements_of, imports_in};
ghost use Rattle.parse_exprs.specs.Look.{Origin};
ghost use Rattle.parse_exprs.specs.Parsed.{origin};
ghost use Rattle.parse_exprs.specs.Input.{from_at, origin_of};
ghost use Rattle.parse_decls.specs.Gives.{Comes};
ghost use Rattle.parse_stmts.specs.Grammar.{IsModule};
ghost use Rattle.parse_stmts.specs.Parsed.{AreTokens, HasFew, HasNone, IsRefused, OpensTooMany, IsLeftOut};
ghost use Rattle.parse_stmts.specs.Run.{run_module};

use crate::block::read_statements;
use crate::imports::imports_in;
use crate::lines::end_at;
use arc_base::Stop;
use indent_scanner::Token;
use nim_tree::{Module, Stmt};
use parse_decls::{Reading, level_at, stuck};
use parse_exprs::Input;
use std::alloc::Global;

/// The most levels of blocks.
const MOST_LEVELS: u32 = 64;

/// The tree of the tokens of a module.
///
/// E4 names the token that can't go on, or E23 where the language leaves out what stands there. E5 names the first token of
/// the 65th block that stands inside others, or of the expression or the written type with a 65th level.
pub fn parse(alloc: Global, source: &[u8], tokens: &[Token], module: u32) -> Result<Module, Stop>
    requires { AreTokens source.now tokens.now }
    ensures reads { IfOk result (λ tree. IsModule (origin source.now «module») tokens.now (tree_of tree)) }
    ensures only { IfOk result (λ tree. (all : Statements) → IsModule (origin source.now «module») tokens.now all → all ≡ tree_of tree) }
    ensures few { IfOk result (λ tree. HasFew (tree_of tree)) }
    ensures imports { IfOk result (λ tree. tree.imports.items ≡ imports_in (tree_of tree)) }
    ensures nodes { IfOk result (λ tree. all_nodes (tree_of tree) ≤ 8 * length tokens.now) }
    ensures refused { IfErr result (λ stop. OnRefusal stop (IsRefused (origin source.now «module») tokens.now)) }
{
    let input = Input {
        source,
        tokens,
        module,
    };
    let read = read_module(alloc, &input)?;
    let imports = imports_in(alloc, &read.value)?;
    Ok(Module {
        imports,
        body: read.value,
    })
}

// The statements of a module, up to the end of its source.
fn read_module(alloc: Global, input: &Input) -> Result<Reading<Vec<Stmt>>, Stop>
    requires few { length input.now.tokens.now < 2 ^ 32 }
    ensures { Comes (λ all. statements_of all.items) (λ k. run_module k (origin_of input.now) (from_at input.now 0)) input.now 0 result }
{
    let spaces = level_at(input, 0);
    let all = read_statements(alloc, input, 0, spaces, MOST_LEVELS)?;
    if end_at(input, all.next) {
        Ok(all)
    } else {
        Err(stuck(input, all.next))
    }
}

/// Tokens are one tree at most.
pub fn one_tree()
    ensures { (x : Origin) (tokens : List One) (t u : Statements) → IsModule x tokens t → IsModule x tokens u → t ≡ u }
{}

/// Tokens open a level too many, meet what is left out, or can't go on, at one place at most, and then they are no tree.
pub fn one_fault()
    ensures deep { (x : Origin) (tokens : List One) (p q : At) → OpensTooMany x tokens p → OpensTooMany x tokens q → p ≡ q }
    ensures left_out { (x : Origin) (tokens : List One) (p q : At) → IsLeftOut x tokens p → IsLeftOut x tokens q → p ≡ q }
    ensures stuck { (x : Origin) (tokens : List One) (p q : At) → HasNone x tokens p → HasNone x tokens q → p ≡ q }
    ensures either { (x : Origin) (tokens : List One) (p q : At) → OpensTooMany x tokens p → IsLeftOut x tokens q → ⊥ }
    ensures deep_none { (x : Origin) (tokens : List One) (t : Statements) (p : At) → IsModule x tokens t → OpensTooMany x tokens p → ⊥ }
    ensures left_out_none { (x : Origin) (tokens : List One) (t : Statements) (p : At) → IsModule x tokens t → IsLeftOut x tokens p → ⊥ }
{}
