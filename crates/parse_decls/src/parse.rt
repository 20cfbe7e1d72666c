// What begins at a token.
ghost use Rattle.std.specs.Prelude.{◌<◌, ◌≤◌, ◌-◌, ◌^◌, suc, length, map, IfOk, IfErr};
ghost use Rattle.arc_base.specs.Stops.{OnRefusal};
ghost use Rattle.nim_tree.specs.Lists.{total};
ghost use Rattle.nim_tree.specs.Types.{declaration_of, declaration_nodes};
ghost use Rattle.nim_tree.specs.Statements.{definition_of, head_of, definition_nodes, head_nodes};
ghost use Rattle.parse_exprs.specs.Input.{origin_of, from_at};
ghost use Rattle.parse_exprs.specs.Parsed.{HasNoEnd};
ghost use Rattle.parse_exprs.specs.declared.layout.Layout.TheVariants.{Lines};
ghost use Rattle.parse_decls.specs.Run.{run_names, run_def, run_def_block, run_types, run_head};
ghost use Rattle.parse_decls.specs.Grammar.{Names, IsDefinition, IsDefinitionBlock, IsDeclarations, IsHead};
ghost use Rattle.parse_decls.specs.Faults.{FaultsNames, ShortDefinition, FaultsDefinition, ShortDefinitionBlock};
ghost use Rattle.parse_decls.specs.Faults.{FaultsDefinitionBlock, ShortDeclarations, FaultsDeclarations, ShortHead};
ghost use Rattle.parse_decls.specs.Faults.{FaultsHead};
ghost use Rattle.parse_decls.specs.Claims.{IsOnly, IsRefused};
ghost use Rattle.parse_decls.specs.Gives.{Comes, Tells};

use crate::declare::read_types;
use crate::define::{read_definition, read_definition_block};
use crate::head::read_head;
use crate::name::read_names;
use crate::reading::Reading;
use arc_base::Stop;
use nim_tree::{Def, Name, ProcHead, TypeDef};
use parse_exprs::{Input, Layout};
use std::alloc::Global;

/// Names with commas between them, from the token of number `at` on, of which the first goes on in this layout.
///
/// Refused with E4 at the token that can't go on, or E23 at it where it is a keyword that the language leaves out. There may
/// be no memory.
pub fn names(
    alloc: Global,
    input: &Input,
    at: usize,
    layout: Layout,
) -> Result<Reading<Vec<Name>>, Stop>
    ensures runs { Comes (λ names. names.items) (λ k. run_names k (origin_of input.now) layout (from_at input.now at)) input.now (suc at) result }
    ensures reads { IfOk result (λ p. Names (origin_of input.now) layout p.value.items (from_at input.now at) (from_at input.now p.next)) }
    ensures only { IfOk result (λ p. IsOnly (Names (origin_of input.now) layout) input.now.tokens.now at p.value.items p.next) }
    ensures size { IfOk result (λ p. length p.value.items ≤ p.next - at) }
    ensures inside { IfOk result (λ p. HasNoEnd input.now.tokens.now at p.next) }
    ensures refused { IfErr result
        (λ stop. OnRefusal stop
        (IsRefused (Names (origin_of input.now) layout) (Names (origin_of input.now) layout)
        (FaultsNames (origin_of input.now) layout) (Tells (origin_of input.now))
        (from_at input.now at))) }
{
    read_names(alloc, input, at, layout)
}

/// A definition, from the token of number `at` on, in a statement behind so many spaces.
///
/// Refused as names are; besides with E5 at the first token of an expression or a written type with a level too many, and with
/// E23 at a pragma of another name.
pub fn definition(
    alloc: Global,
    input: &Input,
    at: usize,
    spaces: u32,
) -> Result<Reading<Def>, Stop>
    requires few { length input.now.tokens.now < 2 ^ 32 }
    ensures runs { Comes definition_of (λ k. run_def k (origin_of input.now) (Lines spaces) (from_at input.now at)) input.now (suc at) result }
    ensures reads { IfOk result
        (λ p. ShortDefinition (origin_of input.now) (Lines spaces) (definition_of p.value)
        (from_at input.now at) (from_at input.now p.next)) }
    ensures only { IfOk result (λ p. IsOnly (IsDefinition (origin_of input.now) (Lines spaces)) input.now.tokens.now at (definition_of p.value) p.next) }
    ensures size { IfOk result (λ p. definition_nodes (definition_of p.value) ≤ p.next - at) }
    ensures inside { IfOk result (λ p. HasNoEnd input.now.tokens.now at p.next) }
    ensures refused { IfErr result
        (λ stop. OnRefusal stop
        (IsRefused (IsDefinition (origin_of input.now) (Lines spaces))
        (ShortDefinition (origin_of input.now) (Lines spaces))
        (FaultsDefinition (origin_of input.now) (Lines spaces)) (Tells (origin_of input.now))
        (from_at input.now at))) }
{
    read_definition(alloc, input, at, Layout::Lines(spaces))
}

/// A block of definitions on lines of their own, from the token of number `at` on, in a statement behind fewer spaces, as many
/// as are given.
///
/// Refused as a definition is, and where no line behind more spaces begins.
pub fn definition_block(
    alloc: Global,
    input: &Input,
    at: usize,
    spaces: u32,
) -> Result<Reading<Vec<Def>>, Stop>
    requires few { length input.now.tokens.now < 2 ^ 32 }
    requires within { at ≤ length input.now.tokens.now }
    ensures runs { Comes (λ all. map definition_of all.items) (λ k. run_def_block k (origin_of input.now) spaces (from_at input.now at)) input.now at result }
    ensures reads { IfOk result
        (λ p. ShortDefinitionBlock (origin_of input.now) spaces (map definition_of p.value.items)
        (from_at input.now at) (from_at input.now p.next)) }
    ensures only { IfOk result (λ p. IsOnly (IsDefinitionBlock (origin_of input.now) spaces) input.now.tokens.now at (map definition_of p.value.items) p.next) }
    ensures size { IfOk result (λ p. total definition_nodes (map definition_of p.value.items) ≤ p.next - at) }
    ensures inside { IfOk result (λ p. HasNoEnd input.now.tokens.now at p.next) }
    ensures refused { IfErr result
        (λ stop. OnRefusal stop
        (IsRefused (IsDefinitionBlock (origin_of input.now) spaces)
        (ShortDefinitionBlock (origin_of input.now) spaces)
        (FaultsDefinitionBlock (origin_of input.now) spaces) (Tells (origin_of input.now))
        (from_at input.now at))) }
{
    read_definition_block(alloc, input, at, spaces)
}

/// What stands behind `type`, from the token of number `at` on, in a statement behind so many spaces: a block of declarations,
/// or one on its line.
///
/// Refused as a definition is.
pub fn type_declarations(
    alloc: Global,
    input: &Input,
    at: usize,
    spaces: u32,
) -> Result<Reading<Vec<TypeDef>>, Stop>
    requires few { length input.now.tokens.now < 2 ^ 32 }
    requires within { at ≤ length input.now.tokens.now }
    ensures runs { Comes (λ all. map declaration_of all.items) (λ k. run_types k (origin_of input.now) spaces (from_at input.now at)) input.now at result }
    ensures reads { IfOk result
        (λ p. ShortDeclarations (origin_of input.now) spaces (map declaration_of p.value.items)
        (from_at input.now at) (from_at input.now p.next)) }
    ensures only { IfOk result (λ p. IsOnly (IsDeclarations (origin_of input.now) spaces) input.now.tokens.now at (map declaration_of p.value.items) p.next) }
    ensures size { IfOk result (λ p. total declaration_nodes (map declaration_of p.value.items) ≤ p.next - at) }
    ensures inside { IfOk result (λ p. HasNoEnd input.now.tokens.now at p.next) }
    ensures refused { IfErr result
        (λ stop. OnRefusal stop
        (IsRefused (IsDeclarations (origin_of input.now) spaces)
        (ShortDeclarations (origin_of input.now) spaces)
        (FaultsDeclarations (origin_of input.now) spaces) (Tells (origin_of input.now))
        (from_at input.now at))) }
{
    read_types(alloc, input, at, spaces)
}

/// What stands behind `proc` up to its `=`, from the token of number `at` on, in a statement behind so many spaces.
///
/// Refused as a definition is.
pub fn procedure_head(
    alloc: Global,
    input: &Input,
    at: usize,
    spaces: u32,
) -> Result<Reading<ProcHead>, Stop>
    requires few { length input.now.tokens.now < 2 ^ 32 }
    ensures runs { Comes head_of (λ k. run_head k (origin_of input.now) (Lines spaces) (from_at input.now at)) input.now (suc at) result }
    ensures reads { IfOk result (λ p. ShortHead (origin_of input.now) (Lines spaces) (head_of p.value) (from_at input.now at) (from_at input.now p.next)) }
    ensures only { IfOk result (λ p. IsOnly (IsHead (origin_of input.now) (Lines spaces)) input.now.tokens.now at (head_of p.value) p.next) }
    ensures size { IfOk result (λ p. head_nodes (head_of p.value) ≤ p.next - at) }
    ensures inside { IfOk result (λ p. HasNoEnd input.now.tokens.now at p.next) }
    ensures refused { IfErr result
        (λ stop. OnRefusal stop
        (IsRefused (IsHead (origin_of input.now) (Lines spaces))
        (ShortHead (origin_of input.now) (Lines spaces))
        (FaultsHead (origin_of input.now) (Lines spaces)) (Tells (origin_of input.now))
        (from_at input.now at))) }
{
    read_head(alloc, input, at, Layout::Lines(spaces))
}
