// Each list of tokens is read, or it is said why not.
ghost use Rattle.std.specs.Prelude.{ℕ, List};
ghost use Rattle.indent_scanner.specs.declared.token.Token.{Token as One};
ghost use Rattle.parse_exprs.specs.declared.layout.Layout.{Layout as Stands};
ghost use Rattle.parse_exprs.specs.Look.{Origin};
ghost use Rattle.parse_decls.specs.Ends.{Advances, AlwaysEnds, Decided};
ghost use Rattle.parse_decls.specs.Run.{run_names, run_def, run_def_block, run_types, run_head};
ghost use Rattle.parse_decls.specs.Grammar.{Names};
ghost use Rattle.parse_decls.specs.Faults.{FaultsNames, ShortDefinition, FaultsDefinition, ShortDefinitionBlock};
ghost use Rattle.parse_decls.specs.Faults.{FaultsDefinitionBlock, ShortDeclarations, FaultsDeclarations, ShortHead};
ghost use Rattle.parse_decls.specs.Faults.{FaultsHead};

/// Each list of tokens begins with names, with a definition, with a block of them, with declarations of types, or with the head
/// of a procedure, of at most 64 levels; or it is said why not, and at which token.
pub fn declaration_or_fault()
    ensures names { (x : Origin) (layout : Stands) (ts : List One) →
        Decided (Names x layout) (FaultsNames x layout) ts }
    ensures definitions { (x : Origin) (layout : Stands) (ts : List One) →
        Decided (ShortDefinition x layout) (FaultsDefinition x layout) ts }
    ensures blocks { (x : Origin) (spaces : ℕ) (ts : List One) →
        Decided (ShortDefinitionBlock x spaces) (FaultsDefinitionBlock x spaces) ts }
    ensures declared { (x : Origin) (spaces : ℕ) (ts : List One) →
        Decided (ShortDeclarations x spaces) (FaultsDeclarations x spaces) ts }
    ensures heads { (x : Origin) (layout : Stands) (ts : List One) →
        Decided (ShortHead x layout) (FaultsHead x layout) ts }
{}

/// Reading ends, whatever the tokens, after so many steps for each of them.
pub fn declarations_end()
    ensures names { (x : Origin) (layout : Stands) → Advances (λ ts k. run_names k x layout ts) }
    ensures definitions { (x : Origin) (layout : Stands) →
        Advances (λ ts k. run_def k x layout ts) }
    ensures blocks { (x : Origin) (spaces : ℕ) → AlwaysEnds (λ ts k. run_def_block k x spaces ts) }
    ensures declared { (x : Origin) (spaces : ℕ) → AlwaysEnds (λ ts k. run_types k x spaces ts) }
    ensures heads { (x : Origin) (layout : Stands) → Advances (λ ts k. run_head k x layout ts) }
{}
