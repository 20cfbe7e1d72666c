// What is read, why nothing is, and what a computation comes to agree.
ghost use Rattle.std.specs.Prelude.{ℕ};
ghost use Rattle.parse_exprs.specs.declared.layout.Layout.{Layout as Stands};
ghost use Rattle.parse_exprs.specs.declared.layout.Layout.TheVariants.{Lines};
ghost use Rattle.parse_exprs.specs.Look.{Origin};
ghost use Rattle.parse_decls.specs.Run.{run_names, run_def, run_def_block, run_types, run_head};
ghost use Rattle.parse_decls.specs.Grammar.{Names, IsDefinition, IsDefinitionBlock, IsDeclarations, IsHead};
ghost use Rattle.parse_decls.specs.Faults.{FaultsNames, ShortDefinition, FaultsDefinition, ShortDefinitionBlock};
ghost use Rattle.parse_decls.specs.Faults.{FaultsDefinitionBlock, ShortDeclarations, FaultsDeclarations, ShortHead};
ghost use Rattle.parse_decls.specs.Faults.{FaultsHead};
ghost use Rattle.parse_decls.specs.Claims.{Agree};

/// Names with commas between them.
pub fn names_agree()
    ensures { (x : Origin) (layout : Stands) → Agree (Names x layout) (Names x layout) (FaultsNames x layout) (λ ts k. run_names k x layout ts) }
{}

/// A definition.
pub fn definitions_agree()
    ensures { (x : Origin) (layout : Stands) → Agree (IsDefinition x layout) (ShortDefinition x layout)
        (FaultsDefinition x layout) (λ ts k. run_def k x layout ts) }
{}

/// A block of definitions, in a statement behind so many spaces.
pub fn definition_blocks_agree()
    ensures { (x : Origin) (spaces : ℕ) → Agree (IsDefinitionBlock x spaces) (ShortDefinitionBlock x spaces)
        (FaultsDefinitionBlock x spaces) (λ ts k. run_def_block k x spaces ts) }
{}

/// What stands behind `type`, in a statement behind so many spaces.
pub fn type_declarations_agree()
    ensures { (x : Origin) (spaces : ℕ) → Agree (IsDeclarations x spaces) (ShortDeclarations x spaces)
        (FaultsDeclarations x spaces) (λ ts k. run_types k x spaces ts) }
{}

/// The head of a procedure.
pub fn heads_agree()
    ensures { (x : Origin) (layout : Stands) → Agree (IsHead x layout) (ShortHead x layout) (FaultsHead x layout) (λ ts k. run_head k x layout ts) }
{}
