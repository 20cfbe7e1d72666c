// Each list of tokens is read, or it is said why not.
ghost use Rattle.std.specs.Prelude.{ℕ, List};
ghost use Rattle.indent_scanner.specs.declared.token.Token.{Token as One};
ghost use Rattle.parse_exprs.specs.declared.layout.Layout.{Layout as Stands};
ghost use Rattle.parse_exprs.specs.Ends.{AlwaysEnds, Decided};
ghost use Rattle.parse_exprs.specs.Look.{Origin};
ghost use Rattle.parse_exprs.specs.Parsed.{Reads, ReadsCallee, ExprFaults, CalleeFaults, ExprRun, CalleeRun};

/// Each list of tokens begins with an expression of at most so many levels, or it is said why not: it has a first token that
/// can't go on, or that opens a level too many. The same of an atom and what stands behind it, where a command may begin.
pub fn expr_or_fault()
    ensures exprs { (x : Origin) (layout : Stands) (most : ℕ) (ts : List One) →
        Decided (Reads x layout) (ExprFaults x layout most) most ts }
    ensures callees { (x : Origin) (spaces : ℕ) (ts : List One) →
        Decided (ReadsCallee x spaces) (CalleeFaults x spaces) 64 ts }
{}

/// Reading ends, whatever the tokens, after so many steps for each of them.
pub fn exprs_end()
    ensures exprs { (x : Origin) (layout : Stands) (most : ℕ) → AlwaysEnds (ExprRun x layout most) }
    ensures callees { (x : Origin) (spaces : ℕ) → AlwaysEnds (CalleeRun x spaces) }
{}
