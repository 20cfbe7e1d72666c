// The tokens of a module are a tree or are refused.
ghost use Rattle.std.specs.Prelude.{List};
ghost use Rattle.indent_scanner.specs.declared.token.Token.{Token as One};
ghost use Rattle.parse_exprs.specs.Look.{Origin};
ghost use Rattle.parse_stmts.specs.Total.{Decided};

/// Each list of tokens is a tree of at most 64 levels of blocks, of each expression and of each written type, or is refused
/// with a code and at a place. It isn't both, and in one way only: that is what `one_tree` and `one_fault` say.
pub fn tree_or_fault()
    ensures { (x : Origin) (tokens : List One) → Decided x tokens }
{}
