// The law of what typed programs lend.
ghost use Rattle.std.specs.Prelude.{List};
ghost use Rattle.nim_types.specs.Types.{Ty};
ghost use Rattle.nim_program.specs.Program.{Program};
ghost use Rattle.decl_rules.specs.Elaborated.{Module};
ghost use Rattle.decl_rules.specs.ProgramRules.{IsProgram};
ghost use Rattle.lending_laws.specs.Apart.{AreLentApart};

use decl_rules::names_found;
use expr_rules::calls_computed;

/// In a program that the rules accept, no two places that are lent to one call are one, or part of
/// one another, and none is a global that the procedure names, or what it calls. No body writes a
/// parameter that is no `var` and no `sink`, nor the variable of a `for`, nor a part of these. Each
/// field is one of an object or a tuple.
pub fn lent_apart()
    ensures { (types : List Ty) (all : List Module) (program : Program) →
        IsProgram types all program → AreLentApart program }
{
    calls_computed();
    names_found();
}
