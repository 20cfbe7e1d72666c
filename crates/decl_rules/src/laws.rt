// The laws of the typing rules of programs.
ghost use Rattle.std.specs.Prelude.{◌≡◌};
ghost use Rattle.decl_rules.specs.Laws.{EachStatement, OneStated, OneRefusal, NotBoth};
ghost use Rattle.decl_rules.specs.Laws.{StatementsComputed, RefusalsComputed};
ghost use Rattle.decl_rules.specs.Laws.{EachProgram, OneProgram, OneReason, NeverBoth};
ghost use Rattle.decl_rules.specs.Laws.{ProgramsComputed, ReasonsComputed};
ghost use Rattle.decl_rules.specs.Examples.{Holds};
ghost use Rattle.decl_rules.specs.StatementRows.{statement_rows, loop_rows, case_rows};
ghost use Rattle.decl_rules.specs.DefinitionRows.{variable_rows, constant_rows, scope_rows};
ghost use Rattle.decl_rules.specs.SectionRows.{type_rows};
ghost use Rattle.decl_rules.specs.ProcedureRows.{procedure_rows, distinct_rows};
ghost use Rattle.decl_rules.specs.Naming.{NamesFound};
ghost use Rattle.decl_rules.specs.Parts.{ContainmentFound, KnownFound};
ghost use Rattle.decl_rules.specs.Places.{PlacesNumbered, ProcedureNumbered};
ghost use Rattle.decl_rules.specs.Nodes.{NodesNumbered, BodyNumbered};
ghost use Rattle.decl_rules.specs.EdgeRows.{edge_rows};
ghost use Rattle.decl_rules.specs.ProgramRows.{program_answers, expected_programs};
ghost use Rattle.decl_rules.specs.WholeRows.{global_rows, left_out_rows, order_rows};

use expr_rules::{nodes_numbered, typing_computed};

/// Each statement is typed in one way, or refused in one way, and never both.
pub fn one_statement()
    ensures each { EachStatement }
    ensures typed { OneStated }
    ensures refusal { OneRefusal }
    ensures apart { NotBoth }
{
    typing_computed();
}

/// The rules of statements and their computation say the same: it gives the typed statements and
/// the state behind, and refuses with the code and at the place that the rules name.
pub fn statements_computed()
    ensures statements { StatementsComputed }
    ensures refusals { RefusalsComputed }
{
    typing_computed();
}

/// Each list of modules is one program, or is refused in one way, and never both.
pub fn one_program()
    ensures each { EachProgram }
    ensures program { OneProgram }
    ensures refusal { OneReason }
    ensures apart { NeverBoth }
{
    typing_computed();
}

/// The rules of programs and their computation say the same.
pub fn programs_computed()
    ensures programs { ProgramsComputed }
    ensures refusals { ReasonsComputed }
{
    typing_computed();
}

/// A procedure is found to name a global exactly where a use of it stands in its body, or in that
/// of a procedure which it calls, and so on.
pub fn names_found()
    ensures { NamesFound }
{}

/// The places that statements and procedures declare are numbered one by one, in order of text:
/// those of a statement from the next number on, up to the next one behind it; of a procedure its
/// parameters, its result, and what its body declares.
pub fn places_numbered()
    ensures statements { PlacesNumbered }
    ensures procedures { ProcedureNumbered }
{}

/// The nodes of typed statements are numbered one by one, in order of text: those of a statement
/// from the next number on, up to the next one behind it; and those of the body of a procedure.
pub fn statements_numbered()
    ensures statements { NodesNumbered }
    ensures bodies { BodyNumbered }
{
    nodes_numbered();
}

/// A type of a section is found to contain another exactly where that is a part of it, or of one of
/// its parts, and so on; and it is found to be known exactly where it is defined and all types of
/// the section in it are known.
pub fn types_found()
    ensures containment { ContainmentFound }
    ensures known { KnownFound }
{}

/// What is said of small modules, and what some of them are.
pub fn examples()
    ensures statements { Holds statement_rows }
    ensures loops { Holds loop_rows }
    ensures cases { Holds case_rows }
    ensures variables { Holds variable_rows }
    ensures constants { Holds constant_rows }
    ensures scopes { Holds scope_rows }
    ensures types { Holds type_rows }
    ensures procedures { Holds procedure_rows }
    ensures distinct { Holds distinct_rows }
    ensures globals { Holds global_rows }
    ensures left_out { Holds left_out_rows }
    ensures order { Holds order_rows }
    ensures edges { Holds edge_rows }
    ensures programs { program_answers ≡ expected_programs }
{}
