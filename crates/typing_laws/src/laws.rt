// The laws of typed programs.
ghost use Rattle.std.specs.Prelude.{◌≡◌, ◌≤◌, ◌<◌, ◌⊎◌, ℕ, Bool, true, false, List, length, Ok, Option, None};
ghost use Rattle.arc_base.specs.declared.place.Place.{Place};
ghost use Rattle.nim_tree.specs.Statements.{Head, Statements};
ghost use Rattle.nim_program.specs.declared.nodes.TheConstants.{MOST_NODES};
ghost use Rattle.nim_program.specs.Numbering.{is_numbered};
ghost use Rattle.decl_rules.specs.State.{State, Stated, in_body};
ghost use Rattle.decl_rules.specs.Heads.{Headed, Signature, head_by};
ghost use Rattle.decl_rules.specs.Bodies.{params_from, result_of, before_body, body_of};
ghost use Rattle.decl_rules.specs.Rules.{AreStated};
ghost use Rattle.nim_tree.specs.Terms.{Term};
ghost use Rattle.nim_types.specs.Table.{types_in};
ghost use Rattle.nim_program.specs.declared.program.Program.{Program as RustProgram};
ghost use Rattle.nim_program.specs.Numbering.{is_numbered_program};
ghost use Rattle.nim_program.specs.Typed.{IsTyped as IsTypedProgram};
ghost use Rattle.decl_rules.specs.Elaborated.{Module};
ghost use Rattle.decl_rules.specs.ProgramRules.{IsProgram};
ghost use Rattle.typing_laws.specs.Reached.{IsReached};
ghost use Rattle.typing_laws.specs.Programs.{IsWholeTable, NodesWithin, over_table};
ghost use Rattle.nim_program.specs.Program.{Expr};
ghost use Rattle.nim_program.specs.Scopes.{Here};
ghost use Rattle.nim_program.specs.Typed.{is_typed};
ghost use Rattle.expr_rules.specs.Env.{Env};
ghost use Rattle.expr_rules.specs.Answers.{Want, wanted};
ghost use Rattle.expr_rules.specs.Rules.{IsTyped};
ghost use Rattle.typing_laws.specs.Trees.{IsRead, ModulesRead};
ghost use Rattle.typing_laws.specs.Knows.{KnowsWell, IfSound};
ghost use Rattle.nim_types.specs.Types.{Ty, Facts};
ghost use Rattle.nim_program.specs.declared.expr.Node.{Node};
ghost use Rattle.nim_program.specs.declared.operation.Use.{Use};
ghost use Rattle.nim_program.specs.declared.operation.Use.TheVariants.{Lent, Looked};
ghost use Rattle.nim_program.specs.Program.{Literal, Characters, Giving, Apply, NoArg};
ghost use Rattle.nim_program.specs.Defaults.{default_literal};
ghost use Rattle.nim_meaning.specs.Values.{Fixed, literal_value, default_of};
ghost use Rattle.nim_meaning.specs.Here.{Here as Run, is_hooked};
ghost use Rattle.nim_meaning.specs.Runs.{is_plain_value};
ghost use Rattle.nim_meaning.specs.Meaning.{eval};
ghost use Rattle.expr_rules.specs.Constants.{value_in, comes_to};
ghost use Rattle.typing_laws.specs.Sound.{AreSound};
ghost use Rattle.typing_laws.specs.Given.{AlwaysGives};

use decl_rules::{places_numbered, statements_computed, statements_numbered, types_found};
use expr_rules::{calls_computed, typing_computed};
use nim_program::ints;

/// What stands for a term is typed, where the declarations around are true of the program.
pub fn exprs_typed()
    ensures { (here : Here) (env : Env) → KnowsWell here env →
        (want : Want) → IfSound here.facts (wanted want) →
        (n m : ℕ) (t : Term) (e : Expr) → IsRead t → IsTyped env want n t e m →
        is_typed here e ≡ true }
{
    calls_computed();
    ints();
}

/// The body of a procedure has its nodes and places numbered in order of text, where its nodes have
/// numbers that there are.
pub fn bodies_numbered()
    ensures { (st : State) (h : Head) (k : Headed) (body : Statements) (s : Stated) →
        AreStated (in_body (result_of st h k)) (result_of st h k) (before_body st h k) body s →
        s.state.node ≤ MOST_NODES →
        is_numbered (params_from st.place k.signature.params) (body_of st h k s) ≡ true }
{
    statements_numbered();
    places_numbered();
}

/// In each state that the rules reach, what a head completes is a procedure that is declared.
pub fn completed_there()
    ensures { (st : State) → IsReached st → (at : Place) (h : Head) (b : Bool) (s : Signature)
        (k : Headed) → head_by st at h b s ≡ Ok k → k.is_new ≡ false →
        k.number < length st.procs }
{
    statements_computed();
    places_numbered();
}

/// A program that the rules accept is typed, and numbered in order of text: where its modules are
/// read, the types of its table have forms, and its nodes have numbers that there are.
pub fn typed_programs()
    ensures { (p : RustProgram) (all : List Module) →
        IsProgram (types_in p.types) all (over_table p) → ModulesRead all →
        IsWholeTable p.types → NodesWithin all →
        IsTypedProgram (over_table p) × (is_numbered_program (over_table p) ≡ true) }
{
    calls_computed();
    typing_computed();
    ints();
    types_found();
    statements_computed();
    places_numbered();
    statements_numbered();
}

/// What the declarations of a program say of its types is sound: fields and bases have forms, and
/// what a distinct type is goes by its base. The premises are those of `typed_programs`.
pub fn types_sound()
    ensures { (p : RustProgram) (all : List Module) →
        IsProgram (types_in p.types) all (over_table p) → ModulesRead all →
        IsWholeTable p.types → NodesWithin all → AreSound (over_table p).facts }
{
    calls_computed();
    typing_computed();
    ints();
    types_found();
    statements_computed();
    places_numbered();
    statements_numbered();
}

/// A typed expression without hooks that is constant by the rules has its value in every state:
/// it writes nothing and changes nothing. So has the literal of a text where it is only read: nobody
/// owns it. And a place without hooks starts at the default of its type that the rules speak of.
pub fn constant_values()
    ensures value { (around : Here) (run : Run) → run.facts ≡ around.facts →
        AreSound around.facts → (e : Expr) (l : Literal) → is_typed around e ≡ true →
        is_plain_value (is_hooked around.facts) e ≡ true →
        value_in around.facts e ≡ comes_to l →
        (how : Use) → AlwaysGives (eval e how run) (literal_value l) }
    ensures text { (run : Run) (node : Node) (ty : Option Ty) (text : List ℕ) (how : Use) →
        (how ≡ Lent) ⊎ (how ≡ Looked) →
        AlwaysGives (eval (Apply node ty (Giving (Characters text)) NoArg) how run) (Fixed text) }
    ensures defaults { (facts : Facts) (ty : Ty) → is_hooked facts ty ≡ false →
        literal_value (default_literal facts ty) ≡ default_of facts ty }
{
    ints();
}
