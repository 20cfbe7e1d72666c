//! What the meaning of a whole program is never, what it leaves, and what its statements keep.

ghost use Rattle.std.specs.Prelude.{◌≡◌, ℕ, Bool, List, true, None};
ghost use Rattle.arc_base.specs.Behaviour.{Sound};
ghost use Rattle.nim_types.specs.declared.types.TypeDef.{TypeDef};
ghost use Rattle.nim_types.specs.Table.{facts_in};
ghost use Rattle.nim_plan.specs.declared.plan.Plan.{Plan};
ghost use Rattle.nim_program.specs.Program.{Program, Body, Stmt};
ghost use Rattle.nim_program.specs.Numbering.{is_numbered_program};
ghost use Rattle.nim_program.specs.Scopes.{Placed};
ghost use Rattle.nim_program.specs.Typed.{IsTyped, Around};
ghost use Rattle.nim_meaning.specs.LeftOut.{first_left_out};
ghost use Rattle.nim_meaning.specs.Meaning.{meaning};
ghost use Rattle.lending_laws.specs.Apart.{AreLentApart};
ghost use Rattle.holders.specs.Released.{LeavesNoBlock};
ghost use Rattle.holders.specs.Holdings.{body_at, StatementOf, KeepsUnnamed};

use decl_rules::names_found;
use nim_meaning::meanings;

/// A typed program without hooks of its own that lends no place twice is never at a fault, nor
/// wrong, whatever it reads, and however large its heap is.
pub fn sound()
    ensures { (program : Program) (table : List TypeDef) → program.facts ≡ facts_in table →
        IsTyped program → is_numbered_program program ≡ true → AreLentApart program →
        first_left_out program ≡ None → (plan : Plan) (heap : ℕ) (input : List ℕ) →
        Sound (meaning program plan heap input) }
{
    names_found();
}

/// Where its start code comes to its end no block is live: each that it took was given back, once.
pub fn released()
    ensures { (program : Program) (table : List TypeDef) → program.facts ≡ facts_in table →
        IsTyped program → is_numbered_program program ≡ true → AreLentApart program →
        first_left_out program ≡ None → (plan : Plan) (heap : ℕ) (input : List ℕ) →
        LeavesNoBlock program plan heap input }
{
    names_found();
    meanings();
}

/// Strings and sequences are values: what a place holds changes only by a statement that names it.
/// Behind a statement of a body each cell that no named place has holds what it held, with the
/// contents of its blocks, whatever the statement does, and by whichever way it is left.
pub fn contents()
    ensures { (program : Program) (table : List TypeDef) → program.facts ≡ facts_in table →
        IsTyped program → is_numbered_program program ≡ true → AreLentApart program →
        first_left_out program ≡ None → (plan : Plan) (left level : ℕ) (body : Body) (filled : ℕ)
        (places : List Placed) (kept : ℕ → Bool) (around : Around) (stmt : Stmt) →
        StatementOf program (body_at program plan left level body) body filled places kept around stmt →
        KeepsUnnamed program (body_at program plan left level body) body filled places kept stmt }
{
    names_found();
}
