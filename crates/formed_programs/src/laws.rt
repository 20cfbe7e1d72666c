// The law of typed programs and flat code.
ghost use Rattle.std.specs.Prelude.{◌≡◌, true, List};
ghost use Rattle.nim_types.specs.declared.types.TypeDef.{TypeDef};
ghost use Rattle.nim_types.specs.Table.{types_in, facts_in};
ghost use Rattle.nim_program.specs.Program.{Program};
ghost use Rattle.nim_program.specs.Typed.{IsTyped};
ghost use Rattle.nim_program.specs.Numbering.{is_numbered_program};
ghost use Rattle.nim_program.specs.Sizes.{HaveForms};
ghost use Rattle.flattening.specs.Formed.{IsFormed};

/// A typed program, numbered in order of text, is one whose flat code does what it means, whatever
/// its types are.
pub fn formed()
    ensures { (program : Program) → IsTyped program → is_numbered_program program ≡ true →
        IsFormed program }
{}

/// The types of a typed program's table have forms: none contains itself.
pub fn table_forms()
    ensures { (table : List TypeDef) (program : Program) → program.types ≡ types_in table →
        program.facts ≡ facts_in table → IsTyped program → HaveForms table }
{}
