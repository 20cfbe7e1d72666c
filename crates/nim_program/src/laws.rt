// The laws of folds and of typed programs.
ghost use Rattle.std.specs.Prelude.{◌≡◌, true, false, not, [], ◌∷◌};
ghost use Rattle.nim_program.specs.Folds.{nodes, block_nodes};
ghost use Rattle.nim_program.specs.FoldExamples.{branching, selecting, trying, bytes_of, field_read};
ghost use Rattle.nim_program.specs.FoldExamples.{field_of_ref, length_of, assigned};
ghost use Rattle.nim_program.specs.FoldExamples.{constant_element};
ghost use Rattle.nim_program.specs.FoldExamples.{counting_bytes};
ghost use Rattle.nim_program.specs.Typed.{module_code, is_typed, is_typed_stmt, is_typed_block};
ghost use Rattle.nim_program.specs.Typed.{is_typed_program};
ghost use Rattle.nim_program.specs.Numbering.{is_numbered_program};
ghost use Rattle.nim_program.specs.ExampleParts.{here};
ghost use Rattle.nim_program.specs.TypedExamples.{all, typed_exprs, untyped_exprs, typed_stmts};
ghost use Rattle.nim_program.specs.TypedExamples.{untyped_stmts, declaring, declaring_other};
ghost use Rattle.nim_program.specs.TypedExamples.{calling_behind, calling_before, declaring_none};
ghost use Rattle.nim_program.specs.TypedExamples.{calling_hook, destroying, copying};
ghost use Rattle.nim_program.specs.TypedExamples.{destroying_two, numbered_twice};

/// Nodes in order of text, and bytes of nodes and places.
pub fn fold_examples()
    ensures branching { block_nodes branching ≡ 0 ∷ 1 ∷ 2 ∷ 3 ∷ 4 ∷ 5 ∷ [] }
    ensures selecting { block_nodes selecting ≡ 0 ∷ 1 ∷ 2 ∷ 3 ∷ 4 ∷ [] }
    ensures trying { block_nodes trying ≡ 0 ∷ 1 ∷ 2 ∷ 3 ∷ 4 ∷ 5 ∷ 6 ∷ 7 ∷ [] }
    // What is read in place has 8 bytes, whatever its type.
    ensures field_read { bytes_of field_read ≡ 12 }
    ensures field_of_ref { bytes_of field_of_ref ≡ 16 }
    ensures length_of { bytes_of length_of ≡ 12 }
    ensures assigned { bytes_of assigned ≡ 12 }
    ensures constant_element { bytes_of constant_element ≡ 16 }
    ensures constant_nodes { nodes constant_element ≡ 0 ∷ 1 ∷ 2 ∷ [] }
    // A place has its bytes, unless it is a global.
    ensures counting { counting_bytes 9 ≡ 28 }
    ensures counting_global { counting_bytes 4 ≡ 20 }
{}

/// Expressions, statements and programs that are typed, and others that aren't.
pub fn typed_examples()
    ensures exprs { all (is_typed here) typed_exprs ≡ true }
    ensures no_exprs { all (λ e. not (is_typed here e)) untyped_exprs ≡ true }
    ensures stmts { all (is_typed_stmt here module_code) typed_stmts ≡ true }
    ensures no_stmts { all (λ s. not (is_typed_stmt here module_code s)) untyped_stmts ≡ true }
    ensures block { is_typed_block here module_code declaring ≡ true }
    ensures no_block { is_typed_block here module_code declaring_other ≡ false }
    ensures program { is_typed_program calling_behind ≡ true }
    ensures not_before { is_typed_program calling_before ≡ false }
    ensures not_declared { is_typed_program declaring_none ≡ false }
    ensures not_hook { is_typed_program calling_hook ≡ false }
    ensures destroy { is_typed_program destroying ≡ true }
    ensures copy { is_typed_program copying ≡ true }
    ensures not_two { is_typed_program destroying_two ≡ false }
    ensures numbered { is_numbered_program calling_behind ≡ true }
    ensures not_twice { is_numbered_program numbered_twice ≡ false }
{}
