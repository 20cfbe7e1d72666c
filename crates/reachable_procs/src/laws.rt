// The laws of code without what no call can reach.
ghost use Rattle.std.specs.Prelude.{◌≡◌, ◌≤◌, ℕ, true, List};
ghost use Rattle.rv32_isa.specs.Machine.{Lives};
ghost use Rattle.word_code.specs.declared.word.WordCode.{WordCode};
ghost use Rattle.word_code.specs.Words.{Fresh, is_word_code, word_by_units, word_meaning};
ghost use Rattle.word_code.specs.Sizes.{AreRanked, has_no_circle, longest_chain};
ghost use Rattle.reachable_procs.specs.Reachable.{IsPruned};

/// Of well-formed code the pruned one is well formed, and does the same, line by line, also with so
/// many units. Where procedures that don't count call only what has a lower rank, those that are left
/// call each other in no circle, and in chains of as many levels as there are ranks at most.
pub fn pruning()
    ensures meaning { (code pruned : WordCode) → IsPruned code pruned → is_word_code code ≡ true
        → (live : Lives) (fresh : Fresh) (heap stack : ℕ) (input : List ℕ) (n : ℕ) →
        word_meaning live pruned fresh heap stack input n ≡ word_meaning live code fresh heap stack input n }
    ensures by_units { (code pruned : WordCode) → IsPruned code pruned → is_word_code code ≡ true
        → (live : Lives) (fresh : Fresh) (heap stack : ℕ) (input : List ℕ) (units n : ℕ) →
        word_by_units live pruned fresh heap stack input units n ≡ word_by_units live code fresh heap stack input units n }
    ensures formed { (code pruned : WordCode) → IsPruned code pruned → is_word_code code ≡ true
        → is_word_code pruned ≡ true }
    ensures no_circle { (code pruned : WordCode) → IsPruned code pruned → (rank : ℕ → ℕ)
        → AreRanked rank code.procs → has_no_circle pruned.procs ≡ true }
    ensures chain { (code pruned : WordCode) → IsPruned code pruned → (rank : ℕ → ℕ)
        → AreRanked rank code.procs → (most : ℕ) → ((n : ℕ) → rank n ≤ most)
        → longest_chain pruned.procs ≤ most }
{}
