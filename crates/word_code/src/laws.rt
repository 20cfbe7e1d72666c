// The laws of word code.
ghost use Rattle.std.specs.Prelude.{◌≡◌, ◌≢◌, ◌+◌, ℕ, length, List};
ghost use Rattle.arc_base.specs.Behaviour.{Steady, Wrong};
ghost use Rattle.rv32_isa.specs.Machine.{Lives};
ghost use Rattle.word_code.specs.declared.word.WordCode.{WordCode};
ghost use Rattle.word_code.specs.Words.{Fresh, word_by_units, word_meaning};
ghost use Rattle.word_code.specs.Joined.{joined};

/// What word code has shown only grows, and it is never wrong, whatever the bytes are that nobody
/// has written; and the same with so many units.
pub fn words()
    ensures steady { (live : Lives) (code : WordCode) (fresh : Fresh) (heap stack : ℕ)
        (input : List ℕ) → Steady (word_meaning live code fresh heap stack input) }
    ensures right { (live : Lives) (code : WordCode) (fresh : Fresh) (heap stack : ℕ)
        (input : List ℕ) (n : ℕ) →
        (word_meaning live code fresh heap stack input n).phase ≢ Wrong }
    ensures by_units { (live : Lives) (code : WordCode) (fresh : Fresh) (heap stack : ℕ)
        (input : List ℕ) (units : ℕ) → Steady (word_by_units live code fresh heap stack input units) }
    ensures units_right { (live : Lives) (code : WordCode) (fresh : Fresh) (heap stack : ℕ)
        (input : List ℕ) (units n : ℕ) →
        (word_by_units live code fresh heap stack input units n).phase ≢ Wrong }
{}

/// Two codes that are joined have the data of both.
pub fn joining()
    ensures statics { (code other : WordCode) →
        length (joined code other).statics ≡ length code.statics + length other.statics }
{}
