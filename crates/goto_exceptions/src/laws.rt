// The law of block code.
ghost use Rattle.std.specs.Prelude.{◌≡◌, ℕ, List};
ghost use Rattle.nim_types.specs.declared.types.TypeDef.{TypeDef};
ghost use Rattle.flat_code.specs.declared.block.BlockLine.TheVariants.{Plain};
ghost use Rattle.flat_code.specs.declared.code.Code.{Code};
ghost use Rattle.flat_code.specs.declared.owned.OwnedLine.{OwnedLine};
ghost use Rattle.flat_code.specs.Codes.{owned_meaning, block_meaning, owned_within, block_within, by_lines};

/// Owned code shows, as block code, the same after each number of lines, with the same work, also by
/// units.
pub fn block_codes()
    ensures lines { (table : List TypeDef) (owned : Code OwnedLine) (heap : ℕ) (input : List ℕ) (n : ℕ) →
        block_meaning table (by_lines Plain owned) heap input n
        ≡ owned_meaning table owned heap input n }
    ensures units { (table : List TypeDef) (owned : Code OwnedLine) (units heap : ℕ) (input : List ℕ)
        (n : ℕ) → block_within table (by_lines Plain owned) units heap input n
        ≡ owned_within table owned units heap input n }
{}
