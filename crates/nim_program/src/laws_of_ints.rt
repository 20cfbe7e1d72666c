// The laws of operations on numbers.
ghost use Rattle.std.specs.Prelude.{◌≡◌, ◌+ℤ◌, ◌*ℤ◌, ◌*◌, ◌/◌, ◌%◌, ◌<◌, ◌↔◌, IsTrue, FitsSigned};
ghost use Rattle.std.specs.Prelude.{ℕ, ℤ, pos, unsigned_abs, int_div, int_rem};
ghost use Rattle.std.specs.Int.{w32};
ghost use Rattle.nim_program.specs.declared.operation.Operator.{Operator};
ghost use Rattle.nim_program.specs.declared.operation.UnaryOperator.{UnaryOperator};
ghost use Rattle.nim_program.specs.Ints.{fits, Fine, applied, applied_to, low_byte};

/// The ints are the numbers of 32 bits, and operations on them give no others. A quotient is
/// rounded toward zero.
pub fn ints()
    ensures range { (z : ℤ) → IsTrue (fits z) ↔ FitsSigned w32 z }
    ensures closed { (operator : Operator) (x y z : ℤ) → IsTrue (fits x) →
        applied operator x y ≡ Fine z → IsTrue (fits z) }
    ensures closed_one { (operator : UnaryOperator) (x z : ℤ) → IsTrue (fits x) →
        applied_to operator x ≡ Fine z → IsTrue (fits z) }
    ensures quotient { (x y : ℤ) → unsigned_abs (int_div x y) ≡ unsigned_abs x / unsigned_abs y }
    ensures remainder { (x y : ℤ) → int_div x y *ℤ y +ℤ int_rem x y ≡ x }
    ensures below { (x y : ℤ) → 0 < unsigned_abs y → unsigned_abs (int_rem x y) < unsigned_abs y }
    ensures status { (z : ℤ) (turns word : ℕ) →
        z +ℤ pos (turns * 256) ≡ pos word → low_byte z ≡ word % 256 }
{}
