// The laws of the codes.
ghost use Rattle.std.specs.Prelude.{◌≡◌, ◌≤◌, ◌+◌, ℕ, List, [], Option, Bool, true, ◌&&◌, Some};
ghost use Rattle.arc_base.specs.Behaviour.{Sound, Steady};
ghost use Rattle.nim_types.specs.declared.types.TypeDef.{TypeDef};
ghost use Rattle.nim_plan.specs.declared.plan.Plan.{Plan};
ghost use Rattle.flat_code.specs.declared.code.Code.{Code};
ghost use Rattle.flat_code.specs.declared.line.Line.{Line};
ghost use Rattle.flat_code.specs.declared.owned.OwnedLine.{OwnedLine};
ghost use Rattle.flat_code.specs.declared.block.BlockLine.{BlockLine};
ghost use Rattle.flat_code.specs.Codes.{flat_meaning, owned_meaning, block_meaning, lines_in};
ghost use Rattle.flat_code.specs.Codes.{flat_plain, owned_plain, block_plain};
ghost use Rattle.flat_code.specs.Running.{Proc, ShowsAlike, at_first, runs, run_by, runs_within};
ghost use Rattle.flat_code.specs.Scene.{Scene, Did, Known};
ghost use Rattle.flat_code.specs.declared.place.FlatPlace.{FlatPlace};
ghost use Rattle.flat_code.specs.Fits.{is_value, place_named};
ghost use Rattle.flat_code.specs.BuiltCode.{is_temporary};
ghost use Rattle.flat_code.specs.Sizes.{code_weight};
ghost use Rattle.flat_code.specs.Waits.{any_waits, waiter, wait_once, waits_in};

/// What flat, owned and block code have shown only grows, and what is over stays so.
pub fn codes()
    ensures flat { (table : List TypeDef) (flat : Code Line) (plan : Plan) (heap : ℕ)
        (input : List ℕ) → Steady (flat_meaning table flat plan heap input) }
    ensures owned { (table : List TypeDef) (owned : Code OwnedLine) (heap : ℕ) (input : List ℕ) →
        Steady (owned_meaning table owned heap input) }
    ensures blocks { (table : List TypeDef) (blocks : Code BlockLine) (heap : ℕ)
        (input : List ℕ) → Steady (block_meaning table blocks heap input) }
{}

/// Code of lines `L` that may spend so many units shows what it shows by units, with no more work but
/// for a unit that is missing. That is what it shows
/// after some number of lines, so it is sound where the code is; it only grows; and it comes to a
/// standstill.
pub fn by_units<L>()
    ensures same { (label_of : L → Option ℕ) (does : Scene → L → Did) (procs : List (Proc L))
        (units heap : ℕ) (input : List ℕ) (n : ℕ) → ShowsAlike (runs_within label_of does procs units heap input n)
        (run_by label_of does procs n (at_first label_of does procs heap input) units [] 0) }
    ensures work { (label_of : L → Option ℕ) (does : Scene → L → Did) (procs : List (Proc L))
        (units heap : ℕ) (input : List ℕ) (n k : ℕ) → n ≤ k → (runs_within label_of does procs units heap input n).work
        ≤ (run_by label_of does procs k (at_first label_of does procs heap input) units [] 0).work + 1 }
    ensures front { (label_of : L → Option ℕ) (does : Scene → L → Did) (procs : List (Proc L))
        (units heap : ℕ) (input : List ℕ) (n : ℕ) → (k : ℕ) ×
        ShowsAlike (runs_within label_of does procs units heap input n) (runs label_of does procs heap input k) }
    ensures sound { (label_of : L → Option ℕ) (does : Scene → L → Did) (procs : List (Proc L))
        (units heap : ℕ) (input : List ℕ) → Sound (runs label_of does procs heap input) →
        Sound (runs_within label_of does procs units heap input) }
    ensures steady { (label_of : L → Option ℕ) (does : Scene → L → Did) (procs : List (Proc L))
        (units heap : ℕ) (input : List ℕ) → Steady (runs_within label_of does procs units heap input) }
    ensures stands { (label_of : L → Option ℕ) (does : Scene → L → Did) (procs : List (Proc L))
        (units heap : ℕ) (input : List ℕ) → (lines : ℕ) × ((more : ℕ) →
        runs_within label_of does procs units heap input (lines + more) ≡ runs_within label_of does procs units heap input lines) }
{}

/// Flat, owned and block code have no more lines than they weigh.
pub fn weights()
    ensures flat { (flat : Code Line) → lines_in flat.procs ≤ code_weight flat_plain flat.procs }
    ensures owned { (owned : Code OwnedLine) →
        lines_in owned.procs ≤ code_weight owned_plain owned.procs }
    ensures blocks { (blocks : Code BlockLine) →
        lines_in blocks.procs ≤ code_weight block_plain blocks.procs }
{}

/// Where no node is that of two temporaries, a node leads to the temporary whose value waits there.
pub fn waits()
    // What holds of one that waits there holds of it.
    ensures found { (holds : FlatPlace → Bool) (node : ℕ) (places : List FlatPlace) →
        wait_once places ≡ true → any_waits holds node places ≡ true →
        (p : FlatPlace) × ((waiter node places ≡ Some p) × (holds p ≡ true)) }
    ensures temporary { (known : Known) (places : List FlatPlace) (t node : ℕ) →
        wait_once places ≡ true → waits_in known places t node ≡ true →
        waiter node places ≡ place_named is_value places t }
    ensures hooked { (places : List FlatPlace) (node : ℕ) (p : FlatPlace) →
        wait_once places ≡ true → waiter node places ≡ Some p →
        is_temporary p.kind && p.hooked ≡ true }
{}
