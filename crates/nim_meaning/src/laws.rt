// The laws of the meaning.
ghost use Rattle.std.specs.Prelude.{◌≡◌, ◌≤◌, ℕ, true, List};
ghost use Rattle.arc_base.specs.Behaviour.{Steady};
ghost use Rattle.nim_plan.specs.declared.plan.Plan.{Plan};
ghost use Rattle.nim_program.specs.Program.{Program};
ghost use Rattle.nim_meaning.specs.Heap.{demand};
ghost use Rattle.nim_meaning.specs.Meaning.{meaning, goes_through, at_first};
ghost use Rattle.nim_meaning.specs.Kept.{IsKept, IsAlways, Framed, IsBalanced, IsOnce, IsAskedFor};

/// With more units a meaning shows more, and what has ended stays so. Where the start code comes to
/// its end, no call is active. The demand never passes the heap, and the history of blocks agrees
/// with those that are live: each is born once, and ends at most once. The demand is the sum over
/// the sizes of the most blocks that were live at one time.
pub fn meanings()
    ensures steady { (program : Program) (plan : Plan) (heap : ℕ) (input : List ℕ) →
        Steady (meaning program plan heap input) }
    ensures framed { (program : Program) (plan : Plan) (heap : ℕ) (input : List ℕ) (n : ℕ) →
        IsKept (λ flow. Framed 0) (goes_through program plan (at_first program heap input n)) }
    ensures demand { (program : Program) (plan : Plan) (heap : ℕ) (input : List ℕ) (n : ℕ) →
        IsAlways (λ world. demand world.heap.classes ≤ heap)
        (goes_through program plan (at_first program heap input n)) }
    ensures balanced { (program : Program) (plan : Plan) (heap : ℕ) (input : List ℕ) (n : ℕ) →
        IsAlways IsBalanced (goes_through program plan (at_first program heap input n)) }
    ensures once { (program : Program) (plan : Plan) (heap : ℕ) (input : List ℕ) (n : ℕ) →
        IsAlways IsOnce (goes_through program plan (at_first program heap input n)) }
    ensures asked { (program : Program) (plan : Plan) (heap : ℕ) (input : List ℕ) (n : ℕ) →
        IsAlways IsAskedFor (goes_through program plan (at_first program heap input n)) }
{}
