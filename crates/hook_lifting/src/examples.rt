// What the hooks of a small type are, and what they come to.
ghost use Rattle.std.specs.Prelude.{◌≡◌, ◌∷◌, [], Some, None};
ghost use Rattle.flat_code.specs.declared.line.Line.TheVariants as line;
ghost use Rattle.hook_lifting.specs.declared.lifted.Hook.TheVariants as hook;
ghost use Rattle.hook_lifting.specs.declared.lifted.LiftedLine.TheVariants as lifted;
ghost use Rattle.hook_lifting.specs.Examples.{lines, a_part, live_after, live_by_walk};

/// The hooks of a tuple of a text, a sequence of texts and an int: each part is copied, and the int
/// needs no end. A copy of ("ab", @["x"], 7) has three blocks of its own, and where that ends,
/// nothing is live.
pub fn lifted_examples()
    ensures copies { lines hook.Copies ≡ a_part hook.Copies 0 0 (a_part hook.Copies 2 1
        (a_part hook.Copies 1 2 (lifted.Plain (line.Return None) ∷ []))) }
    ensures ends { lines hook.Ends ≡ a_part hook.Ends 0 0 (a_part hook.Ends 2 1
        (lifted.Plain (line.Return None) ∷ [])) }
    ensures copied { live_after hook.Copies 1 0 ≡ Some 6 }
    ensures copied_by_walk { live_by_walk hook.Copies 1 0 ≡ 6 }
    ensures ended { live_after hook.Ends 0 0 ≡ Some 0 }
    ensures ended_by_walk { live_by_walk hook.Ends 0 0 ≡ 0 }
{}
