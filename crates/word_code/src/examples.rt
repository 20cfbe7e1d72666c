// What small programs in word code come to.
ghost use Rattle.std.specs.Prelude.{◌≡◌, [], ◌∷◌, codes};
ghost use Rattle.arc_base.specs.Event.{Hook};
ghost use Rattle.arc_base.specs.Behaviour.{Running, Ended, Faulted, no_objects};
ghost use Rattle.word_code.specs.Words.{Fresh, word_meaning};
ghost use Rattle.word_code.specs.Joined.{joined};
ghost use Rattle.word_code.specs.declared.word.ProcKind.TheVariants.{Counted, Uncounted};
ghost use Rattle.word_code.specs.WordExamples as word;
ghost use Rattle.word_code.specs.WordExamples.{none_live, Comes_to};

/// The sum in word code; memory, input and data; calls; places that nobody has written. All but the
/// last are so whatever bytes such places bring.
pub fn word_examples()
    ensures summing { (fresh : Fresh) →
        (word_meaning none_live word.sum_code fresh 0 65536 [] 100).phase ≡ Ended 10 no_objects }
    ensures summing_work { (fresh : Fresh) →
        (word_meaning none_live word.sum_code fresh 0 65536 [] 100).work ≡ 57 }
    ensures overflowing { (fresh : Fresh) →
        Comes_to (word_meaning none_live word.overflowing fresh 0 65536 []) 30
        [] (codes "Error: overflow\n") 1 }
    ensures echoing { (fresh : Fresh) →
        Comes_to (word_meaning none_live word.echoing fresh 0 65536 (codes "bat")) 8
        (codes "cat") [] 3 }
    ensures joining { (fresh : Fresh) →
        Comes_to (word_meaning none_live (joined word.calling word.writing) fresh 0 65536 [])
        6 (codes "there\n") [] 6 }
    ensures hooking { (fresh : Fresh) →
        (word_meaning none_live word.hooking fresh 0 65536 [] 1).events ≡ Hook 0 5 ∷ [] }
    ensures careless { (fresh : Fresh) →
        (word_meaning none_live word.careless fresh 0 65536 [] 1).phase ≡ Faulted }
    ensures not_yet_careless { (fresh : Fresh) →
        (word_meaning none_live word.careless fresh 0 65536 [] 0).phase ≡ Running }
    ensures nameless { (fresh : Fresh) →
        (word_meaning none_live word.nameless fresh 0 65536 [] 0).phase ≡ Faulted }
    ensures diving { (fresh : Fresh) →
        (word_meaning none_live (word.diving Counted) fresh 0 65536 [] 2001).phase ≡ Faulted }
    ensures still_diving { (fresh : Fresh) →
        (word_meaning none_live (word.diving Counted) fresh 0 65536 [] 2000).phase ≡ Running }
    ensures uncounted { (fresh : Fresh) →
        (word_meaning none_live (word.diving Uncounted) fresh 0 65536 [] 2001).phase ≡ Running }
    ensures strange { (fresh : Fresh) →
        (word_meaning none_live word.strange fresh 0 65536 [] 0).phase ≡ Faulted }
    ensures seen_start { (fresh : Fresh) →
        (word_meaning none_live word.seen_start fresh 0 65536 [] 0).phase ≡ Faulted }
    ensures unwritten { (word_meaning none_live word.unwritten word.left_over 0 65536 [] 6).phase
        ≡ Ended 7 no_objects }
{}
