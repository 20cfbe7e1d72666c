// What the flat code of small programs comes to: what the programs mean, as `nim_meaning` states it.
ghost use Rattle.std.specs.Prelude.{◌≡◌, codes};
ghost use Rattle.nim_meaning.specs.NumberExamples as numbers;
ghost use Rattle.nim_meaning.specs.PlaceExamples as places;
ghost use Rattle.nim_meaning.specs.LoopExamples as loops;
ghost use Rattle.formed_programs.specs.Examples.{gathering, listing, Flat_prints, Flat_quits};
ghost use Rattle.formed_programs.specs.Examples.{Flat_fails, Flat_runs};

/// The flat code of small programs: elements, `var` parameters, objects, tuples, constants,
/// branches, loops and ways out of them, calls, conversions, and traps.
pub fn flat_examples()
    ensures placing { Flat_fails places.placing 3 (codes "2 1 20\n35\n")
        (codes "Error: index out of bounds\n") }
    ensures aiming { Flat_prints places.aiming_in_turn 3 (codes "12 20\n22 2\n30 12\n") }
    ensures handing_on { Flat_fails places.handing_on 3 (codes "21 21\n")
        (codes "Error: index out of bounds\n") }
    ensures one_place { Flat_prints places.one_place 1 (codes "6\n") }
    ensures nesting { Flat_fails places.nesting 0 (codes "560\n")
        (codes "Error: index out of bounds\n") }
    ensures building { Flat_prints places.building 0 (codes "04\n4334\n") }
    ensures gathering { Flat_prints gathering 2 (codes "18 5\n") }
    ensures moving { Flat_prints places.moving 0 (codes "20 0\n") }
    ensures constants { Flat_prints places.constants 0 (codes "2 4\n") }
    ensures constant_in_place { Flat_prints places.constant_in_place 0 (codes "2\n") }
    ensures listing { Flat_prints listing 3 (codes "1\n2\n4\n") }
    ensures converting { Flat_fails numbers.converting 0 (codes "A65green7\n")
        (codes "Error: value out of range\n") }
    ensures stopping_early { Flat_fails numbers.stopping_early 0 (codes "falsetrue\n")
        (codes "Error: division by zero\n") }
    ensures selecting { Flat_prints loops.selecting 6 (codes "11 21 0 21 21 0\n") }
    ensures choosing { Flat_prints loops.choosing 0 (codes "22\n") }
    ensures covering { Flat_prints loops.covering 0 (codes "2\n4\n") }
    ensures breaking { Flat_prints loops.breaking 12 (codes "0\n1\n20\n21\n") }
    ensures breaking_on { Flat_runs loops.breaking 11 (codes "0\n1\n20\n21\n") }
    ensures found_anew { Flat_prints loops.found_anew 3 (codes "10\n20\n7\n") }
    ensures shortening { Flat_fails loops.shortening 1 (codes "10\n")
        (codes "Error: length changed\n") }
    ensures endless { Flat_runs loops.endless 3 (codes "0\n1\n2\n") }
    ensures quitting { Flat_quits loops.quitting 2 255 (codes "before\n") }
    ensures doubling { Flat_prints loops.doubling 4 (codes "6\n") }
{}
