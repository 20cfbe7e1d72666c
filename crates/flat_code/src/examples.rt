// What small flat code comes to, and what fits.
ghost use Rattle.std.specs.Prelude.{◌≡◌, [], codes};
ghost use Rattle.arc_base.specs.Behaviour.{Running};
ghost use Rattle.flat_code.specs.Codes.{owned_meaning, block_meaning};
ghost use Rattle.flat_code.specs.Examples as code;
ghost use Rattle.flat_code.specs.Examples.{Comes_to, IsAtFault, Fits_places, Fits_none, Leads};
ghost use Rattle.flat_code.specs.Examples.{Leads_astray};

/// What small code comes to, in flat code and as owned and block code: a loop in a procedure, an
/// element by its location, also of a constant, a trap; and what is at a fault: a temporary or a place that got nothing,
/// a label that isn't there, a jump back, an element or a number that isn't there, no line more.
pub fn flat_examples()
    ensures summing { Comes_to (code.shown (code.summing 4)) 100 [] [] 10 }
    ensures summing_below { Comes_to (code.shown (code.summing_below 4)) 100 [] [] 6 }
    ensures summing_none { Comes_to (code.shown (code.summing 0)) 100 [] [] 0 }
    ensures summing_owned { Comes_to (owned_meaning code.table (code.as_owned (code.summing 4)) 0 []) 100 [] [] 10 }
    ensures summing_blocks { Comes_to (block_meaning code.table (code.as_blocks (code.summing 4)) 0 []) 100 [] [] 10 }
    ensures summing_nothing { IsAtFault (code.shown code.summing_nothing) 1 }
    ensures bumping { Comes_to (code.shown (code.bumping 0)) 100 (codes "9\n0\n") [] 0 }
    ensures bumping_outside { Comes_to (code.shown (code.bumping 3)) 100 (codes "9\n")
        (codes "Error: index out of bounds\n") 1 }
    ensures standing { Comes_to (code.shown (code.standing 1)) 100 (codes "6\n") [] 0 }
    ensures standing_outside { Comes_to (code.shown (code.standing 3)) 100 []
        (codes "Error: index out of bounds\n") 1 }
    ensures filled { Comes_to (code.shown code.filled) 6 (codes "5\n") [] 0 }
    ensures unset { IsAtFault (code.shown code.unset) 1 }
    ensures unfilled { IsAtFault (code.shown code.unfilled) 1 }
    ensures unlabelled { IsAtFault (code.shown code.unlabelled) 1 }
    ensures jumping_back { IsAtFault (code.shown code.jumping_back) 2 }
    ensures turning { (code.shown code.turning 100).phase ≡ Running }
    ensures running_out { IsAtFault (code.shown code.running_out) 2 }
    ensures next_of_last { IsAtFault (code.shown code.next_of_last) 3 }
    ensures no_element { IsAtFault (code.shown code.no_element) 4 }
{}

/// Which of these fit the types of their places, and lead somewhere.
pub fn form_examples()
    ensures summing { Fits_places (code.summing 4) }
    ensures bumping { Fits_places (code.bumping 3) }
    ensures place_written { Fits_places code.place_written }
    ensures fresh_written { Fits_none code.fresh_written }
    ensures standing { Fits_places (code.standing 1) }
    ensures standing_written { Fits_none code.standing_written }
    ensures standing_as_place { Fits_none code.standing_as_place }
    ensures bumping_value { Fits_none code.bumping_value }
    ensures int_as_char { Fits_none code.int_as_char }
    ensures int_decides { Fits_none code.int_decides }
    ensures no_result { Fits_none code.no_result }
    ensures summing_leads { Leads (code.summing 4) }
    ensures turning_leads { Leads code.turning }
    ensures unlabelled { Leads_astray code.unlabelled }
    ensures jumping_back { Leads_astray code.jumping_back }
    ensures running_out { Leads_astray code.running_out }
{}
