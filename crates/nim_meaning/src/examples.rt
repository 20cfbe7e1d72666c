// What small programs do: examples of the meaning.
ghost use Rattle.std.specs.Prelude.{[], codes};
ghost use Rattle.nim_meaning.specs.Trees.{Prints, Works, Quits, Fails, Runs};
ghost use Rattle.arc_base.specs.Behaviour.{Ended, no_objects};
ghost use Rattle.nim_meaning.specs.TextExamples as texts;
ghost use Rattle.nim_meaning.specs.TextExamples.{Comes, Stops, Happens, no_memory, lines_read};
ghost use Rattle.nim_meaning.specs.TextExamples.{two_lists, no_label_fits, filling_up, lending};
ghost use Rattle.nim_meaning.specs.TextExamples.{giving_back, assigning, joining, part_by_part};
ghost use Rattle.nim_meaning.specs.TextExamples.{longer_in_turn, fresh_head, leaving_scopes};
ghost use Rattle.nim_meaning.specs.TextExamples.{into_block, lengths, characters, reading_lines};
ghost use Rattle.nim_meaning.specs.TextExamples.{branches, nested, two_lists_turns};
ghost use Rattle.nim_meaning.specs.TextExamples.{no_label_fits_turns, filling_up_turns};
ghost use Rattle.nim_meaning.specs.TextExamples.{lending_turns, giving_back_turns};
ghost use Rattle.nim_meaning.specs.TextExamples.{assigning_turns, joining_turns};
ghost use Rattle.nim_meaning.specs.TextExamples.{part_by_part_turns, part_by_part_short_turns};
ghost use Rattle.nim_meaning.specs.TextExamples.{longer_in_turn_turns, fresh_head_turns};
ghost use Rattle.nim_meaning.specs.TextExamples.{leaving_scopes_turns, into_block_turns};
ghost use Rattle.nim_meaning.specs.TextExamples.{lengths_turns, characters_turns};
ghost use Rattle.nim_meaning.specs.TextExamples.{reading_lines_turns, constants_turns};
ghost use Rattle.nim_meaning.specs.TextExamples.{branches_turns, nested_turns};
ghost use Rattle.nim_meaning.specs.LeftOut.{IsBuilt};
ghost use Rattle.nim_meaning.specs.ExitExamples as exits;
ghost use Rattle.nim_meaning.specs.ExitExamples.{IsLeftBy};
ghost use Rattle.nim_meaning.specs.LeftOutExamples as out;
ghost use Rattle.nim_meaning.specs.LeftOutExamples.{LeftOutAt};
ghost use Rattle.nim_meaning.specs.NumberExamples.{overflowing, underflowing, multiplying, opposite};
ghost use Rattle.nim_meaning.specs.NumberExamples.{least_div, zero_div, zero_mod, rounding, shifting};
ghost use Rattle.nim_meaning.specs.NumberExamples.{bits, stepping, ordering, stopping_early, writing};
ghost use Rattle.nim_meaning.specs.NumberExamples.{converting, above_char, below_char, all_first};
ghost use Rattle.nim_meaning.specs.PlaceExamples.{to_itself};
ghost use Rattle.nim_meaning.specs.PlaceExamples.{constants, placing, reading_at_once};
ghost use Rattle.nim_meaning.specs.PlaceExamples.{value_before_place, index_before_value, above_array};
ghost use Rattle.nim_meaning.specs.PlaceExamples.{below_array, argument_before_place, aiming_in_turn};
ghost use Rattle.nim_meaning.specs.PlaceExamples.{handing_on, one_place, copying, nesting, building};
ghost use Rattle.nim_meaning.specs.PlaceExamples.{moving, constant_in_place};
ghost use Rattle.nim_meaning.specs.LoopExamples.{choosing_in_turn};
ghost use Rattle.nim_meaning.specs.LoopExamples.{up_to_greatest, below_last, ends_once, breaking};
ghost use Rattle.nim_meaning.specs.LoopExamples.{anew_each_turn, found_anew, aimed_once, shortening};
ghost use Rattle.nim_meaning.specs.LoopExamples.{returning, selecting, choosing, covering, endless, quitting};
ghost use Rattle.nim_meaning.specs.LoopExamples.{low_bits, doubling, sinking, coming_back, diving};
ghost use Rattle.nim_meaning.specs.LoopExamples.{starting_at_default, small, calling_once};

/// Operations on numbers at the ends of their range.
pub fn number_examples()
    ensures overflowing { Fails overflowing 0 (codes "2147483647\n") (codes "Error: overflow\n") }
    ensures underflowing { Fails underflowing 0 (codes "-2147483648\n")
        (codes "Error: overflow\n") }
    ensures multiplying { Fails multiplying 0 (codes "2147483647\n-2147483648\n")
        (codes "Error: overflow\n") }
    ensures opposite { Fails opposite 0 (codes "2147483647\n") (codes "Error: overflow\n") }
    ensures least_div { Fails least_div 0 (codes "0\n") (codes "Error: overflow\n") }
    ensures zero_div { Fails zero_div 0 (codes "before\n") (codes "Error: division by zero\n") }
    ensures zero_mod { Fails zero_mod 0 [] (codes "Error: division by zero\n") }
    ensures rounding { Prints rounding 0 (codes "-3\n-1\n-3\n1\n") }
    ensures shifting { Prints shifting 0
        (codes "-2147483648\n-2147483648\n1\n-2147483648\n-1\n-4\n3\n") }
    ensures bits { Prints bits 0 (codes "255\n-2147483647\n-2\n-1\ntrue\n") }
    ensures stepping { Fails stepping 0 (codes "2147483647\n0\n-2147483648\n")
        (codes "Error: overflow\n") }
    ensures ordering { Prints ordering 0 (codes "false true true true false true\n") }
    ensures stopping_early { Fails stopping_early 0 (codes "falsetrue\n")
        (codes "Error: division by zero\n") }
{}

/// Texts that are written, and conversions.
pub fn text_examples()
    ensures writing { Prints writing 0 (codes "green true a 5 -12\n") }
    ensures converting { Fails converting 0 (codes "A65green7\n")
        (codes "Error: value out of range\n") }
    ensures above_char { Fails above_char 0 (codes "255\n") (codes "Error: value out of range\n") }
    ensures below_char { Fails below_char 0 (codes "0\n") (codes "Error: value out of range\n") }
    ensures all_first { Fails all_first 2 (codes "in f\n172\nin f\n")
        (codes "Error: division by zero\n") }
{}

/// How places are found, and when.
pub fn place_examples()
    ensures placing { Fails placing 3 (codes "2 1 20\n35\n")
        (codes "Error: index out of bounds\n") }
    ensures reading_at_once { Prints reading_at_once 1 (codes "22\n2\n") }
    ensures value_before_place { Fails value_before_place 0 [] (codes "Error: division by zero\n") }
    ensures index_before_value { Fails index_before_value 0 [] (codes "Error: division by zero\n") }
    ensures above_array { Fails above_array 0 [] (codes "Error: index out of bounds\n") }
    ensures below_array { Fails below_array 0 (codes "10\n")
        (codes "Error: index out of bounds\n") }
    ensures argument_before_place { Fails argument_before_place 0 []
        (codes "Error: division by zero\n") }
    ensures aiming_in_turn { Prints aiming_in_turn 3 (codes "12 20\n22 2\n30 12\n") }
    ensures handing_on { Fails handing_on 3 (codes "21 21\n")
        (codes "Error: index out of bounds\n") }
    ensures one_place { Prints one_place 1 (codes "6\n") }
    ensures copying { Prints copying 0 (codes "10\n7 3 2\n") }
    ensures nesting { Fails nesting 0 (codes "560\n") (codes "Error: index out of bounds\n") }
    ensures building { Prints building 0 (codes "04\n4334\n") }
    ensures moving { Prints moving 0 (codes "20 0\n") }
    ensures constants { Prints constants 0 (codes "2 4\n") }
    // It is read where it stands, so its bytes are no work and no part of the sum.
    ensures constant_in_place { Works constant_in_place 0 (codes "2\n") 27 }
    ensures to_itself { Fails to_itself 0 (codes "20\n") (codes "Error: index out of bounds\n") }
{}

/// Loops, choices and ways out.
pub fn loop_examples()
    ensures up_to_greatest { Prints up_to_greatest 2 (codes "2147483646\n2147483647\ndone\n") }
    ensures below_last { Prints below_last 2 (codes "0\n1\n") }
    ensures ends_once { Prints ends_once 3 (codes "0\n1\n2\n") }
    ensures breaking { Prints breaking 12 (codes "0\n1\n20\n21\n") }
    ensures breaking_on { Runs breaking 11 (codes "0\n1\n20\n21\n") }
    ensures anew_each_turn { Prints anew_each_turn 2 (codes "1\n1\n") }
    ensures found_anew { Prints found_anew 3 (codes "10\n20\n7\n") }
    ensures found_anew_on { Runs found_anew 2 (codes "10\n20\n") }
    ensures aimed_once { Prints aimed_once 3 (codes "0\n4\n0\n") }
    ensures shortening { Fails shortening 1 (codes "10\n") (codes "Error: length changed\n") }
    ensures returning { Prints returning 12 (codes "4\nnone\n0\n") }
    ensures selecting { Prints selecting 6 (codes "11 21 0 21 21 0\n") }
    ensures choosing { Prints choosing 0 (codes "22\n") }
    ensures covering { Prints covering 0 (codes "2\n4\n") }
    ensures endless { Runs endless 3 (codes "0\n1\n2\n") }
    ensures quitting { Quits quitting 2 255 (codes "before\n") }
    ensures low_bits { Quits low_bits 0 255 [] }
{}

/// Calls, and how many may be active.
pub fn call_examples()
    ensures doubling { Prints doubling 4 (codes "6\n") }
    ensures doubling_on { Runs doubling 3 [] }
    ensures sinking { Fails sinking 2001 [] (codes "Error: call depth limit\n") }
    ensures sinking_on { Runs sinking 2000 [] }
    ensures coming_back { Prints coming_back 2000 (codes "back\n") }
    ensures diving { Fails diving 2004 (codes "back\n") (codes "Error: call depth limit\n") }
    ensures starting_at_default { Prints starting_at_default 1 (codes "0\n") }
    ensures small { Works small 0 (codes "5\n") 24 }
    ensures choosing_in_turn { Works choosing_in_turn 2 (codes "10\n20\n") 103 }
    ensures calling_once { Works calling_once 1 [] 46 }
{}

/// Where the first form stands whose meaning isn't built.
pub fn left_out_examples()
    ensures showing { IsBuilt out.showing }
    ensures comparing_texts { IsBuilt out.comparing_texts }
    ensures case_of_text { IsBuilt out.case_of_text }
    ensures adding { IsBuilt out.adding }
    ensures reading_into { IsBuilt out.reading_into }
    ensures reading { LeftOutAt 2 out.reading }
    ensures discarding { LeftOutAt 4 out.discarding }
    ensures comparing { LeftOutAt 2 out.comparing }
    ensures branching { LeftOutAt 4 out.branching }
    ensures declaring { LeftOutAt 3 out.declaring }
    ensures empty { LeftOutAt 1 out.empty }
    ensures going_over { LeftOutAt 1 out.going_over }
    ensures measuring { LeftOutAt 2 out.measuring }
    ensures indexing { LeftOutAt 3 out.indexing }
    ensures swapping { LeftOutAt 3 out.swapping }
    ensures calling { LeftOutAt 2 out.calling }
    ensures calling_with_types { LeftOutAt 2 out.calling_with_types }
    ensures discarding_nil { LeftOutAt 2 out.discarding_nil }
    ensures asking_nil { LeftOutAt 2 out.asking_nil }
    ensures building { LeftOutAt 2 out.building }
    ensures leading { LeftOutAt 3 out.leading }
    ensures raising { LeftOutAt 3 out.raising }
    ensures trying { LeftOutAt 1 out.trying }
    ensures deferring { LeftOutAt 3 out.deferring }
    ensures destroying { LeftOutAt 1 out.destroying }
    ensures lending { LeftOutAt 1 out.lending }
    ensures before_start { LeftOutAt 2 out.before_start }
    ensures behind_start { LeftOutAt 2 out.behind_start }
    ensures taking { LeftOutAt 2 out.taking }
    ensures giving { LeftOutAt 3 out.giving }
{}

/// The statement by which control leaves a block: the last one where it comes to its end.
pub fn exit_examples()
    ensures passing { IsLeftBy 4 exits.passing }
    ensures declaring_last { IsLeftBy 2 exits.declaring_last }
    ensures choosing_last { IsLeftBy 2 exits.choosing_last }
    ensures looping_last { IsLeftBy 4 exits.looping_last }
    ensures breaking { IsLeftBy 5 exits.breaking }
    ensures continuing { IsLeftBy 6 exits.continuing }
    ensures returning { IsLeftBy 4 exits.returning }
    ensures returning_far { IsLeftBy 7 exits.returning_far }
{}

/// Texts and sequences: what is shown, what happens to blocks, in its order, and how much of the
/// heap is asked for.
pub fn block_examples()
    ensures two_lists { Comes two_lists 144 0 (codes "23\n") two_lists_turns 144 }
    ensures no_label_fits { Comes no_label_fits 16 0 (codes "2\n") no_label_fits_turns 16 }
    ensures filling_up { Stops filling_up 48 100 (codes "full\n") no_memory filling_up_turns 48 }
    ensures lending { Comes lending 100 1 (codes "one\n") lending_turns 48 }
    ensures giving_back { Comes giving_back 100 2 (codes "xy\n") giving_back_turns 48 }
    ensures assigning { Comes assigning 100 0 [] assigning_turns 96 }
    ensures joining { Comes joining 100 0 (codes "abcd\n") joining_turns 48 }
    ensures part_by_part { Comes part_by_part 1000 0 [] part_by_part_turns 176 }
    ensures part_by_part_short { Stops part_by_part 159 0 [] no_memory part_by_part_short_turns 144 }
    ensures longer_in_turn { Stops longer_in_turn 1000 5 (codes "a\n") (codes "Error: length changed\n") longer_in_turn_turns 96 }
    ensures fresh_head { Comes fresh_head 1000 5 (codes "b!\n") fresh_head_turns 96 }
    ensures leaving_scopes { Comes leaving_scopes 1000 9 (codes "b!b!\n") leaving_scopes_turns 160 }
    ensures into_block { Comes into_block 1000 1 (codes "a0123456789\n") into_block_turns 128 }
    ensures lengths { Comes lengths 1000 0 (codes "aa1\n") lengths_turns 96 }
    ensures characters { Comes characters 1000 0 (codes "xcb3\n") characters_turns 32 }
    ensures reading_lines { Happens reading_lines 1000 lines_read 9 (codes "a\n\n0123456789\n") [] (Ended 0 no_objects) reading_lines_turns 96 }
    ensures constants { Comes texts.constants 1000 2 (codes "b2\na\nb\n2\n") constants_turns 96 }
    ensures branches { Comes branches 1000 0 (codes "ab.\n") branches_turns 80 }
    ensures nested { Comes nested 1000 0 (codes "0a\n") nested_turns 176 }
{}
