// What the limits say of programs at them.
ghost use Rattle.std.specs.Prelude.{◌≡◌, ◌+◌, ◌*◌, Ok};
ghost use Rattle.arc_base.specs.declared.place.Code.TheVariants.{FrameTooLarge, TooLarge};
ghost use Rattle.arc_base.specs.Refusal.{refused};
ghost use Rattle.nim_types.specs.Types.{int, array};
ghost use Rattle.program_limits.specs.Frames.{beginning, frame_limits};
ghost use Rattle.program_limits.specs.Data.{data_counted};
ghost use Rattle.program_limits.specs.Limits.{data_limits};
ghost use Rattle.program_limits.specs.Examples.{most_data, more_data, several, repeating, labelled, linked};
ghost use Rattle.program_limits.specs.Examples.{discarding, holding, nested};
ghost use Rattle.program_limits.specs.Examples.{second_line};

/// Programs at the limits of data, of procedures and of levels.
pub fn limit_examples()
    // A word, names of one and of five bytes, those of the exceptions, and a text of five.
    ensures several { data_counted several ≡ 4 + 8 + 12 + 84 + 12 }
    // Two texts of one byte, of which one stands in four places and the other in two.
    ensures repeating { data_counted repeating ≡ 84 + 8 + 8 }
    // A text that is a constant and a label, and one that is a label alone.
    ensures labelled { data_counted labelled ≡ 84 + 8 + 8 }
    // Two texts of one byte, and twice their handles, behind one of their own.
    ensures linked { data_counted linked ≡ 84 + 8 + 8 + 2 * (8 + 8 + 8) }
    ensures most_data { data_counted most_data ≡ 1040384 }
    ensures fitting { data_limits most_data ≡ Ok tt }
    ensures more_data { data_limits more_data ≡ refused TooLarge beginning }
    ensures most_bytes { frame_limits (holding (array 4096 int)) ≡ Ok tt }
    ensures too_large { frame_limits (holding (array 4097 int)) ≡ refused FrameTooLarge second_line }
    ensures most_levels { frame_limits (holding (nested 63)) ≡ Ok tt }
    ensures too_deep { frame_limits (holding (nested 64)) ≡ refused FrameTooLarge second_line }
    ensures start_fits { frame_limits (discarding 4096) ≡ Ok tt }
    ensures start_too_large { frame_limits (discarding 4097) ≡ refused FrameTooLarge beginning }
{}
