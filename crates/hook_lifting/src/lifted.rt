// Lifted hooks: procedures from one location to another.
use arc_base::Items;
use flat_code::Line;
use nim_types::TypeId;

/// What is done with a value, part by part.
#[derive(Clone, Copy)]
pub enum Hook {
    /// Where nothing stands comes a copy.
    Copies,
    /// What stands there is a copy from now on, and what stood there ends.
    Assigns,
    /// Likewise, with a value that is handed over.
    Sinks,
    /// The value ends.
    Ends,
}

/// A line of a lifted hook. Its temporaries have values, or, with numbers of their own, locations:
/// `to` is one that gets something, `at` one that leads to a location, `of` one that has a value.
#[derive(Drop)]
pub enum LiftedLine {
    /// A step of a path, what a loop needs, or the return.
    Plain(Line),
    /// The hook of a type, from one location to another; of a type without hooks, the bits.
    Hook {
        hook: Hook,
        ty: TypeId,
        to: u32,
        from: u32,
    },
    /// The value at a location: of a text or a sequence, how long it is and where its contents are.
    Load {
        to: u32,
        at: u32,
    },
    /// How many elements a value has.
    Count {
        to: u32,
        of: u32,
    },
    /// A number.
    Number {
        to: u32,
        number: u32,
    },
    /// The location of an element of the value that stands at a location, by its number, which is
    /// inside.
    Element {
        to: u32,
        of: u32,
        at: u32,
        index: u32,
    },
    /// The location of an element of an array of so many, by its number, which is inside.
    Member {
        to: u32,
        at: u32,
        index: u32,
        count: u32,
    },
    /// A sequence of a type with a block of its own, for as many elements as a value has, in which
    /// nothing stands yet: it comes to a location, and its value to a temporary.
    Take {
        ty: TypeId,
        to: u32,
        at: u32,
        of: u32,
    },
    /// The block of a sequence is given back; nothing stands at its location any more.
    GiveBack {
        ty: TypeId,
        at: u32,
        of: u32,
    },
    /// The values at two locations trade places.
    Trade {
        to: u32,
        from: u32,
    },
    /// A value of a type begins to be under way, of which nothing stands yet.
    Begin {
        ty: TypeId,
        to: u32,
    },
    /// A value is under way.
    Push {
        to: u32,
        of: u32,
    },
    /// The last value under way, which stands at a location, is no more.
    Pop {
        to: u32,
        at: u32,
    },
    /// A value comes to a location, in place of another one.
    Exchange {
        to: u32,
        at: u32,
        of: u32,
    },
    /// A number becomes that of another temporary.
    Copy {
        to: u32,
        of: u32,
    },
    /// A sequence that has so many elements, at its location, has no more from now on.
    Shorten {
        at: u32,
        of: u32,
        count: u32,
    },
    /// What a sequence's block holds behind so many elements is nothing any more.
    Forget {
        of: u32,
        count: u32,
    },
}

/// The hook of a type: at its beginning temporary 0 leads to the location that it works on, and
/// temporary 1 to the one from which it copies or takes. It has no other places, pushes no frame
/// and doesn't count as a call. Without lines it is a routine.
#[derive(Drop)]
pub struct Lifted {
    pub ty: TypeId,
    pub hook: Hook,
    pub lines: Items<LiftedLine>,
}

/// The procedure that makes sequences of a type shorter, whose elements have hooks: at its
/// beginning temporary 0 leads to the location of one, and value 8 is how many elements it keeps.
#[derive(Drop)]
pub struct Cut {
    pub ty: TypeId,
    pub lines: Items<LiftedLine>,
}

/// The hooks of a program, in order of type and then of kind; and what makes sequences shorter.
#[derive(Drop)]
pub struct Hooks {
    pub of: Items<Lifted>,
    pub cuts: Items<Cut>,
}
