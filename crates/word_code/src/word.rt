// Word code: procedures over words of 32 bits and a memory of bytes.
use arc_base::{Bytes, Items, Stream};
use nim_types::TypeId;
use rv32_isa::Size;

/// How many bytes stand behind the places of the call that runs: arguments are put there before their
/// call begins, also those of a call that is one too many, and a result in places is read there when
/// its call is over. With `MOST_ARGUMENTS` words they are the 65,536 bytes that a file's stack has
/// beside what calls take.
pub const SPARE_ROOM: u32 = 16_384;

/// How many variables a procedure may have.
pub const MOST_VARIABLES: u32 = 67_108_864;

/// How many words of arguments a call may have. They stand below the deepest frame of the file's
/// stack, and with `SPARE_ROOM` they are the 65,536 bytes that it has beside what calls take.
pub const MOST_ARGUMENTS: u32 = 12_288;

/// How many kinds of hooks there are: destroy 0, wasMoved 1, sink 2, copy 3.
pub const HOOK_KINDS: u32 = 4;

/// An operation on two words, as the machine's instruction of that name does it.
#[derive(Clone, Copy)]
pub enum WordOperation {
    /// The sum, modulo 2^32.
    Add,
    /// The difference, modulo 2^32.
    Subtract,
    /// The low word of the product.
    Multiply,
    /// The high word of the product of signed numbers.
    MultiplyHigh,
    /// The quotient of signed numbers.
    Divide,
    /// The remainder of signed numbers.
    Remainder,
    /// The quotient of unsigned numbers.
    DivideUnsigned,
    /// The remainder of unsigned numbers.
    RemainderUnsigned,
    And,
    Or,
    Xor,
    ShiftLeft,
    /// To the right, with zeros.
    ShiftRight,
    /// To the right, with the sign.
    ShiftRightSigned,
    /// 1 where the left is less as signed numbers, else 0.
    Less,
    /// 1 where the left is less as unsigned numbers, else 0.
    Below,
}

/// A comparison of two words.
#[derive(Clone, Copy)]
pub enum Test {
    /// They are equal.
    Equal,
    /// They aren't equal.
    Unequal,
    /// The left is less, as signed numbers.
    Less,
    /// The left isn't less, as signed numbers.
    AtLeast,
    /// The left is less, as unsigned numbers.
    Below,
    /// The left isn't less, as unsigned numbers.
    NotBelow,
}

/// A line of word code. Variables are numbers, each call has its own, and a variable that got no
/// word yet can't be read.
#[derive(Clone, Copy)]
pub enum WordInstr {
    /// A point to which jumps of this procedure lead.
    Label {
        name: u32,
    },
    /// A unit is spent: a turn of a loop or a call of a procedure begins. The machine has no
    /// instruction for it.
    Spend,
    /// The same where a comparison of two variables holds.
    SpendIf {
        test: Test,
        left: u32,
        right: u32,
    },
    /// Puts a constant into a variable.
    Constant {
        to: u32,
        value: u32,
    },
    /// Puts a variable's word into another.
    Copy {
        to: u32,
        from: u32,
    },
    /// Puts the result of an operation on two variables into a variable.
    Compute {
        to: u32,
        operation: WordOperation,
        left: u32,
        right: u32,
    },
    /// Puts the sum of a variable and a constant, modulo 2^32, into a variable.
    Sum {
        to: u32,
        from: u32,
        value: u32,
    },
    /// Puts the address of the byte `at` of this call's places into a variable.
    Place {
        to: u32,
        at: u32,
    },
    /// Puts the address of the byte `at` of this procedure's data into a variable.
    Datum {
        to: u32,
        at: u32,
    },
    /// Puts what stands at the address that a variable holds into a variable, as an unsigned
    /// number.
    Load {
        to: u32,
        address: u32,
        size: Size,
    },
    /// Puts the lowest bytes of a variable's word to the address that a variable holds.
    Store {
        address: u32,
        from: u32,
        size: Size,
    },
    /// Goes on at a label.
    Jump {
        to: u32,
    },
    /// Goes on at a label where a comparison of two variables holds.
    Branch {
        test: Test,
        left: u32,
        right: u32,
        to: u32,
    },
    /// Gives a variable's word as the argument of that number to the next call.
    Argument {
        index: u32,
        from: u32,
    },
    /// Calls a procedure, and puts its result into a variable.
    Call {
        to: u32,
        callee: u32,
    },
    /// Returns to the caller with a variable's word as the result.
    Return {
        from: u32,
    },
    /// Reads at most as many bytes of input as a variable says, to the address that a variable
    /// holds, and puts the number of those that came into a variable.
    Read {
        to: u32,
        address: u32,
        len: u32,
    },
    /// Writes as many bytes as a variable says, from the address that a variable holds, to a
    /// stream.
    Write {
        stream: Stream,
        address: u32,
        len: u32,
    },
    /// Ends the program with the low eight bits of a variable as its status.
    Exit {
        status: u32,
    },
}

/// What is counted and seen of the calls of a procedure.
#[derive(Clone, Copy)]
pub enum ProcKind {
    /// Its calls count for the limit of active calls: the start code, and what a program declares.
    Counted,
    /// The same, and each call is seen as that of a user's hook.
    Hook { kind: u32, of: TypeId },
    /// Its calls don't count: a routine, or a hook that no program declares.
    Uncounted,
}

/// A procedure with a body: what has none is no procedure of word code, and a call of it is none.
/// Its first variables are its parameters.
#[derive(Drop)]
pub struct WordProc {
    /// By which it is called. The start code has number 0.
    pub number: u32,
    pub kind: ProcKind,
    /// How many parameters it has.
    pub params: u32,
    /// How many variables it has, with the parameters.
    pub vars: u32,
    /// How many bytes the places of a call have, whose addresses may be taken.
    pub room: u32,
    /// Where its data begins in that of the code.
    pub data_from: u32,
    /// What it does.
    pub lines: Items<WordInstr>,
}

/// Procedures, and data.
#[derive(Drop)]
pub struct WordCode {
    pub procs: Items<WordProc>,
    pub statics: Bytes,
}
