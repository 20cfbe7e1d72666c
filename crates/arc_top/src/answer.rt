// What the compiler answers.
ghost use Rattle.std.specs.Prelude.{◌≡◌, IfOk};
ghost use Rattle.arc_top.specs.Answer.{status_of};

use arc_base::{Bytes, Code, Memory, Place, Stop, Stream};
use elf32::ElfFault;
use rv32_isa::FaultKind;
use std::alloc::Global;
use std::marker::Model;

/// The name of a file: a list of bytes, which contracts see as one.
#[derive(Drop)]
pub struct FileName {
    name: Bytes,
}

impl Model for FileName {
    ghost use Rattle.std.specs.Prelude.{List, ℕ};

    ghost Value = { List ℕ };

    ghost view = { λ n. n.name };
}

impl FileName {
    /// A copy of a name.
    pub fn new(alloc: Global, name: &str) -> Result<Self, Memory>
        ensures { IfOk result (λ n. n ≡ name.now) }
    {
        let name = Bytes::from_slice(alloc, name.as_bytes())?;
        Ok(FileName { name })
    }

    /// The bytes of the name.
    pub fn as_bytes(&self) -> &[u8]
        ensures { result.now ≡ self.now }
    {
        self.name.as_slice()
    }
}

/// What the compiler answers to a command.
#[derive(Drop)]
pub enum Answer {
    /// The command did all of it.
    Done,
    /// The program that the command ran exited with this status.
    Ended(u8),
    /// The words are no command.
    Usage,
    /// There is no file of that name.
    NoFile(FileName),
    /// The file of that name is longer than a source may be, or a file that is executed.
    TooLong(FileName),
    /// The source is refused, or the command can't do with it yet what it says, with a code and a place in the main
    /// module.
    Refused { code: Code, at: Place },
    /// The file isn't one that `build` writes: the first part that differs.
    BadElf(ElfFault),
    /// The machine of the file can't go on. `pc` is the address of the instruction, and `word` its word,
    /// or 0 where it could not be fetched.
    MachineFault { kind: FaultKind, pc: u32, word: u32 },
    /// So many instructions ran, or units were spent, as many as were asked for, and the program hasn't ended.
    StepsSpent(u32),
    /// A file or the input could not be read.
    ReadFault,
    /// A stream could not be written.
    WriteFault(Stream),
    /// A file could not be stored.
    StoreFault,
    /// No memory was found.
    Memory,
}

impl Answer {
    /// The status with which the command ends: 0 where all was done, the program's own where it ended, 124
    /// where its steps are spent, and else one of BSD's `sysexits`.
    pub fn status(&self) -> u8
        ensures { result ≡ status_of self.now }
    {
        match self {
            Answer::Done => 0,
            Answer::Ended(status) => *status,
            Answer::Usage => 64,
            Answer::Refused { .. } | Answer::BadElf(_) => 65,
            Answer::NoFile(_) | Answer::TooLong(_) => 66,
            Answer::Memory => 69,
            Answer::MachineFault { .. } => 70,
            Answer::ReadFault | Answer::WriteFault(_) | Answer::StoreFault => 74,
            Answer::StepsSpent(_) => 124,
        }
    }
}

impl From<Memory> for Answer {
    ghost use Rattle.std.specs.Prelude.{◌≡◌};
    ghost use Rattle.arc_top.specs.declared.answer.Answer.TheVariants.{Memory};

    ghost from_gives = { λ _ e. e ≡ Memory };

    fn from(_: Memory) -> Self {
        Answer::Memory
    }
}

impl From<Stop> for Answer {
    ghost use Rattle.arc_top.specs.Answer.{IsStopped};

    ghost from_gives = { λ stop e. IsStopped stop e };

    fn from(stop: Stop) -> Self {
        match stop {
            Stop::Refused { code, at } => Answer::Refused { code, at },
            Stop::Memory => Answer::Memory,
        }
    }
}
