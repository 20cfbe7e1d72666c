// What a file says, and why bytes are no file.
ghost use Rattle.std.specs.Prelude.{◌≡◌};
ghost use Rattle.elf32.specs.Faults.{fault_number};

use arc_base::Memory;
use nim_plan::Plan;
use rv32_isa::Image;
use thiserror::Error;

/// What a file says: an image, the version of its note, and the plan that the image was made under. A file that can be written
/// has version 1, a heap of at least 4,096 bytes, and lists in strictly increasing order in its plan.
#[derive(Drop)]
pub struct ElfFile {
    pub image: Image,
    /// 1.
    pub version: u32,
    pub plan: Plan,
}

/// The first part of bytes that is not as a file has it.
#[derive(Clone, Copy, Debug, Drop, Error)]
pub enum ElfFault {
    /// 1: fewer bytes than the headers have.
    #[error("the file is too short")]
    Short,
    /// 2: the first four bytes.
    #[error("no ELF file")]
    Magic,
    /// 3: the rest of the identity: 32 bits, lowest byte first, version 1, and zeros.
    #[error("no ELF file of 32 bits, lowest byte first")]
    Class,
    /// 4: the type of file.
    #[error("not a file that can be run")]
    FileType,
    /// 5: the machine.
    #[error("not for RISC-V")]
    Machine,
    /// 6: the rest of the header.
    #[error("the header is another")]
    Header,
    /// 7: a program header, or the length of the file.
    #[error("a program header or the length is another")]
    Segment,
    /// 8: the note.
    #[error("the note is another")]
    Note,
}

impl ElfFault {
    /// Its number, 1 to 8.
    pub fn number(self) -> u32
        ensures { result ≡ fault_number self }
    {
        match self {
            ElfFault::Short => 1,
            ElfFault::Magic => 2,
            ElfFault::Class => 3,
            ElfFault::FileType => 4,
            ElfFault::Machine => 5,
            ElfFault::Header => 6,
            ElfFault::Segment => 7,
            ElfFault::Note => 8,
        }
    }
}

/// Why bytes were not read.
#[derive(Clone, Copy, Debug, Drop, Error)]
pub enum ElfStop {
    /// They are no file, by this fault.
    #[error("{0}")]
    Bad(ElfFault),
    /// No memory was found.
    #[error("out of memory")]
    Memory,
}

impl From<Memory> for ElfStop {
    ghost use Rattle.elf32.specs.declared.file.ElfStop.TheVariants.{Memory};

    ghost from_gives = { λ _ e. e ≡ Memory };

    fn from(_: Memory) -> Self {
        ElfStop::Memory
    }
}
