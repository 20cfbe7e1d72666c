// The law of files.
ghost use Rattle.std.specs.Prelude.{◌≡◌, ◌⊎◌, List, ℕ};
ghost use Rattle.elf32.specs.declared.file.ElfFault.{ElfFault};
ghost use Rattle.elf32.specs.Elf.{Elf, File, IsFile, elf_bytes};
ghost use Rattle.elf32.specs.Faults.{HasFault, HasFile, IsFaulty};

/// Bytes are one file or have one fault: one file at most, one fault at most, never both, and always one of the two. A file
/// has one list of bytes.
pub fn one_file()
    ensures bytes { (file : File) → IsFile file → Elf (elf_bytes file) file }
    ensures only { (file : File) (a b : List ℕ) → Elf a file → Elf b file → a ≡ b }
    ensures file { (bytes : List ℕ) (a b : File) → Elf bytes a → Elf bytes b → b ≡ a }
    ensures fault { (bytes : List ℕ) (a b : ElfFault) → HasFault bytes a → HasFault bytes b → a ≡ b }
    ensures apart { (bytes : List ℕ) (file : File) (fault : ElfFault) → Elf bytes file → HasFault bytes fault → ⊥ }
    ensures some { (bytes : List ℕ) → HasFile bytes ⊎ IsFaulty bytes }
{}
