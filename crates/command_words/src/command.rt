// Commands, and the words that they are spelled with.
ghost use Rattle.std.specs.Prelude.{◌≡◌, IfSome, IfNone, map, option_map, string_bytes};
ghost use Rattle.command_words.specs.Command.{file_of, command_of, IsCommand, IsNoCommand, IsInRange};
ghost use Rattle.command_words.specs.Walk.{arguments_of, as_check, as_build, as_run, as_mean, as_exec, chosen, command_at};

use crate::arguments::{Arguments, HEAP_MOST, Places, read_arguments};

/// The number of steps where none is given.
pub const STEPS_DEFAULT: u32 = 1_000_000_000;

/// What is to be done. Sizes are in bytes. Steps are instructions of the machine, or units of a meaning.
#[derive(Clone, Copy)]
pub enum Command<'a> {
    /// The module of the file `main` is to be read, and refused where it is no program.
    Check {
        main: &'a str,
    },
    /// The module of the file `main` is to be compiled for a heap of this size (4,096 to 16,777,216), into the file `out`.
    Build {
        main: &'a str,
        out: &'a str,
        heap: u32,
    },
    /// The module of the file `main` is to be compiled for a heap of this size (4,096 to 16,777,216), and to run for at
    /// most so many steps (1 to 4,294,967,295).
    Run {
        main: &'a str,
        heap: u32,
        steps: u32,
    },
    /// The meaning of the module of the file `main` is to run with a heap of this size (4,096 to 16,777,216), for at most
    /// so many units (1 to 4,294,967,295).
    Mean {
        main: &'a str,
        heap: u32,
        steps: u32,
    },
    /// The ELF file `file` is to run for at most so many steps (1 to 4,294,967,295).
    Exec {
        file: &'a str,
        steps: u32,
    },
}

impl<'a> Command<'a> {
    /// The name of the file that is read: that of the main module, or that of the ELF file.
    pub fn file(&self) -> &'a str
        ensures { result.now ≡ file_of (command_of self.now) }
    {
        match self {
            Command::Check { main } => main,
            Command::Build { main, .. } => main,
            Command::Run { main, .. } => main,
            Command::Mean { main, .. } => main,
            Command::Exec { file, .. } => file,
        }
    }
}

impl<'a> Arguments<'a> {
    // `check MAIN`
    fn as_check(self) -> Option<Command<'a>>
        ensures { option_map command_of result ≡ as_check (arguments_of self.entry) }
    {
        match (self.places, self.heap, self.steps) {
            (Places::One(main), None, None) => Some(Command::Check { main }),
            _ => None,
        }
    }

    // `build MAIN OUT`
    fn as_build(self) -> Option<Command<'a>>
        ensures { option_map command_of result ≡ as_build (arguments_of self.entry) }
    {
        match (self.places, self.steps) {
            (Places::Two(main, out), None) => Some(Command::Build {
                main,
                out,
                heap: self.heap.unwrap_or(HEAP_MOST),
            }),
            _ => None,
        }
    }

    // `run MAIN`
    fn as_run(self) -> Option<Command<'a>>
        ensures { option_map command_of result ≡ as_run (arguments_of self.entry) }
    {
        match self.places {
            Places::One(main) => Some(Command::Run {
                main,
                heap: self.heap.unwrap_or(HEAP_MOST),
                steps: self.steps.unwrap_or(STEPS_DEFAULT),
            }),
            _ => None,
        }
    }

    // `mean MAIN`
    fn as_mean(self) -> Option<Command<'a>>
        ensures { option_map command_of result ≡ as_mean (arguments_of self.entry) }
    {
        match self.places {
            Places::One(main) => Some(Command::Mean {
                main,
                heap: self.heap.unwrap_or(HEAP_MOST),
                steps: self.steps.unwrap_or(STEPS_DEFAULT),
            }),
            _ => None,
        }
    }

    // `exec ELF`
    fn as_exec(self) -> Option<Command<'a>>
        ensures { option_map command_of result ≡ as_exec (arguments_of self.entry) }
    {
        match (self.places, self.heap) {
            (Places::One(file), None) => Some(Command::Exec {
                file,
                steps: self.steps.unwrap_or(STEPS_DEFAULT),
            }),
            _ => None,
        }
    }

    // The command of this name with these arguments.
    fn chosen(self, name: &str) -> Option<Command<'a>>
        ensures { option_map command_of result ≡ chosen name.now (arguments_of self.entry) }
    {
        if name == "check" {
            self.as_check()
        } else if name == "build" {
            self.as_build()
        } else if name == "run" {
            self.as_run()
        } else if name == "mean" {
            self.as_mean()
        } else if name == "exec" {
            self.as_exec()
        } else {
            None
        }
    }
}

/// The command that the words are.
pub fn read_words<'a>(words: &'a [String]) -> Option<Command<'a>>
    ensures some { IfSome result (λ command. IsCommand (map string_bytes words.now) (command_of command)) }
    ensures none { IfNone result (IsNoCommand (map string_bytes words.now)) }
    ensures ranges { IfSome result (λ command. IsInRange (command_of command)) }
{
    read(words)
}

// The same, word by word.
fn read<'a>(words: &'a [String]) -> Option<Command<'a>>
    ensures { option_map command_of result ≡ command_at (map string_bytes words.now) }
{
    match words {
        [] => None,
        [name, behind @ ..] => read_arguments(behind)?.chosen(name.as_str()),
    }
}
