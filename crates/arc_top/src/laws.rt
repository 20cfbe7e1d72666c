// Which answer is due.
ghost use Rattle.std.specs.Prelude.{◌≡◌, ◌≤◌, ◌++◌, [], List, ℕ, Option, Some, length};
ghost use Rattle.command_words.specs.Command.{Command, exec, file_of};
ghost use Rattle.elf32.specs.Elf.{Elf, File};
ghost use Rattle.nim_meaning.specs.Meaning.{meaning};
ghost use Rattle.rv32_isa.specs.Image.{Image};
ghost use Rattle.rv32_isa.specs.Machine.{start, standing};
ghost use Rattle.rv32_runner.specs.Streams.{Streams, MayGive};
ghost use Rattle.source_compiler.specs.Compile.{IsProgram};
ghost use Rattle.arc_top.specs.declared.answer.Answer.{Answer};
ghost use Rattle.arc_top.specs.declared.answer.Answer.TheVariants.{StepsSpent};
ghost use Rattle.arc_top.specs.Runs.{HasRun};
ghost use Rattle.arc_top.specs.Top.{World, RunsProgram, file_most, limits_of};
ghost use Rattle.arc_top.specs.Due.{NoStreamFails, WasAnswered, ReadsSource, IsDue, IsComplete, IsAnswerAt, IsCutShort};

use elf32::one_file;
use rv32_isa::machines;
use rv32_runner::runs;
use source_compiler::one_answer;

/// Where the outside tells what it holds and nothing fails, what was read says which answer is due, by
/// how many bytes the code has that the command makes: a program that the command takes then, or a
/// file that can be executed, is carried out, unless memory is wanting. A machine's answer is by where
/// it stands after all its instructions, and the sinks got what it has written.
pub fn complete()
    ensures due { (command : Command) (entry : Option (List ℕ)) (answer : Answer) →
        WasAnswered command entry answer → (code : ℕ) × IsDue command entry code answer }
    ensures programs { (command : Command) (source : List ℕ) (code : ℕ) (answer : Answer) → ReadsSource command →
        IsDue command (Some source) code answer →
        IsProgram (limits_of command code) (file_of command) source → IsComplete command answer }
    ensures files { (name bytes : List ℕ) (file : File) (steps : ℕ) (answer : Answer) → length bytes ≤ file_most →
        Elf bytes file → WasAnswered (exec name steps) (Some bytes) answer → IsComplete (exec name steps) answer }
    ensures stands { (steps : ℕ) (image : Image) (answer : Answer) (old new : Streams) (input : List ℕ) →
        HasRun steps image answer old new → NoStreamFails old new → old.input.left ≡ Some input →
        IsAnswerAt steps (standing image.hooks steps (start image input) []) answer old new }
{
    one_answer();
    one_file();
    runs();
}

/// A run whose steps are spent was cut short: on what the input gave and may still give, the program
/// doesn't end, or its work gives it more instructions to end in than were carried out.
pub fn in_time()
    ensures { (main : List ℕ) (heap steps n : ℕ) (old new : World)
        (ran : RunsProgram main heap steps (StepsSpent n) old new) (rest : List ℕ) →
        MayGive new.streams.input.left new.streams.input.ended rest →
        (given : List ℕ) × (new.streams.input.gave ≡ old.streams.input.gave ++ given)
        × IsCutShort n (meaning ran.compiled.program ran.file.plan heap (given ++ rest)) }
{
    machines();
    runs();
}
