// The top call.
ghost use Rattle.std.specs.Prelude.{◌≡◌, ◌≤◌, true, [], List, ℕ, Ok, IfOk, IfErr, map, string_bytes};
ghost use Rattle.arc_base.specs.Outside.{Writes};
ghost use Rattle.elf32.specs.Elf.{file_of};
ghost use Rattle.rv32_isa.specs.Image.{image_of};
ghost use Rattle.rv32_runner.specs.Streams.{feed, tally, streams};
ghost use Rattle.command_words.specs.Command.{Command as TheCommand, command_of, IsCommand, IsNoCommand, IsInRange};
ghost use Rattle.nim_plan.specs.Order.{IsInOrder};
ghost use Rattle.nim_program.specs.Numbering.{is_numbered_program};
ghost use Rattle.nim_program.specs.Typed.{IsTyped};
ghost use Rattle.plain_plan.specs.Plain.{plain_plan};
ghost use Rattle.check_decls.specs.Modules.{program_in};
ghost use Rattle.source_compiler.specs.Source.{alone, read_program, Reads};
ghost use Rattle.program_limits.specs.Limits.{tree_limits};
ghost use Rattle.core_compiler.specs.Compile.{MembersNamed, IsSoundWhereBuilt};
ghost use Rattle.nim_plan.specs.declared.plan.Plan.{Plan as RustPlan};
ghost use Rattle.source_compiler.specs.Limits.{build_limits, check_limits};
ghost use Rattle.core_compiler.specs.Mean.{IsEnd};
ghost use Rattle.source_compiler.specs.Compile.{Compiled, IsNoProgram, source_most, OnTooLong};
ghost use Rattle.arc_top.specs.Answer.{OnQuiet, OnUsage, OnCommand};
ghost use Rattle.arc_top.specs.Loads.{Gives, files_state};
ghost use Rattle.arc_top.specs.Report.{report_of};
ghost use Rattle.arc_top.specs.Stages.{StopsLoad, StopsReading, IsRefusal, RunsOrWants, IsMeant};
ghost use Rattle.arc_top.specs.Top.{IsFileOf, IsChecked, Checks, Builds, Runs, RunsMeaning, Executes, Answered, Carries, modules_of, WithoutStreams};
ghost use Rattle.arc_top.specs.Top.{IsTurnedDown, world, meant};

use crate::answer::{Answer, FileName};
use crate::report::put_report;
use arc_base::{Bytes, FileFault, Files, Loaded, Sink, Source};
use command_words::{Command, one_command, read_words};
use core_compiler::{check_core, mean_core, within_core};
use elf32::{ElfFile, ElfStop, read, write};
use nim_plan::Plan;
use nim_program::Program;
use rv32_isa::{Image, machines};
use rv32_runner::{RunEnd, load, runs};
use source_compiler::{NotCompiled, SOURCE_MOST, compile, one_answer, plan_of, typed};
use std::alloc::Global;
use word_runner::MeanEnd;

/// The longest file that is executed, in bytes.
const FILE_MOST: u32 = 4_194_304;

// ---- stages

// Loads a file of at most so many bytes, or says why not.
fn load_file<F: Files>(alloc: Global, name: &str, most: u32, files: &mut F) -> Result<Bytes, Answer>
    ensures gives { IfOk result (λ bytes. Gives
        (files_state (F.held files.old) (F.load_faults files.old) (F.store_faults files.old) (F.calls files.old))
        (files_state (F.held files.new) (F.load_faults files.new) (F.store_faults files.new) (F.calls files.new)) name.now most bytes) }
    ensures stops { IfErr result (λ answer. StopsLoad name.now most answer
        (files_state (F.held files.old) (F.load_faults files.old) (F.store_faults files.old) (F.calls files.old))
        (files_state (F.held files.new) (F.load_faults files.new) (F.store_faults files.new) (F.calls files.new))) }
{
    let mut bytes = Bytes::new(alloc);
    match files.load(alloc, name, most, &mut bytes) {
        Ok(Loaded::Whole) => Ok(bytes),
        Ok(Loaded::Absent) => Err(Answer::NoFile(FileName::new(alloc, name)?)),
        Ok(Loaded::TooLong) => Err(Answer::TooLong(FileName::new(alloc, name)?)),
        Err(FileFault::Failed) => Err(Answer::ReadFault),
        Err(FileFault::Memory) => Err(Answer::Memory),
    }
}

// The answer for a source that was not compiled. One that is too long was not loaded.
fn refuse(why: NotCompiled) -> Answer
    requires { OnTooLong why ⊥ }
    ensures { IsRefusal why result }
{
    match why {
        NotCompiled::TooLong => unreachable!(),
        NotCompiled::Refused { code, at } => Answer::Refused { code, at },
        NotCompiled::Memory => Answer::Memory,
    }
}

// Loads the main module and types it.
fn read_main<F: Files>(alloc: Global, main: &str, files: &mut F) -> Result<Program, Answer>
    ensures typed { IfOk result (λ program. (source : List ℕ)
        × Gives
        (files_state (F.held files.old) (F.load_faults files.old) (F.store_faults files.old) (F.calls files.old))
        (files_state (F.held files.new) (F.load_faults files.new) (F.store_faults files.new) (F.calls files.new)) main.now source_most source
        × Reads (alone main.now source) (read_program program)) }
    ensures is_typed { IfOk result (λ program. IsTyped (program_in program)) }
    ensures is_numbered { IfOk result (λ program. is_numbered_program (program_in program) ≡ true) }
    ensures is_named { IfOk result (λ program. MembersNamed (program_in program).facts) }
    ensures is_sound { IfOk result (λ program. (plan : RustPlan) → IsSoundWhereBuilt (program_in program) plan) }
    ensures stops_check { IfErr result (λ answer. StopsReading (IsTurnedDown check_limits main.now) main.now answer
        (files_state (F.held files.old) (F.load_faults files.old) (F.store_faults files.old) (F.calls files.old))
        (files_state (F.held files.new) (F.load_faults files.new) (F.store_faults files.new) (F.calls files.new))) }
    ensures stops_mean { IfErr result (λ answer. StopsReading (IsNoProgram tree_limits main.now) main.now answer
        (files_state (F.held files.old) (F.load_faults files.old) (F.store_faults files.old) (F.calls files.old))
        (files_state (F.held files.new) (F.load_faults files.new) (F.store_faults files.new) (F.calls files.new))) }
{
    one_answer();
    let source = load_file(alloc, main, SOURCE_MOST as u32, files)?;
    match typed(alloc, source.as_slice()) {
        Ok(program) => Ok(program),
        Err(why) => Err(refuse(why)),
    }
}

// Loads the main module and types it. It can be compiled, or has a form that isn't built yet.
fn check_main<F: Files>(alloc: Global, main: &str, files: &mut F) -> Result<(), Answer>
    ensures checked { IfOk result (λ done. (source : List ℕ)
        × Gives
        (files_state (F.held files.old) (F.load_faults files.old) (F.store_faults files.old) (F.calls files.old))
        (files_state (F.held files.new) (F.load_faults files.new) (F.store_faults files.new) (F.calls files.new)) main.now source_most source
        × IsChecked main.now source) }
    ensures stops { IfErr result (λ answer. StopsReading (IsTurnedDown check_limits main.now) main.now answer
        (files_state (F.held files.old) (F.load_faults files.old) (F.store_faults files.old) (F.calls files.old))
        (files_state (F.held files.new) (F.load_faults files.new) (F.store_faults files.new) (F.calls files.new))) }
{
    one_answer();
    let program = read_main(alloc, main, files)?;
    let plan = plan_of(alloc, &program)?;
    check_core(alloc, &program, &plan)?;
    Ok(())
}

// Loads the main module and types it, and it is one whose meaning can be run.
fn read_within<F: Files>(alloc: Global, main: &str, files: &mut F) -> Result<Program, Answer>
    ensures taken { IfOk result (λ program. (source : List ℕ)
        × Gives
        (files_state (F.held files.old) (F.load_faults files.old) (F.store_faults files.old) (F.calls files.old))
        (files_state (F.held files.new) (F.load_faults files.new) (F.store_faults files.new) (F.calls files.new)) main.now source_most source
        × Reads (alone main.now source) (read_program program)
        × (tree_limits (read_program program) ≡ Ok tt)) }
    ensures is_typed { IfOk result (λ program. IsTyped (program_in program)) }
    ensures is_numbered { IfOk result (λ program. is_numbered_program (program_in program) ≡ true) }
    ensures is_named { IfOk result (λ program. MembersNamed (program_in program).facts) }
    ensures is_sound { IfOk result (λ program. (plan : RustPlan) → IsSoundWhereBuilt (program_in program) plan) }
    ensures within { IfOk result (λ program. tree_limits (program_in program) ≡ Ok tt) }
    ensures stops { IfErr result (λ answer. StopsReading (IsNoProgram tree_limits main.now) main.now answer
        (files_state (F.held files.old) (F.load_faults files.old) (F.store_faults files.old) (F.calls files.old))
        (files_state (F.held files.new) (F.load_faults files.new) (F.store_faults files.new) (F.calls files.new))) }
{
    let program = read_main(alloc, main, files)?;
    within_core(alloc, &program)?;
    Ok(program)
}

// Loads the main module and compiles it.
fn compile_main<F: Files>(
    alloc: Global,
    main: &str,
    heap: u32,
    files: &mut F,
) -> Result<ElfFile, Answer>
    requires heap_least { 4096 ≤ heap }
    requires heap_most { heap ≤ 16777216 }
    ensures compiled { IfOk result (λ file. (source : List ℕ)
        × Gives
        (files_state (F.held files.old) (F.load_faults files.old) (F.store_faults files.old) (F.calls files.old))
        (files_state (F.held files.new) (F.load_faults files.new) (F.store_faults files.new) (F.calls files.new)) main.now source_most source
        × Compiled (alone main.now source) heap (file_of file)) }
    ensures stops { IfErr result (λ answer. StopsReading (IsTurnedDown build_limits main.now) main.now answer
        (files_state (F.held files.old) (F.load_faults files.old) (F.store_faults files.old) (F.calls files.old))
        (files_state (F.held files.new) (F.load_faults files.new) (F.store_faults files.new) (F.calls files.new))) }
{
    let source = load_file(alloc, main, SOURCE_MOST as u32, files)?;
    match compile(alloc, source.as_slice(), heap) {
        Ok(file) => Ok(file),
        Err(why) => Err(refuse(why)),
    }
}

// Loads the main module and gives the bytes of its file.
fn file_bytes<F: Files>(
    alloc: Global,
    main: &str,
    heap: u32,
    files: &mut F,
) -> Result<Bytes, Answer>
    requires heap_least { 4096 ≤ heap }
    requires heap_most { heap ≤ 16777216 }
    ensures compiled { IfOk result (λ bytes. (source : List ℕ)
        × Gives
        (files_state (F.held files.old) (F.load_faults files.old) (F.store_faults files.old) (F.calls files.old))
        (files_state (F.held files.new) (F.load_faults files.new) (F.store_faults files.new) (F.calls files.new)) main.now source_most source
        × IsFileOf (alone main.now source) heap bytes) }
    ensures stops { IfErr result (λ answer. StopsReading (IsTurnedDown build_limits main.now) main.now answer
        (files_state (F.held files.old) (F.load_faults files.old) (F.store_faults files.old) (F.calls files.old))
        (files_state (F.held files.new) (F.load_faults files.new) (F.store_faults files.new) (F.calls files.new))) }
{
    let file = compile_main(alloc, main, heap, files)?;
    Ok(write(alloc, &file)?)
}

// Runs the machine of an image, and answers as it ends.
fn run_image<I: Source, O: Sink, E: Sink>(
    alloc: Global,
    image: &Image,
    steps: u32,
    input: &mut I,
    out: &mut O,
    err: &mut E,
) -> Answer
    ensures ran { RunsOrWants steps (image_of image.now) result
        (streams (feed (I.left input.old) (I.ended input.old) (I.faults input.old) (I.gave input.old))
        (tally (O.written out.old) (O.faults out.old)) (tally (E.written err.old) (E.faults err.old)))
        (streams (feed (I.left input.new) (I.ended input.new) (I.faults input.new) (I.gave input.new))
        (tally (O.written out.new) (O.faults out.new)) (tally (E.written err.new) (E.faults err.new))) }
{
    let mut runner = match load(alloc, image) {
        Ok(runner) => runner,
        Err(_) => return Answer::Memory,
    };
    match runner.run(u64::from(steps), input, out, err) {
        RunEnd::Exited(status) => Answer::Ended(status),
        RunEnd::Spent => Answer::StepsSpent(steps),
        RunEnd::Fault { kind, pc, word } => Answer::MachineFault { kind, pc, word },
        RunEnd::ReadFault => Answer::ReadFault,
        RunEnd::WriteFault(stream) => Answer::WriteFault(stream),
    }
}

// The answer where running a meaning of so many units came to this. No meaning is wrong or at a fault.
fn meant(end: MeanEnd, steps: u32) -> Answer
    requires { IsEnd end }
    ensures { result ≡ meant steps end }
{
    match end {
        MeanEnd::Ended(status) => Answer::Ended(status),
        MeanEnd::Going => Answer::StepsSpent(steps),
        MeanEnd::ReadFault => Answer::ReadFault,
        MeanEnd::WriteFault(stream) => Answer::WriteFault(stream),
        MeanEnd::Memory => Answer::Memory,
        MeanEnd::Wrong | MeanEnd::Faulted => unreachable!(),
    }
}

// Runs the meaning of a program under its plan, and answers as it ends.
fn run_program<I: Source, O: Sink, E: Sink>(
    alloc: Global,
    program: &Program,
    plan: &Plan,
    heap: u32,
    steps: u32,
    input: &mut I,
    out: &mut O,
    err: &mut E,
) -> Answer
    requires typed { IsTyped (program_in program.now) }
    requires numbered { is_numbered_program (program_in program.now) ≡ true }
    requires named { MembersNamed (program_in program.now).facts }
    requires sound { (plan : RustPlan) → IsSoundWhereBuilt (program_in program.now) plan }
    requires plain { plan.now ≡ plain_plan (read_program program.now) }
    requires ordered { IsInOrder plan.now }
    requires heap { heap ≤ 16777216 }
    requires within { tree_limits (program_in program.now) ≡ Ok tt }
    ensures ran { IsMeant (read_program program.now) heap steps result
        (streams (feed (I.left input.old) (I.ended input.old) (I.faults input.old) (I.gave input.old))
        (tally (O.written out.old) (O.faults out.old)) (tally (E.written err.old) (E.faults err.old)))
        (streams (feed (I.left input.new) (I.ended input.new) (I.faults input.new) (I.gave input.new))
        (tally (O.written out.new) (O.faults out.new)) (tally (E.written err.new) (E.faults err.new))) }
{
    let units = steps as u64;
    let end = mean_core(alloc, program, plan, heap, units, input, out, err);
    meant(end, steps)
}

// ---- commands

// Says whether a main module is a program that can be compiled, or has a form that isn't built yet.
fn check<F: Files>(alloc: Global, main: &str, files: &mut F) -> Answer
    ensures checks { Checks main.now result
        (files_state (F.held files.old) (F.load_faults files.old) (F.store_faults files.old) (F.calls files.old))
        (files_state (F.held files.new) (F.load_faults files.new) (F.store_faults files.new) (F.calls files.new)) }
{
    match check_main(alloc, main, files) {
        Ok(()) => Answer::Done,
        Err(answer) => answer,
    }
}

// Compiles a main module and stores its file.
fn build<F: Files>(alloc: Global, main: &str, out: &str, heap: u32, files: &mut F) -> Answer
    requires heap_least { 4096 ≤ heap }
    requires heap_most { heap ≤ 16777216 }
    ensures builds { Builds main.now out.now heap result
        (files_state (F.held files.old) (F.load_faults files.old) (F.store_faults files.old) (F.calls files.old))
        (files_state (F.held files.new) (F.load_faults files.new) (F.store_faults files.new) (F.calls files.new)) }
{
    let bytes = match file_bytes(alloc, main, heap, files) {
        Ok(bytes) => bytes,
        Err(answer) => return answer,
    };
    match files.store(alloc, out, bytes.as_slice()) {
        Ok(()) => Answer::Done,
        Err(FileFault::Failed) => Answer::StoreFault,
        Err(FileFault::Memory) => Answer::Memory,
    }
}

// Compiles a main module and runs the machine of its image.
fn run<F: Files, I: Source, O: Sink, E: Sink>(
    alloc: Global,
    main: &str,
    heap: u32,
    steps: u32,
    files: &mut F,
    input: &mut I,
    out: &mut O,
    err: &mut E,
) -> Answer
    requires heap_least { 4096 ≤ heap }
    requires heap_most { heap ≤ 16777216 }
    ensures runs { Runs main.now heap steps result
        (world (files_state (F.held files.old) (F.load_faults files.old) (F.store_faults files.old) (F.calls files.old))
        (streams (feed (I.left input.old) (I.ended input.old) (I.faults input.old) (I.gave input.old))
        (tally (O.written out.old) (O.faults out.old)) (tally (E.written err.old) (E.faults err.old))))
        (world (files_state (F.held files.new) (F.load_faults files.new) (F.store_faults files.new) (F.calls files.new))
        (streams (feed (I.left input.new) (I.ended input.new) (I.faults input.new) (I.gave input.new))
        (tally (O.written out.new) (O.faults out.new)) (tally (E.written err.new) (E.faults err.new)))) }
{
    match compile_main(alloc, main, heap, files) {
        Ok(file) => {
            runs();
            machines();
            run_image(alloc, &file.image, steps, input, out, err)
        }
        Err(answer) => answer,
    }
}

// Runs the meaning of a main module.
fn mean_main<F: Files, I: Source, O: Sink, E: Sink>(
    alloc: Global,
    main: &str,
    heap: u32,
    steps: u32,
    files: &mut F,
    input: &mut I,
    out: &mut O,
    err: &mut E,
) -> Answer
    requires { heap ≤ 16777216 }
    ensures means { RunsMeaning main.now heap steps result
        (world (files_state (F.held files.old) (F.load_faults files.old) (F.store_faults files.old) (F.calls files.old))
        (streams (feed (I.left input.old) (I.ended input.old) (I.faults input.old) (I.gave input.old))
        (tally (O.written out.old) (O.faults out.old)) (tally (E.written err.old) (E.faults err.old))))
        (world (files_state (F.held files.new) (F.load_faults files.new) (F.store_faults files.new) (F.calls files.new))
        (streams (feed (I.left input.new) (I.ended input.new) (I.faults input.new) (I.gave input.new))
        (tally (O.written out.new) (O.faults out.new)) (tally (E.written err.new) (E.faults err.new)))) }
{
    match read_within(alloc, main, files) {
        Ok(program) => match plan_of(alloc, &program) {
            Ok(plan) => run_program(alloc, &program, &plan, heap, steps, input, out, err),
            Err(_) => Answer::Memory,
        },
        Err(answer) => answer,
    }
}

// Reads a file and runs the machine of its image.
fn exec<F: Files, I: Source, O: Sink, E: Sink>(
    alloc: Global,
    name: &str,
    steps: u32,
    files: &mut F,
    input: &mut I,
    out: &mut O,
    err: &mut E,
) -> Answer
    ensures executes { Executes name.now steps result
        (world (files_state (F.held files.old) (F.load_faults files.old) (F.store_faults files.old) (F.calls files.old))
        (streams (feed (I.left input.old) (I.ended input.old) (I.faults input.old) (I.gave input.old))
        (tally (O.written out.old) (O.faults out.old)) (tally (E.written err.old) (E.faults err.old))))
        (world (files_state (F.held files.new) (F.load_faults files.new) (F.store_faults files.new) (F.calls files.new))
        (streams (feed (I.left input.new) (I.ended input.new) (I.faults input.new) (I.gave input.new))
        (tally (O.written out.new) (O.faults out.new)) (tally (E.written err.new) (E.faults err.new)))) }
{
    let bytes = match load_file(alloc, name, FILE_MOST, files) {
        Ok(bytes) => bytes,
        Err(answer) => return answer,
    };
    match read(alloc, bytes.as_slice()) {
        Ok(file) => run_image(alloc, &file.image, steps, input, out, err),
        Err(ElfStop::Bad(fault)) => Answer::BadElf(fault),
        Err(ElfStop::Memory) => Answer::Memory,
    }
}

// Does what a command says, but for the line of its answer.
fn carry_out<F: Files, I: Source, O: Sink, E: Sink>(
    alloc: Global,
    command: &Command<'_>,
    files: &mut F,
    input: &mut I,
    out: &mut O,
    err: &mut E,
) -> Answer
    requires range { IsInRange (command_of command.now) }
    ensures answered { Answered (command_of command.now) result
        (world (files_state (F.held files.old) (F.load_faults files.old) (F.store_faults files.old) (F.calls files.old))
        (streams (feed (I.left input.old) (I.ended input.old) (I.faults input.old) (I.gave input.old))
        (tally (O.written out.old) (O.faults out.old)) (tally (E.written err.old) (E.faults err.old))))
        (world (files_state (F.held files.new) (F.load_faults files.new) (F.store_faults files.new) (F.calls files.new))
        (streams (feed (I.left input.new) (I.ended input.new) (I.faults input.new) (I.gave input.new))
        (tally (O.written out.new) (O.faults out.new)) (tally (E.written err.new) (E.faults err.new)))) }
    ensures streams { WithoutStreams (command_of command.now) ((input.new ≡ input.old) × (out.new ≡ out.old)) }
    ensures command { OnUsage result ⊥ }
{
    match command {
        Command::Check { main } => check(alloc, main, files),
        Command::Build {
            main,
            out: to,
            heap,
        } => build(alloc, main, to, *heap, files),
        Command::Run { main, heap, steps } => run(
            alloc, main, *heap, *steps, files, input, out, err,
        ),
        Command::Mean { main, heap, steps } => mean_main(
            alloc, main, *heap, *steps, files, input, out, err,
        ),
        Command::Exec { file, steps } => exec(alloc, file, *steps, files, input, out, err),
    }
}

// Says the answer to a command.
fn say<E: Sink>(err: &mut E, command: &Command<'_>, answer: &Answer)
    ensures said { Writes (E.written err.old) (E.written err.new) (E.faults err.old) (E.faults err.new)
        (report_of (modules_of (command_of command.now)) answer.now) }
    ensures quiet { OnQuiet answer.now (err.new ≡ err.old) }
{
    match command {
        Command::Check { main }
        | Command::Build { main, .. }
        | Command::Run { main, .. }
        | Command::Mean { main, .. } => put_report(err, &[main], answer),
        Command::Exec { .. } => put_report(err, &[], answer),
    }
}

/// Does what the words say.
///
/// `check MAIN` says whether the source in the file MAIN is a program that `build` takes, or one with a
/// form that isn't built yet; `build MAIN OUT` compiles it and stores the ELF file under the name OUT;
/// `run MAIN` compiles it and runs the machine on it, on `input`, `out` and `err`; `exec ELF` does that
/// with a file that `build` stored; `mean MAIN` runs what the source means. `--heap=N` gives the bytes of
/// heap of a program, `--steps=N` the most instructions that `run` and `exec` carry out, and the most
/// units of `mean`.
///
/// `words` are those after the program's name. An answer but `Done`, `Ended` and `WriteFault` is said on
/// `err` in one line, or in a front of it where `err` fails; the answer stays. Only `build` changes
/// `files`, and there only the entry OUT; only `run`, `mean` and `exec` use `out`, and only `run` and
/// `exec` use `input`.
pub fn nimarc<F: Files, I: Source, O: Sink, E: Sink>(
    alloc: Global,
    words: &[String],
    files: &mut F,
    input: &mut I,
    out: &mut O,
    err: &mut E,
) -> Answer
    // What each answer to a command says of the outside.
    ensures carries { (command : TheCommand) → IsCommand (map string_bytes words.now) command → Carries command result
        (world (files_state (F.held files.old) (F.load_faults files.old) (F.store_faults files.old) (F.calls files.old))
        (streams (feed (I.left input.old) (I.ended input.old) (I.faults input.old) (I.gave input.old))
        (tally (O.written out.old) (O.faults out.old)) (tally (E.written err.old) (E.faults err.old))))
        (world (files_state (F.held files.new) (F.load_faults files.new) (F.store_faults files.new) (F.calls files.new))
        (streams (feed (I.left input.new) (I.ended input.new) (I.faults input.new) (I.gave input.new))
        (tally (O.written out.new) (O.faults out.new)) (tally (E.written err.new) (E.faults err.new)))) }
    ensures command { OnCommand result ((command : TheCommand) × IsCommand (map string_bytes words.now) command) }
    ensures streams { (command : TheCommand) → IsCommand (map string_bytes words.now) command
        → WithoutStreams command ((input.new ≡ input.old) × (out.new ≡ out.old)) }

    // Words that are no command.
    ensures usage { OnUsage result (IsNoCommand (map string_bytes words.now)) }
    ensures untouched { OnUsage result ((files.new ≡ files.old) × (input.new ≡ input.old) × (out.new ≡ out.old)) }
    ensures said_usage { OnUsage result
        (Writes (E.written err.old) (E.written err.new) (E.faults err.old) (E.faults err.new) (report_of [] result)) }
{
    one_command();
    match read_words(words) {
        Some(command) => {
            let answer = carry_out(alloc, &command, files, input, out, err);
            say(err, &command, &answer);
            answer
        }
        None => {
            put_report(err, &[], &Answer::Usage);
            Answer::Usage
        }
    }
}
