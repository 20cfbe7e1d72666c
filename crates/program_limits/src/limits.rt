// What is said of a program before it has code.
ghost use Rattle.std.specs.Prelude.{◌≡◌, IfOk};
ghost use Rattle.arc_base.specs.Refusal.{Answers};
ghost use Rattle.nim_program.specs.Sizes.{HaveForms};
ghost use Rattle.nim_meaning.specs.LeftOut.{first_left_out};
ghost use Rattle.program_limits.specs.Limits.{program_in, tree_limits};

use crate::data::data_fits;
use crate::frames::frame_fault;
use crate::known::known_of;
use crate::plain::first_left_out;
use arc_base::{Code, Memory, Place, Stop};
use nim_program::Program;
use std::alloc::Global;

/// Where the first node in order of text stands whose meaning isn't built: what comes with the
/// heap, exceptions and hooks. None where the whole meaning of the program is built.
pub fn left_out(alloc: Global, program: &Program) -> Result<Option<Place>, Memory>
    ensures { IfOk result (λ found. found ≡ first_left_out (program_in program.now)) }
{
    let known = known_of(alloc, &program.types)?;
    Ok(first_left_out(&known, program))
}

/// Refuses a program with a form that isn't built (E23), one with a procedure that is too large to
/// be called or with a type of too many levels (E21), and one whose data is too large (E25).
pub fn within(alloc: Global, program: &Program) -> Result<(), Stop>
    requires { HaveForms program.now.types }
    ensures { Answers (λ (done : Unit {0}). tt) (tree_limits (program_in program.now)) result }
{
    let known = known_of(alloc, &program.types)?;
    if let Some(at) = first_left_out(&known, program) {
        return Err(Stop::Refused {
            code: Code::LeftOut,
            at,
        });
    }
    if let Some(at) = frame_fault(alloc, &known, program)? {
        return Err(Stop::Refused {
            code: Code::FrameTooLarge,
            at,
        });
    }
    let fits = data_fits(alloc, program)?;
    if !fits {
        return Err(Stop::Refused {
            code: Code::TooLarge,
            at: Place {
                module: 0,
                line: 1,
                column: 1,
            },
        });
    }
    Ok(())
}
