// Where the variables of a procedure are.
ghost use Rattle.std.specs.Prelude.{◌≡◌, ◌<◌, ◌≤◌, slice_get, IfOk};
ghost use Rattle.word_code.specs.declared.word.TheConstants.{MOST_VARIABLES as most_variables};
ghost use Rattle.reg_scan.specs.Homes.{or_none, is_free, IsHomes};
ghost use Rattle.reg_scan.specs.Fine.{IsOwn, AreOwn};

use crate::choose::{Choice, choose};
use crate::fine::is_fine;
use arc_base::{Items, Memory};
use std::alloc::Global;
use word_code::WordProc;

/// Where a variable is.
#[derive(Clone, Copy)]
pub enum Home {
    /// In a register, by its number.
    Reg(u32),
    /// In a word of the frame, by how many bytes it is from where the frame begins.
    Frame(u32),
}

/// Where each variable is, and how many bytes the frame has: the return address, and a word for
/// each variable, also for one that has a register.
#[derive(Drop)]
pub struct Homes {
    pub of: Items<Home>,
    pub frame: u32,
}

/// The home of a variable.
pub(crate) fn home_at(homes: &[Home], variable: u32) -> Home
    ensures { result ≡ or_none (slice_get homes.now variable) }
{
    match homes.get(variable as usize) {
        Some(home) => *home,
        None => Home::Frame(0),
    }
}

// Whether variables may have a register.
fn is_free(number: u32) -> bool
    ensures { result ≡ is_free number }
{
    8 <= number && number <= 9 || (13 <= number && number <= 16 || 18 <= number && number <= 31)
}

// A register that was chosen for a variable, where registers are given, or its own word of the
// frame.
fn own_home(given: bool, chosen: Option<u32>, vars: u32, variable: u32) -> Home
    requires { (variable < vars) × (vars ≤ most_variables) }
    ensures { IsOwn given vars variable result }
{
    let number = chosen.unwrap_or(0);
    if given && is_free(number) {
        Home::Reg(number)
    } else {
        Home::Frame(4 * (vars - variable))
    }
}

// Homes for so many variables, by the registers that were chosen where they are given.
fn homes_by(
    alloc: Global,
    given: bool,
    vars: u32,
    chosen: &[Option<u32>],
) -> Result<Items<Home>, Memory>
    requires { vars ≤ most_variables }
    ensures { IfOk result (λ homes. AreOwn given vars vars homes) }
{
    let mut homes = Items::new(alloc);
    for variable in 0..vars {
        let register = chosen.get(variable as usize).copied().flatten();
        homes.push(own_home(given, register, vars, variable))?;
    }
    Ok(homes)
}

/// Homes for the variables of a procedure: registers where that is right, and else all in the frame.
pub fn assign(alloc: Global, proc: &WordProc) -> Result<Homes, Memory>
    requires { proc.now.vars ≤ most_variables }
    ensures { IfOk result (λ homes. IsHomes proc.now homes) }
{
    let choice = choose(alloc, proc)?;
    let of = homes_by(alloc, true, proc.vars, &choice.registers)?;
    let is_fine = is_fine(
        &choice.held,
        &choice.labels,
        of.as_slice(),
        proc.params,
        proc.lines.as_slice(),
    );
    drop(choice);
    let frame = 4 * (proc.vars + 1);
    if is_fine {
        return Ok(Homes { of, frame });
    }
    drop(of);
    let of = homes_by(alloc, false, proc.vars, &[])?;
    Ok(Homes { of, frame })
}
