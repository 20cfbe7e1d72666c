// What was read, and refusals.
ghost use Rattle.std.specs.Prelude.{◌≡◌, ◌++◌, ◌∷◌, [], ◌<◌, length, IfOk, IfErr};
ghost use Rattle.arc_base.specs.declared.place.Stop.TheVariants.{Memory};
ghost use Rattle.parse_exprs.specs.Input.{origin_of, from_at};
ghost use Rattle.parse_decls.specs.Outcome.{stuck_at, left_out, too_deep};
ghost use Rattle.parse_decls.specs.Gives.{Told};

use arc_base::{Code, Stop};
use parse_exprs::Input;

/// What was read, and the number of the token behind it.
#[derive(Drop)]
pub struct Reading<T> {
    pub value: T,
    pub next: usize,
}

/// A list with one more element. There may be no memory.
pub fn and_one<T: Drop>(list: Vec<T>, one: T) -> Result<Vec<T>, Stop>
    ensures ok { IfOk result (λ all. all.items ≡ list.items ++ one ∷ []) }
    ensures err { IfErr result (λ stop. stop ≡ Memory) }
{
    let mut all = list;
    all.push(one)?;
    Ok(all)
}

/// The refusal of what the language leaves out: E23 at the token there.
pub fn left_out(input: &Input, at: usize) -> Stop
    requires within { at < length input.now.tokens.now }
    ensures { Told (origin_of input.now) (left_out (from_at input.now at)) result }
{
    Stop::Refused {
        code: Code::LeftOut,
        at: input.place_at(input.tokens[at]),
    }
}

/// The refusal of a level too many: E5 at the token there.
pub fn too_deep(input: &Input, at: usize) -> Stop
    requires within { at < length input.now.tokens.now }
    ensures { Told (origin_of input.now) (too_deep (from_at input.now at)) result }
{
    Stop::Refused {
        code: Code::NestTooDeep,
        at: input.place_at(input.tokens[at]),
    }
}

/// The refusal at a token that can't go on: E23 where it is a keyword that the language leaves out, else E4; at the token, or
/// where the module begins if there is none.
pub fn stuck(input: &Input, at: usize) -> Stop
    ensures { Told (origin_of input.now) (stuck_at (from_at input.now at)) result }
{
    let code = if input.left_out_at(at) {
        Code::LeftOut
    } else {
        Code::Syntax
    };
    Stop::Refused {
        code,
        at: input.next_at(at),
    }
}
