// What a part of a body knows of its surroundings.
ghost use Rattle.plain_plan.specs.Hooks.{HaveHooks};

use nim_program::{Operation, Proc, Use};
use nim_types::TypeTable;

/// What a part of a body knows of its surroundings.
#[derive(Clone, Copy)]
pub struct Around<'a> {
    pub types: &'a TypeTable,
    pub procs: &'a Vec<Proc>,
    pub ghost hooks: { HaveHooks types.now },
}

/// What becomes of operands: the same of all, as an operation says, or by the parameters of a
/// procedure.
#[derive(Clone, Copy)]
pub enum Uses {
    All(Use),
    Of(Operation),
    OfParams(u32),
}
