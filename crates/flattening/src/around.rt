// What a part of a body knows of its surroundings.
ghost use Rattle.flattening.specs.Hooks.{HaveHooks};

use arc_base::Items;
use nim_program::{Operation, PlaceDecl, Proc, Use};
use nim_types::TypeTable;

/// What a part of a body knows of its surroundings.
#[derive(Clone, Copy)]
pub struct Around<'a> {
    pub types: &'a TypeTable,
    pub procs: &'a Vec<Proc>,
    /// The parameters that became `sink` by inference.
    pub sinks: &'a Items<u32>,
    /// The place of the result of its procedure.
    pub result: &'a Option<PlaceDecl>,
    pub ghost hooks: { HaveHooks types.now },
}

/// What becomes of operands: the same of all, as an operation says, or by the parameters of a
/// procedure.
#[derive(Clone, Copy)]
pub enum Uses {
    All(Use),
    Of(Operation),
    OfParams(u32),
}
