// What stands around a statement, and what is known behind it.
ghost use Rattle.std.specs.Prelude.{◌≡◌, suc, List, take, false, IfOk, IfErr};
ghost use Rattle.arc_base.specs.declared.place.Stop.TheVariants as Stop;
ghost use Rattle.nim_types.specs.Types.{Ty};
ghost use Rattle.decl_rules.specs.State.{deeper, looping};
ghost use Rattle.decl_parts.specs.View.{around_of};

use arc_base::{Items, Place, Stop};
use expr_parts::scope::Scope;
use nim_program::PlaceDecl;
use nim_types::{TypeId, TypeTable};

/// The place of a procedure's result, whose name is `result`.
#[derive(Clone, Copy)]
pub struct ResultPlace {
    pub number: u32,
    /// Where its type is written.
    pub at: Place,
    pub ty: TypeId,
}

/// The code that a statement stands in.
#[derive(Clone, Copy)]
pub enum Inside {
    ModuleCode,
    /// The body of a procedure, with the place of its result.
    Procedure(Option<ResultPlace>),
}

/// What stands around a statement.
#[derive(Clone, Copy)]
pub struct Around {
    pub inside: Inside,
    /// Whether it stands at the outermost level of its module.
    pub outermost: bool,
    pub in_loop: bool,
}

impl Around {
    /// In a block of what stands there.
    pub fn deeper(self) -> Around
        ensures around { (ts : List Ty) → around_of ts result ≡ deeper (around_of ts self) }
        ensures inner { result.outermost ≡ false }
        ensures inside { result.inside ≡ self.inside }
    {
        Around {
            outermost: false,
            ..self
        }
    }

    /// In the body of a loop.
    pub fn looping(self) -> Around
        ensures around { (ts : List Ty) → around_of ts result ≡ looping (around_of ts self) }
        ensures inside { result.inside ≡ self.inside }
    {
        Around {
            in_loop: true,
            ..self
        }
    }
}

/// What is known behind a statement, but for procedures and the order of the text.
#[derive(Drop)]
pub struct State {
    pub scope: Scope,
    pub types: TypeTable,
    /// How many declarations stand outside of the innermost scope.
    pub outside: u32,
    /// The number of the next node.
    pub node: u32,
    /// The number of the next declared place.
    pub place: u32,
    /// The globals, in order of declaration.
    pub globals: Items<PlaceDecl>,
}

/// The next number, which is a want of memory where there is none.
pub fn after(number: u32) -> Result<u32, Stop>
    ensures next { IfOk result (λ n. n ≡ suc number) }
    ensures memory { IfErr result (λ stop. stop ≡ Stop.Memory) }
{
    match number.checked_add(1) {
        Some(next) => Ok(next),
        None => Err(Stop::Memory),
    }
}

/// Leaves a scope: there are as many declarations as before it.
pub fn leave(state: &mut State, count: u32, outside: u32)
    ensures { state.new ≡ record state.old {
      outside = outside;
      scope = record state.old.scope { decls = take count state.old.scope.decls };
    } }
{
    state.outside = outside;
    state.scope.leave(count);
}
