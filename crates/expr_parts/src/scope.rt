// What is declared where an expression stands.
ghost use Rattle.std.specs.Prelude.{◌≡◌, ◌<◌, ◌++◌, ◌∷◌, [], ℕ, List, length, take, drop};
ghost use Rattle.std.specs.Prelude.{IfOk, OnOk, OnErr};
ghost use Rattle.std.specs.Option.{option_copied};
ghost use Rattle.nim_types.specs.Types.{Ty, Facts};
ghost use Rattle.expr_rules.specs.Env.{known_as};
ghost use Rattle.expr_parts.specs.View.{env_of, Stands, DeclsWithin, FoundWithin};
ghost use Rattle.expr_parts.specs.ViewDecls.{last_of, declares, mended, procedure_in};

use crate::decls::Decls;
use arc_base::{Bytes, Items, Memory};
use nim_program::{Literal, Mode};
use nim_types::TypeId;
use std::alloc::Global;

/// A parameter of a procedure.
#[derive(Clone, Copy)]
pub struct Parameter {
    pub mode: Mode,
    pub ty: TypeId,
}

/// A procedure that can be called.
#[derive(Drop)]
pub struct Procedure {
    pub number: u32,
    pub params: Items<Parameter>,
    /// The type of its result.
    pub gives: Option<TypeId>,
    /// Whether the operation of its name on the base of a distinct type is meant.
    pub borrowed: bool,
}

/// What is declared.
#[derive(Drop)]
pub enum What {
    Variable {
        place: u32,
        ty: TypeId,
        writable: bool,
        /// Whether it is a global.
        global: bool,
    },
    Constant {
        ty: TypeId,
        value: Literal,
    },
    Type(TypeId),
    /// A type of a section that isn't known yet.
    Pending,
    Procedure(Procedure),
    /// Standard input.
    Input,
}

impl What {
    /// The procedure that it is.
    pub fn procedure(&self) -> Option<&Procedure>
        ensures { option_copied result ≡ procedure_in self.now }
    {
        match self {
            What::Procedure(procedure) => Some(procedure),
            _ => None,
        }
    }
}

/// A declaration.
#[derive(Drop)]
pub struct Decl {
    /// Its name in normal form; of a name in backticks, what stands between them.
    pub name: Bytes,
    pub what: What,
}

/// The numbers of the types that no source declares.
#[derive(Clone, Copy)]
pub struct Kinds {
    pub int: TypeId,
    pub bool: TypeId,
    pub char: TypeId,
    pub text: TypeId,
}

/// The declarations in scope, the innermost last.
#[derive(Drop)]
pub struct Scope {
    pub decls: Decls,
    pub kinds: Kinds,
    /// The number of the module.
    pub home: u32,
}

impl Scope {
    /// Without declarations.
    pub fn new(alloc: Global, kinds: Kinds, home: u32) -> Result<Scope, Memory>
        ensures { IfOk result (λ scope. scope ≡ record { decls = []; kinds = kinds; home = home }) }
    {
        let decls = Decls::new(alloc)?;
        Ok(Scope { decls, kinds, home })
    }

    /// Adds a declaration. After `Memory`, which comes too where there are 4,294,967,295, nothing
    /// has changed.
    pub fn declare(&mut self, decl: Decl) -> Result<(), Memory>
        ensures ok { OnOk result (self.new.decls ≡ self.old.decls ++ decl ∷ []) }
        ensures err { OnErr result (self.new.decls ≡ self.old.decls) }
        ensures kinds { self.new.kinds ≡ self.old.kinds }
        ensures home { self.new.home ≡ self.old.home }
    {
        self.decls.push(decl)
    }

    /// How many declarations there are. Their numbers are those below it.
    pub fn count(&self) -> u32
        ensures { result ≡ length self.now.decls }
    {
        self.decls.count()
    }

    /// Drops the declarations from a number on.
    pub fn leave(&mut self, count: u32)
        ensures decls { self.new.decls ≡ take count self.old.decls }
        ensures kinds { self.new.kinds ≡ self.old.kinds }
        ensures home { self.new.home ≡ self.old.home }
    {
        self.decls.leave(count);
    }

    /// Gives the declaration of a number another meaning.
    pub fn mend(&mut self, number: u32, what: What)
        requires { number < length self.old.decls }
        ensures decls { self.new.decls ≡ mended self.old.decls number what }
        ensures kinds { self.new.kinds ≡ self.old.kinds }
        ensures home { self.new.home ≡ self.old.home }
    {
        self.decls.mend(number, what);
    }

    /// The number of the last declaration of a name, which is in normal form.
    pub fn number_of(&self, name: &[u8]) -> Option<u32>
        ensures { result ≡ last_of self.now.decls name.now (length self.now.decls) }
    {
        self.decls.last(name)
    }

    /// Whether a name, in normal form, has a declaration whose number isn't below this one.
    pub fn is_declared_since(&self, name: &[u8], count: u32) -> bool
        ensures { result ≡ declares name.now (drop count self.now.decls) }
    {
        match self.decls.last(name) {
            Some(number) => number >= count,
            None => false,
        }
    }

    /// The last declaration of a name, which is in normal form.
    pub fn find(&self, name: &[u8]) -> Option<&Decl>
        ensures stands { (ts : List Ty) (facts : Facts)
            → Stands ts (option_copied result) (known_as (env_of ts facts self.now) name.now) }
        ensures within { (n : ℕ) → DeclsWithin n self.now.decls
            → FoundWithin n (option_copied result) }
    {
        match self.decls.last(name) {
            Some(number) => Some(self.decls.get(number)),
            None => None,
        }
    }
}
