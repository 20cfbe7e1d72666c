// Lines or places that are written one after another.
ghost use Rattle.std.specs.Prelude.{◌≡◌, [], List, Option, Some, IfOk};
ghost use Rattle.flattening.specs.Written.{IsPut, one};

use arc_base::{Items, Memory};
use std::alloc::Global;
use std::marker::Model;

/// How far the branches of a `case` were written.
#[derive(Clone, Copy)]
pub enum Arms {
    /// All is lost.
    Lost,
    /// The last one is for all else.
    Closed,
    /// What is done where no label fits follows, with numbers from here on.
    Open(u32),
}

/// What was written so far. Where there was no memory for one, all is lost, which `finish` tells.
#[derive(Drop)]
pub struct Written<T: Drop> {
    all: Items<T>,
    kept: bool,
}

impl<T: Drop> Model for Written<T> {
    ghost use Rattle.std.specs.Prelude.{List, Option, Some, None, if◌then◌else◌};

    ghost Value = { Option (List T) };

    ghost view = { λ w. if w.kept then Some w.all else None };
}

impl<T: Drop> Written<T> {
    /// Nothing.
    pub fn new(alloc: Global) -> Self
        ensures { result ≡ Some [] }
    {
        Written {
            all: Items::new(alloc),
            kept: true,
        }
    }

    /// Adds one at the end.
    pub fn put(&mut self, item: T)
        ensures { IsPut self.old self.new (one item) }
    {
        if self.all.push(item).is_err() {
            self.kept = false;
        }
    }

    /// All is lost, whatever was to be put behind whatever there was.
    pub fn lose(&mut self)
        ensures { (old : Option (List T)) (put : List T → List T) → IsPut old self.new put }
    {
        self.kept = false;
    }

    /// What was written, unless it was lost.
    pub fn finish(self) -> Result<Items<T>, Memory>
        ensures { IfOk result (λ all. self ≡ Some all) }
    {
        if !self.kept {
            return Err(Memory);
        }
        Ok(self.all)
    }
}
