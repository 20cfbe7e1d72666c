// Lines of a hook that are written one after another.
ghost use Rattle.std.specs.Prelude.{◌≡◌, [], List, Option, Some, IfOk};
ghost use Rattle.hook_lifting.specs.declared.lifted.LiftedLine.{LiftedLine as LineOf};
ghost use Rattle.hook_lifting.specs.Written.{IsPut, one};

use crate::lifted::LiftedLine;
use arc_base::{Items, Memory};
use std::alloc::Global;
use std::marker::Model;

/// What was written so far. Where there was no memory for a line, all is lost, which `finish` tells.
#[derive(Drop)]
pub struct Lines {
    all: Items<LiftedLine>,
    kept: bool,
}

impl Model for Lines {
    ghost use Rattle.std.specs.Prelude.{List, Option, Some, None, if◌then◌else◌};
    ghost use Rattle.hook_lifting.specs.declared.lifted.LiftedLine.{LiftedLine as LineOf};

    ghost Value = { Option (List LineOf) };

    ghost view = { λ w. if w.kept then Some w.all else None };
}

impl Lines {
    /// Nothing.
    pub fn new(alloc: Global) -> Self
        ensures { result ≡ Some [] }
    {
        Lines {
            all: Items::new(alloc),
            kept: true,
        }
    }

    /// Adds one at the end.
    pub fn put(&mut self, line: LiftedLine)
        ensures { IsPut self.old self.new (one line) }
    {
        if self.all.push(line).is_err() {
            self.kept = false;
        }
    }

    /// All is lost, whatever was to be put behind whatever there was.
    pub fn lose(&mut self)
        ensures { (old : Option (List LineOf)) (put : List LineOf → List LineOf) →
            IsPut old self.new put }
    {
        self.kept = false;
    }

    /// What was written, unless it was lost.
    pub fn finish(self) -> Result<Items<LiftedLine>, Memory>
        ensures { IfOk result (λ all. self ≡ Some all) }
    {
        if !self.kept {
            return Err(Memory);
        }
        Ok(self.all)
    }
}
