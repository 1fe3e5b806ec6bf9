//! The changes of an in-memory store, as data.

ghost use Rattle.std.specs.Prelude.{◌≡◌, ◌-◌, [], ◌∷◌, ◌++◌, length, take, OnOk, OnErr};
ghost use Rattle.bx_io.specs.Stored.{change_of};

use std::alloc::{AllocError, Global};
use std::marker::Model;

/// A change of an in-memory store.
#[derive(Drop)]
pub enum Change {
    /// These bytes were put under this name.
    Put(String, Vec<u8>),
    /// This name was dropped.
    Drop(String),
}

/// The changes of an in-memory store, in order.
#[derive(Drop)]
pub struct History {
    changes: Vec<Change>,
}

impl Model for History {
    ghost use Rattle.std.specs.Prelude.{List, map};
    ghost use Rattle.bx_io.specs.Holdings as specs;
    ghost use Rattle.bx_io.specs.StoreCodes.{changes_code};

    ghost Value = { List specs.Change };

    ghost coded = { changes_code };

    ghost use Rattle.bx_io.specs.Stored.{change_of};

    ghost view = { λ h. map change_of h.changes.items };
}

impl History {
    /// No change yet.
    pub fn new(alloc: Global) -> History
        ensures { result ≡ [] }
    {
        History {
            changes: Vec::new(alloc),
        }
    }

    /// Adds a change.
    pub fn push(&mut self, change: Change) -> Result<(), AllocError>
        ensures added { OnOk result (self.new ≡ self.old ++ change_of change ∷ []) }
        ensures refused { OnErr result (self.new ≡ self.old) }
    {
        self.changes.push(change)?;
        Ok(())
    }

    /// Takes the last change back.
    pub fn undo(&mut self)
        ensures { self.new ≡ take (length self.old - 1) self.old }
    {
        self.changes.pop();
    }
}
