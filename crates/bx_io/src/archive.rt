//! What every store in memory is made of: its holdings, and the changes that led there.

ghost use Rattle.std.specs.Prelude.{◌≡◌, ◌≢◌, [], ◌∷◌, Some, IfOk, OnOk, OnErr};
ghost use Rattle.std.specs.FinMap.{empty, get};
ghost use Rattle.bx_io.specs.Holdings.{AreNames, Put, Drop, state_after};
ghost use Rattle.bx_io.specs.Names.{IsName};

use crate::history::{Change, History};
use crate::holdings::Holdings;
use std::alloc::{AllocError, Global};
use std::marker::Model;

/// Holdings with their history.
#[derive(Drop)]
pub struct Archive {
    held: Holdings,
    changes: History,
}

impl Model for Archive {
    ghost use Rattle.bx_io.specs.Holdings.{StoreState};
    ghost use Rattle.bx_io.specs.StoreCodes.{state_code};

    ghost Value = { StoreState };

    ghost coded = { state_code };

    ghost view = { λ s. record { held = s.held; changes = s.changes } };
}

impl Archive {
    /// Nothing is held, and there was no change.
    pub fn new(alloc: Global) -> Archive
        ensures { result ≡ record { held = empty; changes = [] } }
    {
        Archive {
            held: Holdings::new(alloc),
            changes: History::new(alloc),
        }
    }

    /// What is held.
    pub fn held(&self) -> &Holdings
        ensures { result.now ≡ self.now.held }
    {
        &self.held
    }

    /// Holds the bytes under the name, in place of what was held there.
    pub fn put(&mut self, alloc: Global, name: &str, bytes: &[u8]) -> Result<(), AllocError>
        requires { IsName name.now }
        ensures made { OnOk result (self.new ≡ state_after self.old (Put name.now bytes.now ∷ [])) }
        ensures refused { OnErr result (self.new ≡ self.old) }
    {
        let key = String::from_str(alloc, name)?;
        let value = bytes.to_vec(alloc)?;
        let change = Change::Put(String::from_str(alloc, name)?, bytes.to_vec(alloc)?);
        self.changes.push(change)?;
        match self.held.put(key, value) {
            Ok(()) => Ok(()),
            Err(error) => {
                self.changes.undo();
                Err(error)
            }
        }
    }

    /// Holds nothing under the name.
    pub fn drop_name(&mut self, alloc: Global, name: &str) -> Result<(), AllocError>
        ensures made { OnOk result (self.new ≡ state_after self.old (Drop name.now ∷ [])) }
        ensures refused { OnErr result (self.new ≡ self.old) }
    {
        let change = Change::Drop(String::from_str(alloc, name)?);
        self.changes.push(change)?;
        self.held.drop_name(name);
        Ok(())
    }
}
