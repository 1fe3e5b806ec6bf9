//! An in-memory store whose calls fail as its maker asked.

ghost use Rattle.std.specs.Prelude.{◌≡◌, ◌<◌, [], ◌∷◌, Some, Ok, Err, OnOk, OnErr, option_map, true};
ghost use Rattle.std.specs.FinMap.{empty, get};
ghost use Rattle.bx_io.specs.Calls.{ListsAll, Looks, Tries};
ghost use Rattle.bx_io.specs.Causes.{HasCause, last_count};
ghost use Rattle.bx_io.specs.Holdings.{Put, Drop, state_after};
ghost use Rattle.bx_io.specs.Names.{IsName};

use crate::archive::Archive;
use crate::fault_plan::FaultPlan;
use crate::keeper::{Got, Keeper, Listed, PutFault};
use crate::mem_reader::MemReader;
use std::alloc::{AllocError, Global};
use std::marker::Model;

/// An in-memory store. Its calls `get`, `put`, `drop_name` and `names` are numbered together, and fail as its
/// maker asked; its readers never fail.
#[derive(Drop)]
pub struct MemKeeper {
    archive: Archive,
    plan: FaultPlan,
}

impl Model for MemKeeper {
    ghost use Rattle.bx_io.specs.Memories.{Scripted, scripted_code};

    ghost Value = { Scripted };

    ghost coded = { scripted_code };

    ghost view = { λ k. record { kept = k.archive; script = k.plan } };
}

impl MemKeeper {
    /// A store that holds nothing. The calls whose numbers, from 1, are in `failing` fail.
    pub fn new(alloc: Global, failing: Vec<u64>) -> MemKeeper
        ensures whole { result ≡ record {
          kept = record { held = empty; changes = [] };
          script = record { failing = failing.items; calls = 0; faults = 0 };
        } }
        ensures known { ⟦<MemKeeper as Keeper>⟧.known result
            ≡ record { held = Some empty; changes = []; alone = true } }
        ensures faults { ⟦<MemKeeper as Keeper>⟧.faults result ≡ 0 }
        ensures bound { ⟦<MemKeeper as Keeper>⟧.bound result ≡ Some 0 }
    {
        MemKeeper {
            archive: Archive::new(alloc),
            plan: FaultPlan::new(failing),
        }
    }

    /// The bytes that are held under the name. This is no numbered call.
    pub fn held(&self, name: &str) -> Option<&[u8]>
        ensures { option_map (λ bytes. bytes.now) result ≡ get self.now.kept.held name.now }
    {
        match self.archive.held().get(name) {
            Some(bytes) => Some(bytes.as_slice()),
            None => None,
        }
    }

    /// Holds the bytes under the name, as a test wants them. This is a change, but no numbered call.
    pub fn set_raw(&mut self, alloc: Global, name: &str, bytes: Vec<u8>) -> Result<(), AllocError>
        requires { IsName name.now }
        ensures made { OnOk result (self.new ≡ record self.old {
          kept = state_after self.old.kept (Put name.now bytes.items ∷ []);
        }) }
        ensures refused { OnErr result (self.new ≡ self.old) }
    {
        self.archive.put(alloc, name, &bytes)
    }

    /// How many calls failed.
    pub fn faults(&self) -> u64
        ensures count { result ≡ self.now.script.faults }
        ensures can_rise { result < last_count }
    {
        self.plan.faults()
    }
}

impl Keeper for MemKeeper {
    ghost use Rattle.std.specs.Prelude.{Some};
    ghost use Rattle.bx_io.specs.Holdings.{told_of};

    type Reader = MemReader;

    ghost known = { λ k. told_of k.kept };

    ghost faults = { λ k. k.script.faults };

    ghost bound = { λ _. Some 0 };

    fn reader(&self, _alloc: Global) -> Result<MemReader, AllocError> {
        Ok(MemReader::new(self.archive.held().copy()?))
    }

    fn close(&mut self, _reader: MemReader)
        ensures { self.new ≡ self.old }
    {}

    fn alone(&mut self, _alloc: Global) -> Result<(), PutFault>
        ensures granted { result ≡ Ok tt }
        ensures same { self.new ≡ self.old }
        ensures can_rise { self.new.script.faults < last_count }
    {
        let _faults = self.plan.faults();
        Ok(())
    }

    fn get(&mut self, alloc: Global, name: &str) -> Got
        requires { IsName name.now }
        ensures looks { Looks self.old self.new name.now result }
        ensures can_rise { self.new.script.faults < last_count }
        ensures cause { HasCause self.old.script.faults self.new.script.faults (result ≡ Got.Failed) }
    {
        if self.plan.next_fails() {
            return Got::Failed;
        }
        self.archive.held().look(alloc, name)
    }

    fn put(&mut self, alloc: Global, name: &str, bytes: &[u8]) -> Result<(), PutFault>
        requires { IsName name.now }
        ensures tries { Tries self.old self.new (Put name.now bytes.now) result }
        ensures can_rise { self.new.script.faults < last_count }
        ensures cause { HasCause self.old.script.faults self.new.script.faults
            (result ≡ Err PutFault.Failed) }
    {
        if self.plan.next_fails() {
            return Err(PutFault::Failed);
        }
        self.archive.put(alloc, name, bytes)?;
        Ok(())
    }

    fn drop_name(&mut self, alloc: Global, name: &str) -> Result<(), PutFault>
        requires { IsName name.now }
        ensures tries { Tries self.old self.new (Drop name.now) result }
        ensures can_rise { self.new.script.faults < last_count }
        ensures cause { HasCause self.old.script.faults self.new.script.faults
            (result ≡ Err PutFault.Failed) }
    {
        if self.plan.next_fails() {
            return Err(PutFault::Failed);
        }
        self.archive.drop_name(alloc, name)?;
        Ok(())
    }

    fn names(&mut self, alloc: Global) -> Listed
        ensures lists { ListsAll self.old self.new result }
        ensures can_rise { self.new.script.faults < last_count }
        ensures cause { HasCause self.old.script.faults self.new.script.faults (result ≡ Listed.Failed) }
    {
        if self.plan.next_fails() {
            return Listed::Failed;
        }
        self.archive.held().list(alloc)
    }
}
