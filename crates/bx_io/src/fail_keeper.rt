//! An in-memory store whose readers fail as its maker asked.

ghost use Rattle.std.specs.Prelude.{◌≡◌, ◌<◌, Some, Ok, Err, IfOk, length};
ghost use Rattle.bx_io.specs.Calls.{ListsAll, Looks, Tries};
ghost use Rattle.bx_io.specs.Causes.{HasCause, last_count};
ghost use Rattle.bx_io.specs.Holdings.{AreNames, Put, Drop};
ghost use Rattle.bx_io.specs.Names.{IsName};

use crate::keeper::{Got, Keeper, Listed, PutFault};
use crate::mem_keeper::MemKeeper;
use crate::mem_reader::FailReader;
use std::alloc::{AllocError, Global};
use std::marker::Model;

/// A store over another one. Its own calls are calls of that store; each of its readers numbers its calls
/// from 1, and fails as the maker of the store asked.
#[derive(Drop)]
pub struct FailKeeper {
    inner: MemKeeper,
    failing: Vec<u64>,
}

impl Model for FailKeeper {
    ghost use Rattle.bx_io.specs.Memories.{Failing, failing_code};

    ghost Value = { Failing };

    ghost coded = { failing_code };

    ghost view = { λ k. record { inner = k.inner; failing = k.failing.items } };
}

impl FailKeeper {
    /// The calls of each reader whose numbers are in `failing` fail.
    pub fn new(inner: MemKeeper, failing: Vec<u64>) -> FailKeeper
        ensures whole { result ≡ record { inner = inner; failing = failing.items } }
        ensures known { ⟦<FailKeeper as Keeper>⟧.known result ≡ ⟦<MemKeeper as Keeper>⟧.known inner }
        ensures faults { ⟦<FailKeeper as Keeper>⟧.faults result ≡ ⟦<MemKeeper as Keeper>⟧.faults inner }
        ensures bound { ⟦<FailKeeper as Keeper>⟧.bound result ≡ Some (length failing.items) }
    {
        FailKeeper { inner, failing }
    }
}

impl Keeper for FailKeeper {
    ghost use Rattle.std.specs.Prelude.{Some, length};
    ghost use Rattle.bx_io.specs.Holdings.{told_of};

    type Reader = FailReader;

    ghost known = { λ k. told_of k.inner.kept };

    ghost faults = { λ k. k.inner.script.faults };

    ghost bound = { λ k. Some (length k.failing) };

    fn reader(&self, alloc: Global) -> Result<FailReader, AllocError>
        ensures whole { IfOk result (λ reader. reader ≡ record {
          held = self.now.inner.kept.held;
          script = record { failing = self.now.failing; calls = 0; faults = 0 };
        }) }
        ensures names { AreNames self.now.inner.kept.held }
    {
        Ok(FailReader::new(self.inner.reader(alloc)?, self.failing.clone()?))
    }

    fn close(&mut self, _reader: FailReader)
        ensures { self.new ≡ self.old }
    {}

    fn alone(&mut self, alloc: Global) -> Result<(), PutFault>
        ensures granted { result ≡ Ok tt }
        ensures same { self.new ≡ self.old }
        ensures can_rise { self.new.inner.script.faults < last_count }
    {
        self.inner.alone(alloc)
    }

    fn get(&mut self, alloc: Global, name: &str) -> Got
        requires { IsName name.now }
        ensures looks { Looks self.old.inner self.new.inner name.now result }
        ensures failing { self.new.failing ≡ self.old.failing }
        ensures can_rise { self.new.inner.script.faults < last_count }
        ensures cause { HasCause self.old.inner.script.faults self.new.inner.script.faults
            (result ≡ Got.Failed) }
    {
        self.inner.get(alloc, name)
    }

    fn put(&mut self, alloc: Global, name: &str, bytes: &[u8]) -> Result<(), PutFault>
        requires { IsName name.now }
        ensures tries { Tries self.old.inner self.new.inner (Put name.now bytes.now) result }
        ensures failing { self.new.failing ≡ self.old.failing }
        ensures can_rise { self.new.inner.script.faults < last_count }
        ensures cause { HasCause self.old.inner.script.faults self.new.inner.script.faults
            (result ≡ Err PutFault.Failed) }
    {
        self.inner.put(alloc, name, bytes)
    }

    fn drop_name(&mut self, alloc: Global, name: &str) -> Result<(), PutFault>
        requires { IsName name.now }
        ensures tries { Tries self.old.inner self.new.inner (Drop name.now) result }
        ensures failing { self.new.failing ≡ self.old.failing }
        ensures can_rise { self.new.inner.script.faults < last_count }
        ensures cause { HasCause self.old.inner.script.faults self.new.inner.script.faults
            (result ≡ Err PutFault.Failed) }
    {
        self.inner.drop_name(alloc, name)
    }

    fn names(&mut self, alloc: Global) -> Listed
        ensures lists { ListsAll self.old.inner self.new.inner result }
        ensures failing { self.new.failing ≡ self.old.failing }
        ensures can_rise { self.new.inner.script.faults < last_count }
        ensures cause { HasCause self.old.inner.script.faults self.new.inner.script.faults
            (result ≡ Listed.Failed) }
    {
        self.inner.names(alloc)
    }
}
