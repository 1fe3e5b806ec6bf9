//! An in-memory store that never fails.

ghost use Rattle.std.specs.Prelude.{◌≡◌, ◌≢◌, [], ◌∷◌, Some, Ok, Err, OnOk, OnErr, true};
ghost use Rattle.std.specs.FinMap.{empty};
ghost use Rattle.bx_io.specs.Answers.{IsAnswer, IsListing, ListsNames};
ghost use Rattle.bx_io.specs.Holdings.{Put, Drop, state_after};
ghost use Rattle.bx_io.specs.Names.{IsName};

use crate::archive::Archive;
use crate::keeper::{Got, Keeper, Listed, PutFault};
use crate::mem_reader::MemReader;
use std::alloc::{AllocError, Global};
use std::marker::Model;

/// An in-memory store that never fails.
#[derive(Drop)]
pub struct NoFaultKeeper {
    archive: Archive,
}

impl Model for NoFaultKeeper {
    ghost use Rattle.bx_io.specs.Holdings.{StoreState};
    ghost use Rattle.bx_io.specs.StoreCodes.{state_code};

    ghost Value = { StoreState };

    ghost coded = { state_code };

    ghost view = { λ k. k.archive };
}

impl NoFaultKeeper {
    /// A store that holds nothing.
    pub fn new(alloc: Global) -> NoFaultKeeper
        ensures known { ⟦<NoFaultKeeper as Keeper>⟧.known result
            ≡ record { held = Some empty; changes = []; alone = true } }
        ensures faults { ⟦<NoFaultKeeper as Keeper>⟧.faults result ≡ 0 }
        ensures bound { ⟦<NoFaultKeeper as Keeper>⟧.bound result ≡ Some 0 }
    {
        NoFaultKeeper {
            archive: Archive::new(alloc),
        }
    }
}

impl Keeper for NoFaultKeeper {
    ghost use Rattle.std.specs.Prelude.{Some};
    ghost use Rattle.bx_io.specs.Holdings.{told_of};

    type Reader = MemReader;

    ghost known = { told_of };

    ghost faults = { λ _. 0 };

    ghost bound = { λ _. Some 0 };

    fn reader(&self, _alloc: Global) -> Result<MemReader, AllocError> {
        Ok(MemReader::new(self.archive.held().copy()?))
    }

    fn close(&mut self, _reader: MemReader)
        ensures { self.new ≡ self.old }
    {}

    fn alone(&mut self, _alloc: Global) -> Result<(), PutFault>
        ensures granted { result ≡ Ok tt }
        ensures same { self.new ≡ self.old }
    {
        Ok(())
    }

    fn get(&mut self, alloc: Global, name: &str) -> Got
        requires { IsName name.now }
        ensures found { IsAnswer self.old.held name.now result }
        ensures same { self.new ≡ self.old }
        ensures no_fault { result ≢ Got.Failed }
    {
        self.archive.held().look(alloc, name)
    }

    fn put(&mut self, alloc: Global, name: &str, bytes: &[u8]) -> Result<(), PutFault>
        requires { IsName name.now }
        ensures made { OnOk result (self.new ≡ state_after self.old (Put name.now bytes.now ∷ [])) }
        ensures refused { OnErr result (self.new ≡ self.old) }
        ensures no_fault { result ≢ Err PutFault.Failed }
    {
        self.archive.put(alloc, name, bytes)?;
        Ok(())
    }

    fn drop_name(&mut self, alloc: Global, name: &str) -> Result<(), PutFault>
        requires { IsName name.now }
        ensures made { OnOk result (self.new ≡ state_after self.old (Drop name.now ∷ [])) }
        ensures refused { OnErr result (self.new ≡ self.old) }
        ensures no_fault { result ≢ Err PutFault.Failed }
    {
        self.archive.drop_name(alloc, name)?;
        Ok(())
    }

    fn names(&mut self, alloc: Global) -> Listed
        ensures listed { IsListing self.old.held result }
        ensures names { ListsNames result }
        ensures same { self.new ≡ self.old }
        ensures no_fault { result ≢ Listed.Failed }
    {
        self.archive.held().list(alloc)
    }
}
