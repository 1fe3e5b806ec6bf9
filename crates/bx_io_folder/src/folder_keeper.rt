//! The store of the program: a folder of files.

ghost use Rattle.std.specs.Prelude.{◌≡◌, ℕ, List, [], true, Some, IsSome};
ghost use Rattle.std.specs.FinMap.{get};
ghost use Rattle.bx_io.specs.Holdings.{AreNames, Holdings, held_in, opened};
ghost use Rattle.bx_io.specs.Names.{IsName};
ghost use Rattle.bx_io_disk.specs.Telling.{told};

use crate::system::System;
use bx_io::{Got, KeepReader, Keeper, Listed, PutFault};
use bx_io_disk::Disk;
use std::alloc::{AllocError, Global};

/// A folder that holds each name as the plain file of that name, in a folder for each kind of name; other
/// files in it are ignored. It is locked as long as the store is there, from its first call on: alone where that was asked
/// first, and else shared. Where another one has locked it so that this store is excluded, each call fails. It held anything
/// at first, and tells that with its own changes, as long as each answer of the disk agrees. Each error of the disk but that
/// nothing is there is a fault, and raises the count by one, up to the greatest `u64`.
#[derive(Drop)]
pub struct FolderKeeper<D: Disk> {
    system: System<D>,
}

/// A reader of the folder of a [`FolderKeeper`], with a count of faults of its own.
#[derive(Drop)]
pub struct FolderReader<D: Disk> {
    system: System<D>,
}

impl<D: Disk + Send> FolderKeeper<D> {
    /// The store over the files of this folder, which need not be there.
    pub fn new(disk: D) -> FolderKeeper<D>
        ghost held: { Holdings }
        requires unused { D.calls disk ≡ [] }
        requires names { AreNames held }
        requires agrees { D.is_known ≡ true → (name : List ℕ) → IsName name
            → get held name ≡ get (D.files disk) name }
        ensures known { ⟦<FolderKeeper<D> as Keeper>⟧.known result ≡ opened held }
        ensures faults { ⟦<FolderKeeper<D> as Keeper>⟧.faults result ≡ 0 }
    {
        FolderKeeper {
            system: System::new(disk),
        }
    }

    /// Where it is known what the files hold, as in memory, the store tells what it holds.
    pub fn goes_on_telling(&self)
        ensures { D.is_known ≡ true → IsSome (held_in (⟦<FolderKeeper<D> as Keeper>⟧.known self.now)) }
    {}
}

impl<D: Disk> FolderReader<D> {
    // The folder with what was noted of it.
    fn into_system(self) -> System<D>
        ensures { result ≡ self.system }
    {
        let FolderReader { system } = self;
        system
    }
}

impl<D: Disk + Send> KeepReader for FolderReader<D> {
    ghost use Rattle.std.specs.Prelude.{None};

    ghost held = { λ r. told r.system.log.held r.system.log.events r.system.log.closed };

    ghost faults = { λ r. r.system.faults };

    ghost bound = { λ _. None };

    fn get(&mut self, alloc: Global, name: &str) -> Got {
        self.system.get(alloc, name)
    }
}

impl<D: Disk + Send> Keeper for FolderKeeper<D> {
    type Reader = FolderReader<D>;

    ghost use Rattle.std.specs.Prelude.{None};
    ghost use Rattle.bx_io_disk.specs.Events.{alone_of};
    ghost use Rattle.bx_io_disk.specs.Telling.{made_of};

    ghost known = { λ k. record {
      held = told k.system.log.held k.system.log.events k.system.log.closed;
      changes = made_of k.system.log.events;
      alone = alone_of k.system.log.events;
    } };

    ghost faults = { λ k. k.system.faults };

    ghost bound = { λ _. None };

    fn reader(&self, alloc: Global) -> Result<FolderReader<D>, AllocError> {
        Ok(FolderReader {
            system: self.system.again(alloc)?,
        })
    }

    fn close(&mut self, reader: FolderReader<D>) {
        self.system.join(reader.into_system());
    }

    fn alone(&mut self, alloc: Global) -> Result<(), PutFault> {
        self.system.alone(alloc)
    }

    fn get(&mut self, alloc: Global, name: &str) -> Got {
        self.system.get(alloc, name)
    }

    fn put(&mut self, alloc: Global, name: &str, bytes: &[u8]) -> Result<(), PutFault> {
        self.system.put(alloc, name, bytes)
    }

    fn drop_name(&mut self, alloc: Global, name: &str) -> Result<(), PutFault> {
        self.system.drop_name(alloc, name)
    }

    fn names(&mut self, alloc: Global) -> Listed {
        self.system.names(alloc)
    }
}
