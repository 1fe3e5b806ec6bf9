//! A store of which the first reader finds no memory.

use bx_io::{Got, KeepReader, Keeper, Listed, MemKeeper, MemReader, PutFault};
use std::alloc::{AllocError, Global};
use std::sync::atomic::AtomicU32;
use std::sync::atomic::Ordering::Relaxed;

/// A reader in memory, which may find no memory for any answer.
#[derive(Drop)]
pub struct ScarceReader {
    inner: MemReader,
    scarce: bool,
}

impl KeepReader for ScarceReader {
    ghost use Rattle.std.specs.Prelude.{Some};

    ghost held = { λ r. Some r.inner };

    ghost faults = { λ _. 0 };

    ghost bound = { λ _. Some 0 };

    fn get(&mut self, alloc: Global, name: &str) -> Got {
        if self.scarce {
            return Got::Memory;
        }
        self.inner.get(alloc, name)
    }
}

/// A store in memory of which the first reader finds no memory for any answer.
#[derive(Drop)]
pub struct ScarceKeeper {
    inner: MemKeeper,
    readers: AtomicU32,
}

impl ScarceKeeper {
    /// A store over this one, of which no reader was made yet.
    pub fn new(inner: MemKeeper) -> ScarceKeeper {
        ScarceKeeper {
            inner,
            readers: AtomicU32::new(0),
        }
    }
}

impl Keeper for ScarceKeeper {
    ghost use Rattle.std.specs.Prelude.{Some};
    ghost use Rattle.bx_io.specs.Holdings.{told_of};

    type Reader = ScarceReader;

    ghost known = { λ k. told_of k.inner.kept };

    ghost faults = { λ k. k.inner.script.faults };

    ghost bound = { λ _. Some 0 };

    fn reader(&self, alloc: Global) -> Result<ScarceReader, AllocError> {
        Ok(ScarceReader {
            inner: self.inner.reader(alloc)?,
            scarce: self.readers.fetch_add(1, Relaxed) == 0,
        })
    }

    fn close(&mut self, _reader: ScarceReader) {}

    fn alone(&mut self, alloc: Global) -> Result<(), PutFault> {
        self.inner.alone(alloc)
    }

    fn get(&mut self, alloc: Global, name: &str) -> Got {
        self.inner.get(alloc, name)
    }

    fn put(&mut self, alloc: Global, name: &str, bytes: &[u8]) -> Result<(), PutFault> {
        self.inner.put(alloc, name, bytes)
    }

    fn drop_name(&mut self, alloc: Global, name: &str) -> Result<(), PutFault> {
        self.inner.drop_name(alloc, name)
    }

    fn names(&mut self, alloc: Global) -> Listed {
        self.inner.names(alloc)
    }
}
