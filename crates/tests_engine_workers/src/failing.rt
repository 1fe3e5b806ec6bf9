//! A store of which one reader fails.

use bx_io::{FailReader, Got, Keeper, Listed, MemKeeper, PutFault};
use std::alloc::{AllocError, Global};
use std::sync::atomic::AtomicU32;
use std::sync::atomic::Ordering::Relaxed;

/// A store in memory of which one reader fails at one call.
#[derive(Drop)]
pub struct OneFailsKeeper {
    inner: MemKeeper,
    readers: AtomicU32,
    failing: u32,
    call: u64,
}

impl OneFailsKeeper {
    /// A store over this one, of which no reader was made yet. The reader with this number, from 0, fails at its call with
    /// this number, from 1.
    pub fn new(inner: MemKeeper, failing: u32, call: u64) -> OneFailsKeeper {
        OneFailsKeeper {
            inner,
            readers: AtomicU32::new(0),
            failing,
            call,
        }
    }
}

// The number of the call at which a reader fails, 0 for none.
fn call_if(fails: bool, call: u64) -> u64 {
    if fails { call } else { 0 }
}

impl Keeper for OneFailsKeeper {
    ghost use Rattle.std.specs.Prelude.{Some};
    ghost use Rattle.bx_io.specs.Holdings.{told_of};

    type Reader = FailReader;

    ghost known = { λ k. told_of k.inner.kept };

    ghost faults = { λ k. k.inner.script.faults };

    ghost bound = { λ _. Some 1 };

    fn reader(&self, alloc: Global) -> Result<FailReader, AllocError> {
        let inner = self.inner.reader(alloc)?;
        let fails = self.readers.fetch_add(1, Relaxed) == self.failing;
        let failing = [call_if(fails, self.call)].to_vec(alloc)?;
        Ok(FailReader::new(inner, failing))
    }

    fn close(&mut self, _reader: FailReader) {}

    fn alone(&mut self, alloc: Global) -> Result<(), PutFault> {
        self.inner.alone(alloc)
    }

    fn get(&mut self, alloc: Global, name: &str) -> Got {
        self.inner.get(alloc, name)
    }

    fn put(&mut self, alloc: Global, name: &str, bytes: &[u8]) -> Result<(), PutFault> {
        self.inner.put(alloc, name, bytes)
    }

    fn drop_name(&mut self, alloc: Global, name: &str) -> Result<(), PutFault> {
        self.inner.drop_name(alloc, name)
    }

    fn names(&mut self, alloc: Global) -> Listed {
        self.inner.names(alloc)
    }
}
