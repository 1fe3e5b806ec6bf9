//! A store and a gate that tell whether a run came after a put.

use bx_io::{Gate, Got, Keeper, Listed, PutFault};
use std::alloc::{AllocError, Global};
use std::sync::atomic::AtomicU32;
use std::sync::atomic::Ordering::Relaxed;

/// A store over another one, which counts what is put.
#[derive(Drop)]
pub struct WatchedKeeper<'a, K: Keeper + Drop> {
    pub inner: K,
    pub puts: &'a AtomicU32,
}

impl<K: Keeper + Drop> Keeper for WatchedKeeper<'_, K> {
    type Reader = K::Reader;

    ghost known = { λ k. K.known k.inner };

    ghost faults = { λ k. K.faults k.inner };

    ghost bound = { λ k. K.bound k.inner };

    fn reader(&self, alloc: Global) -> Result<K::Reader, AllocError> {
        self.inner.reader(alloc)
    }

    fn close(&mut self, reader: K::Reader) {
        self.inner.close(reader)
    }

    fn alone(&mut self, alloc: Global) -> Result<(), PutFault> {
        self.inner.alone(alloc)
    }

    fn get(&mut self, alloc: Global, name: &str) -> Got {
        self.inner.get(alloc, name)
    }

    fn put(&mut self, alloc: Global, name: &str, bytes: &[u8]) -> Result<(), PutFault> {
        self.puts.fetch_add(1, Relaxed);
        self.inner.put(alloc, name, bytes)
    }

    fn drop_name(&mut self, alloc: Global, name: &str) -> Result<(), PutFault> {
        self.inner.drop_name(alloc, name)
    }

    fn names(&mut self, alloc: Global) -> Listed {
        self.inner.names(alloc)
    }
}

/// A gate that counts the runs that pass it after something was put.
#[derive(Drop)]
pub struct OrderGate<'a> {
    pub puts: &'a AtomicU32,
    pub late: AtomicU32,
}

impl Gate for OrderGate<'_> {
    fn pass(&self, _pip: u32) {
        if self.puts.load(Relaxed) != 0 {
            self.late.fetch_add(1, Relaxed);
        }
    }
}
