//! An in-memory store that stops after a number of calls, as a machine that is switched off.

ghost use Rattle.std.specs.Prelude.{◌≡◌, ◌≢◌, ◌+◌, ◌-◌, ◌<◌, ◌≤◌, ◌↔◌, [], ◌∷◌, Some, Ok, Err, OnOk, OnErr};
ghost use Rattle.bx_io.specs.Answers.{IsAnswer, IsListing, ListsNames};
ghost use Rattle.bx_io.specs.Calls.{ListsAll, Looks, Stops, Tries};
ghost use Rattle.bx_io.specs.Causes.{HasCause, last_count};
ghost use Rattle.bx_io.specs.Holdings.{Put, Drop, state_after};
ghost use Rattle.bx_io.specs.Memories.{faults_in};
ghost use Rattle.bx_io.specs.Names.{IsName};

use crate::keeper::{Got, Keeper, Listed, PutFault};
use crate::mem_keeper::MemKeeper;
use crate::mem_reader::MemReader;
use std::alloc::{AllocError, Global};
use std::marker::Model;

/// What becomes of a call.
enum Turn {
    /// The call goes to the inner keeper.
    Passes,
    /// The call fails.
    Fails,
    /// The call answers that there is no memory, since no more faults can be counted.
    Full,
}

/// A store over another one, to which its first calls go. The calls `get`, `put`, `drop_name` and `names`
/// are counted together; after the last that goes on each fails and changes nothing. Its readers are the
/// inner keeper's.
#[derive(Drop)]
pub struct StopKeeper {
    inner: MemKeeper,
    left: u64,
    refused: u64,
}

impl Model for StopKeeper {
    ghost use Rattle.std.specs.Prelude.{◌≡◌, ◌+◌, ◌<◌};
    ghost use Rattle.bx_io.specs.Causes.{last_count};
    ghost use Rattle.bx_io.specs.Memories.{Stopping, stopping_code};

    ghost Value = { Stopping };

    ghost coded = { stopping_code };

    ghost view = { λ k. record { inner = k.inner; left = k.left; refused = k.refused } };

    ghost invariant = { λ k. (0 < k.left → k.refused ≡ 0)
        × (k.inner.script.faults + k.refused < last_count) };
}

impl StopKeeper {
    /// The first `calls` calls go to `inner`.
    pub fn new(inner: MemKeeper, calls: u64) -> StopKeeper
        ensures whole { result ≡ record { inner = inner; left = calls; refused = 0 } }
        ensures known { ⟦<StopKeeper as Keeper>⟧.known result ≡ ⟦<MemKeeper as Keeper>⟧.known inner }
        ensures faults { ⟦<StopKeeper as Keeper>⟧.faults result ≡ ⟦<MemKeeper as Keeper>⟧.faults inner }
        ensures bound { ⟦<StopKeeper as Keeper>⟧.bound result ≡ Some 0 }
    {
        let _faults = inner.faults();
        StopKeeper {
            inner,
            left: calls,
            refused: 0,
        }
    }

    /// The inner keeper, as the calls that it got left it.
    pub fn into_inner(self) -> MemKeeper
        ensures { result ≡ self.inner }
    {
        let StopKeeper {
            inner,
            left: _,
            refused: _,
        } = self;
        inner
    }

    /// Counts the next call.
    fn next_turn(&mut self) -> Turn
        ensures passes { (result ≡ Turn.Passes) ↔ (0 < self.old.left) }
        ensures passed { result ≡ Turn.Passes → self.new ≡ record self.old { left = self.old.left - 1 } }
        ensures none_refused { result ≡ Turn.Passes → self.new.refused ≡ 0 }
        ensures fails { result ≡ Turn.Fails → faults_in self.old + 1 < last_count }
        ensures failed { result ≡ Turn.Fails → self.new ≡ record self.old { refused = self.old.refused + 1 } }
        ensures full { result ≡ Turn.Full → last_count ≤ faults_in self.old + 1 }
        ensures same { result ≡ Turn.Full → self.new ≡ self.old }
        ensures can_rise { faults_in self.new < last_count }
    {
        if self.left > 0 {
            self.left -= 1;
            return Turn::Passes;
        }
        if self.inner.faults() + self.refused + 1 < u64::MAX {
            self.refused += 1;
            return Turn::Fails;
        }
        Turn::Full
    }
}

impl Keeper for StopKeeper {
    ghost use Rattle.std.specs.Prelude.{Some};
    ghost use Rattle.bx_io.specs.Holdings.{told_of};
    ghost use Rattle.bx_io.specs.Memories.{faults_in};

    type Reader = MemReader;

    ghost known = { λ k. told_of k.inner.kept };

    ghost faults = { faults_in };

    ghost bound = { λ _. Some 0 };

    fn reader(&self, alloc: Global) -> Result<MemReader, AllocError> {
        self.inner.reader(alloc)
    }

    fn close(&mut self, _reader: MemReader)
        ensures { self.new ≡ self.old }
    {}

    fn alone(&mut self, _alloc: Global) -> Result<(), PutFault>
        ensures granted { result ≡ Ok tt }
        ensures same { self.new ≡ self.old }
        ensures can_rise { faults_in self.new < last_count }
    {
        let _faults = self.inner.faults();
        Ok(())
    }

    fn get(&mut self, alloc: Global, name: &str) -> Got
        requires { IsName name.now }
        ensures stops { Stops self.old self.new (Looks self.old.inner self.new.inner name.now result)
            (result ≡ Got.Failed) (result ≡ Got.Memory) }
        ensures found { IsAnswer self.old.inner.kept.held name.now result }
        ensures kept { self.new.inner.kept ≡ self.old.inner.kept }
        ensures can_rise { faults_in self.new < last_count }
        ensures cause { HasCause (faults_in self.old) (faults_in self.new) (result ≡ Got.Failed) }
        ensures no_fault { result ≢ Got.Failed → faults_in self.new ≡ faults_in self.old }
    {
        match self.next_turn() {
            Turn::Passes => self.inner.get(alloc, name),
            Turn::Fails => Got::Failed,
            Turn::Full => Got::Memory,
        }
    }

    fn put(&mut self, alloc: Global, name: &str, bytes: &[u8]) -> Result<(), PutFault>
        requires { IsName name.now }
        ensures stops { Stops self.old self.new
            (Tries self.old.inner self.new.inner (Put name.now bytes.now) result)
            (result ≡ Err PutFault.Failed) (result ≡ Err PutFault.Memory) }
        ensures made { OnOk result
            (self.new.inner.kept ≡ state_after self.old.inner.kept (Put name.now bytes.now ∷ [])) }
        ensures kept { OnErr result (self.new.inner.kept ≡ self.old.inner.kept) }
        ensures can_rise { faults_in self.new < last_count }
        ensures cause { HasCause (faults_in self.old) (faults_in self.new) (result ≡ Err PutFault.Failed) }
        ensures no_fault { result ≢ Err PutFault.Failed → faults_in self.new ≡ faults_in self.old }
    {
        match self.next_turn() {
            Turn::Passes => self.inner.put(alloc, name, bytes),
            Turn::Fails => Err(PutFault::Failed),
            Turn::Full => Err(PutFault::Memory),
        }
    }

    fn drop_name(&mut self, alloc: Global, name: &str) -> Result<(), PutFault>
        requires { IsName name.now }
        ensures stops { Stops self.old self.new (Tries self.old.inner self.new.inner (Drop name.now) result)
            (result ≡ Err PutFault.Failed) (result ≡ Err PutFault.Memory) }
        ensures made { OnOk result
            (self.new.inner.kept ≡ state_after self.old.inner.kept (Drop name.now ∷ [])) }
        ensures kept { OnErr result (self.new.inner.kept ≡ self.old.inner.kept) }
        ensures can_rise { faults_in self.new < last_count }
        ensures cause { HasCause (faults_in self.old) (faults_in self.new) (result ≡ Err PutFault.Failed) }
        ensures no_fault { result ≢ Err PutFault.Failed → faults_in self.new ≡ faults_in self.old }
    {
        match self.next_turn() {
            Turn::Passes => self.inner.drop_name(alloc, name),
            Turn::Fails => Err(PutFault::Failed),
            Turn::Full => Err(PutFault::Memory),
        }
    }

    fn names(&mut self, alloc: Global) -> Listed
        ensures stops { Stops self.old self.new (ListsAll self.old.inner self.new.inner result)
            (result ≡ Listed.Failed) (result ≡ Listed.Memory) }
        ensures listed { IsListing self.old.inner.kept.held result }
        ensures names { ListsNames result }
        ensures kept { self.new.inner.kept ≡ self.old.inner.kept }
        ensures can_rise { faults_in self.new < last_count }
        ensures cause { HasCause (faults_in self.old) (faults_in self.new) (result ≡ Listed.Failed) }
        ensures no_fault { result ≢ Listed.Failed → faults_in self.new ≡ faults_in self.old }
    {
        match self.next_turn() {
            Turn::Passes => self.inner.names(alloc),
            Turn::Fails => Listed::Failed,
            Turn::Full => Listed::Memory,
        }
    }
}
