//! Readers in memory: one that never fails, and one that fails at numbered calls.

ghost use Rattle.std.specs.Prelude.{◌≡◌, ◌≢◌, ◌<◌, ◌≤◌, Some, IsSome, length};
ghost use Rattle.std.specs.FinMap.{get};
ghost use Rattle.bx_io.specs.Answers.{IsAnswer};
ghost use Rattle.bx_io.specs.Causes.{HasCause, last_count};
ghost use Rattle.bx_io.specs.Names.{IsName};
ghost use Rattle.bx_io.specs.Numbered.{IsNumbered};

use crate::fault_plan::FaultPlan;
use crate::holdings::Holdings;
use crate::keeper::{Got, KeepReader};
use std::alloc::Global;
use std::marker::Model;

/// A reader of what an in-memory store held when the reader was made. It never fails.
#[derive(Drop)]
pub struct MemReader {
    held: Holdings,
}

impl Model for MemReader {
    ghost use Rattle.bx_io.specs.Holdings as specs;
    ghost use Rattle.bx_io.specs.StoreCodes.{holdings_code};

    ghost Value = { specs.Holdings };

    ghost coded = { holdings_code };

    ghost view = { λ r. r.held };
}

impl MemReader {
    pub(crate) fn new(held: Holdings) -> MemReader
        ensures { result ≡ held }
    {
        MemReader { held }
    }
}

impl KeepReader for MemReader {
    ghost use Rattle.std.specs.Prelude.{Some};

    ghost held = { λ r. Some r };

    ghost faults = { λ _. 0 };

    ghost bound = { λ _. Some 0 };

    fn get(&mut self, alloc: Global, name: &str) -> Got
        requires { IsName name.now }
        ensures found { IsAnswer self.old name.now result }
        ensures memory { result ≡ Got.Memory → IsSome (get self.old name.now) }
        ensures same { self.new ≡ self.old }
        ensures no_fault { result ≢ Got.Failed }
    {
        self.held.look(alloc, name)
    }
}

/// A reader whose calls fail as its maker asked.
#[derive(Drop)]
pub struct FailReader {
    inner: MemReader,
    plan: FaultPlan,
}

impl Model for FailReader {
    ghost use Rattle.bx_io.specs.Memories.{ScriptedReader, scripted_reader_code};

    ghost Value = { ScriptedReader };

    ghost coded = { scripted_reader_code };

    ghost view = { λ r. record { held = r.inner; script = r.plan } };
}

impl FailReader {
    /// Reads what `inner` holds. The calls whose numbers, from 1, are in `failing` fail.
    pub fn new(inner: MemReader, failing: Vec<u64>) -> FailReader
        ensures whole { result ≡ record {
          held = inner;
          script = record { failing = failing.items; calls = 0; faults = 0 };
        } }
        ensures held { ⟦<FailReader as KeepReader>⟧.held result ≡ ⟦<MemReader as KeepReader>⟧.held inner }
        ensures faults { ⟦<FailReader as KeepReader>⟧.faults result ≡ 0 }
        ensures bound { ⟦<FailReader as KeepReader>⟧.bound result ≡ Some (length failing.items) }
    {
        FailReader {
            inner,
            plan: FaultPlan::new(failing),
        }
    }
}

impl KeepReader for FailReader {
    ghost use Rattle.std.specs.Prelude.{Some, length};

    ghost held = { λ r. Some r.held };

    ghost faults = { λ r. r.script.faults };

    ghost bound = { λ r. Some (length r.script.failing) };

    fn get(&mut self, alloc: Global, name: &str) -> Got
        requires { IsName name.now }
        ensures numbered { IsNumbered self.old.script self.new.script (result ≡ Got.Failed) }
        ensures kept { self.new.held ≡ self.old.held }
        ensures found { IsAnswer self.old.held name.now result }
        ensures memory { result ≡ Got.Memory → IsSome (get self.old.held name.now) }
        ensures within { self.new.script.faults ≤ length self.new.script.failing }
        ensures can_rise { self.new.script.faults < last_count }
        ensures cause { HasCause self.old.script.faults self.new.script.faults (result ≡ Got.Failed) }
    {
        if self.plan.next_fails() {
            return Got::Failed;
        }
        self.inner.get(alloc, name)
    }
}
