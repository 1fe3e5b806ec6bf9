//! A source in memory of which numbered calls fail.

ghost use Rattle.std.specs.Prelude.{◌≡◌, ◌≤◌, ◌<◌, ◌↔◌, [], ◌++◌, length, take, drop, min, Some, Ok};
ghost use Rattle.std.specs.Prelude.{IsErr, IfOk, OnOk, OnErr, true, false};
ghost use Rattle.bx_io.specs.Causes.{HasCause};
ghost use Rattle.bx_io.specs.Numbered.{IsFaultDue, after_work, after_fault};

use crate::fault::Failed;
use crate::no_fault_source::NoFaultSource;
use crate::script::Script;
use crate::source::Source;
use std::marker::Model;

/// Bytes in memory, given from the start in pieces; calls with the numbers that its maker gave fail.
#[derive(Drop)]
pub struct MemSource {
    source: NoFaultSource,
    chunk: usize,
    script: Script,
}

impl Model for MemSource {
    ghost use Rattle.std.specs.Prelude.{◌≤◌};
    ghost use Rattle.bx_io.specs.Memories.{Feed};

    ghost Value = { Feed };

    ghost view = { λ s. record {
      given = s.source.given;
      left = s.source.left;
      ended = s.source.ended;
      chunk = s.chunk;
      script = s.script;
    } };

    ghost invariant = { λ s. 1 ≤ s.chunk };
}

impl MemSource {
    /// Gives these bytes, at most `chunk` a call. The calls whose numbers, from 1, are in `failing` fail.
    pub fn new(bytes: Vec<u8>, chunk: usize, failing: Vec<u64>) -> MemSource
        requires { 1 ≤ chunk }
        ensures whole { result ≡ record {
          given = [];
          left = bytes.items;
          ended = false;
          chunk = chunk;
          script = record { failing = failing.items; calls = 0; faults = 0 };
        } }
        ensures left { ⟦<MemSource as Source>⟧.left result ≡ Some bytes.items }
        ensures faults { ⟦<MemSource as Source>⟧.faults result ≡ 0 }
    {
        MemSource {
            source: NoFaultSource::new(bytes),
            chunk,
            script: Script::new(failing),
        }
    }
}

impl Source for MemSource {
    ghost use Rattle.std.specs.Prelude.{Some};

    ghost given = { λ s. s.given };

    ghost ended = { λ s. s.ended };

    ghost left = { λ s. Some s.left };

    ghost faults = { λ s. s.script.faults };

    fn read(&mut self, into: &mut [u8]) -> Result<usize, Failed>
        ensures fails { IsErr result ↔ IsFaultDue self.old.script }
        ensures count { IfOk result
            (λ n. n ≡ min (min self.old.chunk (length into.old)) (length self.old.left)) }
        ensures whole { IfOk result (λ n. self.new ≡ record self.old {
          given = self.old.given ++ take n into.new;
          left = drop n self.old.left;
          ended = self.new.ended;
          script = after_work self.old.script;
        }) }
        ensures kept { OnErr result (self.new ≡ record self.old { script = after_fault self.old.script }) }
        ensures at_most { IfOk result (λ n. n ≤ length into.old) }
        ensures moved { IfOk result (λ n. self.old.left ≡ take n into.new ++ self.new.left) }
        ensures rest { IfOk result (λ n. drop n into.new ≡ drop n into.old) }
        ensures goes_on { IfOk result (λ n. 0 < n → self.new.ended ≡ false) }
        ensures end { 0 < length into.old → result ≡ Ok 0 → self.new.ended ≡ true }
        ensures none_left { 0 < length into.old → result ≡ Ok 0 → self.old.left ≡ [] }
        ensures same_end { length into.old ≡ 0 → IfOk result (λ n. self.new.ended ≡ self.old.ended) }
        ensures failed { OnErr result (self.new.left ≡ self.old.left) }
        ensures cause { HasCause self.old.script.faults self.new.script.faults (IsErr result) }
        ensures no_fault { OnOk result (self.new.script.faults ≡ self.old.script.faults) }
    {
        if self.script.is_fault_due() {
            self.script.count_fault();
            return Err(Failed);
        }
        self.script.count_work();
        let most = self.chunk.min(into.len());
        self.source.read(&mut into[..most])
    }
}
