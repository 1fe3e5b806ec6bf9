//! A sink in memory of which numbered calls fail.

ghost use Rattle.std.specs.Prelude.{◌≡◌, ◌≤◌, ◌<◌, ◌-◌, ◌↔◌, ◌⊎◌, [], ◌++◌, length, take, min, IsErr};
ghost use Rattle.std.specs.Prelude.{IfOk, OnOk, OnErr};
ghost use Rattle.bx_io.specs.Causes.{HasCause};
ghost use Rattle.bx_io.specs.Numbered.{IsFaultDue, after_work, after_fault};

use crate::fault::Failed;
use crate::script::Script;
use crate::sink::Sink;
use std::alloc::{AllocError, Global};
use std::marker::Model;

/// A place in memory for a number of bytes, with the faults that its maker asked for.
#[derive(Drop)]
pub struct MemSink {
    bytes: Vec<u8>,
    capacity: usize,
    chunk: usize,
    script: Script,
}

impl Model for MemSink {
    ghost use Rattle.std.specs.Prelude.{◌≤◌, vec_len, vec_capacity};
    ghost use Rattle.bx_io.specs.Memories.{Store};

    ghost Value = { Store };

    ghost view = { λ s.
        record { taken = s.bytes.items; capacity = s.capacity; chunk = s.chunk; script = s.script } };

    ghost invariant = { λ s. (vec_len s.bytes ≤ s.capacity) × (s.capacity ≤ vec_capacity s.bytes)
        × (1 ≤ s.chunk) };
}

impl MemSink {
    /// Takes `capacity` bytes in all, at most `chunk` a call. The calls whose numbers, from 1, are in
    /// `failing` fail, and so does one that brings bytes once the capacity is reached. All memory is taken
    /// here, and only the lack of it is an error.
    pub fn new(
        alloc: Global,
        capacity: usize,
        chunk: usize,
        failing: Vec<u64>,
    ) -> Result<MemSink, AllocError>
        requires { 1 ≤ chunk }
        ensures whole { IfOk result (λ sink. sink ≡ record {
          taken = [];
          capacity = capacity;
          chunk = chunk;
          script = record { failing = failing.items; calls = 0; faults = 0 };
        }) }
        ensures taken { IfOk result (λ sink. ⟦<MemSink as Sink>⟧.taken sink ≡ []) }
        ensures faults { IfOk result (λ sink. ⟦<MemSink as Sink>⟧.faults sink ≡ 0) }
    {
        Ok(MemSink {
            bytes: Vec::with_capacity(alloc, capacity)?,
            capacity,
            chunk,
            script: Script::new(failing),
        })
    }

    /// The bytes that were taken, in order.
    pub fn taken(&self) -> &[u8]
        ensures bytes { result.now ≡ self.now.taken }
        ensures taken { ⟦<MemSink as Sink>⟧.taken self.now ≡ result.now }
    {
        self.bytes.as_slice()
    }
}

impl Sink for MemSink {
    ghost taken = { λ s. s.taken };

    ghost faults = { λ s. s.script.faults };

    fn write(&mut self, piece: &[u8]) -> Result<usize, Failed>
        ensures fails { IsErr result ↔ (IsFaultDue self.old.script
            ⊎ ((0 < length piece.now) × (self.old.capacity ≤ length self.old.taken))) }
        ensures count { IfOk result (λ n. n ≡ min (min self.old.chunk (length piece.now))
            (self.old.capacity - length self.old.taken)) }
        ensures took { IfOk result (λ n. self.new ≡ record self.old {
          taken = self.old.taken ++ take n piece.now;
          script = after_work self.old.script;
        }) }
        ensures kept { OnErr result (self.new ≡ record self.old { script = after_fault self.old.script }) }
        ensures at_most { IfOk result (λ n. n ≤ length piece.now) }
        ensures at_least { 0 < length piece.now → IfOk result (λ n. 1 ≤ n) }
        ensures appended { IfOk result (λ n. self.new.taken ≡ self.old.taken ++ take n piece.now) }
        ensures failed { OnErr result (self.new.taken ≡ self.old.taken) }
        ensures cause { HasCause self.old.script.faults self.new.script.faults (IsErr result) }
        ensures no_fault { OnOk result (self.new.script.faults ≡ self.old.script.faults) }
    {
        let free = self.capacity - self.bytes.len();
        if self.script.is_fault_due() || (free == 0 && !piece.is_empty()) {
            self.script.count_fault();
            return Err(Failed);
        }
        let count = self.chunk.min(piece.len()).min(free);
        match self.bytes.extend_from_slice(&piece[..count]) {
            Ok(()) => {
                self.script.count_work();
                Ok(count)
            }
            Err(_) => unreachable!(),
        }
    }
}
