//! Numbered calls, of which some fail.

ghost use Rattle.std.specs.Prelude.{◌≡◌, ◌↔◌, IsTrue};
ghost use Rattle.bx_io.specs.Causes.{HasCause};
ghost use Rattle.bx_io.specs.Numbered.{IsFaultDue, after_work, after_fault};

use std::marker::Model;

/// Numbers the calls of an object from 1, and says which of them fail. Both of its counters stay at their
/// last value, and no call is numbered from then on.
#[derive(Drop)]
pub struct Script {
    failing: Vec<u64>,
    calls: u64,
    faults: u64,
}

impl Model for Script {
    ghost use Rattle.bx_io.specs.Numbered as numbered;

    ghost Value = { numbered.Script };

    ghost view = { λ s. record { failing = s.failing.items; calls = s.calls; faults = s.faults } };
}

impl Script {
    /// The calls with these numbers fail.
    pub fn new(failing: Vec<u64>) -> Script
        ensures { result ≡ record { failing = failing.items; calls = 0; faults = 0 } }
    {
        Script {
            failing,
            calls: 0,
            faults: 0,
        }
    }

    /// Whether the call that comes next fails.
    pub fn is_fault_due(&self) -> bool
        ensures { IsTrue result ↔ IsFaultDue self.now }
    {
        self.calls < u64::MAX && self.failing.contains(&(self.calls + 1))
    }

    /// How many calls failed.
    pub fn faults(&self) -> u64
        ensures { result ≡ self.now.faults }
    {
        self.faults
    }

    /// Counts a call that does its work.
    pub fn count_work(&mut self)
        ensures { self.new ≡ after_work self.old }
    {
        self.calls = self.calls.saturating_add(1);
    }

    /// Counts a call that fails.
    pub fn count_fault(&mut self)
        ensures counted { self.new ≡ after_fault self.old }
        ensures cause { HasCause self.old.faults self.new.faults (self.new ≡ after_fault self.old) }
    {
        self.calls = self.calls.saturating_add(1);
        self.faults = self.faults.saturating_add(1);
    }
}
