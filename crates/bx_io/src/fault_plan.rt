//! Numbered calls that fail as planned, for stores and readers, whose faults are bounded.

ghost use Rattle.std.specs.Prelude.{◌≡◌, ◌<◌, ◌≤◌, length, IsTrue};
ghost use Rattle.bx_io.specs.Causes.{HasCause, last_count};
ghost use Rattle.bx_io.specs.Numbered.{IsNumbered};

use crate::script::Script;
use std::marker::Model;

/// A script whose calls fail only where they were planned to.
#[derive(Drop)]
pub struct FaultPlan {
    script: Script,
}

impl Model for FaultPlan {
    ghost use Rattle.bx_io.specs.Numbered as numbered;
    ghost use Rattle.bx_io.specs.Numbered.{IsPlanned};

    ghost Value = { numbered.Script };

    ghost view = { λ p. p.script };

    ghost invariant = { λ p. IsPlanned p.script };
}

impl FaultPlan {
    /// The calls with these numbers fail.
    pub fn new(failing: Vec<u64>) -> FaultPlan
        ensures { result ≡ record { failing = failing.items; calls = 0; faults = 0 } }
    {
        FaultPlan {
            script: Script::new(failing),
        }
    }

    /// Counts the next call, and says whether it fails.
    pub fn next_fails(&mut self) -> bool
        ensures numbered { IsNumbered self.old self.new (IsTrue result) }
        ensures failing { self.new.failing ≡ self.old.failing }
        ensures within { self.new.faults ≤ length self.new.failing }
        ensures can_rise { self.new.faults < last_count }
        ensures cause { HasCause self.old.faults self.new.faults (IsTrue result) }
        ensures no_fault { (IsTrue result → ⊥) → self.new.faults ≡ self.old.faults }
    {
        let fails = self.script.is_fault_due();
        if fails {
            self.script.count_fault();
        } else {
            self.script.count_work();
        }
        fails
    }

    /// How many calls failed.
    pub fn faults(&self) -> u64
        ensures count { result ≡ self.now.faults }
        ensures can_rise { result < last_count }
    {
        self.script.faults()
    }
}
