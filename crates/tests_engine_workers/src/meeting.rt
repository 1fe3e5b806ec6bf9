//! A gate at which two runs meet.

use bx_io::Gate;
use std::sync::atomic::AtomicU32;
use std::sync::atomic::Ordering::Relaxed;

/// How often the first that comes looks whether another came.
const TURNS: u64 = 500_000_000;

/// A gate that holds the first who passes it until another comes, for so many looks at most.
#[derive(Drop)]
pub struct MeetGate {
    came: AtomicU32,
    met: AtomicU32,
}

impl MeetGate {
    /// A gate to which nobody came.
    pub fn new() -> MeetGate {
        MeetGate {
            came: AtomicU32::new(0),
            met: AtomicU32::new(0),
        }
    }

    /// Whether another came while the first was held.
    pub fn has_met(&self) -> bool {
        self.met.load(Relaxed) == 1
    }
}

impl Gate for MeetGate {
    fn pass(&self, _pip: u32) {
        if self.came.fetch_add(1, Relaxed) != 0 {
            return;
        }
        for _ in 0..TURNS {
            if self.came.load(Relaxed) > 1 {
                self.met.store(1, Relaxed);
                return;
            }
        }
    }
}
