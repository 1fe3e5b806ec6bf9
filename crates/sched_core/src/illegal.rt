//! Why an event is refused.
ghost use Rattle.std.specs.Prelude.{◌≡◌};

use crate::state::PipState;
use std::marker::Model;

/// An event that the table does not allow. Only a step that is refused makes one.
#[derive(Clone, Copy, Debug)]
pub struct Illegal {
    state: Option<PipState>,
    busy: Option<u32>,
    left: bool,
}

impl Model for Illegal {
    ghost use Rattle.sched_core.specs.Table.{IllegalData};

    ghost Value = { IllegalData };

    ghost view = { λ i. record { state = i.state; busy = i.busy; left = i.left } };

    ghost inverse = { λ r. record { state = r.state; busy = r.busy; left = r.left } };
}

impl Illegal {
    pub(crate) fn new(state: Option<PipState>, busy: Option<u32>, left: bool) -> Illegal
        ensures state { result.state ≡ state }
        ensures busy { result.busy ≡ busy }
        ensures left { result.left ≡ left }
    {
        Illegal { state, busy, left }
    }

    /// The state of the event's pip, where there is that pip.
    pub fn state(&self) -> Option<PipState>
        ensures { result ≡ self.now.state }
    {
        self.state
    }

    /// The pip that the event's worker holds.
    pub fn busy(&self) -> Option<u32>
        ensures { result ≡ self.now.busy }
    {
        self.busy
    }

    /// Whether the event's worker has left.
    pub fn left(&self) -> bool
        ensures { result ≡ self.now.left }
    {
        self.left
    }
}
