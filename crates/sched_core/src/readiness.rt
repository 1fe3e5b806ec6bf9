//! Which pips may start and which may be skipped, kept up from event to event.
ghost use Rattle.std.specs.Prelude.{◌≡◌, ◌≢◌, ◌&&◌, ◌||◌, ◌==◌, ◌<◌, ◌≤◌, ◌+◌, ◌-◌, ℕ, true, false, not, All, Bool, IfOk, IfSome, IfNone, if◌then◌else◌, length, map, replicate, set};
ghost use Rattle.sched_core.specs.Indexes.{AreFlagged, HasSize, flagged, missing_at, times};
ghost use Rattle.sched_core.specs.Indexes.{Settles, with_failed, with_missing};
ghost use Rattle.sched_core.specs.Sets.{IsLeast, IsNever, flag_at};
ghost use Rattle.sched_core.specs.States.{is_bad, is_done_well};

use crate::ready_set::ReadySet;
use crate::state::PipState;
use std::alloc::{AllocError, Global};
use std::marker::Model;

// For each pip how many of its inputs did not complete with success yet, whether one completed without success
// or was skipped, and whether the pip may start or be skipped.
#[derive(Drop)]
pub(crate) struct Readiness {
    missing: Vec<usize>,
    failed: Vec<bool>,
    starts: ReadySet,
    skips: ReadySet,
}

impl Model for Readiness {
    ghost use Rattle.sched_core.specs.Indexes.{Readiness};

    ghost Value = { Readiness };

    ghost view = { λ r. record {
      missing = r.missing.items;
      failed = r.failed.items;
      starts = r.starts;
      skips = r.skips;
    } };
}

impl Readiness {
    // No pip has an input that failed, and none is ready.
    pub(crate) fn new(alloc: Global, missing: Vec<usize>) -> Result<Readiness, AllocError>
        ensures missing { IfOk result (λ ready. ready.missing ≡ missing.items) }
        ensures failed { IfOk result (λ ready. ready.failed ≡ replicate (length missing.items) false) }
        ensures starts { IfOk result (λ ready. ready.starts ≡ replicate (length missing.items) false) }
        ensures skips { IfOk result (λ ready. ready.skips ≡ replicate (length missing.items) false) }
    {
        let pips = missing.len();
        Ok(Readiness {
            missing,
            failed: vec![in alloc; false; pips]?,
            starts: ReadySet::new(alloc, pips)?,
            skips: ReadySet::new(alloc, pips)?,
        })
    }

    pub(crate) fn may_start(&self, pip: u32) -> bool
        ensures { result ≡ flag_at self.now.starts pip }
    {
        self.starts.contains(pip as usize)
    }

    pub(crate) fn may_skip(&self, pip: u32) -> bool
        ensures { result ≡ flag_at self.now.skips pip }
    {
        self.skips.contains(pip as usize)
    }

    pub(crate) fn least_start(&mut self) -> Option<usize>
        ensures same { self.new ≡ self.old }
        ensures some { IfSome result (IsLeast (flag_at self.old.starts)) }
        ensures none { IfNone result (IsNever (flag_at self.old.starts)) }
    {
        self.starts.first()
    }

    pub(crate) fn least_skip(&mut self) -> Option<usize>
        ensures same { self.new ≡ self.old }
        ensures some { IfSome result (IsLeast (flag_at self.old.skips)) }
        ensures none { IfNone result (IsNever (flag_at self.old.skips)) }
    {
        self.skips.first()
    }

    // Sets the flags of a pip by what is counted for it, and by whether it waits.
    pub(crate) fn set_flags(&mut self, pip: usize, waits: bool)
        requires missing { pip < length self.old.missing }
        requires failed { pip < length self.old.failed }
        requires starts { pip < length self.old.starts }
        requires skips { pip < length self.old.skips }
        ensures { self.new ≡ flagged self.old pip waits }
    {
        let may_start = waits && self.missing[pip] == 0;
        let may_skip = waits && self.failed[pip];
        self.starts.set(pip, may_start);
        self.skips.set(pip, may_skip);
    }

    // An input of the pip completed with success.
    pub(crate) fn count_good(&mut self, pip: usize, waits: bool)
        requires left { 0 < missing_at self.old pip }
        requires missing { pip < length self.old.missing }
        requires failed { pip < length self.old.failed }
        requires starts { pip < length self.old.starts }
        requires skips { pip < length self.old.skips }
        ensures { self.new ≡ flagged (with_missing self.old pip (missing_at self.old pip - 1)) pip waits }
    {
        self.missing[pip] -= 1;
        self.set_flags(pip, waits);
    }

    // An input of the pip completed without success, or was skipped.
    pub(crate) fn count_bad(&mut self, pip: usize, waits: bool)
        requires missing { pip < length self.old.missing }
        requires failed { pip < length self.old.failed }
        requires starts { pip < length self.old.starts }
        requires skips { pip < length self.old.skips }
        ensures { self.new ≡ flagged (with_failed self.old pip) pip waits }
    {
        self.failed[pip] = true;
        self.set_flags(pip, waits);
    }
}
