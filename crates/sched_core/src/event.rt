//! What happens to the pips of a build, one event at a time.
ghost use Rattle.std.specs.Prelude.{◌≡◌};
ghost use Rattle.sched_core.specs.Table.{pip_of, worker_of};

/// One step of a worker at one pip. Where each event is allowed, and what it leads to, is the table of
/// `specs/Table.antt`.
#[derive(Clone, Copy, Debug, PartialEq, Eq)]
pub enum Event {
    /// The worker claims the pip, all of whose inputs succeeded.
    Start { pip: u32, worker: u32 },
    /// The worker looked the process up in the store, and found its result or did not.
    Looked { pip: u32, worker: u32, hit: bool },
    /// The worker shows the pip's result, which is a success or not.
    Publish { pip: u32, worker: u32, good: bool },
    /// The pip is done.
    Complete { pip: u32, worker: u32 },
    /// The worker skips the pip, one of whose inputs did not succeed.
    Skip { pip: u32, worker: u32 },
    /// The worker gives the pip back, and leaves the build.
    Release { pip: u32, worker: u32 },
}

impl Event {
    /// The pip that it happens to.
    pub fn pip(&self) -> u32
        ensures { result ≡ pip_of self.now }
    {
        match *self {
            Event::Start { pip, .. }
            | Event::Looked { pip, .. }
            | Event::Publish { pip, .. }
            | Event::Complete { pip, .. }
            | Event::Skip { pip, .. }
            | Event::Release { pip, .. } => pip,
        }
    }

    /// The worker that makes it.
    pub fn worker(&self) -> u32
        ensures { result ≡ worker_of self.now }
    {
        match *self {
            Event::Start { worker, .. }
            | Event::Looked { worker, .. }
            | Event::Publish { worker, .. }
            | Event::Complete { worker, .. }
            | Event::Skip { worker, .. }
            | Event::Release { worker, .. } => worker,
        }
    }
}
