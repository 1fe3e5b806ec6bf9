//! The state of one pip.
ghost use Rattle.std.specs.Prelude.{◌≡◌};
ghost use Rattle.sched_core.specs.States as states;
ghost use Rattle.sched_core.specs.Indexes.{seat_of};
ghost use Rattle.sched_core.specs.Table.{state_after_event};

use crate::event::Event;

/// How far a pip is, and which worker holds it.
#[derive(Clone, Copy, Debug, PartialEq, Eq)]
pub enum PipState {
    /// Nobody holds it.
    Waiting,
    /// This worker claimed it.
    Held(u32),
    /// This worker looked it up, and found its result or did not.
    Looked(u32, bool),
    /// This worker published it, as a success or not.
    Published(u32, bool),
    /// It is done, with success or without.
    Done(bool),
    /// It will not be built, since an input did not succeed.
    Skipped,
}

impl PipState {
    /// Whether nobody holds it and it is not settled.
    pub fn is_waiting(self) -> bool
        ensures { result ≡ states.is_waiting self }
    {
        match self {
            PipState::Waiting => true,
            _ => false,
        }
    }

    /// Whether it completed with success.
    pub fn is_done_well(self) -> bool
        ensures { result ≡ states.is_done_well self }
    {
        match self {
            PipState::Done(good) => good,
            _ => false,
        }
    }

    /// Whether it completed without success, or was skipped.
    pub fn is_bad(self) -> bool
        ensures { result ≡ states.is_bad self }
    {
        match self {
            PipState::Done(good) => !good,
            PipState::Skipped => true,
            _ => false,
        }
    }

    // The number of its pip, where a worker holds it.
    pub(crate) fn seat(self, pip: u32) -> Option<u32>
        ensures { result ≡ seat_of pip self }
    {
        match self {
            PipState::Held(_) | PipState::Looked(..) | PipState::Published(..) => Some(pip),
            _ => None,
        }
    }

    // Whether the worker claimed it, and did not look it up.
    fn is_claimed_by(self, worker: u32) -> bool
        ensures { result ≡ states.is_claimed_by worker self }
    {
        match self {
            PipState::Held(holder) => holder == worker,
            _ => false,
        }
    }

    // Whether the worker looked it up, and may publish it so: a hit is a success.
    fn may_publish_looked(self, worker: u32, good: bool) -> bool
        ensures { result ≡ states.may_publish_looked worker good self }
    {
        match self {
            PipState::Looked(holder, hit) => holder == worker && (!hit || good),
            _ => false,
        }
    }

    pub(crate) fn may_look(self, is_process: bool, worker: u32) -> bool
        ensures { result ≡ states.may_look is_process worker self }
    {
        is_process && self.is_claimed_by(worker)
    }

    pub(crate) fn may_publish(self, is_process: bool, worker: u32, good: bool) -> bool
        ensures { result ≡ states.may_publish is_process worker good self }
    {
        if is_process {
            self.may_publish_looked(worker, good)
        } else {
            self.is_claimed_by(worker) && good
        }
    }

    pub(crate) fn may_complete(self, worker: u32) -> bool
        ensures { result ≡ states.may_complete worker self }
    {
        match self {
            PipState::Published(holder, _) => holder == worker,
            _ => false,
        }
    }

    pub(crate) fn may_release(self, worker: u32) -> bool
        ensures { result ≡ states.may_release worker self }
    {
        match self {
            PipState::Held(holder) | PipState::Looked(holder, _) => holder == worker,
            _ => false,
        }
    }

    fn completed(self) -> PipState
        ensures { result ≡ states.completed self }
    {
        match self {
            PipState::Published(_, good) => PipState::Done(good),
            other => other,
        }
    }

    // What it is after an event that is allowed.
    pub(crate) fn after(self, event: &Event) -> PipState
        ensures { result ≡ state_after_event self event.now }
    {
        match *event {
            Event::Start { worker, .. } => PipState::Held(worker),
            Event::Looked { worker, hit, .. } => PipState::Looked(worker, hit),
            Event::Publish { worker, good, .. } => PipState::Published(worker, good),
            Event::Complete { .. } => self.completed(),
            Event::Skip { .. } => PipState::Skipped,
            Event::Release { .. } => PipState::Waiting,
        }
    }
}
