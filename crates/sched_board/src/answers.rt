//! What the calls of a board answer.
ghost use Rattle.std.specs.Prelude.{◌≡◌};

use crate::tokens::Job;
use bx_digest::Digest;
use sched_core::PipState;
use std::marker::Model;
use std::sync::ledger::Ledger;

/// What a worker that holds no pip does next.
pub enum Claim<L: Ledger, E: Ledger> {
    /// It holds this pip now.
    Job(Job<L, E>),
    /// It skipped this pip.
    Skipped(u32),
    /// No pip may be skipped or started, and another worker holds one.
    NotYet,
    /// No pip may be skipped or started, and nobody holds one. The share is marked.
    Over,
    /// It has left.
    Left,
}

/// Why a share or a job does not fit a board. Only `Board::fits` makes one.
#[derive(Clone, Copy, Debug)]
pub struct Unfit {
    state: Option<PipState>,
    busy: Option<u32>,
}

impl Model for Unfit {
    ghost use Rattle.sched_board.specs.Board.{UnfitData};

    ghost Value = { UnfitData };

    ghost view = { λ u. record { state = u.state; busy = u.busy } };

    ghost inverse = { λ r. record { state = r.state; busy = r.busy } };
}

impl Unfit {
    pub(crate) fn new(state: Option<PipState>, busy: Option<u32>) -> Unfit
        ensures state { result.state ≡ state }
        ensures busy { result.busy ≡ busy }
    {
        Unfit { state, busy }
    }

    /// The state of the job's pip: none where no job was given, or the board has no such pip.
    pub fn state(&self) -> Option<PipState>
        ensures { result ≡ self.now.state }
    {
        self.state
    }

    /// The pip that the share's worker holds.
    pub fn busy(&self) -> Option<u32>
        ensures { result ≡ self.now.busy }
    {
        self.busy
    }
}

/// Where something shown first differs from the board's own. Only `Board::publish` makes one.
#[derive(Clone, Copy, Debug)]
pub struct Unlike {
    index: u64,
    held: Digest,
    own: Digest,
}

impl Model for Unlike {
    ghost use Rattle.sched_board.specs.Board.{Difference};

    ghost Value = { Difference };

    ghost view = { λ u. record { index = u.index; held = u.held; own = u.own } };

    ghost inverse = { λ d. record { index = d.index; held = d.held; own = d.own } };
}

impl Unlike {
    pub(crate) fn new(index: u64, held: Digest, own: Digest) -> Unlike
        ensures index { result.index ≡ index }
        ensures held { result.held ≡ held }
        ensures own { result.own ≡ own }
    {
        Unlike { index, held, own }
    }

    /// 0 for the description or the plain result, k + 1 for the ask with number k.
    pub fn index(&self) -> u64
        ensures { result ≡ self.now.index }
    {
        self.index
    }

    /// The digest of what was shown.
    pub fn held(&self) -> Digest
        ensures { result ≡ self.now.held }
    {
        self.held
    }

    /// The digest of the board's own.
    pub fn now(&self) -> Digest
        ensures { result ≡ self.now.own }
    {
        self.own
    }
}

/// Why nothing was published. Both hand the job back.
pub enum PublishFault<L: Ledger, E: Ledger> {
    /// What was shown differs from the board's own.
    Refused { job: Job<L, E>, unlike: Unlike },
    /// There was no memory.
    Memory { job: Job<L, E> },
}
