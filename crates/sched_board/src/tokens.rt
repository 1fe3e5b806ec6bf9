//! What workers have of a board: their shares, the pips that they hold, and the pips that they published.
ghost use Rattle.std.specs.Prelude.{◌≡◌, None};
ghost use Rattle.sched_board.specs.Board.{new_share, with_looked};

use std::marker::{Model, PhantomData};
use std::sync::ledger;
use std::sync::ledger::Ledger;

/// A worker's part in a board: its number, how many events it made, and its mark.
#[derive(Drop)]
pub struct Share<L: Ledger, E: Ledger> {
    pub(crate) worker: u32,
    pub(crate) marked: bool,
    pub(crate) events: ledger::Share<L>,
    pub(crate) mark: ledger::Share<E>,
}

impl<L: Ledger, E: Ledger> Model for Share<L, E> {
    ghost use Rattle.std.specs.Prelude.{◌≡◌};
    ghost use Rattle.sched_board.specs.Board.{ShareData, mark_amount};

    ghost Value = { ShareData };

    ghost view = { λ s. record { worker = s.worker; events = s.events.amount; marked = s.marked } };

    ghost invariant = { λ s. (s.events.parts ≡ 1) × (s.mark.parts ≡ 1) × (s.mark.amount ≡ mark_amount s.marked) };
}

impl<L: Ledger, E: Ledger> Share<L, E> {
    // The share of a worker, of one part of each ledger that counted nothing yet.
    pub(crate) fn new(worker: u32, events: ledger::Share<L>, mark: ledger::Share<E>) -> Share<L, E>
        requires events { (events.parts ≡ 1) × (events.amount ≡ 0) }
        requires mark { (mark.parts ≡ 1) × (mark.amount ≡ 0) }
        ensures { result ≡ new_share worker }
    {
        Share {
            worker,
            marked: false,
            events,
            mark,
        }
    }

    /// The number of its worker.
    pub fn worker(&self) -> u32
        ensures { result ≡ self.now.worker }
    {
        self.worker
    }

    /// Whether `claim` answered `Over` to its worker.
    pub fn has_mark(&self) -> bool
        ensures { result ≡ self.now.marked }
    {
        self.marked
    }
}

/// A pip that a worker holds. It is spent by `publish`, `release` or `drop_unfit`: the type is not `Drop`.
pub struct Job<L: Ledger, E: Ledger> {
    pip: u32,
    is_process: bool,
    looked: Option<bool>,
    events: PhantomData<L>,
    marks: PhantomData<E>,
}

impl<L: Ledger, E: Ledger> Model for Job<L, E> {
    ghost use Rattle.sched_board.specs.Board.{JobData};

    ghost Value = { JobData };

    ghost view = { λ j. record { pip = j.pip; is_process = j.is_process; looked = j.looked } };
}

impl<L: Ledger, E: Ledger> Job<L, E> {
    pub(crate) fn new(pip: u32, is_process: bool) -> Job<L, E>
        ensures pip { result.pip ≡ pip }
        ensures kind { result.is_process ≡ is_process }
        ensures looked { result.looked ≡ None }
    {
        Job {
            pip,
            is_process,
            looked: None,
            events: PhantomData,
            marks: PhantomData,
        }
    }

    /// Its pip.
    pub fn pip(&self) -> u32
        ensures { result ≡ self.now.pip }
    {
        self.pip
    }

    /// Whether the pip is a process in the board's plan.
    pub fn is_process(&self) -> bool
        ensures { result ≡ self.now.is_process }
    {
        self.is_process
    }

    /// What `looked` said of it, if it was called.
    pub fn looked(&self) -> Option<bool>
        ensures { result ≡ self.now.looked }
    {
        self.looked
    }

    // From here on it tells whether the process was found.
    pub(crate) fn set_looked(&mut self, hit: bool)
        ensures { self.new ≡ with_looked self.old hit }
    {
        self.looked = Some(hit);
    }

    // Spends it.
    pub(crate) fn spend(self) {
        let Job {
            pip: _,
            is_process: _,
            looked: _,
            events: _,
            marks: _,
        } = self;
    }

    /// Spends a job that does not fit its board.
    pub fn drop_unfit(self) {
        self.spend();
    }
}

/// A pip that was published. It is spent by `complete`: the type is not `Drop`.
pub struct Shut<L: Ledger, E: Ledger> {
    pip: u32,
    events: PhantomData<L>,
    marks: PhantomData<E>,
}

impl<L: Ledger, E: Ledger> Model for Shut<L, E> {
    ghost use Rattle.std.specs.Prelude.{ℕ};

    ghost Value = { ℕ };

    ghost view = { λ s. s.pip };
}

impl<L: Ledger, E: Ledger> Shut<L, E> {
    pub(crate) fn new(pip: u32) -> Shut<L, E>
        ensures { result ≡ pip }
    {
        Shut {
            pip,
            events: PhantomData,
            marks: PhantomData,
        }
    }

    // Its pip; it is spent.
    pub(crate) fn into_pip(self) -> u32
        ensures { result ≡ self }
    {
        let Shut {
            pip,
            events: _,
            marks: _,
        } = self;
        pip
    }
}
