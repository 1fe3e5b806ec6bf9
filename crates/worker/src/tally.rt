//! What a worker tells of its work.
ghost use Rattle.std.specs.Prelude.{◌≡◌};

use sched_board::{Unfit, Unlike};

/// The refusal for which a worker left.
#[derive(Debug, Drop)]
pub enum Leave {
    /// What it showed differs from the board's own.
    Refused(Unlike),
    /// Its share or its job does not fit the board.
    Unfit(Unfit),
}

/// What a worker tells of its work.
#[derive(Debug, Drop)]
pub struct Tally {
    /// How many of its lookups failed; at its end the count stays.
    pub faults: u64,
    /// It left for want of memory; or its own plan lacks a pip of the board, or has it of another kind; or it had left before,
    /// and its tally said nothing.
    pub starved: bool,
    /// The refusal for which it left, if it was refused.
    pub left: Option<Leave>,
}

fn copy_of(left: &Option<Leave>) -> Option<Leave>
    ensures { result ≡ left.now }
{
    match left {
        Some(Leave::Refused(unlike)) => Some(Leave::Refused(*unlike)),
        Some(Leave::Unfit(unfit)) => Some(Leave::Unfit(*unfit)),
        None => None,
    }
}

impl Tally {
    // The same tally.
    pub(crate) fn copy(&self) -> Tally
        ensures { result ≡ self.now }
    {
        Tally {
            faults: self.faults,
            starved: self.starved,
            left: copy_of(&self.left),
        }
    }
}
