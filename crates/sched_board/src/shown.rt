//! What a worker shows of a pip.
ghost use Rattle.std.specs.Prelude.{◌≡◌};
ghost use Rattle.sched_board.specs.Publishing.{slot_of};

use memo_format::Found;
use pip_model::Made;
use run_record::Record;
use sched_board_slots::Held;

/// What a worker shows of a pip: the record of a run, what a lookup found, or what a copy, write or seal pip made.
#[derive(Drop)]
pub enum Shown {
    Ran(Record),
    Hit(Found),
    Plain(Made),
}

impl Shown {
    // The slot that holds it.
    pub(crate) fn into_slot(self) -> Held
        ensures { result ≡ slot_of self }
    {
        match self {
            Shown::Ran(ran) => Held::Ran(ran),
            Shown::Hit(found) => Held::Hit(found),
            Shown::Plain(made) => Held::Plain(made),
        }
    }
}
