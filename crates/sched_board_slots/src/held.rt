//! What the slot of a pip holds.
ghost use Rattle.std.specs.Prelude.{◌≡◌, IfOk};
ghost use Rattle.sched_board_slots.specs.Slots.{held_files, is_good_held, is_good_outcome};
ghost use Rattle.two_phase_meaning.specs.Saving.{outcome_files};

use bx_tree::Memory;
use memo_format::Found;
use pip_model::Made;
use pip_view_inputs::no_files;
use run_record::{Outcome, Record};
use std::alloc::Global;

/// What the slot of a pip holds: nothing yet, the record of a run, what a lookup found, what a copy, write or seal
/// pip made, or that the pip was skipped.
#[derive(Drop)]
pub enum Held {
    Empty,
    Ran(Record),
    Hit(Found),
    Plain(Made),
    Skipped,
}

// Whether the run succeeded.
fn is_success(outcome: &Outcome) -> bool
    ensures { result ≡ is_good_outcome outcome.now }
{
    match outcome {
        Outcome::Good(_) => true,
        Outcome::Failed(_) => false,
    }
}

// The files that a run made, shared; none where it failed.
fn files_of_outcome(alloc: Global, outcome: &Outcome) -> Result<Made, Memory>
    ensures { IfOk result (λ made. made ≡ outcome_files outcome.now) }
{
    match outcome {
        Outcome::Good(made) => Ok(made.share()?),
        Outcome::Failed(_) => no_files(alloc),
    }
}

impl Held {
    /// Whether it is of a pip that succeeded.
    pub fn is_good(&self) -> bool
        ensures { result ≡ is_good_held self.now }
    {
        match self {
            Held::Ran(ran) => is_success(ran.outcome()),
            Held::Hit(_) | Held::Plain(_) => true,
            Held::Empty | Held::Skipped => false,
        }
    }

    /// The files that its pip made, shared; one that did not succeed made none.
    pub fn files(&self, alloc: Global) -> Result<Made, Memory>
        ensures { IfOk result (λ made. made ≡ held_files self.now) }
    {
        match self {
            Held::Ran(ran) => files_of_outcome(alloc, ran.outcome()),
            Held::Hit(found) => Ok(found.made().share()?),
            Held::Plain(made) => Ok(made.share()?),
            Held::Empty | Held::Skipped => no_files(alloc),
        }
    }

    /// The slot, shared.
    pub fn share(&self) -> Result<Held, Memory>
        ensures { IfOk result (λ slot. slot ≡ self.now) }
    {
        match self {
            Held::Empty => Ok(Held::Empty),
            Held::Ran(ran) => Ok(Held::Ran(ran.share()?)),
            Held::Hit(found) => Ok(Held::Hit(found.share()?)),
            Held::Plain(made) => Ok(Held::Plain(made.share()?)),
            Held::Skipped => Ok(Held::Skipped),
        }
    }
}
