//! What a worker does with the board while it has the lock: each function begins by asking whether the board fits.
ghost use Rattle.std.specs.Prelude.{◌≡◌, None, false, true};
ghost use Rattle.sched_core.specs.Table.{has_left};
ghost use Rattle.sched_board.specs.Board.{IsBusy, IsFree};
ghost use Rattle.sched_board.specs.Publishing.{fits_job, fits_kind};
ghost use Rattle.worker.specs.Ended.{has_ended};
ghost use Rattle.worker.specs.Steps.{MayGo, Opens, is_hit as shows_hit};
ghost use Rattle.worker.specs.Workers.{GoesOn};

use crate::tally::Leave;
use crate::worker::Worker;
use bx_io::KeepReader;
use pip_view_inputs::Inputs;
use sched_board::{Board, Claim, Job, PublishFault, Shown};
use std::alloc::Global;
use std::sync::ledger::Ledger;

// What a worker does next. A job must be spent, so this is not `Drop`.
pub(crate) enum Next<L: Ledger, E: Ledger> {
    // It works on this pip, for which it has what the pip's inputs made.
    Job(Job<L, E>, Inputs),
    // It skipped a pip, and claims again.
    Skipped,
    // It waits.
    NotYet,
    // It is through.
    Stop,
}

// Whether what is shown was found in the cache.
fn is_hit(shown: &Shown) -> bool
    ensures { result ≡ shows_hit shown.now }
{
    match shown {
        Shown::Hit(_) => true,
        Shown::Ran(_) | Shown::Plain(_) => false,
    }
}

impl<R: KeepReader, L: Ledger, E: Ledger> Worker<R, L, E> {
    // Takes what the inputs of a pip made that it just claimed, under the same lock.
    fn open(&mut self, alloc: Global, board: &mut Board<L, E>, job: Job<L, E>) -> Next<L, E>
        requires busy { IsBusy board.old self.old.share job }
        requires first { job.looked ≡ None }
        ensures next { MayGo result self.new }
        ensures opens { Opens result board.new self.new.share }
        ensures goes { GoesOn self.old self.new }
    {
        match board.inputs(alloc, &job) {
            Ok(inputs) => Next::Job(job, inputs),
            Err(_) => {
                board.release(job, &mut self.share);
                self.starve();
                Next::Stop
            }
        }
    }

    // A worker that has left before is through, and says so if it did not yet.
    fn stay_away(&mut self)
        ensures ended { has_ended self.new ≡ true }
        ensures goes { GoesOn self.old self.new }
    {
        if self.tally.left.is_none() {
            self.starve();
        }
    }

    // Claims what is next.
    pub(crate) fn look(&mut self, alloc: Global, board: &mut Board<L, E>) -> Next<L, E>
        ensures next { MayGo result self.new }
        ensures goes { GoesOn self.old self.new }
    {
        if let Err(unfit) = board.fits(&self.share, None) {
            self.leave(Leave::Unfit(unfit));
            return Next::Stop;
        }
        match board.claim(&mut self.share) {
            Claim::Job(job) => self.open(alloc, board, job),
            Claim::Skipped(_) => Next::Skipped,
            Claim::NotYet => Next::NotYet,
            Claim::Over => Next::Stop,
            Claim::Left => {
                self.stay_away();
                Next::Stop
            }
        }
    }

    // Gives a job back: there was no memory for it, or it is none of the worker's own plan.
    pub(crate) fn give_back(&mut self, board: &mut Board<L, E>, job: Job<L, E>)
        ensures ended { has_ended self.new ≡ true }
        ensures released { IsBusy board.old self.old.share job
            → has_left board.new.core.left self.old.share.worker ≡ true }
        ensures goes { GoesOn self.old self.new }
    {
        if let Err(unfit) = board.fits(&self.share, Some(&job)) {
            job.drop_unfit();
            self.leave(Leave::Unfit(unfit));
            return;
        }
        board.release(job, &mut self.share);
        self.starve();
    }

    // Shows what a pip came to, after it was looked up, and completes it; whether the worker goes on.
    fn show_on(
        &mut self,
        alloc: Global,
        board: &mut Board<L, E>,
        job: Job<L, E>,
        shown: Shown,
    ) -> bool
        requires busy { IsBusy board.old self.old.share job }
        requires shown { fits_job job shown ≡ true }
        ensures ended { result ≡ false → has_ended self.new ≡ true }
        ensures released { result ≡ false → has_left board.new.core.left self.old.share.worker ≡ true }
        ensures free { result ≡ true → IsFree board.new self.new.share }
        ensures goes { GoesOn self.old self.new }
    {
        match board.publish(alloc, job, shown, &mut self.share) {
            Ok(shut) => {
                board.complete(shut, &mut self.share);
                true
            }
            Err(PublishFault::Refused { job, unlike }) => {
                board.release(job, &mut self.share);
                self.leave(Leave::Refused(unlike));
                false
            }
            Err(PublishFault::Memory { job }) => {
                board.release(job, &mut self.share);
                self.starve();
                false
            }
        }
    }

    // Shows what a pip came to; whether the worker goes on.
    pub(crate) fn conclude(
        &mut self,
        alloc: Global,
        board: &mut Board<L, E>,
        job: Job<L, E>,
        shown: Shown,
    ) -> bool
        requires first { job.looked ≡ None }
        requires kind { fits_kind job.is_process shown ≡ true }
        ensures ended { result ≡ false → has_ended self.new ≡ true }
        ensures released { IsBusy board.old self.old.share job → result ≡ false
            → has_left board.new.core.left self.old.share.worker ≡ true }
        ensures free { IsBusy board.old self.old.share job → result ≡ true → IsFree board.new self.new.share }
        ensures goes { GoesOn self.old self.new }
    {
        let mut job = job;
        if let Err(unfit) = board.fits(&self.share, Some(&job)) {
            job.drop_unfit();
            self.leave(Leave::Unfit(unfit));
            return false;
        }
        if job.is_process() {
            board.looked(&mut job, is_hit(&shown), &mut self.share);
        }
        self.show_on(alloc, board, job, shown)
    }
}
