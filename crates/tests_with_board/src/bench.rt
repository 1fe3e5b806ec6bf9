//! A board with the shares of its workers, who are named by their numbers.
ghost use Rattle.std.specs.Prelude.{◌≡◌, ◌<◌, ◌≤◌};
ghost use Rattle.std.specs.Vec.{vec_len};

use crate::Fault;
use crate::boards::board_for;
use pip_model::{Made, Plan, Sources};
use pip_view_inputs::{Inputs, plain};
use run_record::Record;
use sched_board::{
    Board, Claim, Finished, Job, NewBoard, PublishFault, Share, Shown, Unfit, Unlike,
};
use sched_core::MAX_WORKERS;
use std::alloc::Global;
use std::sync::ledger::Ledger;
use std::sync::{Arc, ledger};

/// A plan and its sources, a board of them, and the shares of its workers.
#[derive(Drop)]
pub struct Bench<L: Ledger, E: Ledger> {
    plan: Arc<Plan>,
    sources: Arc<Sources>,
    board: Board<L, E>,
    shares: Vec<Share<L, E>>,
}

/// What becomes of a job whose pip is shown: it is done, or still held as what is shown was refused, or there is none.
pub enum Fate<L: Ledger, E: Ledger> {
    Done,
    Refused(Job<L, E>, Unlike),
    Gone(Fault),
}

impl<L: Ledger, E: Ledger> Bench<L, E> {
    pub fn new(
        alloc: Global,
        plan: Arc<Plan>,
        sources: Arc<Sources>,
        workers: u32,
        events: ledger::Blank,
        marks: ledger::Blank,
    ) -> Result<Bench<L, E>, Fault>
        requires workers { (0 < workers) × (workers ≤ MAX_WORKERS) }
        requires events { (events.name ≡ L.name) × (events.parts ≡ L.parts) × (L.parts ≡ workers) }
        requires marks { (marks.name ≡ E.name) × (marks.parts ≡ E.parts) × (E.parts ≡ workers) }
    {
        let same = plan.clone()?;
        let files = sources.clone()?;
        let NewBoard { board, shares } = board_for::<L, E>(
            alloc, same, files, workers, events, marks,
        )?;
        Ok(Bench {
            plan,
            sources,
            board,
            shares,
        })
    }

    // What a worker is told that claims.
    fn claim(&mut self, worker: usize) -> Result<Claim<L, E>, Fault> {
        let Bench { board, shares, .. } = self;
        if shares.len() <= worker {
            return Err(Fault::Worker);
        }
        let share = &mut shares[worker];
        if !board.fits(share, None).is_ok() {
            return Err(Fault::Claim);
        }
        Ok(board.claim(share))
    }

    /// A job of the least pip that may start.
    pub fn claimed(&mut self, worker: usize) -> Result<Job<L, E>, Fault> {
        match self.claim(worker)? {
            Claim::Job(job) => Ok(job),
            Claim::Skipped(_) | Claim::NotYet | Claim::Over | Claim::Left => Err(Fault::Claim),
        }
    }

    /// What a worker is told that is given no pip.
    pub fn told(&mut self, worker: usize) -> &'static str {
        match self.claim(worker) {
            Ok(Claim::Job(job)) => {
                job.drop_unfit();
                "a pip"
            }
            Ok(Claim::Skipped(_)) => "skipped",
            Ok(Claim::NotYet) => "not yet",
            Ok(Claim::Over) => "over",
            Ok(Claim::Left) => "left",
            Err(_) => "unfit",
        }
    }

    /// Whether the share of a worker is marked.
    pub fn has_mark(&self, worker: usize) -> bool {
        match self.shares.get(worker) {
            Some(share) => share.has_mark(),
            None => false,
        }
    }

    /// Why the share of a worker does not fit without a job.
    pub fn unfit(&self, worker: usize) -> Option<Unfit> {
        match self.shares.get(worker) {
            Some(share) => self.board.fits(share, None).err(),
            None => None,
        }
    }

    /// What the inputs of the job's pip made.
    pub fn inputs(&self, alloc: Global, worker: usize, job: &Job<L, E>) -> Result<Inputs, Fault> {
        let Some(share) = self.shares.get(worker) else {
            return Err(Fault::Worker);
        };
        if !self.board.fits(share, Some(job)).is_ok() {
            return Err(Fault::Job);
        }
        Ok(self.board.inputs(alloc, job)?)
    }

    /// What a pip makes of these inputs.
    pub fn plain(&self, alloc: Global, pip: u32, inputs: &Inputs) -> Result<Made, Fault> {
        Ok(plain(alloc, &*self.plan, &*self.sources, pip, inputs)?)
    }

    /// The job's process is not found in the store.
    pub fn look(&mut self, worker: usize, job: &mut Job<L, E>) -> Result<(), Fault> {
        let Bench { board, shares, .. } = self;
        if shares.len() <= worker {
            return Err(Fault::Worker);
        }
        let share = &mut shares[worker];
        if !board.fits(share, Some(&*job)).is_ok() || !job.is_process() || job.looked().is_some() {
            return Err(Fault::Job);
        }
        board.looked(job, false, share);
        Ok(())
    }

    /// Shows files of the job's pip.
    pub fn show_files(
        &mut self,
        alloc: Global,
        worker: usize,
        job: Job<L, E>,
        made: Made,
    ) -> Fate<L, E> {
        let Bench { board, shares, .. } = self;
        if shares.len() <= worker {
            job.drop_unfit();
            return Fate::Gone(Fault::Worker);
        }
        let share = &mut shares[worker];
        if !board.fits(share, Some(&job)).is_ok() || job.is_process() || job.looked().is_some() {
            job.drop_unfit();
            return Fate::Gone(Fault::Job);
        }
        match board.publish(alloc, job, Shown::Plain(made), share) {
            Ok(shut) => {
                board.complete(shut, share);
                Fate::Done
            }
            Err(PublishFault::Refused { job, unlike }) => Fate::Refused(job, unlike),
            Err(PublishFault::Memory { job }) => {
                job.drop_unfit();
                Fate::Gone(Fault::Memory)
            }
        }
    }

    /// Shows the record of a run of the job's process, which was not found in the store.
    pub fn show_run(
        &mut self,
        alloc: Global,
        worker: usize,
        job: Job<L, E>,
        ran: Record,
    ) -> Fate<L, E> {
        let Bench { board, shares, .. } = self;
        if shares.len() <= worker {
            job.drop_unfit();
            return Fate::Gone(Fault::Worker);
        }
        let share = &mut shares[worker];
        if !board.fits(share, Some(&job)).is_ok()
            || !job.is_process()
            || job.looked() != Some(false)
        {
            job.drop_unfit();
            return Fate::Gone(Fault::Job);
        }
        match board.publish(alloc, job, Shown::Ran(ran), share) {
            Ok(shut) => {
                board.complete(shut, share);
                Fate::Done
            }
            Err(PublishFault::Refused { job, unlike }) => Fate::Refused(job, unlike),
            Err(PublishFault::Memory { job }) => {
                job.drop_unfit();
                Fate::Gone(Fault::Memory)
            }
        }
    }

    // What the job's pip makes of what its inputs made.
    fn made(&self, alloc: Global, worker: usize, job: &Job<L, E>) -> Result<Made, Fault> {
        let inputs = self.inputs(alloc, worker, job)?;
        self.plain(alloc, job.pip(), &inputs)
    }

    // Shows files of the job's pip, which are not refused.
    fn complete(
        &mut self,
        alloc: Global,
        worker: usize,
        job: Job<L, E>,
        made: Made,
    ) -> Result<(), Fault> {
        match self.show_files(alloc, worker, job, made) {
            Fate::Done => Ok(()),
            Fate::Refused(job, _) => {
                job.drop_unfit();
                Err(Fault::Refused)
            }
            Fate::Gone(fault) => Err(fault),
        }
    }

    /// Makes the job's pip of what its inputs made, and shows that.
    pub fn make(&mut self, alloc: Global, worker: usize, job: Job<L, E>) -> Result<(), Fault> {
        match self.made(alloc, worker, &job) {
            Ok(made) => self.complete(alloc, worker, job, made),
            Err(fault) => {
                job.drop_unfit();
                Err(fault)
            }
        }
    }

    /// Gives the job's pip back.
    pub fn give_back(&mut self, worker: usize, job: Job<L, E>) -> Result<(), Fault> {
        let Bench { board, shares, .. } = self;
        if shares.len() <= worker {
            job.drop_unfit();
            return Err(Fault::Worker);
        }
        let share = &mut shares[worker];
        if !board.fits(share, Some(&job)).is_ok() {
            job.drop_unfit();
            return Err(Fault::Job);
        }
        board.release(job, share);
        Ok(())
    }

    /// What is left when all workers are done.
    pub fn finish(self, workers: usize) -> Result<Finished, Fault>
        requires parts { L.parts ≡ workers }
        requires some { 0 < workers }
    {
        let Bench { board, shares, .. } = self;
        if shares.len() != workers {
            return Err(Fault::Worker);
        }
        Ok(board.finish(shares))
    }
}
