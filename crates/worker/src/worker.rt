//! A worker, and what it tells.
ghost use Rattle.std.specs.Prelude.{◌≡◌, option_map};
ghost use Rattle.two_phase.specs.Reading.{reader_data};
ghost use Rattle.worker.specs.Workers.{leaving, new_worker, starving};

use crate::tally::{Leave, Tally};
use bx_io::KeepReader;
use run_record::Tools;
use sched_board::Share;
use std::alloc::Global;
use std::marker::Model;
use std::sync::ledger::Ledger;
use two_phase::PathSets;

/// A worker of a build, with its reader of the cache, its share of the board and its tally.
#[derive(Drop)]
pub struct Worker<R: KeepReader, L: Ledger, E: Ledger> {
    pub(crate) reader: Option<R>,
    pub(crate) share: Share<L, E>,
    pub(crate) tally: Tally,
    pub(crate) tools: Tools,
    pub(crate) sets: PathSets,
}

impl<R: KeepReader, L: Ledger, E: Ledger> Model for Worker<R, L, E> {
    ghost use Rattle.std.specs.Coded.{codes};
    ghost use Rattle.std.specs.Prelude.{option_map};
    ghost use Rattle.bx_io.specs.StoreCodes.{holdings_code};
    ghost use Rattle.two_phase.specs.Reading.{reader_data};
    ghost use Rattle.worker.specs.Workers.{WorkerData, worker_data};

    ghost Value = { WorkerData };

    ghost coded = { Prim.hlevel (codes, holdings_code) };

    ghost view = { λ w. worker_data w.share w.tally (option_map (λ r. reader_data (R.held r) (R.bound r) (R.faults r)) w.reader) };
}

impl<R: KeepReader, L: Ledger, E: Ledger> Worker<R, L, E> {
    /// A worker with this share. Without a reader there is no cache for it.
    pub fn new(alloc: Global, reader: Option<R>, share: Share<L, E>) -> Worker<R, L, E>
        ensures worker { result
            ≡ new_worker (option_map (λ r. reader_data (R.held r) (R.bound r) (R.faults r)) reader) share }
    {
        Worker {
            reader,
            share,
            tally: Tally {
                faults: 0,
                starved: false,
                left: None,
            },
            tools: Tools::new(alloc),
            sets: PathSets::new(alloc),
        }
    }

    /// What it tells of its work.
    pub fn tally(&self) -> Tally
        ensures { result ≡ self.now.tally }
    {
        self.tally.copy()
    }

    /// Its share. The reader is let go.
    pub fn share(self) -> Share<L, E>
        ensures { result ≡ self.share }
    {
        self.share
    }

    // It leaves for want of memory.
    pub(crate) fn starve(&mut self)
        ensures { self.new ≡ starving self.old }
    {
        self.tally.starved = true;
    }

    // It leaves as it was refused.
    pub(crate) fn leave(&mut self, why: Leave)
        ensures { self.new ≡ leaving self.old why }
    {
        self.tally.left = Some(why);
    }
}
