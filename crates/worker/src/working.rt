//! The loop of a worker.
ghost use Rattle.std.specs.Prelude.{◌≡◌, None, false, true};
ghost use Rattle.worker.specs.Ended.{has_ended};
ghost use Rattle.worker.specs.Steps.{MayGo};
ghost use Rattle.worker.specs.Workers.{GoesOn};

use crate::locked::Next;
use crate::showing::{Site, has_pip};
use crate::worker::Worker;
use bx_io::{Gate, KeepReader};
use pip_model::{Plan, Sources};
use pip_view_inputs::Inputs;
use sched_board::{Board, Job};
use std::alloc::Global;
use std::sync::ledger::Ledger;
use std::sync::{Condvar, Mutex, Wait};

impl<R: KeepReader, L: Ledger, E: Ledger> Worker<R, L, E> {
    // What it does next. It waits only while no pip is ready and another worker holds one.
    fn next<H: Wait>(
        &mut self,
        rt: &H,
        alloc: Global,
        board: &Mutex<Board<L, E>>,
        bell: &Condvar,
    ) -> Next<L, E>
        ensures next { MayGo result self.new }
        ensures goes { GoesOn self.old self.new }
    {
        let mut guard = board.lock(rt);
        'looks: for _ in rt.forever() {
            match self.look(alloc, &mut *guard) {
                Next::NotYet => guard = bell.wait(rt, guard),
                found => return found,
            }
        }
        unreachable!()
    }

    // Works on a pip; whether it goes on. The lock is taken once more, when the pip is looked up or has run.
    fn run<H: Wait, G: Gate>(
        &mut self,
        rt: &H,
        site: &Site<'_, G>,
        board: &Mutex<Board<L, E>>,
        job: Job<L, E>,
        inputs: &Inputs,
    ) -> bool
        requires { job.looked ≡ None }
        ensures ended { result ≡ false → has_ended self.new ≡ true }
        ensures goes { GoesOn self.old self.new }
    {
        if !has_pip(site.plan, job.pip(), job.is_process()) {
            self.give_back(&mut *board.lock(rt), job);
            return false;
        }
        match self.show(site, job.pip(), job.is_process(), inputs) {
            Ok(shown) => self.conclude(site.alloc, &mut *board.lock(rt), job, shown),
            Err(_) => {
                self.give_back(&mut *board.lock(rt), job);
                false
            }
        }
    }

    // Claims what is next, and works on it if it is a pip; whether it goes on.
    fn turn<H: Wait, G: Gate>(
        &mut self,
        rt: &H,
        site: &Site<'_, G>,
        board: &Mutex<Board<L, E>>,
        bell: &Condvar,
    ) -> bool
        ensures ended { result ≡ false → has_ended self.new ≡ true }
        ensures goes { GoesOn self.old self.new }
    {
        match self.next(rt, site.alloc, board, bell) {
            Next::Job(job, inputs) => self.run(rt, site, board, job, &inputs),
            Next::Skipped | Next::NotYet => true,
            Next::Stop => false,
        }
    }

    /// Claims pips and works on them, until nothing is left to do, it is refused, or memory is wanting: in the last two cases
    /// it gives its pip back, for another worker. Whoever waits is woken after each pip that it skips, completes or gives
    /// back. Other workers may work on the same board at the same time, each with the same plan and sources; one with
    /// another plan or with other sources is refused.
    pub fn work<H: Wait, G: Gate>(
        &mut self,
        rt: &H,
        alloc: Global,
        plan: &Plan,
        sources: &Sources,
        board: &Mutex<Board<L, E>>,
        bell: &Condvar,
        gate: &G,
    )
        ensures ended { has_ended self.new ≡ true }
        ensures goes { GoesOn self.old self.new }
    {
        let site = Site {
            alloc,
            plan,
            sources,
            gate,
        };
        'pips: for _ in rt.forever() {
            let goes_on = self.turn(rt, &site, board, bell);
            bell.notify_all();
            if !goes_on {
                return;
            }
        }
        unreachable!()
    }
}
