//! The core: the state of all pips, changed by one event at a time.
ghost use Rattle.std.specs.Prelude.{◌≡◌, ◌↔◌, ◌<◌, ◌≤◌, ◌+◌, ◌-◌, ◌^◌, ℕ, All, IsOk, IsTrue, IfOk, IfErr, IfSome, IfNone, OnOk, OnErr, is_none, length, replicate, true, false};
ghost use Rattle.std.specs.List.{list_all};
ghost use Rattle.sched_core.specs.Legal.{all_waiting as waiting_pips, initial_state};
ghost use Rattle.sched_core.specs.Sets.{IsLeast, IsNever};
ghost use Rattle.sched_core.specs.Sound.{IsSound};
ghost use Rattle.sched_core.specs.Table.{AreOrdered, allows, busy_of, fits_table, has_left, is_idle, left_after, next_state};
ghost use Rattle.sched_core.specs.Table.{may_skip, may_start, node_at, state_at, why_illegal, worker_of};

use crate::event::Event;
use crate::graph::{Graph, PipNumbers};
use crate::illegal::Illegal;
use crate::indexes::{dependents_of, first_ready, settle};
use crate::readiness::Readiness;
use crate::state::PipState;
use std::alloc::{AllocError, Global};
use std::marker::Model;

/// The most workers of a build.
pub const MAX_WORKERS: u32 = 64;

/// The states of all pips of a build, and which workers have left. Contracts see these, beside the pips.
///
/// No call goes over all pips: the pips that may start and that may be skipped are kept as sets, the inputs that
/// are missing to a pip are counted, and the pip of a worker is found by the worker's number.
#[derive(Drop)]
pub struct Core {
    graph: Graph,
    states: Vec<PipState>,
    left: Vec<bool>,
    dependents: Vec<PipNumbers>,
    ready: Readiness,
    seats: Vec<Option<u32>>,
}

impl Model for Core {
    ghost use Rattle.sched_core.specs.Table.{CoreState};
    ghost use Rattle.sched_core.specs.Indexes.{KeepsCore};

    ghost Value = { CoreState };

    ghost view = { λ c. record { nodes = c.graph; states = c.states.items; left = c.left.items } };

    ghost invariant = { λ c. KeepsCore (record { nodes = c.graph; states = c.states.items; left = c.left.items }) c.dependents.items c.ready c.seats.items };
}

// A number of a pip that is ready.
fn as_pip(found: Option<usize>) -> Option<u32>
    requires { IfSome found (λ n. n < 2 ^ 32) }
    ensures { result ≡ found }
{
    match found {
        Some(number) => Some(number as u32),
        None => None,
    }
}

// The states of pips that all wait.
fn all_waiting(alloc: Global, pips: usize) -> Result<Vec<PipState>, AllocError>
    ensures { IfOk result (λ states. states.items ≡ waiting_pips pips) }
{
    Ok(vec![in alloc; PipState::Waiting; pips]?)
}

// No worker has left.
fn nobody_left(alloc: Global, workers: usize) -> Result<Vec<bool>, AllocError>
    ensures { IfOk result (λ left. left.items ≡ replicate workers false) }
{
    Ok(vec![in alloc; false; workers]?)
}

// The seats of workers that hold no pip.
fn empty_seats(alloc: Global, workers: usize) -> Result<Vec<Option<u32>>, AllocError>
    ensures { IfOk result (λ seats. seats.items ≡ replicate workers None) }
{
    Ok(vec![in alloc; None; workers]?)
}

// A worker that releases a pip has left.
fn leave(left: &mut Vec<bool>, event: &Event)
    requires { worker_of event.now < length left.old.items }
    ensures { left.new.items ≡ left_after left.old.items event.now }
{
    if let Event::Release { worker, .. } = event {
        left[*worker as usize] = true;
    }
}

// Whether nobody holds a pip.
fn are_free(seats: &[Option<u32>]) -> bool
    ensures { result ≡ list_all (λ seat. is_none seat) seats.now }
{
    seats.iter().all(|seat| seat.is_none())
}

impl Core {
    /// All pips of the graph wait, and no worker has left. Of a plan a core keeps the kinds and the inputs alone, which
    /// are the graph: who calls it says which plan's they are.
    pub fn new(alloc: Global, graph: Graph, workers: u32) -> Result<Core, AllocError>
        requires { (0 < workers) × (workers ≤ MAX_WORKERS) }
        ensures { IfOk result (λ core. core ≡ initial_state graph workers) }
    {
        let states = all_waiting(alloc, graph.nodes().len())?;
        let dependents = dependents_of(alloc, graph.nodes())?;
        let ready = first_ready(alloc, graph.nodes())?;
        let left = nobody_left(alloc, workers as usize)?;
        let seats = empty_seats(alloc, workers as usize)?;
        Ok(Core {
            graph,
            states,
            left,
            dependents,
            ready,
            seats,
        })
    }

    /// What every core keeps. It does nothing.
    pub fn keeps(&self)
        ensures ordered { AreOrdered self.now.nodes }
        ensures few { length self.now.nodes < 2 ^ 32 }
        ensures sound { IsSound self.now }
    {
        let _ = &self.graph;
    }

    /// How many pips there are.
    pub fn len(&self) -> usize
        ensures { result ≡ length self.now.nodes }
    {
        self.states.len()
    }

    /// How many workers there are.
    pub fn workers(&self) -> usize
        ensures { result ≡ length self.now.left }
    {
        self.left.len()
    }

    /// The state of a pip.
    pub fn state(&self, pip: u32) -> PipState
        requires { pip < length self.now.nodes }
        ensures { result ≡ state_at self.now.states pip }
    {
        self.states[pip as usize]
    }

    // The state of a pip; one that is not there reads as skipped.
    fn state_or_skipped(&self, pip: u32) -> PipState
        ensures { result ≡ state_at self.now.states pip }
    {
        match self.states.get(pip as usize) {
            Some(state) => *state,
            None => PipState::Skipped,
        }
    }

    /// Whether a pip is a process; one that is not there is none.
    pub fn is_process(&self, pip: u32) -> bool
        ensures { result ≡ (node_at self.now.nodes pip).is_process }
    {
        match self.graph.nodes().get(pip as usize) {
            Some(node) => node.is_process,
            None => false,
        }
    }

    /// Whether a worker has left; one that is not there has.
    pub fn has_left(&self, worker: u32) -> bool
        ensures { result ≡ has_left self.now.left worker }
    {
        match self.left.get(worker as usize) {
            Some(left) => *left,
            None => true,
        }
    }

    /// The pip that a worker holds.
    pub fn busy(&self, worker: u32) -> Option<u32>
        ensures { result ≡ busy_of worker self.now.states }
    {
        match self.seats.get(worker as usize) {
            Some(seat) => *seat,
            None => None,
        }
    }

    /// Whether nobody holds a pip.
    pub fn is_idle(&self) -> bool
        ensures { result ≡ is_idle self.now.states }
    {
        are_free(self.seats.as_slice())
    }

    // Whether a pip waits, and all its inputs completed with success.
    pub(crate) fn may_start(&self, pip: u32) -> bool
        ensures { result ≡ may_start self.now pip }
    {
        self.ready.may_start(pip)
    }

    // Whether a pip waits, and one of its inputs completed without success or was skipped.
    pub(crate) fn may_skip(&self, pip: u32) -> bool
        ensures { result ≡ may_skip self.now pip }
    {
        self.ready.may_skip(pip)
    }

    /// The least pip that may start.
    pub fn least_start(&mut self) -> Option<u32>
        ensures same { self.new ≡ self.old }
        ensures some { IfSome result (IsLeast (may_start self.old)) }
        ensures none { IfNone result (IsNever (may_start self.old)) }
    {
        as_pip(self.ready.least_start())
    }

    /// The least pip that may be skipped.
    pub fn least_skip(&mut self) -> Option<u32>
        ensures same { self.new ≡ self.old }
        ensures some { IfSome result (IsLeast (may_skip self.old)) }
        ensures none { IfNone result (IsNever (may_skip self.old)) }
    {
        as_pip(self.ready.least_skip())
    }

    // Whether the table allows an event of a worker that has not left.
    fn fits_table(&self, event: &Event) -> bool
        ensures { result ≡ fits_table self.now event.now }
    {
        match *event {
            Event::Start { pip, worker } => self.may_start(pip) && self.busy(worker).is_none(),
            Event::Looked { pip, worker, .. } => {
                self.state_or_skipped(pip)
                    .may_look(self.is_process(pip), worker)
            }
            Event::Publish { pip, worker, good } => {
                self.state_or_skipped(pip)
                    .may_publish(self.is_process(pip), worker, good)
            }
            Event::Complete { pip, worker } => self.state_or_skipped(pip).may_complete(worker),
            Event::Skip { pip, worker } => self.may_skip(pip) && self.busy(worker).is_none(),
            Event::Release { pip, worker } => self.state_or_skipped(pip).may_release(worker),
        }
    }

    // Whether the table allows an event.
    pub(crate) fn allows(&self, event: &Event) -> bool
        ensures { result ≡ allows self.now event.now }
    {
        !self.has_left(event.worker()) && self.fits_table(event)
    }

    // Why an event is refused.
    fn why_illegal(&self, event: &Event) -> Illegal
        ensures { result ≡ why_illegal self.now event.now }
    {
        let state = self.states.get(event.pip() as usize).copied();
        let worker = event.worker();
        Illegal::new(state, self.busy(worker), self.has_left(worker))
    }

    // Makes an event.
    fn apply(&mut self, event: &Event)
        requires { allows self.old event.now ≡ true }
        ensures { self.new ≡ next_state self.old event.now }
    {
        let Core {
            states,
            left,
            dependents,
            ready,
            seats,
            ..
        } = self;
        let pip = event.pip();
        let worker = event.worker() as usize;
        let next = states[pip as usize].after(event);
        states[pip as usize] = next;
        leave(left, event);
        seats[worker] = next.seat(pip);
        ready.set_flags(pip as usize, next.is_waiting());
        settle(
            dependents[pip as usize].as_slice(),
            states.as_slice(),
            ready,
            next,
        );
    }

    /// Makes an event where the table allows it, and else changes nothing and tells why it does not.
    pub fn step(&mut self, event: &Event) -> Result<(), Illegal>
        requires worker { worker_of event.now < length self.old.left }
        ensures exact { IsTrue (allows self.old event.now) ↔ IsOk result }
        ensures ok { OnOk result (self.new ≡ next_state self.old event.now) }
        ensures err { OnErr result (self.new ≡ self.old) }
        ensures why { IfErr result (λ illegal. illegal ≡ why_illegal self.old event.now) }
    {
        if !self.allows(event) {
            return Err(self.why_illegal(event));
        }
        self.apply(event);
        Ok(())
    }
}
