//! The value under the lock.
ghost use Rattle.std.specs.Prelude.{◌≡◌, ◌≢◌, ◌<◌, ◌≤◌, ◌↔◌, All, Any, IfErr, IfNone, IfOk, IfSome, IsOk, MatchOption, None, false, length, slice_get, true};
ghost use Rattle.std.specs.Vec.{vec_len};
ghost use Rattle.std.specs.List.{sum_by};
ghost use Rattle.std.specs.Option.{option_and_then};
ghost use Rattle.sched_core.specs.Laws.{NothingAfterRelease, OneHolder, OnePip, PublishedOnce, ReleasedBetween, StartsAfterInputs};
ghost use Rattle.sched_core.specs.Sets.{IsLeast, IsNever};
ghost use Rattle.sched_core.specs.Sound.{IsSound};
ghost use Rattle.sched_core.specs.Table.{allows, are_settled, busy_of, has_left, may_skip, may_start, next_state, node_at, pip_of, state_after_event, state_at, worker_of};
ghost use Rattle.sched_board_slots.specs.Closing.{HoldsOneThread};
ghost use Rattle.sched_board_slots.specs.Finished.{AreSettledSlots};
ghost use Rattle.sched_board_slots.specs.Slots.{FitsState, own_inputs, slot_at};
ghost use Rattle.sched_board.specs.Board.{CanComplete, IsBoard, IsBusy, IsFree, ShareData, filled, mark_amount, one_more, stepped, tells, with_looked, with_mark};
ghost use Rattle.sched_board.specs.Claiming.{Claims};
ghost use Rattle.sched_board.specs.Publishing.{Publishes, fits_job};

use crate::answers::{Claim, PublishFault, Unfit};
use crate::comparing::{compare, inputs_of};
use crate::shown::Shown;
use crate::tokens::{Job, Share, Shut};
use bx_tree::Memory;
use pip_model::{Plan, Sources};
use pip_view_inputs::Inputs;
use sched_board_slots::{Finished, Held, slots_follow_one_thread};
use sched_core::{Core, Event, PipState, legal_events, settled_at_the_end};
use std::alloc::Global;
use std::marker::Model;
use std::sync::Arc;
use std::sync::ledger::{Book, Ledger};

/// What all workers share under one lock: a plan and its sources, the state of all pips, the history of events and a
/// slot for each pip.
#[derive(Drop)]
pub struct Board<L: Ledger, E: Ledger> {
    pub(crate) plan: Arc<Plan>,
    pub(crate) sources: Arc<Sources>,
    pub(crate) core: Core,
    pub(crate) history: Vec<Event>,
    pub(crate) slots: Vec<Held>,
    pub(crate) events: Book<L>,
    pub(crate) marks: Book<E>,
}

impl<L: Ledger, E: Ledger> Model for Board<L, E> {
    ghost use Rattle.std.specs.Arc.{arc_value};
    ghost use Rattle.std.specs.Vec.{vec_capacity};
    ghost use Rattle.sched_board.specs.Board.{BoardData, KeepsBoard, board_of};

    ghost Value = { BoardData };

    ghost view = { λ b. board_of (arc_value b.plan) (arc_value b.sources) b.core b.history.items b.slots.items };

    ghost invariant = { λ b. KeepsBoard (board_of (arc_value b.plan) (arc_value b.sources) b.core b.history.items b.slots.items)
        b.events.total b.marks.total (vec_capacity b.history) };
}

// Makes an event that the core allows.
fn apply(core: &mut Core, event: &Event)
    requires allowed { allows core.old event.now ≡ true }
    requires worker { worker_of event.now < length core.old.left }
    ensures { core.new ≡ next_state core.old event.now }
{
    if core.step(event).is_err() {
        unreachable!()
    }
}

// Whether a pip is in the state that a job of a worker tells.
fn is_as_told(state: PipState, worker: u32, looked: Option<bool>) -> bool
    ensures { result ≡ true ↔ tells worker looked state }
{
    match (state, looked) {
        (PipState::Held(holder), None) => holder == worker,
        (PipState::Looked(holder, hit), Some(said)) => holder == worker && hit == said,
        _ => false,
    }
}

impl<L: Ledger, E: Ledger> Board<L, E> {
    /// What every board keeps. It does nothing.
    pub fn keeps(&self)
        ensures board { IsBoard self.now }
        ensures sound { IsSound self.now.core }
    {
        legal_events();
        let _ = &self.core;
    }

    // Makes an event that leaves the slots.
    fn append(&mut self, event: Event, share: &mut Share<L, E>)
        requires allowed { allows self.old.core event ≡ true }
        requires worker { worker_of event < length self.old.core.left }
        requires fits { FitsState self.old.plan self.old.sources self.old.slots (pip_of event)
            (state_after_event (state_at self.old.core.states (pip_of event)) event)
            (slot_at self.old.slots (pip_of event)) }
        ensures board { self.new ≡ stepped self.old event }
        ensures share { share.new ≡ one_more share.old }
    {
        legal_events();
        let _pips = self.plan.pips();
        let Board {
            core,
            history,
            events,
            ..
        } = self;
        apply(core, &event);
        history.push_reserved(event);
        events.add(&mut share.events, 1);
    }

    // Makes an event that fills the slot of its pip.
    fn fill(&mut self, event: Event, slot: Held, share: &mut Share<L, E>)
        requires allowed { allows self.old.core event ≡ true }
        requires worker { worker_of event < length self.old.core.left }
        requires fits { FitsState self.old.plan self.old.sources self.old.slots (pip_of event)
            (state_after_event (state_at self.old.core.states (pip_of event)) event) slot }
        ensures board { self.new ≡ filled self.old event slot }
        ensures share { share.new ≡ one_more share.old }
    {
        legal_events();
        let _pips = self.plan.pips();
        let Board {
            core,
            history,
            slots,
            events,
            ..
        } = self;
        slots[event.pip() as usize] = slot;
        apply(core, &event);
        history.push_reserved(event);
        events.add(&mut share.events, 1);
    }

    // Whether the job's pip is there, held by this worker as the job tells, and of the job's kind.
    fn fits_job(&self, worker: u32, job: &Job<L, E>) -> bool
        requires { worker < length self.now.core.left }
        ensures { result ≡ true ↔ (job.now.pip < length self.now.core.nodes)
            × tells worker job.now.looked (state_at self.now.core.states job.now.pip)
            × (job.now.is_process ≡ (node_at self.now.core.nodes job.now.pip).is_process) }
    {
        if self.core.len() <= job.pip() as usize {
            return false;
        }
        is_as_told(self.core.state(job.pip()), worker, job.looked())
            && self.core.is_process(job.pip()) == job.is_process()
    }

    // The state of a job's pip, where the board has that pip.
    fn state_of(&self, job: Option<&Job<L, E>>) -> Option<PipState>
        ensures { result ≡ option_and_then (λ j. slice_get self.now.core.states j.now.pip) job.entry }
    {
        let job = job?;
        if self.core.len() <= job.pip() as usize {
            return None;
        }
        Some(self.core.state(job.pip()))
    }

    /// Whether a share, and a job of its worker, are as the board has them: without a job the worker holds no pip,
    /// and with one it holds just that job's pip, in the state and of the kind that the job tells. Takes no memory.
    pub fn fits<'a>(
        &'a self,
        share: &'a Share<L, E>,
        job: Option<&'a Job<L, E>>,
    ) -> Result<(), Unfit>
        ensures exact { MatchOption job.entry (IsOk result ↔ IsFree self.now share.now)
            (λ j. IsOk result ↔ IsBusy self.now share.now j.now) }
        ensures state { IfErr result (λ unfit. unfit.state
            ≡ option_and_then (λ j. slice_get self.now.core.states j.now.pip) job.entry) }
        ensures busy { IfErr result (λ unfit. unfit.busy ≡ busy_of share.now.worker self.now.core.states) }
    {
        let worker = share.worker();
        let fits = (worker as usize) < self.core.workers()
            && match job {
                Some(job) => self.fits_job(worker, job),
                None => self.core.busy(worker).is_none(),
            };
        if fits {
            return Ok(());
        }
        Err(Unfit::new(self.state_of(job), self.core.busy(worker)))
    }

    // The least pip that may be skipped.
    fn least_skip(&mut self) -> Option<u32>
        ensures same { self.new ≡ self.old }
        ensures some { IfSome result (IsLeast (may_skip self.old.core)) }
        ensures none { IfNone result (IsNever (may_skip self.old.core)) }
    {
        self.core.least_skip()
    }

    // The least pip that may start.
    fn least_start(&mut self) -> Option<u32>
        ensures same { self.new ≡ self.old }
        ensures some { IfSome result (IsLeast (may_start self.old.core)) }
        ensures none { IfNone result (IsNever (may_start self.old.core)) }
    {
        self.core.least_start()
    }

    // A pip for the worker to skip or to start, where it has not left.
    fn claim_next(&mut self, share: &mut Share<L, E>) -> Claim<L, E>
        requires free { IsFree self.old share.old }
        requires here { has_left self.old.core.left share.old.worker ≡ false }
        ensures claims { Claims self.old share.old result self.new share.new }
    {
        settled_at_the_end();
        self.core.keeps();
        let worker = share.worker();
        if let Some(pip) = self.least_skip() {
            self.fill(Event::Skip { pip, worker }, Held::Skipped, share);
            return Claim::Skipped(pip);
        }
        if let Some(pip) = self.least_start() {
            let job = Job::new(pip, self.core.is_process(pip));
            self.append(Event::Start { pip, worker }, share);
            return Claim::Job(job);
        }
        if self.core.is_idle() {
            self.mark(share);
            return Claim::Over;
        }
        Claim::NotYet
    }

    // Marks the share, where all pips are settled.
    fn mark(&mut self, share: &mut Share<L, E>)
        requires { are_settled self.old.core.states ≡ true }
        ensures board { self.new ≡ self.old }
        ensures share { share.new ≡ with_mark share.old }
    {
        if !share.marked {
            self.marks.add(&mut share.mark, 1);
            share.marked = true;
        }
    }

    /// What a worker that holds no pip does next: it skips the least pip that may be skipped, or else claims the least
    /// that may start. Takes no memory.
    pub fn claim(&mut self, share: &mut Share<L, E>) -> Claim<L, E>
        requires free { IsFree self.old share.old }
        ensures claims { Claims self.old share.old result self.new share.new }
    {
        if self.core.has_left(share.worker()) {
            return Claim::Left;
        }
        self.claim_next(share)
    }

    /// What the inputs of a job's pip made.
    pub fn inputs(&self, alloc: Global, job: &Job<L, E>) -> Result<Inputs, Memory>
        requires there { job.now.pip < length self.now.core.nodes }
        ensures inputs { IfOk result (λ inputs. inputs ≡ own_inputs self.now.plan self.now.slots job.now.pip) }
    {
        inputs_of(alloc, &*self.plan, self.slots.as_slice(), job.pip())
    }

    /// The job's process was looked up in the store, and found or not. Takes no memory.
    pub fn looked(&mut self, job: &mut Job<L, E>, hit: bool, share: &mut Share<L, E>)
        requires busy { IsBusy self.old share.old job.old }
        requires process { job.old.is_process ≡ true }
        requires first { job.old.looked ≡ None }
        ensures board { self.new ≡ stepped self.old (Event.Looked job.old.pip share.old.worker hit) }
        ensures job { job.new ≡ with_looked job.old hit }
        ensures share { share.new ≡ one_more share.old }
        ensures busy { IsBusy self.new share.new job.new }
    {
        let _core = &self.core;
        let event = Event::Looked {
            pip: job.pip(),
            worker: share.worker(),
            hit,
        };
        self.append(event, share);
        job.set_looked(hit);
    }

    /// Compares what is shown with the board's own by digest, and keeps it where nothing differs.
    pub fn publish(
        &mut self,
        alloc: Global,
        job: Job<L, E>,
        shown: Shown,
        share: &mut Share<L, E>,
    ) -> Result<Shut<L, E>, PublishFault<L, E>>
        requires busy { IsBusy self.old share.old job }
        requires shown { fits_job job shown ≡ true }
        ensures publishes { Publishes self.old share.old job shown result self.new share.new }
    {
        let slots = self.slots.as_slice();
        let Ok(found) = compare(alloc, &*self.plan, &*self.sources, slots, job.pip(), &shown) else {
            return Err(PublishFault::Memory { job });
        };
        if let Some(unlike) = found {
            return Err(PublishFault::Refused { job, unlike });
        }
        let pip = job.pip();
        let slot = shown.into_slot();
        let event = Event::Publish {
            pip,
            worker: share.worker(),
            good: slot.is_good(),
        };
        job.spend();
        self.fill(event, slot, share);
        Ok(Shut::new(pip))
    }

    /// The pip is done, under the same lock as the `publish` that gave the shut. Takes no memory.
    pub fn complete(&mut self, shut: Shut<L, E>, share: &mut Share<L, E>)
        requires published { CanComplete self.old share.old shut }
        ensures board { self.new ≡ stepped self.old (Event.Complete shut share.old.worker) }
        ensures share { share.new ≡ one_more share.old }
        ensures free { IsFree self.new share.new }
    {
        let _core = &self.core;
        let event = Event::Complete {
            pip: shut.into_pip(),
            worker: share.worker(),
        };
        self.append(event, share);
    }

    /// Gives the job's pip back; its worker has left. Takes no memory.
    pub fn release(&mut self, job: Job<L, E>, share: &mut Share<L, E>)
        requires busy { IsBusy self.old share.old job }
        ensures board { self.new ≡ stepped self.old (Event.Release job.pip share.old.worker) }
        ensures share { share.new ≡ one_more share.old }
        ensures left { has_left self.new.core.left share.old.worker ≡ true }
    {
        let _core = &self.core;
        let event = Event::Release {
            pip: job.pip(),
            worker: share.worker(),
        };
        job.spend();
        self.append(event, share);
    }

    /// The history and the slots, by the shares of all workers. Takes no memory.
    pub fn finish(self, shares: Vec<Share<L, E>>) -> Finished
        requires all { vec_len shares ≡ L.parts }
        requires some { 0 < vec_len shares }
        ensures history { result.history.items ≡ self.history }
        ensures slots { result.slots.items ≡ self.slots }
        ensures board { IsBoard self }
        ensures counted { length self.history ≡ sum_by (λ (share : ShareData). share.events) shares.items }
        ensures marked { Any (λ (share : ShareData). share.marked ≡ true) shares.items
            → (are_settled self.core.states ≡ true) × All (λ slot. slot ≢ Held.Empty) self.slots }
        ensures settled { are_settled self.core.states ≡ true → AreSettledSlots self.plan self.sources self.slots }
        ensures one_holder { OneHolder self.core.nodes (length self.core.left) }
        ensures one_pip { OnePip self.core.nodes (length self.core.left) }
        ensures published_once { PublishedOnce self.core.nodes (length self.core.left) }
        ensures starts_after_inputs { StartsAfterInputs self.core.nodes (length self.core.left) }
        ensures released_between { ReleasedBetween self.core.nodes (length self.core.left) }
        ensures nothing_after_release { NothingAfterRelease self.core.nodes (length self.core.left) }
        ensures one_thread { HoldsOneThread self.plan self.sources self.core.states self.slots }
    {
        legal_events();
        slots_follow_one_thread();
        let _pips = self.plan.pips();
        let Board {
            history,
            slots,
            mut events,
            mut marks,
            ..
        } = self;
        audit_all(&mut events, &mut marks, shares);
        Finished { history, slots }
    }
}

// Merges all shares, and compares them with both books.
fn audit_all<L: Ledger, E: Ledger>(
    events: &mut Book<L>,
    marks: &mut Book<E>,
    shares: Vec<Share<L, E>>,
)
    requires all { vec_len shares ≡ L.parts }
    requires some { 0 < vec_len shares }
    ensures events { events.new.total ≡ events.old.total }
    ensures marks { marks.new.total ≡ marks.old.total }
    ensures counted { events.old.total ≡ sum_by (λ (share : ShareData). share.events) shares.items }
    ensures marked { sum_by (λ (share : ShareData). mark_amount share.marked) shares.items ≤ marks.old.total }
{
    let mut shares = shares;
    let Some(first) = shares.pop() else {
        unreachable!()
    };
    let Share {
        events: mut mine,
        mark: mut mark,
        ..
    } = first;
    while let Some(share) = shares.pop() {
        let Share {
            events: other,
            mark: other_mark,
            ..
        } = share;
        mine.merge(other);
        mark.merge(other_mark);
    }
    events.audit(&mut mine);
    marks.audit(&mut mark);
}
