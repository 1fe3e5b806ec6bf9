//! The workers of a build: they are made, work on one board in threads of their own, and leave what they came to.

ghost use Rattle.std.specs.Prelude.{◌≡◌, ◌<◌, ◌≤◌, ◌↔◌, ◌-◌, ◌^◌, ℕ, All, Bool, IfOk, IfSome, Option, count_by, if◌then◌else◌};
ghost use Rattle.std.specs.Prelude.{is_some, length, min, replicate, true};
ghost use Rattle.std.specs.Arc.{arc_value};
ghost use Rattle.std.specs.List.{sum_by};
ghost use Rattle.std.specs.Vec.{vec_len};
ghost use Rattle.sched_board.specs.Board.{IsFree};
ghost use Rattle.sched_board_slots.specs.declared.held.Held.TheVariants as held;
ghost use Rattle.worker.specs.Ended.{has_ended};
ghost use Rattle.worker.specs.Workers.{GoesOn, WorkerData};
ghost use Rattle.bx_engine.specs.Crews.{AreThrough, IsFresh, IsThrough};

use bx_io::{Gate, KeepReader, Keeper};
use bx_tree::Memory;
use pip_model::{Plan, Sources};
use recent_contents::RecentReader;
use sched_board::{Blank, Board, Finished, NewBoard, Share};
use sched_core::MAX_WORKERS;
use std::alloc::Global;
use std::marker::Brand;
use std::sync::ledger::Ledger;
use std::sync::{Arc, Condvar, Mutex, Wait, ledger};
use std::thread;
use std::thread::Threads;
use worker::Worker;

/// What the workers of a build counted together.
#[derive(Clone, Copy, Debug)]
pub(crate) struct Worked {
    /// How many of their lookups failed, as long as that has 64 bits.
    pub faults: u64,
    /// How many of them left for want of memory.
    pub starved: u64,
}

/// What the workers of a build left: a slot for each pip, and what they counted.
#[derive(Drop)]
pub(crate) struct Crewed {
    pub finished: Finished,
    pub worked: Worked,
}

// One part of a ledger for each worker.
fn parts_of<L: Ledger>(
    alloc: Global,
    workers: u32,
    whole: ledger::Share<L>,
) -> Result<Vec<ledger::Share<L>>, Memory>
    requires parts { whole.parts ≡ workers }
    requires amount { whole.amount ≡ 0 }
    ensures number { IfOk result (λ parts. vec_len parts ≡ workers) }
    ensures parts { IfOk result (λ parts. All (λ s. (s.parts ≡ 1) × (s.amount ≡ 0)) parts.items) }
{
    let mut whole = whole;
    let mut parts = Vec::new(alloc);
    'parts: for _ in 0..workers {
        parts.push(whole.split_off(1, 0))?;
    }
    Ok(parts)
}

// The books of two new ledgers, with one part of each for each worker.
fn blank_of<L: Ledger, E: Ledger>(
    alloc: Global,
    workers: u32,
    events: ledger::Blank,
    marks: ledger::Blank,
) -> Result<Blank<L, E>, Memory>
    requires events { (events.name ≡ L.name) × ((events.parts ≡ L.parts) × (L.parts ≡ workers)) }
    requires marks { (marks.name ≡ E.name) × ((marks.parts ≡ E.parts) × (E.parts ≡ workers)) }
    ensures parts { IfOk result (λ blank. (vec_len blank.event_parts ≡ workers) × (vec_len blank.mark_parts ≡ workers)) }
    ensures events { IfOk result (λ blank. All (λ s. (s.parts ≡ 1) × (s.amount ≡ 0)) blank.event_parts.items) }
    ensures marks { IfOk result (λ blank. All (λ s. (s.parts ≡ 1) × (s.amount ≡ 0)) blank.mark_parts.items) }
    ensures totals { IfOk result (λ blank. (blank.events.total ≡ 0) × (blank.marks.total ≡ 0)) }
{
    let (events, event_share) = events.open::<L>();
    let (marks, mark_share) = marks.open::<E>();
    let event_parts = parts_of(alloc, workers, event_share)?;
    let mark_parts = parts_of(alloc, workers, mark_share)?;
    Ok(Blank {
        events,
        event_parts,
        marks,
        mark_parts,
    })
}

// A reader of the store for a worker, where the store is used.
fn reader_if<K: Keeper>(
    alloc: Global,
    keeper: &K,
    cached: bool,
) -> Result<Option<RecentReader<K::Reader>>, Memory>
    ensures some { IfOk result (λ reader. is_some reader ≡ cached) }
    ensures reader { IfOk result (λ reader. IfSome reader
        (λ r. (K.Reader.bound r.reader ≡ K.bound keeper.now) × (K.Reader.faults r.reader ≡ 0))) }
{
    if !cached {
        return Ok(None);
    }
    Ok(Some(RecentReader::new(alloc, keeper.reader(alloc)?)))
}

// A new worker for each share, with a reader of its own where the store is used.
fn crew_of<L: Ledger, E: Ledger, K: Keeper>(
    alloc: Global,
    shares: Vec<Share<L, E>>,
    keeper: &K,
    cached: bool,
) -> Result<Vec<Worker<RecentReader<K::Reader>, L, E>>, Memory>
    ensures number { IfOk result (λ crew. vec_len crew ≡ vec_len shares) }
    ensures fresh { IfOk result (λ crew. All (IsFresh cached (K.bound keeper.now)) crew.items) }
{
    let mut crew = Vec::new(alloc);
    'shares: for share in shares {
        let reader = reader_if(alloc, keeper, cached)?;
        crew.push(Worker::new(alloc, reader, share))?;
    }
    Ok(crew)
}

// One for a worker that starved.
fn one_if(starved: bool) -> u64
    ensures value { result ≡ (if starved then 1 else 0) }
    ensures few { result ≤ 1 }
{
    if starved { 1 } else { 0 }
}

// What workers counted together.
fn worked_by<R: KeepReader, L: Ledger, E: Ledger>(crew: &[Worker<R, L, E>]) -> Worked
    ensures faults { result.faults ≡ min (sum_by (λ (w : WorkerData). w.tally.faults) crew.now) (2 ^ 64 - 1) }
    ensures starved { result.starved ≡ count_by (λ (w : WorkerData). w.tally.starved) crew.now }
    ensures through { (cached : Bool) (bound : Option ℕ) → All (IsThrough cached bound) crew.now
        → AreThrough cached bound (length crew.now) result.faults result.starved }
{
    let mut faults: u64 = 0;
    let mut starved: u64 = 0;
    'crew: for worker in crew {
        let tally = worker.tally();
        faults = faults.saturating_add(tally.faults);
        starved += one_if(tally.starved);
    }
    Worked { faults, starved }
}

// All work at the same time, until each is through: what they counted together.
fn work_all<
    R: KeepReader,
    L: Ledger + Send + Sync,
    E: Ledger + Send + Sync,
    H: Threads + Wait + Sync,
    G: Gate,
>(
    rt: &H,
    alloc: Global,
    plan: &Plan,
    sources: &Sources,
    board: &Mutex<Board<L, E>>,
    gate: &G,
    crew: &mut [Worker<R, L, E>],
) -> Worked
    requires some { 0 < length crew.old }
    ensures { (cached : Bool) (bound : Option ℕ) → All (IsFresh cached bound) crew.old
        → AreThrough cached bound (length crew.old) result.faults result.starved }
{
    let bell = Condvar::new();
    let threads = crew.len();
    thread::for_each_mut(
        rt,
        crew,
        threads,
        &|_, worker: &mut Worker<R, L, E>|
            ensures { (has_ended worker.new ≡ true) × GoesOn worker.old worker.new }
        { worker.work(rt, alloc, plan, sources, board, &bell, gate) },
    );
    worked_by(crew)
}

// The shares of workers. Their readers are let go.
fn shares_of<R: KeepReader, L: Ledger, E: Ledger>(
    alloc: Global,
    crew: Vec<Worker<R, L, E>>,
) -> Result<Vec<Share<L, E>>, Memory>
    ensures { IfOk result (λ shares. vec_len shares ≡ vec_len crew) }
{
    let mut shares = Vec::new(alloc);
    'crew: for worker in crew {
        shares.push(worker.share())?;
    }
    Ok(shares)
}

// Whether a worker is one of the board's own, and holds no pip.
fn is_free<L: Ledger, E: Ledger>(board: &Board<L, E>, share: &Share<L, E>) -> bool
    ensures { result ≡ true ↔ IsFree board.now share.now }
{
    board.fits(share, None).is_ok()
}

// Whether no worker holds a pip of the board, and each is one of its own.
fn all_fit<L: Ledger, E: Ledger>(board: &Board<L, E>, shares: &[Share<L, E>]) -> bool
    ensures { result ≡ true ↔ All (IsFree board.now) shares.now }
{
    'shares: for share in shares {
        if !is_free(board, share) {
            return false;
        }
    }
    true
}

// What is left of a board, where it fits these shares and has so many slots; else as if no worker had begun. Of a value that
// was under a lock nothing is known but what its type keeps.
fn finish_if_fit<L: Ledger, E: Ledger>(
    alloc: Global,
    board: Board<L, E>,
    shares: Vec<Share<L, E>>,
    pips: usize,
) -> Result<Finished, Memory>
    requires all { vec_len shares ≡ L.parts }
    requires some { 0 < vec_len shares }
    ensures number { IfOk result (λ finished. length finished.slots.items ≡ pips) }
    ensures fits { All (IsFree board) shares.items → length board.slots ≡ pips
        → IfOk result (λ finished. finished.slots.items ≡ board.slots) }
    ensures unfit { (All (IsFree board) shares.items → length board.slots ≡ pips → ⊥)
        → IfOk result (λ finished. finished.slots.items ≡ replicate pips held.Empty) }
{
    if !all_fit(&board, shares.as_slice()) {
        return Finished::empty(alloc, pips);
    }
    let finished = board.finish(shares);
    let number = finished.slots.len();
    if number != pips {
        return Finished::empty(alloc, pips);
    }
    Ok(finished)
}

// What the workers left, on a board of these two ledgers.
fn work_with<
    L: Ledger + Send + Sync,
    E: Ledger + Send + Sync,
    H: Threads + Wait + Sync,
    K: Keeper,
    G: Gate,
>(
    rt: &H,
    alloc: Global,
    events: ledger::Blank,
    marks: ledger::Blank,
    plan: &Arc<Plan>,
    sources: &Arc<Sources>,
    workers: u32,
    keeper: &K,
    gate: &G,
    cached: bool,
) -> Result<Crewed, Memory>
    requires workers { (0 < workers) × (workers ≤ MAX_WORKERS) }
    requires events { (events.name ≡ L.name) × ((events.parts ≡ L.parts) × (L.parts ≡ workers)) }
    requires marks { (marks.name ≡ E.name) × ((marks.parts ≡ E.parts) × (E.parts ≡ workers)) }
    ensures slots { IfOk result (λ left. length left.finished.slots.items ≡ length (arc_value plan.now).pips) }
    ensures through { IfOk result (λ left. AreThrough cached (K.bound keeper.now) workers left.worked.faults
        left.worked.starved) }
{
    let blank = blank_of::<L, E>(alloc, workers, events, marks)?;
    let ours = Arc::try_clone(plan)?;
    let theirs = Arc::try_clone(sources)?;
    let NewBoard { board, shares } = Board::new(alloc, blank, ours, theirs, workers)?;
    let mut crew = crew_of(alloc, shares, keeper, cached)?;
    let lock = Mutex::new(board);
    let worked = work_all(
        rt,
        alloc,
        &**plan,
        &**sources,
        &lock,
        gate,
        crew.as_mut_slice(),
    );
    let shares = shares_of(alloc, crew)?;
    let finished = finish_if_fit(alloc, lock.into_inner(), shares, plan.pips().len())?;
    Ok(Crewed { finished, worked })
}

// Lets exactly so many workers work on a plan.
fn work_as<H: Threads + Wait + Sync, K: Keeper, G: Gate>(
    rt: &H,
    alloc: Global,
    plan: &Arc<Plan>,
    sources: &Arc<Sources>,
    workers: u32,
    keeper: &K,
    gate: &G,
    cached: bool,
) -> Result<Crewed, Memory>
    requires workers { (0 < workers) × (workers ≤ MAX_WORKERS) }
    ensures slots { IfOk result (λ left. length left.finished.slots.items ≡ length (arc_value plan.now).pips) }
    ensures through { IfOk result (λ left. AreThrough cached (K.bound keeper.now) workers left.worked.faults
        left.worked.starved) }
{
    let parts = workers as u64;
    let events = ledger::Blank::new(parts);
    let marks = ledger::Blank::new(parts);
    work_with::<Brand, Brand, H, K, G>(
        rt, alloc, events, marks, plan, sources, workers, keeper, gate, cached,
    )
}

// How many of so many workers are of use: one for each pip at most, and one at least.
fn useful(workers: u32, pips: usize) -> u32
    requires { 0 < workers }
    ensures some { 0 < result }
    ensures few { result ≤ workers }
{
    match u32::try_from(pips) {
        Ok(pips) => workers.min(pips.max(1)),
        Err(_) => workers,
    }
}

/// Lets workers work on a plan, so many at most and no more than it has pips, before its results are collected: each pip has a
/// slot afterwards, whatever is in it. The keeper is asked for a reader for each worker, where the store is used, and is not
/// changed.
pub(crate) fn work_ahead<H: Threads + Wait + Sync, K: Keeper, G: Gate>(
    rt: &H,
    alloc: Global,
    plan: &Arc<Plan>,
    sources: &Arc<Sources>,
    workers: u32,
    keeper: &K,
    gate: &G,
    cached: bool,
) -> Result<Crewed, Memory>
    requires workers { (0 < workers) × (workers ≤ MAX_WORKERS) }
    ensures slots { IfOk result (λ left. length left.finished.slots.items ≡ length (arc_value plan.now).pips) }
    ensures through { IfOk result (λ left. AreThrough cached (K.bound keeper.now) workers left.worked.faults
        left.worked.starved) }
{
    let crew = useful(workers, plan.pips().len());
    work_as(rt, alloc, plan, sources, crew, keeper, gate, cached)
}
