//! New boards.
ghost use Rattle.std.specs.Prelude.{◌≡◌, ◌<◌, ◌≤◌, [], All, IfOk, map};
ghost use Rattle.std.specs.List.{range_with_len};
ghost use Rattle.std.specs.Arc.{arc_value};
ghost use Rattle.std.specs.Vec.{vec_len};
ghost use Rattle.sched_core.specs.Legal.{initial_state};
ghost use Rattle.sched_board.specs.Board.{IsBoard, new_share};

use crate::board::Board;
use crate::tokens::Share;
use bx_tree::Memory;
use pip_model::{Plan, Sources};
use sched_board_slots::{empty_slots, graph_of};
use sched_core::{Core, Event, MAX_WORKERS};
use std::alloc::Global;
use std::sync::ledger::{Book, Ledger};
use std::sync::{Arc, ledger};

/// The books of two new ledgers, of events and of marks, with one part of each for each worker.
#[derive(Drop)]
pub struct Blank<L: Ledger, E: Ledger> {
    pub events: Book<L>,
    pub event_parts: Vec<ledger::Share<L>>,
    pub marks: Book<E>,
    pub mark_parts: Vec<ledger::Share<E>>,
}

/// A new board, with the shares of its workers by their numbers.
#[derive(Drop)]
pub struct NewBoard<L: Ledger, E: Ledger> {
    pub board: Board<L, E>,
    pub shares: Vec<Share<L, E>>,
}

// The shares of all workers, by number.
fn shares_of<L: Ledger, E: Ledger>(
    alloc: Global,
    workers: u32,
    event_parts: Vec<ledger::Share<L>>,
    mark_parts: Vec<ledger::Share<E>>,
) -> Result<Vec<Share<L, E>>, Memory>
    requires parts { (vec_len event_parts ≡ workers) × (vec_len mark_parts ≡ workers) }
    requires events { All (λ s. (s.parts ≡ 1) × (s.amount ≡ 0)) event_parts.items }
    requires marks { All (λ s. (s.parts ≡ 1) × (s.amount ≡ 0)) mark_parts.items }
    ensures { IfOk result (λ shares. shares.items ≡ map new_share (range_with_len 0 workers)) }
{
    let mut event_parts = event_parts;
    let mut mark_parts = mark_parts;
    let mut shares = Vec::new(alloc);
    'workers: for worker in 0..workers {
        let Some(event) = event_parts.pop() else {
            unreachable!()
        };
        let Some(mark) = mark_parts.pop() else {
            unreachable!()
        };
        shares.push(Share::new(worker, event, mark))?;
    }
    Ok(shares)
}

impl<L: Ledger, E: Ledger> Board<L, E> {
    /// A board on which all pips wait and no worker has left. It reserves a slot for each pip, and room for each event
    /// that a legal history can have: four a pip and three a worker.
    pub fn new(
        alloc: Global,
        blank: Blank<L, E>,
        plan: Arc<Plan>,
        sources: Arc<Sources>,
        workers: u32,
    ) -> Result<NewBoard<L, E>, Memory>
        requires workers { (0 < workers) × (workers ≤ MAX_WORKERS) }
        requires whole { (L.parts ≡ workers) × (E.parts ≡ workers) }
        requires parts { (vec_len blank.event_parts ≡ workers) × (vec_len blank.mark_parts ≡ workers) }
        requires events { All (λ s. (s.parts ≡ 1) × (s.amount ≡ 0)) blank.event_parts.items }
        requires marks { All (λ s. (s.parts ≡ 1) × (s.amount ≡ 0)) blank.mark_parts.items }
        requires totals { (blank.events.total ≡ 0) × (blank.marks.total ≡ 0) }
        ensures plan { IfOk result (λ made. made.board.plan ≡ arc_value plan) }
        ensures sources { IfOk result (λ made. made.board.sources ≡ arc_value sources) }
        ensures core { IfOk result (λ made. made.board.core ≡ initial_state made.board.core.nodes workers) }
        ensures board { IfOk result (λ made. IsBoard made.board) }
        ensures history { IfOk result (λ made. made.board.history ≡ []) }
        ensures shares { IfOk result (λ made. made.shares.items ≡ map new_share (range_with_len 0 workers)) }
    {
        let Blank {
            events,
            event_parts,
            marks,
            mark_parts,
        } = blank;
        let graph = graph_of(alloc, &*plan)?;
        let pips = graph.nodes().len();
        let core = Core::new(alloc, graph, workers)?;
        let room = 4 * pips + 3 * workers as usize;
        let history: Vec<Event> = Vec::with_capacity(alloc, room)?;
        let slots = empty_slots(alloc, pips)?;
        let shares = shares_of(alloc, workers, event_parts, mark_parts)?;
        let board = Board {
            plan,
            sources,
            core,
            history,
            slots,
            events,
            marks,
        };
        Ok(NewBoard { board, shares })
    }
}
