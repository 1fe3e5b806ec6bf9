//! New boards.
ghost use Rattle.std.specs.Prelude.{◌≡◌, ◌<◌, ◌≤◌, All, IfOk};
ghost use Rattle.std.specs.Vec.{vec_len};

use bx_tree::Memory;
use pip_model::{Plan, Sources};
use sched_board::{Blank, Board, NewBoard};
use sched_core::MAX_WORKERS;
use std::alloc::Global;
use std::sync::ledger::Ledger;
use std::sync::{Arc, ledger};

// One part of a ledger for each worker.
fn parts_of<L: Ledger>(
    alloc: Global,
    whole: ledger::Share<L>,
    workers: u32,
) -> Result<Vec<ledger::Share<L>>, Memory>
    requires { (whole.parts ≡ workers) × (whole.amount ≡ 0) }
    ensures { IfOk result (λ parts. (vec_len parts ≡ workers)
        × All (λ s. (s.parts ≡ 1) × (s.amount ≡ 0)) parts.items) }
{
    let mut whole = whole;
    let mut parts = Vec::new(alloc);
    'parts: for _ in 0..workers {
        parts.push(whole.split_off(1, 0))?;
    }
    Ok(parts)
}

// A board of a plan, with the shares of its workers.
pub(crate) fn board_for<L: Ledger, E: Ledger>(
    alloc: Global,
    plan: Arc<Plan>,
    sources: Arc<Sources>,
    workers: u32,
    events: ledger::Blank,
    marks: ledger::Blank,
) -> Result<NewBoard<L, E>, Memory>
    requires workers { (0 < workers) × (workers ≤ MAX_WORKERS) }
    requires events { (events.name ≡ L.name) × (events.parts ≡ L.parts) × (L.parts ≡ workers) }
    requires marks { (marks.name ≡ E.name) × (marks.parts ≡ E.parts) × (E.parts ≡ workers) }
{
    let (events, whole) = events.open::<L>();
    let event_parts = parts_of(alloc, whole, workers)?;
    let (marks, whole) = marks.open::<E>();
    let mark_parts = parts_of(alloc, whole, workers)?;
    let blank = Blank {
        events,
        event_parts,
        marks,
        mark_parts,
    };
    Ok(Board::new(alloc, blank, plan, sources, workers)?)
}
