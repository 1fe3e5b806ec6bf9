//! What is left of a board when all workers are done.
ghost use Rattle.std.specs.Prelude.{◌≡◌, [], IfOk, replicate};

use crate::held::Held;
use bx_tree::Memory;
use sched_core::Event;
use std::alloc::Global;

/// What is left of a board when all workers are done: all events, in order, and the slot of each pip.
#[derive(Drop)]
pub struct Finished {
    pub history: Vec<Event>,
    pub slots: Vec<Held>,
}

/// A slot for each of so many pips, of which nothing is known.
pub fn empty_slots(alloc: Global, pips: usize) -> Result<Vec<Held>, Memory>
    ensures { IfOk result (λ slots. slots.items ≡ replicate pips Held.Empty) }
{
    let mut slots = Vec::new(alloc);
    'pips: for _ in 0..pips {
        slots.push(Held::Empty)?;
    }
    Ok(slots)
}

impl Finished {
    /// What is left where no worker did anything: each pip has a slot, and nothing is in them.
    pub fn empty(alloc: Global, pips: usize) -> Result<Finished, Memory>
        ensures history { IfOk result (λ finished. finished.history.items ≡ []) }
        ensures slots { IfOk result (λ finished. finished.slots.items ≡ replicate pips Held.Empty) }
    {
        Ok(Finished {
            history: Vec::new(alloc),
            slots: empty_slots(alloc, pips)?,
        })
    }
}
