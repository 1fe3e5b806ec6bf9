//! Graphs and events by chance.
ghost use Rattle.std.specs.Prelude.{◌<◌};

use crate::both::add;
use sched_core::{Event, Graph};
use std::alloc::{AllocError, Global};
use std::process::Abort;

// A number below a limit.
pub(crate) fn roll(dice: &mut u64, below: u32) -> u32
    requires { 0 < below }
    ensures { result < below }
{
    *dice = dice
        .wrapping_mul(6364136223846793005)
        .wrapping_add(1442695040888963407);
    ((*dice >> 33) as u32) % below
}

// Pips with up to three inputs each, the same for the same seed.
pub(crate) fn some_graph(
    rt: &impl Abort,
    alloc: Global,
    seed: u64,
    pips: u32,
) -> Result<Graph, AllocError> {
    let mut dice = seed;
    let mut graph = Graph::new(alloc);
    for pip in 0..pips {
        let mut inputs = Vec::new(alloc);
        if 0 < pip {
            for _ in 0..roll(&mut dice, 4) {
                inputs.push(roll(&mut dice, pip))?;
            }
        }
        let is_process = roll(&mut dice, 2) == 0;
        add(rt, alloc, &mut graph, is_process, inputs.as_slice())?;
    }
    Ok(graph)
}

// An event of one of these pips, by one of these workers. Few are releases.
pub(crate) fn some_event(dice: &mut u64, pips: u32, workers: u32) -> Event
    requires pips { 0 < pips }
    requires workers { 0 < workers }
{
    let pip = roll(dice, pips);
    let worker = roll(dice, workers);
    let chance = roll(dice, 64) == 0;
    match roll(dice, 500) {
        0 => Event::Release { pip, worker },
        1..=99 => Event::Start { pip, worker },
        100..=199 => Event::Looked {
            pip,
            worker,
            hit: chance,
        },
        200..=299 => Event::Publish {
            pip,
            worker,
            good: !chance,
        },
        300..=399 => Event::Complete { pip, worker },
        _ => Event::Skip { pip, worker },
    }
}
