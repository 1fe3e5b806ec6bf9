//! Slots as workers may leave them, and as they never do.
ghost use Rattle.std.specs.Prelude.{◌≡◌, ◌<◌, ◌≤◌, is_some, length, slice_get};
ghost use Rattle.pip_view_inputs.specs.Plain.{process_in};

use bx_io::OpenGate;
use one_thread::build_all;
use pip_model::{Plan, Slot, Sources};
use pip_view::PipView;
use pip_view_inputs::{Inputs, desc, process_at};
use run_record::execute;
use sched_board_slots::{Held, empty_slots};
use std::alloc::{AllocError, Global};

/// What fills the slots of a plan.
#[derive(Clone, Copy, Debug)]
pub enum Filled {
    /// The run of each process.
    Each,
    /// The same, each in the slot of the next pip.
    Turned,
    /// Nothing.
    Never,
}

// Whether a pip is a process.
fn is_process(plan: &Plan, pip: u32) -> bool
    ensures { result ≡ is_some (process_in (slice_get plan.now.pips pip)) }
{
    process_at(plan.pips(), pip).is_some()
}

// The run of a process over what the pips before it made; nothing for a pip of another kind.
fn ran_slot(
    alloc: Global,
    plan: &Plan,
    sources: &Sources,
    pip: u32,
    built: &[Slot],
) -> Result<Held, AllocError>
    requires there { pip < length plan.now.pips }
    requires slots { pip ≤ length built.now }
{
    if !is_process(plan, pip) {
        return Ok(Held::Empty);
    }
    let inputs = Inputs::of(alloc, plan, pip, built)?;
    let own = desc(alloc, plan, sources, pip, &inputs)?;
    let mut view = PipView::new(alloc, plan, sources, pip, &inputs)?;
    Ok(Held::Ran(execute(alloc, own, pip, &mut view, &OpenGate)?))
}

// The runs of all processes.
fn ran_slots(alloc: Global, plan: &Plan, sources: &Sources) -> Result<Vec<Held>, AllocError> {
    let built = build_all(alloc, plan, sources, &OpenGate)?;
    let made = built.slots.as_slice();
    let pips = plan.pips().len();
    let mut slots = Vec::new(alloc);
    if made.len() != pips {
        return Ok(slots);
    }
    'pips: for pip in 0..pips {
        slots.push(ran_slot(alloc, plan, sources, pip as u32, made)?)?;
    }
    Ok(slots)
}

/// The slots of the pips of a plan.
pub fn slots_for(
    alloc: Global,
    plan: &Plan,
    sources: &Sources,
    filled: Filled,
) -> Result<Vec<Held>, AllocError> {
    match filled {
        Filled::Each => ran_slots(alloc, plan, sources),
        Filled::Never => Ok(empty_slots(alloc, plan.pips().len())?),
        Filled::Turned => {
            let mut slots = ran_slots(alloc, plan, sources)?;
            if !slots.is_empty() {
                slots.rotate_right(1);
            }
            Ok(slots)
        }
    }
}
