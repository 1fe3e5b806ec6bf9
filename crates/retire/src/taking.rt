//! What a process comes to: by the run in its slot, by what a store has for it, or else by its run here.
ghost use Rattle.std.specs.Prelude.{◌≡◌, ◌<◌, IfOk, IfSome, IsSome, IsTrue, MatchOption, length, option_map, slice_get};
ghost use Rattle.bx_tree.specs.Trees.{paths_of};
ghost use Rattle.pip_view_inputs.specs.Plain.{desc_of, process_in};
ghost use Rattle.pip_model_types.specs.declared.pip.ProcessDesc.{ProcessDesc as AnyProcess};
ghost use Rattle.pip_view.specs.Sees.{sees};
ghost use Rattle.run_record.specs.Facts.{IsRun, Sound};
ghost use Rattle.run_record.specs.Holding.{HoldsNow};
ghost use Rattle.two_phase.specs.Lookups.{IsCurrentHit};
ghost use Rattle.two_phase.specs.Reading.{ReadsIfAny, reader_data};
ghost use Rattle.two_phase_meaning.specs.Usable.{fits};
ghost use Rattle.retire.specs.Accepting.{IsAccepted};
ghost use Rattle.retire.specs.Counting.{one_fault};
ghost use Rattle.run_record.specs.Digests.{IsWeakOf};
ghost use Rattle.retire.specs.Taking.{IsOfNow, KeepsBy, SeeksBy, TakesBy, again_fault, seek_fault, way_of};

use crate::savable::Savable;
use bx_io::{Gate, KeepReader};
use bx_tree::Memory;
use memo_format::Found;
use observed::View;
use one_thread::Frame;
use pip_model_types::{Desc, ProcessDesc};
use pip_view::{Inputs, PipView, desc};
use pip_view_inputs::process_at;
use prints::{Printed, weak};
use run_record::{Record, Tools, execute_with};
use sched_board_slots::{Held, hit_holds, holds_now};
use std::alloc::{AllocError, Global};
use two_phase::{LookupResult, PathSets, Rechecked, lookup_by, recheck};

// How a pip came to its result.
#[derive(Clone, Copy, Debug, PartialEq, Eq)]
pub(crate) enum Way {
    // It is no process, or was skipped.
    Plain,
    // The run in its slot was accepted.
    Accepted,
    // What the store has for it was taken.
    Hit,
    // It ran here, as the store has nothing usable for it, or none is used.
    Ran,
    // It ran here, as the lookup failed.
    Faulted,
}

// What a process takes that is not skipped.
#[derive(Drop)]
pub(crate) enum Taken {
    // The run in its slot, which holds now.
    Accepted(Record),
    // What the store has for it.
    Hit(Found),
    // Its run, as the store has nothing usable, or none is used.
    Missed(Savable),
    // Its run, as the lookup failed.
    Faulted(Savable),
}

// What a lookup comes to, with the weak text that it was by.
#[derive(Drop)]
enum Sought {
    Unused,
    Hit(Found),
    Miss(Printed),
    Fault(Printed),
}

// What was found of a hit in a slot: that it is of now and the store still has it, or not, or that the reader failed.
#[derive(Clone, Copy, Debug, PartialEq, Eq)]
enum Again {
    Kept,
    Changed,
    Faulted,
}

// The run in a slot, if it is one and holds now.
fn accepted<G: Gate>(
    frame: &Frame<'_, G>,
    pip: u32,
    inputs: &Inputs,
    slot: Held,
) -> Result<Option<Record>, Memory>
    requires process { IsSome (process_in (slice_get frame.now.plan.now.pips pip)) }
    requires pip { pip < length frame.now.plan.now.pips }
    ensures { IfOk result (λ found. IfSome (process_in (slice_get frame.now.plan.now.pips pip))
        (λ (process : AnyProcess). MatchOption found
        (IsAccepted (desc_of frame.now.sources.now inputs.now frame.now.plan.now.tool_budget process)
        (sees frame.now.plan.now.pips frame.now.sources.now inputs.now pip) slot → ⊥)
        (λ ran. (slot ≡ Held.Ran ran) × Sound ran
        × HoldsNow (desc_of frame.now.sources.now inputs.now frame.now.plan.now.tool_budget process)
        (sees frame.now.plan.now.pips frame.now.sources.now inputs.now pip) ran))) }
{
    let Held::Ran(ran) = slot else {
        return Ok(None);
    };
    let _sound = ran.desc();
    let holds = holds_now(frame.alloc, frame.plan, frame.sources, pip, inputs, &ran)?;
    if holds {
        return Ok(Some(ran));
    }
    Ok(None)
}

// What a reader has for a process, if there is one.
fn seek<R: KeepReader, V: View>(
    alloc: Global,
    reader: &mut Option<R>,
    desc: &Desc,
    view: &mut V,
) -> Result<Sought, Memory>
    ensures sought { IfOk result (SeeksBy
        (option_map (λ r. reader_data (R.held r) (R.bound r) (R.faults r)) reader.new)
        desc.now (V.answers view.old)) }
    ensures meaning { V.answers view.new ≡ V.answers view.old }
    ensures reader { IfOk result (λ sought. ReadsIfAny
        (option_map (λ r. reader_data (R.held r) (R.bound r) (R.faults r)) reader.old)
        (option_map (λ r. reader_data (R.held r) (R.bound r) (R.faults r)) reader.new) (seek_fault sought)) }
{
    let Some(reader) = reader else {
        return Ok(Sought::Unused);
    };
    let weak = weak(alloc, desc)?;
    let mut sets = PathSets::new(alloc);
    match lookup_by(alloc, reader, &mut sets, desc, &weak.digest, view) {
        LookupResult::Hit(found) => Ok(Sought::Hit(found)),
        LookupResult::Miss => Ok(Sought::Miss(weak)),
        LookupResult::Fault => Ok(Sought::Fault(weak)),
        LookupResult::Memory => Err(AllocError),
    }
}

// The run of a process on a view.
fn run_on<V: View, G: Gate>(
    frame: &Frame<'_, G>,
    tools: &mut Tools,
    desc: Desc,
    pip: u32,
    view: &mut V,
    weak: Option<Printed>,
) -> Result<Savable, Memory>
    requires { IfSome weak (IsWeakOf desc) }
    ensures ran { IfOk result (λ ran. IsRun ran desc (V.answers view.old)) }
    ensures sound { IfOk result Sound }
{
    let ran = execute_with(frame.alloc, tools, desc, pip, view, frame.gate)?;
    let _sound = ran.desc();
    Ok(Savable::of(ran, weak))
}

// What a store has for a process, or else its run.
fn found_or_run<R: KeepReader, G: Gate>(
    frame: &Frame<'_, G>,
    reader: &mut Option<R>,
    tools: &mut Tools,
    pip: u32,
    inputs: &Inputs,
) -> Result<Taken, Memory>
    requires process { IsSome (process_in (slice_get frame.now.plan.now.pips pip)) }
    requires pip { pip < length frame.now.plan.now.pips }
    ensures taken { IfOk result (λ taken. IfSome (process_in (slice_get frame.now.plan.now.pips pip))
        (λ (process : AnyProcess). TakesBy
        (option_map (λ r. reader_data (R.held r) (R.bound r) (R.faults r)) reader.new)
        (desc_of frame.now.sources.now inputs.now frame.now.plan.now.tool_budget process)
        (sees frame.now.plan.now.pips frame.now.sources.now inputs.now pip) taken)) }
    ensures now { IfOk result (λ taken. IfSome (process_in (slice_get frame.now.plan.now.pips pip))
        (λ (process : AnyProcess). IsOfNow
        (desc_of frame.now.sources.now inputs.now frame.now.plan.now.tool_budget process)
        (sees frame.now.plan.now.pips frame.now.sources.now inputs.now pip) Held.Empty taken)) }
    ensures reader { IfOk result (λ taken. ReadsIfAny
        (option_map (λ r. reader_data (R.held r) (R.bound r) (R.faults r)) reader.old)
        (option_map (λ r. reader_data (R.held r) (R.bound r) (R.faults r)) reader.new)
        (one_fault (way_of taken))) }
{
    let described = desc(frame.alloc, frame.plan, frame.sources, pip, inputs)?;
    let mut view = PipView::new(frame.alloc, frame.plan, frame.sources, pip, inputs)?;
    let sought = seek(frame.alloc, reader, &described, &mut view)?;
    match sought {
        Sought::Hit(found) => Ok(Taken::Hit(found)),
        Sought::Unused => {
            let ran = run_on(frame, tools, described, pip, &mut view, None)?;
            Ok(Taken::Missed(ran))
        }
        Sought::Miss(weak) => {
            let ran = run_on(frame, tools, described, pip, &mut view, Some(weak))?;
            Ok(Taken::Missed(ran))
        }
        Sought::Fault(weak) => {
            let ran = run_on(frame, tools, described, pip, &mut view, Some(weak))?;
            Ok(Taken::Faulted(ran))
        }
    }
}

// ## Hits in slots

// Whether a reader, if there is one, still has what was found, with files that a process may make.
fn recheck_by<R: KeepReader>(
    alloc: Global,
    reader: &mut Option<R>,
    process: &ProcessDesc,
    found: &Found,
) -> Result<Again, Memory>
    ensures kept { IfOk result (λ again. again ≡ Again.Kept → KeepsBy
        (option_map (λ r. reader_data (R.held r) (R.bound r) (R.faults r)) reader.new) found.now) }
    ensures fit { IfOk result (λ again. again ≡ Again.Kept → IsTrue (fits process.now (paths_of found.now.made))) }
    ensures reader { IfOk result (λ again. ReadsIfAny
        (option_map (λ r. reader_data (R.held r) (R.bound r) (R.faults r)) reader.old)
        (option_map (λ r. reader_data (R.held r) (R.bound r) (R.faults r)) reader.new) (again_fault again)) }
{
    let Some(reader) = reader else {
        return Ok(Again::Changed);
    };
    match recheck(alloc, reader, process, found) {
        Rechecked::Kept => Ok(Again::Kept),
        Rechecked::Changed => Ok(Again::Changed),
        Rechecked::Fault => Ok(Again::Faulted),
        Rechecked::Memory => Err(AllocError),
    }
}

// Whether a hit in the slot of a process is of now, byte by byte, and the store still has it. Its strong text is not written again.
fn found_again<R: KeepReader, G: Gate>(
    frame: &Frame<'_, G>,
    reader: &mut Option<R>,
    pip: u32,
    inputs: &Inputs,
    found: &Found,
) -> Result<Again, Memory>
    requires process { IsSome (process_in (slice_get frame.now.plan.now.pips pip)) }
    requires pip { pip < length frame.now.plan.now.pips }
    ensures taken { IfOk result (λ again. again ≡ Again.Kept → IfSome (process_in (slice_get frame.now.plan.now.pips pip))
        (λ (process : AnyProcess). TakesBy
        (option_map (λ r. reader_data (R.held r) (R.bound r) (R.faults r)) reader.new)
        (desc_of frame.now.sources.now inputs.now frame.now.plan.now.tool_budget process)
        (sees frame.now.plan.now.pips frame.now.sources.now inputs.now pip) (Taken.Hit found.now))) }
    ensures now { IfOk result (λ again. again ≡ Again.Kept → IfSome (process_in (slice_get frame.now.plan.now.pips pip))
        (λ (process : AnyProcess). IsCurrentHit
        (desc_of frame.now.sources.now inputs.now frame.now.plan.now.tool_budget process)
        (sees frame.now.plan.now.pips frame.now.sources.now inputs.now pip) found.now)) }
    ensures reader { IfOk result (λ again. ReadsIfAny
        (option_map (λ r. reader_data (R.held r) (R.bound r) (R.faults r)) reader.old)
        (option_map (λ r. reader_data (R.held r) (R.bound r) (R.faults r)) reader.new) (again_fault again)) }
{
    let Some(process) = process_at(frame.plan.pips(), pip) else {
        unreachable!()
    };
    let _kept = found.entry();
    let holds = hit_holds(frame.alloc, frame.plan, frame.sources, pip, inputs, found)?;
    if !holds {
        return Ok(Again::Changed);
    }
    recheck_by(frame.alloc, reader, process, found)
}

// The run of a process.
fn run_here<G: Gate>(
    frame: &Frame<'_, G>,
    tools: &mut Tools,
    pip: u32,
    inputs: &Inputs,
) -> Result<Savable, Memory>
    requires process { IsSome (process_in (slice_get frame.now.plan.now.pips pip)) }
    requires pip { pip < length frame.now.plan.now.pips }
    ensures ran { IfOk result (λ ran. IfSome (process_in (slice_get frame.now.plan.now.pips pip))
        (λ (process : AnyProcess). IsRun ran
        (desc_of frame.now.sources.now inputs.now frame.now.plan.now.tool_budget process)
        (sees frame.now.plan.now.pips frame.now.sources.now inputs.now pip))) }
    ensures sound { IfOk result Sound }
{
    let described = desc(frame.alloc, frame.plan, frame.sources, pip, inputs)?;
    let mut view = PipView::new(frame.alloc, frame.plan, frame.sources, pip, inputs)?;
    run_on(frame, tools, described, pip, &mut view, None)
}

// A hit in the slot of a process, where it is of now and the store still has it; or what the store has for the process; or else
// its run.
fn taken_hit<R: KeepReader, G: Gate>(
    frame: &Frame<'_, G>,
    reader: &mut Option<R>,
    tools: &mut Tools,
    pip: u32,
    inputs: &Inputs,
    found: Found,
) -> Result<Taken, Memory>
    requires process { IsSome (process_in (slice_get frame.now.plan.now.pips pip)) }
    requires pip { pip < length frame.now.plan.now.pips }
    ensures taken { IfOk result (λ taken. IfSome (process_in (slice_get frame.now.plan.now.pips pip))
        (λ (process : AnyProcess). TakesBy
        (option_map (λ r. reader_data (R.held r) (R.bound r) (R.faults r)) reader.new)
        (desc_of frame.now.sources.now inputs.now frame.now.plan.now.tool_budget process)
        (sees frame.now.plan.now.pips frame.now.sources.now inputs.now pip) taken)) }
    ensures now { IfOk result (λ taken. IfSome (process_in (slice_get frame.now.plan.now.pips pip))
        (λ (process : AnyProcess). IsOfNow
        (desc_of frame.now.sources.now inputs.now frame.now.plan.now.tool_budget process)
        (sees frame.now.plan.now.pips frame.now.sources.now inputs.now pip) (Held.Hit found) taken)) }
    ensures reader { IfOk result (λ taken. ReadsIfAny
        (option_map (λ r. reader_data (R.held r) (R.bound r) (R.faults r)) reader.old)
        (option_map (λ r. reader_data (R.held r) (R.bound r) (R.faults r)) reader.new)
        (one_fault (way_of taken))) }
{
    let again = found_again(frame, reader, pip, inputs, &found)?;
    match again {
        Again::Kept => Ok(Taken::Hit(found)),
        Again::Changed => found_or_run(frame, reader, tools, pip, inputs),
        Again::Faulted => {
            let ran = run_here(frame, tools, pip, inputs)?;
            Ok(Taken::Faulted(ran))
        }
    }
}

// ## Slots

// The run in the slot of a process, if it holds now; or what the store has for the process; or else its run.
fn taken_else<R: KeepReader, G: Gate>(
    frame: &Frame<'_, G>,
    reader: &mut Option<R>,
    tools: &mut Tools,
    pip: u32,
    inputs: &Inputs,
    slot: Held,
) -> Result<Taken, Memory>
    requires process { IsSome (process_in (slice_get frame.now.plan.now.pips pip)) }
    requires pip { pip < length frame.now.plan.now.pips }
    ensures taken { IfOk result (λ taken. IfSome (process_in (slice_get frame.now.plan.now.pips pip))
        (λ (process : AnyProcess). TakesBy
        (option_map (λ r. reader_data (R.held r) (R.bound r) (R.faults r)) reader.new)
        (desc_of frame.now.sources.now inputs.now frame.now.plan.now.tool_budget process)
        (sees frame.now.plan.now.pips frame.now.sources.now inputs.now pip) taken)) }
    ensures now { IfOk result (λ taken. IfSome (process_in (slice_get frame.now.plan.now.pips pip))
        (λ (process : AnyProcess). IsOfNow
        (desc_of frame.now.sources.now inputs.now frame.now.plan.now.tool_budget process)
        (sees frame.now.plan.now.pips frame.now.sources.now inputs.now pip) slot taken)) }
    ensures reader { IfOk result (λ taken. ReadsIfAny
        (option_map (λ r. reader_data (R.held r) (R.bound r) (R.faults r)) reader.old)
        (option_map (λ r. reader_data (R.held r) (R.bound r) (R.faults r)) reader.new)
        (one_fault (way_of taken))) }
{
    if let Some(ran) = accepted(frame, pip, inputs, slot)? {
        return Ok(Taken::Accepted(ran));
    }
    found_or_run(frame, reader, tools, pip, inputs)
}

// What is in the slot of a process, where it is of now: its run, or what the store has for it; or what the store has for it
// elsewhere; or else its run here.
pub(crate) fn taken_for<R: KeepReader, G: Gate>(
    frame: &Frame<'_, G>,
    reader: &mut Option<R>,
    tools: &mut Tools,
    pip: u32,
    inputs: &Inputs,
    slot: Held,
) -> Result<Taken, Memory>
    requires process { IsSome (process_in (slice_get frame.now.plan.now.pips pip)) }
    requires pip { pip < length frame.now.plan.now.pips }
    ensures taken { IfOk result (λ taken. IfSome (process_in (slice_get frame.now.plan.now.pips pip))
        (λ (process : AnyProcess). TakesBy
        (option_map (λ r. reader_data (R.held r) (R.bound r) (R.faults r)) reader.new)
        (desc_of frame.now.sources.now inputs.now frame.now.plan.now.tool_budget process)
        (sees frame.now.plan.now.pips frame.now.sources.now inputs.now pip) taken)) }
    ensures now { IfOk result (λ taken. IfSome (process_in (slice_get frame.now.plan.now.pips pip))
        (λ (process : AnyProcess). IsOfNow
        (desc_of frame.now.sources.now inputs.now frame.now.plan.now.tool_budget process)
        (sees frame.now.plan.now.pips frame.now.sources.now inputs.now pip) slot taken)) }
    ensures reader { IfOk result (λ taken. ReadsIfAny
        (option_map (λ r. reader_data (R.held r) (R.bound r) (R.faults r)) reader.old)
        (option_map (λ r. reader_data (R.held r) (R.bound r) (R.faults r)) reader.new)
        (one_fault (way_of taken))) }
{
    match slot {
        Held::Hit(found) => taken_hit(frame, reader, tools, pip, inputs, found),
        other => taken_else(frame, reader, tools, pip, inputs, other),
    }
}
