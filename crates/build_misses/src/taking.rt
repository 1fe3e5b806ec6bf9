//! What a process comes to over a store: what is usable for it, or else its run, with the reason.
ghost use Rattle.std.specs.Prelude.{◌≡◌, ◌≢◌, ◌<◌, Err, IfOk, IfSome, IsSome, Some, is_some, length, slice_get};
ghost use Rattle.bx_io.specs.Holdings.{Holdings};
ghost use Rattle.pip_model_types.specs.declared.pip.ProcessDesc.{ProcessDesc as AnyProcess};
ghost use Rattle.pip_view_inputs.specs.Plain.{desc_of, process_in};
ghost use Rattle.pip_view.specs.Sees.{sees};
ghost use Rattle.two_phase_meaning.specs.Usable.{Usable};
ghost use Rattle.two_phase.specs.Calls.{ReaderCall};
ghost use Rattle.one_thread.specs.OneThread.{ran as run_of};
ghost use Rattle.build_misses.specs.Going.{outcome_in, reason_in};
ghost use Rattle.retire.specs.Over.{TakesOver, no_slot};
ghost use Rattle.build_misses.specs.Reasoned.{WhyAt};

use bx_io::{Gate, KeepReader};
use memo_format::Found;
use miss_reasons::{Known, ReadFault, Reason, reason_of};
use observed::View;
use one_thread::Frame;
use pip_model_types::Desc;
use pip_view::{Inputs, PipView, desc};
use run_record::{Record, execute};
use two_phase::{LookupResult, lookup};

// What a process takes that is not skipped.
#[derive(Drop)]
pub(crate) enum Taken {
    // What the store has for it.
    Hit(Found),
    // Its run, as the store has nothing usable, and why.
    Missed(Record, Reason),
}

// The run of a process with the reason.
fn run_for<V: View, G: Gate>(
    frame: &Frame<'_, G>,
    pip: u32,
    desc: Desc,
    view: &mut V,
    reason: Reason,
) -> Result<Taken, ReadFault>
    ensures outcome { IfOk result (λ taken. outcome_in taken ≡ run_of desc (V.answers view.old)) }
    ensures reason { IfOk result (λ taken. reason_in taken ≡ Some reason) }
    ensures no_fault { result ≢ Err ReadFault.Failed }
{
    match execute(frame.alloc, desc, pip, view, frame.gate) {
        Ok(ran) => Ok(Taken::Missed(ran, reason)),
        Err(_) => Err(ReadFault::Memory),
    }
}

// The run of a process for which nothing is usable, and why.
fn missed<R: KeepReader, V: View, G: Gate>(
    frame: &Frame<'_, G>,
    reader: &mut R,
    known: &mut Known,
    pip: u32,
    desc: Desc,
    view: &mut V,
) -> Result<Taken, ReadFault>
    requires unusable { (S : Holdings) → R.held reader.old ≡ Some S → Usable S desc (V.answers view.old) → ⊥ }
    ensures taken { IfOk result (λ taken. (S : Holdings) → R.held reader.new ≡ Some S → TakesOver S desc
        (V.answers view.old) no_slot (outcome_in taken) (is_some (reason_in taken))) }
    ensures reason { IfOk result (λ taken. (S : Holdings) → R.held reader.new ≡ Some S → WhyAt S desc
        (V.answers view.old) (reason_in taken)) }
    ensures reader { ReaderCall (R.held reader.old) (R.held reader.new) (R.bound reader.old) (R.bound reader.new)
        (R.faults reader.old) (R.faults reader.new) (result ≡ Err ReadFault.Failed) }
{
    let reason = reason_of(frame.alloc, reader, known, &desc, view)?;
    run_for(frame, pip, desc, view, reason)
}

// What a process takes on a view: a cached result, or else its run.
fn take<R: KeepReader, V: View, G: Gate>(
    frame: &Frame<'_, G>,
    reader: &mut R,
    known: &mut Known,
    pip: u32,
    desc: Desc,
    view: &mut V,
) -> Result<Taken, ReadFault>
    ensures taken { IfOk result (λ taken. (S : Holdings) → R.held reader.new ≡ Some S → TakesOver S desc
        (V.answers view.old) no_slot (outcome_in taken) (is_some (reason_in taken))) }
    ensures reason { IfOk result (λ taken. (S : Holdings) → R.held reader.new ≡ Some S → WhyAt S desc
        (V.answers view.old) (reason_in taken)) }
    ensures reader { ReaderCall (R.held reader.old) (R.held reader.new) (R.bound reader.old) (R.bound reader.new)
        (R.faults reader.old) (R.faults reader.new) (result ≡ Err ReadFault.Failed) }
{
    match lookup(frame.alloc, reader, &desc, view) {
        LookupResult::Hit(found) => Ok(Taken::Hit(found)),
        LookupResult::Miss => missed(frame, reader, known, pip, desc, view),
        LookupResult::Fault => Err(ReadFault::Failed),
        LookupResult::Memory => Err(ReadFault::Memory),
    }
}

// A cached result of a process, or else its run.
pub(crate) fn taken_for<R: KeepReader, G: Gate>(
    frame: &Frame<'_, G>,
    reader: &mut R,
    known: &mut Known,
    pip: u32,
    inputs: &Inputs,
) -> Result<Taken, ReadFault>
    requires process { IsSome (process_in (slice_get frame.now.plan.now.pips pip)) }
    requires pip { pip < length frame.now.plan.now.pips }
    ensures taken { IfOk result (λ taken. IfSome (process_in (slice_get frame.now.plan.now.pips pip))
        (λ (process : AnyProcess). (S : Holdings) → R.held reader.new ≡ Some S → TakesOver S
        (desc_of frame.now.sources.now inputs.now frame.now.plan.now.tool_budget process)
        (sees frame.now.plan.now.pips frame.now.sources.now inputs.now pip) no_slot (outcome_in taken)
        (is_some (reason_in taken)))) }
    ensures reason { IfOk result (λ taken. IfSome (process_in (slice_get frame.now.plan.now.pips pip))
        (λ (process : AnyProcess). (S : Holdings) → R.held reader.new ≡ Some S → WhyAt S
        (desc_of frame.now.sources.now inputs.now frame.now.plan.now.tool_budget process)
        (sees frame.now.plan.now.pips frame.now.sources.now inputs.now pip) (reason_in taken))) }
    ensures reader { ReaderCall (R.held reader.old) (R.held reader.new) (R.bound reader.old) (R.bound reader.new)
        (R.faults reader.old) (R.faults reader.new) (result ≡ Err ReadFault.Failed) }
{
    let described = desc(frame.alloc, frame.plan, frame.sources, pip, inputs)?;
    let mut view = PipView::new(frame.alloc, frame.plan, frame.sources, pip, inputs)?;
    take(frame, reader, known, pip, described, &mut view)
}
