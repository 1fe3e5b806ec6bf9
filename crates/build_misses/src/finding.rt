//! Going through a build without saving anything.
ghost use Rattle.std.specs.Prelude.{◌≡◌, ◌≢◌, ◌++◌, ◌∷◌, ◌<◌, ◌≤◌, [], ℕ, Err, IfOk, IfSome, IsSome, List, Ok, OnOk, Some, is_some, length, map, slice_get, take};
ghost use Rattle.bx_io.specs.Holdings.{Holdings};
ghost use Rattle.bx_tree.specs.Paths.{Atoms};
ghost use Rattle.two_phase.specs.Calls.{ReaderCall};
ghost use Rattle.pip_model_types.specs.declared.pip.ProcessDesc.{ProcessDesc as AnyProcess};
ghost use Rattle.pip_view_inputs.specs.Plain.{desc_of, process_in};
ghost use Rattle.pip_view.specs.Sees.{sees};
ghost use Rattle.violations.specs.Slots.{slot_files};
ghost use Rattle.violations.specs.DoubleWrites.{outdirs_in, shared_paths};
ghost use Rattle.one_thread.specs.OneThread.{by_outcome};
ghost use Rattle.one_thread.specs.Shared.{KeepsShared, all_shared};
ghost use Rattle.one_thread.specs.Views.{Agrees, ended_result};
ghost use Rattle.retire.specs.Builds.{IsFair};
ghost use Rattle.build_misses.specs.Going.{EndsAt, outcome_in, reason_in};
ghost use Rattle.build_misses.specs.MissSet.{IsMissSet};
ghost use Rattle.retire.specs.Over.{ProcessOver, RunsOver, no_slot};
ghost use Rattle.build_misses.specs.Reasoned.{AreReasoned, WhyAt, miss_if};
ghost use Rattle.build_misses.specs.declared.finding.Miss.{Miss as AnyMiss};

use crate::laws::{fair_misses, reasoned_run};
use crate::taking::{Taken, taken_for};
use bx_io::{Gate, KeepReader};
use bx_tree::Memory;
use miss_reasons::{Known, ReadFault, Reason};
use one_thread::{Frame, PipResult, SharedFiles, Started, after_outcome, after_success, start};
use pip_model::{Plan, Slot, Sources};
use pip_view::Inputs;
use std::alloc::Global;
use violations::Verdict;

/// A process that would run, and why.
#[derive(Drop)]
pub struct Miss {
    pub pip: u32,
    pub reason: Reason,
}

// What a pip comes to, and, if it is a process that runs, why.
#[derive(Drop)]
struct Next {
    ended: PipResult,
    reason: Option<Reason>,
}

// What the pips so far came to, what they made in shared directories, and which of them run.
#[derive(Drop)]
struct Gone {
    verdicts: Vec<Verdict>,
    slots: Vec<Slot>,
    shared: SharedFiles,
    misses: Vec<Miss>,
}

// What a process comes to by what it takes.
fn process_result<G: Gate>(
    frame: &Frame<'_, G>,
    pip: u32,
    slots: &[Slot],
    shared: &SharedFiles,
    taken: &Taken,
) -> Result<PipResult, Memory>
    requires pip { pip < length frame.now.plan.now.pips }
    requires slots { pip ≤ length slots.now }
    requires shared { KeepsShared shared.now.files shared.now.dirs
        (all_shared (take pip frame.now.plan.now.pips) (map slot_files slots.now)) }
    ensures result { IfOk result (λ ended. ended_result ended ≡ by_outcome frame.now.plan.now.pips
        frame.now.sources.now (map slot_files slots.now) pip (outcome_in taken.now)) }
    ensures agrees { IfOk result Agrees }
{
    match taken {
        Taken::Hit(found) => after_success(frame, pip, slots, shared, found.made()),
        Taken::Missed(ran, _) => after_outcome(frame, pip, slots, shared, ran.outcome()),
    }
}

// That with the reason.
fn with_reason(ended: PipResult, taken: Taken) -> Next
    ensures ended { result.ended ≡ ended }
    ensures reason { result.reason ≡ reason_in taken }
{
    match taken {
        Taken::Hit(_) => Next {
            ended,
            reason: None,
        },
        Taken::Missed(_, reason) => Next {
            ended,
            reason: Some(reason),
        },
    }
}

fn next_of(ended: Result<PipResult, Memory>, taken: Taken) -> Result<Next, ReadFault>
    ensures ended { IfOk result (λ next. ended ≡ Ok next.ended) }
    ensures reason { IfOk result (λ next. next.reason ≡ reason_in taken) }
    ensures no_fault { result ≢ Err ReadFault.Failed }
{
    match ended {
        Ok(ended) => Ok(with_reason(ended, taken)),
        Err(_) => Err(ReadFault::Memory),
    }
}

// What a process comes to over what the reader holds.
fn go_process<R: KeepReader, G: Gate>(
    frame: &Frame<'_, G>,
    reader: &mut R,
    known: &mut Known,
    pip: u32,
    inputs: &Inputs,
    slots: &[Slot],
    shared: &SharedFiles,
) -> Result<Next, ReadFault>
    requires process { IsSome (process_in (slice_get frame.now.plan.now.pips pip)) }
    requires pip { pip < length frame.now.plan.now.pips }
    requires slots { pip ≤ length slots.now }
    requires shared { KeepsShared shared.now.files shared.now.dirs
        (all_shared (take pip frame.now.plan.now.pips) (map slot_files slots.now)) }
    ensures went { IfOk result (λ next. IfSome (process_in (slice_get frame.now.plan.now.pips pip))
        (λ (process : AnyProcess). (S : Holdings) → R.held reader.new ≡ Some S → ProcessOver frame.now.plan.now.pips
        frame.now.sources.now (map slot_files slots.now) pip S
        (desc_of frame.now.sources.now inputs.now frame.now.plan.now.tool_budget process)
        (sees frame.now.plan.now.pips frame.now.sources.now inputs.now pip) no_slot (ended_result next.ended)
        (is_some next.reason))) }
    ensures reason { IfOk result (λ next. IfSome (process_in (slice_get frame.now.plan.now.pips pip))
        (λ (process : AnyProcess). (S : Holdings) → R.held reader.new ≡ Some S → WhyAt S
        (desc_of frame.now.sources.now inputs.now frame.now.plan.now.tool_budget process)
        (sees frame.now.plan.now.pips frame.now.sources.now inputs.now pip) next.reason)) }
    ensures agrees { IfOk result (λ next. Agrees next.ended) }
    ensures reader { ReaderCall (R.held reader.old) (R.held reader.new) (R.bound reader.old) (R.bound reader.new)
        (R.faults reader.old) (R.faults reader.new) (result ≡ Err ReadFault.Failed) }
{
    let taken = taken_for(frame, reader, known, pip, inputs)?;
    let ended = process_result(frame, pip, slots, shared, &taken);
    next_of(ended, taken)
}

// What a pip comes to over what the reader holds.
fn go_on<R: KeepReader, G: Gate>(
    frame: &Frame<'_, G>,
    reader: &mut R,
    known: &mut Known,
    pip: u32,
    slots: &[Slot],
    shared: &SharedFiles,
) -> Result<Next, ReadFault>
    requires pip { pip < length frame.now.plan.now.pips }
    requires slots { pip ≤ length slots.now }
    requires shared { KeepsShared shared.now.files shared.now.dirs
        (all_shared (take pip frame.now.plan.now.pips) (map slot_files slots.now)) }
    ensures went { IfOk result (λ next. (S : Holdings) → R.held reader.new ≡ Some S → EndsAt frame.now.plan.now.pips
        frame.now.sources.now frame.now.plan.now.tool_budget S slots.now pip
        (slice_get frame.now.plan.now.pips pip) (ended_result next.ended) next.reason) }
    ensures agrees { IfOk result (λ next. Agrees next.ended) }
    ensures reader { ReaderCall (R.held reader.old) (R.held reader.new) (R.bound reader.old) (R.bound reader.new)
        (R.faults reader.old) (R.faults reader.new) (result ≡ Err ReadFault.Failed) }
{
    let started = start(frame, pip, slots)?;
    match started {
        Started::Done(ended) => Ok(Next {
            ended,
            reason: None,
        }),
        Started::Process(inputs) => {
            go_process(frame, reader, known, pip, &inputs, slots, shared)
        }
    }
}

fn add_miss(misses: &mut Vec<Miss>, pip: u32, reason: Option<Reason>) -> Result<(), Memory>
    ensures { OnOk result (misses.new.items ≡ misses.old.items ++ miss_if reason pip) }
{
    if let Some(reason) = reason {
        misses.push(Miss { pip, reason })?;
    }
    Ok(())
}

impl Gone {
    // No pips.
    fn none(alloc: Global) -> Gone
        ensures verdicts { result.verdicts.items ≡ [] }
        ensures slots { result.slots.items ≡ [] }
        ensures shared { KeepsShared result.shared.files result.shared.dirs [] }
        ensures misses { result.misses.items ≡ [] }
    {
        Gone {
            verdicts: Vec::new(alloc),
            slots: Vec::new(alloc),
            shared: SharedFiles::new(alloc),
            misses: Vec::new(alloc),
        }
    }

    // What one more pip came to, with this number.
    fn add_ended(
        &mut self,
        alloc: Global,
        plan: &Plan,
        pip: u32,
        ended: PipResult,
    ) -> Result<(), Memory>
        ensures verdicts { OnOk result (self.new.verdicts.items ≡ self.old.verdicts.items ++ ended.verdict ∷ []) }
        ensures slots { OnOk result (self.new.slots.items ≡ self.old.slots.items ++ ended.slot ∷ []) }
        ensures shared { OnOk result ((paths : List Atoms) → KeepsShared self.old.shared.files self.old.shared.dirs paths
            → KeepsShared self.new.shared.files self.new.shared.dirs
            (paths ++ shared_paths (outdirs_in (slice_get plan.now.pips pip)) (slot_files ended.slot))) }
        ensures misses { self.new.misses ≡ self.old.misses }
    {
        let PipResult { verdict, slot } = ended;
        self.shared.add_slot(alloc, plan, pip, &slot)?;
        self.verdicts.push(verdict)?;
        self.slots.push(slot)?;
        Ok(())
    }

    // One more pip, with this number.
    fn add(&mut self, alloc: Global, plan: &Plan, pip: u32, next: Next) -> Result<(), Memory>
        ensures verdicts { OnOk result (self.new.verdicts.items ≡ self.old.verdicts.items ++ next.ended.verdict ∷ []) }
        ensures slots { OnOk result (self.new.slots.items ≡ self.old.slots.items ++ next.ended.slot ∷ []) }
        ensures shared { OnOk result ((paths : List Atoms) → KeepsShared self.old.shared.files self.old.shared.dirs paths
            → KeepsShared self.new.shared.files self.new.shared.dirs
            (paths ++ shared_paths (outdirs_in (slice_get plan.now.pips pip)) (slot_files next.ended.slot))) }
        ensures misses { OnOk result (self.new.misses.items ≡ self.old.misses.items ++ miss_if next.reason pip) }
    {
        let Next { ended, reason } = next;
        add_miss(&mut self.misses, pip, reason)?;
        self.add_ended(alloc, plan, pip, ended)
    }

    // Those that run.
    fn into_misses(self) -> Vec<Miss>
        ensures { result.items ≡ self.misses.items }
    {
        let Gone { misses, .. } = self;
        misses
    }
}

// Goes through all pips, one after another.
fn go_through<R: KeepReader, G: Gate>(
    frame: &Frame<'_, G>,
    reader: &mut R,
    known: &mut Known,
) -> Result<Vec<Miss>, ReadFault>
    ensures reasoned { IfOk result (λ misses. (S : Holdings) → R.held reader.new ≡ Some S → AreReasoned
        frame.now.plan.now.pips frame.now.sources.now frame.now.plan.now.tool_budget S misses.items) }
    ensures reader { ReaderCall (R.held reader.old) (R.held reader.new) (R.bound reader.old) (R.bound reader.new)
        (R.faults reader.old) (R.faults reader.new) (result ≡ Err ReadFault.Failed) }
{
    let pips = frame.plan.pips();
    let mut gone = Gone::none(frame.alloc);
    'pips: for number in 0..pips.len() {
        let pip = number as u32;
        let slots = gone.slots.as_slice();
        let next = go_on(frame, reader, known, pip, slots, &gone.shared)?;
        gone.add(frame.alloc, frame.plan, pip, next)?;
    }
    Ok(gone.into_misses())
}

/// The processes that the next build of this plan over what the reader holds would run, by number, and why. Nothing is
/// written. Nearest descriptions are looked for among those that are held beside these names.
pub fn find_misses<R: KeepReader, G: Gate>(
    alloc: Global,
    plan: &Plan,
    sources: &Sources,
    reader: &mut R,
    names: Vec<String>,
    gate: &G,
) -> Result<Vec<Miss>, ReadFault>
    ensures over { IfOk result (λ misses. (S : Holdings) → R.held reader.new ≡ Some S → RunsOver plan.now.pips
        sources.now plan.now.tool_budget S (map (λ (miss : AnyMiss). miss.pip) misses.items)) }
    ensures reasons { IfOk result (λ misses. (S : Holdings) → R.held reader.new ≡ Some S → AreReasoned plan.now.pips
        sources.now plan.now.tool_budget S misses.items) }
    ensures fair { IfOk result (λ misses. (S : Holdings) → R.held reader.new ≡ Some S
        → IsFair plan.now.pips sources.now plan.now.tool_budget S → IsMissSet plan.now.pips sources.now
        plan.now.tool_budget S (map (λ (miss : AnyMiss). miss.pip) misses.items)) }
    ensures reader { ReaderCall (R.held reader.old) (R.held reader.new) (R.bound reader.old) (R.bound reader.new)
        (R.faults reader.old) (R.faults reader.new) (result ≡ Err ReadFault.Failed) }
{
    fair_misses();
    reasoned_run();
    let frame = Frame {
        alloc,
        plan,
        sources,
        gate,
    };
    let mut known = Known::new(names);
    go_through(&frame, reader, &mut known)
}
