//! What one pip comes to.
ghost use Rattle.std.specs.Prelude.{◌≡◌, ◌<◌, ◌≤◌, false, All, IfOk, IsSome, length, map, slice_get, take};
ghost use Rattle.std.specs.List.{list_all};
ghost use Rattle.violations.specs.Slots.{slot_files};
ghost use Rattle.pip_view_inputs.specs.Plain.{plain_at, process_in};
ghost use Rattle.violations.specs.Verdicts as ends;
ghost use Rattle.violations.specs.Classes.{class_of};
ghost use Rattle.violations.specs.DoubleWrites.{clash_at};
ghost use Rattle.one_thread.specs.OneThread as builds;
ghost use Rattle.one_thread.specs.Shared.{KeepsShared, all_shared};
ghost use Rattle.one_thread.specs.Views.{Agrees, ended_in, ended_result, good_at, good_in, is_good_slot};
ghost use Rattle.one_thread.specs.Views.{worked_in};
ghost use Rattle.one_thread.specs.Starting.{StartsAs};

use crate::shared::SharedFiles;
use bx_io::Gate;
use bx_tree::Memory;
use observed::{Access, End};
use pip_model::{Made, Plan, Slot, Sources};
use pip_view::{Inputs, PipView, desc, plain};
use pip_view_inputs::process_at;
use run_record::{Cause, Outcome, outcome_of_run};
use std::alloc::Global;
use violations::{Verdict, classify, double_write};

/// What a pip came to: its verdict, and its files if it succeeded.
#[derive(Drop)]
pub struct PipResult {
    pub verdict: Verdict,
    pub slot: Slot,
}

/// How a pip starts.
#[derive(Drop)]
pub enum Started {
    /// It needs no run, as it is skipped or no process: this is its result.
    Done(PipResult),
    /// It is a process that takes a run, or a cache hit: these are what the pips made for which it waits.
    Process(Inputs),
}

/// What all pips are built with.
#[derive(Clone, Copy)]
pub struct Frame<'a, G: Gate> {
    pub alloc: Global,
    pub plan: &'a Plan,
    pub sources: &'a Sources,
    pub gate: &'a G,
}

fn succeeded(made: Made) -> PipResult
    ensures result { ended_result result ≡ builds.succeeded made }
    ensures agrees { Agrees result }
{
    PipResult {
        verdict: Verdict::Succeeded,
        slot: Slot::Good(made),
    }
}

fn failed(verdict: Verdict) -> PipResult
    requires { ends.is_success verdict ≡ false }
    ensures result { ended_result result ≡ builds.failed verdict }
    ensures agrees { Agrees result }
{
    PipResult {
        verdict,
        slot: Slot::Bad,
    }
}

/// Whether the slot is that of a pip that succeeded.
pub fn is_good(slot: &Slot) -> bool
    ensures { result ≡ is_good_slot slot.now }
{
    match slot {
        Slot::Good(_) => true,
        Slot::Empty | Slot::Bad => false,
    }
}

// Whether each of these pips succeeded.
fn all_good(inputs: &[u32], slots: &[Slot]) -> bool
    requires { All (λ input. input < length slots.now) inputs.now }
    ensures { result ≡ list_all (λ j. good_in (slice_get slots.now j)) inputs.now }
{
    'inputs: for input in inputs {
        if !is_good(&slots[*input as usize]) {
            return false;
        }
    }
    true
}

// Whether each pip for which a pip waits succeeded.
fn inputs_are_good(plan: &Plan, pip: u32, slots: &[Slot]) -> bool
    requires pip { pip < length plan.now.pips }
    requires slots { pip ≤ length slots.now }
    ensures { result ≡ good_at plan.now.pips (slice_get plan.now.pips pip) slots.now }
{
    let inputs = plan.inputs(pip);
    all_good(inputs, slots)
}

// What a process comes to one of whose accesses was denied.
fn after_denial(
    plan: &Plan,
    sources: &Sources,
    pip: u32,
    access: &Access,
) -> Result<PipResult, Memory>
    requires { pip < length plan.now.pips }
    ensures result { IfOk result (λ ended. ended_result ended
        ≡ builds.violated (class_of plan.now.pips sources.now pip access.now)) }
    ensures agrees { IfOk result Agrees }
{
    let violation = classify(plan, sources, pip, access)?;
    match violation {
        Some(violation) => Ok(failed(Verdict::Violated(violation))),
        None => Ok(failed(Verdict::Tool(End::Denied))),
    }
}

// What a process comes to that failed.
fn after_failure(
    plan: &Plan,
    sources: &Sources,
    pip: u32,
    cause: &Cause,
) -> Result<PipResult, Memory>
    requires { pip < length plan.now.pips }
    ensures result { IfOk result (λ ended. ended_result ended
        ≡ builds.by_cause plan.now.pips sources.now pip cause.now) }
    ensures agrees { IfOk result Agrees }
{
    match cause {
        Cause::Exit(code) => Ok(failed(Verdict::Exit(*code))),
        Cause::Tool(end) => Ok(failed(Verdict::Tool(*end))),
        Cause::MissingOutput(path) => Ok(failed(Verdict::MissingOutput(path.share()?))),
        Cause::Denied(access) => after_denial(plan, sources, pip, access),
    }
}

/// What a process comes to that is otherwise successful, where these are the shared files so far: the earlier processes
/// are searched only for what clashes with one of these.
pub fn after_success<G: Gate>(
    frame: &Frame<'_, G>,
    pip: u32,
    slots: &[Slot],
    shared: &SharedFiles,
    made: &Made,
) -> Result<PipResult, Memory>
    requires pip { pip < length frame.now.plan.now.pips }
    requires slots { pip ≤ length slots.now }
    requires shared { KeepsShared shared.now.files shared.now.dirs
        (all_shared (take pip frame.now.plan.now.pips) (map slot_files slots.now)) }
    ensures result { IfOk result (λ ended. ended_result ended ≡ builds.unless_clash made.now
        (clash_at frame.now.plan.now.pips (map slot_files slots.now) pip made.now)) }
    ensures agrees { IfOk result Agrees }
{
    let clashes = shared.has_clash(frame.alloc, frame.plan, pip, made)?;
    if !clashes {
        return Ok(succeeded(made.share()?));
    }
    let clash = double_write(frame.plan, pip, made, slots)?;
    match clash {
        Some(double_write) => Ok(failed(Verdict::Violated(double_write))),
        None => Ok(succeeded(made.share()?)),
    }
}

/// What a process comes to by the outcome of its run, where these are the shared files so far.
pub fn after_outcome<G: Gate>(
    frame: &Frame<'_, G>,
    pip: u32,
    slots: &[Slot],
    shared: &SharedFiles,
    outcome: &Outcome,
) -> Result<PipResult, Memory>
    requires pip { pip < length frame.now.plan.now.pips }
    requires slots { pip ≤ length slots.now }
    requires shared { KeepsShared shared.now.files shared.now.dirs
        (all_shared (take pip frame.now.plan.now.pips) (map slot_files slots.now)) }
    ensures result { IfOk result (λ ended. ended_result ended ≡ builds.by_outcome frame.now.plan.now.pips
        frame.now.sources.now (map slot_files slots.now) pip outcome.now) }
    ensures agrees { IfOk result Agrees }
{
    match outcome {
        Outcome::Good(made) => after_success(frame, pip, slots, shared, made),
        Outcome::Failed(cause) => after_failure(frame.plan, frame.sources, pip, cause),
    }
}

fn run<G: Gate>(
    frame: &Frame<'_, G>,
    pip: u32,
    inputs: &Inputs,
    slots: &[Slot],
    shared: &SharedFiles,
) -> Result<PipResult, Memory>
    requires process { IsSome (process_in (slice_get frame.now.plan.now.pips pip)) }
    requires pip { pip < length frame.now.plan.now.pips }
    requires slots { pip ≤ length slots.now }
    requires shared { KeepsShared shared.now.files shared.now.dirs
        (all_shared (take pip frame.now.plan.now.pips) (map slot_files slots.now)) }
    ensures result { IfOk result (λ ended. ended_result ended
        ≡ worked_in frame.now.plan.now.pips frame.now.sources.now frame.now.plan.now.tool_budget
        (map slot_files slots.now) inputs.now pip (slice_get frame.now.plan.now.pips pip)) }
    ensures agrees { IfOk result Agrees }
{
    let described = desc(frame.alloc, frame.plan, frame.sources, pip, inputs)?;
    let mut view = PipView::new(frame.alloc, frame.plan, frame.sources, pip, inputs)?;
    let outcome = outcome_of_run(frame.alloc, &described, pip, &mut view, frame.gate)?;
    after_outcome(frame, pip, slots, shared, &outcome)
}

// What a pip comes to that is no process.
fn made_plainly<G: Gate>(
    frame: &Frame<'_, G>,
    pip: u32,
    inputs: &Inputs,
) -> Result<PipResult, Memory>
    ensures result { IfOk result (λ ended. ended_result ended
        ≡ builds.succeeded (plain_at frame.now.plan.now.pips frame.now.sources.now inputs.now pip)) }
    ensures agrees { IfOk result Agrees }
{
    let made = plain(frame.alloc, frame.plan, frame.sources, pip, inputs)?;
    Ok(succeeded(made))
}

// What a pip comes to with an input that did not succeed.
fn skipped() -> PipResult
    ensures result { ended_result result ≡ builds.failed Verdict.Skipped }
    ensures agrees { Agrees result }
{
    failed(Verdict::Skipped)
}

/// Starts a pip, where the pips before it ended with these slots. Builds with and without a cache skip the same
/// pips, and differ only in how a process comes to its outcome.
pub fn start<G: Gate>(frame: &Frame<'_, G>, pip: u32, slots: &[Slot]) -> Result<Started, Memory>
    requires pip { pip < length frame.now.plan.now.pips }
    requires slots { pip ≤ length slots.now }
    ensures { IfOk result (StartsAs frame.now.plan.now.pips frame.now.sources.now
        frame.now.plan.now.tool_budget slots.now pip (slice_get frame.now.plan.now.pips pip)) }
{
    if !inputs_are_good(frame.plan, pip, slots) {
        return Ok(Started::Done(skipped()));
    }
    let inputs = Inputs::of(frame.alloc, frame.plan, pip, slots)?;
    match process_at(frame.plan.pips(), pip) {
        Some(_) => Ok(Started::Process(inputs)),
        None => Ok(Started::Done(made_plainly(frame, pip, &inputs)?)),
    }
}

// What a pip comes to.
pub(crate) fn ended<G: Gate>(
    frame: &Frame<'_, G>,
    pip: u32,
    slots: &[Slot],
    shared: &SharedFiles,
) -> Result<PipResult, Memory>
    requires pip { pip < length frame.now.plan.now.pips }
    requires slots { pip ≤ length slots.now }
    requires shared { KeepsShared shared.now.files shared.now.dirs
        (all_shared (take pip frame.now.plan.now.pips) (map slot_files slots.now)) }
    ensures result { IfOk result (λ ended. ended_result ended
        ≡ ended_in frame.now.plan.now.pips frame.now.sources.now frame.now.plan.now.tool_budget slots.now pip
        (slice_get frame.now.plan.now.pips pip)) }
    ensures agrees { IfOk result Agrees }
{
    let started = start(frame, pip, slots)?;
    match started {
        Started::Done(result) => Ok(result),
        Started::Process(inputs) => run(frame, pip, &inputs, slots, shared),
    }
}
