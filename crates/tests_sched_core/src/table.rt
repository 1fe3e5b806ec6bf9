//! The table of events as a slow program, whose contract is the table.
ghost use Rattle.std.specs.Prelude.{◌≡◌, ◌<◌, length, set};
ghost use Rattle.sched_core.specs.States as states;
ghost use Rattle.sched_core.specs.Table.{all_good, allows, fits_table, has_left, holds_none, left_after, may_skip, may_start};
ghost use Rattle.sched_core.specs.Table.{node_at, pip_of, some_bad, state_after_event, state_at, worker_of};

use sched_core::{Event, Node, PipState};

// The state of a pip; one that is not there reads as skipped.
fn state_of(states: &[PipState], pip: u32) -> PipState
    ensures { result ≡ state_at states.now pip }
{
    match states.get(pip as usize) {
        Some(state) => *state,
        None => PipState::Skipped,
    }
}

fn is_process(nodes: &[Node], pip: u32) -> bool
    ensures { result ≡ (node_at nodes.now pip).is_process }
{
    match nodes.get(pip as usize) {
        Some(node) => node.is_process,
        None => false,
    }
}

fn is_gone(left: &[bool], worker: u32) -> bool
    ensures { result ≡ has_left left.now worker }
{
    match left.get(worker as usize) {
        Some(left) => *left,
        None => true,
    }
}

fn is_held(state: PipState, worker: u32) -> bool
    ensures { result ≡ states.holds worker state }
{
    match state {
        PipState::Held(holder) | PipState::Looked(holder, _) | PipState::Published(holder, _) =>
            holder == worker,
        _ => false,
    }
}

// Whether the worker holds no pip.
fn is_free(states: &[PipState], worker: u32) -> bool
    ensures { result ≡ holds_none worker states.now }
{
    states
        .iter()
        .position(|state| is_held(*state, worker))
        .is_none()
}

fn are_good(states: &[PipState], inputs: &[u32]) -> bool
    ensures { result ≡ all_good states.now inputs.now }
{
    inputs
        .iter()
        .all(|input| state_of(states, *input).is_done_well())
}

fn is_some_bad(states: &[PipState], inputs: &[u32]) -> bool
    ensures { result ≡ some_bad states.now inputs.now }
{
    inputs.iter().any(|input| state_of(states, *input).is_bad())
}

// Whether the table allows a start of a pip by a worker that is free.
pub(crate) fn may_begin(nodes: &[Node], states: &[PipState], left: &[bool], pip: u32) -> bool
    ensures { result ≡ may_start (record { nodes = nodes.now; states = states.now; left = left.now }) pip }
{
    let waits = state_of(states, pip).is_waiting();
    match nodes.get(pip as usize) {
        Some(node) => waits && are_good(states, node.inputs.as_slice()),
        None => waits,
    }
}

// Whether the table allows a skip of a pip by a worker that is free.
pub(crate) fn may_pass(nodes: &[Node], states: &[PipState], left: &[bool], pip: u32) -> bool
    ensures { result ≡ may_skip (record { nodes = nodes.now; states = states.now; left = left.now }) pip }
{
    let waits = state_of(states, pip).is_waiting();
    match nodes.get(pip as usize) {
        Some(node) => waits && is_some_bad(states, node.inputs.as_slice()),
        None => false,
    }
}

// Whether the table allows an event of a worker that has not left.
fn fits(nodes: &[Node], states: &[PipState], left: &[bool], event: &Event) -> bool
    ensures { result ≡ fits_table (record { nodes = nodes.now; states = states.now; left = left.now }) event.now }
{
    match *event {
        Event::Start { pip, worker } => may_begin(nodes, states, left, pip)
            && is_free(states, worker),
        Event::Looked { pip, worker, .. } => {
            is_process(nodes, pip) && state_of(states, pip) == PipState::Held(worker)
        }
        Event::Publish { pip, worker, good } => {
            if is_process(nodes, pip) {
                match state_of(states, pip) {
                    PipState::Looked(holder, hit) => holder == worker && (!hit || good),
                    _ => false,
                }
            } else {
                state_of(states, pip) == PipState::Held(worker) && good
            }
        }
        Event::Complete { pip, worker } => match state_of(states, pip) {
            PipState::Published(holder, _) => holder == worker,
            _ => false,
        },
        Event::Skip { pip, worker } => may_pass(nodes, states, left, pip)
            && is_free(states, worker),
        Event::Release { pip, worker } => match state_of(states, pip) {
            PipState::Held(holder) | PipState::Looked(holder, _) => holder == worker,
            _ => false,
        },
    }
}

// Whether the table allows an event.
pub(crate) fn is_allowed(nodes: &[Node], states: &[PipState], left: &[bool], event: &Event) -> bool
    ensures { result ≡ allows (record { nodes = nodes.now; states = states.now; left = left.now }) event.now }
{
    !is_gone(left, event.worker()) && fits(nodes, states, left, event)
}

// What a pip in this state is after an event.
fn after(state: PipState, event: &Event) -> PipState
    ensures { result ≡ state_after_event state event.now }
{
    match *event {
        Event::Start { worker, .. } => PipState::Held(worker),
        Event::Looked { worker, hit, .. } => PipState::Looked(worker, hit),
        Event::Publish { worker, good, .. } => PipState::Published(worker, good),
        Event::Complete { .. } => match state {
            PipState::Published(_, good) => PipState::Done(good),
            other => other,
        },
        Event::Skip { .. } => PipState::Skipped,
        Event::Release { .. } => PipState::Waiting,
    }
}

// Makes an event.
pub(crate) fn make(states: &mut Vec<PipState>, left: &mut Vec<bool>, event: &Event)
    requires pip { pip_of event.now < length states.old.items }
    requires worker { worker_of event.now < length left.old.items }
    ensures states { states.new.items ≡ set states.old.items (pip_of event.now) (state_after_event (state_at states.old.items (pip_of event.now)) event.now) }
    ensures left { left.new.items ≡ left_after left.old.items event.now }
{
    let pip = event.pip() as usize;
    states[pip] = after(states[pip], event);
    if let Event::Release { worker, .. } = event {
        left[*worker as usize] = true;
    }
}
