//! The indexes that a core keeps: how they begin, and how they follow the pips that settle.
ghost use Rattle.std.specs.Prelude.{◌≡◌, ◌++◌, ◌∷◌, [], ◌<◌, ◌≤◌, ◌+◌, ◌^◌, ◌==◌, ◌||◌, ℕ, All, IfOk, OnOk, length, map, not, replicate, set};
ghost use Rattle.sched_core.specs.Indexes.{AddsDependents, AreCounted, AreDependents, AreFlagged, HasSize, Settles, list_at, missing_at, times};
ghost use Rattle.sched_core.specs.Legal.{all_waiting};
ghost use Rattle.sched_core.specs.Sets.{flag_at};
ghost use Rattle.sched_core.specs.Table.{AreOrdered};
ghost use Rattle.sched_core.specs.declared.graph.Node.{Node as AnyNode};

use crate::graph::{Node, PipNumbers};
use crate::readiness::Readiness;
use crate::state::PipState;
use std::alloc::{AllocError, Global};

// Adds a pip to the dependents of an input.
fn add_dependent(dependents: &mut Vec<PipNumbers>, input: u32, pip: u32) -> Result<(), AllocError>
    requires { input < length dependents.old.items }
    ensures { OnOk result (dependents.new.items
        ≡ set dependents.old.items input (list_at dependents.old.items input ++ pip ∷ [])) }
{
    let list = &mut dependents[input as usize];
    list.push(pip)
}

// Adds a pip to the dependents of all its inputs.
fn add_dependents(
    dependents: &mut Vec<PipNumbers>,
    inputs: &[u32],
    pip: u32,
) -> Result<(), AllocError>
    requires { All (λ input. input < length dependents.old.items) inputs.now }
    ensures size { OnOk result (length dependents.new.items ≡ length dependents.old.items) }
    ensures added { OnOk result (AddsDependents dependents.old.items dependents.new.items inputs.now pip) }
{
    'inputs: for input in inputs {
        add_dependent(dependents, *input, pip)?;
    }
    Ok(())
}

// For each pip the pips that have it among their inputs, as often as they do.
pub(crate) fn dependents_of(alloc: Global, nodes: &[Node]) -> Result<Vec<PipNumbers>, AllocError>
    requires ordered { AreOrdered nodes.now }
    requires few { length nodes.now < 2 ^ 32 }
    ensures size { IfOk result (λ all. length all.items ≡ length nodes.now) }
    ensures dependents { IfOk result (λ all. AreDependents nodes.now all.items) }
{
    let mut dependents = no_dependents(alloc, nodes.len())?;
    'nodes: for (pip, node) in nodes.iter().enumerate() {
        add_dependents(&mut dependents, node.inputs.as_slice(), pip as u32)?;
    }
    Ok(dependents)
}

// An empty list for each pip.
fn no_dependents(alloc: Global, pips: usize) -> Result<Vec<PipNumbers>, AllocError>
    ensures { IfOk result (λ all. all.items ≡ replicate pips []) }
{
    let mut dependents = Vec::new(alloc);
    'pips: for _ in 0..pips {
        dependents.push(PipNumbers::of(Vec::new(alloc)))?;
    }
    Ok(dependents)
}

// How many inputs each pip has.
fn input_counts(alloc: Global, nodes: &[Node]) -> Result<Vec<usize>, AllocError>
    ensures { IfOk result (λ counts. counts.items ≡ map (λ (node : AnyNode). length node.inputs) nodes.now) }
{
    let mut counts = Vec::new(alloc);
    'nodes: for node in nodes {
        counts.push(node.inputs.as_slice().len())?;
    }
    Ok(counts)
}

// The readiness of all pips while all wait: those without inputs may start.
pub(crate) fn first_ready(alloc: Global, nodes: &[Node]) -> Result<Readiness, AllocError>
    requires { AreOrdered nodes.now }
    ensures size { IfOk result (λ ready. HasSize ready (length nodes.now)) }
    ensures counted { IfOk result (AreCounted nodes.now (all_waiting (length nodes.now))) }
    ensures flagged { IfOk result (AreFlagged (all_waiting (length nodes.now))) }
{
    let counts = input_counts(alloc, nodes)?;
    let mut ready = Readiness::new(alloc, counts)?;
    'pips: for pip in 0..nodes.len() {
        ready.set_flags(pip, true);
    }
    Ok(ready)
}

// An input of these pips completed with success.
fn count_all_good(dependents: &[u32], states: &[PipState], ready: &mut Readiness)
    requires size { HasSize ready.old (length states.now) }
    requires flagged { AreFlagged states.now ready.old }
    requires counted { (p : ℕ) → times p dependents.now ≤ missing_at ready.old p }
    ensures size { HasSize ready.new (length states.now) }
    ensures flagged { AreFlagged states.now ready.new }
    ensures missing { (p : ℕ) → missing_at ready.new p + times p dependents.now ≡ missing_at ready.old p }
    ensures failed { ready.new.failed ≡ ready.old.failed }
{
    'dependents: for dependent in dependents {
        let pip = *dependent as usize;
        ready.count_good(pip, states[pip].is_waiting());
    }
}

// An input of these pips completed without success, or was skipped.
fn count_all_bad(dependents: &[u32], states: &[PipState], ready: &mut Readiness)
    requires size { HasSize ready.old (length states.now) }
    requires flagged { AreFlagged states.now ready.old }
    requires there { (p : ℕ) → 0 < times p dependents.now → p < length states.now }
    ensures size { HasSize ready.new (length states.now) }
    ensures flagged { AreFlagged states.now ready.new }
    ensures missing { ready.new.missing ≡ ready.old.missing }
    ensures failed { (p : ℕ) → flag_at ready.new.failed p
        ≡ (flag_at ready.old.failed p || not (times p dependents.now == 0)) }
{
    'dependents: for dependent in dependents {
        let pip = *dependent as usize;
        ready.count_bad(pip, states[pip].is_waiting());
    }
}

// Brings what is counted for these pips up to the state that an input of theirs came to.
pub(crate) fn settle(dependents: &[u32], states: &[PipState], ready: &mut Readiness, next: PipState)
    requires size { HasSize ready.old (length states.now) }
    requires flagged { AreFlagged states.now ready.old }
    requires counted { (p : ℕ) → times p dependents.now ≤ missing_at ready.old p }
    ensures size { HasSize ready.new (length states.now) }
    ensures flagged { AreFlagged states.now ready.new }
    ensures settles { Settles dependents.now next ready.old ready.new }
{
    if next.is_done_well() {
        count_all_good(dependents, states, ready);
    } else if next.is_bad() {
        count_all_bad(dependents, states, ready);
    }
}
