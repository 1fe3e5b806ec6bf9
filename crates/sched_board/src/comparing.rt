//! What is shown of a pip against the board's own.
ghost use Rattle.std.specs.Prelude.{◌≡◌, ◌<◌, ◌↔◌, IfOk, IsNone, IsSome, IsTrue, is_some, length, slice_get, true};
ghost use Rattle.pip_model_types.specs.Made.{made_files};
ghost use Rattle.memo_format.specs.Found.{output_lines};
ghost use Rattle.pip_view_inputs.specs.Plain.{process_in};
ghost use Rattle.sched_board_slots.specs.Slots.{own_inputs};
ghost use Rattle.sched_board.specs.Publishing.{Compared, ComparedHit, ComparedRun, fits_kind};

use crate::answers::Unlike;
use crate::shown::Shown;
use bx_tree::Memory;
use memo_format::{Found, digest_of_outputs};
use observed::View;
use pip_model::{Desc, Made, MadeFile, Plan, Sources};
use pip_view::PipView;
use pip_view_inputs::{Inputs, desc, plain};
use prints::reads_back;
use run_record::{Match, Record, first_difference, matches, weak_digest};
use sched_board_slots::{Held, hit_holds, holds_now};
use std::alloc::{AllocError, Global};

/// What the inputs of a pip made, by the slots.
pub(crate) fn inputs_of(
    alloc: Global,
    plan: &Plan,
    slots: &[Held],
    pip: u32,
) -> Result<Inputs, Memory>
    requires there { pip < length plan.now.pips }
    requires size { length slots.now ≡ length plan.now.pips }
    ensures { IfOk result (λ inputs. inputs ≡ own_inputs plan.now slots.now pip) }
{
    let mut inputs = Inputs::new(alloc);
    'inputs: for input in plan.inputs(pip) {
        inputs.push(*input, slots[*input as usize].files(alloc)?)?;
    }
    Ok(inputs)
}

// How the record of a run differs from a process and a view.
fn unlike_run<V: View>(
    alloc: Global,
    own: &Desc,
    ran: &Record,
    view: &mut V,
) -> Result<Option<Unlike>, Memory>
    ensures { IfOk result (ComparedRun own.now (V.answers view.old) ran.now) }
{
    let _process = ran.desc();
    let _answers = ran.answers();
    match matches(alloc, own, ran, view) {
        Match::Same => Ok(None),
        Match::OtherDesc { held, now } => Ok(Some(Unlike::new(0, held, now))),
        Match::Differs { index, held, now } => Ok(Some(Unlike::new(index + 1, held, now))),
        Match::Memory => Err(AllocError),
    }
}

// How the record of a run differs by digest from the process and what it sees.
fn compare_digests(
    alloc: Global,
    plan: &Plan,
    sources: &Sources,
    pip: u32,
    inputs: &Inputs,
    ran: &Record,
) -> Result<Option<Unlike>, Memory>
    requires there { pip < length plan.now.pips }
    requires process { IsSome (process_in (slice_get plan.now.pips pip)) }
    ensures { IfOk result (Compared plan.now sources.now inputs.now pip (Shown.Ran ran.now)) }
{
    let own = desc(alloc, plan, sources, pip, inputs)?;
    let mut view = PipView::new(alloc, plan, sources, pip, inputs)?;
    unlike_run(alloc, &own, ran, &mut view)
}

// How the record of a run differs from the process and what it sees. One that holds byte by byte differs in no digest, so
// nothing is written or hashed for it.
fn compare_ran(
    alloc: Global,
    plan: &Plan,
    sources: &Sources,
    pip: u32,
    inputs: &Inputs,
    ran: &Record,
) -> Result<Option<Unlike>, Memory>
    requires there { pip < length plan.now.pips }
    requires process { IsSome (process_in (slice_get plan.now.pips pip)) }
    ensures { IfOk result (Compared plan.now sources.now inputs.now pip (Shown.Ran ran.now)) }
{
    reads_back(ran.desc());
    let holds = holds_now(alloc, plan, sources, pip, inputs, ran)?;
    if holds {
        return Ok(None);
    }
    compare_digests(alloc, plan, sources, pip, inputs, ran)
}

// How what a lookup found differs from a process and a view.
fn unlike_hit<V: View>(
    alloc: Global,
    own: &Desc,
    found: &Found,
    view: &mut V,
) -> Result<Option<Unlike>, Memory>
    ensures { IfOk result (ComparedHit own.now (V.answers view.old) found.now) }
{
    let weak = weak_digest(alloc, own)?;
    let held = found.entry().weak;
    if held != weak {
        return Ok(Some(Unlike::new(0, held, weak)));
    }
    let paths = found.paths();
    match first_difference(alloc, paths.asks(), found.answers(), view)? {
        Some(at) => Ok(Some(Unlike::new(at.index as u64 + 1, at.held, at.now))),
        None => Ok(None),
    }
}

// How what a lookup found differs by digest from the process and what it sees.
fn compare_hit_digests(
    alloc: Global,
    plan: &Plan,
    sources: &Sources,
    pip: u32,
    inputs: &Inputs,
    found: &Found,
) -> Result<Option<Unlike>, Memory>
    requires there { pip < length plan.now.pips }
    requires process { IsSome (process_in (slice_get plan.now.pips pip)) }
    ensures { IfOk result (Compared plan.now sources.now inputs.now pip (Shown.Hit found.now)) }
{
    let own = desc(alloc, plan, sources, pip, inputs)?;
    let mut view = PipView::new(alloc, plan, sources, pip, inputs)?;
    unlike_hit(alloc, &own, found, &mut view)
}

// How what a lookup found differs from the process and what it sees. What holds byte by byte differs in no digest, so nothing
// is written or hashed for it.
fn compare_hit(
    alloc: Global,
    plan: &Plan,
    sources: &Sources,
    pip: u32,
    inputs: &Inputs,
    found: &Found,
) -> Result<Option<Unlike>, Memory>
    requires there { pip < length plan.now.pips }
    requires process { IsSome (process_in (slice_get plan.now.pips pip)) }
    ensures { IfOk result (Compared plan.now sources.now inputs.now pip (Shown.Hit found.now)) }
{
    let holds = hit_holds(alloc, plan, sources, pip, inputs, found)?;
    if holds {
        return Ok(None);
    }
    compare_hit_digests(alloc, plan, sources, pip, inputs, found)
}

// Whether files have the same paths, and contents of the same digests.
fn are_alike(made: &[MadeFile], own: &[MadeFile]) -> bool
    ensures { IsTrue result ↔ output_lines (made_files made.now) ≡ output_lines (made_files own.now) }
{
    if made.len() != own.len() {
        return false;
    }
    'files: for place in 0..made.len() {
        let mine = &made[place];
        let other = &own[place];
        if mine.path != other.path || mine.blob.digest() != other.blob.digest() {
            return false;
        }
    }
    true
}

// How files differ from those that the pip makes.
fn compare_plain(
    alloc: Global,
    plan: &Plan,
    sources: &Sources,
    pip: u32,
    inputs: &Inputs,
    made: &Made,
) -> Result<Option<Unlike>, Memory>
    requires process { IsNone (process_in (slice_get plan.now.pips pip)) }
    ensures { IfOk result (Compared plan.now sources.now inputs.now pip (Shown.Plain made.now)) }
{
    let own = plain(alloc, plan, sources, pip, inputs)?;
    if are_alike(made.files(), own.files()) {
        return Ok(None);
    }
    let held = digest_of_outputs(alloc, made)?;
    let now = digest_of_outputs(alloc, &own)?;
    Ok(Some(Unlike::new(0, held, now)))
}

/// How what is shown of a pip differs from the board's own, if it does.
pub(crate) fn compare(
    alloc: Global,
    plan: &Plan,
    sources: &Sources,
    slots: &[Held],
    pip: u32,
    shown: &Shown,
) -> Result<Option<Unlike>, Memory>
    requires there { pip < length plan.now.pips }
    requires size { length slots.now ≡ length plan.now.pips }
    requires kind { fits_kind (is_some (process_in (slice_get plan.now.pips pip))) shown.now ≡ true }
    ensures { IfOk result (Compared plan.now sources.now (own_inputs plan.now slots.now pip) pip shown.now) }
{
    let inputs = inputs_of(alloc, plan, slots, pip)?;
    match shown {
        Shown::Ran(ran) => compare_ran(alloc, plan, sources, pip, &inputs, ran),
        Shown::Hit(found) => compare_hit(alloc, plan, sources, pip, &inputs, found),
        Shown::Plain(made) => compare_plain(alloc, plan, sources, pip, &inputs, made),
    }
}
