//! Deciding the pips of a build, one after another, by their slots, over a store or without one.
ghost use Rattle.std.specs.Prelude.{◌≡◌, ◌++◌, ◌∷◌, ◌+◌, ◌<◌, ◌≤◌, ◌&&◌, [], ℕ, IfOk, IfSome, IsNone, IsSome, None, OnOk, Some};
ghost use Rattle.std.specs.Prelude.{List, is_some, length, map, option_map, slice_get, take};
ghost use Rattle.std.specs.List.{AllByRecursion, slice_index_or};
ghost use Rattle.std.specs.Option.{option_to_list};
ghost use Rattle.bx_io.specs.Holdings.{Holdings};
ghost use Rattle.one_thread.specs.Keeping.{AreKept};
ghost use Rattle.graph_check.specs.Rules.{KeepsRules};
ghost use Rattle.pip_view_inputs.specs.Plain.{process_in};
ghost use Rattle.violations.specs.Slots.{slot_files};
ghost use Rattle.pip_model_types.specs.declared.pip.ProcessDesc.{ProcessDesc as AnyProcess};
ghost use Rattle.one_thread.specs.OneThread.{by_outcome, run_count};
ghost use Rattle.one_thread.specs.Shared.{KeepsShared, all_shared};
ghost use Rattle.one_thread.specs.Views.{Agrees, ended_result, is_good_slot};
ghost use Rattle.sched_board_slots.specs.Slots.{slot_at};
ghost use Rattle.two_phase.specs.Reading.{ReadsIfAny, reader_data};
ghost use Rattle.retire.specs.Accepting.{AreAccepted};
ghost use Rattle.retire.specs.Builds.{IsFair, IsOfRun};
ghost use Rattle.retire.specs.Counting.{is_accepted, one_accepted, one_fault, one_hit, one_miss};
ghost use Rattle.retire.specs.Counts.{CountsAgainst, verdicts_there};
ghost use Rattle.retire.specs.Deciding.{DecidedBy, DecidesAt, FollowsAll, RecordsAll};
ghost use Rattle.retire.specs.HitSet.{IsHitSet};
ghost use Rattle.retire.specs.Over.{RunsSome};
ghost use Rattle.retire.specs.Saving.{IsSuccess};
ghost use Rattle.retire.specs.Settled.{IsSettledOver};
ghost use Rattle.retire.specs.Taking as takes;

use crate::savable::Savable;
use crate::taking::{Taken, Way, taken_for};
use bx_io::{Gate, KeepReader};
use bx_tree::Memory;
use one_thread::{
    Frame, PipResult, SharedFiles, Started, after_outcome, after_success, is_good, start,
};
use pip_model::{MAX_PIPS, Slot};
use pip_view::Inputs;
use run_record::{Tools, what_holds_is_run};
use sched_board_slots::Held;
use std::alloc::Global;
use tool_run::accesses_hold;
use violations::Verdict;

// How many pips came to their results in each way.
#[derive(Clone, Copy)]
pub(crate) struct Ways {
    pub(crate) accepted: u64,
    pub(crate) hits: u64,
    pub(crate) missed: u64,
    pub(crate) faulted: u64,
}

// One more pip.
#[derive(Drop)]
struct Next {
    ended: PipResult,
    way: Way,
    saved: Option<Savable>,
}

// The pips that are decided.
#[derive(Drop)]
pub(crate) struct Decided {
    pub(crate) verdicts: Vec<Verdict>,
    pub(crate) slots: Vec<Slot>,
    // Whether the run in the slot of each was accepted.
    pub(crate) accepted: Vec<bool>,
    // The runs that are saved, by number.
    pub(crate) records: Vec<Savable>,
    pub(crate) ways: Ways,
}

// ## One pip

// How a pip came to its result, and its run.
fn parts_of(taken: Taken) -> (Way, Option<Savable>)
    ensures way { result.0 ≡ takes.way_of taken }
    ensures record { result.1 ≡ takes.record_in taken }
{
    match taken {
        Taken::Accepted(ran) => (Way::Accepted, Some(Savable::of(ran, None))),
        Taken::Hit(_) => (Way::Hit, None),
        Taken::Missed(ran) => (Way::Ran, Some(ran)),
        Taken::Faulted(ran) => (Way::Faulted, Some(ran)),
    }
}

fn saved_if(saves: bool, ran: Option<Savable>) -> Option<Savable>
    ensures { result ≡ takes.save_if saves ran }
{
    if saves { ran } else { None }
}

// The run of a process is saved only where there is a store, and the process succeeded.
fn next_of(ended: PipResult, taken: Taken, used: bool) -> Next
    ensures ended { result.ended ≡ ended }
    ensures way { result.way ≡ takes.way_of taken }
    ensures saved { result.saved ≡ takes.save_if (used && is_good_slot ended.slot) (takes.record_in taken) }
{
    let good = is_good(&ended.slot);
    let (way, ran) = parts_of(taken);
    Next {
        ended,
        way,
        saved: saved_if(used && good, ran),
    }
}

fn plainly(ended: PipResult) -> Next
    ensures ended { result.ended ≡ ended }
    ensures way { result.way ≡ Way.Plain }
    ensures saved { result.saved ≡ None }
{
    Next {
        ended,
        way: Way::Plain,
        saved: None,
    }
}

// What a process comes to by what it takes.
fn process_result<G: Gate>(
    frame: &Frame<'_, G>,
    pip: u32,
    slots: &[Slot],
    shared: &SharedFiles,
    taken: &Taken,
) -> Result<PipResult, Memory>
    requires pip { pip < length frame.now.plan.now.pips }
    requires slots { pip ≤ length slots.now }
    requires shared { KeepsShared shared.now.files shared.now.dirs
        (all_shared (take pip frame.now.plan.now.pips) (map slot_files slots.now)) }
    ensures result { IfOk result (λ ended. ended_result ended ≡ by_outcome frame.now.plan.now.pips
        frame.now.sources.now (map slot_files slots.now) pip (takes.outcome_in taken.now)) }
    ensures agrees { IfOk result Agrees }
{
    match taken {
        Taken::Hit(found) => after_success(frame, pip, slots, shared, found.made()),
        Taken::Accepted(ran) => after_outcome(frame, pip, slots, shared, ran.outcome()),
        Taken::Missed(ran) | Taken::Faulted(ran) => {
            after_outcome(frame, pip, slots, shared, ran.record().outcome())
        }
    }
}

// What a process comes to.
fn decide_process<R: KeepReader, G: Gate>(
    frame: &Frame<'_, G>,
    reader: &mut Option<R>,
    tools: &mut Tools,
    pip: u32,
    inputs: &Inputs,
    slot: Held,
    slots: &[Slot],
    shared: &SharedFiles,
) -> Result<Next, Memory>
    requires process { IsSome (process_in (slice_get frame.now.plan.now.pips pip)) }
    requires pip { pip < length frame.now.plan.now.pips }
    requires slots { pip ≤ length slots.now }
    requires shared { KeepsShared shared.now.files shared.now.dirs
        (all_shared (take pip frame.now.plan.now.pips) (map slot_files slots.now)) }
    ensures decided { IfOk result (λ next. IfSome (process_in (slice_get frame.now.plan.now.pips pip))
        (λ (process : AnyProcess). DecidedBy frame.now.plan.now.pips frame.now.sources.now
        frame.now.plan.now.tool_budget (option_map (λ r. reader_data (R.held r) (R.bound r) (R.faults r)) reader.new)
        slot (map slot_files slots.now) inputs.now pip process next)) }
    ensures agrees { IfOk result (λ next. Agrees next.ended) }
    ensures reader { IfOk result (λ next. ReadsIfAny
        (option_map (λ r. reader_data (R.held r) (R.bound r) (R.faults r)) reader.old)
        (option_map (λ r. reader_data (R.held r) (R.bound r) (R.faults r)) reader.new) (one_fault next.way)) }
{
    let taken = taken_for(frame, reader, tools, pip, inputs, slot)?;
    let ended = process_result(frame, pip, slots, shared, &taken)?;
    Ok(next_of(ended, taken, reader.is_some()))
}

// What a pip comes to. Of a pip that is skipped or no process the slot is not looked at.
fn decide<R: KeepReader, G: Gate>(
    frame: &Frame<'_, G>,
    reader: &mut Option<R>,
    tools: &mut Tools,
    pip: u32,
    slot: Held,
    slots: &[Slot],
    shared: &SharedFiles,
) -> Result<Next, Memory>
    requires pip { pip < length frame.now.plan.now.pips }
    requires slots { pip ≤ length slots.now }
    requires shared { KeepsShared shared.now.files shared.now.dirs
        (all_shared (take pip frame.now.plan.now.pips) (map slot_files slots.now)) }
    ensures decided { IfOk result (DecidesAt frame.now.plan.now.pips frame.now.sources.now
        frame.now.plan.now.tool_budget (option_map (λ r. reader_data (R.held r) (R.bound r) (R.faults r)) reader.new)
        slot slots.now pip (slice_get frame.now.plan.now.pips pip)) }
    ensures agrees { IfOk result (λ next. Agrees next.ended) }
    ensures reader { IfOk result (λ next. ReadsIfAny
        (option_map (λ r. reader_data (R.held r) (R.bound r) (R.faults r)) reader.old)
        (option_map (λ r. reader_data (R.held r) (R.bound r) (R.faults r)) reader.new) (one_fault next.way)) }
{
    let started = start(frame, pip, slots)?;
    match started {
        Started::Done(ended) => Ok(plainly(ended)),
        Started::Process(inputs) => {
            decide_process(frame, reader, tools, pip, &inputs, slot, slots, shared)
        }
    }
}

// ## All pips

// One more pip that came to its result in this way; there are at most as many as pips in a plan.
fn counted(ways: Ways, way: Way) -> Ways
    requires { ways.accepted + (ways.hits + (ways.missed + ways.faulted)) < MAX_PIPS }
    ensures accepted { result.accepted ≡ ways.accepted + one_accepted way }
    ensures hits { result.hits ≡ ways.hits + one_hit way }
    ensures missed { result.missed ≡ ways.missed + one_miss way }
    ensures faulted { result.faulted ≡ ways.faulted + one_fault way }
{
    match way {
        Way::Plain => ways,
        Way::Accepted => Ways {
            accepted: ways.accepted + 1,
            ..ways
        },
        Way::Hit => Ways {
            hits: ways.hits + 1,
            ..ways
        },
        Way::Ran => Ways {
            missed: ways.missed + 1,
            ..ways
        },
        Way::Faulted => Ways {
            faulted: ways.faulted + 1,
            ..ways
        },
    }
}

fn add_record(records: &mut Vec<Savable>, saved: Option<Savable>) -> Result<(), Memory>
    ensures { OnOk result (records.new.items ≡ records.old.items ++ option_to_list saved) }
{
    if let Some(ran) = saved {
        records.push(ran)?;
    }
    Ok(())
}

impl Decided {
    // No pips.
    fn none(alloc: Global) -> Decided
        ensures verdicts { result.verdicts.items ≡ [] }
        ensures slots { result.slots.items ≡ [] }
        ensures accepted { result.accepted.items ≡ [] }
        ensures records { result.records.items ≡ [] }
        ensures ways { result.ways ≡ record { accepted = 0; hits = 0; missed = 0; faulted = 0 } }
    {
        Decided {
            verdicts: Vec::new(alloc),
            slots: Vec::new(alloc),
            accepted: Vec::new(alloc),
            records: Vec::new(alloc),
            ways: Ways {
                accepted: 0,
                hits: 0,
                missed: 0,
                faulted: 0,
            },
        }
    }

    // One more pip.
    fn add(&mut self, next: Next) -> Result<(), Memory>
        requires { self.old.ways.accepted + (self.old.ways.hits + (self.old.ways.missed + self.old.ways.faulted)) < MAX_PIPS }
        ensures verdicts { OnOk result (self.new.verdicts.items ≡ self.old.verdicts.items ++ next.ended.verdict ∷ []) }
        ensures slots { OnOk result (self.new.slots.items ≡ self.old.slots.items ++ next.ended.slot ∷ []) }
        ensures accepted { OnOk result (self.new.accepted.items ≡ self.old.accepted.items ++ is_accepted next.way ∷ []) }
        ensures records { OnOk result (self.new.records.items ≡ self.old.records.items ++ option_to_list next.saved) }
        ensures accepted_count { OnOk result (self.new.ways.accepted ≡ self.old.ways.accepted + one_accepted next.way) }
        ensures hits { OnOk result (self.new.ways.hits ≡ self.old.ways.hits + one_hit next.way) }
        ensures missed { OnOk result (self.new.ways.missed ≡ self.old.ways.missed + one_miss next.way) }
        ensures faulted { OnOk result (self.new.ways.faulted ≡ self.old.ways.faulted + one_fault next.way) }
    {
        let Next { ended, way, saved } = next;
        self.ways = counted(self.ways, way);
        self.accepted.push(way == Way::Accepted)?;
        self.verdicts.push(ended.verdict)?;
        self.slots.push(ended.slot)?;
        add_record(&mut self.records, saved)
    }
}

// Decides all pips, one after another, by their slots.
pub(crate) fn decide_all<R: KeepReader, G: Gate>(
    frame: &Frame<'_, G>,
    reader: &mut Option<R>,
    finished: Vec<Held>,
) -> Result<Decided, Memory>
    requires rules { KeepsRules frame.now.plan.now.pips frame.now.sources.now }
    requires slots { length finished.items ≡ length frame.now.plan.now.pips }
    // Without a reader, and with one over what it tells to be held.
    ensures alone { IsNone reader.new → IfOk result (λ d. FollowsAll frame.now.plan.now.pips frame.now.sources.now
        frame.now.plan.now.tool_budget d.verdicts.items d.slots.items
        × AreAccepted frame.now.plan.now.pips frame.now.sources.now frame.now.plan.now.tool_budget finished.items d.accepted.items
        × CountsAgainst frame.now.plan.now.pips
        (verdicts_there frame.now.plan.now.pips frame.now.sources.now frame.now.plan.now.tool_budget) d.accepted.items [] d.ways.hits
        d.ways.missed d.ways.faulted) }
    ensures follows { (S : Holdings)
        → IfSome (option_map (λ r. reader_data (R.held r) (R.bound r) (R.faults r)) reader.new) (λ r. r.held ≡ Some S)
        → IsSome reader.new
        → IsFair frame.now.plan.now.pips frame.now.sources.now frame.now.plan.now.tool_budget S
        → IfOk result (λ d. FollowsAll frame.now.plan.now.pips frame.now.sources.now
        frame.now.plan.now.tool_budget d.verdicts.items d.slots.items
        × ((all : RecordsAll frame.now.plan.now.pips frame.now.sources.now frame.now.plan.now.tool_budget S d.records.items)
        × (d.ways.faulted ≡ 0 → AllByRecursion (IsOfRun frame.now.plan.now.pips frame.now.sources.now frame.now.plan.now.tool_budget S
        finished.items) all.facts))
        × AreAccepted frame.now.plan.now.pips frame.now.sources.now frame.now.plan.now.tool_budget finished.items d.accepted.items
        × ((numbers : List ℕ)
        → IsHitSet frame.now.plan.now.pips frame.now.sources.now frame.now.plan.now.tool_budget S numbers
        → CountsAgainst frame.now.plan.now.pips
        (verdicts_there frame.now.plan.now.pips frame.now.sources.now frame.now.plan.now.tool_budget) d.accepted.items numbers d.ways.hits
        (d.ways.missed + d.ways.faulted) d.ways.faulted)) }
    // Where nothing is left to do on the board, a tool runs only after a fault.
    ensures settled { (S : Holdings) → IsSettledOver frame.now.plan.now frame.now.sources.now S (is_some reader.new) finished.items
        → IfSome (option_map (λ r. reader_data (R.held r) (R.bound r) (R.faults r)) reader.new) (λ r. r.held ≡ Some S)
        → IfOk result (λ d. d.ways.missed ≡ 0) }
    // Over any store, where no lookup fails.
    ensures over { (S : Holdings)
        → IfSome (option_map (λ r. reader_data (R.held r) (R.bound r) (R.faults r)) reader.new) (λ r. r.held ≡ Some S)
        → IsSome reader.new → IfOk result (λ d. d.ways.faulted ≡ 0 → RunsSome frame.now.plan.now.pips frame.now.sources.now
        frame.now.plan.now.tool_budget S finished.items (d.ways.accepted + d.ways.missed)) }
    ensures counted { IfOk result (λ d. d.ways.accepted + (d.ways.hits + (d.ways.missed + d.ways.faulted))
        ≡ run_count frame.now.plan.now.pips d.verdicts.items) }
    ensures few { IfOk result (λ d. d.ways.accepted + (d.ways.hits + (d.ways.missed + d.ways.faulted)) ≤ MAX_PIPS) }
    ensures number { IfOk result (λ d. length d.verdicts.items ≡ length frame.now.plan.now.pips) }
    ensures kept { IfOk result (λ d. AreKept frame.now.plan.now.pips (map slot_files d.slots.items)) }
    ensures records { IfOk result (λ d. AllByRecursion IsSuccess d.records.items) }
    ensures ran { IfOk result (λ d. length d.records.items
        ≤ d.ways.accepted + (d.ways.missed + d.ways.faulted)) }
    ensures unread { IsNone reader.new → IfOk result (λ d. (d.ways.hits ≡ 0) × (d.ways.faulted ≡ 0)) }
    ensures reader { IfOk result (λ d. ReadsIfAny
        (option_map (λ r. reader_data (R.held r) (R.bound r) (R.faults r)) reader.old)
        (option_map (λ r. reader_data (R.held r) (R.bound r) (R.faults r)) reader.new) d.ways.faulted) }
{
    accesses_hold();
    what_holds_is_run();
    let pips = frame.plan.pips();
    let mut tools = Tools::new(frame.alloc);
    let mut shared = SharedFiles::new(frame.alloc);
    let mut decided = Decided::none(frame.alloc);
    let mut left = finished.into_iter();
    'pips: for number in 0..pips.len() {
        let Some(slot) = left.next() else {
            unreachable!()
        };
        let pip = number as u32;
        let slots = decided.slots.as_slice();
        let next = decide(frame, reader, &mut tools, pip, slot, slots, &shared)?;
        shared.add_slot(frame.alloc, frame.plan, pip, &next.ended.slot)?;
        decided.add(next)?;
    }
    Ok(decided)
}
