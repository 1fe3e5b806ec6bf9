//! What a whole build gives.
ghost use Rattle.std.specs.Prelude.{◌≡◌, ℕ, ◌+◌, ◌≤◌, false, true, IfOk, IfSome, IsSome, Some, is_some, length, option_map};
ghost use Rattle.bx_io.specs.Holdings.{Holdings, held_in};
ghost use Rattle.one_thread.specs.Outputs.{AreOutputs};
ghost use Rattle.graph_check.specs.Rules.{KeepsRules};
ghost use Rattle.one_thread.specs.OneThread as builds;
ghost use Rattle.retire.specs.Runs.{NoneReserved};
ghost use Rattle.std.specs.List.{AllByRecursion};
ghost use Rattle.bx_io.specs.Holdings.{Keeps};
ghost use Rattle.two_phase.specs.Reading.{reader_data};
ghost use Rattle.retire.specs.Builds.{Fair, IsBuild, IsFair, LeavesFair, LeavesUsable, LeavesUsableBut, SavesRuns};
ghost use Rattle.retire.specs.Counts.{CountsAlone, CountsOver, CountsWithin};
ghost use Rattle.retire.specs.Over.{RunsSome};
ghost use Rattle.retire.specs.Saving.{IsSuccess, OnlyPuts, PutsAllBut, PutsFirst, SavesAtMost};
ghost use Rattle.retire.specs.Settled.{IsSettledOver};

use crate::deciding::{Decided, Ways, decide_all};
use crate::savable::Savable;
use crate::saving::save_all;
use bx_io::{Gate, KeepReader, Keeper};
use bx_tree::Memory;
use one_thread::{Frame, outputs};
use pip_model::{MAX_PIPS, Made, Plan, Sources};
use recent_contents::RecentReader;
use sched_board_slots::Finished;
use std::alloc::Global;
use std::mem::forget;
use violations::Verdict;

/// How the processes of a build that were not skipped came to their results.
#[derive(Clone, Copy, Debug, PartialEq, Eq)]
pub struct RetireTally {
    /// Those whose result was taken from the store.
    pub hits: u64,
    /// The others: their tool ran, here or for their slot.
    pub ran: u64,
    /// Those whose tool ran here.
    pub late: u64,
    /// The lookups and saves that failed here.
    pub faults: u64,
}

/// How each pip ended, the files of all that succeeded, and the tally.
#[derive(Drop)]
pub struct Retired {
    pub verdicts: Vec<Verdict>,
    pub outputs: Made,
    pub tally: RetireTally,
}

/// Decides all pips, one after another, as the sequential build does: a process by the run in its slot, where that is its run
/// now; else by what the store has for it, where the store is used; else by a run here. Whoever filled the slots, and with
/// what: each is compared first. After all pips are decided, the records of the runs that succeeded are saved, by number. The
/// memory of what was decided is left to the system.
pub fn retire<K: Keeper, G: Gate>(
    alloc: Global,
    plan: &Plan,
    sources: &Sources,
    keeper: &mut K,
    finished: Finished,
    gate: &G,
    cached: bool,
) -> Result<Retired, Memory>
    requires rules { KeepsRules plan.now.pips sources.now }
    requires slots { length finished.slots.items ≡ length plan.now.pips }

    // What the build gives.
    ensures build { Fair plan.now.pips sources.now plan.now.tool_budget cached (held_in (K.known keeper.old))
        (held_in (K.known keeper.new)) → IfOk result (λ r. IsBuild plan.now.pips sources.now plan.now.tool_budget r.verdicts.items r.outputs
        r.tally.hits r.tally.ran) }
    ensures number { IfOk result (λ r. length r.verdicts.items ≡ length plan.now.pips) }
    ensures counted { IfOk result (λ r. r.tally.hits + r.tally.ran
        ≡ builds.run_count plan.now.pips r.verdicts.items) }
    ensures places { IfOk result (λ r. AreOutputs r.outputs) }

    // What it counts: with the store, and without it.
    ensures late { IfOk result (λ r. r.tally.late ≤ r.tally.ran) }
    ensures counts { cached ≡ true → (S : Holdings) → held_in (K.known keeper.old) ≡ Some S
        → IsSome (held_in (K.known keeper.new)) → IsFair plan.now.pips sources.now plan.now.tool_budget S → IfOk result (λ r.
        CountsOver plan.now.pips sources.now plan.now.tool_budget S finished.slots.items r.tally.hits r.tally.late r.tally.faults) }
    ensures within { cached ≡ true → (S : Holdings) → held_in (K.known keeper.old) ≡ Some S
        → IsSome (held_in (K.known keeper.new)) → IsFair plan.now.pips sources.now plan.now.tool_budget S → IfOk result (λ r.
        CountsWithin plan.now.pips sources.now plan.now.tool_budget S r.tally.hits r.tally.late r.tally.faults) }
    ensures alone { cached ≡ false → IfOk result (λ r.
        CountsAlone plan.now.pips sources.now plan.now.tool_budget finished.slots.items r.tally.hits r.tally.late r.tally.faults) }

    // Over any store that it tells of, honest or not, which processes run where no call fails: those whose slot is accepted, and
    // those for which nothing is usable.
    ensures over { cached ≡ true → (S : Holdings) → held_in (K.known keeper.old) ≡ Some S
        → IsSome (held_in (K.known keeper.new)) → IfOk result (λ r. r.tally.faults ≡ 0
        → RunsSome plan.now.pips sources.now plan.now.tool_budget S finished.slots.items r.tally.ran) }

    // Where the slots are those of a board of this plan and these sources on which nothing is left to do, a tool runs here only
    // after a fault: so where no fault is met, none does.
    ensures settled { (S : Holdings) → IsSettledOver plan.now sources.now S cached finished.slots.items
        → (cached ≡ true → (held_in (K.known keeper.old) ≡ Some S) × IsSome (held_in (K.known keeper.new)))
        → IfOk result (λ r. r.tally.late ≤ r.tally.faults) }

    // What is left of the store.
    ensures untouched { cached ≡ false → keeper.new ≡ keeper.old }
    ensures left { (S : Holdings) → held_in (K.known keeper.old) ≡ Some S
        → IsSome (held_in (K.known keeper.new)) → IsFair plan.now.pips sources.now plan.now.tool_budget S
        → LeavesFair plan.now.pips sources.now plan.now.tool_budget S (K.known keeper.old)
        (K.known keeper.new) }
    ensures usable { cached ≡ true → (S : Holdings) → held_in (K.known keeper.old) ≡ Some S
        → IsFair plan.now.pips sources.now plan.now.tool_budget S → NoneReserved sources.now
        → IfOk result (λ r. r.tally.faults ≡ 0
        → LeavesUsable plan.now.pips sources.now plan.now.tool_budget (K.known keeper.new)) }
    ensures usable_but { cached ≡ true → (S : Holdings) → held_in (K.known keeper.old) ≡ Some S
        → IsSome (held_in (K.known keeper.new)) → IsFair plan.now.pips sources.now plan.now.tool_budget S → NoneReserved sources.now
        → IfOk result (λ r.
        LeavesUsableBut plan.now.pips sources.now plan.now.tool_budget (K.known keeper.new) r.tally.faults) }
    ensures faults { (b : ℕ) → K.bound keeper.old ≡ Some b
        → IfOk result (λ r. K.faults keeper.old + r.tally.faults ≤ K.faults keeper.new + b) }
    ensures later { K.faults keeper.old ≤ K.faults keeper.new }
    ensures seen { IfOk result (λ r. r.tally.faults ≡ 0 → K.faults keeper.new ≡ K.faults keeper.old) }
    ensures bound { K.bound keeper.new ≡ K.bound keeper.old }
    ensures puts { OnlyPuts (K.known keeper.old) (K.known keeper.new) }
    // A hit is not saved again: no more records are saved than there were runs; and where no fault was met, each is of a
    // process with an accepted run or with nothing usable in the store.
    ensures saved_runs { cached ≡ true → (S : Holdings) → held_in (K.known keeper.old) ≡ Some S
        → IsSome (held_in (K.known keeper.new)) → IsFair plan.now.pips sources.now plan.now.tool_budget S
        → IfOk result (λ r. r.tally.faults ≡ 0 → SavesRuns plan.now.pips sources.now plan.now.tool_budget S finished.slots.items
        (K.known keeper.old) (K.known keeper.new)) }
    ensures saved { IfOk result (λ r. SavesAtMost r.tally.ran (K.known keeper.old) (K.known keeper.new)) }
    ensures unsaved { IfOk result (λ r. r.tally.ran ≡ 0 → Keeps (K.known keeper.old) (K.known keeper.new)) }
{
    let frame = Frame {
        alloc,
        plan,
        sources,
        gate,
    };
    let _pips = plan.pips();
    let mut reader = reader_if(alloc, keeper, cached)?;
    let decided = decide_all(&frame, &mut reader, finished.slots)?;
    close_if(keeper, reader);
    let outputs = outputs(alloc, decided.slots.as_slice())?;
    let failed = save_if(alloc, keeper, decided.records.as_slice(), cached)?;
    let Decided {
        verdicts,
        slots,
        accepted: _,
        records,
        ways,
    } = decided;
    forget((slots, records));
    Ok(Retired {
        verdicts,
        outputs,
        tally: tally_of(ways, failed),
    })
}

// A reader of the store, where it is used.
fn reader_if<K: Keeper>(
    alloc: Global,
    keeper: &K,
    cached: bool,
) -> Result<Option<RecentReader<K::Reader>>, Memory>
    ensures some { IfOk result (λ reader. is_some reader ≡ cached) }
    ensures reader { IfOk result (λ reader. IfSome reader (λ r. (K.Reader.held r.reader ≡ held_in (K.known keeper.now))
        × ((K.Reader.bound r.reader ≡ K.bound keeper.now) × (K.Reader.faults r.reader ≡ 0)))) }
{
    if !cached {
        return Ok(None);
    }
    Ok(Some(RecentReader::new(alloc, keeper.reader(alloc)?)))
}

// Gives a reader back, where there is one.
fn close_if<K: Keeper>(keeper: &mut K, reader: Option<RecentReader<K::Reader>>)
    ensures none { is_some reader ≡ false → keeper.new ≡ keeper.old }
    ensures known { Keeps (K.known keeper.old) (K.known keeper.new) }
    ensures reader { IsSome (held_in (K.known keeper.new)) → IfSome reader (λ r. IsSome (K.Reader.held r.reader)) }
    ensures bound { K.bound keeper.new ≡ K.bound keeper.old }
    ensures faults { K.faults keeper.new ≡ K.faults keeper.old }
{
    if let Some(reader) = reader {
        keeper.close(reader.into_reader());
    }
}

// Saves the records, where the store is used; how many saves failed.
fn save_if<K: Keeper>(
    alloc: Global,
    keeper: &mut K,
    records: &[Savable],
    cached: bool,
) -> Result<u64, Memory>
    requires good { AllByRecursion IsSuccess records.now }
    requires few { length records.now ≤ MAX_PIPS }
    ensures none { cached ≡ false → keeper.new ≡ keeper.old }
    ensures no_faults { cached ≡ false → IfOk result (λ faults. faults ≡ 0) }
    ensures all { cached ≡ true
        → IfOk result (PutsAllBut (K.known keeper.old) records.now (K.known keeper.new)) }
    ensures first { PutsFirst (K.known keeper.old) records.now (K.known keeper.new) }
    ensures bound { K.bound keeper.new ≡ K.bound keeper.old }
    ensures faults { IsSome (K.bound keeper.old)
        → IfOk result (λ faults. K.faults keeper.old + faults ≤ K.faults keeper.new) }
    ensures few_faults { IfOk result (λ faults. faults ≤ length records.now) }
    ensures seen { IfOk result (λ faults. faults ≡ 0 → K.faults keeper.new ≡ K.faults keeper.old) }
    ensures later { K.faults keeper.old ≤ K.faults keeper.new }
{
    if !cached {
        return Ok(0);
    }
    save_all(alloc, keeper, records)
}

// The counts of a build whose processes came to their results in these ways, and so many of whose saves failed.
fn tally_of(ways: Ways, failed: u64) -> RetireTally
    requires ways { ways.accepted + (ways.hits + (ways.missed + ways.faulted)) ≤ MAX_PIPS }
    requires failed { failed ≤ MAX_PIPS }
    ensures hits { result.hits ≡ ways.hits }
    ensures ran { result.ran ≡ ways.accepted + (ways.missed + ways.faulted) }
    ensures late { result.late ≡ ways.missed + ways.faulted }
    ensures faults { result.faults ≡ ways.faulted + failed }
{
    RetireTally {
        hits: ways.hits,
        ran: ways.accepted + (ways.missed + ways.faulted),
        late: ways.missed + ways.faulted,
        faults: ways.faulted + failed,
    }
}
