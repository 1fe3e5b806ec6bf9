//! A check, a repair and a trim of the store.

ghost use Rattle.std.specs.Prelude.{◌≡◌, ◌⊎◌, ◌++◌, Err, IfOk, IsSome, OnErr, OnOk, Some, if◌then◌else◌, map, string_bytes};
ghost use Rattle.std.specs.List.{flat_map};
ghost use Rattle.bx_io.specs.Holdings.{Holdings, IsAlone, Keeps, MakesPrefix, held_in};
ghost use Rattle.two_phase.specs.Calls.{KeeperCall};
ghost use Rattle.cache_care_check.specs.CareLists.{has_bad_remark, line_remark};
ghost use Rattle.cache_care.specs.Counts.{CountsMade};
ghost use Rattle.cache_care.specs.Planning.{OnlyDrops};
ghost use Rattle.cache_care.specs.Repairing.{DoesRepair, DoesRepairInPart};
ghost use Rattle.cache_care.specs.Trimming.{DoesTrim, OnlyTrims, trims};
ghost use Rattle.bx_engine.specs.Calls.{change_of, written_of};
ghost use Rattle.bx_engine.specs.Care.{OfCheck, OfRepair, OfTrim, care_line, check_text, count_text};
ghost use Rattle.bx_engine.specs.Care.{ChangesAlone, fault_status};
ghost use Rattle.bx_engine.specs.Expected.{AppendsOrFails};
ghost use Rattle.bx_engine.specs.Statuses.{HasNoNotes, IsGone};

use crate::status::Status;
use crate::writing::write_all;
use bx_io::{Keeper, PutFault, Sink};
use bx_tree::Memory;
use cache_care::{
    CareCount, CareFault, CareLine, CareList, check_store, check_tells, has_bad, repair_store,
    repaired_is_honest, repairs_leave_repaired, repairs_stay_honest, trim_store,
    trims_leave_trimmed, trims_stay_honest,
};
use std::alloc::Global;

// The status of a call that stopped.
fn stopped(fault: CareFault) -> Status
    ensures { result ≡ fault_status fault }
{
    match fault {
        CareFault::Failed => Status::KeeperFailed,
        CareFault::Memory => Status::OutOfMemory,
    }
}

// Adds the line of a name that is told.
fn add_line(alloc: Global, text: &mut Vec<u8>, line: &CareLine) -> Result<(), Memory>
    ensures { OnOk result (text.new.items ≡ text.old.items ++ care_line line.now) }
{
    match line {
        CareLine::Damaged(name) => {
            let added = format!(in alloc; "damaged {name}\n")?;
            text.extend_from_slice(added.as_bytes())
        }
        CareLine::Bad(name) => {
            let added = format!(in alloc; "bad {name}\n")?;
            text.extend_from_slice(added.as_bytes())
        }
    }
}

// Adds the line of each name that is told.
fn add_lines(alloc: Global, text: &mut Vec<u8>, lines: &[CareLine]) -> Result<(), Memory>
    ensures { OnOk result (text.new.items ≡ text.old.items ++ flat_map care_line lines.now) }
{
    'lines: for line in lines {
        add_line(alloc, text, line)?;
    }
    Ok(())
}

// The notes of a check.
fn check_notes(alloc: Global, list: &CareList) -> Result<Vec<u8>, Memory>
    ensures { IfOk result (λ text. text.items ≡ check_text list.now) }
{
    let mut text = Vec::new(alloc);
    add_lines(alloc, &mut text, list.lines.as_slice())?;
    let names = list.names;
    let entries = list.entries;
    let counts = format!(in alloc; "names {names}\nentries {entries}\n")?;
    text.extend_from_slice(counts.as_bytes())?;
    Ok(text)
}

// The notes of a repair or a trim.
fn count_notes(alloc: Global, count: CareCount) -> Result<String, Memory>
    ensures { IfOk result (λ text. string_bytes text ≡ count_text count) }
{
    let kept = count.kept;
    let dropped = count.dropped;
    let text = format!(in alloc; "kept {kept}\ndropped {dropped}\n")?;
    Ok(text)
}

// The status of a check that came to its end.
fn status_of_check(list: &CareList) -> Status
    ensures { result ≡ (if has_bad_remark (map line_remark list.now.lines.items)
        then Status.FailuresFound else Status.Done) }
{
    if has_bad(list) {
        Status::FailuresFound
    } else {
        Status::Done
    }
}

// Writes what a check tells.
fn tell_list<N: Sink>(alloc: Global, notes: &mut N, list: &CareList) -> Status
    ensures status { (result ≡ (if has_bad_remark (map line_remark list.now.lines.items)
        then Status.FailuresFound else Status.Done)) ⊎ (result ≡ Status.OutOfMemory) }
    ensures noted { IsGone result → AppendsOrFails (check_text list.now) (N.taken notes.old)
        (N.taken notes.new) (N.faults notes.old) (N.faults notes.new) }
    ensures no_notes { result ≡ Status.OutOfMemory → notes.new ≡ notes.old }
{
    match check_notes(alloc, list) {
        Ok(text) => {
            let _ = write_all(notes, text.as_slice());
            status_of_check(list)
        }
        Err(_) => Status::OutOfMemory,
    }
}

/// Tells which names of the store are damaged and which of its entries are not honest.
pub(crate) fn check<N: Sink, K: Keeper>(alloc: Global, notes: &mut N, keeper: &mut K) -> Status
    ensures checked { OfCheck result
        (written_of (N.taken notes.old) (N.taken notes.new) (N.faults notes.old) (N.faults notes.new))
        (change_of (K.known keeper.old) (K.known keeper.new) (K.bound keeper.old) (K.faults keeper.old)
        (K.faults keeper.new)) }
    ensures no_notes { HasNoNotes result → notes.new ≡ notes.old }
    ensures bound { K.bound keeper.new ≡ K.bound keeper.old }
{
    check_tells();
    match check_store(alloc, keeper) {
        Ok(list) => tell_list(alloc, notes, &list),
        Err(fault) => stopped(fault),
    }
}

// Writes how many names were kept and dropped.
fn tell_count<N: Sink>(alloc: Global, notes: &mut N, count: CareCount) -> Status
    ensures status { (result ≡ Status.Done) ⊎ (result ≡ Status.OutOfMemory) }
    ensures noted { result ≡ Status.Done → AppendsOrFails (count_text count) (N.taken notes.old)
        (N.taken notes.new) (N.faults notes.old) (N.faults notes.new) }
    ensures no_notes { result ≡ Status.OutOfMemory → notes.new ≡ notes.old }
{
    match count_notes(alloc, count) {
        Ok(text) => {
            let _ = write_all(notes, text.as_bytes());
            Status::Done
        }
        Err(_) => Status::OutOfMemory,
    }
}

// Asks the store to work alone.
fn ask_alone<K: Keeper>(alloc: Global, keeper: &mut K) -> Result<(), CareFault>
    ensures granted { OnOk result (IsAlone (K.known keeper.new)) }
    ensures known { Keeps (K.known keeper.old) (K.known keeper.new) }
    ensures keeper { KeeperCall (K.bound keeper.old) (K.bound keeper.new) (K.faults keeper.old)
        (K.faults keeper.new) (result ≡ Err CareFault.Failed) }
{
    match keeper.alone(alloc) {
        Ok(()) => Ok(()),
        Err(PutFault::Failed) => Err(CareFault::Failed),
        Err(PutFault::Memory) => Err(CareFault::Memory),
    }
}

// A repair of a store that works alone. Where that is refused nothing is done.
fn repair_alone<K: Keeper>(alloc: Global, keeper: &mut K) -> Result<CareCount, CareFault>
    ensures repaired { (S : Holdings) → held_in (K.known keeper.old) ≡ Some S → IsSome (held_in (K.known keeper.new))
        → IfOk result (DoesRepair S (K.known keeper.old) (K.known keeper.new)) }
    ensures cut { (S : Holdings) → held_in (K.known keeper.old) ≡ Some S → IsSome (held_in (K.known keeper.new))
        → OnErr result (DoesRepairInPart S (K.known keeper.old) (K.known keeper.new)) }
    ensures counted { IfOk result (CountsMade (K.known keeper.old) (K.known keeper.new)) }
    ensures drops { OnlyDrops (K.known keeper.old) (K.known keeper.new) }
    ensures alone { ChangesAlone (K.known keeper.old) (K.known keeper.new) }
    ensures keeper { KeeperCall (K.bound keeper.old) (K.bound keeper.new) (K.faults keeper.old)
        (K.faults keeper.new) (result ≡ Err CareFault.Failed) }
{
    ask_alone(alloc, keeper)?;
    repair_store(alloc, keeper)
}

// A trim of a store that works alone. Where that is refused nothing is done.
fn trim_alone<K: Keeper>(alloc: Global, keeper: &mut K, keep: u32) -> Result<CareCount, CareFault>
    ensures trimmed { (S : Holdings) → held_in (K.known keeper.old) ≡ Some S → IsSome (held_in (K.known keeper.new))
        → IfOk result (DoesTrim S keep (K.known keeper.old) (K.known keeper.new)) }
    ensures cut { (S : Holdings) → held_in (K.known keeper.old) ≡ Some S → IsSome (held_in (K.known keeper.new))
        → OnErr result (MakesPrefix (K.known keeper.old) (K.known keeper.new) (trims S keep)) }
    ensures counted { IfOk result (CountsMade (K.known keeper.old) (K.known keeper.new)) }
    ensures trims { OnlyTrims (K.known keeper.old) (K.known keeper.new) }
    ensures alone { ChangesAlone (K.known keeper.old) (K.known keeper.new) }
    ensures keeper { KeeperCall (K.bound keeper.old) (K.bound keeper.new) (K.faults keeper.old)
        (K.faults keeper.new) (result ≡ Err CareFault.Failed) }
{
    ask_alone(alloc, keeper)?;
    trim_store(alloc, keeper, keep)
}

/// Drops from the store each bad entry, and then each damaged name, where nobody else uses it.
pub(crate) fn repair<N: Sink, K: Keeper>(alloc: Global, notes: &mut N, keeper: &mut K) -> Status
    ensures repaired { OfRepair result
        (written_of (N.taken notes.old) (N.taken notes.new) (N.faults notes.old) (N.faults notes.new))
        (change_of (K.known keeper.old) (K.known keeper.new) (K.bound keeper.old) (K.faults keeper.old)
        (K.faults keeper.new)) }
    ensures no_notes { HasNoNotes result → notes.new ≡ notes.old }
    ensures bound { K.bound keeper.new ≡ K.bound keeper.old }
{
    repairs_leave_repaired();
    repaired_is_honest();
    repairs_stay_honest();
    match repair_alone(alloc, keeper) {
        Ok(count) => tell_count(alloc, notes, count),
        Err(fault) => stopped(fault),
    }
}

/// Leaves of each list of the store its first selectors, and what they lead to, where nobody else uses it.
pub(crate) fn trim<N: Sink, K: Keeper>(
    alloc: Global,
    notes: &mut N,
    keeper: &mut K,
    keep: u32,
) -> Status
    ensures trimmed { OfTrim keep result
        (written_of (N.taken notes.old) (N.taken notes.new) (N.faults notes.old) (N.faults notes.new))
        (change_of (K.known keeper.old) (K.known keeper.new) (K.bound keeper.old) (K.faults keeper.old)
        (K.faults keeper.new)) }
    ensures no_notes { HasNoNotes result → notes.new ≡ notes.old }
    ensures bound { K.bound keeper.new ≡ K.bound keeper.old }
{
    trims_leave_trimmed();
    trims_stay_honest();
    match trim_alone(alloc, keeper, keep) {
        Ok(count) => tell_count(alloc, notes, count),
        Err(fault) => stopped(fault),
    }
}
