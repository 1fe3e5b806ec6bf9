//! Repairs of a store.
ghost use Rattle.std.specs.Prelude.{◌≡◌, ◌≤◌, ◌++◌, All, Err, IfOk, IsSome, OnErr, OnOk, Some, length, map, string_bytes};
ghost use Rattle.bx_io.specs.Holdings.{Drop, Holdings, held_in, name_of};
ghost use Rattle.bx_io.specs.Names.{IsName};
ghost use Rattle.two_phase.specs.Calls.{KeeperCall};
ghost use Rattle.cache_care.specs.Counts.{CountsMade, drop_count};
ghost use Rattle.cache_care.specs.Planning.{OnlyDrops, planned_change};
ghost use Rattle.cache_care.specs.Repairing.{DoesRepair, DoesRepairInPart, names_found, repairs as changes_of};

use crate::planning::{CareCount, Planned, apply_all, counted};
use bx_io::Keeper;
use cache_care_check::{CareFault, Finding, Survey, survey_store};
use std::alloc::{AllocError, Global};

// Plans to drop each name of which this is found.
fn drop_found(plan: &mut Vec<Planned>, survey: &Survey, wanted: Finding) -> Result<(), AllocError>
    requires { length survey.now.findings.items ≡ length survey.now.names.items }
    ensures { OnOk result (map planned_change plan.new.items ≡ map planned_change plan.old.items
        ++ map Drop (names_found wanted (map string_bytes survey.now.names.items) survey.now.findings.items)) }
{
    'names: for place in 0..survey.names.len() {
        if survey.findings[place] == wanted {
            plan.push(Planned::Drop(survey.names[place].clone()?))?;
        }
    }
    Ok(())
}

// The changes of a repair: bad entries first, so that no entry stays whose contents are dropped.
fn repairs(alloc: Global, survey: &Survey) -> Result<Vec<Planned>, AllocError>
    requires number { length survey.now.findings.items ≡ length survey.now.names.items }
    requires names { All (λ name. IsName (string_bytes name)) survey.now.names.items }
    ensures plan { IfOk result (λ plan. map planned_change plan.items
        ≡ changes_of (map string_bytes survey.now.names.items) survey.now.findings.items) }
    ensures names { IfOk result (λ plan. All (λ planned. IsName (name_of (planned_change planned))) plan.items) }
    ensures few { IfOk result (λ plan.
        drop_count (map planned_change plan.items) ≤ length survey.now.names.items) }
{
    let mut plan = Vec::new(alloc);
    drop_found(&mut plan, survey, Finding::Bad)?;
    drop_found(&mut plan, survey, Finding::Damaged)?;
    Ok(plan)
}

/// Drops each entry that is held as its name says and is not honest, and then each name that is not well-formed. It stops
/// at the first call of the store that fails; then a part of that was dropped.
pub fn repair_store<K: Keeper>(alloc: Global, keeper: &mut K) -> Result<CareCount, CareFault>
    ensures repaired { (S : Holdings) → held_in (K.known keeper.old) ≡ Some S → IsSome (held_in (K.known keeper.new))
        → IfOk result (DoesRepair S (K.known keeper.old) (K.known keeper.new)) }
    ensures cut { (S : Holdings) → held_in (K.known keeper.old) ≡ Some S → IsSome (held_in (K.known keeper.new))
        → OnErr result (DoesRepairInPart S (K.known keeper.old) (K.known keeper.new)) }
    ensures counted { IfOk result (CountsMade (K.known keeper.old) (K.known keeper.new)) }
    ensures drops { OnlyDrops (K.known keeper.old) (K.known keeper.new) }
    ensures keeper { KeeperCall (K.bound keeper.old) (K.bound keeper.new) (K.faults keeper.old)
        (K.faults keeper.new) (result ≡ Err CareFault.Failed) }
{
    let survey = survey_store(alloc, keeper)?;
    let plan = repairs(alloc, &survey)?;
    apply_all(alloc, keeper, plan.as_slice())?;
    Ok(counted(survey.names.len(), plan.as_slice()))
}
