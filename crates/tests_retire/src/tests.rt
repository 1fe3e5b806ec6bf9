use crate::{Filled, Tally, is_reference, planned, slots_for};
use bx_engine::FrontEnd;
use bx_io::NoFaultKeeper;
use std::alloc::Global;
use std::test::Fail;
use tests_with_engine::INPUT;

// The same build with another header.
fn with_another_header(alloc: Global) -> Result<FrontEnd, Fail> {
    let input = INPUT.replace(alloc, "int h\n", "int H\n")?;
    planned(alloc, input.as_str())
}

// Whether the build by slots of these others is the reference build, with these counts.
fn comes_to(
    alloc: Global,
    others: &FrontEnd,
    filled: Filled,
    keeper: &mut NoFaultKeeper,
    cached: bool,
    tally: Tally,
) -> Result<bool, Fail> {
    let FrontEnd { plan, sources } = planned(alloc, INPUT)?;
    let slots = slots_for(alloc, &others.plan, &others.sources, filled)?;
    Ok(is_reference(alloc, &plan, &sources, slots, keeper, cached, tally)?)
}

/// Two objects are compiled and linked. The changed header is seen by one, and so by what links it.
#[test]
fn whatever_the_slots_hold_the_build_is_the_reference(rt: HostRuntime) -> Result<(), Fail> {
    let alloc = rt.alloc();
    let same = planned(alloc, INPUT)?;
    let changed = with_another_header(alloc)?;
    let mut keeper = NoFaultKeeper::new(alloc);
    for (others, filled, late) in [
        (&same, Filled::Never, 3),
        (&same, Filled::Each, 0),
        (&same, Filled::Turned, 3),
        (&changed, Filled::Each, 2),
        (&changed, Filled::Turned, 3),
    ] {
        assert!(rt; comes_to(alloc, others, filled, &mut keeper, false, (0, 3, late))?);
    }
    Ok(())
}

/// The first build fills the store.
#[test]
fn a_run_in_a_slot_is_taken_before_what_the_store_has(rt: HostRuntime) -> Result<(), Fail> {
    let alloc = rt.alloc();
    let same = planned(alloc, INPUT)?;
    let changed = with_another_header(alloc)?;
    let mut keeper = NoFaultKeeper::new(alloc);
    for (others, filled, tally) in [
        (&same, Filled::Each, (0, 3, 0)),
        (&same, Filled::Never, (3, 0, 0)),
        (&same, Filled::Turned, (3, 0, 0)),
        (&changed, Filled::Each, (2, 1, 0)),
        (&same, Filled::Each, (0, 3, 0)),
    ] {
        assert!(rt; comes_to(alloc, others, filled, &mut keeper, true, tally)?);
    }
    Ok(())
}
