use crate::{MeetGate, OneFailsKeeper, ScarceKeeper};
use std::test::Fail;
use tests_with_engine::{
    ALL_HIT, ALL_RAN, CountGate, FIRST_CALLS, empty_keeper, is_built, keeper_of, left_after,
};

const ALL_LATE: &str = "notes hits 0\nran 3\nlate 3\nstore-faults 0\nstarved 1\nstatus 0";

const ALL_FOUND_LATE: &str = "notes hits 3\nran 0\nlate 0\nstore-faults 0\nstarved 1\nstatus 0";

const ONE_RAN_AHEAD: &str = "notes hits 2\nran 1\nlate 0\nstore-faults 1\nstarved 0\nstatus 0";

const ONE_RAN_LATE: &str = "notes hits 2\nran 1\nlate 1\nstore-faults 1\nstarved 0\nstatus 0";

/// The first two processes wait for no other.
#[test]
fn two_workers_run_two_processes_at_the_same_time(rt: HostRuntime) -> Result<(), Fail> {
    let alloc = rt.alloc();
    let gate = MeetGate::new();
    let mut keeper = keeper_of(alloc, 0)?;
    assert!(rt; is_built(&rt, alloc, "2", &mut keeper, &gate, ALL_RAN)?);
    assert!(rt; gate.has_met());
    Ok(())
}

#[test]
fn workers_look_before_they_run(rt: HostRuntime) -> Result<(), Fail> {
    let alloc = rt.alloc();
    for workers in ["1", "2", "4", "64"] {
        let gate = CountGate::new();
        let mut keeper = keeper_of(alloc, 0)?;
        assert!(rt; is_built(&rt, alloc, workers, &mut keeper, &gate, ALL_RAN)?);
        assert_eq!(rt; gate.passed(), 3);
        assert!(rt; is_built(&rt, alloc, workers, &mut keeper, &gate, ALL_HIT)?);
        assert_eq!(rt; gate.passed(), 3);
    }
    Ok(())
}

/// The one worker leaves at the first process, and all is done when the results are collected.
#[test]
fn a_worker_that_finds_no_memory_leaves(rt: HostRuntime) -> Result<(), Fail> {
    let alloc = rt.alloc();
    let gate = CountGate::new();
    let mut keeper = ScarceKeeper::new(empty_keeper(alloc, 0)?);
    assert!(rt; is_built(&rt, alloc, "1", &mut keeper, &gate, ALL_LATE)?);
    let Some(full) = left_after(&rt, alloc, FIRST_CALLS, ALL_RAN)? else {
        return Err("the first build gives something else".into());
    };
    let mut keeper = ScarceKeeper::new(full);
    assert!(rt; is_built(&rt, alloc, "1", &mut keeper, &gate, ALL_FOUND_LATE)?);
    Ok(())
}

/// Another may do all that the first leaves.
#[test]
fn others_go_on_without_a_worker_that_finds_no_memory(rt: HostRuntime) -> Result<(), Fail> {
    let alloc = rt.alloc();
    for workers in ["2", "4", "64"] {
        let mut keeper = ScarceKeeper::new(empty_keeper(alloc, 0)?);
        assert!(rt; is_built(&rt, alloc, workers, &mut keeper, &CountGate::new(), "")?);
    }
    Ok(())
}

/// The worker's reader is the first, and that of the thread that collects the results the second. Each reads four names
/// for each of three processes, but the path set of the third, which it remembers from the second.
#[test]
fn a_process_is_run_once_where_a_call_of_one_reader_fails(rt: HostRuntime) -> Result<(), Fail> {
    let alloc = rt.alloc();
    for (reader, notes) in [(0, ONE_RAN_AHEAD), (1, ONE_RAN_LATE)] {
        for call in 1..=12u64 {
            let Some(full) = left_after(&rt, alloc, FIRST_CALLS, ALL_RAN)? else {
                return Err("the first build gives something else".into());
            };
            let gate = CountGate::new();
            let mut keeper = OneFailsKeeper::new(full, reader, call);
            let expected = if call <= 11 { notes } else { ALL_HIT };
            assert!(rt; is_built(&rt, alloc, "1", &mut keeper, &gate, expected)?);
            assert_eq!(rt; gate.passed(), u32::from(call <= 11));
        }
    }
    Ok(())
}
