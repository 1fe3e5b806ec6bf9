use bx_io::FailKeeper;
use std::alloc::{AllocError, Global};
use std::test::Fail;
use tests_with_engine::{
    ALL_HIT, ALL_RAN, CountGate, FIRST_CALLS, are_built, empty_keeper, is_built,
    is_built_without_cache, keeper_of, left_after, runs_after_puts,
};

const ALL_RAN_WITH_A_FAULT: &str =
    "notes hits 0\nran 3\nlate 0\nstore-faults 1\nstarved 0\nstatus 0";

const ONE_RAN: &str = "notes hits 2\nran 1\nlate 0\nstore-faults 0\nstarved 0\nstatus 0";

const ONE_RAN_WITH_A_FAULT: &str =
    "notes hits 2\nran 1\nlate 0\nstore-faults 1\nstarved 0\nstatus 0";

const TWO_RAN_WITH_TWO_FAULTS: &str =
    "notes hits 1\nran 2\nlate 1\nstore-faults 2\nstarved 0\nstatus 0";

/// A record whose call fails is left out, and so is run once more.
#[test]
fn leaves_out_a_record_where_a_call_of_the_keeper_fails(rt: HostRuntime) -> Result<(), Fail> {
    let alloc = rt.alloc();
    let gate = CountGate::new();
    for number in 1..=FIRST_CALLS {
        let mut keeper = keeper_of(alloc, number)?;
        let series = [ALL_RAN_WITH_A_FAULT, ONE_RAN, ALL_HIT];
        assert!(rt; are_built(&rt, alloc, &mut keeper, &gate, &series)?);
    }
    // A build in which all are taken from the store makes no call of the keeper, of which the next would fail.
    let mut keeper = keeper_of(alloc, FIRST_CALLS + 1)?;
    assert!(rt; are_built(&rt, alloc, &mut keeper, &gate, &[ALL_RAN, ALL_HIT])?);
    // The gate is passed once for each process that runs, and not for one that is taken from the store.
    assert_eq!(rt; gate.passed(), 24 * 4 + 3);
    Ok(())
}

/// With the cache and without it the gate is passed once by each process that runs, which are the pips 1 to 3. Without
/// it the keeper is not called, of which the first call would fail.
#[test]
fn passes_the_gate_once_for_each_run(rt: HostRuntime) -> Result<(), Fail> {
    let alloc = rt.alloc();
    let with_cache = CountGate::new();
    let mut keeper = keeper_of(alloc, 0)?;
    assert!(rt; are_built(&rt, alloc, &mut keeper, &with_cache, &[ALL_RAN, ALL_HIT])?);
    assert_eq!(rt; with_cache.passed_by_pip(), 1_010_100);
    let without = CountGate::new();
    let mut keeper = keeper_of(alloc, 1)?;
    assert!(rt; is_built_without_cache(&rt, alloc, &mut keeper, &without)?);
    assert_eq!(rt; without.passed_by_pip(), 1_010_100);
    Ok(())
}

/// Nothing is put before all pips are decided. Of the 24 calls of the store three read lists, and the others are puts.
#[test]
fn saves_after_all_runs(rt: HostRuntime) -> Result<(), Fail> {
    assert_eq!(rt; runs_after_puts(&rt, rt.alloc())?, (21, 0));
    Ok(())
}

/// What the tests compare a build with is told from notes of the same length.
#[test]
fn tells_other_notes_of_one_length(rt: HostRuntime) -> Result<(), Fail> {
    let alloc = rt.alloc();
    let gate = CountGate::new();
    assert!(rt; !is_built(&rt, alloc, "1", &mut keeper_of(alloc, 0)?, &gate, ALL_HIT)?);
    assert!(rt;
        !are_built(
            &rt,
            alloc,
            &mut keeper_of(alloc, 0)?,
            &gate,
            &[ALL_RAN, ALL_RAN]
        )?
    );
    assert!(rt; left_after(&rt, alloc, FIRST_CALLS, ALL_HIT)?.is_none());
    Ok(())
}

/// The notes of the first build by one worker where the call with this number fails. It finds no list: its worker calls the
/// store for each of the three processes once.
fn first_notes(number: u64) -> &'static str {
    if number <= 3 {
        ALL_RAN_WITH_A_FAULT
    } else {
        ALL_RAN
    }
}

/// The notes of the second. Each lookup reads the list, the path set, the entry and the file, but the third process has the path
/// set of the second, which a reader remembers. The process that the worker runs after its fault is looked up by nobody else; so
/// where the results are collected the reader makes seven or eight calls alone.
fn second_notes(number: u64) -> &'static str {
    match number {
        0..=8 => TWO_RAN_WITH_TWO_FAULTS,
        9..=11 => ONE_RAN_WITH_A_FAULT,
        _ => ALL_HIT,
    }
}

/// An empty store, of which each reader fails at its call with this number.
fn failing_at(alloc: Global, number: u64) -> Result<FailKeeper, AllocError> {
    Ok(FailKeeper::new(empty_keeper(alloc, 0)?, [number].to_vec(alloc)?))
}

#[test]
fn runs_a_process_where_a_call_of_a_reader_fails(rt: HostRuntime) -> Result<(), Fail> {
    let alloc = rt.alloc();
    let gate = CountGate::new();
    for number in 1..=13u64 {
        let mut keeper = failing_at(alloc, number)?;
        for notes in [first_notes(number), second_notes(number)] {
            assert!(rt; is_built(&rt, alloc, "1", &mut keeper, &gate, notes)?);
        }
    }
    Ok(())
}

/// With several workers it is open who looks up what.
#[test]
fn builds_the_same_where_calls_of_several_readers_fail(rt: HostRuntime) -> Result<(), Fail> {
    let alloc = rt.alloc();
    let gate = CountGate::new();
    for workers in ["2", "4"] {
        for number in 1..=13u64 {
            let mut keeper = failing_at(alloc, number)?;
            for notes in ["", ""] {
                assert!(rt; is_built(&rt, alloc, workers, &mut keeper, &gate, notes)?);
            }
        }
    }
    Ok(())
}
