use crate::caring::{comes_to, count_names, is_honest};
use bx_io::{Keeper, MemKeeper, StopKeeper, is_name};
use std::alloc::{AllocError, Global};
use std::process::Abort;
use std::sync::Wait;
use std::thread::Threads;
use tests_with_engine::{
    ALL_HIT, ALL_RAN, CountGate, FIRST_CALLS, TWO_RAN, empty_keeper, is_built, is_rebuilt,
    left_after,
};

// What is there, or else the test ends.
fn must<T>(rt: &impl Abort, answer: Result<T, AllocError>) -> T {
    match answer {
        Ok(value) => value,
        Err(_) => rt.abort(),
    }
}

// A command over a store writes just these notes and gives this status.
fn gives<R: Abort + Threads + Wait + Sync, K: Keeper>(
    rt: &R,
    alloc: Global,
    words: &[&str],
    keeper: &mut K,
    expected: &str,
) {
    let same = must(rt, comes_to(rt, alloc, words, keeper, expected));
    assert!(rt; same);
}

// A check of the store gives status 0, whatever its notes.
fn honest<R: Abort + Threads + Wait + Sync>(rt: &R, alloc: Global, keeper: &mut MemKeeper) {
    let is_honest = must(rt, is_honest(rt, alloc, keeper));
    assert!(rt; is_honest);
}

// A build over the store gives its files, whatever its notes.
fn builds<R: Abort + Threads + Wait + Sync, K: Keeper>(
    rt: &R,
    alloc: Global,
    keeper: &mut K,
    notes: &str,
) {
    let gate = CountGate::new();
    let is_built = must(rt, is_built(rt, alloc, "4", keeper, &gate, notes));
    assert!(rt; is_built);
}

// A build with another header comes to these notes.
fn rebuilds<R: Abort + Threads + Wait + Sync, K: Keeper>(
    rt: &R,
    alloc: Global,
    keeper: &mut K,
    notes: &str,
) {
    let is_rebuilt = must(rt, is_rebuilt(rt, alloc, keeper, notes));
    assert!(rt; is_rebuilt);
}

// What a build leaves that is cut off after this many calls of its store.
fn left<R: Abort + Threads + Wait + Sync>(
    rt: &R,
    alloc: Global,
    calls: u64,
    notes: &str,
) -> MemKeeper {
    match must(rt, left_after(rt, alloc, calls, notes)) {
        Some(left) => left,
        None => rt.abort(),
    }
}

// The content that the second process takes and makes, and that the third takes, is damaged.
fn damage<R: Abort + Threads + Wait + Sync>(rt: &R, alloc: Global, keeper: &mut MemKeeper) {
    let name = "b/76e4f88db35ae88f004a6fb266222f6afb70090466f8524f05cf32d4263d3c1c";
    assert!(rt; is_name(name.as_bytes()));
    let bytes = must(rt, b"x".to_vec(alloc));
    must(rt, keeper.set_raw(alloc, name, bytes));
}

const FAILED: &str = "notes status 8";

const CHECK: &[&str] = &["check"];

const REPAIR: &[&str] = &["repair"];

const TRIM_TO_NONE: &[&str] = &["trim", "--keep", "0"];

const TRIM_TO_ONE: &[&str] = &["trim", "--keep", "1"];

/// A store without names.
#[test]
fn cares_for_an_empty_store(rt: HostRuntime) {
    let mut keeper = must(&rt, empty_keeper(rt.alloc(), 0));
    gives(
        &rt,
        rt.alloc(),
        CHECK,
        &mut keeper,
        "notes names 0\nentries 0\nstatus 0",
    );
    gives(
        &rt,
        rt.alloc(),
        REPAIR,
        &mut keeper,
        "notes kept 0\ndropped 0\nstatus 0",
    );
    gives(
        &rt,
        rt.alloc(),
        TRIM_TO_NONE,
        &mut keeper,
        "notes kept 0\ndropped 0\nstatus 0",
    );
}

/// The first call of the store fails.
#[test]
fn stops_where_the_store_fails(rt: HostRuntime) {
    gives(
        &rt,
        rt.alloc(),
        CHECK,
        &mut must(&rt, empty_keeper(rt.alloc(), 1)),
        FAILED,
    );
    gives(
        &rt,
        rt.alloc(),
        REPAIR,
        &mut must(&rt, empty_keeper(rt.alloc(), 1)),
        FAILED,
    );
    gives(
        &rt,
        rt.alloc(),
        TRIM_TO_ONE,
        &mut must(&rt, empty_keeper(rt.alloc(), 1)),
        FAILED,
    );
}

/// A build is cut off after each of its calls: the store is honest, and the next build gives its files.
#[test]
fn a_build_that_stops_leaves_an_honest_store(rt: HostRuntime) {
    for calls in 0..FIRST_CALLS {
        let mut keeper = left(&rt, rt.alloc(), calls, "");
        honest(&rt, rt.alloc(), &mut keeper);
        builds(&rt, rt.alloc(), &mut keeper, "");
    }
}

/// A trim to no selectors is cut off after each of its calls: a list of the names, the gets of three lists, and 21 drops.
#[test]
fn a_trim_to_nothing_that_stops_leaves_an_honest_store(rt: HostRuntime) {
    for calls in 0..=25u64 {
        let mut cut = StopKeeper::new(left(&rt, rt.alloc(), FIRST_CALLS, ALL_RAN), calls);
        let whole = "notes kept 0\ndropped 21\nstatus 0";
        gives(
            &rt,
            rt.alloc(),
            TRIM_TO_NONE,
            &mut cut,
            if calls == 25 { whole } else { FAILED },
        );
        let mut keeper = cut.into_inner();
        honest(&rt, rt.alloc(), &mut keeper);
        builds(&rt, rt.alloc(), &mut keeper, "");
    }
}

// What a trim to one selector calls after a second build: the list of the names; the gets of four lists; of each of four
// entries that stay the get of the entry, of its weak text and of its strong text; and then it drops an entry, puts a list, and
// drops a strong text and what that alone names.
const TRIM_CALLS: u64 = 21;

/// A trim to one selector is cut off after each of its calls: the store is honest, and the second build finds all.
#[test]
fn a_trim_that_stops_leaves_an_honest_store(rt: HostRuntime) {
    for calls in 0..=TRIM_CALLS {
        let mut keeper = left(&rt, rt.alloc(), FIRST_CALLS, ALL_RAN);
        rebuilds(&rt, rt.alloc(), &mut keeper, TWO_RAN);
        let mut cut = StopKeeper::new(keeper, calls);
        let whole = "notes kept 27\ndropped 3\nstatus 0";
        gives(
            &rt,
            rt.alloc(),
            TRIM_TO_ONE,
            &mut cut,
            if calls == TRIM_CALLS { whole } else { FAILED },
        );
        let mut keeper = cut.into_inner();
        honest(&rt, rt.alloc(), &mut keeper);
        rebuilds(&rt, rt.alloc(), &mut keeper, ALL_HIT);
    }
}

/// A repair is cut off after each of its calls, which are the list of the names, a get of each, and three drops: each build
/// over what it leaves gives its files, and then the store is honest.
#[test]
fn a_repair_that_stops_can_be_made_again(rt: HostRuntime) {
    for calls in 0..=25u64 {
        let mut damaged = left(&rt, rt.alloc(), FIRST_CALLS, ALL_RAN);
        damage(&rt, rt.alloc(), &mut damaged);
        let mut cut = StopKeeper::new(damaged, calls);
        let whole = "notes kept 18\ndropped 3\nstatus 0";
        gives(
            &rt,
            rt.alloc(),
            REPAIR,
            &mut cut,
            if calls == 25 { whole } else { FAILED },
        );
        let mut keeper = cut.into_inner();
        builds(&rt, rt.alloc(), &mut keeper, "");
        honest(&rt, rt.alloc(), &mut keeper);
    }
}

// A store after a build, damaged, of which this call fails, counted from here on, and no other.
fn failing_at<R: Abort + Threads + Wait + Sync>(rt: &R, alloc: Global, number: u64) -> MemKeeper {
    let mut keeper = must(rt, empty_keeper(alloc, FIRST_CALLS.saturating_add(number)));
    builds(rt, alloc, &mut keeper, ALL_RAN);
    damage(rt, alloc, &mut keeper);
    keeper
}

// A command fails, and has dropped this many of 21 names.
fn fails_after<R: Abort + Threads + Wait + Sync>(
    rt: &R,
    alloc: Global,
    words: &[&str],
    keeper: &mut MemKeeper,
    dropped: u64,
) {
    gives(rt, alloc, words, keeper, FAILED);
    assert!(rt; count_names(alloc, keeper) == Some(21u64.saturating_sub(dropped)));
}

/// One call of a repair or a trim fails, and none after it would: nothing was changed after it, nor was it tried again.
#[test]
fn stops_at_the_first_call_that_fails(rt: HostRuntime) {
    for number in 1..=25u64 {
        let repaired = number.saturating_sub(23);
        fails_after(
            &rt,
            rt.alloc(),
            REPAIR,
            &mut failing_at(&rt, rt.alloc(), number),
            repaired,
        );
        let trimmed = number.saturating_sub(5);
        fails_after(
            &rt,
            rt.alloc(),
            TRIM_TO_NONE,
            &mut failing_at(&rt, rt.alloc(), number),
            trimmed,
        );
    }
}
