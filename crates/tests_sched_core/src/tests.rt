use crate::both::{Both, graph_of};
use crate::dice::{some_event, some_graph};
use sched_core::{Event, PipState};
use std::alloc::{AllocError, Global};
use std::process::Abort;

// A process, a pip that is none, one that waits for both, and one that waits for that.
const FOUR_PIPS: &[(bool, &[u32])] = &[(true, &[]), (false, &[]), (false, &[0, 1]), (false, &[2])];

// Two pips that wait for nothing, and are no processes.
const TWO_PIPS: &[(bool, &[u32])] = &[(false, &[]), (false, &[])];

// What is there, or else the test ends.
fn must<T>(rt: &impl Abort, answer: Result<T, AllocError>) -> T {
    match answer {
        Ok(value) => value,
        Err(_) => rt.abort(),
    }
}

fn both_of(rt: &impl Abort, alloc: Global, pips: &[(bool, &[u32])], workers: u32) -> Both {
    let graph = must(rt, graph_of(rt, alloc, pips));
    let same = must(rt, graph_of(rt, alloc, pips));
    must(rt, Both::new(rt, alloc, graph, same, workers))
}

// The letters of the eight events: a start, a lookup that hits or misses, a publication of a success or a failure,
// a completion, a skip and a release.
const LETTERS: &[u8] = b"shmgbcxr";

fn event_of(pip: u32, worker: u32, letter: u8) -> Event {
    match letter {
        b's' => Event::Start { pip, worker },
        b'h' => Event::Looked {
            pip,
            worker,
            hit: true,
        },
        b'm' => Event::Looked {
            pip,
            worker,
            hit: false,
        },
        b'g' => Event::Publish {
            pip,
            worker,
            good: true,
        },
        b'b' => Event::Publish {
            pip,
            worker,
            good: false,
        },
        b'c' => Event::Complete { pip, worker },
        b'x' => Event::Skip { pip, worker },
        _ => Event::Release { pip, worker },
    }
}

// Makes the events of these letters, in this order.
fn make(rt: &impl Abort, both: &mut Both, pip: u32, worker: u32, letters: &[u8]) {
    for letter in letters {
        assert!(rt; both.step(rt, &event_of(pip, worker, *letter)).is_ok());
    }
}

// Makes the events of a row: of each the pip, the worker and the letter.
fn make_row(rt: &impl Abort, both: &mut Both, row: &str) {
    for event in row.split(' ') {
        if let [pip, worker, letter] = event.as_bytes() {
            let pip = u32::from(*pip).wrapping_sub(48);
            let worker = u32::from(*worker).wrapping_sub(48);
            assert!(rt; both.step(rt, &event_of(pip, worker, *letter)).is_ok());
        } else {
            assert!(rt; event.is_empty());
        }
    }
}

// Just these of the eight events are allowed.
fn expect(rt: &impl Abort, both: &mut Both, pip: u32, worker: u32, allowed: &[u8]) {
    for letter in LETTERS {
        let event = event_of(pip, worker, *letter);
        let is_allowed = both.allows(&event);
        assert!(rt; is_allowed == allowed.contains(letter));
        if !is_allowed {
            assert!(rt; both.step(rt, &event).is_err());
        }
    }
}

// After the events of a row just these of the eight are allowed of the pip and the worker. Worker 2 has left before.
fn expect_cells(rt: &impl Abort, alloc: Global, row: &str, pip: u32, worker: u32, allowed: &str) {
    for letter in LETTERS {
        let mut both = both_of(rt, alloc, FOUR_PIPS, 3);
        make_row(rt, &mut both, "12s 12r");
        make_row(rt, &mut both, row);
        let is_allowed = both.step(rt, &event_of(pip, worker, *letter)).is_ok();
        assert!(rt; is_allowed == allowed.as_bytes().contains(letter));
    }
}

// Events, a pip, and the events of it that are then allowed of worker 0, and of worker 1.
const CELLS: &[(&str, u32, &str, &str)] = &[
    // a process
    ("", 0, "s", "s"),
    ("00s", 0, "hmr", ""),
    ("00s 00h", 0, "gr", ""),
    ("00s 00m", 0, "gbr", ""),
    ("00s 00h 00g", 0, "c", ""),
    ("00s 00m 00b", 0, "c", ""),
    ("00s 00m 00g 00c", 0, "", ""),
    ("00s 00m 00b 00c", 0, "", ""),
    ("00s 00r", 0, "", "s"),
    // a pip that is none
    ("", 1, "s", "s"),
    ("10s", 1, "gr", ""),
    ("10s 10g", 1, "c", ""),
    ("10s 10g 10c", 1, "", ""),
    // a worker that holds another
    ("10s", 0, "", "s"),
    // a pip that waits for a process that succeeded, and for one that did not yet
    ("", 2, "", ""),
    ("00s 00m 00g 00c 10s", 2, "", ""),
    // for a process that failed, and for a pip that was skipped
    ("00s 00m 00b 00c 10s", 2, "", "x"),
    ("00s 00m 00b 00c 21x", 2, "", ""),
    ("00s 00m 00b 00c 21x", 3, "x", "x"),
    // no pip
    ("", 9, "", ""),
];

#[test]
fn all_cells_of_the_table(rt: HostRuntime) {
    for (row, pip, first, second) in CELLS {
        expect_cells(&rt, rt.alloc(), row, *pip, 0, first);
        expect_cells(&rt, rt.alloc(), row, *pip, 1, second);
        expect_cells(&rt, rt.alloc(), row, *pip, 2, "");
    }
}

#[test]
fn a_pip_waits_for_both_of_its_inputs(rt: HostRuntime) {
    let mut both = both_of(&rt, rt.alloc(), FOUR_PIPS, 3);
    make(&rt, &mut both, 0, 0, b"shgc");
    expect(&rt, &mut both, 2, 0, b"");
    make(&rt, &mut both, 1, 1, b"sr");
    make(&rt, &mut both, 1, 2, b"sg");
    expect(&rt, &mut both, 2, 0, b"");
    make(&rt, &mut both, 1, 2, b"c");
    expect(&rt, &mut both, 2, 1, b"");
    expect(&rt, &mut both, 2, 2, b"s");
}

#[test]
fn a_pip_of_another_worker_does_not_start(rt: HostRuntime) {
    let mut both = both_of(&rt, rt.alloc(), TWO_PIPS, 2);
    make(&rt, &mut both, 0, 0, b"s");
    match both.step(&rt, &event_of(0, 1, b's')) {
        Ok(()) => assert!(rt; false),
        Err(illegal) => {
            assert!(rt; illegal.state() == Some(PipState::Held(0)));
            assert!(rt; illegal.busy() == None && !illegal.left());
        }
    }
    make(&rt, &mut both, 0, 0, b"gc");
    assert!(rt; both.state(0) == Some(PipState::Done(true)));
    assert!(rt; both.state(1) == Some(PipState::Waiting));
}

// Four workers, and pips by chance.
fn some_pips(rt: &impl Abort, alloc: Global, seed: u64, pips: u32) -> Both {
    let graph = must(rt, some_graph(rt, alloc, seed, pips));
    let same = must(rt, some_graph(rt, alloc, seed, pips));
    must(rt, Both::new(rt, alloc, graph, same, 4))
}

// Gives both 200 events, allowed or not.
fn any_events(rt: &impl Abort, both: &mut Both, seed: u64) {
    let mut dice = seed;
    for _ in 0..200 {
        let _ = both.step(rt, &some_event(&mut dice, 31, 4));
    }
}

// Gives both up to 200 allowed events, and answers their number.
fn allowed_events(rt: &impl Abort, both: &mut Both, seed: u64) -> u32 {
    let mut dice = seed;
    let mut made = 0;
    for _ in 0..60000 {
        let event = some_event(&mut dice, 60, 4);
        if made < 200 && both.allows(&event) {
            assert!(rt; both.step(rt, &event).is_ok());
            made += 1;
        }
    }
    made
}

#[test]
fn random_events_are_taken_as_the_table_says(rt: HostRuntime) {
    for seed in 0..4 {
        let mut both = some_pips(&rt, rt.alloc(), seed, 30);
        any_events(&rt, &mut both, seed);
    }
}

#[test]
fn a_long_legal_list_is_taken(rt: HostRuntime) {
    let mut both = some_pips(&rt, rt.alloc(), 1, 60);
    let made = allowed_events(&rt, &mut both, 7);
    assert!(rt; 100 <= made);
}
