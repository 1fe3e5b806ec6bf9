//! What one, two and three workers make of two pips, and of pips that are given back.
ghost use Rattle.std.specs.Prelude.{◌≡◌, ◌<◌, ◌≤◌};

use pip_model::Plan;
use sched_board::{Finished, Held};
use sched_core::{Event, MAX_WORKERS};
use std::alloc::Global;
use std::marker::Brand;
use std::process::Abort;
use std::sync::ledger::Ledger;
use std::sync::{Arc, ledger};
use tests_with_board::{Bench, Fault, NO_FILES, sources, two_writes, write_and_copy};

fn start(pip: u32, worker: u32) -> Event {
    Event::Start { pip, worker }
}

fn publish(pip: u32, worker: u32) -> Event {
    let good = true;
    Event::Publish { pip, worker, good }
}

fn complete(pip: u32, worker: u32) -> Event {
    Event::Complete { pip, worker }
}

fn release(pip: u32, worker: u32) -> Event {
    Event::Release { pip, worker }
}

// What is there, or else the test ends.
fn must<T>(rt: &impl Abort, answer: Result<T, Fault>) -> T {
    match answer {
        Ok(value) => value,
        Err(_) => rt.abort(),
    }
}

// Whether the slot holds just this file, of the text `x`.
fn is_file(slot: &Held, at: &str) -> bool {
    match slot {
        Held::Plain(made) => {
            let files = made.files();
            files.len() == 1
                && files[0].path.text() == at
                && files[0].blob.bytes() == b"x".as_slice()
        }
        Held::Empty | Held::Ran(_) | Held::Hit(_) | Held::Skipped => false,
    }
}

// Both files stand in the slots, and just these events were made.
fn expect(rt: &impl Abort, made: &Finished, events: &[Event]) {
    assert!(rt; made.history.as_slice() == events);
    let slots = made.slots.as_slice();
    assert!(rt; slots.len() == 2);
    assert!(rt; is_file(&slots[0], "out/a") && is_file(&slots[1], "out/b"));
}

// A board of a plan without files.
fn bench_of<L: Ledger, E: Ledger, R: Abort>(
    rt: &R,
    alloc: Global,
    plan: Arc<Plan>,
    workers: u32,
    events: ledger::Blank,
    marks: ledger::Blank,
) -> Bench<L, E>
    requires workers { (0 < workers) × (workers ≤ MAX_WORKERS) }
    requires events { (events.name ≡ L.name) × (events.parts ≡ L.parts) × (L.parts ≡ workers) }
    requires marks { (marks.name ≡ E.name) × (marks.parts ≡ E.parts) × (E.parts ≡ workers) }
{
    let files = must(rt, sources(alloc, NO_FILES));
    must(rt, Bench::new(alloc, plan, files, workers, events, marks))
}

// A worker makes the least pip that may start, which is this one.
fn make<L: Ledger, E: Ledger>(
    rt: &impl Abort,
    alloc: Global,
    bench: &mut Bench<L, E>,
    worker: usize,
    pip: u32,
) {
    let job = must(rt, bench.claimed(worker));
    assert!(rt; job.pip() == pip);
    must(rt, bench.make(alloc, worker, job));
}

// A worker gives the least pip that may start back, which is this one.
fn give_back<L: Ledger, E: Ledger>(
    rt: &impl Abort,
    bench: &mut Bench<L, E>,
    worker: usize,
    pip: u32,
) {
    let job = must(rt, bench.claimed(worker));
    assert!(rt; job.pip() == pip);
    must(rt, bench.give_back(worker, job));
}

// Worker 0 makes one pip, and holds the other while worker 1 asks.
fn by_one_of_two<L: Ledger, E: Ledger, R: Abort>(
    rt: &R,
    alloc: Global,
    events: ledger::Blank,
    marks: ledger::Blank,
) -> Finished
    requires events { (events.name ≡ L.name) × (events.parts ≡ L.parts) × (L.parts ≡ 2) }
    requires marks { (marks.name ≡ E.name) × (marks.parts ≡ E.parts) × (E.parts ≡ 2) }
{
    let plan = must(rt, two_writes(alloc));
    let mut bench = bench_of::<L, E, R>(rt, alloc, plan, 2, events, marks);
    make(rt, alloc, &mut bench, 0, 0);
    let job = must(rt, bench.claimed(0));
    assert!(rt; job.pip() == 1);
    assert!(rt; bench.told(1) == "not yet");
    must(rt, bench.make(alloc, 0, job));
    assert!(rt; !bench.has_mark(1));
    assert!(rt; bench.told(1) == "over");
    assert!(rt; bench.has_mark(1) && !bench.has_mark(0));
    must(rt, bench.finish(2))
}

#[test]
fn a_worker_waits_while_another_holds_the_last_pip(rt: HostRuntime) {
    let made = by_one_of_two::<Brand, Brand, _>(
        &rt,
        rt.alloc(),
        ledger::Blank::new(2),
        ledger::Blank::new(2),
    );
    let events: &[Event] = &[
        start(0, 0),
        publish(0, 0),
        complete(0, 0),
        start(1, 0),
        publish(1, 0),
        complete(1, 0),
    ];
    expect(&rt, &made, events);
}

// Worker 0 gives pip 0 back, and worker 1 makes all.
fn by_the_second_of_two<L: Ledger, E: Ledger, R: Abort>(
    rt: &R,
    alloc: Global,
    events: ledger::Blank,
    marks: ledger::Blank,
) -> Finished
    requires events { (events.name ≡ L.name) × (events.parts ≡ L.parts) × (L.parts ≡ 2) }
    requires marks { (marks.name ≡ E.name) × (marks.parts ≡ E.parts) × (E.parts ≡ 2) }
{
    let plan = must(rt, write_and_copy(alloc, "x"));
    let mut bench = bench_of::<L, E, R>(rt, alloc, plan, 2, events, marks);
    let job = must(rt, bench.claimed(0));
    assert!(rt; bench.told(1) == "not yet");
    must(rt, bench.give_back(0, job));
    assert!(rt; bench.told(0) == "left");
    make(rt, alloc, &mut bench, 1, 0);
    make(rt, alloc, &mut bench, 1, 1);
    assert!(rt; bench.told(1) == "over");
    must(rt, bench.finish(2))
}

#[test]
fn another_worker_makes_what_is_given_back(rt: HostRuntime) {
    let made = by_the_second_of_two::<Brand, Brand, _>(
        &rt,
        rt.alloc(),
        ledger::Blank::new(2),
        ledger::Blank::new(2),
    );
    let events: &[Event] = &[
        start(0, 0),
        release(0, 0),
        start(0, 1),
        publish(0, 1),
        complete(0, 1),
        start(1, 1),
        publish(1, 1),
        complete(1, 1),
    ];
    expect(&rt, &made, events);
}

// Worker 0 makes pip 0 and gives pip 1 back, worker 1 gives it back too, and worker 2 makes it.
fn by_all_of_three<L: Ledger, E: Ledger, R: Abort>(
    rt: &R,
    alloc: Global,
    events: ledger::Blank,
    marks: ledger::Blank,
) -> Finished
    requires events { (events.name ≡ L.name) × (events.parts ≡ L.parts) × (L.parts ≡ 3) }
    requires marks { (marks.name ≡ E.name) × (marks.parts ≡ E.parts) × (E.parts ≡ 3) }
{
    let plan = must(rt, write_and_copy(alloc, "x"));
    let mut bench = bench_of::<L, E, R>(rt, alloc, plan, 3, events, marks);
    make(rt, alloc, &mut bench, 0, 0);
    give_back(rt, &mut bench, 0, 1);
    give_back(rt, &mut bench, 1, 1);
    let job = must(rt, bench.claimed(2));
    assert!(rt; bench.told(1) == "left");
    must(rt, bench.make(alloc, 2, job));
    assert!(rt; bench.told(0) == "left");
    assert!(rt; bench.told(2) == "over");
    assert!(rt; bench.has_mark(2) && !bench.has_mark(1));
    must(rt, bench.finish(3))
}

#[test]
fn two_of_three_workers_give_a_pip_back(rt: HostRuntime) {
    let made = by_all_of_three::<Brand, Brand, _>(
        &rt,
        rt.alloc(),
        ledger::Blank::new(3),
        ledger::Blank::new(3),
    );
    let events: &[Event] = &[
        start(0, 0),
        publish(0, 0),
        complete(0, 0),
        start(1, 0),
        release(1, 0),
        start(1, 1),
        release(1, 1),
        start(1, 2),
        publish(1, 2),
        complete(1, 2),
    ];
    expect(&rt, &made, events);
}
