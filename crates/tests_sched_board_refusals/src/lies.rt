//! What a worker shows that the board does not find.
ghost use Rattle.std.specs.Prelude.{◌≡◌};

use crate::runs::{SMALLER, TOOL_FILE, WEAK, must, process, record};
use bx_digest::Digest;
use observed::Answer;
use pip_model::{Made, Plan};
use pip_view_inputs::{Inputs, plain};
use sched_board::{Finished, Held, Job, Unlike};
use sched_core::Event;
use std::alloc::Global;
use std::marker::Brand;
use std::process::Abort;
use std::sync::ledger;
use std::sync::ledger::Ledger;
use tests_with_board::{Bench, Fate, NO_FILES, run_and_copy, sources, write_and_copy};

fn is_digest(digest: Digest, text: &str) -> bool {
    Digest::from_hex(text.as_bytes()) == Ok(digest)
}

// The difference is this one.
fn expect(rt: &impl Abort, unlike: &Unlike, index: u64, held: &str, own: &str) {
    assert!(rt; unlike.index() == index);
    assert!(rt; is_digest(unlike.held(), held));
    assert!(rt; is_digest(unlike.now(), own));
}

// What is shown is refused.
fn refused<L: Ledger, E: Ledger>(rt: &impl Abort, fate: Fate<L, E>) -> (Job<L, E>, Unlike) {
    match fate {
        Fate::Refused(job, unlike) => (job, unlike),
        Fate::Done | Fate::Gone(_) => rt.abort(),
    }
}

// What is shown is published.
fn done<L: Ledger, E: Ledger>(rt: &impl Abort, fate: Fate<L, E>) {
    match fate {
        Fate::Done => {}
        Fate::Refused(job, _) => {
            job.drop_unfit();
            rt.abort()
        }
        Fate::Gone(_) => rt.abort(),
    }
}

// The digests of `output out/a D`, D the digest of `x` and of `y`.
const OF_X: &str = "1efcbe8c45bfaa34b977209334574153357e06b87ff1d6eccc3f00090624693e";

const OF_Y: &str = "dcf400899cf302ec95d285393d410309617c2073b4f612f264cc03d56a5135ef";

// What pip 0 writes where it writes `y`.
fn other_file(rt: &impl Abort, alloc: Global) -> Made {
    let plan = must(rt, write_and_copy(alloc, "y"));
    let files = must(rt, sources(alloc, NO_FILES));
    let inputs = Inputs::new(alloc);
    must(rt, plain(alloc, &*plan, &*files, 0, &inputs))
}

// Shows another text of pip 0 than it writes, and gives the pip back.
fn another_text<L: Ledger, E: Ledger, R: Abort>(
    rt: &R,
    alloc: Global,
    events: ledger::Blank,
    marks: ledger::Blank,
) -> Finished
    requires events { (events.name ≡ L.name) × (events.parts ≡ L.parts) × (L.parts ≡ 1) }
    requires marks { (marks.name ≡ E.name) × (marks.parts ≡ E.parts) × (E.parts ≡ 1) }
{
    let plan = must(rt, write_and_copy(alloc, "x"));
    let files = must(rt, sources(alloc, NO_FILES));
    let mut bench = must(rt, Bench::<L, E>::new(alloc, plan, files, 1, events, marks));
    let job = must(rt, bench.claimed(0));
    match bench.unfit(0) {
        None => rt.abort(),
        Some(unfit) => assert!(rt; unfit.state().is_none() && unfit.busy() == Some(0)),
    }
    let fate = bench.show_files(alloc, 0, job, other_file(rt, alloc));
    let (job, unlike) = refused(rt, fate);
    expect(rt, &unlike, 0, OF_Y, OF_X);
    must(rt, bench.give_back(0, job));
    must(rt, bench.finish(1))
}

#[test]
fn another_text_is_refused(rt: HostRuntime) {
    let made = another_text::<Brand, Brand, _>(
        &rt,
        rt.alloc(),
        ledger::Blank::new(1),
        ledger::Blank::new(1),
    );
    let (pip, worker) = (0, 0);
    let events: &[Event] = &[Event::Start { pip, worker }, Event::Release { pip, worker }];
    assert!(rt; made.history.as_slice() == events);
}

// The digests of both weak texts.
const OF_SMALLER: &str = "b915f22f4555e203a87eafb1fa9cfb0c3147f267a6fd234335df8878515f8d0a";

const OF_WEAK: &str = "a30a9e7873ec0c45f4375b6b52377546359a9a51e885d29878498df6bdce2241";

// The digests of the lines `file` and `absent`.
const OF_FILE: &str = "8b911a8716b94442f9ca3dff20584048536e4c2f47b8b5bb9096cbd43c3432d5";

const OF_ABSENT: &str = "7925d3e9a9613a093e5eb4054b32aa39de910d2b03ba7e8046c3b4550b8de1e4";

// Shows the run of another process, then one that found a file second, and then what there is.
fn another_run<L: Ledger, E: Ledger, R: Abort>(
    rt: &R,
    alloc: Global,
    events: ledger::Blank,
    marks: ledger::Blank,
) -> Finished
    requires events { (events.name ≡ L.name) × (events.parts ≡ L.parts) × (L.parts ≡ 1) }
    requires marks { (marks.name ≡ E.name) × (marks.parts ≡ E.parts) × (E.parts ≡ 1) }
{
    let plan = must(rt, run_and_copy(alloc, process(rt, alloc)));
    let files = must(rt, sources(alloc, TOOL_FILE));
    let mut bench = must(rt, Bench::<L, E>::new(alloc, plan, files, 1, events, marks));
    let mut job = must(rt, bench.claimed(0));
    must(rt, bench.look(0, &mut job));
    let other = record(rt, alloc, SMALLER, &Answer::Absent);
    let (job, unlike) = refused(rt, bench.show_run(alloc, 0, job, other));
    expect(rt, &unlike, 0, OF_SMALLER, OF_WEAK);
    let lie = record(rt, alloc, WEAK, &Answer::File);
    let (job, unlike) = refused(rt, bench.show_run(alloc, 0, job, lie));
    expect(rt, &unlike, 2, OF_FILE, OF_ABSENT);
    let ran = record(rt, alloc, WEAK, &Answer::Absent);
    done(rt, bench.show_run(alloc, 0, job, ran));
    assert!(rt; bench.told(0) == "skipped");
    assert!(rt; bench.told(0) == "over");
    must(rt, bench.finish(1))
}

#[test]
fn another_run_is_refused(rt: HostRuntime) {
    let made = another_run::<Brand, Brand, _>(
        &rt,
        rt.alloc(),
        ledger::Blank::new(1),
        ledger::Blank::new(1),
    );
    let (pip, worker, hit, good) = (0, 0, false, false);
    let events: &[Event] = &[
        Event::Start { pip, worker },
        Event::Looked { pip, worker, hit },
        Event::Publish { pip, worker, good },
        Event::Complete { pip, worker },
        Event::Skip { pip: 1, worker },
    ];
    assert!(rt; made.history.as_slice() == events);
    let slots = made.slots.as_slice();
    assert!(rt; slots.len() == 2);
    assert!(rt; matches!(&slots[0], Held::Ran(_)) && matches!(&slots[1], Held::Skipped));
}
