//! For tests: whole calls of `command` with in-memory sources, sinks and stores. The outputs and answers of each
//! are one text.
#![tactic(auto)]

mod over_stores;
mod watched;

use bx_engine::{command, command_graphs};
use bx_io::{FailKeeper, Gate, Keeper, MemKeeper, MemSink, MemSource};
pub use over_stores::{
    ALL_HIT, ALL_RAN, FIRST_CALLS, INPUT, TWO_RAN, are_built, is_built, is_built_without_cache,
    is_rebuilt, left_after, runs_after_puts,
};
use std::alloc::{AllocError, Global};
use std::sync::Wait;
use std::sync::atomic::AtomicU32;
use std::sync::atomic::Ordering::Relaxed;
use std::thread::Threads;

/// A gate that counts for how many runs it was passed, and for which pips.
#[derive(Drop)]
pub struct CountGate {
    passed: AtomicU32,
    by_pip: AtomicU32,
}

/// What one run of a pip adds to the counts by pip: a one for the first pips, each at a place of its own.
fn mark(pip: u32) -> u32 {
    match pip {
        0 => 1,
        1 => 100,
        2 => 10_000,
        3 => 1_000_000,
        _ => 100_000_000,
    }
}

impl Gate for CountGate {
    fn pass(&self, pip: u32) {
        self.passed.fetch_add(1, Relaxed);
        self.by_pip.fetch_add(mark(pip), Relaxed);
    }
}

impl CountGate {
    /// A gate that nothing passed yet.
    pub fn new() -> CountGate {
        CountGate {
            passed: AtomicU32::new(0),
            by_pip: AtomicU32::new(0),
        }
    }

    /// How many runs of each pip passed it: two decimal digits for each of the first four, the last two for pip 0.
    pub fn passed_by_pip(&self) -> u32 {
        self.by_pip.load(Relaxed)
    }

    /// How many runs passed it.
    pub fn passed(&self) -> u32 {
        self.passed.load(Relaxed)
    }
}

/// The streams of a call: the most bytes that one read or write moves, and the number of the call of each that
/// fails, or 0.
#[derive(Clone, Copy)]
pub struct Streams {
    pub chunk: usize,
    pub source_fails: u64,
    pub out_fails: u64,
    pub notes_fail: u64,
}

/// Streams of which no call fails.
pub const NO_FAULTS: Streams = Streams {
    chunk: 4096,
    source_fails: 0,
    out_fails: 0,
    notes_fail: 0,
};

fn words(alloc: Global, texts: &[&str]) -> Result<Vec<String>, AllocError> {
    let mut words = Vec::new(alloc);
    for text in texts {
        words.push(String::from_str(alloc, text)?)?;
    }
    Ok(words)
}

fn source_of(alloc: Global, input: &[u8], streams: Streams) -> Result<MemSource, AllocError> {
    let failing = [streams.source_fails].to_vec(alloc)?;
    Ok(MemSource::new(input.to_vec(alloc)?, streams.chunk.max(1), failing))
}

fn sink_of(alloc: Global, streams: Streams, fails: u64) -> Result<MemSink, AllocError> {
    let failing = [fails].to_vec(alloc)?;
    MemSink::new(alloc, 10_000, streams.chunk.max(1), failing)
}

/// A store that holds nothing, and whose call with this number fails, if it is not 0.
pub fn empty_keeper(alloc: Global, fails: u64) -> Result<MemKeeper, AllocError> {
    Ok(MemKeeper::new(alloc, [fails].to_vec(alloc)?))
}

/// The same with readers that do not fail.
pub fn keeper_of(alloc: Global, fails: u64) -> Result<FailKeeper, AllocError> {
    Ok(FailKeeper::new(empty_keeper(alloc, fails)?, Vec::new(alloc)))
}

/// Adds what was written, what was noted, and the status.
fn add_answer(
    seen: &mut Vec<u8>,
    out: &MemSink,
    notes: &MemSink,
    code: u8,
) -> Result<(), AllocError> {
    seen.extend_from_slice(out.taken())?;
    seen.extend_from_slice(b"notes ")?;
    seen.extend_from_slice(notes.taken())?;
    seen.extend_from_slice(match code {
        0 => b"status 0",
        1 => b"status 1",
        5 => b"status 5",
        6 => b"status 6",
        8 => b"status 8",
        _ => b"status ?",
    })
}

/// Adds what a call with these words comes to.
fn add_call<H: Threads + Wait + Sync, K: Keeper, G: Gate>(
    rt: &H,
    alloc: Global,
    texts: &[&str],
    source: &mut MemSource,
    streams: Streams,
    keeper: &mut K,
    gate: &G,
    seen: &mut Vec<u8>,
) -> Result<(), AllocError> {
    let words = words(alloc, texts)?;
    let mut out = sink_of(alloc, streams, streams.out_fails)?;
    let mut notes = sink_of(alloc, streams, streams.notes_fail)?;
    let status = command(
        rt, alloc, &words, source, &mut out, &mut notes, keeper, gate,
    );
    add_answer(seen, &out, &notes, status.code())
}

/// Adds what a command of these words comes to, which takes no input: the output, `notes ` and the notes, and `status ` and
/// the status.
pub fn add_command<H: Threads + Wait + Sync, K: Keeper>(
    rt: &H,
    alloc: Global,
    texts: &[&str],
    keeper: &mut K,
    seen: &mut Vec<u8>,
) -> Result<(), AllocError> {
    let words = words(alloc, texts)?;
    let mut source = source_of(alloc, b"", NO_FAULTS)?;
    let mut out = sink_of(alloc, NO_FAULTS, 0)?;
    let mut notes = sink_of(alloc, NO_FAULTS, 0)?;
    let gate = CountGate::new();
    let status = command(
        rt,
        alloc,
        &words,
        &mut source,
        &mut out,
        &mut notes,
        keeper,
        &gate,
    );
    add_answer(seen, &out, &notes, status.code())
}

/// Adds what a build of this input by so many workers comes to: the output, `notes ` and the notes, and `status ` and
/// the status.
pub fn add_build<H: Threads + Wait + Sync, K: Keeper, G: Gate>(
    rt: &H,
    alloc: Global,
    workers: &str,
    input: &str,
    streams: Streams,
    keeper: &mut K,
    gate: &G,
    seen: &mut Vec<u8>,
) -> Result<(), AllocError> {
    let mut source = source_of(alloc, input.as_bytes(), streams)?;
    let texts = ["build", "--workers", workers];
    add_call(rt, alloc, &texts, &mut source, streams, keeper, gate, seen)
}

/// Adds what a build of this input comes to that does not use the store.
pub fn add_build_without_cache<H: Threads + Wait + Sync, K: Keeper, G: Gate>(
    rt: &H,
    alloc: Global,
    input: &str,
    keeper: &mut K,
    gate: &G,
    seen: &mut Vec<u8>,
) -> Result<(), AllocError> {
    let mut source = source_of(alloc, input.as_bytes(), NO_FAULTS)?;
    let texts = ["build", "--no-cache"];
    add_call(
        rt,
        alloc,
        &texts,
        &mut source,
        NO_FAULTS,
        keeper,
        gate,
        seen,
    )
}

/// Adds what a command of these words comes to over this input, a store and a store of graphs: the output, `notes ` and
/// the notes, and `status ` and the status.
pub fn add_graph_command<H: Threads + Wait + Sync, K: Keeper, M: Keeper>(
    rt: &H,
    alloc: Global,
    texts: &[&str],
    input: &str,
    keeper: &mut K,
    graphs: &mut M,
    seen: &mut Vec<u8>,
) -> Result<(), AllocError> {
    let mut words = Vec::new(alloc);
    for text in texts {
        words.push(String::from_str(alloc, text)?)?;
    }
    let mut source = source_of(alloc, input.as_bytes(), NO_FAULTS)?;
    let mut out = sink_of(alloc, NO_FAULTS, 0)?;
    let mut notes = sink_of(alloc, NO_FAULTS, 0)?;
    let gate = CountGate::new();
    let status = command_graphs(
        rt,
        alloc,
        &words,
        &mut source,
        &mut out,
        &mut notes,
        keeper,
        graphs,
        &gate,
    );
    add_answer(seen, &out, &notes, status.code())
}
