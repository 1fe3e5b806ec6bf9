//! The program `bxl`: the engine over standard input, output and error, a cache folder and a folder of graphs.
//!
//! This crate opens the real streams and the folders and passes them to the engine. It depends on `bx_io_system` for
//! both, on `bx_io_folder` for the stores in the folders, on `bx_io`, whose traits they implement, and on `bx_engine`.
#![tactic(auto)]

ghost use Rattle.std.specs.Prelude.{◌≡◌, [], ℕ, List, IfOk, None, Some, map, string_bytes};
ghost use Rattle.bx_io.specs.Holdings.{AreNames, Holdings, opened};
ghost use Rattle.bx_engine.specs.Beyond.{GoesBeyond};
ghost use Rattle.bx_engine.specs.Calls.{change_of, given_of, graph_call_of, written_of};
ghost use Rattle.bx_engine.specs.Headline.{KeepsHeadline};
ghost use Rattle.bx_engine_words.specs.Words.{Orders, OrdersBuild};

use bx_engine::{Status, command_graphs};
use bx_io::{Keeper, OpenGate, Sink, Source};
use bx_io_folder::FolderKeeper;
use bx_io_system::{StdSink, StdSource, SystemDisk, program_words};
use std::alloc::{AllocError, Global};
use std::io::{Stderr, Stdin, Stdout};
use std::process::ExitCode;
use std::rt::Files;
use std::sync::Wait;
use std::thread::Threads;

/// The folder of the working directory that holds results from one build to the next.
const FOLDER: &str = ".bxl-cache";

/// The folder of the working directory that holds the pips of specifications from one build to the next.
const GRAPHS: &str = ".bxl-graphs";

/// How a call ended, and the outside as it left it.
#[derive(Drop)]
struct Done {
    status: Status,
    source: StdSource<Stdin>,
    out: StdSink<Stdout>,
    notes: StdSink<Stderr>,
    keeper: FolderKeeper<SystemDisk<HostRuntime>>,
    graphs: FolderKeeper<SystemDisk<HostRuntime>>,
}

/// The store over the folder of results.
fn keeper(
    rt: &HostRuntime,
    alloc: Global,
) -> Result<FolderKeeper<SystemDisk<HostRuntime>>, AllocError>
    ghost held: { Holdings }
    requires { AreNames held }
    ensures known { IfOk result (λ keeper. ⟦<FolderKeeper<SystemDisk<HostRuntime>> as Keeper>⟧.known keeper
        ≡ opened held) }
    ensures faults { IfOk result (λ keeper.
        ⟦<FolderKeeper<SystemDisk<HostRuntime>> as Keeper>⟧.faults keeper ≡ 0) }
{
    let disk = SystemDisk::new(rt.clone()?, String::from_str(alloc, FOLDER)?);
    Ok(FolderKeeper::new(disk))
}

/// The store over the folder of graphs.
fn graph_keeper(
    rt: &HostRuntime,
    alloc: Global,
) -> Result<FolderKeeper<SystemDisk<HostRuntime>>, AllocError>
    ghost held: { Holdings }
    requires { AreNames held }
    ensures known { IfOk result (λ keeper. ⟦<FolderKeeper<SystemDisk<HostRuntime>> as Keeper>⟧.known keeper
        ≡ opened held) }
    ensures faults { IfOk result (λ keeper.
        ⟦<FolderKeeper<SystemDisk<HostRuntime>> as Keeper>⟧.faults keeper ≡ 0) }
{
    let disk = SystemDisk::new(rt.clone()?, String::from_str(alloc, GRAPHS)?);
    Ok(FolderKeeper::new(disk))
}

/// One call over the streams of the system and the folders. It is proved of all that standard input and the folders
/// may hold at first: where the disk returned just that with what the call put, or where the words say
/// `--no-cache`, the promise of the engine holds, and the input is what standard input gave. Where memory is
/// lacking for the objects themselves nothing was read or written.
fn run<H: Threads + Wait + Sync>(
    threads: &H,
    rt: &HostRuntime,
    words: &[String],
) -> Result<Done, AllocError>
    ghost first: { List ℕ × Holdings × Holdings }
    requires { AreNames first.1 × AreNames first.2 }
    ensures headline { IfOk result (λ done. KeepsHeadline (OrdersBuild (map string_bytes words.now)) (graph_call_of done.status
        (given_of [] (⟦<StdSource<Stdin> as Source>⟧.given done.source) (Some first.0)
        (⟦<StdSource<Stdin> as Source>⟧.left done.source) (⟦<StdSource<Stdin> as Source>⟧.ended done.source) 0
        (⟦<StdSource<Stdin> as Source>⟧.faults done.source))
        (written_of [] (⟦<StdSink<Stdout> as Sink>⟧.taken done.out) 0
        (⟦<StdSink<Stdout> as Sink>⟧.faults done.out))
        (written_of [] (⟦<StdSink<Stderr> as Sink>⟧.taken done.notes) 0
        (⟦<StdSink<Stderr> as Sink>⟧.faults done.notes))
        (change_of (opened first.1)
        (⟦<FolderKeeper<SystemDisk<HostRuntime>> as Keeper>⟧.known done.keeper) None 0
        (⟦<FolderKeeper<SystemDisk<HostRuntime>> as Keeper>⟧.faults done.keeper))
        (change_of (opened first.2)
        (⟦<FolderKeeper<SystemDisk<HostRuntime>> as Keeper>⟧.known done.graphs) None 0
        (⟦<FolderKeeper<SystemDisk<HostRuntime>> as Keeper>⟧.faults done.graphs)))) }
    ensures beyond { IfOk result (λ done. GoesBeyond (Orders (map string_bytes words.now)) (graph_call_of done.status
        (given_of [] (⟦<StdSource<Stdin> as Source>⟧.given done.source) (Some first.0)
        (⟦<StdSource<Stdin> as Source>⟧.left done.source) (⟦<StdSource<Stdin> as Source>⟧.ended done.source) 0
        (⟦<StdSource<Stdin> as Source>⟧.faults done.source))
        (written_of [] (⟦<StdSink<Stdout> as Sink>⟧.taken done.out) 0
        (⟦<StdSink<Stdout> as Sink>⟧.faults done.out))
        (written_of [] (⟦<StdSink<Stderr> as Sink>⟧.taken done.notes) 0
        (⟦<StdSink<Stderr> as Sink>⟧.faults done.notes))
        (change_of (opened first.1)
        (⟦<FolderKeeper<SystemDisk<HostRuntime>> as Keeper>⟧.known done.keeper) None 0
        (⟦<FolderKeeper<SystemDisk<HostRuntime>> as Keeper>⟧.faults done.keeper))
        (change_of (opened first.2)
        (⟦<FolderKeeper<SystemDisk<HostRuntime>> as Keeper>⟧.known done.graphs) None 0
        (⟦<FolderKeeper<SystemDisk<HostRuntime>> as Keeper>⟧.faults done.graphs)))) }
{
    let alloc = rt.alloc();
    let mut results = keeper(rt, alloc)?;
    let mut graphs = graph_keeper(rt, alloc)?;
    let mut source = StdSource::new(rt.stdin());
    let mut out = StdSink::new(rt.stdout());
    let mut notes = StdSink::new(rt.stderr());
    let status = command_graphs(
        threads,
        alloc,
        words,
        &mut source,
        &mut out,
        &mut notes,
        &mut results,
        &mut graphs,
        &OpenGate,
    );
    Ok(Done {
        status,
        source,
        out,
        notes,
        keeper: results,
        graphs,
    })
}

/// The exit code of that call.
fn exit_code<H: Threads + Wait + Sync>(
    threads: &H,
    rt: &HostRuntime,
    words: &[String],
) -> ExitCode {
    // The check reads the type of the store only in a function that names the type of its listings.
    let _: Option<<HostRuntime as Files>::Dir> = None;
    match run(threads, rt, words) {
        Ok(done) => ExitCode::from(done.status.code()),
        Err(_) => ExitCode::from(Status::OutOfMemory.code()),
    }
}

fn main(rt: HostRuntime) -> ExitCode {
    match program_words(&rt) {
        Ok(words) => exit_code(&rt, &rt, &words),
        Err(_) => ExitCode::from(Status::OutOfMemory.code()),
    }
}
