//! The program `explain`: why processes would run again, what depends on what, and what is wrong in a tool.
//!
//! `explain tool FILE` says what is wrong in a tool or what its lines do, `explain graph` shows the pips of a bundle, and
//! `explain misses` says which processes the next build would run, and why. It depends on `explain_system` for its
//! commands and texts, on `tool_faults`, `pip_graph` and `build_misses`, and on `bx_io_system` and `bx_io_folder` for its
//! arguments and the cache.
#![tactic(auto)]

ghost use Rattle.std.specs.Prelude.{◌≡◌, IfOk, IsSome, Some, map};
ghost use Rattle.bx_io.specs.Holdings.{AreNames, Holdings, Keeps, held_in, opened};
ghost use Rattle.retire.specs.Over.{RunsOver};
ghost use Rattle.build_misses.specs.Reasoned.{AreReasoned};
ghost use Rattle.build_misses.specs.declared.finding.Miss.{Miss as AnyMiss};

use build_misses::{Miss, ReadFault, find_misses};
use bx_engine_front::{FrontEnd, Limits};
use bx_engine_words::{DEFAULT_EVAL_BUDGET, DEFAULT_TOOL_BUDGET};
use bx_io::{Keeper, Listed, OpenGate};
use bx_io_folder::FolderKeeper;
use bx_io_system::{SystemDisk, program_words};
use bx_tree::{MAX_BUNDLE_BYTES, MAX_FILE_BYTES, Memory};
use explain_system::{
    Command, PipEnd, Refused, ends_of, fault_lines, graph_page, miss_lines, plan_of_text,
    read_report, read_words, use_lines,
};
use pip_graph::graph_text;
use std::alloc::{AllocError, Global};
use std::fs::File;
use std::io::{self, ErrorKind, Read, Write};
use std::process::ExitCode;
use std::rt::Files;
use tool_faults::{find_faults, line_numbers};
use tool_text::{ToolFault, read_tool};

// The folder of the working directory that holds results from one build to the next.
const FOLDER: &str = ".bxl-cache";

const USAGE: &str =
    "usage: explain tool FILE | graph [--page] [--report FILE] | misses [OPTION ..]\n";

// How a call ends: with 0 and a text, with 1 and a text or a message, or with 2 and the usage.
#[derive(Drop)]
enum Ending {
    Done(Vec<u8>),
    Found(Vec<u8>),
    Refused(Vec<u8>),
    NoMemory,
    NoCommand,
}

fn refusing(message: Result<String, AllocError>) -> Ending {
    match message {
        Ok(message) => Ending::Refused(message.into_bytes()),
        Err(_) => Ending::NoMemory,
    }
}

fn done(text: Result<Vec<u8>, Memory>) -> Ending {
    match text {
        Ok(text) => Ending::Done(text),
        Err(_) => Ending::NoMemory,
    }
}

// Reads a text to its end, or to one byte more than a number of bytes.
fn read_up_to(alloc: Global, input: impl Read + Drop, most: usize) -> io::Result<Vec<u8>> {
    let mut input = input.take((most as u64).saturating_add(1));
    let mut text = Vec::new(alloc);
    input.read_to_end(&mut text)?;
    Ok(text)
}

fn open_and_read<R: Files>(rt: &R, alloc: Global, name: &str) -> io::Result<Vec<u8>> {
    let file = File::open(rt, name)?;
    read_up_to(alloc, file, MAX_FILE_BYTES)
}

// The bytes of a file.
fn read_file<R: Files>(rt: &R, alloc: Global, name: &str) -> Result<Vec<u8>, Ending> {
    match open_and_read(rt, alloc, name) {
        Ok(bytes) if bytes.len() > MAX_FILE_BYTES => {
            Err(refusing(format!(in alloc; "{name}: has more than {MAX_FILE_BYTES} bytes")))
        }
        Ok(bytes) => Ok(bytes),
        Err(error) if error.kind() == ErrorKind::OutOfMemory => Err(Ending::NoMemory),
        Err(_) => Err(refusing(format!(in alloc; "{name}: cannot be read"))),
    }
}

fn read_input(rt: &HostRuntime, alloc: Global) -> Result<Vec<u8>, Ending> {
    match read_up_to(alloc, rt.stdin(), MAX_BUNDLE_BYTES) {
        Ok(text) => Ok(text),
        Err(error) if error.kind() == ErrorKind::OutOfMemory => Err(Ending::NoMemory),
        Err(_) => Err(refusing(String::from_str(alloc, "standard input: cannot be read"))),
    }
}

// The plan of standard input.
fn read_plan(rt: &HostRuntime, alloc: Global, limits: &Limits) -> Result<FrontEnd, Ending> {
    let text = read_input(rt, alloc)?;
    match plan_of_text(alloc, &text, limits) {
        Ok(end) => Ok(end),
        Err(Refused::Message(message)) => Err(Ending::Refused(message)),
        Err(Refused::Memory) => Err(Ending::NoMemory),
    }
}

// What the lines of a tool do.
fn uses_of(alloc: Global, text: &[u8]) -> Result<Vec<u8>, Memory> {
    let numbers = line_numbers(alloc, text)?;
    match read_tool(alloc, text) {
        Ok(tool) => use_lines(alloc, &tool, numbers.as_slice()),
        Err(ToolFault::BadTool) => Ok(Vec::new(alloc)),
        Err(ToolFault::Memory) => Err(AllocError),
    }
}

fn explain_tool(alloc: Global, text: &[u8]) -> Ending {
    let Ok(faults) = find_faults(alloc, text) else {
        return Ending::NoMemory;
    };
    if faults.is_empty() {
        return done(uses_of(alloc, text));
    }
    match fault_lines(alloc, text, faults.as_slice()) {
        Ok(lines) => Ending::Found(lines),
        Err(_) => Ending::NoMemory,
    }
}

fn run_tool(rt: &HostRuntime, alloc: Global, name: &str) -> Ending {
    match read_file(rt, alloc, name) {
        Ok(text) => explain_tool(alloc, &text),
        Err(ending) => ending,
    }
}

// How the pips of a plan ended, as the report in a file says, if one is named.
fn read_ends(
    rt: &HostRuntime,
    alloc: Global,
    end: &FrontEnd,
    name: Option<&str>,
) -> Result<Vec<PipEnd>, Ending> {
    let Some(name) = name else {
        return Ok(Vec::new(alloc));
    };
    let text = read_file(rt, alloc, name)?;
    match read_report(alloc, &end.plan, &text) {
        Ok(Some(ends)) => Ok(ends),
        Ok(None) => Err(refusing(format!(in alloc; "{name}: no report of this bundle"))),
        Err(_) => Err(Ending::NoMemory),
    }
}

// The text of a graph, as a page or for Graphviz.
fn shown(alloc: Global, end: &FrontEnd, as_page: bool, ends: &[PipEnd]) -> Result<Vec<u8>, Memory> {
    if as_page {
        return graph_page(alloc, &end.plan, ends);
    }
    let ends = ends_of(alloc, ends)?;
    graph_text(alloc, &end.plan, ends.as_slice())
}

fn run_graph(rt: &HostRuntime, alloc: Global, as_page: bool, report: Option<&str>) -> Ending {
    let limits = Limits {
        eval_budget: DEFAULT_EVAL_BUDGET,
        tool_budget: DEFAULT_TOOL_BUDGET,
        types: false,
    };
    let end = match read_plan(rt, alloc, &limits) {
        Ok(end) => end,
        Err(ending) => return ending,
    };
    match read_ends(rt, alloc, &end, report) {
        Ok(ends) => done(shown(alloc, &end, as_page, ends.as_slice())),
        Err(ending) => ending,
    }
}

// What was found over the store, and the store as it is left.
#[derive(Drop)]
struct Asked {
    misses: Vec<Miss>,
    keeper: FolderKeeper<SystemDisk<HostRuntime>>,
}

/// The store over the folder.
fn keeper(
    rt: &HostRuntime,
    alloc: Global,
) -> Result<FolderKeeper<SystemDisk<HostRuntime>>, AllocError>
    ghost held: { Holdings }
    requires { AreNames held }
    ensures { IfOk result (λ keeper. ⟦<FolderKeeper<SystemDisk<HostRuntime>> as Keeper>⟧.known keeper
        ≡ opened held) }
{
    let disk = SystemDisk::new(rt.clone()?, String::from_str(alloc, FOLDER)?);
    Ok(FolderKeeper::new(disk))
}

// The names in a store.
fn names_of<K: Keeper>(alloc: Global, keeper: &mut K) -> Result<Vec<String>, ReadFault>
    ensures { Keeps (K.known keeper.old) (K.known keeper.new) }
{
    match keeper.names(alloc) {
        Listed::Names(names) => Ok(names),
        Listed::Failed => Err(ReadFault::Failed),
        Listed::Memory => Err(ReadFault::Memory),
    }
}

/// The processes that the next build of a plan would run over a store. Where the store tells to the end what it holds, these
/// are the processes that a build over that runs where no call of the store fails, each with its reason. Nothing in
/// the store is changed.
fn misses_over<K: Keeper>(
    alloc: Global,
    end: &FrontEnd,
    keeper: &mut K,
) -> Result<Vec<Miss>, ReadFault>
    ensures over { (S : Holdings) → held_in (K.known keeper.old) ≡ Some S → IsSome (held_in (K.known keeper.new))
        → IfOk result (λ misses. RunsOver end.now.plan.pips end.now.sources end.now.plan.tool_budget S
        (map (λ (miss : AnyMiss). miss.pip) misses.items)) }
    ensures reasons { (S : Holdings) → held_in (K.known keeper.old) ≡ Some S → IsSome (held_in (K.known keeper.new))
        → IfOk result (λ misses. AreReasoned end.now.plan.pips end.now.sources end.now.plan.tool_budget S misses.items) }
    ensures kept { Keeps (K.known keeper.old) (K.known keeper.new) }
{
    let names = names_of(alloc, keeper)?;
    let mut reader = keeper.reader(alloc)?;
    let found = find_misses(
        alloc,
        &end.plan,
        &end.sources,
        &mut reader,
        names,
        &OpenGate,
    );
    keeper.close(reader);
    found
}

/// The same over the folder. It is proved of all that the folder may hold at first: where the disk returned just that, these
/// are the processes that a build over it runs.
fn ask(rt: &HostRuntime, alloc: Global, end: &FrontEnd) -> Result<Asked, ReadFault>
    ghost first: { Holdings }
    requires { AreNames first }
    ensures over { IfOk result (λ asked.
        IsSome (held_in (⟦<FolderKeeper<SystemDisk<HostRuntime>> as Keeper>⟧.known asked.keeper))
        → RunsOver end.now.plan.pips end.now.sources end.now.plan.tool_budget first
        (map (λ (miss : AnyMiss). miss.pip) asked.misses.items)) }
    ensures reasons { IfOk result (λ asked.
        IsSome (held_in (⟦<FolderKeeper<SystemDisk<HostRuntime>> as Keeper>⟧.known asked.keeper))
        → AreReasoned end.now.plan.pips end.now.sources end.now.plan.tool_budget first asked.misses.items) }
    ensures kept { IfOk result (λ asked.
        Keeps (opened first)
        (⟦<FolderKeeper<SystemDisk<HostRuntime>> as Keeper>⟧.known asked.keeper)) }
{
    let mut keeper = keeper(rt, alloc)?;
    let misses = misses_over(alloc, end, &mut keeper)?;
    Ok(Asked { misses, keeper })
}

// The lines of the misses of a plan over the folder.
fn misses_of(rt: &HostRuntime, alloc: Global, end: &FrontEnd) -> Result<Vec<u8>, ReadFault> {
    // The check reads the type of the store only in a function that names the type of its listings.
    let _: Option<<HostRuntime as Files>::Dir> = None;
    let asked = ask(rt, alloc, end)?;
    Ok(miss_lines(alloc, &end.plan, asked.misses.as_slice())?)
}

fn run_misses(rt: &HostRuntime, alloc: Global, limits: &Limits) -> Ending {
    let end = match read_plan(rt, alloc, limits) {
        Ok(end) => end,
        Err(ending) => return ending,
    };
    match misses_of(rt, alloc, &end) {
        Ok(lines) => Ending::Done(lines),
        Err(ReadFault::Failed) => { refusing(format!(in alloc; "{FOLDER}: cannot be read")) }
        Err(ReadFault::Memory) => Ending::NoMemory,
    }
}

fn run(rt: &HostRuntime, alloc: Global) -> Ending {
    let Ok(words) = program_words(rt) else {
        return Ending::NoMemory;
    };
    match read_words(alloc, &words) {
        Ok(Some(Command::Tool(name))) => run_tool(rt, alloc, name),
        Ok(Some(Command::Graph(as_page, report))) => run_graph(rt, alloc, as_page, report),
        Ok(Some(Command::Misses(limits))) => run_misses(rt, alloc, &limits),
        Ok(None) => Ending::NoCommand,
        Err(_) => Ending::NoMemory,
    }
}

fn write_message(rt: &HostRuntime, message: &[u8]) -> ExitCode {
    let mut notes = rt.stderr();
    let _ = notes.write_all(b"explain: ");
    let _ = notes.write_all(message);
    let _ = notes.write_all(b"\n");
    ExitCode::from(1)
}

fn write_out(rt: &HostRuntime, text: &[u8], code: u8) -> ExitCode {
    let mut out = rt.stdout();
    match out.write_all(text) {
        Ok(()) => ExitCode::from(code),
        Err(_) => write_message(rt, b"standard output: cannot be written"),
    }
}

fn main(rt: HostRuntime) -> ExitCode {
    match run(&rt, rt.alloc()) {
        Ending::Done(text) => write_out(&rt, &text, 0),
        Ending::Found(text) => write_out(&rt, &text, 1),
        Ending::Refused(message) => write_message(&rt, &message),
        Ending::NoMemory => write_message(&rt, b"out of memory"),
        Ending::NoCommand => {
            let mut notes = rt.stderr();
            let _ = notes.write_all(USAGE.as_bytes());
            ExitCode::from(2)
        }
    }
}
