//! The program `bundle`: packs a folder as a bundle, unpacks a bundle, and lists its files.
//!
//! `bundle pack FOLDER` writes the bundle of the files of a folder, `bundle unpack [--replace] FOLDER` makes the
//! files of a bundle in a folder, and `bundle list` lists the files of a bundle. It depends on `bundle_system` for
//! its commands, its messages and its folder on disk, on `bundle_folder`, on `bx_tree`, and on `bx_io_system` for
//! its arguments.
#![tactic(auto)]

use bundle_folder::{Replace, pack, unpack};
use bundle_system::{
    Command, SystemFolder, bundle_message, pack_message, read_words, unpack_message,
};
use bx_io_system::program_words;
use bx_tree::{MAX_BUNDLE_BYTES, Tree, read_bundle};
use std::alloc::{AllocError, Global};
use std::io::{ErrorKind, IsTerminal, Read, Write};
use std::process::ExitCode;
use std::rt::Files;

// What a build makes at the top of a folder, and what it keeps there. None of it is source.
const LEFT_OUT: [&str; 4] = ["out", "report.txt", ".bxl-cache", ".bxl-graphs"];

const USAGE: &str = "usage: bundle pack FOLDER | unpack [--replace] FOLDER | list\n";

// How a call ends: with 0, or with 1 and a message, or with 2 and the usage.
#[derive(Drop)]
enum Ending {
    Done,
    Refused(String),
    NoMemory,
    NoCommand,
}

fn refused(message: Result<String, AllocError>) -> Ending {
    match message {
        Ok(message) => Ending::Refused(message),
        Err(_) => Ending::NoMemory,
    }
}

// Reads a text to its end, or to one byte more than a bundle may have.
fn read_text(alloc: Global, input: impl Read + Drop) -> Result<Vec<u8>, Ending> {
    let mut input = input.take(MAX_BUNDLE_BYTES as u64 + 1);
    let mut text = Vec::new(alloc);
    match input.read_to_end(&mut text) {
        Ok(_) => Ok(text),
        Err(error) if error.kind() == ErrorKind::OutOfMemory => Err(Ending::NoMemory),
        Err(_) => Err(refused(String::from_str(alloc, "standard input: cannot be read"))),
    }
}

// The paths of a tree with the lengths of their files, a line each.
fn listing(alloc: Global, tree: &Tree) -> Result<String, AllocError> {
    let mut text = String::new(alloc);
    for file in tree.files() {
        let length = file.bytes.len();
        let path = file.path.text();
        text.push_str(format!(in alloc; "{length} {path}\n")?.as_str())?;
    }
    Ok(text)
}

fn write_out(alloc: Global, out: &mut impl Write, bytes: &[u8]) -> Ending {
    match out.write_all(bytes) {
        Ok(()) => Ending::Done,
        Err(_) => refused(String::from_str(alloc, "standard output: cannot be written")),
    }
}

fn run_pack<R: Files + AllocGlobal + Clone + Drop, W: Write + Drop>(
    rt: &R,
    alloc: Global,
    name: &str,
    out: &mut impl Write,
    terminal: Option<W>,
) -> Ending {
    let Ok(mut folder) = SystemFolder::new(rt, alloc, name, terminal) else {
        return Ending::NoMemory;
    };
    let packed = pack(alloc, &mut folder, &LEFT_OUT);
    folder.hide();
    match packed {
        Ok(text) => write_out(alloc, out, &text),
        Err(fault) => refused(pack_message(alloc, name, &fault)),
    }
}

fn run_unpack<R: Files + AllocGlobal + Clone + Drop, W: Write + Drop>(
    rt: &R,
    alloc: Global,
    name: &str,
    replace: Replace,
    input: impl Read + Drop,
    terminal: Option<W>,
) -> Ending {
    let text = match read_text(alloc, input) {
        Ok(text) => text,
        Err(ending) => return ending,
    };
    let Ok(mut folder) = SystemFolder::new(rt, alloc, name, terminal) else {
        return Ending::NoMemory;
    };
    let unpacked = unpack(alloc, &mut folder, &text, replace);
    folder.hide();
    match unpacked {
        Ok(_) => Ending::Done,
        Err(fault) => refused(unpack_message(alloc, name, &fault)),
    }
}

fn run_list(alloc: Global, input: impl Read + Drop, out: &mut impl Write) -> Ending {
    let text = match read_text(alloc, input) {
        Ok(text) => text,
        Err(ending) => return ending,
    };
    let tree = match read_bundle(alloc, &text) {
        Ok(tree) => tree,
        Err(fault) => return refused(bundle_message(alloc, fault)),
    };
    match listing(alloc, &tree) {
        Ok(lines) => write_out(alloc, out, lines.as_bytes()),
        Err(_) => Ending::NoMemory,
    }
}

fn run(rt: &HostRuntime, alloc: Global) -> Ending {
    let Ok(words) = program_words(rt) else {
        return Ending::NoMemory;
    };
    let stream = rt.stderr();
    let terminal = if stream.is_terminal() {
        Some(stream)
    } else {
        None
    };
    match read_words(&words) {
        Some(Command::Pack(name)) => run_pack(rt, alloc, name, &mut rt.stdout(), terminal),
        Some(Command::Unpack(replace, name)) => {
            run_unpack(rt, alloc, name, replace, rt.stdin(), terminal)
        }
        Some(Command::List) => run_list(alloc, rt.stdin(), &mut rt.stdout()),
        None => Ending::NoCommand,
    }
}

fn main(rt: HostRuntime) -> ExitCode {
    let mut notes = rt.stderr();
    match run(&rt, rt.alloc()) {
        Ending::Done => ExitCode::from(0),
        Ending::Refused(message) => {
            let _ = notes.write_all(b"bundle: ");
            let _ = notes.write_all(message.as_bytes());
            let _ = notes.write_all(b"\n");
            ExitCode::from(1)
        }
        Ending::NoMemory => {
            let _ = notes.write_all(b"bundle: out of memory\n");
            ExitCode::from(1)
        }
        Ending::NoCommand => {
            let _ = notes.write_all(USAGE.as_bytes());
            ExitCode::from(2)
        }
    }
}
