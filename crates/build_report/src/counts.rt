//! The notes: what the cache and the workers did.
ghost use Rattle.std.specs.Prelude.{◌≡◌, ◌++◌, IfOk, OnOk};
ghost use Rattle.build_report.specs.Notes.{count_line, graph_line, notes_text};

use bx_tree::Memory;
use std::alloc::Global;

/// Where the pips of a build came from.
#[derive(Clone, Copy, Debug, PartialEq, Eq)]
pub enum GraphLine {
    /// They were taken from the store of graphs.
    Hit,
    /// The specifications were evaluated.
    Ran,
    /// They were evaluated, and a call of the store of graphs failed.
    Fault,
}

/// What is counted of a build.
#[derive(Clone, Copy, Debug, PartialEq, Eq)]
pub struct Counts {
    /// The processes whose result was taken from the store.
    pub hits: u64,
    /// The other processes that were not skipped.
    pub ran: u64,
    /// The processes whose tool was run only when their results were collected.
    pub late: u64,
    /// The calls of the store, to look up or to keep, that failed.
    pub faults: u64,
    /// The workers that gave up for want of memory, or as their plan lacks a pip of the board.
    pub starved: u64,
    /// Where the pips came from, where a store of graphs was asked for.
    pub graph: Option<GraphLine>,
}

fn add_count(alloc: Global, text: &mut Vec<u8>, name: &str, count: u64) -> Result<(), Memory>
    ensures { OnOk result (text.new.items ≡ text.old.items ++ count_line name.now count) }
{
    let line = format!(in alloc; "{name} {count}\n")?;
    text.extend_from_slice(line.as_bytes())
}

// Adds the line that says where the pips came from, if it is there.
fn add_graph(text: &mut Vec<u8>, line: Option<GraphLine>) -> Result<(), Memory>
    ensures { OnOk result (text.new.items ≡ text.old.items ++ graph_line line) }
{
    match line {
        None => Ok(()),
        Some(GraphLine::Hit) => Ok(text.extend_from_slice(b"graph hit\n")?),
        Some(GraphLine::Ran) => Ok(text.extend_from_slice(b"graph ran\n")?),
        Some(GraphLine::Fault) => Ok(text.extend_from_slice(b"graph fault\n")?),
    }
}

/// The notes with these counts, a line each. docs/FORMATS.md has their form.
pub fn notes(alloc: Global, counts: &Counts) -> Result<Vec<u8>, Memory>
    ensures { IfOk result (λ text. text.items ≡ notes_text counts.now) }
{
    let mut text = Vec::new(alloc);
    add_count(alloc, &mut text, "hits", counts.hits)?;
    add_count(alloc, &mut text, "ran", counts.ran)?;
    add_count(alloc, &mut text, "late", counts.late)?;
    add_count(alloc, &mut text, "store-faults", counts.faults)?;
    add_count(alloc, &mut text, "starved", counts.starved)?;
    add_graph(&mut text, counts.graph)?;
    Ok(text)
}
