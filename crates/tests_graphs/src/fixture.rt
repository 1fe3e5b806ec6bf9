//! Trees with a specification, and what is kept of them.

use bx_io::{KeepReader, Keeper};
use bx_tree::{Tree, read_bundle};
use dscript_eval::Asked;
use dscript_names_workspace::find_workspace;
use dscript_program::Workspace;
use dscript_sdk_calls::TreeAsk;
use graph_memo::{GraphFound, SaveResult, find_graph, keep_graph};
use graph_texts::{AskLine, GraphEntry, append_pips, read_graph_entry};
use memo_format::seal;
use pip_model_types::PipList;
use std::alloc::{AllocError, Global};
use std::process::Abort;

/// An entry without its seal. The listing is no listing of the trees, which keeping does not look at.
pub(crate) const BODY: &str = "graph-entry 1
key ba7816bf8f01cfea414140de5dae2223b00361a396177a9cb410ff61f20015ad
glob s *.c ba7816bf8f01cfea414140de5dae2223b00361a396177a9cb410ff61f20015ad
below s ba7816bf8f01cfea414140de5dae2223b00361a396177a9cb410ff61f20015ad
globr . ? ba7816bf8f01cfea414140de5dae2223b00361a396177a9cb410ff61f20015ad
";

/// The lines of its pips.
pub(crate) const PIPS: &str = "write build.dsc out/w 3 a b
copy build.dsc out/c source s/a.c
seal build.dsc partial out
member made 0 out/w
done
process build.dsc t.tool .
console out/said
arg 3 a b
env 1 N 0 
in made 1 out/c
in source s/a.c
indir sealed 2
out out/o
outdir exclusive out/d
outdir shared out/e
done
process build.dsc t.tool .
indir opaque 3 out/d
out out/p
done
";

/// A specification and a file that it asks for.
pub(crate) const TREE: &str = "bundle 1\nfile 1 build.dsc\n;\nfile 1 s/a.c\nA\nend\n";

/// The same with a file that no ask lists.
pub(crate) const OTHER_CONTENT: &str = "bundle 1\nfile 1 build.dsc\n;\nfile 1 s/a.c\nB\nend\n";

/// The same with a file more that an ask lists.
pub(crate) const MORE_FILES: &str =
    "bundle 1\nfile 1 build.dsc\n;\nfile 1 s/a.c\nA\nfile 1 s/b.c\nB\nend\n";

/// The same with another specification.
pub(crate) const OTHER_SPECIFICATION: &str =
    "bundle 1\nfile 2 build.dsc\n;;\nfile 1 s/a.c\nA\nend\n";

/// What is there, or else the test ends.
pub(crate) fn must<T>(rt: &impl Abort, answer: Result<T, AllocError>) -> T {
    match answer {
        Ok(value) => value,
        Err(_) => rt.abort(),
    }
}

/// A tree with its modules.
#[derive(Drop)]
pub(crate) struct Scene {
    pub tree: Tree,
    pub work: Workspace,
}

pub(crate) fn scene_of(rt: &impl Abort, alloc: Global, bundle: &str) -> Scene {
    let Ok(tree) = read_bundle(alloc, bundle.as_bytes()) else {
        rt.abort()
    };
    match find_workspace(alloc, &tree) {
        Ok(work) => Scene { tree, work },
        Err(_) => rt.abort(),
    }
}

/// The text of an entry of this body and these pips.
pub(crate) fn sealed(alloc: Global, body: &str, pips: &str) -> Result<Vec<u8>, AllocError> {
    let mut text = Vec::from_slice(alloc, body.as_bytes())?;
    text.extend_from_slice(pips.as_bytes())?;
    seal(alloc, &mut text)?;
    Ok(text)
}

/// The entry.
pub(crate) fn entry(rt: &impl Abort, alloc: Global) -> GraphEntry {
    let text = must(rt, sealed(alloc, BODY, PIPS));
    match read_graph_entry(alloc, text.as_slice()) {
        Ok(entry) => entry,
        Err(_) => rt.abort(),
    }
}

fn asks_of(alloc: Global, lines: &[AskLine]) -> Result<Vec<TreeAsk>, AllocError> {
    let mut asks = Vec::new(alloc);
    for line in lines {
        asks.push(line.ask.share()?)?;
    }
    Ok(asks)
}

/// What evaluation would make, with its asks.
fn asked(rt: &impl Abort, alloc: Global) -> Asked {
    let entry = entry(rt, alloc);
    let asks = must(rt, asks_of(alloc, entry.asks.lines()));
    Asked {
        pips: entry.pips,
        asks,
    }
}

/// Keeps it for a tree: whether that was done, or a call failed.
pub(crate) fn kept<K: Keeper>(
    rt: &impl Abort,
    alloc: Global,
    keeper: &mut K,
    scene: &Scene,
    budget: u64,
) -> bool {
    let asked = asked(rt, alloc);
    match keep_graph(alloc, keeper, &scene.work, &scene.tree, budget, &asked) {
        SaveResult::Saved => true,
        SaveResult::Fault => false,
        SaveResult::Memory => rt.abort(),
    }
}

/// What is found for a tree.
#[derive(Clone, Copy, Debug, PartialEq, Eq)]
pub(crate) enum Answer {
    /// Just the pips that were kept.
    Hit,
    /// Other pips.
    Other,
    Miss,
    Fault,
}

fn lines_of(alloc: Global, pips: &PipList) -> Result<Vec<u8>, AllocError> {
    let mut text = Vec::new(alloc);
    append_pips(alloc, &mut text, pips)?;
    Ok(text)
}

fn answer_of(rt: &impl Abort, alloc: Global, pips: &PipList) -> Answer {
    let lines = must(rt, lines_of(alloc, pips));
    if lines.as_slice() == PIPS.as_bytes() {
        Answer::Hit
    } else {
        Answer::Other
    }
}

fn found<R: KeepReader>(
    rt: &impl Abort,
    alloc: Global,
    reader: &mut R,
    scene: &Scene,
    budget: u64,
) -> Answer {
    match find_graph(alloc, reader, &scene.work, &scene.tree, budget) {
        GraphFound::Hit(pips) => answer_of(rt, alloc, &pips),
        GraphFound::Miss => Answer::Miss,
        GraphFound::Fault => Answer::Fault,
        GraphFound::Memory => rt.abort(),
    }
}

/// What a new reader finds.
pub(crate) fn finds<K: Keeper>(
    rt: &impl Abort,
    alloc: Global,
    keeper: &K,
    scene: &Scene,
    budget: u64,
) -> Answer {
    let mut reader = must(rt, keeper.reader(alloc));
    found(rt, alloc, &mut reader, scene, budget)
}
