//! Plans of two pips.
use crate::Fault;
use bx_tree::{FileInput, Memory, Path, Text, Tree, read_bundle};
use pip_model::{CopyDesc, MAX_PIPS, Pip, PipKind, PipList, Plan, ProcessDesc, Sources, WriteDesc};
use std::alloc::Global;
use std::sync::Arc;

fn path(alloc: Global, text: &str) -> Result<Path, Fault> {
    match Path::read(alloc, text.as_bytes()) {
        Ok(path) => Ok(path),
        Err(_) => Err(Fault::Path),
    }
}

fn text(alloc: Global, text: &str) -> Result<Text, Fault> {
    let bytes = text.as_bytes().to_vec(alloc)?;
    Ok(Text::new(alloc, bytes)?)
}

// What writes a text to a path.
fn writing(alloc: Global, to: &str, written: &str) -> Result<PipKind, Fault> {
    let to = path(alloc, to)?;
    let text = text(alloc, written)?;
    Ok(PipKind::Write(WriteDesc { to, text }))
}

// The file of pip 0.
fn first_file(alloc: Global) -> Result<FileInput, Fault> {
    Ok(FileInput::Made(path(alloc, "out/a")?, 0))
}

// What copies the file of pip 0 to `out/b`.
fn copying(alloc: Global) -> Result<PipKind, Fault> {
    let from = first_file(alloc)?;
    let to = path(alloc, "out/b")?;
    Ok(PipKind::Copy(CopyDesc { from, to }))
}

/// Adds a pip of this kind.
pub fn add(alloc: Global, pips: &mut PipList, kind: PipKind) -> Result<(), Fault> {
    let spec = path(alloc, "build.dsc")?;
    let pip = Pip { spec, kind };
    if MAX_PIPS <= pips.pips().len() || !pips.fits(&pip) {
        return Err(Fault::Pip);
    }
    pips.push(pip)?;
    Ok(())
}

/// The plan of these pips.
pub fn plan_of(alloc: Global, pips: PipList) -> Result<Arc<Plan>, Fault> {
    if MAX_PIPS < pips.pips().len() {
        return Err(Fault::Pip);
    }
    let plan = Plan::build(alloc, pips, 9)?;
    match Arc::new(alloc, plan) {
        Ok(plan) => Ok(plan),
        Err(_) => Err(Fault::Memory),
    }
}

/// Pip 0 writes `x` to `out/a`, and pip 1 to `out/b`.
pub fn two_writes(alloc: Global) -> Result<Arc<Plan>, Fault> {
    let mut pips = PipList::new(alloc);
    add(alloc, &mut pips, writing(alloc, "out/a", "x")?)?;
    add(alloc, &mut pips, writing(alloc, "out/b", "x")?)?;
    plan_of(alloc, pips)
}

/// Pip 0 writes a text to `out/a`, which pip 1 copies to `out/b`.
pub fn write_and_copy(alloc: Global, text: &str) -> Result<Arc<Plan>, Fault> {
    let mut pips = PipList::new(alloc);
    add(alloc, &mut pips, writing(alloc, "out/a", text)?)?;
    add(alloc, &mut pips, copying(alloc)?)?;
    plan_of(alloc, pips)
}

/// Pip 0 is this process, which declares `out/a`, and pip 1 copies that to `out/b`.
pub fn run_and_copy(alloc: Global, process: ProcessDesc) -> Result<Arc<Plan>, Fault> {
    let mut pips = PipList::new(alloc);
    add(alloc, &mut pips, PipKind::Process(process))?;
    add(alloc, &mut pips, copying(alloc)?)?;
    plan_of(alloc, pips)
}

fn shared(alloc: Global, tree: Tree) -> Result<Arc<Sources>, Memory> {
    let sources = Sources::new(alloc, tree)?;
    Ok(Arc::new(alloc, sources)?)
}

/// The files of a bundle.
pub fn sources(alloc: Global, bundle: &str) -> Result<Arc<Sources>, Fault> {
    match read_bundle(alloc, bundle.as_bytes()) {
        Ok(tree) => Ok(shared(alloc, tree)?),
        Err(_) => Err(Fault::Bundle),
    }
}

/// The bundle of no files.
pub const NO_FILES: &str = "bundle 1\nend\n";
