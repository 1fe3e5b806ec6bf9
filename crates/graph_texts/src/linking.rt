//! Pips of what their lines say.
ghost use Rattle.std.specs.Prelude.{◌≡◌, IfOk};
ghost use Rattle.std.specs.List.{AllByRecursion};
ghost use Rattle.prints.specs.Reading.{Gives, GivesItems};
ghost use Rattle.graph_texts.specs.Linking.{AddsLinked, LinksTo, linked_kind, linked_pip, named_dir, named_dirs};
ghost use Rattle.graph_texts.specs.Linking.{linked_process as linked_process_of, rising_named, seal_dir};
ghost use Rattle.graph_texts.specs.Rows.{IsRow};

use crate::rows::{DirRef, DirRefs, PipRow, ProcessRow, RowKind};
use bx_tree::Memory;
use pip_model_types::{DirInput, DirInputs, Pip, PipKind, PipList, ProcessDesc, pip_at};
use prints::{PrintFault, are_dirs_rising, dir_inputs};
use std::alloc::Global;

// The directory of the seal that a pip is.
fn dir_of_seal(number: u32, pip: &Pip) -> Result<Option<DirInput>, Memory>
    ensures { IfOk result (λ dir. dir ≡ seal_dir number pip.now.kind) }
{
    match &pip.kind {
        PipKind::Seal(seal) => Ok(Some(DirInput::Sealed(number, seal.form, seal.root.share()?))),
        PipKind::Process(_) | PipKind::Copy(_) | PipKind::Write(_) => Ok(None),
    }
}

// The directory that a line names.
fn dir_of(pips: &[Pip], named: &DirRef) -> Result<Option<DirInput>, Memory>
    ensures { IfOk result (λ dir. dir ≡ named_dir pips.now named.now) }
{
    match named {
        DirRef::OfSeal(number) => match pip_at(pips, *number) {
            Some(pip) => dir_of_seal(*number, pip),
            None => Ok(None),
        },
        DirRef::OfProcess(pip, path) => Ok(Some(DirInput::Opaque(*pip, path.share()?))),
    }
}

// The directories that lines name, if each is there.
fn dirs_of(alloc: Global, pips: &[Pip], named: &[DirRef]) -> Result<Vec<DirInput>, PrintFault>
    ensures { GivesItems result (named_dirs pips.now named.now) }
{
    let mut dirs = Vec::new(alloc);
    'named: for dir in named {
        match dir_of(pips, dir)? {
            Some(dir) => dirs.push(dir)?,
            None => return Err(PrintFault::BadPrint),
        }
    }
    Ok(dirs)
}

// Those directories, if they rise.
fn rising_dirs(alloc: Global, pips: &[Pip], named: &DirRefs) -> Result<DirInputs, PrintFault>
    ensures { Gives result (rising_named pips.now named.now) }
{
    let dirs = dirs_of(alloc, pips, named.refs())?;
    if !are_dirs_rising(dirs.as_slice()) {
        return Err(PrintFault::BadPrint);
    }
    Ok(dir_inputs(dirs))
}

fn linked_process(alloc: Global, pips: &[Pip], row: ProcessRow) -> Result<ProcessDesc, PrintFault>
    ensures { Gives result (linked_process_of pips.now row) }
{
    let dirs = rising_dirs(alloc, pips, &row.dirs)?;
    Ok(ProcessDesc {
        exe: row.exe,
        args: row.args,
        env: row.env,
        dir: row.dir,
        files: row.files,
        dirs,
        outs: row.outs,
        outdirs: row.outdirs,
        console: row.console,
    })
}

fn linked_kind_of(alloc: Global, pips: &[Pip], kind: RowKind) -> Result<PipKind, PrintFault>
    ensures { Gives result (linked_kind pips.now kind) }
{
    match kind {
        RowKind::Process(row) => Ok(PipKind::Process(linked_process(alloc, pips, row)?)),
        RowKind::Copy(copy) => Ok(PipKind::Copy(copy)),
        RowKind::Write(write) => Ok(PipKind::Write(write)),
        RowKind::Seal(seal) => Ok(PipKind::Seal(seal)),
    }
}

// The pip that has these lines, after these pips.
fn linked(alloc: Global, pips: &[Pip], row: PipRow) -> Result<Pip, PrintFault>
    ensures { Gives result (linked_pip pips.now row) }
{
    let PipRow { spec, kind } = row;
    let kind = linked_kind_of(alloc, pips, kind)?;
    Ok(Pip { spec, kind })
}

// Adds the pip that has these lines, if it may come next.
fn add_linked(alloc: Global, pips: &mut PipList, row: PipRow) -> Result<(), PrintFault>
    ensures { AddsLinked result row pips.old pips.new }
{
    let pip = linked(alloc, pips.pips(), row)?;
    if !pips.fits(&pip) {
        return Err(PrintFault::BadPrint);
    }
    if pips.pips().len() >= u32::MAX as usize {
        return Err(PrintFault::Memory);
    }
    pips.push(pip)?;
    Ok(())
}

/// The pips that have these lines, if there are any.
pub(crate) fn link(alloc: Global, rows: Vec<PipRow>) -> Result<PipList, PrintFault>
    requires { AllByRecursion IsRow rows.items }
    ensures { LinksTo result rows.items }
{
    let mut pips = PipList::new(alloc);
    'rows: for row in rows {
        add_linked(alloc, &mut pips, row)?;
    }
    Ok(pips)
}
