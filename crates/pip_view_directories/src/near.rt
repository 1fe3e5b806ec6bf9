//! The directories of seals that list a file near a path.
ghost use Rattle.std.specs.Prelude.{◌≡◌, ◌↔◌, Contains, IsTrue, IfOk, OnOk, slice_get};
ghost use Rattle.std.specs.Prelude.{IfSome};
ghost use Rattle.std.specs.Option.{unwrap_or};
ghost use Rattle.pip_model_types.specs.Dirs.{RiseByForm};
ghost use Rattle.pip_view_directories.specs.Near.{AddsDir, AreNear, AreOfSeals, AreTaken, dir_in, kind_dir};

use bx_tree::{Memory, Path};
use pip_model::{DirInput, DirInputs, FEW_DIRS, Pip, PipKind, Plan};
use std::alloc::Global;

// The directory of a pip, if it is a seal.
fn dir_of(number: u32, kind: &PipKind) -> Result<Option<DirInput>, Memory>
    ensures { IfOk result (λ dir. dir ≡ kind_dir number kind.now) }
{
    match kind {
        PipKind::Seal(seal) => Ok(Some(DirInput::Sealed(number, seal.form, seal.root.share()?))),
        PipKind::Process(_) | PipKind::Copy(_) | PipKind::Write(_) => Ok(None),
    }
}

// The directory of the pip with a number, if it is a seal.
fn seal_dir(pips: &[Pip], number: u32) -> Result<Option<DirInput>, Memory>
    ensures { IfOk result (λ dir. dir ≡ dir_in number (slice_get pips.now number)) }
{
    match pips.get(number as usize) {
        Some(pip) => dir_of(number, &pip.kind),
        None => Ok(None),
    }
}

// Whether a directory is one of some, which rise.
fn has_dir(dirs: &[DirInput], dir: &DirInput) -> bool
    requires { RiseByForm dirs.now }
    ensures { IsTrue result ↔ Contains dirs.now dir.now }
{
    dirs.binary_search(dir).is_ok()
}

// Adds the directory of a seal, if it is one of those that are taken.
fn add_dir(
    found: &mut Vec<DirInput>,
    pips: &[Pip],
    dirs: &[DirInput],
    number: u32,
) -> Result<(), Memory>
    requires { RiseByForm dirs.now }
    ensures { OnOk result (AddsDir pips.now dirs.now number found.old.items found.new.items) }
{
    let Some(dir) = seal_dir(pips, number)? else {
        return Ok(());
    };
    if !has_dir(dirs, &dir) {
        return Ok(());
    }
    found.push(dir)?;
    Ok(())
}

// Those of the directories that are of one of these seals.
fn of_seals(
    alloc: Global,
    pips: &[Pip],
    dirs: &[DirInput],
    seals: &[u32],
) -> Result<Vec<DirInput>, Memory>
    requires { RiseByForm dirs.now }
    ensures { IfOk result (λ found. AreOfSeals pips.now dirs.now seals.now found.items) }
{
    let mut found = Vec::new(alloc);
    'seals: for seal in seals {
        add_dir(&mut found, pips, dirs, *seal)?;
    }
    Ok(found)
}

/// Of the directories that a process takes, those of seals that list a file at the path or below it, and maybe
/// others. There is no answer at the root, where no more than `FEW_DIRS` are taken, or no more than there are
/// such seals: then all are to be searched.
pub fn near_dirs(
    alloc: Global,
    plan: &Plan,
    dirs: &DirInputs,
    path: &Path,
) -> Result<Option<DirInputs>, Memory>
    requires { AreTaken plan.now.pips dirs.now }
    ensures { IfOk result (λ found. IfSome found (AreNear plan.now.pips dirs.now path.now)) }
{
    let taken = dirs.dirs();
    if taken.len() <= FEW_DIRS || path.is_root() {
        return Ok(None);
    }
    let seals = plan.seals_near(path.text().as_bytes());
    if seals.len() >= taken.len() {
        return Ok(None);
    }
    let found = of_seals(alloc, plan.pips(), taken, seals)?;
    Ok(Some(DirInputs::of(found)))
}

/// The directories that are searched: those that were found, or all where there was no answer.
pub fn searched<'a>(near: &'a Option<DirInputs>, dirs: &'a [DirInput]) -> &'a [DirInput]
    ensures { result.now ≡ unwrap_or near.entry.now dirs.entry.now }
{
    match near {
        Some(near) => near.dirs(),
        None => dirs,
    }
}
