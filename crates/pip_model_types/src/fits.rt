//! Whether what a pip names as made is made by an earlier pip.
ghost use Rattle.std.specs.Prelude.{◌≡◌, ◌↔◌, IsTrue, All, Any};
ghost use Rattle.pip_model_types.specs.Makers.{FitsAfter, HasOutDir, IsDirAmong, IsFileAmong, IsSealOf, MakesFile};

use crate::dir_inputs::{DirInput, SealForm};
use crate::outputs::OutDir;
use crate::pip::{Pip, PipKind, pip_at};
use bx_tree::{FileInput, Path};

fn makes_file(kind: &PipKind, path: &Path) -> bool
    ensures { IsTrue result ↔ MakesFile path.now kind.now }
{
    match kind {
        PipKind::Process(process) => process.outs.has(path),
        PipKind::Copy(copy) => copy.to.is_same(path),
        PipKind::Write(write) => write.to.is_same(path),
        PipKind::Seal(_) => false,
    }
}

fn is_same_form(a: SealForm, b: SealForm) -> bool
    ensures { IsTrue result ↔ (a ≡ b) }
{
    a == b
}

fn is_seal_of(kind: &PipKind, form: SealForm, root: &Path) -> bool
    ensures { IsTrue result ↔ IsSealOf form root.now kind.now }
{
    match kind {
        PipKind::Seal(seal) => is_same_form(seal.form, form) && seal.root.is_same(root),
        _ => false,
    }
}

fn is_outdir(dirs: &[OutDir], path: &Path) -> bool
    ensures { IsTrue result ↔ Any (λ dir. dir.path ≡ path.now) dirs.now }
{
    dirs.iter().any(|dir| dir.path.is_same(path))
}

fn has_outdir(kind: &PipKind, path: &Path) -> bool
    ensures { IsTrue result ↔ HasOutDir path.now kind.now }
{
    match kind {
        PipKind::Process(process) => is_outdir(process.outdirs.dirs(), path),
        _ => false,
    }
}

fn is_file_among(pips: &[Pip], file: &FileInput) -> bool
    ensures { IsTrue result ↔ IsFileAmong pips.now file.now }
{
    match file {
        FileInput::Source(_) => true,
        FileInput::Made(path, maker) => match pip_at(pips, *maker) {
            Some(pip) => makes_file(&pip.kind, path),
            None => false,
        },
    }
}

fn is_dir_among(pips: &[Pip], dir: &DirInput) -> bool
    ensures { IsTrue result ↔ IsDirAmong pips.now dir.now }
{
    match dir {
        DirInput::Sealed(maker, form, root) => match pip_at(pips, *maker) {
            Some(pip) => is_seal_of(&pip.kind, *form, root),
            None => false,
        },
        DirInput::Opaque(maker, path) => match pip_at(pips, *maker) {
            Some(pip) => has_outdir(&pip.kind, path),
            None => false,
        },
    }
}

fn are_files_among(pips: &[Pip], files: &[FileInput]) -> bool
    ensures { IsTrue result ↔ All (IsFileAmong pips.now) files.now }
{
    files.iter().all(|file| is_file_among(pips, file))
}

fn are_dirs_among(pips: &[Pip], dirs: &[DirInput]) -> bool
    ensures { IsTrue result ↔ All (IsDirAmong pips.now) dirs.now }
{
    dirs.iter().all(|dir| is_dir_among(pips, dir))
}

// Whether a pip may come after these.
pub(crate) fn fits_after(pips: &[Pip], pip: &Pip) -> bool
    ensures { IsTrue result ↔ FitsAfter pips.now pip.now }
{
    match &pip.kind {
        PipKind::Process(process) => {
            are_files_among(pips, process.files.files())
                && are_dirs_among(pips, process.dirs.dirs())
        }
        PipKind::Copy(copy) => is_file_among(pips, &copy.from),
        PipKind::Write(_) => true,
        PipKind::Seal(seal) => are_files_among(pips, seal.files.files()),
    }
}
