//! What pips declare, as vectors of paths.
ghost use Rattle.std.specs.Prelude.{◌≡◌, ◌++◌, ◌∷◌, [], map, IfOk, OnOk};
ghost use Rattle.pip_model_types.specs.declared.outputs.OutDir.{OutDir as AnyOutDir};
ghost use Rattle.graph_check_outputs.specs.Outputs.{declared_files, outputs};
ghost use Rattle.graph_check_outputs.specs.Sharing.{declared_dir_paths, full_roots, lone_among, lone_paths, unless_shared};

use bx_tree::Path;
use pip_model_types::{OutDir, PipKind, SealForm};
use std::alloc::{AllocError, Global};

/// Adds a path, shared.
pub fn add_path(paths: &mut Vec<Path>, path: &Path) -> Result<(), AllocError>
    ensures { OnOk result (paths.new.items ≡ paths.old.items ++ path.now ∷ []) }
{
    paths.push(path.share()?)?;
    Ok(())
}

fn add_all(paths: &mut Vec<Path>, more: &[Path]) -> Result<(), AllocError>
    ensures { OnOk result (paths.new.items ≡ paths.old.items ++ more.now) }
{
    'more: for path in more {
        add_path(paths, path)?;
    }
    Ok(())
}

// Adds the paths of some directories.
fn add_dirs(paths: &mut Vec<Path>, dirs: &[OutDir]) -> Result<(), AllocError>
    ensures { OnOk result
        (paths.new.items ≡ paths.old.items ++ map (λ (dir : AnyOutDir). dir.path) dirs.now) }
{
    'dirs: for dir in dirs {
        add_path(paths, &dir.path)?;
    }
    Ok(())
}

// Adds the path of a directory that is not shared.
fn add_unshared(paths: &mut Vec<Path>, dir: &OutDir) -> Result<(), AllocError>
    ensures { OnOk result
        (paths.new.items ≡ paths.old.items ++ unless_shared dir.now.shared dir.now.path) }
{
    if dir.shared {
        Ok(())
    } else {
        add_path(paths, &dir.path)
    }
}

// Adds the paths of those of some directories that are not shared.
fn add_lone(paths: &mut Vec<Path>, dirs: &[OutDir]) -> Result<(), AllocError>
    ensures { OnOk result (paths.new.items ≡ paths.old.items ++ lone_among dirs.now) }
{
    'dirs: for dir in dirs {
        add_unshared(paths, dir)?;
    }
    Ok(())
}

fn add_files(paths: &mut Vec<Path>, kind: &PipKind) -> Result<(), AllocError>
    ensures { OnOk result (paths.new.items ≡ paths.old.items ++ declared_files kind.now) }
{
    match kind {
        PipKind::Process(process) => {
            add_all(paths, process.outs.paths())?;
            match &process.console {
                Some(console) => add_path(paths, console),
                None => Ok(()),
            }
        }
        PipKind::Copy(copy) => add_path(paths, &copy.to),
        PipKind::Write(write) => add_path(paths, &write.to),
        PipKind::Seal(_) => Ok(()),
    }
}

// The files that a pip declares.
pub(crate) fn files_of(alloc: Global, kind: &PipKind) -> Result<Vec<Path>, AllocError>
    ensures { IfOk result (λ files. files.items ≡ declared_files kind.now) }
{
    let mut files = Vec::new(alloc);
    add_files(&mut files, kind)?;
    Ok(files)
}

// Adds the files and directories that a pip declares.
pub(crate) fn add_outputs(paths: &mut Vec<Path>, kind: &PipKind) -> Result<(), AllocError>
    ensures { OnOk result (paths.new.items ≡ paths.old.items ++ outputs kind.now) }
{
    add_files(paths, kind)?;
    add_dir_paths(paths, kind)
}

// Adds the output directories of a pip.
fn add_dir_paths(paths: &mut Vec<Path>, kind: &PipKind) -> Result<(), AllocError>
    ensures { OnOk result (paths.new.items ≡ paths.old.items ++ declared_dir_paths kind.now) }
{
    match kind {
        PipKind::Process(process) => add_dirs(paths, process.outdirs.dirs()),
        _ => Ok(()),
    }
}

// The output directories of a pip.
pub(crate) fn dirs_of(alloc: Global, kind: &PipKind) -> Result<Vec<Path>, AllocError>
    ensures { IfOk result (λ dirs. dirs.items ≡ declared_dir_paths kind.now) }
{
    let mut dirs = Vec::new(alloc);
    add_dir_paths(&mut dirs, kind)?;
    Ok(dirs)
}

// The output directories of a pip that are not shared.
pub(crate) fn lone_dirs_of(alloc: Global, kind: &PipKind) -> Result<Vec<Path>, AllocError>
    ensures { IfOk result (λ dirs. dirs.items ≡ lone_paths kind.now) }
{
    let mut dirs = Vec::new(alloc);
    if let PipKind::Process(process) = kind {
        add_lone(&mut dirs, process.outdirs.dirs())?;
    }
    Ok(dirs)
}

// Adds the root of a pip that is a full seal.
fn add_full_root(paths: &mut Vec<Path>, kind: &PipKind) -> Result<(), AllocError>
    ensures { OnOk result (paths.new.items ≡ paths.old.items ++ full_roots kind.now) }
{
    match kind {
        PipKind::Seal(seal) => match seal.form {
            SealForm::Full => add_path(paths, &seal.root),
            _ => Ok(()),
        },
        _ => Ok(()),
    }
}

// The root of a pip that is a full seal.
pub(crate) fn roots_of(alloc: Global, kind: &PipKind) -> Result<Vec<Path>, AllocError>
    ensures { IfOk result (λ roots. roots.items ≡ full_roots kind.now) }
{
    let mut roots = Vec::new(alloc);
    add_full_root(&mut roots, kind)?;
    Ok(roots)
}
