//! Which files belong to a module.

ghost use Rattle.std.specs.Prelude.{◌≡◌, ◌++◌, ◌∷◌, [], true, IfOk, OnOk, if◌then◌else◌};
ghost use Rattle.bx_tree.specs.Paths.{Atoms, has_path, same_path};
ghost use Rattle.dscript_names_workspace.specs.Membership.{dir_of as directory_of, implied_files as files_implied};
ghost use Rattle.dscript_names_workspace.specs.Membership.{is_config as names_config};
ghost use Rattle.dscript_names_workspace.specs.PathSets.{AddsToOwner, IsDeepest, files_in, has};
ghost use Rattle.dscript_names_workspace.specs.PathSets.{may_belong as is_open};

use crate::path_set::set_of;
use crate::paths::{is_module_file, is_specification};
use bx_path::parent;
use bx_tree::{Path, Tree};
use std::alloc::{AllocError, Global};
use std::collections::{BTreeMap, BTreeSet};

/// The directory of a file.
pub(crate) fn dir_of(alloc: Global, path: &Path) -> Result<Path, AllocError>
    ensures { IfOk result (λ dir. dir ≡ directory_of path.now) }
{
    match parent(alloc, path)? {
        Some(dir) => Ok(dir),
        None => Path::root(alloc),
    }
}

/// The deepest of these directories that a path lies below.
fn deepest_above(
    alloc: Global,
    dirs: &BTreeSet<Path>,
    path: &Path,
) -> Result<Option<Path>, AllocError>
    ensures { IfOk result (λ found. IsDeepest (has dirs.now) path.now found) }
{
    let mut next = parent(alloc, path)?;
    'dirs: while let Some(dir) = next {
        if dirs.contains(&dir) {
            return Ok(Some(dir));
        }
        next = parent(alloc, &dir)?;
    }
    Ok(None)
}

/// Adds a file to those of a directory.
fn add_file(
    files: &mut BTreeMap<Path, Vec<Path>>,
    alloc: Global,
    dir: Path,
    file: Path,
) -> Result<(), AllocError>
    ensures { OnOk result ((q : Atoms) →
        files_in files.new q ≡ files_in files.old q ++ (if same_path dir q then file ∷ [] else [])) }
{
    let mut own = files.remove(&dir).unwrap_or(Vec::new(alloc));
    own.push(file)?;
    files.insert(dir, own)?;
    Ok(())
}

/// Whether a path is that of the configuration of a workspace.
fn is_config(path: &Path) -> bool
    ensures { result ≡ names_config path.now }
{
    path.text().as_bytes() == b"config.dsc".as_slice()
}

/// Whether a file may belong to a module without being listed.
fn may_belong(path: &Path) -> bool
    ensures { result ≡ is_open path.now }
{
    is_specification(path) && !is_config(path) && !is_module_file(path)
}

/// Adds a file to those of the deepest of these directories above it, if it may belong to a module without
/// being listed.
fn add_to_owner(
    files: &mut BTreeMap<Path, Vec<Path>>,
    alloc: Global,
    dirs: &BTreeSet<Path>,
    file: &Path,
) -> Result<(), AllocError>
    ensures { OnOk result (AddsToOwner (has dirs.now) file.now files.old files.new) }
{
    if !may_belong(file) {
        return Ok(());
    }
    match deepest_above(alloc, dirs, file)? {
        Some(dir) => add_file(files, alloc, dir, file.share()?),
        None => Ok(()),
    }
}

/// The files that belong to modules in these directories which list no files themselves: by directory, those
/// of each in the order of the tree.
pub(crate) fn implied_files(
    alloc: Global,
    tree: &Tree,
    dirs: &[Path],
) -> Result<BTreeMap<Path, Vec<Path>>, AllocError>
    ensures { IfOk result (λ implied. (dir : Atoms) → has_path dirs.now dir ≡ true →
        files_in implied dir ≡ files_implied tree.now dirs.now dir) }
{
    let set = set_of(alloc, dirs)?;
    let files = tree.files();
    let mut implied = BTreeMap::new(alloc);
    'files: for file in files {
        add_to_owner(&mut implied, alloc, &set, &file.path)?;
    }
    Ok(implied)
}
