//! Unpacking: the files of a bundle in a folder.

ghost use Rattle.std.specs.Prelude.{◌≡◌, ◌↔◌, ◌∷◌, [], ℕ, List, Option, IsTrue, IfOk, IfErr, OnOk, OnErr};
ghost use Rattle.std.specs.Prelude.{Contains, MatchResult, length};
ghost use Rattle.bx_io.specs.Causes.{HasCause};
ghost use Rattle.bx_tree.specs.Bundle.{IsBundle};
ghost use Rattle.bx_tree.specs.Paths.{IsPathText, path_text};
ghost use Rattle.bx_tree.specs.Trees.{IsTree, paths_of};
ghost use Rattle.bx_tree.specs.Views.{file_of, files_of};
ghost use Rattle.bundle_folder.specs.Folders.{IsFree, Known, Nodes, with_files};
ghost use Rattle.bundle_folder.specs.Unpacking.{AreFree, AreFreeBut, BlamesFolder, EndsUnpack, IsClearFault};
ghost use Rattle.bundle_folder.specs.Unpacking.{IsCleared, IsFreeBut, IsMade, IsMakeFault, IsStop, IsUnpack};
ghost use Rattle.bundle_folder.specs.Unpacking.{IsWayFault, removed, start};

use crate::fault::UnpackFault;
use crate::folder::{Folder, FolderFault, WriteFault};
use crate::places::is_within;
use bx_tree::{BundleFault, Path, PathFault, Tree, TreeFile, read_bundle};
use std::alloc::Global;

/// What becomes of `out` and `report.txt` at the top of the folder.
#[derive(Clone, Copy, Debug, PartialEq, Eq)]
pub enum Replace {
    /// They are treated as all else: what is there is in the way of a file.
    Nothing,
    /// They are removed before a file is made, whether or not the bundle has files there.
    Made,
}

// Whether a build makes files at a path, or below it.
fn is_made(path: &Path) -> bool
    ensures { IsTrue result ↔ IsMade (path_text path.now) }
{
    is_within(path.text(), "out") || is_within(path.text(), "report.txt")
}

// The tree of a bundle.
fn read_tree(alloc: Global, text: &[u8]) -> Result<Tree, UnpackFault>
    ensures read { MatchResult result
        (λ tree. IsBundle text.now tree)
        (λ fault. (replace : _) (holds : Option Nodes) → EndsUnpack text.now replace holds holds fault) }
    ensures cause { IfErr result (λ fault. BlamesFolder fault → ⊥) }
{
    match read_bundle(alloc, text) {
        Ok(tree) => Ok(tree),
        Err(BundleFault::Memory) => Err(UnpackFault::Memory(0)),
        Err(fault) => Err(UnpackFault::Text(fault)),
    }
}

// Another owner of a path, where this many files were made.
fn shared(path: &Path, made: usize) -> Result<Path, UnpackFault>
    ensures { MatchResult result (λ path'. path' ≡ path.now) (λ fault. fault ≡ UnpackFault.Memory made) }
{
    match path.share() {
        Ok(path) => Ok(path),
        Err(_) => Err(UnpackFault::Memory(made)),
    }
}

// Looks whether a file can be made at a path.
fn check_place<F: Folder>(alloc: Global, folder: &mut F, path: &Path) -> Result<(), UnpackFault>
    ensures free { OnOk result (Known (F.holds folder.old) (λ nodes. IsFree nodes (path_text path.now))) }
    ensures fault { IfErr result (IsWayFault (F.holds folder.old) path.now) }
    ensures same { F.holds folder.new ≡ F.holds folder.old }
    ensures cause { HasCause (F.faults folder.old) (F.faults folder.new)
        (MatchResult result (λ _. ⊥) BlamesFolder) }
{
    match folder.is_free(alloc, path) {
        Ok(true) => Ok(()),
        Ok(false) => Err(UnpackFault::Exists(shared(path, 0)?)),
        Err(FolderFault::Failed) => Err(UnpackFault::Unseen(shared(path, 0)?)),
        Err(FolderFault::Memory) => Err(UnpackFault::Memory(0)),
    }
}

// Whether a path is cleared before files are made.
fn is_cleared(path: &Path, replace: Replace) -> bool
    ensures { IsTrue result ↔ IsCleared replace path.now }
{
    match replace {
        Replace::Nothing => false,
        Replace::Made => is_made(path),
    }
}

// Looks whether a file can be made, unless its path is cleared before.
fn check_file<F: Folder>(
    alloc: Global,
    folder: &mut F,
    path: &Path,
    replace: Replace,
) -> Result<(), UnpackFault>
    ensures free { OnOk result (Known (F.holds folder.old) (λ nodes. IsFreeBut replace nodes path.now)) }
    ensures asked { OnErr result (¬ IsCleared replace path.now) }
    ensures fault { IfErr result (IsWayFault (F.holds folder.old) path.now) }
    ensures same { F.holds folder.new ≡ F.holds folder.old }
    ensures cause { HasCause (F.faults folder.old) (F.faults folder.new)
        (MatchResult result (λ _. ⊥) BlamesFolder) }
{
    if is_cleared(path, replace) {
        return Ok(());
    }
    check_place(alloc, folder, path)
}

// Looks whether all files can be made, but for those whose paths are cleared before.
fn check_places<F: Folder>(
    alloc: Global,
    folder: &mut F,
    files: &[TreeFile],
    replace: Replace,
) -> Result<(), UnpackFault>
    ensures free { OnOk result (Known (F.holds folder.old)
        (λ nodes. AreFreeBut replace nodes (files_of files.now))) }
    ensures fault { IfErr result (λ fault. (path : _) × Contains (paths_of (files_of files.now)) path
        × (¬ IsCleared replace path) × IsWayFault (F.holds folder.old) path fault) }
    ensures same { F.holds folder.new ≡ F.holds folder.old }
    ensures cause { HasCause (F.faults folder.old) (F.faults folder.new)
        (MatchResult result (λ _. ⊥) BlamesFolder) }
{
    'files: for file in files {
        check_file(alloc, folder, &file.path, replace)?;
    }
    Ok(())
}

// The path of a name at the top at which a build makes files.
fn top_path(alloc: Global, name: &str) -> Result<Path, UnpackFault>
    requires { IsPathText name.now }
    ensures { MatchResult result
        (λ path. path_text path ≡ name.now)
        (λ fault. fault ≡ UnpackFault.Memory 0) }
{
    match Path::read(alloc, name.as_bytes()) {
        Ok(path) => Ok(path),
        Err(PathFault::Memory) => Err(UnpackFault::Memory(0)),
        Err(PathFault::BadPath) => unreachable!(),
    }
}

// Removes what lies at a name at the top, and below it.
fn clear_top<F: Folder>(alloc: Global, folder: &mut F, name: &str) -> Result<(), UnpackFault>
    requires { IsPathText name.now }
    ensures gone { OnOk result (F.holds folder.new ≡ removed name.now (F.holds folder.old)) }
    ensures fault { IfErr result (IsClearFault name.now) }
    ensures refused { OnErr result (F.holds folder.new ≡ F.holds folder.old) }
    ensures cause { HasCause (F.faults folder.old) (F.faults folder.new)
        (MatchResult result (λ _. ⊥) BlamesFolder) }
{
    let path = top_path(alloc, name)?;
    match folder.remove(alloc, &path) {
        Ok(()) => Ok(()),
        Err(FolderFault::Failed) => Err(UnpackFault::Kept(path)),
        Err(FolderFault::Memory) => Err(UnpackFault::Memory(0)),
    }
}

// Removes what the build before made, if that is asked for.
fn clear<F: Folder>(alloc: Global, folder: &mut F, replace: Replace) -> Result<(), UnpackFault>
    ensures gone { OnOk result (F.holds folder.new ≡ start replace (F.holds folder.old)) }
    ensures fault { IfErr result (λ fault. (text : List ℕ)
        → EndsUnpack text replace (F.holds folder.old) (F.holds folder.new) fault) }
    ensures cause { HasCause (F.faults folder.old) (F.faults folder.new)
        (MatchResult result (λ _. ⊥) BlamesFolder) }
{
    if replace == Replace::Made {
        clear_top(alloc, folder, "out")?;
        clear_top(alloc, folder, "report.txt")?;
    }
    Ok(())
}

// Makes a file, where this many were made before.
fn make_file<F: Folder>(
    alloc: Global,
    folder: &mut F,
    file: &TreeFile,
    made: usize,
) -> Result<(), UnpackFault>
    ensures made { OnOk result
        (F.holds folder.new ≡ with_files (F.holds folder.old) (file_of file.now ∷ [])) }
    ensures refused { OnErr result (F.holds folder.new ≡ F.holds folder.old) }
    ensures fault { IfErr result (IsMakeFault (F.holds folder.old) file.now.path made) }
    ensures cause { HasCause (F.faults folder.old) (F.faults folder.new)
        (MatchResult result (λ _. ⊥) BlamesFolder) }
{
    match folder.write_new(alloc, &file.path, file.bytes.as_slice()) {
        Ok(()) => Ok(()),
        Err(WriteFault::Exists) => Err(UnpackFault::Taken(made, shared(&file.path, made)?)),
        Err(WriteFault::Failed) => Err(UnpackFault::Partly(made, shared(&file.path, made)?)),
        Err(WriteFault::Memory) => Err(UnpackFault::Memory(made)),
    }
}

// Makes all files.
fn make_files<F: Folder>(
    alloc: Global,
    folder: &mut F,
    files: &[TreeFile],
) -> Result<usize, UnpackFault>
    requires tree { IsTree (files_of files.now) }
    requires free { Known (F.holds folder.old) (λ nodes. AreFree nodes (files_of files.now)) }
    ensures made { IfOk result (λ count. (count ≡ length files.now)
        × (F.holds folder.new ≡ with_files (F.holds folder.old) (files_of files.now))) }
    ensures fault { IfErr result (IsStop (F.holds folder.old) (F.holds folder.new) (files_of files.now)) }
    ensures cause { HasCause (F.faults folder.old) (F.faults folder.new)
        (MatchResult result (λ _. ⊥) BlamesFolder) }
{
    'files: for (made, file) in files.iter().enumerate() {
        make_file(alloc, folder, file, made)?;
    }
    Ok(files.len())
}

/// Makes the files of a bundle in a folder, and answers their number. Nothing is changed before it is known
/// that the text is a bundle and that nothing is in the way.
pub fn unpack<F: Folder>(
    alloc: Global,
    folder: &mut F,
    text: &[u8],
    replace: Replace,
) -> Result<usize, UnpackFault>
    ensures unpacked { MatchResult result
        (λ count. IsUnpack text.now replace (F.holds folder.old) (F.holds folder.new) count)
        (λ fault. EndsUnpack text.now replace (F.holds folder.old) (F.holds folder.new) fault) }
    ensures cause { HasCause (F.faults folder.old) (F.faults folder.new)
        (MatchResult result (λ _. ⊥) BlamesFolder) }
{
    let tree = read_tree(alloc, text)?;
    check_places(alloc, folder, tree.files(), replace)?;
    clear(alloc, folder, replace)?;
    make_files(alloc, folder, tree.files())
}
