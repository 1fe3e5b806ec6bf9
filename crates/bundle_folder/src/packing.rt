//! Packing: the bundle of the files of a folder.

ghost use Rattle.std.specs.Prelude.{◌≡◌, ◌↔◌, ◌≤◌, ℕ, List, Contains, IfOk, IfErr, OnOk, MatchResult};
ghost use Rattle.std.specs.Prelude.{All, length, string_bytes};
ghost use Rattle.std.specs.List.Sorted.{IsStrictlySortedBy};
ghost use Rattle.bx_io.specs.Causes.{HasCause};
ghost use Rattle.bx_tree.specs.Bundle.{IsInSize};
ghost use Rattle.bx_tree.specs.Paths.{path_cmp, path_text};
ghost use Rattle.bx_tree.specs.Trees.{paths_of};
ghost use Rattle.bx_tree.specs.Views.{files_of};
ghost use Rattle.bx_tree.specs.declared.limits.TheConstants.{MAX_FILES, MAX_FILE_BYTES};
ghost use Rattle.bundle_folder.specs.Answers.{ListsNodes};
ghost use Rattle.bundle_folder.specs.Folders.{File, IsFolder, Known, Nodes};
ghost use Rattle.bundle_folder.specs.Packing.{BlamesFolder, HasCauseIn, HasPackCause, IsPack};
ghost use Rattle.bundle_folder.specs.Steps.{AreEntryPaths, ArePathsOf, AreRead, IsEntryFault, IsFileIn};
ghost use Rattle.bundle_folder.specs.Steps.{IsFilePath, IsPlaceFault, IsTextFault, IsTextOf};
ghost use Rattle.bx_tree.specs.Lent.{texts_now};

use crate::fault::PackFault;
use crate::folder::{Entry, Folder, Kind, ListFault, ReadFault};
use bx_tree::{
    MAX_BUNDLE_BYTES, MAX_FILES, MAX_PATH_BYTES, Memory, Path, PathFault, Tree, TreeFile,
    write_bundle,
};
use std::alloc::Global;

// All that lies in a folder and is not left out.
fn list_all<F: Folder>(
    alloc: Global,
    folder: &mut F,
    left_out: &[&str],
) -> Result<Vec<Entry>, PackFault>
    ensures folder { OnOk result (Known (F.holds folder.old) IsFolder) }
    ensures listed { MatchResult result
        (λ entries. Known (F.holds folder.old)
        (λ nodes. ListsNodes (texts_now left_out.now) nodes entries.items))
        (λ fault. HasPackCause (texts_now left_out.now) (F.holds folder.old) fault) }
    ensures same { F.holds folder.new ≡ F.holds folder.old }
    ensures cause { HasCause (F.faults folder.old) (F.faults folder.new)
        (MatchResult result (λ _. ⊥) BlamesFolder) }
{
    match folder.list(alloc, left_out) {
        Ok(entries) => Ok(entries),
        Err(ListFault::NoText(place)) => Err(PackFault::NoText(place)),
        Err(ListFault::Failed(place)) => Err(PackFault::Unlisted(place)),
        Err(ListFault::Memory) => Err(PackFault::Memory),
    }
}

// The fault of a place that is no path.
fn bad_place(place: &String) -> Result<PackFault, Memory>
    ensures { IfOk result (IsPlaceFault (string_bytes place.now)) }
{
    let place = place.clone()?;
    if place.len() > MAX_PATH_BYTES {
        return Ok(PackFault::LongPath(place));
    }
    Ok(PackFault::BadName(place))
}

fn path_of(alloc: Global, entry: &Entry) -> Result<Path, PackFault>
    ensures { MatchResult result (IsFilePath entry.now) (IsEntryFault entry.now) }
{
    match Path::read(alloc, entry.place.as_bytes()) {
        Ok(path) => match entry.kind {
            Kind::File => Ok(path),
            Kind::Other => Err(PackFault::NoFile(path)),
        },
        Err(PathFault::Memory) => Err(PackFault::Memory),
        Err(PathFault::BadPath) => Err(bad_place(&entry.place)?),
    }
}

// Paths in rising order, each once.
fn in_order(paths: Vec<Path>) -> Vec<Path>
    ensures rising { IsStrictlySortedBy path_cmp result.items }
    ensures held { (path : _) → Contains result.items path ↔ Contains paths.items path }
{
    let mut paths = paths;
    paths.sort_unstable();
    paths.dedup();
    paths
}

// The paths of entries that are all files, in the order of the entries.
fn paths_in(alloc: Global, entries: &[Entry]) -> Result<Vec<Path>, PackFault>
    ensures { MatchResult result
        (λ paths. AreEntryPaths entries.now paths.items)
        (λ fault. (entry : _) × Contains entries.now entry × IsEntryFault entry fault) }
{
    let mut paths = Vec::new(alloc);
    'entries: for entry in entries {
        paths.push(path_of(alloc, entry)?)?;
    }
    Ok(paths)
}

// The paths of all files that a folder lists, in rising order, each once.
fn file_paths(alloc: Global, entries: &[Entry]) -> Result<Vec<Path>, PackFault>
    ensures count { IfOk result (λ paths. length paths.items ≤ MAX_FILES) }
    ensures paths { (left_out : List (List ℕ)) (nodes : Nodes) → ListsNodes left_out nodes entries.now
        → MatchResult result
        (λ paths. ArePathsOf left_out nodes paths.items)
        (λ fault. HasCauseIn left_out nodes fault) }
    ensures cause { IfErr result (λ fault. BlamesFolder fault → ⊥) }
{
    let paths = in_order(paths_in(alloc, entries)?);
    if paths.len() > MAX_FILES {
        return Err(PackFault::ManyFiles);
    }
    Ok(paths)
}

fn read_file<F: Folder>(alloc: Global, folder: &mut F, path: &Path) -> Result<TreeFile, PackFault>
    ensures path { IfOk result (λ file. file.path ≡ path.now) }
    ensures size { IfOk result (λ file. length file.bytes.items ≤ MAX_FILE_BYTES) }
    ensures held { IfOk result (λ file. Known (F.holds folder.old)
        (λ nodes. Contains nodes (path_text path.now, File file.bytes.items))) }
    ensures fault { IfErr result (λ fault. Known (F.holds folder.old)
        (λ nodes. (left_out : List (List ℕ)) → IsFileIn left_out nodes path.now
        → HasCauseIn left_out nodes fault)) }
    ensures same { F.holds folder.new ≡ F.holds folder.old }
    ensures cause { HasCause (F.faults folder.old) (F.faults folder.new)
        (MatchResult result (λ _. ⊥) BlamesFolder) }
{
    match folder.read(alloc, path) {
        Ok(bytes) => Ok(TreeFile::new(path.share()?, bytes)),
        Err(ReadFault::TooLarge) => Err(PackFault::LargeFile(path.share()?)),
        Err(ReadFault::Failed) => Err(PackFault::Unread(path.share()?)),
        Err(ReadFault::Memory) => Err(PackFault::Memory),
    }
}

// The files at these paths, as long as their bytes fit into a bundle.
fn read_files<F: Folder>(
    alloc: Global,
    folder: &mut F,
    paths: &[Path],
) -> Result<Vec<TreeFile>, PackFault>
    ensures paths { IfOk result (λ files. paths_of (files_of files.items) ≡ paths.now) }
    ensures sizes { IfOk result (λ files. All (λ f. length f.bytes.items ≤ MAX_FILE_BYTES) files.items) }
    ensures held { IfOk result (λ files. Known (F.holds folder.old) (λ nodes. AreRead nodes files.items)) }
    ensures fault { IfErr result (λ fault. Known (F.holds folder.old)
        (λ nodes. (left_out : List (List ℕ)) → ArePathsOf left_out nodes paths.now
        → HasCauseIn left_out nodes fault)) }
    ensures same { F.holds folder.new ≡ F.holds folder.old }
    ensures cause { HasCause (F.faults folder.old) (F.faults folder.new)
        (MatchResult result (λ _. ⊥) BlamesFolder) }
{
    let mut files = Vec::new(alloc);
    let mut size = 0;
    'paths: for path in paths {
        let file = read_file(alloc, folder, path)?;
        size += file.bytes.len();
        files.push(file)?;
        if size > MAX_BUNDLE_BYTES {
            return Err(PackFault::LargeText);
        }
    }
    Ok(files)
}

// The bundle of these files.
fn text_of(alloc: Global, files: Vec<TreeFile>) -> Result<Vec<u8>, PackFault>
    requires { IsInSize (files_of files.items) }
    ensures { MatchResult result
        (λ text. IsTextOf (files_of files.items) text.items)
        (IsTextFault (files_of files.items)) }
{
    let Some(tree) = Tree::checked(files) else {
        return Err(PackFault::Changed);
    };
    let text = write_bundle(alloc, &tree)?;
    if text.len() > MAX_BUNDLE_BYTES {
        return Err(PackFault::LargeText);
    }
    Ok(text)
}

/// The bundle of the files of a folder, without what lies at or below the places in `left_out`. The folder is
/// only read. Where it is refused, the refusal names a place that causes it; of several, any.
pub fn pack<F: Folder>(
    alloc: Global,
    folder: &mut F,
    left_out: &[&str],
) -> Result<Vec<u8>, PackFault>
    ensures packed { MatchResult result
        (λ text. IsPack (texts_now left_out.now) (F.holds folder.old) text.items)
        (λ fault. HasPackCause (texts_now left_out.now) (F.holds folder.old) fault) }
    ensures same { F.holds folder.new ≡ F.holds folder.old }
    ensures cause { HasCause (F.faults folder.old) (F.faults folder.new)
        (MatchResult result (λ _. ⊥) BlamesFolder) }
{
    let entries = list_all(alloc, folder, left_out)?;
    let paths = file_paths(alloc, &entries)?;
    let files = read_files(alloc, folder, &paths)?;
    text_of(alloc, files)
}
