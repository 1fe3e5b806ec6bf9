//! The source tree's answers: all that calls know of it, they know from here.
ghost use Rattle.std.specs.Prelude.{◌≡◌, ◌≤◌, true, false, length, IfOk};
ghost use Rattle.std.specs.List.Sorted.{IsPartitionPoint};
ghost use Rattle.bx_tree.specs.Below.{is_below, is_directly_in};
ghost use Rattle.bx_tree.specs.Trees.{IsTree, paths_of};
ghost use Rattle.bx_tree.specs.Views.{files_of};
ghost use Rattle.dscript_sdk_calls.specs.Ranges.{first_directly_in};
ghost use Rattle.dscript_sdk_calls.specs.Sources.{files_below, files_directly_in, files_found, tree_answers};
ghost use Rattle.bx_tree.specs.Ranges.{comes_before, first_below, prefix_below};

use crate::tree_ask::TreeAsk;
use bx_path::{Pattern, glob};
use bx_tree::{Memory, Path, Tree, TreeFile, comes_before, prefix_of};
use std::alloc::{AllocError, Global};

// The source files that a pattern finds in a directory, or anywhere below it where the glob is deep.
#[tactic(auto, unfolding(crate::specs::Sources::files_found))]
fn find_files(
    alloc: Global,
    tree: &Tree,
    dir: &Path,
    pattern: &Pattern,
    deep: bool,
) -> Result<Vec<Path>, Memory>
    ensures { IfOk result (λ paths. paths.items ≡ files_found tree.now dir.now pattern.now deep) }
{
    match glob(alloc, tree, dir, pattern.text(), deep) {
        Ok(paths) => Ok(paths),
        Err(_) => Err(AllocError),
    }
}

// How many files come before those whose paths' texts begin with these bytes.
fn count_before(files: &[TreeFile], prefix: &[u8]) -> usize
    requires { IsTree (files_of files.now) }
    ensures bound { result ≤ length files.now }
    ensures before { IsPartitionPoint
        (λ file. comes_before prefix.now file.path ≡ true)
        (λ file. comes_before prefix.now file.path ≡ false)
        files.now result }
{
    files.partition_point(|file| comes_before(&file.path, prefix))
}

// The paths of the first files, up to one that does not lie below a directory.
fn share_first_below(alloc: Global, files: &[TreeFile], dir: &Path) -> Result<Vec<Path>, Memory>
    ensures { IfOk result (λ paths. paths.items ≡ first_below dir.now (paths_of (files_of files.now))) }
{
    let mut paths = Vec::new(alloc);
    'files: for file in files {
        if !file.path.is_below(dir) {
            return Ok(paths);
        }
        paths.push(file.path.share()?)?;
    }
    Ok(paths)
}

/// The source files below a directory, which are next to one another in the tree.
pub fn find_below(alloc: Global, tree: &Tree, dir: &Path) -> Result<Vec<Path>, Memory>
    ensures { IfOk result (λ paths. paths.items ≡ files_below tree.now dir.now) }
{
    let prefix = prefix_of(alloc, dir)?;
    let files = tree.files();
    let start = count_before(files, prefix.as_slice());
    share_first_below(alloc, &files[start..], dir)
}

// Whether a path below a directory is directly in it.
fn is_directly_in(dir: &Path, prefix: &[u8], path: &Path) -> bool
    requires prefix { prefix.now ≡ prefix_below dir.now }
    requires below { is_below path.now dir.now ≡ true }
    ensures { result ≡ is_directly_in path.now dir.now }
{
    let (_, rest) = path.text().as_bytes().split_at(prefix.len());
    !rest.contains(&b'/')
}

// The paths of the files directly in a directory among the first, up to one that does not lie below it.
fn share_first_directly_in(
    alloc: Global,
    files: &[TreeFile],
    dir: &Path,
    prefix: &[u8],
) -> Result<Vec<Path>, Memory>
    requires { prefix.now ≡ prefix_below dir.now }
    ensures { IfOk result (λ paths. paths.items ≡ first_directly_in dir.now (paths_of (files_of files.now))) }
{
    let mut paths = Vec::new(alloc);
    'files: for file in files {
        if !file.path.is_below(dir) {
            return Ok(paths);
        }
        if is_directly_in(dir, prefix, &file.path) {
            paths.push(file.path.share()?)?;
        }
    }
    Ok(paths)
}

/// The source files directly in a directory.
pub fn find_directly_in(alloc: Global, tree: &Tree, dir: &Path) -> Result<Vec<Path>, Memory>
    ensures { IfOk result (λ paths. paths.items ≡ files_directly_in tree.now dir.now) }
{
    let prefix = prefix_of(alloc, dir)?;
    let files = tree.files();
    let start = count_before(files, prefix.as_slice());
    share_first_directly_in(alloc, &files[start..], dir, prefix.as_slice())
}

/// What a source tree answers to an ask.
pub fn ask_tree(alloc: Global, tree: &Tree, ask: &TreeAsk) -> Result<Vec<Path>, Memory>
    ensures { IfOk result (λ paths. paths.items ≡ tree_answers tree.now ask.now) }
{
    match ask {
        TreeAsk::Glob(dir, pattern) => find_files(alloc, tree, dir, pattern, false),
        TreeAsk::GlobDeep(dir, pattern) => find_files(alloc, tree, dir, pattern, true),
        TreeAsk::Below(dir) => find_below(alloc, tree, dir),
    }
}
