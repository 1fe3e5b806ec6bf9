//! The source files by path.
ghost use Rattle.std.specs.Prelude.{◌≡◌, ◌≢◌, ◌↔◌, ◌<◌, ◌++◌, ◌∷◌, [], filter, length, slice_get, true, All, Some};
ghost use Rattle.std.specs.Prelude.{IsSome, IfOk, IfSome, MatchOption, OnOk, Contains};
ghost use Rattle.std.specs.List.{HoldsAt};
ghost use Rattle.std.specs.Option.{option_copied};
ghost use Rattle.bx_tree.specs.Below.{is_below};
ghost use Rattle.bx_tree.specs.Trees.{IsTree, file_at, paths_of};
ghost use Rattle.bx_tree_paths.specs.Searches.{RiseByText};

use bx_digest::Blob;
use bx_tree::{Path, Tree, TreeFile};
use bx_tree_paths::{SortedPaths, place_of};
use std::alloc::{AllocError, Global};
use std::marker::Model;

/// The source files by path. Contracts see them as the tree's list of (path, bytes).
#[derive(Drop)]
pub struct Sources {
    paths: SortedPaths,
    blobs: Vec<Blob>,
}

impl Model for Sources {
    ghost use Rattle.std.specs.Prelude.{List, ℕ};
    ghost use Rattle.std.specs.List.{zip};
    ghost use Rattle.pip_model_types.specs.SourceFiles.{AreSources};

    ghost Value = { List (List (List ℕ) × List ℕ) };

    ghost view = { λ s. zip s.paths s.blobs.items };

    ghost invariant = { λ s. AreSources s.paths s.blobs.items };
}

// Adds a file to the paths and, as a blob, to the blobs.
fn add(
    alloc: Global,
    paths: &mut Vec<Path>,
    blobs: &mut Vec<Blob>,
    file: TreeFile,
) -> Result<(), AllocError>
    ensures path { OnOk result (paths.new.items ≡ paths.old.items ++ file.path ∷ []) }
    ensures blob { OnOk result (blobs.new.items ≡ blobs.old.items ++ file.bytes.items ∷ []) }
{
    let TreeFile { path, bytes } = file;
    let blob = Blob::new(alloc, bytes)?;
    paths.push(path)?;
    blobs.push(blob)?;
    Ok(())
}

// Whether this path is at a place.
fn is_at(paths: &[Path], place: usize, path: &Path) -> bool
    ensures { result ≡ true → (place < length paths.now) × HoldsAt (λ p. p ≡ path.now) paths.now place }
{
    place < paths.len() && paths[place] == *path
}

// The place of a path among paths in order, looked for after a place and at it first.
fn place_near(paths: &[Path], near: usize, path: &Path) -> Option<usize>
    requires { RiseByText (λ p. p) paths.now }
    ensures { MatchOption result
        (All (λ p. p ≢ path.now) paths.now)
        (λ place. (place < length paths.now) × HoldsAt (λ p. p ≡ path.now) paths.now place) }
{
    let next = near.saturating_add(1);
    if is_at(paths, next, path) {
        return Some(next);
    }
    if is_at(paths, near, path) {
        return Some(near);
    }
    place_of(paths, path)
}

impl Sources {
    /// The files of a tree.
    pub fn new(alloc: Global, tree: Tree) -> Result<Sources, AllocError>
        ensures { IfOk result (λ sources. sources ≡ tree) }
    {
        let mut paths = Vec::new(alloc);
        let mut blobs = Vec::new(alloc);
        let _ = tree.files();
        'files: for file in tree.into_files() {
            add(alloc, &mut paths, &mut blobs, file)?;
        }
        Ok(Sources {
            paths: SortedPaths::sorted(paths),
            blobs,
        })
    }

    /// The file at a path, if there is one.
    pub fn find(&self, path: &Path) -> Option<&Blob>
        ensures value { option_copied result ≡ file_at self.now path.now }
        ensures there { IsSome result ↔ Contains (paths_of self.now) path.now }
    {
        match place_of(self.paths(), path) {
            Some(place) => Some(&self.blobs[place]),
            None => None,
        }
    }

    /// The file at a path, if there is one. It is looked for after a place and at it first; where it is found is the
    /// place for the next one, and where there is none the place stays.
    pub fn find_near(&self, near: &mut usize, path: &Path) -> Option<&Blob>
        ensures value { option_copied result ≡ file_at self.now path.now }
        ensures place { MatchOption result (near.new ≡ near.old) (λ blob. slice_get (paths_of self.now) near.new ≡ Some path.now) }
    {
        match place_near(self.paths(), *near, path) {
            Some(place) => {
                *near = place;
                Some(&self.blobs[place])
            }
            None => None,
        }
    }

    /// The paths of the files, in order.
    pub fn paths(&self) -> &[Path]
        ensures paths { result.now ≡ paths_of self.now }
        ensures tree { IsTree self.now }
    {
        self.paths.paths()
    }

    /// The paths of the files strictly below a directory, in order.
    pub fn paths_below(&self, dir: &Path) -> &[Path]
        ensures { result.now ≡ filter (λ path. is_below path dir.now) (paths_of self.entry.now) }
    {
        self.paths.paths_below(dir)
    }
}
