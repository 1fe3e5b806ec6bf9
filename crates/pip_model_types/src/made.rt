//! The files that a pip made.
ghost use Rattle.std.specs.Prelude.{◌≡◌, ◌↔◌, IsSome, IfOk, Contains};
ghost use Rattle.std.specs.List.{IsDistinct};
ghost use Rattle.std.specs.List.Sorted.{IsPermutation};
ghost use Rattle.std.specs.Option.{option_copied};
ghost use Rattle.bx_tree.specs.Paths.{same_path};
ghost use Rattle.bx_tree.specs.Trees.{file_at, paths_of};
ghost use Rattle.pip_model_types.specs.Made.{RisingFiles, made_files};

use bx_digest::Blob;
use bx_tree::Path;
use bx_tree_paths::{HasPath, place_of};
use std::alloc::{AllocError, Global};
use std::collections::BTreeMap;
use std::marker::Model;
use std::sync::Arc;

/// A file that a pip made, or a file with its contents.
#[derive(Drop)]
pub struct MadeFile {
    pub path: Path,
    pub blob: Blob,
}

impl HasPath for MadeFile {
    ghost path_in = { λ f. f.path };

    fn path(&self) -> &Path {
        &self.path
    }
}

/// Files by path, shared. Contracts see them as a list of (path, bytes) that rises by path.
#[derive(Drop)]
pub struct Made {
    files: Arc<Vec<MadeFile>>,
}

impl Model for Made {
    ghost use Rattle.std.specs.Prelude.{List, ℕ};
    ghost use Rattle.std.specs.Arc.{arc_value};
    ghost use Rattle.pip_model_types.specs.Made.{RisingFiles, made_files};

    ghost Value = { List (List (List ℕ) × List ℕ) };

    ghost view = { λ m. made_files (arc_value m.files).items };

    ghost invariant = { λ m. RisingFiles (made_files (arc_value m.files).items) };
}

impl Made {
    /// These files.
    pub fn of(alloc: Global, files: Vec<MadeFile>) -> Result<Made, AllocError>
        requires { IsDistinct same_path (paths_of (made_files files.items)) }
        ensures same { IfOk result (IsPermutation (made_files files.items)) }
        ensures rising { IfOk result RisingFiles }
    {
        Ok(Made {
            files: Arc::new(alloc, by_path(files))?,
        })
    }

    /// The files of a map by path.
    pub fn of_map(alloc: Global, files: BTreeMap<Path, Blob>) -> Result<Made, AllocError>
        ensures { IfOk result (λ made. made ≡ files.entries) }
    {
        Made::of(alloc, files_of(alloc, files)?)
    }

    /// The files, in order.
    pub fn files(&self) -> &[MadeFile]
        ensures files { made_files result.now ≡ self.now }
        ensures rising { RisingFiles self.now }
    {
        self.files.as_slice()
    }

    /// The bytes of the file at a path, if there is one.
    pub fn find(&self, path: &Path) -> Option<&Blob>
        ensures value { option_copied result ≡ file_at self.now path.now }
        ensures there { IsSome result ↔ Contains (paths_of self.now) path.now }
    {
        let files = self.files();
        match place_of(files, path) {
            Some(place) => Some(&files[place].blob),
            None => None,
        }
    }

    /// The files, shared.
    pub fn share(&self) -> Result<Made, AllocError>
        ensures { IfOk result (λ made. made ≡ self.now) }
    {
        Ok(Made {
            files: self.files.clone()?,
        })
    }
}

// The files of a map by path, in order.
fn files_of(alloc: Global, files: BTreeMap<Path, Blob>) -> Result<Vec<MadeFile>, AllocError>
    ensures files { IfOk result (λ made. made_files made.items ≡ files.entries) }
    ensures rising { RisingFiles files.entries }
{
    files
        .into_iter()
        .map(|(path, blob)| MadeFile { path, blob })
        .collect(alloc)
}

// The files in the order of their paths.
fn by_path(files: Vec<MadeFile>) -> Vec<MadeFile>
    requires { IsDistinct same_path (paths_of (made_files files.items)) }
    ensures same { IsPermutation (made_files files.items) (made_files result.items) }
    ensures rising { RisingFiles (made_files result.items) }
{
    let mut files = files;
    files.sort_unstable_by(|a, b| a.path.cmp(&b.path));
    files
}

/// What is known of a pip's result: nothing yet, the files that it made, or that it made none since it
/// did not succeed.
#[derive(Drop)]
pub enum Slot {
    Empty,
    Good(Made),
    Bad,
}
