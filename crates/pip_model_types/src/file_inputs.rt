//! The files that a pip takes.
ghost use Rattle.std.specs.Prelude.{◌≡◌, ◌↔◌, [], IsTrue, Contains, map};
ghost use Rattle.std.specs.List.{IsDistinct};
ghost use Rattle.std.specs.List.Sorted.{IsPermutation};
ghost use Rattle.bx_tree.specs.Paths.{same_path};
ghost use Rattle.pip_model_types.specs.Inputs.{RiseByPath};
ghost use Rattle.bx_tree.specs.FileInputs.{input_path};

use bx_tree::{FileInput, Path};
use bx_tree_paths::place_of;
use std::marker::Model;

/// Files, sorted by path, of which no two have one path. Contracts see them as a list.
#[derive(Drop)]
pub struct FileInputs {
    files: Vec<FileInput>,
}

impl Model for FileInputs {
    ghost use Rattle.std.specs.Prelude.{List};
    ghost use Rattle.bx_tree.specs.declared.file_input.FileInput.{FileInput};
    ghost use Rattle.pip_model_types.specs.Inputs.{RiseByPath};

    ghost Value = { List FileInput };

    ghost view = { λ f. f.files.items };

    ghost invariant = { λ f. RiseByPath f.files.items };
}

// The files in the order of their paths.
fn by_path(files: Vec<FileInput>) -> Vec<FileInput>
    requires { IsDistinct same_path (map input_path files.items) }
    ensures kept { IsPermutation files.items result.items }
    ensures rising { RiseByPath result.items }
{
    let mut files = files;
    files.sort_unstable_by(|a, b| a.path().cmp(b.path()));
    files
}

/// No files.
pub fn no_inputs<'a>() -> &'a [FileInput]
    ensures files { result.now ≡ [] }
    ensures rising { RiseByPath result.now }
{
    &[]
}

// Whether one of these files has a path.
fn has_file(files: &[FileInput], path: &Path) -> bool
    requires { RiseByPath files.now }
    ensures { IsTrue result ↔ Contains (map input_path files.now) path.now }
{
    place_of(files, path).is_some()
}

impl FileInputs {
    /// These files.
    pub fn of(files: Vec<FileInput>) -> FileInputs
        requires { IsDistinct same_path (map input_path files.items) }
        ensures kept { IsPermutation files.items result }
        ensures rising { RiseByPath result }
    {
        FileInputs {
            files: by_path(files),
        }
    }

    /// The files, in order.
    pub fn files(&self) -> &[FileInput]
        ensures files { result.now ≡ self.now }
        ensures rising { RiseByPath self.now }
    {
        self.files.as_slice()
    }

    /// Whether one of the files has a path.
    pub fn has_path(&self, path: &Path) -> bool
        ensures { IsTrue result ↔ Contains (map input_path self.now) path.now }
    {
        has_file(self.files(), path)
    }

    /// The files, in order, as a vector.
    pub fn into_files(self) -> Vec<FileInput>
        ensures { result.items ≡ self }
    {
        self.files
    }
}
