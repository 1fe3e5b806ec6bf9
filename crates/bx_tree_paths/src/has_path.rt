//! Things that lie at a path.
ghost use Rattle.std.specs.Prelude.{◌≡◌};
ghost use Rattle.bx_tree.specs.FileInputs.{input_path};
ghost use Rattle.bx_tree.specs.Paths.{Atoms};

use bx_tree::{FileInput, Path};

/// A thing that lies at a path, by which it is sorted and found.
pub trait HasPath {
    ghost path_in: { Self → Atoms };

    /// The path.
    fn path(&self) -> &Path
        ensures { result.now ≡ path_in self.now };
}

impl HasPath for Path {
    ghost path_in = { λ path. path };

    fn path(&self) -> &Path {
        self
    }
}

impl HasPath for FileInput {
    ghost path_in = { input_path };

    fn path(&self) -> &Path {
        self.path()
    }
}
