//! Where a step takes a file from.

ghost use Rattle.std.specs.Prelude.{◌≡◌};
ghost use Rattle.bx_tree.specs.FileInputs.{input_path};

use crate::path::Path;

/// A file that a step takes: one of the source, or one that the step with this number makes.
#[derive(Drop)]
pub enum FileInput {
    /// A file of the source tree.
    Source(Path),
    /// A file that the step with this number makes.
    Made(Path, u32),
}

impl FileInput {
    /// The path of the file.
    pub fn path(&self) -> &Path
        ensures { result.now ≡ input_path self.now }
    {
        match self {
            FileInput::Source(path) | FileInput::Made(path, _) => path,
        }
    }
}
