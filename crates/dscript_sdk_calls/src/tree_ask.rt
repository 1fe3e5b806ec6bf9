//! What calls ask of the source tree.
ghost use Rattle.std.specs.Prelude.{◌≡◌, IfOk};

use bx_path::Pattern;
use bx_tree::{Memory, Path};

/// What a call asks of the source tree: some source files, by path.
#[derive(Drop)]
pub enum TreeAsk {
    /// The source files directly in a directory whose names match the pattern.
    Glob(Path, Pattern),
    /// The source files anywhere below a directory whose names match the pattern.
    GlobDeep(Path, Pattern),
    /// All source files below a directory.
    Below(Path),
}

impl TreeAsk {
    /// The ask, shared.
    pub fn share(&self) -> Result<TreeAsk, Memory>
        ensures { IfOk result (λ ask. ask ≡ self.now) }
    {
        match self {
            TreeAsk::Glob(dir, pattern) => Ok(TreeAsk::Glob(dir.share()?, pattern.share()?)),
            TreeAsk::GlobDeep(dir, pattern) => {
                Ok(TreeAsk::GlobDeep(dir.share()?, pattern.share()?))
            }
            TreeAsk::Below(dir) => Ok(TreeAsk::Below(dir.share()?)),
        }
    }
}
