//! A file with its path.

ghost use Rattle.std.specs.Prelude.{◌≡◌};
ghost use Rattle.bx_tree.specs.Paths.{IsPath};
ghost use Rattle.bx_tree.specs.IsPathProp.{IsPath-prop};

use crate::path::Path;

/// A file of a tree: its path and its bytes.
#[derive(Drop)]
pub struct TreeFile {
    /// The path from the root of the tree.
    pub path: Path,
    /// The content.
    pub bytes: Vec<u8>,
    ghost is_path: { IsPath path } by { IsPath-prop path },
}

impl TreeFile {
    /// A file at a path, with these bytes.
    pub fn new(path: Path, bytes: Vec<u8>) -> TreeFile
        ensures path { result.path ≡ path }
        ensures bytes { result.bytes ≡ bytes }
    {
        let _ = path.text();
        TreeFile { path, bytes }
    }
}
