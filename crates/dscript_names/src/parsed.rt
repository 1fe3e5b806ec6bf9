//! Files with their trees.

use bx_tree::Path;
use dscript_ast::File;

/// A file of a workspace that was parsed as a project file.
#[derive(Drop)]
pub struct Parsed {
    pub path: Path,
    pub file: File,
}
