//! Workspaces.

use bx_tree::{Path, Text};

/// A module: its name, the file that describes it, and its files by path.
#[derive(Drop)]
pub struct ModuleText {
    pub name: Text,
    /// Its `module.config.dsc`, or `build.dsc` where the tree has no `config.dsc`.
    pub config: Path,
    pub files: Vec<Path>,
}

/// The modules of a tree, by the paths of the files that describe them.
#[derive(Drop)]
pub struct Workspace {
    pub modules: Vec<ModuleText>,
}
