//! What configurations ask of paths, and files by their position in a tree.

ghost use Rattle.std.specs.Prelude.{◌≡◌, ◌<◌, [], false, length, slice_index_or, MatchOption};
ghost use Rattle.bx_tree.specs.Trees.{paths_of};
ghost use Rattle.dscript_names_workspace.specs.Paths.{IsAt, is_source};
ghost use Rattle.dscript_names_workspace.specs.Paths.{is_module_file as names_module, is_specification as names_dsc};

use bx_tree::{Path, Tree, text_order};

/// Whether a file is named `module.config.dsc`.
pub fn is_module_file(path: &Path) -> bool
    ensures { result ≡ names_module path.now }
{
    let text = path.text().as_bytes();
    text == b"module.config.dsc".as_slice() || text.ends_with(b"/module.config.dsc".as_slice())
}

/// Whether a path ends in `.dsc`.
pub fn is_specification(path: &Path) -> bool
    ensures { result ≡ names_dsc path.now }
{
    path.text().as_bytes().ends_with(b".dsc".as_slice())
}

/// The path of the file at this position.
pub fn path_at(tree: &Tree, position: usize) -> &Path
    requires { position < length tree.now }
    ensures { result.now ≡ slice_index_or (paths_of tree.entry.now) position [] }
{
    &tree.files()[position].path
}

/// The position of the file with this path.
pub(crate) fn position_of(tree: &Tree, path: &Path) -> Option<usize>
    ensures { MatchOption result
        (is_source tree.now path.now ≡ false)
        (λ position. IsAt tree.now position path.now) }
{
    let text = path.text().as_bytes();
    tree.files()
        .binary_search_by(|file| text_order(&file.path, text))
        .ok()
}
