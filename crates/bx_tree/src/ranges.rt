//! Where the paths below a directory are in a list that is sorted by path: they are neighbours.
ghost use Rattle.std.specs.Prelude.{◌≡◌, IfOk};
ghost use Rattle.bx_tree.specs.Paths.{IsPath};
ghost use Rattle.bx_tree.specs.Ranges.{comes_before as path_before, prefix_below};

use crate::Memory;
use crate::path::Path;
use std::alloc::Global;

/// The bytes with which the text of each path below a directory begins: none for the root, and else the
/// directory's text and a `/`.
pub fn prefix_of(alloc: Global, dir: &Path) -> Result<Vec<u8>, Memory>
    ensures prefix { IfOk result (λ prefix. prefix.items ≡ prefix_below dir.now) }
    ensures is_path { IsPath dir.now }
{
    let text = dir.text();
    if text == "." {
        return Ok(Vec::new(alloc));
    }
    let mut prefix = text.as_bytes().to_vec(alloc)?;
    prefix.push(b'/')?;
    Ok(prefix)
}

/// Whether a path comes before all paths whose texts begin with these bytes.
pub fn comes_before(path: &Path, prefix: &[u8]) -> bool
    ensures { result ≡ path_before prefix.now path.now }
{
    path.text().as_bytes().cmp(prefix).is_lt()
}
