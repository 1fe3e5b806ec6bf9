//! A path as an argument.
ghost use Rattle.std.specs.Prelude.{◌≡◌, ◌++◌, IfOk, length};
ghost use Rattle.dscript_sdk_values.specs.PathTexts.{path_argument};

use bx_tree::{Memory, Path};
use std::alloc::Global;

/// A path as an argument, after the text before it.
pub fn path_bytes_after(alloc: Global, before: &[u8], path: &Path) -> Result<Vec<u8>, Memory>
    ensures { IfOk result (λ bytes. bytes.items ≡ before.now ++ path_argument path.now) }
{
    let text = path.text().as_bytes();
    let mut bytes = Vec::with_capacity(alloc, before.len() + 1 + text.len())?;
    bytes.extend_from_slice(before)?;
    bytes.push(b'/')?;
    bytes.extend_from_slice(text)?;
    Ok(bytes)
}

/// A path as an argument.
pub fn path_bytes(alloc: Global, path: &Path) -> Result<Vec<u8>, Memory>
    ensures { IfOk result (λ bytes. bytes.items ≡ path_argument path.now) }
{
    path_bytes_after(alloc, b"", path)
}

/// How many bytes a text and a path after it have as an argument.
pub fn length_with_path(before: &[u8], path: &Path) -> usize
    ensures { result ≡ length (before.now ++ path_argument path.now) }
{
    before.len() + 1 + path.text().len()
}
