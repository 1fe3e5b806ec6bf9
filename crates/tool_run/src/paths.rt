//! The paths that texts stand for, and which of them a run may write.
ghost use Rattle.std.specs.Prelude.{◌≡◌, ◌||◌, [], IfOk};
ghost use Rattle.std.specs.List.{list_any};
ghost use Rattle.bx_tree.specs.Paths.{same_path};
ghost use Rattle.bx_path.specs.Joining.{join_of};
ghost use Rattle.tool_run.specs.Described.{described};
ghost use Rattle.bx_tree.specs.Below.{is_below};
ghost use Rattle.tool_run.specs.Description.{permits as permitted};
ghost use Rattle.tool_run.specs.Description.{resolved as path_of_text};
ghost use Rattle.pip_model_types.specs.Outputs.{outdir_paths};

use bx_path::join;
use bx_tree::{Path, PathFault};
use pip_model_types::{Desc, OutDirs, Outputs, is_console};
use std::alloc::{AllocError, Global};

// The path that a text leads to from another, if it is one.
fn joined(alloc: Global, base: &Path, text: &[u8]) -> Result<Option<Path>, AllocError>
    ensures { IfOk result (λ path. path ≡ join_of base.now text.now) }
{
    match join(alloc, base, text) {
        Ok(path) => Ok(Some(path)),
        Err(PathFault::BadPath) => Ok(None),
        Err(PathFault::Memory) => Err(AllocError),
    }
}

// The path that a text leads to from the root, if it is one. Most texts name that path as they are.
fn from_root(alloc: Global, text: &[u8]) -> Result<Option<Path>, AllocError>
    ensures { IfOk result (λ path. path ≡ join_of [] text.now) }
{
    match Path::read(alloc, text) {
        Ok(path) => Ok(Some(path)),
        Err(PathFault::BadPath) => {
            let root = Path::root(alloc)?;
            joined(alloc, &root, text)
        }
        Err(PathFault::Memory) => Err(AllocError),
    }
}

// The path that a text leads to from a directory, if it is one.
fn from_dir(alloc: Global, dir: &Path, text: &[u8]) -> Result<Option<Path>, AllocError>
    ensures { IfOk result (λ path. path ≡ join_of dir.now text.now) }
{
    let name = dir.text();
    if name == "." {
        return from_root(alloc, text);
    }
    joined(alloc, dir, text)
}

// The path that a text stands for in a working directory, if it is one.
pub(crate) fn resolved(alloc: Global, dir: &Path, text: &[u8]) -> Result<Option<Path>, AllocError>
    ensures { IfOk result (λ path. path ≡ path_of_text dir.now text.now) }
{
    match text.split_first() {
        Some((b'/', rest)) => {
            if rest.is_empty() {
                return Ok(Some(Path::root(alloc)?));
            }
            from_root(alloc, rest)
        }
        _ => from_dir(alloc, dir, text),
    }
}

// Whether a path is one of these files or lies strictly below one of these directories.
fn is_declared(outputs: &Outputs, dirs: &OutDirs, path: &Path) -> bool
    ensures { result
        ≡ (list_any (λ out. same_path out path.now) outputs.now
        || list_any (λ dir. is_below path.now dir) (outdir_paths dirs.now)) }
{
    let inside = dirs.any_above(path);
    inside || outputs.has(path)
}

// Whether a run may write a path.
pub(crate) fn permits(desc: &Desc, path: &Path) -> bool
    ensures { result ≡ permitted (described desc.now) path.now }
{
    let process = &desc.process;
    is_declared(&process.outs, &process.outdirs, path) && !is_console(&process.console, path)
}
