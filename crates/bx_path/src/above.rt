//! The directories that a path lies in.
ghost use Rattle.std.specs.Prelude.{◌≡◌, ◌||◌, IfOk, IfSome, OnOk, None, codes};
ghost use Rattle.std.specs.BTreeSet.{contains};
ghost use Rattle.std.specs.List.{list_any};
ghost use Rattle.bx_tree.specs.Paths.{Atoms, path_cmp, same_path};
ghost use Rattle.bx_path.specs.Joining.{EndsWithPart, HasNoSlash, join_of, parent as parent_of};
ghost use Rattle.bx_tree.specs.Below.{is_below};

use crate::joining::join;
use bx_tree::{Path, PathFault};
use std::alloc::{AllocError, Global};
use std::collections::BTreeSet;

// Where `..` leads from a path.
fn one_up(alloc: Global, path: &Path) -> Result<Option<Path>, AllocError>
    ensures { IfOk result (λ dir. dir ≡ join_of path.now (codes "..")) }
{
    match join(alloc, path, b"..") {
        Ok(dir) => Ok(Some(dir)),
        Err(PathFault::BadPath) => Ok(None),
        Err(PathFault::Memory) => Err(AllocError),
    }
}

// What a text has before its last `/`, if it has one.
fn before_last(text: &[u8]) -> Option<&[u8]>
    ensures some { IfSome result (λ before. EndsWithPart before.now text.now) }
    ensures none { result ≡ None → HasNoSlash text.now }
{
    let mut left = text;
    'back: while let Some((last, before)) = left.split_last() {
        if *last == b'/' {
            return Some(before);
        }
        left = before;
    }
    None
}

/// The directory that a path lies in; the root lies in none.
pub fn parent(alloc: Global, path: &Path) -> Result<Option<Path>, AllocError>
    ensures { IfOk result (λ dir. dir ≡ parent_of path.now) }
{
    let text = path.text();
    if text == "." {
        return Ok(None);
    }
    match before_last(text.as_bytes()) {
        None => Ok(Some(Path::root(alloc)?)),
        Some(before) => match Path::read(alloc, before) {
            Ok(dir) => Ok(Some(dir)),
            Err(PathFault::BadPath) => one_up(alloc, path),
            Err(PathFault::Memory) => Err(AllocError),
        },
    }
}

/// The directories that a path lies strictly below, from the nearest up to the root.
pub fn directories(alloc: Global, path: &Path) -> Result<Vec<Path>, AllocError>
    ensures { IfOk result (λ dirs. (q : Atoms) →
        list_any (λ dir. same_path dir q) dirs.items ≡ is_below path.now q) }
{
    let mut dirs = Vec::new(alloc);
    let mut next = parent(alloc, path)?;
    'dirs: while let Some(dir) = next {
        next = parent(alloc, &dir)?;
        dirs.push(dir)?;
    }
    Ok(dirs)
}

/// Adds the directories that a path lies strictly below to a set.
pub fn add_directories(
    alloc: Global,
    dirs: &mut BTreeSet<Path>,
    path: &Path,
) -> Result<(), AllocError>
    ensures { OnOk result ((q : Atoms) →
        contains path_cmp dirs.new q ≡ (is_below path.now q || contains path_cmp dirs.old q)) }
{
    let above = directories(alloc, path)?;
    'above: for dir in &above {
        dirs.insert(dir.share()?)?;
    }
    Ok(())
}
