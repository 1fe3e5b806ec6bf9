//! What lies below a directory.
ghost use Rattle.std.specs.Prelude.{◌≡◌, ◌++◌, true, IfOk, IfSome, codes};
ghost use Rattle.std.specs.Range.Bound.{IsForward};
ghost use Rattle.std.specs.BTreeMap.Range.{IsLeBy, IsLtBy, range_contains};
ghost use Rattle.bx_tree.specs.Paths.{Atoms, path_cmp, path_text};
ghost use Rattle.bx_tree.specs.Below.{is_below};

use bx_tree::{Path, PathFault};
use std::alloc::{AllocError, Global};
use std::ops::Bound;

// The path whose text is that of a directory with a `0`, the byte after `/`, if there is one.
fn next_sibling(alloc: Global, dir: &Path) -> Result<Option<Path>, AllocError>
    ensures { IfOk result (λ next. IfSome next (λ path. path_text path ≡ path_text dir.now ++ codes "0")) }
{
    let mut text = Vec::from_slice(alloc, dir.text().as_bytes())?;
    text.push(b'0')?;
    match Path::read(alloc, text.as_slice()) {
        Ok(path) => Ok(Some(path)),
        Err(PathFault::BadPath) => Ok(None),
        Err(PathFault::Memory) => Err(AllocError),
    }
}

// Bounds between which all paths come that lie strictly below a directory.
pub(crate) fn bounds_below(
    alloc: Global,
    dir: &Path,
) -> Result<(Bound<Path>, Bound<Path>), AllocError>
    ensures forward { IfOk result (λ bounds.
        IsForward (IsLeBy path_cmp) (IsLtBy path_cmp) bounds.0 bounds.1) }
    ensures within { IfOk result (λ bounds. (q : Atoms) →
        is_below q dir.now ≡ true → range_contains path_cmp bounds.0 bounds.1 q ≡ true) }
{
    if dir.text() == "." {
        return Ok((Bound::Unbounded, Bound::Unbounded));
    }
    let start = Bound::Included(dir.share()?);
    match next_sibling(alloc, dir)? {
        Some(path) => Ok((start, Bound::Excluded(path))),
        None => Ok((start, Bound::Unbounded)),
    }
}
