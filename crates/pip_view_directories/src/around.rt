//! The directories at, above and below a path.
ghost use Rattle.std.specs.Prelude.{◌≡◌, ◌<◌, true, IfOk, IfSome, codes, length};
ghost use Rattle.pip_model_types.specs.Dirs.{RiseByForm};
ghost use Rattle.pip_view_directories.specs.Around.{AreAround, HasText, IsOver, IsPart, IsTextAround, IsUnder};
ghost use Rattle.pip_view_directories.specs.Ranges.{AddsAll};

use crate::ranges::add_between;
use bx_tree::{Memory, Path};
use pip_model::{DirInput, DirInputs};
use std::alloc::Global;

/// Up to this many directories of a process are searched one by one.
pub const MANY_DIRS: usize = 512;

// Where more than one directory in this many is around a path, all are searched.
const SHARE: usize = 16;

// Adds the directories whose paths have this text.
fn add_at(
    found: &mut Vec<DirInput>,
    dirs: &[DirInput],
    text: &[u8],
    most: usize,
) -> Result<bool, Memory>
    requires { RiseByForm dirs.now }
    ensures { IfOk result (λ few. few ≡ true
        → AddsAll dirs.now (HasText text.now) found.old.items found.new.items) }
{
    add_between(found, dirs, text, b"", b"\0", most)
}

// Adds the directories below the path with this text.
fn add_under(
    found: &mut Vec<DirInput>,
    dirs: &[DirInput],
    text: &[u8],
    most: usize,
) -> Result<bool, Memory>
    requires { RiseByForm dirs.now }
    ensures { IfOk result (λ few. few ≡ true
        → AddsAll dirs.now (IsUnder text.now) found.old.items found.new.items) }
{
    // `0` is the byte after `/`.
    add_between(found, dirs, text, b"/", b"0", most)
}

// Adds the directories whose paths have the text before a place of a text, if a `/` is there.
fn add_part(
    found: &mut Vec<DirInput>,
    dirs: &[DirInput],
    text: &[u8],
    place: usize,
    most: usize,
) -> Result<bool, Memory>
    requires rising { RiseByForm dirs.now }
    requires place { place < length text.now }
    ensures { IfOk result (λ few. few ≡ true
        → AddsAll dirs.now (IsPart text.now place) found.old.items found.new.items) }
{
    if text[place] != b'/' {
        return Ok(true);
    }
    add_at(found, dirs, &text[..place], most)
}

// Adds the directories above the path with this text, but for the root.
fn add_over(
    found: &mut Vec<DirInput>,
    dirs: &[DirInput],
    text: &[u8],
    most: usize,
) -> Result<bool, Memory>
    requires { RiseByForm dirs.now }
    ensures { IfOk result (λ few. few ≡ true
        → AddsAll dirs.now (IsOver text.now) found.old.items found.new.items) }
{
    'places: for place in 0..text.len() {
        if !add_part(found, dirs, text, place, most)? {
            return Ok(false);
        }
    }
    Ok(true)
}

// Adds the directories at the path with this text, and above and below it.
fn add_around(
    found: &mut Vec<DirInput>,
    dirs: &[DirInput],
    text: &[u8],
    most: usize,
) -> Result<bool, Memory>
    requires { RiseByForm dirs.now }
    ensures { IfOk result (λ few. few ≡ true
        → AddsAll dirs.now (IsTextAround text.now) found.old.items found.new.items) }
{
    if !add_at(found, dirs, b".", most)? {
        return Ok(false);
    }
    if !add_at(found, dirs, text, most)? {
        return Ok(false);
    }
    if !add_over(found, dirs, text, most)? {
        return Ok(false);
    }
    add_under(found, dirs, text, most)
}

/// Of some directories, those at, above or below a path. There is no answer at the root, where there are no more
/// than `MANY_DIRS` directories, or where too many of them are around the path: then all are to be searched.
pub fn around_dirs(
    alloc: Global,
    dirs: &DirInputs,
    path: &Path,
) -> Result<Option<DirInputs>, Memory>
    ensures { IfOk result (λ found. IfSome found (AreAround dirs.now path.now)) }
{
    let all = dirs.dirs();
    if all.len() <= MANY_DIRS || path.is_root() {
        return Ok(None);
    }
    let mut found = Vec::new(alloc);
    let most = all.len() / SHARE;
    if !add_around(&mut found, all, path.text().as_bytes(), most)? {
        return Ok(None);
    }
    Ok(Some(DirInputs::of(found)))
}
