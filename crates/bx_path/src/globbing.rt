//! Globs: the files of a tree whose last atom matches a pattern.

ghost use Rattle.std.specs.Prelude.{◌≡◌, ◌==◌, MatchResult};
ghost use Rattle.std.specs.List.{slice_split};
ghost use Rattle.bx_path.specs.Globbing.{IsPattern, glob_of};
ghost use Rattle.bx_path.specs.Globbing.{is_hit as is_hit_of, last_is_match as last_pattern_match};

use crate::pattern::{is_pattern, name_matches};
use bx_tree::{Memory, Path, Tree, split_once, text_below};
use std::alloc::{AllocFailed, Global};

/// The largest number of bytes in a pattern.
pub const MAX_PATTERN_BYTES: usize = 255;

/// Why a glob gives no files.
#[derive(Clone, Copy, Debug, PartialEq, Eq)]
pub enum GlobFault {
    /// The pattern is not 1 to [`MAX_PATTERN_BYTES`] bytes of `A-Z a-z 0-9 . _ - * ?`.
    BadPattern,
    /// Out of memory.
    Memory,
}

impl From<Memory> for GlobFault {
    ghost use Rattle.std.specs.Prelude.{◌≡◌};
    ghost use Rattle.bx_path.specs.declared.globbing.GlobFault.TheVariants as glob_faults;

    ghost from_gives = { λ _ e. e ≡ glob_faults.Memory };

    fn from(_: Memory) -> Self {
        GlobFault::Memory
    }
}

impl<T: Drop> From<AllocFailed<T>> for GlobFault {
    ghost use Rattle.std.specs.Prelude.{◌≡◌};
    ghost use Rattle.bx_path.specs.declared.globbing.GlobFault.TheVariants as glob_faults;

    ghost from_gives = { λ _ e. e ≡ glob_faults.Memory };

    fn from(_: AllocFailed<T>) -> Self {
        GlobFault::Memory
    }
}

// Whether the last atom of a text matches a pattern, and is the only atom unless the glob is deep.
fn last_is_match(text: &[u8], pattern: &[u8], deep: bool) -> bool
    requires { IsPattern pattern.now }
    ensures { result ≡ last_pattern_match pattern.now deep (slice_split (λ b. b == 47) text.now) }
{
    let mut rest = text;
    'parts: loop {
        let Some((_, after)) = split_once(rest, b'/') else {
            return name_matches(pattern, rest);
        };
        if !deep {
            return false;
        }
        rest = after;
    }
}

// Whether a glob of this directory lists a path.
fn is_hit(dir: &Path, path: &Path, pattern: &[u8], deep: bool) -> bool
    requires { IsPattern pattern.now }
    ensures { result ≡ is_hit_of dir.now pattern.now deep path.now }
{
    if !path.is_below(dir) {
        return false;
    }
    last_is_match(text_below(dir, path), pattern, deep)
}

/// The files of a tree, in order, that lie in a directory, or anywhere below it where the glob is
/// deep, and whose last atom matches a pattern: `*` matches any run of bytes, `?` any one byte.
pub fn glob(
    alloc: Global,
    tree: &Tree,
    dir: &Path,
    pattern: &[u8],
    deep: bool,
) -> Result<Vec<Path>, GlobFault>
    ensures { MatchResult result
        (λ paths. IsPattern pattern.now × (paths.items ≡ glob_of tree.now dir.now pattern.now deep))
        (λ fault. fault ≡ GlobFault.BadPattern → IsPattern pattern.now → ⊥) }
{
    if !is_pattern(pattern) {
        return Err(GlobFault::BadPattern);
    }
    let files = tree.files();
    let mut paths = Vec::new(alloc);
    for file in files {
        if is_hit(dir, &file.path, pattern, deep) {
            paths.push(file.path.share()?)?;
        }
    }
    Ok(paths)
}
