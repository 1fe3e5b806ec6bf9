//! Paths and their texts.

ghost use Rattle.std.specs.Prelude.{◌≡◌, ◌==◌, ◌↔◌, ℕ, List, [], IsTrue, IfOk, MatchResult};
ghost use Rattle.std.specs.List.{AllByRecursion, slice_split};
ghost use Rattle.std.specs.Ordering.{as_partial_cmp};
ghost use Rattle.std.proofs.Common.{rules};
ghost use Rattle.bx_tree.specs.Below.{is_below};
ghost use Rattle.bx_tree.specs.Paths.{IsAtom, TextBelow, TextGoesOn, IsBelow, IsPath, IsPathText, Names};
ghost use Rattle.bx_tree.specs.Paths.{is_atom_byte as atom_byte, is_root as has_no_atoms, path_cmp, path_text, same_path};
ghost use Rattle.bx_tree.specs.Orders.{path_cmp_total, path_cmp_matches, path_cmp_partial};
ghost use Rattle.bx_tree.specs.Orders.{same_path_equiv, same_path_partial};

use crate::Memory;
use crate::limits::{MAX_ATOM_BYTES, MAX_PATH_BYTES};
use std::alloc::{AllocFailed, Global};
use std::cmp::Ordering;
use std::marker::Model;
use std::str;
use std::sync::Arc;

/// Why a text gives no path.
#[derive(Clone, Copy, Debug, PartialEq, Eq)]
pub enum PathFault {
    /// The text names no path.
    BadPath,
    /// Out of memory.
    Memory,
}

impl From<Memory> for PathFault {
    ghost use Rattle.std.specs.Prelude.{◌≡◌};
    ghost use Rattle.bx_tree.specs.declared.path.PathFault.TheVariants as path_faults;

    ghost from_gives = { λ _ e. e ≡ path_faults.Memory };

    fn from(_: Memory) -> Self {
        PathFault::Memory
    }
}

impl<T: Drop> From<AllocFailed<T>> for PathFault {
    ghost use Rattle.std.specs.Prelude.{◌≡◌};
    ghost use Rattle.bx_tree.specs.declared.path.PathFault.TheVariants as path_faults;

    ghost from_gives = { λ _ e. e ≡ path_faults.Memory };

    fn from(_: AllocFailed<T>) -> Self {
        PathFault::Memory
    }
}

fn is_atom_byte(byte: u8) -> bool
    ensures { result ≡ atom_byte byte }
{
    matches!(byte, b'A'..=b'Z' | b'a'..=b'z' | b'0'..=b'9' | b'.' | b'_' | b'-')
}

fn has_atom_bytes(text: &[u8]) -> bool
    ensures { IsTrue result ↔ AllByRecursion (λ b. IsTrue (atom_byte b)) text.now }
{
    text.iter().all(|byte| is_atom_byte(*byte))
}

/// Whether a text is an atom: 1 to [`MAX_ATOM_BYTES`](crate::MAX_ATOM_BYTES) bytes of
/// `A-Z a-z 0-9 . _ -`, and neither `.` nor `..`.
pub fn is_atom(text: &[u8]) -> bool
    ensures { IsTrue result ↔ IsAtom text.now }
{
    if text.is_empty() || text.len() > MAX_ATOM_BYTES {
        return false;
    }
    if text == b".".as_slice() || text == b"..".as_slice() {
        return false;
    }
    has_atom_bytes(text)
}

fn has_atoms(text: &[u8]) -> bool
    ensures { IsTrue result ↔ AllByRecursion IsAtom (slice_split (λ b. b == 47) text.now) }
{
    text.split(|byte| *byte == b'/').all(is_atom)
}

/// Whether a text names a path: one or more atoms (see [`is_atom`]) joined by `/`, at most
/// [`MAX_PATH_BYTES`](crate::MAX_PATH_BYTES) bytes in all.
pub fn is_path(text: &[u8]) -> bool
    ensures { IsTrue result ↔ IsPathText text.now }
{
    if text.len() > MAX_PATH_BYTES {
        return false;
    }
    has_atoms(text)
}

/// Whether a text starts with a directory's text and a `/`.
pub fn has_dir_prefix(text: &[u8], dir: &[u8]) -> bool
    ensures { IsTrue result ↔ TextGoesOn dir.now text.now }
{
    if text.len() <= dir.len() {
        return false;
    }
    if text[dir.len()] != b'/' {
        return false;
    }
    text.starts_with(dir)
}

fn lies_below(text: &[u8], dir: &[u8]) -> bool
    ensures { IsTrue result ↔ TextBelow dir.now text.now }
{
    if dir == b".".as_slice() {
        text != b".".as_slice()
    } else {
        has_dir_prefix(text, dir)
    }
}

/// The path of a file or a directory, shared. Contracts see it as the list of its atoms, from the
/// root down; the root has none. Paths are ordered by the bytes of their texts.
#[derive(Drop)]
pub struct Path {
    text: Arc<String>,
}

impl Model for Path {
    ghost use Rattle.std.specs.Prelude.{List, ℕ};
    ghost use Rattle.std.specs.Arc.{arc_value};
    ghost use Rattle.std.specs.String.{string_bytes};
    ghost use Rattle.bx_tree.specs.Paths.{path_of, IsKept};

    ghost Value = { List (List ℕ) };

    ghost view = { λ p. path_of (string_bytes (arc_value p.text)) };

    ghost invariant = { λ p. IsKept (string_bytes (arc_value p.text)) };
}

impl Path {
    /// The path that a text names. The root has no such text: see [`Path::root`].
    pub fn read(alloc: Global, text: &[u8]) -> Result<Path, PathFault>
        ensures { MatchResult result
            (λ path. Names text.now path)
            (λ fault. fault ≡ PathFault.BadPath → IsPathText text.now → ⊥) }
    {
        let Ok(name) = str::from_utf8(text) else {
            return Err(PathFault::BadPath);
        };
        if !is_path(text) {
            return Err(PathFault::BadPath);
        }
        Ok(Path {
            text: Arc::new(alloc, String::from_str(alloc, name)?)?,
        })
    }

    /// The root, which lies above all other paths.
    pub fn root(alloc: Global) -> Result<Path, Memory>
        ensures { IfOk result (λ path. path ≡ []) }
    {
        Ok(Path {
            text: Arc::new(alloc, String::from_str(alloc, ".")?)?,
        })
    }

    /// The text: atoms joined by `/`, and `.` for the root.
    pub fn text(&self) -> &str
        ensures text { result.now ≡ path_text self.now }
        ensures is_path { IsPath self.now }
    {
        self.text.as_str()
    }

    /// Whether the path is the root.
    pub fn is_root(&self) -> bool
        ensures root { IsTrue result ↔ (self.now ≡ []) }
        ensures value { result ≡ has_no_atoms self.now }
    {
        self.text() == "."
    }

    /// Whether the path is the other one.
    pub fn is_same(&self, other: &Path) -> bool
        ensures { IsTrue result ↔ (self.now ≡ other.now) }
    {
        self == other
    }

    /// Whether the path lies strictly below a directory.
    pub fn is_below(&self, dir: &Path) -> bool
        ensures below { IsTrue result ↔ IsBelow self.now dir.now }
        ensures value { result ≡ is_below self.now dir.now }
    {
        lies_below(self.text().as_bytes(), dir.text().as_bytes())
    }

    /// Another owner of this path. The text is not copied.
    pub fn share(&self) -> Result<Path, Memory>
        ensures { IfOk result (λ path. path ≡ self.now) }
    {
        Ok(Path {
            text: self.text.clone()?,
        })
    }
}

impl PartialEq for Path {
    ghost eq = { same_path };

    ghost laws = { same_path_partial };

    fn eq(&self, other: &Path) -> bool {
        self.text() == other.text()
    }
}

impl Eq for Path {
    ghost laws = { same_path_equiv };
}

impl Ord for Path {
    ghost cmp = { path_cmp };

    ghost total = { path_cmp_total };

    ghost matches_partial_cmp = { Prim.search rules };

    ghost matches_eq = { path_cmp_matches };

    fn cmp(&self, other: &Path) -> Ordering {
        self.text().cmp(other.text())
    }
}

impl PartialOrd for Path {
    ghost partial_cmp = { as_partial_cmp path_cmp };

    ghost laws = { path_cmp_partial };

    fn partial_cmp(&self, other: &Path) -> Option<Ordering> {
        Some(self.cmp(other))
    }
}
