//! Trees of files, and the files in them.

ghost use Rattle.std.specs.Prelude.{◌≡◌, ◌≢◌, ◌↔◌, ◌∷◌, ℕ, List, []};
ghost use Rattle.std.specs.Prelude.{IsTrue, IsSome, IfSome, IfNone, MatchOption, All, Any, Contains};
ghost use Rattle.std.specs.List.{IsDistinct};
ghost use Rattle.std.specs.List.Sorted.{IsPermutation};
ghost use Rattle.std.specs.Cmp.Lexicographic.{slice_cmp};
ghost use Rattle.std.specs.Ordering.{nat_cmp};
ghost use Rattle.std.specs.Option.{option_copied};
ghost use Rattle.bx_tree.specs.Paths.{IsAtom, path_text, same_path};
ghost use Rattle.bx_tree.specs.Trees.{Files, IsFirstAtom, IsReserved, IsTree, NoneNested, file_at, paths_of};
ghost use Rattle.bx_tree.specs.Views.{IsPositionOf, files_of};

use crate::order::{by_path, is_tree};
use crate::path::{Path, has_dir_prefix};
use crate::tree_file::TreeFile;
use std::cmp::Ordering;
use std::marker::Model;

/// Files by path, in rising order of path text, none of them the root or a directory of another.
/// Contracts see it as the list of its (path, bytes).
#[derive(Drop)]
pub struct Tree {
    files: Vec<TreeFile>,
}

impl Model for Tree {
    ghost use Rattle.std.specs.Prelude.{List, ℕ};
    ghost use Rattle.bx_tree.specs.Trees.{IsTree};

    ghost Value = { List (List (List ℕ) × List ℕ) };

    ghost use Rattle.bx_tree.specs.Views.{files_of};

    ghost view = { λ t. files_of t.files.items };

    ghost invariant = { λ t. IsTree (files_of t.files.items) };
}

impl Tree {
    /// The tree of these files.
    pub fn of(files: Vec<TreeFile>) -> Tree
        requires no_root { All (λ f. f.path ≢ []) files.items }
        requires distinct { IsDistinct same_path (paths_of (files_of files.items)) }
        requires unnested { NoneNested (paths_of (files_of files.items)) }
        ensures same { IsPermutation (files_of files.items) result }
        ensures tree { IsTree result }
    {
        Tree {
            files: by_path(files),
        }
    }

    /// The tree of these files. There is none if two files have equal paths, or if the path of one is the
    /// root or a directory of another's.
    pub fn checked(files: Vec<TreeFile>) -> Option<Tree>
        ensures { MatchOption result
            ((tree : Files) → IsPermutation (files_of files.items) tree → IsTree tree → ⊥)
            (λ tree. IsPermutation (files_of files.items) tree × IsTree tree) }
    {
        let files = by_path(files);
        if is_tree(files.as_slice()) {
            Some(Tree { files })
        } else {
            None
        }
    }

    // The tree of files that are already in order.
    pub(crate) fn in_order(files: Vec<TreeFile>) -> Tree
        requires { IsTree (files_of files.items) }
        ensures { result ≡ files_of files.items }
    {
        Tree { files }
    }

    /// The files, in order.
    pub fn files(&self) -> &[TreeFile]
        ensures files { files_of result.now ≡ self.now }
        ensures tree { IsTree self.now }
    {
        self.files.as_slice()
    }

    /// The files, in order, without the tree.
    pub fn into_files(self) -> Vec<TreeFile>
        ensures { files_of result.items ≡ self }
    {
        self.files
    }

    /// The bytes of the file at a path, if there is one.
    pub fn find(&self, path: &Path) -> Option<&[u8]>
        ensures value { option_copied result ≡ file_at self.now path.now }
        ensures there { IsSome result ↔ Contains (paths_of self.now) path.now }
    {
        let files = self.files();
        let position = position_of(files, path.text().as_bytes())?;
        Some(files[position].bytes.as_slice())
    }
}

/// How a path's text compares to a text.
pub fn text_order(path: &Path, text: &[u8]) -> Ordering
    ensures { result ≡ slice_cmp nat_cmp (path_text path.now) text.now }
{
    path.text().as_bytes().cmp(text)
}

// The position of the file whose path has this text.
pub(crate) fn position_of(files: &[TreeFile], text: &[u8]) -> Option<usize>
    requires { IsTree (files_of files.now) }
    ensures found { IfSome result (λ position. IsPositionOf text.now position files.now) }
    ensures none { IfNone result (All (λ f. path_text f.path ≢ text.now) files.now) }
{
    files
        .binary_search_by(|file| text_order(&file.path, text))
        .ok()
}

fn is_first_atom(text: &[u8], atom: &[u8]) -> bool
    ensures { IsTrue result ↔ IsFirstAtom atom.now text.now }
{
    text == atom || has_dir_prefix(text, atom)
}

fn has_first_atom(path: &Path, atom: &[u8]) -> bool
    requires { IsAtom atom.now }
    ensures { IsTrue result ↔ ((rest : List (List ℕ)) × (path.now ≡ atom.now ∷ rest)) }
{
    is_first_atom(path.text().as_bytes(), atom)
}

fn is_reserved(path: &Path) -> bool
    ensures { IsTrue result ↔ IsReserved path.now }
{
    has_first_atom(path, b"out") || has_first_atom(path, b"report.txt")
}

fn has_reserved(files: &[TreeFile]) -> bool
    ensures { IsTrue result ↔ Any (λ f. IsReserved f.path) files.now }
{
    files.iter().any(|file| is_reserved(&file.path))
}

/// Whether some path has `out` or `report.txt` as its first atom.
pub fn reserved(tree: &Tree) -> bool
    ensures { IsTrue result ↔ Any (λ f. IsReserved f.0) tree.now }
{
    has_reserved(tree.files())
}
