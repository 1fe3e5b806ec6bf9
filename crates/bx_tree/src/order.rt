//! The order of files in a tree, and whether no file is a directory of another.

ghost use Rattle.std.specs.Prelude.{◌≡◌, ◌∷◌, ◌++◌, ◌↔◌, ◌<◌, ◌≤◌, ◌≢◌};
ghost use Rattle.std.specs.Prelude.{[], IsTrue, length, slice_index, take};
ghost use Rattle.std.specs.List.Sorted.{IsPermutation, IsSortedBy};
ghost use Rattle.std.specs.Ordering.{is_lt};
ghost use Rattle.bx_tree.specs.Paths.{path_cmp};
ghost use Rattle.bx_tree.specs.Bundle.{ComesAfterAll, HasNoAncestor};
ghost use Rattle.bx_tree.specs.Trees.{IsTree};
ghost use Rattle.bx_tree.specs.Views.{file_of, files_of};

use crate::tree::{position_of, text_order};
use crate::tree_file::TreeFile;

// The length of the longest common prefix of two texts.
fn common_prefix(a: &[u8], b: &[u8]) -> usize
    ensures in_first { result ≤ length a.now }
    ensures in_second { result ≤ length b.now }
    ensures same { take result a.now ≡ take result b.now }
    ensures longest { result < length a.now → result < length b.now
        → slice_index a.now result ≢ slice_index b.now result }
{
    let mut shared = 0;
    while shared < a.len() && shared < b.len() && a[shared] == b[shared] {
        shared += 1;
    }
    shared
}

// Whether a text comes after the paths of all these files, which it does if it comes after the last.
pub(crate) fn comes_after(files: &[TreeFile], text: &[u8]) -> bool
    requires { IsTree (files_of files.now) }
    ensures { IsTrue result ↔ ComesAfterAll (files_of files.now) text.now }
{
    if files.is_empty() {
        return true;
    }
    let last = &files[files.len() - 1];
    text_order(&last.path, text).is_lt()
}

// Whether none of these files is a directory of the path with this text, which comes after them all.
// The text of such a directory is the longest common prefix of the path and the last file: each file
// between the directory and the path starts with the directory's text, but not with that text and a `/`.
pub(crate) fn has_no_ancestor(files: &[TreeFile], text: &[u8]) -> bool
    requires tree { IsTree (files_of files.now) }
    requires after { ComesAfterAll (files_of files.now) text.now }
    ensures { IsTrue result ↔ HasNoAncestor (files_of files.now) text.now }
{
    if files.is_empty() {
        return true;
    }
    let last = &files[files.len() - 1];
    let shared = common_prefix(last.path.text().as_bytes(), text);
    if shared == text.len() {
        return true;
    }
    if text[shared] != b'/' {
        return true;
    }
    position_of(files, &text[..shared]).is_none()
}

// The files sorted by path.
pub(crate) fn by_path(mut files: Vec<TreeFile>) -> Vec<TreeFile>
    ensures same { IsPermutation files.items result.items }
    ensures sorted { IsSortedBy (λ a b. is_lt (path_cmp a.path b.path)) result.items }
{
    files.sort_unstable_by(|a, b| a.path.cmp(&b.path));
    files
}

// Whether the files of a tree and this one after them are a tree.
fn may_follow(before: &[TreeFile], file: &TreeFile) -> bool
    requires { IsTree (files_of before.now) }
    ensures { IsTrue result ↔ IsTree (files_of before.now ++ file_of file.now ∷ []) }
{
    let text = file.path.text();
    if text == "." {
        return false;
    }
    if !comes_after(before, text.as_bytes()) {
        return false;
    }
    has_no_ancestor(before, text.as_bytes())
}

// Whether files, in the given order, are a tree.
pub(crate) fn is_tree(files: &[TreeFile]) -> bool
    ensures { IsTrue result ↔ IsTree (files_of files.now) }
{
    'files: for (count, file) in files.iter().enumerate() {
        if !may_follow(&files[..count], file) {
            return false;
        }
    }
    true
}
