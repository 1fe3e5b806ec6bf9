//! Searches by halving in lists that rise by path.
ghost use Rattle.std.specs.Prelude.{◌≡◌, ◌≢◌, ◌+◌, ◌*◌, ◌<◌, ◌++◌, length, All, MatchOption};
ghost use Rattle.std.specs.Cmp.Lexicographic.{slice_cmp};
ghost use Rattle.std.specs.List.{HoldsAt};
ghost use Rattle.std.specs.Ordering.{nat_cmp};
ghost use Rattle.bx_tree.specs.Paths.{path_text};
ghost use Rattle.bx_tree_paths.specs.Searches.{IsSlotOf, RiseByText};
ghost use Rattle.bx_tree_paths.specs.Steps.{TookAtMost};

use crate::has_path::HasPath;
use crate::steps::Steps;
use bx_tree::Path;
use std::cmp::Ordering;
use std::marker::Brand;
use std::sync::ledger::{Blank, Ledger};

// How a text compares to one that is given in two parts.
fn compare_parts(text: &[u8], first: &[u8], second: &[u8]) -> Ordering
    ensures { result ≡ slice_cmp nat_cmp text.now (first.now ++ second.now) }
{
    if second.is_empty() {
        return text.cmp(first);
    }
    if text.len() < first.len() {
        return text.cmp(first);
    }
    let (head, rest) = text.split_at(first.len());
    head.cmp(first).then(rest.cmp(second))
}

// How the text of a path compares to one that is given in two parts. This is a step.
fn compare<L: Ledger>(path: &Path, first: &[u8], second: &[u8], steps: &mut Steps<L>) -> Ordering
    ensures order { result ≡ slice_cmp nat_cmp (path_text path.now) (first.now ++ second.now) }
    ensures step { steps.new ≡ steps.old + 1 }
{
    steps.tick();
    compare_parts(path.text().as_bytes(), first, second)
}

// Where a text belongs in a list: after how many items, and whether the next one has the path with this text.
#[derive(Clone, Copy)]
pub(crate) struct Slot {
    pub(crate) place: usize,
    pub(crate) is_there: bool,
}

// Where a text, given in two parts, belongs in a list.
pub(crate) fn slot_of<T: HasPath, L: Ledger>(
    items: &[T],
    first: &[u8],
    second: &[u8],
    steps: &mut Steps<L>,
) -> Slot
    requires { RiseByText T.path_in items.now }
    ensures slot { IsSlotOf T.path_in (first.now ++ second.now) items.now result.place result.is_there }
    ensures cost { TookAtMost steps.old steps.new (2 * length items.now + 1) }
{
    let mut low = 0;
    let mut high = items.len();
    let mut is_there = false;
    'halves: while low < high {
        let middle = low + (high - low) / 2;
        let order = compare(items[middle].path(), first, second, steps);
        if order.is_lt() {
            low = middle + 1;
        } else {
            high = middle;
            is_there = order.is_eq();
        }
    }
    Slot {
        place: low,
        is_there,
    }
}

// The place of an item whose path this is.
pub(crate) fn find_place<T: HasPath, L: Ledger>(
    items: &[T],
    path: &Path,
    steps: &mut Steps<L>,
) -> Option<usize>
    requires { RiseByText T.path_in items.now }
    ensures place { MatchOption result
        (All (λ x. T.path_in x ≢ path.now) items.now)
        (λ place. (place < length items.now) × HoldsAt (λ x. T.path_in x ≡ path.now) items.now place) }
    ensures cost { TookAtMost steps.old steps.new (2 * length items.now + 1) }
{
    let slot = slot_of(items, path.text().as_bytes(), b"", steps);
    if !slot.is_there {
        return None;
    }
    // The type of a path says that no other has its text.
    let _ = items[slot.place].path().text();
    Some(slot.place)
}

// The place of an item at a path, with the steps counted in a new ledger.
fn place_from<T: HasPath, L: Ledger>(items: &[T], path: &Path, blank: Blank) -> Option<usize>
    requires rising { RiseByText T.path_in items.now }
    requires name { blank.name ≡ L.name }
    requires parts { blank.parts ≡ L.parts }
    requires some { 0 < L.parts }
    ensures { MatchOption result
        (All (λ x. T.path_in x ≢ path.now) items.now)
        (λ place. (place < length items.now) × HoldsAt (λ x. T.path_in x ≡ path.now) items.now place) }
{
    let mut steps: Steps<L> = Steps::new(blank);
    find_place(items, path, &mut steps)
}

/// The place of an item at a path, in a list that rises by path.
pub fn place_of<T: HasPath>(items: &[T], path: &Path) -> Option<usize>
    requires { RiseByText T.path_in items.now }
    ensures { MatchOption result
        (All (λ x. T.path_in x ≢ path.now) items.now)
        (λ place. (place < length items.now) × HoldsAt (λ x. T.path_in x ≡ path.now) items.now place) }
{
    place_from::<T, Brand>(items, path, Blank::new(1))
}
