//! Where the items below a directory are in a list that rises by path: they are neighbours.
ghost use Rattle.std.specs.Prelude.{◌≡◌, ◌+◌, ◌*◌, ◌<◌, filter, length, All};
ghost use Rattle.bx_tree.specs.Below.{is_below};
ghost use Rattle.bx_tree_paths.specs.Searches.{RiseByText};
ghost use Rattle.bx_tree_paths.specs.Spans.{IsSpanOf, StartsBelow};
ghost use Rattle.bx_tree_paths.specs.Steps.{TookAtMost};

use crate::has_path::HasPath;
use crate::search::slot_of;
use crate::steps::Steps;
use bx_tree::Path;
use std::marker::Brand;
use std::sync::ledger::{Blank, Ledger};

/// A range of a list: from one place to before another.
#[derive(Clone, Copy)]
pub struct Span {
    pub from: usize,
    pub to: usize,
}

// Where the items are whose paths have texts that begin as those of the paths below a directory do.
pub(crate) fn span_below<T: HasPath, L: Ledger>(
    items: &[T],
    dir: &Path,
    steps: &mut Steps<L>,
) -> Span
    requires { RiseByText T.path_in items.now }
    ensures span { IsSpanOf (λ x. StartsBelow dir.now (T.path_in x)) items.now result.from result.to }
    ensures cost { TookAtMost steps.old steps.new ((2 * length items.now + 1) * (2 * length items.now + 1)) }
{
    if dir.is_root() {
        return Span {
            from: 0,
            to: items.len(),
        };
    }
    let text = dir.text().as_bytes();
    let from = slot_of(items, text, b"/", steps).place;
    // `0` is the byte after `/`.
    let to = slot_of(items, text, b"0", steps).place;
    Span { from, to }
}

// The part of a list in which its items below a directory are, with the steps counted in a new ledger.
fn items_from<'a, T: HasPath, L: Ledger>(items: &'a [T], dir: &Path, blank: Blank) -> &'a [T]
    requires rising { RiseByText T.path_in items.now }
    requires name { blank.name ≡ L.name }
    requires parts { blank.parts ≡ L.parts }
    requires some { 0 < L.parts }
    ensures all { filter (λ x. is_below (T.path_in x) dir.now) result.now
        ≡ filter (λ x. is_below (T.path_in x) dir.now) items.entry.now }
    ensures only { All (λ x. StartsBelow dir.now (T.path_in x)) result.now }
{
    let mut steps: Steps<L> = Steps::new(blank);
    let span = span_below(items, dir, &mut steps);
    &items[span.from..span.to]
}

/// The part of a list that rises by path in which the items strictly below a directory are. It has no others, but
/// for the root below the root.
pub fn items_below<'a, T: HasPath>(items: &'a [T], dir: &Path) -> &'a [T]
    requires { RiseByText T.path_in items.now }
    ensures all { filter (λ x. is_below (T.path_in x) dir.now) result.now
        ≡ filter (λ x. is_below (T.path_in x) dir.now) items.entry.now }
    ensures only { All (λ x. StartsBelow dir.now (T.path_in x)) result.now }
{
    items_from::<T, Brand>(items, dir, Blank::new(1))
}
