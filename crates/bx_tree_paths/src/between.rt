//! Where the items are whose paths have texts between two texts, in a list that rises by path: they are neighbours.
ghost use Rattle.std.specs.Prelude.{◌≡◌, ◌<◌, ◌++◌};
ghost use Rattle.bx_tree_paths.specs.Searches.{RiseByText};
ghost use Rattle.bx_tree_paths.specs.Spans.{IsBetween, IsSpanOf};

use crate::below::Span;
use crate::has_path::HasPath;
use crate::search::slot_of;
use crate::steps::Steps;
use std::marker::Brand;
use std::sync::ledger::{Blank, Ledger};

// Where the items between two texts are, with the steps counted in a new ledger.
fn span_from<T: HasPath, L: Ledger>(
    items: &[T],
    text: &[u8],
    low: &[u8],
    high: &[u8],
    blank: Blank,
) -> Span
    requires rising { RiseByText T.path_in items.now }
    requires name { blank.name ≡ L.name }
    requires parts { blank.parts ≡ L.parts }
    requires some { 0 < L.parts }
    ensures { IsSpanOf (λ x. IsBetween (text.now ++ low.now) (text.now ++ high.now) (T.path_in x))
        items.now result.from result.to }
{
    let mut steps: Steps<L> = Steps::new(blank);
    let from = slot_of(items, text, low, &mut steps).place;
    let to = slot_of(items, text, high, &mut steps).place;
    if to < from {
        return Span { from, to: from };
    }
    Span { from, to }
}

/// Where the items are, in a list that rises by path, whose paths have texts that come before a text with one
/// ending and not before it with another. The steps are not counted.
pub fn span_between<T: HasPath>(items: &[T], text: &[u8], low: &[u8], high: &[u8]) -> Span
    requires { RiseByText T.path_in items.now }
    ensures { IsSpanOf (λ x. IsBetween (text.now ++ low.now) (text.now ++ high.now) (T.path_in x))
        items.now result.from result.to }
{
    span_from::<T, Brand>(items, text, low, high, Blank::new(1))
}
