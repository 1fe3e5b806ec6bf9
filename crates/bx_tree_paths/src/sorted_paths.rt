//! Paths in order.
ghost use Rattle.std.specs.Prelude.{◌≡◌, ◌≢◌, ◌↔◌, ◌+◌, ◌*◌, ◌<◌, [], Some, filter, length, slice_get, All, Contains};
ghost use Rattle.std.specs.Prelude.{IsSome, IfOk, IfSome};
ghost use Rattle.std.specs.List.{AllByRecursion, IsDistinct};
ghost use Rattle.std.specs.List.Sorted.{IsPermutation, IsStrictlySortedBy};
ghost use Rattle.bx_tree.specs.Below.{is_below};
ghost use Rattle.bx_tree.specs.Paths.{IsBelow, IsPath, path_cmp, same_path};
ghost use Rattle.bx_tree.specs.Ranges.{AreFilePaths};
ghost use Rattle.bx_tree_paths.specs.Spans.{IsSpanOf};
ghost use Rattle.bx_tree_paths.specs.Steps.{TookAtMost};

use crate::below::{Span, span_below};
use crate::search::{find_place, place_of};
use crate::steps::Steps;
use bx_tree::{Memory, Path};
use std::marker::{Brand, Model};
use std::sync::ledger::{Blank, Ledger};

/// Paths, sorted by their texts, each once and none of them the root. Contracts see the list.
#[derive(Drop)]
pub struct SortedPaths {
    paths: Vec<Path>,
}

impl Model for SortedPaths {
    ghost use Rattle.std.specs.Prelude.{List, ℕ};
    ghost use Rattle.bx_tree.specs.Ranges.{AreFilePaths};

    ghost Value = { List (List (List ℕ)) };

    ghost view = { λ s. s.paths.items };

    ghost invariant = { λ s. AreFilePaths s.paths.items };
}

// What the type of each path says is so of all of them. There is nothing to do.
fn are_paths(paths: &[Path])
    ensures { AllByRecursion IsPath paths.now }
{
    'paths: for path in paths {
        let _ = path.text();
    }
}

// The paths in order.
fn in_order(paths: Vec<Path>) -> Vec<Path>
    requires { IsDistinct same_path paths.items }
    ensures same { IsPermutation paths.items result.items }
    ensures rising { IsStrictlySortedBy path_cmp result.items }
{
    let mut paths = paths;
    paths.sort_unstable();
    paths
}

impl SortedPaths {
    /// These paths, sorted.
    pub fn of(paths: Vec<Path>) -> Result<SortedPaths, Memory>
        requires distinct { IsDistinct same_path paths.items }
        requires no_root { All (λ path. path ≢ []) paths.items }
        ensures same { IfOk result (IsPermutation paths.items) }
        ensures sorted { IfOk result AreFilePaths }
    {
        let paths = in_order(paths);
        are_paths(paths.as_slice());
        Ok(SortedPaths { paths })
    }

    /// These paths, which are sorted.
    pub fn sorted(paths: Vec<Path>) -> SortedPaths
        requires { AreFilePaths paths.items }
        ensures { result ≡ paths.items }
    {
        SortedPaths { paths }
    }

    /// The paths, in order.
    pub fn paths(&self) -> &[Path]
        ensures paths { result.now ≡ self.now }
        ensures sorted { AreFilePaths self.now }
    {
        self.paths.as_slice()
    }

    /// The place of a path, if it is there.
    pub fn find<L: Ledger>(&self, path: &Path, steps: &mut Steps<L>) -> Option<usize>
        ensures place { IfSome result (λ place. slice_get self.now place ≡ Some path.now) }
        ensures there { IsSome result ↔ Contains self.now path.now }
        ensures cost { TookAtMost steps.old steps.new (2 * length self.now + 1) }
    {
        find_place(self.paths(), path, steps)
    }

    /// Where the paths strictly below a directory are: from one place to before another.
    pub fn below<L: Ledger>(&self, dir: &Path, steps: &mut Steps<L>) -> Span
        ensures below { IsSpanOf (λ path. IsBelow path dir.now) self.now result.from result.to }
        ensures cost { TookAtMost steps.old steps.new ((2 * length self.now + 1) * (2 * length self.now + 1)) }
    {
        // The type of the directory says that it is a path.
        let _ = dir.text();
        span_below(self.paths(), dir, steps)
    }

    /// The place of a path, if it is there. The steps are not counted.
    pub fn place_of(&self, path: &Path) -> Option<usize>
        ensures place { IfSome result (λ place. slice_get self.now place ≡ Some path.now) }
        ensures there { IsSome result ↔ Contains self.now path.now }
    {
        place_of(self.paths(), path)
    }

    // The paths strictly below a directory, with the steps counted in a new ledger.
    fn below_from<L: Ledger>(&self, dir: &Path, blank: Blank) -> &[Path]
        requires name { blank.name ≡ L.name }
        requires parts { blank.parts ≡ L.parts }
        requires some { 0 < L.parts }
        ensures { result.now ≡ filter (λ path. is_below path dir.now) self.entry.now }
    {
        let mut steps: Steps<L> = Steps::new(blank);
        let span = self.below(dir, &mut steps);
        &self.paths()[span.from..span.to]
    }

    /// The paths strictly below a directory. The steps are not counted.
    pub fn paths_below(&self, dir: &Path) -> &[Path]
        ensures { result.now ≡ filter (λ path. is_below path dir.now) self.entry.now }
    {
        self.below_from::<Brand>(dir, Blank::new(1))
    }
}
