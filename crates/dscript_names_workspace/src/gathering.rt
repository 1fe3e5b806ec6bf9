//! Positions of files that are gathered from lists.

ghost use Rattle.std.specs.Prelude.{◌≡◌, ◌↔◌, ◌++◌, ℕ, Contains, IfOk};
ghost use Rattle.std.specs.List.Sorted.{IsStrictlyIncreasing};
ghost use Rattle.dscript_names_workspace.specs.Paths.{AreWithin, in_tree, paths_at};
ghost use Rattle.dscript_names_workspace.specs.ConfigViews.{ArePlaces};

use bx_tree::Tree;
use std::alloc::AllocError;

/// These positions in rising order, each once.
fn rising(mut positions: Vec<usize>) -> Vec<usize>
    ensures rises { IsStrictlyIncreasing result.items }
    ensures same { (position : ℕ) →
        Contains positions.items position ↔ Contains result.items position }
{
    positions.sort_unstable();
    positions.dedup();
    positions
}

/// The positions of these files in the order of the tree, each once.
pub(crate) fn in_order(tree: &Tree, positions: Vec<usize>) -> Vec<usize>
    requires { AreWithin tree.now positions.items }
    ensures places { ArePlaces tree.now (paths_at tree.now positions.items) result.items }
    ensures order { paths_at tree.now result.items ≡ in_tree tree.now (paths_at tree.now positions.items) }
{
    let _ = tree.files();
    rising(positions)
}

/// These positions and more. Each may be there several times, but all together are not many times as many as
/// there are files.
pub(crate) fn gathered(
    tree: &Tree,
    mut positions: Vec<usize>,
    more: &[usize],
) -> Result<Vec<usize>, AllocError>
    requires positions { AreWithin tree.now positions.items }
    requires more { AreWithin tree.now more.now }
    ensures { IfOk result (λ all. ArePlaces tree.now
        (paths_at tree.now positions.items ++ paths_at tree.now more.now) all.items) }
{
    positions.extend_from_slice(more)?;
    if positions.len() / 2 > tree.files().len() {
        Ok(in_order(tree, positions))
    } else {
        Ok(positions)
    }
}
