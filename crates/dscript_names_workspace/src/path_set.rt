//! Sets of paths.

ghost use Rattle.std.specs.Prelude.{◌≡◌, ◌||◌, IfOk, OnOk};
ghost use Rattle.bx_tree.specs.Paths.{Atoms, has_path};
ghost use Rattle.dscript_names_workspace.specs.PathSets.{has};

use bx_tree::Path;
use std::alloc::{AllocError, Global};
use std::collections::BTreeSet;

/// Adds paths to a set.
pub(crate) fn add_paths(set: &mut BTreeSet<Path>, paths: &[Path]) -> Result<(), AllocError>
    ensures { OnOk result ((path : Atoms) →
        has set.new path ≡ (has set.old path || has_path paths.now path)) }
{
    'paths: for path in paths {
        set.insert(path.share()?)?;
    }
    Ok(())
}

/// The set of these paths.
pub(crate) fn set_of(alloc: Global, paths: &[Path]) -> Result<BTreeSet<Path>, AllocError>
    ensures { IfOk result (λ set. (path : Atoms) → has set path ≡ has_path paths.now path) }
{
    let mut set = BTreeSet::new(alloc);
    add_paths(&mut set, paths)?;
    Ok(set)
}
