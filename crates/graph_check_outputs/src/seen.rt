//! The paths that were seen so far.
ghost use Rattle.std.specs.Prelude.{◌≡◌, ◌↔◌, ◌⊎◌, Any, Contains, IsTrue, OnOk};
ghost use Rattle.bx_tree.specs.Paths.{Atoms};

use bx_tree::Path;
use bx_tree_paths::PathTable;
use std::alloc::{AllocError, Global};

// Whether a path was seen.
pub(crate) fn is_seen(seen: &PathTable, path: &Path) -> bool
    ensures { IsTrue result ↔ Contains seen.now path.now }
{
    seen.find(path).is_some()
}

// Whether some of these paths was seen.
pub(crate) fn is_any_seen(seen: &PathTable, paths: &[Path]) -> bool
    ensures { IsTrue result ↔ Any (Contains seen.now) paths.now }
{
    paths.iter().any(|path| is_seen(seen, path))
}

// Adds a path.
pub(crate) fn see(alloc: Global, seen: &mut PathTable, path: &Path) -> Result<(), AllocError>
    ensures { OnOk result ((p : Atoms)
        → Contains seen.new p ↔ (Contains seen.old p ⊎ (path.now ≡ p))) }
{
    // So many paths do not fit into memory.
    if seen.len() >= u32::MAX as usize {
        return Err(AllocError);
    }
    seen.add(alloc, path)?;
    Ok(())
}

// Adds some paths.
pub(crate) fn see_all(alloc: Global, seen: &mut PathTable, paths: &[Path]) -> Result<(), AllocError>
    ensures { OnOk result ((p : Atoms)
        → Contains seen.new p ↔ (Contains seen.old p ⊎ Contains paths.now p)) }
{
    'paths: for path in paths {
        see(alloc, seen, path)?;
    }
    Ok(())
}
