//! The first pip with an output directory of an earlier pip that not both share.
ghost use Rattle.std.specs.Prelude.{◌↔◌, ◌⊎◌, Any, Contains, IsTrue, IfOk};
ghost use Rattle.graph_check_outputs.specs.Sharing.{TellsUnshared};

use crate::declared::{dirs_of, lone_dirs_of};
use crate::seen::{is_any_seen, see_all};
use bx_tree::{Memory, Path};
use bx_tree_paths::PathTable;
use pip_model_types::Pip;
use std::alloc::Global;

// The output directories of the pips so far.
#[derive(Drop)]
struct SeenDirs {
    all: PathTable,
    lone: PathTable,
}

// Whether a pip has a directory of an earlier pip, and not both share it.
fn is_clash(seen: &SeenDirs, dirs: &[Path], lone: &[Path]) -> bool
    ensures { IsTrue result ↔ (Any (Contains seen.now.all) lone.now
        ⊎ Any (Contains seen.now.lone) dirs.now) }
{
    is_any_seen(&seen.all, lone) || is_any_seen(&seen.lone, dirs)
}

// The first pip that has a directory of an earlier pip without both sharing it, or else the number of pips.
pub(crate) fn first_unshared(alloc: Global, pips: &[Pip]) -> Result<usize, Memory>
    ensures { IfOk result (TellsUnshared pips.now) }
{
    let mut seen = SeenDirs {
        all: PathTable::new(alloc)?,
        lone: PathTable::new(alloc)?,
    };
    'pips: for (number, pip) in pips.iter().enumerate() {
        let dirs = dirs_of(alloc, &pip.kind)?;
        let lone = lone_dirs_of(alloc, &pip.kind)?;
        if is_clash(&seen, dirs.as_slice(), lone.as_slice()) {
            return Ok(number);
        }
        see_all(alloc, &mut seen.all, dirs.as_slice())?;
        see_all(alloc, &mut seen.lone, lone.as_slice())?;
    }
    Ok(pips.len())
}
