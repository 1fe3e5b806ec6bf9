//! The rule that outputs lie below `out`.
ghost use Rattle.std.specs.Prelude.{◌≡◌, ◌↔◌, Any, IsTrue, IfOk};
ghost use Rattle.bx_tree.specs.Paths.{IsBelow};
ghost use Rattle.graph_check_outputs.specs.Firsts.{IsFirst};
ghost use Rattle.graph_check_outputs.specs.Outputs.{outputs};
ghost use Rattle.graph_check_outputs.specs.OutsideOut.{OutsideOutAt, out_dir};

use crate::declared::add_outputs;
use bx_tree::{Memory, Path, PathFault};
use pip_model_types::{Pip, PipKind};
use std::alloc::{AllocError, Global};

// The directory that outputs lie strictly below.
fn out_path(alloc: Global) -> Result<Path, Memory>
    ensures { IfOk result (λ path. path ≡ out_dir) }
{
    match Path::read(alloc, b"out") {
        Ok(path) => Ok(path),
        Err(PathFault::BadPath) => unreachable!(),
        Err(PathFault::Memory) => Err(AllocError),
    }
}

// Whether some path does not lie strictly below a directory.
fn is_any_outside(paths: &[Path], dir: &Path) -> bool
    ensures { IsTrue result ↔ Any (λ path. IsBelow path dir.now → ⊥) paths.now }
{
    paths.iter().any(|path| !path.is_below(dir))
}

// Whether some output of a pip does not lie strictly below a directory.
fn has_outside(alloc: Global, kind: &PipKind, dir: &Path) -> Result<bool, Memory>
    ensures { IfOk result
        (λ has. IsTrue has ↔ Any (λ path. IsBelow path dir.now → ⊥) (outputs kind.now)) }
{
    let mut paths = Vec::new(alloc);
    add_outputs(&mut paths, kind)?;
    Ok(is_any_outside(paths.as_slice(), dir))
}

/// The first pip with an output that does not lie strictly below `out`.
pub fn first_outside(alloc: Global, pips: &[Pip]) -> Result<Option<usize>, Memory>
    ensures { IfOk result (IsFirst (OutsideOutAt pips.now)) }
{
    let out = out_path(alloc)?;
    'pips: for (number, pip) in pips.iter().enumerate() {
        if has_outside(alloc, &pip.kind, &out)? {
            return Ok(Some(number));
        }
    }
    Ok(None)
}
