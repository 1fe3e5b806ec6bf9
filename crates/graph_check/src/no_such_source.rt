//! The rule that source files are there.
ghost use Rattle.std.specs.Prelude.{◌↔◌, Any, Contains, IsTrue, IfOk};
ghost use Rattle.bx_tree.specs.Trees.{paths_of};
ghost use Rattle.graph_check_outputs.specs.Firsts.{IsFirst};
ghost use Rattle.graph_check.specs.NoSuchSource.{NoSuchSourceAt, named_sources};

use crate::named::add_named_sources;
use bx_tree::{Memory, Path};
use pip_model::{Pip, PipKind, Sources};
use std::alloc::Global;

// Whether some path is not that of a source file.
fn is_any_missing(paths: &[Path], sources: &Sources) -> bool
    ensures { IsTrue result
        ↔ Any (λ path. Contains (paths_of sources.now) path → ⊥) paths.now }
{
    paths.iter().any(|path| sources.find(path).is_none())
}

// Whether a pip names a source file that is not there.
fn has_missing(alloc: Global, kind: &PipKind, sources: &Sources) -> Result<bool, Memory>
    ensures { IfOk result (λ has. IsTrue has
        ↔ Any (λ path. Contains (paths_of sources.now) path → ⊥) (named_sources kind.now)) }
{
    let mut paths = Vec::new(alloc);
    add_named_sources(&mut paths, kind)?;
    Ok(is_any_missing(paths.as_slice(), sources))
}

// The first pip that names a source file that is not there.
pub(crate) fn no_such_source(
    alloc: Global,
    pips: &[Pip],
    sources: &Sources,
) -> Result<Option<usize>, Memory>
    ensures { IfOk result (IsFirst (NoSuchSourceAt pips.now sources.now)) }
{
    'pips: for (number, pip) in pips.iter().enumerate() {
        if has_missing(alloc, &pip.kind, sources)? {
            return Ok(Some(number));
        }
    }
    Ok(None)
}
