//! What a pip can produce.
ghost use Rattle.std.specs.Prelude.{◌≡◌, ◌↔◌, Some, Any, IsTrue};
ghost use Rattle.bx_tree.specs.Paths.{IsBelow};
ghost use Rattle.pip_model.specs.Edges.{Produces};

use bx_tree::Path;
use pip_model_types::{OutDir, PipKind};

fn is_console(console: &Option<Path>, path: &Path) -> bool
    ensures { IsTrue result ↔ (console.now ≡ Some path.now) }
{
    match console {
        Some(console) => console.is_same(path),
        None => false,
    }
}

fn is_below_any(dirs: &[OutDir], path: &Path) -> bool
    ensures { IsTrue result ↔ Any (λ dir. IsBelow path.now dir.path) dirs.now }
{
    dirs.iter().any(|dir| path.is_below(&dir.path))
}

// Whether a pip of this kind can produce a file at a path.
pub(crate) fn produces(kind: &PipKind, path: &Path) -> bool
    ensures { IsTrue result ↔ Produces path.now kind.now }
{
    match kind {
        PipKind::Process(process) => {
            process.outs.has(path)
                || is_console(&process.console, path)
                || is_below_any(process.outdirs.dirs(), path)
        }
        PipKind::Copy(copy) => copy.to.is_same(path),
        PipKind::Write(write) => write.to.is_same(path),
        PipKind::Seal(_) => false,
    }
}
