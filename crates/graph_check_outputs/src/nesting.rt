//! Which paths of lists lie below others.
ghost use Rattle.std.specs.Prelude.{◌↔◌, Any, IsTrue};
ghost use Rattle.bx_tree.specs.Paths.{IsBelow};
ghost use Rattle.bx_tree.specs.Below.{IsAtOrBelow};
ghost use Rattle.graph_check_outputs.specs.Gathered.{IsInOrder};

use bx_tree::Path;
use bx_tree_paths::{items_below, place_of};

// Whether some of these paths lies strictly below a directory.
fn any_below(paths: &[Path], dir: &Path) -> bool
    ensures { IsTrue result ↔ Any (λ path. IsBelow path dir.now) paths.now }
{
    paths.iter().any(|path| path.is_below(dir))
}

// The same of paths in order, of which only those in the directory's range are tried.
fn has_below(paths: &[Path], dir: &Path) -> bool
    requires { IsInOrder paths.now }
    ensures { IsTrue result ↔ Any (λ path. IsBelow path dir.now) paths.now }
{
    any_below(items_below(paths, dir), dir)
}

// Whether some of these paths is this directory or lies below it.
fn has_within(paths: &[Path], dir: &Path) -> bool
    requires { IsInOrder paths.now }
    ensures { IsTrue result ↔ Any (λ path. IsAtOrBelow path dir.now) paths.now }
{
    if place_of(paths, dir).is_some() {
        return true;
    }
    has_below(paths, dir)
}

// Whether some of these paths is one of these directories or lies below it.
pub(crate) fn any_within(paths: &[Path], dirs: &[Path]) -> bool
    requires { IsInOrder paths.now }
    ensures { IsTrue result
        ↔ Any (λ dir. Any (λ path. IsAtOrBelow path dir) paths.now) dirs.now }
{
    dirs.iter().any(|dir| has_within(paths, dir))
}

// Whether some of these paths lies strictly below another.
pub(crate) fn any_nested(paths: &[Path]) -> bool
    requires { IsInOrder paths.now }
    ensures { IsTrue result
        ↔ Any (λ dir. Any (λ path. IsBelow path dir) paths.now) paths.now }
{
    paths.iter().any(|dir| has_below(paths, dir))
}
