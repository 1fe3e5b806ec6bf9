//! What a process declares to make.
ghost use Rattle.std.specs.Prelude.{◌≡◌, ◌↔◌, IsTrue, IfOk, Contains};
ghost use Rattle.std.specs.List.{list_any};
ghost use Rattle.std.specs.List.Sorted.{IsStrictlySortedBy};
ghost use Rattle.std.specs.Ordering.{as_partial_cmp};
ghost use Rattle.std.proofs.Common.{rules};
ghost use Rattle.bx_tree.specs.Below.{is_below};
ghost use Rattle.bx_tree.specs.Paths.{has_path, path_cmp};
ghost use Rattle.bx_tree.specs.Sets.{IsSetOf};
ghost use Rattle.pip_model_types.specs.Outputs.{is_console, outdir_cmp, same_outdir};
ghost use Rattle.pip_model_types.specs.Orders.{outdir_cmp_matches, outdir_cmp_partial, outdir_cmp_total};
ghost use Rattle.pip_model_types.specs.Orders.{same_outdir_equiv, same_outdir_partial};

use crate::sets::in_order;
use bx_tree::Path;
use bx_tree_paths::place_of;
use std::alloc::AllocError;
use std::cmp::Ordering;
use std::marker::Model;

/// The declared output files of a process, sorted, each once. Contracts see them as a list of paths.
#[derive(Drop)]
pub struct Outputs {
    paths: Vec<Path>,
}

impl Model for Outputs {
    ghost use Rattle.std.specs.Prelude.{List, ℕ};
    ghost use Rattle.std.specs.List.Sorted.{IsStrictlySortedBy};
    ghost use Rattle.bx_tree.specs.Paths.{path_cmp};

    ghost Value = { List (List (List ℕ)) };

    ghost view = { λ o. o.paths.items };

    ghost invariant = { λ o. IsStrictlySortedBy path_cmp o.paths.items };
}

impl Outputs {
    /// These files, each once.
    pub fn of(paths: Vec<Path>) -> Outputs
        ensures { IsSetOf path_cmp paths.items result }
    {
        Outputs {
            paths: in_order(paths),
        }
    }

    /// The paths, in order.
    pub fn paths(&self) -> &[Path]
        ensures paths { result.now ≡ self.now }
        ensures rising { IsStrictlySortedBy path_cmp self.now }
    {
        self.paths.as_slice()
    }

    /// Whether a path is one of these.
    pub fn has(&self, path: &Path) -> bool
        ensures member { IsTrue result ↔ Contains self.now path.now }
        ensures value { result ≡ has_path self.now path.now }
    {
        place_of(self.paths(), path).is_some()
    }
}

/// Whether a path is that of the file of a console, if there is one.
pub fn is_console(console: &Option<Path>, path: &Path) -> bool
    ensures { result ≡ is_console console.now path.now }
{
    match console {
        Some(file) => *file == *path,
        None => false,
    }
}

/// An output directory: one that the process alone writes, or one that it shares with others.
#[derive(Drop)]
pub struct OutDir {
    pub path: Path,
    pub shared: bool,
}

impl OutDir {
    /// The directory, with its path shared.
    pub fn share(&self) -> Result<OutDir, AllocError>
        ensures { IfOk result (λ shared. shared ≡ self.now) }
    {
        Ok(OutDir {
            path: self.path.share()?,
            shared: self.shared,
        })
    }
}

impl PartialEq for OutDir {
    ghost eq = { same_outdir };

    ghost laws = { same_outdir_partial };

    fn eq(&self, other: &OutDir) -> bool {
        self.path == other.path && self.shared == other.shared
    }
}

impl Eq for OutDir {
    ghost laws = { same_outdir_equiv };
}

impl Ord for OutDir {
    ghost cmp = { outdir_cmp };

    ghost total = { outdir_cmp_total };

    ghost matches_partial_cmp = { Prim.search rules };

    ghost matches_eq = { outdir_cmp_matches };

    fn cmp(&self, other: &OutDir) -> Ordering {
        self.path
            .cmp(&other.path)
            .then((self.shared as u8).cmp(&(other.shared as u8)))
    }
}

impl PartialOrd for OutDir {
    ghost partial_cmp = { as_partial_cmp outdir_cmp };

    ghost laws = { outdir_cmp_partial };

    fn partial_cmp(&self, other: &OutDir) -> Option<Ordering> {
        Some(self.cmp(other))
    }
}

/// The output directories of a process, sorted by path, each once. Contracts see them as a list.
#[derive(Drop)]
pub struct OutDirs {
    dirs: Vec<OutDir>,
}

impl Model for OutDirs {
    ghost use Rattle.std.specs.Prelude.{List};
    ghost use Rattle.std.specs.List.Sorted.{IsStrictlySortedBy};
    ghost use Rattle.pip_model_types.specs.declared.outputs.OutDir.{OutDir};
    ghost use Rattle.pip_model_types.specs.Outputs.{outdir_cmp};

    ghost Value = { List OutDir };

    ghost view = { λ d. d.dirs.items };

    ghost invariant = { λ d. IsStrictlySortedBy outdir_cmp d.dirs.items };
}

// Whether a path lies strictly below one of these directories.
fn is_below_any(dirs: &[OutDir], path: &Path) -> bool
    ensures { result ≡ list_any (λ dir. is_below path.now dir.path) dirs.now }
{
    dirs.iter().any(|dir| path.is_below(&dir.path))
}

impl OutDirs {
    /// These directories, each once.
    pub fn of(dirs: Vec<OutDir>) -> OutDirs
        ensures { IsSetOf outdir_cmp dirs.items result }
    {
        OutDirs {
            dirs: in_order(dirs),
        }
    }

    /// Whether a path lies strictly below one of these directories.
    pub fn any_above(&self, path: &Path) -> bool
        ensures { result ≡ list_any (λ dir. is_below path.now dir.path) self.now }
    {
        is_below_any(self.dirs(), path)
    }

    /// The directories, in order.
    pub fn dirs(&self) -> &[OutDir]
        ensures dirs { result.now ≡ self.now }
        ensures rising { IsStrictlySortedBy outdir_cmp self.now }
    {
        self.dirs.as_slice()
    }
}
