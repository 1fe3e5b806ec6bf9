//! Whether lists are in their order.
ghost use Rattle.std.specs.Prelude.{◌≡◌};
ghost use Rattle.prints.specs.Lines.{rises};
ghost use Rattle.prints.specs.ReadWeak.{dir_before, file_before, not_after, outdir_before, path_before};

use crate::weak_lines::FileLine;
use bx_tree::Path;
use pip_model_types::{DirInput, EnvPair, OutDir};

// Whether no variable has a name below that of the one before it.
pub(crate) fn are_variables_sorted(pairs: &[EnvPair]) -> bool
    ensures { result ≡ rises not_after pairs.now }
{
    pairs.is_sorted_by(|a, b| !b.name.bytes().cmp(a.name.bytes()).is_lt())
}

// Whether files rise by path.
pub(crate) fn are_files_rising(files: &[FileLine]) -> bool
    ensures { result ≡ rises file_before files.now }
{
    files.is_sorted_by(|a, b| a.path < b.path)
}

/// Whether directories rise.
pub fn are_dirs_rising(dirs: &[DirInput]) -> bool
    ensures { result ≡ rises dir_before dirs.now }
{
    dirs.is_sorted_by(|a, b| a < b)
}

// Whether paths rise.
pub(crate) fn are_paths_rising(paths: &[Path]) -> bool
    ensures { result ≡ rises path_before paths.now }
{
    paths.is_sorted_by(|a, b| a < b)
}

// Whether output directories rise.
pub(crate) fn are_outdirs_rising(dirs: &[OutDir]) -> bool
    ensures { result ≡ rises outdir_before dirs.now }
{
    dirs.is_sorted_by(|a, b| a < b)
}
