//! The directories that a process takes.
ghost use Rattle.std.specs.Prelude.{◌≡◌, IfOk};
ghost use Rattle.std.specs.Ordering.{as_partial_cmp};
ghost use Rattle.std.proofs.Common.{rules};
ghost use Rattle.bx_tree.specs.Sets.{IsSetOf};
ghost use Rattle.pip_model_types.specs.Dirs.{RiseByForm, dir_cmp, dir_path, dir_pip, form_rank, same_dir};
ghost use Rattle.pip_model_types.specs.Dirs.{seal_rank};
ghost use Rattle.pip_model_types.specs.Orders.{dir_cmp_matches, dir_cmp_partial, dir_cmp_total, same_dir_equiv};
ghost use Rattle.pip_model_types.specs.Orders.{same_dir_partial};

use crate::sets::in_order;
use bx_tree::Path;
use bx_tree_paths::HasPath;
use std::alloc::AllocError;
use std::cmp::Ordering;
use std::marker::Model;

/// What a sealed directory holds: just the listed files of a whole directory, some listed files, the source
/// files directly in its root, or all source files below it.
#[derive(Clone, Copy, Debug, PartialEq, Eq)]
pub enum SealForm {
    Full,
    Partial,
    SourceTop,
    SourceAll,
}

/// A directory that a process takes: that of a seal, by the seal's pip, form and root, or an output
/// directory of the process with this number.
#[derive(Drop)]
pub enum DirInput {
    Sealed(u32, SealForm, Path),
    Opaque(u32, Path),
}

impl HasPath for DirInput {
    ghost path_in = { dir_path };

    fn path(&self) -> &Path {
        self.path()
    }
}

/// Directories, sorted by path, then in the order full, partial, top, all, opaque, and then by pip, each
/// once. Contracts see them as a list.
#[derive(Drop)]
pub struct DirInputs {
    dirs: Vec<DirInput>,
}

impl Model for DirInputs {
    ghost use Rattle.std.specs.Prelude.{List};
    ghost use Rattle.pip_model_types.specs.declared.dir_inputs.DirInput.{DirInput};
    ghost use Rattle.pip_model_types.specs.Dirs.{RiseByForm};

    ghost Value = { List DirInput };

    ghost view = { λ d. d.dirs.items };

    ghost invariant = { λ d. RiseByForm d.dirs.items };
}

fn rank_of_form(form: SealForm) -> u8
    ensures { result ≡ seal_rank form }
{
    match form {
        SealForm::Full => 0,
        SealForm::Partial => 1,
        SealForm::SourceTop => 2,
        SealForm::SourceAll => 3,
    }
}

impl DirInput {
    /// The path of the directory.
    pub fn path(&self) -> &Path
        ensures { result.now ≡ dir_path self.now }
    {
        match self {
            DirInput::Sealed(_, _, root) => root,
            DirInput::Opaque(_, path) => path,
        }
    }

    /// The pip whose directory this is.
    pub fn pip(&self) -> u32
        ensures { result ≡ dir_pip self.now }
    {
        match self {
            DirInput::Sealed(pip, _, _) | DirInput::Opaque(pip, _) => *pip,
        }
    }

    /// The place of its form, from 0: full, partial, top, all, opaque.
    pub fn rank(&self) -> u8
        ensures { result ≡ form_rank self.now }
    {
        match self {
            DirInput::Sealed(_, form, _) => rank_of_form(*form),
            DirInput::Opaque(_, _) => 4,
        }
    }

    /// The directory, with its path shared.
    pub fn share(&self) -> Result<DirInput, AllocError>
        ensures { IfOk result (λ shared. shared ≡ self.now) }
    {
        match self {
            DirInput::Sealed(pip, form, root) => Ok(DirInput::Sealed(*pip, *form, root.share()?)),
            DirInput::Opaque(pip, path) => Ok(DirInput::Opaque(*pip, path.share()?)),
        }
    }
}

impl PartialEq for DirInput {
    ghost eq = { same_dir };

    ghost laws = { same_dir_partial };

    fn eq(&self, other: &DirInput) -> bool {
        self.path() == other.path() && self.rank() == other.rank() && self.pip() == other.pip()
    }
}

impl Eq for DirInput {
    ghost laws = { same_dir_equiv };
}

impl Ord for DirInput {
    ghost cmp = { dir_cmp };

    ghost total = { dir_cmp_total };

    ghost matches_partial_cmp = { Prim.search rules };

    ghost matches_eq = { dir_cmp_matches };

    fn cmp(&self, other: &DirInput) -> Ordering {
        self.path()
            .cmp(other.path())
            .then(self.rank().cmp(&other.rank()))
            .then(self.pip().cmp(&other.pip()))
    }
}

impl PartialOrd for DirInput {
    ghost partial_cmp = { as_partial_cmp dir_cmp };

    ghost laws = { dir_cmp_partial };

    fn partial_cmp(&self, other: &DirInput) -> Option<Ordering> {
        Some(self.cmp(other))
    }
}

impl DirInputs {
    /// These directories, each once.
    pub fn of(dirs: Vec<DirInput>) -> DirInputs
        ensures { IsSetOf dir_cmp dirs.items result }
    {
        DirInputs {
            dirs: in_order(dirs),
        }
    }

    /// The directories, in order.
    pub fn dirs(&self) -> &[DirInput]
        ensures dirs { result.now ≡ self.now }
        ensures rising { RiseByForm self.now }
    {
        self.dirs.as_slice()
    }
}
