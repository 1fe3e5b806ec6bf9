//! Which module has a file.

ghost use Rattle.std.specs.Prelude.{◌≡◌, ℕ, IfOk, OnOk, if◌then◌else◌, Some};
ghost use Rattle.std.specs.List.{list_any};
ghost use Rattle.bx_tree.specs.Paths.{Atoms, same_path};
ghost use Rattle.dscript_program.specs.Workspaces.{modules_of};
ghost use Rattle.dscript_names_scopes.specs.Declarations.{module_of};
ghost use Rattle.dscript_names.specs.Owners.{HasOwners, owner_at, owner_in};

use bx_tree::{Memory, Path};
use dscript_program::{ModuleText, Workspace};
use std::alloc::Global;
use std::collections::BTreeMap;

/// The numbers of the modules that have files, by the paths of the files.
#[derive(Drop)]
pub(crate) struct Owners {
    pub(crate) numbers: BTreeMap<Path, usize>,
    /// How many modules there are.
    pub(crate) modules: usize,
}

impl Owners {
    /// The number of the module that has the file, or how many modules there are.
    pub(crate) fn number(&self, path: &Path) -> usize
        ensures { result ≡ owner_in self.now path.now }
    {
        match self.numbers.get(path) {
            Some(number) => *number,
            None => self.modules,
        }
    }
}

/// Says of these files that the module of this number has them.
fn add_files(
    numbers: &mut BTreeMap<Path, usize>,
    files: &[Path],
    number: usize,
) -> Result<(), Memory>
    ensures { OnOk result ((q : Atoms) → owner_at numbers.new q
        ≡ (if list_any (same_path q) files.now then Some number else owner_at numbers.old q)) }
{
    'files: for file in files {
        numbers.insert(file.share()?, number)?;
    }
    Ok(())
}

/// Which module has a file, for all files of a workspace. Of two modules with one file the first counts, as
/// it is put in last.
pub(crate) fn owners_of(alloc: Global, modules: &[ModuleText]) -> Result<Owners, Memory>
    ensures { IfOk result (λ owners. HasOwners modules.now owners) }
{
    let mut numbers = BTreeMap::new(alloc);
    let mut left = modules;
    'last: while let Some((module, before)) = left.split_last() {
        add_files(&mut numbers, module.files.as_slice(), before.len())?;
        left = before;
    }
    Ok(Owners {
        numbers,
        modules: modules.len(),
    })
}
