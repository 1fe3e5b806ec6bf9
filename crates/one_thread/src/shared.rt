//! The files that processes made in directories which they share.
ghost use Rattle.std.specs.Prelude.{◌≡◌, ◌++◌, ◌∷◌, [], List, IfOk, OnOk, slice_get};
ghost use Rattle.std.specs.BTreeSet.{contains};
ghost use Rattle.std.specs.List.{list_any};
ghost use Rattle.bx_tree.specs.Paths.{Atoms, path_cmp};
ghost use Rattle.bx_tree.specs.Below.{is_below};
ghost use Rattle.violations.specs.Slots.{slot_files};
ghost use Rattle.pip_model_types.specs.Made.{made_files};
ghost use Rattle.violations.specs.DoubleWrites.{outdirs_in, shared_paths};
ghost use Rattle.one_thread.specs.Shared.{KeepsShared, any_clash};

use bx_path::{add_directories, directories};
use bx_tree::{Memory, Path};
use pip_model::{Made, MadeFile, OutDir, Plan, Slot};
use std::alloc::Global;
use std::collections::BTreeSet;
use violations::{is_shared, outdirs_at};

// Whether one of these paths is in a set.
fn has_any(files: &BTreeSet<Path>, paths: &[Path]) -> bool
    ensures { result ≡ list_any (λ path. contains path_cmp files.now path) paths.now }
{
    paths.iter().any(|path| files.contains(path))
}

// The files that a pip made, none if it did not succeed.
fn made_in(slot: &Slot) -> &[MadeFile]
    ensures { made_files result.now ≡ slot_files slot.entry.now }
{
    match slot {
        Slot::Good(made) => made.files(),
        Slot::Empty | Slot::Bad => &[],
    }
}

/// An index of the files that the pips so far made in directories which they share: their paths, and the directories in
/// which these lie. `KeepsShared` says which files those are.
#[derive(Drop)]
pub struct SharedFiles {
    pub files: BTreeSet<Path>,
    pub dirs: BTreeSet<Path>,
}

impl SharedFiles {
    /// No files.
    pub fn new(alloc: Global) -> SharedFiles
        ensures { KeepsShared result.files result.dirs [] }
    {
        let files = BTreeSet::new(alloc);
        let dirs = BTreeSet::new(alloc);
        SharedFiles { files, dirs }
    }

    // Adds a file.
    fn add(&mut self, alloc: Global, path: &Path) -> Result<(), Memory>
        ensures { OnOk result ((paths : List Atoms) → KeepsShared self.old.files self.old.dirs paths
            → KeepsShared self.new.files self.new.dirs (paths ++ path.now ∷ [])) }
    {
        add_directories(alloc, &mut self.dirs, path)?;
        let shared = path.share()?;
        self.files.insert(shared)?;
        Ok(())
    }

    // Adds a file, if it lies in a directory that is shared.
    fn add_if_shared(
        &mut self,
        alloc: Global,
        dirs: &[OutDir],
        file: &MadeFile,
    ) -> Result<(), Memory>
        ensures { OnOk result ((paths : List Atoms) → KeepsShared self.old.files self.old.dirs paths
            → KeepsShared self.new.files self.new.dirs
            (paths ++ shared_paths dirs.now (made_files (file.now ∷ [])))) }
    {
        if is_shared(dirs, &file.path) {
            return self.add(alloc, &file.path);
        }
        Ok(())
    }

    // Adds those of the files that lie in directories which are shared.
    fn add_files(
        &mut self,
        alloc: Global,
        dirs: &[OutDir],
        files: &[MadeFile],
    ) -> Result<(), Memory>
        ensures { OnOk result ((paths : List Atoms) → KeepsShared self.old.files self.old.dirs paths
            → KeepsShared self.new.files self.new.dirs (paths ++ shared_paths dirs.now (made_files files.now))) }
    {
        'files: for file in files {
            self.add_if_shared(alloc, dirs, file)?;
        }
        Ok(())
    }

    /// Adds what a pip made in directories which it shares, if it succeeded.
    pub fn add_slot(
        &mut self,
        alloc: Global,
        plan: &Plan,
        pip: u32,
        slot: &Slot,
    ) -> Result<(), Memory>
        ensures { OnOk result ((paths : List Atoms) → KeepsShared self.old.files self.old.dirs paths
            → KeepsShared self.new.files self.new.dirs
            (paths ++ shared_paths (outdirs_in (slice_get plan.now.pips pip)) (slot_files slot.now))) }
    {
        let dirs = outdirs_at(plan.pips(), pip);
        self.add_files(alloc, dirs, made_in(slot))
    }

    // Whether a path lies strictly below a file.
    fn has_above(&self, alloc: Global, path: &Path) -> Result<bool, Memory>
        ensures { IfOk result (λ yes. (paths : List Atoms) → KeepsShared self.now.files self.now.dirs paths
            → yes ≡ list_any (λ p. is_below path.now p) paths) }
    {
        let above = directories(alloc, path)?;
        Ok(has_any(&self.files, above.as_slice()))
    }

    // Whether a path clashes with a file.
    fn clashes(&self, alloc: Global, path: &Path) -> Result<bool, Memory>
        ensures { IfOk result (λ yes. (paths : List Atoms) → KeepsShared self.now.files self.now.dirs paths
            → yes ≡ any_clash paths path.now) }
    {
        if self.files.contains(path) {
            return Ok(true);
        }
        if self.dirs.contains(path) {
            return Ok(true);
        }
        self.has_above(alloc, path)
    }

    // Whether a file, if it lies in a directory that is shared, clashes with another.
    fn file_clashes(&self, alloc: Global, dirs: &[OutDir], file: &MadeFile) -> Result<bool, Memory>
        ensures { IfOk result (λ yes. (paths : List Atoms) → KeepsShared self.now.files self.now.dirs paths
            → yes ≡ list_any (any_clash paths) (shared_paths dirs.now (made_files (file.now ∷ [])))) }
    {
        if !is_shared(dirs, &file.path) {
            return Ok(false);
        }
        self.clashes(alloc, &file.path)
    }

    // Whether one of the files that lie in directories which are shared clashes with another.
    fn any_clashes(
        &self,
        alloc: Global,
        dirs: &[OutDir],
        files: &[MadeFile],
    ) -> Result<bool, Memory>
        ensures { IfOk result (λ yes. (paths : List Atoms) → KeepsShared self.now.files self.now.dirs paths
            → yes ≡ list_any (any_clash paths) (shared_paths dirs.now (made_files files.now))) }
    {
        'files: for file in files {
            let clashes = self.file_clashes(alloc, dirs, file)?;
            if clashes {
                return Ok(true);
            }
        }
        Ok(false)
    }

    /// Whether one of the files that a pip made in directories which it shares clashes with a file.
    pub(crate) fn has_clash(
        &self,
        alloc: Global,
        plan: &Plan,
        pip: u32,
        made: &Made,
    ) -> Result<bool, Memory>
        ensures { IfOk result (λ yes. (paths : List Atoms) → KeepsShared self.now.files self.now.dirs paths
            → yes ≡ list_any (any_clash paths)
            (shared_paths (outdirs_in (slice_get plan.now.pips pip)) made.now)) }
    {
        let dirs = outdirs_at(plan.pips(), pip);
        self.any_clashes(alloc, dirs, made.files())
    }
}
