//! What module files come to, and the first fault among them.

ghost use Rattle.std.specs.Prelude.{◌≡◌, ◌||◌, ◌∷◌, ◌++◌, [], IfOk, OnOk, option_map};
ghost use Rattle.std.specs.List.{list_any, filter_map};
ghost use Rattle.bx_tree.specs.Paths.{Atoms, has_path};
ghost use Rattle.dscript_program.specs.SpecFaults.{fault_data};
ghost use Rattle.dscript_program.specs.Workspaces.{modules_data};
ghost use Rattle.dscript_names_workspace.specs.ModuleFiles.{file_data, files_data};
ghost use Rattle.dscript_names_workspace.specs.PathSets.{has};
ghost use Rattle.dscript_names_workspace.specs.Workspaces.{file_fault as first_file_fault, module_file_fault as fault_among};
ghost use Rattle.dscript_names_workspace.specs.Workspaces.{fault_in as fault_of_kind, has_file, implies_file};
ghost use Rattle.dscript_names_workspace.specs.Workspaces.{module_in};
ghost use Rattle.dscript_names_workspace.specs.Workspaces.{repeated_module_name as first_name_fault};

use crate::path_set::add_paths;
use bx_tree::Path;
use dscript_program::{Fault, ModuleText, SpecKind};
use std::alloc::{AllocError, Global};
use std::collections::BTreeSet;

/// What a module file comes to.
#[derive(Drop)]
pub(crate) enum ModuleFile {
    /// A module, and whether it lists its files itself.
    Described(ModuleText, bool),
    /// A fault of its own.
    Faulty(Fault),
}

/// Whether one of these files is taken.
fn any_taken(taken: &BTreeSet<Path>, files: &[Path]) -> bool
    ensures { result ≡ list_any (has taken.now) files.now }
{
    'files: for file in files {
        if taken.contains(file) {
            return true;
        }
    }
    false
}

/// A fault of this kind, which has no place.
pub(crate) fn fault_in(kind: SpecKind, file: &Path) -> Result<Fault, AllocError>
    ensures { IfOk result (λ fault. fault_data fault ≡ fault_of_kind kind file.now) }
{
    Ok(Fault {
        kind,
        file: file.share()?,
        place: None,
    })
}

/// The fault of a module file, where these files are taken.
fn fault_of(taken: &BTreeSet<Path>, module_file: &ModuleFile) -> Result<Option<Fault>, AllocError>
    ensures { IfOk result (λ found.
        option_map fault_data found ≡ fault_among (has taken.now) (file_data module_file.now)) }
{
    match module_file {
        ModuleFile::Faulty(fault) => Ok(Some(Fault {
            kind: fault.kind,
            file: fault.file.share()?,
            place: fault.place,
        })),
        ModuleFile::Described(module, true) if any_taken(taken, module.files.as_slice()) => {
            Ok(Some(fault_in(SpecKind::ModuleConfig, &module.config)?))
        }
        ModuleFile::Described(_, _) => Ok(None),
    }
}

/// Takes the files of a module.
fn take_files(taken: &mut BTreeSet<Path>, module_file: &ModuleFile) -> Result<(), AllocError>
    ensures { OnOk result ((path : Atoms) →
        has taken.new path ≡ (has taken.old path || has_file path (file_data module_file.now))) }
{
    match module_file {
        ModuleFile::Described(module, _) => add_paths(taken, module.files.as_slice()),
        ModuleFile::Faulty(_) => Ok(()),
    }
}

/// Takes the files of a module that lists none itself.
fn take_implied(taken: &mut BTreeSet<Path>, module_file: &ModuleFile) -> Result<(), AllocError>
    ensures { OnOk result ((path : Atoms) →
        has taken.new path ≡ (has taken.old path || implies_file path (file_data module_file.now))) }
{
    match module_file {
        ModuleFile::Described(module, false) => add_paths(taken, module.files.as_slice()),
        ModuleFile::Described(_, true) | ModuleFile::Faulty(_) => Ok(()),
    }
}

/// The files of all modules that list none themselves.
fn implied_by(alloc: Global, all: &[ModuleFile]) -> Result<BTreeSet<Path>, AllocError>
    ensures { IfOk result (λ taken. (path : Atoms) →
        has taken path ≡ list_any (implies_file path) (files_data all.now)) }
{
    let mut taken = BTreeSet::new(alloc);
    'files: for module_file in all {
        take_implied(&mut taken, module_file)?;
    }
    Ok(taken)
}

/// The first fault of module files.
pub(crate) fn file_fault(alloc: Global, all: &[ModuleFile]) -> Result<Option<Fault>, AllocError>
    ensures { IfOk result (λ found. option_map fault_data found
        ≡ first_file_fault (files_data all.now) [] (files_data all.now)) }
{
    let mut taken = implied_by(alloc, all)?;
    'files: for module_file in all {
        if let Some(fault) = fault_of(&taken, module_file)? {
            return Ok(Some(fault));
        }
        take_files(&mut taken, module_file)?;
    }
    Ok(None)
}

/// The first fault of the names of modules.
pub(crate) fn name_fault(alloc: Global, modules: &[ModuleText]) -> Result<Option<Fault>, AllocError>
    ensures { IfOk result (λ found. option_map fault_data found
        ≡ first_name_fault [] (modules_data modules.now)) }
{
    let mut used = BTreeSet::new(alloc);
    used.insert(b"Sdk.Transformers".as_slice())?;
    'modules: for module in modules {
        if !used.insert(module.name.bytes())? {
            let fault = fault_in(SpecKind::DuplicateModule, &module.config)?;
            return Ok(Some(fault));
        }
    }
    Ok(None)
}

/// Appends the module of a file that has no fault of its own.
fn push_module(modules: &mut Vec<ModuleText>, module_file: ModuleFile) -> Result<(), AllocError>
    ensures { OnOk result (modules_data modules.new.items
        ≡ modules_data modules.old.items ++ filter_map module_in (file_data module_file ∷ [])) }
{
    match module_file {
        ModuleFile::Described(module, _) => {
            modules.push(module)?;
            Ok(())
        }
        ModuleFile::Faulty(_) => Ok(()),
    }
}

/// The modules that have no fault of their own, in order.
pub(crate) fn modules_in(
    alloc: Global,
    module_files: Vec<ModuleFile>,
) -> Result<Vec<ModuleText>, AllocError>
    ensures { IfOk result (λ found. modules_data found.items
        ≡ filter_map module_in (files_data module_files.items)) }
{
    let mut found = Vec::new(alloc);
    'files: for module_file in module_files {
        push_module(&mut found, module_file)?;
    }
    Ok(found)
}
