//! Reads module files.

ghost use Rattle.std.specs.Prelude.{◌≡◌, ◌≤◌, All, Contains, IfOk, length, map};
ghost use Rattle.std.specs.List.{AllZip};
ghost use Rattle.std.specs.Option.{option_map_or};
ghost use Rattle.bx_tree.specs.Bundle.{IsInSize};
ghost use Rattle.bx_tree.specs.Trees.{paths_of};
ghost use Rattle.dscript_ast.specs.Views.{expr_tree, file_tree};
ghost use Rattle.dscript_names_workspace.specs.Modules.{described as description_of};
ghost use Rattle.dscript_names_workspace.specs.Paths.{AreWithin, paths_at as paths_of_positions};
ghost use Rattle.dscript_names_workspace.specs.ConfigViews.{AreProjectsWithin, description_data, project_paths};
ghost use Rattle.dscript_parse.specs.Reading.{Read};
ghost use Rattle.dscript_names_workspace.specs.Finding.{IsModuleFile, IsRead, IsReadAt, fault_at as fault_at_place};
ghost use Rattle.dscript_names_workspace.specs.Finding.{module_described, module_file};
ghost use Rattle.dscript_names_workspace.specs.Membership.{dir_of as directory_of, files_of_module as module_has};
ghost use Rattle.dscript_names_workspace.specs.ModuleFiles.{file_data, files_data};
ghost use Rattle.dscript_names_workspace.specs.PathSets.{files_in};
ghost use Rattle.dscript_names_workspace.specs.Workspaces.{Faulty, configuration_fault as fault_of_module};

use crate::membership::{dir_of, implied_files};
use crate::module::{Description, described};
use crate::module_file::{ModuleFile, fault_in};
use crate::paths::path_at;
use bx_tree::{MAX_FILE_BYTES, Path, Tree};
use dscript_ast::{Expr, File, Form};
use dscript_parse::{ReadFault, read_file};
use dscript_program::{Fault, ModuleText, Place, SpecKind};
use std::alloc::{AllocError, Global};
use std::collections::BTreeMap;

/// The paths of the files at these positions.
pub(crate) fn paths_at(
    alloc: Global,
    tree: &Tree,
    positions: &[usize],
) -> Result<Vec<Path>, AllocError>
    requires { AreWithin tree.now positions.now }
    ensures { IfOk result (λ paths. paths.items ≡ paths_of_positions tree.now positions.now) }
{
    let mut paths = Vec::new(alloc);
    'positions: for position in positions {
        let path = path_at(tree, *position).share()?;
        paths.push(path)?;
    }
    Ok(paths)
}

/// Other owners of these paths.
fn shared(alloc: Global, paths: &[Path]) -> Result<Vec<Path>, AllocError>
    ensures { IfOk result (λ found. found.items ≡ paths.now) }
{
    let mut found = Vec::new(alloc);
    'paths: for path in paths {
        found.push(path.share()?)?;
    }
    Ok(found)
}

/// The files of a module, where these are the files that belong to it if it lists none.
fn files_of_module(
    alloc: Global,
    tree: &Tree,
    implied: &[Path],
    projects: Option<Vec<usize>>,
) -> Result<Vec<Path>, AllocError>
    requires { AreProjectsWithin tree.now projects }
    ensures { IfOk result (λ files.
        files.items ≡ module_has implied.now (project_paths tree.now projects)) }
{
    match projects {
        Some(positions) => paths_at(alloc, tree, positions.as_slice()),
        None => shared(alloc, implied),
    }
}

/// A module file that says something that is not allowed.
fn module_fault(path: &Path) -> Result<ModuleFile, AllocError>
    ensures { IfOk result (λ file. file_data file ≡ Faulty (fault_of_module path.now)) }
{
    Ok(ModuleFile::Faulty(fault_in(SpecKind::ModuleConfig, path)?))
}

/// The module of a description.
fn module_of(
    alloc: Global,
    tree: &Tree,
    implied: &[Path],
    path: &Path,
    description: Description,
) -> Result<ModuleFile, AllocError>
    requires { AreProjectsWithin tree.now description.projects }
    ensures { IfOk result (λ file. file_data file
        ≡ module_described tree.now implied.now path.now (description_data tree.now description)) }
{
    let lists = description.projects.is_some();
    let files = files_of_module(alloc, tree, implied, description.projects)?;
    let module = ModuleText {
        name: description.name,
        config: path.share()?,
        files,
    };
    Ok(ModuleFile::Described(module, lists))
}

/// What a module file comes to that has this expression.
fn file_with(
    alloc: Global,
    tree: &Tree,
    implied: &[Path],
    path: &Path,
    value: &Expr,
) -> Result<ModuleFile, AllocError>
    ensures { IfOk result (λ file. file_data file
        ≡ option_map_or (module_described tree.now implied.now path.now)
        (description_of tree.now (directory_of path.now) (expr_tree value.now))
        (Faulty (fault_of_module path.now))) }
{
    let dir = dir_of(alloc, path)?;
    match described(alloc, tree, &dir, value)? {
        Some(description) => module_of(alloc, tree, implied, path, description),
        None => module_fault(path),
    }
}

/// What a module file comes to, where these are the files that belong to it if it lists none.
fn file_from(
    alloc: Global,
    tree: &Tree,
    implied: &[Path],
    path: &Path,
    file: &File,
) -> Result<ModuleFile, AllocError>
    ensures { IfOk result (λ found.
        file_data found ≡ module_file tree.now implied.now path.now (Read (file_tree file.now))) }
{
    match file {
        File::Module(value) => file_with(alloc, tree, implied, path, value),
        File::Project(_) | File::Config(_) => module_fault(path),
    }
}

/// A module file that is refused at this place.
fn refused_at(kind: SpecKind, path: &Path, place: Place) -> Result<ModuleFile, AllocError>
    ensures { IfOk result (λ file. file_data file ≡ Faulty (fault_at_place kind path.now place)) }
{
    Ok(ModuleFile::Faulty(Fault {
        kind,
        file: path.share()?,
        place: Some(place),
    }))
}

/// What a module file with this text comes to, where these are the files that belong to it if it lists none.
fn read_module(
    alloc: Global,
    tree: &Tree,
    implied: &[Path],
    path: &Path,
    text: &[u8],
) -> Result<ModuleFile, AllocError>
    requires { length text.now ≤ MAX_FILE_BYTES }
    ensures { IfOk result (λ file. IsRead tree.now implied.now path.now text.now (file_data file)) }
{
    match read_file(alloc, text, Form::Module) {
        Ok(file) => file_from(alloc, tree, implied, path, &file),
        Err(ReadFault::Lex(place)) => refused_at(SpecKind::Lex, path, place),
        Err(ReadFault::Syntax(place)) => refused_at(SpecKind::Syntax, path, place),
        Err(ReadFault::Memory) => Err(AllocError),
    }
}

/// The files of a directory.
fn files_of<'a>(files: &'a BTreeMap<Path, Vec<Path>>, dir: &Path) -> &'a [Path]
    ensures { result.now ≡ files_in files.entry.now dir.now }
{
    match files.get(dir) {
        Some(own) => own.as_slice(),
        None => &[],
    }
}

/// What the module file at this path comes to, where these are the files that belong to modules which list
/// none, by directory.
fn read_listed(
    alloc: Global,
    tree: &Tree,
    implied: &BTreeMap<Path, Vec<Path>>,
    path: &Path,
) -> Result<ModuleFile, AllocError>
    requires in_size { IsInSize tree.now }
    requires there { Contains (paths_of tree.now) path.now }
    ensures { IfOk result (λ file.
        IsReadAt tree.now (files_in implied.now (directory_of path.now)) path.now (file_data file)) }
{
    let dir = dir_of(alloc, path)?;
    match tree.find(path) {
        Some(text) => {
            let own = files_of(implied, &dir);
            read_module(alloc, tree, own, path, text)
        }
        None => unreachable!(),
    }
}

/// The directories of files.
fn dirs_of(alloc: Global, paths: &[Path]) -> Result<Vec<Path>, AllocError>
    ensures { IfOk result (λ dirs. dirs.items ≡ map directory_of paths.now) }
{
    let mut dirs = Vec::new(alloc);
    'paths: for path in paths {
        let dir = dir_of(alloc, path)?;
        dirs.push(dir)?;
    }
    Ok(dirs)
}

/// What the listed module files come to, one after the other.
pub(crate) fn read_modules(
    alloc: Global,
    tree: &Tree,
    listed: &[Path],
) -> Result<Vec<ModuleFile>, AllocError>
    requires in_size { IsInSize tree.now }
    requires there { All (Contains (paths_of tree.now)) listed.now }
    ensures { IfOk result (λ found.
        AllZip (IsModuleFile tree.now (map directory_of listed.now)) listed.now (files_data found.items)) }
{
    let dirs = dirs_of(alloc, listed)?;
    let implied = implied_files(alloc, tree, dirs.as_slice())?;
    let mut found = Vec::new(alloc);
    'files: for path in listed {
        let module_file = read_listed(alloc, tree, &implied, path)?;
        found.push(module_file)?;
    }
    Ok(found)
}
