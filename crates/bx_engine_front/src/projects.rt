//! The project files of a workspace.

ghost use Rattle.std.specs.Prelude.{◌≡◌, ◌++◌, ◌≤◌, IfOk, MatchResult, OnOk, length};
ghost use Rattle.std.specs.List.{AllByRecursion};
ghost use Rattle.std.specs.List.Sorted.{IsSorted};
ghost use Rattle.bx_tree.specs.Paths.{has_path, path_cmp};
ghost use Rattle.bx_tree.specs.Views.{file_of, files_of};
ghost use Rattle.dscript_ast.specs.Views.{file_tree};
ghost use Rattle.dscript_ast.specs.declared.file.Form.{Form as AnyForm};
ghost use Rattle.dscript_program.specs.Workspaces.{modules_data, modules_of};
ghost use Rattle.dscript_names.specs.Views.{parsed_data};
ghost use Rattle.dscript_parse.specs.Reading.{IsFile};
ghost use Rattle.dscript_names_workspace.specs.Finding.{fault_at as fault_with};
ghost use Rattle.bx_engine_front.specs.FileFaults.{IsSameFault, RefusesFile, RefusesFiles};
ghost use Rattle.dscript_names.specs.ProjectFiles.{AreParsed, IsParsed, all_parsed, files_among};
ghost use Rattle.dscript_names.specs.ProjectFiles.{paths_of_modules, project_files as files_of_projects};
ghost use Rattle.bx_engine_front.specs.Projects.{IsShort, lent_files};

use bx_tree::{MAX_FILE_BYTES, Path, Tree, TreeFile};
use dscript_ast::{File, Form};
use dscript_names::Parsed;
use dscript_parse::{ReadFault, read_file};
use dscript_program::{ModuleText, Place, SpecFault, SpecKind, Workspace};
use std::alloc::{AllocError, Global};

/// Appends these paths.
fn share_all(paths: &mut Vec<Path>, more: &[Path]) -> Result<(), AllocError>
    ensures { OnOk result (paths.new.items ≡ paths.old.items ++ more.now) }
{
    'paths: for path in more {
        paths.push(path.share()?)?;
    }
    Ok(())
}

/// The paths of the files of all modules.
fn module_paths(alloc: Global, modules: &[ModuleText]) -> Result<Vec<Path>, AllocError>
    ensures { IfOk result (λ paths. paths.items ≡ paths_of_modules (modules_data modules.now)) }
{
    let mut paths = Vec::new(alloc);
    'modules: for module in modules {
        share_all(&mut paths, module.files.as_slice())?;
    }
    Ok(paths)
}

/// Whether a path is one of these, which are in order.
fn is_among(paths: &[Path], path: &Path) -> bool
    requires { IsSorted path_cmp paths.now }
    ensures { result ≡ has_path paths.now path.now }
{
    paths.binary_search(path).is_ok()
}

/// The files at these paths, which are in order.
fn files_at<'a>(
    alloc: Global,
    files: &'a [TreeFile],
    paths: &[Path],
) -> Result<Vec<&'a TreeFile>, AllocError>
    requires { IsSorted path_cmp paths.now }
    ensures { IfOk result (λ found.
        lent_files found.items ≡ files_among paths.now (files_of files.entry.now)) }
{
    let mut found = Vec::new(alloc);
    'files: for file in files {
        if is_among(paths, &file.path) {
            found.push(file)?;
        }
    }
    Ok(found)
}

/// The files of all modules, in the order of the tree.
pub(crate) fn project_files<'a>(
    alloc: Global,
    tree: &'a Tree,
    workspace: &Workspace,
) -> Result<Vec<&'a TreeFile>, AllocError>
    ensures { IfOk result (λ found.
        lent_files found.items ≡ files_of_projects tree.entry.now (modules_of workspace.now)) }
{
    let mut paths = module_paths(alloc, workspace.modules.as_slice())?;
    paths.sort_unstable();
    files_at(alloc, tree.files(), paths.as_slice())
}

/// A fault of this kind at a place in a file.
fn fault_at(kind: SpecKind, file: &Path, place: Place) -> SpecFault
    ensures { IsSameFault (fault_with kind file.now place) result }
{
    match file.share() {
        Ok(file) => SpecFault::Fault {
            kind,
            file,
            place: Some(place),
        },
        Err(_) => SpecFault::Memory,
    }
}

/// The syntax tree of a project file.
fn read_project(alloc: Global, file: &TreeFile) -> Result<File, SpecFault>
    requires { length file.now.bytes.items ≤ MAX_FILE_BYTES }
    ensures { MatchResult result
        (λ tree. IsFile AnyForm.Project file.now.bytes.items (file_tree tree))
        (λ fault. RefusesFile (file_of file.now) fault) }
{
    match read_file(alloc, file.bytes.as_slice(), Form::Project) {
        Ok(tree) => Ok(tree),
        Err(ReadFault::Lex(place)) => Err(fault_at(SpecKind::Lex, &file.path, place)),
        Err(ReadFault::Syntax(place)) => Err(fault_at(SpecKind::Syntax, &file.path, place)),
        Err(ReadFault::Memory) => Err(SpecFault::Memory),
    }
}

/// A project file with its syntax tree.
fn parse_project(alloc: Global, file: &TreeFile) -> Result<Parsed, SpecFault>
    requires { length file.now.bytes.items ≤ MAX_FILE_BYTES }
    ensures { MatchResult result
        (λ parsed. IsParsed (file_of file.now) (parsed_data parsed))
        (λ fault. RefusesFile (file_of file.now) fault) }
{
    let tree = read_project(alloc, file)?;
    let path = file.path.share()?;
    Ok(Parsed { path, file: tree })
}

/// Project files with their syntax trees, or the fault of the first that is ill-formed.
pub(crate) fn parse_projects(alloc: Global, files: &[&TreeFile]) -> Result<Vec<Parsed>, SpecFault>
    requires { AllByRecursion IsShort (lent_files files.now) }
    ensures { MatchResult result
        (λ parsed. AreParsed (lent_files files.now) (all_parsed parsed.items))
        (λ fault. RefusesFiles (lent_files files.now) fault) }
{
    let mut parsed = Vec::new(alloc);
    'files: for file in files {
        let read = parse_project(alloc, file)?;
        parsed.push(read)?;
    }
    Ok(parsed)
}
