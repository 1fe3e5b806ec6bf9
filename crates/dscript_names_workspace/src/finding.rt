//! Finds the workspace of a tree.

ghost use Rattle.std.specs.Prelude.{◌≡◌, ◌∷◌, ◌≤◌, [], codes, IfOk, MatchResult, length};
ghost use Rattle.bx_path.specs.Joining.{join_of};
ghost use Rattle.bx_tree.specs.Bundle.{IsInSize};
ghost use Rattle.dscript_ast.specs.Views.{expr_tree, file_tree};
ghost use Rattle.dscript_names_workspace.specs.Configs.{configured as modules_configured};
ghost use Rattle.dscript_names_workspace.specs.Paths.{AreWithin, paths_at as paths_of_positions};
ghost use Rattle.dscript_program.specs.Workspaces.{module_data, modules_of};
ghost use Rattle.dscript_parse.specs.Reading.{Read};
ghost use Rattle.dscript_names_workspace.specs.Finding.{ComesTo, Finds, LeadsTo, Lists, Starts};
ghost use Rattle.dscript_names_workspace.specs.Finding.{main_module as only_module};
ghost use Rattle.dscript_names_workspace.specs.Membership.{config_path};
ghost use Rattle.dscript_names_workspace.specs.ModuleFiles.{files_data};
ghost use Rattle.dscript_names_workspace.specs.Views.{Answers, IsRefused};
ghost use Rattle.dscript_names_workspace.specs.Workspaces.{Found, Refused, answer_of as answer_among};

use crate::config::configured;
use crate::module_file::{ModuleFile, file_fault, modules_in, name_fault};
use crate::module_reading::{paths_at, read_modules};
use bx_path::join;
use bx_tree::{MAX_FILE_BYTES, Path, PathFault, Text, Tree};
use dscript_ast::{Expr, File, Form};
use dscript_parse::{ReadFault, read_file};
use dscript_program::{Fault, ModuleText, Place, SpecFault, SpecKind, Workspace};
use std::alloc::{AllocError, Global};

/// The file of this name at the root.
fn root_file(alloc: Global, name: &[u8]) -> Result<Path, AllocError>
    requires { join_of [] name.now ≡ Some (name.now ∷ []) }
    ensures { IfOk result (λ path. path ≡ name.now ∷ []) }
{
    let root = Path::root(alloc)?;
    match join(alloc, &root, name) {
        Ok(path) => Ok(path),
        Err(PathFault::BadPath) => unreachable!(),
        Err(PathFault::Memory) => Err(AllocError),
    }
}

/// The workspace of these module files, or the first fault among them.
fn answer_of(alloc: Global, module_files: Vec<ModuleFile>) -> Result<Workspace, SpecFault>
    ensures { Answers (λ answer. answer ≡ answer_among (files_data module_files.items)) result }
{
    if let Some(fault) = file_fault(alloc, module_files.as_slice())? {
        return Err(fault.into());
    }
    let modules = modules_in(alloc, module_files)?;
    if let Some(fault) = name_fault(alloc, modules.as_slice())? {
        return Err(fault.into());
    }
    Ok(Workspace { modules })
}

/// The workspace of the module files at these positions, or the first fault in them.
fn workspace_of(alloc: Global, tree: &Tree, positions: Vec<usize>) -> Result<Workspace, SpecFault>
    requires in_size { IsInSize tree.now }
    requires within { AreWithin tree.now positions.items }
    ensures { Answers (ComesTo tree.now (paths_of_positions tree.now positions.items)) result }
{
    let listed = paths_at(alloc, tree, positions.as_slice())?;
    let module_files = read_modules(alloc, tree, listed.as_slice())?;
    answer_of(alloc, module_files)
}

/// A fault of the configuration.
fn config_fault(alloc: Global, kind: SpecKind, place: Option<Place>) -> Result<Workspace, SpecFault>
    ensures { Answers (λ answer.
        answer ≡ Refused (record { kind = kind; file = config_path; place = place })) result }
{
    Err(SpecFault::Fault {
        kind,
        file: root_file(alloc, b"config.dsc")?,
        place,
    })
}

/// The workspace of the module files that a configuration lists, or the first fault.
fn listed_workspace(alloc: Global, tree: &Tree, value: &Expr) -> Result<Workspace, SpecFault>
    requires { IsInSize tree.now }
    ensures { Answers (Lists tree.now (modules_configured tree.now (expr_tree value.now))) result }
{
    match configured(alloc, tree, value)? {
        Some(positions) => workspace_of(alloc, tree, positions),
        None => config_fault(alloc, SpecKind::ModuleConfig, None),
    }
}

/// The workspace of a tree with this configuration, or the first fault.
fn configured_workspace(alloc: Global, tree: &Tree, file: &File) -> Result<Workspace, SpecFault>
    requires { IsInSize tree.now }
    ensures { Answers (LeadsTo tree.now (Read (file_tree file.now))) result }
{
    match file {
        File::Config(value) => listed_workspace(alloc, tree, value),
        File::Project(_) | File::Module(_) => config_fault(alloc, SpecKind::ModuleConfig, None),
    }
}

/// The workspace of a tree whose configuration has this text, or the first fault.
fn with_config(alloc: Global, tree: &Tree, text: &[u8]) -> Result<Workspace, SpecFault>
    requires text_fits { length text.now ≤ MAX_FILE_BYTES }
    requires in_size { IsInSize tree.now }
    ensures { Answers (Starts tree.now (Some text.now)) result }
{
    match read_file(alloc, text, Form::Config) {
        Ok(file) => configured_workspace(alloc, tree, &file),
        Err(ReadFault::Lex(place)) => config_fault(alloc, SpecKind::Lex, Some(place)),
        Err(ReadFault::Syntax(place)) => config_fault(alloc, SpecKind::Syntax, Some(place)),
        Err(ReadFault::Memory) => Err(SpecFault::Memory),
    }
}

/// The name of the one module of a tree without a configuration.
fn main_name(alloc: Global) -> Result<Text, AllocError>
    ensures { IfOk result (λ name. name ≡ codes "main") }
{
    let mut bytes = Vec::new(alloc);
    bytes.extend_from_slice(b"main")?;
    Text::new(alloc, bytes)
}

/// The one module of a tree without a configuration.
fn main_module(alloc: Global) -> Result<ModuleText, AllocError>
    ensures { IfOk result (λ own. module_data own ≡ only_module) }
{
    let config = root_file(alloc, b"build.dsc")?;
    let mut files = Vec::new(alloc);
    files.push(config.share()?)?;
    Ok(ModuleText {
        name: main_name(alloc)?,
        config,
        files,
    })
}

/// The workspace of a tree without a configuration.
fn without_config(alloc: Global, tree: &Tree) -> Result<Workspace, SpecFault>
    ensures { Answers (Starts tree.now None) result }
{
    let build = root_file(alloc, b"build.dsc")?;
    if tree.find(&build).is_none() {
        return config_fault(alloc, SpecKind::ModuleConfig, None);
    }
    let mut modules = Vec::new(alloc);
    modules.push(main_module(alloc)?)?;
    Ok(Workspace { modules })
}

/// The workspace of a tree, or its first fault: that of `config.dsc`, then those of the module files by path,
/// then names of modules that are taken. Project files are not read. docs/FORMATS.md has the form of
/// configurations.
pub fn find_workspace(alloc: Global, tree: &Tree) -> Result<Workspace, SpecFault>
    requires { IsInSize tree.now }
    ensures { MatchResult result
        (λ workspace. Finds tree.now (Found (modules_of workspace)))
        (λ fault. IsRefused tree.now fault) }
{
    let config = root_file(alloc, b"config.dsc")?;
    match tree.find(&config) {
        Some(text) => with_config(alloc, tree, text),
        None => without_config(alloc, tree),
    }
}
