//! The names of all files, and whether a name is declared twice.

ghost use Rattle.std.specs.Prelude.{◌≡◌, ◌||◌, ◌∷◌, [], ◌++◌, IfOk, MatchResult, None, map};
ghost use Rattle.std.specs.List.{list_any};
ghost use Rattle.bx_tree.specs.Paths.{same_path};
ghost use Rattle.dscript_ast.specs.Views.{file_tree, item_tree};
ghost use Rattle.dscript_program.specs.Workspaces.{modules_of};
ghost use Rattle.dscript_names_scopes.specs.Declarations.{items_of, names_of};
ghost use Rattle.dscript_names_scopes.specs.Duplicates.{first_duplicate, has_repeat, item_repeats, repeats};
ghost use Rattle.dscript_names.specs.Exports.{exported_at};
ghost use Rattle.dscript_names.specs.Gathering.{Adds, IsDuplicate, IsDuplicateIn};
ghost use Rattle.dscript_names.specs.Views.{parsed_data};

use crate::collecting::{Names, names_of};
use crate::exported::{Exports, decl_names, exported_names, import_names};
use crate::owners::owners_of;
use crate::parsed::Parsed;
use crate::repeats::blocks_repeat;
use crate::seen::{either, has_repeat};
use bx_tree::{Memory, Path};
use dscript_ast::{File, Item};
use dscript_names_scopes::{DottedName, FileNames};
use dscript_program::{SpecFault, SpecKind, Workspace};
use std::alloc::Global;
use std::collections::BTreeMap;

/// The names of the files so far, and what their modules export.
#[derive(Drop)]
pub(crate) struct Gathering {
    pub(crate) files: Vec<FileNames>,
    pub(crate) exports: Exports,
}

/// The items of a project file.
fn items_in(file: &File) -> &[Item]
    ensures { map item_tree result.now ≡ items_of (file_tree file.now) }
{
    match file {
        File::Project(items) => items.as_slice(),
        _ => &[],
    }
}

/// Whether a file has a name twice among its declarations, among its imports or in a block.
fn repeats_itself(alloc: Global, names: &Names, items: &[Item]) -> Result<bool, Memory>
    ensures { IfOk result (λ twice. twice
        ≡ (has_repeat same_path (map (λ d. d.name) names.now.decls.items)
        || (repeats (map (λ i. i.name) names.now.imports.items)
        || list_any item_repeats (map item_tree items.now)))) }
{
    let decls = decl_names(alloc, names.decls.as_slice())?;
    let declared = has_repeat(decls);
    let imports = import_names(alloc, names.imports.as_slice())?;
    let imported = has_repeat(imports);
    let in_blocks = blocks_repeat(alloc, items)?;
    let others = either(imported, in_blocks);
    Ok(either(declared, others))
}

impl Gathering {
    /// Adds a file of the module of this number, and answers whether it has a name twice, or exports one that an
    /// earlier file of its module exports.
    fn add(&mut self, alloc: Global, owner: usize, items: &[Item]) -> Result<bool, Memory>
        ensures { Adds self.old self.new owner (map item_tree items.now) result }
    {
        let names = names_of(alloc, items)?;
        let exported = exported_names(alloc, names.decls.as_slice())?;
        let repeats = repeats_itself(alloc, &names, items)?;
        let clashes = self.exports.has_one_of(owner, exported.as_slice());
        self.exports.add(alloc, owner, exported)?;
        let Names {
            decls,
            opened,
            imports,
        } = names;
        let file = FileNames::new(alloc, owner, decls, opened, imports)?;
        self.files.push(file)?;
        Ok(either(repeats, clashes))
    }
}

/// The fault that this file has a name twice.
fn duplicate_in(file: &Path) -> SpecFault
    ensures { IsDuplicateIn file.now result }
{
    match file.share() {
        Ok(file) => SpecFault::Fault {
            kind: SpecKind::DuplicateName,
            file,
            place: None,
        },
        Err(_) => SpecFault::Memory,
    }
}

/// The names of all files, unless one has a name twice.
pub(crate) fn gather(
    alloc: Global,
    work: &Workspace,
    parsed: &[Parsed],
) -> Result<Vec<FileNames>, SpecFault>
    ensures { MatchResult result
        (λ files. (files.items ≡ map (names_of (modules_of work.now)) (map parsed_data parsed.now))
        × (first_duplicate (modules_of work.now) [] (map parsed_data parsed.now) ≡ None))
        (λ fault. IsDuplicate (modules_of work.now) (map parsed_data parsed.now) fault) }
{
    let owners = owners_of(alloc, work.modules.as_slice())?;
    let mut gathering = Gathering {
        files: Vec::new(alloc),
        exports: Exports {
            tables: BTreeMap::new(alloc),
        },
    };
    'files: for file in parsed {
        let owner = owners.number(&file.path);
        let items = items_in(&file.file);
        let duplicate = gathering.add(alloc, owner, items)?;
        if duplicate {
            return Err(duplicate_in(&file.path));
        }
    }
    Ok(gathering.files)
}
