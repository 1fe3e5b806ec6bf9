//! Resolves the names of a workspace.

ghost use Rattle.std.specs.Prelude.{◌≡◌, [], IfOk, MatchResult, Ok, length, map};
ghost use Rattle.dscript_ast.specs.Views.{file_tree, item_tree};
ghost use Rattle.dscript_names_binding.specs.Walked.{table_of};
ghost use Rattle.dscript_program.specs.Workspaces.{modules_data, modules_of};
ghost use Rattle.dscript_names.specs.Named.{named};
ghost use Rattle.dscript_names.specs.Resolving.{IsFaultOf, ResolvesFile, bind_each, files_of};
ghost use Rattle.dscript_names.specs.Views.{IsRefused, parsed_data};
ghost use Rattle.dscript_program.specs.Views.{program_data};
ghost use Rattle.dscript_names_scopes.specs.Declarations.{items_of};

use crate::gathering::gather;
use crate::parsed::Parsed;
use bx_tree::{Memory, Path, Text};
use dscript_ast::{File, Item};
use dscript_names_binding::{Binder, Scene, Walker, number_of};
use dscript_names_scopes::{FileNames, Scopes, Site, Stop, World};
use dscript_program::{BoundFile, ModuleText, Program, SpecFault, Workspace};
use std::alloc::Global;

/// The names of modules.
fn module_names(alloc: Global, modules: &[ModuleText]) -> Result<Vec<Text>, Memory>
    ensures { IfOk result (λ names. names.items ≡ map (λ m. m.name) (modules_data modules.now)) }
{
    let mut names = Vec::new(alloc);
    'modules: for module in modules {
        names.push(module.name.share()?)?;
    }
    Ok(names)
}

/// The items of a project file.
fn into_items(file: File, alloc: Global) -> Vec<Item>
    ensures { map item_tree result.items ≡ items_of (file_tree file) }
{
    match file {
        File::Project(items) => items,
        _ => Vec::new(alloc),
    }
}

/// A program of which some files are resolved.
#[derive(Drop)]
struct Resolving {
    binder: Binder,
    files: Vec<BoundFile>,
}

impl Resolving {
    /// Nothing is resolved yet.
    fn new(alloc: Global) -> Resolving
        ensures files { files_of result ≡ [] }
        ensures table { table_of result.binder.walker ≡ [] }
    {
        Resolving {
            binder: Binder {
                walker: Walker {
                    scopes: Scopes::new(alloc),
                    locals: 0,
                    functions: Vec::new(alloc),
                    names: Vec::new(alloc),
                },
                decls: Vec::new(alloc),
            },
            files: Vec::new(alloc),
        }
    }

    /// Resolves the names of the file of this number.
    fn file(
        &mut self,
        alloc: Global,
        world: &World,
        names: &FileNames,
        number: usize,
        items: Vec<Item>,
        path: Path,
    ) -> Result<(), SpecFault>
        ensures { ResolvesFile world.now number names.now (map item_tree items.items) path
            self.old self.new result }
    {
        let module = number_of(names.module_number())?;
        let scene = Scene {
            alloc,
            world,
            site: Site {
                number,
                file: names,
                around: &[],
            },
        };
        match self.binder.file(&scene, items) {
            Ok(decls) => {
                self.files.push(BoundFile {
                    path,
                    module,
                    decls,
                })?;
                Ok(())
            }
            Err(Stop::Fault(kind)) => Err(SpecFault::Fault {
                kind,
                file: path,
                place: None,
            }),
            Err(Stop::Memory) => Err(SpecFault::Memory),
        }
    }
}

/// Resolves the names of all files.
fn bind(alloc: Global, world: &World, parsed: Vec<Parsed>) -> Result<Program, SpecFault>
    requires { length world.now.files ≡ length parsed.items }
    ensures { MatchResult result
        (λ program. bind_each world.now 0 world.now.files (map parsed_data parsed.items) 0
        ≡ Ok (program_data program))
        (λ fault. IsFaultOf (bind_each world.now 0 world.now.files (map parsed_data parsed.items) 0) fault) }
{
    let mut resolving = Resolving::new(alloc);
    let names = world.files();
    let mut number = 0;
    'files: for file in parsed {
        let items = into_items(file.file, alloc);
        resolving.file(alloc, world, &names[number], number, items, file.path)?;
        number += 1;
    }
    Ok(Program {
        files: resolving.files,
        functions: resolving.binder.walker.functions,
    })
}

/// The program of a workspace with its parsed files, which are in the order of their paths, or the first
/// fault of its names: `DuplicateName` over all files, and then `UnknownName`, `UnknownModule`, `NotPublic`
/// and `AssignCaptured`, by file and by the place of the name. docs/FORMATS.md says when each comes.
pub fn resolve(work: &Workspace, parsed: Vec<Parsed>) -> Result<Program, SpecFault>
    ensures { MatchResult result
        (λ program. named (modules_of work.now) (map parsed_data parsed.items) ≡ Ok (program_data program))
        (λ fault. IsRefused (modules_of work.now) (map parsed_data parsed.items) fault) }
{
    let alloc = *parsed.allocator();
    let files = gather(alloc, work, parsed.as_slice())?;
    let names = module_names(alloc, work.modules.as_slice())?;
    let world = World::new(alloc, names, files)?;
    bind(alloc, &world, parsed)
}
