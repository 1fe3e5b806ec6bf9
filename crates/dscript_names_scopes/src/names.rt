//! The names of files, as lookups see them.

ghost use Rattle.std.specs.Prelude.{◌≡◌, ◌≤◌, IfOk, Some, option_copied};
ghost use Rattle.std.specs.List.{find, list_any, slice_get};
ghost use Rattle.std.specs.Str.{bytes_eq};
ghost use Rattle.dscript_names_scopes.specs.Declarations.{is_any, is_exported, is_public, sees_of};
ghost use Rattle.dscript_names_scopes.specs.Lookup.{module_number, opens, value_in};
ghost use Rattle.dscript_names_scopes.specs.Tables.{AreWithin, HasModulesOf};

use crate::dotted::DottedName;
use crate::opened::{Opened, opened_of_modules};
use crate::places::{Places, places_of_imports, places_of_texts};
use crate::tables::{ByModule, numbers_of, values_of_modules};
use bx_tree::{Memory, Text};
use dscript_ast::Mark;
use std::alloc::Global;
use std::collections::BTreeMap;
use std::marker::Model;

/// Who sees a declaration.
#[derive(Clone, Copy)]
pub enum Viewer {
    /// Its own file, and whoever asks whether it is there at all.
    Any,
    /// The other files of its module.
    Module,
    /// Other modules.
    Other,
}

impl Viewer {
    /// Whether a declaration with this mark is seen.
    pub fn sees(self, mark: Mark) -> bool
        ensures { result ≡ sees_of self mark }
    {
        match self {
            Viewer::Any => true,
            Viewer::Module => matches!(mark, Mark::Export | Mark::Public),
            Viewer::Other => matches!(mark, Mark::Public),
        }
    }
}

/// A declaration as others see it.
#[derive(Drop)]
pub struct Declared {
    /// The names of the namespaces around it, and its own.
    pub name: DottedName,
    pub mark: Mark,
    /// Whether it is a constant or a function.
    pub is_value: bool,
}

/// A name that a file imports.
#[derive(Drop)]
pub struct Imported {
    pub name: Text,
    /// The name of its module.
    pub module_name: Text,
    /// Its name in that module, or none where it stands for the whole module.
    pub original: Option<Text>,
}

/// The names of a file. Contracts see the number of its module, its declarations in the order of the text,
/// the first names of its namespaces, and its imports.
#[derive(Drop)]
pub struct FileNames {
    pub(crate) module_number: usize,
    pub(crate) decls: Vec<Declared>,
    pub(crate) opened: Vec<Text>,
    pub(crate) imports: Vec<Imported>,
    // the numbers of the values, by dotted name
    values: BTreeMap<DottedName, usize>,
    // the most parts that a declared name has
    longest: usize,
    // the place of the first import of each name
    places: Places,
}

impl Model for FileNames {
    ghost use Rattle.dscript_names_scopes.specs.Names.{FileNames as Names};
    ghost use Rattle.dscript_names_scopes.specs.Tables.{AreWithin, HasPlacesOf, HasValuesOf};

    ghost Value = { Names };

    ghost view = { λ f. record {
      module_number = f.module_number;
      decls = f.decls.items;
      opened = f.opened.items;
      imports = f.imports.items;
    } };

    ghost invariant = { λ f. record {
      values : HasValuesOf f.decls.items f.values;
      longest : AreWithin f.longest f.decls.items;
      places : HasPlacesOf (λ i. i.name) f.imports.items f.places.table;
    } };
}

/// The import at a place, if there is one.
fn import_at(imports: &[Imported], place: usize) -> Option<&Imported>
    ensures { option_copied result ≡ slice_get imports.now place }
{
    imports.get(place)
}

/// The greater of two numbers.
fn greater(first: usize, second: usize) -> usize
    ensures first { first ≤ result }
    ensures second { second ≤ result }
{
    if first < second { second } else { first }
}

/// The most parts that the name of one of these declarations has.
fn longest_of(decls: &[Declared]) -> usize
    ensures { AreWithin result decls.now }
{
    let mut longest = 0;
    'decls: for decl in decls {
        longest = greater(longest, decl.name.parts().len());
    }
    longest
}

impl FileNames {
    /// The names of a file of the module of this number.
    pub fn new(
        alloc: Global,
        module_number: usize,
        decls: Vec<Declared>,
        opened: Vec<Text>,
        imports: Vec<Imported>,
    ) -> Result<FileNames, Memory>
        ensures { IfOk result (λ file. file ≡ record {
          module_number = module_number;
          decls = decls.items;
          opened = opened.items;
          imports = imports.items;
        }) }
    {
        let values = numbers_of(alloc, decls.as_slice())?;
        let longest = longest_of(decls.as_slice());
        let places = places_of_imports(alloc, imports.as_slice())?;
        Ok(FileNames {
            module_number,
            decls,
            opened,
            imports,
            values,
            longest,
            places,
        })
    }

    /// The number of the module of the file.
    pub fn module_number(&self) -> usize
        ensures { result ≡ self.now.module_number }
    {
        self.module_number
    }

    /// The number of the first value with this dotted name, among all declarations of the file.
    pub(crate) fn value(&self, name: &DottedName) -> Option<usize>
        ensures { result ≡ value_in is_any self.now name.now }
    {
        if name.parts().len() > self.longest {
            return None;
        }
        self.values.get(name).copied()
    }

    /// The import that gives this name.
    pub(crate) fn import(&self, name: &Text) -> Option<&Imported>
        ensures { option_copied result ≡ find (λ i. bytes_eq i.name name.now) self.now.imports }
    {
        let place = self.places.place(name)?;
        import_at(self.imports.as_slice(), place)
    }
}

/// The names of a workspace. Contracts see the names of its modules, and the names of its files by path.
#[derive(Drop)]
pub struct World {
    pub(crate) modules: Vec<Text>,
    pub(crate) files: Vec<FileNames>,
    // the values of each module that others see, by who sees them
    exported: ByModule,
    public: ByModule,
    // the names of namespaces, by module
    namespaces: Opened,
    // the number of each module, by name
    numbers: Places,
}

impl Model for World {
    ghost use Rattle.dscript_names_scopes.specs.Declarations.{is_exported, is_public};
    ghost use Rattle.dscript_names_scopes.specs.Names.{World as AllNames};
    ghost use Rattle.dscript_names_scopes.specs.Tables.{HasModulesOf, HasOpenedOf, HasPlacesOf};

    ghost Value = { AllNames };

    ghost view = { λ w. record { modules = w.modules.items; files = w.files.items } };

    ghost invariant = { λ w. record {
      exported : HasModulesOf is_exported w.files.items w.exported.tables;
      public : HasModulesOf is_public w.files.items w.public.tables;
      namespaces : HasOpenedOf w.files.items w.namespaces.tables;
      numbers : HasPlacesOf (λ x. x) w.modules.items w.numbers.table;
    } };
}

impl World {
    /// The names of these modules and of these files, which are in the order of their paths.
    pub fn new(alloc: Global, modules: Vec<Text>, files: Vec<FileNames>) -> Result<World, Memory>
        ensures { IfOk result (λ world. world ≡ record { modules = modules.items; files = files.items }) }
    {
        let exported = values_of_modules(alloc, files.as_slice(), Viewer::Module)?;
        let public = values_of_modules(alloc, files.as_slice(), Viewer::Other)?;
        let namespaces = opened_of_modules(alloc, files.as_slice())?;
        let numbers = places_of_texts(alloc, modules.as_slice())?;
        Ok(World {
            modules,
            files,
            exported,
            public,
            namespaces,
            numbers,
        })
    }

    /// The names of the files, by path.
    pub fn files(&self) -> &[FileNames]
        ensures { result.now ≡ self.now.files }
    {
        self.files.as_slice()
    }

    /// The values that each module exports.
    pub(crate) fn exported(&self) -> &ByModule
        ensures { HasModulesOf is_exported self.now.files result.now.tables }
    {
        &self.exported
    }

    /// The values of each module that are public.
    pub(crate) fn public(&self) -> &ByModule
        ensures { HasModulesOf is_public self.now.files result.now.tables }
    {
        &self.public
    }

    /// The number of the module of this name.
    pub(crate) fn module_number(&self, name: &Text) -> Option<usize>
        ensures { result ≡ module_number self.now name.now }
    {
        self.numbers.place(name)
    }

    /// Whether there is a module of this name.
    pub(crate) fn has_module(&self, name: &Text) -> bool
        ensures { result ≡ list_any (bytes_eq name.now) self.now.modules }
    {
        self.module_number(name).is_some()
    }

    /// Whether a file of the module of this number opens a namespace of this name.
    pub(crate) fn opens(&self, number: usize, name: &Text) -> bool
        ensures { result ≡ list_any (opens name.now (Some number)) self.now.files }
    {
        self.namespaces.has(number, name)
    }
}
