//! Types by dotted name, in tables that are made once.
ghost use Rattle.std.specs.Prelude.{◌≡◌, ℕ, IfOk, OnOk, None, if◌then◌else◌, ◌==◌, map};
ghost use Rattle.std.specs.List.{AllZip};
ghost use Rattle.std.specs.Option.{option_map, option_or};
ghost use Rattle.dscript_names_scopes.specs.Declarations.{is_exported};
ghost use Rattle.dscript_program.specs.ProgramData.{Dotted};
ghost use Rattle.dscript_program.specs.Views.{decl_data, file_data, kind_data, program_data};
ghost use Rattle.dscript_types_meaning.specs.Lookups.{is_type, type_in};
ghost use Rattle.dscript_types_meaning.specs.Types.{kind_type};
ghost use Rattle.dscript_types_notes.specs.Names.{HasExportedOf, HasTypesOf, IsIndexOf, at_file, at_module, at_name};

use crate::kinds::KindTypes;
use crate::world::names_around;
use bx_tree::Memory;
use dscript_ast::Mark;
use dscript_names_scopes::DottedName;
use dscript_program::{BoundDecl, BoundFile, DeclKind, Program};
use dscript_types_data::Type;
use dscript_types_meaning::Kind;
use std::alloc::{AllocError, Global};
use std::collections::BTreeMap;

/// The types of a file by dotted name, by their numbers.
pub(crate) type OfFile = BTreeMap<DottedName, u32>;

/// The types that a module exports by dotted name, by the numbers of file and declaration.
pub(crate) type OfModule = BTreeMap<DottedName, (u32, u32)>;

/// The types of a program by dotted name.
#[derive(Drop)]
pub struct TypeNames {
    // those of each file
    pub(crate) files: Vec<OfFile>,
    // those that the files of a module export, by the number of the module
    pub(crate) modules: BTreeMap<u32, OfModule>,
    // the types of kinds, which are the same for all programs
    kinds: KindTypes,
}

// Whether a declaration is of a type.
fn is_type(kind: &DeclKind) -> bool
    ensures { result ≡ is_type (kind_data kind.now) }
{
    matches!(
        kind,
        DeclKind::Interface(_, _, _) | DeclKind::TypeAlias(_, _)
    )
}

// Whether a declaration with a mark is seen in the other files of its module.
fn is_exported(mark: Mark) -> bool
    ensures { result ≡ is_exported mark }
{
    match mark {
        Mark::Plain => false,
        Mark::Export | Mark::Public => true,
    }
}

// The dotted name of a declaration.
fn name_of(alloc: Global, decl: &BoundDecl) -> Result<DottedName, Memory>
    ensures { IfOk result (λ name. name ≡ (decl_data decl.now).name) }
{
    let mut parts = names_around(alloc, decl)?;
    parts.push(decl.name.share()?)?;
    Ok(DottedName::new(parts))
}

// A number of a file or a declaration.
fn number(place: usize) -> Result<u32, Memory>
    ensures { IfOk result (λ n. n ≡ place) }
{
    match u32::try_from(place) {
        Ok(number) => Ok(number),
        Err(_) => Err(AllocError),
    }
}

// The types of a file. Of two with one name the first counts, as it is put in last.
fn types_of_file(alloc: Global, decls: &[BoundDecl]) -> Result<OfFile, Memory>
    ensures { IfOk result (λ types. HasTypesOf (map decl_data decls.now) types) }
{
    let mut types = BTreeMap::new(alloc);
    let mut left = decls;
    'last: while let Some((decl, before)) = left.split_last() {
        if is_type(&decl.kind) {
            types.insert(name_of(alloc, decl)?, number(before.len())?)?;
        }
        left = before;
    }
    Ok(types)
}

// Puts the types that a file exports before those that are there.
fn add_exported(
    types: &mut OfModule,
    alloc: Global,
    file: u32,
    decls: &[BoundDecl],
) -> Result<(), Memory>
    ensures { OnOk result ((name : Dotted) → at_name types.new name
        ≡ option_or (option_map (λ decl. (file, decl)) (type_in is_exported (map decl_data decls.now) name))
        (at_name types.old name)) }
{
    let mut left = decls;
    'last: while let Some((decl, before)) = left.split_last() {
        if is_type(&decl.kind) && is_exported(decl.mark) {
            types.insert(name_of(alloc, decl)?, (file, number(before.len())?))?;
        }
        left = before;
    }
    Ok(())
}

// Puts the types that a file exports before those of the other files of its module.
fn add_file(
    modules: &mut BTreeMap<u32, OfModule>,
    alloc: Global,
    number: u32,
    file: &BoundFile,
) -> Result<(), Memory>
    ensures { OnOk result ((m : ℕ) (name : Dotted) → at_module modules.new m name
        ≡ option_or
        (if file.now.module == m
        then option_map (λ decl. (number, decl)) (type_in is_exported (file_data file.now).decls name) else None)
        (at_module modules.old m name)) }
{
    let mut types = modules.remove(&file.module).unwrap_or(BTreeMap::new(alloc));
    add_exported(&mut types, alloc, number, file.decls.as_slice())?;
    modules.insert(file.module, types)?;
    Ok(())
}

// The types that all modules export.
fn types_of_modules(alloc: Global, files: &[BoundFile]) -> Result<BTreeMap<u32, OfModule>, Memory>
    ensures { IfOk result (λ modules. HasExportedOf (map file_data files.now) modules) }
{
    let mut modules = BTreeMap::new(alloc);
    let mut left = files;
    'last: while let Some((file, before)) = left.split_last() {
        add_file(&mut modules, alloc, number(before.len())?, file)?;
        left = before;
    }
    Ok(modules)
}

// The types of each file.
fn types_of_files(alloc: Global, files: &[BoundFile]) -> Result<Vec<OfFile>, Memory>
    ensures { IfOk result (λ all. AllZip (λ f types. HasTypesOf f.decls types) (map file_data files.now) all.items) }
{
    let mut all = Vec::with_capacity(alloc, files.len())?;
    'files: for file in files {
        all.push(types_of_file(alloc, file.decls.as_slice())?)?;
    }
    Ok(all)
}

impl TypeNames {
    /// The tables of a program.
    pub fn new(alloc: Global, program: &Program) -> Result<TypeNames, Memory>
        ensures { IfOk result (λ names. IsIndexOf (program_data program.now) names) }
    {
        Ok(TypeNames {
            files: types_of_files(alloc, program.files())?,
            modules: types_of_modules(alloc, program.files())?,
            kinds: KindTypes::new(alloc)?,
        })
    }

    /// The type of a kind.
    pub fn kind(&self, alloc: Global, kind: Kind) -> Result<Type, Memory>
        ensures { IfOk result (λ t. t ≡ kind_type kind) }
    {
        self.kinds.share(alloc, kind)
    }

    // The type of a file with this dotted name.
    pub(crate) fn in_file(&self, file: u32, name: &DottedName) -> Option<u32>
        ensures { result ≡ at_file self.now file name.now }
    {
        match self.files.get(file as usize) {
            Some(types) => types.get(name).copied(),
            None => None,
        }
    }

    // The type that a module exports with this dotted name.
    pub(crate) fn in_module(&self, owner: u32, name: &DottedName) -> Option<(u32, u32)>
        ensures { result ≡ at_module self.now.modules owner name.now }
    {
        self.modules.get(&owner)?.get(name).copied()
    }
}
