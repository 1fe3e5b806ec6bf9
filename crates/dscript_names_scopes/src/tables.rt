//! Tables of values by dotted name, which are made once and searched by each lookup.

ghost use Rattle.std.specs.Prelude.{◌≡◌, ℕ, IfOk, IsTrue, OnOk, None, if◌then◌else◌, ◌==◌};
ghost use Rattle.std.specs.List.{position_from};
ghost use Rattle.std.specs.Option.{option_map, option_or};
ghost use Rattle.dscript_program.specs.ProgramData.{Dotted};
ghost use Rattle.dscript_program.specs.declared.target.Target.TheVariants as targets;
ghost use Rattle.dscript_names_scopes.specs.Declarations.{sees_of};
ghost use Rattle.dscript_names_scopes.specs.Lookup.{is_value_of, value_in};
ghost use Rattle.dscript_names_scopes.specs.Tables.{HasModulesOf, HasValuesOf, at_module, at_name};

use crate::dotted::DottedName;
use crate::names::{Declared, FileNames, Viewer};
use bx_tree::Memory;
use dscript_program::Target;
use std::alloc::{AllocError, Global};
use std::collections::BTreeMap;

/// The target with these numbers of a file and a declaration.
pub(crate) fn declared(file: usize, decl: usize) -> Result<Target, Memory>
    ensures { IfOk result (λ target. target ≡ targets.Declared file decl) }
{
    let Ok(file) = u32::try_from(file) else {
        return Err(AllocError);
    };
    let Ok(decl) = u32::try_from(decl) else {
        return Err(AllocError);
    };
    Ok(Target::Declared { file, decl })
}

/// The numbers of the values among these declarations, by dotted name. Of two with one name the first counts,
/// as it is put in last.
pub(crate) fn numbers_of(
    alloc: Global,
    decls: &[Declared],
) -> Result<BTreeMap<DottedName, usize>, Memory>
    ensures { IfOk result (λ numbers. HasValuesOf decls.now numbers) }
{
    let mut numbers = BTreeMap::new(alloc);
    let mut left = decls;
    'last: while let Some((decl, before)) = left.split_last() {
        if decl.is_value {
            numbers.insert(decl.name.share(alloc)?, before.len())?;
        }
        left = before;
    }
    Ok(numbers)
}

/// Puts the values of a file that are seen before those that are there.
fn add_values(
    values: &mut BTreeMap<DottedName, Target>,
    alloc: Global,
    number: usize,
    decls: &[Declared],
    viewer: Viewer,
) -> Result<(), Memory>
    ensures { OnOk result ((name : Dotted) → at_name values.new name
        ≡ option_or
        (option_map (targets.Declared number) (position_from (is_value_of (sees_of viewer) name) 0 decls.now))
        (at_name values.old name)) }
{
    let mut left = decls;
    'last: while let Some((decl, before)) = left.split_last() {
        if decl.is_value && viewer.sees(decl.mark) {
            let target = declared(number, before.len())?;
            values.insert(decl.name.share(alloc)?, target)?;
        }
        left = before;
    }
    Ok(())
}

/// Whether a table has no value.
#[tactic(auto, using(crate::proofs::TableValues::none_in))]
fn is_empty(values: &BTreeMap<DottedName, Target>) -> bool
    ensures { IsTrue result → (name : Dotted) → at_name values.now name ≡ None }
{
    values.is_empty()
}

/// Values by the number of their module and their dotted name. Contracts see the table.
#[derive(Drop)]
pub(crate) struct ByModule {
    pub(crate) tables: BTreeMap<usize, BTreeMap<DottedName, Target>>,
}

impl ByModule {
    /// The value of a module with this dotted name.
    pub(crate) fn value(&self, owner: usize, name: &DottedName) -> Option<Target>
        ensures { result ≡ at_module self.now.tables owner name.now }
    {
        self.tables.get(&owner)?.get(name).copied()
    }

    /// Whether the module has no value.
    pub(crate) fn has_none(&self, owner: usize) -> bool
        ensures { IsTrue result → (name : Dotted) → at_module self.now.tables owner name ≡ None }
    {
        match self.tables.get(&owner) {
            Some(values) => is_empty(values),
            None => true,
        }
    }

    /// Puts the values of a file that are seen before those of the other files of its module.
    fn add_file(
        &mut self,
        alloc: Global,
        number: usize,
        file: &FileNames,
        viewer: Viewer,
    ) -> Result<(), Memory>
        ensures { OnOk result ((m : ℕ) (name : Dotted) → at_module self.new.tables m name
            ≡ option_or
            (if file.now.module_number == m
            then option_map (targets.Declared number) (value_in (sees_of viewer) file.now name) else None)
            (at_module self.old.tables m name)) }
    {
        let owner = file.module_number;
        let mut values = self.tables.remove(&owner).unwrap_or(BTreeMap::new(alloc));
        add_values(&mut values, alloc, number, file.decls.as_slice(), viewer)?;
        self.tables.insert(owner, values)?;
        Ok(())
    }
}

/// The values of all modules that are seen.
pub(crate) fn values_of_modules(
    alloc: Global,
    files: &[FileNames],
    viewer: Viewer,
) -> Result<ByModule, Memory>
    ensures { IfOk result (λ modules. HasModulesOf (sees_of viewer) files.now modules.tables) }
{
    let mut modules = ByModule {
        tables: BTreeMap::new(alloc),
    };
    let mut left = files;
    'last: while let Some((file, before)) = left.split_last() {
        modules.add_file(alloc, before.len(), file, viewer)?;
        left = before;
    }
    Ok(modules)
}
